// Tables of two-byte numbers in lent memory. Reading past the end gives 0 and writing past it changes nothing.
#![tactic(auto)]

ghost use Rattle.std.specs.Prelude.{◌≡◌, true, ◌+◌, ◌≤◌, length, get_or, set};
ghost use Rattle.tables.specs.Held.{zeroed_first, ZeroFrom};

// The number at `i`.
pub fn entry(table: &[u16], i: usize) -> u16
    ensures { result ≡ get_or table.now i 0 }
{
    table.get(i).copied().unwrap_or(0)
}

// Stores a number at `i`.
pub fn set_entry(table: &mut [u16], i: usize, v: u16)
    ensures { table.new ≡ set table.old i v }
{
    if i < table.len() {
        table[i] = v;
    }
}

// Zeroes the first `n` numbers.
pub fn zero_first(table: &mut [u16], n: usize)
    requires { n ≤ length table.old }
    ensures { table.new ≡ zeroed_first n table.old }
{
    table[..n].fill(0);
}

// Copies a table of the same length.
pub fn copy_entries(source: &[u16], table: &mut [u16])
    requires { length source.now ≡ length table.old }
    ensures { table.new ≡ source.now }
{
    table.copy_from_slice(source);
}

// Whether the 82 numbers from `from` on, as many as an anode block holds, are all there and 0: no early way out, so that many are tested at once.
pub fn zeros_from(table: &[u16], from: usize) -> bool
    ensures { result ≡ true → ZeroFrom table.now from (from + 82) }
{
    if table.len() < 82 {
        return false;
    }
    if table.len() - 82 < from {
        return false;
    }
    let mut any: u16 = 0;
    for x in &table[from..from + 82] {
        any |= *x;
    }
    any == 0
}
