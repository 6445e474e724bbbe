// The bytes of the hard disk edition's bitmap, from a block table: made in a buffer, or compared with it.
#![tactic(auto)]

ghost use Rattle.std.specs.Prelude.{◌≡◌, ◌+◌, ◌*◌, ◌/◌, ◌%◌, ◌<◌, ◌≤◌, length};
ghost use Rattle.bitmap.specs.Bits.{with_bit, bits_from, byte_of};
ghost use Rattle.bitmap.specs.Bitmap.{bitmap_word, bitmap_byte, tabulate, first_differing};
ghost use Rattle.bitmap.specs.Table.{free_at, free_bit, Carried};

// Shift and mask: the longword with the bit of one block set, the highest bit for the first.
fn set_bit(w: u32, i: u32) -> u32
    requires { i < 32 }
    ensures { result ≡ with_bit w i }
{
    w | (1 << (31 - i))
}

// 32 blocks' bits from the owners of as many blocks as the part has; the bits past them are 0.
fn bits_in(part: &[u16]) -> u32
    requires { length part.now ≤ 32 }
    ensures { result ≡ bits_from (free_at part.now) 0 32 }
{
    let mut w: u32 = 0;
    for (i, owner) in part.iter().enumerate() {
        if *owner == 1 {
            w = set_bit(w, i as u32);
        }
    }
    w
}

// 32 blocks' bits from bit `at` on, taken from a part of 32 owners, a length that the compiler knows, except where the blocks end.
fn longword(table: &[u16], n: usize, first: usize, at: usize) -> u32
    requires { (n ≤ length table.now) × (first ≤ 65536) × (at ≤ 900000000) }
    ensures { result ≡ bits_from (free_bit table.now n first) at 32 }
{
    let from = first + at;
    let end = from + 32;
    if end <= n {
        return bits_in(&table[from..end]);
    }
    if from < n {
        return bits_in(&table[from..n]);
    }
    0
}

// Longword `j` of the whole bitmap, 256 to a block.
fn bitmap_word(table: &[u16], n: usize, first: usize, j: usize) -> u32
    requires { (n ≤ length table.now) × (first ≤ 65536) × (j ≤ 1000000) }
    ensures { result ≡ bitmap_word (free_bit table.now n first) j }
{
    let s = j / 256;
    let q = j % 256;
    if q == 0 {
        return 0x424D0000;
    }
    if q == 1 {
        return 0;
    }
    if q == 2 {
        return s as u32;
    }
    longword(table, n, first, (s * 253 + (q - 3)) * 32)
}

// The longword of byte `p`, where `w` is the one of the byte before.
fn word_at(table: &[u16], n: usize, first: usize, p: usize, w: u32) -> u32
    requires n_in_bounds { (n ≤ length table.now) × (first ≤ 65536) × (p ≤ 4000000) }
    requires carried { Carried (free_bit table.now n first) w p }
    ensures { result ≡ bitmap_word (free_bit table.now n first) (p / 4) }
{
    if p % 4 != 0 {
        return w;
    }
    bitmap_word(table, n, first, p / 4)
}

// Byte `k` of a longword, the highest first.
fn byte_of(w: u32, k: usize) -> u8
    requires { k < 4 }
    ensures { result ≡ byte_of w k }
{
    ((w >> ((24 - 8 * k) as u32)) % 256) as u8
}

// Makes the bitmap in the buffer.
pub fn fill_bitmap(bitmap: &mut [u8], table: &[u16], n: usize, first: usize)
    requires { (n ≤ length table.now) × (first ≤ 65536) × (length bitmap.old ≤ 4000000) }
    ensures { bitmap.new ≡ tabulate (bitmap_byte (free_bit table.now n first)) (length bitmap.old) }
{
    let mut w: u32 = 0;
    for (p, byte) in bitmap.iter_mut().enumerate() {
        w = word_at(table, n, first, p, w);
        *byte = byte_of(w, p % 4);
    }
}

// The first byte of the buffer that differs from the bitmap, or the buffer's length.
pub fn first_differing(bitmap: &[u8], table: &[u16], n: usize, first: usize) -> usize
    requires { (n ≤ length table.now) × (first ≤ 65536) × (length bitmap.now ≤ 4000000) }
    ensures { result ≡ first_differing (free_bit table.now n first) bitmap.now }
{
    let mut w: u32 = 0;
    for (p, byte) in bitmap.iter().enumerate() {
        w = word_at(table, n, first, p, w);
        if *byte != byte_of(w, p % 4) {
            return p;
        }
    }
    bitmap.len()
}
