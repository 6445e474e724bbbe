// Refusals 10 and 11: marks in the lent block table the owner of each block of the disk.
#![tactic(auto)]

ghost use Rattle.std.specs.Prelude.{◌≡◌, List, false, ◌≢◌, ℕ, ◌+◌, ◌<◌, ◌≤◌, length, get_or, drop, eqb};
ghost use Rattle.rules.specs.Counting.{any_below};
ghost use Rattle.rules.specs.Anodes.{limit};
ghost use Rattle.rules.specs.Chains.{system_owns};
ghost use Rattle.rules.specs.Accepted.{disk_size, wrong_size, wrong_slots, wrong_fixed, out_of_range, two_owners};
ghost use Rattle.rules.specs.Tables.{entry_or};
ghost use Rattle.tables.specs.Held.{ZeroBelow};
ghost use Rattle.anodes.specs.Loaded.{anodes_from};
ghost use Rattle.owners.specs.Marks.{KeptOutside, RunTested, RunHolds, RunMarked, Answered, OwnersMarked};

use disk::{BlockNo, slot_of};

// One of the `count` blocks from `first` upward is marked: their marks add up to more than 0.
fn any_marked(blocks: &[u16], first: BlockNo, count: u16) -> bool
    requires { 0 < count → first.0 + count ≤ length blocks.now }
    ensures { RunTested result blocks.now first.0 (first.0 + count) }
{
    let start = first.0 as usize;
    let end = start + count as usize;
    let mut sum: u32 = 0;
    for i in start..end {
        sum += blocks[i] as u32;
    }
    sum != 0
}

// Stores `mark` in the `count` blocks from `first` upward.
fn fill_run(blocks: &mut [u16], first: BlockNo, count: u16, mark: u16)
    requires { 0 < count → first.0 + count ≤ length blocks.old }
    ensures run { RunHolds blocks.new first.0 (first.0 + count) mark }
    ensures kept { KeptOutside blocks.old blocks.new first.0 (first.0 + count) }
{
    if count == 0 {
        return;
    }
    let start = first.0 as usize;
    blocks[start..start + count as usize].fill(mark);
}

// Marks the `count` blocks from `first` upward; true if one of them is marked already.
fn mark_run(blocks: &mut [u16], first: BlockNo, count: u16, mark: u16) -> bool
    requires { 0 < count → first.0 + count ≤ length blocks.old }
    ensures run { RunMarked result blocks.old blocks.new first.0 (first.0 + count) mark }
    ensures kept { KeptOutside blocks.old blocks.new first.0 (first.0 + count) }
{
    if any_marked(blocks, first, count) {
        return true;
    }
    fill_run(blocks, first, count, mark);
    false
}

// Marks the system's blocks in a table of zeros: 65535 for blocks 0 to 2, 65534 for the anode blocks; true if one is marked already.
fn mark_system(image: &[u8], blocks: &mut [u16]) -> bool
    requires image_value { (wrong_size image.now ≡ false) × (wrong_slots image.now ≡ false) × (disk_size image.now ≤ length blocks.old) }
    requires zero_below { ZeroBelow blocks.old (disk_size image.now) }
    ensures answer { Answered result (disk_size image.now) (system_owns image.now) (entry_or image.now 0) blocks.new }
    ensures kept { drop (disk_size image.now) blocks.new ≡ drop (disk_size image.now) blocks.old }
{
    if mark_run(blocks, BlockNo(0), 3, 65535) {
        return true;
    }
    for s in 0..42 {
        let slot = slot_of(image, s);
        if slot.0 == 0 {
            continue;
        }
        if mark_run(blocks, slot, 1, 65534) {
            return true;
        }
    }
    false
}

// 10: marks each block's owner in a table of zeros, the system or the head of the chain whose anode owns it; true if a block has two.
pub fn mark_owners(
    image: &[u8],
    counts: &[u16],
    firsts: &[u16],
    heads: &[u16],
    blocks: &mut [u16],
) -> bool
    requires counts_len { (length counts.now ≡ 3444) × (length firsts.now ≡ 3444) × (3444 ≤ length heads.now) }
    requires image_value { (wrong_size image.now ≡ false) × (wrong_slots image.now ≡ false) × (disk_size image.now ≤ length blocks.old) }
    requires zero_below { ZeroBelow blocks.old (disk_size image.now) }
    requires by_index { (n : List ℕ) × (wrong_fixed (anodes_from counts.now firsts.now n) ≡ false) × (any_below (out_of_range (anodes_from counts.now firsts.now n) (disk_size image.now)) limit ≡ false) }
    requires by_index_2 { (a : ℕ) → a ≢ 0 → get_or firsts.now a 0 ≢ 0 → get_or heads.now a 0 ≢ 0 }
    ensures two { (n : List ℕ) → result ≡ two_owners image.now (anodes_from counts.now firsts.now n) }
    ensures marked { result ≡ false → (n : List ℕ) → OwnersMarked image.now (anodes_from counts.now firsts.now n) heads.now blocks.new }
    ensures kept { drop (disk_size image.now) blocks.new ≡ drop (disk_size image.now) blocks.old }
{
    if mark_system(image, blocks) {
        return true;
    }
    for a in 0..3444 {
        if mark_run(blocks, BlockNo(firsts[a]), counts[a], heads[a]) {
            return true;
        }
    }
    false
}

// 11: one of the first `n` blocks has no owner.
pub fn no_owner(blocks: &[u16], n: usize) -> bool
    requires { n ≤ length blocks.now }
    ensures { result ≡ any_below (λ x. eqb (get_or blocks.now x 0) 0) n }
{
    let mut free: u16 = 0;
    for x in 0..n {
        if blocks[x] == 0 {
            free = 1;
        }
    }
    free != 0
}
