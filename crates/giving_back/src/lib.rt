// Gives the old blocks of a safe change back to the free list one by one, in rising order, on the anodes in three lent tables and the slots in a fourth; the block table tells which they are.
#![tactic(auto)]

ghost use Rattle.std.specs.Prelude.{List, ◌∷◌, ◌≡◌, ℕ, ◌+◌, ◌-◌, ◌≤◌, ◌<◌, length, get_or, true, false, cond};
ghost use Rattle.rules.specs.Chains.{cut};
ghost use Rattle.laws.specs.Carried.{end_after};
ghost use Rattle.safe_rules.specs.SafePlans.{given_back};
ghost use Rattle.anodes.specs.Loaded.{table_from, AnodeTables};
ghost use Rattle.placing.specs.Steps.{EndsIn};
ghost use Rattle.giving_back.specs.OldTable.{is_old, old_from, NoneOwned, NoneOld, NextOld};
ghost use Rattle.giving_back.specs.Backs.{InLimbo, EndsOf, Backs};

use disk::{AnodeNo, BlockNo, Refusal};
use giving_runs::end_after;
use placing::join;
use searches::last_anode;
use tables::entry;

// The last anodes of the sides of the free list above last reserved and up to it.
#[derive(Clone, Copy)]
pub struct Ends {
    pub upper: AnodeNo,
    pub lower: AnodeNo,
}

// Which blocks are old: those of the chain of `head`, the anode blocks, and block `moved`.
#[derive(Clone, Copy)]
pub struct Old {
    pub head: AnodeNo,
    pub moved: BlockNo,
}

// Whether block `y`, whose entry in the block table is `owner`, is an old one.
fn is_old(old: Old, owner: u16, y: u16) -> bool
    ensures { result ≡ is_old old.head.0 old.moved.0 owner y }
{
    if owner == old.head.0 || owner == 65534 {
        return true;
    }
    y == old.moved.0
}

// Whether none of the 64 entries of the block table from `from` on is `head` or 65534: no early way out, so that many are tested at once.
fn none_owned(blocks: &[u16], head: u16, from: usize) -> bool
    ensures { result ≡ true → NoneOwned blocks.now head from (from + 64) }
{
    if blocks.len() < 64 {
        return false;
    }
    if blocks.len() - 64 < from {
        return false;
    }
    // The flat form, by index, is the one that is tested many at once.
    let mut any = false;
    for i in 0..64 {
        let owner = blocks[from + i];
        any = any | (owner == head) | (owner == 65534);
    }
    !any
}

// How many blocks from `y` on, which is not old, are passed over: 64 where `y` is a multiple of 64 and none of them is old, else one.
fn passed_over(blocks: &[u16], old: Old, y: u16, size: u16) -> u16
    requires { (y < size) × (is_old old.head.0 old.moved.0 (get_or blocks.now y 0) y ≡ false) }
    ensures { (1 ≤ result) × (y + result ≤ size) × NoneOld blocks.now old.head.0 old.moved.0 y (y + result) }
{
    if y % 64 != 0 {
        return 1;
    }
    if size - y < 64 {
        return 1;
    }
    let moved = old.moved.0;
    if moved / 64 == y / 64 {
        return 1;
    }
    if none_owned(blocks, old.head.0, y as usize) {
        return 64;
    }
    1
}

// The first old block from `from` on, below `size`, if there is one.
fn next_old(blocks: &[u16], old: Old, from: u16, size: u16) -> Option<u16>
    requires { from ≤ size }
    ensures { NextOld blocks.now old.head.0 old.moved.0 from size result }
{
    let mut y = from;
    // a while loop, for 64 blocks may be passed over at once
    while y < size {
        if is_old(old, entry(blocks, y as usize), y) {
            return Some(y);
        }
        y += passed_over(blocks, old, y, size);
    }
    None
}

// The last anode of the side that a block goes to; `above`: above last reserved.
fn end_of(above: bool, ends: Ends) -> AnodeNo
    ensures { result.0 ≡ cond above ends.upper.0 ends.lower.0 }
{
    if above {
        return ends.upper;
    }
    ends.lower
}

// The ends of both sides once a block has gone to one; `above`: above last reserved.
fn ends_after(nexts: &[u16], above: bool, ends: Ends) -> Ends
    ensures { (result.upper.0 ≡ cond above (end_after (cut (λ a. get_or nexts.now a 0)) ends.upper.0) ends.upper.0) × (result.lower.0 ≡ cond above ends.lower.0 (end_after (cut (λ a. get_or nexts.now a 0)) ends.lower.0)) }
{
    let upper = ends.upper;
    let lower = ends.lower;
    if above {
        return Ends {
            upper: end_after(nexts, upper),
            lower,
        };
    }
    Ends {
        upper,
        lower: end_after(nexts, lower),
    }
}

// Gives block `y`, in nobody's chain, back to its side of the free list, whose end is carried; `last`: last reserved.
fn give_block(
    slots: &[u16],
    last: BlockNo,
    y: BlockNo,
    ends: Ends,
    counts: &mut [u16],
    firsts: &mut [u16],
    nexts: &mut [u16],
) -> Result<Ends, Refusal>
    requires anode_tables { AnodeTables counts.old firsts.old nexts.old × (length slots.now ≡ 42) }
    requires ends_of { EndsOf ends (table_from counts.old firsts.old nexts.old slots.now) × ((ys : List ℕ) × InLimbo last.0 (y.0 ∷ ys) (table_from counts.old firsts.old nexts.old slots.now)) }
    ensures { Backs result last.0 y.0 (table_from counts.old firsts.old nexts.old slots.now) (table_from counts.new firsts.new nexts.new slots.now) }
{
    let above = last.0 < y.0;
    let z = end_of(above, ends);
    join(slots, z, 1, y, counts, firsts, nexts)?;
    Ok(ends_after(nexts, above, ends))
}

// Gives back every old block of the `size` of a disk, in rising order; `last`: last reserved. The ends of both sides of the free list are carried.
pub fn give_old(
    slots: &[u16],
    last: BlockNo,
    size: u16,
    blocks: &[u16],
    old: Old,
    counts: &mut [u16],
    firsts: &mut [u16],
    nexts: &mut [u16],
) -> Result<(), Refusal>
    requires anode_tables { AnodeTables counts.old firsts.old nexts.old × (length slots.now ≡ 42) }
    requires in_limbo { InLimbo last.0 (old_from blocks.now old.head.0 old.moved.0 size 0) (table_from counts.old firsts.old nexts.old slots.now) }
    ensures { EndsIn result (table_from counts.new firsts.new nexts.new slots.now) (given_back last.0 (old_from blocks.now old.head.0 old.moved.0 size 0) (table_from counts.old firsts.old nexts.old slots.now)) }
{
    let mut ends = Ends {
        upper: last_anode(nexts, AnodeNo(1)),
        lower: last_anode(nexts, AnodeNo(2)),
    };
    let mut from = 0;
    // a while loop, for each search begins behind the block that the last one found
    while let Some(y) = next_old(blocks, old, from, size) {
        ends = give_block(slots, last, BlockNo(y), ends, counts, firsts, nexts)?;
        from = y + 1;
    }
    Ok(())
}
