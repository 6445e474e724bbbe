// Puts a run of blocks into an anode and takes one out of it, on the anodes in three lent tables, at the slots of a fourth. A refused step leaves the tables.
#![tactic(auto)]

ghost use Rattle.std.specs.Prelude.{List, ◌≢◌, ◌≡◌, ℕ, ◌+◌, ◌<◌, ◌≤◌, length, get_or};
ghost use Rattle.rules.specs.Anodes.{exists_by};
ghost use Rattle.rules.specs.Chains.{run};
ghost use Rattle.rules.specs.Plans.{planned};
ghost use Rattle.rules.specs.Space.{rewritten, inserted_after, unlinked, without_run, append, put, join, join_with};
ghost use Rattle.anodes.specs.Loaded.{anodes_from, slots_from, AnodeTables};
ghost use Rattle.placing.specs.Steps.{step_plan, UnlessMoved, Grows};

use disk::{AnodeNo, BlockNo, Refusal};
use searches::lowest_free;
use tables::{entry, set_entry};

// Makes anode `a` hold `count` blocks from `first` on; its next stays.
pub fn rewrite(counts: &mut [u16], firsts: &mut [u16], a: AnodeNo, count: u16, first: BlockNo)
    requires { (a.0 < 3444) × (length counts.old ≡ 3444) × (length firsts.old ≡ 3444) }
    ensures { (n : List ℕ) → anodes_from counts.new firsts.new n ≡ rewritten (anodes_from counts.old firsts.old n) a.0 count first.0 }
{
    set_entry(counts, a.0 as usize, count);
    set_entry(firsts, a.0 as usize, first.0);
}

// Unlinks anode `a`, next of `p`, and zeroes it.
fn unlink(counts: &mut [u16], firsts: &mut [u16], nexts: &mut [u16], p: AnodeNo, a: AnodeNo)
    requires { (p.0 < 3444) × (a.0 < 3444) × AnodeTables counts.old firsts.old nexts.old }
    ensures { anodes_from counts.new firsts.new nexts.new ≡ unlinked (anodes_from counts.old firsts.old nexts.old) p.0 a.0 }
{
    let next = entry(nexts, a.0 as usize);
    set_entry(nexts, p.0 as usize, next);
    set_entry(nexts, a.0 as usize, 0);
    rewrite(counts, firsts, a, 0, BlockNo(0));
}

// Puts anode `a` into the chain behind `p`, with `count` blocks from `first` on.
pub fn insert_after(
    counts: &mut [u16],
    firsts: &mut [u16],
    nexts: &mut [u16],
    p: AnodeNo,
    a: AnodeNo,
    count: u16,
    first: BlockNo,
)
    requires { (p.0 < 3444) × (a.0 < 3444) × AnodeTables counts.old firsts.old nexts.old }
    ensures { anodes_from counts.new firsts.new nexts.new ≡ inserted_after (anodes_from counts.old firsts.old nexts.old) p.0 a.0 count first.0 }
{
    let next = entry(nexts, p.0 as usize);
    set_entry(nexts, a.0 as usize, next);
    set_entry(nexts, p.0 as usize, a.0);
    rewrite(counts, firsts, a, count, first);
}

// Puts `count` blocks from `first` on into the lowest free anode, behind anode `z`.
fn append(
    slots: &[u16],
    z: AnodeNo,
    count: u16,
    first: BlockNo,
    counts: &mut [u16],
    firsts: &mut [u16],
    nexts: &mut [u16],
) -> Result<BlockNo, Refusal>
    requires { (z.0 < 3444) × AnodeTables counts.old firsts.old nexts.old }
    ensures plan { step_plan result count (anodes_from counts.new firsts.new nexts.new) ≡ append 3444 (exists_by (slots_from slots.now)) (anodes_from counts.old firsts.old nexts.old) z.0 count first.0 }
    ensures unmoved { UnlessMoved result (anodes_from counts.old firsts.old nexts.old) (anodes_from counts.new firsts.new nexts.new) }
{
    let f = lowest_free(slots, firsts).anode;
    if 3444 <= f.0 {
        return Err(Refusal::NoFreeAnode);
    }
    insert_after(counts, firsts, nexts, z, f, count, first);
    Ok(first)
}

// Puts block `y` behind the blocks of a chain whose last anode is `z`; `dir`: into an anode of its own.
pub fn put(
    slots: &[u16],
    dir: bool,
    z: AnodeNo,
    y: BlockNo,
    counts: &mut [u16],
    firsts: &mut [u16],
    nexts: &mut [u16],
) -> Result<BlockNo, Refusal>
    requires { (z.0 < 3444) × AnodeTables counts.old firsts.old nexts.old × (get_or firsts.old z.0 0 ≢ 0) }
    ensures plan { step_plan result 1 (anodes_from counts.new firsts.new nexts.new) ≡ put 3444 dir z.0 y.0 (exists_by (slots_from slots.now)) (anodes_from counts.old firsts.old nexts.old) }
    ensures unmoved { UnlessMoved result (anodes_from counts.old firsts.old nexts.old) (anodes_from counts.new firsts.new nexts.new) }
{
    let count = entry(counts, z.0 as usize);
    if count == 0 {
        rewrite(counts, firsts, z, 1, y);
        return Ok(y);
    }
    let first = entry(firsts, z.0 as usize);
    let end = first as u32 + count as u32;
    if !dir && end == y.0 as u32 {
        rewrite(counts, firsts, z, count + 1, BlockNo(first));
        return Ok(y);
    }
    append(slots, z, 1, y, counts, firsts, nexts)
}

// Takes `d` blocks from anode `x`, which stands after `p`; its first block is then `first`. Emptied, `kept` stays and any other is unlinked.
pub fn without_run(
    counts: &mut [u16],
    firsts: &mut [u16],
    nexts: &mut [u16],
    kept: AnodeNo,
    p: AnodeNo,
    x: AnodeNo,
    d: u16,
    first: BlockNo,
)
    requires { (p.0 < 3444) × (x.0 < 3444) × AnodeTables counts.old firsts.old nexts.old × (d ≤ get_or counts.old x.0 0) }
    ensures { anodes_from counts.new firsts.new nexts.new ≡ without_run (anodes_from counts.old firsts.old nexts.old) kept.0 p.0 x.0 d first.0 }
{
    let count = entry(counts, x.0 as usize);
    if count != d {
        rewrite(counts, firsts, x, count - d, first);
        return;
    }
    if x.0 == kept.0 {
        rewrite(counts, firsts, x, 0, BlockNo(65535));
        return;
    }
    unlink(counts, firsts, nexts, p, x);
}

// Whether `count` blocks from `first` on can be had by anode `z`, the last of their side; if so it has them then.
fn grow(z: AnodeNo, count: u16, first: BlockNo, counts: &mut [u16], firsts: &mut [u16]) -> bool
    requires z_bound { (z.0 < 3444) × (length counts.old ≡ 3444) × (length firsts.old ≡ 3444) }
    requires z_bound_2 { (0 < get_or counts.old z.0 0 → get_or firsts.old z.0 0 + get_or counts.old z.0 0 ≤ 65535) × (first.0 + count ≤ 65535) }
    ensures { (n : List ℕ) → Grows result (anodes_from counts.old firsts.old n) z.0 count first.0 (anodes_from counts.new firsts.new n) }
{
    let has = entry(counts, z.0 as usize);
    let from = entry(firsts, z.0 as usize);
    if has == 0 {
        rewrite(counts, firsts, z, count, first);
        return true;
    }
    if from as u32 + has as u32 == first.0 as u32 {
        rewrite(counts, firsts, z, has + count, BlockNo(from));
        return true;
    }
    if first.0 as u32 + count as u32 == from as u32 {
        rewrite(counts, firsts, z, has + count, first);
        return true;
    }
    false
}

// Joins `count` blocks from `first` on to their side of the free list, whose last anode is `z`.
pub fn join(
    slots: &[u16],
    z: AnodeNo,
    count: u16,
    first: BlockNo,
    counts: &mut [u16],
    firsts: &mut [u16],
    nexts: &mut [u16],
) -> Result<BlockNo, Refusal>
    requires z_bound { (z.0 < 3444) × AnodeTables counts.old firsts.old nexts.old }
    requires z_bound_2 { (0 < get_or counts.old z.0 0 → get_or firsts.old z.0 0 + get_or counts.old z.0 0 ≤ 65535) × (first.0 + count ≤ 65535) }
    ensures plan { step_plan result count (anodes_from counts.new firsts.new nexts.new) ≡ join 3444 z.0 count first.0 (exists_by (slots_from slots.now)) (anodes_from counts.old firsts.old nexts.old) }
    ensures unmoved { UnlessMoved result (anodes_from counts.old firsts.old nexts.old) (anodes_from counts.new firsts.new nexts.new) }
{
    if z.0 == 1 {
        return append(slots, z, count, first, counts, firsts, nexts);
    }
    if grow(z, count, first, counts, firsts) {
        return Ok(first);
    }
    append(slots, z, count, first, counts, firsts, nexts)
}

// Joins `count` blocks from `first` on to their side of the free list, whose last anode is `z`; where they cannot join it, anode `x`, zeroed before, has them behind it.
pub fn join_with(
    x: AnodeNo,
    z: AnodeNo,
    count: u16,
    first: BlockNo,
    counts: &mut [u16],
    firsts: &mut [u16],
    nexts: &mut [u16],
)
    requires x_bound { (x.0 < 3444) × (z.0 < 3444) × AnodeTables counts.old firsts.old nexts.old }
    requires z_bound { (0 < get_or counts.old z.0 0 → get_or firsts.old z.0 0 + get_or counts.old z.0 0 ≤ 65535) × (first.0 + count ≤ 65535) }
    ensures { planned (anodes_from counts.new firsts.new nexts.new) (run first.0 count) ≡ join_with x.0 z.0 count first.0 (anodes_from counts.old firsts.old nexts.old) }
{
    let one = z.0 == 1;
    if one {
        insert_after(counts, firsts, nexts, z, x, count, first);
        return;
    }
    if grow(z, count, first, counts, firsts) {
        return;
    }
    insert_after(counts, firsts, nexts, z, x, count, first);
}
