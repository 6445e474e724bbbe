// Takes blocks of the free list for a chain, on the anodes in three lent tables and the slots in a fourth.
#![tactic(auto)]

ghost use Rattle.std.specs.Prelude.{false, List, ◌≢◌, ◌≡◌, ℕ, ◌<◌, length, get_or};
ghost use Rattle.rules.specs.Anodes.{exists_by};
ghost use Rattle.rules.specs.Plans.{regrown};
ghost use Rattle.rules.specs.Space.{without_first, put, take_block, take_many};
ghost use Rattle.laws.specs.Carried.{end_after};
ghost use Rattle.anodes.specs.Loaded.{anodes_from, slots_from, table_from, AnodeTables};
ghost use Rattle.searches.specs.Found.{found_of};
ghost use Rattle.placing.specs.Steps.{step_plan, UnlessMoved, EndsIn};
ghost use Rattle.placing.specs.States.{Ready};
ghost use Rattle.growing.specs.Grown.{growth_if};
ghost use Rattle.taking.specs.Extents.{extent_left};
ghost use Rattle.taking.specs.Turns.{PutReady, TakenGrown, TakeCarries, TakeTurns};

use disk::{AnodeNo, BlockNo, Refusal};
use growing::grow_slots;
use placing::{put, without_run};
use searches::{Extent, free_extent, last_anode};
use tables::entry;

// What one take leaves to the next: the last anode of the chain that it is for, and the extent that has more blocks, where it is known.
#[derive(Clone, Copy)]
pub struct Taking {
    pub end: AnodeNo,
    pub more: Option<Extent>,
}

// Takes the first block of the extent `from` of the free list for the chain whose last anode is `z`; `dir`: a directory's.
fn take_from(
    slots: &[u16],
    dir: bool,
    from: Extent,
    z: AnodeNo,
    counts: &mut [u16],
    firsts: &mut [u16],
    nexts: &mut [u16],
) -> Result<BlockNo, Refusal>
    requires anode_tables { AnodeTables counts.old firsts.old nexts.old × (from.before.0 < 3444) × (from.anode.0 < 3444) × (z.0 < 3444) }
    requires nonzero { (0 < get_or counts.old from.anode.0 0) × (get_or firsts.old from.anode.0 0 < 65535) × (z.0 ≢ from.anode.0) × (get_or firsts.old z.0 0 ≢ 0) }
    ensures plan { step_plan result 1 (anodes_from counts.new firsts.new nexts.new) ≡ put 3444 dir z.0 (get_or firsts.old from.anode.0 0) (exists_by (slots_from slots.now)) (without_first (anodes_from counts.old firsts.old nexts.old) from.before.0 from.anode.0) }
    ensures unmoved { UnlessMoved result (without_first (anodes_from counts.old firsts.old nexts.old) from.before.0 from.anode.0) (anodes_from counts.new firsts.new nexts.new) }
{
    let y = BlockNo(entry(firsts, from.anode.0 as usize));
    let rest = BlockNo(y.0 + 1);
    without_run(
        counts,
        firsts,
        nexts,
        AnodeNo(2),
        from.before,
        from.anode,
        1,
        rest,
    );
    put(slots, dir, z, y, counts, firsts, nexts)
}

// Puts block `y`, now nobody's, behind the blocks of a chain whose last anode is `z`, once the slots have grown, if they can.
fn put_grown(
    growing: bool,
    slots: &mut [u16],
    dir: bool,
    z: AnodeNo,
    y: BlockNo,
    counts: &mut [u16],
    firsts: &mut [u16],
    nexts: &mut [u16],
) -> Result<BlockNo, Refusal>
    requires anode_tables { AnodeTables counts.old firsts.old nexts.old × (length slots.old ≡ 42) }
    requires put_ready { PutReady z.0 (table_from counts.old firsts.old nexts.old slots.old) }
    ensures { step_plan result 1 (table_from counts.new firsts.new nexts.new slots.new) ≡ regrown (put 3444 dir z.0 y.0) 28 (growth_if growing (table_from counts.old firsts.old nexts.old slots.old)) }
{
    if !grow_slots(growing, slots, counts, firsts, nexts) {
        return Err(Refusal::NoFreeAnode);
    }
    put(slots, dir, z, y, counts, firsts, nexts)
}

// Takes a block for the chain of `head`: data looks above last reserved first, directories (`dir`) up to it first. A directory block gets an anode of its own. `growing`: whether slots may grow for it.
pub fn take_block(
    growing: bool,
    slots: &mut [u16],
    dir: bool,
    head: AnodeNo,
    counts: &mut [u16],
    firsts: &mut [u16],
    nexts: &mut [u16],
) -> Result<BlockNo, Refusal>
    requires anode_tables { AnodeTables counts.old firsts.old nexts.old × (length slots.old ≡ 42) }
    requires by_index { (last : ℕ) × Ready last (table_from counts.old firsts.old nexts.old slots.old) head.0 }
    ensures { step_plan result 1 (table_from counts.new firsts.new nexts.new slots.new) ≡ take_block 3444 (growth_if growing) dir head.0 (table_from counts.old firsts.old nexts.old slots.old) }
{
    let found = free_extent(dir, counts, nexts).ok_or(Refusal::NoFreeBlock)?;
    let z = last_anode(nexts, head);
    let y = BlockNo(entry(firsts, found.anode.0 as usize));
    if let Ok(taken) = take_from(slots, dir, found, z, counts, firsts, nexts) {
        return Ok(taken);
    }
    put_grown(growing, slots, dir, z, y, counts, firsts, nexts)
}

// The extent that a block of data is taken from: the one that is known to have more, else the first that is found.
fn extent_left(more: Option<Extent>, counts: &[u16], nexts: &[u16]) -> Option<Extent>
    ensures { (f : List ℕ) → found_of result ≡ extent_left more (anodes_from counts.now f nexts.now) }
{
    if more.is_some() {
        return more;
    }
    free_extent(false, counts, nexts)
}

// The anode behind `z`, if there is one, else `z`.
fn end_after(nexts: &[u16], z: AnodeNo) -> AnodeNo
    ensures { result.0 ≡ end_after (λ a. get_or nexts.now a 0) z.0 }
{
    let next = entry(nexts, z.0 as usize);
    if next == 0 {
        return z;
    }
    AnodeNo(next)
}

// What is carried on once the slots have grown for block `y`, now nobody's, and the chain whose last anode is `end` has it: the extent is looked for anew.
fn take_grown(
    growing: bool,
    slots: &mut [u16],
    end: AnodeNo,
    y: BlockNo,
    counts: &mut [u16],
    firsts: &mut [u16],
    nexts: &mut [u16],
) -> Result<Taking, Refusal>
    requires anode_tables { AnodeTables counts.old firsts.old nexts.old × (length slots.old ≡ 42) }
    requires put_ready { PutReady end.0 (table_from counts.old firsts.old nexts.old slots.old) }
    ensures { TakenGrown result end.0 (table_from counts.new firsts.new nexts.new slots.new) (regrown (put 3444 false end.0 y.0) 28 (growth_if growing (table_from counts.old firsts.old nexts.old slots.old))) }
{
    put_grown(growing, slots, false, end, y, counts, firsts, nexts)?;
    Ok(Taking {
        end: end_after(nexts, end),
        more: None,
    })
}

// Takes a block of data for the chain whose last anode is carried; `growing`: whether slots may grow for it.
fn take_turn(
    growing: bool,
    slots: &mut [u16],
    t: Taking,
    counts: &mut [u16],
    firsts: &mut [u16],
    nexts: &mut [u16],
) -> Result<Taking, Refusal>
    requires anode_tables { AnodeTables counts.old firsts.old nexts.old × (length slots.old ≡ 42) }
    requires by_index { (last h : ℕ) × TakeCarries last h t (table_from counts.old firsts.old nexts.old slots.old) }
    ensures { (last h : ℕ) → TakeCarries last h t (table_from counts.old firsts.old nexts.old slots.old) → TakeTurns result (growth_if growing) last h (table_from counts.old firsts.old nexts.old slots.old) (table_from counts.new firsts.new nexts.new slots.new) }
{
    let found = extent_left(t.more, counts, nexts).ok_or(Refusal::NoFreeBlock)?;
    let count = entry(counts, found.anode.0 as usize);
    let y = BlockNo(entry(firsts, found.anode.0 as usize));
    let Ok(_) = take_from(slots, false, found, t.end, counts, firsts, nexts) else {
        return take_grown(growing, slots, t.end, y, counts, firsts, nexts);
    };
    Ok(Taking {
        end: end_after(nexts, t.end),
        more: (count != 1).then_some(found),
    })
}

// Takes `k` blocks of data for the chain of `head`, one at a time; `growing`: whether slots may grow for them. What a take found serves the next: the chain's last anode, and the extent that has more blocks.
pub fn take_many(
    growing: bool,
    slots: &mut [u16],
    k: u64,
    head: AnodeNo,
    counts: &mut [u16],
    firsts: &mut [u16],
    nexts: &mut [u16],
) -> Result<(), Refusal>
    requires anode_tables { AnodeTables counts.old firsts.old nexts.old × (length slots.old ≡ 42) }
    requires by_index { (last : ℕ) × Ready last (table_from counts.old firsts.old nexts.old slots.old) head.0 }
    ensures { EndsIn result (table_from counts.new firsts.new nexts.new slots.new) (take_many 3444 (growth_if growing) false k head.0 (table_from counts.old firsts.old nexts.old slots.old)) }
{
    let mut t = Taking {
        end: last_anode(nexts, head),
        more: None,
    };
    for _ in 0..k {
        t = take_turn(growing, slots, t, counts, firsts, nexts)?;
    }
    Ok(())
}
