// Gives old blocks new places, on the anodes in three lent tables and the slots in a fourth: a directory block keeps its anode, an anode block its slot.
#![tactic(auto)]

ghost use Rattle.std.specs.Prelude.{◌≡◌, ℕ, ◌<◌, length};
ghost use Rattle.rules.specs.Plans.{slotted};
ghost use Rattle.safe_rules.specs.SafePlans.{owner_of, relocated, reslotted_from};
ghost use Rattle.anodes.specs.Loaded.{anodes_from, table_from, AnodeTables};
ghost use Rattle.placing.specs.Steps.{step_plan, EndsIn};
ghost use Rattle.placing.specs.States.{GoodState};
ghost use Rattle.relocating.specs.Places.{PlaceTaken, slot_plan};

use disk::{AnodeNo, BlockNo, Refusal};
use placing::{rewrite, without_run};
use searches::free_extent;
use tables::{entry, set_entry};

// Takes the first free block, looking where directories look.
fn new_place(counts: &mut [u16], firsts: &mut [u16], nexts: &mut [u16]) -> Result<BlockNo, Refusal>
    requires anode_tables { AnodeTables counts.old firsts.old nexts.old }
    requires by_index { (last : ℕ) × (slots : ℕ → ℕ) × GoodState last (slotted (anodes_from counts.old firsts.old nexts.old) slots) }
    ensures { PlaceTaken result (anodes_from counts.old firsts.old nexts.old) (anodes_from counts.new firsts.new nexts.new) }
{
    let found = free_extent(true, counts, nexts).ok_or(Refusal::NoFreeBlock)?;
    let y = entry(firsts, found.anode.0 as usize);
    let rest = BlockNo(y + 1);
    without_run(
        counts,
        firsts,
        nexts,
        AnodeNo(2),
        found.before,
        found.anode,
        1,
        rest,
    );
    Ok(BlockNo(y))
}

// Gives the one block of anode `owner` a new place.
pub fn relocate(
    owner: AnodeNo,
    counts: &mut [u16],
    firsts: &mut [u16],
    nexts: &mut [u16],
) -> Result<BlockNo, Refusal>
    requires anode_tables { AnodeTables counts.old firsts.old nexts.old × (owner.0 < 3444) }
    requires by_index { (last : ℕ) × (slots : ℕ → ℕ) × GoodState last (slotted (anodes_from counts.old firsts.old nexts.old) slots) }
    ensures { (y : ℕ) (slots : ℕ → ℕ) → owner_of (anodes_from counts.old firsts.old nexts.old) y ≡ owner.0 → step_plan result 1 (slotted (anodes_from counts.new firsts.new nexts.new) slots) ≡ relocated y (slotted (anodes_from counts.old firsts.old nexts.old) slots) }
{
    let y = new_place(counts, firsts, nexts)?;
    rewrite(counts, firsts, owner, 1, y);
    Ok(y)
}

// Gives the anode block of slot `k` a new place, if the slot is in use.
fn reslot(
    k: usize,
    slots: &mut [u16],
    counts: &mut [u16],
    firsts: &mut [u16],
    nexts: &mut [u16],
) -> Result<(), Refusal>
    requires anode_tables { AnodeTables counts.old firsts.old nexts.old × (length slots.old ≡ 42) × (k < 42) }
    requires by_index { (last : ℕ) × GoodState last (table_from counts.old firsts.old nexts.old slots.old) }
    ensures { EndsIn result (table_from counts.new firsts.new nexts.new slots.new) (slot_plan k (table_from counts.old firsts.old nexts.old slots.old)) }
{
    if entry(slots, k) == 0 {
        return Ok(());
    }
    let y = new_place(counts, firsts, nexts)?;
    set_entry(slots, k, y.0);
    Ok(())
}

// Gives every anode block a new place, slot by slot.
pub fn reslot_all(
    slots: &mut [u16],
    counts: &mut [u16],
    firsts: &mut [u16],
    nexts: &mut [u16],
) -> Result<(), Refusal>
    requires anode_tables { AnodeTables counts.old firsts.old nexts.old × (length slots.old ≡ 42) }
    requires by_index { (last : ℕ) × GoodState last (table_from counts.old firsts.old nexts.old slots.old) }
    ensures { EndsIn result (table_from counts.new firsts.new nexts.new slots.new) (reslotted_from 42 0 (table_from counts.old firsts.old nexts.old slots.old)) }
{
    for k in 0..42 {
        reslot(k, slots, counts, firsts, nexts)?;
    }
    Ok(())
}
