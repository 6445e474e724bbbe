// Grows the anode table on the anodes in three lent tables and the slots in a fourth: the lowest empty slot gets a free block.
#![tactic(auto)]

ghost use Rattle.std.specs.Prelude.{◌≡◌, ◌<◌, ℕ, length, MatchOption};
ghost use Rattle.rules.specs.Growth.{empty_slot};
ghost use Rattle.anodes.specs.Loaded.{slots_from, table_from, AnodeTables};
ghost use Rattle.placing.specs.States.{GoodState};
ghost use Rattle.growing.specs.Grown.{growth_if, GrownTo, SpareOf};

use disk::{AnodeNo, BlockNo};
use placing::without_run;
use searches::{free_extent, lowest_free};
use tables::{entry, set_entry};

// The lowest empty slot, if there is one.
fn empty_slot(slots: &[u16]) -> Option<usize>
    ensures { MatchOption result (empty_slot (slots_from slots.now) ≡ 42) (λ k. (k < 42) × (empty_slot (slots_from slots.now) ≡ k)) }
{
    (0..42).find(|k| entry(slots, *k) == 0)
}

// Gives the lowest empty slot a block, taken as a directory's is; `growing`: whether slots may grow at all. Whether it has; if not, the tables stay.
pub fn grow_slots(
    growing: bool,
    slots: &mut [u16],
    counts: &mut [u16],
    firsts: &mut [u16],
    nexts: &mut [u16],
) -> bool
    requires anode_tables { AnodeTables counts.old firsts.old nexts.old × (length slots.old ≡ 42) }
    requires by_index { (last : ℕ) × GoodState last (table_from counts.old firsts.old nexts.old slots.old) }
    ensures { GrownTo result (growth_if growing) (table_from counts.old firsts.old nexts.old slots.old) (table_from counts.new firsts.new nexts.new slots.new) }
{
    if !growing {
        return false;
    }
    let Some(k) = empty_slot(slots) else {
        return false;
    };
    let Some(found) = free_extent(true, counts, nexts) else {
        return false;
    };
    let y = entry(firsts, found.anode.0 as usize);
    without_run(
        counts,
        firsts,
        nexts,
        AnodeNo(2),
        found.before,
        found.anode,
        1,
        BlockNo(y + 1),
    );
    set_entry(slots, k, y);
    true
}

// The lowest free anode from 6 up; where there is none the slots grow, if they can, and it is looked for afresh.
pub fn spare_anode(
    growing: bool,
    slots: &mut [u16],
    counts: &mut [u16],
    firsts: &mut [u16],
    nexts: &mut [u16],
) -> Option<AnodeNo>
    requires anode_tables { AnodeTables counts.old firsts.old nexts.old × (length slots.old ≡ 42) }
    requires by_index { (last : ℕ) × GoodState last (table_from counts.old firsts.old nexts.old slots.old) }
    ensures { SpareOf result (growth_if growing) (table_from counts.old firsts.old nexts.old slots.old) (table_from counts.new firsts.new nexts.new slots.new) }
{
    let found = lowest_free(slots, firsts).anode;
    if found.0 < 3444 {
        return Some(found);
    }
    if !grow_slots(growing, slots, counts, firsts, nexts) {
        return None;
    }
    let found = lowest_free(slots, firsts).anode;
    (found.0 < 3444).then_some(found)
}
