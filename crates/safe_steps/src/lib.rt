// The steps of a safe change on the anodes in three lent tables and the slots in a fourth: a file's blocks taken anew, and what every change ends with.
#![tactic(auto)]

ghost use Rattle.std.specs.Prelude.{cond, ◌≡◌, ℕ, ◌≤◌, eqb, length};
ghost use Rattle.rules.specs.Plans.{◌and_then◌};
ghost use Rattle.safe_rules.specs.SafePlans.{taken_anew, reslotted_from, given_back, slot_blocks};
ghost use Rattle.anodes.specs.Loaded.{slots_from, table_from, AnodeTables};
ghost use Rattle.placing.specs.Steps.{EndsIn};
ghost use Rattle.placing.specs.States.{Ready};
ghost use Rattle.giving_back.specs.OldTable.{old_from};
ghost use Rattle.safe_steps.specs.Ready.{SettleReady};

use disk::{AnodeNo, BlockNo, Refusal};
use giving::drop_chain;
use giving_back::{Old, give_old};
use placing::rewrite;
use relocating::reslot_all;
use tables::entry;
use taking::take_many;

// 1 for a slot in use, 0 for an empty one.
fn slot_count(y: u16) -> u64
    ensures { result ≡ cond (eqb y 0) 0 1 }
{
    u64::from(y != 0)
}

// How many slots are in use.
pub fn used_slots(slots: &[u16]) -> u64
    ensures { (result ≡ length (slot_blocks (slots_from slots.now) 42)) × (result ≤ 42) }
{
    let mut used = 0;
    for k in 0..42 {
        used += slot_count(entry(slots, k));
    }
    used
}

// Empties the file that `head` heads, which keeps its head anode, and takes `k` blocks for it anew.
pub fn take_anew(
    slots: &mut [u16],
    k: u64,
    head: AnodeNo,
    counts: &mut [u16],
    firsts: &mut [u16],
    nexts: &mut [u16],
) -> Result<(), Refusal>
    requires anode_tables { AnodeTables counts.old firsts.old nexts.old × (length slots.old ≡ 42) × (6 ≤ head.0) }
    requires by_index { (last : ℕ) × Ready last (table_from counts.old firsts.old nexts.old slots.old) head.0 }
    ensures { EndsIn result (table_from counts.new firsts.new nexts.new slots.new) (taken_anew head.0 k (table_from counts.old firsts.old nexts.old slots.old)) }
{
    drop_chain(head, counts, firsts, nexts);
    rewrite(counts, firsts, head, 0, BlockNo(65535));
    take_many(false, slots, k, head, counts, firsts, nexts)
}

// What every safe change ends with: every anode block takes a new place, and then the old blocks go back. `last`: last reserved, `size`: the disk's.
pub fn settle(
    slots: &mut [u16],
    last: BlockNo,
    size: u16,
    blocks: &[u16],
    old: Old,
    counts: &mut [u16],
    firsts: &mut [u16],
    nexts: &mut [u16],
) -> Result<(), Refusal>
    requires anode_tables { AnodeTables counts.old firsts.old nexts.old × (length slots.old ≡ 42) }
    requires settle_ready { SettleReady last.0 (old_from blocks.now old.head.0 old.moved.0 size 0) (table_from counts.old firsts.old nexts.old slots.old) }
    ensures { EndsIn result (table_from counts.new firsts.new nexts.new slots.new) (reslotted_from 42 0 (table_from counts.old firsts.old nexts.old slots.old) and_then given_back last.0 (old_from blocks.now old.head.0 old.moved.0 size 0)) }
{
    reslot_all(slots, counts, firsts, nexts)?;
    give_old(slots, last, size, blocks, old, counts, firsts, nexts)
}
