// Plans the safe changes of files and entries on the anodes in three lent tables and the slots in a fourth: a change's own steps, then what every one ends with.
#![tactic(auto)]

ghost use Rattle.std.specs.Prelude.{◌≡◌, ℕ, ◌<◌, ◌≤◌, length, get_or};
ghost use Rattle.rules.specs.Chains.{chain_of};
ghost use Rattle.rules.specs.Plans.{◌and_then◌};
ghost use Rattle.safe_rules.specs.SafePlans.{chain_zeroed, taken_anew, relocated};
ghost use Rattle.anodes.specs.Loaded.{anodes_from, table_from, AnodeTables};
ghost use Rattle.placing.specs.Steps.{EndsIn};
ghost use Rattle.placing.specs.States.{Ready};
ghost use Rattle.giving.specs.Steps.{LinkedFrom};
ghost use Rattle.giving_back.specs.OldTable.{old_from};
ghost use Rattle.safe_plans.specs.Planned.{anode_with, rest_from, FileReady, ResizeReady, MoveReady};

use disk::{AnodeNo, BlockNo, Refusal};
use giving::drop_chain;
use giving_back::Old;
use links::Links;
use relocating::relocate;
use safe_steps::{settle, take_anew};
use tables::entry;

// The first anode of the chain that `head` heads whose block is `y`, or 0.
pub fn anode_with(firsts: &[u16], nexts: &[u16], head: AnodeNo, y: BlockNo) -> AnodeNo
    ensures { result.0 ≡ anode_with (λ a. get_or firsts.now a 0) y.0 (chain_of (λ a. get_or nexts.now a 0) 3444 head.0) }
{
    for a in Links::along(nexts, head) {
        if entry(firsts, a.0 as usize) == y.0 {
            return a;
        }
    }
    AnodeNo(0)
}

// Plans `want` blocks anew for the file that `head` heads, and what is left of the plan. `last`: last reserved, `size`: the disk's.
pub fn plan_file(
    slots: &mut [u16],
    last: BlockNo,
    size: u16,
    blocks: &[u16],
    old: Old,
    want: u64,
    head: AnodeNo,
    counts: &mut [u16],
    firsts: &mut [u16],
    nexts: &mut [u16],
) -> Result<(), Refusal>
    requires anode_tables { AnodeTables counts.old firsts.old nexts.old × (length slots.old ≡ 42) }
    requires file_ready { FileReady last.0 (old_from blocks.now old.head.0 old.moved.0 size 0) head.0 want (table_from counts.old firsts.old nexts.old slots.old) }
    ensures { EndsIn result (table_from counts.new firsts.new nexts.new slots.new) (taken_anew head.0 want (table_from counts.old firsts.old nexts.old slots.old) and_then rest_from last.0 (old_from blocks.now old.head.0 old.moved.0 size 0)) }
{
    take_anew(slots, want, head, counts, firsts, nexts)?;
    settle(slots, last, size, blocks, old, counts, firsts, nexts)
}

// Plans a new place for the one block of anode `owner`, an old directory block, and what is left of the plan.
fn plan_move(
    slots: &mut [u16],
    last: BlockNo,
    size: u16,
    blocks: &[u16],
    old: Old,
    owner: AnodeNo,
    counts: &mut [u16],
    firsts: &mut [u16],
    nexts: &mut [u16],
) -> Result<(), Refusal>
    requires anode_tables { AnodeTables counts.old firsts.old nexts.old × (length slots.old ≡ 42) }
    requires move_ready { MoveReady last.0 (old_from blocks.now old.head.0 old.moved.0 size 0) old.moved.0 owner.0 (table_from counts.old firsts.old nexts.old slots.old) }
    ensures { EndsIn result (table_from counts.new firsts.new nexts.new slots.new) (relocated old.moved.0 (table_from counts.old firsts.old nexts.old slots.old) and_then rest_from last.0 (old_from blocks.now old.head.0 old.moved.0 size 0)) }
{
    relocate(owner, counts, firsts, nexts)?;
    settle(slots, last, size, blocks, old, counts, firsts, nexts)
}

// Plans `want` blocks anew for the file that `head` heads, a new place for the block of its entry, and what is left of the plan.
pub fn plan_resize(
    slots: &mut [u16],
    last: BlockNo,
    size: u16,
    blocks: &[u16],
    old: Old,
    want: u64,
    head: AnodeNo,
    owner: AnodeNo,
    counts: &mut [u16],
    firsts: &mut [u16],
    nexts: &mut [u16],
) -> Result<(), Refusal>
    requires anode_tables { AnodeTables counts.old firsts.old nexts.old × (length slots.old ≡ 42) }
    requires resize_ready { ResizeReady last.0 (old_from blocks.now old.head.0 old.moved.0 size 0) head.0 want old.moved.0 owner.0 (table_from counts.old firsts.old nexts.old slots.old) }
    ensures { EndsIn result (table_from counts.new firsts.new nexts.new slots.new) (taken_anew head.0 want (table_from counts.old firsts.old nexts.old slots.old) and_then relocated old.moved.0 and_then rest_from last.0 (old_from blocks.now old.head.0 old.moved.0 size 0)) }
{
    take_anew(slots, want, head, counts, firsts, nexts)?;
    plan_move(slots, last, size, blocks, old, owner, counts, firsts, nexts)
}

// Zeroes the chain of `head`, and plans a new place for the block of its entry and what is left of the plan.
pub fn plan_remove(
    slots: &mut [u16],
    last: BlockNo,
    size: u16,
    blocks: &[u16],
    old: Old,
    head: AnodeNo,
    owner: AnodeNo,
    counts: &mut [u16],
    firsts: &mut [u16],
    nexts: &mut [u16],
) -> Result<(), Refusal>
    requires anode_tables { AnodeTables counts.old firsts.old nexts.old × (length slots.old ≡ 42) }
    requires linked_from { LinkedFrom (anodes_from counts.old firsts.old nexts.old) head.0 × MoveReady last.0 (old_from blocks.now old.head.0 old.moved.0 size 0) old.moved.0 owner.0 (chain_zeroed (table_from counts.old firsts.old nexts.old slots.old) head.0) }
    ensures { EndsIn result (table_from counts.new firsts.new nexts.new slots.new) (relocated old.moved.0 (chain_zeroed (table_from counts.old firsts.old nexts.old slots.old) head.0) and_then rest_from last.0 (old_from blocks.now old.head.0 old.moved.0 size 0)) }
{
    drop_chain(head, counts, firsts, nexts);
    plan_move(slots, last, size, blocks, old, owner, counts, firsts, nexts)
}
