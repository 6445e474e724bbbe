// Gives blocks of a chain back to the free list, run by run, and zeroes a chain, on the anodes in three lent tables and the slots in a fourth.
#![tactic(auto)]

ghost use Rattle.std.specs.Prelude.{List, ◌≡◌, ℕ, ◌≤◌, length, get_or, take};
ghost use Rattle.rules.specs.Chains.{chain_of, block_count};
ghost use Rattle.rules.specs.Plans.{slotted, planned};
ghost use Rattle.rules.specs.Space.{dropped, head_back, give_blocks, give_all};
ghost use Rattle.anodes.specs.Loaded.{anodes_from, table_from, AnodeTables};
ghost use Rattle.placing.specs.Steps.{EndsIn};
ghost use Rattle.placing.specs.States.{Ready};
ghost use Rattle.growing.specs.Grown.{growth_if};
ghost use Rattle.giving.specs.Steps.{LinkedFrom};

use disk::{AnodeNo, BlockNo, Refusal};
use giving_runs::{Going, give_turn, lower_run};
use links::Links;
use placing::join_with;
use searches::{last_anode, side_of};
use tables::{copy_entries, entry, set_entry};

// A copy of a table of anodes, for the steps to work on.
pub fn copied(table: &[u16]) -> [u16; 3444]
    requires { length table.now ≡ 3444 }
    ensures { result ≡ table.now }
{
    let mut copy = [0u16; 3444];
    copy_entries(table, &mut copy);
    copy
}

// Zeroes the anodes of the chain of `head`.
pub fn drop_chain(head: AnodeNo, counts: &mut [u16], firsts: &mut [u16], nexts: &mut [u16])
    requires { LinkedFrom (anodes_from counts.old firsts.old nexts.old) head.0 }
    ensures { anodes_from counts.new firsts.new nexts.new ≡ dropped 3444 (anodes_from counts.old firsts.old nexts.old) head.0 }
{
    let mut at = head.0 as usize;
    // By hand, since it zeroes the links that it follows.
    for _ in 0..3444usize {
        if at == 0 {
            return;
        }
        let next = entry(nexts, at) as usize;
        set_entry(counts, at, 0);
        set_entry(firsts, at, 0);
        set_entry(nexts, at, 0);
        at = next;
    }
}

// Writes the anodes of the chain of `head`, in order, into `chain`, and tells how many they are.
fn list_chain(nexts: &[u16], head: AnodeNo, chain: &mut [u16]) -> usize
    requires { length chain.old ≡ 3444 }
    ensures { (result ≤ 3444) × (take result chain.new ≡ chain_of (λ a. get_or nexts.now a 0) 3444 head.0) }
{
    let mut n = 0;
    for a in Links::along(nexts, head) {
        set_entry(chain, n, a.0);
        n += 1;
    }
    n
}

// Gives back the last `k` blocks of the chain of `head`, run by run; `last`: last reserved, `growing`: whether slots may grow for them. The chain's anodes are noted once, and the ends of both sides of the free list are carried.
pub fn give_blocks(
    growing: bool,
    slots: &mut [u16],
    last: BlockNo,
    k: u64,
    head: AnodeNo,
    counts: &mut [u16],
    firsts: &mut [u16],
    nexts: &mut [u16],
) -> Result<(), Refusal>
    requires anode_tables { AnodeTables counts.old firsts.old nexts.old × (length slots.old ≡ 42) }
    requires ready { Ready last.0 (table_from counts.old firsts.old nexts.old slots.old) head.0 }
    requires k_bound { k ≤ block_count (anodes_from counts.old firsts.old nexts.old) head.0 }
    ensures { EndsIn result (table_from counts.new firsts.new nexts.new slots.new) (give_blocks 3444 (growth_if growing) last.0 k head.0 (table_from counts.old firsts.old nexts.old slots.old)) }
{
    let mut chain = [0u16; 3444];
    let at = list_chain(nexts, head, &mut chain);
    let upper = last_anode(nexts, AnodeNo(1));
    let lower = last_anode(nexts, AnodeNo(2));
    let mut g = Going {
        left: k,
        at,
        upper,
        lower,
    };
    // a while loop, for a turn gives back a whole run
    while 0 < g.left {
        g = give_turn(growing, slots, last, head, &chain, g, counts, firsts, nexts)?;
    }
    Ok(())
}

// The end of a removal: zeroes the anodes still in the chain of `head`; the run that the head still has, if any, goes back with the head itself.
fn head_back(
    last: BlockNo,
    head: AnodeNo,
    counts: &mut [u16],
    firsts: &mut [u16],
    nexts: &mut [u16],
)
    requires anode_tables { AnodeTables counts.old firsts.old nexts.old }
    requires by_index { (slots : ℕ → ℕ) × Ready last.0 (slotted (anodes_from counts.old firsts.old nexts.old) slots) head.0 }
    ensures { (slots : ℕ → ℕ) → (ys : List ℕ) × (head_back 3444 last.0 head.0 (slotted (anodes_from counts.old firsts.old nexts.old) slots) ≡ planned (slotted (anodes_from counts.new firsts.new nexts.new) slots) ys) }
{
    let count = entry(counts, head.0 as usize);
    let first = BlockNo(entry(firsts, head.0 as usize));
    drop_chain(head, counts, firsts, nexts);
    if count == 0 {
        return;
    }
    let z = last_anode(nexts, side_of(last, first));
    join_with(head, z, count, first, counts, firsts, nexts);
}

// Gives back the whole chain of `head`, which has `have` blocks, as a removal does; `last`: last reserved, `growing`: whether slots may grow for it.
pub fn give_all(
    growing: bool,
    slots: &mut [u16],
    last: BlockNo,
    have: u64,
    head: AnodeNo,
    counts: &mut [u16],
    firsts: &mut [u16],
    nexts: &mut [u16],
) -> Result<(), Refusal>
    requires anode_tables { AnodeTables counts.old firsts.old nexts.old × (length slots.old ≡ 42) }
    requires ready { Ready last.0 (table_from counts.old firsts.old nexts.old slots.old) head.0 }
    requires have_value { have ≡ block_count (anodes_from counts.old firsts.old nexts.old) head.0 }
    ensures { EndsIn result (table_from counts.new firsts.new nexts.new slots.new) (give_all 3444 (growth_if growing) last.0 head.0 (table_from counts.old firsts.old nexts.old slots.old)) }
{
    let count = entry(counts, head.0 as usize);
    let first = BlockNo(entry(firsts, head.0 as usize));
    let k = have - lower_run(last, count, first) as u64;
    give_blocks(growing, slots, last, k, head, counts, firsts, nexts)?;
    head_back(last, head, counts, firsts, nexts);
    Ok(())
}
