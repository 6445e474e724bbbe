// Gives the last run of a chain back to the free list, on the anodes in three lent tables and the slots in a fourth, and carries what the next run needs.
#![tactic(auto)]

ghost use Rattle.std.specs.Prelude.{cond, not, ◌&&◌, List, ◌≢◌, ◌≡◌, ℕ, ◌+◌, ◌-◌, ◌<◌, ◌≤◌, eqb, length, get_or};
ghost use Rattle.rules.specs.Anodes.{exists_by};
ghost use Rattle.rules.specs.Chains.{cut};
ghost use Rattle.rules.specs.Plans.{regrown};
ghost use Rattle.rules.specs.Space.{upper_run, lower_run, run_length, without_tail, tail_start, side_end, join};
ghost use Rattle.laws.specs.Carried.{end_after};
ghost use Rattle.anodes.specs.Loaded.{anodes_from, slots_from, table_from, AnodeTables};
ghost use Rattle.placing.specs.Steps.{step_plan, UnlessMoved};
ghost use Rattle.growing.specs.Grown.{growth_if};
ghost use Rattle.giving_runs.specs.Runs.{last_full, anode_before, run_to, Picked, Carries, RunOff, GivenGrown, Turns};

use disk::{AnodeNo, BlockNo, Refusal};
use growing::grow_slots;
use placing::{join, join_with, without_run};
use searches::{last_anode, next_before_two, side_of};
use tables::entry;

// A run at the end of a chain: `length` blocks from `first` on, the last of `anode`, which stands after `before` and at `place` among the chain's anodes; `whole`: all that it has.
#[derive(Clone, Copy)]
pub struct Run {
    pub before: AnodeNo,
    pub anode: AnodeNo,
    pub length: u16,
    pub first: BlockNo,
    pub place: usize,
    pub whole: bool,
}

// What one run leaves to the next: how many blocks are still to go, how many of the chain's anodes may have any, and the last anodes of the sides of the free list above last reserved and up to it.
#[derive(Clone, Copy)]
pub struct Going {
    pub left: u64,
    pub at: usize,
    pub upper: AnodeNo,
    pub lower: AnodeNo,
}

// How many blocks of an extent of `count` from `first` on are in its upper run; `last`: last reserved.
fn upper_run(last: BlockNo, count: u16, first: BlockNo) -> u16
    requires { first.0 + count ≤ 65535 }
    ensures { result ≡ upper_run last.0 count first.0 }
{
    if last.0 < first.0 {
        return count;
    }
    let from = first.0 as u32;
    let above = last.0 as u32 + 1;
    let end = from + count as u32;
    if end <= above {
        return count;
    }
    (end - above) as u16
}

// How many blocks of an extent of `count` from `first` on are in its lower run; `last`: last reserved.
pub fn lower_run(last: BlockNo, count: u16, first: BlockNo) -> u16
    requires { first.0 + count ≤ 65535 }
    ensures { result ≡ lower_run last.0 count first.0 }
{
    if last.0 < first.0 {
        return count;
    }
    let from = first.0 as u32;
    let above = last.0 as u32 + 1;
    let end = from + count as u32;
    if end <= above {
        return count;
    }
    (above - from) as u16
}

// How many of the `k` blocks that are to go are in the upper run of an extent of `count` from `first` on.
fn run_length(last: BlockNo, k: u64, count: u16, first: BlockNo) -> u16
    requires { first.0 + count ≤ 65535 }
    ensures { result ≡ run_length last.0 k count first.0 }
{
    k.min(upper_run(last, count, first) as u64) as u16
}

// The place of the last anode with a block among the first `k` of a chain.
fn last_full(counts: &[u16], chain: &[u16], k: usize) -> usize
    ensures { result ≡ last_full (λ a. get_or counts.now a 0) chain.now k }
{
    for i in (0..k).rev() {
        if entry(counts, entry(chain, i) as usize) != 0 {
            return i;
        }
    }
    0
}

// The anode before a place of a chain, 0 before the first.
fn anode_before(chain: &[u16], i: usize) -> AnodeNo
    ensures { result.0 ≡ anode_before chain.now i }
{
    if i == 0 {
        return AnodeNo(0);
    }
    AnodeNo(entry(chain, i - 1))
}

// The run that goes back next, where `left` blocks of a chain are to go and the first `at` of its anodes may have any.
fn pick_run(
    last: BlockNo,
    left: u64,
    chain: &[u16],
    at: usize,
    counts: &[u16],
    firsts: &[u16],
) -> Run
    requires by_index { (a : ℕ) → 0 < get_or counts.now a 0 → get_or firsts.now a 0 + get_or counts.now a 0 ≤ 65535 }
    requires nonzero { 0 < get_or counts.now (get_or chain.now (last_full (λ a. get_or counts.now a 0) chain.now at) 0) 0 }
    ensures { (n : List ℕ) → Picked last.0 left (anodes_from counts.now firsts.now n) chain.now at result }
{
    let place = last_full(counts, chain, at);
    let anode = AnodeNo(entry(chain, place));
    let count = entry(counts, anode.0 as usize);
    let first = entry(firsts, anode.0 as usize);
    let length = run_length(last, left, count, BlockNo(first));
    Run {
        before: anode_before(chain, place),
        anode,
        length,
        first: BlockNo(first + (count - length)),
        place,
        whole: count == length,
    }
}

// Whether the anode of a run of the chain of `head` goes with it: its whole extent goes, and it is not the head.
fn goes_along(run: Run, head: AnodeNo) -> bool
    ensures { result ≡ (run.whole && not (eqb run.anode.0 head.0)) }
{
    run.whole && run.anode.0 != head.0
}

// Gives a run of the chain of `head` to its side of the free list, whose last anode is `z`: a whole extent with its anode, unless that is the head.
fn give_run(
    slots: &[u16],
    head: AnodeNo,
    z: AnodeNo,
    run: Run,
    counts: &mut [u16],
    firsts: &mut [u16],
    nexts: &mut [u16],
) -> Result<BlockNo, Refusal>
    requires anode_tables { AnodeTables counts.old firsts.old nexts.old × (run.before.0 < 3444) × (run.anode.0 < 3444) × (z.0 < 3444) × (z.0 ≢ run.anode.0) }
    requires length_bound { (run.length ≤ get_or counts.old run.anode.0 0) × (run.first.0 + run.length ≤ 65535) × (0 < get_or counts.old z.0 0 → get_or firsts.old z.0 0 + get_or counts.old z.0 0 ≤ 65535) }
    requires first_value { (run.first.0 ≡ tail_start (anodes_from counts.old firsts.old nexts.old) run.anode.0 run.length) × (run.whole ≡ eqb (get_or counts.old run.anode.0 0) run.length) }
    ensures plan { step_plan result run.length (anodes_from counts.new firsts.new nexts.new) ≡ run_to (exists_by (slots_from slots.now)) head.0 run.before.0 run.anode.0 run.length z.0 (anodes_from counts.old firsts.old nexts.old) }
    ensures unmoved { UnlessMoved result (without_tail (anodes_from counts.old firsts.old nexts.old) head.0 run.before.0 run.anode.0 run.length) (anodes_from counts.new firsts.new nexts.new) }
{
    let p = run.before;
    let x = run.anode;
    let y = run.first;
    let first = BlockNo(entry(firsts, x.0 as usize));
    without_run(counts, firsts, nexts, head, p, x, run.length, first);
    if goes_along(run, head) {
        join_with(x, z, run.length, y, counts, firsts, nexts);
        return Ok(y);
    }
    join(slots, z, run.length, y, counts, firsts, nexts)
}

// The last anode of the side that a run goes to; `above`: above last reserved.
fn side_end(above: bool, g: Going) -> AnodeNo
    ensures { result.0 ≡ cond above g.upper.0 g.lower.0 }
{
    if above {
        return g.upper;
    }
    g.lower
}

// The anode behind `z` before 2, if there is one, else `z`.
pub fn end_after(nexts: &[u16], z: AnodeNo) -> AnodeNo
    ensures { result.0 ≡ end_after (cut (λ a. get_or nexts.now a 0)) z.0 }
{
    let next = next_before_two(nexts, z);
    if next.0 == 0 {
        return z;
    }
    next
}

// How many of the chain's anodes may have a block once a run is given.
fn anodes_left(run: Run) -> usize
    requires { run.place < 3444 }
    ensures { result ≡ cond run.whole run.place (run.place + 1) }
{
    if run.whole {
        return run.place;
    }
    run.place + 1
}

// What is carried on once a run is given; `above`: it has gone above last reserved.
fn carry_on(nexts: &[u16], above: bool, g: Going, run: Run) -> Going
    requires { (run.length ≤ g.left) × (run.place < 3444) }
    ensures { (result.left ≡ g.left - run.length) × (result.at ≡ cond run.whole run.place (run.place + 1)) × (result.upper.0 ≡ cond above (end_after (cut (λ a. get_or nexts.now a 0)) g.upper.0) g.upper.0) × (result.lower.0 ≡ cond above g.lower.0 (end_after (cut (λ a. get_or nexts.now a 0)) g.lower.0)) }
{
    let left = g.left - run.length as u64;
    let at = anodes_left(run);
    let upper = g.upper;
    let lower = g.lower;
    if above {
        return Going {
            left,
            at,
            upper: end_after(nexts, upper),
            lower,
        };
    }
    Going {
        left,
        at,
        upper,
        lower: end_after(nexts, lower),
    }
}

// What is carried on once the slots have grown for a run, now nobody's, and it has joined its side, whose last anode is looked for anew; `last`: last reserved.
fn give_grown(
    growing: bool,
    slots: &mut [u16],
    last: BlockNo,
    g: Going,
    run: Run,
    counts: &mut [u16],
    firsts: &mut [u16],
    nexts: &mut [u16],
) -> Result<Going, Refusal>
    requires anode_tables { AnodeTables counts.old firsts.old nexts.old × (length slots.old ≡ 42) }
    requires run_off { RunOff last.0 g run (table_from counts.old firsts.old nexts.old slots.old) }
    ensures { GivenGrown result g run (table_from counts.new firsts.new nexts.new slots.new) (regrown (λ ex t. join 3444 (side_end 3444 last.0 t run.first.0) run.length run.first.0 ex t) 28 (growth_if growing (table_from counts.old firsts.old nexts.old slots.old))) }
{
    if !grow_slots(growing, slots, counts, firsts, nexts) {
        return Err(Refusal::NoFreeAnode);
    }
    let z = last_anode(nexts, side_of(last, run.first));
    join(slots, z, run.length, run.first, counts, firsts, nexts)?;
    Ok(Going {
        left: g.left - run.length as u64,
        at: anodes_left(run),
        upper: last_anode(nexts, AnodeNo(1)),
        lower: last_anode(nexts, AnodeNo(2)),
    })
}

// Gives back the last run of the chain of `head`, whose anodes are in `chain`, by what is carried; `last`: last reserved, `growing`: whether slots may grow for it.
pub fn give_turn(
    growing: bool,
    slots: &mut [u16],
    last: BlockNo,
    head: AnodeNo,
    chain: &[u16],
    g: Going,
    counts: &mut [u16],
    firsts: &mut [u16],
    nexts: &mut [u16],
) -> Result<Going, Refusal>
    requires anode_tables { AnodeTables counts.old firsts.old nexts.old × (length slots.old ≡ 42) × (0 < g.left) }
    requires carries { Carries last.0 head.0 chain.now g (table_from counts.old firsts.old nexts.old slots.old) }
    ensures { Turns result (growth_if growing) last.0 head.0 chain.now g.left (table_from counts.old firsts.old nexts.old slots.old) (table_from counts.new firsts.new nexts.new slots.new) }
{
    let run = pick_run(last, g.left, chain, g.at, counts, firsts);
    let above = last.0 < run.first.0;
    let z = side_end(above, g);
    let Ok(_) = give_run(slots, head, z, run, counts, firsts, nexts) else {
        return give_grown(growing, slots, last, g, run, counts, firsts, nexts);
    };
    Ok(carry_on(nexts, above, g, run))
}
