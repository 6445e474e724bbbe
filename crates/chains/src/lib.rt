// Refusals 6 to 9 and the heads of chains, over the anodes in three lent tables.
#![tactic(auto)]

ghost use Rattle.std.specs.Prelude.{◌&&◌, true, false, not, List, ◌++◌, ◌≡◌, ℕ, ◌+◌, ◌≤◌, ◌<◌, eqb, leb, ltb, length, get_or, drop, replicate};
ghost use Rattle.rules.specs.Counting.{any_below, any_in};
ghost use Rattle.rules.specs.Anodes.{is_free};
ghost use Rattle.rules.specs.Chains.{chain_of};
ghost use Rattle.rules.specs.Accepted.{wrong_fixed, wrong_extent, out_of_range, wrong_links, not_up_to, wrong_free_list};
ghost use Rattle.rules.specs.Tables.{anode_table};
ghost use Rattle.laws.specs.Links.{View, Closed, Linked};
ghost use Rattle.tables.specs.Held.{ZeroBelow, ZeroFrom};
ghost use Rattle.anodes.specs.Loaded.{anodes_from};
ghost use Rattle.chains.specs.Predecessors.{PredTable, NotedBelow, Noted, fixed_noted};
ghost use Rattle.chains.specs.Storing.{stored_along};
ghost use Rattle.chains.specs.Endings.{EndsBelow, unmarked, Ends};
ghost use Rattle.chains.specs.FreeList.{wrong_before};
ghost use Rattle.chains.specs.Filling.{FilledBelow};

use disk::AnodeNo;
use links::Links;
use tables::{entry, set_entry, zero_first, zeros_from};

// Anode `a` is not an empty one in use: its count is not 0, or its block not 65535.
fn not_empty(counts: &[u16], firsts: &[u16], a: usize) -> bool
    ensures { result ≡ not (eqb (get_or counts.now a 0) 0 && eqb (get_or firsts.now a 0) 65535) }
{
    if entry(counts, a) != 0 {
        return true;
    }
    entry(firsts, a) != 65535
}

// Anode `a` is free: all three fields are 0.
fn is_cleared(counts: &[u16], firsts: &[u16], nexts: &[u16], a: usize) -> bool
    ensures { result ≡ is_free (anodes_from counts.now firsts.now nexts.now) a }
{
    if entry(counts, a) != 0 {
        return false;
    }
    if entry(firsts, a) != 0 {
        return false;
    }
    entry(nexts, a) == 0
}

// 6: the fixed anodes.
pub fn wrong_fixed(counts: &[u16], firsts: &[u16], nexts: &[u16]) -> bool
    ensures { result ≡ wrong_fixed (anodes_from counts.now firsts.now nexts.now) }
{
    if not_empty(counts, firsts, 0) {
        return true;
    }
    if entry(nexts, 0) != 0 {
        return true;
    }
    if not_empty(counts, firsts, 1) {
        return true;
    }
    if is_cleared(counts, firsts, nexts, 2) {
        return true;
    }
    is_cleared(counts, firsts, nexts, 5)
}

// A non-empty extent ends past `limit`; its end is the whole-number sum.
fn ends_past(count: u16, first: u16, limit: usize) -> bool
    ensures { result ≡ (ltb 0 count && ltb limit (first + count)) }
{
    if count == 0 {
        return false;
    }
    let end = first as usize + count as usize;
    limit < end
}

// An anode other than 0 has an extent past the disk's end, or a next that is not in use.
fn wrong_extent(counts: &[u16], firsts: &[u16], nexts: &[u16], size: usize, a: usize) -> bool
    ensures { result ≡ wrong_extent (anodes_from counts.now firsts.now nexts.now) size a }
{
    if a == 0 {
        return false;
    }
    if ends_past(entry(counts, a), entry(firsts, a), size) {
        return true;
    }
    let next = entry(nexts, a);
    if next == 0 {
        return false;
    }
    entry(firsts, next as usize) == 0
}

// 7 for one anode: with a block field of 0 it must be free.
fn anode_out_of_range(counts: &[u16], firsts: &[u16], nexts: &[u16], size: usize, a: usize) -> bool
    ensures { result ≡ out_of_range (anodes_from counts.now firsts.now nexts.now) size a }
{
    if entry(firsts, a) == 0 {
        return !is_cleared(counts, firsts, nexts, a);
    }
    wrong_extent(counts, firsts, nexts, size, a)
}

// Whether all three fields of the 82 anodes from `from` on are there and 0.
fn all_cleared(counts: &[u16], firsts: &[u16], nexts: &[u16], from: usize) -> bool
    ensures { result ≡ true → ZeroFrom counts.now from (from + 82) × ZeroFrom firsts.now from (from + 82) × ZeroFrom nexts.now from (from + 82) }
{
    if !zeros_from(counts, from) {
        return false;
    }
    if !zeros_from(firsts, from) {
        return false;
    }
    zeros_from(nexts, from)
}

// 7 for the anodes below `end`, where it holds for none below `from`.
fn run_out_of_range(
    counts: &[u16],
    firsts: &[u16],
    nexts: &[u16],
    size: usize,
    from: usize,
    end: usize,
) -> bool
    requires { (from ≤ end) × (any_below (out_of_range (anodes_from counts.now firsts.now nexts.now) size) from ≡ false) }
    ensures { result ≡ any_below (out_of_range (anodes_from counts.now firsts.now nexts.now) size) end }
{
    for a in from..end {
        if anode_out_of_range(counts, firsts, nexts, size, a) {
            return true;
        }
    }
    false
}

// The same for the 82 anodes from `from` on, which are passed over where all are free.
fn chunk_out_of_range(
    counts: &[u16],
    firsts: &[u16],
    nexts: &[u16],
    size: usize,
    from: usize,
) -> bool
    requires { (from < 3444) × (any_below (out_of_range (anodes_from counts.now firsts.now nexts.now) size) from ≡ false) }
    ensures { result ≡ any_below (out_of_range (anodes_from counts.now firsts.now nexts.now) size) (from + 82) }
{
    if all_cleared(counts, firsts, nexts, from) {
        return false;
    }
    run_out_of_range(counts, firsts, nexts, size, from, from + 82)
}

// 7: a half-cleared anode, an extent past the disk's end, or a next that is not in use.
pub fn out_of_range(counts: &[u16], firsts: &[u16], nexts: &[u16], size: usize) -> bool
    ensures { result ≡ any_below (out_of_range (anodes_from counts.now firsts.now nexts.now) size) 3444 }
{
    for k in 0..42 {
        if chunk_out_of_range(counts, firsts, nexts, size, k * 82) {
            return true;
        }
    }
    false
}

// Notes anode `a` as the predecessor of its next; true if that has one already.
fn note_pred(nexts: &[u16], preds: &mut [u16], a: u16) -> bool
    requires { (a < 3444) × (length preds.old ≡ 3444) × (get_or nexts.now 0 0 ≡ 0) × ((x : ℕ) → get_or nexts.now x 0 < 3444) × NotedBelow preds.old nexts.now a }
    ensures { Noted result preds.new nexts.now (a + 1) }
{
    let next = entry(nexts, a as usize) as usize;
    if next == 0 {
        return false;
    }
    if entry(preds, next) != 0 {
        return true;
    }
    set_entry(preds, next, a);
    false
}

// Notes the anodes from `from` up to `end`; true if a next of theirs has a predecessor already.
fn note_run(nexts: &[u16], preds: &mut [u16], from: u16, end: u16) -> bool
    requires { (from ≤ end) × (end ≤ 3444) × (length preds.old ≡ 3444) × (get_or nexts.now 0 0 ≡ 0) × ((x : ℕ) → get_or nexts.now x 0 < 3444) × NotedBelow preds.old nexts.now from }
    ensures { Noted result preds.new nexts.now end }
{
    for a in from..end {
        if note_pred(nexts, preds, a) {
            return true;
        }
    }
    false
}

// The same for the 82 anodes from `from` on, which are passed over where none has a next.
fn note_chunk(nexts: &[u16], preds: &mut [u16], from: u16) -> bool
    requires { (from + 82 ≤ 3444) × (length preds.old ≡ 3444) × (get_or nexts.now 0 0 ≡ 0) × ((x : ℕ) → get_or nexts.now x 0 < 3444) × NotedBelow preds.old nexts.now from }
    ensures { Noted result preds.new nexts.now (from + 82) }
{
    if zeros_from(nexts, from as usize) {
        return false;
    }
    note_run(nexts, preds, from, from + 82)
}

// Notes each anode's predecessor; true if one has two.
fn note_preds(nexts: &[u16], preds: &mut [u16]) -> bool
    requires { (preds.old ≡ replicate 3444 0) × (get_or nexts.now 0 0 ≡ 0) × ((x : ℕ) → get_or nexts.now x 0 < 3444) }
    ensures { Noted result preds.new nexts.now 3444 }
{
    for k in 0..42 {
        if note_chunk(nexts, preds, k * 82) {
            return true;
        }
    }
    false
}

// Anode 1, 3, 4 or 5 has a predecessor.
fn fixed_has_pred(preds: &[u16]) -> bool
    ensures { result ≡ fixed_noted preds.now }
{
    if entry(preds, 1) != 0 {
        return true;
    }
    if entry(preds, 3) != 0 {
        return true;
    }
    if entry(preds, 4) != 0 {
        return true;
    }
    entry(preds, 5) != 0
}

// Stores `v` at `from` and along the links from there, until 0 and at most 3,444 times.
fn store_along(links: &[u16], table: &mut [u16], v: u16, from: AnodeNo)
    ensures { table.new ≡ stored_along 3444 links.now table.old v from.0 }
{
    for a in Links::along(links, from) {
        set_entry(table, a.0 as usize, v);
    }
}

// Marks the chain of `a`, from there back, where `a` is its last anode.
fn mark_end(firsts: &[u16], nexts: &[u16], preds: &[u16], marks: &mut [u16], a: u16)
    requires { (a < 3444) × (length nexts.now ≡ 3444) × (get_or nexts.now 0 0 ≡ 0) × PredTable preds.now nexts.now × EndsBelow marks.old nexts.now firsts.now a }
    ensures { EndsBelow marks.new nexts.now firsts.now (a + 1) }
{
    if entry(firsts, a as usize) == 0 {
        return;
    }
    if entry(nexts, a as usize) != 0 {
        return;
    }
    store_along(preds, marks, 1, AnodeNo(a));
}

// Marks the chains whose last anode is one from `from` up to `end`.
fn mark_run(firsts: &[u16], nexts: &[u16], preds: &[u16], marks: &mut [u16], from: u16, end: u16)
    requires { (from ≤ end) × (end ≤ 3444) × (length nexts.now ≡ 3444) × (get_or nexts.now 0 0 ≡ 0) × PredTable preds.now nexts.now × EndsBelow marks.old nexts.now firsts.now from }
    ensures { EndsBelow marks.new nexts.now firsts.now end }
{
    for a in from..end {
        mark_end(firsts, nexts, preds, marks, a);
    }
}

// The same for the 82 anodes from `from` on, which are passed over where all are free.
fn mark_chunk(firsts: &[u16], nexts: &[u16], preds: &[u16], marks: &mut [u16], from: u16)
    requires { (from + 82 ≤ 3444) × (length nexts.now ≡ 3444) × (get_or nexts.now 0 0 ≡ 0) × PredTable preds.now nexts.now × EndsBelow marks.old nexts.now firsts.now from }
    ensures { EndsBelow marks.new nexts.now firsts.now (from + 82) }
{
    if zeros_from(firsts, from as usize) {
        return;
    }
    mark_run(firsts, nexts, preds, marks, from, from + 82);
}

// Marks the anodes whose chains end.
fn mark_ends(firsts: &[u16], nexts: &[u16], preds: &[u16], marks: &mut [u16])
    requires { (marks.old ≡ replicate 3444 0) × (length nexts.now ≡ 3444) × (get_or nexts.now 0 0 ≡ 0) × PredTable preds.now nexts.now }
    ensures { EndsBelow marks.new nexts.now firsts.now 3444 }
{
    for k in 0..42 {
        mark_chunk(firsts, nexts, preds, marks, k * 82);
    }
}

// An anode in use, not 0, is not marked.
fn is_unmarked(firsts: &[u16], marks: &[u16], a: usize) -> bool
    ensures { result ≡ unmarked firsts.now marks.now a }
{
    if a == 0 {
        return false;
    }
    if entry(firsts, a) == 0 {
        return false;
    }
    entry(marks, a) == 0
}

// Some anode in use, not 0, is not marked: one after the other, in tables that may be short.
fn search_unmarked(firsts: &[u16], marks: &[u16]) -> bool
    ensures { result ≡ any_below (unmarked firsts.now marks.now) 3444 }
{
    for a in 0..3444 {
        if is_unmarked(firsts, marks, a) {
            return true;
        }
    }
    false
}

// The same in tables with a number for each anode: no early way out, so that many are tested at once.
fn any_unmarked(firsts: &[u16], marks: &[u16]) -> bool
    requires { (3444 ≤ length firsts.now) × (3444 ≤ length marks.now) }
    ensures { result ≡ any_below (unmarked firsts.now marks.now) 3444 }
{
    let mut any = false;
    for a in 1..3444 {
        any = any | ((firsts[a] != 0) & (marks[a] == 0));
    }
    any
}

// Some anode in use, not 0, is not marked.
fn some_unmarked(firsts: &[u16], marks: &[u16]) -> bool
    ensures { result ≡ any_below (unmarked firsts.now marks.now) 3444 }
{
    if firsts.len() < 3444 {
        return search_unmarked(firsts, marks);
    }
    if marks.len() < 3444 {
        return search_unmarked(firsts, marks);
    }
    any_unmarked(firsts, marks)
}

// Some anode's chain never ends.
fn some_endless(firsts: &[u16], nexts: &[u16], preds: &[u16]) -> bool
    requires { (length firsts.now ≡ 3444) × (length nexts.now ≡ 3444) × (get_or nexts.now 0 0 ≡ 0) × PredTable preds.now nexts.now × Closed (λ a. get_or nexts.now a 0) (λ a. get_or firsts.now a 0) }
    ensures { Ends result nexts.now firsts.now }
{
    let mut marks = [0u16; 3444];
    mark_ends(firsts, nexts, preds, &mut marks);
    some_unmarked(firsts, &marks)
}

// 8: two predecessors, a chain that never ends, or a predecessor of 1, 3, 4 or 5. Where none of these is found, `preds` holds each anode's predecessor, or 0.
pub fn wrong_links(firsts: &[u16], nexts: &[u16], preds: &mut [u16]) -> bool
    requires { (preds.old ≡ replicate 3444 0) × (length firsts.now ≡ 3444) × (length nexts.now ≡ 3444) × View 3444 (λ a. get_or nexts.now a 0) (λ a. get_or firsts.now a 0) × (get_or nexts.now 0 0 ≡ 0) × Closed (λ a. get_or nexts.now a 0) (λ a. get_or firsts.now a 0) }
    ensures answer { (c : List ℕ) → result ≡ wrong_links (anodes_from c firsts.now nexts.now) }
    ensures noted { result ≡ false → PredTable preds.new nexts.now }
{
    if note_preds(nexts, preds) {
        return true;
    }
    if fixed_has_pred(preds) {
        return true;
    }
    some_endless(firsts, nexts, preds)
}

// Stores `a` along its chain where `a` is its head.
fn fill_head(firsts: &[u16], nexts: &[u16], preds: &[u16], heads: &mut [u16], a: u16)
    requires { (0 < a) × Linked 3444 (λ x. get_or nexts.now x 0) (λ x. get_or firsts.now x 0) × PredTable preds.now nexts.now × FilledBelow heads.old nexts.now firsts.now a }
    ensures { (drop 3444 heads.new ≡ drop 3444 heads.old) × FilledBelow heads.new nexts.now firsts.now (a + 1) }
{
    let from = a as usize;
    if entry(firsts, from) == 0 {
        return;
    }
    if entry(preds, from) != 0 {
        return;
    }
    store_along(nexts, heads, a, AnodeNo(a));
}

// Stores each head from `from` up to `end` along its chain.
fn fill_run(firsts: &[u16], nexts: &[u16], preds: &[u16], heads: &mut [u16], from: u16, end: u16)
    requires { (0 < from) × (from ≤ end) × Linked 3444 (λ x. get_or nexts.now x 0) (λ x. get_or firsts.now x 0) × PredTable preds.now nexts.now × FilledBelow heads.old nexts.now firsts.now from }
    ensures { (drop 3444 heads.new ≡ drop 3444 heads.old) × FilledBelow heads.new nexts.now firsts.now end }
{
    for a in from..end {
        fill_head(firsts, nexts, preds, heads, a);
    }
}

// The same for the 82 anodes from `from` on, which are passed over where all are free.
fn fill_chunk(firsts: &[u16], nexts: &[u16], preds: &[u16], heads: &mut [u16], from: u16)
    requires { (0 < from) × (from < 3444) × Linked 3444 (λ x. get_or nexts.now x 0) (λ x. get_or firsts.now x 0) × PredTable preds.now nexts.now × FilledBelow heads.old nexts.now firsts.now from }
    ensures { (drop 3444 heads.new ≡ drop 3444 heads.old) × FilledBelow heads.new nexts.now firsts.now (from + 82) }
{
    if zeros_from(firsts, from as usize) {
        return;
    }
    fill_run(firsts, nexts, preds, heads, from, from + 82);
}

// The head of each anode's chain, or 0 for anode 0 and free ones, in the first 3,444 entries of the lent table.
pub fn fill_heads(firsts: &[u16], nexts: &[u16], preds: &[u16], heads: &mut [u16])
    requires { (3444 ≤ length heads.old) × ZeroBelow heads.old 3444 × Linked 3444 (λ a. get_or nexts.now a 0) (λ a. get_or firsts.now a 0) × PredTable preds.now nexts.now }
    ensures { (c : List ℕ) → heads.new ≡ anode_table (anodes_from c firsts.now nexts.now) ++ drop 3444 heads.old }
{
    fill_run(firsts, nexts, preds, heads, 1, 82);
    for k in 1..42 {
        fill_chunk(firsts, nexts, preds, heads, k * 82);
    }
}

// The same table by the links alone, where they are in order: notes the predecessors and zeroes the entries first.
pub fn show_heads(firsts: &[u16], nexts: &[u16], heads: &mut [u16])
    requires { (3444 ≤ length heads.old) × (length nexts.now ≡ 3444) × Linked 3444 (λ a. get_or nexts.now a 0) (λ a. get_or firsts.now a 0) }
    ensures { (c : List ℕ) → heads.new ≡ anode_table (anodes_from c firsts.now nexts.now) ++ drop 3444 heads.old }
{
    let mut preds = [0u16; 3444];
    note_preds(nexts, &mut preds);
    zero_first(heads, 3444);
    fill_heads(firsts, nexts, &preds, heads);
}

// A free extent that does not start above last reserved.
fn not_above(count: u16, first: u16, last: u16) -> bool
    ensures { result ≡ (ltb 0 count && leb first last) }
{
    if count == 0 {
        return false;
    }
    first <= last
}

// 9 from anode 1 until 2 is met.
fn wrong_before_two(counts: &[u16], firsts: &[u16], nexts: &[u16], last: u16) -> bool
    ensures { result ≡ wrong_before (anodes_from counts.now firsts.now nexts.now) last 3444 1 }
{
    for a in Links::along(nexts, AnodeNo(1)) {
        if a.0 == 2 {
            return false;
        }
        let count = entry(counts, a.0 as usize);
        let first = entry(firsts, a.0 as usize);
        if not_above(count, first, last) {
            return true;
        }
    }
    true
}

// 9 from anode 2 on.
fn wrong_from_two(counts: &[u16], firsts: &[u16], nexts: &[u16], last: u16) -> bool
    ensures { result ≡ any_in (not_up_to (anodes_from counts.now firsts.now nexts.now) last) (chain_of (anodes_from counts.now firsts.now nexts.now).next 3444 2) }
{
    for a in Links::along(nexts, AnodeNo(2)) {
        let count = entry(counts, a.0 as usize);
        let first = entry(firsts, a.0 as usize);
        if ends_past(count, first, last as usize + 1) {
            return true;
        }
    }
    false
}

// 9: 2 not on 1's chain, or a free extent on the wrong side.
pub fn wrong_free_list(counts: &[u16], firsts: &[u16], nexts: &[u16], last: u16) -> bool
    ensures { result ≡ wrong_free_list (anodes_from counts.now firsts.now nexts.now) last }
{
    if wrong_before_two(counts, firsts, nexts, last) {
        return true;
    }
    wrong_from_two(counts, firsts, nexts, last)
}
