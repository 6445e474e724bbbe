// Searches among the anodes in lent tables: the extent that a block is taken from, the last anode of a chain, the side of a block, and the lowest free anode.
#![tactic(auto)]

ghost use Rattle.std.specs.Prelude.{cond, List, ◌≡◌, ℕ, ◌-◌, ◌≤◌, ◌<◌, get_or};
ghost use Rattle.rules.specs.Counting.{last_of};
ghost use Rattle.disk.specs.Root.{slot_of};
ghost use Rattle.rules.specs.Anodes.{exists_by};
ghost use Rattle.rules.specs.Chains.{chain_of, cut};
ghost use Rattle.rules.specs.Accepted.{last_reserved};
ghost use Rattle.rules.specs.Space.{first_extent, free_extent, side_of};
ghost use Rattle.rules.specs.Searched.{searched_to, searched, slot_start, through_used, through_slots};
ghost use Rattle.anodes.specs.Loaded.{anodes_from, slots_from};
ghost use Rattle.searches.specs.Found.{found_of, searched_of};

use disk::{AnodeNo, BlockNo, block_part, root_in, slot_of};
use links::Links;
use tables::entry;

// What a search along a chain has found: the anode before, and that one.
#[derive(Clone, Copy)]
pub struct Extent {
    pub before: AnodeNo,
    pub anode: AnodeNo,
}

// Where the search for a free anode stops, and how many anodes it has read.
#[derive(Clone, Copy)]
pub struct Searched {
    pub anode: AnodeNo,
    pub read: u16,
}

// The blocks that the 42 slots of an image hold.
pub fn slots_of(image: &[u8]) -> [u16; 42]
    ensures { slots_from result ≡ slot_of image.now }
{
    let mut slots = [0u16; 42];
    for (k, slot) in slots.iter_mut().enumerate() {
        *slot = slot_of(image, k).0;
    }
    slots
}

// The first anode of slot `k` that is looked at: 6 in slot 0.
fn slot_start(k: u16) -> u16
    requires { k < 42 }
    ensures { result ≡ slot_start k }
{
    if k == 0 {
        return 6;
    }
    k * 82
}

// Looks at the anodes of a used slot, from `from` up, until the first free one; none: it stops at `end`.
fn search_used(firsts: &[u16], from: u16, end: u16) -> Searched
    requires { from ≤ end }
    ensures { (c n : List ℕ) → searched_of result ≡ through_used (anodes_from c firsts.now n) (end - from) from (searched_to end 0) }
{
    for a in from..end {
        if entry(firsts, a as usize) == 0 {
            return Searched {
                anode: AnodeNo(a),
                read: a - from + 1,
            };
        }
    }
    Searched {
        anode: AnodeNo(end),
        read: end - from,
    }
}

// Searches slot `k`: an empty one is passed by one test.
fn search_slot(slots: &[u16], firsts: &[u16], k: u16) -> Searched
    requires { k < 42 }
    ensures { (c n : List ℕ) → searched_of result ≡ through_slots (slots_from slots.now) (anodes_from c firsts.now n) 1 k }
{
    let end = k * 82 + 82;
    if entry(slots, k as usize) == 0 {
        return Searched {
            anode: AnodeNo(end),
            read: 0,
        };
    }
    search_used(firsts, slot_start(k), end)
}

// The lowest free anode from 6 up, or 3,444 where there is none, and how many anodes were read.
pub fn lowest_free(slots: &[u16], firsts: &[u16]) -> Searched
    ensures { (c n : List ℕ) → searched_of result ≡ searched 3444 (exists_by (slots_from slots.now)) (anodes_from c firsts.now n) }
{
    let mut read = 0;
    for k in 0..42 {
        let stop = search_slot(slots, firsts, k);
        let anode = stop.anode;
        read += stop.read;
        if anode.0 < k * 82 + 82 {
            return Searched { anode, read };
        }
    }
    Searched {
        anode: AnodeNo(3444),
        read,
    }
}

// The anode after `a`, or 0 where that is 2: the free list's side above last reserved ends before 2.
pub fn next_before_two(nexts: &[u16], a: AnodeNo) -> AnodeNo
    ensures { result.0 ≡ cut (λ x. get_or nexts.now x 0) a.0 }
{
    let next = entry(nexts, a.0 as usize);
    if next == 2 {
        return AnodeNo(0);
    }
    AnodeNo(next)
}

// The first anode with a block on the side of the free list that starts at `from`.
fn first_extent(counts: &[u16], nexts: &[u16], from: AnodeNo) -> Option<Extent>
    ensures { found_of result ≡ first_extent (λ a. get_or counts.now a 0) 0 (chain_of (cut (λ a. get_or nexts.now a 0)) 3444 from.0) }
{
    let mut before = AnodeNo(0);
    for anode in Links::side(nexts, from) {
        if entry(counts, anode.0 as usize) != 0 {
            return Some(Extent { before, anode });
        }
        before = anode;
    }
    None
}

// The anode that starts the side of the free list where directories (`dir`) or data look first.
fn near_side(dir: bool) -> AnodeNo
    ensures { result.0 ≡ cond dir 2 1 }
{
    if dir {
        return AnodeNo(2);
    }
    AnodeNo(1)
}

// The extent that a block is taken from: the first on the near side of the free list, else on the other.
pub fn free_extent(dir: bool, counts: &[u16], nexts: &[u16]) -> Option<Extent>
    ensures { (f : List ℕ) → found_of result ≡ free_extent 3444 dir (anodes_from counts.now f nexts.now) }
{
    let near = first_extent(counts, nexts, near_side(dir));
    if near.is_some() {
        return near;
    }
    first_extent(counts, nexts, near_side(!dir))
}

// The last anode from `from` on, before 2.
pub fn last_anode(nexts: &[u16], from: AnodeNo) -> AnodeNo
    ensures { result.0 ≡ last_of from.0 (chain_of (cut (λ a. get_or nexts.now a 0)) 3444 from.0) }
{
    let mut last = from;
    for a in Links::side(nexts, from) {
        last = a;
    }
    last
}

// The last block of the part where directories are put first.
pub fn last_reserved(image: &[u8]) -> BlockNo
    ensures { result.0 ≡ last_reserved image.now }
{
    root_in(block_part(image, BlockNo(2))).last
}

// The anode where the side of block `y` starts: 1 above last reserved, else 2.
pub fn side_of(last: BlockNo, y: BlockNo) -> AnodeNo
    ensures { result.0 ≡ side_of last.0 y.0 }
{
    if last.0 < y.0 {
        return AnodeNo(1);
    }
    AnodeNo(2)
}
