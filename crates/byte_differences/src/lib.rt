// The bytes in which two files differ: the first of them, and how many; bytes past the shorter one's end count.
#![tactic(auto)]

ghost use Rattle.std.specs.Prelude.{◌≡◌, cond, ◌+◌, ◌-◌, ◌≤◌, length, eqb, ltb};
ghost use Rattle.rules.specs.Counting.{any_below};
ghost use Rattle.rules.specs.Lookup.{bytes_of};
ghost use Rattle.differences.specs.Fields.{byte_differs, bytes_differing, first_byte_differing};
ghost use Rattle.anodes.specs.Loaded.{anodes_from};
ghost use Rattle.byte_differences.specs.Differing.{first_bytes, differing_made};
ghost use Rattle.byte_differences.specs.BytesCompared.{many_in, first_in, BytesCompared, place_made, extents_of, PlaceWithin, StartsAt, Entering, Settled, PartLength};
ghost use Rattle.links.specs.Links.{anodes_left};

use disk::AnodeNo;
use endian::part;
use links::Links;
use tables::entry;

// The first byte that differs, 0 where none does, and how many differ.
#[derive(Clone, Copy)]
pub struct Differing {
    pub first: u32,
    pub many: u32,
}

// A place in a chain: where in the image the rest of an extent starts, how many bytes are left of it, and the anodes behind it.
#[derive(Clone, Copy)]
struct Place<'a> {
    from: usize,
    left: usize,
    behind: Links<'a>,
}

// Whether some byte differs: no early way out, so that many bytes are compared at once.
fn any_differs(one: &[u8], other: &[u8]) -> bool
    requires { length one.now ≡ length other.now }
    ensures { result ≡ any_below (byte_differs one.now other.now) (length one.now) }
{
    let mut any = false;
    // one index over both, so that the loop stays flat
    for i in 0..one.len() {
        any |= one[i] != other[i];
    }
    any
}

// How many bytes differ.
fn bytes_differing(one: &[u8], other: &[u8]) -> u32
    requires { (length one.now ≡ length other.now) × (length one.now ≤ 4096) }
    ensures { result ≡ many_in one.now other.now (length one.now) }
{
    let mut many: u32 = 0;
    // one index over both, so that the loop stays flat
    for i in 0..one.len() {
        many += (one[i] != other[i]) as u32;
    }
    many
}

// The first byte that differs, or how many there are.
fn first_byte_differing(one: &[u8], other: &[u8]) -> u32
    requires { (length one.now ≡ length other.now) × (length one.now ≤ 4096) }
    ensures { result ≡ first_in one.now other.now (length one.now) }
{
    // the index is the answer
    for i in 0..one.len() {
        if one[i] != other[i] {
            return i as u32;
        }
    }
    one.len() as u32
}

// Compares as many bytes of one file as of another; most are the same, and then none is counted.
fn compare_parts(one: &[u8], other: &[u8]) -> Differing
    requires { (length one.now ≡ length other.now) × (length one.now ≤ 4096) }
    ensures { BytesCompared one.now other.now (length one.now) result }
{
    if any_differs(one, other) {
        return Differing {
            first: first_byte_differing(one, other),
            many: bytes_differing(one, other),
        };
    }
    Differing {
        first: one.len() as u32,
        many: 0,
    }
}

// What holds of the first `at` bytes and of those behind them, in one.
fn with_behind(d: Differing, at: u32, behind: Differing) -> Differing
    requires { (at + behind.first ≤ 4294967295) × (d.many + behind.many ≤ 4294967295) }
    ensures { result ≡ differing_made (cond (ltb d.first at) d.first (at + behind.first)) (d.many + behind.many) }
{
    let many = d.many + behind.many;
    if d.first < at {
        return Differing {
            first: d.first,
            many,
        };
    }
    Differing {
        first: at + behind.first,
        many,
    }
}

// The place before the first byte of an anode's extent, with the anodes behind it.
fn extent_start<'a>(
    image: &[u8],
    counts: &[u16],
    firsts: &[u16],
    anode: AnodeNo,
    behind: Links<'a>,
) -> Place<'a>
    ensures { Entering image.now (extents_of counts.now firsts.now) anode.0 (anodes_left behind.entry) result }
{
    let a = anode.0 as usize;
    let from = entry(firsts, a) as usize * 512;
    let left = part(image, from, entry(counts, a) as usize * 512).len();
    Place { from, left, behind }
}

// Goes on to an extent that has bytes left, if there is one.
fn next_bytes<'a>(image: &[u8], counts: &[u16], firsts: &[u16], p: Place<'a>) -> Place<'a>
    requires { PlaceWithin image.now p }
    ensures { Settled image.now (extents_of counts.now firsts.now) p.entry result }
{
    let mut place = p;
    // a while loop, for empty extents are passed over until one has bytes
    while place.left == 0 {
        let mut behind = place.behind;
        match behind.next() {
            None => return place,
            Some(a) => place = extent_start(image, counts, firsts, a, behind),
        }
    }
    place
}

// The place `n` bytes on in the same extent.
fn moved_on<'a>(p: Place<'a>, n: usize) -> Place<'a>
    requires { (n ≤ p.left) × (p.from + p.left ≤ 67107840) }
    ensures { result ≡ place_made (p.entry.from + n) (p.entry.left - n) p.entry.behind }
{
    Place {
        from: p.from + n,
        left: p.left - n,
        behind: p.behind,
    }
}

// The place before the first byte of a chain.
fn started<'a>(nexts: &'a [u16], head: AnodeNo) -> Place<'a>
    ensures { StartsAt nexts.now head.0 result }
{
    Place {
        from: 0,
        left: 0,
        behind: Links::along(nexts, head),
    }
}

// How many bytes are compared at once, of those left in two extents and of the rest.
fn part_length(left: usize, other_left: usize, rest: u32) -> u32
    ensures { PartLength left other_left rest result }
{
    left.min(other_left).min(rest as usize).min(4096) as u32
}

// Compares the first `common` bytes of two chains, which both have, part by part.
fn compare_common(
    image: &[u8],
    counts: &[u16],
    firsts: &[u16],
    nexts: &[u16],
    head: AnodeNo,
    other: &[u8],
    other_counts: &[u16],
    other_firsts: &[u16],
    other_nexts: &[u16],
    other_head: AnodeNo,
    common: u32,
) -> Differing
    requires common_in_bounds { common ≤ length (bytes_of image.now (anodes_from counts.now firsts.now nexts.now) head.0) }
    requires common_in_bounds_2 { common ≤ length (bytes_of other.now (anodes_from other_counts.now other_firsts.now other_nexts.now) other_head.0) }
    ensures { BytesCompared (bytes_of image.now (anodes_from counts.now firsts.now nexts.now) head.0) (bytes_of other.now (anodes_from other_counts.now other_firsts.now other_nexts.now) other_head.0) common result }
{
    let mut here = started(nexts, head);
    let mut there = started(other_nexts, other_head);
    let mut d = Differing { first: 0, many: 0 };
    let mut at: u32 = 0;
    // a while loop, for each part is as long as both extents allow
    while at < common {
        let one = next_bytes(image, counts, firsts, here);
        let two = next_bytes(other, other_counts, other_firsts, there);
        let n = part_length(one.left, two.left, common - at);
        let len = n as usize;
        let behind = compare_parts(part(image, one.from, len), part(other, two.from, len));
        d = with_behind(d, at, behind);
        here = moved_on(one, len);
        there = moved_on(two, len);
        at += n;
    }
    d
}

// The comparison where `past` bytes differ besides those that were compared, all of them behind these.
fn with_past(d: Differing, past: u32) -> Differing
    requires { d.many + past ≤ 4294967295 }
    ensures { result ≡ differing_made (cond (eqb (d.many + past) 0) 0 d.first) (d.many + past) }
{
    let many = d.many + past;
    if many == 0 {
        return Differing { first: 0, many };
    }
    Differing {
        first: d.first,
        many,
    }
}

// The bytes in which the file that `head` heads, of `size` bytes, differs from another.
pub fn differing_bytes(
    image: &[u8],
    counts: &[u16],
    firsts: &[u16],
    nexts: &[u16],
    head: AnodeNo,
    size: u32,
    other: &[u8],
    other_counts: &[u16],
    other_firsts: &[u16],
    other_nexts: &[u16],
    other_head: AnodeNo,
    other_size: u32,
) -> Differing
    requires size_in_bounds { size ≤ length (bytes_of image.now (anodes_from counts.now firsts.now nexts.now) head.0) }
    requires other_size_in_bounds { other_size ≤ length (bytes_of other.now (anodes_from other_counts.now other_firsts.now other_nexts.now) other_head.0) }
    ensures { result ≡ differing_made (first_byte_differing (first_bytes image.now counts.now firsts.now nexts.now head.0 size) (first_bytes other.now other_counts.now other_firsts.now other_nexts.now other_head.0 other_size)) (bytes_differing (first_bytes image.now counts.now firsts.now nexts.now head.0 size) (first_bytes other.now other_counts.now other_firsts.now other_nexts.now other_head.0 other_size)) }
{
    let common = size.min(other_size);
    let d = compare_common(
        image,
        counts,
        firsts,
        nexts,
        head,
        other,
        other_counts,
        other_firsts,
        other_nexts,
        other_head,
        common,
    );
    let past = size - common + (other_size - common);
    with_past(d, past)
}
