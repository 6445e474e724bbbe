// The entries of one directory of an accepted image in the index of names, and the entry of a name among them.
#![tactic(auto)]

ghost use Rattle.std.specs.Prelude.{List, [], ◌⊎◌, ◌≡◌, ℕ, ◌+◌, ◌*◌, ◌<◌, ◌≤◌, eqb, length, get_or};
ghost use Rattle.std.proofs.Math.Option.{some};
ghost use Rattle.rules.specs.Anodes.{anodes_of};
ghost use Rattle.rules.specs.Chains.{chain_of};
ghost use Rattle.rules.specs.Walk.{Entered, entries_in};
ghost use Rattle.rules.specs.Lookup.{entry_named, entries_of};
ghost use Rattle.laws.specs.Entries.{Unbroken};
ghost use Rattle.names.specs.Index.{Indexed, start_of, InBlock};
ghost use Rattle.anodes.specs.Loaded.{anodes_from};
ghost use Rattle.lookup.specs.Answers.{entry_of};
ghost use Rattle.counterparts.specs.Spans.{LoadedFor, HeadsDirectory, Added, SpanOf, SpanFor, StandsAt};

use directory::Kind;
use disk::{AnodeNo, BlockNo, block_part};
use endian::{read8, read16, read32};
use links::Links;
use lookup::EntryAt;
use names::{add_name, find_name};
use reader::Places;
use tables::{entry, zero_first};

// The entries that are in the index for one directory: from one number up to another.
#[derive(Clone, Copy)]
pub struct Span {
    pub from: usize,
    pub upto: usize,
}

// How many anodes the chain from `head` has.
fn chain_length(nexts: &[u16], head: AnodeNo) -> usize
    ensures { (result ≡ length (chain_of (λ a. get_or nexts.now a 0) 3444 head.0)) × (result ≤ 3444) }
{
    Links::along(nexts, head).count()
}

// The number behind which the entries of as many blocks fit: `i`, or 0 in an index that begins anew.
fn make_room(index: &mut [u16], i: usize, blocks: usize) -> usize
    requires { (length index.old ≡ 17872) × (i ≤ 3444) × (blocks ≤ 3444) }
    ensures { ((img : List ℕ) → Indexed img index.old i → Indexed img index.new result) × ((result ≡ 0) ⊎ (result + 28 * blocks ≤ 3444)) }
{
    if i + 28 * blocks <= 3444 {
        return i;
    }
    zero_first(index, 4096);
    0
}

// Puts the entries of block `b` into the index, behind the `i` that are there.
fn index_block(image: &[u8], index: &mut [u16], i: usize, b: BlockNo) -> usize
    requires { Indexed image.now index.old i × Unbroken (entries_in image.now b.0) × (i + length (entries_in image.now b.0) ≤ 3444) }
    ensures { Added image.now index.old index.new i result (entries_in image.now b.0) }
{
    let mut n = i;
    for at in Places::of(block_part(image, b)) {
        add_name(image, index, n, b, at);
        n += 1;
    }
    n
}

// Puts the entries of the directory that `head` heads into the index, behind the `i` that are there and where they fit.
fn index_directory(
    image: &[u8],
    firsts: &[u16],
    nexts: &[u16],
    head: AnodeNo,
    index: &mut [u16],
    i: usize,
) -> usize
    requires { Indexed image.now index.old i × Unbroken (entries_of image.now (anodes_from [] firsts.now nexts.now) head.0) × (i + length (entries_of image.now (anodes_from [] firsts.now nexts.now) head.0) ≤ 3444) }
    ensures { (c : List ℕ) → Added image.now index.old index.new i result (entries_of image.now (anodes_from c firsts.now nexts.now) head.0) }
{
    let mut n = i;
    for a in Links::along(nexts, head) {
        n = index_block(image, index, n, BlockNo(entry(firsts, a.0 as usize)));
    }
    n
}

// Puts the entries of the directory that `head` heads into the index, behind the `i` that are there; the index starts anew where they might not fit. 0 heads no directory.
pub fn open_directory(
    image: &[u8],
    firsts: &[u16],
    nexts: &[u16],
    head: AnodeNo,
    index: &mut [u16],
    i: usize,
) -> Span
    requires { LoadedFor image.now firsts.now nexts.now × HeadsDirectory image.now head.0 × Indexed image.now index.old i }
    ensures { SpanOf image.now index.new result (entries_of image.now (anodes_of image.now) head.0) }
{
    let from = make_room(index, i, chain_length(nexts, head));
    let upto = index_directory(image, firsts, nexts, head, index, from);
    Span { from, upto }
}

// The entry that stands where the index has entry `j`.
fn indexed_entry(image: &[u8], index: &[u16], j: usize) -> Option<EntryAt>
    requires { j < 3444 }
    ensures { (e : Entered) → InBlock index.now j → start_of index.now j ≡ e.start → StandsAt image.now e → entry_of image.now result ≡ some e }
{
    let b = BlockNo(entry(index, 10984 + j));
    let at = entry(index, 14428 + j) as usize;
    let block = block_part(image, b);
    let Ok(kind) = Kind::try_from(read8(block, at + 1)) else {
        return None;
    };
    Some(EntryAt {
        kind,
        anode: AnodeNo(read16(block, at + 2)),
        size: read32(block, at + 4),
        start: (b.0 as usize) * 512 + at,
    })
}

// The entry of that name in the directory that the span is of.
pub fn find_counterpart(image: &[u8], index: &[u16], span: Span, name: &[u8]) -> Option<EntryAt>
    requires { SpanFor image.now index.now span }
    ensures { (h : ℕ) → SpanOf image.now index.now span (entries_of image.now (anodes_of image.now) h) → HeadsDirectory image.now h → entry_of image.now result ≡ entry_named image.now (anodes_of image.now) h name.now }
{
    let last = find_name(image, index, span.from, span.upto, name);
    if last == 0 {
        return None;
    }
    indexed_entry(image, index, (last - 1) as usize)
}
