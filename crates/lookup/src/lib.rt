// Looks up the entries of a directory in an accepted image.
#![tactic(auto)]

ghost use Rattle.std.specs.Prelude.{not, MatchOption, List, [], ◌++◌, ◌≡◌, ℕ, ◌+◌, ◌*◌, ◌<◌, ◌≤◌};
ghost use Rattle.directory.specs.Entries.{name_in};
ghost use Rattle.rules.specs.Counting.{same_bytes};
ghost use Rattle.rules.specs.Walk.{Entered, entries_in};
ghost use Rattle.rules.specs.Changes.{parent_of};
ghost use Rattle.rules.specs.Folding.{folded};
ghost use Rattle.rules.specs.Lookup.{is_named, first_named, entry_named, entries_of, nth, none_headed};
ghost use Rattle.laws.specs.Entries.{Unbroken};
ghost use Rattle.anodes.specs.Loaded.{anodes_from};
ghost use Rattle.lookup.specs.Answers.{entry_of, entered, only_if, placed, or_rest};
ghost use Rattle.lookup.specs.Queued.{place_of, OwnHeads};
ghost use Rattle.walk_steps.specs.Steps.{queue_of};

use directory::{Entry, Kind};
use disk::{AnodeNo, BlockNo, block_part};
use endian::{part, read8};
use folding::same_folded;
use links::Links;
use reader::{EntryRead, Reader};
use tables::entry;

// An entry of a directory: what it names, and the place of its first byte in the image.
#[derive(Clone, Copy)]
pub struct EntryAt {
    pub kind: Kind,
    pub anode: AnodeNo,
    pub size: u32,
    pub start: usize,
}

// Where `head` first stands among the first `dirs` numbers of the queue.
fn place_in_queue(queue: &[u16], dirs: u16, head: AnodeNo) -> Option<u16>
    ensures { MatchOption result (place_of queue.now head.0 0 dirs ≡ dirs) (λ i. (i < dirs) × (place_of queue.now head.0 0 dirs ≡ i)) }
{
    for i in 0..dirs {
        if entry(queue, i as usize) == head.0 {
            return Some(i);
        }
    }
    None
}

// Whether `head` heads a reached directory: its chain's head is itself in the table that the check filled, and the walk queued it.
pub fn is_reached(heads: &[u16], queue: &[u16], dirs: u16, head: AnodeNo) -> bool
    requires { OwnHeads heads.now queue.now dirs }
    ensures { (parents : List ℕ) → not result ≡ none_headed (queue_of queue.now parents dirs) head.0 }
{
    if entry(heads, head.0 as usize) != head.0 {
        return false;
    }
    place_in_queue(queue, dirs, head).is_some()
}

// The head of a reached directory's parent; 0 for the root, and where the walk queued no such directory.
pub fn parent_of(queue: &[u16], parents: &[u16], dirs: u16, head: AnodeNo) -> AnodeNo
    ensures { result.0 ≡ parent_of (queue_of queue.now parents.now dirs) head.0 }
{
    match place_in_queue(queue, dirs, head) {
        Some(i) => AnodeNo(entry(parents, i as usize)),
        None => AnodeNo(0),
    }
}

// An entry at a place of block `b`, as a lookup answers it.
pub fn entry_in_image(b: BlockNo, at: usize, e: Entry) -> EntryAt
    requires { at ≤ 65535 }
    ensures { result ≡ placed e (b.0 * 512 + at) }
{
    EntryAt {
        kind: e.kind,
        anode: e.anode,
        size: e.size,
        start: (b.0 as usize) * 512 + at,
    }
}

// Whether the entry at a place of a directory block has that name, A to Z folded onto a to z.
fn has_name(block: &[u8], at: usize, name: &[u8]) -> bool
    requires { at ≤ 65535 }
    ensures { result ≡ same_bytes (folded (name_in block.now at)) (folded name.now) }
{
    let len = read8(block, at + 15) as usize;
    same_folded(part(block, at + 16, len), name)
}

// The entry that was read in block `b`, if it has that name.
fn named_at(block: &[u8], b: BlockNo, read: EntryRead, name: &[u8]) -> Option<EntryAt>
    requires { read.at ≤ 65535 }
    ensures { (img : List ℕ) → let e = entered img (placed read.entry (b.0 * 512 + read.at)) in e.name ≡ name_in block.now read.at → entry_of img result ≡ only_if (is_named name.now e) e }
{
    if has_name(block, read.at, name) {
        return Some(entry_in_image(b, read.at, read.entry));
    }
    None
}

// The first entry with that name in block `b`.
fn named_in(image: &[u8], b: BlockNo, name: &[u8]) -> Option<EntryAt>
    requires { Unbroken (entries_in image.now b.0) }
    ensures { entry_of image.now result ≡ first_named name.now (entries_in image.now b.0) }
{
    let block = block_part(image, b);
    let mut found = None;
    for item in Reader::of(block) {
        let Ok(read) = item else {
            return found;
        };
        found = found.or(named_at(block, b, read, name));
    }
    found
}

// The first entry with that name in the directory that `head` heads.
pub fn entry_named(
    image: &[u8],
    firsts: &[u16],
    nexts: &[u16],
    head: AnodeNo,
    name: &[u8],
) -> Option<EntryAt>
    requires { Unbroken (entries_of image.now (anodes_from [] firsts.now nexts.now) head.0) }
    ensures { (c : List ℕ) → entry_of image.now result ≡ entry_named image.now (anodes_from c firsts.now nexts.now) head.0 name.now }
{
    for a in Links::along(nexts, head) {
        let found = named_in(image, BlockNo(entry(firsts, a.0 as usize)), name);
        if found.is_some() {
            return found;
        }
    }
    None
}

// The n-th entry, from 0, of block `b`, or how many are still to be passed after the block.
fn nth_in(image: &[u8], b: BlockNo, n: u64) -> Result<EntryAt, u64>
    requires { Unbroken (entries_in image.now b.0) }
    ensures { (rest : List Entered) → or_rest image.now result rest ≡ nth (entries_in image.now b.0 ++ rest) n }
{
    let mut left = n;
    for item in Reader::of(block_part(image, b)) {
        let Ok(read) = item else {
            return Err(left);
        };
        if left == 0 {
            return Ok(entry_in_image(b, read.at, read.entry));
        }
        left -= 1;
    }
    Err(left)
}

// The n-th entry, from 0, of the directory that `head` heads.
pub fn nth_entry(
    image: &[u8],
    firsts: &[u16],
    nexts: &[u16],
    head: AnodeNo,
    n: u64,
) -> Option<EntryAt>
    requires { Unbroken (entries_of image.now (anodes_from [] firsts.now nexts.now) head.0) }
    ensures { (c : List ℕ) → entry_of image.now result ≡ nth (entries_of image.now (anodes_from c firsts.now nexts.now) head.0) n }
{
    let mut left = n;
    for a in Links::along(nexts, head) {
        match nth_in(image, BlockNo(entry(firsts, a.0 as usize)), left) {
            Ok(e) => return Some(e),
            Err(after) => left = after,
        }
    }
    None
}
