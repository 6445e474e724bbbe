// The steps of the walk over the directories: an entry, a block, an anode of a directory; refusals 12 to 15 and 17. A step answers the tally after it, or the first fault.
#![tactic(auto)]

ghost use Rattle.std.specs.Prelude.{◌≡◌, ℕ, ◌+◌, ◌<◌, ◌≤◌, List, map};
ghost use Rattle.rules.specs.Walk.{blocks_for, is_block_of, entries_in, twins, dir_made};
ghost use Rattle.laws.specs.Apart.{seen_after};
ghost use Rattle.laws.specs.Entries.{entered_at};
ghost use Rattle.anodes.specs.Loaded.{anodes_from};
ghost use Rattle.walk_steps.specs.Steps.{sum_from, head_at, item_in, enter_item, items_from, queue_of, entering, Proceeds, tally_made, WalkRoom, number_in, seen_by, Numbered, StepSeen};

use directory::{Entry, Kind, directory_header_in};
use disk::{AnodeNo, BlockNo, Refusal, block_part};
use links::Links;
use names::enter_name;
use reader::Reader;
use tables::{entry, set_entry};

// How many directories were queued and how many files met.
#[derive(Clone, Copy)]
pub struct Tally {
    pub last: usize,
    pub files: u16,
}

// How many blocks the chain from `a` owns.
pub fn chain_sum(counts: &[u16], nexts: &[u16], a: AnodeNo) -> u32
    ensures { result ≡ sum_from counts.now nexts.now 3444 a.0 }
{
    let mut sum: u32 = 0;
    for x in Links::along(nexts, a) {
        sum += entry(counts, x.0 as usize) as u32;
    }
    sum
}

// How many blocks a file of this size asks for.
pub fn blocks_for(size: u64) -> u64
    ensures { result ≡ blocks_for size }
{
    size / 512 + (size % 512 + 511) / 512
}

// Whether an entry may name anode `a`.
fn head_at(heads: &[u16], a: AnodeNo) -> bool
    ensures { result ≡ head_at heads.now a.0 }
{
    let i = a.0 as usize;
    if i < 6 {
        return false;
    }
    if 3444 <= i {
        return false;
    }
    entry(heads, i) == a.0
}

// Whether block `b` is marked as the directory's; the root's parent is not examined.
fn is_block_of(image: &[u8], head: AnodeNo, parent: AnodeNo, b: BlockNo) -> bool
    ensures { result ≡ is_block_of image.now (dir_made head.0 parent.0) b.0 }
{
    let found = directory_header_in(block_part(image, b));
    if found.mark != 0x4442 {
        return false;
    }
    if found.owner.0 != head.0 {
        return false;
    }
    if head.0 == 5 {
        return true;
    }
    found.parent.0 == parent.0
}

// The tally with one file more.
fn with_file(t: Tally) -> Tally
    requires { t.files < 3444 }
    ensures { result ≡ tally_made t.last (t.files + 1) }
{
    Tally {
        last: t.last,
        files: t.files + 1,
    }
}

// The tally with one directory more.
fn with_directory(t: Tally) -> Tally
    requires { t.last < 3444 }
    ensures { result ≡ tally_made (t.last + 1) t.files }
{
    Tally {
        last: t.last + 1,
        files: t.files,
    }
}

// The number of the next entry: how many were met before it.
fn number_in(t: Tally) -> usize
    requires { (1 ≤ t.last) × (t.last ≤ 3444) }
    ensures { result ≡ number_in t }
{
    t.last + (t.files as usize) - 1
}

// Tests one entry of the directory with this head by 13, 14 and 15, marks its anode, and counts the file or queues the directory.
fn enter(
    counts: &[u16],
    nexts: &[u16],
    heads: &[u16],
    marks: &mut [u16],
    queue: &mut [u16],
    parents: &mut [u16],
    head: AnodeNo,
    e: Entry,
    t: Tally,
) -> Result<Tally, Refusal>
    requires { WalkRoom t marks.old queue.old parents.old }
    ensures { (name : List ℕ) (start : ℕ) → Proceeds result marks.new queue.new parents.new (enter_item head.0 (item_in counts.now nexts.now heads.now (entered_at e name start)) (queue_of queue.old parents.old t.last) marks.old t.files) }
{
    let a = e.anode;
    let kind = e.kind;
    let i = a.0 as usize;
    if !head_at(heads, a) {
        return Err(Refusal::EntryAnode);
    }
    if entry(marks, i) != 0 {
        return Err(Refusal::NamedTwice);
    }
    match kind {
        Kind::File => {
            if chain_sum(counts, nexts, a) as u64 != blocks_for(e.size as u64) {
                return Err(Refusal::FileSize);
            }
            set_entry(marks, i, 1);
            Ok(with_file(t))
        }
        Kind::Directory => {
            set_entry(marks, i, 1);
            set_entry(queue, t.last, a.0);
            set_entry(parents, t.last, head.0);
            Ok(with_directory(t))
        }
    }
}

// Enters the entries of block `b` of the directory with this head, in byte order: 17 for a name that an entry from number `from` on has.
fn enter_block(
    image: &[u8],
    counts: &[u16],
    nexts: &[u16],
    heads: &[u16],
    marks: &mut [u16],
    queue: &mut [u16],
    parents: &mut [u16],
    index: &mut [u16],
    from: usize,
    head: AnodeNo,
    b: BlockNo,
    t: Tally,
) -> Result<Tally, Refusal>
    requires { WalkRoom t marks.old queue.old parents.old × Numbered image.now index.old from t }
    ensures entered { Proceeds result marks.new queue.new parents.new (entering t marks.old queue.old parents.old head.0 (twins (seen_by image.now index.old from t) (map (item_in counts.now nexts.now heads.now) (entries_in image.now b.0)))) }
    ensures seen { StepSeen result image.now index.new from (seen_after (map (item_in counts.now nexts.now heads.now) (entries_in image.now b.0)) (seen_by image.now index.old from t)) }
{
    let block = block_part(image, b);
    let mut tally = t;
    for item in Reader::of(block) {
        let read = item?;
        if enter_name(image, index, from, number_in(tally), b, read.at) {
            return Err(Refusal::NamesAlike);
        }
        let e = read.entry;
        tally = enter(counts, nexts, heads, marks, queue, parents, head, e, tally)?;
    }
    Ok(tally)
}

// Enters what anode `a` of a directory holds: one block that is marked as the directory's; `start`: the tally at the directory's start.
pub fn enter_anode(
    image: &[u8],
    counts: &[u16],
    firsts: &[u16],
    nexts: &[u16],
    heads: &[u16],
    marks: &mut [u16],
    queue: &mut [u16],
    parents: &mut [u16],
    index: &mut [u16],
    start: Tally,
    head: AnodeNo,
    parent: AnodeNo,
    a: AnodeNo,
    t: Tally,
) -> Result<Tally, Refusal>
    requires walk_room { WalkRoom t marks.old queue.old parents.old × Numbered image.now index.old (number_in start) t }
    requires le_last { (1 ≤ start.last) × (start.last ≤ 3444) }
    ensures entered { Proceeds result marks.new queue.new parents.new (entering t marks.old queue.old parents.old head.0 (twins (seen_by image.now index.old (number_in start) t) (items_from (item_in counts.now nexts.now heads.now) image.now (anodes_from counts.now firsts.now nexts.now) (dir_made head.0 parent.0) a.0))) }
    ensures seen { StepSeen result image.now index.new (number_in start) (seen_after (items_from (item_in counts.now nexts.now heads.now) image.now (anodes_from counts.now firsts.now nexts.now) (dir_made head.0 parent.0) a.0) (seen_by image.now index.old (number_in start) t)) }
{
    if entry(counts, a.0 as usize) != 1 {
        return Err(Refusal::DirectoryBlock);
    }
    let b = BlockNo(entry(firsts, a.0 as usize));
    if !is_block_of(image, head, parent, b) {
        return Err(Refusal::DirectoryBlock);
    }
    enter_block(
        image,
        counts,
        nexts,
        heads,
        marks,
        queue,
        parents,
        index,
        number_in(start),
        head,
        b,
        t,
    )
}
