// What the files of an accepted image add up to: their bytes, and how many are in more than one run, in one pass over the entries.
#![tactic(auto)]

ghost use Rattle.std.specs.Prelude.{List, [], ◌∷◌, ◌≡◌, ℕ, ◌<◌, ◌≤◌, get_or};
ghost use Rattle.rules.specs.Counting.{gather};
ghost use Rattle.rules.specs.Walk.{entries_in};
ghost use Rattle.rules.specs.Lookup.{entries_of};
ghost use Rattle.laws.specs.Entries.{entered_at, Unbroken};
ghost use Rattle.report.specs.Runs.{one_if_many};
ghost use Rattle.anodes.specs.Loaded.{anodes_from};
ghost use Rattle.walk_steps.specs.Steps.{queue_of};
ghost use Rattle.file_sums.specs.Sums.{sums_made, sums_with, EntriesFit, Within};

use directory::{Entry, Kind};
use disk::{AnodeNo, BlockNo, block_part};
use links::Links;
use reader::Reader;
use tables::entry;

// The bytes of files, and how many files are in more than one run.
#[derive(Clone, Copy)]
pub struct FileSums {
    pub bytes: u64,
    pub split: u32,
}

// 1 if the table has more than one run for this anode.
fn one_if_many(starts: &[u16], a: AnodeNo) -> u32
    ensures { (result ≡ one_if_many (get_or starts.now a.0 0)) × (result ≤ 1) }
{
    if 1 < entry(starts, a.0 as usize) {
        return 1;
    }
    0
}

// The bytes of a file of this size: not those of its blocks.
fn file_bytes(size: u32) -> u64
    ensures { result ≡ size }
{
    size as u64
}

// The sums with an entry more; a directory adds nothing.
fn add_entry(starts: &[u16], e: Entry, t: FileSums) -> FileSums
    requires { EntriesFit t 1 }
    ensures { ((name : List ℕ) (start : ℕ) → result ≡ sums_with starts.now t (entered_at e name start ∷ [])) × Within t result 1 }
{
    match e.kind {
        Kind::File => FileSums {
            bytes: t.bytes + file_bytes(e.size),
            split: t.split + one_if_many(starts, e.anode),
        },
        Kind::Directory => t,
    }
}

// The sums with the entries of block `b`.
fn add_block(image: &[u8], starts: &[u16], b: BlockNo, t: FileSums) -> FileSums
    requires { Unbroken (entries_in image.now b.0) × EntriesFit t 28 }
    ensures { (result ≡ sums_with starts.now t (entries_in image.now b.0)) × Within t result 28 }
{
    let mut sums = t;
    for item in Reader::of(block_part(image, b)) {
        let Ok(read) = item else {
            return sums;
        };
        sums = add_entry(starts, read.entry, sums);
    }
    sums
}

// The sums with the entries of the directory that `head` heads.
fn add_directory(
    image: &[u8],
    firsts: &[u16],
    nexts: &[u16],
    starts: &[u16],
    head: AnodeNo,
    t: FileSums,
) -> FileSums
    requires { Unbroken (entries_of image.now (anodes_from [] firsts.now nexts.now) head.0) × EntriesFit t 96432 }
    ensures { (result ≡ sums_with starts.now t (entries_of image.now (anodes_from [] firsts.now nexts.now) head.0)) × Within t result 96432 }
{
    let mut sums = t;
    for a in Links::along(nexts, head) {
        let b = BlockNo(entry(firsts, a.0 as usize));
        sums = add_block(image, starts, b, sums);
    }
    sums
}

// What the files in the first `dirs` directories of the queue add up to.
pub fn sum_files(
    image: &[u8],
    firsts: &[u16],
    nexts: &[u16],
    queue: &[u16],
    starts: &[u16],
    dirs: u16,
) -> FileSums
    requires { ((i : ℕ) → i < dirs → Unbroken (entries_of image.now (anodes_from [] firsts.now nexts.now) (get_or queue.now i 0))) × (dirs ≤ 3445) }
    ensures { (parents : List ℕ) → result ≡ sums_with starts.now (sums_made 0 0) (gather (λ d. entries_of image.now (anodes_from [] firsts.now nexts.now) d.head) (queue_of queue.now parents dirs)) }
{
    let mut sums = FileSums { bytes: 0, split: 0 };
    for i in 0..dirs {
        sums = add_directory(
            image,
            firsts,
            nexts,
            starts,
            AnodeNo(entry(queue, i as usize)),
            sums,
        );
    }
    sums
}
