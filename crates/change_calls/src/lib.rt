// The calls that change an image. None asks anything of its caller; each contract settles the answer, the image, both tables and the output for every input.
#![tactic(auto)]

ghost use Rattle.std.specs.Prelude.{[], ◌≡◌};
ghost use Rattle.disk.specs.Refusals.{answer_of};
ghost use Rattle.rules.specs.Calls.{outcome_of, make_outcome, resize_outcome, write_outcome, remove_outcome};

use disk::{AnodeNo, Refusal};
use fsck::DiskTables;
use named_changes::{make_named, remove_named, resize_named, write_named};

// Makes a file of type 253 or a directory of type 2; a refused call leaves the image.
pub fn make(
    image: &mut [u8],
    blocks: &mut [u16],
    anodes: &mut [u16],
    directory: u16,
    kind: u8,
    name: &[u8],
    comment: &[u8],
    day: u16,
    minute: u16,
    tick: u16,
    protection: u8,
) -> Result<(), Refusal>
    ensures { outcome_of (answer_of result) image.new blocks.new anodes.new [] [] ≡ make_outcome image.old blocks.old anodes.old directory kind name.now comment.now day minute tick protection }
{
    let mut tables = DiskTables::empty();
    let t = tables.open(image, blocks, anodes)?;
    make_named(
        image,
        blocks,
        anodes,
        &tables.counts,
        &tables.firsts,
        &tables.nexts,
        &tables.queue,
        &tables.parents,
        t.dirs,
        AnodeNo(directory),
        kind,
        name,
        comment,
        day,
        minute,
        tick,
        protection,
    )
}

// Gives a file another size; a refused call leaves the image.
pub fn resize(
    image: &mut [u8],
    blocks: &mut [u16],
    anodes: &mut [u16],
    directory: u16,
    name: &[u8],
    size: u64,
) -> Result<(), Refusal>
    ensures { outcome_of (answer_of result) image.new blocks.new anodes.new [] [] ≡ resize_outcome image.old blocks.old anodes.old directory name.now size }
{
    let mut tables = DiskTables::empty();
    let t = tables.open(image, blocks, anodes)?;
    resize_named(
        image,
        blocks,
        anodes,
        &tables.counts,
        &tables.firsts,
        &tables.nexts,
        &tables.queue,
        t.dirs,
        AnodeNo(directory),
        name,
        size,
    )
}

// Replaces bytes of a file from the offset on, within its size; a refused call leaves the image.
pub fn write(
    image: &mut [u8],
    blocks: &mut [u16],
    anodes: &mut [u16],
    directory: u16,
    name: &[u8],
    offset: u64,
    bytes: &[u8],
) -> Result<(), Refusal>
    ensures { outcome_of (answer_of result) image.new blocks.new anodes.new [] [] ≡ write_outcome image.old blocks.old anodes.old directory name.now offset bytes.now }
{
    let mut tables = DiskTables::empty();
    let t = tables.open(image, blocks, anodes)?;
    write_named(
        image,
        &tables.counts,
        &tables.firsts,
        &tables.nexts,
        &tables.queue,
        anodes,
        t.dirs,
        AnodeNo(directory),
        name,
        offset,
        bytes,
    )
}

// Removes a file or an empty directory; a refused call leaves the image.
pub fn remove(
    image: &mut [u8],
    blocks: &mut [u16],
    anodes: &mut [u16],
    directory: u16,
    name: &[u8],
) -> Result<(), Refusal>
    ensures { outcome_of (answer_of result) image.new blocks.new anodes.new [] [] ≡ remove_outcome image.old blocks.old anodes.old directory name.now }
{
    let mut tables = DiskTables::empty();
    let t = tables.open(image, blocks, anodes)?;
    remove_named(
        image,
        blocks,
        anodes,
        &tables.counts,
        &tables.firsts,
        &tables.nexts,
        &tables.queue,
        t.dirs,
        AnodeNo(directory),
        name,
    )
}
