// The calls that change an image safely. None asks anything of its caller; each contract settles the answer, the image, both tables, the buffer of writes and their count for every input.
#![tactic(auto)]

ghost use Rattle.std.specs.Prelude.{◌≡◌};
ghost use Rattle.disk.specs.Refusals.{answer_of};
ghost use Rattle.safe_rules.specs.SafeCalls.{safe_make, safe_resize, safe_write, safe_remove, safe_outcome};
ghost use Rattle.find.specs.Open.{Open};
ghost use Rattle.safe_plans.specs.Planned.{ShowsBlocks};
ghost use Rattle.safe_stores.specs.Leaves.{writes_in};
ghost use Rattle.safe_named.specs.After.{CallLeaves};
ghost use Rattle.safe_named.specs.Asked.{call_of};
ghost use Rattle.safe_calls.specs.Outcomes.{safe_outcome_of, ShownAgain};

use disk::{AnodeNo, Refusal};
use fsck::DiskTables;
use named_changes::Asked;
use safe_named::safe_change_named;

// Shows a changed image in both tables, by another check of it; a refused change leaves them.
fn show_again(
    listed: Result<u32, Refusal>,
    image: &[u8],
    blocks: &mut [u16],
    anodes: &mut [u16],
    tables: &mut DiskTables,
)
    ensures { ShownAgain (answer_of listed) image.now blocks.old anodes.old blocks.new anodes.new }
{
    if listed.is_err() {
        return;
    }
    let _ = tables.open(image, blocks, anodes);
}

// Does safely what is asked for in an accepted image, and shows the image that is left in both tables.
fn change_shown(
    image: &mut [u8],
    blocks: &mut [u16],
    anodes: &mut [u16],
    tables: &mut DiskTables,
    dirs: u16,
    head: AnodeNo,
    name: &[u8],
    asked: Asked,
    text: &[u8],
    writes: &mut [u8],
) -> Result<u32, Refusal>
    requires { Open image.old tables.old.counts tables.old.firsts tables.old.nexts tables.old.queue tables.old.parents anodes.old dirs × ShowsBlocks image.old blocks.old }
    ensures left { CallLeaves image.old writes.old (call_of asked head.0 name.now text.now) result image.new writes.new }
    ensures shown { ShownAgain (answer_of result) image.new blocks.old anodes.old blocks.new anodes.new }
{
    let listed = safe_change_named(
        image,
        blocks,
        anodes,
        &tables.counts,
        &tables.firsts,
        &tables.nexts,
        &tables.queue,
        &tables.parents,
        dirs,
        head,
        name,
        asked,
        text,
        writes,
    );
    show_again(listed, image, blocks, anodes, tables);
    listed
}

// The check, then what is asked for, done safely; both tables show the image that is left. How many block writes are handed out.
fn change_checked(
    image: &mut [u8],
    blocks: &mut [u16],
    anodes: &mut [u16],
    directory: u16,
    name: &[u8],
    asked: Asked,
    text: &[u8],
    writes: &mut [u8],
) -> Result<u32, Refusal>
    ensures { safe_outcome_of (answer_of result) image.new blocks.new anodes.new writes.new (writes_in result) ≡ safe_outcome image.old blocks.old anodes.old writes.old (call_of asked directory name.now text.now) }
{
    let mut tables = DiskTables::empty();
    let t = tables.open(image, blocks, anodes)?;
    change_shown(
        image,
        blocks,
        anodes,
        &mut tables,
        t.dirs,
        AnodeNo(directory),
        name,
        asked,
        text,
        writes,
    )
}

// Makes a file of type 253 or a directory of type 2 safely, and hands out the list of block writes, and how many they are; a refused call leaves the image and the buffer.
pub fn safe_make(
    image: &mut [u8],
    blocks: &mut [u16],
    anodes: &mut [u16],
    directory: u16,
    kind: u8,
    name: &[u8],
    comment: &[u8],
    day: u16,
    minute: u16,
    tick: u16,
    protection: u8,
    writes: &mut [u8],
) -> Result<u32, Refusal>
    ensures { safe_outcome_of (answer_of result) image.new blocks.new anodes.new writes.new (writes_in result) ≡ safe_outcome image.old blocks.old anodes.old writes.old (safe_make directory kind name.now comment.now day minute tick protection) }
{
    let asked = Asked::Make {
        kind,
        day,
        minute,
        tick,
        protection,
    };
    change_checked(
        image, blocks, anodes, directory, name, asked, comment, writes,
    )
}

// Resizes a file safely, and hands out the list of block writes, and how many they are; a refused call leaves the image and the buffer.
pub fn safe_resize(
    image: &mut [u8],
    blocks: &mut [u16],
    anodes: &mut [u16],
    directory: u16,
    name: &[u8],
    size: u64,
    writes: &mut [u8],
) -> Result<u32, Refusal>
    ensures { safe_outcome_of (answer_of result) image.new blocks.new anodes.new writes.new (writes_in result) ≡ safe_outcome image.old blocks.old anodes.old writes.old (safe_resize directory name.now size) }
{
    let none = [0u8; 0];
    change_checked(
        image,
        blocks,
        anodes,
        directory,
        name,
        Asked::Resize(size),
        &none,
        writes,
    )
}

// Writes bytes of a file safely from the offset on, and hands out the list of block writes, and how many they are; a refused call leaves the image and the buffer.
pub fn safe_write(
    image: &mut [u8],
    blocks: &mut [u16],
    anodes: &mut [u16],
    directory: u16,
    name: &[u8],
    offset: u64,
    bytes: &[u8],
    writes: &mut [u8],
) -> Result<u32, Refusal>
    ensures { safe_outcome_of (answer_of result) image.new blocks.new anodes.new writes.new (writes_in result) ≡ safe_outcome image.old blocks.old anodes.old writes.old (safe_write directory name.now offset bytes.now) }
{
    change_checked(
        image,
        blocks,
        anodes,
        directory,
        name,
        Asked::Write(offset),
        bytes,
        writes,
    )
}

// Removes a file or an empty directory safely, and hands out the list of block writes, and how many they are; a refused call leaves the image and the buffer.
pub fn safe_remove(
    image: &mut [u8],
    blocks: &mut [u16],
    anodes: &mut [u16],
    directory: u16,
    name: &[u8],
    writes: &mut [u8],
) -> Result<u32, Refusal>
    ensures { safe_outcome_of (answer_of result) image.new blocks.new anodes.new writes.new (writes_in result) ≡ safe_outcome image.old blocks.old anodes.old writes.old (safe_remove directory name.now) }
{
    let none = [0u8; 0];
    change_checked(
        image,
        blocks,
        anodes,
        directory,
        name,
        Asked::Remove,
        &none,
        writes,
    )
}
