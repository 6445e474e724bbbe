// Changes safely what a name stands for in an accepted image: first the refusals, then the change and its list of writes.
#![tactic(auto)]

ghost use Rattle.safe_rules.specs.SafeCalls.{safe_make, safe_resize, safe_write, safe_remove};
ghost use Rattle.find.specs.Open.{Open, OpenAnodes};
ghost use Rattle.safe_plans.specs.Planned.{ShowsBlocks};
ghost use Rattle.safe_named.specs.After.{CallLeaves};
ghost use Rattle.safe_named.specs.Asked.{call_of};

use directory::Kind;
use disk::{AnodeNo, Refusal};
use find::{find_file, find_removable, find_span};
use lookup::{entry_named, is_reached, parent_of};
use named_changes::{Asked, wrong_entry};
use safe_files::safe_write_entry;
use safe_makes::safe_make_entry;
use safe_removes::safe_remove_entry;
use safe_resizes::safe_resize_entry;

// Writes bytes of a file safely from the offset on; 21, 22, 24, 26, then 27, 28 and 32.
fn safe_write_named(
    image: &mut [u8],
    blocks: &[u16],
    heads: &[u16],
    counts: &[u16],
    firsts: &[u16],
    nexts: &[u16],
    queue: &[u16],
    dirs: u16,
    head: AnodeNo,
    name: &[u8],
    offset: u64,
    bytes: &[u8],
    out: &mut [u8],
) -> Result<u32, Refusal>
    requires { OpenAnodes image.old counts.now firsts.now nexts.now queue.now heads.now dirs × ShowsBlocks image.old blocks.now }
    ensures { CallLeaves image.old out.old (safe_write head.0 name.now offset bytes.now) result image.new out.new }
{
    let len = bytes.len();
    let e = find_span(
        image, firsts, nexts, queue, heads, dirs, head, name, offset, len,
    )?;
    safe_write_entry(image, blocks, counts, firsts, nexts, e, offset, bytes, out)
}

// Resizes a file safely; 21, 22, 24, then 27, 28 and 32. A resize to the size that it has is the write of no bytes.
fn safe_resize_named(
    image: &mut [u8],
    blocks: &[u16],
    heads: &[u16],
    counts: &[u16],
    firsts: &[u16],
    nexts: &[u16],
    queue: &[u16],
    dirs: u16,
    head: AnodeNo,
    name: &[u8],
    size: u64,
    out: &mut [u8],
) -> Result<u32, Refusal>
    requires { OpenAnodes image.old counts.now firsts.now nexts.now queue.now heads.now dirs × ShowsBlocks image.old blocks.now }
    ensures { CallLeaves image.old out.old (safe_resize head.0 name.now size) result image.new out.new }
{
    let e = find_file(image, firsts, nexts, queue, heads, dirs, head, name)?;
    if e.size as u64 == size {
        let none = [0u8; 0];
        return safe_write_entry(image, blocks, counts, firsts, nexts, e, 0, &none, out);
    }
    safe_resize_entry(image, blocks, counts, firsts, nexts, head, e, size, out)
}

// Removes a file or an empty directory safely; 21, 22, 25, then 27, 28 and 32.
fn safe_remove_named(
    image: &mut [u8],
    blocks: &[u16],
    heads: &[u16],
    counts: &[u16],
    firsts: &[u16],
    nexts: &[u16],
    queue: &[u16],
    dirs: u16,
    head: AnodeNo,
    name: &[u8],
    out: &mut [u8],
) -> Result<u32, Refusal>
    requires { OpenAnodes image.old counts.now firsts.now nexts.now queue.now heads.now dirs × ShowsBlocks image.old blocks.now }
    ensures { CallLeaves image.old out.old (safe_remove head.0 name.now) result image.new out.new }
{
    let e = find_removable(image, firsts, nexts, queue, heads, dirs, head, name)?;
    safe_remove_entry(image, blocks, counts, firsts, nexts, head, e, out)
}

// Makes a file or a directory safely; 20, 21, 23, then 27, 28 and 32.
fn safe_make_named(
    image: &mut [u8],
    blocks: &[u16],
    heads: &[u16],
    counts: &[u16],
    firsts: &[u16],
    nexts: &[u16],
    queue: &[u16],
    parents: &[u16],
    dirs: u16,
    head: AnodeNo,
    kind: u8,
    name: &[u8],
    comment: &[u8],
    day: u16,
    minute: u16,
    tick: u16,
    protection: u8,
    out: &mut [u8],
) -> Result<u32, Refusal>
    requires { Open image.old counts.now firsts.now nexts.now queue.now parents.now heads.now dirs × ShowsBlocks image.old blocks.now }
    ensures { CallLeaves image.old out.old (safe_make head.0 kind name.now comment.now day minute tick protection) result image.new out.new }
{
    let Ok(k) = Kind::try_from(kind) else {
        return Err(Refusal::BadArgument);
    };
    if wrong_entry(name, comment) {
        return Err(Refusal::BadArgument);
    }
    if !is_reached(heads, queue, dirs, head) {
        return Err(Refusal::NoDirectory);
    }
    if entry_named(image, firsts, nexts, head, name).is_some() {
        return Err(Refusal::AlreadyThere);
    }
    let parent = parent_of(queue, parents, dirs, head);
    safe_make_entry(
        image, blocks, counts, firsts, nexts, head, parent, k, name, comment, day, minute, tick,
        protection, out,
    )
}

// Does safely what is asked for under that name in the directory that `head` heads: its own refusals, then 27, 28 and 32.
pub fn safe_change_named(
    image: &mut [u8],
    blocks: &[u16],
    heads: &[u16],
    counts: &[u16],
    firsts: &[u16],
    nexts: &[u16],
    queue: &[u16],
    parents: &[u16],
    dirs: u16,
    head: AnodeNo,
    name: &[u8],
    asked: Asked,
    text: &[u8],
    out: &mut [u8],
) -> Result<u32, Refusal>
    requires { Open image.old counts.now firsts.now nexts.now queue.now parents.now heads.now dirs × ShowsBlocks image.old blocks.now }
    ensures { CallLeaves image.old out.old (call_of asked head.0 name.now text.now) result image.new out.new }
{
    match asked {
        Asked::Make {
            kind,
            day,
            minute,
            tick,
            protection,
        } => safe_make_named(
            image, blocks, heads, counts, firsts, nexts, queue, parents, dirs, head, kind, name,
            text, day, minute, tick, protection, out,
        ),
        Asked::Resize(size) => safe_resize_named(
            image, blocks, heads, counts, firsts, nexts, queue, dirs, head, name, size, out,
        ),
        Asked::Write(offset) => safe_write_named(
            image, blocks, heads, counts, firsts, nexts, queue, dirs, head, name, offset, text, out,
        ),
        Asked::Remove => safe_remove_named(
            image, blocks, heads, counts, firsts, nexts, queue, dirs, head, name, out,
        ),
    }
}
