// Changes what a name stands for in an accepted image: first the refusals, then the change.
#![tactic(auto)]

ghost use Rattle.std.specs.Prelude.{not, ◌||◌, List, ◌≡◌, ℕ, ◌≤◌, eqb, length};
ghost use Rattle.disk.specs.Refusals.{answer_of};
ghost use Rattle.rules.specs.Anodes.{anodes_of};
ghost use Rattle.rules.specs.Lookup.{entry_named};
ghost use Rattle.rules.specs.Plans.{table_of};
ghost use Rattle.rules.specs.Changes.{left, new_entry, made, written, resized, removed, usual_growth};
ghost use Rattle.rules.specs.Calls.{span_refusal, resize_refusal, remove_refusal, wrong_text, make_refusal, left_after, change_named};
ghost use Rattle.find.specs.Open.{Open, OpenAnodes};
ghost use Rattle.change_tables.specs.Leaves.{Leaves};

use contents::write_along;
use directory::{Kind, name_ok};
use disk::{AnodeNo, Refusal};
use find::{find_file, find_removable, find_span};
use lookup::{entry_named, is_reached, parent_of};
use making::make_entry;
use removing::remove_entry;
use resizing::resize_entry;

// What a call asks for under a name, where one function serves all changes; a make's comment and the bytes of a write are lent beside it.
#[derive(Clone, Copy)]
pub enum Asked {
    Make {
        kind: u8,
        day: u16,
        minute: u16,
        tick: u16,
        protection: u8,
    },
    Resize(u64),
    Write(u64),
    Remove,
}

// Replaces bytes of a file from the offset on; 21, 22, 24, 26.
pub fn write_named(
    image: &mut [u8],
    counts: &[u16],
    firsts: &[u16],
    nexts: &[u16],
    queue: &[u16],
    heads: &[u16],
    dirs: u16,
    head: AnodeNo,
    name: &[u8],
    offset: u64,
    bytes: &[u8],
) -> Result<(), Refusal>
    requires { OpenAnodes image.old counts.now firsts.now nexts.now queue.now heads.now dirs }
    ensures { (b a : List ℕ) → Leaves (answer_of result) image.old b a image.new b a (change_named (span_refusal image.old (anodes_of image.old) head.0 name.now offset (length bytes.now)) image.old (entry_named image.old (anodes_of image.old) head.0 name.now) (λ e. left 0 (written image.old (anodes_of image.old) e offset bytes.now))) }
{
    let len = bytes.len();
    let e = find_span(
        image, firsts, nexts, queue, heads, dirs, head, name, offset, len,
    )?;
    write_along(image, counts, firsts, nexts, e.anode, offset, bytes);
    Ok(())
}

// Resizes a file; 21, 22, 24, then 27 and 28.
pub fn resize_named(
    image: &mut [u8],
    blocks: &mut [u16],
    heads: &mut [u16],
    counts: &[u16],
    firsts: &[u16],
    nexts: &[u16],
    queue: &[u16],
    dirs: u16,
    head: AnodeNo,
    name: &[u8],
    size: u64,
) -> Result<(), Refusal>
    requires { OpenAnodes image.old counts.now firsts.now nexts.now queue.now heads.old dirs × (3444 ≤ length heads.old) }
    ensures { Leaves (answer_of result) image.old blocks.old heads.old image.new blocks.new heads.new (change_named (resize_refusal image.old (anodes_of image.old) head.0 name.now) image.old (entry_named image.old (anodes_of image.old) head.0 name.now) (λ e. resized usual_growth image.old (table_of image.old) e size)) }
{
    let e = find_file(image, firsts, nexts, queue, heads, dirs, head, name)?;
    resize_entry(true, image, blocks, heads, counts, firsts, nexts, e, size)
}

// Removes a file or an empty directory; 21, 22, 25, then 28.
pub fn remove_named(
    image: &mut [u8],
    blocks: &mut [u16],
    heads: &mut [u16],
    counts: &[u16],
    firsts: &[u16],
    nexts: &[u16],
    queue: &[u16],
    dirs: u16,
    head: AnodeNo,
    name: &[u8],
) -> Result<(), Refusal>
    requires { OpenAnodes image.old counts.now firsts.now nexts.now queue.now heads.old dirs × (3444 ≤ length heads.old) }
    ensures { Leaves (answer_of result) image.old blocks.old heads.old image.new blocks.new heads.new (change_named (remove_refusal image.old (anodes_of image.old) head.0 name.now) image.old (entry_named image.old (anodes_of image.old) head.0 name.now) (λ e. removed usual_growth image.old (table_of image.old) e)) }
{
    let e = find_removable(image, firsts, nexts, queue, heads, dirs, head, name)?;
    remove_entry(true, image, blocks, heads, counts, firsts, nexts, e)
}

// 20: name or comment against the entry rules.
pub fn wrong_entry(name: &[u8], comment: &[u8]) -> bool
    ensures { result ≡ wrong_text name.now comment.now }
{
    !name_ok(name) || 79 < comment.len()
}

// Makes a file or a directory; 20, 21, 23, then 27 and 28.
pub fn make_named(
    image: &mut [u8],
    blocks: &mut [u16],
    heads: &mut [u16],
    counts: &[u16],
    firsts: &[u16],
    nexts: &[u16],
    queue: &[u16],
    parents: &[u16],
    dirs: u16,
    head: AnodeNo,
    kind: u8,
    name: &[u8],
    comment: &[u8],
    day: u16,
    minute: u16,
    tick: u16,
    protection: u8,
) -> Result<(), Refusal>
    requires { Open image.old counts.now firsts.now nexts.now queue.now parents.now heads.old dirs × (3444 ≤ length heads.old) }
    ensures { Leaves (answer_of result) image.old blocks.old heads.old image.new blocks.new heads.new (left_after (make_refusal image.old (anodes_of image.old) head.0 kind name.now comment.now) image.old (made usual_growth image.old (table_of image.old) head.0 (new_entry (eqb kind 2) name.now comment.now day minute tick protection))) }
{
    let Ok(k) = Kind::try_from(kind) else {
        return Err(Refusal::BadArgument);
    };
    if wrong_entry(name, comment) {
        return Err(Refusal::BadArgument);
    }
    if !is_reached(heads, queue, dirs, head) {
        return Err(Refusal::NoDirectory);
    }
    if entry_named(image, firsts, nexts, head, name).is_some() {
        return Err(Refusal::AlreadyThere);
    }
    let parent = parent_of(queue, parents, dirs, head);
    make_entry(
        true, image, blocks, heads, counts, firsts, nexts, head, parent, k, name, comment, day,
        minute, tick, protection,
    )
}
