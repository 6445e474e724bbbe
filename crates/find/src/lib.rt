// Finds an entry, by its name or by its place, in a directory of an accepted image, and tries the refusals 21, 22 and 24 to 26 of the call that asks for it.
#![tactic(auto)]

ghost use Rattle.std.specs.Prelude.{cond, false, not, List, ◌≡◌, ℕ, ◌+◌, ltb};
ghost use Rattle.directory.specs.Entries.{is_dir};
ghost use Rattle.rules.specs.Anodes.{anodes_of};
ghost use Rattle.rules.specs.Walk.{entries_from};
ghost use Rattle.rules.specs.Lookup.{no_directory, entry_named, entries_of, is_there, nth};
ghost use Rattle.rules.specs.Calls.{span_refusal, resize_refusal, remove_refusal, list_refusal};
ghost use Rattle.anodes.specs.Loaded.{anodes_from};
ghost use Rattle.find.specs.Open.{OpenFor};
ghost use Rattle.change_laws.specs.Answers.{search_number};
ghost use Rattle.find.specs.Found.{Finds};

use directory::{Kind, entry_at};
use disk::{AnodeNo, BlockNo, Refusal, block_part};
use links::Links;
use lookup::{EntryAt, entry_named, is_reached, nth_entry};
use tables::entry;

// The first entry with that name in the directory that `head` heads; 21, 22.
pub fn find_named(
    image: &[u8],
    firsts: &[u16],
    nexts: &[u16],
    queue: &[u16],
    heads: &[u16],
    dirs: u16,
    head: AnodeNo,
    name: &[u8],
) -> Result<EntryAt, Refusal>
    requires { OpenFor image.now firsts.now nexts.now queue.now heads.now dirs }
    ensures { Finds image.now result (search_number (no_directory image.now (anodes_of image.now) head.0) (entry_named image.now (anodes_of image.now) head.0 name.now)) (entry_named image.now (anodes_of image.now) head.0 name.now) }
{
    if !is_reached(heads, queue, dirs, head) {
        return Err(Refusal::NoDirectory);
    }
    entry_named(image, firsts, nexts, head, name).ok_or(Refusal::NotFound)
}

// The n-th entry, from 0, of the directory that `head` heads; 21, 22.
pub fn find_nth(
    image: &[u8],
    firsts: &[u16],
    nexts: &[u16],
    queue: &[u16],
    heads: &[u16],
    dirs: u16,
    head: AnodeNo,
    n: u64,
) -> Result<EntryAt, Refusal>
    requires { OpenFor image.now firsts.now nexts.now queue.now heads.now dirs }
    ensures { Finds image.now result (list_refusal image.now (anodes_of image.now) head.0 n) (nth (entries_of image.now (anodes_of image.now) head.0) n) }
{
    if !is_reached(heads, queue, dirs, head) {
        return Err(Refusal::NoDirectory);
    }
    nth_entry(image, firsts, nexts, head, n).ok_or(Refusal::NotFound)
}

// The entry of a file; 21, 22, 24.
pub fn find_file(
    image: &[u8],
    firsts: &[u16],
    nexts: &[u16],
    queue: &[u16],
    heads: &[u16],
    dirs: u16,
    head: AnodeNo,
    name: &[u8],
) -> Result<EntryAt, Refusal>
    requires { OpenFor image.now firsts.now nexts.now queue.now heads.now dirs }
    ensures { Finds image.now result (resize_refusal image.now (anodes_of image.now) head.0 name.now) (entry_named image.now (anodes_of image.now) head.0 name.now) }
{
    let e = find_named(image, firsts, nexts, queue, heads, dirs, head, name)?;
    if e.kind.is_directory() {
        return Err(Refusal::IsDirectory);
    }
    Ok(e)
}

// Whether offset + length is above the size; the sum is not wrapped.
fn past_end(size: u32, offset: u64, len: usize) -> bool
    ensures { result ≡ ltb size (offset + len) }
{
    let end = size as u64;
    if end < len as u64 {
        return true;
    }
    end - (len as u64) < offset
}

// The entry of a file with `len` bytes from the offset on; 21, 22, 24, 26.
pub fn find_span(
    image: &[u8],
    firsts: &[u16],
    nexts: &[u16],
    queue: &[u16],
    heads: &[u16],
    dirs: u16,
    head: AnodeNo,
    name: &[u8],
    offset: u64,
    len: usize,
) -> Result<EntryAt, Refusal>
    requires { OpenFor image.now firsts.now nexts.now queue.now heads.now dirs }
    ensures { Finds image.now result (span_refusal image.now (anodes_of image.now) head.0 name.now offset len) (entry_named image.now (anodes_of image.now) head.0 name.now) }
{
    let e = find_file(image, firsts, nexts, queue, heads, dirs, head, name)?;
    if past_end(e.size, offset, len) {
        return Err(Refusal::PastEnd);
    }
    Ok(e)
}

// Whether a directory block has an entry; one that breaks the rules counts.
fn has_entry(block: &[u8]) -> bool
    ensures { (y : ℕ) → result ≡ is_there (nth (entries_from 28 block.now y 16) 0) }
{
    match entry_at(block, 16) {
        Ok(Some(_)) => true,
        Ok(None) => false,
        Err(_) => true,
    }
}

// Whether the directory that `head` heads has no entry in any of its blocks.
fn is_empty(image: &[u8], firsts: &[u16], nexts: &[u16], head: AnodeNo) -> bool
    ensures { (c : List ℕ) → not result ≡ is_there (nth (entries_of image.now (anodes_from c firsts.now nexts.now) head.0) 0) }
{
    for a in Links::along(nexts, head) {
        if has_entry(block_part(image, BlockNo(entry(firsts, a.0 as usize)))) {
            return false;
        }
    }
    true
}

// Whether an entry is that of a directory with entries.
fn is_nonempty_dir(image: &[u8], firsts: &[u16], nexts: &[u16], kind: Kind, anode: AnodeNo) -> bool
    ensures { (c : List ℕ) → result ≡ cond (is_dir kind) (is_there (nth (entries_of image.now (anodes_from c firsts.now nexts.now) anode.0) 0)) false }
{
    kind.is_directory() && !is_empty(image, firsts, nexts, anode)
}

// The entry of a file or of an empty directory; 21, 22, 25.
pub fn find_removable(
    image: &[u8],
    firsts: &[u16],
    nexts: &[u16],
    queue: &[u16],
    heads: &[u16],
    dirs: u16,
    head: AnodeNo,
    name: &[u8],
) -> Result<EntryAt, Refusal>
    requires { OpenFor image.now firsts.now nexts.now queue.now heads.now dirs }
    ensures { Finds image.now result (remove_refusal image.now (anodes_of image.now) head.0 name.now) (entry_named image.now (anodes_of image.now) head.0 name.now) }
{
    let e = find_named(image, firsts, nexts, queue, heads, dirs, head, name)?;
    if is_nonempty_dir(image, firsts, nexts, e.kind, e.anode) {
        return Err(Refusal::NotEmpty);
    }
    Ok(e)
}
