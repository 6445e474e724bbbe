// Copies the bytes of a chain out, and writes bytes along a chain.
#![tactic(auto)]

ghost use Rattle.std.specs.Prelude.{List, [], ◌∷◌, ◌++◌, ◌≡◌, ℕ, ◌+◌, ◌*◌, ◌<◌, ◌≤◌, length, take, drop};
ghost use Rattle.disk.specs.Blocks.{block_of};
ghost use Rattle.rules.specs.Counting.{gather};
ghost use Rattle.rules.specs.Chains.{run, blocks_of};
ghost use Rattle.rules.specs.Walk.{Entered};
ghost use Rattle.rules.specs.Lookup.{bytes_of};
ghost use Rattle.rules.specs.Changes.{written};
ghost use Rattle.anodes.specs.Loaded.{anodes_from};
ghost use Rattle.laws.specs.Chains.{Inside};
ghost use Rattle.contents.specs.Copied.{filled, Copied};
ghost use Rattle.contents.specs.Written.{WrittenPast, InsideOnce};

use disk::{AnodeNo, BlockNo};
use endian::{part, store};
use links::Links;
use tables::entry;

// How many bytes are still to be skipped, and how many are done.
#[derive(Clone, Copy)]
struct Cursor {
    skip: u64,
    done: usize,
}

// Copies bytes into the buffer from `done` on, as many as it has room for, and gives the place after them.
fn copy_bytes(source: &[u8], out: &mut [u8], done: usize) -> usize
    ensures { (rest : List ℕ) → filled out.new result rest ≡ filled out.old done (source.now ++ rest) }
{
    if out.len() <= done {
        return done;
    }
    let n = source.len().min(out.len() - done);
    store(out, done, source);
    done + n
}

// Copies what block `i`, from 0, of those from `first` upward has behind the bytes to be skipped.
fn copy_block(image: &[u8], first: BlockNo, i: u16, out: &mut [u8], c: Cursor) -> Cursor
    ensures { Copied c out.old (block_of image.now (first.0 + i)) result out.new }
{
    let block = part(image, (first.0 as usize + i as usize) * 512, 512);
    let len = block.len();
    if len as u64 <= c.skip {
        return Cursor {
            skip: c.skip - (len as u64),
            done: c.done,
        };
    }
    let from = c.skip as usize;
    let done = copy_bytes(&block[from..len], out, c.done);
    Cursor { skip: 0, done }
}

// Copies the `count` blocks from `first` upward, until the buffer is full.
fn copy_run(image: &[u8], first: BlockNo, count: u16, out: &mut [u8], c: Cursor) -> Cursor
    ensures { Copied c out.old (gather (block_of image.now) (run first.0 count)) result out.new }
{
    let mut cursor = c;
    for i in 0..count {
        if out.len() <= cursor.done {
            return cursor;
        }
        cursor = copy_block(image, first, i, out, cursor);
    }
    cursor
}

// Copies the bytes of a chain's blocks, from `offset` on, into the lent buffer.
pub fn copy_out(
    image: &[u8],
    counts: &[u16],
    firsts: &[u16],
    nexts: &[u16],
    head: AnodeNo,
    offset: u64,
    out: &mut [u8],
)
    requires { offset + length out.old ≤ length (bytes_of image.now (anodes_from counts.now firsts.now nexts.now) head.0) }
    ensures { out.new ≡ take (length out.old) (drop offset (bytes_of image.now (anodes_from counts.now firsts.now nexts.now) head.0)) }
{
    let mut cursor = Cursor {
        skip: offset,
        done: 0,
    };
    for a in Links::along(nexts, head) {
        if out.len() <= cursor.done {
            return;
        }
        let first = BlockNo(entry(firsts, a.0 as usize));
        let count = entry(counts, a.0 as usize);
        cursor = copy_run(image, first, count, out, cursor);
    }
}

// Writes into block `i`, from 0, of those from `first` upward the bytes that fall into it.
fn write_block(image: &mut [u8], first: BlockNo, i: u16, bytes: &[u8], c: Cursor) -> Cursor
    requires { ((first.0 + i) * 512 + 512 ≤ length image.old) × (c.done < length bytes.now) }
    ensures { WrittenPast c bytes.now image.old ((first.0 + i) ∷ []) result image.new }
{
    if 512 <= c.skip {
        return Cursor {
            skip: c.skip - 512,
            done: c.done,
        };
    }
    let at = c.skip as usize;
    let room = 512 - at;
    let from = (first.0 as usize + i as usize) * 512;
    let end = from + 512;
    store(&mut image[from..end], at, part(bytes, c.done, room));
    Cursor {
        skip: 0,
        done: c.done + room,
    }
}

// Writes into the `count` blocks from `first` upward, until no bytes are left.
fn write_run(image: &mut [u8], first: BlockNo, count: u16, bytes: &[u8], c: Cursor) -> Cursor
    requires { Inside image.old (run first.0 count) }
    ensures { WrittenPast c bytes.now image.old (run first.0 count) result image.new }
{
    let mut cursor = c;
    for i in 0..count {
        if bytes.len() <= cursor.done {
            return cursor;
        }
        cursor = write_block(image, first, i, bytes, cursor);
    }
    cursor
}

// Replaces bytes of a chain's blocks from `offset` on.
pub fn write_along(
    image: &mut [u8],
    counts: &[u16],
    firsts: &[u16],
    nexts: &[u16],
    head: AnodeNo,
    offset: u64,
    bytes: &[u8],
)
    requires { InsideOnce image.old (blocks_of (anodes_from counts.now firsts.now nexts.now) head.0) }
    ensures { (e : Entered) → e.anode ≡ head.0 → image.new ≡ written image.old (anodes_from counts.now firsts.now nexts.now) e offset bytes.now }
{
    let mut cursor = Cursor {
        skip: offset,
        done: 0,
    };
    for a in Links::along(nexts, head) {
        if bytes.len() <= cursor.done {
            return;
        }
        let first = BlockNo(entry(firsts, a.0 as usize));
        let count = entry(counts, a.0 as usize);
        cursor = write_run(image, first, count, bytes, cursor);
    }
}
