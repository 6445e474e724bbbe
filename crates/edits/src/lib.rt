// What a change writes into the image, and the block table after it.
#![tactic(auto)]

ghost use Rattle.std.specs.Prelude.{◌&&◌, true, List, [], ◌∷◌, ◌≡◌, ℕ, ◌+◌, ◌/◌, ◌%◌, ◌<◌, ◌≤◌, eqb, length, get_or, take, drop};
ghost use Rattle.disk.specs.AnodeBlocks.{anode_made};
ghost use Rattle.directory.specs.Entries.{good_name, good_comment, is_dir, put_entry};
ghost use Rattle.rules.specs.Anodes.{anodes_of, same_anode, store_changed, with_anodes};
ghost use Rattle.rules.specs.Chains.{run, blocks_of};
ghost use Rattle.rules.specs.Walk.{Entered};
ghost use Rattle.rules.specs.Format.{zero_block, new_directory_block};
ghost use Rattle.rules.specs.Table.{in_block};
ghost use Rattle.rules.specs.Changes.{with_blocks, zero_tail, with_size, entries_end, first_room, new_entry, entry_of, gap_closed, without_entry};
ghost use Rattle.laws.specs.OwnerTable.{set_all};
ghost use Rattle.anodes.specs.Loaded.{anodes_from};
ghost use Rattle.edits.specs.Entries.{room_of, or_rest, EntryStands, ExtentsFit, OneBlockEach};

use directory::{DirectoryHeader, Entry, Kind, put_directory_header, put_entry};
use disk::{Anode, AnodeNo, BlockNo, block_end, block_part, set_anode};
use endian::{clear, read8, write32};
use links::Links;
use tables::{entry, set_entry};

// Anode `a` of three tables.
fn anode_from(counts: &[u16], firsts: &[u16], nexts: &[u16], a: AnodeNo) -> Anode
    ensures { result ≡ anode_made (get_or counts.now a.0 0) (get_or firsts.now a.0 0) (get_or nexts.now a.0 0) }
{
    Anode {
        count: entry(counts, a.0 as usize),
        block: BlockNo(entry(firsts, a.0 as usize)),
        next: AnodeNo(entry(nexts, a.0 as usize)),
    }
}

// Whether two anodes have the same fields.
fn same_anode(x: Anode, y: Anode) -> bool
    ensures { result ≡ (eqb x.count y.count && (eqb x.block.0 y.block.0 && eqb x.next.0 y.next.0)) }
{
    x.count == y.count && (x.block == y.block && x.next == y.next)
}

// True only if the 82 numbers from `from` on are the same in both tables.
fn same_numbers(old: &[u16], new: &[u16], from: usize) -> bool
    requires { from + 82 ≤ 3444 }
    ensures { result ≡ true → (a : ℕ) → from ≤ a → a < from + 82 → get_or old.now a 0 ≡ get_or new.now a 0 }
{
    let end = from + 82;
    if old.len() < end {
        return false;
    }
    if new.len() < end {
        return false;
    }
    let x = &old[from..end];
    let y = &new[from..end];
    let mut same = true;
    // One flat loop without an early way out, so that many numbers are compared at once.
    for i in 0..82 {
        same &= x[i] == y[i];
    }
    same
}

// True only if the 82 anodes from `from` on have the same fields as before.
fn same_run(
    counts: &[u16],
    firsts: &[u16],
    nexts: &[u16],
    new_counts: &[u16],
    new_firsts: &[u16],
    new_nexts: &[u16],
    from: AnodeNo,
) -> bool
    requires { from.0 + 82 ≤ 3444 }
    ensures { result ≡ true → (a : ℕ) → from.0 ≤ a → a < from.0 + 82 → same_anode (anodes_from counts.now firsts.now nexts.now) (anodes_from new_counts.now new_firsts.now new_nexts.now) a ≡ true }
{
    let at = from.0 as usize;
    same_numbers(counts, new_counts, at)
        && (same_numbers(firsts, new_firsts, at) && same_numbers(nexts, new_nexts, at))
}

// Stores each of the 82 anodes from `from` on that has other fields than before.
fn store_run(
    image: &mut [u8],
    counts: &[u16],
    firsts: &[u16],
    nexts: &[u16],
    new_counts: &[u16],
    new_firsts: &[u16],
    new_nexts: &[u16],
    from: AnodeNo,
)
    requires { from.0 + 82 ≤ 3444 }
    ensures { (img : List ℕ) → image.old ≡ store_changed (anodes_from counts.now firsts.now nexts.now) (anodes_from new_counts.now new_firsts.now new_nexts.now) img from.0 → image.new ≡ store_changed (anodes_from counts.now firsts.now nexts.now) (anodes_from new_counts.now new_firsts.now new_nexts.now) img (from.0 + 82) }
{
    for a in from.0..from.0 + 82 {
        let old = anode_from(counts, firsts, nexts, AnodeNo(a));
        let new = anode_from(new_counts, new_firsts, new_nexts, AnodeNo(a));
        if !same_anode(old, new) {
            set_anode(image, AnodeNo(a), new);
        }
    }
}

// Stores every anode that has other fields than before: a slot's 82 anodes at a time, where one of them has.
pub fn store_anodes(
    image: &mut [u8],
    counts: &[u16],
    firsts: &[u16],
    nexts: &[u16],
    new_counts: &[u16],
    new_firsts: &[u16],
    new_nexts: &[u16],
)
    requires { anodes_from counts.now firsts.now nexts.now ≡ anodes_of image.old }
    ensures { image.new ≡ with_anodes image.old (anodes_from new_counts.now new_firsts.now new_nexts.now) }
{
    for slot in 0..42 {
        let from = AnodeNo(slot * 82);
        if !same_run(
            counts, firsts, nexts, new_counts, new_firsts, new_nexts, from,
        ) {
            store_run(
                image, counts, firsts, nexts, new_counts, new_firsts, new_nexts, from,
            );
        }
    }
}

// Zeroes the `count` blocks from `first` upward.
fn zero_run(image: &mut [u8], first: BlockNo, count: u16)
    ensures { image.new ≡ with_blocks image.old (run first.0 count) zero_block }
{
    clear(image, (first.0 as usize) * 512, (count as usize) * 512);
}

// Zeroes the blocks of the chain that `head` heads behind its first `have`.
pub fn zero_behind(
    image: &mut [u8],
    counts: &[u16],
    firsts: &[u16],
    nexts: &[u16],
    head: AnodeNo,
    have: u64,
)
    requires { ExtentsFit counts.now firsts.now }
    ensures { image.new ≡ with_blocks image.old (drop have (blocks_of (anodes_from counts.now firsts.now nexts.now) head.0)) zero_block }
{
    let mut before = have;
    for a in Links::along(nexts, head) {
        let at = a.0 as usize;
        let count = entry(counts, at);
        if before < count as u64 {
            let passed = before as u16;
            zero_run(image, BlockNo(entry(firsts, at) + passed), count - passed);
            before = 0;
        } else {
            before -= count as u64;
        }
    }
}

// Zeroes a block and stores the head of a directory block in it.
fn put_new_header(block: &mut [u8], owner: AnodeNo, parent: AnodeNo)
    requires { length block.old ≤ 512 }
    ensures { block.new ≡ take (length block.old) (new_directory_block owner.0 parent.0) }
{
    clear(block, 0, 512);
    put_directory_header(
        block,
        DirectoryHeader {
            mark: 0x4442,
            owner,
            parent,
        },
    );
}

// Makes block `b` a directory's new block.
pub fn put_header(image: &mut [u8], b: BlockNo, owner: AnodeNo, parent: AnodeNo)
    ensures { image.new ≡ with_blocks image.old (b.0 ∷ []) (new_directory_block owner.0 parent.0) }
{
    let from = (b.0 as usize) * 512;
    let end = block_end(image.len(), from);
    if end <= from {
        return;
    }
    put_new_header(&mut image[from..end], owner, parent);
}

// Block `i`, from 0, of the chain that `head` heads; 0 where the chain ends before it.
fn nth_block(counts: &[u16], firsts: &[u16], nexts: &[u16], head: AnodeNo, i: u64) -> BlockNo
    requires { ExtentsFit counts.now firsts.now }
    ensures { result.0 ≡ get_or (blocks_of (anodes_from counts.now firsts.now nexts.now) head.0) i 0 }
{
    let mut left = i;
    for a in Links::along(nexts, head) {
        let at = a.0 as usize;
        let count = entry(counts, at);
        if left < count as u64 {
            return BlockNo(entry(firsts, at) + (left as u16));
        }
        left -= count as u64;
    }
    BlockNo(0)
}

// Zeroes the old last block of a growing file from its size on.
pub fn zero_tail(
    image: &mut [u8],
    counts: &[u16],
    firsts: &[u16],
    nexts: &[u16],
    head: AnodeNo,
    size: u32,
    new: u64,
)
    requires { ExtentsFit counts.now firsts.now }
    ensures { (e : Entered) → e.anode ≡ head.0 → e.size ≡ size → image.new ≡ zero_tail image.old (anodes_from counts.now firsts.now nexts.now) e new }
{
    let at = (size % 512) as usize;
    if new <= size as u64 {
        return;
    }
    if at == 0 {
        return;
    }
    let b = nth_block(counts, firsts, nexts, head, (size / 512) as u64);
    let from = (b.0 as usize) * 512;
    let end = block_end(image.len(), from);
    if end <= from {
        return;
    }
    clear(&mut image[from..end], at, 512 - at);
}

// Stores the size of the entry at a place of the image.
pub fn put_size(image: &mut [u8], start: usize, size: u32)
    ensures { image.new ≡ with_size image.old start size }
{
    let from = start / 512 * 512;
    let end = block_end(image.len(), from);
    if end <= from {
        return;
    }
    write32(&mut image[from..end], start % 512 + 4, size);
}

// Stores a new entry at a place of the image.
pub fn put_new_entry(
    image: &mut [u8],
    start: usize,
    kind: Kind,
    anode: AnodeNo,
    name: &[u8],
    comment: &[u8],
    day: u16,
    minute: u16,
    tick: u16,
    protection: u8,
)
    requires { (good_name name.now ≡ true) × (good_comment comment.now ≡ true) }
    ensures { image.new ≡ in_block image.old (start / 512) (λ (b : List ℕ). put_entry b (start % 512) (entry_of (new_entry (is_dir kind) name.now comment.now day minute tick protection) anode.0) name.now comment.now) }
{
    let from = start / 512 * 512;
    let end = block_end(image.len(), from);
    if end <= from {
        return;
    }
    let e = Entry {
        kind,
        anode,
        size: 0,
        day,
        minute,
        tick,
        protection,
        name: name.len() as u8,
        comment: comment.len() as u8,
    };
    put_entry(&mut image[from..end], start % 512, e, name, comment);
}

// The end mark's place in a directory block.
fn entries_end(block: &[u8]) -> usize
    ensures { result ≡ entries_end block.now }
{
    let mut at: usize = 16;
    // no reader, for the lengths alone are looked at
    for _ in 0..28u32 {
        let len = read8(block, at);
        if len == 0 {
            return at;
        }
        at += len as usize;
    }
    at
}

// The place for an entry of `len` bytes in block `b`, where it has room for it and the end mark.
fn room_in(image: &[u8], b: BlockNo, len: usize) -> Option<usize>
    ensures { (ys : List ℕ) → or_rest result (first_room image.now len ys) ≡ first_room image.now len (b.0 ∷ ys) }
{
    let end = entries_end(block_part(image, b));
    if 510 < end {
        return None;
    }
    if 510 - end < len {
        return None;
    }
    Some((b.0 as usize) * 512 + end)
}

// The place for an entry of `len` bytes in the first block of the directory with room for it and the end mark.
pub fn first_room(
    image: &[u8],
    firsts: &[u16],
    nexts: &[u16],
    head: AnodeNo,
    len: usize,
) -> Option<usize>
    ensures { (c : List ℕ) → OneBlockEach c nexts.now head.0 → room_of result ≡ first_room image.now len (blocks_of (anodes_from c firsts.now nexts.now) head.0) }
{
    for a in Links::along(nexts, head) {
        let found = room_in(image, BlockNo(entry(firsts, a.0 as usize)), len);
        if found.is_some() {
            return found;
        }
    }
    None
}

// Closes the gap of `len` bytes at `at` in the entries of a block that end at `end`, and zeroes as many bytes behind them.
fn close_gap(block: &mut [u8], at: usize, len: usize, end: usize)
    requires { (at + len ≤ end) × (end ≤ length block.old) }
    ensures { block.new ≡ gap_closed block.old at len end }
{
    block.copy_within(at + len..end, at);
    clear(block, end - len, len);
}

// Takes the entry at a place out of its directory block.
pub fn take_out(image: &mut [u8], start: usize)
    requires { EntryStands image.old start }
    ensures { image.new ≡ without_entry image.old start }
{
    let at = start % 512;
    let from = start / 512 * 512;
    let to = from + 512;
    let block = &image[from..to];
    let len = read8(block, at) as usize;
    let end = entries_end(block);
    close_gap(&mut image[from..to], at, len, end);
}

// Notes the owner of the `count` blocks from `first` upward in the block table.
fn set_run(blocks: &mut [u16], first: BlockNo, count: u16, owner: AnodeNo)
    ensures { blocks.new ≡ set_all blocks.old (run first.0 count) owner.0 }
{
    let from = first.0 as usize;
    for i in from..from + count as usize {
        set_entry(blocks, i, owner.0);
    }
}

// Notes `owner` in the block table for the blocks of the chain that `head` heads behind its first `have`.
pub fn set_behind(
    blocks: &mut [u16],
    counts: &[u16],
    firsts: &[u16],
    nexts: &[u16],
    head: AnodeNo,
    have: u64,
    owner: AnodeNo,
)
    requires { ExtentsFit counts.now firsts.now }
    ensures { blocks.new ≡ set_all blocks.old (drop have (blocks_of (anodes_from counts.now firsts.now nexts.now) head.0)) owner.0 }
{
    let mut before = have;
    for a in Links::along(nexts, head) {
        let at = a.0 as usize;
        let count = entry(counts, at);
        if before < count as u64 {
            let passed = before as u16;
            set_run(
                blocks,
                BlockNo(entry(firsts, at) + passed),
                count - passed,
                owner,
            );
            before = 0;
        } else {
            before -= count as u64;
        }
    }
}
