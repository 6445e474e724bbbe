// Format: makes an empty disk in the lent image.
#![tactic(auto)]

ghost use Rattle.std.specs.Prelude.{◌≡◌, false, ℕ, ◌+◌, ◌*◌, ◌<◌, ◌≤◌, length, replicate};
ghost use Rattle.endian.specs.Bytes.{put32};
ghost use Rattle.disk.specs.Refusals.{answer_of};
ghost use Rattle.disk.specs.Blocks.{block_of, with_block};
ghost use Rattle.disk.specs.Root.{pfs0};
ghost use Rattle.disk.specs.AnodeBlocks.{anode_made};
ghost use Rattle.rules.specs.Accepted.{wrong_size};
ghost use Rattle.rules.specs.Format.{wrong_format, zero_block, with_slots, root_block, lower_anode, upper_anode, list_head, first_anodes, anode_block, with_anode_blocks, formatted};
ghost use Rattle.rules.specs.Changes.{left};
ghost use Rattle.rules.specs.Calls.{format_outcome};

use directory::{DirectoryHeader, put_directory_header};
use disk::{
    Anode, AnodeHeader, AnodeNo, BlockNo, Refusal, Root, no_anode, put_anode, put_anode_header,
    put_root, put_slot,
};
use endian::{clear, write32};
use header::{disk_size, wrong_size};

// 20: arguments that make no disk.
fn wrong_format(image: &[u8], last: u16, slots: u16, name: &[u8]) -> bool
    ensures { result ≡ wrong_format image.now last slots name.now }
{
    if slots < 1 {
        return true;
    }
    if 42 < slots {
        return true;
    }
    if last < 3 + slots {
        return true;
    }
    if disk_size(image) <= last as usize {
        return true;
    }
    if name.len() == 0 {
        return true;
    }
    31 < name.len()
}

// Makes every byte zero but the disk type in block 0.
fn start_disk(image: &mut [u8])
    requires { 512 ≤ length image.old }
    ensures { image.new ≡ with_block (replicate (length image.old) 0) 0 (put32 zero_block 0 pfs0) }
{
    let len = image.len();
    clear(image, 0, len);
    write32(&mut image[0..512], 0, 0x50465300);
}

// Stores the numbers of the anode blocks, from 3 up, in the first slots of the root block.
fn put_slots(block: &mut [u8], slots: u16)
    requires { slots ≤ 42 }
    ensures { block.new ≡ with_slots block.old slots }
{
    for s in 0..slots {
        put_slot(block, s as usize, BlockNo(3 + s));
    }
}

// Stores the root block.
fn put_root_block(
    block: &mut [u8],
    last: u16,
    slots: u16,
    name: &[u8],
    day: u16,
    minute: u16,
    tick: u16,
    protection: u16,
)
    requires { (block.old ≡ zero_block) × (slots ≤ 42) × (length name.now ≤ 31) }
    ensures { block.new ≡ root_block last slots name.now day minute tick protection }
{
    let root = Root {
        signature: 0x50465300,
        day,
        minute,
        tick,
        protection,
        name: name.len() as u8,
        first: BlockNo(0),
        last: BlockNo(last),
    };
    put_root(block, root, name);
    put_slots(block, slots);
}

// The anode of so many blocks from `block` on, with the anode after it.
fn anode(count: u16, block: u16, next: u16) -> Anode
    ensures { result ≡ anode_made count block next }
{
    Anode {
        count,
        block: BlockNo(block),
        next: AnodeNo(next),
    }
}

// Anode 2: the free blocks up to last reserved.
fn lower_anode(last: u16, slots: u16) -> Anode
    requires { 3 + slots ≤ last }
    ensures { result ≡ lower_anode last slots }
{
    if last == 3 + slots {
        return anode(0, 65535, 0);
    }
    anode(last - (3 + slots), 4 + slots, 0)
}

// Anode 6: the free blocks above last reserved.
fn upper_anode(n: u16, last: u16) -> Anode
    requires { last < n }
    ensures { result ≡ upper_anode n last }
{
    if last + 1 == n {
        return no_anode();
    }
    anode(n - (last + 1), last + 1, 2)
}

// Anode 1: the head of the free list.
fn list_head(n: u16, last: u16) -> Anode
    requires { last < n }
    ensures { result ≡ list_head n last }
{
    if last + 1 == n {
        return anode(0, 65535, 2);
    }
    anode(0, 65535, 6)
}

// Stores the anodes that an empty disk has in its first anode block.
fn put_first_anodes(block: &mut [u8], n: u16, last: u16, slots: u16)
    requires { (3 + slots ≤ last) × (last < n) }
    ensures { block.new ≡ first_anodes block.old n last slots }
{
    let head = list_head(n, last);
    let lower = lower_anode(last, slots);
    let upper = upper_anode(n, last);
    let directory = anode(1, 3 + slots, 0);
    put_anode(block, 0, anode(0, 65535, 0));
    put_anode(block, 1, head);
    put_anode(block, 2, lower);
    put_anode(block, 5, directory);
    put_anode(block, 6, upper);
}

// Stores anode block `s`.
fn put_anode_block(block: &mut [u8], n: u16, last: u16, slots: u16, s: u16)
    requires { (block.old ≡ zero_block) × (3 + slots ≤ last) × (last < n) }
    ensures { block.new ≡ anode_block n last slots s }
{
    put_anode_header(
        block,
        AnodeHeader {
            mark: 0x4142,
            sequence: s,
        },
    );
    if s != 0 {
        return;
    }
    put_first_anodes(block, n, last, slots);
}

// Stores the anode blocks, from block 3 on.
fn put_anode_blocks(image: &mut [u8], n: u16, last: u16, slots: u16)
    requires { (3 + slots ≤ last) × (last < n) × (n * 512 ≤ length image.old) × ((s : ℕ) → s < slots → block_of image.old (3 + s) ≡ zero_block) }
    ensures { image.new ≡ with_anode_blocks image.old n last slots slots }
{
    for s in 0..slots {
        let from = (3 + (s as usize)) * 512;
        let end = from + 512;
        put_anode_block(&mut image[from..end], n, last, slots, s);
    }
}

// Makes an empty disk from arguments that are not refused.
fn make(
    image: &mut [u8],
    last: u16,
    slots: u16,
    name: &[u8],
    day: u16,
    minute: u16,
    tick: u16,
    protection: u16,
)
    requires { (wrong_size image.old ≡ false) × (wrong_format image.old last slots name.now ≡ false) }
    ensures { image.new ≡ formatted image.old last slots name.now day minute tick protection }
{
    let n = disk_size(image) as u16;
    start_disk(image);
    put_root_block(
        &mut image[1024..1536],
        last,
        slots,
        name,
        day,
        minute,
        tick,
        protection,
    );
    put_anode_blocks(image, n, last, slots);
    let from = (3 + (slots as usize)) * 512;
    let end = from + 512;
    put_directory_header(
        &mut image[from..end],
        DirectoryHeader {
            mark: 0x4442,
            owner: AnodeNo(5),
            parent: AnodeNo(0),
        },
    );
}

// Makes an empty disk with last reserved `last` and so many anode blocks; a refused call leaves the image as it is; 1, 20.
pub fn format(
    image: &mut [u8],
    last: u16,
    anode_blocks: u16,
    name: &[u8],
    day: u16,
    minute: u16,
    tick: u16,
    protection: u16,
) -> Result<(), Refusal>
    ensures { left (answer_of result) image.new ≡ format_outcome image.old last anode_blocks name.now day minute tick protection }
{
    if wrong_size(image) {
        return Err(Refusal::ImageSize);
    }
    if wrong_format(image, last, anode_blocks, name) {
        return Err(Refusal::BadArgument);
    }
    make(
        image,
        last,
        anode_blocks,
        name,
        day,
        minute,
        tick,
        protection,
    );
    Ok(())
}
