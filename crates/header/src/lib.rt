// Refusals 1 to 5: the image's size, the tables' lengths, the root block and the slots.
#![tactic(auto)]

ghost use Rattle.std.specs.Prelude.{◌≡◌};
ghost use Rattle.rules.specs.Accepted.{disk_size, wrong_size, short_tables, wrong_type, wrong_root, wrong_slot, wrong_slots};

use disk::{BlockNo, anode_header_in, block_part, root_in, slot_of};

// The disk's size in blocks.
pub fn disk_size(image: &[u8]) -> usize
    ensures { result ≡ disk_size image.now }
{
    image.len() / 512
}

// 1: a size that is no disk's.
pub fn wrong_size(image: &[u8]) -> bool
    ensures { result ≡ wrong_size image.now }
{
    if image.len() % 512 != 0 {
        return true;
    }
    let n = disk_size(image);
    if n < 5 {
        return true;
    }
    65535 < n
}

// 2: a table that is too short.
pub fn short_tables(image: &[u8], blocks: usize, anodes: usize) -> bool
    ensures { result ≡ short_tables image.now blocks anodes }
{
    if blocks < disk_size(image) {
        return true;
    }
    anodes < 3444
}

// 3: another disk type.
pub fn wrong_type(image: &[u8]) -> bool
    ensures { result ≡ wrong_type image.now }
{
    root_in(block_part(image, BlockNo(2))).signature != 0x50465300
}

// 4: reserved blocks or a name length against the rules.
pub fn wrong_root(image: &[u8]) -> bool
    ensures { result ≡ wrong_root image.now }
{
    let root = root_in(block_part(image, BlockNo(2)));
    let last = root.last.0;
    if root.first.0 != 0 {
        return true;
    }
    if last < 2 {
        return true;
    }
    if disk_size(image) <= last as usize {
        return true;
    }
    if root.name == 0 {
        return true;
    }
    31 < root.name
}

// 5: a used slot whose block is not its anode block.
fn wrong_slot(image: &[u8], s: usize) -> bool
    ensures { result ≡ wrong_slot image.now s }
{
    let slot = slot_of(image, s);
    if slot.0 == 0 {
        return false;
    }
    if slot.0 < 3 {
        return true;
    }
    if disk_size(image) <= slot.0 as usize {
        return true;
    }
    let head = anode_header_in(block_part(image, slot));
    if head.mark != 0x4142 {
        return true;
    }
    head.sequence as usize != s
}

// 5: slot 0 empty, or a wrong slot.
pub fn wrong_slots(image: &[u8]) -> bool
    ensures { result ≡ wrong_slots image.now }
{
    let first = slot_of(image, 0);
    if first.0 == 0 {
        return true;
    }
    for s in 0..42 {
        if wrong_slot(image, s) {
            return true;
        }
    }
    false
}
