// Copies blocks of an image to their new places: a directory block, and every anode block with its slot.
#![tactic(auto)]

ghost use Rattle.std.specs.Prelude.{false, ◌≢◌, ◌≡◌, ◌*◌, ◌+◌, ◌≤◌, ◌<◌, length};
ghost use Rattle.disk.specs.Blocks.{block_of, with_block};
ghost use Rattle.rules.specs.Accepted.{wrong_size};
ghost use Rattle.rules.specs.Table.{with_slot, with_slot_table};
ghost use Rattle.anodes.specs.Loaded.{slots_from};
ghost use Rattle.block_copies.specs.Moved.{SlotsMove};

use disk::{BlockNo, block_part, put_slot, slot_of};
use endian::store;
use tables::entry;

// Copies block `from` to block `to`.
pub fn copy_block(image: &mut [u8], from: BlockNo, to: BlockNo)
    requires { (from.0 * 512 + 512 ≤ length image.old) × (to.0 * 512 + 512 ≤ length image.old) }
    ensures { image.new ≡ with_block image.old to.0 (block_of image.old from.0) }
{
    let mut block = [0u8; 512];
    store(&mut block, 0, block_part(image, from));
    let start = (to.0 as usize) * 512;
    store(&mut image[start..start + 512], 0, &block);
}

// Makes block `to` the anode block of slot `k`, with the bytes of block `from`.
fn move_slot(image: &mut [u8], k: usize, from: BlockNo, to: BlockNo)
    requires { (k < 42) × (1536 ≤ length image.old) × (from.0 * 512 + 512 ≤ length image.old) × (to.0 * 512 + 512 ≤ length image.old) × (from.0 ≢ 2) }
    ensures { image.new ≡ with_slot image.old k to.0 (block_of image.old from.0) }
{
    put_slot(&mut image[1024..1536], k, to);
    copy_block(image, from, to);
}

// Stores each slot that holds another block than in the image, and copies its anode block there.
pub fn move_slots(image: &mut [u8], slots: &[u16])
    requires { (wrong_size image.old ≡ false) × SlotsMove image.old (slots_from slots.now) }
    ensures { image.new ≡ with_slot_table image.old (slots_from slots.now) }
{
    for k in 0..42 {
        let from = slot_of(image, k);
        let to = entry(slots, k);
        if from.0 != to {
            move_slot(image, k, from, BlockNo(to));
        }
    }
}
