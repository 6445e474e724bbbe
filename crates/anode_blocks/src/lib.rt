// The anode blocks that a change has added: stored in the image with their slots, and shown in the block table.
#![tactic(auto)]

ghost use Rattle.std.specs.Prelude.{false, ◌≡◌, ◌*◌, ◌+◌, ◌≤◌, ◌<◌, length};
ghost use Rattle.disk.specs.Root.{slot_of};
ghost use Rattle.rules.specs.Accepted.{disk_size, wrong_size};
ghost use Rattle.rules.specs.Format.{empty_anode_block};
ghost use Rattle.rules.specs.Table.{with_slot, with_slot_table};
ghost use Rattle.laws.specs.Moves.{SlotsGrew};
ghost use Rattle.laws.specs.GotSlots.{slots_got};
ghost use Rattle.laws.specs.OwnerTable.{set_all};
ghost use Rattle.anodes.specs.Loaded.{slots_from};

use disk::{AnodeHeader, BlockNo, put_anode_header, put_slot, slot_of};
use endian::clear;
use tables::{entry, set_entry};

// Makes block `y` the anode block of slot `k`: zeroed, marked and numbered.
fn store_slot(image: &mut [u8], k: usize, y: BlockNo)
    requires { (k < 42) × (1536 ≤ length image.old) × (y.0 * 512 + 512 ≤ length image.old) }
    ensures { image.new ≡ with_slot image.old k y.0 (empty_anode_block k) }
{
    put_slot(&mut image[1024..1536], k, y);
    let from = (y.0 as usize) * 512;
    let block = &mut image[from..from + 512];
    clear(block, 0, 512);
    put_anode_header(
        block,
        AnodeHeader {
            mark: 0x4142,
            sequence: k as u16,
        },
    );
}

// Stores each slot that holds another block than in the image.
pub fn store_slots(image: &mut [u8], slots: &[u16])
    requires { (wrong_size image.old ≡ false) × SlotsGrew (disk_size image.old) (slot_of image.old) (slots_from slots.now) }
    ensures { image.new ≡ with_slot_table image.old (slots_from slots.now) }
{
    for k in 0..42 {
        let y = entry(slots, k);
        if slot_of(image, k).0 != y {
            store_slot(image, k, BlockNo(y));
        }
    }
}

// Shows in the block table each block that a slot has got since the image: 65534, an anode block's.
pub fn show_slots(image: &[u8], slots: &[u16], blocks: &mut [u16])
    ensures { blocks.new ≡ set_all blocks.old (slots_got (slot_of image.now) (slots_from slots.now) 42) 65534 }
{
    for k in (0..42).rev() {
        let y = entry(slots, k);
        if slot_of(image, k).0 != y {
            set_entry(blocks, y as usize, 65534);
        }
    }
}
