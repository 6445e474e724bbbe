// What every safe change stores in the image: the anode table in its new blocks and a file's bytes in its new ones; and the end of every list of writes.
#![tactic(auto)]

ghost use Rattle.std.specs.Prelude.{◌∷◌, [], ◌++◌, ◌≡◌, ℕ, ◌+◌, ◌*◌, ◌≤◌, length, get_or};
ghost use Rattle.rules.specs.Chains.{blocks_of};
ghost use Rattle.rules.specs.Table.{with_table};
ghost use Rattle.rules.specs.Changes.{spread};
ghost use Rattle.anodes.specs.Loaded.{anodes_from, slots_from, table_from, Loaded};
ghost use Rattle.safe_rules.specs.SafePlans.{slot_blocks};
ghost use Rattle.contents.specs.Written.{InsideOnce};
ghost use Rattle.write_lists.specs.Puts.{with_writes};
ghost use Rattle.safe_stores.specs.Stored.{TableMoves};

use block_copies::move_slots;
use contents::write_along;
use disk::{AnodeNo, BlockNo};
use edits::store_anodes;
use write_lists::{put_slots, put_write};

// Stores the anode table of the new tables in its new blocks.
pub fn store_table(
    image: &mut [u8],
    counts: &[u16],
    firsts: &[u16],
    nexts: &[u16],
    new_counts: &[u16],
    new_firsts: &[u16],
    new_nexts: &[u16],
    slots: &[u16],
)
    requires { Loaded image.old counts.now firsts.now nexts.now × TableMoves image.old (slots_from slots.now) }
    ensures { image.new ≡ with_table image.old (table_from new_counts.now new_firsts.now new_nexts.now slots.now) }
{
    move_slots(image, slots);
    store_anodes(
        image, counts, firsts, nexts, new_counts, new_firsts, new_nexts,
    );
}

// Stores a file's bytes, all of them, in the blocks of the chain that `head` heads.
pub fn store_file(
    image: &mut [u8],
    counts: &[u16],
    firsts: &[u16],
    nexts: &[u16],
    head: AnodeNo,
    bytes: &[u8],
)
    requires inside_once { InsideOnce image.old (blocks_of (anodes_from counts.now firsts.now nexts.now) head.0) }
    requires bytes_len { length bytes.now ≡ length (blocks_of (anodes_from counts.now firsts.now nexts.now) head.0) * 512 }
    ensures { image.new ≡ spread image.old (blocks_of (anodes_from counts.now firsts.now nexts.now) head.0) bytes.now }
{
    write_along(image, counts, firsts, nexts, head, 0, bytes);
}

// Puts the end of a list of writes: the anode blocks, slot by slot, and the root.
pub fn put_end(image: &[u8], slots: &[u16], out: &mut [u8], at: usize)
    requires by_index { ((k : ℕ) → get_or slots.now k 0 * 512 + 512 ≤ length image.now) × (1536 ≤ length image.now) }
    requires slots_in_bounds { at + (length (slot_blocks (slots_from slots.now) 42) + 1) * 514 ≤ length out.old }
    ensures { out.new ≡ with_writes out.old at image.now (slot_blocks (slots_from slots.now) 42 ++ (2 ∷ [])) }
{
    let end = put_slots(image, slots, out, at);
    put_write(image, BlockNo(2), out, end);
}
