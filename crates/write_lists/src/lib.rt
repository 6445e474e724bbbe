// Puts a list of block writes into a lent buffer: each a two-byte block number and the 512 bytes that an image has there.
#![tactic(auto)]

ghost use Rattle.std.specs.Prelude.{◌∷◌, [], ◌≡◌, ℕ, ◌+◌, ◌*◌, ◌<◌, ◌≤◌, length, get_or};
ghost use Rattle.rules.specs.Chains.{run, blocks_of};
ghost use Rattle.laws.specs.Chains.{Inside};
ghost use Rattle.anodes.specs.Loaded.{anodes_from, slots_from};
ghost use Rattle.safe_rules.specs.SafePlans.{slot_blocks};
ghost use Rattle.write_lists.specs.Puts.{with_writes, held_by};

use disk::{AnodeNo, BlockNo, block_part};
use endian::{store, write16};
use links::Links;
use tables::entry;

// Puts the write of block `y` at a place of the buffer, and gives the place behind it.
pub fn put_write(image: &[u8], y: BlockNo, out: &mut [u8], at: usize) -> usize
    requires { (y.0 * 512 + 512 ≤ length image.now) × (at + 514 ≤ length out.old) }
    ensures { (out.new ≡ with_writes out.old at image.now (y.0 ∷ [])) × (result ≡ at + 514) }
{
    write16(out, at, y.0);
    store(out, at + 2, block_part(image, y));
    at + 514
}

// Puts the writes of the `count` blocks from `first` upward, and gives the place behind them.
fn put_run(image: &[u8], first: BlockNo, count: u16, out: &mut [u8], at: usize) -> usize
    requires { Inside image.now (run first.0 count) × (first.0 + count ≤ 65535) × (at + count * 514 ≤ length out.old) }
    ensures { (out.new ≡ with_writes out.old at image.now (run first.0 count)) × (result ≡ at + count * 514) }
{
    let mut place = at;
    for i in 0..count {
        place = put_write(image, BlockNo(first.0 + i), out, place);
    }
    place
}

// Puts the writes of the blocks of the chain that `head` heads, and gives the place behind them.
pub fn put_chain(
    image: &[u8],
    counts: &[u16],
    firsts: &[u16],
    nexts: &[u16],
    head: AnodeNo,
    out: &mut [u8],
    at: usize,
) -> usize
    requires inside { Inside image.now (blocks_of (anodes_from counts.now firsts.now nexts.now) head.0) }
    requires by_index { (a : ℕ) → 0 < get_or counts.now a 0 → get_or firsts.now a 0 + get_or counts.now a 0 ≤ 65535 }
    requires head_in_bounds { at + length (blocks_of (anodes_from counts.now firsts.now nexts.now) head.0) * 514 ≤ length out.old }
    ensures { (out.new ≡ with_writes out.old at image.now (blocks_of (anodes_from counts.now firsts.now nexts.now) head.0)) × (result ≡ at + length (blocks_of (anodes_from counts.now firsts.now nexts.now) head.0) * 514) }
{
    let mut place = at;
    for a in Links::along(nexts, head) {
        let first = BlockNo(entry(firsts, a.0 as usize));
        let count = entry(counts, a.0 as usize);
        place = put_run(image, first, count, out, place);
    }
    place
}

// Puts the write of the block that slot `k` holds, if it is in use, and gives the place behind it.
fn put_slot_write(image: &[u8], slots: &[u16], k: usize, out: &mut [u8], at: usize) -> usize
    requires { (get_or slots.now k 0 * 512 + 512 ≤ length image.now) × (at + length (held_by (slots_from slots.now) k) * 514 ≤ length out.old) }
    ensures { (out.new ≡ with_writes out.old at image.now (held_by (slots_from slots.now) k)) × (result ≡ at + length (held_by (slots_from slots.now) k) * 514) }
{
    let y = entry(slots, k);
    if y == 0 {
        return at;
    }
    put_write(image, BlockNo(y), out, at)
}

// Puts the writes of the anode blocks, slot by slot, and gives the place behind them.
pub fn put_slots(image: &[u8], slots: &[u16], out: &mut [u8], at: usize) -> usize
    requires { ((k : ℕ) → get_or slots.now k 0 * 512 + 512 ≤ length image.now) × (at + length (slot_blocks (slots_from slots.now) 42) * 514 ≤ length out.old) }
    ensures { (out.new ≡ with_writes out.old at image.now (slot_blocks (slots_from slots.now) 42)) × (result ≡ at + length (slot_blocks (slots_from slots.now) 42) * 514) }
{
    let mut place = at;
    for k in 0..42 {
        place = put_slot_write(image, slots, k, out, place);
    }
    place
}
