// Gives a file of an accepted image another size safely: its blocks are new, its directory block and the anode blocks take new places, and the writes of the new blocks, the root last, stand in a lent buffer.
#![tactic(auto)]

ghost use Rattle.std.specs.Prelude.{false, [], ◌∷◌, ◌++◌, ◌≢◌, ◌≡◌, ℕ, ◌+◌, ◌*◌, ◌/◌, ◌≤◌, ◌<◌, length, get_or};
ghost use Rattle.disk.specs.Root.{slot_of};
ghost use Rattle.directory.specs.Entries.{is_dir};
ghost use Rattle.rules.specs.Anodes.{anodes_of};
ghost use Rattle.rules.specs.Chains.{blocks_of};
ghost use Rattle.rules.specs.Walk.{blocks_for};
ghost use Rattle.rules.specs.Lookup.{no_directory, entries_of, bytes_of};
ghost use Rattle.rules.specs.Totals.{free_blocks};
ghost use Rattle.rules.specs.Plans.{table_of};
ghost use Rattle.laws.specs.Each.{Member};
ghost use Rattle.laws.specs.Chains.{Inside};
ghost use Rattle.safe_rules.specs.SafePlans.{owner_of, slot_blocks, resized_bytes, resize_change, new_blocks, safe_steps};
ghost use Rattle.safe_rules.specs.SafeWrites.{new_image};
ghost use Rattle.anodes.specs.Loaded.{anodes_from, slots_from, table_from, Loaded};
ghost use Rattle.lookup.specs.Answers.{entered};
ghost use Rattle.placing.specs.Steps.{EndsIn};
ghost use Rattle.change_tables.specs.Leaves.{ReachedEntry};
ghost use Rattle.write_lists.specs.Puts.{with_writes};
ghost use Rattle.safe_plans.specs.Planned.{ShowsBlocks};
ghost use Rattle.safe_stores.specs.Leaves.{SafeLeaves};
ghost use Rattle.safe_resizes.specs.Resized.{new_order, ResizePlan};

use block_copies::copy_block;
use contents::copy_out;
use disk::{AnodeNo, BlockNo, Refusal};
use edits::put_size;
use endian::clear;
use giving::copied;
use giving_back::Old;
use header::disk_size;
use lookup::EntryAt;
use safe_plans::{anode_with, plan_resize};
use safe_removes::entry_block;
use safe_steps::used_slots;
use safe_stores::{put_end, store_file, store_table};
use searches::{last_reserved, slots_of};
use tables::entry;
use walk_steps::{blocks_for, chain_sum};
use write_lists::{put_chain, put_write};

// Plans the resize on copies of the tables and of the slots; anode `owner` owns the entry's block.
fn plan_resized(
    image: &[u8],
    blocks: &[u16],
    owner: AnodeNo,
    e: EntryAt,
    size: u64,
    slots: &mut [u16],
    counts: &mut [u16],
    firsts: &mut [u16],
    nexts: &mut [u16],
) -> Result<(), Refusal>
    requires loaded { Loaded image.now counts.old firsts.old nexts.old × ShowsBlocks image.now blocks.now }
    requires slots_len { (length slots.old ≡ 42) × (slots_from slots.old ≡ slot_of image.now) × (e.size ≢ size) }
    requires reached_entry { ReachedEntry image.now (entered image.now e) × (owner_of (anodes_of image.now) (e.start / 512) ≡ owner.0) }
    ensures { EndsIn result (table_from counts.new firsts.new nexts.new slots.new) (safe_steps image.now (resize_change image.now (table_of image.now) (entered image.now e) size)) }
{
    let head = e.anode;
    let moved = entry_block(e);
    plan_resize(
        slots,
        last_reserved(image),
        disk_size(image) as u16,
        blocks,
        Old { head, moved },
        blocks_for(size),
        head,
        owner,
        counts,
        firsts,
        nexts,
    )
}

// Puts the bytes of a file's blocks as they are at the new size: cut off, or with zeros behind the old size.
fn stage_resized(
    image: &[u8],
    counts: &[u16],
    firsts: &[u16],
    nexts: &[u16],
    e: EntryAt,
    size: u32,
    stage: &mut [u8],
)
    requires anode_len { length (bytes_of image.now (anodes_from counts.now firsts.now nexts.now) e.anode.0) ≡ blocks_for e.size * 512 }
    requires stage_len { length stage.old ≡ blocks_for size * 512 }
    ensures { stage.new ≡ resized_bytes (bytes_of image.now (anodes_from counts.now firsts.now nexts.now) e.anode.0) e.size size }
{
    if size <= e.size {
        copy_out(image, counts, firsts, nexts, e.anode, 0, stage);
        return;
    }
    let kept = e.size as usize;
    copy_out(
        image,
        counts,
        firsts,
        nexts,
        e.anode,
        0,
        &mut stage[0..kept],
    );
    let len = stage.len();
    clear(stage, kept, len - kept);
}

// Stores a planned resize: the anode table, the file's bytes in its new blocks, and the directory block with the new size in its new place.
fn store_resized(
    image: &mut [u8],
    counts: &[u16],
    firsts: &[u16],
    nexts: &[u16],
    new_counts: &[u16],
    new_firsts: &[u16],
    new_nexts: &[u16],
    slots: &[u16],
    place: BlockNo,
    e: EntryAt,
    size: u32,
    bytes: &[u8],
)
    requires loaded { Loaded image.old counts.now firsts.now nexts.now × ReachedEntry image.old (entered image.old e) × (is_dir e.kind ≡ false) × (e.size ≢ size) }
    requires resize_plan { ResizePlan image.old (entered image.old e) size (table_from new_counts.now new_firsts.now new_nexts.now slots.now) place.0 }
    requires bytes_value { bytes.now ≡ resized_bytes (bytes_of image.old (anodes_from counts.now firsts.now nexts.now) e.anode.0) e.size size }
    ensures { image.new ≡ new_image image.old (resize_change image.old (table_of image.old) (entered image.old e) size) (table_from new_counts.now new_firsts.now new_nexts.now slots.now) (new_order (table_from new_counts.now new_firsts.now new_nexts.now slots.now) e.anode.0 place.0) }
{
    store_table(
        image, counts, firsts, nexts, new_counts, new_firsts, new_nexts, slots,
    );
    store_file(image, new_counts, new_firsts, new_nexts, e.anode, bytes);
    copy_block(image, entry_block(e), place);
    put_size(image, (place.0 as usize) * 512 + e.start % 512, size);
}

// Puts the list of a resize: the blocks of the chain that `head` heads, the directory block's new place, the anode blocks and the root.
fn list_resized(
    image: &[u8],
    counts: &[u16],
    firsts: &[u16],
    nexts: &[u16],
    slots: &[u16],
    head: AnodeNo,
    place: BlockNo,
    out: &mut [u8],
)
    requires inside { Inside image.now (blocks_of (anodes_from counts.now firsts.now nexts.now) head.0) × ((a : ℕ) → 0 < get_or counts.now a 0 → get_or firsts.now a 0 + get_or counts.now a 0 ≤ 65535) }
    requires place_in_bounds { (place.0 * 512 + 512 ≤ length image.now) × ((k : ℕ) → get_or slots.now k 0 * 512 + 512 ≤ length image.now) × (1536 ≤ length image.now) }
    requires slots_in_bounds { (length (blocks_of (anodes_from counts.now firsts.now nexts.now) head.0) + length (slot_blocks (slots_from slots.now) 42) + 2) * 514 ≤ length out.old }
    ensures { out.new ≡ with_writes out.old 0 image.now (new_order (table_from counts.now firsts.now nexts.now slots.now) head.0 place.0 ++ (2 ∷ [])) }
{
    let behind = put_chain(image, counts, firsts, nexts, head, out, 0);
    let at = put_write(image, place, out, behind);
    put_end(image, slots, out, at);
}

// Stores a planned resize and lists its writes; 32 if the buffer is too short for them.
fn finish_resize(
    image: &mut [u8],
    counts: &[u16],
    firsts: &[u16],
    nexts: &[u16],
    new_counts: &[u16],
    new_firsts: &[u16],
    new_nexts: &[u16],
    slots: &[u16],
    place: BlockNo,
    e: EntryAt,
    size: u32,
    out: &mut [u8],
) -> Result<u32, Refusal>
    requires loaded { Loaded image.old counts.now firsts.now nexts.now × ReachedEntry image.old (entered image.old e) × (is_dir e.kind ≡ false) × (e.size ≢ size) }
    requires size_bound { new_blocks image.old (resize_change image.old (table_of image.old) (entered image.old e) size) ≤ free_blocks (anodes_of image.old) }
    requires resize_plan { ResizePlan image.old (entered image.old e) size (table_from new_counts.now new_firsts.now new_nexts.now slots.now) place.0 }
    ensures { SafeLeaves image.old out.old (resize_change image.old (table_of image.old) (entered image.old e) size) result image.new out.new }
{
    let want = blocks_for(size as u64);
    let count = want + used_slots(slots) + 2;
    if (out.len() as u64) < count * 514 {
        return Err(Refusal::ShortWriteList);
    }
    let len = (want as usize) * 512;
    stage_resized(image, counts, firsts, nexts, e, size, &mut out[0..len]);
    store_resized(
        image,
        counts,
        firsts,
        nexts,
        new_counts,
        new_firsts,
        new_nexts,
        slots,
        place,
        e,
        size,
        &out[0..len],
    );
    list_resized(
        image, new_counts, new_firsts, new_nexts, slots, e.anode, place, out,
    );
    Ok(count as u32)
}

// Gives a file of the directory that `home` heads another size, and lists the writes in `out`; 27, 28 and 32 leave everything as it was. `blocks`: the image's block table.
pub fn safe_resize_entry(
    image: &mut [u8],
    blocks: &[u16],
    counts: &[u16],
    firsts: &[u16],
    nexts: &[u16],
    home: AnodeNo,
    e: EntryAt,
    size: u64,
    out: &mut [u8],
) -> Result<u32, Refusal>
    requires loaded { Loaded image.old counts.now firsts.now nexts.now × ShowsBlocks image.old blocks.now }
    requires home_value { (no_directory image.old (anodes_of image.old) home.0 ≡ false) × Member (entered image.old e) (entries_of image.old (anodes_of image.old) home.0) }
    requires kind_value { (is_dir e.kind ≡ false) × (e.size ≢ size) }
    ensures { SafeLeaves image.old out.old (resize_change image.old (table_of image.old) (entered image.old e) size) result image.new out.new }
{
    let mut slots = slots_of(image);
    let need = blocks_for(size) + used_slots(&slots) + 1;
    if (chain_sum(counts, nexts, AnodeNo(1)) as u64) < need {
        return Err(Refusal::NoFreeBlock);
    }
    let owner = anode_with(firsts, nexts, home, entry_block(e));
    let mut new_counts = copied(counts);
    let mut new_firsts = copied(firsts);
    let mut new_nexts = copied(nexts);
    plan_resized(
        image,
        blocks,
        owner,
        e,
        size,
        &mut slots,
        &mut new_counts,
        &mut new_firsts,
        &mut new_nexts,
    )?;
    let place = BlockNo(entry(&new_firsts, owner.0 as usize));
    finish_resize(
        image,
        counts,
        firsts,
        nexts,
        &new_counts,
        &new_firsts,
        &new_nexts,
        &slots,
        place,
        e,
        size as u32,
        out,
    )
}
