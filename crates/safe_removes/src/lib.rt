// Removes an entry of an accepted image safely: its directory block and the anode blocks take new places, and the writes of the new blocks, the root last, stand in a lent buffer.
#![tactic(auto)]

ghost use Rattle.std.specs.Prelude.{false, ◌∷◌, ◌≡◌, ◌/◌, ◌≤◌, length};
ghost use Rattle.disk.specs.Root.{slot_of};
ghost use Rattle.rules.specs.Anodes.{anodes_of};
ghost use Rattle.rules.specs.Lookup.{no_directory, entries_of};
ghost use Rattle.rules.specs.Totals.{free_blocks};
ghost use Rattle.rules.specs.Plans.{table_of, planned};
ghost use Rattle.laws.specs.Each.{Member};
ghost use Rattle.safe_rules.specs.SafePlans.{owner_of, slot_blocks, remove_change, new_blocks, safe_steps};
ghost use Rattle.safe_rules.specs.SafeWrites.{new_image};
ghost use Rattle.anodes.specs.Loaded.{slots_from, table_from, Loaded};
ghost use Rattle.lookup.specs.Answers.{entered};
ghost use Rattle.placing.specs.Steps.{EndsIn};
ghost use Rattle.change_tables.specs.Leaves.{ReachedEntry};
ghost use Rattle.safe_plans.specs.Planned.{ShowsBlocks};
ghost use Rattle.safe_stores.specs.Leaves.{SafeLeaves};

use block_copies::copy_block;
use disk::{AnodeNo, BlockNo, Refusal};
use edits::take_out;
use giving::copied;
use giving_back::Old;
use header::disk_size;
use lookup::EntryAt;
use safe_plans::{anode_with, plan_remove};
use safe_steps::used_slots;
use safe_stores::{put_end, store_table};
use searches::{last_reserved, slots_of};
use tables::entry;
use walk_steps::chain_sum;
use write_lists::put_write;

// The block that has an entry.
pub fn entry_block(e: EntryAt) -> BlockNo
    requires { e.start / 512 ≤ 65535 }
    ensures { result.0 ≡ e.start / 512 }
{
    BlockNo((e.start / 512) as u16)
}

// Plans the removal on copies of the tables and of the slots; anode `owner` owns the entry's block.
fn plan_removal(
    image: &[u8],
    blocks: &[u16],
    owner: AnodeNo,
    e: EntryAt,
    slots: &mut [u16],
    counts: &mut [u16],
    firsts: &mut [u16],
    nexts: &mut [u16],
) -> Result<(), Refusal>
    requires loaded { Loaded image.now counts.old firsts.old nexts.old × ShowsBlocks image.now blocks.now }
    requires slots_len { (length slots.old ≡ 42) × (slots_from slots.old ≡ slot_of image.now) }
    requires reached_entry { ReachedEntry image.now (entered image.now e) × (owner_of (anodes_of image.now) (e.start / 512) ≡ owner.0) }
    ensures { EndsIn result (table_from counts.new firsts.new nexts.new slots.new) (safe_steps image.now (remove_change image.now (table_of image.now) (entered image.now e))) }
{
    let head = e.anode;
    let moved = entry_block(e);
    plan_remove(
        slots,
        last_reserved(image),
        disk_size(image) as u16,
        blocks,
        Old { head, moved },
        head,
        owner,
        counts,
        firsts,
        nexts,
    )
}

// Stores a planned removal: the anode table, and the directory block without the entry in its new place.
fn store_removal(
    image: &mut [u8],
    counts: &[u16],
    firsts: &[u16],
    nexts: &[u16],
    new_counts: &[u16],
    new_firsts: &[u16],
    new_nexts: &[u16],
    slots: &[u16],
    place: BlockNo,
    e: EntryAt,
)
    requires loaded { Loaded image.old counts.now firsts.now nexts.now × ReachedEntry image.old (entered image.old e) }
    requires e_value { safe_steps image.old (remove_change image.old (table_of image.old) (entered image.old e)) ≡ planned (table_from new_counts.now new_firsts.now new_nexts.now slots.now) (place.0 ∷ slot_blocks (slots_from slots.now) 42) }
    ensures { image.new ≡ new_image image.old (remove_change image.old (table_of image.old) (entered image.old e)) (table_from new_counts.now new_firsts.now new_nexts.now slots.now) (place.0 ∷ slot_blocks (slots_from slots.now) 42) }
{
    store_table(
        image, counts, firsts, nexts, new_counts, new_firsts, new_nexts, slots,
    );
    copy_block(image, entry_block(e), place);
    take_out(image, (place.0 as usize) * 512 + e.start % 512);
}

// Stores a planned removal and lists its writes; 32 if the buffer is too short for them.
fn finish_removal(
    image: &mut [u8],
    counts: &[u16],
    firsts: &[u16],
    nexts: &[u16],
    new_counts: &[u16],
    new_firsts: &[u16],
    new_nexts: &[u16],
    slots: &[u16],
    place: BlockNo,
    e: EntryAt,
    out: &mut [u8],
) -> Result<u32, Refusal>
    requires loaded { Loaded image.old counts.now firsts.now nexts.now × ReachedEntry image.old (entered image.old e) }
    requires e_bound { new_blocks image.old (remove_change image.old (table_of image.old) (entered image.old e)) ≤ free_blocks (anodes_of image.old) }
    requires e_value { safe_steps image.old (remove_change image.old (table_of image.old) (entered image.old e)) ≡ planned (table_from new_counts.now new_firsts.now new_nexts.now slots.now) (place.0 ∷ slot_blocks (slots_from slots.now) 42) }
    ensures { SafeLeaves image.old out.old (remove_change image.old (table_of image.old) (entered image.old e)) result image.new out.new }
{
    let count = used_slots(slots) + 2;
    if (out.len() as u64) < count * 514 {
        return Err(Refusal::ShortWriteList);
    }
    store_removal(
        image, counts, firsts, nexts, new_counts, new_firsts, new_nexts, slots, place, e,
    );
    let at = put_write(image, place, out, 0);
    put_end(image, slots, out, at);
    Ok(count as u32)
}

// Removes an entry of the directory that `home` heads, and lists the writes in `out`; 27, 28 and 32 leave everything as it was. `blocks`: the image's block table.
pub fn safe_remove_entry(
    image: &mut [u8],
    blocks: &[u16],
    counts: &[u16],
    firsts: &[u16],
    nexts: &[u16],
    home: AnodeNo,
    e: EntryAt,
    out: &mut [u8],
) -> Result<u32, Refusal>
    requires loaded { Loaded image.old counts.now firsts.now nexts.now × ShowsBlocks image.old blocks.now }
    requires home_value { (no_directory image.old (anodes_of image.old) home.0 ≡ false) × Member (entered image.old e) (entries_of image.old (anodes_of image.old) home.0) }
    ensures { SafeLeaves image.old out.old (remove_change image.old (table_of image.old) (entered image.old e)) result image.new out.new }
{
    let mut slots = slots_of(image);
    let need = used_slots(&slots) + 1;
    if (chain_sum(counts, nexts, AnodeNo(1)) as u64) < need {
        return Err(Refusal::NoFreeBlock);
    }
    let owner = anode_with(firsts, nexts, home, entry_block(e));
    let mut new_counts = copied(counts);
    let mut new_firsts = copied(firsts);
    let mut new_nexts = copied(nexts);
    plan_removal(
        image,
        blocks,
        owner,
        e,
        &mut slots,
        &mut new_counts,
        &mut new_firsts,
        &mut new_nexts,
    )?;
    let place = BlockNo(entry(&new_firsts, owner.0 as usize));
    finish_removal(
        image,
        counts,
        firsts,
        nexts,
        &new_counts,
        &new_firsts,
        &new_nexts,
        &slots,
        place,
        e,
        out,
    )
}
