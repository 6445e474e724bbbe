// Writes a file of an accepted image safely: its blocks are new, and the list of writes is in the buffer.
#![tactic(auto)]

ghost use Rattle.std.specs.Prelude.{false, List, [], ◌∷◌, ◌++◌, ◌≡◌, ℕ, ◌+◌, ◌*◌, ◌≤◌, length, take, drop};
ghost use Rattle.endian.specs.Bytes.{stored};
ghost use Rattle.directory.specs.Entries.{is_dir};
ghost use Rattle.rules.specs.Anodes.{anodes_of};
ghost use Rattle.rules.specs.Chains.{block_count};
ghost use Rattle.rules.specs.Lookup.{bytes_of};
ghost use Rattle.rules.specs.Plans.{planned, table_of};
ghost use Rattle.rules.specs.Totals.{free_blocks};
ghost use Rattle.disk.specs.Root.{slot_of};
ghost use Rattle.anodes.specs.Loaded.{anodes_from, slots_from, table_from, Loaded};
ghost use Rattle.lookup.specs.Answers.{entered};
ghost use Rattle.change_tables.specs.Leaves.{ReachedEntry};
ghost use Rattle.placing.specs.Steps.{EndsIn};
ghost use Rattle.safe_rules.specs.SafePlans.{write_change, new_blocks, safe_steps};
ghost use Rattle.safe_plans.specs.Planned.{ShowsBlocks};
ghost use Rattle.safe_stores.specs.Leaves.{SafeLeaves};
ghost use Rattle.safe_files.specs.Committed.{WriteDone, Committed};

use contents::copy_out;
use disk::{AnodeNo, BlockNo, Refusal};
use endian::store;
use giving::copied;
use giving_back::Old;
use header::disk_size;
use lookup::EntryAt;
use safe_plans::plan_file;
use safe_steps::used_slots;
use safe_stores::{put_end, store_file, store_table};
use searches::{last_reserved, slots_of};
use walk_steps::chain_sum;
use write_lists::put_chain;

// Puts the `len` bytes of the blocks of the chain that `head` heads at the front of the buffer, with the new ones from `offset` on.
fn stage_written(
    image: &[u8],
    counts: &[u16],
    firsts: &[u16],
    nexts: &[u16],
    head: AnodeNo,
    len: usize,
    offset: u64,
    bytes: &[u8],
    out: &mut [u8],
)
    requires { (len ≡ length (bytes_of image.now (anodes_from counts.now firsts.now nexts.now) head.0)) × (len ≤ length out.old) }
    ensures { (take len out.new ≡ stored (bytes_of image.now (anodes_from counts.now firsts.now nexts.now) head.0) offset bytes.now) × (drop len out.new ≡ drop len out.old) }
{
    let stage = &mut out[0..len];
    copy_out(image, counts, firsts, nexts, head, 0, stage);
    store(stage, offset as usize, bytes);
}

// Stores a planned write in the image, and puts its list into the buffer.
fn commit_write(
    image: &mut [u8],
    counts: &[u16],
    firsts: &[u16],
    nexts: &[u16],
    new_counts: &[u16],
    new_firsts: &[u16],
    new_nexts: &[u16],
    slots: &[u16],
    e: EntryAt,
    have: u32,
    offset: u64,
    bytes: &[u8],
    out: &mut [u8],
)
    requires loaded { Loaded image.old counts.now firsts.now nexts.now × ReachedEntry image.old (entered image.old e) × (is_dir e.kind ≡ false) × (have ≡ block_count (anodes_of image.old) e.anode.0) }
    requires by_index { (ys : List ℕ) × WriteDone image.old (entered image.old e) offset bytes.now (table_from new_counts.now new_firsts.now new_nexts.now slots.now) ys out.old }
    ensures { (ys : List ℕ) → WriteDone image.old (entered image.old e) offset bytes.now (table_from new_counts.now new_firsts.now new_nexts.now slots.now) ys out.old → Committed image.old (write_change image.old (table_of image.old) (entered image.old e) offset bytes.now) (table_from new_counts.now new_firsts.now new_nexts.now slots.now) ys out.old image.new out.new }
{
    let head = e.anode;
    let len = (have as usize) * 512;
    stage_written(image, counts, firsts, nexts, head, len, offset, bytes, out);
    store_table(
        image, counts, firsts, nexts, new_counts, new_firsts, new_nexts, slots,
    );
    store_file(image, new_counts, new_firsts, new_nexts, head, &out[0..len]);
    let at = put_chain(image, new_counts, new_firsts, new_nexts, head, out, 0);
    put_end(image, slots, out, at);
}

// Plans the write on copies of the tables and of the slots: the file that `e` names takes its `have` blocks anew.
fn plan_write(
    image: &[u8],
    blocks: &[u16],
    e: EntryAt,
    have: u32,
    slots: &mut [u16],
    counts: &mut [u16],
    firsts: &mut [u16],
    nexts: &mut [u16],
) -> Result<(), Refusal>
    requires loaded { Loaded image.now counts.old firsts.old nexts.old × ShowsBlocks image.now blocks.now }
    requires slots_len { (length slots.old ≡ 42) × (slots_from slots.old ≡ slot_of image.now) }
    requires reached_entry { ReachedEntry image.now (entered image.now e) × (have ≡ block_count (anodes_of image.now) e.anode.0) }
    ensures { (offset : ℕ) (bytes : List ℕ) → EndsIn result (table_from counts.new firsts.new nexts.new slots.new) (safe_steps image.now (write_change image.now (table_of image.now) (entered image.now e) offset bytes)) }
{
    let head = e.anode;
    plan_file(
        slots,
        last_reserved(image),
        disk_size(image) as u16,
        blocks,
        Old {
            head,
            moved: BlockNo(65535),
        },
        have as u64,
        head,
        counts,
        firsts,
        nexts,
    )
}

// Stores a planned write and lists its writes; 32 if the buffer is too short for them.
fn finish_write(
    image: &mut [u8],
    counts: &[u16],
    firsts: &[u16],
    nexts: &[u16],
    new_counts: &[u16],
    new_firsts: &[u16],
    new_nexts: &[u16],
    slots: &[u16],
    e: EntryAt,
    have: u32,
    offset: u64,
    bytes: &[u8],
    out: &mut [u8],
) -> Result<u32, Refusal>
    requires loaded { Loaded image.old counts.now firsts.now nexts.now × ReachedEntry image.old (entered image.old e) × (is_dir e.kind ≡ false) × (have ≡ block_count (anodes_of image.old) e.anode.0) }
    requires bytes_bound { new_blocks image.old (write_change image.old (table_of image.old) (entered image.old e) offset bytes.now) ≤ free_blocks (anodes_of image.old) }
    requires by_index { (ys : List ℕ) × (safe_steps image.old (write_change image.old (table_of image.old) (entered image.old e) offset bytes.now) ≡ planned (table_from new_counts.now new_firsts.now new_nexts.now slots.now) ys) }
    ensures { SafeLeaves image.old out.old (write_change image.old (table_of image.old) (entered image.old e) offset bytes.now) result image.new out.new }
{
    let count = have as u64 + used_slots(slots) + 1;
    if (out.len() as u64) < count * 514 {
        return Err(Refusal::ShortWriteList);
    }
    commit_write(
        image, counts, firsts, nexts, new_counts, new_firsts, new_nexts, slots, e, have, offset,
        bytes, out,
    );
    Ok(count as u32)
}

// Replaces bytes of a file from the offset on, safely; 27, 28 and 32 leave everything as it was. `blocks`: the image's block table.
pub fn safe_write_entry(
    image: &mut [u8],
    blocks: &[u16],
    counts: &[u16],
    firsts: &[u16],
    nexts: &[u16],
    e: EntryAt,
    offset: u64,
    bytes: &[u8],
    out: &mut [u8],
) -> Result<u32, Refusal>
    requires loaded { Loaded image.old counts.now firsts.now nexts.now × ShowsBlocks image.old blocks.now }
    requires reached_entry { ReachedEntry image.old (entered image.old e) × (is_dir e.kind ≡ false) }
    ensures { SafeLeaves image.old out.old (write_change image.old (table_of image.old) (entered image.old e) offset bytes.now) result image.new out.new }
{
    let have = chain_sum(counts, nexts, e.anode);
    let mut slots = slots_of(image);
    let need = have as u64 + used_slots(&slots);
    if (chain_sum(counts, nexts, AnodeNo(1)) as u64) < need {
        return Err(Refusal::NoFreeBlock);
    }
    let mut new_counts = copied(counts);
    let mut new_firsts = copied(firsts);
    let mut new_nexts = copied(nexts);
    plan_write(
        image,
        blocks,
        e,
        have,
        &mut slots,
        &mut new_counts,
        &mut new_firsts,
        &mut new_nexts,
    )?;
    finish_write(
        image,
        counts,
        firsts,
        nexts,
        &new_counts,
        &new_firsts,
        &new_nexts,
        &slots,
        e,
        have,
        offset,
        bytes,
        out,
    )
}
