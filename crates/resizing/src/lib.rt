// Resizes a file of an accepted image: takes or gives back blocks, and stores the new size.
#![tactic(auto)]

ghost use Rattle.std.specs.Prelude.{false, List, ◌≡◌, ℕ, ◌≤◌, length};
ghost use Rattle.disk.specs.Refusals.{answer_of};
ghost use Rattle.directory.specs.Entries.{is_dir};
ghost use Rattle.rules.specs.Anodes.{anodes_of};
ghost use Rattle.rules.specs.Chains.{block_count};
ghost use Rattle.rules.specs.Walk.{blocks_for};
ghost use Rattle.rules.specs.Plans.{table_of};
ghost use Rattle.rules.specs.Changes.{left, resized_image, resize_plan, resized};
ghost use Rattle.change_laws.specs.ResizeStores.{FilePlan};
ghost use Rattle.anodes.specs.Loaded.{anodes_from, table_from, AnodeTables, Loaded};
ghost use Rattle.placing.specs.Steps.{EndsIn};
ghost use Rattle.placing.specs.States.{Ready};
ghost use Rattle.growing.specs.Grown.{growth_if};
ghost use Rattle.lookup.specs.Answers.{entered};
ghost use Rattle.change_tables.specs.Leaves.{Leaves, ReachedEntry};

use anode_blocks::{show_slots, store_slots};
use chains::show_heads;
use disk::{AnodeNo, BlockNo, Refusal};
use edits::{put_size, set_behind, store_anodes, zero_behind, zero_tail};
use giving::{copied, give_blocks};
use lookup::EntryAt;
use searches::{last_reserved, slots_of};
use taking::take_many;
use walk_steps::{blocks_for, chain_sum};

// Takes blocks one at a time, or gives them back run by run, until the chain of `head`, which has `have` blocks, has `want`; `last`: last reserved, `growing`: whether slots may grow for it.
fn plan_resize(
    growing: bool,
    slots: &mut [u16],
    last: BlockNo,
    have: u64,
    want: u64,
    head: AnodeNo,
    counts: &mut [u16],
    firsts: &mut [u16],
    nexts: &mut [u16],
) -> Result<(), Refusal>
    requires anode_tables { AnodeTables counts.old firsts.old nexts.old × (length slots.old ≡ 42) }
    requires ready { Ready last.0 (table_from counts.old firsts.old nexts.old slots.old) head.0 }
    requires have_value { have ≡ block_count (anodes_from counts.old firsts.old nexts.old) head.0 }
    ensures { EndsIn result (table_from counts.new firsts.new nexts.new slots.new) (resize_plan (growth_if growing) last.0 (table_from counts.old firsts.old nexts.old slots.old) head.0 want) }
{
    if have <= want {
        return take_many(growing, slots, want - have, head, counts, firsts, nexts);
    }
    give_blocks(
        growing,
        slots,
        last,
        have - want,
        head,
        counts,
        firsts,
        nexts,
    )
}

// Writes a planned resize into the image, and shows it in the two tables.
fn commit_resize(
    image: &mut [u8],
    blocks: &mut [u16],
    anodes: &mut [u16],
    counts: &[u16],
    firsts: &[u16],
    nexts: &[u16],
    new_counts: &[u16],
    new_firsts: &[u16],
    new_nexts: &[u16],
    slots: &[u16],
    have: u64,
    want: u64,
    e: EntryAt,
    size: u64,
)
    requires loaded { Loaded image.old counts.now firsts.now nexts.now × ReachedEntry image.old (entered image.old e) }
    requires in_bounds { (3444 ≤ length anodes.old) × (length new_nexts.now ≡ 3444) }
    requires by_index { (ys : List ℕ) × FilePlan image.old (entered image.old e) size (table_from new_counts.now new_firsts.now new_nexts.now slots.now) ys }
    requires have_value { (have ≡ block_count (anodes_of image.old) e.anode.0) × (want ≡ blocks_for size) }
    ensures { (ys : List ℕ) → FilePlan image.old (entered image.old e) size (table_from new_counts.now new_firsts.now new_nexts.now slots.now) ys → Leaves 0 image.old blocks.old anodes.old image.new blocks.new anodes.new (left 0 (resized_image image.old (anodes_of image.old) (entered image.old e) size (table_from new_counts.now new_firsts.now new_nexts.now slots.now) ys)) }
{
    let head = e.anode;
    if have <= want {
        set_behind(blocks, new_counts, new_firsts, new_nexts, head, have, head);
    } else {
        set_behind(blocks, counts, firsts, nexts, head, want, AnodeNo(1));
    }
    show_slots(image, slots, blocks);
    store_slots(image, slots);
    store_anodes(
        image, counts, firsts, nexts, new_counts, new_firsts, new_nexts,
    );
    if (e.size as u64) < size {
        zero_behind(image, new_counts, new_firsts, new_nexts, head, have);
    }
    zero_tail(image, counts, firsts, nexts, head, e.size, size);
    put_size(image, e.start, size as u32);
    show_heads(new_firsts, new_nexts, anodes);
}

// Resizes the file of an entry; 27 and 28 leave everything as it was. `growing`: whether slots may grow for it.
pub fn resize_entry(
    growing: bool,
    image: &mut [u8],
    blocks: &mut [u16],
    anodes: &mut [u16],
    counts: &[u16],
    firsts: &[u16],
    nexts: &[u16],
    e: EntryAt,
    size: u64,
) -> Result<(), Refusal>
    requires loaded { Loaded image.old counts.now firsts.now nexts.now × ReachedEntry image.old (entered image.old e) }
    requires kind_value { (is_dir e.kind ≡ false) × (3444 ≤ length anodes.old) }
    ensures { Leaves (answer_of result) image.old blocks.old anodes.old image.new blocks.new anodes.new (resized (growth_if growing) image.old (table_of image.old) (entered image.old e) size) }
{
    let have = chain_sum(counts, nexts, e.anode) as u64;
    let want = blocks_for(size);
    let mut new_counts = copied(counts);
    let mut new_firsts = copied(firsts);
    let mut new_nexts = copied(nexts);
    let mut slots = slots_of(image);
    let planned = plan_resize(
        growing,
        &mut slots,
        last_reserved(image),
        have,
        want,
        e.anode,
        &mut new_counts,
        &mut new_firsts,
        &mut new_nexts,
    );
    let Ok(()) = planned else {
        return planned;
    };
    commit_resize(
        image,
        blocks,
        anodes,
        counts,
        firsts,
        nexts,
        &new_counts,
        &new_firsts,
        &new_nexts,
        &slots,
        have,
        want,
        e,
        size,
    );
    Ok(())
}
