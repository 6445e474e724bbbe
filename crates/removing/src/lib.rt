// Removes an entry of an accepted image: its blocks go back to the free list, its anodes become free, and its directory block closes the gap.
#![tactic(auto)]

ghost use Rattle.std.specs.Prelude.{List, ◌≡◌, ℕ, ◌≤◌, length};
ghost use Rattle.disk.specs.Refusals.{answer_of};
ghost use Rattle.rules.specs.Plans.{table_of};
ghost use Rattle.rules.specs.Changes.{left, removed_image, removed};
ghost use Rattle.change_laws.specs.RemoveStores.{EntryPlan};
ghost use Rattle.anodes.specs.Loaded.{table_from, Loaded};
ghost use Rattle.growing.specs.Grown.{growth_if};
ghost use Rattle.lookup.specs.Answers.{entered};
ghost use Rattle.change_tables.specs.Leaves.{Leaves, ReachedEntry};

use anode_blocks::{show_slots, store_slots};
use chains::show_heads;
use disk::{AnodeNo, Refusal};
use edits::{set_behind, store_anodes, take_out};
use giving::{copied, give_all};
use lookup::EntryAt;
use searches::{last_reserved, slots_of};
use walk_steps::chain_sum;

// Writes a removal whose blocks are given back into the image, and shows it in the two tables.
fn commit_remove(
    image: &mut [u8],
    blocks: &mut [u16],
    anodes: &mut [u16],
    counts: &[u16],
    firsts: &[u16],
    nexts: &[u16],
    new_counts: &[u16],
    new_firsts: &[u16],
    new_nexts: &[u16],
    slots: &[u16],
    e: EntryAt,
)
    requires loaded { Loaded image.old counts.now firsts.now nexts.now × ReachedEntry image.old (entered image.old e) }
    requires in_bounds { (3444 ≤ length anodes.old) × (length new_nexts.now ≡ 3444) }
    requires by_index { (ys : List ℕ) × EntryPlan image.old (entered image.old e) (table_from new_counts.now new_firsts.now new_nexts.now slots.now) ys }
    ensures { Leaves 0 image.old blocks.old anodes.old image.new blocks.new anodes.new (left 0 (removed_image image.old (entered image.old e) (table_from new_counts.now new_firsts.now new_nexts.now slots.now))) }
{
    set_behind(blocks, counts, firsts, nexts, e.anode, 0, AnodeNo(1));
    show_slots(image, slots, blocks);
    store_slots(image, slots);
    store_anodes(
        image, counts, firsts, nexts, new_counts, new_firsts, new_nexts,
    );
    take_out(image, e.start);
    show_heads(new_firsts, new_nexts, anodes);
}

// Removes an entry with its chain; 28 leaves everything as it was. `growing`: whether slots may grow for it.
pub fn remove_entry(
    growing: bool,
    image: &mut [u8],
    blocks: &mut [u16],
    anodes: &mut [u16],
    counts: &[u16],
    firsts: &[u16],
    nexts: &[u16],
    e: EntryAt,
) -> Result<(), Refusal>
    requires loaded { Loaded image.old counts.now firsts.now nexts.now × ReachedEntry image.old (entered image.old e) }
    requires in_bounds { 3444 ≤ length anodes.old }
    ensures { Leaves (answer_of result) image.old blocks.old anodes.old image.new blocks.new anodes.new (removed (growth_if growing) image.old (table_of image.old) (entered image.old e)) }
{
    let have = chain_sum(counts, nexts, e.anode) as u64;
    let mut new_counts = copied(counts);
    let mut new_firsts = copied(firsts);
    let mut new_nexts = copied(nexts);
    let mut slots = slots_of(image);
    give_all(
        growing,
        &mut slots,
        last_reserved(image),
        have,
        e.anode,
        &mut new_counts,
        &mut new_firsts,
        &mut new_nexts,
    )?;
    commit_remove(
        image,
        blocks,
        anodes,
        counts,
        firsts,
        nexts,
        &new_counts,
        &new_firsts,
        &new_nexts,
        &slots,
        e,
    );
    Ok(())
}
