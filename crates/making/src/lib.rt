// Makes an entry in a directory: a fresh head, a block of its own for a directory, a block for the parent where it has no room, then the entry.
#![tactic(auto)]

ghost use Rattle.std.specs.Prelude.{true, false, List, [], ◌∷◌, ◌≡◌, ℕ, ◌≤◌, length};
ghost use Rattle.disk.specs.Refusals.{answer_of};
ghost use Rattle.disk.specs.Root.{slot_of};
ghost use Rattle.directory.specs.Entries.{good_name, good_comment, is_dir, entry_length};
ghost use Rattle.rules.specs.Anodes.{limit, anodes_of};
ghost use Rattle.rules.specs.Chains.{blocks_of};
ghost use Rattle.rules.specs.Walk.{reached_dirs};
ghost use Rattle.rules.specs.Accepted.{disk_size, last_reserved};
ghost use Rattle.rules.specs.Lookup.{no_directory};
ghost use Rattle.rules.specs.Plans.{table_of, Growth};
ghost use Rattle.rules.specs.Format.{new_directory_block};
ghost use Rattle.rules.specs.Changes.{left, with_blocks, first_room, needed_block, parent_of, entry_start, new_entry, made_image, room_for, made};
ghost use Rattle.laws.specs.Moves.{Grows};
ghost use Rattle.laws.specs.OwnerTable.{set_all};
ghost use Rattle.anodes.specs.Loaded.{slots_from, table_from, AnodeTables, Loaded};
ghost use Rattle.change_tables.specs.Leaves.{Leaves};
ghost use Rattle.edits.specs.Entries.{room_of};
ghost use Rattle.placing.specs.States.{Ready};
ghost use Rattle.growing.specs.Grown.{growth_if};
ghost use Rattle.making.specs.Steps.{some_block, needed_plan, Begun, Plans, PlanOf};

use anode_blocks::{show_slots, store_slots};
use chains::show_heads;
use directory::{Kind, entry_len};
use disk::{AnodeNo, BlockNo, Refusal};
use edits::{first_room, put_header, put_new_entry, store_anodes};
use giving::copied;
use growing::spare_anode;
use searches::slots_of;
use tables::set_entry;
use taking::take_block;

// A planned make: the fresh head, the entry's place, and the blocks that it takes, 0 for none: the new directory's own and its parent's.
#[derive(Clone, Copy)]
pub struct MakePlan {
    pub fresh: AnodeNo,
    pub start: usize,
    pub own: BlockNo,
    pub parents: BlockNo,
}

// Takes a block for the directory that `head` heads, where it needs one; block 0 where it does not. `growing`: whether slots may grow for it.
fn take_needed(
    growing: bool,
    slots: &mut [u16],
    needed: bool,
    head: AnodeNo,
    counts: &mut [u16],
    firsts: &mut [u16],
    nexts: &mut [u16],
) -> Result<BlockNo, Refusal>
    requires anode_tables { AnodeTables counts.old firsts.old nexts.old × (length slots.old ≡ 42) }
    requires by_index { (last : ℕ) × Ready last (table_from counts.old firsts.old nexts.old slots.old) head.0 }
    ensures { needed_plan result (table_from counts.new firsts.new nexts.new slots.new) ≡ needed_block (growth_if growing) needed head.0 (table_from counts.old firsts.old nexts.old slots.old) }
{
    if needed {
        return take_block(growing, slots, true, head, counts, firsts, nexts);
    }
    Ok(BlockNo(0))
}

// Where the entry goes: the room that was found, else the first place of the parent's new block.
fn start_for(room: Option<usize>, parents: BlockNo) -> usize
    ensures { result ≡ entry_start (room_of room) (parents.0 ∷ []) }
{
    room.unwrap_or((parents.0 as usize) * 512 + 16)
}

// Takes the blocks of a make: one of its own for a directory that `fresh` heads, then one for its parent, where that has no room. `growing`: whether slots may grow for them.
fn take_blocks(
    growing: bool,
    slots: &mut [u16],
    kind: Kind,
    room: Option<usize>,
    fresh: AnodeNo,
    head: AnodeNo,
    counts: &mut [u16],
    firsts: &mut [u16],
    nexts: &mut [u16],
) -> Result<MakePlan, Refusal>
    requires anode_tables { AnodeTables counts.old firsts.old nexts.old × (length slots.old ≡ 42) }
    requires by_index { (img : List ℕ) × Begun img (growth_if growing) head.0 fresh.0 (table_from counts.old firsts.old nexts.old slots.old) }
    ensures { (img : List ℕ) (len : ℕ) → Begun img (growth_if growing) head.0 fresh.0 (table_from counts.old firsts.old nexts.old slots.old) → room_of room ≡ first_room img len (blocks_of (anodes_of img) head.0) → PlanOf result img (growth_if growing) (is_dir kind) len head.0 (table_from counts.new firsts.new nexts.new slots.new) }
{
    let own = take_needed(
        growing,
        slots,
        kind.is_directory(),
        fresh,
        counts,
        firsts,
        nexts,
    )?;
    let full = room.is_none();
    let parents = take_needed(growing, slots, full, head, counts, firsts, nexts)?;
    let start = start_for(room, parents);
    Ok(MakePlan {
        fresh,
        start,
        own,
        parents,
    })
}

// Plans a make of an entry of `len` bytes on the tables: the room for it, the lowest free anode as its head, then its blocks. `growing`: whether slots may grow for it.
pub fn plan_make(
    growing: bool,
    image: &[u8],
    slots: &mut [u16],
    kind: Kind,
    len: usize,
    head: AnodeNo,
    counts: &mut [u16],
    firsts: &mut [u16],
    nexts: &mut [u16],
) -> Result<MakePlan, Refusal>
    requires loaded { Loaded image.now counts.old firsts.old nexts.old × (no_directory image.now (anodes_of image.now) head.0 ≡ false) }
    requires slots_value { (slots_from slots.old ≡ slot_of image.now) × (length slots.old ≡ 42) }
    ensures { PlanOf result image.now (growth_if growing) (is_dir kind) len head.0 (table_from counts.new firsts.new nexts.new slots.new) }
{
    let room = first_room(image, firsts, nexts, head, len);
    let Some(fresh) = spare_anode(growing, slots, counts, firsts, nexts) else {
        return Err(Refusal::NoFreeAnode);
    };
    set_entry(counts, fresh.0 as usize, 0);
    set_entry(firsts, fresh.0 as usize, 65535);
    take_blocks(
        growing, slots, kind, room, fresh, head, counts, firsts, nexts,
    )
}

// Makes block `b` a directory's new block, unless it is 0.
pub fn header_new(image: &mut [u8], b: BlockNo, owner: AnodeNo, parent: AnodeNo)
    ensures { image.new ≡ with_blocks image.old (some_block b.0) (new_directory_block owner.0 parent.0) }
{
    if b.0 == 0 {
        return;
    }
    put_header(image, b, owner, parent);
}

// Notes the owner of block `b` in the block table, unless it is 0.
fn note_owner(blocks: &mut [u16], b: BlockNo, owner: AnodeNo)
    ensures { blocks.new ≡ set_all blocks.old (some_block b.0) owner.0 }
{
    if b.0 == 0 {
        return;
    }
    set_entry(blocks, b.0 as usize, owner.0);
}

// Writes a planned make into the image, and shows it in the two tables.
fn commit_make(
    image: &mut [u8],
    blocks: &mut [u16],
    anodes: &mut [u16],
    counts: &[u16],
    firsts: &[u16],
    nexts: &[u16],
    new_counts: &[u16],
    new_firsts: &[u16],
    new_nexts: &[u16],
    slots: &[u16],
    plan: MakePlan,
    head: AnodeNo,
    parent: AnodeNo,
    kind: Kind,
    name: &[u8],
    comment: &[u8],
    day: u16,
    minute: u16,
    tick: u16,
    protection: u8,
)
    requires loaded { Loaded image.old counts.now firsts.now nexts.now × (3444 ≤ length anodes.old) × (length new_nexts.now ≡ 3444) }
    requires head_value { (no_directory image.old (anodes_of image.old) head.0 ≡ false) × (parent.0 ≡ parent_of (reached_dirs image.old (anodes_of image.old)) head.0) }
    requires name_value { (good_name name.now ≡ true) × (good_comment comment.now ≡ true) }
    requires grows { (growth : Growth) × Grows limit (disk_size image.old) (last_reserved image.old) growth × Plans image.old growth (is_dir kind) (entry_length (length name.now) (length comment.now)) head.0 plan (table_from new_counts.now new_firsts.now new_nexts.now slots.now) }
    ensures { Leaves 0 image.old blocks.old anodes.old image.new blocks.new anodes.new (left 0 (made_image image.old (anodes_of image.old) head.0 (new_entry (is_dir kind) name.now comment.now day minute tick protection) plan.fresh.0 (room_for image.old (anodes_of image.old) head.0 (new_entry (is_dir kind) name.now comment.now day minute tick protection)) (some_block plan.own.0) (table_from new_counts.now new_firsts.now new_nexts.now slots.now) (some_block plan.parents.0))) }
{
    note_owner(blocks, plan.own, plan.fresh);
    note_owner(blocks, plan.parents, head);
    show_slots(image, slots, blocks);
    store_slots(image, slots);
    store_anodes(
        image, counts, firsts, nexts, new_counts, new_firsts, new_nexts,
    );
    header_new(image, plan.own, plan.fresh, head);
    header_new(image, plan.parents, head, parent);
    put_new_entry(
        image, plan.start, kind, plan.fresh, name, comment, day, minute, tick, protection,
    );
    show_heads(new_firsts, new_nexts, anodes);
}

// Makes an entry in the directory that `head` heads, whose parent's head is `parent`; 27 and 28 leave everything as it was. `growing`: whether slots may grow for it.
pub fn make_entry(
    growing: bool,
    image: &mut [u8],
    blocks: &mut [u16],
    anodes: &mut [u16],
    counts: &[u16],
    firsts: &[u16],
    nexts: &[u16],
    head: AnodeNo,
    parent: AnodeNo,
    kind: Kind,
    name: &[u8],
    comment: &[u8],
    day: u16,
    minute: u16,
    tick: u16,
    protection: u8,
) -> Result<(), Refusal>
    requires loaded { Loaded image.old counts.now firsts.now nexts.now × (3444 ≤ length anodes.old) }
    requires head_value { (no_directory image.old (anodes_of image.old) head.0 ≡ false) × (parent.0 ≡ parent_of (reached_dirs image.old (anodes_of image.old)) head.0) }
    requires name_value { (good_name name.now ≡ true) × (good_comment comment.now ≡ true) }
    ensures { Leaves (answer_of result) image.old blocks.old anodes.old image.new blocks.new anodes.new (made (growth_if growing) image.old (table_of image.old) head.0 (new_entry (is_dir kind) name.now comment.now day minute tick protection)) }
{
    let mut new_counts = copied(counts);
    let mut new_firsts = copied(firsts);
    let mut new_nexts = copied(nexts);
    let mut slots = slots_of(image);
    let plan = plan_make(
        growing,
        image,
        &mut slots,
        kind,
        entry_len(name.len() as u8, comment.len() as u8),
        head,
        &mut new_counts,
        &mut new_firsts,
        &mut new_nexts,
    )?;
    commit_make(
        image,
        blocks,
        anodes,
        counts,
        firsts,
        nexts,
        &new_counts,
        &new_firsts,
        &new_nexts,
        &slots,
        plan,
        head,
        parent,
        kind,
        name,
        comment,
        day,
        minute,
        tick,
        protection,
    );
    Ok(())
}
