// Makes an entry safely: every block that changes takes a new place, and the writes go to a list, the root last.
#![tactic(auto)]

ghost use Rattle.std.specs.Prelude.{true, false, cond, List, [], ◌∷◌, ◌++◌, ◌≡◌, ℕ, ◌+◌, ◌*◌, ◌/◌, ◌≤◌, ◌<◌, length, get_or};
ghost use Rattle.disk.specs.Root.{slot_of};
ghost use Rattle.disk.specs.Blocks.{with_block};
ghost use Rattle.directory.specs.Entries.{good_name, good_comment, is_dir};
ghost use Rattle.rules.specs.Anodes.{anodes_of};
ghost use Rattle.rules.specs.Walk.{reached_dirs};
ghost use Rattle.rules.specs.Lookup.{no_directory};
ghost use Rattle.rules.specs.Plans.{slotted, planned, table_of};
ghost use Rattle.rules.specs.Changes.{parent_of, new_entry};
ghost use Rattle.anodes.specs.Loaded.{anodes_from, slots_from, table_from, AnodeTables, Loaded};
ghost use Rattle.placing.specs.Steps.{step_plan};
ghost use Rattle.safe_rules.specs.SafePlans.{slot_blocks, make_change, new_blocks, safe_steps};
ghost use Rattle.rules.specs.Totals.{free_blocks};
ghost use Rattle.safe_rules.specs.SafeWrites.{new_image};
ghost use Rattle.safe_plans.specs.Planned.{ShowsBlocks};
ghost use Rattle.write_lists.specs.Puts.{with_writes};
ghost use Rattle.safe_stores.specs.Leaves.{SafeLeaves};
ghost use Rattle.making.specs.Steps.{some_block};
ghost use Rattle.safe_makes.specs.SafePlanned.{entry_plan, room_number, RoomReady, start_bytes, SafelyMade, SafePlanOf};

use block_copies::copy_block;
use directory::{Kind, entry_len};
use disk::{AnodeNo, BlockNo, Refusal};
use edits::{put_header, put_new_entry};
use giving::copied;
use giving_back::Old;
use header::disk_size;
use making::{MakePlan, header_new, plan_make};
use relocating::relocate;
use safe_plans::anode_with;
use safe_steps::{settle, used_slots};
use safe_stores::{put_end, store_table};
use searches::{last_reserved, slots_of};
use walk_steps::chain_sum;
use write_lists::put_write;

// A make that is planned safely: as in place, and the block that gets the entry.
#[derive(Clone, Copy)]
struct SafePlan {
    plan: MakePlan,
    to: BlockNo,
}

// How many blocks a safe make takes: a new directory's own, the one that gets the entry, and one for each anode block.
fn new_count(kind: Kind, slots: &[u16]) -> u64
    ensures { (result ≡ cond (is_dir kind) 1 0 + 1 + length (slot_blocks (slots_from slots.now) 42)) × (result ≤ 44) }
{
    let used = used_slots(slots) + 1;
    if kind.is_directory() {
        return used + 1;
    }
    used
}

// The old block that changes, or 65535 where the parent has a new one.
fn room_block(plan: MakePlan) -> BlockNo
    requires { plan.parents.0 ≡ 0 → plan.start / 512 ≤ 65535 }
    ensures { result.0 ≡ room_number plan.parents.0 (plan.start / 512) }
{
    if plan.parents.0 != 0 {
        return BlockNo(65535);
    }
    BlockNo((plan.start / 512) as u16)
}

// The block that gets the entry: the parent's new one, else a new place for the block that has room.
fn entry_block(
    plan: MakePlan,
    head: AnodeNo,
    counts: &mut [u16],
    firsts: &mut [u16],
    nexts: &mut [u16],
) -> Result<BlockNo, Refusal>
    requires anode_tables { AnodeTables counts.old firsts.old nexts.old × (plan.parents.0 ≡ 0 → plan.start / 512 ≤ 65535) }
    requires by_index { (last : ℕ) × (slots : ℕ → ℕ) × (plan.parents.0 ≡ 0 → RoomReady last (plan.start / 512) head.0 (slotted (anodes_from counts.old firsts.old nexts.old) slots)) }
    ensures { (slots : ℕ → ℕ) → step_plan result 1 (slotted (anodes_from counts.new firsts.new nexts.new) slots) ≡ entry_plan plan.parents.0 (plan.start / 512) (slotted (anodes_from counts.old firsts.old nexts.old) slots) }
{
    let parents = plan.parents;
    if parents.0 != 0 {
        return Ok(parents);
    }
    let owner = anode_with(firsts, nexts, head, room_block(plan));
    relocate(owner, counts, firsts, nexts)
}

// Plans a safe make on the tables: as in place, then the block that gets the entry, then what every safe change ends with.
fn plan_safely(
    image: &[u8],
    blocks: &[u16],
    slots: &mut [u16],
    kind: Kind,
    name: &[u8],
    comment: &[u8],
    head: AnodeNo,
    counts: &mut [u16],
    firsts: &mut [u16],
    nexts: &mut [u16],
) -> Result<SafePlan, Refusal>
    requires loaded { Loaded image.now counts.old firsts.old nexts.old × ShowsBlocks image.now blocks.now × (no_directory image.now (anodes_of image.now) head.0 ≡ false) }
    requires slots_value { (slots_from slots.old ≡ slot_of image.now) × (length slots.old ≡ 42) }
    requires name_value { (good_name name.now ≡ true) × (good_comment comment.now ≡ true) }
    ensures { (day minute tick protection : ℕ) → SafePlanOf result image.now head.0 (new_entry (is_dir kind) name.now comment.now day minute tick protection) (table_from counts.new firsts.new nexts.new slots.new) }
{
    let len = entry_len(name.len() as u8, comment.len() as u8);
    let plan = plan_make(false, image, slots, kind, len, head, counts, firsts, nexts)?;
    let to = entry_block(plan, head, counts, firsts, nexts)?;
    let old = Old {
        head: AnodeNo(0),
        moved: room_block(plan),
    };
    let last = last_reserved(image);
    let size = disk_size(image) as u16;
    settle(slots, last, size, blocks, old, counts, firsts, nexts)?;
    Ok(SafePlan { plan, to })
}

// Stores what the entry's block `to` starts with: the block that has room, else a new directory block.
fn start_block(image: &mut [u8], plan: MakePlan, to: BlockNo, head: AnodeNo, parent: AnodeNo)
    requires { (plan.parents.0 ≡ 0 → (plan.start / 512 ≤ 65535) × (plan.start / 512 * 512 + 512 ≤ length image.old)) × (to.0 * 512 + 512 ≤ length image.old) }
    ensures { image.new ≡ with_block image.old to.0 (start_bytes image.old plan.parents.0 (plan.start / 512) head.0 parent.0) }
{
    if plan.parents.0 != 0 {
        put_header(image, to, head, parent);
        return;
    }
    copy_block(image, BlockNo((plan.start / 512) as u16), to);
}

// Stores a planned make in the image: the anode table in its new blocks, a new directory's block, and the block that gets the entry.
fn store_make(
    image: &mut [u8],
    counts: &[u16],
    firsts: &[u16],
    nexts: &[u16],
    new_counts: &[u16],
    new_firsts: &[u16],
    new_nexts: &[u16],
    slots: &[u16],
    made: SafePlan,
    head: AnodeNo,
    parent: AnodeNo,
    kind: Kind,
    name: &[u8],
    comment: &[u8],
    day: u16,
    minute: u16,
    tick: u16,
    protection: u8,
)
    requires loaded { Loaded image.old counts.now firsts.now nexts.now }
    requires head_value { (no_directory image.old (anodes_of image.old) head.0 ≡ false) × (parent.0 ≡ parent_of (reached_dirs image.old (anodes_of image.old)) head.0) }
    requires name_value { (good_name name.now ≡ true) × (good_comment comment.now ≡ true) }
    requires safely_made { SafelyMade image.old head.0 (new_entry (is_dir kind) name.now comment.now day minute tick protection) made.plan made.to.0 (table_from new_counts.now new_firsts.now new_nexts.now slots.now) }
    ensures { (taken : List ℕ) → safe_steps image.old (make_change image.old (table_of image.old) head.0 (new_entry (is_dir kind) name.now comment.now day minute tick protection)) ≡ planned (table_from new_counts.now new_firsts.now new_nexts.now slots.now) taken → image.new ≡ new_image image.old (make_change image.old (table_of image.old) head.0 (new_entry (is_dir kind) name.now comment.now day minute tick protection)) (table_from new_counts.now new_firsts.now new_nexts.now slots.now) taken }
{
    store_table(
        image, counts, firsts, nexts, new_counts, new_firsts, new_nexts, slots,
    );
    let plan = made.plan;
    header_new(image, plan.own, plan.fresh, head);
    start_block(image, plan, made.to, head, parent);
    let start = (made.to.0 as usize) * 512 + plan.start % 512;
    put_new_entry(
        image, start, kind, plan.fresh, name, comment, day, minute, tick, protection,
    );
}

// Puts the write of a new directory's own block, unless it is 0, and gives the place behind it.
fn put_own(image: &[u8], own: BlockNo, out: &mut [u8], at: usize) -> usize
    requires { (own.0 * 512 + 512 ≤ length image.now) × (at + length (some_block own.0) * 514 ≤ length out.old) }
    ensures { (out.new ≡ with_writes out.old at image.now (some_block own.0)) × (result ≡ at + length (some_block own.0) * 514) }
{
    if own.0 == 0 {
        return at;
    }
    put_write(image, own, out, at)
}

// Puts the list of a make: a new directory's own block, the entry's block, the anode blocks, slot by slot, and the root.
fn list_make(image: &[u8], slots: &[u16], own: BlockNo, to: BlockNo, out: &mut [u8])
    requires own_in_bounds { (own.0 * 512 + 512 ≤ length image.now) × (to.0 * 512 + 512 ≤ length image.now) × (1536 ≤ length image.now) × ((k : ℕ) → get_or slots.now k 0 * 512 + 512 ≤ length image.now) }
    requires slots_in_bounds { (length (some_block own.0) + 1 + length (slot_blocks (slots_from slots.now) 42) + 1) * 514 ≤ length out.old }
    ensures { out.new ≡ with_writes out.old 0 image.now (some_block own.0 ++ (to.0 ∷ []) ++ slot_blocks (slots_from slots.now) 42 ++ (2 ∷ [])) }
{
    let behind = put_own(image, own, out, 0);
    let end = put_write(image, to, out, behind);
    put_end(image, slots, out, end);
}

// Stores a planned make, and puts its list into the buffer; `count` is the number of writes.
fn finish_make(
    image: &mut [u8],
    counts: &[u16],
    firsts: &[u16],
    nexts: &[u16],
    new_counts: &[u16],
    new_firsts: &[u16],
    new_nexts: &[u16],
    slots: &[u16],
    made: SafePlan,
    head: AnodeNo,
    parent: AnodeNo,
    kind: Kind,
    name: &[u8],
    comment: &[u8],
    day: u16,
    minute: u16,
    tick: u16,
    protection: u8,
    count: u64,
    out: &mut [u8],
) -> Result<u32, Refusal>
    requires loaded { Loaded image.old counts.now firsts.now nexts.now }
    requires head_value { (no_directory image.old (anodes_of image.old) head.0 ≡ false) × (parent.0 ≡ parent_of (reached_dirs image.old (anodes_of image.old)) head.0) }
    requires name_value { (good_name name.now ≡ true) × (good_comment comment.now ≡ true) }
    requires safely_made { SafelyMade image.old head.0 (new_entry (is_dir kind) name.now comment.now day minute tick protection) made.plan made.to.0 (table_from new_counts.now new_firsts.now new_nexts.now slots.now) }
    requires count_value { (count ≡ new_blocks image.old (make_change image.old (table_of image.old) head.0 (new_entry (is_dir kind) name.now comment.now day minute tick protection)) + 1) × (count ≤ 45) × (new_blocks image.old (make_change image.old (table_of image.old) head.0 (new_entry (is_dir kind) name.now comment.now day minute tick protection)) ≤ free_blocks (anodes_of image.old)) }
    ensures { SafeLeaves image.old out.old (make_change image.old (table_of image.old) head.0 (new_entry (is_dir kind) name.now comment.now day minute tick protection)) result image.new out.new }
{
    if out.len() < (count as usize) * 514 {
        return Err(Refusal::ShortWriteList);
    }
    store_make(
        image, counts, firsts, nexts, new_counts, new_firsts, new_nexts, slots, made, head, parent,
        kind, name, comment, day, minute, tick, protection,
    );
    let plan = made.plan;
    list_make(image, slots, plan.own, made.to, out);
    Ok(count as u32)
}

// Plans a safe make on copies of the tables, and finishes it; `count` is the number of writes.
fn make_on_copies(
    image: &mut [u8],
    blocks: &[u16],
    counts: &[u16],
    firsts: &[u16],
    nexts: &[u16],
    new_counts: &mut [u16],
    new_firsts: &mut [u16],
    new_nexts: &mut [u16],
    slots: &mut [u16],
    head: AnodeNo,
    parent: AnodeNo,
    kind: Kind,
    name: &[u8],
    comment: &[u8],
    day: u16,
    minute: u16,
    tick: u16,
    protection: u8,
    count: u64,
    out: &mut [u8],
) -> Result<u32, Refusal>
    requires loaded { Loaded image.old counts.now firsts.now nexts.now × Loaded image.old new_counts.old new_firsts.old new_nexts.old × ShowsBlocks image.old blocks.now }
    requires slots_value { (slots_from slots.old ≡ slot_of image.old) × (length slots.old ≡ 42) }
    requires head_value { (no_directory image.old (anodes_of image.old) head.0 ≡ false) × (parent.0 ≡ parent_of (reached_dirs image.old (anodes_of image.old)) head.0) }
    requires name_value { (good_name name.now ≡ true) × (good_comment comment.now ≡ true) }
    requires count_value { (count ≡ new_blocks image.old (make_change image.old (table_of image.old) head.0 (new_entry (is_dir kind) name.now comment.now day minute tick protection)) + 1) × (count ≤ 45) × (new_blocks image.old (make_change image.old (table_of image.old) head.0 (new_entry (is_dir kind) name.now comment.now day minute tick protection)) ≤ free_blocks (anodes_of image.old)) }
    ensures { SafeLeaves image.old out.old (make_change image.old (table_of image.old) head.0 (new_entry (is_dir kind) name.now comment.now day minute tick protection)) result image.new out.new }
{
    let made = plan_safely(
        image, blocks, slots, kind, name, comment, head, new_counts, new_firsts, new_nexts,
    )?;
    finish_make(
        image, counts, firsts, nexts, new_counts, new_firsts, new_nexts, slots, made, head, parent,
        kind, name, comment, day, minute, tick, protection, count, out,
    )
}

// Makes an entry safely in the directory that `head` heads, whose parent's head is `parent`; 27, 28 and 32 leave everything as it was.
pub fn safe_make_entry(
    image: &mut [u8],
    blocks: &[u16],
    counts: &[u16],
    firsts: &[u16],
    nexts: &[u16],
    head: AnodeNo,
    parent: AnodeNo,
    kind: Kind,
    name: &[u8],
    comment: &[u8],
    day: u16,
    minute: u16,
    tick: u16,
    protection: u8,
    out: &mut [u8],
) -> Result<u32, Refusal>
    requires loaded { Loaded image.old counts.now firsts.now nexts.now × ShowsBlocks image.old blocks.now }
    requires head_value { (no_directory image.old (anodes_of image.old) head.0 ≡ false) × (parent.0 ≡ parent_of (reached_dirs image.old (anodes_of image.old)) head.0) }
    requires name_value { (good_name name.now ≡ true) × (good_comment comment.now ≡ true) }
    ensures { SafeLeaves image.old out.old (make_change image.old (table_of image.old) head.0 (new_entry (is_dir kind) name.now comment.now day minute tick protection)) result image.new out.new }
{
    let mut slots = slots_of(image);
    let need = new_count(kind, &slots);
    if (chain_sum(counts, nexts, AnodeNo(1)) as u64) < need {
        return Err(Refusal::NoFreeBlock);
    }
    let mut new_counts = copied(counts);
    let mut new_firsts = copied(firsts);
    let mut new_nexts = copied(nexts);
    make_on_copies(
        image,
        blocks,
        counts,
        firsts,
        nexts,
        &mut new_counts,
        &mut new_firsts,
        &mut new_nexts,
        &mut slots,
        head,
        parent,
        kind,
        name,
        comment,
        day,
        minute,
        tick,
        protection,
        need + 1,
        out,
    )
}
