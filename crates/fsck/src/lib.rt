// The check: every refusal of the rules in order, both tables, and what it loaded.
#![tactic(auto)]

ghost use Rattle.std.specs.Prelude.{false, [], ◌≡◌, ◌≤◌, length, replicate};
ghost use Rattle.disk.specs.Refusals.{answer_of};
ghost use Rattle.rules.specs.Counting.{◌if◌else◌};
ghost use Rattle.rules.specs.Anodes.{anodes_of};
ghost use Rattle.rules.specs.Accepted.{disk_size, wrong_size, wrong_slots, damage_in};
ghost use Rattle.rules.specs.Calls.{outcome_of, check_outcome};
ghost use Rattle.anodes.specs.Loaded.{anodes_from, AnodeTables};
ghost use Rattle.fsck.specs.Answers.{Tallied, HeaderTested, SpaceTested, TablesAfter, TablesLeft, Zeroed, Sized, Opened};

use anodes::load;
use chains::{fill_heads, out_of_range, wrong_fixed, wrong_free_list, wrong_links};
use disk::{AnodeNo, BlockNo, Refusal, block_part, root_in};
use header::{disk_size, short_tables, wrong_root, wrong_size, wrong_slots, wrong_type};
use owners::{mark_owners, no_owner};
use tables::zero_first;
use tree::walk_tree;
use walk_steps::chain_sum;

// Free blocks, files, and directories with the root.
#[derive(Clone, Copy)]
pub struct Tally {
    pub free: u32,
    pub files: u16,
    pub dirs: u16,
}

// 1 to 4: what is tried before a table is touched.
fn test_header(image: &[u8], blocks: usize, anodes: usize) -> Result<(), Refusal>
    ensures { HeaderTested result image.now blocks anodes }
{
    if wrong_size(image) {
        return Err(Refusal::ImageSize);
    }
    if short_tables(image, blocks, anodes) {
        return Err(Refusal::TableSize);
    }
    if wrong_type(image) {
        return Err(Refusal::DiskType);
    }
    if wrong_root(image) {
        return Err(Refusal::RootBlock);
    }
    Ok(())
}

// 6 to 11: the anodes and the blocks; fills both tables, which come zeroed.
fn test_space(
    image: &[u8],
    counts: &[u16],
    firsts: &[u16],
    nexts: &[u16],
    blocks: &mut [u16],
    anodes: &mut [u16],
) -> Result<(), Refusal>
    requires anode_tables { AnodeTables counts.now firsts.now nexts.now }
    requires nexts_value { anodes_from counts.now firsts.now nexts.now ≡ anodes_of image.now }
    requires image_value { (wrong_size image.now ≡ false) × (wrong_slots image.now ≡ false) }
    requires zeroed { Zeroed image.now blocks.old anodes.old }
    ensures answer { SpaceTested result image.now (anodes_of image.now) }
    ensures tables { TablesAfter result image.now (anodes_of image.now) blocks.old anodes.old blocks.new anodes.new }
{
    let n = disk_size(image);
    if wrong_fixed(counts, firsts, nexts) {
        return Err(Refusal::FixedAnode);
    }
    if out_of_range(counts, firsts, nexts, n) {
        return Err(Refusal::AnodeRange);
    }
    let mut preds = [0u16; 3444];
    if wrong_links(firsts, nexts, &mut preds) {
        return Err(Refusal::ChainLinks);
    }
    fill_heads(firsts, nexts, &preds, anodes);
    let root = root_in(block_part(image, BlockNo(2)));
    if wrong_free_list(counts, firsts, nexts, root.last.0) {
        return Err(Refusal::FreeList);
    }
    if mark_owners(image, counts, firsts, anodes, blocks) {
        return Err(Refusal::TwoOwners);
    }
    if no_owner(blocks, n) {
        return Err(Refusal::NoOwner);
    }
    Ok(())
}

// 6 to 17, over the loaded anodes; fills both tables, which come zeroed, and the queue.
fn test_all(
    image: &[u8],
    counts: &[u16],
    firsts: &[u16],
    nexts: &[u16],
    blocks: &mut [u16],
    anodes: &mut [u16],
    queue: &mut [u16],
    parents: &mut [u16],
) -> Result<Tally, Refusal>
    requires sized { Sized counts.now firsts.now nexts.now queue.old parents.old }
    requires nexts_value { anodes_from counts.now firsts.now nexts.now ≡ anodes_of image.now }
    requires image_value { (wrong_size image.now ≡ false) × (wrong_slots image.now ≡ false) }
    requires zeroed { Zeroed image.now blocks.old anodes.old }
    ensures answer { answer_of result ≡ damage_in image.now (anodes_of image.now) }
    ensures tally { Tallied result image.now (anodes_of image.now) }
    ensures tables { TablesLeft result image.now (anodes_of image.now) blocks.old anodes.old blocks.new anodes.new }
    ensures opened { Opened result image.now counts.now firsts.now nexts.now queue.new parents.new }
{
    test_space(image, counts, firsts, nexts, blocks, anodes)?;
    let found = walk_tree(image, counts, firsts, nexts, anodes, queue, parents)?;
    let free = chain_sum(counts, nexts, AnodeNo(1));
    Ok(Tally {
        free,
        files: found.files,
        dirs: found.dirs,
    })
}

// 5 to 17; fills both tables, which come zeroed, and loads the other five.
fn examine(
    image: &[u8],
    blocks: &mut [u16],
    anodes: &mut [u16],
    counts: &mut [u16],
    firsts: &mut [u16],
    nexts: &mut [u16],
    queue: &mut [u16],
    parents: &mut [u16],
) -> Result<Tally, Refusal>
    requires sized { Sized counts.old firsts.old nexts.old queue.old parents.old }
    requires image_value { wrong_size image.now ≡ false }
    requires zeroed { Zeroed image.now blocks.old anodes.old }
    ensures answer { answer_of result ≡ (5 if wrong_slots image.now else damage_in image.now (anodes_of image.now)) }
    ensures tally { Tallied result image.now (anodes_of image.now) }
    ensures tables { TablesLeft result image.now (anodes_of image.now) blocks.old anodes.old blocks.new anodes.new }
    ensures opened { Opened result image.now counts.new firsts.new nexts.new queue.new parents.new }
{
    if wrong_slots(image) {
        return Err(Refusal::AnodeBlock);
    }
    load(image, counts, firsts, nexts);
    test_all(image, counts, firsts, nexts, blocks, anodes, queue, parents)
}

// The whole check, and what it loaded: the anodes in three tables, the reached directories and their parents in two.
pub fn open_disk(
    image: &[u8],
    blocks: &mut [u16],
    anodes: &mut [u16],
    counts: &mut [u16],
    firsts: &mut [u16],
    nexts: &mut [u16],
    queue: &mut [u16],
    parents: &mut [u16],
) -> Result<Tally, Refusal>
    requires { Sized counts.old firsts.old nexts.old queue.old parents.old }
    ensures outcome { outcome_of (answer_of result) image.now blocks.new anodes.new [] [] ≡ check_outcome image.now blocks.old anodes.old }
    ensures tally { Tallied result image.now (anodes_of image.now) }
    ensures opened { Opened result image.now counts.new firsts.new nexts.new queue.new parents.new }
{
    test_header(image, blocks.len(), anodes.len())?;
    let n = disk_size(image);
    zero_first(blocks, n);
    zero_first(anodes, 3444);
    let tally = examine(image, blocks, anodes, counts, firsts, nexts, queue, parents);
    if tally.is_err() {
        zero_first(blocks, n);
        zero_first(anodes, 3444);
    }
    tally
}

// What the check loads of a disk: the anodes in three tables, the reached directories and their parents in two.
#[derive(Clone, Copy)]
pub struct DiskTables {
    pub counts: [u16; 3444],
    pub firsts: [u16; 3444],
    pub nexts: [u16; 3444],
    pub queue: [u16; 3444],
    pub parents: [u16; 3444],
}

impl DiskTables {
    // The tables before anything is loaded.
    pub fn empty() -> DiskTables
        ensures anodes { (result.counts ≡ replicate 3444 0) × (result.firsts ≡ replicate 3444 0) × (result.nexts ≡ replicate 3444 0) }
        ensures directories { (result.queue ≡ replicate 3444 0) × (result.parents ≡ replicate 3444 0) }
    {
        DiskTables {
            counts: [0; 3444],
            firsts: [0; 3444],
            nexts: [0; 3444],
            queue: [0; 3444],
            parents: [0; 3444],
        }
    }

    // The whole check, and what it loaded.
    pub fn open(
        &mut self,
        image: &[u8],
        blocks: &mut [u16],
        anodes: &mut [u16],
    ) -> Result<Tally, Refusal>
        ensures outcome { outcome_of (answer_of result) image.now blocks.new anodes.new [] [] ≡ check_outcome image.now blocks.old anodes.old }
        ensures tally { Tallied result image.now (anodes_of image.now) }
        ensures opened { Opened result image.now self.new.counts self.new.firsts self.new.nexts self.new.queue self.new.parents }
    {
        open_disk(
            image,
            blocks,
            anodes,
            &mut self.counts,
            &mut self.firsts,
            &mut self.nexts,
            &mut self.queue,
            &mut self.parents,
        )
    }
}

// The whole check: the first refusal, or the tally of an accepted image; both tables as the rules say.
pub fn check_disk(image: &[u8], blocks: &mut [u16], anodes: &mut [u16]) -> Result<Tally, Refusal>
    ensures outcome { outcome_of (answer_of result) image.now blocks.new anodes.new [] [] ≡ check_outcome image.now blocks.old anodes.old }
    ensures tally { Tallied result image.now (anodes_of image.now) }
{
    let mut tables = DiskTables::empty();
    tables.open(image, blocks, anodes)
}
