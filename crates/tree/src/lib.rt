// Refusals 12 to 17: the walk over the directories, breadth first from the root.
#![tactic(auto)]

ghost use Rattle.std.specs.Prelude.{◌≡◌, [], length};
ghost use Rattle.disk.specs.Refusals.{answer_of};
ghost use Rattle.rules.specs.Accepted.{tree_fault};
ghost use Rattle.rules.specs.Counting.{any_below};
ghost use Rattle.rules.specs.Walk.{dir_made};
ghost use Rattle.laws.specs.Chains.{HeadTable};
ghost use Rattle.anodes.specs.Loaded.{anodes_from, AnodeTables};
ghost use Rattle.names.specs.Index.{Indexed};
ghost use Rattle.tree.specs.Tree.{Counts, Queued};
ghost use Rattle.walk_steps.specs.Steps.{item_in, items_with, queue_of, entering, Proceeds, run_from, tally_made, WalkRoom, number_in, Numbered, StepNumbered, unnamed_at};
ghost use Rattle.tree.specs.Steps.{conclusion};

use disk::{AnodeNo, Refusal};
use links::Links;
use tables::entry;
use walk_steps::{Tally, enter_anode};

// What the walk counts: the files, and the directories with the root.
#[derive(Clone, Copy)]
pub struct Counted {
    pub files: u16,
    pub dirs: u16,
}

// Enters what a directory holds, anode by anode of its chain.
fn enter_directory(
    image: &[u8],
    counts: &[u16],
    firsts: &[u16],
    nexts: &[u16],
    heads: &[u16],
    marks: &mut [u16],
    queue: &mut [u16],
    parents: &mut [u16],
    index: &mut [u16],
    head: AnodeNo,
    parent: AnodeNo,
    t: Tally,
) -> Result<Tally, Refusal>
    requires { WalkRoom t marks.old queue.old parents.old × Numbered image.now index.old (number_in t) t }
    ensures entered { Proceeds result marks.new queue.new parents.new (entering t marks.old queue.old parents.old head.0 (items_with (item_in counts.now nexts.now heads.now) image.now (anodes_from counts.now firsts.now nexts.now) (dir_made head.0 parent.0))) }
    ensures numbered { StepNumbered result image.now index.new }
{
    let mut tally = t;
    for a in Links::along(nexts, head) {
        tally = enter_anode(
            image, counts, firsts, nexts, heads, marks, queue, parents, index, t, head, parent, a,
            tally,
        )?;
    }
    Ok(tally)
}

// Takes directory after directory from the queue, until none is left.
fn walk_queue(
    image: &[u8],
    counts: &[u16],
    firsts: &[u16],
    nexts: &[u16],
    heads: &[u16],
    marks: &mut [u16],
    queue: &mut [u16],
    parents: &mut [u16],
    index: &mut [u16],
) -> Result<Counted, Refusal>
    requires { WalkRoom (tally_made 1 0) marks.old queue.old parents.old × Indexed image.now index.old 0 }
    ensures { conclusion result marks.new queue.new parents.new ≡ run_from (items_with (item_in counts.now nexts.now heads.now) image.now (anodes_from counts.now firsts.now nexts.now)) 3444 (queue_of queue.old parents.old 1) marks.old 0 [] }
{
    let mut tally = Tally { last: 1, files: 0 };
    let mut first: usize = 0;
    // a while loop, for the queue grows on the way
    while first < tally.last {
        let head = AnodeNo(entry(queue, first));
        let parent = AnodeNo(entry(parents, first));
        tally = enter_directory(
            image, counts, firsts, nexts, heads, marks, queue, parents, index, head, parent, tally,
        )?;
        first += 1;
    }
    Ok(Counted {
        files: tally.files,
        dirs: tally.last as u16,
    })
}

// Whether anode `x` from 6 up heads a chain and has no mark.
fn is_unnamed(heads: &[u16], marks: &[u16], x: AnodeNo) -> bool
    ensures { result ≡ unnamed_at heads.now marks.now x.0 }
{
    if x.0 < 6 {
        return false;
    }
    if entry(heads, x.0 as usize) != x.0 {
        return false;
    }
    entry(marks, x.0 as usize) == 0
}

// Whether some chain from 6 up has no mark.
fn any_unnamed(heads: &[u16], marks: &[u16]) -> bool
    ensures { result ≡ any_below (unnamed_at heads.now marks.now) 3444 }
{
    for x in 0..3444 {
        if is_unnamed(heads, marks, AnodeNo(x)) {
            return true;
        }
    }
    false
}

// Walks all directories: every entry must be within the rules, and every chain from 6 up named. Where that is so, two tables hold the directories and their parents.
pub fn walk_tree(
    image: &[u8],
    counts: &[u16],
    firsts: &[u16],
    nexts: &[u16],
    heads: &[u16],
    queue: &mut [u16],
    parents: &mut [u16],
) -> Result<Counted, Refusal>
    requires head_table { HeadTable heads.now (anodes_from counts.now firsts.now nexts.now) × AnodeTables counts.now firsts.now nexts.now }
    requires queue_len { (length queue.old ≡ 3444) × (length parents.old ≡ 3444) }
    ensures answer { answer_of result ≡ tree_fault image.now (anodes_from counts.now firsts.now nexts.now) }
    ensures counted { Counts result image.now (anodes_from counts.now firsts.now nexts.now) }
    ensures queued { Queued result image.now (anodes_from counts.now firsts.now nexts.now) queue.new parents.new }
{
    let mut marks = [0u16; 3444];
    let mut index = [0u16; 17872];
    // the root counts as marked, so that there is a mark for each directory in the queue
    marks[5] = 1;
    queue[0] = 5;
    parents[0] = 0;
    let found = walk_queue(
        image, counts, firsts, nexts, heads, &mut marks, queue, parents, &mut index,
    )?;
    if any_unnamed(heads, &marks) {
        return Err(Refusal::UnnamedChain);
    }
    Ok(found)
}
