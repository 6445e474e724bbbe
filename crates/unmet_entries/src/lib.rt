// Hands out the entries of the second image that are no counterpart of one of the first, in the order of its walk.
#![tactic(auto)]

ghost use Rattle.std.specs.Prelude.{List, [], ◌≡◌, ℕ, ◌+◌, ◌*◌, ◌<◌, ◌≤◌, get_or};
ghost use Rattle.rules.specs.Counting.{gather};
ghost use Rattle.rules.specs.Walk.{Entered, entries_in};
ghost use Rattle.rules.specs.Lookup.{entries_of};
ghost use Rattle.laws.specs.Entries.{Unbroken};
ghost use Rattle.anodes.specs.Loaded.{anodes_from};
ghost use Rattle.walk_steps.specs.Steps.{queue_of};
ghost use Rattle.differences.specs.Pairs.{unmet};
ghost use Rattle.differences.specs.Handing.{hand_all};
ghost use Rattle.handing.specs.Differs.{handing_with};

use disk::{AnodeNo, BlockNo, block_part};
use endian::read16;
use handing::{Differs, Handed, hand_out};
use links::Links;
use reader::Places;
use tables::entry;

// Hands out the entry at a place of block `b`, unless it was met.
fn unmet_entry(
    met: &[u16],
    b: BlockNo,
    at: usize,
    anode: AnodeNo,
    out: &mut [u32],
    c: Handed,
) -> Handed
    requires { at ≤ 65535 }
    ensures { (f : Entered) → f.anode ≡ anode.0 → f.start ≡ b.0 * 512 + at → handing_with out.new result ≡ hand_all (handing_with out.old c) (unmet met.now f) }
{
    if entry(met, anode.0 as usize) != 0 {
        return c;
    }
    let start = (b.0 as u32) * 512 + (at as u32);
    hand_out(out, c, Differs::OnlySecond(start))
}

// Those of block `b`, whose entries are right: the length byte and the anode are all that is read of one.
fn unmet_block(image: &[u8], met: &[u16], b: BlockNo, out: &mut [u32], c: Handed) -> Handed
    requires { Unbroken (entries_in image.now b.0) }
    ensures { handing_with out.new result ≡ hand_all (handing_with out.old c) (gather (unmet met.now) (entries_in image.now b.0)) }
{
    let block = block_part(image, b);
    let mut so_far = c;
    for at in Places::of(block) {
        let anode = AnodeNo(read16(block, at + 2));
        so_far = unmet_entry(met, b, at, anode, out, so_far);
    }
    so_far
}

// Those of the directory that `head` heads.
fn unmet_directory(
    image: &[u8],
    firsts: &[u16],
    nexts: &[u16],
    met: &[u16],
    head: AnodeNo,
    out: &mut [u32],
    c: Handed,
) -> Handed
    requires { Unbroken (entries_of image.now (anodes_from [] firsts.now nexts.now) head.0) }
    ensures { handing_with out.new result ≡ hand_all (handing_with out.old c) (gather (unmet met.now) (entries_of image.now (anodes_from [] firsts.now nexts.now) head.0)) }
{
    let mut so_far = c;
    for a in Links::along(nexts, head) {
        let b = BlockNo(entry(firsts, a.0 as usize));
        so_far = unmet_block(image, met, b, out, so_far);
    }
    so_far
}

// Those of the first `dirs` directories of the queue.
pub fn hand_unmet(
    image: &[u8],
    firsts: &[u16],
    nexts: &[u16],
    queue: &[u16],
    dirs: u16,
    met: &[u16],
    out: &mut [u32],
    c: Handed,
) -> Handed
    requires { (i : ℕ) → i < dirs → Unbroken (entries_of image.now (anodes_from [] firsts.now nexts.now) (get_or queue.now i 0)) }
    ensures { (parents : List ℕ) → handing_with out.new result ≡ hand_all (handing_with out.old c) (gather (λ d. gather (unmet met.now) (entries_of image.now (anodes_from [] firsts.now nexts.now) d.head)) (queue_of queue.now parents dirs)) }
{
    let mut so_far = c;
    for i in 0..dirs {
        let head = AnodeNo(entry(queue, i as usize));
        so_far = unmet_directory(image, firsts, nexts, met, head, out, so_far);
    }
    so_far
}
