// Loads the anodes of an image into three lent tables.
#![tactic(auto)]

ghost use Rattle.std.specs.Prelude.{◌≡◌, ◌≢◌, ◌+◌, ◌*◌, ◌<◌};
ghost use Rattle.disk.specs.Root.{slot_of};
ghost use Rattle.rules.specs.Anodes.{anodes_of};
ghost use Rattle.anodes.specs.Loaded.{anodes_from, AnodeTables, LoadedBelow};

use disk::{BlockNo, anode_in, block_part, slot_of};
use tables::zero_first;

// Loads the 82 anodes of slot `s`, which stand in block `slot`, after those of the slots before it.
fn load_block(
    image: &[u8],
    slot: BlockNo,
    s: usize,
    counts: &mut [u16],
    firsts: &mut [u16],
    nexts: &mut [u16],
)
    requires s_value { (slot_of image.now s ≡ slot.0) × (slot.0 ≢ 0) }
    requires s_bound { (s < 42) × AnodeTables counts.old firsts.old nexts.old }
    requires loaded_below { LoadedBelow (anodes_of image.now) counts.old firsts.old nexts.old (s * 82) }
    ensures { LoadedBelow (anodes_of image.now) counts.new firsts.new nexts.new (s * 82 + 82) }
{
    let part = block_part(image, slot);
    for p in 0..82 {
        let x = anode_in(part, p);
        let a = s * 82 + p;
        counts[a] = x.count;
        firsts[a] = x.block.0;
        nexts[a] = x.next.0;
    }
}

// Loads the 82 anodes of slot `s`, after those of the slots before it; those of a slot that holds 0 are (0, 0, 0).
fn load_slot(image: &[u8], s: usize, counts: &mut [u16], firsts: &mut [u16], nexts: &mut [u16])
    requires s_bound { (s < 42) × AnodeTables counts.old firsts.old nexts.old }
    requires loaded_below { LoadedBelow (anodes_of image.now) counts.old firsts.old nexts.old (s * 82) }
    ensures { LoadedBelow (anodes_of image.now) counts.new firsts.new nexts.new (s * 82 + 82) }
{
    let slot = slot_of(image, s);
    if slot.0 != 0 {
        load_block(image, slot, s, counts, firsts, nexts);
        return;
    }
    let from = s * 82;
    let end = from + 82;
    zero_first(&mut counts[from..end], 82);
    zero_first(&mut firsts[from..end], 82);
    zero_first(&mut nexts[from..end], 82);
}

// Loads every anode; a missing one is (0, 0, 0).
pub fn load(image: &[u8], counts: &mut [u16], firsts: &mut [u16], nexts: &mut [u16])
    requires { AnodeTables counts.old firsts.old nexts.old }
    ensures { anodes_from counts.new firsts.new nexts.new ≡ anodes_of image.now }
{
    for s in 0..42 {
        load_slot(image, s, counts, firsts, nexts);
    }
}
