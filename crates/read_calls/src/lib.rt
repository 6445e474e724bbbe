// The calls that read a file and list an entry. None asks anything of its caller; each contract settles the answer, the image, both tables and the output for every input.
#![tactic(auto)]

ghost use Rattle.std.specs.Prelude.{[], ◌≡◌, get_or, IfOk};
ghost use Rattle.disk.specs.Refusals.{answer_of};
ghost use Rattle.rules.specs.Calls.{outcome_of, read_outcome, list_outcome};
ghost use Rattle.reading.specs.Parts.{StartsAt};
ghost use Rattle.read_calls.specs.Handed.{name_handed};

use disk::{AnodeNo, Refusal};
use fsck::DiskTables;
use reading::{list_nth, read_named};

// Fills the buffer with a file's bytes from the offset on; a refused call leaves it.
pub fn read(
    image: &[u8],
    blocks: &mut [u16],
    anodes: &mut [u16],
    directory: u16,
    name: &[u8],
    offset: u64,
    out: &mut [u8],
) -> Result<(), Refusal>
    ensures { outcome_of (answer_of result) image.now blocks.new anodes.new out.new [] ≡ read_outcome image.now blocks.old anodes.old directory name.now offset out.old }
{
    let mut tables = DiskTables::empty();
    let t = tables.open(image, blocks, anodes)?;
    read_named(
        image,
        &tables.counts,
        &tables.firsts,
        &tables.nexts,
        &tables.queue,
        anodes,
        t.dirs,
        AnodeNo(directory),
        name,
        offset,
        out,
    )
}

// The n-th entry of a directory, from 0: its fields, and its name as a part of the lent image; zero fields after a refusal.
pub fn list<'a>(
    image: &'a [u8],
    blocks: &mut [u16],
    anodes: &mut [u16],
    directory: u16,
    place: u64,
    fields: &mut [u32; 11],
) -> Result<&'a [u8], Refusal>
    ensures outcome { outcome_of (answer_of result) image.now blocks.new anodes.new fields.new (name_handed result) ≡ list_outcome image.now blocks.old anodes.old directory place }
    ensures part { IfOk result (λ name. StartsAt image.entry name (get_or fields.new 7 0)) }
{
    *fields = [0u32; 11];
    let mut tables = DiskTables::empty();
    let t = tables.open(image, blocks, anodes)?;
    list_nth(
        image,
        &tables.firsts,
        &tables.nexts,
        &tables.queue,
        anodes,
        t.dirs,
        AnodeNo(directory),
        place,
        fields,
    )
}
