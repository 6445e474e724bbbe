// The calls that find an entry by its name and read the disk's label. None asks anything of its caller; each contract settles the answer, the image, both tables and the output for every input.
#![tactic(auto)]

ghost use Rattle.std.specs.Prelude.{[], ◌≡◌};
ghost use Rattle.disk.specs.Refusals.{answer_of};
ghost use Rattle.rules.specs.Calls.{outcome_of};
ghost use Rattle.looks.specs.Calls.{find_outcome, label_of, label_outcome};

use disk::{AnodeNo, BlockNo, Refusal, block_part, root_in};
use fsck::{DiskTables, check_disk};
use reading::find_entry;

// The fields of the first entry with that name in a directory, as list hands them back; zeros after a refusal.
pub fn find(
    image: &[u8],
    blocks: &mut [u16],
    anodes: &mut [u16],
    directory: u16,
    name: &[u8],
    fields: &mut [u32; 11],
) -> Result<(), Refusal>
    ensures { outcome_of (answer_of result) image.now blocks.new anodes.new fields.new [] ≡ find_outcome image.now blocks.old anodes.old directory name.now }
{
    *fields = [0u32; 11];
    let mut tables = DiskTables::empty();
    let t = tables.open(image, blocks, anodes)?;
    find_entry(
        image,
        &tables.firsts,
        &tables.nexts,
        &tables.queue,
        anodes,
        t.dirs,
        AnodeNo(directory),
        name,
        fields,
    )
}

// Stores the label of the disk in the lent array.
fn put_label(image: &[u8], fields: &mut [u32; 7])
    ensures { fields.new ≡ label_of image.now }
{
    let root = root_in(block_part(image, BlockNo(2)));
    *fields = [
        root.last.0 as u32,
        root.day as u32,
        root.minute as u32,
        root.tick as u32,
        root.protection as u32,
        1045,
        root.name as u32,
    ];
}

// The disk's last reserved block, stamp, protection and name, this by offset in the image and length; zeros after a refusal.
pub fn label(
    image: &[u8],
    blocks: &mut [u16],
    anodes: &mut [u16],
    fields: &mut [u32; 7],
) -> Result<(), Refusal>
    ensures { outcome_of (answer_of result) image.now blocks.new anodes.new fields.new [] ≡ label_outcome image.now blocks.old anodes.old }
{
    *fields = [0u32; 7];
    check_disk(image, blocks, anodes)?;
    put_label(image, fields);
    Ok(())
}
