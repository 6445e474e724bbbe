// The calls that only check an image. None asks anything of its caller; each contract settles the answer, the image, both tables and the output for every input.
#![tactic(auto)]

ghost use Rattle.std.specs.Prelude.{[], ◌≡◌};
ghost use Rattle.disk.specs.Refusals.{answer_of};
ghost use Rattle.rules.specs.Calls.{outcome_of, check_outcome, summary_outcome};

use disk::Refusal;
use fsck::check_disk;
use header::disk_size;

// The check: done, or the first refusal.
pub fn check(image: &[u8], blocks: &mut [u16], anodes: &mut [u16]) -> Result<(), Refusal>
    ensures { outcome_of (answer_of result) image.now blocks.new anodes.new [] [] ≡ check_outcome image.now blocks.old anodes.old }
{
    check_disk(image, blocks, anodes).and(Ok(()))
}

// The check, with the disk's size in blocks, its free blocks, files and directories; zeros after a refusal.
pub fn summary(
    image: &[u8],
    blocks: &mut [u16],
    anodes: &mut [u16],
    fields: &mut [u32; 4],
) -> Result<(), Refusal>
    ensures { outcome_of (answer_of result) image.now blocks.new anodes.new fields.new [] ≡ summary_outcome image.now blocks.old anodes.old }
{
    *fields = [0u32; 4];
    let t = check_disk(image, blocks, anodes)?;
    *fields = [
        disk_size(image) as u32,
        t.free,
        t.files as u32,
        t.dirs as u32,
    ];
    Ok(())
}
