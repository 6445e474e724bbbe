// The two calls that compare. They ask nothing of their caller; each contract settles the answer, the fields, the buffer and the tables of both images for every input.
#![tactic(auto)]

ghost use Rattle.std.specs.Prelude.{◌∷◌, [], ◌≡◌};
ghost use Rattle.disk.specs.Refusals.{answer_of};
ghost use Rattle.differences.specs.Calls.{compared_of, compare_outcome, differences_outcome};
ghost use Rattle.comparing.specs.Walked.{OpenWalk};
ghost use Rattle.compare_calls.specs.Second.{answer_in, image_in, count_in, second_made, second_outcome};

use comparing::hand_differences;
use disk::Refusal;
use fsck::DiskTables;

// Which image was refused, the first (1) or the second (2), and why.
#[derive(Clone, Copy)]
struct RefusedImage {
    image: u32,
    refusal: Refusal,
}

// Checks the second image where the first is accepted, and hands out their differences from a place on; how many.
fn compare_second(
    image: &[u8],
    tables: &DiskTables,
    dirs: u16,
    other: &[u8],
    other_blocks: &mut [u16],
    other_anodes: &mut [u16],
    place: u64,
    out: &mut [u32],
) -> Result<u32, RefusedImage>
    requires { OpenWalk image.now tables.now.counts tables.now.firsts tables.now.nexts tables.now.queue dirs }
    ensures { second_made (answer_in result) (image_in result) (count_in result) out.new other_blocks.new other_anodes.new ≡ second_outcome image.now other.now other_blocks.old other_anodes.old place out.old }
{
    let mut others = DiskTables::empty();
    match others.open(other, other_blocks, other_anodes) {
        Ok(t) => {
            let handed = hand_differences(
                image,
                &tables.counts,
                &tables.firsts,
                &tables.nexts,
                &tables.queue,
                dirs,
                other,
                &others.counts,
                &others.firsts,
                &others.nexts,
                &others.queue,
                t.dirs,
                place,
                out,
            );
            Ok((handed.done / 6) as u32)
        }
        Err(refusal) => Err(RefusedImage { image: 2, refusal }),
    }
}

// Checks both images, the second only after the first is accepted, and hands out their differences from a place on; how many.
fn compare_into(
    image: &[u8],
    blocks: &mut [u16],
    anodes: &mut [u16],
    other: &[u8],
    other_blocks: &mut [u16],
    other_anodes: &mut [u16],
    place: u64,
    out: &mut [u32],
) -> Result<u32, RefusedImage>
    ensures { compared_of (answer_in result) (image_in result ∷ count_in result ∷ []) out.new blocks.new anodes.new other_blocks.new other_anodes.new ≡ differences_outcome image.now blocks.old anodes.old other.now other_blocks.old other_anodes.old place out.old }
{
    let mut tables = DiskTables::empty();
    match tables.open(image, blocks, anodes) {
        Ok(t) => compare_second(
            image,
            &tables,
            t.dirs,
            other,
            other_blocks,
            other_anodes,
            place,
            out,
        ),
        Err(refusal) => Err(RefusedImage { image: 1, refusal }),
    }
}

// Which image was refused: 0 for neither.
fn image_in(compared: Result<u32, RefusedImage>) -> u32
    ensures { result ≡ image_in compared }
{
    match compared {
        Ok(_) => 0,
        Err(refused) => refused.image,
    }
}

// Compares two images: the difference at a place from 0, or 22 past the last. The fields are which image was refused, the kind, the entry's place in each image, the fields that differ, the first differing byte and how many.
pub fn compare(
    image: &[u8],
    blocks: &mut [u16],
    anodes: &mut [u16],
    other: &[u8],
    other_blocks: &mut [u16],
    other_anodes: &mut [u16],
    place: u64,
    fields: &mut [u32; 7],
) -> Result<(), Refusal>
    ensures { compared_of (answer_of result) fields.new [] blocks.new anodes.new other_blocks.new other_anodes.new ≡ compare_outcome image.now blocks.old anodes.old other.now other_blocks.old other_anodes.old place }
{
    let mut six = [0u32; 6];
    let compared = compare_into(
        image,
        blocks,
        anodes,
        other,
        other_blocks,
        other_anodes,
        place,
        &mut six,
    );
    *fields = [
        image_in(compared),
        six[0],
        six[1],
        six[2],
        six[3],
        six[4],
        six[5],
    ];
    match compared {
        Ok(count) => {
            if count == 0 {
                return Err(Refusal::NotFound);
            }
            Ok(())
        }
        Err(refused) => Err(refused.refusal),
    }
}

// Compares two images: as many differences from a place on as the buffer holds, six numbers for each. The fields are which image was refused, and how many were handed out.
pub fn differences(
    image: &[u8],
    blocks: &mut [u16],
    anodes: &mut [u16],
    other: &[u8],
    other_blocks: &mut [u16],
    other_anodes: &mut [u16],
    place: u64,
    out: &mut [u32],
    fields: &mut [u32; 2],
) -> Result<(), Refusal>
    ensures { compared_of (answer_of result) fields.new out.new blocks.new anodes.new other_blocks.new other_anodes.new ≡ differences_outcome image.now blocks.old anodes.old other.now other_blocks.old other_anodes.old place out.old }
{
    let compared = compare_into(
        image,
        blocks,
        anodes,
        other,
        other_blocks,
        other_anodes,
        place,
        out,
    );
    match compared {
        Ok(count) => {
            *fields = [0, count];
            Ok(())
        }
        Err(refused) => {
            *fields = [refused.image, 0];
            Err(refused.refusal)
        }
    }
}
