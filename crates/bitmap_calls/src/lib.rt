// The two calls of the hard disk edition's bitmap: made into a lent buffer, or compared with a buffer. None asks anything of its caller; each contract settles the answer, the image, both tables and the output for every input.
#![tactic(auto)]

ghost use Rattle.std.specs.Prelude.{[], ◌≡◌, ◌+◌, ◌*◌, ◌-◌, ◌/◌, ◌≤◌, length, replicate};
ghost use Rattle.disk.specs.Refusals.{answer_of};
ghost use Rattle.rules.specs.Calls.{outcome_of, done_or};
ghost use Rattle.bitmap.specs.Bitmap.{first_data, block_bit, bitmap_of, first_differing};
ghost use Rattle.bitmap.specs.Calls.{bitmap_refusal, differs_fields, bitmap_outcome, bitmap_differs_outcome};
ghost use Rattle.bitmap_laws.specs.Shown.{Shown};

use bitmap::{fill_bitmap, first_differing};
use disk::{BlockNo, Refusal, block_part, root_in};
use fsck::check_disk;
use header::disk_size;

// The first block above last reserved.
fn first_data(image: &[u8]) -> usize
    ensures { (result ≡ first_data image.now) × (result ≤ 65536) }
{
    let root = root_in(block_part(image, BlockNo(2)));
    root.last.0 as usize + 1
}

// The bytes of exactly the bitmap blocks needed, each for 8,096 of the blocks from `first` to `n`.
fn bytes_needed(n: usize, first: usize) -> usize
    requires { (first ≤ n) × (n ≤ 65535) }
    ensures { result ≡ (n - first + 8095) / 8096 * 1024 }
{
    (n - first + 8095) / 8096 * 1024
}

// Makes the bitmap of an accepted image.
fn make_bitmap(image: &[u8], table: &[u16], bitmap: &mut [u8]) -> Result<(), Refusal>
    requires { Shown image.now table.now }
    ensures answer { answer_of result ≡ bitmap_refusal image.now (length bitmap.old) }
    ensures made { bitmap.new ≡ done_or (answer_of result) (bitmap_of image.now) bitmap.old }
{
    let n = disk_size(image);
    let first = first_data(image);
    if bitmap.len() != bytes_needed(n, first) {
        return Err(Refusal::BitmapSize);
    }
    fill_bitmap(bitmap, table, n, first);
    Ok(())
}

// Whether and where a buffer differs from the bitmap of an accepted image; the fields come zeroed.
fn compare_bitmap(
    image: &[u8],
    table: &[u16],
    bitmap: &[u8],
    fields: &mut [u32; 2],
) -> Result<(), Refusal>
    requires shown { Shown image.now table.now }
    requires fields_value { fields.old ≡ replicate 2 0 }
    ensures answer { answer_of result ≡ bitmap_refusal image.now (length bitmap.now) }
    ensures told { fields.new ≡ done_or (answer_of result) (differs_fields (first_differing (block_bit image.now) bitmap.now) (length bitmap.now)) (replicate 2 0) }
{
    let n = disk_size(image);
    let first = first_data(image);
    if bitmap.len() != bytes_needed(n, first) {
        return Err(Refusal::BitmapSize);
    }
    let p = first_differing(bitmap, table, n, first);
    if p < bitmap.len() {
        *fields = [1, p as u32];
    }
    Ok(())
}

// The check, then the bitmap made in the buffer; a refused call leaves it.
pub fn bitmap(
    image: &[u8],
    blocks: &mut [u16],
    anodes: &mut [u16],
    bitmap: &mut [u8],
) -> Result<(), Refusal>
    ensures { outcome_of (answer_of result) image.now blocks.new anodes.new bitmap.new [] ≡ bitmap_outcome image.now blocks.old anodes.old bitmap.old }
{
    check_disk(image, blocks, anodes)?;
    make_bitmap(image, blocks, bitmap)
}

// The check, then whether some byte of the buffer differs from the bitmap, and the first that does; zeros after a refusal.
pub fn bitmap_differs(
    image: &[u8],
    blocks: &mut [u16],
    anodes: &mut [u16],
    bitmap: &[u8],
    fields: &mut [u32; 2],
) -> Result<(), Refusal>
    ensures { outcome_of (answer_of result) image.now blocks.new anodes.new fields.new [] ≡ bitmap_differs_outcome image.now blocks.old anodes.old bitmap.now }
{
    *fields = [0u32; 2];
    check_disk(image, blocks, anodes)?;
    compare_bitmap(image, blocks, bitmap, fields)
}
