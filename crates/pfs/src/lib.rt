// The calls for a host program in C or Rust: a slice is a pointer and a length.
#![tactic(auto)]

ghost use Rattle.std.specs.Prelude.{[], ◌≡◌, get_or};
ghost use Rattle.rules.specs.Changes.{left};
ghost use Rattle.rules.specs.Calls.{outcome_of, check_outcome, summary_outcome, format_outcome, read_outcome, list_outcome, make_outcome, resize_outcome, write_outcome, remove_outcome};
ghost use Rattle.safe_rules.specs.SafeCalls.{safe_make, safe_resize, safe_write, safe_remove, safe_outcome};
ghost use Rattle.disk.specs.Refusals.{answer_of};
ghost use Rattle.safe_stores.specs.Leaves.{writes_in};
ghost use Rattle.safe_calls.specs.Outcomes.{safe_outcome_of};
ghost use Rattle.bitmap.specs.Calls.{bitmap_outcome, bitmap_differs_outcome};
ghost use Rattle.looks.specs.Calls.{find_outcome, label_outcome};
ghost use Rattle.report.specs.Report.{reported, report_outcome};
ghost use Rattle.differences.specs.Calls.{compared_of, compare_outcome, differences_outcome};
ghost use Rattle.settings.specs.Conversions.{conversion_of, widen_outcome, narrow_outcome};
ghost use Rattle.pfs.specs.Listed.{name_given};

use disk::{Refusal, answer};

// The check: 0, or the first refusal.
#[unsafe(no_mangle)]
pub extern "C" fn pfs_check(image: &[u8], blocks: &mut [u16], anodes: &mut [u16]) -> u32
    ensures { outcome_of result image.now blocks.new anodes.new [] [] ≡ check_outcome image.now blocks.old anodes.old }
{
    answer(check_calls::check(image, blocks, anodes))
}

// The check, with the disk's size in blocks, its free blocks, files and directories; zeros after a refusal.
#[unsafe(no_mangle)]
pub extern "C" fn pfs_summary(
    image: &[u8],
    blocks: &mut [u16],
    anodes: &mut [u16],
    fields: &mut [u32; 4],
) -> u32
    ensures { outcome_of result image.now blocks.new anodes.new fields.new [] ≡ summary_outcome image.now blocks.old anodes.old }
{
    answer(check_calls::summary(image, blocks, anodes, fields))
}

// Makes an empty disk with last reserved `last` and so many anode blocks; a refused call leaves the image.
#[unsafe(no_mangle)]
pub extern "C" fn pfs_format(
    image: &mut [u8],
    last: u16,
    anode_blocks: u16,
    name: &[u8],
    day: u16,
    minute: u16,
    tick: u16,
    protection: u16,
) -> u32
    ensures { left result image.new ≡ format_outcome image.old last anode_blocks name.now day minute tick protection }
{
    answer(format::format(
        image,
        last,
        anode_blocks,
        name,
        day,
        minute,
        tick,
        protection,
    ))
}

// Fills the buffer with a file's bytes from the offset on; a refused call leaves it.
#[unsafe(no_mangle)]
pub extern "C" fn pfs_read(
    image: &[u8],
    blocks: &mut [u16],
    anodes: &mut [u16],
    directory: u16,
    name: &[u8],
    offset: u64,
    out: &mut [u8],
) -> u32
    ensures { outcome_of result image.now blocks.new anodes.new out.new [] ≡ read_outcome image.now blocks.old anodes.old directory name.now offset out.old }
{
    answer(read_calls::read(image, blocks, anodes, directory, name, offset, out))
}

// The fields of the n-th entry of a directory, from 0; the name and the comment by offset in the image and length; zero fields after a refusal.
#[unsafe(no_mangle)]
pub extern "C" fn pfs_list(
    image: &[u8],
    blocks: &mut [u16],
    anodes: &mut [u16],
    directory: u16,
    place: u64,
    fields: &mut [u32; 11],
) -> u32
    ensures { outcome_of result image.now blocks.new anodes.new fields.new (name_given image.now fields.new) ≡ list_outcome image.now blocks.old anodes.old directory place }
{
    match read_calls::list(image, blocks, anodes, directory, place, fields) {
        Ok(_) => 0,
        Err(refusal) => u32::from(refusal),
    }
}

// The fields of the first entry with that name in a directory, as list hands them back; zero fields after a refusal.
#[unsafe(no_mangle)]
pub extern "C" fn pfs_find(
    image: &[u8],
    blocks: &mut [u16],
    anodes: &mut [u16],
    directory: u16,
    name: &[u8],
    fields: &mut [u32; 11],
) -> u32
    ensures { outcome_of result image.now blocks.new anodes.new fields.new [] ≡ find_outcome image.now blocks.old anodes.old directory name.now }
{
    answer(look_calls::find(image, blocks, anodes, directory, name, fields))
}

// The disk's last reserved block, stamp, protection and name, this by offset in the image and length; zero fields after a refusal.
#[unsafe(no_mangle)]
pub extern "C" fn pfs_label(
    image: &[u8],
    blocks: &mut [u16],
    anodes: &mut [u16],
    fields: &mut [u32; 7],
) -> u32
    ensures { outcome_of result image.now blocks.new anodes.new fields.new [] ≡ label_outcome image.now blocks.old anodes.old }
{
    answer(look_calls::label(image, blocks, anodes, fields))
}

// Makes a file of type 253 or a directory of type 2; a refused call leaves the image.
#[unsafe(no_mangle)]
pub extern "C" fn pfs_make(
    image: &mut [u8],
    blocks: &mut [u16],
    anodes: &mut [u16],
    directory: u16,
    kind: u8,
    name: &[u8],
    comment: &[u8],
    day: u16,
    minute: u16,
    tick: u16,
    protection: u8,
) -> u32
    ensures { outcome_of result image.new blocks.new anodes.new [] [] ≡ make_outcome image.old blocks.old anodes.old directory kind name.now comment.now day minute tick protection }
{
    answer(change_calls::make(
        image, blocks, anodes, directory, kind, name, comment, day, minute, tick, protection,
    ))
}

// Gives a file another size; a refused call leaves the image.
#[unsafe(no_mangle)]
pub extern "C" fn pfs_resize(
    image: &mut [u8],
    blocks: &mut [u16],
    anodes: &mut [u16],
    directory: u16,
    name: &[u8],
    size: u64,
) -> u32
    ensures { outcome_of result image.new blocks.new anodes.new [] [] ≡ resize_outcome image.old blocks.old anodes.old directory name.now size }
{
    answer(change_calls::resize(image, blocks, anodes, directory, name, size))
}

// Replaces bytes of a file from the offset on, within its size; a refused call leaves the image.
#[unsafe(no_mangle)]
pub extern "C" fn pfs_write(
    image: &mut [u8],
    blocks: &mut [u16],
    anodes: &mut [u16],
    directory: u16,
    name: &[u8],
    offset: u64,
    bytes: &[u8],
) -> u32
    ensures { outcome_of result image.new blocks.new anodes.new [] [] ≡ write_outcome image.old blocks.old anodes.old directory name.now offset bytes.now }
{
    answer(change_calls::write(image, blocks, anodes, directory, name, offset, bytes))
}

// Removes a file or an empty directory; a refused call leaves the image.
#[unsafe(no_mangle)]
pub extern "C" fn pfs_remove(
    image: &mut [u8],
    blocks: &mut [u16],
    anodes: &mut [u16],
    directory: u16,
    name: &[u8],
) -> u32
    ensures { outcome_of result image.new blocks.new anodes.new [] [] ≡ remove_outcome image.old blocks.old anodes.old directory name.now }
{
    answer(change_calls::remove(image, blocks, anodes, directory, name))
}

// The number that a safe call answers, and how many writes it hands out: 0 after a refusal.
fn counted(listed: Result<u32, Refusal>, count: &mut [u32; 1]) -> u32
    ensures answer { result ≡ answer_of listed }
    ensures writes { get_or count.new 0 0 ≡ writes_in listed }
{
    match listed {
        Ok(n) => {
            *count = [n];
            0
        }
        Err(refusal) => {
            *count = [0];
            u32::from(refusal)
        }
    }
}

// Makes a file of type 253 or a directory of type 2 safely: the block writes that do it go to the buffer, the root last, and their number to `count`; a refused call leaves the image and the buffer, and counts 0.
#[unsafe(no_mangle)]
pub extern "C" fn pfs_safe_make(
    image: &mut [u8],
    blocks: &mut [u16],
    anodes: &mut [u16],
    directory: u16,
    kind: u8,
    name: &[u8],
    comment: &[u8],
    day: u16,
    minute: u16,
    tick: u16,
    protection: u8,
    writes: &mut [u8],
    count: &mut [u32; 1],
) -> u32
    ensures { safe_outcome_of result image.new blocks.new anodes.new writes.new (get_or count.new 0 0) ≡ safe_outcome image.old blocks.old anodes.old writes.old (safe_make directory kind name.now comment.now day minute tick protection) }
{
    let made = safe_calls::safe_make(
        image, blocks, anodes, directory, kind, name, comment, day, minute, tick, protection,
        writes,
    );
    counted(made, count)
}

// Resizes a file safely: the block writes that do it go to the buffer, the root last, and their number to `count`; a refused call leaves the image and the buffer, and counts 0.
#[unsafe(no_mangle)]
pub extern "C" fn pfs_safe_resize(
    image: &mut [u8],
    blocks: &mut [u16],
    anodes: &mut [u16],
    directory: u16,
    name: &[u8],
    size: u64,
    writes: &mut [u8],
    count: &mut [u32; 1],
) -> u32
    ensures { safe_outcome_of result image.new blocks.new anodes.new writes.new (get_or count.new 0 0) ≡ safe_outcome image.old blocks.old anodes.old writes.old (safe_resize directory name.now size) }
{
    let resized = safe_calls::safe_resize(image, blocks, anodes, directory, name, size, writes);
    counted(resized, count)
}

// Writes bytes of a file safely from the offset on: the block writes that do it go to the buffer, the root last, and their number to `count`; a refused call leaves the image and the buffer, and counts 0.
#[unsafe(no_mangle)]
pub extern "C" fn pfs_safe_write(
    image: &mut [u8],
    blocks: &mut [u16],
    anodes: &mut [u16],
    directory: u16,
    name: &[u8],
    offset: u64,
    bytes: &[u8],
    writes: &mut [u8],
    count: &mut [u32; 1],
) -> u32
    ensures { safe_outcome_of result image.new blocks.new anodes.new writes.new (get_or count.new 0 0) ≡ safe_outcome image.old blocks.old anodes.old writes.old (safe_write directory name.now offset bytes.now) }
{
    let written = safe_calls::safe_write(
        image, blocks, anodes, directory, name, offset, bytes, writes,
    );
    counted(written, count)
}

// Removes a file or an empty directory safely: the block writes that do it go to the buffer, the root last, and their number to `count`; a refused call leaves the image and the buffer, and counts 0.
#[unsafe(no_mangle)]
pub extern "C" fn pfs_safe_remove(
    image: &mut [u8],
    blocks: &mut [u16],
    anodes: &mut [u16],
    directory: u16,
    name: &[u8],
    writes: &mut [u8],
    count: &mut [u32; 1],
) -> u32
    ensures { safe_outcome_of result image.new blocks.new anodes.new writes.new (get_or count.new 0 0) ≡ safe_outcome image.old blocks.old anodes.old writes.old (safe_remove directory name.now) }
{
    let removed = safe_calls::safe_remove(image, blocks, anodes, directory, name, writes);
    counted(removed, count)
}

// Makes the hard disk edition's bitmap of the free blocks in the buffer; a refused call leaves it.
#[unsafe(no_mangle)]
pub extern "C" fn pfs_bitmap(
    image: &[u8],
    blocks: &mut [u16],
    anodes: &mut [u16],
    bitmap: &mut [u8],
) -> u32
    ensures { outcome_of result image.now blocks.new anodes.new bitmap.new [] ≡ bitmap_outcome image.now blocks.old anodes.old bitmap.old }
{
    answer(bitmap_calls::bitmap(image, blocks, anodes, bitmap))
}

// Whether some byte of the buffer differs from that bitmap, and the first that does; zero fields after a refusal.
#[unsafe(no_mangle)]
pub extern "C" fn pfs_bitmap_differs(
    image: &[u8],
    blocks: &mut [u16],
    anodes: &mut [u16],
    bitmap: &[u8],
    fields: &mut [u32; 2],
) -> u32
    ensures { outcome_of result image.now blocks.new anodes.new fields.new [] ≡ bitmap_differs_outcome image.now blocks.old anodes.old bitmap.now }
{
    answer(bitmap_calls::bitmap_differs(image, blocks, anodes, bitmap, fields))
}

// Feeds an image to the totals of a shift report: 31 before any check if they are full, else the check, this disk's five numbers and the totals with it.
#[unsafe(no_mangle)]
pub extern "C" fn pfs_report(
    image: &[u8],
    blocks: &mut [u16],
    anodes: &mut [u16],
    totals: &mut [u64; 24],
    disk: &mut [u64; 5],
) -> u32
    ensures { reported (outcome_of result image.now blocks.new anodes.new disk.new []) totals.new ≡ report_outcome image.now blocks.old anodes.old totals.old disk.old }
{
    answer(report_calls::report(image, blocks, anodes, totals, disk))
}

// Converts a settings file of old records to new ones; a refused call leaves the output buffer.
#[unsafe(no_mangle)]
pub extern "C" fn pfs_widen(file: &[u8], out: &mut [u8], fields: &mut [u32; 2]) -> u32
    ensures { conversion_of result out.new fields.new ≡ widen_outcome file.now out.old }
{
    answer(settings::widen(file, out, fields))
}

// Converts a settings file of new records to old ones; a refused call leaves the output buffer.
#[unsafe(no_mangle)]
pub extern "C" fn pfs_narrow(file: &[u8], out: &mut [u8], fields: &mut [u32; 2]) -> u32
    ensures { conversion_of result out.new fields.new ≡ narrow_outcome file.now out.old }
{
    answer(settings::narrow(file, out, fields))
}

// Compares two images: the difference at a place from 0, or 22 past the last; the second is checked only after the first is accepted.
#[unsafe(no_mangle)]
pub extern "C" fn pfs_compare(
    image: &[u8],
    blocks: &mut [u16],
    anodes: &mut [u16],
    other: &[u8],
    other_blocks: &mut [u16],
    other_anodes: &mut [u16],
    place: u64,
    fields: &mut [u32; 7],
) -> u32
    ensures { compared_of result fields.new [] blocks.new anodes.new other_blocks.new other_anodes.new ≡ compare_outcome image.now blocks.old anodes.old other.now other_blocks.old other_anodes.old place }
{
    answer(compare_calls::compare(
        image,
        blocks,
        anodes,
        other,
        other_blocks,
        other_anodes,
        place,
        fields,
    ))
}

// Compares two images: as many differences from a place on as the buffer holds, six numbers for each; a refusal leaves the buffer.
#[unsafe(no_mangle)]
pub extern "C" fn pfs_differences(
    image: &[u8],
    blocks: &mut [u16],
    anodes: &mut [u16],
    other: &[u8],
    other_blocks: &mut [u16],
    other_anodes: &mut [u16],
    place: u64,
    out: &mut [u32],
    fields: &mut [u32; 2],
) -> u32
    ensures { compared_of result fields.new out.new blocks.new anodes.new other_blocks.new other_anodes.new ≡ differences_outcome image.now blocks.old anodes.old other.now other_blocks.old other_anodes.old place out.old }
{
    answer(compare_calls::differences(
        image,
        blocks,
        anodes,
        other,
        other_blocks,
        other_anodes,
        place,
        out,
        fields,
    ))
}
