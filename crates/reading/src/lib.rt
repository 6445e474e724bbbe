// Reads a file, lists an entry and finds one by name in an accepted image.
#![tactic(auto)]

ghost use Rattle.std.specs.Prelude.{IfOk, ◌≡◌, ◌+◌, ◌*◌, ◌<◌, length, get_or};
ghost use Rattle.disk.specs.Refusals.{answer_of};
ghost use Rattle.rules.specs.Anodes.{anodes_of};
ghost use Rattle.rules.specs.Lookup.{entry_named, entries_of, name_at, nth};
ghost use Rattle.rules.specs.Calls.{span_refusal, bytes_read, list_refusal, fields_at, fields_listed, name_listed};
ghost use Rattle.looks.specs.Calls.{find_refusal};
ghost use Rattle.find.specs.Open.{OpenAnodes, OpenFor};
ghost use Rattle.reading.specs.Parts.{StartsAt, NameStands};

use contents::copy_out;
use disk::{AnodeNo, BlockNo, Refusal, block_part};
use endian::{read8, read16, read32};
use find::{find_named, find_nth, find_span};

// Fills the buffer with the file's bytes from the offset on; 21, 22, 24, 26.
pub fn read_named(
    image: &[u8],
    counts: &[u16],
    firsts: &[u16],
    nexts: &[u16],
    queue: &[u16],
    heads: &[u16],
    dirs: u16,
    head: AnodeNo,
    name: &[u8],
    offset: u64,
    out: &mut [u8],
) -> Result<(), Refusal>
    requires { OpenAnodes image.now counts.now firsts.now nexts.now queue.now heads.now dirs }
    ensures answer { answer_of result ≡ span_refusal image.now (anodes_of image.now) head.0 name.now offset (length out.old) }
    ensures output { out.new ≡ bytes_read (answer_of result) image.now (anodes_of image.now) (entry_named image.now (anodes_of image.now) head.0 name.now) offset out.old }
{
    let e = find_span(
        image,
        firsts,
        nexts,
        queue,
        heads,
        dirs,
        head,
        name,
        offset,
        out.len(),
    )?;
    copy_out(image, counts, firsts, nexts, e.anode, offset, out);
    Ok(())
}

// The name of the entry at a place of the image, as a part of it that starts 16 bytes into the entry.
fn name_part(image: &[u8], start: usize) -> &[u8]
    requires { (start < 65536 * 512) × NameStands image.now start }
    ensures name { result.now ≡ name_at image.now start }
    ensures part { StartsAt image.entry result (start + 16) }
{
    let at = start % 512;
    let block = block_part(image, BlockNo((start / 512) as u16));
    let from = start + 16;
    let end = from + (read8(block, at + 15) as usize);
    &image[from..end]
}

// Stores the fields of the entry at a place of the image in the lent array.
fn put_fields(image: &[u8], start: usize, fields: &mut [u32; 11])
    requires { start < 65536 * 512 }
    ensures { fields.new ≡ fields_at image.now start }
{
    let at = start % 512;
    let block = block_part(image, BlockNo((start / 512) as u16));
    let name = read8(block, at + 15) as u32;
    *fields = [
        read8(block, at + 1) as u32,
        read16(block, at + 2) as u32,
        read32(block, at + 4),
        read16(block, at + 8) as u32,
        read16(block, at + 10) as u32,
        read16(block, at + 12) as u32,
        read8(block, at + 14) as u32,
        start as u32 + 16,
        name,
        start as u32 + 17 + name,
        read8(block, at + 16 + (name as usize)) as u32,
    ];
}

// The fields of the n-th entry of a directory and its name, a part of the lent image; 21, 22.
pub fn list_nth<'a>(
    image: &'a [u8],
    firsts: &[u16],
    nexts: &[u16],
    queue: &[u16],
    heads: &[u16],
    dirs: u16,
    head: AnodeNo,
    n: u64,
    fields: &mut [u32; 11],
) -> Result<&'a [u8], Refusal>
    requires { OpenFor image.now firsts.now nexts.now queue.now heads.now dirs }
    ensures answer { answer_of result ≡ list_refusal image.now (anodes_of image.now) head.0 n }
    ensures fields { fields.new ≡ fields_listed (answer_of result) image.now (nth (entries_of image.now (anodes_of image.now) head.0) n) }
    ensures name { IfOk result (λ name. name.now ≡ name_listed (answer_of result) (nth (entries_of image.now (anodes_of image.now) head.0) n)) }
    ensures part { IfOk result (λ name. StartsAt image.entry name (get_or fields.new 7 0)) }
{
    *fields = [0u32; 11];
    let e = find_nth(image, firsts, nexts, queue, heads, dirs, head, n)?;
    put_fields(image, e.start, fields);
    Ok(name_part(image, e.start))
}

// The fields of the first entry with that name in a directory; 21, 22.
pub fn find_entry(
    image: &[u8],
    firsts: &[u16],
    nexts: &[u16],
    queue: &[u16],
    heads: &[u16],
    dirs: u16,
    head: AnodeNo,
    name: &[u8],
    fields: &mut [u32; 11],
) -> Result<(), Refusal>
    requires { OpenFor image.now firsts.now nexts.now queue.now heads.now dirs }
    ensures answer { answer_of result ≡ find_refusal image.now (anodes_of image.now) head.0 name.now }
    ensures fields { fields.new ≡ fields_listed (answer_of result) image.now (entry_named image.now (anodes_of image.now) head.0 name.now) }
{
    *fields = [0u32; 11];
    let e = find_named(image, firsts, nexts, queue, heads, dirs, head, name)?;
    put_fields(image, e.start, fields);
    Ok(())
}
