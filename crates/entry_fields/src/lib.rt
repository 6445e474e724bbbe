// The fields in which two entries differ.
#![tactic(auto)]

ghost use Rattle.std.specs.Prelude.{cond, [], ◌≡◌, ◌/◌, ◌<◌, ◌≤◌, eqb};
ghost use Rattle.disk.specs.Blocks.{block_of};
ghost use Rattle.directory.specs.Entries.{is_dir, name_in};
ghost use Rattle.rules.specs.Counting.{same_bytes};
ghost use Rattle.paths.specs.Facts.{comment_in, facts_in, facts_of};
ghost use Rattle.differences.specs.Fields.{unless_same, same_stamps, fields_differing};
ghost use Rattle.lookup.specs.Answers.{entered};

use directory::Kind;
use endian::{part, read8, read16};
use lookup::EntryAt;

// Whether two runs of bytes are the same.
fn same_bytes(one: &[u8], other: &[u8]) -> bool
    ensures { result ≡ same_bytes one.now other.now }
{
    one == other
}

// The block that holds the byte at `start`.
fn entry_block(image: &[u8], start: usize) -> &[u8]
    ensures { result.now ≡ block_of image.now (start / 512) }
{
    part(image, start / 512 * 512, 512)
}

// The name of the entry at a place of a block.
fn stored_name(block: &[u8], at: usize) -> &[u8]
    requires { at < 512 }
    ensures { result.now ≡ name_in block.now at }
{
    let len = read8(block, at + 15) as usize;
    part(block, at + 16, len)
}

// Its comment.
fn comment_part(block: &[u8], at: usize) -> &[u8]
    requires { at < 512 }
    ensures { result.now ≡ comment_in block.now at }
{
    let name = read8(block, at + 15) as usize;
    let len = read8(block, at + 16 + name) as usize;
    part(block, at + 17 + name, len)
}

// Whether two entries have the same day, minute and tick.
fn same_stamps(block: &[u8], at: usize, other: &[u8], there: usize) -> bool
    requires { (at < 512) × (there < 512) }
    ensures { result ≡ same_stamps (facts_in block.now at 0 []) (facts_in other.now there 0 []) }
{
    if read16(block, at + 8) != read16(other, there + 8) {
        return false;
    }
    if read16(block, at + 10) != read16(other, there + 10) {
        return false;
    }
    read16(block, at + 12) == read16(other, there + 12)
}

// The number of a field, 0 where it is the same.
fn unless_same(same: bool, n: u32) -> u32
    ensures { (result ≡ unless_same same n) × (result ≤ n) }
{
    if same {
        return 0;
    }
    n
}

// The number of the size, if both are of one type and it differs.
fn size_differing(alike: bool, size: u32, other: u32) -> u32
    ensures { (result ≡ cond alike (unless_same (eqb size other) 32) 0) × (result ≤ 32) }
{
    if alike {
        return unless_same(size == other, 32);
    }
    0
}

// The size of a file, and 0 for a directory.
fn file_size(e: EntryAt) -> u32
    ensures { result ≡ cond (is_dir e.kind) 0 e.size }
{
    let kind = e.kind;
    match kind {
        Kind::File => e.size,
        Kind::Directory => 0,
    }
}

// The fields in which two entries of these sizes differ, each at a place of its block.
fn fields_in(block: &[u8], at: usize, size: u32, other: &[u8], there: usize, held: u32) -> u32
    requires { (at < 512) × (there < 512) }
    ensures { (result ≡ fields_differing (facts_in block.now at size []) (facts_in other.now there held [])) × (result < 64) }
{
    let alike = read8(block, at + 1) == read8(other, there + 1);
    let name = same_bytes(stored_name(block, at), stored_name(other, there));
    let comment = same_bytes(comment_part(block, at), comment_part(other, there));
    let stamps = same_stamps(block, at, other, there);
    let protection = read8(block, at + 14) == read8(other, there + 14);
    unless_same(alike, 1)
        + unless_same(name, 2)
        + unless_same(comment, 4)
        + unless_same(stamps, 8)
        + unless_same(protection, 16)
        + size_differing(alike, size, held)
}

// The fields in which an entry differs from one of another image: 1 type, 2 name bytes, 4 comment, 8 stamps, 16 protection and, if both are of one type, 32 size.
pub fn fields_differing(image: &[u8], e: EntryAt, other: &[u8], f: EntryAt) -> u32
    ensures { (result ≡ fields_differing (facts_of image.now (entered image.now e)) (facts_of other.now (entered other.now f))) × (result < 64) }
{
    let block = entry_block(image, e.start);
    let there = entry_block(other, f.start);
    fields_in(
        block,
        e.start % 512,
        file_size(e),
        there,
        f.start % 512,
        file_size(f),
    )
}
