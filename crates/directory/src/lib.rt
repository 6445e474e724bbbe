// Directory blocks and their entries: readers and writers of one lent block.
#![tactic(auto)]

ghost use Rattle.std.specs.Prelude.{◌≡◌, ◌+◌, ◌*◌, ◌<◌, ◌≤◌, length};
ghost use Rattle.directory.specs.Entries.{kind_read, type_of, is_dir, good_name, good_name_byte, directory_header_in, put_directory_header, entry_length, entry_shaped, entry_in, walked_at, put_entry};

use disk::{AnodeNo, Refusal};
use endian::{clear, part, read8, read16, read32, store, write8, write16, write32};

// What an entry names.
#[derive(Clone, Copy, PartialEq, Eq)]
pub enum Kind {
    File,
    Directory,
}

// A type byte that is neither a file's nor a directory's.
#[derive(Clone, Copy, PartialEq, Eq)]
pub struct UnknownKind(pub u8);

// An entry's fields; of its name and its comment the lengths.
#[derive(Clone, Copy)]
pub struct Entry {
    pub kind: Kind,
    pub anode: AnodeNo,
    pub size: u32,
    pub day: u16,
    pub minute: u16,
    pub tick: u16,
    pub protection: u8,
    pub name: u8,
    pub comment: u8,
}

// A directory block's mark, its directory's head anode and the parent directory's.
#[derive(Clone, Copy)]
pub struct DirectoryHeader {
    pub mark: u16,
    pub owner: AnodeNo,
    pub parent: AnodeNo,
}

// A directory block's head.
pub fn directory_header_in(block: &[u8]) -> DirectoryHeader
    ensures { result ≡ directory_header_in block.now }
{
    DirectoryHeader {
        mark: read16(block, 0),
        owner: AnodeNo(read16(block, 12)),
        parent: AnodeNo(read16(block, 14)),
    }
}

// Stores a directory block's head.
pub fn put_directory_header(block: &mut [u8], head: DirectoryHeader)
    ensures { block.new ≡ put_directory_header block.old head }
{
    write16(block, 0, head.mark);
    write16(block, 12, head.owner.0);
    write16(block, 14, head.parent.0);
}

// What a type byte says: 253 a file, 2 a directory.
impl TryFrom<u8> for Kind {
    type Error = UnknownKind;

    ghost try_from_gives = { λ byte read. read ≡ kind_read byte };

    fn try_from(byte: u8) -> Result<Kind, UnknownKind> {
        if byte == 253 {
            return Ok(Kind::File);
        }
        if byte == 2 {
            return Ok(Kind::Directory);
        }
        Err(UnknownKind(byte))
    }
}

// The type byte of a kind.
impl From<Kind> for u8 {
    ghost from_gives = { λ kind byte. byte ≡ type_of kind };

    fn from(kind: Kind) -> u8 {
        match kind {
            Kind::File => 253,
            Kind::Directory => 2,
        }
    }
}

impl Kind {
    // Whether an entry is a directory's.
    pub fn is_directory(self) -> bool
        ensures { result ≡ is_dir self }
    {
        self == Kind::Directory
    }
}

// A byte that may stand in a name.
fn name_byte(byte: u8) -> bool
    ensures { result ≡ good_name_byte byte }
{
    if byte == 0 {
        return false;
    }
    if byte == 58 {
        return false;
    }
    byte != 47
}

// A name that an entry may have.
pub fn name_ok(name: &[u8]) -> bool
    ensures { result ≡ good_name name.now }
{
    if name.len() < 1 {
        return false;
    }
    if 107 < name.len() {
        return false;
    }
    for &byte in name {
        if !name_byte(byte) {
            return false;
        }
    }
    true
}

// An entry's length by those of its name and its comment.
pub fn entry_len(name: u8, comment: u8) -> usize
    ensures { result ≡ entry_length name comment }
{
    ((name as usize) + (comment as usize) + 18) / 2 * 2
}

// Whether length, name, comment and room of the entry at a place of a directory block are as the rules ask.
fn entry_ok(block: &[u8], at: usize) -> bool
    requires { at < length block.now }
    ensures { result ≡ entry_shaped block.now at }
{
    let len = block[at] as usize;
    let name_len = read8(block, at + 15);
    let name_end = at + 16 + (name_len as usize);
    let comment_len = read8(block, name_end);
    if len != entry_len(name_len, comment_len) {
        return false;
    }
    if 510 < at + len {
        return false;
    }
    if 79 < comment_len {
        return false;
    }
    name_ok(part(block, at + 16, name_len as usize))
}

// The fields of the entry at a place of a directory block.
fn entry_in(block: &[u8], at: usize, kind: Kind) -> Entry
    requires { at < length block.now }
    ensures { result ≡ entry_in block.now at kind }
{
    let name = read8(block, at + 15);
    let name_end = at + 16 + (name as usize);
    Entry {
        kind,
        anode: AnodeNo(read16(block, at + 2)),
        size: read32(block, at + 4),
        day: read16(block, at + 8),
        minute: read16(block, at + 10),
        tick: read16(block, at + 12),
        protection: read8(block, at + 14),
        name,
        comment: read8(block, name_end),
    }
}

// What stands at a place of a directory block: an entry by the rules, none at the end mark, or neither.
pub fn entry_at(block: &[u8], at: usize) -> Result<Option<Entry>, Refusal>
    ensures { result ≡ walked_at block.now at }
{
    if block.len() <= at {
        return Ok(None);
    }
    if block[at] == 0 {
        return Ok(None);
    }
    if !entry_ok(block, at) {
        return Err(Refusal::DirectoryBlock);
    }
    match Kind::try_from(read8(block, at + 1)) {
        Ok(kind) => Ok(Some(entry_in(block, at, kind))),
        Err(_) => Err(Refusal::DirectoryBlock),
    }
}

// Stores an entry at a place of a directory block, and zeros for its pad byte and the byte after it.
pub fn put_entry(block: &mut [u8], at: usize, e: Entry, name: &[u8], comment: &[u8])
    requires { at ≤ 512 }
    ensures { block.new ≡ put_entry block.old at e name.now comment.now }
{
    let kind = e.kind;
    let len = entry_len(e.name, e.comment);
    let name_end = at + 16 + (e.name as usize);
    let comment_end = name_end + 1 + (e.comment as usize);
    write8(block, at, (len % 256) as u8);
    write8(block, at + 1, u8::from(kind));
    write16(block, at + 2, e.anode.0);
    write32(block, at + 4, e.size);
    write16(block, at + 8, e.day);
    write16(block, at + 10, e.minute);
    write16(block, at + 12, e.tick);
    write8(block, at + 14, e.protection);
    write8(block, at + 15, e.name);
    store(block, at + 16, name);
    write8(block, name_end, e.comment);
    store(block, name_end + 1, comment);
    clear(block, comment_end, at + len + 1 - comment_end);
}
