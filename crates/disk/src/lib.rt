// The vocabulary of a PFS disk: the two kinds of number, anodes and refusals, and readers and writers of the root block and of an anode block.
#![tactic(auto)]

ghost use Rattle.std.specs.Prelude.{◌≡◌, ◌+◌, ◌<◌, min};
ghost use Rattle.disk.specs.Refusals.{number_of, answer_of};
ghost use Rattle.disk.specs.Blocks.{block_of};
ghost use Rattle.disk.specs.Root.{root_in, put_root, slot_in, put_slot, slot_of};
ghost use Rattle.disk.specs.AnodeBlocks.{anode_made, anode_header_in, put_anode_header, anode_in, put_anode, set_anode};

use endian::{part, read8, read16, read32, store, write8, write16, write32};

// A block's number.
#[derive(Clone, Copy, PartialEq, Eq)]
pub struct BlockNo(pub u16);

// An anode's number.
#[derive(Clone, Copy, PartialEq, Eq)]
pub struct AnodeNo(pub u16);

// How many blocks, the first of them, and the next anode of the chain.
#[derive(Clone, Copy)]
pub struct Anode {
    pub count: u16,
    pub block: BlockNo,
    pub next: AnodeNo,
}

// One case for each refusal number of the rules.
#[derive(Clone, Copy, PartialEq, Eq)]
pub enum Refusal {
    ImageSize,
    TableSize,
    DiskType,
    RootBlock,
    AnodeBlock,
    FixedAnode,
    AnodeRange,
    ChainLinks,
    FreeList,
    TwoOwners,
    NoOwner,
    DirectoryBlock,
    EntryAnode,
    NamedTwice,
    FileSize,
    UnnamedChain,
    NamesAlike,
    BadArgument,
    NoDirectory,
    NotFound,
    AlreadyThere,
    IsDirectory,
    NotEmpty,
    PastEnd,
    NoFreeBlock,
    NoFreeAnode,
    ReportFull,
    ShortWriteList,
    BitmapSize,
    SettingsForm,
    LongSeconds,
    ShortOutput,
}

// The root block's fixed fields: the disk type, the stamp, the length of the disk's name, first and last reserved.
#[derive(Clone, Copy)]
pub struct Root {
    pub signature: u32,
    pub day: u16,
    pub minute: u16,
    pub tick: u16,
    pub protection: u16,
    pub name: u8,
    pub first: BlockNo,
    pub last: BlockNo,
}

// An anode block's mark and sequence number.
#[derive(Clone, Copy)]
pub struct AnodeHeader {
    pub mark: u16,
    pub sequence: u16,
}

// The number of a refusal.
impl From<Refusal> for u32 {
    ghost from_gives = { λ refusal n. n ≡ number_of refusal };

    fn from(refusal: Refusal) -> u32 {
        match refusal {
            Refusal::ImageSize => 1,
            Refusal::TableSize => 2,
            Refusal::DiskType => 3,
            Refusal::RootBlock => 4,
            Refusal::AnodeBlock => 5,
            Refusal::FixedAnode => 6,
            Refusal::AnodeRange => 7,
            Refusal::ChainLinks => 8,
            Refusal::FreeList => 9,
            Refusal::TwoOwners => 10,
            Refusal::NoOwner => 11,
            Refusal::DirectoryBlock => 12,
            Refusal::EntryAnode => 13,
            Refusal::NamedTwice => 14,
            Refusal::FileSize => 15,
            Refusal::UnnamedChain => 16,
            Refusal::NamesAlike => 17,
            Refusal::BadArgument => 20,
            Refusal::NoDirectory => 21,
            Refusal::NotFound => 22,
            Refusal::AlreadyThere => 23,
            Refusal::IsDirectory => 24,
            Refusal::NotEmpty => 25,
            Refusal::PastEnd => 26,
            Refusal::NoFreeBlock => 27,
            Refusal::NoFreeAnode => 28,
            Refusal::ReportFull => 31,
            Refusal::ShortWriteList => 32,
            Refusal::BitmapSize => 40,
            Refusal::SettingsForm => 50,
            Refusal::LongSeconds => 51,
            Refusal::ShortOutput => 52,
        }
    }
}

// The number that a call answers: 0 where it is done.
pub fn answer(done: Result<(), Refusal>) -> u32
    ensures { result ≡ answer_of done }
{
    match done {
        Ok(()) => 0,
        Err(refusal) => u32::from(refusal),
    }
}

// The bytes of block `b`, as many of them as there are.
pub fn block_part(image: &[u8], b: BlockNo) -> &[u8]
    ensures { result.now ≡ block_of image.now b.0 }
{
    part(image, (b.0 as usize) * 512, 512)
}

// The end of the block that starts at `from`: 512 bytes on, or the end of an image of `len` bytes before that.
pub fn block_end(len: usize, from: usize) -> usize
    ensures { result ≡ min (from + 512) len }
{
    if len <= from {
        return len;
    }
    if len - from < 512 {
        return len;
    }
    from + 512
}

// The root block's fields.
pub fn root_in(block: &[u8]) -> Root
    ensures { result ≡ root_in block.now }
{
    Root {
        signature: read32(block, 0),
        day: read16(block, 12),
        minute: read16(block, 14),
        tick: read16(block, 16),
        protection: read16(block, 18),
        name: read8(block, 20),
        first: BlockNo(read16(block, 52)),
        last: BlockNo(read16(block, 54)),
    }
}

// Stores the root block's fields and the disk's name.
pub fn put_root(block: &mut [u8], root: Root, name: &[u8])
    ensures { block.new ≡ put_root block.old root name.now }
{
    write32(block, 0, root.signature);
    write16(block, 12, root.day);
    write16(block, 14, root.minute);
    write16(block, 16, root.tick);
    write16(block, 18, root.protection);
    write8(block, 20, root.name);
    store(block, 21, name);
    write16(block, 52, root.first.0);
    write16(block, 54, root.last.0);
}

// The anode block number in slot `s` of the root block.
fn slot_in(block: &[u8], s: usize) -> BlockNo
    requires { s < 42 }
    ensures { result.0 ≡ slot_in block.now s }
{
    BlockNo(read16(block, 96 + 2 * s))
}

// Stores an anode block number in slot `s` of the root block.
pub fn put_slot(block: &mut [u8], s: usize, b: BlockNo)
    requires { s < 42 }
    ensures { block.new ≡ put_slot block.old s b.0 }
{
    write16(block, 96 + 2 * s, b.0);
}

// The anode block number in slot `s` of the image's root block; there is none from 42 on.
pub fn slot_of(image: &[u8], s: usize) -> BlockNo
    ensures { result.0 ≡ slot_of image.now s }
{
    if 42 <= s {
        return BlockNo(0);
    }
    slot_in(block_part(image, BlockNo(2)), s)
}

// An anode block's mark and sequence number.
pub fn anode_header_in(block: &[u8]) -> AnodeHeader
    ensures { result ≡ anode_header_in block.now }
{
    AnodeHeader {
        mark: read16(block, 0),
        sequence: read16(block, 10),
    }
}

// Stores an anode block's mark and sequence number.
pub fn put_anode_header(block: &mut [u8], head: AnodeHeader)
    ensures { block.new ≡ put_anode_header block.old head }
{
    write16(block, 0, head.mark);
    write16(block, 10, head.sequence);
}

// What a missing anode reads as: (0, 0, 0).
pub fn no_anode() -> Anode
    ensures { result ≡ anode_made 0 0 0 }
{
    Anode {
        count: 0,
        block: BlockNo(0),
        next: AnodeNo(0),
    }
}

// The anode at a place of an anode block.
pub fn anode_in(block: &[u8], place: usize) -> Anode
    requires { place < 82 }
    ensures { result ≡ anode_in block.now place }
{
    let at = 16 + 6 * place;
    Anode {
        count: read16(block, at),
        block: BlockNo(read16(block, at + 2)),
        next: AnodeNo(read16(block, at + 4)),
    }
}

// Stores an anode at a place of an anode block.
pub fn put_anode(block: &mut [u8], place: usize, x: Anode)
    requires { place < 82 }
    ensures { block.new ≡ put_anode block.old place x }
{
    let at = 16 + 6 * place;
    write16(block, at, x.count);
    write16(block, at + 2, x.block.0);
    write16(block, at + 4, x.next.0);
}

// Stores anode `a` of the image; nothing changes where it is missing.
pub fn set_anode(image: &mut [u8], a: AnodeNo, x: Anode)
    ensures { image.new ≡ set_anode image.old a.0 x }
{
    let n = a.0 as usize;
    let slot = slot_of(image, n / 82);
    if slot.0 == 0 {
        return;
    }
    let from = (slot.0 as usize) * 512;
    let end = block_end(image.len(), from);
    if end <= from {
        return;
    }
    put_anode(&mut image[from..end], n % 82, x);
}
