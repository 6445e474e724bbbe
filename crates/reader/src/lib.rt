// The entries of a directory block one after the other: a reader holds the block and a place in it together.
#![tactic(auto)]

ghost use Rattle.std.specs.Prelude.{◌≡◌};
ghost use Rattle.std.specs.Iterator.{at_most};
ghost use Rattle.reader.specs.Reads.{place_after, entry_read, Reads, GivesPlaces};

use directory::{Entry, entry_at};
use disk::Refusal;

// A directory block, a place in it, and how many entries may still come.
#[derive(Clone, Copy)]
pub struct Reader<'a> {
    block: &'a [u8],
    at: usize,
    left: usize,
}

// What stands at a place of a directory block, and the place behind it.
#[derive(Clone, Copy)]
pub struct PlaceRead {
    pub walked: Result<Option<Entry>, Refusal>,
    pub after: usize,
}

// An entry and its place in its block.
#[derive(Clone, Copy)]
pub struct EntryRead {
    pub at: usize,
    pub entry: Entry,
}

// The place behind what stands at a place of a directory block; past the end of the block the same place.
fn place_after(block: &[u8], at: usize) -> usize
    ensures { result ≡ place_after block.now at }
{
    if block.len() <= at {
        return at;
    }
    at + (block[at] as usize)
}

// What stands at a place of a directory block, and the place behind it.
pub fn read_entry(block: &[u8], at: usize) -> PlaceRead
    ensures { result ≡ entry_read block.now at }
{
    PlaceRead {
        walked: entry_at(block, at),
        after: place_after(block, at),
    }
}

impl<'a> Reader<'a> {
    // A reader of a block's entries, from 16 on; 27 of the shortest fill it.
    pub fn of(block: &'a [u8]) -> Reader<'a>
        ensures { (result.block ≡ block.entry) × (result.at ≡ 16) × (result.left ≡ 28) }
    {
        Reader {
            block,
            at: 16,
            left: 28,
        }
    }
}

// The entries from the reader's place on, up to the end mark or the first fault.
impl<'a> Iterator for Reader<'a> {
    type Item = Result<EntryRead, Refusal>;

    ghost next_gives = { Reads };

    ghost remaining = { λ r. at_most r.left };

    fn next(&mut self) -> Option<Result<EntryRead, Refusal>> {
        if self.left == 0 {
            return None;
        }
        let at = self.at;
        let read = read_entry(self.block, at);
        match read.walked {
            Ok(Some(entry)) => {
                self.at = read.after;
                self.left -= 1;
                Some(Ok(EntryRead { at, entry }))
            }
            Ok(None) => None,
            Err(fault) => {
                self.left = 0;
                Some(Err(fault))
            }
        }
    }
}

// The places of a block's entries, by their length bytes alone.
#[derive(Clone, Copy)]
pub struct Places<'a> {
    reader: Reader<'a>,
}

impl<'a> Places<'a> {
    // Those of a block, from 16 on.
    pub fn of(block: &'a [u8]) -> Places<'a>
        ensures { (result.reader.block ≡ block.entry) × (result.reader.at ≡ 16) × (result.reader.left ≡ 28) }
    {
        Places {
            reader: Reader::of(block),
        }
    }
}

// The places up to a length byte 0: those of the entries, where none of them breaks the rules.
impl<'a> Iterator for Places<'a> {
    type Item = usize;

    ghost next_gives = { GivesPlaces };

    ghost remaining = { λ p. at_most p.reader.left };

    fn next(&mut self) -> Option<usize> {
        if self.reader.left == 0 {
            return None;
        }
        let at = self.reader.at;
        let behind = place_after(self.reader.block, at);
        if behind == at {
            return None;
        }
        self.reader.at = behind;
        self.reader.left -= 1;
        Some(at)
    }
}
