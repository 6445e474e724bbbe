// The names that a walk has met: each is looked for among the earlier ones of its directory by an index.
#![tactic(auto)]

ghost use Rattle.std.specs.Prelude.{◌≡◌, ℕ, ◌+◌, ◌*◌, ◌-◌, ◌/◌, ◌%◌, ◌<◌, ◌≤◌, ◌∷◌, get_or};
ghost use Rattle.disk.specs.Blocks.{block_of};
ghost use Rattle.directory.specs.Entries.{name_in};
ghost use Rattle.rules.specs.Counting.{any_in, same_bytes};
ghost use Rattle.rules.specs.Folding.{folded};
ghost use Rattle.names.specs.Index.{folded_in, name_of, seen_in, hash_of, bucket_of, print_of, last_below, is_same, Chain, Indexed, start_of, InBlock, joined};

use disk::{BlockNo, block_part};
use endian::{part, read8};
use folding::{fold, same_folded};
use tables::{entry, set_entry};

// The name of the entry at a place of block `b`.
pub fn name_at(image: &[u8], b: u16, at: u16) -> &[u8]
    ensures { result.now ≡ name_in (block_of image.now b) at }
{
    let block = block_part(image, BlockNo(b));
    let from = at as usize;
    let len = read8(block, from + 15) as usize;
    part(block, from + 16, len)
}

// The hash of a name, folded.
fn hash(name: &[u8]) -> u64
    ensures { (result ≡ hash_of (folded name.now)) × (result < 268435456) }
{
    let mut h: u64 = 0;
    for b in name {
        h = (h * 31 + fold(*b) as u64) % 268435456;
    }
    h
}

// Whether entry `j` has the name with this rest of its hash.
fn same_at(image: &[u8], index: &[u16], name: &[u8], print: u16, j: usize) -> bool
    requires { (get_or index.now (7540 + j) 0 ≡ print_of (name_of image.now index.now j)) × (print ≡ print_of (folded name.now)) × (j < 3444) }
    ensures { result ≡ same_bytes (folded name.now) (name_of image.now index.now j) }
{
    if entry(index, 7540 + j) != print {
        return false;
    }
    let b = entry(index, 10984 + j);
    let at = entry(index, 14428 + j);
    same_folded(name, name_at(image, b, at))
}

// One more than the number of the last entry of the bucket's chain, from the one before `first` down to `from`, that has the name; 0 if none has.
fn last_same(image: &[u8], index: &[u16], name: &[u8], print: u16, from: usize, first: u16) -> u16
    requires { Chain image.now index.now (bucket_of (folded name.now)) first × (print ≡ print_of (folded name.now)) }
    ensures { result ≡ last_below (is_same image.now index.now from (folded name.now)) first }
{
    let mut x = first as usize;
    // a while loop, for the links of the bucket give the next entry
    while from < x {
        let j = x - 1;
        if same_at(image, index, name, print, j) {
            return x as u16;
        }
        x = entry(index, 4096 + j) as usize;
    }
    0
}

// One more than the number of the last entry from `from` up to `i` that has the name with this hash; 0 if none has.
fn last_named(image: &[u8], index: &[u16], from: usize, i: usize, name: &[u8], h: u64) -> u16
    requires { Indexed image.now index.now i × (h ≡ hash_of (folded name.now)) × (h < 268435456) }
    ensures { result ≡ last_below (is_same image.now index.now from (folded name.now)) i }
{
    let first = entry(index, (h % 4096) as usize);
    last_same(image, index, name, (h / 4096) as u16, from, first)
}

// Puts entry `i`, at a place of block `b`, into the bucket of its name's hash.
fn join(index: &mut [u16], h: u64, i: usize, b: u16, at: u16)
    requires { (i < 3444) × (h < 268435456) }
    ensures { index.new ≡ joined index.old (h % 4096) i (get_or index.old (h % 4096) 0) (h / 4096) b at }
{
    let bucket = (h % 4096) as usize;
    let first = entry(index, bucket);
    set_entry(index, 10984 + i, b);
    set_entry(index, 14428 + i, at);
    set_entry(index, 7540 + i, (h / 4096) as u16);
    set_entry(index, 4096 + i, first);
    set_entry(index, bucket, (i + 1) as u16);
}

// Whether an entry from `from` up to `i` has the folded name of the one at a place of block `b`, which joins the index as entry `i`.
pub fn enter_name(
    image: &[u8],
    index: &mut [u16],
    from: usize,
    i: usize,
    b: BlockNo,
    at: usize,
) -> bool
    requires { Indexed image.now index.old i × (i < 3444) × (from ≤ i) × (at < 512) }
    ensures found { result ≡ any_in (same_bytes (folded_in image.now b.0 at)) (seen_in image.now index.old from (i - from)) }
    ensures indexed { Indexed image.now index.new (i + 1) }
    ensures seen { seen_in image.now index.new from (i + 1 - from) ≡ folded_in image.now b.0 at ∷ seen_in image.now index.old from (i - from) }
{
    let place = at as u16;
    let name = name_at(image, b.0, place);
    let h = hash(name);
    let last = last_named(image, index, from, i, name, h);
    join(index, h, i, b.0, place);
    last != 0
}

// Puts the entry at a place of block `b` into the index as entry `i`.
pub fn add_name(image: &[u8], index: &mut [u16], i: usize, b: BlockNo, at: usize)
    requires { Indexed image.now index.old i × (i < 3444) × (at < 512) }
    ensures indexed { Indexed image.now index.new (i + 1) }
    ensures placed { start_of index.new i ≡ b.0 * 512 + at }
    ensures others { (k : ℕ) → k < i → start_of index.new k ≡ start_of index.old k }
    ensures within { (k : ℕ) → k ≤ i → (k < i → InBlock index.old k) → InBlock index.new k }
{
    let place = at as u16;
    let h = hash(name_at(image, b.0, place));
    join(index, h, i, b.0, place);
}

// One more than the number of the last entry from `from` up to `i` that has the name, A to Z folded; 0 if none has.
pub fn find_name(image: &[u8], index: &[u16], from: usize, i: usize, name: &[u8]) -> u16
    requires { Indexed image.now index.now i }
    ensures { (result ≡ last_below (is_same image.now index.now from (folded name.now)) i) × (result ≤ i) }
{
    last_named(image, index, from, i, name, hash(name))
}
