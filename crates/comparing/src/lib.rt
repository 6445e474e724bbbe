// The differences of two accepted images, handed out one after the other: the first's directories with their partners in the second, then what only the second has.
#![tactic(auto)]

ghost use Rattle.std.specs.Prelude.{List, [], ◌≡◌};
ghost use Rattle.rules.specs.Counting.{gather};
ghost use Rattle.rules.specs.Anodes.{anodes_of};
ghost use Rattle.rules.specs.Walk.{entries_in, reached_dirs};
ghost use Rattle.rules.specs.Lookup.{entries_of};
ghost use Rattle.anodes.specs.Loaded.{Loaded};
ghost use Rattle.names.specs.Index.{Indexed};
ghost use Rattle.counterparts.specs.Spans.{SpanOf, HeadsDirectory};
ghost use Rattle.differences.specs.Differences.{differences};
ghost use Rattle.differences.specs.Pairs.{pairs_of, paired_all, first_pairs, entry_difference, differences_along, pairs_along};
ghost use Rattle.differences.specs.Handing.{hand_all, handing_of};
ghost use Rattle.handing.specs.Differs.{handing_with};
ghost use Rattle.comparing.specs.Walked.{ReadableEntries, OpenWalk};

use counterparts::{Span, find_counterpart, open_directory};
use disk::{AnodeNo, BlockNo, block_part};
use entry_pairs::compare_entry;
use handing::Handed;
use links::Links;
use lookup::entry_in_image;
use names::name_at;
use reader::Reader;
use tables::entry;
use unmet_entries::hand_unmet;

// The entries of block `b` of a directory whose partner is `p`.
fn compare_block(
    image: &[u8],
    counts: &[u16],
    firsts: &[u16],
    nexts: &[u16],
    b: BlockNo,
    other: &[u8],
    other_counts: &[u16],
    other_firsts: &[u16],
    other_nexts: &[u16],
    index: &[u16],
    span: Span,
    p: AnodeNo,
    partners: &mut [u16],
    met: &mut [u16],
    out: &mut [u32],
    c: Handed,
) -> Handed
    requires loaded { Loaded image.now counts.now firsts.now nexts.now × ReadableEntries image.now (entries_in image.now b.0) }
    requires loaded_2 { Loaded other.now other_counts.now other_firsts.now other_nexts.now × HeadsDirectory other.now p.0 }
    requires span_of { SpanOf other.now index.now span (entries_of other.now (anodes_of other.now) p.0) }
    ensures pairs { pairs_of partners.new met.new ≡ paired_all other.now p.0 (pairs_of partners.old met.old) (entries_in image.now b.0) }
    ensures differences { handing_with out.new result ≡ hand_all (handing_with out.old c) (gather (entry_difference image.now other.now p.0) (entries_in image.now b.0)) }
{
    let mut so_far = c;
    for item in Reader::of(block_part(image, b)) {
        let Ok(read) = item else {
            return so_far;
        };
        let name = name_at(image, b.0, read.at as u16);
        so_far = compare_entry(
            image,
            counts,
            firsts,
            nexts,
            entry_in_image(b, read.at, read.entry),
            other,
            other_counts,
            other_firsts,
            other_nexts,
            find_counterpart(other, index, span, name),
            partners,
            met,
            out,
            so_far,
        );
    }
    so_far
}

// The entries of the directory that `head` heads, whose partner is `p`.
fn compare_directory(
    image: &[u8],
    counts: &[u16],
    firsts: &[u16],
    nexts: &[u16],
    head: AnodeNo,
    other: &[u8],
    other_counts: &[u16],
    other_firsts: &[u16],
    other_nexts: &[u16],
    index: &[u16],
    span: Span,
    p: AnodeNo,
    partners: &mut [u16],
    met: &mut [u16],
    out: &mut [u32],
    c: Handed,
) -> Handed
    requires loaded { Loaded image.now counts.now firsts.now nexts.now × ReadableEntries image.now (entries_of image.now (anodes_of image.now) head.0) }
    requires loaded_2 { Loaded other.now other_counts.now other_firsts.now other_nexts.now × HeadsDirectory other.now p.0 }
    requires span_of { SpanOf other.now index.now span (entries_of other.now (anodes_of other.now) p.0) }
    ensures pairs { pairs_of partners.new met.new ≡ paired_all other.now p.0 (pairs_of partners.old met.old) (entries_of image.now (anodes_of image.now) head.0) }
    ensures differences { handing_with out.new result ≡ hand_all (handing_with out.old c) (gather (entry_difference image.now other.now p.0) (entries_of image.now (anodes_of image.now) head.0)) }
{
    let mut so_far = c;
    for a in Links::along(nexts, head) {
        let b = BlockNo(entry(firsts, a.0 as usize));
        so_far = compare_block(
            image,
            counts,
            firsts,
            nexts,
            b,
            other,
            other_counts,
            other_firsts,
            other_nexts,
            index,
            span,
            p,
            partners,
            met,
            out,
            so_far,
        );
    }
    so_far
}

// The directories of the first image, in the order of its walk, each with its partner.
fn compare_walk(
    image: &[u8],
    counts: &[u16],
    firsts: &[u16],
    nexts: &[u16],
    queue: &[u16],
    dirs: u16,
    other: &[u8],
    other_counts: &[u16],
    other_firsts: &[u16],
    other_nexts: &[u16],
    index: &mut [u16],
    partners: &mut [u16],
    met: &mut [u16],
    out: &mut [u32],
    c: Handed,
) -> Handed
    requires open_walk { OpenWalk image.now counts.now firsts.now nexts.now queue.now dirs }
    requires loaded { Loaded other.now other_counts.now other_firsts.now other_nexts.now × Indexed other.now index.old 0 }
    requires met_value { pairs_of partners.old met.old ≡ first_pairs }
    ensures pairs { pairs_of partners.new met.new ≡ pairs_along image.now other.now first_pairs (reached_dirs image.now (anodes_of image.now)) }
    ensures differences { handing_with out.new result ≡ hand_all (handing_with out.old c) (differences_along image.now other.now first_pairs (reached_dirs image.now (anodes_of image.now))) }
{
    let mut so_far = c;
    let mut indexed: usize = 0;
    for i in 0..dirs {
        let head = AnodeNo(entry(queue, i as usize));
        let p = AnodeNo(entry(partners, head.0 as usize));
        let span = open_directory(other, other_firsts, other_nexts, p, index, indexed);
        so_far = compare_directory(
            image,
            counts,
            firsts,
            nexts,
            head,
            other,
            other_counts,
            other_firsts,
            other_nexts,
            index,
            span,
            p,
            partners,
            met,
            out,
            so_far,
        );
        indexed = span.upto;
    }
    so_far
}

// Hands out the differences of two accepted images from a place on, as many as the buffer holds.
pub fn hand_differences(
    image: &[u8],
    counts: &[u16],
    firsts: &[u16],
    nexts: &[u16],
    queue: &[u16],
    dirs: u16,
    other: &[u8],
    other_counts: &[u16],
    other_firsts: &[u16],
    other_nexts: &[u16],
    other_queue: &[u16],
    other_dirs: u16,
    place: u64,
    out: &mut [u32],
) -> Handed
    requires open_walk { OpenWalk image.now counts.now firsts.now nexts.now queue.now dirs }
    requires open_walk_2 { OpenWalk other.now other_counts.now other_firsts.now other_nexts.now other_queue.now other_dirs }
    ensures { handing_with out.new result ≡ hand_all (handing_of out.old place 0) (differences image.now other.now) }
{
    let mut index = [0u16; 17872];
    let mut partners = [0u16; 3444];
    let mut met = [0u16; 3444];
    partners[5] = 5;
    let start = Handed {
        skip: place,
        done: 0,
    };
    let c = compare_walk(
        image,
        counts,
        firsts,
        nexts,
        queue,
        dirs,
        other,
        other_counts,
        other_firsts,
        other_nexts,
        &mut index,
        &mut partners,
        &mut met,
        out,
        start,
    );
    hand_unmet(
        other,
        other_firsts,
        other_nexts,
        other_queue,
        other_dirs,
        &met,
        out,
        c,
    )
}
