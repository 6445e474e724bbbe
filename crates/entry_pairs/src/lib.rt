// An entry of the first image with its counterpart in the second: what is noted of the pair, and the difference that is handed out.
#![tactic(auto)]

ghost use Rattle.std.specs.Prelude.{◌&&◌, List, ◌∷◌, [], ◌≡◌, ℕ, eqb, set};
ghost use Rattle.std.proofs.Math.Option.{some};
ghost use Rattle.rules.specs.Walk.{Entered};
ghost use Rattle.rules.specs.Lookup.{of_entry};
ghost use Rattle.anodes.specs.Loaded.{Loaded};
ghost use Rattle.lookup.specs.Answers.{entered, entry_of};
ghost use Rattle.differences.specs.Differences.{only_first, in_both};
ghost use Rattle.differences.specs.Pairs.{partner_of, met_by, pairs_of};
ghost use Rattle.differences.specs.Handing.{hand_all};
ghost use Rattle.handing.specs.Differs.{handing_with};
ghost use Rattle.entry_pairs.specs.Readable.{Readable};
ghost use Rattle.entry_pairs.specs.Bytes.{differing_bytes};

use byte_differences::{Differing, differing_bytes};
use directory::Kind;
use entry_fields::fields_differing;
use handing::{Both, Differs, Handed, hand_out, has_no_room};
use lookup::EntryAt;
use tables::set_entry;

// The bytes in which two entries of one path differ: those of files, if both are.
fn entry_bytes(
    image: &[u8],
    counts: &[u16],
    firsts: &[u16],
    nexts: &[u16],
    e: EntryAt,
    other: &[u8],
    other_counts: &[u16],
    other_firsts: &[u16],
    other_nexts: &[u16],
    f: EntryAt,
) -> Differing
    requires loaded { Loaded image.now counts.now firsts.now nexts.now × Readable image.now (entered image.now e) }
    requires loaded_2 { Loaded other.now other_counts.now other_firsts.now other_nexts.now × Readable other.now (entered other.now f) }
    ensures { result ≡ differing_bytes image.now other.now (entered image.now e) (entered other.now f) }
{
    if e.kind.is_directory() {
        return Differing { first: 0, many: 0 };
    }
    if f.kind.is_directory() {
        return Differing { first: 0, many: 0 };
    }
    differing_bytes(
        image,
        counts,
        firsts,
        nexts,
        e.anode,
        e.size,
        other,
        other_counts,
        other_firsts,
        other_nexts,
        f.anode,
        f.size,
    )
}

// Whether no field and no byte differs.
fn is_same(fields: u32, many: u32) -> bool
    ensures { result ≡ (eqb fields 0 && eqb many 0) }
{
    fields == 0 && many == 0
}

// Hands out what two entries of one path differ in; nothing where all fields and bytes are the same.
fn hand_both(
    image: &[u8],
    counts: &[u16],
    firsts: &[u16],
    nexts: &[u16],
    e: EntryAt,
    other: &[u8],
    other_counts: &[u16],
    other_firsts: &[u16],
    other_nexts: &[u16],
    f: EntryAt,
    out: &mut [u32],
    c: Handed,
) -> Handed
    requires loaded { Loaded image.now counts.now firsts.now nexts.now × Readable image.now (entered image.now e) }
    requires loaded_2 { Loaded other.now other_counts.now other_firsts.now other_nexts.now × Readable other.now (entered other.now f) }
    ensures { handing_with out.new result ≡ hand_all (handing_with out.old c) (in_both image.now other.now (entered image.now e) (entered other.now f)) }
{
    if has_no_room(out, c) {
        return c;
    }
    let fields = fields_differing(image, e, other, f);
    let bytes = entry_bytes(
        image,
        counts,
        firsts,
        nexts,
        e,
        other,
        other_counts,
        other_firsts,
        other_nexts,
        f,
    );
    if is_same(fields, bytes.many) {
        return c;
    }
    let both = Both {
        first: e.start as u32,
        second: f.start as u32,
        fields,
        byte: bytes.first,
        many: bytes.many,
    };
    hand_out(out, c, Differs::Differing(both))
}

// The directory of the second image at the path of one of the first, by its head; 0 unless both entries name directories.
fn partner(kind: Kind, found: Option<EntryAt>) -> u16
    ensures { (img j : List ℕ) (e : EntryAt) → e.kind ≡ kind → result ≡ partner_of (entered img e) (entry_of j found) }
{
    let Some(f) = found else {
        return 0;
    };
    if !kind.is_directory() {
        return 0;
    }
    if !f.kind.is_directory() {
        return 0;
    }
    f.anode.0
}

// Notes the pair of an entry and its counterpart in both tables.
fn note_pair(partners: &mut [u16], met: &mut [u16], e: EntryAt, found: Option<EntryAt>)
    ensures { (img j : List ℕ) → pairs_of partners.new met.new ≡ pairs_of (set partners.old e.anode.0 (partner_of (entered img e) (entry_of j found))) (met_by met.old (entry_of j found)) }
{
    set_entry(partners, e.anode.0 as usize, partner(e.kind, found));
    if let Some(f) = found {
        set_entry(met, f.anode.0 as usize, 1);
    }
}

// An entry of the first image with its counterpart: the pair is noted, and the difference is handed out.
pub fn compare_entry(
    image: &[u8],
    counts: &[u16],
    firsts: &[u16],
    nexts: &[u16],
    e: EntryAt,
    other: &[u8],
    other_counts: &[u16],
    other_firsts: &[u16],
    other_nexts: &[u16],
    found: Option<EntryAt>,
    partners: &mut [u16],
    met: &mut [u16],
    out: &mut [u32],
    c: Handed,
) -> Handed
    requires loaded { Loaded image.now counts.now firsts.now nexts.now × Readable image.now (entered image.now e) }
    requires loaded_2 { Loaded other.now other_counts.now other_firsts.now other_nexts.now × ((f : Entered) → entry_of other.now found ≡ some f → Readable other.now f) }
    ensures pairs { pairs_of partners.new met.new ≡ pairs_of (set partners.old e.anode.0 (partner_of (entered image.now e) (entry_of other.now found))) (met_by met.old (entry_of other.now found)) }
    ensures difference { handing_with out.new result ≡ hand_all (handing_with out.old c) (of_entry (entry_of other.now found) (in_both image.now other.now (entered image.now e)) (only_first e.start ∷ [])) }
{
    note_pair(partners, met, e, found);
    match found {
        Some(f) => hand_both(
            image,
            counts,
            firsts,
            nexts,
            e,
            other,
            other_counts,
            other_firsts,
            other_nexts,
            f,
            out,
            c,
        ),
        None => hand_out(out, c, Differs::OnlyFirst(e.start as u32)),
    }
}
