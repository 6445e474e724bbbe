// Names compared with A to Z folded onto a to z.
#![tactic(auto)]

ghost use Rattle.std.specs.Prelude.{◌≡◌};
ghost use Rattle.rules.specs.Counting.{same_bytes};
ghost use Rattle.rules.specs.Folding.{fold as fold_of, folded};

// The byte with A to Z folded onto a to z.
pub fn fold(b: u8) -> u8
    ensures { result ≡ fold_of b }
{
    b.to_ascii_lowercase()
}

// Whether two names are the same after folding.
pub fn same_folded(one: &[u8], other: &[u8]) -> bool
    ensures { result ≡ same_bytes (folded one.now) (folded other.now) }
{
    one.eq_ignore_ascii_case(other)
}
