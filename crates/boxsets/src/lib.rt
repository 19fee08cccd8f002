// Sets of numbers below 256, as structs of four words by value. A set's numbers are those of boxes throughout, but nothing here knows
// of boxes.
#![tactic(auto)]

ghost use Rattle.std.specs.Prelude.{◌≡◌, not, ◌&&◌, ℕ, ◌<◌, eqb};
ghost use Rattle.std.specs.Prelude.{Some as some};
ghost use Rattle.base.specs.Search.{lowest};
ghost use Rattle.boxsets.specs.Words.{bit_at};
ghost use Rattle.boxsets.specs.Reach.{InReach};

mod sets;
mod walk;

// A set of numbers below 256: word q has those from 64 × q on, the lowest bit first.
#[derive(Clone, Copy, Debug, PartialEq, Eq)]
pub struct Set {
    pub a: u64,
    pub b: u64,
    pub c: u64,
    pub d: u64,
}

// The numbers of a set that are still to come, rising: `from` + each number of `rest`.
#[derive(Drop)]
pub struct Members {
    from: usize,
    rest: Set,
    ghost in_reach: { InReach from rest },
}

// ---- Words

// The lowest bit of a word that is not 0.
pub fn low_bit(w: u64) -> usize
    requires { 0 < w }
    ensures { lowest (bit_at w) 64 ≡ some result }
{
    u64::trailing_zeros(w) as usize
}

// A word without its lowest bit.
pub fn drop_bit(w: u64) -> u64
    requires { 0 < w }
    ensures by_index { (l b : ℕ) → lowest (bit_at w) 64 ≡ some l → bit_at result b ≡ (bit_at w b && not (eqb b l)) }
    ensures upper_bound { result < w }
{
    w & (w - 1)
}
