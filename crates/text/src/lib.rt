// How wide the words of a listing are: a number's digits, and a name without its padding. What is stored is the matter of
// `lines`.
//
// Promised of any number and any bytes: `width` answers `decimal_width`, and `kept` how long `unpadded` is, both of mps's
// specs/Listing.antt. `ended`, a word and the byte behind it, stands in specs/Text.antt. No public function has a `requires`.
// The laws that callers cite stand in proofs/Laws.antt.
#![tactic(auto)]

ghost use Rattle.std.specs.Prelude.{◌≡◌, ◌≤◌, length, leb};
ghost use Rattle.mps.specs.Words.{flag};
ghost use Rattle.mps.specs.Listing.{decimal_width, unpadded};

// The bytes behind a word: between two words, and at the end of a line.

pub const SPACE: u8 = 32;

pub const LINE_END: u8 = 10;

// 1 where a number has come to a bound, and else 0.
fn reached(x: u32, bound: u32) -> usize
    ensures { (result ≡ flag (leb bound x)) × (result ≤ 1) }
{
    usize::from(bound <= x)
}

// How many digits a number has. A sum over the bounds has no branch to guess.
pub fn width(x: u32) -> usize
    ensures { (result ≡ decimal_width x) × (result ≤ 5) }
{
    1 + reached(x, 10) + reached(x, 100) + reached(x, 1000) + reached(x, 10000)
}

// How many bytes of a name are no padding.
#[tactic(auto, using(crate::proofs::Laws::kept_count))]
pub fn kept(s: &[u8]) -> usize
    ensures { result ≡ length (unpadded s.now) }
{
    s.iter().filter(|b| **b != SPACE).count()
}
