// Base entries by their types' lengths: how long one is, and how many there are.
//
// Promised of any bytes: `size` answers `base_entry_length` of an entry's type, `count` how many entries bytes are cut into. The
// definition stands in mps's specs/Layout.antt; the last entry may be cut short.
#![tactic(auto)]

ghost use Rattle.std.specs.Prelude.{◌≡◌, [], ◌∷◌, length};
ghost use Rattle.mps.specs.Words.{cut};
ghost use Rattle.mps.specs.Layout.{base_entry_length};

use mps::layout;

#[tactic(auto, using(crate::proofs::Laws::size_processor, crate::proofs::Laws::size_other))]
pub fn size(kind: u8) -> usize
    ensures { result ≡ base_entry_length (kind ∷ []) }
{
    match kind {
        layout::PROCESSOR_TYPE => layout::PROCESSOR_SIZE,
        _ => layout::ENTRY_SIZE,
    }
}

// By places: a slice of what is left, cut at each entry, took six times as long.
pub fn count(s: &[u8]) -> usize
    ensures { result ≡ length (cut base_entry_length 0 s.now) }
{
    let mut at = 0;
    let mut n = 0;
    while let Some(kind) = s.get(at) {
        at += size(*kind);
        n += 1;
    }
    n
}
