// The search for the floating pointer in the body of one region.
//
// Promised of any bytes: `search` answers `search_of` of specs/Search.antt, the place of the first good pointer. What makes
// one good is `good` of mps's specs/Pointer.antt. proofs/Laws.antt ties the place to the candidates of a dump.
//
// Paragraphs of sixteen bytes are passed over four at a time up to the first signature; from there on each is looked at by
// itself, and only one that begins with the signature is added up.
#![tactic(auto)]

ghost use Rattle.std.specs.Prelude.{◌≡◌, false, ℕ, List, ◌+◌, length};
ghost use Rattle.mps.specs.Words.{part};
ghost use Rattle.mps.specs.Layout.{pointer_size};
ghost use Rattle.mps.specs.Pointer.{good as is_good};
ghost use Rattle.pointers.specs.Search.{search_of, left, Seeks};

use mps::layout;

// "_MP_" as a number, so that it is compared at once.
const SIGNATURE: u32 = 0x5f504d5f;

// Bytes of four paragraphs.
const FOUR_PARAGRAPHS: usize = 4 * layout::POINTER_SIZE;

pub fn search(s: &[u8]) -> Option<usize>
    ensures { result ≡ search_of s.now }
{
    let from = passed(s);
    for (i, p) in s[from..].chunks_exact(layout::POINTER_SIZE).enumerate() {
        if good(p) {
            return Some(from + layout::POINTER_SIZE * i);
        }
    }
    None
}

// Passes over paragraphs four at a time as long as none begins with the signature, so that the cost of a turn is shared by
// four of them.
fn passed(s: &[u8]) -> usize
    ensures { Seeks s.now result }
{
    for (i, four) in s.chunks_exact(FOUR_PARAGRAPHS).enumerate() {
        if any_signature(four) {
            return FOUR_PARAGRAPHS * i;
        }
    }
    s.len() - s.len() % FOUR_PARAGRAPHS
}

// Whether one of four paragraphs begins with the signature. All that is promised is what a no is worth: the search may go
// on behind them.
fn any_signature(p: &[u8]) -> bool
    requires { length p.now ≡ 64 }
    ensures { result ≡ false → (s : List ℕ) (at : ℕ) → p.now ≡ part at (at + 64) s → left s at ≡ left s (at + 64) }
{
    (numbers::le32(p, 0) == SIGNATURE)
        | (numbers::le32(p, 16) == SIGNATURE)
        | (numbers::le32(p, 32) == SIGNATURE)
        | (numbers::le32(p, 48) == SIGNATURE)
}

fn good(p: &[u8]) -> bool
    requires { length p.now ≡ pointer_size }
    ensures { result ≡ is_good p.now }
{
    if numbers::le32(p, 0) != SIGNATURE {
        return false;
    }
    if p[layout::POINTER_PARAGRAPHS] != layout::ONE_PARAGRAPH {
        return false;
    }
    sums::sum(p) == 0
}
