// Runs of entries of one type, which both walks over a table's entries go by: types ascend, so the entries of one type follow
// each other.
//
// Promised: `size_of` answers `size_of`, the bytes of an entry of a known type. The definitions stand in specs/Runs.antt. What
// the walks may use of runs stands in proofs/Runs.antt, of an accepted part in proofs/Walks.antt, and of the order in which its
// entries stand in proofs/Order.antt: the same for the base entries (`sections`) and the extended ones (`extension`).
#![tactic(auto)]

ghost use Rattle.std.specs.Prelude.{◌≡◌};
ghost use Rattle.runs.specs.Runs.{size_of};

// The bytes of an entry, by its type counted from the first of its part: mappings have as many as processors, and all
// the others 8.
#[tactic(auto, unfolding(mps::specs::Layout::base_entry_length))]
pub fn size_of(kind: u8) -> usize
    ensures { result ≡ size_of kind }
{
    entries::size(kind)
}
