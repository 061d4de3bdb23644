// Checksums: the sum of the bytes of a slice modulo 256, and the byte that brings a sum to 0.
// Each function is its definition in crates/mps/specs/Sums.antt, for every slice and every byte.
// proofs/Laws.antt has what the crates above cite: how a sum follows an append, a changed byte, an exchanged part, a stored
// checksum.
#![tactic(auto)]

ghost use Rattle.std.specs.Prelude.{◌≡◌};
ghost use Rattle.mps.specs.Sums.{sum256, to_store};

#[tactic(auto, using(crate::proofs::Laws::total_at, crate::proofs::Laws::total_done), unfolding(mps::specs::Sums::sum256))]
pub fn sum(s: &[u8]) -> u8
    ensures { result ≡ sum256 s.now }
{
    let mut acc: u8 = 0;
    for b in s {
        acc = acc.wrapping_add(*b);
    }
    acc
}

// The byte to store beside bytes whose sum is x.
#[tactic(auto, unfolding(mps::specs::Sums::to_store))]
pub fn to_store(x: u8) -> u8
    ensures { result ≡ to_store x }
{
    0u8.wrapping_sub(x)
}
