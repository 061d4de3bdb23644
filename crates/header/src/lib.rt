// What the header of a bare table says of its two parts: refusals 5 to 9, and of 13 the extended part's length and sum.
//
// Promised of any bytes: `check` answers the refusal of the first of the rows 5 to 9 that is so, `refusal` its number, and
// `wrong_extended` whether the extended part is too long, past the buffer or wrongly summed (`wrong_extended_part`). The
// definitions stand in mps's specs/Table.antt; specs/Header.antt takes the rows 5 to 9 out of those of the table.
#![tactic(auto)]

ghost use Rattle.std.specs.Prelude.{◌≡◌, ◌≤◌, length};
ghost use Rattle.mps.specs.Layout.{header_size, base_length};
ghost use Rattle.mps.specs.Refusals.{refusal as refusal_of};
ghost use Rattle.mps.specs.Answers.{answered};
ghost use Rattle.mps.specs.Table.{wrong_extended_part};
ghost use Rattle.header.specs.Header.{base_rules, header_refusal};

use mps::{Refusal, layout};

pub fn check(t: &[u8]) -> Result<(), Refusal>
    ensures { result ≡ answered (header_refusal t.now) tt }
{
    if t.len() < layout::HEADER_SIZE {
        return Err(Refusal::HeaderCut);
    }
    let base = lengths::base(t) as usize;
    if t.starts_with(b"PCMP") {
        return behind_signature(t, base);
    }
    Err(Refusal::Signature)
}

// The number alone, 0 where no row is so.
#[tactic(auto, using(crate::proofs::Laws::number_passed, crate::proofs::Laws::number_refused))]
pub fn refusal(t: &[u8]) -> u8
    ensures { result ≡ header_refusal t.now }
{
    match check(t) {
        Ok(()) => 0,
        Err(refusal) => refusal.number(),
    }
}

// 7 to 9.
fn behind_signature(t: &[u8], base: usize) -> Result<(), Refusal>
    requires { (base ≡ base_length t.now) × (header_size ≤ length t.now) }
    ensures { result ≡ answered (refusal_of (base_rules t.now)) tt }
{
    if base < layout::HEADER_SIZE {
        return Err(Refusal::BaseLength);
    }
    if layout::PART_MOST < base {
        return Err(Refusal::BaseLength);
    }
    if t.len() < base {
        return Err(Refusal::BaseLength);
    }
    if sums::sum(&t[..base]) != 0 {
        return Err(Refusal::BaseSum);
    }
    if t[layout::REVISION] != layout::SPEC_REVISION {
        return Err(Refusal::Revision);
    }
    Ok(())
}

// The extended bytes follow the base. A base that ends past the buffer leaves them no place: also wrong.
pub fn wrong_extended(t: &[u8]) -> bool
    ensures { result ≡ wrong_extended_part t.now }
{
    let base = lengths::base(t) as usize;
    let size = lengths::extended(t) as usize;
    if layout::PART_MOST < size {
        return true;
    }
    if t.len() < base + size {
        return true;
    }
    let sum = sums::sum(&t[base..base + size]);
    std::num::wrapping_add_u8(numbers::byte(t, layout::EXTENDED_CHECKSUM), sum) != 0
}
