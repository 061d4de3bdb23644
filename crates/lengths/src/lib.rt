// What a header says of its table: the length of the base, the length of the extended part, and how many base entries there are.
// The code reads these three here and nowhere else.
//
// Promised of any bytes: each answers the definition of its name in mps's specs/Layout.antt; a byte past the end reads as 0.
#![tactic(auto)]

ghost use Rattle.std.specs.Prelude.{◌≡◌};
ghost use Rattle.mps.specs.Layout.{base_length, extended_length, entry_count};

use mps::layout;

pub fn base(t: &[u8]) -> u16
    ensures { result ≡ base_length t.now }
{
    numbers::le16(t, layout::BASE_LENGTH)
}

pub fn extended(t: &[u8]) -> u16
    ensures { result ≡ extended_length t.now }
{
    numbers::le16(t, layout::EXTENDED_LENGTH)
}

pub fn count(t: &[u8]) -> u16
    ensures { result ≡ entry_count t.now }
{
    numbers::le16(t, layout::ENTRY_COUNT)
}
