// The sixteen hexadecimal digits, upper-case.
//
// Promised of any number: `hex` answers the digit that shows its lowest four bits, `hex_digit` of mps's specs/Listing.antt.
// No public function has a `requires`.
#![tactic(auto)]

ghost use Rattle.std.specs.Prelude.{◌≡◌, ◌%◌};
ghost use Rattle.mps.specs.Listing.{hex_digit};

const DIGITS: [u8; 16] = *b"0123456789ABCDEF";

pub fn hex(d: u8) -> u8
    ensures { result ≡ hex_digit (d % 16) }
{
    DIGITS[usize::from(d % 16)]
}
