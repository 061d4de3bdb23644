// A request as it comes in. Its head stays as its bytes, and a call takes of it what it has use for.
ghost use Rattle.std.specs.Prelude.{◌≡◌, ◌+◌, ◌*◌, ◌<◌, ◌^◌, length};
ghost use Rattle.answers.specs.Wire.{length_of, middle_of};

use crate::end::End;
use std::io::Read;

// Behind the kind stand eight numbers, of eight bytes each.
const NUMBERS: usize = 1;

// Then the lengths of the five slices, of four bytes each.
pub const LENGTHS: usize = 65;

pub const HEAD_SIZE: usize = 85;

// The longest that the first slice may be, the three in the middle together, and the last.
pub const MOST: usize = 2097152;

#[derive(Drop)]
pub struct Head {
    pub bytes: [u8; HEAD_SIZE],
}

// Reads until buf is full, and no byte more. A pipe may give its bytes in pieces of any size.
pub fn fill<R: Read>(input: &mut R, buf: &mut [u8]) -> Result<(), End> {
    input.read_exact(buf).map_err(|_| End::CutShort)
}

impl Head {
    // The head of the next request. A failed read cuts a request short, even before its first byte.
    pub fn read<R: Read>(input: &mut R) -> Result<Head, End> {
        let mut bytes = [0; HEAD_SIZE];
        match input.read(&mut bytes) {
            Ok(0) => Err(End::Input),
            Ok(n) => {
                fill(input, &mut bytes[n..])?;
                Ok(Head { bytes })
            }
            Err(_) => Err(End::CutShort),
        }
    }

    pub fn kind(&self) -> u8 {
        self.bytes[0]
    }

    // The numbers are counted from 0. Of each a call takes as many low bytes as it has use for.

    pub fn low8(&self, i: usize) -> u8
        requires { i < 8 }
    {
        self.bytes[NUMBERS + 8 * i]
    }

    pub fn low16(&self, i: usize) -> u16
        requires { i < 8 }
    {
        numbers::le16(&self.bytes, NUMBERS + 8 * i)
    }

    pub fn low32(&self, i: usize) -> u32
        requires { i < 8 }
    {
        numbers::le32(&self.bytes, NUMBERS + 8 * i)
    }

    pub fn number(&self, i: usize) -> u64
        requires { i < 8 }
    {
        numbers::le64(&self.bytes, NUMBERS + 8 * i)
    }

    // The slices are counted from 0 too. In the middle the second, third and fourth stand one behind the other.

    pub fn length(&self, i: usize) -> usize
        requires { i < 5 }
        ensures { (result ≡ length_of self.now i) × (result < 2 ^ 32) }
    {
        numbers::le32(&self.bytes, LENGTHS + 4 * i) as usize
    }

    #[tactic(auto, unfolding(crate::specs::Wire::middle_of))]
    pub fn middle(&self) -> usize
        ensures { result ≡ middle_of self.now }
    {
        self.length(1) + self.length(2) + self.length(3)
    }
}

// The three slices in the middle: the second, third and fourth of a request.
#[derive(Clone, Copy)]
pub struct Middle<'a> {
    pub second: &'a [u8],
    pub third: &'a [u8],
    pub fourth: &'a [u8],
}

#[tactic(auto, unfolding(crate::specs::Wire::middle_of))]
pub fn parted<'a>(q: &Head, m: &'a [u8]) -> Middle<'a>
    requires { middle_of q.now ≡ length m.now }
{
    let (second, rest) = m.split_at(q.length(1));
    let (third, fourth) = rest.split_at(q.length(2));
    Middle {
        second,
        third,
        fourth,
    }
}
