// An answer as it is written.
ghost use Rattle.std.specs.Prelude.{◌≡◌, [], ◌∷◌, ◌≤◌, length};
ghost use Rattle.answers.specs.Wire.{values_of, fields_numbers};

use crate::request;
use crate::request::Head;
use mps::Fields;
use std::io;
use std::io::Write;

// The values of an answer: what one call gives, what two give, or the parts of a table with its header fields.
#[derive(Clone, Copy)]
pub enum Answer {
    One([u64; 1]),
    Two([u64; 2]),
    Fields([u64; 8]),
}

// The values stand behind their count.
const VALUES: usize = 1;

const HEAD_MOST: usize = 85;

impl Answer {
    fn values(&self) -> &[u64]
        ensures value { result.now ≡ values_of self.now }
        ensures most { length result.now ≤ 8 }
    {
        match self {
            Answer::One(values) => values,
            Answer::Two(values) => values,
            Answer::Fields(values) => values,
        }
    }
}

pub fn one(value: u64) -> Answer
    ensures { values_of result ≡ value ∷ [] }
{
    Answer::One([value])
}

pub fn two(first: u64, second: u64) -> Answer
    ensures { values_of result ≡ first ∷ second ∷ [] }
{
    Answer::Two([first, second])
}

// A value and the header fields. The OEM ID and the product are texts, given as numbers.
pub fn with_fields(value: u64, fields: Fields) -> Answer
    ensures { values_of result ≡ value ∷ fields_numbers fields }
{
    Answer::Fields([
        value,
        numbers::le64(&fields.oem, 0),
        numbers::le64(&fields.product, 0),
        u64::from(numbers::le32(&fields.product, 8)),
        u64::from(fields.pointer),
        u64::from(fields.size),
        u64::from(fields.apic),
        u64::from(fields.reserved),
    ])
}

// All before the slices' bytes, in one write. The lengths are the request's.
fn head<W: Write>(output: &mut W, values: &[u64], q: &Head) -> io::Result<()>
    requires { length values.now ≤ 8 }
{
    let mut out = [0; HEAD_MOST];
    out[0] = values.len() as u8;
    for (i, value) in values.iter().enumerate() {
        numbers::put64(&mut out, VALUES + 8 * i, *value);
    }
    let end = VALUES + 8 * values.len();
    let lengths = &q.bytes[request::LENGTHS..];
    let whole = end + lengths.len();
    out[end..whole].copy_from_slice(lengths);
    output.write_all(&out[..whole])
}

// The head, and the slices as the call left them. No byte of it waits for the next answer.
pub fn write<W: Write>(
    output: &mut W,
    r: Answer,
    q: &Head,
    a: &[u8],
    m: &[u8],
    e: &[u8],
) -> io::Result<()> {
    head(output, r.values(), q)?;
    output.write_all(a)?;
    output.write_all(m)?;
    output.write_all(e)?;
    output.flush()
}
