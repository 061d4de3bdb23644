// An answer as one number: what C gets of a call.
//
// The refusal's number stands in the low byte, the inner one of an edit in the second; above them stand the values of an answer
// that is no refusal, each cut to its width.
ghost use Rattle.std.specs.Prelude.{◌≡◌, ℕ, ◌+◌, ◌-◌, ◌*◌, ◌%◌, ◌^◌, List, [], ◌∷◌};
ghost use Rattle.packs.specs.Packs.{packed};
ghost use Rattle.mps.specs.Answers.{numbers_of, seen_values};
ghost use Rattle.exports.specs.Codes.{count_row, pair_row, seen_row, held_row, coded, held_shown, found_code, edited_code, addresses_code};

use mps::{Body, Booked, EditRefusal, Held, Parted, Refusal, Renumbered, Seen};

// The second byte, the third, and so on.

const BYTE: u64 = 256;

const TWO_BYTES: u64 = 65536;

const FOUR_BYTES: u64 = 0x100000000;

const FIVE_BYTES: u64 = 0x10000000000;

const SIX_BYTES: u64 = 0x1000000000000;

const INNER: u64 = 23;

// The values that an answer has, and how many bits each has for C.
pub trait Values {
    ghost widths: { List ℕ };

    ghost values: { Self → List ℕ };

    // They stand above the refusal's number and the inner one.
    fn above(self) -> u64
        ensures { result ≡ 2 ^ 16 * packed widths (values self) };
}

fn shifted(values: u64) -> u64
    ensures { result ≡ 2 ^ 16 * (values % 2 ^ 48) }
{
    TWO_BYTES * (values % SIX_BYTES)
}

#[tactic(auto, unfolding(packs::specs::Packs::packed))]
fn pair(first: usize, second: usize) -> u64
    ensures { result ≡ 2 ^ 16 * packed pair_row (first ∷ second ∷ []) }
{
    shifted(first as u64 % TWO_BYTES + TWO_BYTES * (second as u64 % FOUR_BYTES))
}

impl Values for () {
    ghost widths = { [] };

    ghost values = { λ _. [] };

    #[tactic(auto, unfolding(packs::specs::Packs::packed))]
    fn above(self) -> u64 {
        0
    }
}

// A count: of bytes, pairs, slots or rows.
impl Values for usize {
    ghost widths = { count_row };

    ghost values = { λ count. count ∷ [] };

    #[tactic(auto, unfolding(packs::specs::Packs::packed))]
    fn above(self) -> u64 {
        shifted(self as u64)
    }
}

// An edition.
impl Values for u16 {
    ghost widths = { count_row };

    ghost values = { λ edition. edition ∷ [] };

    #[tactic(auto, unfolding(packs::specs::Packs::packed))]
    fn above(self) -> u64 {
        shifted(self as u64)
    }
}

impl Values for Parted {
    ghost widths = { pair_row };

    ghost values = { λ p. p.base ∷ p.end ∷ [] };

    #[tactic(auto, unfolding(packs::specs::Packs::packed))]
    fn above(self) -> u64 {
        pair(self.base, self.end)
    }
}

impl Values for Renumbered {
    ghost widths = { pair_row };

    ghost values = { λ r. r.count ∷ r.used ∷ [] };

    #[tactic(auto, unfolding(packs::specs::Packs::packed))]
    fn above(self) -> u64 {
        pair(self.count, self.used)
    }
}

impl Values for Booked {
    ghost widths = { pair_row };

    ghost values = { λ b. b.rows ∷ b.size ∷ [] };

    #[tactic(auto, unfolding(packs::specs::Packs::packed))]
    fn above(self) -> u64 {
        pair(self.rows, self.size)
    }
}

impl Values for Body {
    ghost widths = { pair_row };

    ghost values = { λ b. b.size ∷ b.start ∷ [] };

    #[tactic(auto, unfolding(packs::specs::Packs::packed))]
    fn above(self) -> u64 {
        pair(self.size, self.start)
    }
}

impl Values for Seen {
    ghost widths = { seen_row };

    ghost values = { seen_values };

    #[tactic(auto, unfolding(packs::specs::Packs::packed))]
    fn above(self) -> u64 {
        match self {
            Seen::No(links) => shifted(BYTE * (links as u64 % FIVE_BYTES)),
            Seen::Yes(links) => shifted(1 + BYTE * (links as u64 % FIVE_BYTES)),
            Seen::Undeclared(links) => shifted(2 + BYTE * (links as u64 % FIVE_BYTES)),
        }
    }
}

// How many bytes lie from a place to another; none where they are in the other order.
fn between(start: usize, end: usize) -> u64
    ensures { result ≡ end - start }
{
    if end < start {
        return 0;
    }
    (end - start) as u64
}

impl Values for Held {
    ghost widths = { held_row };

    ghost values = { held_shown };

    #[tactic(auto, unfolding(packs::specs::Packs::packed))]
    fn above(self) -> u64 {
        match self {
            Held::Default { number, imcr } => shifted(number as u64 + BYTE * imcr as u64),
            Held::Table {
                pointer,
                imcr,
                address,
                start,
                end,
            } => shifted(
                BYTE * imcr as u64
                    + TWO_BYTES * (start as u64 % TWO_BYTES)
                    + FOUR_BYTES * (between(start, end) % TWO_BYTES),
            ),
        }
    }
}

#[tactic(auto, unfolding(packs::specs::Packs::packed))]
pub(super) fn code<A: Values>(answer: Result<A, Refusal>) -> u64
    ensures { result ≡ coded A.widths (numbers_of A.values answer) }
{
    match answer {
        Ok(values) => values.above(),
        Err(refusal) => refusal.number() as u64,
    }
}

#[tactic(auto, unfolding(packs::specs::Packs::packed, crate::specs::Codes::found_code))]
pub(super) fn found_code(answer: Option<usize>) -> u64
    ensures { result ≡ found_code answer }
{
    match answer {
        Some(size) => shifted(size as u64),
        None => 0,
    }
}

#[tactic(auto, unfolding(packs::specs::Packs::packed, crate::specs::Codes::edited_code))]
pub(super) fn edited_code(answer: Result<(), EditRefusal>) -> u64
    ensures { result ≡ edited_code answer }
{
    match answer {
        Ok(()) => 0,
        Err(EditRefusal::Refused(refusal)) => refusal.number() as u64,
        Err(EditRefusal::Inner(refusal)) => INNER + BYTE * refusal.number() as u64,
    }
}

// The addresses of a dump's table, the one code with no refusal in it.
#[tactic(auto, unfolding(packs::specs::Packs::packed, crate::specs::Codes::addresses_code))]
pub(super) fn addresses_code(answer: Result<Held, Refusal>) -> u64
    ensures { result ≡ addresses_code answer }
{
    match answer {
        Ok(
            Held::Table {
                pointer,
                imcr,
                address,
                start,
                end,
            },
        ) => address as u64 + FOUR_BYTES * pointer as u64,
        Ok(Held::Default { number, imcr }) => 0,
        Err(refusal) => 0,
    }
}
