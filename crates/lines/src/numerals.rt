// The digits of a number and the byte behind them, in a room that has place for them. Each of these answers how many they are.
ghost use Rattle.std.specs.Prelude.{◌≡◌, ◌+◌, ◌≤◌, ◌<◌, length};
ghost use Rattle.std.proofs.lemmas.List.Edits.{sets};
ghost use Rattle.mps.specs.Listing.{digits, hex_digit, decimal as decimal_of, hex};
ghost use Rattle.text.specs.Text.{ended};

// The digit 0.
const ZERO: u8 = 48;

// The digits of a number in a base, which `digits` has to have digits for. The last digit is known first, so the stores go down.
#[tactic(auto, using(crate::proofs::Digits::digits_next, crate::proofs::Digits::digits_done))]
fn put_digits<const BASE: u64>(out: &mut [u8], at: usize, x: u64, k: usize)
    requires room { at + k ≤ length out.old }
    requires base { (0 < BASE) × (BASE ≤ 16) }
    ensures { out.new ≡ sets out.old at (digits BASE hex_digit k x) }
{
    let mut v = x;
    for m in (0..k).rev() {
        out[at + m] = digits::hex((v % BASE) as u8);
        v /= BASE;
    }
}

// Up to three digits.
pub(super) fn short_decimal(out: &mut [u8], at: usize, x: u32, last: u8) -> usize
    requires { (at + 6 ≤ length out.old) × (x < 1000) }
    ensures value { result ≡ length (ended (decimal_of x) last) }
    ensures out_after { out.new ≡ sets out.old at (ended (decimal_of x) last) }
{
    if x < 10 {
        out[at] = ZERO + x as u8;
        out[at + 1] = last;
        return 2;
    }
    if x < 100 {
        out[at] = ZERO + (x / 10) as u8;
        out[at + 1] = ZERO + (x % 10) as u8;
        out[at + 2] = last;
        return 3;
    }
    out[at] = ZERO + (x / 100) as u8;
    out[at + 1] = ZERO + (x / 10 % 10) as u8;
    out[at + 2] = ZERO + (x % 10) as u8;
    out[at + 3] = last;
    4
}

pub(super) fn long_decimal(out: &mut [u8], at: usize, x: u32, last: u8) -> usize
    requires { at + 6 ≤ length out.old }
    ensures value { result ≡ length (ended (decimal_of x) last) }
    ensures out_after { out.new ≡ sets out.old at (ended (decimal_of x) last) }
{
    let k = text::width(x);
    put_digits::<10>(out, at, u64::from(x), k);
    out[at + k] = last;
    k + 1
}

// k digits of any number.
pub(super) fn hexadecimal(out: &mut [u8], at: usize, x: u64, k: usize, last: u8) -> usize
    requires { (at + k + 1 ≤ length out.old) × (k ≤ 16) }
    ensures value { result ≡ length (ended (hex k x) last) }
    ensures out_after { out.new ≡ sets out.old at (ended (hex k x) last) }
{
    put_digits::<16>(out, at, x, k);
    out[at + k] = last;
    k + 1
}
