// The lines of the listing, each form of document 01, into a lent room at a place.
//
// Each public function stores one line from a place on and answers how many bytes it has. Bytes that would come to stand
// past the room's end are not stored, but they count: in a room of no bytes a line is only measured. The lines are those
// of mps's specs/Listing.antt, of any bytes: one that an entry lacks reads as 0. No public function has a `requires`.
//
// Whether there is room is asked once a line. What then stores a word, a number or a byte of a name is private here, and
// asks no more: that there is room is its `requires`.
#![tactic(auto)]

mod base; // the lines of base entries
pub mod entry; // the line of an entry, by its type
mod extended; // the lines of extended entries
pub mod frame; // the lines that stand around them, or alone
mod numerals; // the digits of numbers

ghost use Rattle.std.specs.Prelude.{◌≡◌, ℕ, List, [], ◌∷◌, ◌+◌, ◌≤◌, ◌<◌, length, get_or, take, leb};
ghost use Rattle.std.proofs.lemmas.List.Edits.{sets};
ghost use Rattle.mps.specs.Numbers.{le, bytes};
ghost use Rattle.mps.specs.Listing.{decimal as decimal_of, hex, unpadded};
ghost use Rattle.text.specs.Text.{ended};
ghost use Rattle.lines.specs.Wrote.{Wrote};

use text::SPACE;

// No line has more bytes: where so many have room, it is stored there. Elsewhere it is made in a buffer of its own, and what
// has room is copied.
const LINE: usize = 64;

// Whether n bytes have room from a place on.
fn has(out: &[u8], at: usize, n: usize) -> bool
    ensures { result ≡ leb (at + n) (length out.now) }
{
    if out.len() < n {
        return false;
    }
    at <= out.len() - n
}

// The first n bytes of a buffer, as far as they have room; answers how many they are.
fn moved(out: &mut [u8], at: usize, buffer: &[u8], n: usize) -> usize
    requires { n ≤ length buffer.now }
    ensures value { result ≡ n }
    ensures out_after { out.new ≡ sets out.old at (take n buffer.now) }
{
    slices::copy(out, at, &buffer[..n]);
    n
}

// A line that one call stores, and what it shows.
trait Put {
    ghost text: { Self → List ℕ };

    // Stores it where the longest has room, and answers the place behind it.
    fn put(&self, out: &mut [u8], at: usize) -> usize
        requires { at + 64 ≤ length out.old }
        ensures wrote { Wrote out.old at (text self.now) out.new result }
        ensures upper_bound { result ≤ at + 64 };
}

// Stores a line as far as it has room; answers how many bytes it has.
fn store<L: Put>(out: &mut [u8], at: usize, line: &L) -> usize
    ensures value { result ≡ length (L.text line.now) }
    ensures out_after { out.new ≡ sets out.old at (L.text line.now) }
{
    if has(out, at, LINE) {
        return line.put(out, at) - at;
    }
    let mut buffer: [u8; 64] = [0; 64];
    let n = line.put(&mut buffer, 0);
    moved(out, at, &buffer, n)
}

// An entry that fits in a register is handed on in one: its bytes are in hand then, whatever is stored meanwhile.

// A byte of an entry.
fn byte(e: u64, k: usize) -> u8
    requires { k < 8 }
    ensures { result ≡ get_or (bytes 8 e) k 0 }
{
    ((e >> (8 * k)) % 256) as u8
}

// Its last four bytes, as a number.
fn high(e: u64) -> u32
    ensures { result ≡ le 4 (bytes 8 e) 4 }
{
    (e / 0x100000000) as u32
}

fn put_word(out: &mut [u8], at: usize, w: &[u8])
    requires { at + length w.now ≤ length out.old }
    ensures { out.new ≡ sets out.old at w.now }
{
    out[at..at + w.len()].copy_from_slice(w);
}

// Each of these stores one word and answers the place behind it.

fn word(out: &mut [u8], at: usize, w: &[u8]) -> usize
    requires { (at + 8 ≤ length out.old) × (length w.now ≤ 8) }
    ensures wrote { Wrote out.old at w.now out.new result }
    ensures upper_bound { result ≤ at + 8 }
{
    put_word(out, at, w);
    at + w.len()
}

// "Numbers are decimal". Most numbers of a listing are bytes, and these need no loop.
fn decimal(out: &mut [u8], at: usize, x: u32, last: u8) -> usize
    requires { at + 6 ≤ length out.old }
    ensures wrote { Wrote out.old at (ended (decimal_of x) last) out.new result }
    ensures upper_bound { result ≤ at + 6 }
{
    if x < 1000 {
        return at + numerals::short_decimal(out, at, x, last);
    }
    at + numerals::long_decimal(out, at, x, last)
}

// A byte of an entry, in decimal.
fn field(out: &mut [u8], at: usize, e: u64, k: usize, last: u8) -> usize
    requires { (at + 6 ≤ length out.old) × (k < 8) }
    ensures wrote { Wrote out.old at (ended (decimal_of (get_or (bytes 8 e) k 0)) last) out.new result }
    ensures upper_bound { result ≤ at + 6 }
{
    decimal(out, at, u32::from(byte(e, k)), last)
}

// "addresses eight upper-case hex digits"
fn hex8(out: &mut [u8], at: usize, x: u32, last: u8) -> usize
    requires { at + 9 ≤ length out.old }
    ensures wrote { Wrote out.old at (ended (hex 8 x) last) out.new result }
    ensures upper_bound { result ≤ at + 9 }
{
    at + numerals::hexadecimal(out, at, u64::from(x), 8, last)
}

// "16 hex digits each", a mapping's base and length.
fn hex16(out: &mut [u8], at: usize, x: u64, last: u8) -> usize
    requires { at + 17 ≤ length out.old }
    ensures wrote { Wrote out.old at (ended (hex 16 x) last) out.new result }
    ensures upper_bound { result ≤ at + 17 }
{
    at + numerals::hexadecimal(out, at, x, 16, last)
}

// A byte of a bus's name: "Bus names lose their padding".
fn letter(out: &mut [u8], at: usize, e: u64, k: usize) -> usize
    requires { (at + 1 ≤ length out.old) × (k < 8) }
    ensures wrote { Wrote out.old at (unpadded (get_or (bytes 8 e) k 0 ∷ [])) out.new result }
    ensures upper_bound { result ≤ at + 1 }
{
    let b = byte(e, k);
    if b == SPACE {
        return at;
    }
    out[at] = b;
    at + 1
}
