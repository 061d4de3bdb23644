// Numbers in bytes: one byte, and little-endian numbers of 2, 4 and 8 bytes, read from a slice and stored in one.
// The numbers are `le` and `bytes` of crates/mps/specs/Numbers.antt, at every place of every slice: a byte past the
// end reads as 0, and a store past the end does nothing. proofs/Laws.antt has the laws over any width.
#![tactic(auto)]

ghost use Rattle.std.specs.Prelude.{◌≡◌, ◌+◌, ◌-◌, ◌^◌, ◌≤◌, ◌<◌, length, get_or};
ghost use Rattle.std.proofs.lemmas.List.Edits.{sets};
ghost use Rattle.mps.specs.Numbers.{le, bytes};

pub fn byte(s: &[u8], at: usize) -> u8
    ensures { result ≡ get_or s.now at 0 }
{
    s.get(at).copied().unwrap_or(0)
}

// The bound is said because a caller sees a number, and not that it came from a byte.
pub fn wide(x: u8) -> u64
    ensures { (result ≡ x) × (result < 256) }
{
    u64::from(x)
}

// How many bytes stand from a place on.
fn left(s: &[u8], at: usize) -> usize
    ensures { result ≡ length s.now - at }
{
    s.len().saturating_sub(at)
}

// The N bytes from a place on, which are all there. No test stands between them, so that they are read by one load.
fn piece<const N: usize>(s: &[u8], at: usize) -> [u8; N]
    requires { at + N ≤ length s.now }
    ensures { le N result 0 ≡ le N s.now at }
{
    match s[at..at + N].first_chunk() {
        Some(all) => *all,
        None => [0; N],
    }
}

// The n bytes that stand from a place on: the way for the few numbers that reach past the end. From the highest byte down, so
// that no power of 256 is held, and with no buffer, so that a number that nobody asks for costs nothing.
fn le_rest(s: &[u8], at: usize, n: usize) -> u64
    requires { (n ≤ 8) × (n ≤ length s.now - at) }
    ensures { (result ≡ le n s.now at) × (result < 256 ^ n) }
{
    let mut r = 0;
    for i in (0..n).rev() {
        r = r * 256 + wide(s[at + i]);
    }
    r
}

#[tactic(auto, using(crate::proofs::Laws::from_two))]
pub fn le16(s: &[u8], at: usize) -> u16
    ensures { result ≡ le 2 s.now at }
{
    let n = left(s, at);
    if n < 2 {
        return le_rest(s, at, n) as u16;
    }
    u16::from_le_bytes(piece(s, at))
}

#[tactic(auto, using(crate::proofs::Laws::from_four))]
pub fn le32(s: &[u8], at: usize) -> u32
    ensures { result ≡ le 4 s.now at }
{
    let n = left(s, at);
    if n < 4 {
        return le_rest(s, at, n) as u32;
    }
    u32::from_le_bytes(piece(s, at))
}

#[tactic(auto, using(crate::proofs::Laws::from_eight))]
pub fn le64(s: &[u8], at: usize) -> u64
    ensures { result ≡ le 8 s.now at }
{
    let n = left(s, at);
    if n < 8 {
        return le_rest(s, at, n);
    }
    u64::from_le_bytes(piece(s, at))
}

#[tactic(auto, using(crate::proofs::Laws::put_next, crate::proofs::Laws::put_done))]
fn put<const N: usize>(out: &mut [u8], at: usize, x: [u8; N])
    requires { 0 < N }
    ensures { out.new ≡ sets out.old at x.entry }
{
    let room = left(out, at);
    if N <= room {
        out[at..at + N].copy_from_slice(&x);
        return;
    }
    for k in 0..room {
        out[at + k] = x[k];
    }
}

#[tactic(auto, using(crate::proofs::Laws::to_two))]
pub fn put16(out: &mut [u8], at: usize, x: u16)
    ensures { out.new ≡ sets out.old at (bytes 2 x) }
{
    put(out, at, u16::to_le_bytes(x));
}

#[tactic(auto, using(crate::proofs::Laws::to_four))]
pub fn put32(out: &mut [u8], at: usize, x: u32)
    ensures { out.new ≡ sets out.old at (bytes 4 x) }
{
    put(out, at, u32::to_le_bytes(x));
}

#[tactic(auto, using(crate::proofs::Laws::to_eight))]
pub fn put64(out: &mut [u8], at: usize, x: u64)
    ensures { out.new ≡ sets out.old at (bytes 8 x) }
{
    put(out, at, u64::to_le_bytes(x));
}
