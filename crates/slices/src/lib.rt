// Comparing, copying, moving and clearing slices of bytes.
//
// Each function answers what one definition says, for slices of any length: `same` and `part` of mps's specs/Words.antt,
// and `sets` and `replicate` of Rattle's lists. None has a `requires`. The laws that callers cite stand in
// proofs/Laws.antt.
#![tactic(auto)]

ghost use Rattle.std.specs.Prelude.{◌≡◌, ◌+◌, replicate};
ghost use Rattle.std.proofs.lemmas.List.Edits.{sets};
ghost use Rattle.mps.specs.Words.{same as same_bytes, part};

// Whether two slices hold the same bytes: as many of them, and equal at each place.
#[tactic(auto, using(crate::proofs::Laws::same_compared))]
pub fn same(a: &[u8], b: &[u8]) -> bool
    ensures { result ≡ same_bytes a.now b.now }
{
    a == b
}

// Stores the bytes of `s` in `out` from `at` on. Bytes that would come to stand past its end are not stored, so that
// no caller has to show that they fit.
#[tactic(auto, using(laws::proofs::Stores::sets_past, crate::proofs::Laws::sets_next, crate::proofs::Laws::sets_end))]
pub fn copy(out: &mut [u8], at: usize, s: &[u8])
    ensures { out.new ≡ sets out.old at s.now }
{
    if at < out.len() {
        let n = s.len().min(out.len() - at);
        // One by one: the library's copy is C's `memmove`, which no caller of the archive had to bring.
        for i in 0..n {
            out[at + i] = s[i];
        }
    }
}

// Makes the first n bytes 0, all of them where there are fewer.
#[tactic(auto, using(crate::proofs::Laws::fill_stored))]
pub fn clear(out: &mut [u8], n: usize)
    ensures { out.new ≡ sets out.old 0 (replicate n 0) }
{
    let n = n.min(out.len());
    out[..n].fill(0);
}

// Moves the bytes from one place up to another by so many places, the last one first, so that they may be moved by less than
// their number. What would come to stand past the end is not stored.
pub fn raise(s: &mut [u8], from: usize, to: usize, by: usize)
    ensures { s.new ≡ sets s.old (from + by) (part from to s.old) }
{
    let end = to.min(s.len().saturating_sub(by));
    for i in (from..end).rev() {
        s[i + by] = s[i];
    }
}
