// The dump reader: what a dump holds, or the number that it is refused with, 1 to 18.
//
// Promised of any bytes: `read` answers `held`: what the floating pointer tells (`finding`), and the table judged. The
// definition stands in mps's specs/Judge.antt. proofs/Laws.antt has what a caller may use of a table's place.
#![tactic(auto)]

ghost use Rattle.std.specs.Prelude.{◌≡◌};
ghost use Rattle.mps.specs.Judge.{held};

use mps::{Held, Refusal};

#[tactic(auto, using(crate::proofs::Ways::read_laws))]
pub fn read(d: &[u8]) -> Result<Held, Refusal>
    ensures { result ≡ held d.now }
{
    let found = finding::find(d)?;
    match found {
        Held::Default { .. } => Ok(found),
        Held::Table { start, end, .. } => {
            // Not by `?`: what is returned here is one value, so that an edit of it is refused for what it means.
            if let Err(refusal) = judge::judge(&d[start..end]) {
                return Err(refusal);
            }
            Ok(found)
        }
    }
}
