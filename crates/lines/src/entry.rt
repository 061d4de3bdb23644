// The line of an entry of any type.
ghost use Rattle.std.specs.Prelude.{◌≡◌, length};
ghost use Rattle.std.proofs.lemmas.List.Edits.{sets};
ghost use Rattle.mps.specs.Words.{byte as byte_of};
ghost use Rattle.mps.specs.Numbers.{bytes};
ghost use Rattle.lines.specs.Entry.{entry_line, shown};

use super::extended::MapLine;
use super::{Put, base, byte, extended, store};
use mps::layout;

pub fn line(out: &mut [u8], at: usize, e: &[u8]) -> usize
    ensures value { result ≡ length (shown e.now) }
    ensures out_after { out.new ≡ sets out.old at (shown e.now) }
{
    let x = numbers::le64(e, 0);
    let kind = byte(x, 0);
    if kind == layout::MAPPING_TYPE {
        let start = numbers::le64(e, layout::SPACE_BASE);
        let size = numbers::le64(e, layout::SPACE_LENGTH);
        return store(
            out,
            at,
            &MapLine {
                e: x,
                base: start,
                size,
            },
        );
    }
    store(out, at, &ShortLine { e: x })
}

// An entry that its first 8 bytes tell: no mapping.
#[derive(Drop)]
struct ShortLine {
    e: u64,
    ghost no_mapping: { byte_of (bytes 8 e) 0 ≡ 128 → ⊥ },
}

impl Put for ShortLine {
    ghost text = { λ s. entry_line (bytes 8 s.e) };

    fn put(&self, out: &mut [u8], at: usize) -> usize {
        if byte(self.e, 0) < layout::MAPPING_TYPE {
            base::entry(out, at, self.e)
        } else {
            extended::entry(out, at, self.e)
        }
    }
}
