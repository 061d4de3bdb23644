// The lines of extended entries: map, tree, mod and skip.
ghost use Rattle.std.specs.Prelude.{◌≡◌, ◌+◌, ◌≤◌, length};
ghost use Rattle.mps.specs.Listing.{tree_line, mod_line, skip_line, extended_line};
ghost use Rattle.mps.specs.Words.{byte as byte_of};
ghost use Rattle.mps.specs.Numbers.{bytes};
ghost use Rattle.lines.specs.Wrote.{Wrote, space_line};

use super::{Put, byte, decimal, field, hex16, high, word};
use mps::layout;
use text::{LINE_END, SPACE};

// A mapping, whose base and length are numbers of their own.
#[derive(Drop)]
pub(super) struct MapLine {
    pub(super) e: u64,
    pub(super) base: u64,
    pub(super) size: u64,
}

impl Put for MapLine {
    ghost text = { λ m. space_line (bytes 8 m.e) m.base m.size };

    fn put(&self, out: &mut [u8], at: usize) -> usize {
        let e = self.e;
        let a = word(out, at, b"map ");
        let b = field(out, a, e, layout::EXTENDED_BUS, SPACE);
        let c = field(out, b, e, layout::SPACE_KIND, SPACE);
        let d = hex16(out, c, self.base, SPACE);
        hex16(out, d, self.size, LINE_END)
    }
}

// Each of these stores one line and answers the place behind it.

// An entry of another type.
#[tactic(auto, using(crate::proofs::ExtendedLines::tree_type, crate::proofs::ExtendedLines::mod_type, crate::proofs::ExtendedLines::skip_type))]
pub(super) fn entry(out: &mut [u8], at: usize, e: u64) -> usize
    requires { (at + 64 ≤ length out.old) × (byte_of (bytes 8 e) 0 ≡ 128 → ⊥) }
    ensures wrote { Wrote out.old at (extended_line (bytes 8 e)) out.new result }
    ensures upper_bound { result ≤ at + 64 }
{
    match byte(e, 0) {
        layout::HIERARCHY_TYPE => tree(out, at, e),
        layout::MODIFIER_TYPE => modifier(out, at, e),
        _ => skip(out, at, e),
    }
}

fn tree(out: &mut [u8], at: usize, e: u64) -> usize
    requires { at + 64 ≤ length out.old }
    ensures wrote { Wrote out.old at (tree_line (bytes 8 e)) out.new result }
    ensures upper_bound { result ≤ at + 64 }
{
    let link = byte(e, layout::LINK_BIT);
    let a = word(out, at, b"tree ");
    let b = field(out, a, e, layout::EXTENDED_BUS, SPACE);
    let c = field(out, b, e, layout::PARENT_BUS, SPACE);
    decimal(out, c, u32::from(link % 2), LINE_END)
}

fn modifier(out: &mut [u8], at: usize, e: u64) -> usize
    requires { at + 64 ≤ length out.old }
    ensures wrote { Wrote out.old at (mod_line (bytes 8 e)) out.new result }
    ensures upper_bound { result ≤ at + 64 }
{
    let link = byte(e, layout::LINK_BIT);
    let a = word(out, at, b"mod ");
    let b = field(out, a, e, layout::EXTENDED_BUS, SPACE);
    let c = decimal(out, b, u32::from(link % 2), SPACE);
    decimal(out, c, high(e), LINE_END)
}

fn skip(out: &mut [u8], at: usize, e: u64) -> usize
    requires { at + 64 ≤ length out.old }
    ensures wrote { Wrote out.old at (skip_line (bytes 8 e)) out.new result }
    ensures upper_bound { result ≤ at + 64 }
{
    let a = word(out, at, b"skip ");
    let b = field(out, a, e, 0, SPACE);
    field(out, b, e, layout::ENTRY_LENGTH, LINE_END)
}
