// The lines around the entries: pointer, table and end; and those that stand alone: default and refused.
ghost use Rattle.std.specs.Prelude.{◌≡◌, length};
ghost use Rattle.std.proofs.lemmas.List.Edits.{sets};
ghost use Rattle.mps.specs.Listing.{pointer_line, table_line, end_line, default_line, refused_line};

use super::{Put, decimal, has, hex8, put_word, store, word};
use text::{LINE_END, SPACE};

#[derive(Drop)]
struct PointerLine {
    address: u32,
    imcr: u8,
}

impl Put for PointerLine {
    ghost text = { λ l. pointer_line l.address l.imcr };

    fn put(&self, out: &mut [u8], at: usize) -> usize {
        let a = word(out, at, b"pointer ");
        let b = hex8(out, a, self.address, SPACE);
        let c = word(out, b, b"imcr ");
        decimal(out, c, self.imcr as u32, LINE_END)
    }
}

pub fn pointer(out: &mut [u8], at: usize, address: u32, imcr: u8) -> usize
    ensures value { result ≡ length (pointer_line address imcr) }
    ensures out_after { out.new ≡ sets out.old at (pointer_line address imcr) }
{
    store(out, at, &PointerLine { address, imcr })
}

#[derive(Drop)]
struct TableLine {
    address: u32,
    base: u16,
    extended: u16,
    count: u16,
}

impl Put for TableLine {
    ghost text = { λ l. table_line l.address l.base l.extended l.count };

    fn put(&self, out: &mut [u8], at: usize) -> usize {
        let a = word(out, at, b"table ");
        let b = hex8(out, a, self.address, SPACE);
        let c = decimal(out, b, self.base as u32, SPACE);
        let d = decimal(out, c, self.extended as u32, SPACE);
        decimal(out, d, self.count as u32, LINE_END)
    }
}

pub fn table(out: &mut [u8], at: usize, address: u32, base: u16, extended: u16, count: u16) -> usize
    ensures value { result ≡ length (table_line address base extended count) }
    ensures out_after { out.new ≡ sets out.old at (table_line address base extended count) }
{
    store(
        out,
        at,
        &TableLine {
            address,
            base,
            extended,
            count,
        },
    )
}

// It is the last line, and a room that just fits has its four bytes and no more.
pub fn end(out: &mut [u8], at: usize) -> usize
    ensures value { result ≡ length end_line }
    ensures out_after { out.new ≡ sets out.old at end_line }
{
    if has(out, at, 4) {
        put_word(out, at, b"end\n");
        return 4;
    }
    slices::copy(out, at, b"end\n");
    4
}

#[derive(Drop)]
struct DefaultLine {
    number: u8,
    imcr: u8,
}

impl Put for DefaultLine {
    ghost text = { λ l. default_line l.number l.imcr };

    fn put(&self, out: &mut [u8], at: usize) -> usize {
        let a = word(out, at, b"default ");
        let b = decimal(out, a, self.number as u32, SPACE);
        let c = word(out, b, b"imcr ");
        decimal(out, c, self.imcr as u32, LINE_END)
    }
}

pub fn default(out: &mut [u8], at: usize, number: u8, imcr: u8) -> usize
    ensures value { result ≡ length (default_line number imcr) }
    ensures out_after { out.new ≡ sets out.old at (default_line number imcr) }
{
    store(out, at, &DefaultLine { number, imcr })
}

#[derive(Drop)]
struct RefusedLine {
    number: u8,
}

impl Put for RefusedLine {
    ghost text = { λ l. refused_line l.number };

    fn put(&self, out: &mut [u8], at: usize) -> usize {
        let a = word(out, at, b"refused ");
        decimal(out, a, self.number as u32, LINE_END)
    }
}

pub fn refused(out: &mut [u8], at: usize, number: u8) -> usize
    ensures value { result ≡ length (refused_line number) }
    ensures out_after { out.new ≡ sets out.old at (refused_line number) }
{
    store(out, at, &RefusedLine { number })
}
