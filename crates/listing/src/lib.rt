// The listing of a dump, and all that the listing program writes.
//
// Promised of any bytes and any room: `list` answers `listed` and leaves `list_left` in the room, `full` answers `full_listed` and
// leaves `full_left`, and `print` answers `printed` and leaves `print_left`. The definitions stand in mps's specs/Listing.antt,
// those of `full` in specs/Defaults.antt. A refusal leaves the room as it was.
//
// Nothing is written before it is known that all of it fits. Where the room holds the longest listing that such a table can
// have, that is known at once; else the listing is measured first, by arithmetic. A line that stands alone is made twice
// by the same function: first in no room at all, which only measures it, then in the room.
#![tactic(auto)]

ghost use Rattle.std.specs.Prelude.{◌≡◌, ℕ, ◌≤◌, ◌<◌, length};
ghost use Rattle.std.proofs.lemmas.List.Edits.{sets};
ghost use Rattle.mps.specs.Layout.{header_size, base_length, extended_end};
ghost use Rattle.mps.specs.Reader.{next_place};
ghost use Rattle.mps.specs.Judge.{table_refusal};
ghost use Rattle.mps.specs.Defaults.{default_table, full_listed, full_left};
ghost use Rattle.mps.specs.Listing.{listed, list_left, printed, print_left, default_line, refused_line};
ghost use Rattle.defaults.specs.Offered.{offered, offer_left};
ghost use Rattle.lines.specs.Wrote.{Wrote};
ghost use Rattle.lines.specs.Entry.{entry_line};
ghost use Rattle.mps.specs.Rooms.{fitted_bytes, fit_left};
ghost use Rattle.listing.specs.Texts.{table_text, frame_length, entries_text};

use mps::{Held, Refusal, layout};

// What a listing says in front of its table: where the pointer stands, its IMCR bit, and the table's address.
#[derive(Clone, Copy)]
struct Head {
    pointer: u32,
    imcr: u8,
    address: u32,
}

// The place behind an entry that stands at a place of an accepted table: what the reader would answer there. The base's end is
// handed in, since the header would be read anew behind every store into the room.
fn after(t: &[u8], place: usize, base: usize) -> usize
    requires t_value { (table_refusal t.now ≡ 0) × (header_size ≤ place) × (place < extended_end t.now) }
    requires place_bound { (place < next_place t.now place) × (base ≡ base_length t.now) }
    ensures { result ≡ next_place t.now place }
{
    if place < base {
        if t[place] == layout::PROCESSOR_TYPE {
            return place + layout::PROCESSOR_SIZE;
        }
        return place + layout::ENTRY_SIZE;
    }
    place + t[place + layout::ENTRY_LENGTH] as usize
}

// The lines of all entries, from a place of the room on; answers the place behind them. `after` stands at the top of the
// turn: inlined there, its branch on the type also fixes the length for the line's code. The bound on the room's place keeps
// sums below 2^64; a larger one would do as well.
fn put_entries(out: &mut [u8], at: usize, t: &[u8]) -> usize
    requires { (table_refusal t.now ≡ 0) × (at ≤ 1000) }
    ensures { Wrote out.old at (entries_text t.now) out.new result }
{
    let base = lengths::base(t) as usize;
    let end = base + lengths::extended(t) as usize;
    let mut put = at;
    let mut place = layout::HEADER_SIZE;
    while place < end {
        let next = after(t, place, base);
        put += lines::entry::line(out, put, &t[place..next]);
        place = next;
    }
    put
}

// The whole listing of an accepted table, from the first byte of the room.
fn put_table(out: &mut [u8], t: &[u8], head: Head) -> usize
    requires { table_refusal t.now ≡ 0 }
    ensures value { result ≡ length (table_text head.pointer head.imcr head.address t.now) }
    ensures out_after { out.new ≡ sets out.old 0 (table_text head.pointer head.imcr head.address t.now) }
{
    let base = lengths::base(t);
    let extended = lengths::extended(t);
    let count = lengths::count(t);
    let a = lines::frame::pointer(out, 0, head.pointer, head.imcr);
    let b = a + lines::frame::table(out, a, head.address, base, extended, count);
    let c = put_entries(out, b, t);
    c + lines::frame::end(out, c)
}

// How many bytes the line of an entry has.
fn line_width(e: &[u8]) -> usize
    ensures { result ≡ length (entry_line e.now) }
{
    if numbers::byte(e, 0) < layout::MAPPING_TYPE {
        return widths::base(e);
    }
    widths::extended(e)
}

// How many bytes the lines of all entries have: the same walk.
fn entries_width(t: &[u8]) -> usize
    requires { table_refusal t.now ≡ 0 }
    ensures { result ≡ length (entries_text t.now) }
{
    let base = lengths::base(t) as usize;
    let end = base + lengths::extended(t) as usize;
    let mut sum = 0;
    let mut place = layout::HEADER_SIZE;
    while place < end {
        let next = after(t, place, base);
        sum += line_width(&t[place..next]);
        place = next;
    }
    sum
}

// How many bytes the lines around the entries have: "pointer", "imcr", "table", "end", twice eight digits, and ten bytes
// behind words. No address makes them longer.
fn frame_width(imcr: u8, base: u16, extended: u16, count: u16) -> usize
    ensures { ((pointer address : ℕ) → result ≡ frame_length pointer imcr address base extended count) × (result ≤ 65) }
{
    let lengths = text::width(base as u32) + text::width(extended as u32);
    45 + text::width(imcr as u32) + lengths + text::width(count as u32)
}

// How many bytes the whole listing of an accepted table has.
fn table_width(t: &[u8], imcr: u8) -> usize
    requires { table_refusal t.now ≡ 0 }
    ensures { (pointer address : ℕ) → result ≡ length (table_text pointer imcr address t.now) }
{
    let base = lengths::base(t);
    let extended = lengths::extended(t);
    let count = lengths::count(t);
    frame_width(imcr, base, extended, count) + entries_width(t)
}

// Six bytes a byte of the base and nine a byte of the extended part are enough: a base entry has at least eight bytes and a
// line of at most 48, an extended entry's line has at most nine times its bytes, and the header's 44 bytes pay for the
// lines around them.
fn bound(t: &[u8]) -> usize
    requires { table_refusal t.now ≡ 0 }
    ensures { (pointer imcr address : ℕ) → length (table_text pointer imcr address t.now) ≤ result }
{
    let base = lengths::base(t) as usize;
    let extended = lengths::extended(t) as usize;
    6 * base + 9 * extended
}

// A room that holds the longest is enough without measuring.
fn list_table(t: &[u8], head: Head, out: &mut [u8]) -> Result<usize, Refusal>
    requires { table_refusal t.now ≡ 0 }
    ensures value { result ≡ fitted_bytes (table_text head.pointer head.imcr head.address t.now) out.old }
    ensures out_after { out.new ≡ fit_left (table_text head.pointer head.imcr head.address t.now) out.old }
{
    if out.len() < bound(t) && out.len() < table_width(t, head.imcr) {
        return Err(Refusal::RoomTooSmall);
    }
    Ok(put_table(out, t, head))
}

fn list_default(number: u8, imcr: u8, out: &mut [u8]) -> Result<usize, Refusal>
    ensures value { result ≡ fitted_bytes (default_line number imcr) out.old }
    ensures out_after { out.new ≡ fit_left (default_line number imcr) out.old }
{
    let size = lines::frame::default(&mut out[..0], 0, number, imcr);
    if out.len() < size {
        return Err(Refusal::RoomTooSmall);
    }
    lines::frame::default(out, 0, number, imcr);
    Ok(size)
}

// A default's table stands nowhere: it is made here, and its address is 0.
fn list_made(number: u8, boot: u8, pointer: u32, imcr: u8, out: &mut [u8]) -> Result<usize, Refusal>
    ensures value { result ≡ offered (table_text pointer imcr 0 (default_table number boot)) number boot out.old }
    ensures out_after { out.new ≡ offer_left (table_text pointer imcr 0 (default_table number boot)) number boot out.old }
{
    let mut made = [0; layout::DEFAULT_TABLE_MOST];
    let size = defaults::make(number, boot, &mut made)?;
    let head = Head {
        pointer,
        imcr,
        address: 0,
    };
    list_table(&made[..size], head, out)
}

fn print_refused(number: u8, out: &mut [u8]) -> Result<usize, Refusal>
    ensures value { result ≡ fitted_bytes (refused_line number) out.old }
    ensures out_after { out.new ≡ fit_left (refused_line number) out.old }
{
    let width = lines::frame::refused(&mut out[..0], 0, number);
    if out.len() < width {
        return Err(Refusal::RoomTooSmall);
    }
    lines::frame::refused(out, 0, number);
    Ok(width)
}

// How many bytes of the listing stand in the room, or why it is refused.
pub fn list(d: &[u8], out: &mut [u8]) -> Result<usize, Refusal>
    ensures value { result ≡ listed d.now out.old }
    ensures out_after { out.new ≡ list_left d.now out.old }
{
    match dump::read(d)? {
        Held::Default { number, imcr } => list_default(number, imcr, out),
        Held::Table {
            pointer,
            imcr,
            address,
            start,
            end,
        } => {
            let head = Head {
                pointer,
                imcr,
                address,
            };
            list_table(&d[start..end], head, out)
        }
    }
}

// The same, but of a default configuration the table that it stands for is listed, as it is when `boot` booted: 30 too.
pub fn full(d: &[u8], boot: u8, out: &mut [u8]) -> Result<usize, Refusal>
    ensures value { result ≡ full_listed d.now boot out.old }
    ensures out_after { out.new ≡ full_left d.now boot out.old }
{
    let held = match dump::read(d) {
        Ok(held) => held,
        // Not by `?`: what is returned here is one value, so that an edit of it is refused for what it means.
        Err(refusal) => return Err(refusal),
    };
    match held {
        Held::Default { number, imcr } => list_made(number, boot, finding::pointer(d), imcr, out),
        Held::Table {
            pointer,
            imcr,
            address,
            start,
            end,
        } => {
            let head = Head {
                pointer,
                imcr,
                address,
            };
            list_table(&d[start..end], head, out)
        }
    }
}

// All that the listing program writes: the listing, or the line of the refusal.
pub fn print(d: &[u8], out: &mut [u8]) -> Result<usize, Refusal>
    ensures value { result ≡ printed d.now out.old }
    ensures out_after { out.new ≡ print_left d.now out.old }
{
    match list(d, out) {
        Ok(size) => Ok(size),
        Err(Refusal::RoomTooSmall) => Err(Refusal::RoomTooSmall),
        Err(refusal) => print_refused(refusal.number(), out),
    }
}
