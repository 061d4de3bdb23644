// The book of earlier tables: whether it is good, and what is asked of it.
//
// Promised of any bytes: `measure` answers `booked`, `latest` answers `latest_told`, `body` answers `body_told`; `history`
// answers `history_told` and leaves `history_left` in the room, all of layout 1; `whole` answers by a body's own number,
// `body_refusal`. The definitions stand in mps's specs/Book.antt and specs/History.antt; how the code comes to a book's end, in
// specs/Pages.antt of pages, and to the rows of a history, in specs/Listed.antt.
//
// One pass goes over rows and bodies together and judges each body once; then `rows` tells whether the
// editions run.
#![tactic(auto)]

ghost use Rattle.std.specs.Prelude.{◌≡◌, ◌≤◌, ◌+◌, ◌*◌, length};
ghost use Rattle.std.proofs.lemmas.List.Edits.{sets};
ghost use Rattle.mps.specs.Layout.{book_most, book_head, book_row};
ghost use Rattle.mps.specs.Answers.{answered, found_of};
ghost use Rattle.mps.specs.Book.{layout1, body_refusal, bodies_at};
ghost use Rattle.mps.specs.History.{booked, latest_told, body_told, history_width, history_told, history_left};
ghost use Rattle.pages.specs.Pages.{limit_of, walked, end_of};
ghost use Rattle.book.specs.Listed.{fields_listed, rows_listed};

use mps::{Body, Booked, Refusal, layout};
use rows::Row;

// How many rows the book has, and how many bytes.
#[tactic(auto, using(crate::proofs::Answering::ends_running, crate::proofs::Answering::ends_broken))]
pub fn measure(s: &[u8]) -> Result<Booked, Refusal>
    ensures { result ≡ booked layout1 s.now }
{
    let size = end(s).ok_or(Refusal::BadBook)?;
    if !rows::run(s) {
        return Err(Refusal::BadBook);
    }
    Ok(Booked {
        rows: numbers::le16(s, layout::BOOK_COUNT) as usize,
        size,
    })
}

// Where a book ends, whatever its editions are; none where its head or a row is bad.
#[tactic(auto, using(crate::proofs::Laws::end_cut, crate::proofs::Laws::end_other, crate::proofs::Laws::end_full, crate::proofs::Laws::end_walked))]
fn end(s: &[u8]) -> Option<usize>
    ensures { result ≡ found_of (end_of layout1 s.now) }
{
    let limit = limit(s);
    if limit < layout::BOOK_HEAD {
        return None;
    }
    if s[0] != layout::BOOK_LAYOUT {
        return None;
    }
    let rows = numbers::le16(s, layout::BOOK_COUNT);
    if limit < layout::BOOK_HEAD + rows as usize * layout::BOOK_ROW {
        return None;
    }
    walk(s, limit, rows)
}

// How far a book may reach.
#[tactic(auto, using(crate::proofs::Laws::limit_is))]
fn limit(s: &[u8]) -> usize
    ensures { (result ≡ limit_of layout1 s.now) × (result ≤ length s.now) × (result ≤ book_most) }
{
    s.len().min(layout::BOOK_MOST)
}

// Goes over rows and bodies. Answers where the last body ends, none where a row is wrong.
#[tactic(auto, using(crate::proofs::Laws::walks_first, crate::proofs::Laws::walks_done, crate::proofs::Laws::walks_place, crate::proofs::Laws::walks_long, crate::proofs::Laws::walks_bad, crate::proofs::Laws::walks_next))]
fn walk(s: &[u8], limit: usize, rows: u16) -> Option<usize>
    requires { (book_head + rows * book_row 2 ≤ limit) × (limit ≤ length s.now) × (limit ≤ book_most) }
    ensures { result ≡ found_of (walked 2 limit s.now book_head (bodies_at 2 rows) rows) }
{
    let mut start = layout::BOOK_HEAD + rows as usize * layout::BOOK_ROW;
    for k in 0..rows {
        let row = rows::read(s, k);
        if row.start as usize != start {
            return None;
        }
        let size = row.size as usize;
        if limit - start < size {
            return None;
        }
        whole(&s[start..start + size]).ok()?;
        start += size;
    }
    Some(start)
}

// Whether a body is a table and no more: it has its table's own number, or 7 where bytes follow that.
#[tactic(auto, using(crate::proofs::Laws::whole_good))]
pub fn whole(b: &[u8]) -> Result<(), Refusal>
    ensures { result ≡ answered (body_refusal b.now) tt }
{
    let p = judge::examine(b)?;
    if p.end < b.len() {
        return Err(Refusal::BaseLength);
    }
    Ok(())
}

// The latest edition of a machine, 0 where the book has none.
#[tactic(auto, using(crate::proofs::Answering::latest_given))]
pub fn latest(s: &[u8], machine: u16) -> Result<u16, Refusal>
    ensures { result ≡ latest_told layout1 s.now machine }
{
    measure(s)?;
    Ok(rows::latest(s, machine))
}

// Where the body of an edition stands.
#[tactic(auto, using(crate::proofs::Answering::body_stands))]
pub fn body(s: &[u8], machine: u16, edition: u16) -> Result<Body, Refusal>
    ensures { result ≡ body_told layout1 s.now machine edition }
{
    measure(s)?;
    // Not by `ok_or`: what is returned here is one value, so that an edit of it is refused for what it means.
    let Some(row) = rows::find(s, machine, edition) else {
        return Err(Refusal::NotLatest);
    };
    Ok(Body {
        size: row.size as usize,
        start: row.start as usize,
    })
}

// Every row, twelve bytes each.
#[tactic(auto, using(crate::proofs::Answering::few_rows))]
pub fn history(s: &[u8], out: &mut [u8]) -> Result<usize, Refusal>
    ensures value { result ≡ history_told layout1 s.now out.old }
    ensures out_after { out.new ≡ history_left layout1 s.now out.old }
{
    let rows = measure(s)?.rows;
    if out.len() < rows * layout::HISTORY_ROW {
        return Err(Refusal::RoomTooSmall);
    }
    list(s, rows as u16, out);
    Ok(rows)
}

// Each row from the room's first byte on, one behind the other.
#[tactic(auto, using(crate::proofs::Laws::lists_first, crate::proofs::Laws::lists_done, crate::proofs::Laws::lists_next))]
fn list(s: &[u8], rows: u16, out: &mut [u8])
    requires { rows * book_row history_width ≤ length out.old }
    ensures { out.new ≡ sets out.old 0 (rows_listed 2 s.now book_head rows) }
{
    for k in 0..rows {
        put_row(out, k as usize * layout::HISTORY_ROW, rows::read(s, k));
    }
}

// A row, put at `place`: the last two numbers have four bytes each here, and two where `saving` writes a row of a book.
#[tactic(auto, using(crate::proofs::Laws::row_put))]
fn put_row(out: &mut [u8], place: usize, row: Row)
    requires { place + book_row history_width ≤ length out.old }
    ensures { out.new ≡ sets out.old place (fields_listed row) }
{
    numbers::put16(out, place, row.machine);
    numbers::put16(out, place + layout::HISTORY_EDITION, row.edition);
    numbers::put32(out, place + layout::HISTORY_START, row.start as u32);
    numbers::put32(out, place + layout::HISTORY_SIZE, row.size as u32);
}
