// Saving a table in the book of earlier tables, and restoring one: row and body are added last, and nothing that the book
// holds is lost.
//
// Promised of any bytes: both calls answer `added` and leave `add_left` in the room, of layout 1: a refusal changes no byte. The
// definitions stand in mps's specs/Saving.antt. What follows for runs of saves and restores is proved in promises.
//
// Everything is tested before the first byte is written. Then the new body is put where it shall stand, behind the book, and
// the old ones move up by one row, the last byte first: no second buffer is needed.
#![tactic(auto)]

ghost use Rattle.std.specs.Prelude.{◌≡◌, ◌+◌, ◌*◌, ◌^◌, ◌<◌, ◌≤◌, length};
ghost use Rattle.std.proofs.lemmas.List.Edits.{sets};
ghost use Rattle.mps.specs.Layout.{book_most, book_head, book_row};
ghost use Rattle.mps.specs.Answers.{answered};
ghost use Rattle.mps.specs.Book.{layout1, book_of, rows_of};
ghost use Rattle.mps.specs.Saving.{save as save_ask, restore as restore_ask, added, add_left};
ghost use Rattle.pages.specs.Pages.{moved_rows};
ghost use Rattle.saving.specs.Steps.{addition_number, row_bytes, way_made, grown_room};

use mps::{Booked, Refusal, layout};
use rows::Row;

// A table as the next edition of a machine. `began` is the edition that its author began from, 0 for a new machine.
#[tactic(auto, using(crate::proofs::Laws::room_within, crate::proofs::Laws::save_next, crate::proofs::Laws::save_grows))]
pub fn save(room: &mut [u8], machine: u16, began: u16, body: &[u8]) -> Result<Booked, Refusal>
    ensures value { result ≡ added layout1 room.old (save_ask machine began body.now) }
    ensures room_after { room.new ≡ add_left layout1 room.old (save_ask machine began body.now) }
{
    let found = book::measure(room)?;
    let _sure = book::whole(body)?;
    test(room, found.size, machine, began, body.len())?;
    slices::copy(room, found.size + layout::BOOK_ROW, body);
    Ok(grow(room, found, machine, began + 1, body.len()))
}

// An old edition of a machine as its next one. `latest` is the edition that is the latest now.
#[tactic(auto, using(crate::proofs::Laws::room_within, crate::proofs::Laws::restore_stands, crate::proofs::Laws::restore_next, crate::proofs::Laws::restore_grows))]
pub fn restore(room: &mut [u8], machine: u16, edition: u16, latest: u16) -> Result<Booked, Refusal>
    ensures value { result ≡ added layout1 room.old (restore_ask machine edition latest) }
    ensures room_after { room.new ≡ add_left layout1 room.old (restore_ask machine edition latest) }
{
    let found = book::measure(room)?;
    let row = rows::find(room, machine, edition).ok_or(Refusal::NotLatest)?;
    let start = row.start as usize;
    let more = row.size as usize;
    test(room, found.size, machine, latest, more)?;
    slices::raise(
        room,
        start,
        start + more,
        found.size + layout::BOOK_ROW - start,
    );
    Ok(grow(room, found, machine, latest + 1, more))
}

// 28 and 29, for a body of so many bytes.
#[tactic(auto, using(crate::proofs::Tests::tested_28, crate::proofs::Tests::tested_last, crate::proofs::Tests::tested_full, crate::proofs::Tests::tested_fits))]
fn test(room: &[u8], size: usize, machine: u16, began: u16, more: usize) -> Result<(), Refusal>
    requires { (size ≡ length (book_of layout1 (rows_of layout1 room.now))) × (size ≤ book_most) × (more < 2 ^ 63) }
    ensures { result ≡ answered (addition_number room.now machine began more) tt }
{
    if rows::latest(room, machine) != began {
        return Err(Refusal::NotLatest);
    }
    if began == layout::EDITION_MOST {
        return Err(Refusal::BookFull);
    }
    let new = size + layout::BOOK_ROW + more;
    if (layout::BOOK_MOST < new) | (room.len() < new) {
        return Err(Refusal::BookFull);
    }
    Ok(())
}

// The book with one row more, for the body of so many bytes that stands one row behind its end.
#[tactic(auto, using(crate::proofs::Stores::room_grown))]
fn grow(room: &mut [u8], found: Booked, machine: u16, edition: u16, more: usize) -> Booked
    requires { (book_head + found.rows * book_row 2 ≤ found.size) × (found.size + book_row 2 + more ≤ book_most) × (found.size ≤ length room.old) }
    ensures rows { result.rows ≡ found.rows + 1 }
    ensures size { result.size ≡ found.size + book_row 2 + more }
    ensures room_after { room.new ≡ grown_room room.old found.rows found.size machine edition more }
{
    make_way(room, found);
    let start = found.size + layout::BOOK_ROW;
    let row = Row {
        at: layout::BOOK_HEAD + found.rows * layout::BOOK_ROW,
        machine,
        edition,
        start: start as u16,
        size: more as u16,
    };
    put_row(room, row);
    numbers::put16(room, layout::BOOK_COUNT, found.rows as u16 + 1);
    Booked {
        rows: found.rows + 1,
        size: start + more,
    }
}

// A row, put where it begins.
#[tactic(auto, using(crate::proofs::Stores::row_put))]
fn put_row(room: &mut [u8], row: Row)
    requires { row.at ≤ book_most }
    ensures { room.new ≡ sets room.old row.at (row_bytes row.machine row.edition row.start row.size) }
{
    numbers::put16(room, row.at, row.machine);
    numbers::put16(room, row.at + layout::BOOK_EDITION, row.edition);
    numbers::put16(room, row.at + layout::BOOK_START, row.start);
    numbers::put16(room, row.at + layout::BOOK_SIZE, row.size);
}

// The bodies move up by one row, and the offsets of the rows with them.
#[tactic(auto, using(crate::proofs::Stores::way_made_lem))]
fn make_way(room: &mut [u8], found: Booked)
    requires { (book_head + found.rows * book_row 2 ≤ book_most) × (book_head + found.rows * book_row 2 ≤ length room.old) }
    ensures { room.new ≡ way_made room.old found.rows found.size }
{
    let bodies = layout::BOOK_HEAD + found.rows * layout::BOOK_ROW;
    slices::raise(room, bodies, found.size, layout::BOOK_ROW);
    advance(room, found.rows);
}

// The offset of each row grows by a row's bytes. No offset of a good book is so large that the sum wraps, and a sum that
// may wrap asks nothing of the rows here.
fn advance(room: &mut [u8], rows: usize)
    requires { (book_head + rows * book_row 2 ≤ book_most) × (book_head + rows * book_row 2 ≤ length room.old) }
    ensures { room.new ≡ sets room.old book_head (moved_rows 2 room.old book_head rows) }
{
    for k in 0..rows {
        let at = layout::BOOK_HEAD + k * layout::BOOK_ROW + layout::BOOK_START;
        let start = numbers::le16(room, at);
        numbers::put16(room, at, start.wrapping_add(layout::BOOK_ROW as u16));
    }
}
