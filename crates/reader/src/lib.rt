// The reader of entries: it holds the lent table and its place in it, a byte offset from the table's start.
//
// Promised of any bytes and any place: `here` answers `found`, the length of the whole entry that stands there, or that
// none does, and `next` hands back the reader behind that entry, or where none stands the same reader. `entry` and `after`
// are the two for who has a table and a place and no reader. What stands at a place, and which place is behind it, is in
// mps's specs/Reader.antt: the buffer need not be an accepted table, and the ends that its header states are cut at its
// own. A reader as it is made and as it goes on is in specs/Reading.antt. A call looks at six bytes at most, wherever the
// place is.
//
// The functions over the struct only take it apart and put it together; the work is the cursor's, over plain parameters.
#![tactic(auto)]

ghost use Rattle.std.specs.Prelude.{◌≡◌, ◌<◌, length, drop};
ghost use Rattle.reader.specs.Reading.{opened, passed};
ghost use Rattle.mps.specs.Answers.{found_of};
ghost use Rattle.mps.specs.Reader.{read_base_end, read_extended_end, base_step, extended_step, whole as whole_size, size_at, next_place, found};

use mps::layout;

// ---- A reader: the lent table, and any place

#[derive(Clone, Copy)]
pub struct Reader<'a> {
    pub table: &'a [u8],
    pub place: usize,
}

pub fn open<'a>(table: &'a [u8], place: usize) -> Reader<'a>
    ensures { result ≡ opened table.entry place }
{
    Reader { table, place }
}

// The length of the entry at its place.
pub fn here<'a>(r: Reader<'a>) -> Option<usize>
    ensures { result ≡ found r.entry.table.now r.entry.place }
{
    size(r.table, r.place)
}

// The reader behind that entry; where none stands, it stays.
pub fn next<'a>(r: Reader<'a>) -> Reader<'a>
    ensures { result ≡ passed r.entry }
{
    Reader {
        table: r.table,
        place: behind(r.table, r.place),
    }
}

// ---- A table and a place: who calls these has no reader

pub fn entry(t: &[u8], place: usize) -> Option<usize>
    ensures { result ≡ found t.now place }
{
    here(open(t, place))
}

// The place behind the entry at a place; where none stands, the place stays.
pub fn after(t: &[u8], place: usize) -> usize
    ensures { result ≡ next_place t.now place }
{
    next(open(t, place)).place
}

// ---- The cursor

fn behind(t: &[u8], place: usize) -> usize
    ensures { result ≡ next_place t.now place }
{
    match size(t, place) {
        Some(n) => place + n,
        None => place,
    }
}

// The entry's length.
fn size(t: &[u8], place: usize) -> Option<usize>
    ensures { result ≡ found t.now place }
{
    if t.len() < layout::HEADER_SIZE || place < layout::HEADER_SIZE {
        return None;
    }
    let base = base_end(t);
    if place < base {
        return base_size(t, place, base);
    }
    let end = extended_end(t);
    if place < end {
        return whole(place, extended_step(t, place)?, end);
    }
    None
}

fn base_end(t: &[u8]) -> usize
    ensures { result ≡ read_base_end t.now }
{
    t.len().min(usize::from(lengths::base(t)))
}

fn extended_end(t: &[u8]) -> usize
    ensures { result ≡ read_extended_end t.now }
{
    let end = usize::from(lengths::base(t)) + usize::from(lengths::extended(t));
    t.len().min(end)
}

// The length of an entry that ends no later than the part that it stands in.
fn whole(place: usize, size: usize, end: usize) -> Option<usize>
    requires { (place < end) × (0 < size) }
    ensures { result ≡ found_of (whole_size place size end) }
{
    (size <= end - place).then_some(size)
}

// The length of a base entry that stands whole before the base end. Each type has its own way out, so that who walks need
// not wait for one entry's type to know where the next begins.
fn base_size(t: &[u8], place: usize, end: usize) -> Option<usize>
    requires { (place < length t.now) × (place < end) }
    ensures { result ≡ found_of (whole_size place (base_step (drop place t.now)) end) }
{
    let kind = t[place];
    if kind == layout::PROCESSOR_TYPE {
        return whole(place, layout::PROCESSOR_SIZE, end);
    }
    if layout::LOCAL_INTERRUPT_TYPE < kind {
        return None;
    }
    whole(place, layout::ENTRY_SIZE, end)
}

// A length byte past the buffer's end reads as 0.
fn extended_step(t: &[u8], place: usize) -> Option<usize>
    requires { place < length t.now }
    ensures { result ≡ found_of (extended_step (drop place t.now)) }
{
    if t[place] < layout::MAPPING_TYPE {
        return None;
    }
    let n = usize::from(numbers::byte(t, place + layout::ENTRY_LENGTH));
    (layout::LEAST_LENGTH <= n).then_some(n)
}
