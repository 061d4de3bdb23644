// The calls of the C interface: what each kind takes of the request's numbers and slices. A later call is one more `Kind`,
// with its letter, and one arm of `call`. Of the slices `a` is the first, `m` the three in the middle, `e` the last.
use crate::end::End;
use crate::reply;
use crate::reply::Answer;
use crate::request::{Head, Middle};

#[derive(Clone, Copy)]
pub enum Kind {
    Judge,
    Read,
    List,
    ListFull,
    DefaultTable,
    Write,
    Parts,
    Edit,
    Entry,
    IoRoutes,
    LocalRoutes,
    SlotRoutes,
    Slots,
    Renumber,
    Address,
    Book,
    Latest,
    Body,
    History,
    Save,
    Restore,
}

impl TryFrom<u8> for Kind {
    type Error = End;

    fn try_from(letter: u8) -> Result<Kind, End> {
        match letter {
            b'J' => Ok(Kind::Judge),
            b'D' => Ok(Kind::Read),
            b'L' => Ok(Kind::List),
            b'F' => Ok(Kind::ListFull),
            b'U' => Ok(Kind::DefaultTable),
            b'W' => Ok(Kind::Write),
            b'T' => Ok(Kind::Parts),
            b'E' => Ok(Kind::Edit),
            b'P' => Ok(Kind::Entry),
            b'I' => Ok(Kind::IoRoutes),
            b'C' => Ok(Kind::LocalRoutes),
            b'R' => Ok(Kind::SlotRoutes),
            b'S' => Ok(Kind::Slots),
            b'N' => Ok(Kind::Renumber),
            b'A' => Ok(Kind::Address),
            b'B' => Ok(Kind::Book),
            b'M' => Ok(Kind::Latest),
            b'G' => Ok(Kind::Body),
            b'H' => Ok(Kind::History),
            b'K' => Ok(Kind::Save),
            b'O' => Ok(Kind::Restore),
            _ => Err(End::UnknownKind),
        }
    }
}

// The low byte of what C gets: the refusal's number.
const NUMBER: u64 = 256;

fn written(q: &Head, base: &[u8], m: Middle, room: &mut [u8]) -> u64 {
    exports::ruxtajma_write(
        m.third,
        m.fourth,
        q.low32(0),
        q.low16(1),
        q.low32(2),
        q.low8(3),
        base,
        m.second,
        room,
    )
}

fn edited(q: &Head, t: &mut [u8], m: Middle) -> u64 {
    exports::ruxtajma_edit(t, q.number(0) as usize, m.second, m.third)
}

fn saved(q: &Head, room: &mut [u8], body: &[u8]) -> u64 {
    exports::ruxtajma_save(room, q.low16(0), q.low16(1), body)
}

fn restored(q: &Head, room: &mut [u8]) -> u64 {
    exports::ruxtajma_restore(room, q.low16(0), q.low16(1), q.low16(2))
}

fn parted(t: &[u8]) -> Answer {
    let parts = exports::ruxtajma_parts(t);
    if parts % NUMBER != 0 {
        return reply::one(parts);
    }
    reply::with_fields(parts, writer::fields(t))
}

pub fn call(kind: Kind, q: &Head, a: &mut [u8], m: Middle, e: &mut [u8]) -> Answer {
    let x = q.low8(0);
    let y = q.low8(1);
    let z = q.low8(2);
    match kind {
        Kind::Judge => reply::one(exports::ruxtajma_judge(a)),
        Kind::Read => reply::two(exports::ruxtajma_read(a), exports::ruxtajma_addresses(a)),
        Kind::List => reply::one(exports::ruxtajma_list(a, e)),
        Kind::ListFull => reply::one(exports::ruxtajma_list_full(a, x, e)),
        Kind::DefaultTable => reply::one(exports::ruxtajma_default_table(x, y, e)),
        Kind::Write => reply::one(written(q, a, m, e)),
        Kind::Parts => parted(a),
        Kind::Edit => reply::one(edited(q, a, m)),
        Kind::Entry => reply::one(exports::ruxtajma_entry(a, q.number(0) as usize)),
        Kind::IoRoutes => reply::one(exports::ruxtajma_io_routes(a, x, y, z, e)),
        Kind::LocalRoutes => reply::one(exports::ruxtajma_local_routes(a, x, y, z, e)),
        Kind::SlotRoutes => reply::one(exports::ruxtajma_slot_routes(a, x, y, z, e)),
        Kind::Slots => reply::one(exports::ruxtajma_slots(a, e)),
        Kind::Renumber => reply::one(exports::ruxtajma_renumber(a, e)),
        Kind::Address => reply::one(exports::ruxtajma_address(a, x, y, q.number(2))),
        Kind::Book => reply::one(exports::ruxtajma_book(a)),
        Kind::Latest => reply::one(exports::ruxtajma_latest(a, q.low16(0))),
        Kind::Body => reply::one(exports::ruxtajma_body(a, q.low16(0), q.low16(1))),
        Kind::History => reply::one(exports::ruxtajma_history(a, e)),
        Kind::Save => reply::one(saved(q, a, m.second)),
        Kind::Restore => reply::one(restored(q, a)),
    }
}
