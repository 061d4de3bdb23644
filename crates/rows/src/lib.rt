// The rows of a book, of any bytes: the latest edition of a machine, where the row of an edition stands, and whether the
// editions of each machine run from 1 without a gap.
//
// Promised of any bytes, a byte past the end reading as 0: `read` answers the place and the fields of a row, `latest` answers
// `latest` of the rows, `find` answers the row that stands at `found_in`, with that place, and `run` whether `editions_run`, where
// there are at most 630 rows, a bound on those of a good book. The definitions stand in mps's specs/Book.antt, in specs/Pages.antt
// of pages and in specs/Fields.antt, and what a chain is in specs/Chains.antt.
//
// Few rows are compared, each with all before it, which takes less time than to clear the arrays of the chains. More rows are
// gone over once and linked in 4,096 chains, the last one first, so that the row before of a machine is found without going
// over all rows. The searches of one machine pass no row twice, and only 16 of the 65,536 machines share a chain: so no row is
// passed more than 16 times, whatever machines a book has.
#![tactic(auto)]

ghost use Rattle.std.specs.Prelude.{◌≤◌, ◌<◌, ◌≡◌, ◌&&◌, [], leb};
ghost use Rattle.mps.specs.Layout.{book_rows};
ghost use Rattle.mps.specs.Book.{latest as latest_of, layout1, rows_of, editions_run};
ghost use Rattle.pages.specs.Pages.{row_place, rows_before, found_in, rows_most};
ghost use Rattle.rows.specs.Chains.{chain_count, chain_of, last_in, Linked};
ghost use Rattle.rows.specs.Fields.{fields_at, found_row, place_of};

use mps::layout;

// How many chains there are.
const CHAINS: usize = 4096;

// So many rows at most are compared without chains: measured, fourteen take the same time by both ways.
const FEW: u16 = 14;

// A good book has no more rows: with its row a body takes at least 52 bytes.
const ROWS_MOST: u16 = 630;

// A row: where it begins, whose edition it is, where its body begins in the book, and how many bytes that has.
#[derive(Clone, Copy)]
pub struct Row {
    pub at: usize,
    pub machine: u16,
    pub edition: u16,
    pub start: u16,
    pub size: u16,
}

// The row behind so many. One load reads all of it: a loop that looks at one number of a row pays for no other.
#[inline]
pub fn read(s: &[u8], k: u16) -> Row
    ensures { result ≡ fields_at s.now (row_place layout1 k) }
{
    let at = layout::BOOK_HEAD + k as usize * layout::BOOK_ROW;
    let all = numbers::le64(s, at);
    Row {
        at,
        machine: (all % 65536) as u16,
        edition: ((all >> 16) % 65536) as u16,
        start: ((all >> 32) % 65536) as u16,
        size: (all >> 48) as u16,
    }
}

// The latest edition of a machine, 0 where it has none.
#[tactic(auto, unfolding(mps::specs::Book::rows_of))]
pub fn latest(s: &[u8], machine: u16) -> u16
    ensures { result ≡ latest_of machine (rows_of layout1 s.now) }
{
    latest_of(s, numbers::le16(s, layout::BOOK_COUNT), machine)
}

// The latest edition of a machine among so many rows, 0 where it has none.
#[tactic(auto, using(crate::proofs::Laws::latest_own, crate::proofs::Laws::latest_other, crate::proofs::Laws::latest_none))]
fn latest_of(s: &[u8], rows: u16, machine: u16) -> u16
    ensures { result ≡ latest_of machine (rows_before layout1 s.now rows) }
{
    let mut found = 0;
    for k in 0..rows {
        let row = read(s, k);
        if row.machine == machine {
            found = row.edition;
        }
    }
    found
}

// The row of an edition, with the place where it begins; none where there is none.
#[tactic(auto, using(crate::proofs::Laws::finds_first, crate::proofs::Laws::finds_done, crate::proofs::Laws::finds_stop, crate::proofs::Laws::finds_next, crate::proofs::Laws::place_done, crate::proofs::Laws::place_stop))]
pub fn find(s: &[u8], machine: u16, edition: u16) -> Option<Row>
    ensures row { result ≡ found_row machine edition s.now }
    ensures place { place_of result ≡ found_in layout1 machine edition s.now }
{
    for k in 0..numbers::le16(s, layout::BOOK_COUNT) {
        let row = read(s, k);
        if (row.machine == machine) & (row.edition == edition) {
            return Some(row);
        }
    }
    None
}

// Whether there are at most 630 rows, and the editions of each machine run.
#[tactic(auto, using(crate::proofs::Laws::many_rows, crate::proofs::Laws::no_more_rows), unfolding(mps::specs::Book::rows_of))]
pub fn run(s: &[u8]) -> bool
    ensures { result ≡ (leb (book_rows s.now) rows_most && editions_run [] (rows_of layout1 s.now)) }
{
    let rows = numbers::le16(s, layout::BOOK_COUNT);
    if ROWS_MOST < rows {
        return false;
    }
    if rows <= FEW {
        return few(s, rows);
    }
    chains(s, rows)
}

// Whether the editions of each machine run in so many rows, each row compared with all before it.
#[tactic(auto, using(crate::proofs::Laws::runs_first, crate::proofs::Laws::runs_done, crate::proofs::Laws::runs_stop, crate::proofs::Laws::runs_next))]
fn few(s: &[u8], rows: u16) -> bool
    ensures { result ≡ editions_run [] (rows_before layout1 s.now rows) }
{
    for k in 0..rows {
        let row = read(s, k);
        if row.edition as usize != latest_of(s, k, row.machine) as usize + 1 {
            return false;
        }
    }
    true
}

// The same by chains. It stays beside `few`: one loop for both would be told how to find the latest edition, and this one has
// two arrays to change in each turn.
#[tactic(auto, using(crate::proofs::Laws::runs_done))]
fn chains(s: &[u8], rows: u16) -> bool
    requires { rows ≤ rows_most }
    ensures { result ≡ editions_run [] (rows_before layout1 s.now rows) }
{
    let mut last: [u16; CHAINS] = [0; CHAINS];
    let mut before: [u16; ROWS_MOST as usize] = [0; ROWS_MOST as usize];
    for k in 0..rows {
        let row = read(s, k);
        let chain = chain_of(row.machine);
        if row.edition as usize != chained(s, &before, last[chain], row.machine) as usize + 1 {
            return false;
        }
        before[k as usize] = last[chain];
        last[chain] = k + 1;
    }
    true
}

fn chain_of(machine: u16) -> usize
    ensures { (result ≡ chain_of machine) × (result < chain_count) }
{
    machine as usize % CHAINS
}

// The latest edition of a machine among the rows up to `last`, a row of its chain. A row is told by its number from 1 on.
#[tactic(auto, using(crate::proofs::Laws::along_none, crate::proofs::Laws::along_own, crate::proofs::Laws::along_less, crate::proofs::Laws::along_next))]
fn chained(s: &[u8], before: &[u16; ROWS_MOST as usize], last: u16, machine: u16) -> u16
    requires { (last ≤ rows_most) × Linked s.now before.now last × (last_in s.now (chain_of machine) last ≡ last) }
    ensures { result ≡ latest_of machine (rows_before layout1 s.now last) }
{
    // A list that is linked in an array, as there is no heap: no iterator goes along it.
    let mut k = last;
    while 0 < k {
        let passed = read(s, k - 1);
        if passed.machine == machine {
            return passed.edition;
        }
        k = before[k as usize - 1];
    }
    0
}
