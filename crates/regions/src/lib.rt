// A region of a dump: its row in the contents, and the search for the one that holds an address.
//
// Promised of any bytes: `row` answers the region that nine bytes of the contents describe. Promised of any records:
// `holding` answers the one that holds an address; `place_of` and `place_in` answer its place in a lent slice and in an
// array. The definitions stand in specs/Regions.antt and in mps's specs/Dump.antt; what a caller may use stands in
// proofs/Coded.antt, Eight.antt and Firsts.antt.
//
// Who passes along the rows of a dump reads each row where it stands: eight records by value are 192 bytes, copied at each
// call. They are made for the search for an address only, which goes over a lent slice of records. A record that is not
// filled is blank: it has kind 0 and no byte, so the search passes it over, and no count goes with the array.
#![tactic(auto)]

ghost use Rattle.std.specs.Prelude.{◌≡◌, ◌+◌, ◌<◌, ◌&&◌, take, leb, ltb};
ghost use Rattle.mps.specs.Dump.{holding as holding_of};
ghost use Rattle.regions.specs.Regions.{row_of, place_holding};

use mps::{Region, layout};

pub mod rows; // the regions of a dump, one behind the other

// A record that is not filled.
pub const BLANK: Region = Region {
    kind: 0,
    base: 0,
    offset: 0,
    size: 0,
};

// The row that bytes begin with, of a region whose body is at `offset`.
#[tactic(auto, unfolding(crate::specs::Regions::row_of))]
pub fn row(s: &[u8], offset: usize) -> Region
    ensures { result ≡ row_of offset s.now }
{
    Region {
        kind: numbers::byte(s, layout::ROW_KIND),
        base: numbers::le32(s, layout::ROW_BASE),
        offset,
        size: numbers::le32(s, layout::ROW_SIZE),
    }
}

// Whether an address lies in so many bytes from a base on.
fn holds(base: u32, size: u32, address: u32) -> bool
    ensures { result ≡ (leb base address && ltb address (base + size)) }
{
    (base <= address) & (u64::from(address) < u64::from(base) + u64::from(size))
}

// "The list of regions is searched for the one that holds an address": the place of the first that does, or how many there
// are.
pub fn place_of(rs: &[Region], address: u32) -> usize
    ensures { result ≡ place_holding address rs.now }
{
    rs.iter()
        .position(|r| holds(r.base, r.size, address))
        .unwrap_or(rs.len())
}

// The regions lent to that search.
pub fn place_in(rs: [Region; 8], address: u32) -> usize
    ensures { result ≡ place_holding address rs }
{
    place_of(&rs, address)
}

// The region at that place. Where none holds the address, one of no byte at that address, so that a table there has no
// bytes.
#[tactic(auto, using(crate::proofs::Search::holding_at))]
pub fn holding(rs: [Region; 8], address: u32) -> Region
    ensures { result ≡ holding_of address (take 8 rs) }
{
    let none = Region {
        base: address,
        ..BLANK
    };
    let i = place_in(rs, address);
    rs.get(i).copied().unwrap_or(none)
}
