// The regions of a dump, one behind the other.
ghost use Rattle.std.specs.Prelude.{◌≡◌, ◌+◌, ◌*◌, ◌^◌, ◌≤◌, List, length};
ghost use Rattle.mps.specs.declared.Region.{Region as Region_of};
ghost use Rattle.regions.specs.Walk.{rows_from, listed};

use crate::row;
use mps::{Region, layout};
use std::marker::Model;

// The rows that are left, and where the body of the first of them is. A proof sees the regions that they describe.
#[derive(Drop)]
pub struct Rows<'a> {
    rows: &'a [u8],
    offset: usize,
}

impl<'a> Model for Rows<'a> {
    ghost Value = { List Region_of };

    ghost view = { λ r. rows_from r.offset r.rows.now };

    // Each row is nine bytes, and adds less than 2^32.
    ghost invariant = { λ r. r.offset + length r.rows.now * 2 ^ 32 ≤ 2 ^ 62 };
}

impl<'a> Iterator for Rows<'a> {
    ghost use Rattle.std.specs.Iterator.{YieldsFirst, item_count};

    type Item = Region;

    ghost next_gives = { YieldsFirst (λ s. s) };

    ghost remaining = { item_count (λ s. s) };

    #[tactic(auto, using(crate::proofs::Walk::rows_none, crate::proofs::Walk::rows_more))]
    fn next(&mut self) -> Option<Region> {
        let (first, rest) = self.rows.split_first_chunk::<{ layout::ROW_LENGTH }>()?;
        let region = row(first, self.offset);
        self.rows = rest;
        self.offset += region.size as usize;
        Some(region)
    }
}

// The regions that the contents list, where their rows all are there.
#[tactic(auto, using(crate::proofs::Walk::listed_whole, crate::proofs::Walk::listed_not))]
pub fn of_dump<'a>(d: &'a [u8]) -> Rows<'a>
    ensures { result ≡ listed d.now }
{
    let offset = 1 + layout::ROW_LENGTH * numbers::byte(d, layout::REGION_COUNT) as usize;
    if d.len() < offset {
        return Rows { rows: &[], offset };
    }
    Rows {
        rows: &d[1..offset],
        offset,
    }
}

// The rows that are left once more, for a second walk along them. A derived `Clone` would not say which rows it gives.
pub fn again<'a>(r: &Rows<'a>) -> Rows<'a>
    ensures { result ≡ r.now }
{
    Rows {
        rows: r.rows,
        offset: r.offset,
    }
}
