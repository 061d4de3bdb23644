// Refusal 1: whether a dump keeps the rules of its section.
//
// Promised of any bytes: `sound` answers `sound_dump`, which stands in mps's specs/Dump.antt. The steps stand in
// specs/Steps.antt; proofs/Laws.antt has what a caller may use of a sound dump and its regions, proofs/Listed.antt what a loop
// over the rows needs.
//
// Every row is read where it stands, as often as it is needed (`regions::rows`): no array of regions is filled, and none is
// copied.
#![tactic(auto)]

ghost use Rattle.std.specs.Prelude.{◌≡◌, ◌+◌, ◌*◌, ◌≤◌, ◌<◌, length};
ghost use Rattle.mps.specs.Words.{any};
ghost use Rattle.mps.specs.Layout.{regions_most, region_count, row_length};
ghost use Rattle.mps.specs.Dump.{end_of, contents_end, regions, sound_region, sound_dump};
ghost use Rattle.contents.specs.Steps.{clashing, fitted};
ghost use Rattle.regions.specs.Walk.{listed};

use mps::{Region, layout};
use regions::rows;
use regions::rows::Rows;

// "base plus length", with no wrap at 2^32.
fn end_of(r: Region) -> u64
    ensures { result ≡ end_of r }
{
    u64::from(r.base) + u64::from(r.size)
}

// The rules of a region by itself.
#[tactic(auto, unfolding(mps::specs::Dump::sound_region, mps::specs::Dump::kind_rule))]
fn sound_region(r: Region) -> bool
    ensures { result ≡ sound_region r }
{
    let end = end_of(r);
    let short = ((r.kind == layout::EBDA) | (r.kind == layout::BASE_MEMORY))
        & (r.size <= layout::KILOBYTE);
    let rom = (r.kind == layout::BIOS_ROM)
        & ((layout::ROM_START <= r.base) & (end <= layout::ROM_END));
    (short | rom | (r.kind == layout::OTHER_MEMORY))
        & (r.base % layout::REGION_STEP == 0)
        & (end <= layout::MEMORY_END)
}

// Whether two regions may not both stand in a dump: they share an address, or are of one kind that occurs at most once.
#[tactic(auto, unfolding(crate::specs::Steps::clashing, mps::specs::Dump::share))]
fn clash(r: Region, q: Region) -> bool
    ensures { result ≡ clashing r q }
{
    let share = (0 < r.size)
        & (0 < q.size)
        & (u64::from(r.base) < end_of(q))
        & (u64::from(q.base) < end_of(r));
    share | ((layout::EBDA <= r.kind) & (r.kind <= layout::BIOS_ROM) & (q.kind == r.kind))
}

// Whether one of these regions clashes with r.
fn clashes(r: Region, behind: &Rows) -> bool
    ensures { result ≡ any (clashing r) behind.now }
{
    rows::again(behind).any(|q| clash(r, q))
}

// Where the last body ends; none where a region breaks a rule by itself or with another.
#[tactic(auto, using(crate::proofs::Listed::fits, crate::proofs::Listed::listed_most))]
fn last_end(d: &[u8]) -> Option<usize>
    ensures { result ≡ fitted (contents_end d.now) (listed d.now) }
{
    let mut end = 1 + layout::ROW_LENGTH * numbers::byte(d, layout::REGION_COUNT) as usize;
    let mut left = rows::of_dump(d);
    while let Some(r) = left.next() {
        if !sound_region(r) {
            return None;
        }
        if clashes(r, &left) {
            return None;
        }
        end += r.size as usize;
    }
    Some(end)
}

// Which rule is broken cannot be seen, so they are tested as it is cheapest. A dump that ends before its rows do cannot end
// with the last body, so the rows are read only where they all are there.
#[tactic(auto, using(crate::proofs::Reading::sound_is_end))]
pub fn sound(d: &[u8]) -> bool
    ensures { result ≡ sound_dump d.now }
{
    if d.len() == 0 {
        return false;
    }
    if layout::DUMP_MOST < d.len() {
        return false;
    }
    if layout::REGIONS_MOST < d[layout::REGION_COUNT] as usize {
        return false;
    }
    last_end(d) == Some(d.len())
}
