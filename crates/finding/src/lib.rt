// What a dump's floating pointer tells, or the number that the dump is refused with before its table is judged: 1 to 4.
//
// Promised of any bytes: `find` answers `pointed`, and `pointer` the address of the dump's `pointer`. The definitions stand in
// mps's specs/Judge.antt and specs/Pointer.antt, the rules in specs/Dump.antt and specs/Pointer.antt there. What the search
// tells the rest is in specs/Spotted.antt; proofs/Spots.antt has what a caller may use of the pointer's place.
//
// The rows of the dump are read again for each search. Only the search for the table's region has them as records, which
// are lent to it as a slice.
#![tactic(auto)]

ghost use Rattle.std.specs.Prelude.{◌≡◌, cond, true, find};
ghost use Rattle.mps.specs.Words.{keep};
ghost use Rattle.mps.specs.Dump.{regions as regions_of, of_kind as is_of_kind, sound_dump};
ghost use Rattle.mps.specs.Pointer.{candidates, good_one, pointers as pointers_of, pointer as pointer_of};
ghost use Rattle.mps.specs.Judge.{pointed};
ghost use Rattle.regions.specs.Regions.{eight};
ghost use Rattle.finding.specs.Spotted.{or_blank, searched_first, Fits, Spots, SpotsAt};

use mps::{Held, Refusal, Region, layout};
use regions::{BLANK, rows};

// Where the first good pointer was met: its address, and its first byte's place in the dump.
#[derive(Clone, Copy)]
struct Spotted {
    address: u32,
    place: usize,
}

pub fn find(d: &[u8]) -> Result<Held, Refusal>
    ensures { result ≡ pointed d.now }
{
    if !contents::sound(d) {
        return Err(Refusal::BadDump);
    }
    let spotted = spot(d).ok_or(Refusal::NoPointer)?;
    said(d, spotted)
}

// The address of the first good pointer: 0 where there is none, or where the dump is not sound.
pub fn pointer(d: &[u8]) -> u32
    ensures { result ≡ cond (sound_dump d.now) (pointer_of d.now).address 0 }
{
    if !contents::sound(d) {
        return 0;
    }
    match spot(d) {
        Some(spotted) => spotted.address,
        None => 0,
    }
}

// The search, in its order.
fn spot(d: &[u8]) -> Option<Spotted>
    requires { sound_dump d.now ≡ true }
    ensures { Spots d.now (pointers_of d.now) result }
{
    match spot_in(d, searched_first(d)) {
        Some(spotted) => Some(spotted),
        None => spot_in(d, of_kind(d, layout::BIOS_ROM)),
    }
}

// The EBDA and, only if none is listed, base memory.
#[tactic(auto, using(crate::proofs::Spots::first_ebda, crate::proofs::Spots::first_base))]
fn searched_first(d: &[u8]) -> Option<Region>
    requires { sound_dump d.now ≡ true }
    ensures { or_blank result ≡ searched_first (regions_of d.now) }
{
    match of_kind(d, layout::EBDA) {
        Some(r) => Some(r),
        None => of_kind(d, layout::BASE_MEMORY),
    }
}

// The first region of a kind.
#[tactic(auto, using(contents::proofs::Laws::sound_listed))]
fn of_kind(d: &[u8], kind: u8) -> Option<Region>
    requires { sound_dump d.now ≡ true }
    ensures { result ≡ find (is_of_kind kind) (regions_of d.now) }
{
    rows::of_dump(d).find(|r| r.kind == kind)
}

fn spot_in(d: &[u8], r: Option<Region>) -> Option<Spotted>
    requires { Fits d.now (or_blank r) }
    ensures { Spots d.now (keep good_one (candidates d.now (or_blank r))) result }
{
    let r = r?;
    let at = pointers::search(&d[r.offset..r.offset + r.size as usize])?;
    Some(Spotted {
        address: r.base + at as u32,
        place: r.offset + at,
    })
}

// All regions as records, for the search for an address.
#[tactic(auto, using(crate::proofs::Spots::listed_few, crate::proofs::Spots::records_start))]
fn records(d: &[u8]) -> [Region; 8]
    requires { sound_dump d.now ≡ true }
    ensures { result ≡ eight (regions_of d.now) }
{
    let mut rs = [BLANK; 8];
    for (i, r) in rows::of_dump(d).enumerate() {
        rs[i] = r;
    }
    rs
}

// 3 and 4, and then what the pointer tells.
fn said(d: &[u8], spotted: Spotted) -> Result<Held, Refusal>
    requires d_value { sound_dump d.now ≡ true }
    requires spots_at { SpotsAt d.now (pointers_of d.now) spotted }
    ensures { result ≡ pointed d.now }
{
    let p = &d[spotted.place..spotted.place + layout::POINTER_SIZE];
    if p[layout::POINTER_REVISION] != layout::SPEC_REVISION {
        return Err(Refusal::PointerRevision);
    }
    let number = p[layout::FEATURE_1];
    // Bit 7.
    let imcr = p[layout::FEATURE_2] / 128;
    let table = numbers::le32(p, layout::POINTER_TABLE);
    if layout::DEFAULT_MOST < number {
        return Err(Refusal::FeatureByte);
    }
    if number != 0 {
        if table != 0 {
            return Err(Refusal::FeatureByte);
        }
        return Ok(Held::Default { number, imcr });
    }
    if table == 0 {
        return Err(Refusal::FeatureByte);
    }
    let r = regions::holding(records(d), table);
    Ok(Held::Table {
        pointer: spotted.address,
        imcr,
        address: table,
        start: r.offset + (table - r.base) as usize,
        end: r.offset + r.size as usize,
    })
}
