// What each bus says of an address by itself, its parent, and what the buses below it say, gathered from the entries that
// name it.
//
// Promised of any bytes: `gather` leaves `all_marked` of the whole entries in them: a number for each of the 256 buses, the
// highest that one of its entries says; `parented` of the links: the parent that each bus has by them; and `said_below`: for each
// bus whether one with it as parent claims the address, or else is silent. The definitions stand in specs/Marks.antt. That the
// highest number is what mps's `says` says, where the entries are those of a table by their types, is a law of proofs/Marks.antt
// (`marked_says`); that what is said below is, for a bus that asks that parent, what `claims` and `silent` say of the others, one
// of proofs/Below.antt (`said_others`).
//
// The lists are lent and stored in, so that none is copied. Each type has a loop of its own, in which nothing is asked that
// the place has told: a caller gives the entries of a type, and no type is read.
#![tactic(auto)]

ghost use Rattle.std.specs.Prelude.{◌≡◌, ◌&&◌, ℕ, ◌≤◌, ◌<◌, max, length, set, eqb};
ghost use Rattle.mps.specs.Words.{byte};
ghost use Rattle.mps.specs.Layout.{mapping_size, link_size, extended_bus};
ghost use Rattle.mps.specs.Ranges.{in_list};
ghost use Rattle.mps.specs.Sections.{rows};
ghost use Rattle.marks.specs.Marks.{mapping_rank, link_rank, modifier_rank, marked, all_marked, parented, said_beside, said_below, lists_at};

use mps::layout;

// What an entry says of its bus, the higher before the lower: nothing, that the bus has an entry, that it is to ask its
// parent, that it sees the address, that the address is taken away from it. Numbers and no enum, since `gather` promises lists of
// the numbers that specs/Marks.antt defines.

pub const UNDECLARED: u8 = 0;

pub const DECLARED: u8 = 1;

pub const PARENT: u8 = 2;

pub const SEES: u8 = 3;

const TAKEN: u8 = 4;

// What a bus says to the others with its parent: nothing that stands in their way, that it is silent, that it claims the
// address.

pub const FREE: u8 = 0;

pub const SILENT: u8 = 1;

const CLAIMED: u8 = 2;

// From the entries of the three types: mappings, links and modifiers. What is said below is by whole marks, so it comes last.
pub fn gather(
    marks: &mut [u8; 256],
    parents: &mut [u8; 256],
    below: &mut [u8; 256],
    mappings: &[u8],
    links: &[u8],
    modifiers: &[u8],
    kind: u8,
    address: u64,
)
    ensures marks_after { marks.new ≡ all_marked kind address marks.old (rows mapping_size mappings.now) (rows link_size links.now) (rows link_size modifiers.now) }
    ensures parents_after { parents.new ≡ parented parents.old (rows link_size links.now) }
    ensures below_after { below.new ≡ said_below (all_marked kind address marks.old (rows mapping_size mappings.now) (rows link_size links.now) (rows link_size modifiers.now)) below.old (rows link_size links.now) }
{
    mark_mappings(marks, mappings, kind, address);
    mark_links(marks, parents, links);
    mark_modifiers(marks, modifiers, kind, address);
    mark_below(below, marks, links);
}

// ---- Mappings

// The place in the range is compared with its length: no sum that could pass 2^64.
#[tactic(auto, unfolding(crate::specs::Marks::mapping_rank))]
fn mapping_rank(e: &[u8], kind: u8, address: u64) -> u8
    requires { link_size ≤ length e.now }
    ensures { result ≡ mapping_rank kind address e.now }
{
    let base = numbers::le64(e, layout::SPACE_BASE);
    let length = numbers::le64(e, layout::SPACE_LENGTH);
    if e[layout::SPACE_KIND] != kind {
        return DECLARED;
    }
    if address < base {
        return DECLARED;
    }
    if address - base < length {
        return SEES;
    }
    DECLARED
}

#[tactic(auto, using(laws::proofs::Rows::row_steps), unfolding(crate::specs::Marks::marked))]
fn mark_mappings(marks: &mut [u8; 256], s: &[u8], kind: u8, address: u64)
    ensures { marks.new ≡ marked extended_bus (mapping_rank kind address) marks.old (rows mapping_size s.now) }
{
    for e in s.chunks_exact(layout::MAPPING_SIZE) {
        let bus = usize::from(e[layout::EXTENDED_BUS]);
        marks[bus] = marks[bus].max(mapping_rank(e, kind, address));
    }
}

// ---- Links

// A link declares nothing: without the subtractive bit the bus says nothing by it.
#[tactic(auto, unfolding(crate::specs::Marks::link_rank, mps::specs::Words::bit))]
fn link_rank(e: &[u8]) -> u8
    requires { link_size ≤ length e.now }
    ensures { result ≡ link_rank e.now }
{
    if e[layout::LINK_BIT] % 2 == 1 {
        return PARENT;
    }
    UNDECLARED
}

#[tactic(auto, using(laws::proofs::Rows::row_steps), unfolding(crate::specs::Marks::marked, crate::specs::Marks::parented))]
fn mark_links(marks: &mut [u8; 256], parents: &mut [u8; 256], s: &[u8])
    ensures marks_after { marks.new ≡ marked extended_bus link_rank marks.old (rows link_size s.now) }
    ensures parents_after { parents.new ≡ parented parents.old (rows link_size s.now) }
{
    for e in s.chunks_exact(layout::LINK_SIZE) {
        let bus = usize::from(e[layout::EXTENDED_BUS]);
        parents[bus] = e[layout::PARENT_BUS];
        marks[bus] = marks[bus].max(link_rank(e));
    }
}

// ---- Modifiers

// The lists that the address lies in: none where modifiers do not touch it.
#[tactic(auto, unfolding(crate::specs::Marks::lists_at))]
fn lists(kind: u8, address: u64) -> u8
    ensures { result ≡ lists_at kind address }
{
    if kind != 0 {
        return 0;
    }
    if layout::MODIFIED_BELOW <= address {
        return 0;
    }
    tables::ranges::ranges(address)
}

// Whether one of them is a modifier's list.
#[tactic(auto, unfolding(crate::specs::Marks::lists_at, mps::specs::Ranges::in_list, mps::specs::Ranges::ranges_at))]
fn touched(lists: u8, list: u32) -> bool
    ensures { (kind address : ℕ) → lists ≡ lists_at kind address → result ≡ (eqb kind 0 && in_list list address) }
{
    if list == 0 {
        return lists % 2 == 1;
    }
    if list == 1 {
        return lists / 2 == 1;
    }
    false
}

#[tactic(auto, unfolding(crate::specs::Marks::modifier_rank, mps::specs::Words::bit))]
fn modifier_rank(e: &[u8], lists: u8) -> u8
    requires { link_size ≤ length e.now }
    ensures { (kind address : ℕ) → lists ≡ lists_at kind address → result ≡ modifier_rank kind address e.now }
{
    if touched(lists, numbers::le32(e, layout::RANGE_LIST)) {
        if e[layout::LINK_BIT] % 2 == 1 {
            return TAKEN;
        }
        return SEES;
    }
    DECLARED
}

// The lists are looked up once.
#[tactic(auto, using(laws::proofs::Rows::row_steps), unfolding(crate::specs::Marks::marked))]
fn mark_modifiers(marks: &mut [u8; 256], s: &[u8], kind: u8, address: u64)
    ensures { marks.new ≡ marked extended_bus (modifier_rank kind address) marks.old (rows link_size s.now) }
{
    let lists = lists(kind, address);
    for e in s.chunks_exact(layout::LINK_SIZE) {
        let bus = usize::from(e[layout::EXTENDED_BUS]);
        marks[bus] = marks[bus].max(modifier_rank(e, lists));
    }
}

// ---- What the buses below say

fn beside(mark: u8) -> u8
    ensures { result ≡ said_beside mark }
{
    if mark == SEES {
        return CLAIMED;
    }
    if mark == UNDECLARED {
        return SILENT;
    }
    FREE
}

// Nothing is stored where nothing is said: of many buses with one parent each store would wait for the one before.
fn raise(below: &mut [u8; 256], at: usize, said: u8)
    requires { at < 256 }
    ensures { below.new ≡ set below.old at (max (byte below.old at) said) }
{
    if said == FREE {
        return;
    }
    below[at] = below[at].max(said);
}

// A bus that asks its parent says nothing below it: so no bus that the climb comes from is counted beside itself.
#[tactic(auto, using(laws::proofs::Rows::row_steps), unfolding(crate::specs::Marks::marked))]
fn mark_below(below: &mut [u8; 256], marks: &[u8; 256], s: &[u8])
    ensures { below.new ≡ said_below marks.now below.old (rows link_size s.now) }
{
    for e in s.chunks_exact(layout::LINK_SIZE) {
        let said = beside(marks[usize::from(e[layout::EXTENDED_BUS])]);
        raise(below, usize::from(e[layout::PARENT_BUS]), said);
    }
}
