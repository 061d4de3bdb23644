// The definitions of the whole product, and the types of its answers.
//
// specs/ is document 01 and Intel's MPS 1.4 in executable form, a module for each of its subjects; it is what a reader
// must believe, and what the contracts of the crates above cite. Nothing here runs and nothing needs a proof by
// walk: laws about the definitions stand in `laws` and in the crates that use them. Read specs/ in the order of
// specs/Lib.antt.
//
// Each answer below is an enum; specs/Answers.antt gives the paper's number and values for each of its cases.
#![tactic(auto)]

pub mod layout; // the offsets, lengths and limits that the code uses
pub mod refusals; // why a call is refused

pub use refusals::{EditRefusal, Refusal};

// Where the entries of each type begin in an accepted table, from its first byte; each section ends where the next
// begins. Processors begin behind the header, the extended entries (mappings) where the base ends; `others` are the
// extended types that are skipped by their length.
#[derive(Clone, Copy, Debug, PartialEq, Eq)]
pub struct Sections {
    pub buses: usize,
    pub ioapics: usize,
    pub interrupts: usize,
    pub locals: usize,
    pub mappings: usize,
    pub links: usize,
    pub modifiers: usize,
    pub others: usize,
    pub end: usize,
}

// A region of a dump: its kind, its physical base, where its body begins in the dump, and its length.
#[derive(Clone, Copy, Debug, PartialEq, Eq)]
pub struct Region {
    pub kind: u8,
    pub base: u32,
    pub offset: usize,
    pub size: u32,
}

// What a dump holds: a default configuration, or a table. The table's bytes are those of the dump from `start` to `end`,
// the end of the region that holds it.
#[derive(Clone, Copy, Debug, PartialEq, Eq)]
pub enum Held {
    Default {
        number: u8,
        imcr: u8,
    },
    Table {
        pointer: u32,
        imcr: u8,
        address: u32,
        start: usize,
        end: usize,
    },
}

// The header fields that the writer takes and that a table has, MPS Table 4-2: OEM ID, product, OEM pointer and size, local
// APIC address, byte 43.
#[derive(Clone, Copy, Debug, PartialEq, Eq)]
pub struct Fields {
    pub oem: [u8; 8],
    pub product: [u8; 12],
    pub pointer: u32,
    pub size: u16,
    pub apic: u32,
    pub reserved: u8,
}

// Where the parts of a table end. The base entries are the table's bytes from the header's end to `base`, the extended
// entries those from there to `end`. Its header fields are read by a call of their own.
#[derive(Clone, Copy, Debug, PartialEq, Eq)]
pub struct Parted {
    pub base: usize,
    pub end: usize,
}

// The new numbers of the I/O APICs: how many stand in the lent room, one for each enabled one, and how many numbers are used
// then.
#[derive(Clone, Copy, Debug, PartialEq, Eq)]
pub struct Renumbered {
    pub count: usize,
    pub used: usize,
}

// What a bus sees of an address, each with the links to parents climbed.
#[derive(Clone, Copy, Debug, PartialEq, Eq)]
pub enum Seen {
    No(usize),
    Yes(usize),
    Undeclared(usize),
}

// What a book of earlier tables has, as it stands or with what was added: how many rows, and how many bytes.
#[derive(Clone, Copy, Debug, PartialEq, Eq)]
pub struct Booked {
    pub rows: usize,
    pub size: usize,
}

// Where the body of an edition stands in its book: how many bytes, and the place of the first.
#[derive(Clone, Copy, Debug, PartialEq, Eq)]
pub struct Body {
    pub size: usize,
    pub start: usize,
}
