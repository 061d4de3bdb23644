// The walk over a table's base entries: refusals 10 to 12, and where the entries of each type stand.
//
// Promised: `base` answers `base_sections` of any bytes, in one pass. The definition stands in specs/Base.antt, which cites mps
// for the rules and the places. What callers may use of an accepted base stands in proofs/Laws.antt: its sections are whole
// entries of one type and nothing else, and one behind the other they are all entries.
//
// Types ascend, so the entries of one type follow each other. The code goes over these runs and compares no entry with the
// one before: the first faulty entry is one that no run took.
#![tactic(auto)]

ghost use Rattle.std.specs.Prelude.{◌≡◌, ◌≤◌, ◌<◌, length, drop};
ghost use Rattle.mps.specs.Reasons.{refusal_numbered};
ghost use Rattle.mps.specs.Layout.{last_base_type, base_entry_length};
ghost use Rattle.mps.specs.Table.{walk_from};
ghost use Rattle.runs.specs.Runs.{Ran};
ghost use Rattle.sections.specs.Base.{base_sections, base_entries_in, base_own};

use mps::{Refusal, layout};

// Where the entries of each type begin, from the first byte behind the header; processors begin there.
#[derive(Clone, Copy)]
pub struct BaseSections {
    pub buses: usize,
    pub ioapics: usize,
    pub interrupts: usize,
    pub locals: usize,
}

// The place behind the whole base entries of one type that stand from `at` on.

fn run(s: &[u8], at: usize, kind: u8) -> usize
    requires at_in_bounds { at ≤ length s.now }
    requires kind_le_last_base_type { kind ≤ last_base_type }
    ensures { Ran base_own kind base_entry_length s.now at result }
{
    let size = runs::size_of(kind);
    // A count of the entries that lead, by `take_while`, took a small table's judge a tenth longer.
    let mut place = at;
    for e in s[at..].chunks_exact(size) {
        if e[0] != kind {
            return place;
        }
        place += size;
    }
    place
}

// What is wrong with the entry at a place where no run goes on: behind all five types each entry is faulty.
fn fault(s: &[u8], at: usize) -> Refusal
    requires { at < length s.now }
    ensures { result ≡ refusal_numbered (walk_from 5 (base_entries_in (drop at s.now))) }
{
    let kind = s[at];
    if layout::LOCAL_INTERRUPT_TYPE < kind {
        return Refusal::EntryType;
    }
    if s.len() - at < runs::size_of(kind) {
        return Refusal::EntryCut;
    }
    Refusal::EntryOrder
}

// `s` are the bytes behind the header up to the base end, `count` is the header's entry count.
pub fn base(s: &[u8], count: usize) -> Result<BaseSections, Refusal>
    ensures { result ≡ base_sections s.now count }
{
    let buses = run(s, 0, layout::PROCESSOR_TYPE);
    let ioapics = run(s, buses, layout::BUS_TYPE);
    let interrupts = run(s, ioapics, layout::IO_APIC_TYPE);
    let locals = run(s, interrupts, layout::IO_INTERRUPT_TYPE);
    let end = run(s, locals, layout::LOCAL_INTERRUPT_TYPE);
    if end < s.len() {
        return Err(fault(s, end));
    }
    // Every type but the first has entries of 8 bytes, so nothing was counted on the way.
    if buses / layout::PROCESSOR_SIZE + (s.len() - buses) / layout::ENTRY_SIZE != count {
        return Err(Refusal::EntryCut);
    }
    Ok(BaseSections {
        buses,
        ioapics,
        interrupts,
        locals,
    })
}
