// An accepted table in which one entry has been exchanged for one of its type, judged again.
//
// Its header is as it was but for the checksum, its base adds to 0 again, and its lengths, walk and count stay, so 5 to 13 are
// passed; and of 14 to 18 only what reads the type of the entry can be otherwise (specs/Amended.antt has the rows, and
// proofs/ByType.antt that they suffice):
// - an interrupt is judged by itself;
// - a processor, bus or I/O APIC with those of its type; and where no entry of the type has the old ID any more, whether some
//   entry still names it.
ghost use Rattle.std.specs.Prelude.{◌≡◌, ◌+◌, ◌%◌, ◌<◌, ◌≤◌, not, ◌&&◌, ◌||◌, length, ◌==◌};
ghost use Rattle.mps.specs.Words.{part, any};
ghost use Rattle.mps.specs.Refusals.{refusal};
ghost use Rattle.mps.specs.Layout.{entry_size, everyone, local_apic, local_apic_step};
ghost use Rattle.mps.specs.Sections.{rows};
ghost use Rattle.mps.specs.Answers.{answered};
ghost use Rattle.mps.specs.Judge.{judged};
ghost use Rattle.judge.specs.Placed.{Placed};
ghost use Rattle.roll.specs.Roll.{marked};
ghost use Rattle.editor.specs.Amended.{has, ends_at, enrolled_if, roll_for, comes_from, speaks_of, processor_rules, bus_rules, io_apic_rules, io_interrupt_rules, local_interrupt_rules, Amended};

use mps::{Refusal, Sections, layout};

// A table, and where its entries stand.
#[derive(Clone, Copy)]
struct Table<'a> {
    t: &'a [u8],
    p: Sections,
    ghost placed: { Placed t.now p },
}

// What the judge would answer. The entry stands at `at`, and `old` was its ID.
pub(super) fn judge(t: &[u8], p: Sections, at: usize, old: u8) -> Result<(), Refusal>
    requires { Amended t.now p at old }
    ensures { result ≡ judged t.now }
{
    let table = Table { t, p };
    match t[at] {
        layout::PROCESSOR_TYPE => processor(table, old),
        layout::BUS_TYPE => bus(table, old),
        layout::IO_APIC_TYPE => io_apic(table, old),
        layout::IO_INTERRUPT_TYPE => io_interrupt(table, at),
        _ => local_interrupt(table, at),
    }
}

// ---- Processors, buses and I/O APICs

// 14, and 17 of local interrupts. The local APIC address is the header's, and stays. This and the next function stay two: what
// they do alike are the calls, and one function would be told six things, two of them functions.
#[tactic(auto, using(crate::proofs::Ways::by_14, crate::proofs::Ways::local_17, crate::proofs::Ways::cpu_past))]
fn processor(table: Table, old: u8) -> Result<(), Refusal>
    requires { local_apic table.t.now % local_apic_step ≡ 0 }
    ensures { result ≡ answered (refusal (processor_rules table.entry.t.now old)) tt }
{
    let Table { t, p } = table;
    let mut roll: [u8; 256] = [0; 256];
    roll::put(&mut roll, layout::EVERYONE, roll::TAKEN_MARKS);
    if apics::wrong_processors(&mut roll, &t[layout::HEADER_SIZE..p.buses]) {
        return Err(Refusal::Processors);
    }
    if ends_at_lost(&roll, roll::PROCESSOR, &t[p.locals..p.mappings], old) {
        return Err(Refusal::Interrupts);
    }
    Ok(())
}

// 16, and 17 of I/O interrupts.
#[tactic(auto, using(crate::proofs::Ways::by_16, crate::proofs::Ways::io_17, crate::proofs::Ways::apic_past))]
fn io_apic(table: Table, old: u8) -> Result<(), Refusal>
    ensures { result ≡ answered (refusal (io_apic_rules table.entry.t.now old)) tt }
{
    let Table { t, p } = table;
    let mut roll: [u8; 256] = [0; 256];
    roll::put(&mut roll, layout::EVERYONE, roll::TAKEN_MARKS);
    if apics::wrong_io_apics(&mut roll, &t[p.ioapics..p.interrupts]) {
        return Err(Refusal::IoApics);
    }
    if ends_at_lost(&roll, roll::IO_APIC, &t[p.interrupts..p.locals], old) {
        return Err(Refusal::Interrupts);
    }
    Ok(())
}

// Whether an interrupt ends at an ID that is no longer on the roll. 255 names all, whoever has it.
fn ends_at_lost(roll: &[u8; 256], k: u8, s: &[u8], old: u8) -> bool
    ensures { result ≡ (not (old == everyone || marked (k % 8) roll.now old) && any (ends_at old) (rows entry_size s.now)) }
{
    old != layout::EVERYONE
        && !roll::has(roll, old, k)
        && any_has(s, layout::ENTRY_SIZE, layout::DESTINATION, old)
}

// 15, and 17 and 18 of the entries that speak of a bus.
#[tactic(auto, using(crate::proofs::Ways::by_15, crate::proofs::Ways::bus_stays, crate::proofs::Ways::by_17, crate::proofs::Ways::by_18, crate::proofs::Ways::past_18))]
fn bus(table: Table, old: u8) -> Result<(), Refusal>
    ensures { result ≡ answered (refusal (bus_rules table.entry.t.now old)) tt }
{
    let Table { t, p } = table;
    let mut roll: [u8; 256] = [0; 256];
    if buses::wrong(&mut roll, &t[p.buses..p.ioapics]) {
        return Err(Refusal::Buses);
    }
    if roll::has(&roll, old, roll::BUS) {
        return Ok(());
    }
    if comes_from(table, old) {
        return Err(Refusal::Interrupts);
    }
    if speaks_of(table, old) {
        return Err(Refusal::Spaces);
    }
    Ok(())
}

// Whether an interrupt of either side comes from a bus. All are looked for, by `|`, here and below: where the edit is done
// there is none.
#[tactic(auto, using(crate::proofs::Ways::comes_rows))]
fn comes_from(table: Table, bus: u8) -> bool
    ensures { result ≡ comes_from table.entry.t.now bus }
{
    let Table { t, p } = table;
    let interrupts = &t[p.interrupts..p.locals];
    let locals = &t[p.locals..p.mappings];
    any_has(interrupts, layout::ENTRY_SIZE, layout::SOURCE_BUS, bus)
        | any_has(locals, layout::ENTRY_SIZE, layout::SOURCE_BUS, bus)
}

// Whether an extended entry speaks of a bus, as its own or as a parent.
#[tactic(auto, using(crate::proofs::Ways::speaks_rows))]
fn speaks_of(table: Table, bus: u8) -> bool
    ensures { result ≡ speaks_of table.entry.t.now bus }
{
    let Table { t, p } = table;
    let mappings = &t[p.mappings..p.links];
    let links = &t[p.links..p.modifiers];
    let modifiers = &t[p.modifiers..p.others];
    any_has(mappings, layout::MAPPING_SIZE, layout::EXTENDED_BUS, bus)
        | any_has(links, layout::LINK_SIZE, layout::EXTENDED_BUS, bus)
        | any_has(links, layout::LINK_SIZE, layout::PARENT_BUS, bus)
        | any_has(modifiers, layout::LINK_SIZE, layout::EXTENDED_BUS, bus)
}

// ---- Interrupts

// 17, by a roll that has no more than what the entry names. The two sides stay two functions, as for 14 and 16: what they do
// alike is `enroll_named`.
#[tactic(auto, using(crate::proofs::Ways::entry_size_lem, crate::proofs::Ways::io_wrong_17, crate::proofs::Ways::io_right))]
fn io_interrupt(table: Table, at: usize) -> Result<(), Refusal>
    requires { at + entry_size ≤ length table.t.now }
    ensures { result ≡ answered (refusal (io_interrupt_rules table.entry.t.now (part at (at + entry_size) table.entry.t.now))) tt }
{
    let Table { t, p } = table;
    let e = &t[at..at + layout::ENTRY_SIZE];
    let mut roll: [u8; 256] = [0; 256];
    enroll_named(
        &mut roll,
        e,
        &t[p.buses..p.ioapics],
        &t[p.ioapics..p.interrupts],
        layout::ENTRY_SIZE,
        roll::IO_APIC_MARK,
    );
    if interrupts::wrong_io(e, &roll) {
        return Err(Refusal::Interrupts);
    }
    Ok(())
}

#[tactic(auto, using(crate::proofs::Ways::entry_size_lem, crate::proofs::Ways::local_wrong_17, crate::proofs::Ways::local_right))]
fn local_interrupt(table: Table, at: usize) -> Result<(), Refusal>
    requires { at + entry_size ≤ length table.t.now }
    ensures { result ≡ answered (refusal (local_interrupt_rules table.entry.t.now (part at (at + entry_size) table.entry.t.now))) tt }
{
    let Table { t, p } = table;
    let e = &t[at..at + layout::ENTRY_SIZE];
    let mut roll: [u8; 256] = [0; 256];
    enroll_named(
        &mut roll,
        e,
        &t[p.buses..p.ioapics],
        &t[layout::HEADER_SIZE..p.buses],
        layout::PROCESSOR_SIZE,
        roll::PROCESSOR_MARK,
    );
    if interrupts::wrong_local(e, &roll) {
        return Err(Refusal::Interrupts);
    }
    Ok(())
}

// The roll that an interrupt is judged by: its bus where that is listed, its destination where an entry has it, and 255.
#[tactic(auto, unfolding(crate::specs::Amended::roll_for))]
fn enroll_named(
    roll: &mut [u8; 256],
    e: &[u8],
    buses: &[u8],
    targets: &[u8],
    size: usize,
    marks: u8,
)
    requires { (length e.now ≡ entry_size) × (1 < size) }
    ensures { roll.new ≡ roll_for marks (rows entry_size buses.now) (rows size targets.now) e.now roll.old }
{
    let bus = e[layout::SOURCE_BUS];
    enroll(roll, roll::BUS_MARK, buses, layout::ENTRY_SIZE, bus);
    enroll(roll, marks, targets, size, e[layout::DESTINATION]);
    roll::put(roll, layout::EVERYONE, roll::APIC_MARKS);
}

// ---- Of any entries

// Puts marks at an ID where some entry has it.
#[tactic(auto, unfolding(crate::specs::Amended::enrolled_if))]
fn enroll(roll: &mut [u8; 256], marks: u8, s: &[u8], size: usize, id: u8)
    requires { 1 < size }
    ensures { roll.new ≡ enrolled_if marks (rows size s.now) id roll.old }
{
    if any_has(s, size, layout::ENTRY_ID, id) {
        roll::put(roll, id, marks);
    }
}

// Whether some entry has an ID in its byte k.
fn any_has(s: &[u8], size: usize, k: usize, id: u8) -> bool
    requires { k < size }
    ensures { result ≡ any (has k id) (rows size s.now) }
{
    s.chunks_exact(size).any(|e| e[k] == id)
}
