// The judge: whether a bare table is accepted, and the number that it is refused with, 5 to 18.
//
// Promised of any bytes: `judge` answers `judged`, `refusal` the number alone, and `examine` answers `examined`: the same
// and, of an accepted table, where the entries of each type stand. The definitions stand in mps's specs/Judge.antt, the
// rows in specs/Table.antt and specs/Rules.antt there. What a caller may use of the places is `Placed`, specs/Placed.antt,
// and that those of an accepted table are so is a law of proofs/Laws.antt.
//
// The tests are made in the order of the numbers, each over the bytes that it speaks of and no others: the header, the
// walks, then the entries of one type after the other, with the roll of the IDs that the rules before have met. No byte is
// looked at more than a fixed number of times.
#![tactic(auto)]

ghost use Rattle.std.specs.Prelude.{◌≡◌};
ghost use Rattle.mps.specs.Layout.{processor_type, bus_type};
ghost use Rattle.mps.specs.Refusals.{refusal as refusal_of};
ghost use Rattle.mps.specs.Answers.{answered};
ghost use Rattle.mps.specs.Judge.{table_refusal, judged, examined};
ghost use Rattle.judge.specs.Placed.{Placed};
ghost use Rattle.judge.specs.Stages.{from14, from15, from16, from17, from18, Walked, Ready};
ghost use Rattle.judge.specs.Rolled.{nobody, listed, Rolled, Named};

use mps::{Refusal, Sections, layout};

pub fn judge(t: &[u8]) -> Result<(), Refusal>
    ensures { result ≡ judged t.now }
{
    let _places = examine(t)?;
    Ok(())
}

// The number alone, 0 where the table is accepted.
#[tactic(auto, using(crate::proofs::Laws::number_accepted, crate::proofs::Laws::number_refused))]
pub fn refusal(t: &[u8]) -> u8
    ensures { result ≡ table_refusal t.now }
{
    match judge(t) {
        Ok(()) => 0,
        Err(refusal) => refusal.number(),
    }
}

pub fn examine(t: &[u8]) -> Result<Sections, Refusal>
    ensures { result ≡ examined t.now }
{
    header::check(t)?;
    let base = lengths::base(t) as usize;
    let count = lengths::count(t) as usize;
    let walked = sections::base(&t[layout::HEADER_SIZE..base], count)?;
    behind_base(
        t,
        // The places behind the base are not known yet.
        Sections {
            buses: layout::HEADER_SIZE + walked.buses,
            ioapics: layout::HEADER_SIZE + walked.ioapics,
            interrupts: layout::HEADER_SIZE + walked.interrupts,
            locals: layout::HEADER_SIZE + walked.locals,
            mappings: base,
            links: base,
            modifiers: base,
            others: base,
            end: base,
        },
    )
}

// 13 and on, with the places of the base.
fn behind_base(t: &[u8], p: Sections) -> Result<Sections, Refusal>
    requires { Walked t.now p }
    ensures { result ≡ examined t.now }
{
    if header::wrong_extended(t) {
        return Err(Refusal::ExtendedPart);
    }
    let base = p.mappings;
    let end = base + lengths::extended(t) as usize;
    let walked = extension::extended(&t[base..end]).ok_or(Refusal::ExtendedPart)?;
    behind_walks(
        t,
        Sections {
            links: base + walked.links,
            modifiers: base + walked.modifiers,
            others: base + walked.others,
            end,
            ..p
        },
    )
}

// 14 and on, with all places.
fn behind_walks(t: &[u8], p: Sections) -> Result<Sections, Refusal>
    requires { Ready t.now p }
    ensures { result ≡ examined t.now }
{
    from_14(t, p)?;
    Ok(p)
}

// 14: the processors, and the local APIC address of the header. 255 is taken from the start: no enabled APIC may have it,
// of either kind.
fn from_14(t: &[u8], p: Sections) -> Result<(), Refusal>
    requires { Placed t.now p }
    ensures { result ≡ answered (refusal_of (from14 t.now)) tt }
{
    let end = p.buses;
    if numbers::le32(t, layout::LOCAL_APIC) % layout::LOCAL_APIC_STEP != 0 {
        return Err(Refusal::Processors);
    }
    let mut roll: [u8; 256] = [0; 256];
    roll::put(&mut roll, layout::EVERYONE, roll::TAKEN_MARKS);
    if apics::wrong_processors(&mut roll, &t[layout::HEADER_SIZE..end]) {
        return Err(Refusal::Processors);
    }
    from_15(t, p, &mut roll)
}

// 15: the buses.
fn from_15(t: &[u8], p: Sections, roll: &mut [u8; 256]) -> Result<(), Refusal>
    requires placed { Placed t.now p }
    requires rolled { Rolled roll.old (listed processor_type t.now) nobody }
    ensures { result ≡ answered (refusal_of (from15 t.now)) tt }
{
    let start = p.buses;
    let end = p.ioapics;
    if buses::wrong(roll, &t[start..end]) {
        return Err(Refusal::Buses);
    }
    from_16(t, p, roll)
}

// 16: the I/O APICs. Behind them 255 is as good a destination as a processor or an I/O APIC that is listed: it names all.
fn from_16(t: &[u8], p: Sections, roll: &mut [u8; 256]) -> Result<(), Refusal>
    requires placed { Placed t.now p }
    requires rolled { Rolled roll.old (listed processor_type t.now) (listed bus_type t.now) }
    ensures { result ≡ answered (refusal_of (from16 t.now)) tt }
{
    let start = p.ioapics;
    let end = p.interrupts;
    if apics::wrong_io_apics(roll, &t[start..end]) {
        return Err(Refusal::IoApics);
    }
    roll::put(roll, layout::EVERYONE, roll::APIC_MARKS);
    from_17(t, p, roll)
}

// 17: what the interrupt entries of both sides say, with the listed buses, I/O APICs and processors.
fn from_17(t: &[u8], p: Sections, roll: &[u8; 256]) -> Result<(), Refusal>
    requires placed { Placed t.now p }
    requires named { Named t.now roll.now }
    ensures { result ≡ answered (refusal_of (from17 t.now)) tt }
{
    let start = p.interrupts;
    let locals = p.locals;
    let end = p.mappings;
    if interrupts::wrong_io(&t[start..locals], roll) {
        return Err(Refusal::Interrupts);
    }
    if interrupts::wrong_local(&t[locals..end], roll) {
        return Err(Refusal::Interrupts);
    }
    from_18(t, p, roll)
}

// 18: what the extended entries say, with the listed buses.
fn from_18(t: &[u8], p: Sections, roll: &[u8; 256]) -> Result<(), Refusal>
    requires placed { Placed t.now p }
    requires named { Named t.now roll.now }
    ensures { result ≡ answered (refusal_of (from18 t.now)) tt }
{
    let start = p.mappings;
    let links = p.links;
    let modifiers = p.modifiers;
    let others = p.others;
    if spaces::wrong_mappings(&t[start..links], roll) {
        return Err(Refusal::Spaces);
    }
    if spaces::wrong_modifiers(&t[modifiers..others], roll) {
        return Err(Refusal::Spaces);
    }
    if parents::wrong(&t[links..modifiers], roll) {
        return Err(Refusal::Spaces);
    }
    Ok(())
}
