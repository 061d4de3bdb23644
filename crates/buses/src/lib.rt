// What buses must say: refusal 15, and which buses are listed, and which of them are PCI buses.
//
// Each public function goes once over the bus entries, as the bytes that they are, one behind the other; bytes that are left
// at the end and are no whole entry are not looked at. Promised of any roll and any bytes: `wrong` answers and leaves what the
// call of specs/Buses.antt over the roll does, `is_listed` answers whether a bus is among the IDs, `is_pci` whether it is among
// those of PCI buses, and `pci` leaves those on the roll. proofs/Laws.antt says what the call means in the words of the rule,
// and what the roll then shows.
#![tactic(auto)]

ghost use Rattle.std.specs.Prelude.{◌≡◌, true, length};
ghost use Rattle.mps.specs.Words.{among, keep, each};
ghost use Rattle.mps.specs.Layout.{entry_size, id_of, name_of};
ghost use Rattle.mps.specs.Buses.{is_bus_name};
ghost use Rattle.mps.specs.Sections.{rows};
ghost use Rattle.mps.specs.Slots.{is_pci};
ghost use Rattle.roll.specs.Roll.{bus_bit, enrolled};
ghost use Rattle.roll.specs.Calls.{wrong_one, called};
ghost use Rattle.buses.specs.Buses.{bus_call};

use mps::layout;

// The name is the upper six bytes of eight, which are read by one load.
fn is_quick(e: &[u8]) -> bool
    requires { length e.now ≡ entry_size }
    ensures { result ≡ true → is_bus_name (name_of e.now) ≡ true }
{
    tables::names::quick(numbers::le64(e, 0) / 65536)
}

// What is behind the buses, from the first on, that have a free ID and a quick name. Most tables have no others, and those that
// are behind are called from there on by the table of names. (One loop for both took half as long again where all are quick.)
#[tactic(auto, using(crate::proofs::Laws::bus_fine, crate::proofs::Laws::bus_next))]
fn behind_quick<'a>(roll: &mut [u8; 256], s: &'a [u8]) -> &'a [u8]
    ensures { called bus_call roll.new (rows entry_size result.now) ≡ called bus_call roll.old (rows entry_size s.now) }
{
    let mut rest = s;
    while let Some((e, behind)) = rest.split_at_checked(layout::ENTRY_SIZE) {
        let id = e[layout::ENTRY_ID];
        if roll::has(roll, id, roll::BUS) {
            return rest;
        }
        if !is_quick(e) {
            return rest;
        }
        roll::put(roll, id, roll::BUS_MARK);
        rest = behind;
    }
    rest
}

#[tactic(auto, using(crate::proofs::Laws::bus_steps))]
fn wrong_bus(e: &[u8], roll: &[u8; 256]) -> bool
    requires { length e.now ≡ entry_size }
    ensures { result ≡ wrong_one bus_call roll.now e.now }
{
    roll::has(roll, e[layout::ENTRY_ID], roll::BUS)
        || !tables::names::is_bus_name(&e[layout::BUS_NAME..layout::ENTRY_SIZE])
}

// Whether some bus has an ID that a bus on the roll or before it has, or an unknown name.
#[tactic(auto, using(roll::proofs::Pieces::call_steps, crate::proofs::Laws::bus_next))]
pub fn wrong(roll: &mut [u8; 256], s: &[u8]) -> bool
    ensures value { result ≡ (called bus_call roll.old (rows entry_size s.now)).wrong }
    ensures roll_after { roll.new ≡ (called bus_call roll.old (rows entry_size s.now)).roll }
{
    let rest = behind_quick(roll, s);
    for e in rest.chunks_exact(layout::ENTRY_SIZE) {
        if wrong_bus(e, roll) {
            return true;
        }
        roll::put(roll, e[layout::ENTRY_ID], roll::BUS_MARK);
    }
    false
}

// For those who ask about one bus of an accepted table: no roll is kept, and no name is looked at.
pub fn is_listed(s: &[u8], bus: u8) -> bool
    ensures { result ≡ among bus (each id_of (rows entry_size s.now)) }
{
    s.chunks_exact(layout::ENTRY_SIZE)
        .any(|e| bus == e[layout::ENTRY_ID])
}

// Whether an entry is of a PCI bus. The name is the upper six bytes of eight, as above.
fn names_pci(e: &[u8]) -> bool
    requires { length e.now ≡ entry_size }
    ensures { result ≡ is_pci e.now }
{
    tables::names::is_pci(numbers::le64(e, 0) / 65536)
}

// Whether a bus is among those named "PCI". The name is looked at only where the ID is the one asked for.
pub fn is_pci(s: &[u8], bus: u8) -> bool
    ensures { result ≡ among bus (each id_of (keep is_pci (rows entry_size s.now))) }
{
    s.chunks_exact(layout::ENTRY_SIZE)
        .any(|e| bus == e[layout::ENTRY_ID] && names_pci(e))
}

// For those who ask about many buses: the PCI buses are put on the roll as buses.
#[tactic(auto, using(roll::proofs::Pieces::enrol_steps, crate::proofs::Laws::enrol_next))]
pub fn pci(roll: &mut [u8; 256], s: &[u8])
    ensures { roll.new ≡ enrolled bus_bit roll.old (each id_of (keep is_pci (rows entry_size s.now))) }
{
    for e in s.chunks_exact(layout::ENTRY_SIZE) {
        if names_pci(e) {
            roll::put(roll, e[layout::ENTRY_ID], roll::BUS_MARK);
        }
    }
}
