// The roll: who has which ID. It is called entry by entry, and asked by the rules behind.
//
// Promised of any roll, any ID and any number: `has` answers `marked`, and `put` leaves `with_marks`, of specs/Roll.antt. What
// comes of calling entries over a roll, one after the other, is `called` of specs/Calls.antt, and what follows from these
// definitions stands in proofs/Laws.antt.
//
// One byte for each ID: it has a bit for each kind of holder, where a set of `sets` has one. Lent, since an array by value is
// copied at each call.
#![tactic(auto)]

ghost use Rattle.std.specs.Prelude.{◌≡◌, ◌%◌};
ghost use Rattle.roll.specs.Roll.{marked, with_marks};

// The bits.

pub const PROCESSOR: u8 = 0; // a processor has the ID, enabled or not

pub const TAKEN: u8 = 1; // an enabled processor has it, or none may; in a route query, an enabled APIC of the side

pub const IO_APIC: u8 = 2; // an I/O APIC has it, enabled or not

pub const BUS: u8 = 3; // a bus has it

pub const IO_TAKEN: u8 = 4; // an enabled I/O APIC has it, or none may

// The numbers that have one of them, or two.

pub const PROCESSOR_MARK: u8 = 1 << PROCESSOR;

pub const TAKEN_MARK: u8 = 1 << TAKEN;

pub const IO_APIC_MARK: u8 = 1 << IO_APIC;

pub const BUS_MARK: u8 = 1 << BUS;

pub const IO_TAKEN_MARK: u8 = 1 << IO_TAKEN;

pub const APIC_MARKS: u8 = PROCESSOR_MARK | IO_APIC_MARK; // of a processor and of an I/O APIC

pub const TAKEN_MARKS: u8 = TAKEN_MARK | IO_TAKEN_MARK; // of enabled ones of both kinds

// Whether a bit is set at an ID. There are eight bits: from 8 on they are counted anew.
#[tactic(auto, unfolding(crate::specs::Roll::marked, mps::specs::Words::bit))]
pub fn has(roll: &[u8; 256], id: u8, k: u8) -> bool
    ensures { result ≡ marked (k % 8) roll.now id }
{
    (roll[usize::from(id)] >> (k % 8)) % 2 == 1
}

// Sets the bits of a number at an ID.
#[tactic(auto, unfolding(crate::specs::Roll::with_marks))]
pub fn put(roll: &mut [u8; 256], id: u8, marks: u8)
    ensures { roll.new ≡ with_marks marks roll.old id }
{
    roll[usize::from(id)] |= marks;
}
