// The table that a default configuration stands for: MPS chapter 5, document 02, ask 6.
//
// Promised of any numbers and any room: `make` answers `made` and leaves `make_left` in the room. The definitions stand in
// mps's specs/Defaults.antt, Intel's three tables among them; the rules by which the code comes to what they say, in
// specs/Laid.antt. A refusal leaves the room as it was.
//
// The base entries are laid in an array of the longest configuration's length and handed to the writer. That what it makes of
// them is accepted is computed once, of all fourteen (board, `defaults_accepted`).
#![tactic(auto)]

ghost use Rattle.std.specs.Prelude.{◌≡◌, ◌++◌, ◌+◌, ◌*◌, ◌≤◌, length, eqb};
ghost use Rattle.std.proofs.lemmas.List.Edits.{sets};
ghost use Rattle.mps.specs.Words.{flag};
ghost use Rattle.mps.specs.Defaults.{processor_entry, io_apic_entry, made, make_left};
ghost use Rattle.defaults.specs.Laid.{apic_of, first_bus, buses_laid, inputs_laid, front_laid, laid};

use mps::{Fields, Refusal, layout};

const BASE_MOST: usize = layout::DEFAULT_TABLE_MOST - layout::HEADER_SIZE;

// "The local APICs are located at base memory address 0FEE0_0000h."
const FIELDS: Fields = Fields {
    oem: *b"        ",
    product: *b"            ",
    pointer: 0,
    size: 0,
    apic: 0xfee00000,
    reserved: 0,
};

const ISA: [u8; 8] = *b"\x01\x00ISA   ";

const EISA: [u8; 8] = *b"\x01\x00EISA  ";

const MCA: [u8; 8] = *b"\x01\x00MCA   ";

const PCI: [u8; 8] = *b"\x01\x01PCI   ";

// Table 5-2, a row for each input from INTIN0 on: the 8259A's INTR at the first, the timer's IRQ0 at INTIN2, and each other IRQ at
// its own.
const INPUTS: [u8; 128] = *b"\
    \x03\x03\x00\x00\x00\x00\x02\x00\
    \x03\x00\x00\x00\x00\x01\x02\x01\
    \x03\x00\x00\x00\x00\x00\x02\x02\
    \x03\x00\x00\x00\x00\x03\x02\x03\
    \x03\x00\x00\x00\x00\x04\x02\x04\
    \x03\x00\x00\x00\x00\x05\x02\x05\
    \x03\x00\x00\x00\x00\x06\x02\x06\
    \x03\x00\x00\x00\x00\x07\x02\x07\
    \x03\x00\x00\x00\x00\x08\x02\x08\
    \x03\x00\x00\x00\x00\x09\x02\x09\
    \x03\x00\x00\x00\x00\x0a\x02\x0a\
    \x03\x00\x00\x00\x00\x0b\x02\x0b\
    \x03\x00\x00\x00\x00\x0c\x02\x0c\
    \x03\x00\x00\x00\x00\x0d\x02\x0d\
    \x03\x00\x00\x00\x00\x0e\x02\x0e\
    \x03\x00\x00\x00\x00\x0f\x02\x0f";

// Table 5-3: the 8259A's INTR at LINTIN0 and NMI at LINTIN1, of all local APICs.
const LOCALS: [u8; 16] = *b"\x04\x03\x00\x00\x00\x00\xff\x00\x04\x01\x00\x00\x00\x00\xff\x01";

pub fn make(number: u8, boot: u8, room: &mut [u8]) -> Result<usize, Refusal>
    ensures value { result ≡ made number boot room.old }
    ensures room_after { room.new ≡ make_left number boot room.old }
{
    if number == 0 || layout::DEFAULT_MOST < number || layout::BOOT_MOST < boot {
        return Err(Refusal::NoDefault);
    }
    let mut base = [0; BASE_MOST];
    let size = lay(&mut base, number, boot);
    writer::write(FIELDS, &base[..size], &[], room)
}

// Stores bytes, and answers the place behind them. The bounds keep sums below 2^64; larger ones would do as well.
fn put(out: &mut [u8], at: usize, s: &[u8]) -> usize
    requires { (at ≤ 1000) × (length s.now ≤ 1000) }
    ensures value { result ≡ at + length s.now }
    ensures out_after { out.new ≡ sets out.old at s.now }
{
    slices::copy(out, at, s);
    at + s.len()
}

// The base entries, from the first byte on. Answers their length.
fn lay(out: &mut [u8], number: u8, boot: u8) -> usize
    ensures value { result ≡ length (laid number boot) }
    ensures out_after { out.new ≡ sets out.old 0 (laid number boot) }
{
    let front = put_front(out, number, boot);
    let end = put_inputs(out, front, number);
    put(out, end, &LOCALS)
}

// The entries before the interrupts.
fn put_front(out: &mut [u8], number: u8, boot: u8) -> usize
    ensures value { (result ≡ length (front_laid number boot)) × (result ≤ 64) }
    ensures out_after { out.new ≡ sets out.old 0 (front_laid number boot) }
{
    let apic = version(number);
    let first = put(out, 0, &processor(apic, boot, 0));
    let second = put(out, first, &processor(apic, boot, 1));
    let end = put_buses(out, second, number);
    put(out, end, &io_apic(apic))
}

// The 82489DX in 1 to 4, the integrated APIC in 5 to 7.
#[tactic(auto, unfolding(crate::specs::Laid::apic_of))]
fn version(number: u8) -> u8
    ensures { result ≡ apic_of number }
{
    if number < 5 { 0x01 } else { 0x10 }
}

fn processor(apic: u8, boot: u8, id: u8) -> [u8; 20]
    ensures { result ≡ processor_entry apic boot id }
{
    let mut e = [0; 20];
    e[layout::ENTRY_ID] = id;
    e[layout::APIC_VERSION] = apic;
    e[layout::APIC_FLAGS] = flags(boot, id);
    e
}

// Enabled, and bootstrap where it booted.
fn flags(boot: u8, id: u8) -> u8
    ensures { result ≡ 1 + 2 * flag (eqb id boot) }
{
    1 + 2 * u8::from(id == boot)
}

// Table 5-1, "Bus Type".
fn put_buses(out: &mut [u8], at: usize, number: u8) -> usize
    requires { at ≤ 500 }
    ensures value { result ≡ at + length (buses_laid number) }
    ensures out_after { out.new ≡ sets out.old at (buses_laid number) }
{
    let end = put(out, at, &first_bus(number));
    if number < 5 { end } else { put(out, end, &PCI) }
}

fn first_bus(number: u8) -> [u8; 8]
    ensures { result ≡ first_bus number }
{
    match number {
        1 | 5 => ISA,
        4 | 7 => MCA,
        _ => EISA,
    }
}

// "An I/O APIC is present at base memory address 0FEC0_0000h."
fn io_apic(apic: u8) -> [u8; 8]
    ensures { result ≡ io_apic_entry apic }
{
    [layout::IO_APIC_TYPE, 2, apic, 1, 0x00, 0x00, 0xc0, 0xfe]
}

// Table 5-2: in 2 "neither timer IRQ0 nor DMA chaining", all but INTIN2 and INTIN13; in 7 all but INTIN0.
fn put_inputs(out: &mut [u8], at: usize, number: u8) -> usize
    requires { at ≤ 500 }
    ensures value { result ≡ at + length (inputs_laid number) }
    ensures out_after { out.new ≡ sets out.old at (inputs_laid number) }
{
    match number {
        2 => {
            let two = put(out, at, &INPUTS[..16]);
            let twelve = put(out, two, &INPUTS[24..104]);
            put(out, twelve, &INPUTS[112..])
        }
        7 => put(out, at, &INPUTS[8..]),
        _ => put(out, at, &INPUTS),
    }
}
