// The lines of base entries: cpu, bus, ioapic, int and lint.
ghost use Rattle.std.specs.Prelude.{◌≡◌, [], ◌∷◌, ◌+◌, ◌≤◌, length};
ghost use Rattle.mps.specs.Words.{bit};
ghost use Rattle.mps.specs.Numbers.{bytes};
ghost use Rattle.mps.specs.Layout.{name_of, interrupt_type, source_bus, source_irq, polarity, trigger, destination, input};
ghost use Rattle.mps.specs.Listing.{line as line_of, decimal as decimal_of, unpadded, on_off, boot_ap, interrupt_name};
ghost use Rattle.mps.specs.Listing.{cpu_line, bus_line, io_apic_line, base_line};
ghost use Rattle.text.specs.Text.{ended};
ghost use Rattle.lines.specs.Wrote.{Wrote};

use super::{byte, decimal, field, hex8, high, letter, word};
use mps::layout;
use text::{LINE_END, SPACE};

// Each of these stores a line, or a word of one, and answers the place behind it.

pub(super) fn entry(out: &mut [u8], at: usize, e: u64) -> usize
    requires { at + 64 ≤ length out.old }
    ensures wrote { Wrote out.old at (base_line (bytes 8 e)) out.new result }
    ensures upper_bound { result ≤ at + 64 }
{
    match byte(e, 0) {
        layout::PROCESSOR_TYPE => cpu(out, at, e),
        layout::BUS_TYPE => bus(out, at, e),
        layout::IO_APIC_TYPE => io_apic(out, at, e),
        layout::IO_INTERRUPT_TYPE => {
            let a = word(out, at, b"int");
            interrupt(out, a, e)
        }
        _ => {
            let a = word(out, at, b"lint");
            interrupt(out, a, e)
        }
    }
}

fn cpu(out: &mut [u8], at: usize, e: u64) -> usize
    requires { at + 64 ≤ length out.old }
    ensures wrote { Wrote out.old at (cpu_line (bytes 8 e)) out.new result }
    ensures upper_bound { result ≤ at + 64 }
{
    let flags = byte(e, layout::APIC_FLAGS);
    let a = word(out, at, b"cpu ");
    let b = field(out, a, e, layout::ENTRY_ID, SPACE);
    let c = field(out, b, e, layout::APIC_VERSION, SPACE);
    let d = on_off(out, c, flags);
    boot_ap(out, d, flags)
}

fn bus(out: &mut [u8], at: usize, e: u64) -> usize
    requires { at + 64 ≤ length out.old }
    ensures wrote { Wrote out.old at (bus_line (bytes 8 e)) out.new result }
    ensures upper_bound { result ≤ at + 64 }
{
    let a = word(out, at, b"bus ");
    let b = field(out, a, e, layout::ENTRY_ID, SPACE);
    let c = name(out, b, e);
    out[c] = LINE_END;
    c + 1
}

// A bus's name, written out byte by byte: in a loop the branches are guessed worse.
fn name(out: &mut [u8], at: usize, e: u64) -> usize
    requires { at + 6 ≤ length out.old }
    ensures wrote { Wrote out.old at (unpadded (name_of (bytes 8 e))) out.new result }
    ensures upper_bound { result ≤ at + 6 }
{
    let a = letter(out, at, e, layout::BUS_NAME);
    let b = letter(out, a, e, layout::BUS_NAME + 1);
    let c = letter(out, b, e, layout::BUS_NAME + 2);
    let d = letter(out, c, e, layout::BUS_NAME + 3);
    let f = letter(out, d, e, layout::BUS_NAME + 4);
    letter(out, f, e, layout::BUS_NAME + 5)
}

fn io_apic(out: &mut [u8], at: usize, e: u64) -> usize
    requires { at + 64 ≤ length out.old }
    ensures wrote { Wrote out.old at (io_apic_line (bytes 8 e)) out.new result }
    ensures upper_bound { result ≤ at + 64 }
{
    let flags = byte(e, layout::APIC_FLAGS);
    let a = word(out, at, b"ioapic ");
    let b = field(out, a, e, layout::ENTRY_ID, SPACE);
    let c = field(out, b, e, layout::APIC_VERSION, SPACE);
    let d = on_off(out, c, flags);
    hex8(out, d, high(e), LINE_END)
}

// An interrupt's line behind its first word.
fn interrupt(out: &mut [u8], at: usize, e: u64) -> usize
    requires { at + 44 ≤ length out.old }
    ensures fact { let x = bytes 8 e in
        let signal = decimal_of (polarity x) ∷ decimal_of (trigger x) ∷ decimal_of (destination x) ∷ decimal_of (input x) ∷ [] in
        let words = decimal_of (source_bus x) ∷ decimal_of (source_irq x) ∷ signal in
        Wrote out.old at (32 ∷ line_of (interrupt_name (interrupt_type x)) words) out.new result }
    ensures upper_bound { result ≤ at + 44 }
{
    let a = interrupt_name(out, at, byte(e, layout::INTERRUPT_TYPE));
    let b = field(out, a, e, layout::SOURCE_BUS, SPACE);
    let c = field(out, b, e, layout::SOURCE_IRQ, SPACE);
    signal(out, c, e)
}

// The rest of it: how the interrupt is signalled, and where to.
fn signal(out: &mut [u8], at: usize, e: u64) -> usize
    requires { at + 24 ≤ length out.old }
    ensures fact { let x = bytes 8 e in
        let words = decimal_of (trigger x) ∷ decimal_of (destination x) ∷ decimal_of (input x) ∷ [] in
        Wrote out.old at (line_of (decimal_of (polarity x)) words) out.new result }
    ensures upper_bound { result ≤ at + 24 }
{
    let flags = byte(e, layout::INTERRUPT_FLAGS);
    let a = decimal(out, at, u32::from(flags % 4), SPACE);
    let b = decimal(out, a, u32::from(flags / 4 % 4), SPACE);
    let c = field(out, b, e, layout::DESTINATION, SPACE);
    field(out, c, e, layout::INPUT, LINE_END)
}

fn on_off(out: &mut [u8], at: usize, flags: u8) -> usize
    requires { at + 8 ≤ length out.old }
    ensures wrote { Wrote out.old at (ended (on_off (bit 0 flags)) 32) out.new result }
    ensures upper_bound { result ≤ at + 8 }
{
    if flags % 2 == 1 {
        word(out, at, b"on ")
    } else {
        word(out, at, b"off ")
    }
}

fn boot_ap(out: &mut [u8], at: usize, flags: u8) -> usize
    requires { at + 8 ≤ length out.old }
    ensures wrote { Wrote out.old at (ended (boot_ap (bit 1 flags)) 10) out.new result }
    ensures upper_bound { result ≤ at + 8 }
{
    if flags / 2 % 2 == 1 {
        word(out, at, b"boot\n")
    } else {
        word(out, at, b"ap\n")
    }
}

// With a space on either side: the word in front of it comes without one.
fn interrupt_name(out: &mut [u8], at: usize, kind: u8) -> usize
    requires { at + 8 ≤ length out.old }
    ensures wrote { Wrote out.old at (32 ∷ ended (interrupt_name kind) 32) out.new result }
    ensures upper_bound { result ≤ at + 8 }
{
    match kind {
        0 => word(out, at, b" INT "),
        1 => word(out, at, b" NMI "),
        2 => word(out, at, b" SMI "),
        _ => word(out, at, b" EXTINT "),
    }
}
