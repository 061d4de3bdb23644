// How many bytes each line of an entry has, by arithmetic: no text is made.
//
// Promised of any bytes: `base` answers the length of the line of a base entry, `extended` of an extended one. The lines
// are those of mps's specs/Listing.antt; a byte that an entry lacks reads as 0. No public function has a `requires`.
//
// A line has its words and one byte behind each. What has one length in every line of a type is a number in its sum.
#![tactic(auto)]

ghost use Rattle.std.specs.Prelude.{◌≡◌, [], ◌≤◌, min, length, get_or};
ghost use Rattle.mps.specs.Words.{bit};
ghost use Rattle.mps.specs.Listing.{decimal as decimal_of, on_off, boot_ap, interrupt_name};
ghost use Rattle.mps.specs.Listing.{cpu_line, bus_line, io_apic_line, interrupt_line, base_line, extended_line};

use mps::layout;

// How many digits a byte of an entry has.
fn field(e: &[u8], k: usize) -> usize
    ensures { (result ≡ length (decimal_of (get_or e.now k 0))) × (result ≤ 5) }
{
    text::width(u32::from(numbers::byte(e, k)))
}

fn on_off(flags: u8) -> usize
    ensures { (result ≡ length (on_off (bit 0 flags))) × (result ≤ 3) }
{
    if flags % 2 == 1 { 2 } else { 3 }
}

fn boot_ap(flags: u8) -> usize
    ensures { (result ≡ length (boot_ap (bit 1 flags))) × (result ≤ 4) }
{
    if flags / 2 % 2 == 1 { 4 } else { 2 }
}

fn interrupt_name(kind: u8) -> usize
    ensures { (result ≡ length (interrupt_name kind)) × (result ≤ 6) }
{
    if kind < 3 { 3 } else { 6 }
}

// Where a part of an entry ends: at the place, or at the end where that is past it.
fn inside(e: &[u8], at: usize) -> usize
    ensures { result ≡ min at (length e.now) }
{
    at.min(e.len())
}

// "cpu" and five bytes behind words.
fn cpu(e: &[u8]) -> usize
    ensures { result ≡ length (cpu_line e.now) }
{
    let flags = numbers::byte(e, layout::APIC_FLAGS);
    8 + field(e, layout::ENTRY_ID) + field(e, layout::APIC_VERSION) + on_off(flags) + boot_ap(flags)
}

// "bus" and three.
fn bus(e: &[u8]) -> usize
    ensures { result ≡ length (bus_line e.now) }
{
    let from = inside(e, layout::BUS_NAME);
    let to = inside(e, layout::ENTRY_SIZE);
    6 + field(e, layout::ENTRY_ID) + text::kept(&e[from..to])
}

// "ioapic", eight digits and five.
fn io_apic(e: &[u8]) -> usize
    ensures { result ≡ length (io_apic_line e.now) }
{
    let flags = numbers::byte(e, layout::APIC_FLAGS);
    19 + field(e, layout::ENTRY_ID) + field(e, layout::APIC_VERSION) + on_off(flags)
}

// An interrupt's line without its first word: the digits of polarity and trigger, and eight.
fn interrupt(e: &[u8]) -> usize
    ensures { (result ≡ length (interrupt_line [] e.now)) × (result ≤ 36) }
{
    let name = interrupt_name(numbers::byte(e, layout::INTERRUPT_TYPE));
    let source = field(e, layout::SOURCE_BUS) + field(e, layout::SOURCE_IRQ);
    10 + name + source + field(e, layout::DESTINATION) + field(e, layout::INPUT)
}

// The line of a base entry, by its type.
pub fn base(e: &[u8]) -> usize
    ensures { result ≡ length (base_line e.now) }
{
    match numbers::byte(e, 0) {
        layout::PROCESSOR_TYPE => cpu(e),
        layout::BUS_TYPE => bus(e),
        layout::IO_APIC_TYPE => io_apic(e),
        layout::IO_INTERRUPT_TYPE => 3 + interrupt(e),
        _ => 4 + interrupt(e),
    }
}

// The line of an extended entry, by its type: "map", twice sixteen digits and five; "tree", a bit and four; "mod", a bit
// and four; "skip" and three.
pub fn extended(e: &[u8]) -> usize
    ensures { result ≡ length (extended_line e.now) }
{
    match numbers::byte(e, 0) {
        layout::MAPPING_TYPE => {
            40 + field(e, layout::EXTENDED_BUS) + field(e, layout::SPACE_KIND)
        }
        layout::HIERARCHY_TYPE => {
            9 + field(e, layout::EXTENDED_BUS) + field(e, layout::PARENT_BUS)
        }
        layout::MODIFIER_TYPE => {
            8 + field(e, layout::EXTENDED_BUS) + text::width(numbers::le32(e, layout::RANGE_LIST))
        }
        _ => 7 + field(e, 0) + field(e, layout::ENTRY_LENGTH),
    }
}
