// Where things stand, for the code: the offsets, lengths and limits of specs/Layout.antt that code uses, each once. A
// constant comes here with the first function that uses it, and that function's proof ties it to the definition.

// ---- The dump: its limits, and the rows of its contents

pub const DUMP_MOST: usize = 65536;

pub const REGIONS_MOST: usize = 8;

pub const REGION_COUNT: usize = 0;

pub const ROW_LENGTH: usize = 9;

pub const ROW_KIND: usize = 0;

pub const ROW_BASE: usize = 1;

pub const ROW_SIZE: usize = 5;

// The kinds: the first kilobyte of the EBDA, the last of base memory, the BIOS ROM, and other memory.

pub const EBDA: u8 = 1;

pub const BASE_MEMORY: u8 = 2;

pub const BIOS_ROM: u8 = 3;

pub const OTHER_MEMORY: u8 = 4;

pub const KILOBYTE: u32 = 1024;

pub const ROM_START: u32 = 0xf0000;

pub const ROM_END: u64 = 0x100000;

pub const REGION_STEP: u32 = 16;

pub const MEMORY_END: u64 = 0x100000000;

// ---- The floating pointer, MPS Table 4-1

pub const POINTER_SIZE: usize = 16;

pub const POINTER_TABLE: usize = 4;

pub const POINTER_PARAGRAPHS: usize = 8;

pub const POINTER_REVISION: usize = 9;

pub const FEATURE_1: usize = 11;

pub const FEATURE_2: usize = 12;

pub const ONE_PARAGRAPH: u8 = 1;

pub const DEFAULT_MOST: u8 = 7;

pub const BOOT_MOST: u8 = 1;

// The longest table of a default configuration: two processors, two buses, an I/O APIC, sixteen I/O interrupts, two local ones.
pub const DEFAULT_TABLE_MOST: usize = 252;

// ---- The header, MPS Table 4-2

pub const HEADER_SIZE: usize = 44;

pub const BASE_LENGTH: usize = 4;

pub const REVISION: usize = 6;

pub const CHECKSUM: usize = 7;

pub const OEM_ID: usize = 8;

pub const PRODUCT: usize = 16;

pub const OEM_POINTER: usize = 28;

pub const OEM_SIZE: usize = 32;

pub const ENTRY_COUNT: usize = 34;

pub const LOCAL_APIC: usize = 36;

pub const EXTENDED_LENGTH: usize = 40;

pub const EXTENDED_CHECKSUM: usize = 42;

pub const RESERVED_43: usize = 43;

pub const SPEC_REVISION: u8 = 4;

pub const PART_MOST: usize = 4096;

pub const LOCAL_APIC_STEP: u32 = 4096;

// ---- Base entries, MPS Table 4-3

pub const PROCESSOR_TYPE: u8 = 0;

pub const BUS_TYPE: u8 = 1;

pub const IO_APIC_TYPE: u8 = 2;

pub const IO_INTERRUPT_TYPE: u8 = 3;

// The last of the base types.
pub const LOCAL_INTERRUPT_TYPE: u8 = 4;

// ---- Processors, buses and I/O APICs, MPS Tables 4-4, 4-7 and 4-9

pub const PROCESSOR_SIZE: usize = 20;

// Every other base entry.
pub const ENTRY_SIZE: usize = 8;

pub const ENTRY_ID: usize = 1;

pub const APIC_VERSION: usize = 2;

pub const APIC_FLAGS: usize = 3;

pub const BUS_NAME: usize = 2;

pub const IO_APIC_ADDRESS: usize = 4;

pub const IO_APIC_STEP: u32 = 1024;

// ---- Interrupt entries, I/O and local, MPS Tables 4-10 and 4-12

pub const INTERRUPT_TYPE: usize = 1;

pub const INTERRUPT_FLAGS: usize = 2;

pub const SOURCE_BUS: usize = 4;

pub const SOURCE_IRQ: usize = 5;

pub const DESTINATION: usize = 6;

pub const INPUT: usize = 7;

pub const INTERRUPT_TYPE_MOST: u8 = 3;

// INT.
pub const VECTORED: u8 = 0;

pub const RESERVED_MODE: u8 = 2;

pub const EVERYONE: u8 = 255;

// The highest input: any byte for an I/O interrupt, 1 for a local one.
pub const INPUT_MOST: u8 = 255;

pub const LOCAL_INPUT_MOST: u8 = 1;

// ---- The source of a PCI interrupt, MPS Appendix D.3, Table D-1

pub const PINS: u8 = 4;

pub const DEVICES: u8 = 32;

// The slots of a bus: the source IRQ without its bit 7.
pub const BUS_SLOTS: u8 = 128;

// ---- Extended entries, MPS Tables 4-13 to 4-16

pub const MAPPING_TYPE: u8 = 128;

pub const HIERARCHY_TYPE: u8 = 129;

pub const MODIFIER_TYPE: u8 = 130;

// The first type that is skipped by its length.
pub const OTHER_TYPES: u8 = 131;

pub const ENTRY_LENGTH: usize = 1;

pub const LEAST_LENGTH: usize = 2;

pub const MAPPING_SIZE: usize = 20;

// A link or a modifier.
pub const LINK_SIZE: usize = 8;

pub const EXTENDED_BUS: usize = 2;

pub const SPACE_KIND: usize = 3;

// The byte with the bit of a link or a modifier.
pub const LINK_BIT: usize = 3;

pub const SPACE_BASE: usize = 4;

pub const SPACE_LENGTH: usize = 12;

pub const PARENT_BUS: usize = 4;

pub const RANGE_LIST: usize = 4;

pub const SPACE_KIND_MOST: u8 = 2;

pub const RANGE_LIST_MOST: u32 = 1;

pub const MODIFIED_BELOW: u64 = 65536;

// ---- The book of earlier tables, layout 1 (document 02, ask 3)

pub const BOOK_MOST: usize = 32768;

pub const BOOK_LAYOUT: u8 = 1;

pub const BOOK_COUNT: usize = 1;

pub const BOOK_HEAD: usize = 3;

// A row: machine, edition, where its body begins, how many bytes that has.
pub const BOOK_ROW: usize = 8;

pub const BOOK_EDITION: usize = 2;

pub const BOOK_START: usize = 4;

pub const BOOK_SIZE: usize = 6;

pub const EDITION_MOST: u16 = 65535;

// ---- Answers

// A pair of a route: an ID and an input.
pub const PAIR_SIZE: usize = 2;

// A slot: bus, device and pin.
pub const SLOT_SIZE: usize = 3;

// A row of a history: machine, edition, where its body begins, how many bytes that has.
pub const HISTORY_ROW: usize = 12;

pub const HISTORY_EDITION: usize = 2;

pub const HISTORY_START: usize = 4;

pub const HISTORY_SIZE: usize = 8;
