// The interrupt entries of a table, I/O or local: refusal 17.
//
// Promised: `wrong_io` and `wrong_local` answer whether some entry is `wrong_interrupt_in`, of any bytes and any roll. The
// definition stands in specs/Interrupts.antt. Where the roll has the listed buses, and the listed I/O APICs or processors
// with 255 beside them, it is the rule of mps, entry by entry: proofs/Laws.antt.
#![tactic(auto)]

ghost use Rattle.std.specs.Prelude.{◌≡◌, ◌+◌, ◌%◌, ◌≤◌, length, take, drop};
ghost use Rattle.mps.specs.Words.{any};
ghost use Rattle.mps.specs.Layout.{entry_size, local_input_most};
ghost use Rattle.mps.specs.Sections.{rows};
ghost use Rattle.interrupts.specs.Interrupts.{wrong_interrupt_in};

use mps::layout;

// Every test is made, by `|`: in a table that is accepted none of them is so, and nothing would be saved by stopping at
// the first. k is the bit of those that a destination may name.
#[tactic(auto, unfolding(crate::specs::Interrupts::wrong_interrupt_in))]
fn wrong_one(e: &[u8], roll: &[u8; 256], k: u8, most: u8) -> bool
    requires { length e.now ≡ entry_size }
    ensures { result ≡ wrong_interrupt_in roll.now (k % 8) most e.now }
{
    let flags = e[layout::INTERRUPT_FLAGS];
    (layout::INTERRUPT_TYPE_MOST < e[layout::INTERRUPT_TYPE])
        | (flags % 4 == layout::RESERVED_MODE)
        | (flags / 4 % 4 == layout::RESERVED_MODE)
        | !roll::has(roll, e[layout::SOURCE_BUS], roll::BUS)
        | !roll::has(roll, e[layout::DESTINATION], k)
        | (most < e[layout::INPUT])
}

// Whether some entry is wrong, of entries of 8 bytes each, one behind the other.
fn wrong(s: &[u8], roll: &[u8; 256], k: u8, most: u8) -> bool
    ensures { result ≡ any (wrong_interrupt_in roll.now (k % 8) most) (rows entry_size s.now) }
{
    s.chunks_exact(layout::ENTRY_SIZE)
        .any(|e| wrong_one(e, roll, k, most))
}

// I/O interrupts: they end at I/O APICs, at any input.
pub fn wrong_io(s: &[u8], roll: &[u8; 256]) -> bool
    ensures { result ≡ any (wrong_interrupt_in roll.now 2 255) (rows entry_size s.now) }
{
    wrong(s, roll, roll::IO_APIC, layout::INPUT_MOST)
}

// Local interrupts: they end at processors, at input 0 or 1.
pub fn wrong_local(s: &[u8], roll: &[u8; 256]) -> bool
    ensures { result ≡ any (wrong_interrupt_in roll.now 0 local_input_most) (rows entry_size s.now) }
{
    wrong(s, roll, roll::PROCESSOR, layout::LOCAL_INPUT_MOST)
}
