// The slots that a table names: every bus, device and pin on a PCI bus that a type 3 entry names, each once, rising.
//
// Promised of any bytes and any room: `list` answers `slots_listed` and leaves `slots_left` in the room. The definitions stand
// in mps's specs/Slots.antt; how the code comes to the slots, in specs/Sets.antt. A refusal leaves the room as it was.
//
// A slot is a number, and the slots that are named are a set of such numbers, so that the listing needs no sorting and asks
// for nothing twice. One pass over the type 3 entries makes the set, one over its words writes what is in it. The set has
// words for the buses up to the highest that is listed, since most tables have few, with low IDs.
#![tactic(auto)]

ghost use Rattle.std.specs.Prelude.{◌≡◌, false, ◌||◌, ℕ, ◌+◌, ◌*◌, ◌/◌, ◌≤◌, ◌<◌, length, leb};
ghost use Rattle.std.proofs.lemmas.List.Edits.{sets};
ghost use Rattle.mps.specs.Words.{among, each, joined};
ghost use Rattle.mps.specs.Layout.{entry_size, id_of};
ghost use Rattle.mps.specs.Sections.{rows};
ghost use Rattle.mps.specs.Judge.{table_refusal};
ghost use Rattle.mps.specs.Rooms.{fitted, fit_left};
ghost use Rattle.mps.specs.Slots.{slot_size, slots_listed, slots_left};
ghost use Rattle.judge.specs.Placed.{Placed};
ghost use Rattle.sets.specs.Sets.{holds, members, set_bits};
ghost use Rattle.slots.specs.Sets.{slots_most, slot_number, named_on, listed_on, slot_bytes, set_words, Held};

use mps::{Refusal, Sections, layout};

// How many slots a bus has, as a part of a slot's number.
const BUS_SLOTS: usize = layout::BUS_SLOTS as usize;

// The slots stand in the room from its first byte on.
pub fn list(t: &[u8], out: &mut [u8]) -> Result<usize, Refusal>
    ensures value { result ≡ slots_listed t.now out.old }
    ensures out_after { out.new ≡ slots_left t.now out.old }
{
    let p = judge::examine(t)?;
    of_table(t, p, out)
}

// The same with the places of the table.
fn of_table(t: &[u8], p: Sections, out: &mut [u8]) -> Result<usize, Refusal>
    requires { (table_refusal t.now ≡ 0) × (Placed t.now p) }
    ensures value { result ≡ slots_listed t.now out.old }
    ensures out_after { out.new ≡ slots_left t.now out.old }
{
    let mut pci = [0; 256];
    buses::pci(&mut pci, &t[p.buses..p.ioapics]);
    let words = top(&t[p.buses..p.ioapics]) * 2;
    let wired = &t[p.interrupts..p.locals];
    if words <= 32 {
        let mut few = [0; 32];
        return of_set(&mut few[0..words], &pci, wired, out);
    }
    let mut set = [0; 512];
    of_set(&mut set[0..words], &pci, wired, out)
}

// One more than the highest ID of a bus, 1 where there is none.
fn top(s: &[u8]) -> usize
    ensures { (0 < result) × (result ≤ 256) × ((x : ℕ) → result ≤ x → among x (each id_of (rows entry_size s.now)) ≡ false) }
{
    let mut top: u8 = 0;
    for e in s.chunks_exact(layout::ENTRY_SIZE) {
        top = top.max(e[layout::ENTRY_ID]);
    }
    usize::from(top) + 1
}

// The slots that the entries name on the buses of the roll, by an empty set that has words for these.
fn of_set(set: &mut [u64], pci: &[u8; 256], s: &[u8], out: &mut [u8]) -> Result<usize, Refusal>
    requires { (0 < length set.old) × (length set.old ≤ set_words) × ((n : ℕ) → holds set.old n ≡ false) × (Held pci.now (length set.old)) }
    ensures value { result ≡ fitted (listed_on pci.now (rows entry_size s.now))
        (length (listed_on pci.now (rows entry_size s.now)) / slot_size) out.old }
    ensures out_after { out.new ≡ fit_left (listed_on pci.now (rows entry_size s.now)) out.old }
{
    note(set, pci, s);
    if !fits(
        set,
        s.len() / layout::ENTRY_SIZE,
        out.len() / layout::SLOT_SIZE,
    ) {
        return Err(Refusal::RoomTooSmall);
    }
    Ok(write(out, set) / layout::SLOT_SIZE)
}

// The number of the slot that a source names.
#[tactic(auto, unfolding(crate::specs::Sets::slot_number))]
fn number(bus: u8, irq: u8) -> usize
    ensures value { result ≡ slot_number bus irq }
    ensures upper_bound { result < slots_most }
{
    usize::from(bus) * BUS_SLOTS + usize::from(irq) % BUS_SLOTS
}

// Puts in what the entries name on the buses of the roll. Those of one bus mostly stand one behind the other: the word that
// the last slot went to is kept at hand, since to read it from the set would wait until it is there.
fn note(set: &mut [u64], pci: &[u8; 256], s: &[u8])
    requires { (0 < length set.old) × (length set.old ≤ set_words) × (Held pci.now (length set.old)) }
    ensures { (n : ℕ) → holds set.new n ≡ (among n (named_on pci.now (rows entry_size s.now)) || holds set.old n) }
{
    let mut k = 0;
    let mut word = set[0];
    for e in s.chunks_exact(layout::ENTRY_SIZE) {
        let bus = e[layout::SOURCE_BUS];
        if roll::has(pci, bus, roll::BUS) {
            let n = number(bus, e[layout::SOURCE_IRQ]);
            if n / 64 != k {
                set[k] = word;
                k = n / 64;
                word = set[k];
            }
            word |= 1 << (n % 64);
        }
    }
    set[k] = word;
}

// How many slots are in a set. `sets::count` is of four words: of any slice it could not be public, as nothing would bound the
// sum.
fn count(set: &[u64]) -> usize
    requires { length set.now ≤ set_words }
    ensures { result ≡ length (members set.now) }
{
    let mut n = 0;
    for word in set {
        n += word.count_ones() as usize;
    }
    n
}

// Whether there is room for so many slots as are in a set. Where the most that can be fit they need not be counted.
fn fits(set: &[u64], most: usize, room: usize) -> bool
    requires { (length set.now ≤ set_words) × (length (members set.now) ≤ most) }
    ensures { result ≡ leb (length (members set.now)) room }
{
    if most <= room {
        return true;
    }
    count(set) <= room
}

// One slot.
fn put_slot(out: &mut [u8], at: usize, n: usize)
    requires { (n < slots_most) × (at + slot_size ≤ length out.old) }
    ensures { out.new ≡ sets out.old at (slot_bytes n) }
{
    let source = (n % BUS_SLOTS) as u8;
    out[at] = (n / BUS_SLOTS) as u8;
    out[at + 1] = source / layout::PINS;
    out[at + 2] = source % layout::PINS;
}

// The slots of one word, whose first bit is the slot `first`; answers the place behind them. Each turn takes the lowest bit
// that is set, so that a word costs what it has: nothing is counted by hand that a `for` would count.
fn put_word(out: &mut [u8], at: usize, word: u64, first: usize) -> usize
    requires { (first + 64 ≤ slots_most) × (at + length (joined slot_bytes (set_bits 64 first word)) ≤ length out.old) }
    ensures value { result ≡ at + length (joined slot_bytes (set_bits 64 first word)) }
    ensures out_after { out.new ≡ sets out.old at (joined slot_bytes (set_bits 64 first word)) }
{
    let mut place = at;
    let mut rest = word;
    while rest != 0 {
        put_slot(out, place, first + rest.trailing_zeros() as usize);
        place += layout::SLOT_SIZE;
        rest &= rest - 1;
    }
    place
}

// All slots of a set, from the room's first byte on; answers the place behind them.
fn write(out: &mut [u8], set: &[u64]) -> usize
    requires { (length set.now ≤ set_words) × (length (members set.now) * slot_size ≤ length out.old) }
    ensures value { result ≡ length (joined slot_bytes (members set.now)) }
    ensures out_after { out.new ≡ sets out.old 0 (joined slot_bytes (members set.now)) }
{
    let mut place = 0;
    for (k, word) in set.iter().enumerate() {
        place = put_word(out, place, *word, k * 64);
    }
    place
}
