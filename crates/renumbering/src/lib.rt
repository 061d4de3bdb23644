// New numbers for the I/O APICs: each enabled one that shares an enabled processor's ID gets the lowest free number.
//
// Promised of any bytes and any room: `renumber` answers `renumbered` and leaves `renumber_left` in the room. The definitions
// stand in mps's specs/Renumber.antt; how the code comes to the numbers, in specs/Giving.antt. A refusal leaves the room as it
// was, 26 too: whether a number is free for each that needs one is known before the first is given, by counting.
//
// The used numbers are two sets of 256 bits, the processors' and the I/O APICs'. One pass puts in those of the first, one
// those of the second: one that shares its ID has a processor's, which is used too, and every other keeps it. One more gives
// the numbers. So the cost is that of the table, and no number is tried by itself: the lowest that is free is found by the
// words of both sets. A single set of the used numbers would begin as a copy of the processors', which waits for all that was
// put in.
#![tactic(auto)]

ghost use Rattle.std.specs.Prelude.{◌≡◌, ◌≤◌, ◌<◌, length};
ghost use Rattle.std.proofs.lemmas.List.Edits.{sets};
ghost use Rattle.mps.specs.Layout.{entry_size, everyone};
ghost use Rattle.mps.specs.Judge.{table_refusal};
ghost use Rattle.mps.specs.Renumber.{renumbered, renumber_left};
ghost use Rattle.laws.proofs.Counting.{Below};
ghost use Rattle.apics.specs.Enabled.{enabled_in};
ghost use Rattle.sets.specs.Sets.{put_all};
ghost use Rattle.judge.specs.Placed.{Placed};
ghost use Rattle.renumbering.specs.Giving.{number_in, own_with, numbers_in};

use mps::{Refusal, Renumbered, Sections, layout};

// How many numbers there are to have: 0 to 254.
const NUMBERS: usize = layout::EVERYONE as usize;

// A byte for each enabled I/O APIC stands in the room from its first byte on, in table order.
pub fn renumber(t: &[u8], out: &mut [u8]) -> Result<Renumbered, Refusal>
    ensures value { result ≡ renumbered t.now out.old }
    ensures out_after { out.new ≡ renumber_left t.now out.old }
{
    let p = judge::examine(t)?;
    of_table(t, p, out)
}

// The same with the places of the table. No two enabled APICs of one kind have the same ID, so the numbers that are used at
// the end are as many as the enabled ones: 26 where these are more than there are numbers. Document 01 has the ones of a set
// counted; the processors' are counted before the I/O APICs are gone over, since the pass over these does not wait for it.
fn of_table(t: &[u8], p: Sections, out: &mut [u8]) -> Result<Renumbered, Refusal>
    requires { (table_refusal t.now ≡ 0) × (Placed t.now p) }
    ensures value { result ≡ renumbered t.now out.old }
    ensures out_after { out.new ≡ renumber_left t.now out.old }
{
    let mut processors: [u64; 4] = [0; 4];
    hold(
        &mut processors,
        &t[layout::HEADER_SIZE..p.buses],
        layout::PROCESSOR_SIZE,
    );
    let held = sets::count(&processors);
    let apics = &t[p.ioapics..p.interrupts];
    let mut own: [u64; 4] = [0; 4];
    let count = hold(&mut own, apics, layout::ENTRY_SIZE);
    if out.len() < count {
        return Err(Refusal::RoomTooSmall);
    }
    if NUMBERS < held + count {
        return Err(Refusal::NumbersUsedUp);
    }
    give(out, &mut own, &processors, apics);
    Ok(Renumbered {
        count,
        used: held + count,
    })
}

// Puts in the IDs of the enabled APICs, of entries of `size` bytes each. Answers how many they are. IDs mostly rise: the word
// that the last one went to is kept at hand, since to read it from the set would wait until it is there.
fn hold(set: &mut [u64; 4], s: &[u8], size: usize) -> usize
    requires { 4 ≤ size }
    ensures value { result ≡ length (enabled_in size s.now) }
    ensures set_after { set.new ≡ put_all set.old (enabled_in size s.now) }
{
    let mut k = 0;
    let mut word = set[0];
    let mut count = 0;
    for e in s.chunks_exact(size) {
        if e[layout::APIC_FLAGS] % 2 == 1 {
            let id = e[layout::ENTRY_ID];
            let own = usize::from(id / 64);
            if own != k {
                set[k] = word;
                k = own;
                word = set[k];
            }
            word |= 1 << (id % 64);
            count += 1;
        }
    }
    set[k] = word;
    count
}

// The number of an enabled I/O APIC with this ID. A new one is put in; its own is in already.
#[tactic(auto, unfolding(crate::specs::Giving::number_in, crate::specs::Giving::own_with))]
fn number(own: &mut [u64; 4], processors: &[u64; 4], id: u8) -> u8
    requires { number_in processors.now own.old id < 256 }
    ensures value { result ≡ number_in processors.now own.old id }
    ensures own_after { own.new ≡ own_with processors.now own.old id }
{
    if sets::contains(processors, id) {
        let n = sets::lowest(own, processors) as u8;
        sets::put(own, n);
        return n;
    }
    id
}

// Writes the number of each enabled I/O APIC. What is in their set then is not asked for.
fn give(out: &mut [u8], own: &mut [u64; 4], processors: &[u64; 4], s: &[u8])
    requires s_in_bounds { length (enabled_in entry_size s.now) ≤ length out.old }
    requires below { Below everyone (numbers_in processors.now own.old (enabled_in entry_size s.now)) }
    ensures { out.new ≡ sets out.old 0 (numbers_in processors.now own.old (enabled_in entry_size s.now)) }
{
    let mut place = 0;
    for e in s.chunks_exact(layout::ENTRY_SIZE) {
        let flags = e[layout::APIC_FLAGS];
        if flags % 2 == 1 {
            out[place] = number(own, processors, e[layout::ENTRY_ID]);
            place += 1;
        }
    }
}
