// The route queries: which inputs of which APICs an interrupt line is wired to, I/O and local, and those of a PCI slot.
//
// Promised of any bytes and any room: `io` and `local` answer `routed` and leave `routes_left` in the room, each of its side;
// `slot` answers `slot_routed` and leaves `slot_routes_left`. The definitions stand in mps's specs/Routes.antt and
// specs/Slots.antt; how the code comes to the pairs, in specs/Pairs.antt. A refusal leaves the room as it was. What the answer
// means in the paper's words is proved in promises.
//
// All are one query over the side and what is compared of an entry's IRQ: the whole byte, or for a slot its low seven bits.
// What is tested behind the table is each query's own. The IDs of the side's enabled APICs are gathered once, as a list for
// those entries that name all and on a roll for those that name one: so the cost is that of the table and of the answer, and
// not of their product. One pass over the interrupt entries writes the pairs; only where the room may be too small for them
// does one before it count them.
#![tactic(auto)]

ghost use Rattle.std.specs.Prelude.{◌≡◌, false, ◌+◌, ◌*◌, ◌≤◌, length, leb};
ghost use Rattle.std.proofs.lemmas.List.Edits.{sets};
ghost use Rattle.mps.specs.Words.{twice, joined};
ghost use Rattle.mps.specs.Layout.{entry_size, destination};
ghost use Rattle.mps.specs.Rules.{io_side, local_side};
ghost use Rattle.mps.specs.Sections.{rows};
ghost use Rattle.mps.specs.Judge.{table_refusal};
ghost use Rattle.mps.specs.Rooms.{fit_left};
ghost use Rattle.mps.specs.Routes.{question, pair, pair_size, routed, routes_left};
ghost use Rattle.mps.specs.Slots.{slot, slot_routed, slot_routes_left};
ghost use Rattle.roll.specs.Roll.{taken_bit, enrolled, OnRoll};
ghost use Rattle.judge.specs.Placed.{Placed};
ghost use Rattle.apics.specs.Enabled.{enabled_in};
ghost use Rattle.routes.specs.Pairs.{side_of, asked_by, pairs_of, named, pairs_for, pairs_in, count_in, paired};

use mps::{Refusal, Sections, layout};

// The side of a table that a query is about.
#[derive(Clone, Copy)]
enum Side {
    Io,
    Local,
}

// What is compared of an entry's source IRQ: the whole byte, or for a slot all but bit 7.
#[derive(Clone, Copy)]
enum Irq {
    Whole(u8),
    Slot(u8),
}

// What an interrupt entry is asked for.
#[derive(Clone, Copy)]
struct Wire {
    itype: u8,
    bus: u8,
    irq: Irq,
}

impl Wire {
    // Whether the entry is asked about. The IRQ first: by it alone most entries are known not to be.
    #[tactic(auto, unfolding(crate::specs::Pairs::wired))]
    fn asks(&self, e: &[u8]) -> bool
        requires { length e.now ≡ entry_size }
        ensures { result ≡ asked_by self.now e.now }
    {
        let source = e[layout::SOURCE_IRQ];
        let same = match self.irq {
            Irq::Whole(irq) => source == irq,
            Irq::Slot(irq) => source % layout::BUS_SLOTS == irq,
        };
        same && (e[layout::INTERRUPT_TYPE] == self.itype) & (e[layout::SOURCE_BUS] == self.bus)
    }
}

// The IDs of a side's enabled APICs: a list of them, for the entries that name all, and a roll that they are on, for those
// that name one.
#[derive(Clone, Copy)]
struct Targets<'a> {
    ids: &'a [u8],
    roll: &'a [u8; 256],
    ghost on_roll: { OnRoll taken_bit roll.now ids.now },
    ghost few: { length ids.now ≤ 256 },
}

impl Targets<'_> {
    // Those that an entry names.
    fn named<'a>(&'a self, e: &'a [u8]) -> &'a [u8]
        requires { length e.now ≡ entry_size }
        ensures { result.now ≡ named self.now.ids.now (destination e.now) }
    {
        let to = e[layout::DESTINATION];
        if to == layout::EVERYONE {
            return self.ids;
        }
        if roll::has(self.roll, to, roll::TAKEN) {
            return &e[layout::DESTINATION..layout::DESTINATION + 1];
        }
        &[]
    }

    // The pairs of one entry; answers the place behind them. It branches by itself, since a slice made for each entry costs up
    // to half as much again.
    fn put(&self, out: &mut [u8], at: usize, entry: &[u8]) -> usize
        requires { (length entry.now ≡ entry_size) × (at + length (pairs_for self.now.ids.now entry.now) ≤ length out.old) }
        ensures value { result ≡ at + length (pairs_for self.now.ids.now entry.now) }
        ensures out_after { out.new ≡ sets out.old at (pairs_for self.now.ids.now entry.now) }
    {
        let to = entry[layout::DESTINATION];
        if to == layout::EVERYONE {
            return put_all(out, at, entry, self.ids);
        }
        if roll::has(self.roll, to, roll::TAKEN) {
            put_pair(out, at, entry, to);
            return at + layout::PAIR_SIZE;
        }
        at
    }
}

// Interrupt type, bus and IRQ in; the pairs stand in the room from its first byte on.
pub fn io(t: &[u8], itype: u8, bus: u8, irq: u8, out: &mut [u8]) -> Result<usize, Refusal>
    ensures value { result ≡ routed (question io_side itype bus irq) t.now out.old }
    ensures out_after { out.new ≡ routes_left (question io_side itype bus irq) t.now out.old }
{
    query(t, Side::Io, itype, bus, irq, out)
}

// The same over local interrupts and processors.
pub fn local(t: &[u8], itype: u8, bus: u8, irq: u8, out: &mut [u8]) -> Result<usize, Refusal>
    ensures value { result ≡ routed (question local_side itype bus irq) t.now out.old }
    ensures out_after { out.new ≡ routes_left (question local_side itype bus irq) t.now out.old }
{
    query(t, Side::Local, itype, bus, irq, out)
}

// Bus, device and pin of a PCI slot in; the pairs stand in the room as those of `io` do.
pub fn slot(t: &[u8], bus: u8, device: u8, pin: u8, out: &mut [u8]) -> Result<usize, Refusal>
    ensures value { result ≡ slot_routed (slot bus device pin) t.now out.old }
    ensures out_after { out.new ≡ slot_routes_left (slot bus device pin) t.now out.old }
{
    let p = judge::examine(t)?;
    slot_behind_table(t, p, bus, device, pin, out)
}

fn query(
    t: &[u8],
    side: Side,
    itype: u8,
    bus: u8,
    irq: u8,
    out: &mut [u8],
) -> Result<usize, Refusal>
    ensures value { result ≡ routed (question (side_of side) itype bus irq) t.now out.old }
    ensures out_after { out.new ≡ routes_left (question (side_of side) itype bus irq) t.now out.old }
{
    let p = judge::examine(t)?;
    behind_table(t, p, side, itype, bus, irq, out)
}

// 24 and on, with the places of the table.
fn behind_table(
    t: &[u8],
    p: Sections,
    side: Side,
    itype: u8,
    bus: u8,
    irq: u8,
    out: &mut [u8],
) -> Result<usize, Refusal>
    requires { (table_refusal t.now ≡ 0) × (Placed t.now p) }
    ensures value { result ≡ routed (question (side_of side) itype bus irq) t.now out.old }
    ensures out_after { out.new ≡ routes_left (question (side_of side) itype bus irq) t.now out.old }
{
    if layout::INTERRUPT_TYPE_MOST < itype {
        return Err(Refusal::Query);
    }
    if !buses::is_listed(&t[p.buses..p.ioapics], bus) {
        return Err(Refusal::Query);
    }
    let irq = Irq::Whole(irq);
    of_side(t, p, side, &Wire { itype, bus, irq }, out)
}

// 24, 25 and on. A PCI bus is a listed one, so that only another is looked for among all. The IRQ of a slot is its device and
// pin, packed, and bit 7 of an entry's is not compared.
fn slot_behind_table(
    t: &[u8],
    p: Sections,
    bus: u8,
    device: u8,
    pin: u8,
    out: &mut [u8],
) -> Result<usize, Refusal>
    requires { (table_refusal t.now ≡ 0) × (Placed t.now p) }
    ensures value { result ≡ slot_routed (slot bus device pin) t.now out.old }
    ensures out_after { out.new ≡ slot_routes_left (slot bus device pin) t.now out.old }
{
    let listed = &t[p.buses..p.ioapics];
    if !buses::is_pci(listed, bus) {
        if buses::is_listed(listed, bus) {
            return Err(Refusal::Slot);
        }
        return Err(Refusal::Query);
    }
    if (layout::DEVICES <= device) | (layout::PINS <= pin) {
        return Err(Refusal::Slot);
    }
    let irq = device * layout::PINS + pin;
    let irq = Irq::Slot(irq);
    let itype = layout::VECTORED;
    of_side(t, p, Side::Io, &Wire { itype, bus, irq }, out)
}

// Apart from the tests of 24 and 25, since what a side answers asks nothing of them.
fn of_side(t: &[u8], p: Sections, side: Side, wire: &Wire, out: &mut [u8]) -> Result<usize, Refusal>
    requires { (table_refusal t.now ≡ 0) × (Placed t.now p) }
    ensures value { result ≡ paired (pairs_of (side_of side) (asked_by wire.now) t.now) out.old }
    ensures out_after { out.new ≡ fit_left (pairs_of (side_of side) (asked_by wire.now) t.now) out.old }
{
    match side {
        Side::Io => answer(
            &t[p.ioapics..p.interrupts],
            layout::ENTRY_SIZE,
            &t[p.interrupts..p.locals],
            wire,
            out,
        ),
        Side::Local => answer(
            &t[layout::HEADER_SIZE..p.buses],
            layout::PROCESSOR_SIZE,
            &t[p.locals..p.mappings],
            wire,
            out,
        ),
    }
}

// The same of one side's parts: its APICs, entries of `size` bytes, and its interrupt entries. 256 places hold any IDs of
// which no two are the same.
// The wire is copied: what is lent may lie in the room, for all that the back end knows, and would be read anew for each entry.
fn answer(
    targets: &[u8],
    size: usize,
    entries: &[u8],
    wire: &Wire,
    out: &mut [u8],
) -> Result<usize, Refusal>
    requires { (4 ≤ size) × (twice (enabled_in size targets.now) ≡ false) × (length entries.now ≤ 65535) }
    ensures value { result ≡ paired (pairs_in (enabled_in size targets.now) (asked_by wire.now) (rows entry_size entries.now)) out.old }
    ensures out_after { out.new ≡ fit_left (pairs_in (enabled_in size targets.now) (asked_by wire.now) (rows entry_size entries.now)) out.old }
{
    let mut roll = [0; 256];
    let mut list = [0; 256];
    let n = gather(&mut roll, &mut list, targets, size);
    let targets = Targets {
        ids: &list[0..n],
        roll: &roll,
    };
    let asked = *wire;
    if !has_room(out.len(), entries, &asked, targets) {
        return Err(Refusal::RoomTooSmall);
    }
    Ok(write(out, entries, &asked, targets) / layout::PAIR_SIZE)
}

// The enabled APICs, of entries of `size` bytes each: they are put on the roll, and their IDs stand in `ids` from its first
// place on, in table order. Answers how many they are.
#[tactic(auto, using(laws::proofs::Enabled::ids_end, laws::proofs::Enabled::ids_on, laws::proofs::Enabled::ids_off), unfolding(apics::specs::Enabled::enabled_in, roll::specs::Roll::enrolled))]
fn gather(roll: &mut [u8; 256], ids: &mut [u8; 256], s: &[u8], size: usize) -> usize
    requires { (4 ≤ size) × (length (enabled_in size s.now) ≤ 256) }
    ensures value { result ≡ length (enabled_in size s.now) }
    ensures roll_after { roll.new ≡ enrolled taken_bit roll.old (enabled_in size s.now) }
    ensures ids_after { ids.new ≡ sets ids.old 0 (enabled_in size s.now) }
{
    let mut count = 0;
    for e in s.chunks_exact(size) {
        if e[layout::APIC_FLAGS] % 2 == 1 {
            let id = e[layout::ENTRY_ID];
            roll::put(roll, id, roll::TAKEN_MARK);
            ids[count] = id;
            count += 1;
        }
    }
    count
}

// How many pairs there are.
#[tactic(auto, using(laws::proofs::Rows::row_steps, crate::proofs::Counting::named_most), unfolding(crate::specs::Pairs::count_in, mps::specs::Words::keep, mps::specs::Words::each, mps::specs::Sums::total))]
fn count(s: &[u8], wire: &Wire, targets: Targets) -> usize
    requires { length s.now ≤ 65535 }
    ensures value { result ≡ count_in targets.entry.ids.now (asked_by wire.now) (rows entry_size s.now) }
    ensures upper_bound { result ≤ 32 * length s.now }
{
    let mut pairs = 0;
    for e in s.chunks_exact(layout::ENTRY_SIZE) {
        if wire.asks(e) {
            pairs += targets.named(e).len();
        }
    }
    pairs
}

// Whether the pairs fit in a room of so many bytes. Where it has a place for every ID in every entry nothing is counted.
fn has_room(room: usize, s: &[u8], wire: &Wire, targets: Targets) -> bool
    requires { length s.now ≤ 65535 }
    ensures { result ≡ leb (length (pairs_in targets.entry.ids.now (asked_by wire.now) (rows entry_size s.now))) room }
{
    let most = s.len() / layout::ENTRY_SIZE * targets.ids.len();
    if most * layout::PAIR_SIZE <= room {
        return true;
    }
    count(s, wire, targets) * layout::PAIR_SIZE <= room
}

// One pair, of an interrupt entry and an ID.
#[tactic(auto, unfolding(mps::specs::Routes::pair))]
fn put_pair(out: &mut [u8], at: usize, entry: &[u8], id: u8)
    requires { (length entry.now ≡ entry_size) × (at + pair_size ≤ length out.old) }
    ensures { out.new ≡ sets out.old at (pair entry.now id) }
{
    out[at] = id;
    out[at + 1] = entry[layout::INPUT];
}

// A pair for each ID; answers the place behind them.
fn put_all(out: &mut [u8], at: usize, entry: &[u8], ids: &[u8]) -> usize
    requires { (length entry.now ≡ entry_size) × (at + length (joined (pair entry.now) ids.now) ≤ length out.old) }
    ensures value { result ≡ at + length (joined (pair entry.now) ids.now) }
    ensures out_after { out.new ≡ sets out.old at (joined (pair entry.now) ids.now) }
{
    let mut place = at;
    for id in ids {
        put_pair(out, place, entry, *id);
        place += layout::PAIR_SIZE;
    }
    place
}

// All pairs, from the room's first byte on; answers the place behind them.
fn write(out: &mut [u8], s: &[u8], wire: &Wire, targets: Targets) -> usize
    requires { length (pairs_in targets.ids.now (asked_by wire.now) (rows entry_size s.now)) ≤ length out.old }
    ensures value { result ≡ length (pairs_in targets.entry.ids.now (asked_by wire.now) (rows entry_size s.now)) }
    ensures out_after { out.new ≡ sets out.old 0 (pairs_in targets.entry.ids.now (asked_by wire.now) (rows entry_size s.now)) }
{
    let mut place = 0;
    for e in s.chunks_exact(layout::ENTRY_SIZE) {
        if wire.asks(e) {
            place = targets.put(out, place, e);
        }
    }
    place
}
