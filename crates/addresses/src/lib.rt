// The address query: whether a bus sees an address, and how many links to parents were climbed to know it.
//
// Promised of any bytes: `seen` answers `seen`, of mps's specs/Addresses.antt; how the code comes to it, in
// specs/Climbing.antt. That the links climbed are at most the listed buses less one is proved in proofs/Links.antt
// (`links_bound`).
//
// One pass over the entries gathers what each bus says of the address by itself and its parent, one over the links what the
// buses below each say (`marks`); then the climb goes from bus to bus. So the cost is that of the table, however long the chain
// of parents is, and however many buses have one parent. The climb lends on three arrays and hands its answer on, so that it is a
// loop when it runs, and takes no stack for a link.
#![tactic(auto)]

ghost use Rattle.std.specs.Prelude.{◌≡◌, ◌+◌, ◌^◌, ◌<◌};
ghost use Rattle.mps.specs.Layout.{mapping_size, link_size};
ghost use Rattle.mps.specs.Sections.{rows};
ghost use Rattle.mps.specs.Judge.{table_refusal};
ghost use Rattle.mps.specs.Addresses.{answer, seen as is_seen};
ghost use Rattle.mps.specs.declared.Seen.TheVariants.{Undeclared};
ghost use Rattle.judge.specs.Placed.{Placed};
ghost use Rattle.marks.specs.Marks.{meaning};
ghost use Rattle.addresses.specs.Climbing.{climb_in, climb_over, narrowed, instead};

use marks::{DECLARED, FREE, PARENT, SEES, SILENT, UNDECLARED};
use mps::{Refusal, Sections, Seen, layout};

pub fn seen(t: &[u8], bus: u8, kind: u8, address: u64) -> Result<Seen, Refusal>
    ensures { result ≡ is_seen t.now bus kind address }
{
    let p = judge::examine(t)?;
    behind_table(t, p, bus, kind, address)
}

// 24 and on, with the places of the table.
fn behind_table(t: &[u8], p: Sections, bus: u8, kind: u8, address: u64) -> Result<Seen, Refusal>
    requires { (table_refusal t.now ≡ 0) × (Placed t.now p) }
    ensures { result ≡ is_seen t.now bus kind address }
{
    if layout::SPACE_KIND_MOST < kind {
        return Err(Refusal::Query);
    }
    if !buses::is_listed(&t[p.buses..p.ioapics], bus) {
        return Err(Refusal::Query);
    }
    // Many boards declare no address: for them nothing is gathered.
    if p.mappings == p.others {
        return Ok(Seen::Undeclared(0));
    }
    // The bus itself is visited.
    let left = (p.ioapics - p.buses) / layout::ENTRY_SIZE - 1;
    Ok(ask(
        &t[p.mappings..p.links],
        &t[p.links..p.modifiers],
        &t[p.modifiers..p.others],
        bus,
        kind,
        address,
        left,
    ))
}

// The answer from the entries of the three types, with so many listed buses not visited yet.
fn ask(
    mappings: &[u8],
    links: &[u8],
    modifiers: &[u8],
    bus: u8,
    kind: u8,
    address: u64,
    left: usize,
) -> Seen
    ensures { result ≡ climb_over left kind address (rows mapping_size mappings.now) (rows link_size links.now) (rows link_size modifiers.now) bus }
{
    let mut marks = [0; 256];
    let mut parents = [0; 256];
    let mut below = [0; 256];
    marks::gather(
        &mut marks,
        &mut parents,
        &mut below,
        mappings,
        links,
        modifiers,
        kind,
        address,
    );
    climb(&marks, &parents, &below, bus, left, 0, SEES)
}

// A bus's own answer: one that would ask on and cannot has none.
fn own(mark: u8, climbed: usize) -> Seen
    ensures { result ≡ answer (meaning mark) climbed (Undeclared climbed) }
{
    match mark {
        UNDECLARED | PARENT => Seen::Undeclared(climbed),
        SEES => Seen::Yes(climbed),
        _ => Seen::No(climbed),
    }
}

// What the buses below a parent leave of its yes. A link nearer the top decides before one below it, so this one's word goes
// over what was found so far. Where one claims the address, the mark is that of a bus that has entries and does not see it: no.
fn narrow(kept: u8, said: u8) -> u8
    ensures { result ≡ narrowed kept said }
{
    match said {
        FREE => kept,
        SILENT => UNDECLARED,
        _ => DECLARED,
    }
}

// "the parent's answer, if the bus has the subtractive bit". `left` are the listed buses not visited yet; it falls. `kept` is
// the mark that the links climbed so far leave for a yes.
fn climb(
    marks: &[u8; 256],
    parents: &[u8; 256],
    below: &[u8; 256],
    bus: u8,
    left: usize,
    climbed: usize,
    kept: u8,
) -> Seen
    requires { climbed + left < 2 ^ 64 }
    ensures { result ≡ instead kept (climb_in left marks.now parents.now below.now bus climbed) }
{
    let at = usize::from(bus);
    let mark = marks[at];
    if left > 0 && mark == PARENT {
        let up = parents[at];
        let said = below[usize::from(up)];
        return climb(
            marks,
            parents,
            below,
            up,
            left - 1,
            climbed + 1,
            narrow(kept, said),
        );
    }
    let end = if mark == SEES { kept } else { mark };
    own(end, climbed)
}
