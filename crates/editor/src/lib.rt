// The editor: one base entry of a lent table replaced by one of the same type, where its author saw what still stands there.
//
// Promised of any bytes: `edit` answers `edited` and leaves `edit_left` of the table: a refusal changes no byte, not even the
// checksum. The definitions stand in mps's specs/Edits.antt. What follows of single edits and of runs is proved in promises.
//
// The wanted entry is put in, the table is judged again, and the stated bytes and the old checksum are put back where it is
// refused: no second buffer is needed, and nothing is seen of it. The base is added up once, when the table is first judged: byte 7
// then comes from the old one and both entries, and what the exchange cannot change is not judged again (module again).
#![tactic(auto)]

mod again; // the judge of a table with an entry exchanged

ghost use Rattle.std.specs.Prelude.{◌≡◌, ◌+◌, ◌%◌, ◌<◌, ◌≤◌, length, slice_set};
ghost use Rattle.std.proofs.lemmas.List.Edits.{sets};
ghost use Rattle.mps.specs.Refusals.{refusal};
ghost use Rattle.mps.specs.Answers.{answered};
ghost use Rattle.mps.specs.Sums.{sum256, to_store};
ghost use Rattle.mps.specs.Layout.{header_size, checksum_at, entry_count};
ghost use Rattle.mps.specs.Edits.{offset_of, entry_rules, edited, edit_left};
ghost use Rattle.editor.specs.Tested.{edit_of, Accepted, Ready, exchanged, exchange_left};

use mps::{EditRefusal, Refusal, Sections, layout};

pub fn edit(t: &mut [u8], place: usize, stated: &[u8], wanted: &[u8]) -> Result<(), EditRefusal>
    ensures value { result ≡ edited t.old (edit_of place stated.now wanted.now) }
    ensures t_after { t.new ≡ edit_left t.old (edit_of place stated.now wanted.now) }
{
    let p = judge::examine(t)?;
    // Not by `?`: what is returned here is one value, so that an edit of it is refused for what it means.
    if let Err(refused) = test(t, p, place, stated, wanted) {
        return Err(EditRefusal::Refused(refused));
    }
    exchange(t, p, place, stated, wanted)
}

// 20 to 22. The table is only read.
fn test(t: &[u8], p: Sections, place: usize, stated: &[u8], wanted: &[u8]) -> Result<(), Refusal>
    requires { Accepted t.now p }
    ensures { result ≡ answered (refusal (entry_rules t.now (edit_of place stated.now wanted.now))) tt }
{
    let count = lengths::count(t) as usize;
    if count <= place {
        return Err(Refusal::NoEntry);
    }
    let at = offset(t, p, place);
    let kind = t[at];
    let size = entries::size(kind);
    if (stated.len() != size) | (wanted.len() != size) | (numbers::byte(wanted, 0) != kind) {
        return Err(Refusal::OtherEntry);
    }
    let standing = &t[at..at + size];
    if !slices::same(stated, standing) {
        return Err(Refusal::Changed);
    }
    Ok(())
}

// Where the entry at a place stands: only processors have 20 bytes, and they are the first.
#[tactic(auto, using(crate::proofs::Offsets::from_header, crate::proofs::Offsets::place_inside, crate::proofs::Offsets::place_of))]
fn offset(t: &[u8], p: Sections, place: usize) -> usize
    requires { (Accepted t.now p) × (place < entry_count t.now) }
    ensures { result ≡ offset_of t.now place }
{
    let processors = place.min((p.buses - layout::HEADER_SIZE) / layout::PROCESSOR_SIZE);
    layout::HEADER_SIZE
        + layout::PROCESSOR_SIZE * processors
        + layout::ENTRY_SIZE * (place - processors)
}

// The exchange: the wanted entry in the stated one's stead. Taken back where the table that it makes is refused.
fn exchange(
    t: &mut [u8],
    p: Sections,
    place: usize,
    stated: &[u8],
    wanted: &[u8],
) -> Result<(), EditRefusal>
    requires { Ready t.old p (edit_of place stated.now wanted.now) }
    ensures value { result ≡ exchanged t.old (edit_of place stated.now wanted.now) }
    ensures t_after { t.new ≡ exchange_left t.old (edit_of place stated.now wanted.now) }
{
    let at = offset(t, p, place);
    let old = t[layout::CHECKSUM];
    let new = checksum(old, stated, wanted);
    put(t, at, wanted, new);
    if let Err(inner) = again::judge(t, p, at, numbers::byte(stated, layout::ENTRY_ID)) {
        put(t, at, stated, old);
        return Err(EditRefusal::Inner(inner));
    }
    Ok(())
}

// The base checksum after the exchange, from the one before. With its checksum the base adds to 0: so what the stated entry gave is
// added, and what the wanted one gives is taken away.
fn checksum(old: u8, stated: &[u8], wanted: &[u8]) -> u8
    ensures { result ≡ (old + sum256 stated.now + to_store (sum256 wanted.now)) % 256 }
{
    old.wrapping_add(sums::sum(stated))
        .wrapping_add(sums::to_store(sums::sum(wanted)))
}

// An entry and the base checksum.
fn put(t: &mut [u8], at: usize, entry: &[u8], sum: u8)
    requires { header_size ≤ length t.old }
    ensures { t.new ≡ slice_set (sets t.old at entry.now) checksum_at sum }
{
    slices::copy(t, at, entry);
    t[layout::CHECKSUM] = sum;
}
