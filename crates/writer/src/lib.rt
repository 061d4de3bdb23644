// The writer: a table from its parts, and the parts of a table.
//
// Promised of any bytes: `write` answers `written` and leaves `write_left` in the room; `parts` answers `parted`, and `fields`
// answers `fields_of` the first 44 bytes. The definitions stand in mps's specs/Writing.antt. That writing the parts of an
// accepted table gives its bytes again, and reading what was written the parts, is proved in promises.
//
// The image is laid where it shall stand, judged there, and made zero again where it is refused: no second buffer is needed.
#![tactic(auto)]

ghost use Rattle.std.specs.Prelude.{◌≡◌, ◌≤◌, length};
ghost use Rattle.std.proofs.lemmas.List.Edits.{sets};
ghost use Rattle.mps.specs.Words.{exactly};
ghost use Rattle.mps.specs.Sums.{sum256};
ghost use Rattle.mps.specs.Layout.{header_size, base_bytes};
ghost use Rattle.mps.specs.Answers.{answered};
ghost use Rattle.mps.specs.Judge.{table_refusal};
ghost use Rattle.mps.specs.Writing.{image, fields_of, parted, written, write_left};
ghost use Rattle.mps.specs.Edits.{sealed};
ghost use Rattle.writer.specs.Laid.{parts_given, front, front_size, rest, Room};

use mps::{Fields, Parted, Refusal, layout};

pub fn write(
    fields: Fields,
    base: &[u8],
    extended: &[u8],
    room: &mut [u8],
) -> Result<usize, Refusal>
    ensures value { result ≡ written (parts_given fields base.now extended.now) room.old }
    ensures room_after { room.new ≡ write_left (parts_given fields base.now extended.now) room.old }
{
    let base_size = layout::HEADER_SIZE + base.len();
    if layout::PART_MOST < base_size {
        return Err(Refusal::BaseLength);
    }
    if layout::PART_MOST < extended.len() {
        return Err(Refusal::ExtendedPart);
    }
    let size = base_size + extended.len();
    if room.len() < size {
        return Err(Refusal::RoomTooSmall);
    }
    match lay_judged(fields, base, extended, &mut room[..size]) {
        Ok(()) => Ok(size),
        Err(refusal) => {
            slices::clear(room, size);
            Err(refusal)
        }
    }
}

// The image, judged.
fn lay_judged(fields: Fields, base: &[u8], extended: &[u8], out: &mut [u8]) -> Result<(), Refusal>
    requires { Room (parts_given fields base.now extended.now) out.old }
    ensures value { result ≡ answered (table_refusal (image (parts_given fields base.now extended.now))) tt }
    ensures out_after { out.new ≡ image (parts_given fields base.now extended.now) }
{
    lay(fields, base, extended, out);
    judge::judge(out)
}

// The image, in a room of its size.
fn lay(fields: Fields, base: &[u8], extended: &[u8], out: &mut [u8])
    requires { Room (parts_given fields base.now extended.now) out.old }
    ensures { out.new ≡ image (parts_given fields base.now extended.now) }
{
    let size = layout::HEADER_SIZE + base.len();
    put_front(out, fields, size as u16);
    let sum = sums::to_store(sums::sum(extended));
    put_rest(
        out,
        fields,
        entries::count(base) as u16,
        extended.len() as u16,
        sum,
    );
    slices::copy(out, layout::HEADER_SIZE, base);
    slices::copy(out, size, extended);
    seal(out);
}

// The header up to the product, with the base checksum still 0.
fn put_front(out: &mut [u8], fields: Fields, size: u16)
    requires { header_size ≤ length out.old }
    ensures { out.new ≡ sets out.old 0 (front fields size) }
{
    slices::copy(out, 0, b"PCMP");
    numbers::put16(out, layout::BASE_LENGTH, size);
    out[layout::REVISION] = layout::SPEC_REVISION;
    out[layout::CHECKSUM] = 0;
    let oem = fields.oem;
    slices::copy(out, layout::OEM_ID, &oem);
    let product = fields.product;
    slices::copy(out, layout::PRODUCT, &product);
}

// The header behind the product.
fn put_rest(out: &mut [u8], fields: Fields, count: u16, size: u16, sum: u8)
    requires { header_size ≤ length out.old }
    ensures { out.new ≡ sets out.old front_size (rest fields count size sum) }
{
    numbers::put32(out, layout::OEM_POINTER, fields.pointer);
    numbers::put16(out, layout::OEM_SIZE, fields.size);
    numbers::put16(out, layout::ENTRY_COUNT, count);
    numbers::put32(out, layout::LOCAL_APIC, fields.apic);
    numbers::put16(out, layout::EXTENDED_LENGTH, size);
    out[layout::EXTENDED_CHECKSUM] = sum;
    out[layout::RESERVED_43] = fields.reserved;
}

// Stores the byte that brings the base to 0.
fn seal(t: &mut [u8])
    ensures { t.new ≡ sealed t.old }
{
    if t.len() <= layout::CHECKSUM {
        return;
    }
    t[layout::CHECKSUM] = 0;
    let sum = base_sum(t);
    t[layout::CHECKSUM] = sums::to_store(sum);
}

// The sum of the base: as many bytes as the header says, or all where there are fewer.
fn base_sum(t: &[u8]) -> u8
    ensures { result ≡ sum256 (base_bytes t.now) }
{
    let end = lengths::base(t) as usize;
    if t.len() < end {
        return sums::sum(t);
    }
    sums::sum(&t[..end])
}

// Where the entries of a table end. Its header fields are `fields`.
pub fn parts(t: &[u8]) -> Result<Parted, Refusal>
    ensures { result ≡ parted t.now }
{
    judge::judge(t)?;
    let base = usize::from(lengths::base(t));
    Ok(Parted {
        base,
        end: base + usize::from(lengths::extended(t)),
    })
}

// The header fields of any bytes, 0 past their end. A table that is accepted has all of them (`fields_inside`).
pub fn fields(t: &[u8]) -> Fields
    ensures { result ≡ fields_of (exactly header_size t.now) }
{
    let mut header = [0; layout::HEADER_SIZE];
    slices::copy(&mut header, 0, t);
    fields_in(&header)
}

fn fields_in(t: &[u8]) -> Fields
    requires { header_size ≤ length t.now }
    ensures { result ≡ fields_of t.now }
{
    let mut oem = [0; 8];
    slices::copy(&mut oem, 0, &t[layout::OEM_ID..layout::PRODUCT]);
    let mut product = [0; 12];
    slices::copy(&mut product, 0, &t[layout::PRODUCT..layout::OEM_POINTER]);
    Fields {
        oem: oem,
        product: product,
        pointer: numbers::le32(t, layout::OEM_POINTER),
        size: numbers::le16(t, layout::OEM_SIZE),
        apic: numbers::le32(t, layout::LOCAL_APIC),
        reserved: t[layout::RESERVED_43],
    }
}
