// The calls of exports for C, under their plain names, in a static library: `rt lib` makes out/libexports_c.a of it, and
// command/prove puts that where callers look for it, target/staticlib/libexports.a. include/ruxtajma.h has the prototypes.
//
// A crate is a library or a static library, and not both. So each function here calls the one of its name in exports, and
// says again what that promises; exports has the words behind it.
#![tactic(auto)]

ghost use Rattle.std.specs.Prelude.{◌≡◌};
ghost use Rattle.mps.specs.Judge.{judged, held};
ghost use Rattle.mps.specs.Listing.{listed, list_left};
ghost use Rattle.mps.specs.Defaults.{full_listed, full_left, made, make_left};
ghost use Rattle.mps.specs.Rules.{io_side, local_side};
ghost use Rattle.mps.specs.Routes.{question, routed, routes_left};
ghost use Rattle.mps.specs.Slots.{slot, slot_routed, slot_routes_left, slots_listed, slots_left};
ghost use Rattle.mps.specs.Renumber.{renumbered, renumber_left};
ghost use Rattle.mps.specs.Addresses.{seen};
ghost use Rattle.mps.specs.Writing.{written, write_left, parted};
ghost use Rattle.mps.specs.Edits.{edited, edit_left};
ghost use Rattle.mps.specs.Reader.{found};
ghost use Rattle.mps.specs.Book.{layout1};
ghost use Rattle.mps.specs.History.{booked, latest_told, body_told, history_told, history_left};
ghost use Rattle.mps.specs.Saving.{save, restore, added, add_left};
ghost use Rattle.writer.specs.Laid.{parts_given};
ghost use Rattle.editor.specs.Tested.{edit_of};
ghost use Rattle.exports.specs.Codes.{judged_code, lent_code, seen_code, edited_code, held_code, addresses_code, parted_code, renumbered_code, found_code, booked_code, latest_code, body_code, fields_given};

// ---- Of a table

#[unsafe(no_mangle)]
pub extern "C" fn ruxtajma_judge(t: &[u8]) -> u64
    ensures { result ≡ judged_code (judged t.now) }
{
    exports::ruxtajma_judge(t)
}

#[unsafe(no_mangle)]
pub extern "C" fn ruxtajma_parts(t: &[u8]) -> u64
    ensures { result ≡ parted_code (parted t.now) }
{
    exports::ruxtajma_parts(t)
}

#[unsafe(no_mangle)]
pub extern "C" fn ruxtajma_entry(t: &[u8], place: usize) -> u64
    ensures { result ≡ found_code (found t.now place) }
{
    exports::ruxtajma_entry(t, place)
}

// ---- Of a dump

#[unsafe(no_mangle)]
pub extern "C" fn ruxtajma_read(d: &[u8]) -> u64
    ensures { result ≡ held_code (held d.now) }
{
    exports::ruxtajma_read(d)
}

#[unsafe(no_mangle)]
pub extern "C" fn ruxtajma_addresses(d: &[u8]) -> u64
    ensures { result ≡ addresses_code (held d.now) }
{
    exports::ruxtajma_addresses(d)
}

#[unsafe(no_mangle)]
pub extern "C" fn ruxtajma_list(d: &[u8], room: &mut [u8]) -> u64
    ensures value { result ≡ lent_code (listed d.now room.old) }
    ensures room_after { room.new ≡ list_left d.now room.old }
{
    exports::ruxtajma_list(d, room)
}

#[unsafe(no_mangle)]
pub extern "C" fn ruxtajma_list_full(d: &[u8], boot: u8, room: &mut [u8]) -> u64
    ensures value { result ≡ lent_code (full_listed d.now boot room.old) }
    ensures room_after { room.new ≡ full_left d.now boot room.old }
{
    exports::ruxtajma_list_full(d, boot, room)
}

// ---- Of a default configuration

#[unsafe(no_mangle)]
pub extern "C" fn ruxtajma_default_table(number: u8, boot: u8, room: &mut [u8]) -> u64
    ensures value { result ≡ lent_code (made number boot room.old) }
    ensures room_after { room.new ≡ make_left number boot room.old }
{
    exports::ruxtajma_default_table(number, boot, room)
}

// ---- Queries

#[unsafe(no_mangle)]
pub extern "C" fn ruxtajma_io_routes(t: &[u8], itype: u8, bus: u8, irq: u8, room: &mut [u8]) -> u64
    ensures value { result ≡ lent_code (routed (question io_side itype bus irq) t.now room.old) }
    ensures room_after { room.new ≡ routes_left (question io_side itype bus irq) t.now room.old }
{
    exports::ruxtajma_io_routes(t, itype, bus, irq, room)
}

#[unsafe(no_mangle)]
pub extern "C" fn ruxtajma_local_routes(
    t: &[u8],
    itype: u8,
    bus: u8,
    irq: u8,
    room: &mut [u8],
) -> u64
    ensures value { result ≡ lent_code (routed (question local_side itype bus irq) t.now room.old) }
    ensures room_after { room.new ≡ routes_left (question local_side itype bus irq) t.now room.old }
{
    exports::ruxtajma_local_routes(t, itype, bus, irq, room)
}

#[unsafe(no_mangle)]
pub extern "C" fn ruxtajma_slot_routes(
    t: &[u8],
    bus: u8,
    device: u8,
    pin: u8,
    room: &mut [u8],
) -> u64
    ensures value { result ≡ lent_code (slot_routed (slot bus device pin) t.now room.old) }
    ensures room_after { room.new ≡ slot_routes_left (slot bus device pin) t.now room.old }
{
    exports::ruxtajma_slot_routes(t, bus, device, pin, room)
}

#[unsafe(no_mangle)]
pub extern "C" fn ruxtajma_slots(t: &[u8], room: &mut [u8]) -> u64
    ensures value { result ≡ lent_code (slots_listed t.now room.old) }
    ensures room_after { room.new ≡ slots_left t.now room.old }
{
    exports::ruxtajma_slots(t, room)
}

#[unsafe(no_mangle)]
pub extern "C" fn ruxtajma_renumber(t: &[u8], room: &mut [u8]) -> u64
    ensures value { result ≡ renumbered_code (renumbered t.now room.old) }
    ensures room_after { room.new ≡ renumber_left t.now room.old }
{
    exports::ruxtajma_renumber(t, room)
}

#[unsafe(no_mangle)]
pub extern "C" fn ruxtajma_address(t: &[u8], bus: u8, kind: u8, address: u64) -> u64
    ensures { result ≡ seen_code (seen t.now bus kind address) }
{
    exports::ruxtajma_address(t, bus, kind, address)
}

// ---- Writing and editing

#[unsafe(no_mangle)]
pub extern "C" fn ruxtajma_write(
    oem: &[u8],
    product: &[u8],
    pointer: u32,
    size: u16,
    apic: u32,
    reserved: u8,
    base: &[u8],
    extended: &[u8],
    room: &mut [u8],
) -> u64
    ensures value { result ≡ lent_code (written (parts_given (fields_given oem.now product.now pointer size apic reserved) base.now extended.now) room.old) }
    ensures room_after { room.new ≡ write_left (parts_given (fields_given oem.now product.now pointer size apic reserved) base.now extended.now) room.old }
{
    exports::ruxtajma_write(
        oem, product, pointer, size, apic, reserved, base, extended, room,
    )
}

#[unsafe(no_mangle)]
pub extern "C" fn ruxtajma_edit(t: &mut [u8], place: usize, stated: &[u8], wanted: &[u8]) -> u64
    ensures value { result ≡ edited_code (edited t.old (edit_of place stated.now wanted.now)) }
    ensures t_after { t.new ≡ edit_left t.old (edit_of place stated.now wanted.now) }
{
    exports::ruxtajma_edit(t, place, stated, wanted)
}

// ---- The book of earlier tables

#[unsafe(no_mangle)]
pub extern "C" fn ruxtajma_book(s: &[u8]) -> u64
    ensures { result ≡ booked_code (booked layout1 s.now) }
{
    exports::ruxtajma_book(s)
}

#[unsafe(no_mangle)]
pub extern "C" fn ruxtajma_latest(s: &[u8], machine: u16) -> u64
    ensures { result ≡ latest_code (latest_told layout1 s.now machine) }
{
    exports::ruxtajma_latest(s, machine)
}

#[unsafe(no_mangle)]
pub extern "C" fn ruxtajma_body(s: &[u8], machine: u16, edition: u16) -> u64
    ensures { result ≡ body_code (body_told layout1 s.now machine edition) }
{
    exports::ruxtajma_body(s, machine, edition)
}

#[unsafe(no_mangle)]
pub extern "C" fn ruxtajma_history(s: &[u8], room: &mut [u8]) -> u64
    ensures value { result ≡ lent_code (history_told layout1 s.now room.old) }
    ensures room_after { room.new ≡ history_left layout1 s.now room.old }
{
    exports::ruxtajma_history(s, room)
}

#[unsafe(no_mangle)]
pub extern "C" fn ruxtajma_save(room: &mut [u8], machine: u16, began: u16, body: &[u8]) -> u64
    ensures value { result ≡ booked_code (added layout1 room.old (save machine began body.now)) }
    ensures room_after { room.new ≡ add_left layout1 room.old (save machine began body.now) }
{
    exports::ruxtajma_save(room, machine, began, body)
}

#[unsafe(no_mangle)]
pub extern "C" fn ruxtajma_restore(room: &mut [u8], machine: u16, edition: u16, latest: u16) -> u64
    ensures value { result ≡ booked_code (added layout1 room.old (restore machine edition latest)) }
    ensures room_after { room.new ≡ add_left layout1 room.old (restore machine edition latest) }
{
    exports::ruxtajma_restore(room, machine, edition, latest)
}
