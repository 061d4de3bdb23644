// Contracts: theorems over the contracts of public functions as the toolchain reads them. It is the one crate that names
// every crate with a public function.
//
// proofs/ has that every public contract determines its answer and what it leaves (Forms says what that is; Determined has the
// list, written by .ci/lists), that calls of the editor made one after another, from Rattle or from C, are a run of the
// definition, so that demand 3's promises of a run hold of them (Calls), the same of saves and restores (Adding), and what a
// refusal leaves as C sees it (FromC, and Rooms of the writer).
//
// The functions below are called by none. The contracts of the first five say what a call's types give, whatever its arguments
// are: where a promise supposes bytes, or numbers of their widths, who makes the call has no more to show. The reading of
// a contract alone does not say it: what a reference holds is known to the code that is lent it. The last one is lent two
// rooms: TwoRooms has of it what Determined will have of a public call that is.
#![tactic(auto)]

ghost use Rattle.std.specs.Prelude.{◌≡◌, replicate};
ghost use Rattle.std.proofs.lemmas.List.Edits.{sets};
ghost use Rattle.laws.proofs.Small.{Bytes};
ghost use Rattle.mps.specs.Saving.{save, restore};
ghost use Rattle.writer.specs.Laid.{parts_given};
ghost use Rattle.promises.specs.Books.{AskOfBytes};
ghost use Rattle.promises.proofs.Again.{Proper};

use mps::Fields;

fn lent(t: &[u8]) -> u8
    ensures { Bytes t.now }
{
    numbers::byte(t, 0)
}

fn lent_to_write(t: &mut [u8]) -> u8
    ensures bytes { Bytes t.old }
    ensures bytes_2 { Bytes t.new }
{
    numbers::byte(t, 0)
}

fn handed(fields: Fields, base: &[u8], extended: &[u8]) -> u8
    ensures { Proper (parts_given fields base.now extended.now) }
{
    numbers::byte(base, 0)
}

fn saved(machine: u16, began: u16, body: &[u8]) -> u8
    ensures { AskOfBytes (save machine began body.now) }
{
    numbers::byte(body, 0)
}

fn restored(machine: u16, edition: u16, latest: u16)
    ensures { AskOfBytes (restore machine edition latest) }
{}

fn two_rooms(table: &mut [u8], room: &mut [u8])
    ensures table_after { table.new ≡ sets table.old 0 (replicate 1 0) }
    ensures room_after { room.new ≡ sets room.old 0 (replicate 1 0) }
{
    slices::clear(table, 1);
    slices::clear(room, 1);
}
