// mplist: reads the dump of a board's memory from standard input and writes its listing, or the line of its refusal, to
// standard output.
//
// Promised, by `answer`: of any bytes, `program_output` of them (mps's specs/Listing.antt) stands in the room, all of it.
// Promised of the rest: every run is safe, and it ends if each read and write does. No contract can say what a call to
// the system reads or writes: that `answer` is given what came in, and that its room is what goes out, is read from the
// few lines below, and run by .ci/shelf. Where the system reports a failure, a line on standard error says so; the exit
// status is 0 all the same, as a `main` returns nothing.
//
// A read that a signal interrupted counts as failed. This program catches no signal, so no read or write of a file, a
// pipe or a terminal is interrupted.
#![tactic(auto)]

ghost use Rattle.std.specs.Prelude.{◌≡◌, ◌≤◌, length, take};
ghost use Rattle.mps.specs.Listing.{program_output};
ghost use Rattle.std.specs.Result.{IfOk};

use std::io;
use std::io::{Read, Write};

// 65,537 zeros: one byte more than a dump may have, so that a longer input is seen; it is refused whatever follows. The
// `ensures` gives only the length, so that no proof above meets the cells.
fn dump_buffer() -> [u8; 65537]
    ensures { 65537 ≡ length result }
{
    [0; 65537]
}

// Room for every listing. The `ensures` gives only the length, as that of `dump_buffer`.
fn listing_room() -> [u8; 65536]
    ensures { 65536 ≡ length result }
{
    [0; 65536]
}

// Reads until the input ends or buf is full, and answers how many bytes came. A pipe may give its bytes in pieces of any
// size.
fn read_all<R: Read>(input: &mut R, buf: &mut [u8]) -> io::Result<usize>
    ensures { IfOk result (λ n. n ≤ length buf.new) }
{
    let mut n = 0;
    while n < buf.len() {
        let more = input.read(&mut buf[n..])?;
        if more == 0 {
            return Ok(n);
        }
        n += more;
    }
    Ok(n)
}

// Where standard error fails too, there is no place to say it.
fn say<W: Write>(to: &mut W, line: &[u8]) {
    let _ = to.write_all(line);
}

// All that is to be written for the bytes of d, at the start of the room; answers how many bytes that is. The room is
// long enough for every listing.
fn answer(d: &[u8], room: &mut [u8]) -> usize
    requires { 65536 ≤ length room.old }
    ensures { (result ≡ length (program_output d.now)) × (result ≤ length room.new) × (take result room.new ≡ program_output d.now) }
{
    listing::print(d, room).unwrap()
}

fn write_listing(rt: HostRuntime, d: &[u8]) {
    let mut room = listing_room();
    let n = answer(d, &mut room);
    if rt.stdout().write_all(&room[..n]).is_err() {
        say(&mut rt.stderr(), b"mplist: cannot write the listing\n");
    }
}

fn main(rt: HostRuntime) {
    let mut buffer = dump_buffer();
    match read_all(&mut rt.stdin(), &mut buffer) {
        Ok(n) => {
            write_listing(rt, &buffer[..n]);
        }
        Err(_) => {
            say(&mut rt.stderr(), b"mplist: cannot read the dump\n");
        }
    }
}
