// answers: reads a stream of requests from standard input, makes the call that each asks for, and writes each answer
// to standard output before it reads on. docs/ANSWERS.md has the form of both.
//
// The calls are those of the C interface, and an answer has the numbers that C gets: their contracts stand in exports.
// Promised, by the functions of `reply`: an answer carries exactly the values that it is made of. Which call serves which
// kind, and what it is given, is read from `calls`. Promised of the rest: every run is safe, and it ends if each read and
// write does. No contract can say what a call to the system reads or writes. All of it is run, by .ci/answers, and beside
// the second program by .ci/second. This program catches no signal, so no read or write is interrupted, as in mplist.
//
// Of the five slices the calls change the first and the last. So three buffers serve the whole run: one for each of
// these, and one for the three in the middle, which stand in it one behind the other, as they come and as they go.
#![tactic(auto)]

ghost use Rattle.std.specs.Prelude.{◌≡◌, ◌≤◌, length};
ghost use Rattle.answers.specs.Wire.{most, middle_of};

use calls::Kind;
use end::End;
use request::Head;
use std::io::{Read, Write};

mod calls; // the call of each kind
mod end; // why no further request is answered
mod reply; // what is written
mod request; // what is read

// The program must end, as every function here: it counts its requests, and ends before the count would.
const LAST: u64 = 18446744073709551615;

// Made once for each slice. The `ensures` gives only the length, so that no proof above meets the cells.
fn buffer() -> [u8; request::MOST]
    ensures { most ≡ length result }
{
    [0; request::MOST]
}

// The slices are read, each to the request's length, the rest of each buffer is left; then the call is made, and its answer
// is written.
fn answer<R: Read, W: Write>(
    input: &mut R,
    output: &mut W,
    kind: Kind,
    q: &Head,
    a: &mut [u8],
    m: &mut [u8],
    e: &mut [u8],
) -> Result<(), End>
    requires { middle_of q.now ≡ length m.old }
{
    request::fill(input, a)?;
    request::fill(input, m)?;
    request::fill(input, e)?;
    let r = calls::call(kind, q, a, request::parted(q, m), e);
    reply::write(output, r, q, a, m, e).map_err(|_| End::NotWritten)
}

// The next request. A head is tested for its kind, then for its lengths, before a slice is read.
fn next<R: Read, W: Write>(
    input: &mut R,
    output: &mut W,
    a: &mut [u8],
    m: &mut [u8],
    e: &mut [u8],
) -> Result<(), End>
    requires { (most ≤ length a.old) × (most ≤ length m.old) × (most ≤ length e.old) }
{
    let q = Head::read(input)?;
    let kind = Kind::try_from(q.kind())?;
    let first = q.length(0);
    let middle = q.middle();
    let last = q.length(4);
    if request::MOST < first.max(middle).max(last) {
        return Err(End::TooLong);
    }
    answer(
        input,
        output,
        kind,
        &q,
        &mut a[..first],
        &mut m[..middle],
        &mut e[..last],
    )
}

fn serve(rt: HostRuntime, a: &mut [u8], m: &mut [u8], e: &mut [u8])
    requires { (most ≤ length a.old) × (most ≤ length m.old) × (most ≤ length e.old) }
{
    for number in 1..LAST {
        if let Err(why) = next(&mut rt.stdin(), &mut rt.stdout(), a, m, e) {
            end::say(&mut rt.stderr(), why, number);
            return;
        }
    }
}

fn main(rt: HostRuntime) {
    let mut a = buffer();
    let mut m = buffer();
    let mut e = buffer();
    serve(rt, &mut a, &mut m, &mut e);
}
