// Why no further request is answered, and the line that says so.
use std::io::Write;

#[derive(Clone, Copy)]
pub enum End {
    Input, // the input ended between two requests: nothing is said
    CutShort,
    UnknownKind,
    TooLong,
    NotWritten,
}

// Where standard error fails too, there is no place to say it.
fn unanswered<W: Write>(to: &mut W, number: u64, why: &str) {
    let _ = writeln!(to, "answers: request {number} {why}");
}

pub fn say<W: Write>(to: &mut W, why: End, number: u64) {
    match why {
        End::Input => {}
        End::CutShort => {
            unanswered(to, number, "is cut short");
        }
        End::UnknownKind => {
            unanswered(to, number, "is of an unknown kind");
        }
        End::TooLong => {
            unanswered(to, number, "has a slice that is too long");
        }
        End::NotWritten => {
            let _ = writeln!(to, "answers: cannot write");
        }
    }
}
