// What a script prints by the replies of a plain volume.
use plain_volume::{Fault, Reply};
use row_files::Answers;
use std::alloc::AllocError;

type Printed = Result<(), AllocError>;

fn numbered(output: &mut Answers, what: &[u8], number: u64) -> Printed {
    output.part(what)?;
    output.number(number)
}

fn print_refusal(output: &mut Answers, fault: Fault) -> Printed {
    output.part(b"refused ")?;
    match fault {
        Fault::BadName => output.line("BadName"),
        Fault::NoFile => output.line("NoFile"),
        Fault::Exists => output.line("Exists"),
        Fault::OutsideFile(size) => numbered(output, b"OutsideFile ", size),
        Fault::TooLarge(limit) => numbered(output, b"TooLarge ", limit),
        _ => output.line("what no plain volume refuses"),
    }
}

/// Prints `ok` with one more word.
pub fn print_ok(output: &mut Answers, count: u64) -> Printed {
    numbered(output, b"ok ", count)
}

/// Prints the answer to a call.
pub fn print_reply(output: &mut Answers, reply: &Reply) -> Printed {
    match reply {
        Reply::Done => output.line("ok"),
        Reply::Length(length) => print_ok(output, *length),
        Reply::Bytes(bytes) => {
            print_ok(output, bytes.as_bytes().len() as u64)?;
            output.bytes(bytes.as_bytes())
        }
        Reply::Digest(digest) => {
            output.part(b"ok ")?;
            output.digits(digest)
        }
        Reply::Refused(fault) => print_refusal(output, *fault),
        Reply::Name(_) => output.line("a name alone, which no line prints"),
    }
}
