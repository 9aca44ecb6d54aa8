// What a reply says, as a script's answers do.
use plain_volume::{Fault, Reply};
use row_files::Answers;
use std::alloc::AllocError;

type Written = Result<(), AllocError>;

/// Spells a reply.
pub fn spell(answers: &mut Answers, reply: &Reply) -> Written {
    match reply {
        Reply::Done => answers.line("ok"),
        Reply::Length(length) => numbered(answers, b"ok ", *length),
        Reply::Bytes(bytes) => {
            numbered(answers, b"ok ", bytes.as_bytes().len() as u64)?;
            answers.bytes(bytes.as_bytes())
        }
        Reply::Digest(digest) => {
            answers.part(b"ok ")?;
            answers.digits(digest)
        }
        Reply::Name(Some(name)) => {
            answers.part(b"ok ")?;
            answers.bytes(name.as_bytes())
        }
        Reply::Name(None) => answers.line("no name"),
        Reply::Refused(fault) => refused(answers, *fault),
    }
}

fn numbered(answers: &mut Answers, what: &[u8], number: u64) -> Written {
    answers.part(what)?;
    answers.number(number)
}

fn refused(answers: &mut Answers, fault: Fault) -> Written {
    answers.part(b"refused ")?;
    match fault {
        Fault::BadName => answers.line("BadName"),
        Fault::NoFile => answers.line("NoFile"),
        Fault::Exists => answers.line("Exists"),
        Fault::OutsideFile(length) => numbered(answers, b"OutsideFile ", length),
        Fault::TooLarge(most) => numbered(answers, b"TooLarge ", most),
        _ => answers.line("what no plain volume refuses"),
    }
}
