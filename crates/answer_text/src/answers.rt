// The texts of answers.
ghost use Rattle.std.specs.Prelude.{◌≡◌, ◌++◌, ◌∷◌, [], ◌≤◌, ◌+◌, ℕ, List, Some, length, take, drop, vec_len, IfOk, OnOk, OnErr, IsErrOf, codes, decimal};
ghost use Rattle.hex.specs.Hex.{encode_lower};
ghost use Rattle.cmdlet_line.specs.Lines.{refusal_of};
ghost use Rattle.answer_text.specs.Answers.{Answer, Nothing, Accepted, Refused, number, said_fault, refusal_text};
ghost use Rattle.answer_text.specs.Saying.{IsSaid};

use crate::stops::SessionFault;
use cmdlet_line::LineFault;
use hex::encode_to_slice;
use itoa::Buffer;
use plain_volume::Fault;
use std::alloc::Global;

/// The kind of an answer.
#[derive(Clone, Copy, Debug, PartialEq, Eq)]
pub enum Answered {
    /// The line was answered `ok`.
    Ok,
    /// The line was refused.
    Refused,
    /// The line asks nothing, and has no answer.
    Silent,
    /// The line was an `exit` that let the volume go.
    Exit,
}

/// No answer.
pub fn silent(text: &mut Vec<u8>) -> Answered
    ensures { IsSaid result text.new.items Nothing }
{
    text.clear();
    Answered::Silent
}

/// Begins an answer anew, by its first word and what stands behind that.
pub fn begin(text: &mut Vec<u8>, word: &[u8], behind: &[u8]) -> Result<(), SessionFault>
    ensures text { OnOk result (text.new.items ≡ word.now ++ behind.now) }
    ensures memory { OnErr result (IsErrOf result SessionFault.Memory) }
{
    text.clear();
    add(text, word)?;
    add(text, behind)
}

/// Puts bytes behind an answer that was begun.
pub fn add(text: &mut Vec<u8>, bytes: &[u8]) -> Result<(), SessionFault>
    ensures text { OnOk result (text.new.items ≡ text.old.items ++ bytes.now) }
    ensures memory { OnErr result (IsErrOf result SessionFault.Memory) }
{
    text.extend_from_slice(bytes)?;
    Ok(())
}

/// A number in decimal digits.
pub fn add_decimal(text: &mut Vec<u8>, n: u64) -> Result<(), SessionFault>
    ensures text { OnOk result (text.new.items ≡ text.old.items ++ decimal n) }
    ensures memory { OnErr result (IsErrOf result SessionFault.Memory) }
{
    let mut digits = Buffer::new();
    add(text, digits.format(n).as_bytes())
}

/// A space and the number behind it.
pub fn add_number(text: &mut Vec<u8>, n: u64) -> Result<(), SessionFault>
    ensures text { OnOk result (text.new.items ≡ text.old.items ++ number n) }
    ensures memory { OnErr result (IsErrOf result SessionFault.Memory) }
{
    add(text, b" ")?;
    add_decimal(text, n)
}

/// Ends an answer of this kind by its newline.
pub fn end(text: &mut Vec<u8>, kind: Answered) -> Result<Answered, SessionFault>
    ensures text { IfOk result (λ a. text.new.items ≡ text.old.items ++ 10 ∷ []) }
    ensures kind { IfOk result (λ a. a ≡ kind) }
    ensures memory { OnErr result (IsErrOf result SessionFault.Memory) }
{
    add(text, b"\n")?;
    Ok(kind)
}

/// The answer `ok` with nothing behind it.
pub fn accepted(text: &mut Vec<u8>) -> Result<Answered, SessionFault>
    ensures said { IfOk result (λ a. IsSaid a text.new.items (Accepted [])) }
    ensures memory { OnErr result (IsErrOf result SessionFault.Memory) }
{
    begin(text, b"ok", b"")?;
    end(text, Answered::Ok)
}

/// The answer `ok` with a number behind it.
pub fn accepted_number(text: &mut Vec<u8>, n: u64) -> Result<Answered, SessionFault>
    ensures said { IfOk result (λ a. IsSaid a text.new.items (Accepted (number n))) }
    ensures memory { OnErr result (IsErrOf result SessionFault.Memory) }
{
    begin(text, b"ok", b"")?;
    add_number(text, n)?;
    end(text, Answered::Ok)
}

/// The answer `ok` with a digest behind it, in hexadecimal digits.
pub fn accepted_digest(text: &mut Vec<u8>, digest: &[u8; 32]) -> Result<Answered, SessionFault>
    ensures said { IfOk result (λ a. IsSaid a text.new.items (Accepted (32 ∷ encode_lower digest.now))) }
    ensures memory { OnErr result (IsErrOf result SessionFault.Memory) }
{
    let mut digits = [0; 64];
    encode_to_slice(digest.as_slice(), &mut digits).unwrap();
    begin(text, b"ok ", &digits)?;
    end(text, Answered::Ok)
}

/// The answer `refused` with this behind it.
pub fn refused(text: &mut Vec<u8>, name: &[u8], word: &[u8]) -> Result<Answered, SessionFault>
    ensures said { IfOk result (λ a. IsSaid a text.new.items (Refused (name.now ++ word.now))) }
    ensures memory { OnErr result (IsErrOf result SessionFault.Memory) }
{
    begin(text, b"refused", name)?;
    add(text, word)?;
    end(text, Answered::Refused)
}

/// The answer `refused` with a name and a number behind it.
pub fn refused_number(text: &mut Vec<u8>, name: &[u8], n: u64) -> Result<Answered, SessionFault>
    ensures said { IfOk result (λ a. IsSaid a text.new.items (Refused (name.now ++ number n))) }
    ensures memory { OnErr result (IsErrOf result SessionFault.Memory) }
{
    begin(text, b"refused", name)?;
    add_number(text, n)?;
    end(text, Answered::Refused)
}

/// The answer `refused` with a name and two numbers behind it.
pub fn refused_numbers(
    text: &mut Vec<u8>,
    name: &[u8],
    first: u64,
    second: u64,
) -> Result<Answered, SessionFault>
    ensures said { IfOk result (λ a.
        IsSaid a text.new.items (Refused (name.now ++ (number first ++ number second)))) }
    ensures memory { OnErr result (IsErrOf result SessionFault.Memory) }
{
    begin(text, b"refused", name)?;
    add_number(text, first)?;
    add_number(text, second)?;
    end(text, Answered::Refused)
}

/// The answer to a refused call. A fault of the device and want of memory have none: the run ends there.
pub fn refused_call(text: &mut Vec<u8>, fault: Fault) -> Result<Answered, SessionFault>
    ensures said { IfOk result (λ a.
        (answer : Answer) × (said_fault fault ≡ Some answer) × IsSaid a text.new.items answer) }
    ensures device { IsErrOf result SessionFault.Device → fault ≡ Fault.Failed }
    ensures failed { fault ≡ Fault.Failed → IsErrOf result SessionFault.Device }
    ensures no_sink { IsErrOf result SessionFault.Sink → ⊥ }
{
    match fault {
        Fault::BadName => refused(text, b" BadName", b""),
        Fault::NoFile => refused(text, b" NoFile", b""),
        Fault::Exists => refused(text, b" Exists", b""),
        Fault::OutsideFile(size) => refused_number(text, b" OutsideFile", size),
        Fault::TooLarge(limit) => refused_number(text, b" TooLarge", limit),
        Fault::Worn => refused(text, b" Worn", b""),
        Fault::TableFull => refused(text, b" TableFull", b""),
        Fault::Full(need, free) => refused_numbers(text, b" Full", need, free),
        Fault::Failed => Err(SessionFault::Device),
        Fault::Damaged(place) => refused_number(text, b" Damaged", place),
        Fault::Memory => Err(SessionFault::Memory),
    }
}

/// What stands behind `refused` for a line: the refusal's name, and the word or title at fault.
fn refusal_text<'a>(fault: LineFault<'a>) -> (&'static [u8], &'a [u8])
    ensures { result.0.now ++ result.1.now ≡ refusal_text (refusal_of fault.entry) }
{
    match fault {
        LineFault::LineTooLong => (b" LineTooLong 4096", b""),
        LineFault::BadQuote => (b" BadQuote", b""),
        LineFault::UnknownCommand(word) => (b" UnknownCommand ", word),
        LineFault::NotBuilt(word) => (b" NotBuilt ", word),
        LineFault::UnknownParameter(word) => (b" UnknownParameter ", word),
        LineFault::LeftOut(title) => (b" LeftOut ", title.as_bytes()),
        LineFault::RepeatedParameter(title) => (b" RepeatedParameter ", title.as_bytes()),
        LineFault::MissingValue(title) => (b" MissingValue ", title.as_bytes()),
        LineFault::BadValue(title) => (b" BadValue ", title.as_bytes()),
        LineFault::MissingParameter(title) => (b" MissingParameter ", title.as_bytes()),
    }
}

/// The answer to a line that is refused by its form.
pub fn refused_line(text: &mut Vec<u8>, fault: LineFault) -> Result<Answered, SessionFault>
    ensures said { IfOk result (λ a. IsSaid a text.new.items (Refused (refusal_text (refusal_of fault.entry)))) }
    ensures memory { OnErr result (IsErrOf result SessionFault.Memory) }
{
    let (name, word) = refusal_text(fault);
    refused(text, name, word)
}

/// Puts bytes over the front of a text.
fn put_front(text: &mut [u8], front: &[u8])
    requires { length front.now ≤ length text.old }
    ensures { text.new ≡ front.now ++ drop (length front.now) text.old }
{
    text[..front.len()].copy_from_slice(front);
}

/// Room for so many bytes behind this head of a text. Of what an earlier text filled nothing is zeroed.
fn make_room(text: &mut Vec<u8>, head: &[u8], count: u64) -> Result<(), SessionFault>
    ensures head { OnOk result (take (length head.now) text.new.items ≡ head.now) }
    ensures room { OnOk result (length head.now + count ≡ vec_len text.new) }
    ensures memory { OnErr result (IsErrOf result SessionFault.Memory) }
{
    let place = head.len();
    let whole = place
        .checked_add(count as usize)
        .ok_or(SessionFault::Memory)?;
    text.resize(whole, 0)?;
    put_front(text, head);
    Ok(())
}

/// The head of the answer to a read, and room for its bytes behind it; answers where they begin.
pub fn read_room(text: &mut Vec<u8>, alloc: Global, count: u64) -> Result<usize, SessionFault>
    ensures head { IfOk result (λ place. take place text.new.items ≡ codes "ok" ++ (number count ++ 10 ∷ [])) }
    ensures room { IfOk result (λ place. place + count ≡ vec_len text.new) }
    ensures memory { OnErr result (IsErrOf result SessionFault.Memory) }
{
    let mut head = Vec::new(alloc);
    accepted_number(&mut head, count)?;
    make_room(text, &head, count)?;
    Ok(head.len())
}
