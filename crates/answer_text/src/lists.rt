// The texts of lists.
ghost use Rattle.std.specs.Prelude.{◌≡◌, ◌++◌, IfOk, OnOk, OnErr, IsErrOf};
ghost use Rattle.answer_text.specs.Answers.{Accepted, number, file_line};
ghost use Rattle.answer_text.specs.Saying.{IsSaid};

use crate::answers::{Answered, add, add_decimal, add_number, begin, end};
use crate::stops::SessionFault;
use std::alloc::Global;

/// A file's line, with the newline in front of it.
pub fn add_line(text: &mut Vec<u8>, size: u64, name: &[u8]) -> Result<(), SessionFault>
    ensures text { OnOk result (text.new.items ≡ text.old.items ++ file_line size name.now) }
    ensures memory { OnErr result (IsErrOf result SessionFault.Memory) }
{
    add(text, b"\n")?;
    add_decimal(text, size)?;
    add(text, b" ")?;
    add(text, name)
}

/// The answer `ok` with the number of files and their lines behind it.
pub fn accepted_lines(
    text: &mut Vec<u8>,
    alloc: Global,
    count: u64,
) -> Result<Answered, SessionFault>
    ensures said { IfOk result (λ a. IsSaid a text.new.items (Accepted (number count ++ text.old.items))) }
    ensures memory { OnErr result (IsErrOf result SessionFault.Memory) }
{
    let mut whole = Vec::new(alloc);
    begin(&mut whole, b"ok", b"")?;
    add_number(&mut whole, count)?;
    add(&mut whole, text)?;
    let answered = end(&mut whole, Answered::Ok)?;
    *text = whole;
    Ok(answered)
}
