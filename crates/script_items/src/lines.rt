// Lines of a script.
ghost use Rattle.std.specs.Prelude.{◌≡◌, ◌+◌, ◌-◌, ◌≤◌, ◌<◌, ◌^◌, ◌++◌, ℕ, List, Option, Some, length, take, drop, vec_len, vec_capacity, IfOk, OnOk, IsErrOf, IsTrue};
ghost use Rattle.vdisk.specs.Causes.{Rose};
ghost use Rattle.script_items.specs.declared.limits.TheConstants.{MOST_SCRIPT, MOST_KEPT};
ghost use Rattle.script_items.specs.Input.{ahead, taken, IsLeft, HasGiven, GaveTooMany};
ghost use Rattle.script_items.specs.Script.{behind_line, without_return};
ghost use Rattle.script_items.specs.Reading.{FindsNewline, IsFront, IsTakenOn, IsPassedOn, IsLine};

use crate::input::{Input, ScriptFault};
use crate::limits::MOST_KEPT;
use memchr::memchr;
use vdisk::Source;

/// The place of the first newline.
fn newline_in(bytes: &[u8]) -> Option<usize>
    ensures { FindsNewline bytes.now result }
{
    memchr(b'\n', bytes)
}

/// Keeps these bytes behind the line, as far as there is room.
fn keep(line: &mut Vec<u8>, bytes: &[u8])
    requires room { MOST_KEPT ≤ vec_capacity line.old }
    requires few { vec_len line.old ≤ MOST_KEPT }
    ensures room { MOST_KEPT ≤ vec_capacity line.new }
    ensures few { vec_len line.new ≤ MOST_KEPT }
    ensures kept { line.new.items ≡ take MOST_KEPT (line.old.items ++ bytes.now) }
{
    let left = MOST_KEPT - line.len();
    let count = left.min(bytes.len());
    line.extend_from_slice(&bytes[..count]).unwrap();
}

/// Drops one carriage return at the line's end.
fn drop_return(line: &mut Vec<u8>)
    ensures room { vec_capacity line.new ≡ vec_capacity line.old }
    ensures dropped { line.new.items ≡ without_return line.old.items }
{
    let ends_in_return = match line.last() {
        Some(last) => *last == b'\r',
        None => false,
    };
    if ends_in_return {
        line.pop();
    }
}

/// Moves what was read ahead into the line, up to and with the first newline; false where there is none.
fn take_ahead(input: &mut Input, line: &mut Vec<u8>) -> bool
    requires room { MOST_KEPT ≤ vec_capacity line.old }
    requires few { vec_len line.old ≤ MOST_KEPT }
    ensures room { MOST_KEPT ≤ vec_capacity line.new }
    ensures few { vec_len line.new ≤ MOST_KEPT }
    ensures came { input.new.came ≡ input.old.came }
    ensures grows { taken input.old ≤ taken input.new }
    ensures counted { 0 < input.old.end - input.old.start → taken input.old < taken input.new }
    ensures line { (source : Option (List ℕ)) (total : ℕ) (bytes : List ℕ) →
        IsFront input.old source total bytes line.old.items →
        IsTakenOn result input.new source total bytes line.new.items }
{
    let bytes = input.ahead();
    match newline_in(bytes) {
        Some(place) => {
            keep(line, &bytes[..place]);
            input.pass(place + 1);
            true
        }
        None => {
            let all = bytes.len();
            keep(line, bytes);
            input.pass(all);
            false
        }
    }
}

/// The next line, its first bytes kept, or false at the end of the script.
pub(crate) fn read_line<S: Source>(
    script: &mut S,
    input: &mut Input,
    line: &mut Vec<u8>,
) -> Result<bool, ScriptFault>
    requires room { MOST_KEPT ≤ vec_capacity line.old }
    ensures line { (total : ℕ) (s : List ℕ) → IsLeft input.old (S.left script.old) total s →
        IfOk result (λ some. IsLine s some line.new.items input.new (S.left script.new) total) }
    ensures room { MOST_KEPT ≤ vec_capacity line.new }
    ensures counted { IfOk result (λ some. IsTrue some → taken input.old < taken input.new) }
    ensures grows { taken input.old ≤ taken input.new }
    ensures over { (total : ℕ) (s : List ℕ) → IsLeft input.old (S.left script.old) total s →
        IsErrOf result ScriptFault.TooLong → MOST_SCRIPT < total }
    ensures given { (first : ℕ) → HasGiven first input.old.came (S.given script.old) →
        OnOk result (HasGiven first input.new.came (S.given script.new)) }
    ensures many { (first : ℕ) → HasGiven first input.old.came (S.given script.old) →
        IsErrOf result ScriptFault.TooLong → GaveTooMany first (S.given script.new) }
    ensures later { S.faults script.old ≤ S.faults script.new }
    ensures failed { IsErrOf result ScriptFault.Failed → Rose (S.faults script.old) (S.faults script.new) }
{
    line.clear();
    'pieces: loop {
        match input.ready(script) {
            Err(fault) => return Err(fault),
            Ok(more) => {
                if !more {
                    return Ok(!line.is_empty());
                }
            }
        }
        if take_ahead(input, line) {
            drop_return(line);
            return Ok(true);
        }
    }
}

/// Passes over what was read ahead, up to and with the first newline; false where there is none.
fn pass_ahead(input: &mut Input) -> bool
    ensures came { input.new.came ≡ input.old.came }
    ensures grows { taken input.old ≤ taken input.new }
    ensures counted { 0 < input.old.end - input.old.start → taken input.old < taken input.new }
    ensures left { (source : Option (List ℕ)) (total : ℕ) (bytes : List ℕ) → IsLeft input.old source total bytes →
        IsPassedOn result input.new source total bytes }
{
    let bytes = input.ahead();
    match newline_in(bytes) {
        Some(place) => {
            input.pass(place + 1);
            true
        }
        None => {
            let all = bytes.len();
            input.pass(all);
            false
        }
    }
}

/// Passes over the rest of a line.
pub(crate) fn skip_line<S: Source>(script: &mut S, input: &mut Input) -> Result<(), ScriptFault>
    ensures left { (total : ℕ) (s : List ℕ) → IsLeft input.old (S.left script.old) total s →
        OnOk result (IsLeft input.new (S.left script.new) total (behind_line s)) }
    ensures grows { taken input.old ≤ taken input.new }
    ensures over { (total : ℕ) (s : List ℕ) → IsLeft input.old (S.left script.old) total s →
        IsErrOf result ScriptFault.TooLong → MOST_SCRIPT < total }
    ensures given { (first : ℕ) → HasGiven first input.old.came (S.given script.old) →
        OnOk result (HasGiven first input.new.came (S.given script.new)) }
    ensures many { (first : ℕ) → HasGiven first input.old.came (S.given script.old) →
        IsErrOf result ScriptFault.TooLong → GaveTooMany first (S.given script.new) }
    ensures later { S.faults script.old ≤ S.faults script.new }
    ensures failed { IsErrOf result ScriptFault.Failed → Rose (S.faults script.old) (S.faults script.new) }
{
    'pieces: loop {
        match input.ready(script) {
            Err(fault) => return Err(fault),
            Ok(more) => {
                if !more {
                    return Ok(());
                }
            }
        }
        if pass_ahead(input) {
            return Ok(());
        }
    }
}
