// Items from a script.
ghost use Rattle.std.specs.Prelude.{◌≡◌, ◌≤◌, ◌<◌, ◌^◌, ℕ, List, IfOk, IfSome, OnOk, IsErrOf, IsTrue, vec_capacity};
ghost use Rattle.vdisk.specs.Causes.{Rose};
ghost use Rattle.cmdlet_line.specs.declared.limits.TheConstants.{MOST_COUNT};
ghost use Rattle.script_items.specs.declared.limits.TheConstants.{MOST_SCRIPT, MOST_KEPT};
ghost use Rattle.script_items.specs.Input.{taken, IsLeft, HasGiven, GaveTooMany};
ghost use Rattle.script_items.specs.Script.{asked, wanted};
ghost use Rattle.script_items.specs.Reading.{IsItem};

use crate::input::{Input, ScriptFault};
use crate::limits::VOLUME;
use crate::lines::read_line;
use crate::payload::read_payload;
use cmdlet_line::laws::what_is_asked_is_in_range;
use cmdlet_line::{Line, parse};
use vdisk::Source;

/// How many bytes of payload a line takes.
fn payload_count(line: &[u8]) -> Option<u64>
    ensures payload { result ≡ wanted (asked line.now) }
    ensures few { IfSome result (λ count. count ≤ MOST_COUNT) }
{
    what_is_asked_is_in_range();
    match parse(line, VOLUME) {
        Err(_) => None,
        Ok(Line::Write(_, _, count)) => Some(count),
        Ok(_) => None,
    }
}

/// The next line with what stands behind it, or false at the end of the script. A line that takes no payload leaves the
/// last one where it is, so that the room of payloads stays as it was filled.
pub fn read_item<S: Source>(
    script: &mut S,
    input: &mut Input,
    line: &mut Vec<u8>,
    payload: &mut Vec<u8>,
) -> Result<bool, ScriptFault>
    requires room { MOST_KEPT ≤ vec_capacity line.old }
    ensures item { (total : ℕ) (s : List ℕ) → IsLeft input.old (S.left script.old) total s →
        IfOk result (λ some. IsItem s some line.new.items payload.new.items input.new (S.left script.new) total) }
    ensures room { MOST_KEPT ≤ vec_capacity line.new }
    ensures counted { IfOk result (λ some. IsTrue some → taken input.old < taken input.new) }
    ensures grows { taken input.old ≤ taken input.new }
    ensures over { (total : ℕ) (s : List ℕ) → IsLeft input.old (S.left script.old) total s →
        IsErrOf result ScriptFault.TooLong → MOST_SCRIPT < total }
    ensures given { (first : ℕ) → HasGiven first input.old.came (S.given script.old) →
        OnOk result (HasGiven first input.new.came (S.given script.new)) }
    ensures many { (first : ℕ) → HasGiven first input.old.came (S.given script.old) →
        IsErrOf result ScriptFault.TooLong → GaveTooMany first (S.given script.new) }
    ensures later { S.faults script.old ≤ S.faults script.new }
    ensures failed { IsErrOf result ScriptFault.Failed → Rose (S.faults script.old) (S.faults script.new) }
{
    match read_line(script, input, line) {
        Err(fault) => return Err(fault),
        Ok(some) => {
            if !some {
                return Ok(false);
            }
        }
    }
    match payload_count(line) {
        None => Ok(true),
        Some(count) => match read_payload(script, input, payload, count) {
            Err(fault) => Err(fault),
            Ok(()) => Ok(true),
        },
    }
}
