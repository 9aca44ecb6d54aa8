// Payloads of a script.
ghost use Rattle.std.specs.Prelude.{◌≡◌, ◌+◌, ◌≤◌, ◌<◌, ◌^◌, ℕ, List, length, take, drop, vec_len, IfOk, OnOk, IsErrOf, true, not};
ghost use Rattle.vdisk.specs.Causes.{Rose};
ghost use Rattle.cmdlet_line.specs.declared.limits.TheConstants.{MOST_COUNT};
ghost use Rattle.script_items.specs.declared.limits.TheConstants.{MOST_SCRIPT};
ghost use Rattle.script_items.specs.Input.{taken, IsLeft, HasGiven, GaveTooMany, IsFilled};
ghost use Rattle.script_items.specs.Script.{ends_well};
ghost use Rattle.script_items.specs.Reading.{IsPayload};

use crate::input::{Input, ScriptFault};
use crate::lines::skip_line;
use vdisk::Source;

/// Reads until the bytes are full or the script is at its end, and answers how many were read.
fn read_whole<S: Source>(
    script: &mut S,
    input: &mut Input,
    out: &mut [u8],
) -> Result<usize, ScriptFault>
    ensures bound { IfOk result (λ n. n ≤ length out.old) }
    ensures bytes { (total : ℕ) (s : List ℕ) → IsLeft input.old (S.left script.old) total s →
        IfOk result (λ n. IsFilled n out.new s input.new (S.left script.new) total) }
    ensures grows { taken input.old ≤ taken input.new }
    ensures over { (total : ℕ) (s : List ℕ) → IsLeft input.old (S.left script.old) total s →
        IsErrOf result ScriptFault.TooLong → MOST_SCRIPT < total }
    ensures given { (first : ℕ) → HasGiven first input.old.came (S.given script.old) →
        OnOk result (HasGiven first input.new.came (S.given script.new)) }
    ensures many { (first : ℕ) → HasGiven first input.old.came (S.given script.old) →
        IsErrOf result ScriptFault.TooLong → GaveTooMany first (S.given script.new) }
    ensures later { S.faults script.old ≤ S.faults script.new }
    ensures failed { IsErrOf result ScriptFault.Failed → Rose (S.faults script.old) (S.faults script.new) }
{
    let mut done = 0;
    while done < out.len() {
        match input.read(script, &mut out[done..]) {
            Err(fault) => return Err(fault),
            Ok(0) => return Ok(done),
            Ok(count) => done += count,
        }
    }
    Ok(done)
}

/// Room for a payload and the byte behind it; false where there is no memory for it. Of what the last payload filled
/// nothing is zeroed.
fn make_room(payload: &mut Vec<u8>, count: u64) -> bool
    requires { count ≤ MOST_COUNT }
    ensures { result ≡ true → vec_len payload.new ≡ count + 1 }
{
    payload.resize(count as usize + 1, 0).is_ok()
}

/// Whether another byte than a newline stands behind so many bytes.
pub fn is_spoilt_at(payload: &[u8], count: u64) -> bool
    ensures { result ≡ not (ends_well (drop count payload.now)) }
{
    if payload.len() as u64 <= count {
        return false;
    }
    is_spoilt(&payload[count as usize..])
}

fn is_spoilt(behind: &[u8]) -> bool
    ensures { result ≡ not (ends_well behind.now) }
{
    match behind {
        [] => false,
        [last, ..] => *last != b'\n',
    }
}

/// The payload of a line with the byte in its newline's place; where that is another byte, what stands up to the next
/// newline is passed over.
pub(crate) fn read_payload<S: Source>(
    script: &mut S,
    input: &mut Input,
    payload: &mut Vec<u8>,
    count: u64,
) -> Result<(), ScriptFault>
    requires { count ≤ MOST_COUNT }
    ensures payload { (total : ℕ) (s : List ℕ) → IsLeft input.old (S.left script.old) total s →
        OnOk result (IsPayload count s payload.new.items input.new (S.left script.new) total) }
    ensures grows { taken input.old ≤ taken input.new }
    ensures over { (total : ℕ) (s : List ℕ) → IsLeft input.old (S.left script.old) total s →
        IsErrOf result ScriptFault.TooLong → MOST_SCRIPT < total }
    ensures given { (first : ℕ) → HasGiven first input.old.came (S.given script.old) →
        OnOk result (HasGiven first input.new.came (S.given script.new)) }
    ensures many { (first : ℕ) → HasGiven first input.old.came (S.given script.old) →
        IsErrOf result ScriptFault.TooLong → GaveTooMany first (S.given script.new) }
    ensures later { S.faults script.old ≤ S.faults script.new }
    ensures failed { IsErrOf result ScriptFault.Failed → Rose (S.faults script.old) (S.faults script.new) }
{
    if !make_room(payload, count) {
        return Err(ScriptFault::Memory);
    }
    match read_whole(script, input, payload) {
        Err(fault) => return Err(fault),
        Ok(got) => payload.truncate(got),
    }
    if is_spoilt_at(payload, count) {
        return skip_line(script, input);
    }
    Ok(())
}
