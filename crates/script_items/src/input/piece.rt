// One piece of a script.
ghost use Rattle.std.specs.Prelude.{◌≡◌, ◌+◌, ◌≤◌, ◌<◌, ◌^◌, ℕ, List, Some, length, take, drop, IfOk, IsErrOf};
ghost use Rattle.script_items.specs.declared.limits.TheConstants.{MOST_SCRIPT};
ghost use Rattle.script_items.specs.Input.{HasGiven, GaveTooMany};
ghost use Rattle.vdisk.specs.Causes.{Rose};

use super::ScriptFault;
use crate::limits::MOST_SCRIPT;
use vdisk::Source;

/// Reads a piece of a script of which so many bytes came. Once as many came as a script may have, it asks for one more:
/// there is one exactly where the script is too long.
pub(super) fn read_piece<S: Source>(
    script: &mut S,
    came: u64,
    out: &mut [u8],
) -> Result<usize, ScriptFault>
    requires came { came ≤ MOST_SCRIPT }
    requires some { 0 < length out.old }
    ensures bound { IfOk result (λ n. n ≤ length out.old) }
    ensures few { IfOk result (λ n. came + n ≤ MOST_SCRIPT) }
    ensures bytes { (s : List ℕ) → S.left script.old ≡ Some s →
        IfOk result (λ n. (S.left script.new ≡ Some (drop n s)) × (take n out.new ≡ take n s)
        × (n ≤ length s) × (n ≡ 0 → length s ≡ 0)) }
    ensures over { (s : List ℕ) → S.left script.old ≡ Some s →
        IsErrOf result ScriptFault.TooLong → MOST_SCRIPT < came + length s }
    ensures given { (first : ℕ) → HasGiven first came (S.given script.old) →
        IfOk result (λ n. HasGiven first (came + n) (S.given script.new)) }
    ensures many { (first : ℕ) → HasGiven first came (S.given script.old) →
        IsErrOf result ScriptFault.TooLong → GaveTooMany first (S.given script.new) }
    ensures later { S.faults script.old ≤ S.faults script.new }
    ensures failed { IsErrOf result ScriptFault.Failed → Rose (S.faults script.old) (S.faults script.new) }
{
    let most = piece_len(came, out.len());
    match script.read(&mut out[..most]) {
        Err(_) => Err(ScriptFault::Failed),
        Ok(got) => {
            if got > 0 && came == MOST_SCRIPT {
                Err(ScriptFault::TooLong)
            } else {
                Ok(got)
            }
        }
    }
}

/// How many bytes are asked for.
fn piece_len(came: u64, room: usize) -> usize
    requires came { came ≤ MOST_SCRIPT }
    requires some { 0 < room }
    ensures some { 0 < result }
    ensures within { result ≤ room }
    ensures few { came < MOST_SCRIPT → came + result ≤ MOST_SCRIPT }
{
    let left = (MOST_SCRIPT - came) as usize;
    if left == 0 {
        1
    } else if left < room {
        left
    } else {
        room
    }
}
