// Handing out what was read ahead, and reading on.
ghost use Rattle.std.specs.Prelude.{◌≡◌, ◌+◌, ◌-◌, ◌≤◌, ◌<◌, ◌^◌, ℕ, List, [], length, take, drop, vec_len, IfOk, OnOk, IsErrOf, IsTrue, false};
ghost use Rattle.vdisk.specs.Causes.{Rose};
ghost use Rattle.script_items.specs.declared.limits.TheConstants.{MOST_SCRIPT};
ghost use Rattle.script_items.specs.Input.{ahead, taken, IsLeft, HasGiven, GaveTooMany, HasRead};

use super::piece::read_piece;
use super::{Input, ScriptFault};
use crate::limits::MOST_AHEAD;
use std::alloc::{AllocError, Global};
use vdisk::Source;

fn zeros(alloc: Global, count: usize) -> Result<Vec<u8>, AllocError>
    ensures { IfOk result (λ v. vec_len v ≡ count) }
{
    vec![in alloc; 0u8; count]
}

impl Input {
    /// Of a script of which nothing came.
    pub fn new(alloc: Global) -> Result<Input, AllocError>
        ensures came { IfOk result (λ input. input.came ≡ 0) }
        ensures none { IfOk result (λ input. ahead input ≡ []) }
        ensures taken { IfOk result (λ input. taken input ≡ 0) }
    {
        let room = zeros(alloc, MOST_AHEAD)?;
        Ok(Input {
            room,
            start: 0,
            end: 0,
            came: 0,
        })
    }

    /// The bytes that were read ahead.
    pub(crate) fn ahead(&self) -> &[u8]
        ensures bytes { result.now ≡ ahead self.now }
        ensures count { length result.now ≡ self.now.end - self.now.start }
    {
        &self.room[self.start..self.end]
    }

    /// Hands out the first bytes of those read ahead.
    pub(crate) fn pass(&mut self, count: usize)
        requires { count ≤ self.old.end - self.old.start }
        ensures bytes { ahead self.new ≡ drop count (ahead self.old) }
        ensures came { self.new.came ≡ self.old.came }
        ensures taken { taken self.new ≡ taken self.old + count }
    {
        self.start += count;
    }

    /// Reads ahead where nothing is ahead; false at the end of the script.
    pub(crate) fn ready<S: Source>(&mut self, script: &mut S) -> Result<bool, ScriptFault>
        ensures left { (total : ℕ) (s : List ℕ) → IsLeft self.old (S.left script.old) total s →
            OnOk result (IsLeft self.new (S.left script.new) total s) }
        ensures more { IfOk result (λ more. IsTrue more → 0 < self.new.end - self.new.start) }
        ensures end { (total : ℕ) (s : List ℕ) → IsLeft self.old (S.left script.old) total s →
            IfOk result (λ more. more ≡ false → length s ≡ 0) }
        ensures taken { taken self.new ≡ taken self.old }
        ensures over { (total : ℕ) (s : List ℕ) → IsLeft self.old (S.left script.old) total s →
            IsErrOf result ScriptFault.TooLong → MOST_SCRIPT < total }
        ensures given { (first : ℕ) → HasGiven first self.old.came (S.given script.old) →
            OnOk result (HasGiven first self.new.came (S.given script.new)) }
        ensures many { (first : ℕ) → HasGiven first self.old.came (S.given script.old) →
            IsErrOf result ScriptFault.TooLong → GaveTooMany first (S.given script.new) }
        ensures later { S.faults script.old ≤ S.faults script.new }
        ensures failed { IsErrOf result ScriptFault.Failed → Rose (S.faults script.old) (S.faults script.new) }
    {
        if self.start < self.end {
            return Ok(true);
        }
        match read_piece(script, self.came, &mut self.room) {
            Err(fault) => Err(fault),
            Ok(got) => {
                self.start = 0;
                self.end = got;
                self.came += got as u64;
                Ok(got > 0)
            }
        }
    }

    /// Reads some bytes, those read ahead first; none only at the end of the script.
    pub(crate) fn read<S: Source>(
        &mut self,
        script: &mut S,
        out: &mut [u8],
    ) -> Result<usize, ScriptFault>
        requires some { 0 < length out.old }
        ensures bound { IfOk result (λ n. n ≤ length out.old) }
        ensures bytes { (total : ℕ) (s : List ℕ) → IsLeft self.old (S.left script.old) total s →
            IfOk result (λ n. HasRead n out.new s self.new (S.left script.new) total) }
        ensures taken { taken self.old ≤ taken self.new }
        ensures over { (total : ℕ) (s : List ℕ) → IsLeft self.old (S.left script.old) total s →
            IsErrOf result ScriptFault.TooLong → MOST_SCRIPT < total }
        ensures given { (first : ℕ) → HasGiven first self.old.came (S.given script.old) →
            OnOk result (HasGiven first self.new.came (S.given script.new)) }
        ensures many { (first : ℕ) → HasGiven first self.old.came (S.given script.old) →
            IsErrOf result ScriptFault.TooLong → GaveTooMany first (S.given script.new) }
        ensures later { S.faults script.old ≤ S.faults script.new }
        ensures failed { IsErrOf result ScriptFault.Failed → Rose (S.faults script.old) (S.faults script.new) }
    {
        if self.start < self.end {
            return Ok(self.take(out));
        }
        match read_piece(script, self.came, out) {
            Err(fault) => Err(fault),
            Ok(got) => {
                self.came += got as u64;
                Ok(got)
            }
        }
    }

    /// Copies what was read ahead, as far as it fits.
    fn take(&mut self, out: &mut [u8]) -> usize
        ensures bound { result ≤ length out.old }
        ensures most { result ≤ self.old.end - self.old.start }
        ensures some { 0 < length out.old → 0 < self.old.end - self.old.start → 0 < result }
        ensures bytes { take result out.new ≡ take result (ahead self.old) }
        ensures left { ahead self.new ≡ drop result (ahead self.old) }
        ensures came { self.new.came ≡ self.old.came }
        ensures taken { taken self.new ≡ taken self.old + result }
    {
        let ahead = &self.room[self.start..self.end];
        let count = ahead.len().min(out.len());
        out[..count].copy_from_slice(&ahead[..count]);
        self.start += count;
        count
    }
}
