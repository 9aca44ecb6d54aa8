// What a program reads from and writes to, and what it asks the time.
ghost use Rattle.std.specs.Prelude.{◌≡◌, ◌≤◌, ◌<◌, ◌^◌, ℕ, List, Option, length, IfOk, OnErr};
ghost use Rattle.vdisk.specs.Causes.{HasCause};
ghost use Rattle.vdisk.specs.Streams.{Takes, CountsOn, Puts, Answers};

use crate::disk::Failed;

/// A source of bytes.
pub trait Source {
    /// What is left to read, where the source tells it.
    ghost left: { Self → Option (List ℕ) };

    /// How many bytes it has given, told or not, up to the last value of a counter.
    ghost given: { Self → ℕ };

    /// How often it has failed.
    ghost faults: { Self → ℕ };

    /// Takes the next bytes into the front of `out`, and answers how many: with a non-empty `out` 0 only at the end
    /// of the input. The rest of `out` may be changed too. A refused read takes nothing, and `out` may hold anything.
    fn read(&mut self, out: &mut [u8]) -> Result<usize, Failed>
        ensures bound { IfOk result (λ n. n ≤ length out.new) }
        ensures bytes { Takes (left self.old) (left self.new) result out.new }
        ensures given { CountsOn (given self.old) (given self.new) result }
        ensures cause { HasCause (faults self.old) (faults self.new) result };

    /// The count is that of a counter.
    ghost counted: { (source : Self) → faults source < 2 ^ 64 };
}

/// A sink for bytes.
pub trait Sink {
    /// What it holds, where the sink tells it.
    ghost held: { Self → Option (List ℕ) };

    /// How often it has failed.
    ghost faults: { Self → ℕ };

    /// Puts the first bytes behind what it holds, and answers how many: at least one of a non-empty piece.
    fn write(&mut self, bytes: &[u8]) -> Result<usize, Failed>
        ensures bound { IfOk result (λ n. n ≤ length bytes.now) }
        ensures some { IfOk result (λ n. 0 < length bytes.now → 0 < n) }
        ensures bytes { Puts (held self.old) (held self.new) result bytes.now }
        ensures cause { HasCause (faults self.old) (faults self.new) result };

    /// The count is that of a counter.
    ghost counted: { (sink : Self) → faults sink < 2 ^ 64 };
}

/// A clock.
pub trait Clock {
    /// The seconds that it has answered, the first one first, where the clock tells them.
    ghost answers: { Self → Option (List ℕ) };

    /// How often it has failed.
    ghost faults: { Self → ℕ };

    /// The seconds since 1970-01-01 00:00 UTC.
    fn now(&mut self) -> Result<u64, Failed>
        ensures second { Answers (answers self.old) (answers self.new) result }
        ensures cause { HasCause (faults self.old) (faults self.new) result };

    /// The count is that of a counter.
    ghost counted: { (clock : Self) → faults clock < 2 ^ 64 };
}
