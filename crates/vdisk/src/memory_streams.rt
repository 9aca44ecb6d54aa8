// A source, a sink and a clock in memory.
ghost use Rattle.std.specs.Prelude.{◌≡◌, ◌≤◌, ◌<◌, ◌-◌, ◌^◌, [], ℕ, List, Option, Some, None, length, min, replicate, IfOk, IsErr, ◌↔◌};

use crate::disk::Failed;
use crate::faults::{FaultPlan, count_fault};
use crate::streams::{Clock, Sink, Source};
use std::alloc::Global;

/// A source that hands out the bytes that it was made of.
#[derive(Drop)]
pub struct MemorySource {
    bytes: Vec<u8>,
    place: usize,
    most: usize,
    faults: u64,
    plan: FaultPlan,
    ghost within: { place ≤ length bytes.items },
    ghost portions: { 0 < most },
    ghost counter: { faults < 2 ^ 64 },
}

impl MemorySource {
    ghost use Rattle.vdisk.specs.MemoryStreams.{left_of, rest_of, given_by, source_faults, source_plan, source_most};
    ghost use Rattle.vdisk.specs.Faults.{IsUntried};

    /// Hands out all that is left, as far as there is room.
    pub fn new(bytes: Vec<u8>) -> Self
        ensures left { left_of result ≡ Some bytes.items }
        ensures given { given_by result ≡ 0 }
        ensures faults { source_faults result ≡ 0 }
        ensures plan { IsUntried (source_plan result) }
        ensures most { source_most result ≡ 2 ^ 64 - 1 }
    {
        MemorySource::in_portions(bytes, usize::MAX)
    }

    /// Hands out at most `most` bytes a read.
    pub fn in_portions(bytes: Vec<u8>, most: usize) -> Self
        requires { 0 < most }
        ensures left { left_of result ≡ Some bytes.items }
        ensures given { given_by result ≡ 0 }
        ensures faults { source_faults result ≡ 0 }
        ensures plan { IsUntried (source_plan result) }
        ensures most { source_most result ≡ most }
    {
        MemorySource {
            bytes,
            place: 0,
            most,
            faults: 0,
            plan: FaultPlan::new(),
        }
    }

    /// Lists the calls that are to fail, in place of those listed before. They are numbered from 1.
    pub fn fail_at(&mut self, calls: Vec<u64>)
        ensures plan { source_plan self.new ≡ record (source_plan self.old) { listed = Some calls } }
        ensures left { left_of self.new ≡ left_of self.old }
        ensures given { given_by self.new ≡ given_by self.old }
        ensures faults { source_faults self.new ≡ source_faults self.old }
        ensures most { source_most self.new ≡ source_most self.old }
    {
        self.plan.fail_at(calls);
    }

    /// Makes every call from that one on fail.
    pub fn fail_from(&mut self, call: u64)
        ensures plan { source_plan self.new ≡ record (source_plan self.old) { from = call } }
        ensures left { left_of self.new ≡ left_of self.old }
        ensures given { given_by self.new ≡ given_by self.old }
        ensures faults { source_faults self.new ≡ source_faults self.old }
        ensures most { source_most self.new ≡ source_most self.old }
    {
        self.plan.fail_from(call);
    }
}

impl Source for MemorySource {
    ghost use Rattle.vdisk.specs.MemoryStreams.{left_of, rest_of, given_by, source_faults, source_plan, source_most};
    ghost use Rattle.vdisk.specs.Streams.{Takes, CountsOn};
    ghost use Rattle.vdisk.specs.Causes.{HasCause};
    ghost use Rattle.vdisk.specs.Faults.{FailsNext, Tried};

    ghost left = { λ s. left_of s };

    ghost given = { λ s. given_by s };

    ghost faults = { λ s. source_faults s };

    ghost counted = { λ s. s.counter };

    fn read(&mut self, out: &mut [u8]) -> Result<usize, Failed>
        ensures bound { IfOk result (λ n. n ≤ length out.new) }
        ensures bytes { Takes (left_of self.old) (left_of self.new) result out.new }
        ensures given { CountsOn (given_by self.old) (given_by self.new) result }
        ensures cause { HasCause (source_faults self.old) (source_faults self.new) result }
        ensures plan { Tried (source_plan self.old) (source_plan self.new) }
        ensures fails { IsErr result ↔ FailsNext (source_plan self.old) }
        ensures most { source_most self.new ≡ source_most self.old }
        ensures count { IfOk result (λ n.
            n ≡ min (min (length (rest_of self.old)) (length out.old)) (source_most self.old)) }
    {
        if self.plan.next_fails() {
            return Err(count_fault(&mut self.faults));
        }
        let rest = self.bytes.len() - self.place;
        let count = rest.min(out.len()).min(self.most);
        out[..count].copy_from_slice(&self.bytes[self.place..self.place + count]);
        self.place += count;
        Ok(count)
    }
}

/// A sink that keeps what is written to it. A write that finds no memory fails.
#[derive(Drop)]
pub struct MemorySink {
    bytes: Vec<u8>,
    most: usize,
    faults: u64,
    plan: FaultPlan,
    ghost portions: { 0 < most },
    ghost counter: { faults < 2 ^ 64 },
}

impl MemorySink {
    ghost use Rattle.vdisk.specs.MemoryStreams.{held_by, sink_faults, sink_plan, sink_most};
    ghost use Rattle.vdisk.specs.Faults.{IsUntried};

    /// Takes each piece whole.
    pub fn new(alloc: Global) -> Self
        ensures held { held_by result ≡ Some [] }
        ensures faults { sink_faults result ≡ 0 }
        ensures plan { IsUntried (sink_plan result) }
        ensures most { sink_most result ≡ 2 ^ 64 - 1 }
    {
        MemorySink::in_portions(alloc, usize::MAX)
    }

    /// Takes at most `most` bytes a write.
    pub fn in_portions(alloc: Global, most: usize) -> Self
        requires { 0 < most }
        ensures held { held_by result ≡ Some [] }
        ensures faults { sink_faults result ≡ 0 }
        ensures plan { IsUntried (sink_plan result) }
        ensures most { sink_most result ≡ most }
    {
        MemorySink {
            bytes: Vec::new(alloc),
            most,
            faults: 0,
            plan: FaultPlan::new(),
        }
    }

    /// What it holds.
    pub fn bytes(&self) -> &[u8]
        ensures { held_by self.now ≡ Some result.now }
    {
        &self.bytes
    }

    /// Lists the calls that are to fail, in place of those listed before. They are numbered from 1.
    pub fn fail_at(&mut self, calls: Vec<u64>)
        ensures plan { sink_plan self.new ≡ record (sink_plan self.old) { listed = Some calls } }
        ensures held { held_by self.new ≡ held_by self.old }
        ensures faults { sink_faults self.new ≡ sink_faults self.old }
        ensures most { sink_most self.new ≡ sink_most self.old }
    {
        self.plan.fail_at(calls);
    }

    /// Makes every call from that one on fail.
    pub fn fail_from(&mut self, call: u64)
        ensures plan { sink_plan self.new ≡ record (sink_plan self.old) { from = call } }
        ensures held { held_by self.new ≡ held_by self.old }
        ensures faults { sink_faults self.new ≡ sink_faults self.old }
        ensures most { sink_most self.new ≡ sink_most self.old }
    {
        self.plan.fail_from(call);
    }
}

impl Sink for MemorySink {
    ghost use Rattle.vdisk.specs.MemoryStreams.{held_by, sink_faults, sink_plan, sink_most};
    ghost use Rattle.vdisk.specs.Streams.{Puts};
    ghost use Rattle.vdisk.specs.Causes.{HasCause};
    ghost use Rattle.vdisk.specs.Faults.{FailsNext, Tried};

    ghost held = { λ s. held_by s };

    ghost faults = { λ s. sink_faults s };

    ghost counted = { λ s. s.counter };

    fn write(&mut self, bytes: &[u8]) -> Result<usize, Failed>
        ensures bound { IfOk result (λ n. n ≤ length bytes.now) }
        ensures some { IfOk result (λ n. 0 < length bytes.now → 0 < n) }
        ensures bytes { Puts (held_by self.old) (held_by self.new) result bytes.now }
        ensures cause { HasCause (sink_faults self.old) (sink_faults self.new) result }
        ensures plan { Tried (sink_plan self.old) (sink_plan self.new) }
        ensures fails { FailsNext (sink_plan self.old) → IsErr result }
        ensures most { sink_most self.new ≡ sink_most self.old }
        ensures count { IfOk result (λ n. n ≡ min (length bytes.now) (sink_most self.old)) }
    {
        let count = bytes.len().min(self.most);
        if self.plan.next_fails() || self.bytes.extend_from_slice(&bytes[..count]).is_err() {
            return Err(count_fault(&mut self.faults));
        }
        Ok(count)
    }
}

/// A clock that stands still: it always answers its second.
#[derive(Drop)]
pub struct MemoryClock {
    second: u64,
    given: u64,
    faults: u64,
    plan: FaultPlan,
    ghost few: { given ≤ plan.made },
    ghost counter: { faults < 2 ^ 64 },
}

impl MemoryClock {
    ghost use Rattle.vdisk.specs.MemoryStreams.{answers_of, clock_faults, clock_plan, second_of};
    ghost use Rattle.vdisk.specs.Faults.{IsUntried};

    /// It has answered nothing yet.
    pub fn new(second: u64) -> Self
        ensures answers { answers_of result ≡ Some [] }
        ensures second { second_of result ≡ second }
        ensures faults { clock_faults result ≡ 0 }
        ensures plan { IsUntried (clock_plan result) }
    {
        MemoryClock {
            second,
            given: 0,
            faults: 0,
            plan: FaultPlan::new(),
        }
    }

    /// Lists the calls that are to fail, in place of those listed before. They are numbered from 1.
    pub fn fail_at(&mut self, calls: Vec<u64>)
        ensures plan { clock_plan self.new ≡ record (clock_plan self.old) { listed = Some calls } }
        ensures answers { answers_of self.new ≡ answers_of self.old }
        ensures second { second_of self.new ≡ second_of self.old }
        ensures faults { clock_faults self.new ≡ clock_faults self.old }
    {
        self.plan.fail_at(calls);
    }

    /// Makes every call from that one on fail.
    pub fn fail_from(&mut self, call: u64)
        ensures plan { clock_plan self.new ≡ record (clock_plan self.old) { from = call } }
        ensures answers { answers_of self.new ≡ answers_of self.old }
        ensures second { second_of self.new ≡ second_of self.old }
        ensures faults { clock_faults self.new ≡ clock_faults self.old }
    {
        self.plan.fail_from(call);
    }
}

impl Clock for MemoryClock {
    ghost use Rattle.vdisk.specs.MemoryStreams.{answers_of, clock_faults, clock_plan, second_of};
    ghost use Rattle.vdisk.specs.Streams.{Answers};
    ghost use Rattle.vdisk.specs.Causes.{HasCause};
    ghost use Rattle.vdisk.specs.Faults.{FailsNext, Tried};

    ghost answers = { λ c. answers_of c };

    ghost faults = { λ c. clock_faults c };

    ghost counted = { λ c. c.counter };

    fn now(&mut self) -> Result<u64, Failed>
        ensures second { Answers (answers_of self.old) (answers_of self.new) result }
        ensures cause { HasCause (clock_faults self.old) (clock_faults self.new) result }
        ensures plan { Tried (clock_plan self.old) (clock_plan self.new) }
        ensures fails { IsErr result ↔ FailsNext (clock_plan self.old) }
        ensures always { IfOk result (λ second. second ≡ second_of self.old) }
    {
        if self.plan.next_fails() {
            return Err(count_fault(&mut self.faults));
        }
        self.given += 1;
        Ok(self.second)
    }
}
