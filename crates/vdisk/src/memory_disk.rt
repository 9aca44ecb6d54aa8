// A disk in memory. It keeps how to take each call back, so it knows what a crash at any moment might have left.
ghost use Rattle.std.specs.Prelude.{◌≡◌, ◌<◌, ◌≤◌, ◌+◌, ◌-◌, ◌/◌, ◌^◌, ◌⊎◌, ◌++◌, ◌↔◌, ℕ, List, IsTrue, IsErr, length, take, drop, reverse, get_or, OnOk, OnErr, IfOk};
ghost use Rattle.vdisk.specs.Past.{Had};

use crate::crash::{as_synced, drawn};
use crate::disk::{Disk, Failed};
use crate::faults::{FaultPlan, count_fault};
use crate::record::{Change, Event};
use crate::writes::{grow_to, part_kept, push_event, write_at};
use groundwork::Memory;
use std::alloc::Global;

/// A disk in memory, which tells all that it holds and keeps how to take back each call that changed it.
///
/// A write that is to fail writes the first half of its bytes, and leaves its whole range pending. A call that finds
/// no memory for its record fails, and changes nothing.
#[derive(Drop)]
pub struct MemoryDisk {
    alloc: Global,
    bytes: Vec<u8>,
    events: Vec<Event>,
    moment: u64,
    faults: u64,
    plan: FaultPlan,
    ghost small: { length bytes.items < 2 ^ 64 },
    ghost timed: { moment < 2 ^ 64 },
    ghost counted: { faults < 2 ^ 64 },
    ghost ends_before_now: { (c : List ℕ) → Had moment bytes.items (reverse events.items) c → ⊥ },
}

impl MemoryDisk {
    ghost use Rattle.std.specs.Prelude.{Some};
    ghost use Rattle.vdisk.specs.MemoryDisk.{memory_state, memory_plan, synced_byte, Picks};
    ghost use Rattle.vdisk.specs.Disk.{Only, Untouched, zeros};
    ghost use Rattle.vdisk.specs.Faults.{IsUntried};

    /// A disk of that many zeros, all of them safe from a crash. No call is to fail.
    pub fn new(alloc: Global, size: u64) -> Result<Self, Memory>
        ensures image { IfOk result (λ m. (memory_state m).image ≡ zeros size) }
        ensures faults { IfOk result (λ m. (memory_state m).faults ≡ 0) }
        ensures moment { IfOk result (λ m. (memory_state m).moment ≡ 0) }
        ensures safe { IfOk result (λ m. Only (zeros size) (memory_state m).may_leave) }
        ensures plan { IfOk result (λ m. IsUntried (memory_plan m)) }
        ensures synced { IfOk result (λ m. (i : ℕ) → synced_byte m i ≡ get_or (zeros size) i 0) }
    {
        let bytes = vec![in alloc; 0u8; size as usize]?;
        Ok(MemoryDisk::with_image(alloc, bytes))
    }

    /// A disk with these bytes, all of them safe from a crash. No call is to fail.
    pub fn with_image(alloc: Global, bytes: Vec<u8>) -> Self
        ensures image { (memory_state result).image ≡ bytes.items }
        ensures faults { (memory_state result).faults ≡ 0 }
        ensures moment { (memory_state result).moment ≡ 0 }
        ensures safe { Only bytes.items (memory_state result).may_leave }
        ensures plan { IsUntried (memory_plan result) }
        ensures synced { (i : ℕ) → synced_byte result i ≡ get_or bytes.items i 0 }
    {
        MemoryDisk {
            alloc,
            bytes,
            events: Vec::new(alloc),
            moment: 0,
            faults: 0,
            plan: FaultPlan::new(),
        }
    }

    /// What reads give.
    pub fn image(&self) -> &[u8]
        ensures { result.now ≡ (memory_state self.now).image }
    {
        &self.bytes
    }

    /// Lists the calls that are to fail, in place of those listed before. They are numbered from 1.
    pub fn fail_at(&mut self, calls: Vec<u64>)
        ensures plan { memory_plan self.new ≡ record (memory_plan self.old) { listed = Some calls } }
        ensures untouched { Untouched (memory_state self.old) (memory_state self.new) }
        ensures faults { (memory_state self.new).faults ≡ (memory_state self.old).faults }
        ensures synced { (i : ℕ) → synced_byte self.new i ≡ synced_byte self.old i }
    {
        self.plan.fail_at(calls);
    }

    /// Makes every call from that one on fail.
    pub fn fail_from(&mut self, call: u64)
        ensures plan { memory_plan self.new ≡ record (memory_plan self.old) { from = call } }
        ensures untouched { Untouched (memory_state self.old) (memory_state self.new) }
        ensures faults { (memory_state self.new).faults ≡ (memory_state self.old).faults }
        ensures synced { (i : ℕ) → synced_byte self.new i ≡ synced_byte self.old i }
    {
        self.plan.fail_from(call);
    }

    /// One of the images that a crash now may leave: by 0 that of the last successful sync, with zeros past the size
    /// of then; by 1 that of reads; by any other number that of reads with bytes drawn from the number where a byte is
    /// pending.
    pub fn crash(&self, pick: u64) -> Result<Vec<u8>, Memory>
        ensures picked { IfOk result (λ image. Picks self.now pick image.items) }
        ensures allowed { IfOk result (λ image. (memory_state self.now).may_leave image.items) }
    {
        match pick {
            0 => as_synced(self.alloc, &self.bytes, &self.events),
            1 => Ok(self.bytes.as_slice().to_vec(self.alloc)?),
            _ => drawn(self.alloc, &self.bytes, &self.events, pick),
        }
    }
}

impl Disk for MemoryDisk {
    ghost use Rattle.vdisk.specs.MemoryDisk.{memory_state, memory_plan, synced_byte};
    ghost use Rattle.vdisk.specs.Causes.{HasCause};
    ghost use Rattle.vdisk.specs.Disk.{ChangedWithin, GrownTo, Holds, Follows, Only, Elapses, Untouched, RefusedAtTheEnd, zeros};
    ghost use Rattle.vdisk.specs.Faults.{FailsNext, Tried};
    ghost use Rattle.vdisk.specs.Past.{put};

    ghost state = { λ m. memory_state m };

    ghost is_same = { λ a b. Unit {0} };

    ghost same_self = { λ d. tt };

    ghost same_next = { λ a b c one two. tt };

    fn size(&self) -> u64 {
        self.bytes.len() as u64
    }

    fn moment(&self) -> u64 {
        self.moment
    }

    fn grow(&mut self, to: u64) -> Result<(), Failed>
        requires { length (memory_state self.old).image ≤ to }
        ensures grown { OnOk result (length (memory_state self.new).image ≡ to) }
        ensures zeros { OnOk result ((memory_state self.new).image
            ≡ (memory_state self.old).image ++ zeros (to - length (memory_state self.old).image)) }
        ensures image { GrownTo to (memory_state self.old).image (memory_state self.new).image }
        ensures crash { Follows (GrownTo to) (memory_state self.old).may_leave (memory_state self.new).may_leave }
        ensures time { Elapses (memory_state self.old) (memory_state self.new) }
        ensures end { RefusedAtTheEnd (memory_state self.old) result }
        ensures same { Unit {0} }
        ensures cause { HasCause (memory_state self.old).faults (memory_state self.new).faults result }
        ensures plan { Tried (memory_plan self.old) (memory_plan self.new) }
        ensures fails { FailsNext (memory_plan self.old) → IsErr result }
        ensures synced { (i : ℕ) → synced_byte self.new i ≡ synced_byte self.old i }
        ensures refused { OnErr result ((memory_state self.new).image ≡ (memory_state self.old).image) }
        ensures any_end { OnOk result ((d c : List ℕ) → (memory_state self.old).may_leave d → GrownTo to d c
            → length c ≡ to → (memory_state self.new).may_leave c) }
    {
        let fails = self.plan.next_fails();
        if self.moment == u64::MAX {
            return Err(count_fault(&mut self.faults));
        }
        let stamp = self.moment;
        self.moment += 1;
        if fails {
            return Err(count_fault(&mut self.faults));
        }
        match grow_to(&mut self.bytes, &mut self.events, stamp, to as usize) {
            Ok(()) => Ok(()),
            Err(_) => Err(count_fault(&mut self.faults)),
        }
    }

    fn read(&mut self, at: u64, out: &mut [u8]) -> Result<(), Failed>
        requires { at + length out.old ≤ length (memory_state self.old).image }
        ensures bytes { OnOk result (out.new ≡ take (length out.old) (drop at (memory_state self.old).image)) }
        ensures untouched { Untouched (memory_state self.old) (memory_state self.new) }
        ensures same { Unit {0} }
        ensures cause { HasCause (memory_state self.old).faults (memory_state self.new).faults result }
        ensures plan { Tried (memory_plan self.old) (memory_plan self.new) }
        ensures end { RefusedAtTheEnd (memory_state self.old) result }
        ensures fails { IsErr result
            ↔ (FailsNext (memory_plan self.old) ⊎ ((memory_state self.old).moment ≡ 2 ^ 64 - 1)) }
        ensures synced { (i : ℕ) → synced_byte self.new i ≡ synced_byte self.old i }
    {
        let fails = self.plan.next_fails();
        if fails || self.moment == u64::MAX {
            return Err(count_fault(&mut self.faults));
        }
        let from = at as usize;
        out.copy_from_slice(&self.bytes[from..from + out.len()]);
        Ok(())
    }

    fn write(&mut self, at: u64, bytes: &[u8]) -> Result<(), Failed>
        requires { at + length bytes.now ≤ length (memory_state self.old).image }
        ensures written { OnOk result (Holds (memory_state self.old).image at bytes.now (memory_state self.new).image) }
        ensures image { ChangedWithin at (length bytes.now) (memory_state self.old).image
            (memory_state self.new).image }
        ensures crash { Follows (ChangedWithin at (length bytes.now)) (memory_state self.old).may_leave
            (memory_state self.new).may_leave }
        ensures time { Elapses (memory_state self.old) (memory_state self.new) }
        ensures end { RefusedAtTheEnd (memory_state self.old) result }
        ensures same { Unit {0} }
        ensures cause { HasCause (memory_state self.old).faults (memory_state self.new).faults result }
        ensures plan { Tried (memory_plan self.old) (memory_plan self.new) }
        ensures fails { FailsNext (memory_plan self.old) → IsErr result }
        ensures synced { (i : ℕ) → synced_byte self.new i ≡ synced_byte self.old i }
        ensures half { FailsNext (memory_plan self.old) →
            ((memory_state self.new).image
            ≡ put (memory_state self.old).image at (take (length bytes.now / 2) bytes.now))
            ⊎ ((memory_state self.new).image ≡ (memory_state self.old).image) }
        ensures memory { ¬ (FailsNext (memory_plan self.old)) →
            OnErr result ((memory_state self.new).image ≡ (memory_state self.old).image) }
        ensures any_bytes { OnOk result ((d c : List ℕ) → (memory_state self.old).may_leave d →
            ChangedWithin at (length bytes.now) d c → (memory_state self.new).may_leave c) }
        ensures torn { OnErr result (((d c : List ℕ) → (memory_state self.old).may_leave d →
            ChangedWithin at (length bytes.now) d c → (memory_state self.new).may_leave c)
            ⊎ ((c : List ℕ) → (memory_state self.old).may_leave c → (memory_state self.new).may_leave c)) }
    {
        let fails = self.plan.next_fails();
        if self.moment == u64::MAX {
            return Err(count_fault(&mut self.faults));
        }
        let stamp = self.moment;
        self.moment += 1;
        let kept = part_kept(bytes.len(), fails);
        match write_at(
            self.alloc,
            &mut self.bytes,
            &mut self.events,
            stamp,
            at,
            bytes,
            kept,
        ) {
            Ok(()) if fails => Err(count_fault(&mut self.faults)),
            Ok(()) => Ok(()),
            Err(_) => Err(count_fault(&mut self.faults)),
        }
    }

    fn sync(&mut self) -> Result<(), Failed>
        ensures durable { OnOk result (Only (memory_state self.old).image (memory_state self.new).may_leave) }
        ensures image { (memory_state self.new).image ≡ (memory_state self.old).image }
        ensures crash { (c : List ℕ) → (memory_state self.new).may_leave c → (memory_state self.old).may_leave c }
        ensures time { Elapses (memory_state self.old) (memory_state self.new) }
        ensures end { RefusedAtTheEnd (memory_state self.old) result }
        ensures same { Unit {0} }
        ensures cause { HasCause (memory_state self.old).faults (memory_state self.new).faults result }
        ensures plan { Tried (memory_plan self.old) (memory_plan self.new) }
        ensures fails { FailsNext (memory_plan self.old) → IsErr result }
        ensures synced { OnOk result ((i : ℕ) → synced_byte self.new i ≡ get_or (memory_state self.old).image i 0) }
        ensures unsynced { OnErr result ((i : ℕ) → synced_byte self.new i ≡ synced_byte self.old i) }
        ensures refused { OnErr result ((c : List ℕ) → (memory_state self.old).may_leave c
            → (memory_state self.new).may_leave c) }
    {
        let fails = self.plan.next_fails();
        if self.moment == u64::MAX {
            return Err(count_fault(&mut self.faults));
        }
        let stamp = self.moment;
        self.moment += 1;
        if fails {
            return Err(count_fault(&mut self.faults));
        }
        let event = Event {
            stamp,
            change: Change::Synced,
        };
        match push_event(&mut self.events, event) {
            Ok(()) => Ok(()),
            Err(_) => Err(count_fault(&mut self.faults)),
        }
    }
}
