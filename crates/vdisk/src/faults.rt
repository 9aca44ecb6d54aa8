// The calls that an object in memory is to fail.
ghost use Rattle.std.specs.Prelude.{◌≡◌, ◌↔◌, ◌≤◌, ◌-◌, ◌^◌, IsTrue, None, Some};
ghost use Rattle.vdisk.specs.Faults.{counted_on, FailsNext, Tried, IsUntried};

use crate::disk::Failed;

/// Calls are numbered from 1. The count stands still at its end, whose number always fails.
#[derive(Drop)]
pub struct FaultPlan {
    made: u64,
    from: u64,
    listed: Option<Vec<u64>>,
}

impl FaultPlan {
    /// No call was made, and none below the end is to fail.
    pub fn new() -> Self
        ensures { IsUntried result }
    {
        FaultPlan {
            made: 0,
            from: u64::MAX,
            listed: None,
        }
    }

    /// Lists the calls that are to fail, in place of those listed before.
    pub fn fail_at(&mut self, calls: Vec<u64>)
        ensures { self.new ≡ record self.old { listed = Some calls } }
    {
        self.listed = Some(calls);
    }

    /// Makes every call from that one on fail.
    pub fn fail_from(&mut self, call: u64)
        ensures { self.new ≡ record self.old { from = call } }
    {
        self.from = call;
    }

    /// Counts one more call, and says whether it is to fail.
    pub fn next_fails(&mut self) -> bool
        ensures count { Tried self.old self.new }
        ensures fails { IsTrue result ↔ FailsNext self.old }
    {
        self.made = self.made.saturating_add(1);
        if self.made >= self.from {
            return true;
        }
        match &self.listed {
            Some(calls) => calls.contains(&self.made),
            None => false,
        }
    }
}

/// Counts one more fault.
pub fn count_fault(faults: &mut u64) -> Failed
    ensures { faults.new ≡ counted_on faults.old }
{
    *faults = faults.saturating_add(1);
    Failed
}
