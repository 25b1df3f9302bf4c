// Which calls of a stream are to fail, and the calls and faults so far.
ghost use Rattle.std.specs.Prelude.{◌≡◌, ◌≤◌, ◌↔◌, IsTrue, Contains};
ghost use Rattle.mm_memdisk.specs.Fails.{one_more};

/// The numbers of the calls that are to fail, counted from 1, and counts that stand at 2^64 - 1 at the end.
#[derive(Drop)]
pub struct Plan {
    pub failing: Vec<u64>,
    pub calls: u64,
    pub faults: u64,
}

impl Plan {
    /// No call and no fault so far.
    pub fn new(failing: Vec<u64>) -> Plan
        ensures { result ≡ record { failing = failing; calls = 0; faults = 0 } }
    {
        Plan {
            failing,
            calls: 0,
            faults: 0,
        }
    }

    /// Counts a call, and says whether it is to fail.
    pub fn count_call(&mut self) -> bool
        ensures calls { self.new.calls ≡ one_more self.old.calls }
        ensures faults { self.new.faults ≡ self.old.faults }
        ensures failing { self.new.failing ≡ self.old.failing }
        ensures fails { IsTrue result ↔ Contains self.old.failing.items (one_more self.old.calls) }
    {
        self.calls = self.calls.saturating_add(1);
        self.failing.contains(&self.calls)
    }

    /// Counts a fault.
    pub fn count_fault(&mut self)
        ensures faults { self.new.faults ≡ one_more self.old.faults }
        ensures later { self.old.faults ≤ self.new.faults }
        ensures calls { self.new.calls ≡ self.old.calls }
        ensures failing { self.new.failing ≡ self.old.failing }
    {
        self.faults = self.faults.saturating_add(1);
    }
}
