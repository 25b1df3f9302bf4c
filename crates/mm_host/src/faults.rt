ghost use Rattle.std.specs.Prelude.{◌≡◌, ◌+◌, ◌-◌, ◌≤◌, ◌^◌, min};
ghost use Rattle.mm_outside.specs.Fault.{Rose};

/// How often the system has failed. It stands at the last `u64` value once it has got there.
#[derive(Drop)]
pub(crate) struct FaultCount {
    count: u64,
}

impl FaultCount {
    pub(crate) fn new() -> FaultCount
        ensures { result.count ≡ 0 }
    {
        FaultCount { count: 0 }
    }

    pub(crate) fn rise(&mut self)
        ensures count { self.new.count ≡ min (self.old.count + 1) (2 ^ 64 - 1) }
        ensures rose { Rose self.old.count self.new.count }
        ensures later { self.old.count ≤ self.new.count }
    {
        self.count = self.count.saturating_add(1);
    }
}
