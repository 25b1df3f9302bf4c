ghost use Rattle.std.specs.Prelude.{◌≡◌, ◌≤◌, ◌<◌, ◌+◌, ◌-◌, ◌^◌, ◌⊎◌, Some, [], length, min, vec_len, vec_capacity, IfOk, IsErr, OnErr, Contains};
ghost use Rattle.mm_outside.specs.Fault.{HasCauseAtAll};
ghost use Rattle.mm_outside.specs.Stream.{Takes};
ghost use Rattle.mm_memdisk.specs.Fails.{one_more, faults_after_any};

use crate::plan::Plan;
use mm_outside::{Sink, SinkFault};
use std::alloc::Global;

/// Keeps the bytes that are written, and tells them all. It fails as it was told, and where it finds no memory to
/// keep bytes in.
#[derive(Drop)]
pub struct MemSink {
    bytes: Vec<u8>,
    most: usize,
    plan: Plan,
    ghost takes: { 0 < most },
}

impl MemSink {
    ghost use Rattle.mm_memdisk.specs.Streams.{taken_by, write_faults, writes_to_fail, writes_made, write_limit};

    /// Nothing is taken yet. The writes with the numbers of `fail`, counted from 1, are to fail. It takes no memory.
    pub fn new(alloc: Global, fail: Vec<u64>) -> MemSink
        ensures taken { taken_by result ≡ Some [] }
        ensures faults { write_faults result ≡ 0 }
        ensures failing { writes_to_fail result ≡ fail.items }
        ensures made { writes_made result ≡ 0 }
        ensures limit { write_limit result ≡ usize.MAX }
    {
        MemSink {
            bytes: Vec::new(alloc),
            most: usize::MAX,
            plan: Plan::new(fail),
        }
    }

    /// From now on a write takes at most so many bytes.
    pub fn limit_writes(&mut self, most: usize)
        requires { 0 < most }
        ensures taken { taken_by self.new ≡ taken_by self.old }
        ensures faults { write_faults self.new ≡ write_faults self.old }
        ensures failing { writes_to_fail self.new ≡ writes_to_fail self.old }
        ensures made { writes_made self.new ≡ writes_made self.old }
        ensures limit { write_limit self.new ≡ most }
    {
        self.most = most;
    }

    /// The bytes that were taken, all in order.
    pub fn taken(&self) -> &[u8]
        ensures { taken_by self.now ≡ Some result.now }
    {
        &self.bytes
    }

    /// How many writes were made. It stands at 2^64 - 1 at the end.
    pub fn writes_made(&self) -> u64
        ensures { result ≡ writes_made self.now }
    {
        self.plan.calls
    }
}

impl Sink for MemSink {
    ghost use Rattle.mm_memdisk.specs.Streams.{taken_by, write_faults, writes_to_fail, writes_made, write_limit, taken_len, room_of, CountsWrite};

    ghost taken = { taken_by };

    ghost faults = { write_faults };

    fn write(&mut self, bytes: &[u8]) -> Result<usize, SinkFault>
        requires { 0 < length bytes.now }
        ensures some { IfOk result (λ n. 0 < n) }
        ensures count { IfOk result (λ n. n ≤ length bytes.now) }
        ensures bytes { IfOk result (λ n. Takes n bytes.now (taken_by self.old) (taken_by self.new)) }
        ensures err { OnErr result (taken_by self.new ≡ taken_by self.old) }
        ensures cause { HasCauseAtAll (write_faults self.old) (write_faults self.new) result }

        // It fails where it was told to, and else only where its room is used up. It takes as many bytes as it may.
        ensures as_told { Contains (writes_to_fail self.old) (one_more (writes_made self.old)) → IsErr result }
        ensures only { IsErr result → Contains (writes_to_fail self.old) (one_more (writes_made self.old))
            ⊎ (room_of self.old < taken_len self.old + min (length bytes.now) (write_limit self.old)) }
        ensures exact { IfOk result (λ n. n ≡ min (length bytes.now) (write_limit self.old)) }
        ensures faults { write_faults self.new ≡ faults_after_any result (write_faults self.old) }
        ensures call { CountsWrite self.old self.new }
    {
        if self.plan.count_call() {
            self.plan.count_fault();
            return Err(SinkFault);
        }
        let count = bytes.len().min(self.most);
        if self.bytes.extend_from_slice(&bytes[..count]).is_err() {
            self.plan.count_fault();
            return Err(SinkFault);
        }
        Ok(count)
    }
}
