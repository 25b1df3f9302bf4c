ghost use Rattle.std.specs.Prelude.{◌≡◌, ◌≤◌, ◌<◌, ◌+◌, ◌↔◌, ◌-◌, ◌^◌, Some, drop, length, min, IfOk, IsErr, OnErr, Contains};
ghost use Rattle.mm_outside.specs.Fault.{HasCauseAtAll};
ghost use Rattle.mm_outside.specs.Stream.{Reads};
ghost use Rattle.mm_memdisk.specs.Fails.{one_more, faults_after_any};

use crate::plan::Plan;
use mm_outside::{Source, SourceFault};

/// Bytes in memory, to be read. It tells them all, and fails only as it was told.
#[derive(Drop)]
pub struct MemSource {
    bytes: Vec<u8>,
    at: usize,
    most: usize,
    plan: Plan,
    ghost inside: { at ≤ length bytes.items },
    ghost gives: { 0 < most },
}

impl MemSource {
    ghost use Rattle.mm_memdisk.specs.Streams.{coming_of, read_faults, reads_to_fail, reads_made, read_limit};

    /// These bytes are to come. The reads with the numbers of `fail`, counted from 1, are to fail. It takes no memory.
    pub fn new(bytes: Vec<u8>, fail: Vec<u64>) -> MemSource
        ensures coming { coming_of result ≡ Some bytes.items }
        ensures faults { read_faults result ≡ 0 }
        ensures failing { reads_to_fail result ≡ fail.items }
        ensures made { reads_made result ≡ 0 }
        ensures limit { read_limit result ≡ usize.MAX }
    {
        MemSource {
            bytes,
            at: 0,
            most: usize::MAX,
            plan: Plan::new(fail),
        }
    }

    /// From now on a read gives at most so many bytes.
    pub fn limit_reads(&mut self, most: usize)
        requires { 0 < most }
        ensures coming { coming_of self.new ≡ coming_of self.old }
        ensures faults { read_faults self.new ≡ read_faults self.old }
        ensures failing { reads_to_fail self.new ≡ reads_to_fail self.old }
        ensures made { reads_made self.new ≡ reads_made self.old }
        ensures limit { read_limit self.new ≡ most }
    {
        self.most = most;
    }

    /// How many reads were made. It stands at 2^64 - 1 at the end.
    pub fn reads_made(&self) -> u64
        ensures { result ≡ reads_made self.now }
    {
        self.plan.calls
    }
}

impl Source for MemSource {
    ghost use Rattle.mm_memdisk.specs.Streams.{coming_of, read_faults, reads_to_fail, reads_made, read_limit, bytes_left, CountsRead};

    ghost coming = { coming_of };

    ghost faults = { read_faults };

    fn read(&mut self, out: &mut [u8]) -> Result<usize, SourceFault>
        requires { 0 < length out.old }
        ensures count { IfOk result (λ n. n ≤ length out.old) }
        ensures bytes { IfOk result (λ n. Reads n out.old out.new (coming_of self.old) (coming_of self.new)) }
        ensures err { OnErr result (coming_of self.new ≡ coming_of self.old) }
        ensures cause { HasCauseAtAll (read_faults self.old) (read_faults self.new) result }

        // It fails exactly as it was told, and gives as many bytes as there are and as it may.
        ensures as_told { IsErr result ↔ Contains (reads_to_fail self.old) (one_more (reads_made self.old)) }
        ensures exact { IfOk result (λ n. n ≡ min (min (length out.old) (read_limit self.old)) (bytes_left self.old)) }
        ensures faults { read_faults self.new ≡ faults_after_any result (read_faults self.old) }
        ensures call { CountsRead self.old self.new }
    {
        if self.plan.count_call() {
            self.plan.count_fault();
            return Err(SourceFault);
        }
        let count = out.len().min(self.most).min(self.bytes.len() - self.at);
        out[..count].copy_from_slice(&self.bytes[self.at..self.at + count]);
        self.at += count;
        Ok(count)
    }
}
