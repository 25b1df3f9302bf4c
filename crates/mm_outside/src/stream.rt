ghost use Rattle.std.specs.Prelude.{◌≡◌, ◌<◌, ◌≤◌, ◌++◌, ℕ, List, [], length, take, drop, Option, Some, IfOk, OnErr};
ghost use Rattle.mm_outside.specs.Fault.{HasCauseAtAll};
ghost use Rattle.mm_outside.specs.Stream.{Reads, Takes};

use thiserror::Error;

/// A source failed. Its count of faults rose.
#[derive(Clone, Copy, Debug, PartialEq, Eq, Error)]
#[error("the source failed")]
pub struct SourceFault;

/// A sink failed. Its count of faults rose.
#[derive(Clone, Copy, Debug, PartialEq, Eq, Error)]
#[error("the sink failed")]
pub struct SinkFault;

/// Bytes that come in, one after another.
pub trait Source {
    /// The bytes that are still to come, where it tells.
    ghost coming: { Self → Option (List ℕ) };

    /// How often it has failed. It stands at 2^64 - 1 at the end.
    ghost faults: { Self → ℕ };

    /// Takes some of the bytes to come, puts them at the front of `out` and says how many. 0 is the end. It takes no
    /// memory. After a fault the bytes to come stay, so that the read may be made again; `out` may hold anything.
    fn read(&mut self, out: &mut [u8]) -> Result<usize, SourceFault>
        requires { 0 < length out.old }
        ensures count { IfOk result (λ n. n ≤ length out.old) }
        ensures bytes { IfOk result (λ n. Reads n out.old out.new (coming self.old) (coming self.new)) }
        ensures err { OnErr result (coming self.new ≡ coming self.old) }
        ensures cause { HasCauseAtAll (faults self.old) (faults self.new) result };
}

/// Where bytes go, one after another.
pub trait Sink {
    /// The bytes that it took, where it tells.
    ghost taken: { Self → Option (List ℕ) };

    /// How often it has failed. It stands at 2^64 - 1 at the end.
    ghost faults: { Self → ℕ };

    /// Takes the first of the bytes, or more of them, or all, and says how many. It takes no memory. After a fault
    /// it has taken none of them.
    fn write(&mut self, bytes: &[u8]) -> Result<usize, SinkFault>
        requires { 0 < length bytes.now }
        ensures some { IfOk result (λ n. 0 < n) }
        ensures count { IfOk result (λ n. n ≤ length bytes.now) }
        ensures bytes { IfOk result (λ n. Takes n bytes.now (taken self.old) (taken self.new)) }
        ensures err { OnErr result (taken self.new ≡ taken self.old) }
        ensures cause { HasCauseAtAll (faults self.old) (faults self.new) result };
}

impl<S: Source> Source for &mut S {
    ghost coming = { λ source. S.coming source.now };

    ghost faults = { λ source. S.faults source.now };

    fn read(&mut self, out: &mut [u8]) -> Result<usize, SourceFault> {
        (**self).read(out)
    }
}

impl<K: Sink> Sink for &mut K {
    ghost taken = { λ sink. K.taken sink.now };

    ghost faults = { λ sink. K.faults sink.now };

    fn write(&mut self, bytes: &[u8]) -> Result<usize, SinkFault> {
        (**self).write(bytes)
    }
}
