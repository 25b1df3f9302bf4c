ghost use Rattle.std.specs.Prelude.{◌≡◌, None};
ghost use Rattle.mm_outside.specs.Fault.{HasCauseAtAll};

use crate::faults::FaultCount;
use mm_outside::{Sink, SinkFault, Source, SourceFault};
use std::io::Read;

/// Standard input. Each read is one call of the system, straight into the caller's bytes. Any error is a fault.
#[derive(Drop)]
pub struct StdinSource<R: Input + Drop> {
    reader: R::Reader,
    fault_count: FaultCount,
}

impl<R: Input + Drop> StdinSource<R> {
    pub fn new(rt: R) -> StdinSource<R>
        ensures silent { ⟦<StdinSource<R> as Source>⟧.coming result ≡ None }
        ensures faults { ⟦<StdinSource<R> as Source>⟧.faults result ≡ 0 }
    {
        StdinSource {
            reader: rt.reader(),
            fault_count: FaultCount::new(),
        }
    }
}

impl<R: Input + Drop> Source for StdinSource<R> {
    ghost coming = { λ _. None };

    ghost faults = { λ s. s.fault_count.count };

    fn read(&mut self, out: &mut [u8]) -> Result<usize, SourceFault> {
        match self.reader.read(out) {
            Ok(count) => Ok(count),
            Err(_) => {
                self.fault_count.rise();
                Err(SourceFault)
            }
        }
    }
}

/// Standard output. Each write is one call of the system, and no buffer stands before it, so what is taken has been
/// written. An error and a write of no bytes are faults.
#[derive(Drop)]
pub struct StdoutSink<R: Print + Drop> {
    rt: R,
    fault_count: FaultCount,
}

impl<R: Print + Drop> StdoutSink<R> {
    pub fn new(rt: R) -> StdoutSink<R>
        ensures silent { ⟦<StdoutSink<R> as Sink>⟧.taken result ≡ None }
        ensures faults { ⟦<StdoutSink<R> as Sink>⟧.faults result ≡ 0 }
    {
        StdoutSink {
            rt,
            fault_count: FaultCount::new(),
        }
    }
}

impl<R: Print + Drop> Sink for StdoutSink<R> {
    ghost taken = { λ _. None };

    ghost faults = { λ s. s.fault_count.count };

    fn write(&mut self, bytes: &[u8]) -> Result<usize, SinkFault> {
        match self.rt.write_some(bytes) {
            Ok(count) if count > 0 => Ok(count),
            _ => {
                self.fault_count.rise();
                Err(SinkFault)
            }
        }
    }
}
