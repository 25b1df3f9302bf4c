// A sink that takes a text.
ghost use Rattle.std.specs.Prelude.{◌≡◌, ◌+◌, ◌≤◌, ◌⊎◌, OnOk, OnErr, IsErr};
ghost use Rattle.mm_outside.specs.Fault.{HasCauseAtAll, Rose};
ghost use Rattle.mm_main.specs.Streams.{Says, SaysSome};
ghost use Rattle.mm_main.specs.Top.{OnlyAdds};

use crate::status::Status;
use mm_outside::{Sink, SinkFault};

/// Hands the sink all of the text, in as many writes as it takes.
pub fn print<K: Sink>(sink: &mut K, text: &[u8]) -> Result<(), SinkFault>
    ensures all { OnOk result (Says text.now (K.taken sink.old) (K.taken sink.new)) }
    ensures some { SaysSome text.now (K.taken sink.old) (K.taken sink.new) }
    ensures cause { HasCauseAtAll (K.faults sink.old) (K.faults sink.new) result }
{
    let mut rest = text;
    'writes: while !rest.is_empty() {
        let n = sink.write(rest)?;
        rest = rest.split_at(n).1;
    }
    Ok(())
}

/// Says a text, and answers a status, or that the sink failed.
pub fn say<K: Sink>(sink: &mut K, text: &[u8], status: Status) -> Status
    ensures said { ((result ≡ status) × Says text.now (K.taken sink.old) (K.taken sink.new)) ⊎ ((result ≡ Status.SinkFault) × Rose (K.faults sink.old) (K.faults sink.new)) }
    ensures adds { OnlyAdds (K.taken sink.old) (K.taken sink.new) }
{
    match print(sink, text) {
        Ok(()) => status,
        Err(SinkFault) => Status::SinkFault,
    }
}
