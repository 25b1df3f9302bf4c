// A source that is read to its end.
ghost use Rattle.std.specs.Prelude.{◌≡◌, ◌+◌, ◌^◌, ◌<◌, ◌≤◌, length, IfOk, IsErrOf};
ghost use Rattle.mm_outside.specs.Fault.{Rose};
ghost use Rattle.mm_main.specs.Streams.{ReadsMore, ReadsUpTo};

use mm_outside::{Source, SourceFault};
use std::alloc::Global;

/// The most bytes of a script, and one more, which shows that it is too long.
pub const MOST_READ: usize = 67_108_865;

const CHUNK: usize = 65_536;

/// Why a source wasn't read.
#[derive(Clone, Copy)]
pub enum InputFault {
    Source,
    NoMemory,
}

// Reads once behind the bytes, at most so many. It answers how many came; 0 is the end.
fn read_more<S: Source>(
    source: &mut S,
    bytes: &mut Vec<u8>,
    room: usize,
) -> Result<usize, InputFault>
    requires some { 0 < room }
    requires fits { length bytes.old.items + room < 2 ^ 63 }
    ensures few { IfOk result (λ n. n ≤ room) }
    ensures len { IfOk result (λ n. length bytes.new.items ≡ length bytes.old.items + n) }
    ensures came { IfOk result (λ n. ReadsMore n bytes.old.items bytes.new.items (S.coming source.old) (S.coming source.new)) }
    ensures later { S.faults source.old ≤ S.faults source.new }
    ensures fault { IsErrOf result InputFault.Source → Rose (S.faults source.old) (S.faults source.new) }
{
    let had = bytes.len();
    if bytes.resize(had + room, 0).is_err() {
        return Err(InputFault::NoMemory);
    }
    match source.read(&mut bytes[had..]) {
        Ok(n) => {
            bytes.truncate(had + n);
            Ok(n)
        }
        Err(SourceFault) => Err(InputFault::Source),
    }
}

/// The bytes of the source, up to its end or to MOST_READ of them.
pub fn read_all<S: Source>(alloc: Global, source: &mut S) -> Result<Vec<u8>, InputFault>
    ensures short { IfOk result (λ bytes. length bytes.items ≤ MOST_READ) }
    ensures read { IfOk result (λ bytes. ReadsUpTo MOST_READ bytes.items (S.coming source.old) (S.coming source.new)) }
    ensures later { S.faults source.old ≤ S.faults source.new }
    ensures fault { IsErrOf result InputFault.Source → Rose (S.faults source.old) (S.faults source.new) }
{
    let mut bytes = Vec::new(alloc);
    'reads: while bytes.len() < MOST_READ {
        let room = CHUNK.min(MOST_READ - bytes.len());
        if read_more(source, &mut bytes, room)? == 0 {
            return Ok(bytes);
        }
    }
    Ok(bytes)
}
