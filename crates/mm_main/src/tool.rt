//! The top call.

ghost use Rattle.std.specs.Prelude.{◌≡◌, [], ◌∷◌, map, string_bytes};
ghost use Rattle.mm_outside.specs.Fault.{Rose};
ghost use Rattle.mm_main.specs.Top.{IsAmong, Plays, Dumps, SaysUsage, OnlyAdds};
ghost use Rattle.mm_main.specs.Words.{IsPlay, IsDump, IsAnyCommand};

use crate::dump::dump_main;
use crate::output::say;
use crate::play::play_main;
use crate::status::Status;
use crate::text::usage;
use crate::words::is_command;
use mm_outside::{Disk, Sink, Source};
use std::alloc::Global;

/// Does what the program's words say, over any disk, source and sink. The words are those behind the program's name.
///
/// `play FOLDER` reads a script from the source and inserts its documents into one collection of a disk that has no file yet.
/// `dump FOLDER` says what the disk's data file holds, or what is first wrong with it, and changes nothing.
/// The answer is the status with which the process is to end; the text goes to the sink.
pub fn tool_main<D: Disk, S: Source, K: Sink>(
    alloc: Global,
    words: &[String],
    source: &mut S,
    sink: &mut K,
    disk: &mut D,
) -> Status
    // The words decide which of the three it is.
    ensures plays { IsPlay (map string_bytes words.now) → Plays result (S.coming source.old) (D.told disk.old) (D.told disk.new) (K.taken sink.old) (K.taken sink.new) }
    ensures dumps { IsDump (map string_bytes words.now) → Dumps result (D.told disk.old) (K.taken sink.old) (K.taken sink.new) }
    ensures usage { (IsAnyCommand (map string_bytes words.now) → ⊥) → SaysUsage result (K.taken sink.old) (K.taken sink.new) }

    // Each of the statuses 4, 5 and 6 has its cause: that object's count of faults rose in this call.
    ensures disk_fault { result ≡ Status.DiskFault → Rose (D.faults disk.old) (D.faults disk.new) }
    ensures source_fault { result ≡ Status.SourceFault → Rose (S.faults source.old) (S.faults source.new) }
    ensures sink_fault { result ≡ Status.SinkFault → Rose (K.faults sink.old) (K.faults sink.new) }

    // Where the words or the script are refused the disk is the very one that it was: it has had no call. `dump` asks it for no
    // change, and reads no script.
    ensures unasked { IsAmong result (Status.Usage ∷ Status.ScriptRefused ∷ Status.SourceFault ∷ []) → disk.new ≡ disk.old }
    ensures dump_asks_nothing { IsDump (map string_bytes words.now) → D.moment disk.new ≡ D.moment disk.old }
    ensures dump_told { IsDump (map string_bytes words.now) → D.told disk.new ≡ D.told disk.old }
    ensures dump_reads_nothing { IsDump (map string_bytes words.now) → source.new ≡ source.old }
    ensures adds { OnlyAdds (K.taken sink.old) (K.taken sink.new) }
{
    if is_command(words, "play") {
        return play_main(alloc, source, sink, disk);
    }
    if is_command(words, "dump") {
        return dump_main(alloc, sink, disk);
    }
    say(sink, usage().as_bytes(), Status::Usage)
}
