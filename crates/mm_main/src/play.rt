// The command `play`: a script is read, its documents are stored, its lines are answered.
ghost use Rattle.std.specs.Prelude.{◌≡◌, ◌≤◌, [], ◌∷◌, map, IfOk, OnOk, string_bytes};
ghost use Rattle.mm_outside.specs.declared.disk.Device.TheVariants.{Fault};
ghost use Rattle.mm_outside.specs.Fault.{HasCause, Rose};
ghost use Rattle.mm_bson.specs.Spelling.{spelling};
ghost use Rattle.mm_main.specs.Answers.{reply_lines};
ghost use Rattle.mm_main.specs.Contents.{HoldsDocs};
ghost use Rattle.mm_main.specs.Ends.{ScriptEnds, PlayEnds, IsRefusal, IsUnasked, end_text, end_status};
ghost use Rattle.mm_main.specs.Inserts.{ArePlayed, collection_in as first_collection, docs_of};
ghost use Rattle.mm_main.specs.Live.{HasLive};
ghost use Rattle.mm_main.specs.Room.{replies_of, stored};
ghost use Rattle.mm_main.specs.Stored.{Stores, MayHaveBegun};
ghost use Rattle.mm_main.specs.Top.{IsAmong, Plays, OnlyAdds};

use crate::disk::{FILE_NAME, first_file, write_file};
use crate::input::{InputFault, read_all};
use crate::output::print;
use crate::script::{collection_in, read_script};
use crate::status::Status;
use crate::store::file_docs;
use crate::text::{disk_fault, no_memory, presence, refusal, replies_text, source_fault};
use mm_base::NoMemory;
use mm_model::Action;
use mm_outside::{Device, Disk, Sink, SinkFault, Source};
use mm_script::{LineWhat, ScriptFault};
use std::alloc::Global;

/// What playing came to, with what it says.
#[derive(Drop)]
pub enum End {
    Refused {
        line: u32,
        what: LineWhat,
        text: String,
    },
    Present {
        name: String,
        text: String,
    },
    Played {
        text: String,
    },
    SourceFailed,
    DiskFailed,
    NoMemory,
}

impl End {
    /// What it says.
    pub fn text(&self) -> &str
        ensures { result.now ≡ end_text self.now }
    {
        match self {
            End::Refused { text, .. } => text.as_str(),
            End::Present { text, .. } => text.as_str(),
            End::Played { text } => text.as_str(),
            End::SourceFailed => source_fault(),
            End::DiskFailed => disk_fault(),
            End::NoMemory => no_memory(),
        }
    }

    /// Its status, once that is said.
    pub fn status(&self) -> Status
        ensures { result ≡ end_status self.now }
    {
        match self {
            End::Refused { .. } => Status::ScriptRefused,
            End::Present { .. } => Status::FilesRefused,
            End::Played { .. } => Status::Done,
            End::SourceFailed => Status::SourceFault,
            End::DiskFailed => Status::DiskFault,
            End::NoMemory => Status::NoMemory,
        }
    }
}

// The file that stores a script's documents, and the replies to its lines.
#[derive(Drop)]
struct Prepared {
    file: Vec<u8>,
    text: String,
}

// Answers a script's lines.
fn prepare(alloc: Global, actions: &[Action]) -> Result<Prepared, NoMemory>
    requires { ArePlayed actions.now }
    ensures text { IfOk result (λ done. string_bytes done.text ≡ reply_lines actions.now (replies_of (docs_of actions.now))) }
    ensures holds { IfOk result (λ done. HoldsDocs (first_collection actions.now) (stored (docs_of actions.now)) done.file.items) }
    ensures live { IfOk result (λ done. HasLive done.file.items (map spelling (stored (docs_of actions.now)))) }
{
    let filed = file_docs(alloc, collection_in(actions), actions)?;
    let text = replies_text(alloc, actions, &filed.replies)?;
    Ok(Prepared {
        file: filed.file,
        text,
    })
}

// Stores a script's documents on a disk without files, and answers its lines.
fn store<D: Disk>(alloc: Global, actions: &[Action], disk: &mut D) -> Result<String, Device>
    requires { ArePlayed actions.now }
    ensures text { IfOk result (λ text. string_bytes text ≡ reply_lines actions.now (replies_of (docs_of actions.now))) }
    ensures stores { OnOk result (Stores (first_collection actions.now) (docs_of actions.now) (D.told disk.old) (D.told disk.new)) }
    ensures began { MayHaveBegun (D.told disk.old) (D.told disk.new) }
    ensures cause { HasCause Fault (D.faults disk.old) (D.faults disk.new) result }
{
    let done = match prepare(alloc, actions) {
        Ok(done) => done,
        Err(NoMemory) => return Err(Device::NoMemory),
    };
    write_file(disk, FILE_NAME, &done.file)?;
    Ok(done.text)
}

// Plays a script, unless a file is there.
fn play<D: Disk>(alloc: Global, actions: &[Action], disk: &mut D) -> End
    requires { ArePlayed actions.now }
    ensures ends { ScriptEnds actions.now (D.told disk.old) (D.told disk.new) result }
    ensures later { D.faults disk.old ≤ D.faults disk.new }
    ensures cause { result ≡ End.DiskFailed → Rose (D.faults disk.old) (D.faults disk.new) }
{
    match first_file(alloc, disk) {
        Ok(None) => {}
        Ok(Some(name)) => {
            return match presence(alloc, &name) {
                Ok(text) => End::Present { name, text },
                Err(NoMemory) => End::NoMemory,
            };
        }
        Err(Device::Fault) => return End::DiskFailed,
        Err(Device::NoMemory) => return End::NoMemory,
    }
    match store(alloc, actions, disk) {
        Ok(text) => End::Played { text },
        Err(Device::Fault) => End::DiskFailed,
        Err(Device::NoMemory) => End::NoMemory,
    }
}

// A script is refused.
fn refused(alloc: Global, line: u32, what: LineWhat) -> End
    ensures { IsRefusal line what result }
{
    match refusal(alloc, line, what) {
        Ok(text) => End::Refused { line, what, text },
        Err(NoMemory) => End::NoMemory,
    }
}

// Reads a script and plays it, but for the printing. What reads a script, and what refuses it, takes no disk.
fn play_script<D: Disk, S: Source>(alloc: Global, source: &mut S, disk: &mut D) -> End
    ensures ends { PlayEnds (S.coming source.old) (D.told disk.old) (D.told disk.new) result }
    ensures unasked { IsUnasked result disk.old disk.new }
    ensures disk_later { D.faults disk.old ≤ D.faults disk.new }
    ensures disk_cause { result ≡ End.DiskFailed → Rose (D.faults disk.old) (D.faults disk.new) }
    ensures source_later { S.faults source.old ≤ S.faults source.new }
    ensures source_cause { result ≡ End.SourceFailed → Rose (S.faults source.old) (S.faults source.new) }
{
    let bytes = match read_all(alloc, source) {
        Ok(bytes) => bytes,
        Err(InputFault::Source) => return End::SourceFailed,
        Err(InputFault::NoMemory) => return End::NoMemory,
    };
    match read_script(alloc, &bytes) {
        Ok(script) => play(alloc, script.actions(), disk),
        Err(ScriptFault::Line { number, what }) => refused(alloc, number, what),
        Err(ScriptFault::NoMemory) => End::NoMemory,
    }
}

/// Plays the script of the source on a disk that has no file yet, and says how it went.
pub fn play_main<D: Disk, S: Source, K: Sink>(
    alloc: Global,
    source: &mut S,
    sink: &mut K,
    disk: &mut D,
) -> Status
    ensures plays { Plays result (S.coming source.old) (D.told disk.old) (D.told disk.new) (K.taken sink.old) (K.taken sink.new) }
    ensures disk_fault { result ≡ Status.DiskFault → Rose (D.faults disk.old) (D.faults disk.new) }
    ensures source_fault { result ≡ Status.SourceFault → Rose (S.faults source.old) (S.faults source.new) }
    ensures sink_fault { result ≡ Status.SinkFault → Rose (K.faults sink.old) (K.faults sink.new) }
    ensures unasked { IsAmong result (Status.ScriptRefused ∷ Status.SourceFault ∷ []) → disk.new ≡ disk.old }
    ensures adds { OnlyAdds (K.taken sink.old) (K.taken sink.new) }
{
    let end = play_script(alloc, source, disk);
    match print(sink, end.text().as_bytes()) {
        Ok(()) => end.status(),
        Err(SinkFault) => Status::SinkFault,
    }
}
