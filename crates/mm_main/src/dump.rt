// The command `dump`: the data file is read back, and its documents, or what is first wrong in it, are said.
ghost use Rattle.std.specs.Prelude.{◌≡◌, map, IfOk, IsErrOf, string_bytes};
ghost use Rattle.std.specs.Option.{option_map};
ghost use Rattle.mm_outside.specs.declared.disk.Device.TheVariants.{Fault};
ghost use Rattle.mm_outside.specs.Fault.{HasCause, Rose};
ghost use Rattle.mm_outside.specs.Image.{bytes_at};
ghost use Rattle.mm_outside.specs.Told.{IfTold, image_of};
ghost use Rattle.mm_main.specs.Contents.{Shows};
ghost use Rattle.mm_main.specs.Dumps.{IsADump, DumpsFile, IsFirstStray, said_status, said_text};
ghost use Rattle.mm_main.specs.Findings.{IsFinding, IfFound};
ghost use Rattle.mm_main.specs.Stored.{file_name};
ghost use Rattle.mm_main.specs.Texts.{present_text};
ghost use Rattle.mm_main.specs.Top.{Dumps, OnlyAdds};

use crate::answers::FILE_LEN;
use crate::disk::{FILE_NAME, names_of, read_first};
use crate::finding::Unreadable;
use crate::output::say;
use crate::reading::read_file;
use crate::status::Status;
use crate::text::{disk_fault, docs_text, finding, no_memory, presence};
use mm_base::NoMemory;
use mm_outside::{Device, Disk, Sink};
use std::alloc::Global;

/// What a dump says.
#[derive(Drop)]
pub enum Said {
    /// The lines of the documents.
    Lines { text: Vec<u8> },
    /// What is wrong with the files.
    Refusal { text: String },
}

impl Said {
    /// What it says.
    pub fn text(&self) -> &[u8]
        ensures { result.now ≡ said_text self.now }
    {
        match self {
            Said::Lines { text } => text.as_slice(),
            Said::Refusal { text } => text.as_bytes(),
        }
    }

    /// Its status, once that is said.
    pub fn status(&self) -> Status
        ensures { result ≡ said_status self.now }
    {
        match self {
            Said::Lines { .. } => Status::Done,
            Said::Refusal { .. } => Status::FilesRefused,
        }
    }
}

// The lines of the documents that a data file holds, or what is first wrong in it.
fn lines_of(alloc: Global, file: &[u8]) -> Result<Vec<u8>, Unreadable>
    ensures shows { IfOk result (λ text. Shows file.now text.items) }
    ensures found { IfFound result (IsFinding file.now) }
{
    let found = match read_file(alloc, file) {
        Ok(found) => found,
        Err(fault) => return Err(fault),
    };
    let Some(contents) = found else {
        return Ok(Vec::new(alloc));
    };
    let text = docs_text(alloc, contents.namespace.bytes(), &contents.docs)?;
    Ok(text)
}

// What is said of a data file.
fn say_file(alloc: Global, file: &[u8]) -> Result<Said, NoMemory>
    ensures { IfOk result (λ said. DumpsFile file.now (said_status said) (said_text said)) }
{
    match lines_of(alloc, file) {
        Ok(text) => Ok(Said::Lines { text }),
        Err(Unreadable::Found(found)) => {
            let text = finding(alloc, &found)?;
            Ok(Said::Refusal { text })
        }
        Err(Unreadable::NoMemory) => Err(NoMemory),
    }
}

// Reads the data file, and says what it holds.
fn say_data_file<D: Disk>(alloc: Global, disk: &mut D) -> Result<Said, Device>
    ensures says { IfOk result (λ said. IfTold (D.told disk.old) (λ t. DumpsFile (bytes_at (image_of t) file_name) (said_status said) (said_text said))) }
    ensures told { D.told disk.new ≡ D.told disk.old }
    ensures moment { D.moment disk.new ≡ D.moment disk.old }
    ensures cause { HasCause Fault (D.faults disk.old) (D.faults disk.new) result }
{
    // one byte more than it should have shows that it is too long
    let file = read_first(alloc, disk, FILE_NAME, FILE_LEN + 1)?;
    match say_file(alloc, &file) {
        Ok(said) => Ok(said),
        Err(NoMemory) => Err(Device::NoMemory),
    }
}

// The first of the names that isn't the data file's.
fn first_stray(names: &[String]) -> Option<&str>
    ensures { IsFirstStray (option_map (λ name. name.now) result) (map string_bytes names.now) }
{
    for name in names {
        if name.as_str() != FILE_NAME {
            return Some(name.as_str());
        }
    }
    None
}

// What is said of a file that isn't the data file.
fn say_stray(alloc: Global, name: &str) -> Result<Said, Device>
    ensures said { IfOk result (λ said. (said_status said ≡ Status.FilesRefused) × (said_text said ≡ present_text name.now)) }
    ensures fault { IsErrOf result Device.Fault → ⊥ }
{
    match presence(alloc, name) {
        Ok(text) => Ok(Said::Refusal { text }),
        Err(NoMemory) => Err(Device::NoMemory),
    }
}

// What is said of the disk's files.
fn say_files<D: Disk>(alloc: Global, disk: &mut D) -> Result<Said, Device>
    ensures dumps { IfOk result (λ said. IfTold (D.told disk.old) (λ t. IsADump (image_of t) (said_status said) (said_text said))) }
    ensures told { D.told disk.new ≡ D.told disk.old }
    ensures moment { D.moment disk.new ≡ D.moment disk.old }
    ensures cause { HasCause Fault (D.faults disk.old) (D.faults disk.new) result }
{
    let names = names_of(alloc, disk)?;
    if names.is_empty() {
        let text = Vec::new(alloc);
        return Ok(Said::Lines { text });
    }
    if let Some(name) = first_stray(&names) {
        return say_stray(alloc, name);
    }
    say_data_file(alloc, disk)
}

/// Says what the disk's data file holds, or what is first wrong with the disk's files. It asks the disk for no change.
pub fn dump_main<D: Disk, K: Sink>(alloc: Global, sink: &mut K, disk: &mut D) -> Status
    ensures dumps { Dumps result (D.told disk.old) (K.taken sink.old) (K.taken sink.new) }
    ensures disk_fault { result ≡ Status.DiskFault → Rose (D.faults disk.old) (D.faults disk.new) }
    ensures sink_fault { result ≡ Status.SinkFault → Rose (K.faults sink.old) (K.faults sink.new) }
    ensures told { D.told disk.new ≡ D.told disk.old }
    ensures moment { D.moment disk.new ≡ D.moment disk.old }
    ensures adds { OnlyAdds (K.taken sink.old) (K.taken sink.new) }
{
    match say_files(alloc, disk) {
        Ok(said) => say(sink, said.text(), said.status()),
        Err(Device::Fault) => say(sink, disk_fault().as_bytes(), Status::DiskFault),
        Err(Device::NoMemory) => say(sink, no_memory().as_bytes(), Status::NoMemory),
    }
}
