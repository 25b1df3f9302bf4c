ghost use Rattle.std.specs.Prelude.{◌≡◌, ◌<◌, ◌≤◌, ◌-◌, ◌^◌, Ok, Err, None, IfOk, OnOk, IfErr, IsErrOf, IsSorted, string_bytes};
ghost use Rattle.std.proofs.lemmas.Option.{none-some};
ghost use Rattle.mm_host.specs.Names.{IsFileName, path_below, root_of};
ghost use Rattle.mm_outside.specs.Fault.{Rose, HasCause};
ghost use Rattle.mm_outside.specs.Told.{Counts};
ghost use Rattle.mm_outside.specs.declared.disk.Device.TheVariants.{Fault};

use crate::faults::FaultCount;
use crate::files;
use crate::names::is_file_name;
use mm_outside::{Device, Disk};
use std::alloc::AllocError;
use std::io::{self, ErrorKind};
use std::rt::Files;

/// The files of a folder and, as `journal/NAME`, those of its subfolder `journal`.
///
/// - A folder or a subfolder that is missing holds no files. `create` makes both, but no folder above them.
/// - A creation and a removal are durable when the call returns: the folders have then been synced, those of a creation
///   up to that which holds the disk's own, whoever made them. So that one has to be there, and to be readable.
/// - A name is one part of a path, or `journal/` and one part. At any other, as at one with `..` in it, each call
///   answers `Fault`, and asks the system nothing. A changing call with such a name counts as begun, as at every fault.
/// - A link stands for what it leads to, and a removal takes the link itself. What is no regular file, as a folder, a
///   device or a FIFO, is not among the names and has no length. A call that would read, make, change or remove it answers
///   `Fault`, and opens nothing. So does one at a link that leads nowhere.
/// - A name in the folder that isn't UTF-8 can't be told, so `names` answers `Fault`.
/// - Each error of the system is a fault, an interrupted read or write too. An absent file, where `Disk` says that it is
///   none, is not. After a fault within `write_at` some of the bytes may have been written.
/// - No file stays open between two calls, and a read or a write of any length is one call of the system where the system
///   does it whole.
#[derive(Drop)]
pub struct FolderDisk<R: Files + AllocGlobal + Clone + Drop> {
    rt: R,
    folder: String,
    begun: u64,
    fault_count: FaultCount,
}

impl<R: Files + AllocGlobal + Clone + Drop> FolderDisk<R> {
    /// The disk of a folder, which needn't be there. An empty text is the folder in which the process runs.
    pub fn new(rt: R, folder: String) -> FolderDisk<R>
        ensures silent { ⟦<FolderDisk<R> as Disk>⟧.told result ≡ None }
        ensures moment { ⟦<FolderDisk<R> as Disk>⟧.moment result ≡ 0 }
        ensures faults { ⟦<FolderDisk<R> as Disk>⟧.faults result ≡ 0 }
    {
        FolderDisk {
            rt,
            folder,
            begun: 0,
            fault_count: FaultCount::new(),
        }
    }

    fn root(&self) -> &str
        ensures { result.now ≡ root_of (string_bytes self.now.folder) }
    {
        if self.folder.is_empty() {
            "."
        } else {
            self.folder.as_str()
        }
    }

    fn below_root(&self, name: &str) -> Result<String, AllocError>
        ensures { IfOk result (λ path. string_bytes path ≡ path_below (root_of (string_bytes self.now.folder)) name.now) }
    {
        let root = self.root();
        format!(in self.rt.alloc(); "{root}/{name}")
    }

    // The path of a file that is to be read. A name that would reach out of the folder is a fault.
    fn path(&mut self, name: &str) -> Result<String, Device>
        ensures name { OnOk result (IsFileName name.now) }
        ensures refused { IsErrOf result Fault → ¬ IsFileName name.now }
        ensures path { IfOk result (λ path. string_bytes path ≡ path_below (root_of (string_bytes self.old.folder)) name.now) }
        ensures begun { self.new.begun ≡ self.old.begun }
        ensures cause { HasCause Fault self.old.fault_count.count self.new.fault_count.count result }
    {
        if !is_file_name(name) {
            return Err(self.fault());
        }
        Ok(self.below_root(name)?)
    }

    // A changing call begins, at the path of its file. Such a name is a fault here too, and so is a call past those that
    // can be counted.
    fn begin(&mut self, name: &str) -> Result<String, Device>
        ensures name { OnOk result (IsFileName name.now) }
        ensures refused { IsErrOf result Fault → self.old.begun < 2 ^ 64 - 1 → ¬ IsFileName name.now }
        ensures path { IfOk result (λ path. string_bytes path ≡ path_below (root_of (string_bytes self.old.folder)) name.now) }
        ensures moment { Counts self.old.begun self.new.begun result }
        ensures cause { HasCause Fault self.old.fault_count.count self.new.fault_count.count result }
    {
        let path = self.below_root(name)?;
        if self.begun == u64::MAX {
            return Err(self.fault());
        }
        self.begun += 1;
        if is_file_name(name) {
            Ok(path)
        } else {
            Err(self.fault())
        }
    }

    fn fault(&mut self) -> Device
        ensures fault { result ≡ Fault }
        ensures rose { Rose self.old.fault_count.count self.new.fault_count.count }
        ensures later { self.old.fault_count.count ≤ self.new.fault_count.count }
        ensures begun { self.new.begun ≡ self.old.begun }
    {
        self.fault_count.rise();
        Device::Fault
    }

    // What the system answered. Its error is a fault.
    fn answer<T>(&mut self, answer: io::Result<T>) -> Result<T, Device>
        ensures value { IfOk answer (λ value. result ≡ Ok value) }
        ensures no_fault { IfOk answer (λ _. self.new.fault_count ≡ self.old.fault_count) }
        ensures fault { IfErr answer (λ _. result ≡ Err Fault) }
        ensures cause { HasCause Fault self.old.fault_count.count self.new.fault_count.count result }
        ensures begun { self.new.begun ≡ self.old.begun }
    {
        match answer {
            Ok(value) => Ok(value),
            Err(_) => Err(self.fault()),
        }
    }

    // All names, in byte order.
    fn listed(&self) -> io::Result<Vec<String>>
        ensures { IfOk result (λ names. IsSorted ⟦<String as Ord>⟧.cmp names.items) }
    {
        let mut names = Vec::new(self.rt.alloc());
        files::list(&self.rt, self.root(), "", &mut names)?;
        let journal = self.below_root("journal")?;
        files::list(&self.rt, journal.as_str(), "journal/", &mut names)?;
        names.sort()?;
        Ok(names)
    }
}

impl<R: Files + AllocGlobal + Clone + Drop> Disk for FolderDisk<R> {
    ghost told = { λ d. None };

    ghost moment = { λ d. d.begun };

    ghost faults = { λ d. d.fault_count.count };

    ghost counts = { λ d t is. absurd (none-some t is) };

    fn names(&mut self, out: &mut Vec<String>) -> Result<(), Device> {
        let listed = self.listed();
        match listed {
            Ok(mut names) => Ok(out.append(&mut names)?),
            Err(e) if e.kind() == ErrorKind::OutOfMemory => Err(Device::NoMemory),
            Err(_) => Err(self.fault()),
        }
    }

    fn len(&mut self, name: &str) -> Result<Option<u64>, Device> {
        let path = self.path(name)?;
        let len = files::len_of(&self.rt, path.as_str());
        self.answer(len)
    }

    fn read_at(&mut self, name: &str, at: u64, out: &mut [u8]) -> Result<usize, Device> {
        let path = self.path(name)?;
        let count = files::read_at(&self.rt, path.as_str(), at, out);
        self.answer(count)
    }

    fn create(&mut self, name: &str) -> Result<(), Device> {
        let above = self.below_root("..")?;
        let path = self.begin(name)?;
        let made = files::create(&self.rt, above.as_str(), self.root(), path.as_str());
        self.answer(made)
    }

    fn write_at(&mut self, name: &str, at: u64, bytes: &[u8]) -> Result<(), Device> {
        let path = self.begin(name)?;
        let written = files::write_at(&self.rt, path.as_str(), at, bytes);
        self.answer(written)
    }

    fn set_len(&mut self, name: &str, len: u64) -> Result<(), Device> {
        let path = self.begin(name)?;
        let resized = files::set_len(&self.rt, path.as_str(), len);
        self.answer(resized)
    }

    fn sync(&mut self, name: &str) -> Result<(), Device> {
        let path = self.begin(name)?;
        let synced = files::sync(&self.rt, path.as_str());
        self.answer(synced)
    }

    fn remove(&mut self, name: &str) -> Result<(), Device> {
        let path = self.begin(name)?;
        let removed = files::remove(&self.rt, path.as_str());
        self.answer(removed)
    }

    fn moment(&self) -> u64 {
        self.begun
    }
}
