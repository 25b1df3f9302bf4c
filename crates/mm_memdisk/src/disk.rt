ghost use Rattle.std.specs.Prelude.{◌≡◌, ◌+◌, ◌-◌, ◌<◌, ◌≤◌, ◌^◌, ◌++◌, ◌↔◌, Some, Err, [], length, take, drop, min, map, IsTrue, IsOk, OnOk, OnErr, IfOk, Contains, string_bytes, ◌⊎◌, None};
ghost use Rattle.std.specs.Option.{option_map};
ghost use Rattle.std.specs.FinMap.{empty, get, keys};
ghost use Rattle.mm_outside.specs.declared.disk.Device.TheVariants.{Fault};
ghost use Rattle.mm_outside.specs.Fault.{HasCause};
ghost use Rattle.mm_bytes.specs.Files.{read_from};
ghost use Rattle.mm_outside.specs.Image.{bytes_at};
ghost use Rattle.mm_outside.specs.Told.{Told, MayLeave, Becomes, IfTold, Counts, image_after, image_of, told_after, called, Creates, Writes, Resizes, Syncs, Removes};
ghost use Rattle.mm_memdisk.specs.Files.{Reads, image_of_entries};
ghost use Rattle.mm_memdisk.specs.Calls.{calls_of, told_of, change_of, CanBegin, AreFit, counted};
ghost use Rattle.mm_memdisk.specs.Fails.{FailsAsTold, faults_after, one_more, is_stopped};

use crate::call::{self, Begun, Change};
use crate::crash::{Asked, leave};
use crate::files::{Files, copy_from, push_names};
use mm_base::NoMemory;
use mm_outside::{Device, Disk};
use std::alloc::{AllocError, Global};
use std::collections::BTreeMap;

/// A disk in memory. It tells all that it is asked, and fails only as it was told.
#[derive(Drop)]
pub struct MemDisk {
    alloc: Global,
    start: Files,
    files: Files,
    calls: Vec<Begun>,
    failing: Vec<u64>,
    fault_count: u64,
    made: u64,
    stop: Option<u64>,
    ghost reads: { Reads files (image_after (image_of_entries start.entries) (calls_of calls.items)) },
    ghost fit: { AreFit calls.items },
}

impl MemDisk {
    ghost use Rattle.mm_memdisk.specs.MemDisk.{tells, told_by, faults_counted, failing_of, stop_of, calls_made, Reading};

    /// A disk without files, of which no call is to fail. It takes no memory.
    pub fn new(alloc: Global) -> MemDisk
        ensures told { tells result ≡ Some (record { start = empty; calls = [] }) }
        ensures faults { faults_counted result ≡ 0 }
        ensures failing { failing_of result ≡ [] }
        ensures made { calls_made result ≡ 0 }
        ensures stop { stop_of result ≡ None }
    {
        MemDisk {
            alloc,
            start: BTreeMap::new(alloc),
            files: BTreeMap::new(alloc),
            calls: Vec::new(alloc),
            failing: Vec::new(alloc),
            fault_count: 0,
            made: 0,
            stop: None,
        }
    }

    /// The changing calls with these numbers, counted from 1 over all that begin, are to fail, in place of those that
    /// were to. A number that has passed does nothing. It takes no memory, and is no call of the disk.
    pub fn fail_at(&mut self, calls: Vec<u64>)
        ensures told { tells self.new ≡ tells self.old }
        ensures faults { faults_counted self.new ≡ faults_counted self.old }
        ensures failing { failing_of self.new ≡ calls.items }
        ensures made { calls_made self.new ≡ calls_made self.old }
        ensures stop { stop_of self.new ≡ stop_of self.old }
    {
        self.failing = calls;
    }

    /// The changing call with this number, counted from 1, is to fail, and every call after it. It takes no memory, and is
    /// no call of the disk.
    pub fn stop_at(&mut self, call: u64)
        ensures told { tells self.new ≡ tells self.old }
        ensures faults { faults_counted self.new ≡ faults_counted self.old }
        ensures failing { failing_of self.new ≡ failing_of self.old }
        ensures made { calls_made self.new ≡ calls_made self.old }
        ensures stop { stop_of self.new ≡ Some call }
    {
        self.stop = Some(call);
    }

    /// A disk that a crash now may leave, which has had no call, and of which none is to fail.
    ///
    /// Pick 0 leaves each file as it was at its last sync, or empty where it was made since; 1 leaves it with all that was
    /// written, stopped writes too. Any other pick seeds draws (see `Draws`), by files in byte order: of a length between the
    /// least and the greatest since the last sync, and then of each byte that was written since or lies past the least length.
    /// A creation and a removal that were stopped are done for an odd pick, and not for an even one.
    pub fn crash(&self, pick: u64) -> Result<MemDisk, NoMemory>
        ensures allowed { IfOk result (λ disk. MayLeave (told_by self.now).start (told_by self.now).calls (told_by disk).start) }
        ensures calls { IfOk result (λ disk. (told_by disk).calls ≡ []) }
        ensures faults { IfOk result (λ disk. faults_counted disk ≡ 0) }
        ensures failing { IfOk result (λ disk. failing_of disk ≡ []) }
        ensures made { IfOk result (λ disk. calls_made disk ≡ 0) }
        ensures stop { IfOk result (λ disk. stop_of disk ≡ None) }
    {
        let asked = Asked {
            start: &self.start,
            calls: &self.calls,
            pick,
        };
        let left = leave(self.alloc, &asked, &self.files)?;
        Ok(MemDisk {
            alloc: self.alloc,
            start: left.start,
            files: left.files,
            calls: Vec::new(self.alloc),
            failing: Vec::new(self.alloc),
            fault_count: 0,
            made: 0,
            stop: None,
        })
    }

    /// How many calls were made, reading ones too, and those that found no memory; `moment` and this are none. It
    /// stands at 2^64 - 1 at the end.
    pub fn calls_made(&self) -> u64
        ensures { result ≡ calls_made self.now }
    {
        self.made
    }

    /// The changing calls that have begun, the oldest first.
    pub fn calls(&self) -> &[Begun]
        ensures { calls_of result.now ≡ (told_by self.now).calls }
    {
        &self.calls
    }

    // Counts a call.
    fn count_call(&mut self)
        ensures { self.new ≡ record self.old { made = one_more self.old.made } }
    {
        self.made = self.made.saturating_add(1);
    }

    // Counts a fault.
    fn fault(&mut self) -> Device
        ensures fault { result ≡ Fault }
        ensures counted { self.new ≡ record self.old { fault_count = one_more self.old.fault_count } }
        ensures later { self.old.fault_count ≤ self.new.fault_count }
    {
        self.fault_count = self.fault_count.saturating_add(1);
        Device::Fault
    }

    // Counts a call that only reads, and says that it is to fail where the disk is stopped.
    fn count_reading(&mut self) -> Result<(), Device>
        ensures read { Reading self.old self.new result }
        ensures cause { HasCause Fault self.old.fault_count self.new.fault_count result }
    {
        self.count_call();
        if self.stops(self.calls.len() as u64) {
            return Err(self.fault());
        }
        Ok(())
    }

    // Whether the call with this number is to fail since the disk is stopped there, or before.
    fn stops(&self, number: u64) -> bool
        ensures { result ≡ is_stopped (stop_of self.now) number }
    {
        match self.stop {
            Some(call) => call <= number,
            None => false,
        }
    }

    // Whether the next changing call was told to fail.
    fn is_told(&self) -> bool
        ensures { IsTrue result ↔ Contains self.now.failing.items (length self.now.calls.items + 1) }
    {
        let begun = self.calls.len() as u64;
        self.failing.iter().any(|n| *n > begun && *n - 1 == begun)
    }

    // Begins a call, and does it unless it is to fail.
    fn begin(&mut self, name: &str, change: Change) -> Result<(), Device>
        requires { CanBegin change }
        ensures told { told_by self.new ≡ told_after name.now (change_of change) result (told_by self.old) }
        ensures moment { Counts (length self.old.calls.items) (length self.new.calls.items) result }
        ensures cause { HasCause Fault self.old.fault_count self.new.fault_count result }
        ensures as_told { FailsAsTold (failing_of self.old) (stop_of self.old) (length self.old.calls.items + 1) result }
        ensures faults { self.new.fault_count ≡ faults_after result self.old.fault_count }
        ensures made { self.new.made ≡ self.old.made }
        ensures failing { self.new.failing ≡ self.old.failing }
        ensures stop { self.new.stop ≡ self.old.stop }
    {
        let is_done = !(self.is_told() || self.stops(self.calls.len() as u64 + 1));
        self.keep(name, change, is_done)?;
        if is_done {
            return Ok(());
        }
        Err(self.fault())
    }

    // Keeps a call, and does it if it is to be done. Where memory is wanting, nothing has begun.
    fn keep(&mut self, name: &str, change: Change, is_done: bool) -> Result<(), AllocError>
        requires { CanBegin change }
        ensures told { OnOk result (told_by self.new ≡ called name.now (change_of change) is_done (told_by self.old)) }
        ensures moment { OnOk result (length self.new.calls.items ≡ length self.old.calls.items + 1) }
        ensures err { OnErr result (told_by self.new ≡ told_by self.old) }
        ensures moment_err { OnErr result (length self.new.calls.items ≡ length self.old.calls.items) }
        ensures faults { self.new.fault_count ≡ self.old.fault_count }
        ensures made { self.new.made ≡ self.old.made }
        ensures failing { self.new.failing ≡ self.old.failing }
        ensures stop { self.new.stop ≡ self.old.stop }
    {
        let name = String::from_str(self.alloc, name)?;
        let begun = Begun {
            name,
            change,
            is_done,
        };
        call::begin(self.alloc, &mut self.files, &mut self.calls, begun)
    }
}

impl Disk for MemDisk {
    ghost use Rattle.mm_memdisk.specs.MemDisk.{tells, moment_of, faults_counted, FollowsPlan, OnlyReads};

    ghost told = { tells };

    ghost moment = { moment_of };

    ghost faults = { faults_counted };

    ghost counts = { λ d t is. counted (image_of_entries d.start.entries) d.calls.items t is };

    fn names(&mut self, out: &mut Vec<String>) -> Result<(), Device>
        ensures names { OnOk result (IfTold (tells self.old) (λ t. map string_bytes out.new.items ≡ map string_bytes out.old.items ++ keys (image_of t))) }
        ensures err { OnErr result (out.new.items ≡ out.old.items) }
        ensures told { tells self.new ≡ tells self.old }
        ensures moment { moment_of self.new ≡ moment_of self.old }
        ensures cause { HasCause Fault (faults_counted self.old) (faults_counted self.new) result }
        ensures plan { OnlyReads self.old self.new result }
    {
        self.count_reading()?;
        Ok(push_names(self.alloc, &self.files, out)?)
    }

    fn len(&mut self, name: &str) -> Result<Option<u64>, Device>
        ensures len { IfOk result (λ len. IfTold (tells self.old) (λ t. len ≡ option_map length (get (image_of t) name.now))) }
        ensures told { tells self.new ≡ tells self.old }
        ensures moment { moment_of self.new ≡ moment_of self.old }
        ensures cause { HasCause Fault (faults_counted self.old) (faults_counted self.new) result }
        ensures plan { OnlyReads self.old self.new result }
    {
        self.count_reading()?;
        match self.files.get(name) {
            Some(bytes) => Ok(Some(bytes.len() as u64)),
            None => Ok(None),
        }
    }

    fn read_at(&mut self, name: &str, at: u64, out: &mut [u8]) -> Result<usize, Device>
        ensures count { IfOk result (λ n. n ≤ length out.old) }
        ensures filled { IfOk result (λ n. IfTold (tells self.old) (λ t. n ≡ min (length out.old) (length (bytes_at (image_of t) name.now) - at))) }
        ensures bytes { IfOk result (λ n. IfTold (tells self.old) (λ t. out.new ≡ read_from at n (bytes_at (image_of t) name.now) ++ drop n out.old)) }
        ensures told { tells self.new ≡ tells self.old }
        ensures moment { moment_of self.new ≡ moment_of self.old }
        ensures cause { HasCause Fault (faults_counted self.old) (faults_counted self.new) result }
        ensures plan { OnlyReads self.old self.new result }
    {
        self.count_reading()?;
        match self.files.get(name) {
            Some(bytes) => Ok(copy_from(bytes, at, out)),
            None => Ok(0),
        }
    }

    fn create(&mut self, name: &str) -> Result<(), Device>
        ensures told { Becomes (tells self.old) (tells self.new) (told_after name.now Creates result) }
        ensures moment { Counts (moment_of self.old) (moment_of self.new) result }
        ensures cause { HasCause Fault (faults_counted self.old) (faults_counted self.new) result }
        ensures plan { FollowsPlan self.old self.new result }
    {
        self.count_call();
        self.begin(name, Change::Create)
    }

    fn write_at(&mut self, name: &str, at: u64, bytes: &[u8]) -> Result<(), Device>
        requires { at + length bytes.now < 2 ^ 64 }
        ensures told { Becomes (tells self.old) (tells self.new) (told_after name.now (Writes at bytes.now) result) }
        ensures moment { Counts (moment_of self.old) (moment_of self.new) result }
        ensures cause { HasCause Fault (faults_counted self.old) (faults_counted self.new) result }
        ensures plan { FollowsPlan self.old self.new result }
    {
        self.count_call();
        let bytes = bytes.to_vec(self.alloc)?;
        self.begin(name, Change::WriteAt { at, bytes })
    }

    fn set_len(&mut self, name: &str, len: u64) -> Result<(), Device>
        ensures told { Becomes (tells self.old) (tells self.new) (told_after name.now (Resizes len) result) }
        ensures moment { Counts (moment_of self.old) (moment_of self.new) result }
        ensures cause { HasCause Fault (faults_counted self.old) (faults_counted self.new) result }
        ensures plan { FollowsPlan self.old self.new result }
    {
        self.count_call();
        self.begin(name, Change::SetLen { len })
    }

    fn sync(&mut self, name: &str) -> Result<(), Device>
        ensures told { Becomes (tells self.old) (tells self.new) (told_after name.now Syncs result) }
        ensures moment { Counts (moment_of self.old) (moment_of self.new) result }
        ensures cause { HasCause Fault (faults_counted self.old) (faults_counted self.new) result }
        ensures plan { FollowsPlan self.old self.new result }
    {
        self.count_call();
        self.begin(name, Change::Sync)
    }

    fn remove(&mut self, name: &str) -> Result<(), Device>
        ensures told { Becomes (tells self.old) (tells self.new) (told_after name.now Removes result) }
        ensures moment { Counts (moment_of self.old) (moment_of self.new) result }
        ensures cause { HasCause Fault (faults_counted self.old) (faults_counted self.new) result }
        ensures plan { FollowsPlan self.old self.new result }
    {
        self.count_call();
        self.begin(name, Change::Remove)
    }

    fn moment(&self) -> u64 {
        self.calls.len() as u64
    }
}
