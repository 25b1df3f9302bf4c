//! The files of a journal, one after another.

ghost use Rattle.std.specs.Prelude.{◌≡◌, ◌+◌, ◌-◌, ◌^◌, ◌<◌, ◌≤◌, ◌∷◌, [], length, OnOk, true, false};
ghost use Rattle.mm_outside.specs.declared.disk.Device.TheVariants.{Fault};
ghost use Rattle.mm_outside.specs.Fault.{HasCause};
ghost use Rattle.mm_outside.specs.Ask.{Makes, MakesSome};
ghost use Rattle.mm_jfiles.specs.Files.{Files, next_number, last_number, is_full, begun, begin_asks, ready, written, write_ask, append_asks, dropped, remove_asks, how_many, sync_ask};

use crate::names::file_name;
use mm_frames::{JOURNAL_HEADER_LEN, journal_header_frame};
use mm_outside::{Device, Disk};
use std::alloc::Global;
use std::marker::Model;

/// The files of a journal, as the side that appends knows them.
#[derive(Drop)]
pub struct JFiles {
    alloc: Global,
    limit: u64,
    first: u64,
    lasts: Vec<u64>,
    end: u64,
}

impl Model for JFiles {
    ghost use Rattle.mm_jfiles.specs.Files.{Files};

    ghost Value = { Files };

    ghost view = { λ j. record { limit = j.limit; first = j.first; lasts = j.lasts.items; end = j.end } };
}

impl JFiles {
    /// A journal without files, of which each takes sections until it has `limit` bytes or more.
    pub fn start(alloc: Global, limit: u64) -> JFiles
        requires low { 8192 < limit }
        requires high { limit ≤ 2 ^ 63 }
        ensures { result ≡ record { limit = limit; first = 0; lasts = []; end = 0 } }
    {
        JFiles {
            alloc,
            limit,
            first: 0,
            lasts: Vec::new(alloc),
            end: 0,
        }
    }

    // Begins a new file: makes it, and writes and syncs its header.
    fn begin<D: Disk>(&mut self, disk: &mut D) -> Result<(), Device>
        requires { next_number self.old < 2 ^ 32 }
        ensures state { OnOk result (self.new ≡ begun self.old) }
        ensures made { OnOk result (Makes (begin_asks self.old) (D.told disk.old) (D.told disk.new)) }
        ensures cut { MakesSome (begin_asks self.old) (D.told disk.old) (D.told disk.new) }
        ensures cause { HasCause Fault (D.faults disk.old) (D.faults disk.new) result }
    {
        let number = self.first + self.lasts.as_slice().len() as u64;
        self.lasts.reserve(1)?;
        let new_name = file_name(self.alloc, number)?;
        let header = journal_header_frame(number + 1);
        disk.create(&new_name)?;
        disk.write_at(&new_name, 0, &header)?;
        disk.sync(&new_name)?;
        self.lasts.push(0)?;
        self.end = JOURNAL_HEADER_LEN as u64;
        Ok(())
    }

    // Whether the next section goes into a new file.
    fn is_full(&self) -> bool
        ensures { result ≡ is_full self.now }
    {
        self.lasts.is_empty() || self.limit <= self.end
    }

    /// The id of the file into which the next section goes.
    pub fn id(&self) -> u64
        requires { next_number self.now < 2 ^ 32 }
        ensures { result ≡ last_number (ready self.now) + 1 }
    {
        let count = self.lasts.as_slice().len() as u64;
        if self.is_full() {
            self.first + count + 1
        } else {
            self.first + count
        }
    }

    // Writes bytes behind those of the last file, which spell a section of this number.
    fn write<D: Disk>(&mut self, disk: &mut D, bytes: &[u8], number: u64) -> Result<(), Device>
        requires some { 0 < length self.old.lasts }
        requires small { next_number self.old ≤ 2 ^ 32 }
        requires fits { self.old.end + length bytes.now < 2 ^ 64 }
        ensures state { OnOk result (self.new ≡ written number (length bytes.now) self.old) }
        ensures made { OnOk result (Makes (write_ask self.old bytes.now ∷ []) (D.told disk.old) (D.told disk.new)) }
        ensures cut { MakesSome (write_ask self.old bytes.now ∷ []) (D.told disk.old) (D.told disk.new) }
        ensures cause { HasCause Fault (D.faults disk.old) (D.faults disk.new) result }
    {
        let count = self.lasts.as_slice().len();
        let name = file_name(self.alloc, self.first + count as u64 - 1)?;
        disk.write_at(&name, self.end, bytes)?;
        self.lasts.truncate(count - 1);
        self.lasts.push(number)?;
        self.end += bytes.len() as u64;
        Ok(())
    }

    /// Writes bytes that spell a section of this number behind the last file's, in a new file where the last has the
    /// limit or more.
    pub fn append<D: Disk>(&mut self, disk: &mut D, bytes: &[u8], number: u64) -> Result<(), Device>
        requires limit { self.old.limit ≤ 2 ^ 63 }
        requires small { next_number self.old < 2 ^ 32 }
        requires short { length bytes.now < 2 ^ 63 }
        ensures state { OnOk result (self.new ≡ written number (length bytes.now) (ready self.old)) }
        ensures made { OnOk result (Makes (append_asks self.old bytes.now) (D.told disk.old) (D.told disk.new)) }
        ensures cut { MakesSome (append_asks self.old bytes.now) (D.told disk.old) (D.told disk.new) }
        ensures cause { HasCause Fault (D.faults disk.old) (D.faults disk.new) result }
    {
        if self.is_full() {
            self.begin(disk)?;
            self.write(disk, bytes, number)?;
            Ok(())
        } else {
            self.write(disk, bytes, number)?;
            Ok(())
        }
    }

    /// Syncs the last file.
    pub fn sync<D: Disk>(&mut self, disk: &mut D) -> Result<(), Device>
        requires some { 0 < length self.old.lasts }
        requires small { next_number self.old ≤ 2 ^ 32 }
        ensures state { self.new ≡ self.old }
        ensures made { OnOk result (Makes (sync_ask self.old ∷ []) (D.told disk.old) (D.told disk.new)) }
        ensures cut { MakesSome (sync_ask self.old ∷ []) (D.told disk.old) (D.told disk.new) }
        ensures cause { HasCause Fault (D.faults disk.old) (D.faults disk.new) result }
    {
        let count = self.lasts.as_slice().len() as u64;
        let name = file_name(self.alloc, self.first + count - 1)?;
        disk.sync(&name)?;
        Ok(())
    }

    // Removes the first file.
    fn remove_first<D: Disk>(&mut self, disk: &mut D) -> Result<(), Device>
        requires some { 0 < length self.old.lasts }
        requires small { next_number self.old ≤ 2 ^ 32 }
        ensures state { OnOk result (self.new ≡ dropped 1 self.old) }
        ensures made { OnOk result (Makes (remove_asks self.old.first 1) (D.told disk.old) (D.told disk.new)) }
        ensures cut { MakesSome (remove_asks self.old.first 1) (D.told disk.old) (D.told disk.new) }
        ensures cause { HasCause Fault (D.faults disk.old) (D.faults disk.new) result }
    {
        let name = file_name(self.alloc, self.first)?;
        disk.remove(&name)?;
        self.lasts.remove(0);
        self.first += 1;
        Ok(())
    }

    // Removes the first files, so many.
    fn remove_first_files<D: Disk>(&mut self, disk: &mut D, count: usize) -> Result<(), Device>
        requires there { count ≤ length self.old.lasts }
        requires small { next_number self.old ≤ 2 ^ 32 }
        ensures state { OnOk result (self.new ≡ dropped count self.old) }
        ensures made { OnOk result (Makes (remove_asks self.old.first count) (D.told disk.old) (D.told disk.new)) }
        ensures cut { MakesSome (remove_asks self.old.first count) (D.told disk.old) (D.told disk.new) }
        ensures cause { HasCause Fault (D.faults disk.old) (D.faults disk.new) result }
    {
        let mut i = 0;
        while i < count {
            self.remove_first(disk)?;
            i += 1;
        }
        Ok(())
    }

    /// Removes, oldest first, each file but the last whose sections are all at most `upto`.
    pub fn trim<D: Disk>(&mut self, disk: &mut D, upto: u64) -> Result<(), Device>
        requires small { next_number self.old ≤ 2 ^ 32 }
        ensures state { OnOk result (self.new ≡ dropped (how_many upto self.old.lasts) self.old) }
        ensures made { OnOk result (Makes (remove_asks self.old.first (how_many upto self.old.lasts)) (D.told disk.old) (D.told disk.new)) }
        ensures cut { MakesSome (remove_asks self.old.first (how_many upto self.old.lasts)) (D.told disk.old) (D.told disk.new) }
        ensures cause { HasCause Fault (D.faults disk.old) (D.faults disk.new) result }
    {
        let count = done_files(self.lasts.as_slice(), upto);
        self.remove_first_files(disk, count)?;
        Ok(())
    }

    /// Removes all files, oldest first.
    pub fn clear<D: Disk>(&mut self, disk: &mut D) -> Result<(), Device>
        requires small { next_number self.old ≤ 2 ^ 32 }
        ensures state { OnOk result (self.new ≡ dropped (length self.old.lasts) self.old) }
        ensures made { OnOk result (Makes (remove_asks self.old.first (length self.old.lasts)) (D.told disk.old) (D.told disk.new)) }
        ensures cut { MakesSome (remove_asks self.old.first (length self.old.lasts)) (D.told disk.old) (D.told disk.new) }
        ensures cause { HasCause Fault (D.faults disk.old) (D.faults disk.new) result }
    {
        let count = self.lasts.as_slice().len();
        self.remove_first_files(disk, count)?;
        Ok(())
    }
}

// How many of the first files, but not the last, have no section above `upto`.
fn done_files(lasts: &[u64], upto: u64) -> usize
    ensures is { result ≡ how_many upto lasts.now }
    ensures few { result ≤ length lasts.now }
{
    let mut count = 0;
    while count + 1 < lasts.len() && lasts[count] <= upto {
        count += 1;
    }
    count
}
