//! The sealed sections of a run, and how far they have come.

ghost use Rattle.std.specs.Prelude.{◌≡◌, ◌+◌, ◌<◌, ◌≤◌, ◌^◌, length, IfOk, OnOk, OnErr, true, false, vec_capacity};
ghost use Rattle.mm_outside.specs.declared.disk.Device.TheVariants.{Fault};
ghost use Rattle.mm_outside.specs.Ask.{Makes};
ghost use Rattle.mm_outside.specs.Fault.{HasCause};
ghost use Rattle.mm_durable.specs.Log.{IsLeast};

use crate::flushing::flush_sections;
use crate::spelling::spell;
use crate::syncing::sync_databases;
use mm_base::{Name, NoMemory};
use mm_jfiles::{JFiles, write_mark};
use mm_outside::{Device, Disk};
use mm_section::Section;
use std::alloc::Global;

/// The sealed sections of a run, and how far they have come. The disk is handed in at each call, and is the same at all.
#[derive(Drop)]
pub struct Log {
    alloc: Global,
    journal: JFiles,
    // of the databases
    names: Vec<Name>,
    // the number of the section before the run's first
    last: u64,
    // the sections that are kept, the oldest first, and how many older ones are not
    sections: Vec<Section>,
    dropped: usize,
    // the moment of each synced section
    receipts: Vec<u64>,
    // of each database, how many sections are flushed
    flushed: Vec<usize>,
    floor: usize,
    mark: usize,
    // what a section is spelled in
    buffer: Vec<u8>,
}

/// A section is synced in the journal since a moment of the disk: its sync had answered when so many changing calls had begun.
#[derive(Clone, Copy, Debug, PartialEq, Eq)]
pub struct Receipt {
    pub section: u64,
    pub moment: u64,
}

impl Log {
    ghost use Rattle.std.specs.Prelude.{ℕ, [], ◌∷◌, ◌++◌, get_or, if◌then◌else◌, IfSome, IfNone};
    ghost use Rattle.mm_outside.specs.Told.{Told};
    ghost use Rattle.mm_crash.specs.Asks.{sync_asks};
    ghost use Rattle.mm_crash.specs.Recovered.{Files};
    ghost use Rattle.mm_crash.specs.Story.{Story, with_section};
    ghost use Rattle.mm_crash.specs.Rest.{IsNext, IsRecovered, new_story};
    ghost use Rattle.mm_journal.proofs.Real.{the_format, the_names};
    ghost use Rattle.mm_prefix.specs.Prefix.{Numbers, at_first};
    ghost use Rattle.mm_durable.specs.Names.{AreDatabases, ArePartsOf, all_files};
    ghost use Rattle.mm_durable.specs.Flushed.{flushed_bytes, unflushed, flush_asks};
    ghost use Rattle.mm_durable.specs.Log.{IsFloor, IsSound, GoesOn, IsKept, IsBegun, KeepsRun, KeepsCounts, LetsGo, HasLogged, HasFlushed, HasSynced, HasMarked, HasTrimmed, HasCleared, HasMore, Keeps, KeepsMarking, Leaving, LeavingMarking, HasReceipt, HasNoReceipt, sealed, synced, pending_sections, has_pending, is_marked, no_files, oldest_asks, with_oldest, floor_asks, trim_asks, clear_asks};

    /// A run that has no section yet, over a disk that was recovered, with this number in its lsn file.
    pub fn start(alloc: Global, names: Vec<Name>, limit: u64, last: u64) -> Result<Log, NoMemory>
        requires low { 8192 < limit }
        requires high { limit ≤ 2 ^ 63 }
        requires last { last ≤ 2 ^ 63 }
        requires names { AreDatabases names.items }
        ensures sound { IfOk result (λ log. IsSound log) }
        ensures goes { IfOk result (λ log. GoesOn log) }
        ensures begun { IfOk result (λ log. IsBegun names.items last log) }
        ensures journal { IfOk result (λ log. log.journal ≡ no_files limit) }
        ensures kept { IfOk result (λ log. (files : Files) (u : Told) → IsRecovered the_format the_names files last u → IsKept u (new_story files last) at_first log u) }
    {
        let flushed = vec![in alloc; 0; names.as_slice().len()]?;
        Ok(Log {
            alloc,
            journal: JFiles::start(alloc, limit),
            names,
            last,
            sections: Vec::new(alloc),
            dropped: 0,
            receipts: Vec::new(alloc),
            flushed,
            floor: 0,
            mark: 0,
            buffer: Vec::new(alloc),
        })
    }

    /// Takes the room for one sealed section more.
    pub fn ready(&mut self) -> Result<(), NoMemory>
        requires sound { IsSound self.old }
        ensures sound { IsSound self.new }
        ensures room { OnOk result (length self.new.sections.items < vec_capacity self.new.sections) }
        ensures run { KeepsRun self.old self.new }
        ensures counts { KeepsCounts self.old self.new }
        ensures journal { self.new.journal ≡ self.old.journal }
        ensures kept { (t u : Told) (story : Story) (history : ℕ → Numbers) → IsKept t story history self.old u → IsKept t story history self.new u }
    {
        self.sections.reserve(1)?;
        Ok(())
    }

    /// Takes a sealed section behind the others. It takes no memory.
    pub fn add(&mut self, section: Section)
        requires sound { IsSound self.old }
        requires room { length self.old.sections.items < vec_capacity self.old.sections }
        requires can { the_format.can section ≡ true }
        requires own { ArePartsOf self.old.names.items section.parts }
        requires few { sealed self.old + 1 < 2 ^ 32 }
        ensures sound { IsSound self.new }
        ensures more { HasMore self.old section self.new }
        ensures counts { KeepsCounts self.old self.new }
        ensures journal { self.new.journal ≡ self.old.journal }
        ensures kept { (t u : Told) (story : Story) (history : ℕ → Numbers) → IsKept t story history self.old u → IsNext the_format the_names story section → IsKept t (with_section story section) history self.new u }
    {
        self.sections.push_reserved(section);
    }

    /// The number of the next section that is sealed.
    pub fn next_number(&self) -> u64
        requires { IsSound self.now }
        ensures { result ≡ self.now.last + sealed self.now + 1 }
    {
        self.last + self.sealed_count() as u64 + 1
    }

    // How many sections are sealed.
    fn sealed_count(&self) -> usize
        requires { sealed self.now < 2 ^ 32 }
        ensures { result ≡ sealed self.now }
    {
        self.dropped + self.sections.as_slice().len()
    }

    /// The names of the databases.
    pub fn names(&self) -> &[Name]
        ensures { result.now ≡ self.now.names.items }
    {
        &self.names
    }

    /// The number of the last synced section, or of the one before the run's first.
    pub fn synced(&self) -> u64
        requires { IsSound self.now }
        ensures { result ≡ self.now.last + synced self.now }
    {
        self.last + self.synced_count() as u64
    }

    /// The greatest number up to which all data files are flushed and synced.
    pub fn floor(&self) -> u64
        requires { IsSound self.now }
        ensures { result ≡ self.now.last + self.now.floor }
    {
        self.last + self.floor as u64
    }

    /// The number in the lsn file.
    pub fn marked(&self) -> u64
        requires { IsSound self.now }
        ensures { result ≡ self.now.last + self.now.mark }
    {
        self.last + self.mark as u64
    }

    /// The receipt of a section, or None exactly where it isn't synced yet or is older than this run. It takes no memory.
    pub fn receipt(&self, section: u64) -> Option<Receipt>
        requires { IsSound self.now }
        ensures some { IfSome result (λ r. (r.section ≡ section) × HasReceipt self.now section r.moment) }
        ensures none { IfNone result (HasNoReceipt self.now section) }
    {
        if section <= self.last {
            return None;
        }
        let place = (section - self.last - 1) as usize;
        let moment = *self.receipts.get(place)?;
        Some(Receipt { section, moment })
    }

    /// Writes the oldest pending section behind the journal's last and syncs it. It answers false exactly where none is pending.
    pub fn log<D: Disk>(&mut self, disk: &mut D) -> Result<bool, Device>
        requires sound { IsSound self.old }
        requires goes { GoesOn self.old }
        ensures answer { IfOk result (λ logged. logged ≡ has_pending self.old) }
        ensures sound { IsSound self.new }
        ensures goes { OnOk result (GoesOn self.new) }
        ensures run { KeepsRun self.old self.new }
        ensures counts { IfOk result (λ logged. HasLogged (if logged then 1 else 0) self.old self.new) }
        ensures unmoved { OnErr result (KeepsCounts self.old self.new) }
        ensures receipts { IfOk result (λ logged. self.new.receipts.items ≡ self.old.receipts.items ++ (if logged then D.moment disk.new ∷ [] else [])) }
        ensures journal { OnOk result (self.new.journal ≡ with_oldest self.old.journal (pending_sections self.old)) }
        ensures made { OnOk result (Makes (oldest_asks self.old.journal (pending_sections self.old)) (D.told disk.old) (D.told disk.new)) }
        ensures kept { OnOk result (Keeps self.old self.new (D.told disk.old) (D.told disk.new)) }
        ensures left { OnErr result (Leaving self.old (D.told disk.old) (D.told disk.new)) }
        ensures cause { HasCause Fault (D.faults disk.old) (D.faults disk.new) result }
    {
        if self.synced_count() < self.sealed_count() {
            self.log_next(disk)?;
            Ok(true)
        } else {
            Ok(false)
        }
    }

    // How many sections are synced.
    fn synced_count(&self) -> usize
        ensures { result ≡ synced self.now }
    {
        self.receipts.as_slice().len()
    }

    // Writes and syncs the oldest pending section.
    fn log_next<D: Disk>(&mut self, disk: &mut D) -> Result<(), Device>
        requires sound { IsSound self.old }
        requires goes { GoesOn self.old }
        requires pending { has_pending self.old ≡ true }
        ensures sound { IsSound self.new }
        ensures goes { OnOk result (GoesOn self.new) }
        ensures run { KeepsRun self.old self.new }
        ensures counts { OnOk result (HasLogged 1 self.old self.new) }
        ensures unmoved { OnErr result (KeepsCounts self.old self.new) }
        ensures receipts { OnOk result (self.new.receipts.items ≡ self.old.receipts.items ++ D.moment disk.new ∷ []) }
        ensures journal { OnOk result (self.new.journal ≡ with_oldest self.old.journal (pending_sections self.old)) }
        ensures made { OnOk result (Makes (oldest_asks self.old.journal (pending_sections self.old)) (D.told disk.old) (D.told disk.new)) }
        ensures kept { OnOk result (Keeps self.old self.new (D.told disk.old) (D.told disk.new)) }
        ensures left { OnErr result (Leaving self.old (D.told disk.old) (D.told disk.new)) }
        ensures cause { HasCause Fault (D.faults disk.old) (D.faults disk.new) result }
    {
        let place = self.synced_count() - self.dropped;
        let section = &self.sections[place];
        self.receipts.reserve(1)?;
        spell(section, self.journal.id(), &mut self.buffer)?;
        self.journal.append(disk, &self.buffer, section.number)?;
        self.journal.sync(disk)?;
        self.receipts.push_reserved(disk.moment());
        Ok(())
    }

    /// Lays what the sections up to a number made and wrote in a database over its files, but for those sections that are flushed there
    /// already, and answers how many bytes were written at ranges. Nothing is synced.
    pub fn flush<D: Disk>(&mut self, disk: &mut D, db: usize, upto: u64) -> Result<u64, Device>
        requires sound { IsSound self.old }
        requires goes { GoesOn self.old }
        requires db { db < length self.old.names.items }
        requires synced { upto ≤ self.old.last + synced self.old }
        ensures bytes { IfOk result (λ bytes. bytes ≡ flushed_bytes (get_or self.old.names.items db []) (unflushed self.old db upto)) }
        ensures sound { IsSound self.new }
        ensures goes { OnOk result (GoesOn self.new) }
        ensures run { KeepsRun self.old self.new }
        ensures counts { OnOk result (HasFlushed db upto self.old self.new) }
        ensures unmoved { OnErr result (KeepsCounts self.old self.new) }
        ensures journal { OnOk result (self.new.journal ≡ self.old.journal) }
        ensures made { OnOk result (Makes (flush_asks self.old db upto) (D.told disk.old) (D.told disk.new)) }
        ensures kept { OnOk result (Keeps self.old self.new (D.told disk.old) (D.told disk.new)) }
        ensures left { OnErr result (Leaving self.old (D.told disk.old) (D.told disk.new)) }
        ensures cause { HasCause Fault (D.faults disk.old) (D.faults disk.new) result }
    {
        let from = self.flushed[db];
        if upto <= self.last + from as u64 {
            return Ok(0);
        }
        let to = (upto - self.last) as usize;
        let sections = &self.sections[from - self.dropped..to - self.dropped];
        let written = flush_sections(self.alloc, disk, sections, self.names[db].bytes())?;
        self.flushed[db] = to;
        Ok(written)
    }

    // The least number of flushed sections of any database, or that of synced ones.
    fn least_flushed(&self) -> usize
        ensures { IsFloor result self.now }
    {
        least(&self.flushed, self.synced_count())
    }

    /// Syncs each file that a database may have. The floor is then the greatest number up to which each database is flushed.
    pub fn sync_data<D: Disk>(&mut self, disk: &mut D) -> Result<(), Device>
        requires sound { IsSound self.old }
        requires goes { GoesOn self.old }
        ensures floor { OnOk result (IsFloor self.new.floor self.old) }
        ensures sound { IsSound self.new }
        ensures goes { OnOk result (GoesOn self.new) }
        ensures run { KeepsRun self.old self.new }
        ensures counts { OnOk result (HasSynced self.old self.new) }
        ensures unmoved { OnErr result (KeepsCounts self.old self.new) }
        ensures journal { OnOk result (self.new.journal ≡ self.old.journal) }
        ensures made { OnOk result (Makes (sync_asks (all_files self.old.names.items)) (D.told disk.old) (D.told disk.new)) }
        ensures kept { OnOk result (Keeps self.old self.new (D.told disk.old) (D.told disk.new)) }
        ensures left { OnErr result (Leaving self.old (D.told disk.old) (D.told disk.new)) }
        ensures cause { HasCause Fault (D.faults disk.old) (D.faults disk.new) result }
    {
        sync_databases(self.alloc, disk, &self.names)?;
        self.floor = self.least_flushed();
        Ok(())
    }

    /// Lets go of the sections that all data files have, synced. It takes no memory.
    pub fn let_go(&mut self)
        requires { IsSound self.old }
        ensures sound { IsSound self.new }
        ensures gone { LetsGo self.old self.new }
        ensures counts { KeepsCounts self.old self.new }
        ensures journal { self.new.journal ≡ self.old.journal }
        ensures kept { (t u : Told) (story : Story) (history : ℕ → Numbers) → IsKept t story history self.old u → IsKept t story history self.new u }
    {
        let count = self.floor - self.dropped;
        let left = self.sections.as_slice().len() - count;
        self.sections.as_mut_slice().rotate_left(count);
        self.sections.truncate(left);
        self.dropped = self.floor;
    }

    /// Writes the floor's number into the lsn file and syncs it, where it isn't there yet.
    pub fn mark_lsn<D: Disk>(&mut self, disk: &mut D) -> Result<(), Device>
        requires sound { IsSound self.old }
        requires goes { GoesOn self.old }
        ensures sound { IsSound self.new }
        ensures goes { OnOk result (GoesOn self.new) }
        ensures run { KeepsRun self.old self.new }
        ensures counts { OnOk result (HasMarked self.old self.new) }
        ensures unmoved { OnErr result (KeepsCounts self.old self.new) }
        ensures still { self.old.mark ≡ self.old.floor → D.told disk.new ≡ D.told disk.old }
        ensures journal { OnOk result (self.new.journal ≡ self.old.journal) }
        ensures made { OnOk result (Makes (floor_asks self.old) (D.told disk.old) (D.told disk.new)) }
        ensures kept { OnOk result (KeepsMarking self.old self.new (D.told disk.old) (D.told disk.new)) }
        ensures left { OnErr result (LeavingMarking self.old (D.told disk.old) (D.told disk.new)) }
        ensures cause { HasCause Fault (D.faults disk.old) (D.faults disk.new) result }
    {
        if self.mark < self.floor {
            write_mark(disk, self.last + self.floor as u64)?;
            self.mark = self.floor;
        }
        Ok(())
    }

    /// Removes, oldest first, each of the journal's files but the last whose sections are all marked.
    pub fn trim<D: Disk>(&mut self, disk: &mut D) -> Result<(), Device>
        requires sound { IsSound self.old }
        requires goes { GoesOn self.old }
        ensures sound { IsSound self.new }
        ensures goes { OnOk result (GoesOn self.new) }
        ensures run { KeepsRun self.old self.new }
        ensures counts { OnOk result (KeepsCounts self.old self.new) }
        ensures unmoved { OnErr result (KeepsCounts self.old self.new) }
        ensures trimmed { OnOk result (HasTrimmed self.old self.new) }
        ensures made { OnOk result (Makes (trim_asks self.old) (D.told disk.old) (D.told disk.new)) }
        ensures kept { OnOk result (Keeps self.old self.new (D.told disk.old) (D.told disk.new)) }
        ensures left { OnErr result (Leaving self.old (D.told disk.old) (D.told disk.new)) }
        ensures cause { HasCause Fault (D.faults disk.old) (D.faults disk.new) result }
    {
        self.journal.trim(disk, self.last + self.mark as u64)?;
        Ok(())
    }

    /// Removes the journal's files, all of whose sections are marked.
    pub fn clear<D: Disk>(&mut self, disk: &mut D) -> Result<(), Device>
        requires sound { IsSound self.old }
        requires goes { GoesOn self.old }
        requires marked { is_marked self.old ≡ true }
        ensures sound { IsSound self.new }
        ensures goes { OnOk result (GoesOn self.new) }
        ensures run { KeepsRun self.old self.new }
        ensures counts { OnOk result (KeepsCounts self.old self.new) }
        ensures unmoved { OnErr result (KeepsCounts self.old self.new) }
        ensures cleared { OnOk result (HasCleared self.new) }
        ensures made { OnOk result (Makes (clear_asks self.old) (D.told disk.old) (D.told disk.new)) }
        ensures kept { OnOk result (Keeps self.old self.new (D.told disk.old) (D.told disk.new)) }
        ensures left { OnErr result (Leaving self.old (D.told disk.old) (D.told disk.new)) }
        ensures cause { HasCause Fault (D.faults disk.old) (D.faults disk.new) result }
    {
        self.journal.clear(disk)?;
        Ok(())
    }
}

// The least of these, and of one more.
fn least(numbers: &[usize], one: usize) -> usize
    ensures { IsLeast result numbers.now one }
{
    let mut least = one;
    for number in numbers {
        if *number < least {
            least = *number;
        }
    }
    least
}
