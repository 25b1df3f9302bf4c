//! The durable side over the feeds of its databases.

ghost use Rattle.std.specs.Prelude.{◌≡◌, ◌+◌, ◌<◌, ◌≤◌, ◌^◌, ◌⊎◌, if◌then◌else◌, ℕ, [], ◌∷◌, ◌++◌, length, map, get_or, slice_set, true, false, Some, IfOk, IfErr, IfSome, IfNone, OnOk, OnErr};
ghost use Rattle.mm_outside.specs.declared.disk.Device.TheVariants.{Fault};
ghost use Rattle.mm_outside.specs.Ask.{Makes};
ghost use Rattle.mm_outside.specs.Fault.{HasCause};
ghost use Rattle.mm_outside.specs.Told.{Told};
ghost use Rattle.mm_tie.specs.Ends.{taken};
ghost use Rattle.mm_tie.specs.Items.{image_of, up_to};
ghost use Rattle.mm_crash.specs.Asks.{sync_asks};
ghost use Rattle.mm_crash.specs.Recovered.{Files};
ghost use Rattle.mm_crash.specs.Rest.{IsRecovered, new_story};
ghost use Rattle.mm_journal.proofs.Real.{the_format, the_names};
ghost use Rattle.mm_prefix.specs.Prefix.{at_first};
ghost use Rattle.mm_durable.specs.Names.{AreDatabases, all_files};
ghost use Rattle.mm_durable.specs.Log.{IsSound, GoesOn, IsKept, IsBegun, IsFloor, KeepsRun, KeepsCounts, HasLogged, HasFlushed, HasSynced, HasMarked, HasTrimmed, HasCleared, HasMore, HasReceipt, HasNoReceipt, sealed, synced, pending_sections, has_pending, is_marked, no_files, oldest_asks, with_oldest, floor_asks, trim_asks, clear_asks};
ghost use Rattle.mm_durable.specs.Intake.{IsIntake, IsOwn, HasTaken, HasEntry, KeepsFeeds, GivesNext, lists, rooms, rings};
ghost use Rattle.mm_durable.specs.Flushed.{flushed_bytes, unflushed, flush_asks};
ghost use Rattle.mm_durable.specs.Durable.{IsOrderly, IsServed, ReadItems, Serves, ServesMarking, StillServes, StaysSafe, ServesSealed, LeavesOff, LeavesMarking, SameItems, SameButGone, AllClosed, items_of, is_ready, has_closed, next_section};

use crate::intake::Intake;
use crate::log::{Log, Receipt};
use mm_base::{DbNo, Name, NoMemory};
use mm_outside::{Device, Disk};
use mm_section::{PartList, Section};
use mm_tie::{Feed, Origin};
use std::alloc::Global;

/// The durable side of a run: the disk, the log of its sealed sections, and the feeds of its databases. After a device call that answered
/// an error it is ended, and no device call may follow.
#[derive(Drop)]
pub struct Durable<D> {
    disk: D,
    log: Log,
    intake: Intake,
    ended: bool,
}

// The log and the feeds of a run that begins.
fn begin(
    alloc: Global,
    names: Vec<Name>,
    feeds: Vec<Feed>,
    limit: u64,
    last: u64,
) -> Result<(Log, Intake), NoMemory>
    requires low { 8192 < limit }
    requires high { limit ≤ 2 ^ 63 }
    requires last { last ≤ 2 ^ 63 }
    requires some { 0 < length names.items }
    requires few { length names.items ≤ 4 }
    requires names { AreDatabases names.items }
    requires feeds { length feeds.items ≡ length names.items }
    requires first { (d : ℕ) → d < length names.items → length (get_or (map taken feeds.items) d []) ≡ 1 }
    ensures sound { IfOk result (λ both. IsSound both.0) }
    ensures goes { IfOk result (λ both. GoesOn both.0) }
    ensures begun { IfOk result (λ both. IsBegun names.items last both.0) }
    ensures journal { IfOk result (λ both. both.0.journal ≡ no_files limit) }
    ensures kept { IfOk result (λ both. (files : Files) (u : Told) → IsRecovered the_format the_names files last u → IsKept u (new_story files last) at_first both.0 u) }
    ensures intake { IfOk result (λ both. IsIntake names.items 0 both.1) }
    ensures feeds { IfOk result (λ both. both.1.feeds.items ≡ feeds.items) }
{
    let intake = Intake::start(alloc, &names, feeds)?;
    let log = Log::start(alloc, names, limit, last)?;
    Ok((log, intake))
}

impl<D: Disk> Durable<D> {
    /// A run over a disk that was recovered: its journal has no file, its lsn file has this number, nothing is pending, and its files
    /// read the databases' items 0. Files of the journal of `limit` bytes or more are followed by new ones. For want of memory the disk
    /// comes back.
    pub fn start(
        alloc: Global,
        disk: D,
        names: Vec<Name>,
        feeds: Vec<Feed>,
        limit: u64,
        last: u64,
    ) -> Result<Durable<D>, (NoMemory, D)>
        requires low { 8192 < limit }
        requires high { limit ≤ 2 ^ 63 }
        requires last { last ≤ 2 ^ 63 }
        requires some { 0 < length names.items }
        requires few { length names.items ≤ 4 }
        requires names { AreDatabases names.items }
        requires feeds { length feeds.items ≡ length names.items }
        requires first { (d : ℕ) → d < length names.items → length (get_or (map taken feeds.items) d []) ≡ 1 }
        ensures orderly { IfOk result (λ durable. IsOrderly durable) }
        ensures begun { IfOk result (λ durable. IsBegun names.items last durable.log) }
        ensures feeds { IfOk result (λ durable. durable.intake.feeds.items ≡ feeds.items) }
        ensures journal { IfOk result (λ durable. durable.log.journal ≡ no_files limit) }
        ensures kept { IfOk result (λ durable. (files : Files) (u : Told) → D.told disk ≡ Some u → IsRecovered the_format the_names files last u → ReadItems files names.items (items_of durable) → IsServed u u (new_story files last) at_first durable.log (items_of durable)) }
        ensures going { IfOk result (λ durable. durable.ended ≡ false) }
        ensures disk { IfOk result (λ durable. durable.disk ≡ disk) }
        ensures back { IfErr result (λ none. none.1 ≡ disk) }
    {
        match begin(alloc, names, feeds, limit, last) {
            Ok((log, intake)) => Ok(Durable {
                disk,
                log,
                intake,
                ended: false,
            }),
            Err(none) => Err((none, disk)),
        }
    }

    /// Takes what `take_closed` and `seal` need. For want of memory all stays as it was.
    pub fn ready(&mut self) -> Result<(), NoMemory>
        requires orderly { IsOrderly self.old }
        ensures ready { OnOk result (is_ready self.new ≡ true) }
        ensures still { is_ready self.old ≡ true → is_ready self.new ≡ true }
        ensures orderly { IsOrderly self.new }
        ensures run { KeepsRun self.old.log self.new.log }
        ensures counts { KeepsCounts self.old.log self.new.log }
        ensures feeds { KeepsFeeds self.old.intake self.new.intake }
        ensures journal { self.new.log.journal ≡ self.old.log.journal }
        ensures kept { StillServes self.old self.new }
        ensures safe { StaysSafe self.old self.new }
        ensures ended { self.new.ended ≡ self.old.ended }
        ensures disk { self.new.disk ≡ self.old.disk }
    {
        self.log.ready()?;
        self.intake.ready()
    }

    /// With the database in hand, what it gave is what its feed took, and its shared image is that of the items of sections up to its
    /// applied one. Nothing changes, and it takes no memory.
    pub fn agree<O: Origin>(&mut self, db: DbNo, from: &mut O)
        requires orderly { IsOrderly self.old }
        requires own { IsOwn self.old.intake db.0 (O.own_ring from.old) }
        ensures agree { HasTaken self.old.intake db.0 (O.given from.old) }
        ensures shared { (O.viewed from.old).shared ≡ image_of (up_to (O.applied_to from.old) (O.given from.old)) }
        ensures orderly { IsOrderly self.new }
        ensures kept { Serves self.old self.new (D.told self.old.disk) (D.told self.new.disk) }
        ensures safe { StaysSafe self.old self.new }
        ensures same { SameItems self.old self.new }
        ensures log { self.new.log ≡ self.old.log }
        ensures ended { self.new.ended ≡ self.old.ended }
        ensures disk { self.new.disk ≡ self.old.disk }
        ensures origin { from.new ≡ from.old }
    {
        self.intake.agree(db.0 as usize, from);
    }

    /// Agrees with a database, closes its opened group, and keeps the item that it gives for the next section. It takes no memory. That all
    /// stays in order is said of a database that gives at most 2^32 items.
    pub fn take_closed<O: Origin>(&mut self, db: DbNo, from: &mut O)
        requires orderly { IsOrderly self.old }
        requires ready { is_ready self.old ≡ true }
        requires db { db.0 < length self.old.log.names.items }
        requires once { has_closed self.old db.0 ≡ false }
        requires own { IsOwn self.old.intake db.0 (O.own_ring from.old) }
        requires may_close { O.is_ready from.old ≡ true }
        requires room { length (O.given from.old) < O.most from.old }
        ensures agree { HasTaken self.old.intake db.0 (O.given from.old) }
        ensures gives { GivesNext (O.given from.old) (O.given from.new) }
        ensures taken { lists self.new.intake ≡ slice_set (lists self.old.intake) db.0 (O.given from.new) }
        ensures rooms { rooms self.new.intake ≡ rooms self.old.intake }
        ensures rings { rings self.new.intake ≡ rings self.old.intake }
        ensures closes { O.closes from.old from.new }
        ensures most { O.most from.new ≡ O.most from.old }
        ensures ring { O.own_ring from.new ≡ O.own_ring from.old }
        ensures orderly { O.most from.old ≤ 2 ^ 32 → IsOrderly self.new }
        ensures ready { is_ready self.new ≡ true }
        ensures kept { StillServes self.old self.new }
        ensures safe { StaysSafe self.old self.new }
        ensures log { self.new.log ≡ self.old.log }
        ensures ended { self.new.ended ≡ self.old.ended }
        ensures disk { self.new.disk ≡ self.old.disk }
    {
        self.intake.take_closed(db.0 as usize, from);
    }

    /// Makes one pending section of what the databases gave, in rising order of their names, and answers its number. A database that made
    /// no file and changed no range has no part in it. It takes no memory.
    pub fn seal(&mut self) -> u64
        requires orderly { IsOrderly self.old }
        requires ready { is_ready self.old ≡ true }
        requires closed { AllClosed self.old }
        requires entry { HasEntry (lists self.old.intake) (sealed self.old.log + 1) ⊎ (sealed self.old.log ≡ 0) }
        ensures number { result ≡ self.old.log.last + sealed self.old.log + 1 }
        ensures orderly { IsOrderly self.new }
        ensures more { HasMore self.old.log (next_section self.old) self.new.log }
        ensures counts { KeepsCounts self.old.log self.new.log }
        ensures feeds { KeepsFeeds self.old.intake self.new.intake }
        ensures journal { self.new.log.journal ≡ self.old.log.journal }
        ensures kept { ServesSealed self.old (next_section self.old) self.new }
        ensures safe { StaysSafe self.old self.new }
        ensures ended { self.new.ended ≡ self.old.ended }
        ensures disk { self.new.disk ≡ self.old.disk }
    {
        let number = self.log.next_number();
        let parts = PartList::new(self.intake.seal());
        self.log.add(Section { number, parts });
        number
    }

    /// Writes the oldest pending section behind the journal's last and syncs it. It answers false exactly where none is pending.
    pub fn log(&mut self) -> Result<bool, Device>
        requires orderly { IsOrderly self.old }
        requires going { self.old.ended ≡ false }
        ensures answer { IfOk result (λ logged. logged ≡ has_pending self.old.log) }
        ensures orderly { IsOrderly self.new }
        ensures same { SameItems self.old self.new }
        ensures counts { IfOk result (λ logged. HasLogged (if logged then 1 else 0) self.old.log self.new.log) }
        ensures unmoved { OnErr result (KeepsCounts self.old.log self.new.log) }
        ensures receipts { IfOk result (λ logged. self.new.log.receipts.items ≡ self.old.log.receipts.items ++ (if logged then D.moment self.new.disk ∷ [] else [])) }
        ensures journal { OnOk result (self.new.log.journal ≡ with_oldest self.old.log.journal (pending_sections self.old.log)) }
        ensures made { OnOk result (Makes (oldest_asks self.old.log.journal (pending_sections self.old.log)) (D.told self.old.disk) (D.told self.new.disk)) }
        ensures kept { OnOk result (Serves self.old self.new (D.told self.old.disk) (D.told self.new.disk)) }
        ensures left { OnErr result (LeavesOff self.old self.new (D.told self.old.disk) (D.told self.new.disk)) }
        ensures going { OnOk result (self.new.ended ≡ false) }
        ensures ended { OnErr result (self.new.ended ≡ true) }
        ensures cause { HasCause Fault (D.faults self.old.disk) (D.faults self.new.disk) result }
    {
        self.ended = true;
        let logged = self.log.log(&mut self.disk)?;
        self.ended = false;
        Ok(logged)
    }

    /// Lays what the sections up to the database's last applied one made and wrote in it over its files, but for those sections that are
    /// flushed there already, and answers how many bytes were written at ranges. It agrees first. Nothing is synced.
    pub fn flush<O: Origin>(&mut self, db: DbNo, from: &mut O) -> Result<u64, Device>
        requires orderly { IsOrderly self.old }
        requires going { self.old.ended ≡ false }
        requires db { db.0 < length self.old.log.names.items }
        requires own { IsOwn self.old.intake db.0 (O.own_ring from.old) }
        requires applied { O.applied_to from.old ≤ self.old.log.last + synced self.old.log }
        ensures bytes { IfOk result (λ bytes. bytes ≡ flushed_bytes (get_or self.old.log.names.items db.0 []) (unflushed self.old.log db.0 (O.applied_to from.old))) }
        ensures shared { (O.viewed from.old).shared ≡ image_of (up_to (O.applied_to from.old) (O.given from.old)) }
        ensures agree { HasTaken self.old.intake db.0 (O.given from.old) }
        ensures orderly { IsOrderly self.new }
        ensures same { SameItems self.old self.new }
        ensures counts { OnOk result (HasFlushed db.0 (O.applied_to from.old) self.old.log self.new.log) }
        ensures unmoved { OnErr result (KeepsCounts self.old.log self.new.log) }
        ensures journal { OnOk result (self.new.log.journal ≡ self.old.log.journal) }
        ensures made { OnOk result (Makes (flush_asks self.old.log db.0 (O.applied_to from.old)) (D.told self.old.disk) (D.told self.new.disk)) }
        ensures kept { OnOk result (Serves self.old self.new (D.told self.old.disk) (D.told self.new.disk)) }
        ensures left { OnErr result (LeavesOff self.old self.new (D.told self.old.disk) (D.told self.new.disk)) }
        ensures going { OnOk result (self.new.ended ≡ false) }
        ensures ended { OnErr result (self.new.ended ≡ true) }
        ensures cause { HasCause Fault (D.faults self.old.disk) (D.faults self.new.disk) result }
        ensures origin { from.new ≡ from.old }
    {
        self.intake.agree(db.0 as usize, from);
        self.ended = true;
        let upto = from.applied();
        let written = self.log.flush(&mut self.disk, db.0 as usize, upto)?;
        self.ended = false;
        Ok(written)
    }

    /// Syncs each file that a database may have. The floor is then the greatest number up to which each database is flushed, and the sections
    /// up to it aren't kept any more.
    pub fn sync_data(&mut self) -> Result<(), Device>
        requires orderly { IsOrderly self.old }
        requires going { self.old.ended ≡ false }
        ensures floor { OnOk result (IsFloor self.new.log.floor self.old.log) }
        ensures orderly { IsOrderly self.new }
        ensures same { OnOk result (SameButGone self.old self.new) }
        ensures counts { OnOk result (HasSynced self.old.log self.new.log) }
        ensures unmoved { OnErr result (KeepsCounts self.old.log self.new.log) }
        ensures still { OnErr result (SameItems self.old self.new) }
        ensures journal { OnOk result (self.new.log.journal ≡ self.old.log.journal) }
        ensures made { OnOk result (Makes (sync_asks (all_files self.old.log.names.items)) (D.told self.old.disk) (D.told self.new.disk)) }
        ensures kept { OnOk result (Serves self.old self.new (D.told self.old.disk) (D.told self.new.disk)) }
        ensures left { OnErr result (LeavesOff self.old self.new (D.told self.old.disk) (D.told self.new.disk)) }
        ensures going { OnOk result (self.new.ended ≡ false) }
        ensures ended { OnErr result (self.new.ended ≡ true) }
        ensures cause { HasCause Fault (D.faults self.old.disk) (D.faults self.new.disk) result }
    {
        self.ended = true;
        self.log.sync_data(&mut self.disk)?;
        self.log.let_go();
        self.ended = false;
        Ok(())
    }

    /// Writes the floor's number into the lsn file and syncs it, where it isn't there yet. What a crash leaves of that file since the call
    /// has begun, and until it answers Ok, can't be read, or is the number from before or the floor's; it stays so where the call is stopped.
    pub fn mark_lsn(&mut self) -> Result<(), Device>
        requires orderly { IsOrderly self.old }
        requires going { self.old.ended ≡ false }
        ensures orderly { IsOrderly self.new }
        ensures same { SameItems self.old self.new }
        ensures counts { OnOk result (HasMarked self.old.log self.new.log) }
        ensures unmoved { OnErr result (KeepsCounts self.old.log self.new.log) }
        ensures still { self.old.log.mark ≡ self.old.log.floor → D.told self.new.disk ≡ D.told self.old.disk }
        ensures journal { OnOk result (self.new.log.journal ≡ self.old.log.journal) }
        ensures made { OnOk result (Makes (floor_asks self.old.log) (D.told self.old.disk) (D.told self.new.disk)) }
        ensures kept { OnOk result (ServesMarking self.old self.new (D.told self.old.disk) (D.told self.new.disk)) }
        ensures left { OnErr result (LeavesMarking self.old self.new (D.told self.old.disk) (D.told self.new.disk)) }
        ensures going { OnOk result (self.new.ended ≡ false) }
        ensures ended { OnErr result (self.new.ended ≡ true) }
        ensures cause { HasCause Fault (D.faults self.old.disk) (D.faults self.new.disk) result }
    {
        self.ended = true;
        self.log.mark_lsn(&mut self.disk)?;
        self.ended = false;
        Ok(())
    }

    /// Removes, oldest first, each of the journal's files but the last whose sections are all marked.
    pub fn trim(&mut self) -> Result<(), Device>
        requires orderly { IsOrderly self.old }
        requires going { self.old.ended ≡ false }
        ensures orderly { IsOrderly self.new }
        ensures same { SameItems self.old self.new }
        ensures counts { OnOk result (KeepsCounts self.old.log self.new.log) }
        ensures unmoved { OnErr result (KeepsCounts self.old.log self.new.log) }
        ensures trimmed { OnOk result (HasTrimmed self.old.log self.new.log) }
        ensures made { OnOk result (Makes (trim_asks self.old.log) (D.told self.old.disk) (D.told self.new.disk)) }
        ensures kept { OnOk result (Serves self.old self.new (D.told self.old.disk) (D.told self.new.disk)) }
        ensures left { OnErr result (LeavesOff self.old self.new (D.told self.old.disk) (D.told self.new.disk)) }
        ensures going { OnOk result (self.new.ended ≡ false) }
        ensures ended { OnErr result (self.new.ended ≡ true) }
        ensures cause { HasCause Fault (D.faults self.old.disk) (D.faults self.new.disk) result }
    {
        self.ended = true;
        self.log.trim(&mut self.disk)?;
        self.ended = false;
        Ok(())
    }

    /// Removes the journal's files, all of whose sections are marked; none is pending.
    pub fn clear(&mut self) -> Result<(), Device>
        requires orderly { IsOrderly self.old }
        requires going { self.old.ended ≡ false }
        requires marked { is_marked self.old.log ≡ true }
        ensures orderly { IsOrderly self.new }
        ensures same { SameItems self.old self.new }
        ensures counts { OnOk result (KeepsCounts self.old.log self.new.log) }
        ensures unmoved { OnErr result (KeepsCounts self.old.log self.new.log) }
        ensures cleared { OnOk result (HasCleared self.new.log) }
        ensures made { OnOk result (Makes (clear_asks self.old.log) (D.told self.old.disk) (D.told self.new.disk)) }
        ensures kept { OnOk result (Serves self.old self.new (D.told self.old.disk) (D.told self.new.disk)) }
        ensures left { OnErr result (LeavesOff self.old self.new (D.told self.old.disk) (D.told self.new.disk)) }
        ensures going { OnOk result (self.new.ended ≡ false) }
        ensures ended { OnErr result (self.new.ended ≡ true) }
        ensures cause { HasCause Fault (D.faults self.old.disk) (D.faults self.new.disk) result }
    {
        self.ended = true;
        self.log.clear(&mut self.disk)?;
        self.ended = false;
        Ok(())
    }

    /// The number of the last synced section, or of the one before the run's first. It takes no memory.
    pub fn synced(&self) -> u64
        requires { IsOrderly self.now }
        ensures { result ≡ self.now.log.last + synced self.now.log }
    {
        self.log.synced()
    }

    /// The greatest number up to which all data files are flushed and synced. It takes no memory.
    pub fn floor(&self) -> u64
        requires { IsOrderly self.now }
        ensures { result ≡ self.now.log.last + self.now.log.floor }
    {
        self.log.floor()
    }

    /// The number in the lsn file. It takes no memory.
    pub fn marked(&self) -> u64
        requires { IsOrderly self.now }
        ensures { result ≡ self.now.log.last + self.now.log.mark }
    {
        self.log.marked()
    }

    /// The receipt of a section, or None exactly where it isn't synced yet or is older than this run. It takes no memory.
    pub fn receipt(&self, section: u64) -> Option<Receipt>
        requires { IsOrderly self.now }
        ensures some { IfSome result (λ r. (r.section ≡ section) × HasReceipt self.now.log section r.moment) }
        ensures none { IfNone result (HasNoReceipt self.now.log section) }
    {
        self.log.receipt(section)
    }

    /// A device call answered an error. It takes no memory.
    pub fn ended(&self) -> bool
        ensures { result ≡ self.now.ended }
    {
        self.ended
    }

    /// The disk. It takes no memory.
    pub fn into_disk(self) -> D
        ensures { result ≡ self.disk }
    {
        self.disk
    }
}
