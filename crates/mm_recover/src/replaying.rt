//! The sections above the lsn are laid over the files, and the journal is cleared.

ghost use Rattle.std.specs.Prelude.{◌≡◌, [], ◌∷◌, ◌≤◌, ◌<◌, ℕ, max, length, take, map, unwrap_or, string_bytes, IfOk, IfErr, OnOk};
ghost use Rattle.mm_outside.specs.declared.disk.Device.TheVariants.{Fault};
ghost use Rattle.mm_outside.specs.Fault.{HasCause};
ghost use Rattle.mm_outside.specs.Ask.{Makes, MakesSome};
ghost use Rattle.mm_crash.specs.Journal.{AllCan, above};
ghost use Rattle.mm_journal.specs.Tracks.{last_of};
ghost use Rattle.mm_journal.proofs.Real.{the_format};
ghost use Rattle.mm_recover.specs.declared.fault.Recover.TheVariants.{DiskFault};
ghost use Rattle.mm_recover.specs.Closing.{AreNumbersOfFiles};
ghost use Rattle.mm_recover.specs.Recovering.{newer_of, last_number, replay_asks, IsOfDevice};

use crate::closing::close;
use crate::fault::Recover;
use crate::laying::lay_newer;
use crate::log::Log;
use mm_outside::{Device, Disk};
use mm_section::Section;
use std::alloc::Global;

/// What a recovery did.
#[derive(Clone, Copy, Debug, PartialEq, Eq)]
pub struct Recovered {
    /// The number of the last section that the data files hold, which the lsn file now has.
    pub last: u64,
    /// How many sections were above the old lsn. All of them were laid over the files.
    pub replayed: u64,
}

// The number of the last section; 0 where there is none.
fn last_section(sections: &[Section]) -> u64
    ensures { result ≡ last_of sections.now }
{
    let count = sections.len();
    if count == 0 {
        0
    } else {
        sections[count - 1].number
    }
}

// One section, or none, is above this number.
fn count_one(section: &Section, lsn: u64) -> u64
    ensures counted { result ≡ length (above lsn (section.now ∷ [])) }
    ensures few { result ≤ 1 }
{
    if lsn < section.number { 1 } else { 0 }
}

// How many sections are above this number.
fn count_newer(sections: &[Section], lsn: u64) -> u64
    ensures { result ≡ length (above lsn sections.now) }
{
    let mut count = 0;
    for section in sections {
        count += count_one(section, lsn);
    }
    count
}

// What is to be told of a recovery from this log.
fn outcome(log: &Log) -> Recovered
    ensures last { result.last ≡ last_number log.now.lsn log.now.sections.items }
    ensures replayed { result.replayed ≡ length (newer_of log.now.lsn log.now.sections.items) }
{
    let lsn = log.lsn.unwrap_or(0);
    Recovered {
        last: lsn.max(last_section(&log.sections)),
        replayed: count_newer(&log.sections, lsn),
    }
}

// Lays the sections, syncs the files of these names, writes the number, and removes the journal.
fn make_last<D: Disk>(
    alloc: Global,
    disk: &mut D,
    log: &Log,
    names: &[String],
    last: u64,
) -> Result<(), Device>
    requires can { AllCan the_format log.now.sections.items }
    requires numbers { AreNumbersOfFiles log.now.numbers.items }
    requires last { last ≡ last_number log.now.lsn log.now.sections.items }
    ensures made { OnOk result (Makes (replay_asks log.now.lsn log.now.numbers.items log.now.sections.items (map string_bytes names.now)) (D.told disk.old) (D.told disk.new)) }
    ensures cut { MakesSome (replay_asks log.now.lsn log.now.numbers.items log.now.sections.items (map string_bytes names.now)) (D.told disk.old) (D.told disk.new) }
    ensures cause { HasCause Fault (D.faults disk.old) (D.faults disk.new) result }
{
    lay_newer(alloc, disk, &log.sections, log.lsn.unwrap_or(0))?;
    close(alloc, disk, names, last, &log.numbers)
}

/// Lays the sections above the lsn over the files, syncs the files of these names, writes the last number, and removes the
/// journal, the oldest file first.
pub fn replay<D: Disk>(
    alloc: Global,
    disk: &mut D,
    log: &Log,
    names: &[String],
) -> Result<Recovered, Recover>
    requires can { AllCan the_format log.now.sections.items }
    requires numbers { AreNumbersOfFiles log.now.numbers.items }
    ensures last { IfOk result (λ r. r.last ≡ last_number log.now.lsn log.now.sections.items) }
    ensures replayed { IfOk result (λ r. r.replayed ≡ length (newer_of log.now.lsn log.now.sections.items)) }
    ensures made { OnOk result (Makes (replay_asks log.now.lsn log.now.numbers.items log.now.sections.items (map string_bytes names.now)) (D.told disk.old) (D.told disk.new)) }
    ensures cut { MakesSome (replay_asks log.now.lsn log.now.numbers.items log.now.sections.items (map string_bytes names.now)) (D.told disk.old) (D.told disk.new) }
    ensures cause { HasCause DiskFault (D.faults disk.old) (D.faults disk.new) result }
    ensures err { IfErr result IsOfDevice }
{
    let outcome = outcome(log);
    make_last(alloc, disk, log, names, outcome.last)?;
    Ok(outcome)
}
