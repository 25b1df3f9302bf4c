//! The whole recovery of a disk.

ghost use Rattle.std.specs.Prelude.{◌≡◌, IfOk, IfErr, OnOk, map, string_bytes};
ghost use Rattle.std.specs.FinMap.{keys};
ghost use Rattle.mm_outside.specs.declared.disk.Device.TheVariants.{Fault};
ghost use Rattle.mm_outside.specs.Fault.{HasCause};
ghost use Rattle.mm_outside.specs.Told.{IfTold, image_of};
ghost use Rattle.mm_recover.specs.declared.fault.Recover.TheVariants.{DiskFault};
ghost use Rattle.mm_recover.specs.Crashes.{RecoversAtAnyDepth};
ghost use Rattle.mm_recover.specs.Recovering.{Settles, SettlesSome, IsFaultOf, OnlySettled, Replays, EndsRecovered, KeepsRecovery, KeepsSettled};

use crate::closing::sync_all;
use crate::fault::Recover;
use crate::log::read_log;
use crate::replaying::{Recovered, replay};
use crate::touched::touched;
use mm_outside::{Device, Disk};
use std::alloc::Global;

// Syncs every file that is there, and says their names.
fn settle<D: Disk>(alloc: Global, disk: &mut D) -> Result<Vec<String>, Device>
    ensures names { IfOk result (λ names. IfTold (D.told disk.old) (λ t. map string_bytes names.items ≡ keys (image_of t))) }
    ensures made { OnOk result (Settles (D.told disk.old) (D.told disk.new)) }
    ensures cut { SettlesSome (D.told disk.old) (D.told disk.new) }
    ensures cause { HasCause Fault (D.faults disk.old) (D.faults disk.new) result }
{
    let mut names = Vec::new(alloc);
    disk.names(&mut names)?;
    sync_all(disk, &names)?;
    Ok(names)
}

/// Recovers the data files of a disk from its journal.
///
/// Every file is synced first. Then the lsn and the journal are read, the sections above the lsn are laid over the files, the
/// touched files are synced, the lsn is written as the greater of the old one and the last section and synced, and the
/// journal's files are removed, the oldest first.
///
/// `BadHeader` and `JournalGap` come exactly where the journal has such a fault, which is its first; nothing was written then.
/// `DiskFault` comes only where the disk's count of faults rose. After it, and after want of memory, the recovery may be made
/// again: whatever stopped it, a crash leaves files that recover to the same.
pub fn recover<D: Disk>(alloc: Global, disk: &mut D) -> Result<Recovered, Recover>
    // Ok: what the files, the lsn and the journal are afterwards, and what the two numbers are, whatever the disk was.
    ensures replays { IfOk result (λ r. Replays r (D.told disk.old) (D.told disk.new)) }
    // Ok, of a whole image: the data files are those of its recovery, with nothing pending.
    ensures recovered { IfOk result (λ r. EndsRecovered r (D.told disk.old) (D.told disk.new)) }
    // At every moment since the call began a crash leaves whole images with the same recovered files.
    ensures any_moment { KeepsRecovery (D.told disk.old) (D.told disk.new) }
    // The same since the first syncs, of a disk that they settle.
    ensures since_settled { KeepsSettled (D.told disk.old) (D.told disk.new) }
    // The fault is the journal's first one, and then nothing was written.
    ensures fault { IfErr result (λ e. IfTold (D.told disk.old) (λ t. IsFaultOf (image_of t) e)) }
    ensures unwritten { IfErr result (λ e. OnlySettled e (D.told disk.old) (D.told disk.new)) }
    ensures cause { HasCause DiskFault (D.faults disk.old) (D.faults disk.new) result }
{
    let names = settle(alloc, disk)?;
    let log = read_log(alloc, disk, &names)?;
    let names = touched(alloc, &log.sections, log.lsn.unwrap_or(0))?;
    replay(alloc, disk, &log, &names)
}

/// A law: a whole image is whole after any number of crashes within recoveries, with the same recovered files. It does nothing.
pub fn any_depth()
    ensures { RecoversAtAnyDepth }
{}
