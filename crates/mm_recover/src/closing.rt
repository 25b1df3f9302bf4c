//! The end of a recovery: files are synced, the lsn is written, and the journal is removed.

ghost use Rattle.std.specs.Prelude.{◌<◌, ◌^◌, [], ◌∷◌, map, string_bytes, OnOk};
ghost use Rattle.mm_outside.specs.declared.disk.Device.TheVariants.{Fault};
ghost use Rattle.mm_outside.specs.Fault.{HasCause};
ghost use Rattle.mm_outside.specs.Ask.{Makes, MakesSome};
ghost use Rattle.mm_crash.specs.Asks.{sync_asks, remove_asks};
ghost use Rattle.mm_journal.proofs.Real.{the_names};
ghost use Rattle.mm_recover.specs.Closing.{AreNumbersOfFiles, close_asks};

use mm_jfiles::{file_name, write_mark};
use mm_outside::{Device, Disk};
use std::alloc::Global;

/// Syncs the files of these names.
pub fn sync_all<D: Disk>(disk: &mut D, names: &[String]) -> Result<(), Device>
    ensures made { OnOk result (Makes (sync_asks (map string_bytes names.now)) (D.told disk.old) (D.told disk.new)) }
    ensures cut { MakesSome (sync_asks (map string_bytes names.now)) (D.told disk.old) (D.told disk.new) }
    ensures cause { HasCause Fault (D.faults disk.old) (D.faults disk.new) result }
{
    for name in names {
        disk.sync(name)?;
    }
    Ok(())
}

// Removes the journal's file of this number.
fn remove_file<D: Disk>(alloc: Global, disk: &mut D, number: u64) -> Result<(), Device>
    requires { number < 2 ^ 32 }
    ensures made { OnOk result (Makes (remove_asks the_names (number ∷ [])) (D.told disk.old) (D.told disk.new)) }
    ensures cut { MakesSome (remove_asks the_names (number ∷ [])) (D.told disk.old) (D.told disk.new) }
    ensures cause { HasCause Fault (D.faults disk.old) (D.faults disk.new) result }
{
    let name = file_name(alloc, number)?;
    disk.remove(&name)?;
    Ok(())
}

/// Removes the journal's files of these numbers, the first one first.
pub fn remove_all<D: Disk>(alloc: Global, disk: &mut D, numbers: &[u64]) -> Result<(), Device>
    requires { AreNumbersOfFiles numbers.now }
    ensures made { OnOk result (Makes (remove_asks the_names numbers.now) (D.told disk.old) (D.told disk.new)) }
    ensures cut { MakesSome (remove_asks the_names numbers.now) (D.told disk.old) (D.told disk.new) }
    ensures cause { HasCause Fault (D.faults disk.old) (D.faults disk.new) result }
{
    let mut at = 0;
    while at < numbers.len() {
        remove_file(alloc, disk, numbers[at])?;
        at += 1;
    }
    Ok(())
}

/// Syncs the files of these names, writes this number to the lsn file and syncs it, and then removes the journal's files of
/// these numbers, the first one first.
pub fn close<D: Disk>(
    alloc: Global,
    disk: &mut D,
    names: &[String],
    lsn: u64,
    numbers: &[u64],
) -> Result<(), Device>
    requires { AreNumbersOfFiles numbers.now }
    ensures made { OnOk result (Makes (close_asks (map string_bytes names.now) lsn numbers.now) (D.told disk.old) (D.told disk.new)) }
    ensures cut { MakesSome (close_asks (map string_bytes names.now) lsn numbers.now) (D.told disk.old) (D.told disk.new) }
    ensures cause { HasCause Fault (D.faults disk.old) (D.faults disk.new) result }
{
    sync_all(disk, names)?;
    write_mark(disk, lsn)?;
    remove_all(alloc, disk, numbers)
}
