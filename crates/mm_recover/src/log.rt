//! What a disk's journal and lsn file say. Nothing is written here.

ghost use Rattle.std.specs.Prelude.{◌≡◌, ◌<◌, ◌^◌, IfOk, IfErr, IfSome, map, string_bytes};
ghost use Rattle.std.specs.FinMap.{keys};
ghost use Rattle.mm_outside.specs.declared.disk.Device.TheVariants.{Fault};
ghost use Rattle.mm_outside.specs.Fault.{HasCause};
ghost use Rattle.mm_outside.specs.Told.{IfTold, image_of};
ghost use Rattle.mm_crash.specs.Journal.{AllCan};
ghost use Rattle.mm_journal.proofs.Real.{the_format};
ghost use Rattle.mm_recover.specs.declared.fault.Recover.TheVariants.{DiskFault};
ghost use Rattle.mm_recover.specs.Closing.{AreNumbersOfFiles};
ghost use Rattle.mm_recover.specs.Recovering.{ReadsLsn, ReadsLog, IsFaultOf};

use crate::fault::Recover;
use crate::journal::read_journal;
use crate::numbers::numbers_of;
use mm_jfiles::read_mark;
use mm_outside::{Device, Disk};
use mm_section::Section;
use std::alloc::Global;

/// What was read of a disk: the lsn, if it is readable, and the journal's sections with the numbers of its files.
#[derive(Drop)]
pub struct Log {
    pub lsn: Option<u64>,
    pub numbers: Vec<u64>,
    pub sections: Vec<Section>,
}

// A number of 64 bits is one.
fn as_read(lsn: Option<u64>) -> Option<u64>
    ensures same { result ≡ lsn }
    ensures fits { IfSome result (λ n. n < 2 ^ 64) }
{
    match lsn {
        Some(number) => Some(number),
        None => None,
    }
}

// The number of the lsn file, or None where it isn't readable.
fn read_lsn<D: Disk>(disk: &mut D) -> Result<Option<u64>, Device>
    ensures lsn { IfOk result (λ lsn. IfTold (D.told disk.old) (λ t. ReadsLsn (image_of t) lsn)) }
    ensures told { D.told disk.new ≡ D.told disk.old }
    ensures moment { D.moment disk.new ≡ D.moment disk.old }
    ensures cause { HasCause Fault (D.faults disk.old) (D.faults disk.new) result }
{
    let lsn = read_mark(disk)?;
    Ok(as_read(lsn))
}

/// Reads the lsn and the whole journal of a disk whose files have these names, or says the first fault of the journal.
pub fn read_log<D: Disk>(alloc: Global, disk: &mut D, names: &[String]) -> Result<Log, Recover>
    ensures numbers { IfOk result (λ log. AreNumbersOfFiles log.numbers.items) }
    ensures can { IfOk result (λ log. AllCan the_format log.sections.items) }
    ensures reads { IfOk result (λ log. IfTold (D.told disk.old) (λ t. map string_bytes names.now ≡ keys (image_of t) → ReadsLog (image_of t) log.lsn log.numbers.items log.sections.items)) }
    ensures fault { IfErr result (λ e. IfTold (D.told disk.old) (λ t. map string_bytes names.now ≡ keys (image_of t) → IsFaultOf (image_of t) e)) }
    ensures told { D.told disk.new ≡ D.told disk.old }
    ensures moment { D.moment disk.new ≡ D.moment disk.old }
    ensures cause { HasCause DiskFault (D.faults disk.old) (D.faults disk.new) result }
{
    let lsn = read_lsn(disk)?;
    let numbers = numbers_of(alloc, names)?;
    let sections = read_journal(alloc, disk, &numbers, lsn)?;
    Ok(Log {
        lsn,
        numbers,
        sections,
    })
}
