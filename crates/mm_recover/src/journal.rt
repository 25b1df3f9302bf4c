//! The journal's files are read, one after another.

ghost use Rattle.std.specs.Prelude.{◌≡◌, ◌+◌, ◌-◌, ◌<◌, ◌≤◌, ◌^◌, true, false, length, take, drop, IfOk, IfErr};
ghost use Rattle.mm_outside.specs.Fault.{HasCause};
ghost use Rattle.mm_outside.specs.Told.{IfTold};
ghost use Rattle.mm_crash.specs.Journal.{AllCan};
ghost use Rattle.mm_journal.proofs.Real.{the_format};
ghost use Rattle.mm_recover.specs.declared.fault.Recover.TheVariants.{DiskFault};
ghost use Rattle.mm_recover.specs.Closing.{AreNumbersOfFiles};
ghost use Rattle.mm_recover.specs.Reading.{AreSmall, TakesFile, HasFileFault, TakesFrom, HasFaultFrom, HasFront, ReadsAs, HasFault, AreNumbers, journal_in};

use crate::fault::Recover;
use crate::files::read_file;
use crate::sections::{read_sections, tail};
use mm_frames::{HeaderKind, JOURNAL_HEADER_LEN, read_journal_header};
use mm_jfiles::file_name;
use mm_outside::Disk;
use mm_section::Section;
use std::alloc::Global;

// The file doesn't begin with its header.
fn bad_header(number: u64) -> Recover
    requires { number < 2 ^ 32 }
    ensures { result ≡ Recover.BadHeader number }
{
    Recover::BadHeader {
        file: number as u32,
    }
}

/// Appends the sections of a file of the journal that has these bytes. The last file may have a broken header, and has none
/// then.
pub fn take_file(
    alloc: Global,
    bytes: &[u8],
    number: u64,
    is_last: bool,
    lsn: Option<u64>,
    sections: Vec<Section>,
) -> Result<Vec<Section>, Recover>
    requires small { AreSmall sections.items }
    requires number { number < 2 ^ 32 }
    ensures small { IfOk result (λ all. AreSmall all.items) }
    ensures takes { IfOk result (λ all. TakesFile lsn number is_last bytes.now sections.items all.items) }
    ensures fault { IfErr result (λ e. HasFileFault lsn number is_last bytes.now sections.items e) }
{
    match read_journal_header(bytes, number + 1) {
        HeaderKind::Ours => {
            let behind = tail(bytes, JOURNAL_HEADER_LEN);
            read_sections(alloc, behind, number + 1, lsn, sections)
        }
        HeaderKind::Foreign => Err(bad_header(number)),
        HeaderKind::Broken => {
            if is_last {
                Ok(sections)
            } else {
                Err(bad_header(number))
            }
        }
    }
}

// The file of this number is read, and its sections come after those of earlier ones.
fn read_one<D: Disk>(
    alloc: Global,
    disk: &mut D,
    number: u64,
    is_last: bool,
    lsn: Option<u64>,
    sections: Vec<Section>,
) -> Result<Vec<Section>, Recover>
    requires small { AreSmall sections.items }
    requires can { AllCan the_format sections.items }
    requires number { number < 2 ^ 32 }
    ensures small { IfOk result (λ all. AreSmall all.items) }
    ensures can { IfOk result (λ all. AllCan the_format all.items) }
    ensures takes { IfOk result (λ all. IfTold (D.told disk.old) (λ t. TakesFrom lsn (journal_in t) number is_last sections.items all.items)) }
    ensures fault { IfErr result (λ e. IfTold (D.told disk.old) (λ t. HasFaultFrom lsn (journal_in t) number is_last sections.items e)) }
    ensures told { D.told disk.new ≡ D.told disk.old }
    ensures moment { D.moment disk.new ≡ D.moment disk.old }
    ensures cause { HasCause DiskFault (D.faults disk.old) (D.faults disk.new) result }
{
    let name = file_name(alloc, number)?;
    let bytes = read_file(alloc, disk, &name)?;
    take_file(alloc, bytes.as_slice(), number, is_last, lsn, sections)
}

// The sections of all files but the last.
fn read_front<D: Disk>(
    alloc: Global,
    disk: &mut D,
    numbers: &[u64],
    lsn: Option<u64>,
) -> Result<Vec<Section>, Recover>
    requires numbers { AreNumbersOfFiles numbers.now }
    requires some { 0 < length numbers.now }
    ensures small { IfOk result (λ all. AreSmall all.items) }
    ensures can { IfOk result (λ all. AllCan the_format all.items) }
    ensures reads { IfOk result (λ all. IfTold (D.told disk.old) (λ t. AreNumbers (journal_in t) 0 numbers.now → HasFront lsn (journal_in t) (take (length numbers.now - 1) numbers.now) all.items)) }
    ensures fault { IfErr result (λ e. IfTold (D.told disk.old) (λ t. AreNumbers (journal_in t) 0 numbers.now → HasFault lsn (journal_in t) e)) }
    ensures told { D.told disk.new ≡ D.told disk.old }
    ensures moment { D.moment disk.new ≡ D.moment disk.old }
    ensures cause { HasCause DiskFault (D.faults disk.old) (D.faults disk.new) result }
{
    let count = numbers.len() - 1;
    let mut sections = Vec::new(alloc);
    let mut at = 0;
    while at < count {
        sections = read_one(alloc, disk, numbers[at], false, lsn, sections)?;
        at += 1;
    }
    Ok(sections)
}

/// The sections of the journal, whose files have these numbers, or its first fault: files are looked at one after another,
/// each its header and then its sections. The last file may have a broken header, and has no section then.
pub fn read_journal<D: Disk>(
    alloc: Global,
    disk: &mut D,
    numbers: &[u64],
    lsn: Option<u64>,
) -> Result<Vec<Section>, Recover>
    requires numbers { AreNumbersOfFiles numbers.now }
    ensures can { IfOk result (λ all. AllCan the_format all.items) }
    ensures reads { IfOk result (λ all. IfTold (D.told disk.old) (λ t. AreNumbers (journal_in t) 0 numbers.now → ReadsAs lsn (journal_in t) numbers.now all.items)) }
    ensures fault { IfErr result (λ e. IfTold (D.told disk.old) (λ t. AreNumbers (journal_in t) 0 numbers.now → HasFault lsn (journal_in t) e)) }
    ensures told { D.told disk.new ≡ D.told disk.old }
    ensures moment { D.moment disk.new ≡ D.moment disk.old }
    ensures cause { HasCause DiskFault (D.faults disk.old) (D.faults disk.new) result }
{
    let count = numbers.len();
    if count == 0 {
        return Ok(Vec::new(alloc));
    }
    let front = read_front(alloc, disk, numbers, lsn)?;
    read_one(alloc, disk, numbers[count - 1], true, lsn, front)
}
