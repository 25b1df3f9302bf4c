//! The files of one database, with the sections above the lsn laid over them, in memory. Nothing is written.

ghost use Rattle.std.specs.Prelude.{◌≡◌, ◌<◌, ◌≤◌, true, Some, length, IsTrue, IfOk, IfErr, IfSome, IfNone, OnOk};
ghost use Rattle.std.specs.FinMap.{get};
ghost use Rattle.mm_ranges.specs.Limits.{is_file, most_of};
ghost use Rattle.mm_views.specs.State.{no_views};
ghost use Rattle.mm_outside.specs.declared.disk.Device.TheVariants.{Fault};
ghost use Rattle.mm_outside.specs.Fault.{HasCause};
ghost use Rattle.mm_outside.specs.Told.{IfTold, image_of};
ghost use Rattle.mm_section.specs.Spells.{is_db_name};
ghost use Rattle.mm_crash.specs.Overlay.{size};
ghost use Rattle.mm_crash.specs.Journal.{AllCan};
ghost use Rattle.mm_journal.proofs.Real.{the_format};
ghost use Rattle.mm_recover.specs.declared.fault.Recover.TheVariants.{DiskFault};
ghost use Rattle.mm_recover.specs.Overlaid.{bytes_of};
ghost use Rattle.mm_recover.specs.Loading.{files_with, order_of, IsQuiet, TakesIn, IsTooLong, HasFirst, TellsTooLong, IsLoaded, IsFaultOfLoad};

use crate::fault::Recover;
use crate::files::read_file;
use crate::log::{Log, read_log};
use crate::names::disk_name;
use crate::overlaying::{Content, DataFile, overlay};
use mm_base::{Name, NoMemory};
use mm_outside::{Device, Disk};
use mm_ranges::{NS_FILE, max_len};
use mm_views::Views;
use std::alloc::Global;

// How many files a database may have: the name file, and 0 to 7.
const FILES: u32 = 9;

// A file of the disk.
fn read_content<D: Disk>(alloc: Global, disk: &mut D, name: &str) -> Result<Content, Device>
    ensures content { IfOk result (λ content. IfTold (D.told disk.old) (λ t. bytes_of content ≡ get (image_of t) name.now)) }
    ensures told { D.told disk.new ≡ D.told disk.old }
    ensures moment { D.moment disk.new ≡ D.moment disk.old }
    ensures cause { HasCause Fault (D.faults disk.old) (D.faults disk.new) result }
{
    match disk.len(name)? {
        None => Ok(None),
        Some(_) => {
            let bytes = read_file(alloc, disk, name)?;
            Ok(Some(bytes))
        }
    }
}

// A file of the database, with the sections above the lsn laid over it.
fn read_laid<D: Disk>(
    alloc: Global,
    disk: &mut D,
    log: &Log,
    name: &Name,
    file: u32,
) -> Result<Content, Device>
    requires name { IsTrue (is_db_name name.now) }
    requires can { AllCan the_format log.now.sections.items }
    ensures content { IfOk result (λ content. IfTold (D.told disk.old) (λ t. bytes_of content ≡ files_with (image_of t) log.now.lsn log.now.sections.items name.now file)) }
    ensures told { D.told disk.new ≡ D.told disk.old }
    ensures moment { D.moment disk.new ≡ D.moment disk.old }
    ensures cause { HasCause Fault (D.faults disk.old) (D.faults disk.new) result }
{
    let own = disk_name(alloc, name.bytes(), file)?;
    let content = read_content(alloc, disk, &own)?;
    let file = DataFile {
        name: *name,
        number: file,
    };
    let laid = overlay(alloc, &file, content, &log.sections, log.lsn.unwrap_or(0))?;
    Ok(laid)
}

// How many bytes a file has; 0 if it is absent.
fn len_of(content: &Content) -> usize
    ensures { result ≡ size (bytes_of content.now) }
{
    match content {
        Some(bytes) => bytes.len(),
        None => 0,
    }
}

// How many bytes a file has, if these are more than it may have.
fn excess(file: u32, content: &Content) -> Option<u64>
    ensures some { IfSome result (λ len. (len ≡ size (bytes_of content.now)) × (most_of file < len)) }
    ensures none { IfNone result (size (bytes_of content.now) ≤ most_of file) }
{
    let len = len_of(content) as u64;
    if len > max_len(file) as u64 {
        Some(len)
    } else {
        None
    }
}

// Both images get a file of these bytes.
fn put_in(views: &mut Views, file: u32, bytes: &[u8]) -> Result<(), NoMemory>
    requires file { IsTrue (is_file file) }
    requires short { length bytes.now ≤ most_of file }
    requires quiet { IsQuiet views.old }
    ensures ok { OnOk result (TakesIn file (Some bytes.now) views.old views.new) }
    ensures quiet { IsQuiet views.new }
{
    let len = bytes.len() as u32;
    views.load(file, len)?;
    views.fill(file, 0, bytes);
    Ok(())
}

// Both images get the file, if it is there.
fn take_in(views: &mut Views, file: u32, content: &Content) -> Result<(), NoMemory>
    requires file { IsTrue (is_file file) }
    requires short { size (bytes_of content.now) ≤ most_of file }
    requires quiet { IsQuiet views.old }
    ensures ok { OnOk result (TakesIn file (bytes_of content.now) views.old views.new) }
    ensures quiet { IsQuiet views.new }
{
    match content {
        Some(bytes) => put_in(views, file, bytes),
        None => Ok(()),
    }
}

// Both images get a file of the database, with the sections above the lsn laid over it.
fn load_file<D: Disk>(
    alloc: Global,
    disk: &mut D,
    log: &Log,
    name: &Name,
    file: u32,
    views: &mut Views,
) -> Result<(), Recover>
    requires file { IsTrue (is_file file) }
    requires name { IsTrue (is_db_name name.now) }
    requires can { AllCan the_format log.now.sections.items }
    requires quiet { IsQuiet views.old }
    ensures ok { OnOk result (IfTold (D.told disk.old) (λ t. TakesIn file (files_with (image_of t) log.now.lsn log.now.sections.items name.now file) views.old views.new)) }
    ensures err { IfErr result (λ e. IfTold (D.told disk.old) (λ t. IsTooLong file (files_with (image_of t) log.now.lsn log.now.sections.items name.now file) e)) }
    ensures quiet { IsQuiet views.new }
    ensures told { D.told disk.new ≡ D.told disk.old }
    ensures moment { D.moment disk.new ≡ D.moment disk.old }
    ensures cause { HasCause DiskFault (D.faults disk.old) (D.faults disk.new) result }
{
    let content = read_laid(alloc, disk, log, name, file)?;
    if let Some(len) = excess(file, &content) {
        return Err(Recover::BadLength { file, len });
    }
    take_in(views, file, &content)?;
    Ok(())
}

// The file at a place in their order: the name file, and then 0 to 7.
fn file_at(place: u32) -> u32
    requires { place < FILES }
    ensures file { is_file result ≡ true }
    ensures order { order_of result ≡ place }
{
    if place == 0 { NS_FILE } else { place - 1 }
}

// Both images get all files of the database.
fn load_files<D: Disk>(
    alloc: Global,
    disk: &mut D,
    log: &Log,
    name: &Name,
    views: &mut Views,
) -> Result<(), Recover>
    requires views { views.old ≡ no_views }
    requires name { IsTrue (is_db_name name.now) }
    requires can { AllCan the_format log.now.sections.items }
    ensures ok { OnOk result (IfTold (D.told disk.old) (λ t. HasFirst (files_with (image_of t) log.now.lsn log.now.sections.items name.now) FILES views.new)) }
    ensures err { IfErr result (λ e. IfTold (D.told disk.old) (λ t. TellsTooLong (files_with (image_of t) log.now.lsn log.now.sections.items name.now) e)) }
    ensures quiet { IsQuiet views.new }
    ensures told { D.told disk.new ≡ D.told disk.old }
    ensures moment { D.moment disk.new ≡ D.moment disk.old }
    ensures cause { HasCause DiskFault (D.faults disk.old) (D.faults disk.new) result }
{
    let mut place = 0;
    while place < FILES {
        load_file(alloc, disk, log, name, file_at(place), views)?;
        place += 1;
    }
    Ok(())
}

/// Loads the files of one database into new views, with the sections of the journal that are above the lsn laid over them: `.ns`
/// first, and then 0 to 7. An absent file stays absent. Both images are the same then, and nothing is made, opened or closed.
/// Nothing is written: the disk is asked for names, lengths and bytes alone.
///
/// `BadHeader` and `JournalGap` come exactly where the journal has such a fault, which is its first. `BadLength` comes exactly
/// where with these sections laid over it `.ns` has more than 16 MiB or a file 0 to 7 more than 64 MiB; it tells the first such
/// file, and how many bytes it has. `DiskFault` comes only where the disk's count of faults rose. After any error the views may
/// have some of the files.
pub fn load<D: Disk>(
    alloc: Global,
    disk: &mut D,
    name: &Name,
    views: &mut Views,
) -> Result<(), Recover>
    requires views { views.old ≡ no_views }
    requires name { IsTrue (is_db_name name.now) }
    // Ok: the views' files are those of the disk with the sections laid over, and of a whole image they are the recovered ones.
    ensures loaded { OnOk result (IfTold (D.told disk.old) (λ t. IsLoaded (image_of t) name.now views.new)) }
    // The fault is the journal's first one, or else the first file that is too long.
    ensures fault { IfErr result (λ e. IfTold (D.told disk.old) (λ t. IsFaultOfLoad (image_of t) name.now e)) }
    ensures quiet { IsQuiet views.new }
    ensures told { D.told disk.new ≡ D.told disk.old }
    ensures moment { D.moment disk.new ≡ D.moment disk.old }
    ensures cause { HasCause DiskFault (D.faults disk.old) (D.faults disk.new) result }
{
    let mut names = Vec::new(alloc);
    disk.names(&mut names)?;
    let log = read_log(alloc, disk, &names)?;
    load_files(alloc, disk, &log, name, views)
}
