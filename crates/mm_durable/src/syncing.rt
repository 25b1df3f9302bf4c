//! The files of databases are synced.

ghost use Rattle.std.specs.Prelude.{◌≡◌, ◌∷◌, [], IsTrue, OnOk};
ghost use Rattle.mm_outside.specs.declared.disk.Device.TheVariants.{Fault};
ghost use Rattle.mm_outside.specs.Fault.{HasCause};
ghost use Rattle.mm_outside.specs.Ask.{Makes, MakesSome};
ghost use Rattle.mm_section.specs.Spells.{is_db_name};
ghost use Rattle.mm_crash.specs.Asks.{sync_asks};
ghost use Rattle.mm_journal.specs.Real.{disk_name};
ghost use Rattle.mm_durable.specs.Names.{AreDatabases, files_of, names_of, all_files};

use mm_base::Name;
use mm_outside::{Device, Disk};
use mm_ranges::NS_FILE;
use mm_recover::disk_name;
use std::alloc::Global;

// The numbers of the files that a database may have.
const FILES: [u32; 9] = [NS_FILE, 0, 1, 2, 3, 4, 5, 6, 7];

fn sync_file<D: Disk>(alloc: Global, disk: &mut D, name: &[u8], file: u32) -> Result<(), Device>
    requires { IsTrue (is_db_name name.now) }
    ensures made { OnOk result (Makes (sync_asks (disk_name name.now file ∷ [])) (D.told disk.old) (D.told disk.new)) }
    ensures cut { MakesSome (sync_asks (disk_name name.now file ∷ [])) (D.told disk.old) (D.told disk.new) }
    ensures cause { HasCause Fault (D.faults disk.old) (D.faults disk.new) result }
{
    let text = disk_name(alloc, name, file)?;
    disk.sync(&text)?;
    Ok(())
}

// Syncs the files of these numbers.
fn sync_files<D: Disk>(
    alloc: Global,
    disk: &mut D,
    name: &[u8],
    files: &[u32],
) -> Result<(), Device>
    requires { IsTrue (is_db_name name.now) }
    ensures made { OnOk result (Makes (sync_asks (names_of name.now files.now)) (D.told disk.old) (D.told disk.new)) }
    ensures cut { MakesSome (sync_asks (names_of name.now files.now)) (D.told disk.old) (D.told disk.new) }
    ensures cause { HasCause Fault (D.faults disk.old) (D.faults disk.new) result }
{
    for file in files {
        sync_file(alloc, disk, name, *file)?;
    }
    Ok(())
}

// Syncs each file that the database may have.
fn sync_database<D: Disk>(alloc: Global, disk: &mut D, name: &[u8]) -> Result<(), Device>
    requires { IsTrue (is_db_name name.now) }
    ensures made { OnOk result (Makes (sync_asks (files_of name.now)) (D.told disk.old) (D.told disk.new)) }
    ensures cut { MakesSome (sync_asks (files_of name.now)) (D.told disk.old) (D.told disk.new) }
    ensures cause { HasCause Fault (D.faults disk.old) (D.faults disk.new) result }
{
    sync_files(alloc, disk, name, &FILES)
}

/// Syncs each file that one of these databases may have. One that isn't there is none.
pub fn sync_databases<D: Disk>(alloc: Global, disk: &mut D, names: &[Name]) -> Result<(), Device>
    requires { AreDatabases names.now }
    ensures made { OnOk result (Makes (sync_asks (all_files names.now)) (D.told disk.old) (D.told disk.new)) }
    ensures cut { MakesSome (sync_asks (all_files names.now)) (D.told disk.old) (D.told disk.new) }
    ensures cause { HasCause Fault (D.faults disk.old) (D.faults disk.new) result }
{
    for name in names {
        sync_database(alloc, disk, name.bytes())?;
    }
    Ok(())
}
