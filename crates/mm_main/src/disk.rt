// What a run asks of the disk.
ghost use Rattle.std.specs.Prelude.{◌≡◌, ◌≤◌, [], ◌∷◌, ◌^◌, ◌<◌, length, map, take, IfOk, OnOk, string_bytes, MatchOption};
ghost use Rattle.std.specs.Option.{option_map};
ghost use Rattle.std.specs.FinMap.{keys};
ghost use Rattle.mm_outside.specs.declared.disk.Device.TheVariants.{Fault};
ghost use Rattle.mm_outside.specs.Fault.{HasCause};
ghost use Rattle.mm_outside.specs.Image.{bytes_at};
ghost use Rattle.mm_outside.specs.Told.{IfTold, image_of};
ghost use Rattle.mm_outside.specs.Ask.{Makes, MakesSome, new_file_asks};
ghost use Rattle.mm_main.specs.FirstFile.{IsFirstFile};

use mm_outside::{Device, Disk};
use std::alloc::Global;

/// The one data file.
pub const FILE_NAME: &str = "test.0";

/// The first file of a disk in the order of names, if there is one.
pub fn first_file<D: Disk>(alloc: Global, disk: &mut D) -> Result<Option<String>, Device>
    ensures first { IfOk result (λ found. IfTold (D.told disk.old) (λ t. IsFirstFile (option_map string_bytes found) (keys (image_of t)))) }
    ensures told { D.told disk.new ≡ D.told disk.old }
    ensures moment { D.moment disk.new ≡ D.moment disk.old }
    ensures cause { HasCause Fault (D.faults disk.old) (D.faults disk.new) result }
{
    let mut names = names_of(alloc, disk)?;
    if names.is_empty() {
        return Ok(None);
    }
    Ok(Some(names.swap_remove(0)))
}

/// The names of a disk's files, in byte order.
pub fn names_of<D: Disk>(alloc: Global, disk: &mut D) -> Result<Vec<String>, Device>
    ensures names { IfOk result (λ names. IfTold (D.told disk.old) (λ t. map string_bytes names.items ≡ keys (image_of t))) }
    ensures told { D.told disk.new ≡ D.told disk.old }
    ensures moment { D.moment disk.new ≡ D.moment disk.old }
    ensures cause { HasCause Fault (D.faults disk.old) (D.faults disk.new) result }
{
    let mut names = Vec::new(alloc);
    disk.names(&mut names)?;
    Ok(names)
}

/// The first bytes of a file, so many, or all where it has fewer.
pub fn read_first<D: Disk>(
    alloc: Global,
    disk: &mut D,
    name: &str,
    most: usize,
) -> Result<Vec<u8>, Device>
    ensures read { IfOk result (λ bytes. IfTold (D.told disk.old) (λ t. bytes.items ≡ take most (bytes_at (image_of t) name.now))) }
    ensures told { D.told disk.new ≡ D.told disk.old }
    ensures moment { D.moment disk.new ≡ D.moment disk.old }
    ensures cause { HasCause Fault (D.faults disk.old) (D.faults disk.new) result }
{
    let mut bytes = vec![in alloc; 0; most]?;
    let n = disk.read_at(name, 0, &mut bytes)?;
    bytes.truncate(n);
    Ok(bytes)
}

/// Writes a file whole and syncs it.
pub fn write_file<D: Disk>(disk: &mut D, name: &str, bytes: &[u8]) -> Result<(), Device>
    requires { length bytes.now < 2 ^ 64 }
    ensures made { OnOk result (Makes (new_file_asks name.now bytes.now) (D.told disk.old) (D.told disk.new)) }
    ensures some { MakesSome (new_file_asks name.now bytes.now) (D.told disk.old) (D.told disk.new) }
    ensures cause { HasCause Fault (D.faults disk.old) (D.faults disk.new) result }
{
    disk.create(name)?;
    disk.write_at(name, 0, bytes)?;
    disk.sync(name)?;
    Ok(())
}
