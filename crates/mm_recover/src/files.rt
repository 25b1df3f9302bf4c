//! A file is read whole.

ghost use Rattle.std.specs.Prelude.{◌≡◌, length, unwrap_or, IfOk};
ghost use Rattle.mm_outside.specs.declared.disk.Device.TheVariants.{Fault};
ghost use Rattle.mm_outside.specs.Fault.{HasCause};
ghost use Rattle.mm_outside.specs.Image.{bytes_at};
ghost use Rattle.mm_outside.specs.Told.{IfTold, image_of};
ghost use Rattle.mm_base.specs.Bytes.{zeros};

use mm_outside::{Device, Disk};
use std::alloc::{AllocError, Global};

// So many zeros.
fn room(alloc: Global, len: usize) -> Result<Vec<u8>, AllocError>
    ensures { IfOk result (λ bytes. length bytes.items ≡ len) }
{
    let mut bytes = Vec::new(alloc);
    bytes.resize(len, 0)?;
    Ok(bytes)
}

// The length of a file; 0 of an absent one.
fn length_of<D: Disk>(disk: &mut D, name: &str) -> Result<u64, Device>
    ensures len { IfOk result (λ len. IfTold (D.told disk.old) (λ t. len ≡ length (bytes_at (image_of t) name.now))) }
    ensures told { D.told disk.new ≡ D.told disk.old }
    ensures moment { D.moment disk.new ≡ D.moment disk.old }
    ensures cause { HasCause Fault (D.faults disk.old) (D.faults disk.new) result }
{
    let len = disk.len(name)?;
    Ok(len.unwrap_or(0))
}

/// The bytes of a file; none of an absent one.
pub fn read_file<D: Disk>(alloc: Global, disk: &mut D, name: &str) -> Result<Vec<u8>, Device>
    ensures bytes { IfOk result (λ bytes. IfTold (D.told disk.old) (λ t. bytes.items ≡ bytes_at (image_of t) name.now)) }
    ensures told { D.told disk.new ≡ D.told disk.old }
    ensures moment { D.moment disk.new ≡ D.moment disk.old }
    ensures cause { HasCause Fault (D.faults disk.old) (D.faults disk.new) result }
{
    let len = length_of(disk, name)?;
    let mut bytes = room(alloc, len as usize)?;
    let count = disk.read_at(name, 0, &mut bytes)?;
    bytes.truncate(count);
    Ok(bytes)
}
