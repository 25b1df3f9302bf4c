//! The mark of the last section that all data files hold: the lsn file.

ghost use Rattle.std.specs.Prelude.{◌≡◌, ◌≢◌, ◌<◌, ◌^◌, ℕ, slice_index, IfOk, IfSome, IfNone, OnOk};
ghost use Rattle.mm_frames.specs.Lsn.{lsn_bytes};
ghost use Rattle.mm_outside.specs.declared.disk.Device.TheVariants.{Fault};
ghost use Rattle.mm_outside.specs.Fault.{HasCause};
ghost use Rattle.mm_outside.specs.Image.{bytes_at};
ghost use Rattle.mm_outside.specs.Told.{IfTold, image_of};
ghost use Rattle.mm_outside.specs.Ask.{Makes, MakesSome};
ghost use Rattle.mm_jfiles.specs.Names.{lsn_name};
ghost use Rattle.mm_jfiles.specs.Marks.{HasMark, mark_asks};

use crate::names::lsn_name;
use mm_frames::{LSN_LEN, put_lsn, read_lsn};
use mm_outside::{Device, Disk};

// A byte more than the lsn file has, so that a longer file shows.
const READ_LEN: usize = 89;

// The number that these bytes spell, if they spell one.
fn lsn_of(bytes: &[u8]) -> Option<u64>
    ensures some { IfSome result (λ lsn. bytes.now ≡ lsn_bytes lsn) }
    ensures none { IfNone result ((lsn : ℕ) → lsn < 2 ^ 64 → bytes.now ≢ lsn_bytes lsn) }
    ensures bytes { (i : ℕ) → slice_index bytes.now i < 256 }
{
    read_lsn(bytes)
}

/// The number that the lsn file holds, or None where it isn't exactly the spelling of one.
pub fn read_mark<D: Disk>(disk: &mut D) -> Result<Option<u64>, Device>
    ensures mark { IfOk result (λ mark. IfTold (D.told disk.old) (λ t. HasMark (bytes_at (image_of t) lsn_name) mark)) }
    // What is read of a file are bytes.
    ensures bytes { OnOk result (IfTold (D.told disk.old) (λ t. (i : ℕ) → i < 89 → slice_index (bytes_at (image_of t) lsn_name) i < 256)) }
    ensures told { D.told disk.new ≡ D.told disk.old }
    ensures moment { D.moment disk.new ≡ D.moment disk.old }
    ensures cause { HasCause Fault (D.faults disk.old) (D.faults disk.new) result }
{
    let mut bytes = [0; READ_LEN];
    let len = disk.read_at(lsn_name(), 0, &mut bytes)?;
    Ok(lsn_of(&bytes[..len]))
}

/// Makes the lsn file the spelling of this number, and syncs it.
pub fn write_mark<D: Disk>(disk: &mut D, lsn: u64) -> Result<(), Device>
    ensures made { OnOk result (Makes (mark_asks lsn) (D.told disk.old) (D.told disk.new)) }
    ensures cut { MakesSome (mark_asks lsn) (D.told disk.old) (D.told disk.new) }
    ensures cause { HasCause Fault (D.faults disk.old) (D.faults disk.new) result }
{
    let name = lsn_name();
    let mut bytes = [0; LSN_LEN];
    put_lsn(&mut bytes, lsn);
    disk.create(name)?;
    disk.set_len(name, LSN_LEN as u64)?;
    disk.write_at(name, 0, &bytes)?;
    disk.sync(name)?;
    Ok(())
}
