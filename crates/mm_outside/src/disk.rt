ghost use Rattle.std.specs.Prelude.{◌≡◌, ◌<◌, ◌≤◌, ◌+◌, ◌-◌, ◌^◌, ◌++◌, ℕ, List, length, take, drop, min, map, Option, Some, IfOk, OnOk, OnErr, string_bytes};
ghost use Rattle.std.specs.Option.{option_map};
ghost use Rattle.std.specs.FinMap.{get, keys};
ghost use Rattle.mm_outside.specs.declared.disk.Device.TheVariants.{Fault, NoMemory};
ghost use Rattle.mm_outside.specs.Fault.{HasCause};
ghost use Rattle.mm_bytes.specs.Files.{read_from};
ghost use Rattle.mm_outside.specs.Image.{bytes_at};
ghost use Rattle.mm_outside.specs.Told.{Told, Becomes, IfTold, Counts, told_after, image_of, Creates, Writes, Resizes, Syncs, Removes};

use std::alloc::{AllocError, AllocFailed};
use thiserror::Error;

/// Why a call of a disk didn't do what it was asked.
#[derive(Clone, Copy, Debug, PartialEq, Eq, Error)]
pub enum Device {
    /// The disk failed. Its count of faults rose. A changing call that answers so has begun, and may be done in part.
    #[error("the disk failed")]
    Fault,
    /// Memory was wanting. A changing call that answers so has not begun.
    #[error("out of memory")]
    NoMemory,
}

impl From<AllocError> for Device {
    ghost from_gives = { λ _ e. e ≡ NoMemory };

    fn from(_: AllocError) -> Self {
        Device::NoMemory
    }
}

impl<T: Drop> From<AllocFailed<T>> for Device {
    ghost from_gives = { λ _ e. e ≡ NoMemory };

    fn from(_: AllocFailed<T>) -> Self {
        Device::NoMemory
    }
}

/// Files by name, as a flat folder has them, which a crash may tear.
///
/// Lengths and offsets are in bytes. The changing calls are `create`, `write_at`, `set_len`, `sync` and `remove`.
/// Each of them raises the moment by one as it begins. One that answers `Fault` has begun, also where the disk refuses
/// the name; one that answers `NoMemory` has not. After a fault the disk reads as if the call had not been made, but a
/// crash may find it done, or done in part, until the file is synced.
///
/// What a crash leaves: of a file that was synced, what is read. Of any other, a length between the least and the
/// greatest that it had since its last sync, in which each written range, and all past the least length, may hold
/// any bytes. A creation and a removal last once they are done; while they are not, the file may be there or not.
pub trait Disk {
    /// What it has been asked, where it tells. What it reads, and what a crash leaves, follows.
    ghost told: { Self → Option Told };

    /// How many changing calls have begun. It stands at 2^64 - 1 at the end, and a call from there on is a fault.
    ghost moment: { Self → ℕ };

    /// How often it has failed. It stands at 2^64 - 1 at the end.
    ghost faults: { Self → ℕ };

    /// Appends the names of all files, in byte order. After an error the list is as it was.
    fn names(&mut self, out: &mut Vec<String>) -> Result<(), Device>
        ensures names { OnOk result (IfTold (told self.old) (λ t. map string_bytes out.new.items ≡ map string_bytes out.old.items ++ keys (image_of t))) }
        ensures err { OnErr result (out.new.items ≡ out.old.items) }
        ensures told { told self.new ≡ told self.old }
        ensures moment { moment self.new ≡ moment self.old }
        ensures cause { HasCause Fault (faults self.old) (faults self.new) result };

    /// The length of a file, or None where it isn't there.
    fn len(&mut self, name: &str) -> Result<Option<u64>, Device>
        ensures len { IfOk result (λ len. IfTold (told self.old) (λ t. len ≡ option_map length (get (image_of t) name.now))) }
        ensures told { told self.new ≡ told self.old }
        ensures moment { moment self.new ≡ moment self.old }
        ensures cause { HasCause Fault (faults self.old) (faults self.new) result };

    /// Fills `out` from its front with the bytes from `at` on, as many as the file has there, and says how many.
    /// An absent file has none. After an error `out` may hold anything.
    fn read_at(&mut self, name: &str, at: u64, out: &mut [u8]) -> Result<usize, Device>
        ensures count { IfOk result (λ n. n ≤ length out.old) }
        ensures filled { IfOk result (λ n. IfTold (told self.old) (λ t. n ≡ min (length out.old) (length (bytes_at (image_of t) name.now) - at))) }
        ensures bytes { IfOk result (λ n. IfTold (told self.old) (λ t. out.new ≡ read_from at n (bytes_at (image_of t) name.now) ++ drop n out.old)) }
        ensures told { told self.new ≡ told self.old }
        ensures moment { moment self.new ≡ moment self.old }
        ensures cause { HasCause Fault (faults self.old) (faults self.new) result };

    /// Makes an empty file. One that is there stays as it is.
    fn create(&mut self, name: &str) -> Result<(), Device>
        ensures told { Becomes (told self.old) (told self.new) (told_after name.now Creates result) }
        ensures moment { Counts (moment self.old) (moment self.new) result }
        ensures cause { HasCause Fault (faults self.old) (faults self.new) result };

    /// Writes all the bytes at `at`, with zeros in a gap between the old end and `at`. An absent file stays absent,
    /// and that is no fault.
    fn write_at(&mut self, name: &str, at: u64, bytes: &[u8]) -> Result<(), Device>
        requires { at + length bytes.now < 2 ^ 64 }
        ensures told { Becomes (told self.old) (told self.new) (told_after name.now (Writes at bytes.now) result) }
        ensures moment { Counts (moment self.old) (moment self.new) result }
        ensures cause { HasCause Fault (faults self.old) (faults self.new) result };

    /// Gives the file this length: cuts it off, or puts zeros behind it. An absent file stays absent, and that is
    /// no fault.
    fn set_len(&mut self, name: &str, len: u64) -> Result<(), Device>
        ensures told { Becomes (told self.old) (told self.new) (told_after name.now (Resizes len) result) }
        ensures moment { Counts (moment self.old) (moment self.new) result }
        ensures cause { HasCause Fault (faults self.old) (faults self.new) result };

    /// Makes what is read last: once it is done, a crash leaves of the file what a read gives. For an absent file it
    /// does nothing, and that is no fault.
    fn sync(&mut self, name: &str) -> Result<(), Device>
        ensures told { Becomes (told self.old) (told self.new) (told_after name.now Syncs result) }
        ensures moment { Counts (moment self.old) (moment self.new) result }
        ensures cause { HasCause Fault (faults self.old) (faults self.new) result };

    /// Removes the file. That it isn't there is no fault.
    fn remove(&mut self, name: &str) -> Result<(), Device>
        ensures told { Becomes (told self.old) (told self.new) (told_after name.now Removes result) }
        ensures moment { Counts (moment self.old) (moment self.new) result }
        ensures cause { HasCause Fault (faults self.old) (faults self.new) result };

    /// How many changing calls have begun.
    fn moment(&self) -> u64
        ensures { result ≡ moment self.now };

    /// What is told has each of them.
    ghost counts: { (disk : Self) (t : Told) → told disk ≡ Some t → moment disk ≡ length t.calls };
}

impl<D: Disk> Disk for &mut D {
    ghost told = { λ disk. D.told disk.now };

    ghost moment = { λ disk. D.moment disk.now };

    ghost faults = { λ disk. D.faults disk.now };

    ghost counts = { λ disk t is. D.counts disk.now t is };

    fn names(&mut self, out: &mut Vec<String>) -> Result<(), Device> {
        (**self).names(out)
    }

    fn len(&mut self, name: &str) -> Result<Option<u64>, Device> {
        (**self).len(name)
    }

    fn read_at(&mut self, name: &str, at: u64, out: &mut [u8]) -> Result<usize, Device> {
        (**self).read_at(name, at, out)
    }

    fn create(&mut self, name: &str) -> Result<(), Device> {
        (**self).create(name)
    }

    fn write_at(&mut self, name: &str, at: u64, bytes: &[u8]) -> Result<(), Device> {
        (**self).write_at(name, at, bytes)
    }

    fn set_len(&mut self, name: &str, len: u64) -> Result<(), Device> {
        (**self).set_len(name, len)
    }

    fn sync(&mut self, name: &str) -> Result<(), Device> {
        (**self).sync(name)
    }

    fn remove(&mut self, name: &str) -> Result<(), Device> {
        (**self).remove(name)
    }

    fn moment(&self) -> u64 {
        (**self).moment()
    }
}
