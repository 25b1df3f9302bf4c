// One file after some of the calls: as it reads, and what a crash may leave of it.
ghost use Rattle.std.specs.Prelude.{◌≡◌, ◌+◌, ◌<◌, ◌^◌, [], false, length, Option, IfOk, if◌then◌else◌};
ghost use Rattle.mm_bytes.specs.Files.{overwritten, resized};
ghost use Rattle.mm_outside.specs.Told.{Creates, Writes, Resizes, Syncs, Removes};
ghost use Rattle.mm_memdisk.specs.Calls.{CanBegin, change_of};
ghost use Rattle.std.specs.Option.{option_map};
ghost use Rattle.mm_outside.specs.Told.{nothing_pending};
ghost use Rattle.mm_memdisk.specs.Traced.{StepsBy, StartsAs, RangeAdded, LengthAdded};

use crate::call::{Begun, Change};
use crate::files::{overwrite, resize};
use std::alloc::{AllocError, Global};

/// What is pending of a file since its last sync: the least and the greatest length that it had, and the ranges that were
/// written, each from an offset up to another, the newest first. Where its creation or its removal was stopped, it is unsure.
#[derive(Drop)]
pub struct Unsettled {
    pub least: u64,
    pub greatest: u64,
    pub ranges: Vec<(u64, u64)>,
    pub is_unsure: bool,
}

/// A file that is there: its bytes, those of its last sync, and those that it has if each stopped write counts as done.
#[derive(Drop)]
pub struct Contents {
    pub read: Vec<u8>,
    pub synced: Vec<u8>,
    pub written: Vec<u8>,
}

/// A file that may be there, and what is pending of it.
#[derive(Drop)]
pub struct Traced {
    pub contents: Option<Contents>,
    pub pending: Unsettled,
}

// Nothing is pending of a file of this length.
fn settled(alloc: Global, len: u64) -> Unsettled
    ensures least { result.least ≡ len }
    ensures greatest { result.greatest ≡ len }
    ensures ranges { result.ranges.items ≡ [] }
    ensures sure { result.is_unsure ≡ false }
{
    Unsettled {
        least: len,
        greatest: len,
        ranges: Vec::new(alloc),
        is_unsure: false,
    }
}

// A file with these bytes, of which nothing is pending.
fn contents_of(alloc: Global, bytes: Vec<u8>) -> Result<Contents, AllocError>
    ensures { IfOk result (λ c. (c.read.items ≡ bytes.items) × ((c.synced.items ≡ bytes.items) × (c.written.items ≡ bytes.items))) }
{
    let synced = bytes.to_vec(alloc)?;
    let written = bytes.to_vec(alloc)?;
    Ok(Contents {
        read: bytes,
        synced,
        written,
    })
}

/// The file at first, with nothing pending.
pub fn first_trace(alloc: Global, file: Option<&Vec<u8>>) -> Result<Traced, AllocError>
    ensures { IfOk result (λ traced. StartsAs (option_map (λ bytes. bytes.now.items) file.entry) traced) }
{
    match file {
        Some(bytes) => present(alloc, bytes),
        None => Ok(absent(alloc)),
    }
}

// No file at first.
fn absent(alloc: Global) -> Traced
    ensures { StartsAs None result }
{
    Traced {
        contents: None,
        pending: settled(alloc, 0),
    }
}

// A file that is there at first.
fn present(alloc: Global, bytes: &[u8]) -> Result<Traced, AllocError>
    ensures { IfOk result (λ traced. StartsAs (Some bytes.now) traced) }
{
    let pending = settled(alloc, bytes.len() as u64);
    let contents = contents_of(alloc, bytes.to_vec(alloc)?)?;
    Ok(Traced {
        contents: Some(contents),
        pending,
    })
}

// A file that was made.
fn empty(alloc: Global) -> Contents
    ensures read { result.read.items ≡ [] }
    ensures synced { result.synced.items ≡ [] }
    ensures written { result.written.items ≡ [] }
{
    Contents {
        read: Vec::new(alloc),
        synced: Vec::new(alloc),
        written: Vec::new(alloc),
    }
}

// The file after a write of these bytes. One that was stopped is not read, and may be left.
fn written(old: Contents, at: usize, bytes: &[u8], is_done: bool) -> Result<Contents, AllocError>
    requires { at + length bytes.now < 2 ^ 64 }
    ensures read { IfOk result (λ c. c.read.items ≡ (if is_done then overwritten at bytes.now old.read.items else old.read.items)) }
    ensures synced { IfOk result (λ c. c.synced.items ≡ old.synced.items) }
    ensures written { IfOk result (λ c. c.written.items ≡ overwritten at bytes.now old.written.items) }
{
    let mut read = old.read;
    let mut written = old.written;
    if is_done {
        overwrite(&mut read, at, bytes)?;
    }
    overwrite(&mut written, at, bytes)?;
    Ok(Contents {
        read,
        synced: old.synced,
        written,
    })
}

// The same after the file was given a length.
fn resized(old: Contents, len: usize, is_done: bool) -> Result<Contents, AllocError>
    ensures read { IfOk result (λ c. c.read.items ≡ (if is_done then resized len old.read.items else old.read.items)) }
    ensures synced { IfOk result (λ c. c.synced.items ≡ old.synced.items) }
    ensures written { IfOk result (λ c. c.written.items ≡ resized len old.written.items) }
{
    let mut read = old.read;
    let mut written = old.written;
    if is_done {
        resize(&mut read, len)?;
    }
    resize(&mut written, len)?;
    Ok(Contents {
        read,
        synced: old.synced,
        written,
    })
}

// The range from `at` up to `end` was written.
fn with_range(old: Unsettled, at: u64, end: u64) -> Result<Unsettled, AllocError>
    ensures { IfOk result (λ p. RangeAdded old at end p) }
{
    let mut ranges = old.ranges;
    ranges.insert(0, (at, end))?;
    Ok(Unsettled {
        least: old.least,
        greatest: old.greatest.max(end),
        ranges,
        is_unsure: old.is_unsure,
    })
}

// The file had this length.
fn with_len(old: Unsettled, len: u64) -> Unsettled
    ensures { LengthAdded old len result }
{
    Unsettled {
        least: old.least.min(len),
        greatest: old.greatest.max(len),
        ranges: old.ranges,
        is_unsure: old.is_unsure,
    }
}

fn create(alloc: Global, old: Traced, is_done: bool) -> Traced
    ensures { StepsBy Creates is_done old result }
{
    if old.contents.is_some() {
        return old;
    }
    let mut pending = settled(alloc, 0);
    pending.is_unsure = !is_done;
    let contents = if is_done { Some(empty(alloc)) } else { None };
    Traced { contents, pending }
}

fn write(old: Traced, at: u64, bytes: &[u8], is_done: bool) -> Result<Traced, AllocError>
    requires { at + length bytes.now < 2 ^ 64 }
    ensures { IfOk result (λ new. StepsBy (Writes at bytes.now) is_done old new) }
{
    let Traced { contents, pending } = old;
    let Some(contents) = contents else {
        return Ok(Traced {
            contents: None,
            pending,
        });
    };
    let contents = written(contents, at as usize, bytes, is_done)?;
    let pending = with_range(pending, at, at + bytes.len() as u64)?;
    Ok(Traced {
        contents: Some(contents),
        pending,
    })
}

fn set_len(old: Traced, len: u64, is_done: bool) -> Result<Traced, AllocError>
    ensures { IfOk result (λ new. StepsBy (Resizes len) is_done old new) }
{
    let Traced { contents, pending } = old;
    let Some(contents) = contents else {
        return Ok(Traced {
            contents: None,
            pending,
        });
    };
    let contents = resized(contents, len as usize, is_done)?;
    Ok(Traced {
        contents: Some(contents),
        pending: with_len(pending, len),
    })
}

fn sync(alloc: Global, old: Traced, is_done: bool) -> Result<Traced, AllocError>
    ensures { IfOk result (λ new. StepsBy Syncs is_done old new) }
{
    if !is_done {
        return Ok(old);
    }
    let Traced { contents, pending } = old;
    let Some(contents) = contents else {
        return Ok(Traced {
            contents: None,
            pending,
        });
    };
    let len = contents.read.len() as u64;
    let contents = contents_of(alloc, contents.read)?;
    Ok(Traced {
        contents: Some(contents),
        pending: settled(alloc, len),
    })
}

fn remove(alloc: Global, old: Traced, is_done: bool) -> Traced
    ensures { StepsBy Removes is_done old result }
{
    if is_done {
        return Traced {
            contents: None,
            pending: settled(alloc, 0),
        };
    }
    let Traced {
        contents,
        mut pending,
    } = old;
    pending.is_unsure = pending.is_unsure || contents.is_some();
    Traced { contents, pending }
}

/// The file after one call more for it.
pub fn after_call(alloc: Global, old: Traced, begun: &Begun) -> Result<Traced, AllocError>
    requires { CanBegin begun.now.change }
    ensures { IfOk result (λ new. StepsBy (change_of begun.now.change) begun.now.is_done old new) }
{
    let is_done = begun.is_done;
    match &begun.change {
        Change::Create => Ok(create(alloc, old, is_done)),
        Change::WriteAt { at, bytes } => write(old, *at, bytes, is_done),
        Change::SetLen { len } => set_len(old, *len, is_done),
        Change::Sync => sync(alloc, old, is_done),
        Change::Remove => Ok(remove(alloc, old, is_done)),
    }
}
