//! Files that were loaded into views: nothing is opened or closed, so that bytes may be changed in place.

ghost use Rattle.std.specs.Prelude.{◌≡◌, ◌+◌, ◌≤◌, true, length, IsSome, IfOk};
ghost use Rattle.std.specs.FinMap.{get};
ghost use Rattle.mm_ranges.specs.Overlay.{bytes_at};
ghost use Rattle.mm_cases_check.specs.Loaded.{IsLoaded};

use anyhow::{Result, bail};
use mm_ranges::{is_file, max_len};
use mm_views::{NS_FILE, Views};
use std::alloc::{AllocError, Global};

/// The files that a database may have.
const FILES: [u32; 9] = [NS_FILE, 0, 1, 2, 3, 4, 5, 6, 7];

/// Bytes at a place of a file.
#[derive(Drop)]
pub(crate) struct Change {
    pub(crate) file: u32,
    pub(crate) at: u32,
    pub(crate) bytes: Vec<u8>,
}

/// Whether a file has so many bytes from a place on.
pub(crate) fn is_inside(views: &Views, file: u32, at: u32, len: usize) -> bool
    ensures there { result ≡ true → IsSome (get views.now.private file) }
    ensures inside { result ≡ true → at + len ≤ length (bytes_at views.now.private file) }
{
    match views.len(file) {
        Some(most) => len <= most as usize && at as usize <= most as usize - len,
        None => false,
    }
}

// How many bytes a file has, 0 where it isn't there.
fn len_of(views: &Views, file: u32) -> u32
    ensures { result ≡ length (bytes_at views.now.private file) }
{
    match views.len(file) {
        Some(len) => len,
        None => 0,
    }
}

// The bytes of a file up to a length.
fn front_of(alloc: Global, views: &Views, file: u32, len: u32) -> Result<Vec<u8>, AllocError>
    ensures { IfOk result (λ bytes. length bytes.items ≤ len) }
{
    let least = len_of(views, file).min(len);
    let mut bytes = vec![in alloc; 0; least as usize]?;
    views.read(file, 0, &mut bytes);
    Ok(bytes)
}

/// The files of a database, held.
#[derive(Drop)]
pub(crate) struct Files {
    held: Views,
    ghost loaded: { IsLoaded held },
}

impl Files {
    /// No files.
    pub(crate) fn new(alloc: Global) -> Files {
        Files {
            held: Views::new(alloc),
        }
    }

    /// The views that hold them.
    pub(crate) fn views(&self) -> &Views {
        &self.held
    }

    // Puts in a file of zeros, with these bytes in front.
    fn put(&mut self, file: u32, len: u32, front: &[u8]) -> Result<()>
        requires { length front.now ≤ len }
    {
        if !is_file(file) || len > max_len(file) {
            bail!("no file of this length");
        }
        self.held.load(file, len)?;
        self.held.fill(file, 0, front);
        Ok(())
    }

    /// Puts in a file of this length, with the bytes of other views where they have them, and zeros behind.
    pub(crate) fn put_part(
        &mut self,
        alloc: Global,
        from: &Views,
        file: u32,
        len: u32,
    ) -> Result<()> {
        let front = front_of(alloc, from, file, len)?;
        self.put(file, len, &front)
    }

    // Puts in a file as other views have it.
    fn put_whole(&mut self, alloc: Global, from: &Views, file: u32) -> Result<()> {
        match from.len(file) {
            Some(len) => self.put_part(alloc, from, file, len),
            None => Ok(()),
        }
    }

    /// The files of other views.
    pub(crate) fn of(alloc: Global, from: &Views) -> Result<Files> {
        let mut files = Files::new(alloc);
        for file in FILES {
            files.put_whole(alloc, from, file)?;
        }
        Ok(files)
    }

    /// Puts bytes into their file, and takes those that stood there. Nothing changes where the file hasn't as many bytes there.
    pub(crate) fn swap(&mut self, alloc: Global, change: &mut Change) -> Result<(), AllocError> {
        if !is_inside(&self.held, change.file, change.at, change.bytes.len()) {
            return Ok(());
        }
        let mut before = vec![in alloc; 0; change.bytes.len()]?;
        self.held.read(change.file, change.at, &mut before);
        self.held.fill(change.file, change.at, &change.bytes);
        change.bytes = before;
        Ok(())
    }
}
