// Whole files in memory.
ghost use Rattle.std.specs.Prelude.{◌≡◌, ℕ, ◌+◌, ◌-◌, ◌^◌, ◌<◌, ◌≤◌, List, [], ◌∷◌, length, take, drop, slice_set, Option, Some, None, IsSome, IsTrue, IfSome, IfNone};
ghost use Rattle.std.specs.Option.{option_map, option_copied};
ghost use Rattle.std.specs.FinMap.{get, insert, remove, empty};
ghost use Rattle.mm_bytes.specs.Files.{overwritten, read_from};
ghost use Rattle.mm_ranges.specs.Limits.{is_file};
ghost use Rattle.mm_ranges.specs.Overlay.{bytes_at, laid};
ghost use Rattle.mm_views.specs.Files.{image_of, slot_of};

use mm_ranges::{Bytes, is_file};
use std::marker::Model;

// The data files 0 to 7, and the name file.
const SLOTS: usize = 9;

// The slot of a file that a database may have.
fn slot(file: u32) -> usize
    requires { IsTrue (is_file file) }
    ensures slot { result ≡ slot_of file }
    ensures bound { result < 9 }
{
    if file < 8 { file as usize } else { SLOTS - 1 }
}

// The bytes in a slot.
fn stored(files: &[Option<Bytes>], file: u32) -> Option<&Bytes>
    requires { length files.now ≡ 9 }
    ensures { option_copied result ≡ get (image_of files.now) file }
{
    if !is_file(file) {
        return None;
    }
    files[slot(file)].as_ref()
}

// Puts a file, or none, into its slot.
fn put_in(files: &mut [Option<Bytes>], file: u32, bytes: Bytes)
    requires allowed { IsTrue (is_file file) }
    requires slots { length files.old ≡ 9 }
    ensures { image_of files.new ≡ insert (image_of files.old) file bytes }
{
    files[slot(file)] = Some(bytes);
}

// Takes a file out of its slot.
fn take_out(files: &mut [Option<Bytes>], file: u32)
    requires allowed { IsTrue (is_file file) }
    requires slots { length files.old ≡ 9 }
    ensures { image_of files.new ≡ remove (image_of files.old) file }
{
    files[slot(file)] = None;
}

// Lays bytes over a file that is there.
fn lay(files: &mut [Option<Bytes>], file: u32, at: usize, bytes: &[u8])
    requires slots { length files.old ≡ 9 }
    requires there { IsSome (get (image_of files.old) file) }
    requires inside { at + length bytes.now ≤ length (bytes_at (image_of files.old) file) }
    ensures { image_of files.new ≡ laid file at bytes.now (image_of files.old) }
{
    match &mut files[slot(file)] {
        Some(old) => old.overwrite(at, bytes),
        None => unreachable!(),
    }
}

/// Files in memory, each whole, seen as an image.
#[derive(Drop)]
pub(crate) struct Plain {
    files: [Option<Bytes>; 9],
}

impl Model for Plain {
    ghost use Rattle.std.specs.Coded.{coded_ℕ, coded_list};
    ghost use Rattle.std.specs.FinMap.{code};
    ghost use Rattle.mm_ranges.specs.Overlay.{Image};

    ghost Value = { Image };

    ghost coded = { code coded_ℕ (coded_list coded_ℕ) };

    ghost use Rattle.mm_views.specs.Files.{image_of};

    ghost view = { λ a. image_of a.files };
}

impl Plain {
    pub(crate) fn new() -> Plain
        ensures { result ≡ empty }
    {
        Plain {
            files: [None, None, None, None, None, None, None, None, None],
        }
    }

    /// How long a file is.
    pub(crate) fn len(&self, file: u32) -> Option<usize>
        ensures { result ≡ option_map length (get self.now file) }
    {
        stored(&self.files, file).map(|bytes| bytes.len())
    }

    /// A file's bytes from a place on.
    pub(crate) fn tail(&self, file: u32, at: usize) -> &[u8]
        requires { at < length (bytes_at self.now file) }
        ensures { result.now ≡ drop at (bytes_at self.now file) }
    {
        match stored(&self.files, file) {
            Some(bytes) => &bytes.as_slice()[at..],
            None => unreachable!(),
        }
    }

    /// Fills a buffer with a file's bytes from a place on.
    pub(crate) fn read(&self, file: u32, at: usize, out: &mut [u8])
        requires { at + length out.old ≤ length (bytes_at self.now file) }
        ensures { out.new ≡ read_from at (length out.old) (bytes_at self.now file) }
    {
        if out.is_empty() {
            return;
        }
        let bytes = self.tail(file, at);
        out.copy_from_slice(&bytes[..out.len()]);
    }

    /// Puts a file in, in the place of one of this number.
    pub(crate) fn put(&mut self, file: u32, bytes: Bytes)
        requires { IsTrue (is_file file) }
        ensures { self.new ≡ insert self.old file bytes }
    {
        put_in(&mut self.files, file, bytes);
    }

    /// Takes a file out.
    pub(crate) fn take_out(&mut self, file: u32)
        requires { IsTrue (is_file file) }
        ensures { self.new ≡ remove self.old file }
    {
        take_out(&mut self.files, file);
    }

    /// Writes bytes over those of a file.
    pub(crate) fn lay(&mut self, file: u32, at: usize, bytes: &[u8])
        requires there { IsSome (get self.old file) }
        requires inside { at + length bytes.now ≤ length (bytes_at self.old file) }
        ensures { self.new ≡ laid file at bytes.now self.old }
    {
        lay(&mut self.files, file, at, bytes);
    }
}
