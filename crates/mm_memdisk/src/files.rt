// The files by name, and what each changing call does to them.
ghost use Rattle.std.specs.Prelude.{◌≡◌, ◌+◌, ◌-◌, ◌^◌, ◌<◌, ◌≤◌, ◌++◌, min, map, take, drop, length, string_bytes, IfOk, OnOk, OnErr};
ghost use Rattle.std.specs.FinMap.{keys as names_of};
ghost use Rattle.mm_bytes.specs.Files.{read_from, resized, overwritten};
ghost use Rattle.mm_outside.specs.Image.{Image};
ghost use Rattle.mm_outside.specs.Told.{changed, Creates, Writes, Resizes, Removes};
ghost use Rattle.mm_memdisk.specs.Files.{Reads, Follows};

use std::alloc::{AllocError, Global};
use std::collections::BTreeMap;

pub type Files = BTreeMap<String, Vec<u8>>;

/// Gives the file this length, with zeros behind its old end.
pub fn resize(file: &mut Vec<u8>, len: usize) -> Result<(), AllocError>
    ensures ok { OnOk result (file.new.items ≡ resized len file.old.items) }
    ensures err { OnErr result (file.new.items ≡ file.old.items) }
{
    file.resize(len, 0)
}

// Puts the bytes over those that are there.
fn put(old: &mut [u8], at: usize, bytes: &[u8])
    requires { at + length bytes.now ≤ length old.old }
    ensures { old.new ≡ take at old.old ++ bytes.now ++ drop (at + length bytes.now) old.old }
{
    old[at..at + bytes.len()].copy_from_slice(bytes);
}

/// Puts the bytes over those of the file, and zeros in a gap before them.
pub fn overwrite(file: &mut Vec<u8>, at: usize, bytes: &[u8]) -> Result<(), AllocError>
    requires { at + length bytes.now < 2 ^ 64 }
    ensures ok { OnOk result (file.new.items ≡ overwritten at bytes.now file.old.items) }
    ensures err { OnErr result (file.new.items ≡ file.old.items) }
{
    let len = file.len().max(at + bytes.len());
    file.resize(len, 0)?;
    put(file, at, bytes);
    Ok(())
}

pub fn create(alloc: Global, files: &mut Files, name: &str) -> Result<(), AllocError>
    ensures ok { OnOk result (Follows files.old files.new (changed Creates name.now)) }
    ensures err { OnErr result (Follows files.old files.new (λ image. image)) }
{
    if !files.contains_key(name) {
        files.insert(String::from_str(alloc, name)?, Vec::new(alloc))?;
    }
    Ok(())
}

pub fn write_at(files: &mut Files, name: &str, at: usize, bytes: &[u8]) -> Result<(), AllocError>
    requires { at + length bytes.now < 2 ^ 64 }
    ensures ok { OnOk result (Follows files.old files.new (changed (Writes at bytes.now) name.now)) }
    ensures err { OnErr result (Follows files.old files.new (λ image. image)) }
{
    match files.get_mut(name) {
        Some(file) => overwrite(file, at, bytes),
        None => Ok(()),
    }
}

pub fn set_len(files: &mut Files, name: &str, len: usize) -> Result<(), AllocError>
    ensures ok { OnOk result (Follows files.old files.new (changed (Resizes len) name.now)) }
    ensures err { OnErr result (Follows files.old files.new (λ image. image)) }
{
    match files.get_mut(name) {
        Some(file) => resize(file, len),
        None => Ok(()),
    }
}

pub fn remove(files: &mut Files, name: &str)
    ensures { Follows files.old files.new (changed Removes name.now) }
{
    files.remove(name);
}

// Fills the front of `out` with as many bytes as there are from `at` on.
pub fn copy_from(bytes: &[u8], at: u64, out: &mut [u8]) -> usize
    ensures count { result ≡ min (length out.old) (length bytes.now - at) }
    ensures bytes { out.new ≡ read_from at result bytes.now ++ drop result out.old }
{
    let at = at as usize;
    if at >= bytes.len() {
        return 0;
    }
    let count = out.len().min(bytes.len() - at);
    out[..count].copy_from_slice(&bytes[at..at + count]);
    count
}

// The names, in byte order.
pub fn names_in(alloc: Global, files: &Files) -> Result<Vec<String>, AllocError>
    ensures { IfOk result (λ names. (image : Image) → Reads files.now image → map string_bytes names.items ≡ names_of image) }
{
    let mut names = Vec::new(alloc);
    for name in files.keys() {
        names.push(name.clone()?)?;
    }
    Ok(names)
}

// Appends the names, or leaves the list as it was.
pub fn push_names(alloc: Global, files: &Files, out: &mut Vec<String>) -> Result<(), AllocError>
    ensures names { OnOk result ((image : Image) → Reads files.now image → map string_bytes out.new.items ≡ map string_bytes out.old.items ++ names_of image) }
    ensures err { OnErr result (out.new.items ≡ out.old.items) }
{
    let mut names = names_in(alloc, files)?;
    out.append(&mut names)
}
