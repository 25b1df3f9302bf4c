ghost use Rattle.std.specs.Prelude.{◌≡◌, ◌≢◌, ◌≤◌, Ok, Err, None, Some, length, IfOk, IfErr};
ghost use Rattle.std.specs.IoError.{error_kind};

use crate::whole::{read_whole, write_whole};
use std::fs::{self, OpenFile, OpenOptions};
use std::io::{self, ErrorKind, Seek, SeekFrom};
use std::path::Path;
use std::rt::Files;

/// What the system answered, where a file that isn't there is no error.
fn present<T>(answer: io::Result<T>) -> io::Result<Option<T>>
    ensures there { IfOk answer (λ value. result ≡ Ok (Some value)) }
    ensures absent { IfErr answer (λ e. error_kind e ≡ ErrorKind.NotFound → result ≡ Ok None) }
    ensures failed { IfErr answer (λ e. error_kind e ≢ ErrorKind.NotFound → result ≡ Err e) }
{
    match answer {
        Ok(value) => Ok(Some(value)),
        Err(e) if e.kind() == ErrorKind::NotFound => Ok(None),
        Err(e) => Err(e),
    }
}

/// The length of a file in bytes, or None where there is none. What isn't a file has none.
pub(crate) fn len_of<R: Files>(rt: &R, path: &str) -> io::Result<Option<u64>> {
    let Some(found) = present(fs::metadata(rt, path))? else {
        return Ok(None);
    };
    Ok(found.is_file().then_some(found.len()))
}

/// The same, where anything else that stands at the path is an error. What may be opened is asked first: to open a FIFO
/// may wait for ever, and what is written to a device is written over what it holds.
fn len_of_file<R: Files>(rt: &R, path: &str) -> io::Result<Option<u64>> {
    match present(fs::metadata(rt, path))? {
        Some(found) if found.is_file() => Ok(Some(found.len())),
        Some(_) => Err(io::Error::from(ErrorKind::Unsupported)),
        None => nothing_at(rt, path),
    }
}

// A link that leads nowhere stands there too.
fn nothing_at<R: Files>(rt: &R, path: &str) -> io::Result<Option<u64>>
    ensures { IfOk result (λ len. len ≡ None) }
{
    match present(fs::symlink_metadata(rt, path))? {
        Some(_) => Err(io::Error::from(ErrorKind::Unsupported)),
        None => Ok(None),
    }
}

/// Fills as many bytes of the buffer as the file has from an offset on, and says how many. An absent file has none.
pub(crate) fn read_at<R: Files>(rt: &R, path: &str, at: u64, out: &mut [u8]) -> io::Result<usize>
    ensures count { IfOk result (λ n. n ≤ length out.old) }
{
    let len = len_of_file(rt, path)?.unwrap_or(0);
    if len <= at {
        return Ok(0);
    }
    let mut file = fs::open(rt, path)?;
    file.seek(SeekFrom::Start(at))?;
    let wanted = (len - at).min(out.len() as u64) as usize;
    read_whole(&mut file, &mut out[..wanted])
}

/// Writes all the bytes at an offset, with zeros in a gap before them. An absent file stays absent.
pub(crate) fn write_at<R: Files>(rt: &R, path: &str, at: u64, bytes: &[u8]) -> io::Result<()> {
    let Some(mut file) = open_to_write(rt, path)? else {
        return Ok(());
    };
    if bytes.is_empty() {
        return lengthen(&file, at);
    }
    file.seek(SeekFrom::Start(at))?;
    write_whole(&mut file, bytes)
}

// The system's write of no bytes leaves a file as it was.
fn lengthen<F: OpenFile>(file: &F, len: u64) -> io::Result<()> {
    if file.metadata()?.len() < len {
        file.set_len(len)?;
    }
    Ok(())
}

/// Cuts the file off, or puts zeros behind it. An absent file stays absent.
pub(crate) fn set_len<R: Files>(rt: &R, path: &str, len: u64) -> io::Result<()> {
    match open_to_write(rt, path)? {
        Some(file) => file.set_len(len),
        None => Ok(()),
    }
}

/// Hands the file's bytes and its length over to the device. An absent file has none.
pub(crate) fn sync<R: Files>(rt: &R, path: &str) -> io::Result<()> {
    match open_to_write(rt, path)? {
        Some(file) => file.sync_all(),
        None => Ok(()),
    }
}

/// Makes an empty file where there is none. Whether it was there or not, its name is durable then, and so is the way to
/// it: `root` is the disk's folder, and `above` that which holds it. An earlier run may have been stopped before it had
/// synced what it made.
pub(crate) fn create<R: Files>(rt: &R, above: &str, root: &str, path: &str) -> io::Result<()> {
    if len_of_file(rt, path)?.is_none() {
        make(rt, root, path)?;
    }
    sync_folder(rt, above)?;
    sync_folder(rt, root)?;
    let folder = folder_of(path);
    if folder != root {
        sync_folder(rt, folder)?;
    }
    Ok(())
}

// The file's folder is made where it is missing, and the disk's, and no other.
fn make<R: Files>(rt: &R, root: &str, path: &str) -> io::Result<()> {
    if present(make_file(rt, path))?.is_some() {
        return Ok(());
    }
    make_folder(rt, root)?;
    let folder = folder_of(path);
    if folder != root {
        make_folder(rt, folder)?;
    }
    make_file(rt, path)
}

/// Removes a file, if it is there, and makes that durable, also where an earlier run was stopped before it had.
pub(crate) fn remove<R: Files>(rt: &R, path: &str) -> io::Result<()> {
    if len_of_file(rt, path)?.is_some() {
        fs::remove_file(rt, path)?;
    }
    present(sync_folder(rt, folder_of(path)))?;
    Ok(())
}

/// Appends the names of the files of a folder, each behind a prefix. A folder that is missing has none.
pub(crate) fn list<R: Files + AllocGlobal + Clone + Drop>(
    rt: &R,
    folder: &str,
    prefix: &str,
    names: &mut Vec<String>,
) -> io::Result<()> {
    let Some(entries) = present(fs::read_dir(rt, folder))? else {
        return Ok(());
    };
    for entry in entries {
        let entry = entry?;
        if is_file(rt, entry.path())? {
            let name = entry.file_name();
            names.push(format!(in rt.alloc(); "{prefix}{name}")?)?;
        }
    }
    Ok(())
}

// Follows a link.
fn is_file<R: Files>(rt: &R, path: Path<'_>) -> io::Result<bool> {
    Ok(present(fs::metadata(rt, path))?.is_some_and(|found| found.is_file()))
}

// None where there is no file.
fn open_to_write<R: Files>(rt: &R, path: &str) -> io::Result<Option<R::File>> {
    if len_of_file(rt, path)?.is_none() {
        return Ok(None);
    }
    Ok(Some(OpenOptions::new().write(true).open(rt, path)?))
}

fn make_file<R: Files>(rt: &R, path: &str) -> io::Result<()> {
    OpenOptions::new()
        .write(true)
        .create_new(true)
        .open(rt, path)?;
    Ok(())
}

// One that is there stays.
fn make_folder<R: Files>(rt: &R, folder: &str) -> io::Result<()> {
    match fs::create_dir(rt, folder) {
        Err(e) if e.kind() == ErrorKind::AlreadyExists => Ok(()),
        answer => answer,
    }
}

// What a folder holds is durable once the folder itself is synced.
fn sync_folder<R: Files>(rt: &R, folder: &str) -> io::Result<()> {
    fs::open(rt, folder)?.sync_all()
}

fn folder_of(path: &str) -> &str {
    match path.rsplit_once('/') {
        Some((folder, _)) => folder,
        None => path,
    }
}
