//! A system that writes down what it is asked, and takes and gives a limited number of bytes at a time.

use std::alloc::{AllocError, Allocator, Global};
use std::cell::RefCell;
use std::fs::{File, Metadata, OpenFile, OpenOptions};
use std::io::{self, ErrorKind, Read, Seek, SeekFrom, Write};
use std::rt::Files;

/// The real files, with at most so many bytes at each read and write, and all that they were asked to make, write, cut,
/// take and sync. F stands for the disk's folder.
#[derive(Clone, Copy)]
pub struct Watched<'a> {
    pub rt: HostRuntime,
    pub folder: &'a str,
    pub asked: &'a RefCell<String>,
    pub most: usize,
}

/// Appends words to a text that is shared.
pub fn append(text: &RefCell<String>, words: &[&str]) -> io::Result<()> {
    match text.try_borrow_mut() {
        Ok(mut text) => Ok(push_all(&mut text, words)?),
        Err(_) => Err(io::Error::from(ErrorKind::ResourceBusy)),
    }
}

fn push_all(text: &mut String, words: &[&str]) -> Result<(), AllocError> {
    for word in words {
        text.push_str(word)?;
    }
    Ok(())
}

impl Watched<'_> {
    fn note(&self, what: &str, path: &str) -> io::Result<()> {
        let name = path.strip_prefix(self.folder).unwrap_or(path);
        append(self.asked, &[what, " F", name, "; "])
    }
}

#[derive(Drop)]
pub struct WatchedFile<'a> {
    file: File,
    path: String,
    system: Watched<'a>,
}

impl Alloc for Watched<'_> {
    type A = Global;

    fn alloc(&self) -> Global {
        self.rt.alloc()
    }
}

impl Read for WatchedFile<'_> {
    fn read(&mut self, buf: &mut [u8]) -> io::Result<usize> {
        let most = self.system.most.min(buf.len());
        self.file.read(&mut buf[..most])
    }
}

impl Write for WatchedFile<'_> {
    fn write(&mut self, buf: &[u8]) -> io::Result<usize> {
        let most = self.system.most.min(buf.len());
        let count = self.file.write(&buf[..most])?;
        self.system.note("write", self.path.as_str())?;
        Ok(count)
    }

    fn flush(&mut self) -> io::Result<()> {
        self.file.flush()
    }
}

impl Seek for WatchedFile<'_> {
    fn seek(&mut self, to: SeekFrom) -> io::Result<u64> {
        self.file.seek(to)
    }
}

impl OpenFile for WatchedFile<'_> {
    fn metadata(&self) -> io::Result<Metadata> {
        self.file.metadata()
    }

    fn set_len(&self, size: u64) -> io::Result<()> {
        self.file.set_len(size)?;
        self.system.note("cut", self.path.as_str())
    }

    fn sync_all(&self) -> io::Result<()> {
        self.file.sync_all()?;
        self.system.note("sync", self.path.as_str())
    }

    fn sync_data(&self) -> io::Result<()> {
        self.file.sync_data()
    }
}

impl<'a> Files for Watched<'a> {
    type File = WatchedFile<'a>;

    type Dir = <HostRuntime as Files>::Dir;

    fn open_file(&self, how: &OpenOptions, path: &str) -> io::Result<WatchedFile<'a>> {
        let was_there = self.rt.symlink_metadata(path).is_ok();
        let file = self.rt.open_file(how, path)?;
        if !was_there {
            self.note("make", path)?;
        }
        let path = String::from_str(self.rt.alloc(), path)?;
        Ok(WatchedFile {
            file,
            path,
            system: *self,
        })
    }

    fn open_dir(&self, path: &str) -> io::Result<<HostRuntime as Files>::Dir> {
        self.rt.open_dir(path)
    }

    fn metadata(&self, path: &str) -> io::Result<Metadata> {
        self.rt.metadata(path)
    }

    fn symlink_metadata(&self, path: &str) -> io::Result<Metadata> {
        self.rt.symlink_metadata(path)
    }

    fn copy(&self, from: &str, to: &str) -> io::Result<u64> {
        self.rt.copy(from, to)
    }

    fn rename(&self, from: &str, to: &str) -> io::Result<()> {
        self.rt.rename(from, to)
    }

    fn remove_file(&self, path: &str) -> io::Result<()> {
        self.rt.remove_file(path)?;
        self.note("take", path)
    }

    fn create_dir(&self, path: &str) -> io::Result<()> {
        self.rt.create_dir(path)?;
        self.note("make", path)
    }

    fn remove_dir(&self, path: &str) -> io::Result<()> {
        self.rt.remove_dir(path)
    }

    fn remove_dir_all<B: Allocator>(&self, alloc: B, path: &str) -> io::Result<()> {
        self.rt.remove_dir_all(alloc, path)
    }
}
