//! Journals, byte by byte.

use md5::{Digest, Md5};
use mm_frames::journal_header_frame;
use mm_jfiles::JFiles;
use mm_memdisk::MemDisk;
use mm_outside::{Device, Disk};
use std::alloc::Global;
use std::test::Fail;

/// A section: the number of its file, its own number, and its entries.
pub type Row = (u64, u64, &'static [u8]);

/// Appends a number as so many bytes, the lowest first.
fn push_number(out: &mut Vec<u8>, number: u64, len: usize) -> Result<(), Fail> {
    let mut rest = number;
    for _ in 0..len {
        out.push((rest % 256) as u8)?;
        rest /= 256;
    }
    Ok(())
}

/// Appends a section of this number to the bytes of a file with this id.
fn push_section(
    alloc: Global,
    out: &mut Vec<u8>,
    id: u64,
    number: u64,
    entries: &[u8],
) -> Result<(), Fail> {
    let mut section = Vec::new(alloc);
    push_number(&mut section, (entries.len() as u64).saturating_add(52), 4)?;
    push_number(&mut section, number, 8)?;
    push_number(&mut section, id, 8)?;
    section.extend_from_slice(entries)?;
    let hash = Md5::digest(&section);
    section.extend_from_slice(&[255; 4])?;
    section.extend_from_slice(&hash)?;
    section.extend_from_slice(&[0, 0, 0, 0, 0, 0, 0, 0, 10, 10, 10, 10])?;
    section.resize(8192, 0)?;
    out.extend_from_slice(&section)?;
    Ok(())
}

/// The journal's file of this number, with its sections of the rows.
fn file_bytes(alloc: Global, file: u64, rows: &[Row]) -> Result<Vec<u8>, Fail> {
    let id = file.saturating_add(1);
    let mut out = Vec::new(alloc);
    out.extend_from_slice(&journal_header_frame(id))?;
    for row in rows {
        if row.0 == file {
            push_section(alloc, &mut out, id, row.1, row.2)?;
        }
    }
    Ok(out)
}

/// Makes a file of these bytes, and syncs it where it is to be.
pub fn put_file(
    disk: &mut MemDisk,
    name: &str,
    bytes: &[u8],
    is_synced: bool,
) -> Result<(), Device> {
    disk.create(name)?;
    disk.write_at(name, 0, bytes)?;
    if is_synced {
        disk.sync(name)?;
    }
    Ok(())
}

/// A disk with a journal of these rows, in files up to the third.
pub fn disk_of(alloc: Global, rows: &[Row], is_synced: bool) -> Result<MemDisk, Fail> {
    let mut disk = MemDisk::new(alloc);
    for file in 0..3 {
        if rows.iter().any(|row| row.0 == file) {
            let name = format!(in alloc; "journal/j._{file}")?;
            let bytes = file_bytes(alloc, file, rows)?;
            put_file(&mut disk, &name, &bytes, is_synced)?;
        }
    }
    Ok(disk)
}

/// A disk with the section 1 of these entries, in a file of the journal that the store's own calls began.
pub fn logged(alloc: Global, entries: &[u8]) -> Result<MemDisk, Fail> {
    let mut disk = MemDisk::new(alloc);
    let mut files = JFiles::start(alloc, 16_384);
    let mut bytes = Vec::new(alloc);
    push_section(alloc, &mut bytes, files.id(), 1, entries)?;
    files.append(&mut disk, &bytes, 1)?;
    disk.sync("journal/j._0")?;
    Ok(disk)
}

/// The names of the files, how long they are, and the first twelve bytes of each.
pub fn shown(alloc: Global, disk: &mut MemDisk) -> Result<String, Fail> {
    let mut names = Vec::new(alloc);
    disk.names(&mut names)?;
    let mut text = String::new(alloc);
    for name in &names {
        let len = disk.len(name)?.unwrap_or(0);
        let mut front = [0; 12];
        disk.read_at(name, 0, &mut front)?;
        let one = format!(in alloc; "{name} {len} {front:?}; ")?;
        text.push_str(&one)?;
    }
    Ok(text)
}
