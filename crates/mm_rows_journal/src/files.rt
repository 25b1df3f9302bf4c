//! The files of the journal on a disk in memory.

ghost use Rattle.std.specs.Prelude.{◌≡◌, ◌+◌, ◌^◌, ◌<◌, ◌≤◌, OnOk};
ghost use Rattle.mm_jfiles.specs.Files.{next_number};

use mm_jfiles::{JFiles, read_mark, write_mark};
use mm_memdisk::MemDisk;
use mm_outside::{Device, Disk};
use std::alloc::Global;
use std::test::Fail;

/// The front of the lsn file of 3. Zeros follow, up to 88 bytes.
const MARK: [u8; 24] = [
    1, 0, 0, 0, 0, 0, 0, 0, 3, 0, 0, 0, 0, 0, 0, 0, 0xfc, 0xff, 0xff, 0xff, 0xff, 0xff, 0xff, 0xff,
];

/// What stands where the n-th of the changing calls of a run fails, and after a run without a fault.
const LEFT: [&str; 13] = [
    "",
    "journal/j._0 0; ",
    "journal/j._0 8192; ",
    "journal/j._0 8192; ",
    "journal/j._0 16384; ",
    "journal/j._0 16384; ",
    "journal/j._0 16384; journal/j._1 0; ",
    "journal/j._0 16384; journal/j._1 8192; ",
    "journal/j._0 16384; journal/j._1 8192; ",
    "journal/j._0 16384; journal/j._1 16384; ",
    "journal/j._0 16384; journal/j._1 16384; ",
    "journal/j._1 16384; ",
    "",
];

/// The same of a mark, and what is read of it.
const MARKS: [&str; 5] = [
    "None ",
    "None journal/lsn 0; ",
    "None journal/lsn 88; ",
    "Some(3) journal/lsn 88; ",
    "Some(3) journal/lsn 88; ",
];

/// The names of the files and how long they are.
fn shown(alloc: Global, disk: &mut MemDisk) -> Result<String, Device> {
    let mut names = Vec::new(alloc);
    disk.names(&mut names)?;
    let mut text = String::new(alloc);
    for name in &names {
        let len = disk.len(name)?.unwrap_or(0);
        let one = format!(in alloc; "{name} {len}; ")?;
        text.push_str(&one)?;
    }
    Ok(text)
}

/// A disk whose n-th changing call fails.
fn failing(alloc: Global, call: u64) -> Result<MemDisk, Fail> {
    let mut calls = Vec::new(alloc);
    calls.push(call)?;
    let mut disk = MemDisk::new(alloc);
    disk.fail_at(calls);
    Ok(disk)
}

/// Appends a section's bytes and syncs them. Says the id of their file.
fn log_one(files: &mut JFiles, disk: &mut MemDisk, number: u64) -> Result<u64, Device>
    requires limit { files.old.limit ≤ 2 ^ 63 }
    requires small { next_number files.old < 2 ^ 31 }
    ensures limit { OnOk result (files.new.limit ≡ files.old.limit) }
    ensures small { OnOk result (next_number files.new ≤ next_number files.old + 1) }
{
    let id = files.id();
    files.append(disk, &[7; 8192], number)?;
    files.sync(disk)?;
    Ok(id)
}

/// Two sections, of which the first is trimmed, and then all files go.
fn run(alloc: Global, disk: &mut MemDisk) -> Result<(u64, u64), Device> {
    let mut files = JFiles::start(alloc, 16_384);
    let first = log_one(&mut files, disk, 1)?;
    let second = log_one(&mut files, disk, 2)?;
    files.trim(disk, 1)?;
    files.clear(disk)?;
    Ok((first, second))
}

#[test]
fn files_of_two_sections(rt: HostRuntime) -> Result<(), Fail> {
    let mut disk = MemDisk::new(rt.alloc());
    assert_eq!(rt; run(rt.alloc(), &mut disk)?, (1, 2));
    assert_eq!(rt; disk.calls_made(), 12);
    Ok(())
}

#[test]
fn a_fault_leaves_what_was_done(rt: HostRuntime) -> Result<(), Fail> {
    for (i, left) in LEFT.iter().enumerate() {
        let mut disk = failing(rt.alloc(), i as u64 + 1)?;
        let done = run(rt.alloc(), &mut disk);
        assert_eq!(rt; done.is_ok(), i == 12, "at {i}");
        assert_eq!(rt; shown(rt.alloc(), &mut disk)?.as_str(), *left, "at {i}");
    }
    Ok(())
}

#[test]
fn a_mark_is_made_in_four_calls(rt: HostRuntime) -> Result<(), Fail> {
    for (i, left) in MARKS.iter().enumerate() {
        let mut disk = failing(rt.alloc(), i as u64 + 1)?;
        let done = write_mark(&mut disk, 3);
        assert_eq!(rt; done.is_ok(), i == 4, "at {i}");
        let mark = read_mark(&mut disk)?;
        let files = shown(rt.alloc(), &mut disk)?;
        let text = format!(in rt.alloc(); "{mark:?} {files}")?;
        assert_eq!(rt; text.as_str(), *left, "at {i}");
    }
    Ok(())
}

#[test]
fn a_mark_is_the_files_bytes(rt: HostRuntime) -> Result<(), Fail> {
    let mut disk = MemDisk::new(rt.alloc());
    write_mark(&mut disk, 3)?;
    let mut bytes = [7; 24];
    disk.read_at("journal/lsn", 0, &mut bytes)?;
    assert_eq!(rt; bytes, MARK);
    for (at, byte) in [(0, 2), (8, 4), (16, 0xfd), (87, 1), (88, 0)] {
        disk.write_at("journal/lsn", at, &[byte])?;
        assert_eq!(rt; read_mark(&mut disk)?, None, "at {at}");
        write_mark(&mut disk, 3)?;
    }
    assert_eq!(rt; read_mark(&mut disk)?, Some(3));
    Ok(())
}
