//! Recoveries that are stopped, and stopped again.

use crate::journals::{disk_of, shown};
use crate::rows::{BOTH, MAKES_A};
use mm_memdisk::MemDisk;
use mm_recover::recover;
use std::alloc::Global;
use std::test::Fail;

/// What lies on the disk after the recovery, however often it was stopped. The lsn is that of the last section, once it is written.
const FILES: &str =
    "a.0 4096 [0, 0, 120, 122, 0, 0, 0, 0, 0, 0, 0, 0]; b.ns 4096 [0, 0, 0, 0, 0, 0, 0, 0, 0, 0, 0, 0]; journal/lsn 88 [1, 0, 0, 0, 0, 0, 0, 0, 2, 0, 0, 0]; ";

/// A disk whose journal has two sections in two files.
fn journal(alloc: Global) -> Result<MemDisk, Fail> {
    let disk = disk_of(alloc, &[(0, 1, MAKES_A), (1, 2, BOTH)], true)?;
    Ok(disk.crash(0)?)
}

/// A recovery that stops at this changing call, and what a crash leaves of it.
fn stopped(alloc: Global, disk: MemDisk, call: u64, pick: u64) -> Result<MemDisk, Fail> {
    let mut disk = disk;
    disk.stop_at(call);
    let _ = recover(alloc, &mut disk);
    Ok(disk.crash(pick)?)
}

/// The files after a whole recovery.
fn recovered(alloc: Global, disk: MemDisk) -> Result<String, Fail> {
    let mut disk = disk;
    let _ = recover(alloc, &mut disk);
    shown(alloc, &mut disk)
}

#[test]
fn stopped_at_each_call(rt: HostRuntime) -> Result<(), Fail> {
    for call in 1..24 {
        for pick in 0..4 {
            let left = stopped(rt.alloc(), journal(rt.alloc())?, call, pick)?;
            let text = recovered(rt.alloc(), left)?;
            assert_eq!(rt; text.as_str(), FILES, "at {call}, pick {pick}");
        }
    }
    Ok(())
}

#[test]
fn stopped_twice(rt: HostRuntime) -> Result<(), Fail> {
    for call in [3, 7, 12, 15, 18, 20] {
        for again in [1, 6, 11, 16, 21] {
            let left = stopped(rt.alloc(), journal(rt.alloc())?, call, 2)?;
            let twice = stopped(rt.alloc(), left, again, 3)?;
            let text = recovered(rt.alloc(), twice)?;
            assert_eq!(rt; text.as_str(), FILES, "at {call}, then {again}");
        }
    }
    Ok(())
}
