//! Views of one database, loaded from a disk whose journal has sections above the lsn.

use crate::journals::{Row, disk_of, logged, put_file};
use crate::rows::{BOTH, MAKES_A, PUTS_A};
use mm_base::Name;
use mm_jfiles::write_mark;
use mm_memdisk::MemDisk;
use mm_outside::Disk;
use mm_recover::{Recover, load, recover};
use mm_views::{NS_FILE, Views};
use std::alloc::Global;
use std::test::Fail;

/// The first byte of a file, and its fourth, where it has them.
fn bytes_of(views: &Views, file: u32) -> Option<[u8; 2]> {
    if let Some(len) = views.len(file)
        && 3 < len
    {
        return Some([views.piece(file, 0)[0], views.piece(file, 3)[0]]);
    }
    None
}

/// What was answered, and of the first files how long they are in each image, and two of their bytes.
fn seen(alloc: Global, done: Result<(), Recover>, views: &Views) -> Result<String, Fail> {
    let mut text = format!(in alloc; "{done:?}")?;
    for file in [NS_FILE, 0, 1] {
        if let Some(len) = views.shared_len(file) {
            let one = format!(in alloc;
                "; {file} {len} {:?} {:?}",
                views.len(file),
                bytes_of(views, file)
            )?;
            text.push_str(&one)?;
        }
    }
    Ok(text)
}

/// What is seen of the views of the database `a`.
fn loaded(alloc: Global, disk: &mut MemDisk) -> Result<String, Fail> {
    let mut views = Views::new(alloc);
    let done = match Name::new(b"a") {
        Some(name) => load(alloc, disk, &name, &mut views),
        None => Ok(()),
    };
    seen(alloc, done, &views)
}

/// Sections, the lsn where there is one, the bytes of the file 0 where it is there, and what is seen of the views.
type Case = (
    &'static [Row],
    Option<u64>,
    Option<&'static [u8]>,
    &'static str,
);

const CASES: [Case; 7] = [
    (&[], None, None, "Ok(())"),
    (
        &[(0, 1, MAKES_A), (0, 2, BOTH)],
        None,
        Some(b"pqrst"),
        "Ok(()); 0 4096 Some(4096) Some([0, 122])",
    ),
    (
        &[(0, 1, MAKES_A), (1, 2, BOTH)],
        Some(1),
        Some(b"pqrst"),
        "Ok(()); 0 5 Some(5) Some([112, 122])",
    ),
    (
        &[(0, 1, MAKES_A), (1, 2, PUTS_A)],
        Some(1),
        Some(b"p"),
        "Ok(()); 0 4 Some(4) Some([112, 122])",
    ),
    (
        &[(1, 3, PUTS_A)],
        Some(2),
        None,
        "Ok(()); 0 4 Some(4) Some([0, 122])",
    ),
    (
        &[(0, 1, MAKES_A)],
        Some(7),
        Some(b"pqrst"),
        "Ok(()); 0 5 Some(5) Some([112, 115])",
    ),
    (
        &[(0, 1, MAKES_A), (0, 2, PUTS_A), (1, 5, PUTS_A)],
        None,
        Some(b"pqrst"),
        "Err(JournalGap { expected: 3, found: 5 })",
    ),
];

#[test]
fn loads(rt: HostRuntime) -> Result<(), Fail> {
    for (i, case) in CASES.iter().enumerate() {
        let mut disk = disk_of(rt.alloc(), case.0, true)?;
        if let Some(lsn) = case.1 {
            write_mark(&mut disk, lsn)?;
        }
        if let Some(bytes) = case.2 {
            put_file(&mut disk, "a.0", bytes, true)?;
        }
        let text = loaded(rt.alloc(), &mut disk)?;
        assert_eq!(rt; text.as_str(), case.3, "at {i}");
    }
    Ok(())
}

/// The views are the same before a recovery and after it.
#[test]
fn a_file_that_the_store_began(rt: HostRuntime) -> Result<(), Fail> {
    let mut disk = logged(rt.alloc(), MAKES_A)?;
    let before = loaded(rt.alloc(), &mut disk)?;
    let done = recover(rt.alloc(), &mut disk);
    let text = format!(in rt.alloc(); "{done:?}")?;
    assert_eq!(rt; text.as_str(), "Ok(Recovered { last: 1, replayed: 1 })");
    let after = loaded(rt.alloc(), &mut disk)?;
    assert_eq!(rt; before.as_str(), "Ok(()); 0 4096 Some(4096) Some([0, 121])");
    assert_eq!(rt; after.as_str(), before.as_str());
    Ok(())
}

/// A section that was written and not synced is laid over where it is whole, and no part of it where it is torn.
#[test]
fn a_torn_section_is_not_laid_over(rt: HostRuntime) -> Result<(), Fail> {
    for (pick, due) in [
        (0, "Ok(())"),
        (1, "Ok(()); 0 4096 Some(4096) Some([0, 121])"),
        (2, "Ok(())"),
    ] {
        let disk = disk_of(rt.alloc(), &[(0, 1, MAKES_A)], false)?;
        let mut left = disk.crash(pick)?;
        let text = loaded(rt.alloc(), &mut left)?;
        assert_eq!(rt; text.as_str(), due, "pick {pick}");
    }
    Ok(())
}

/// `.ns` may have 16 MiB and no byte more. A file that is made anew above the lsn may have been longer.
#[test]
fn a_file_that_is_too_long(rt: HostRuntime) -> Result<(), Fail> {
    for (name, len, due) in [
        (
            "a.ns",
            16777216,
            "Ok(()); 2147483647 16777216 Some(16777216) Some([0, 0]); 0 4096 Some(4096) Some([0, 121])",
        ),
        (
            "a.ns",
            16777217,
            "Err(BadLength { file: 2147483647, len: 16777217 })",
        ),
        ("a.0", 67108865, "Ok(()); 0 4096 Some(4096) Some([0, 121])"),
        (
            "a.1",
            67108865,
            "Err(BadLength { file: 1, len: 67108865 }); 0 4096 Some(4096) Some([0, 121])",
        ),
    ] {
        let mut disk = disk_of(rt.alloc(), &[(0, 1, MAKES_A)], true)?;
        disk.create(name)?;
        disk.set_len(name, len)?;
        let text = loaded(rt.alloc(), &mut disk)?;
        assert_eq!(rt; text.as_str(), due, "{name} {len}");
    }
    Ok(())
}
