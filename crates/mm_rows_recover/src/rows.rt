//! What recoveries answer, and what lies on the disk after them.

use crate::journals::{Row, disk_of, put_file, shown};
use mm_jfiles::write_mark;
use mm_recover::recover;
use std::test::Fail;

/// In the database `a`: its file 0 is made, 4096 bytes long, and has `xy` at byte 2.
pub const MAKES_A: &[u8] = &[
    0xfe, 0xff, 0xff, 0xff, 97, 0, 0xfd, 0xff, 0xff, 0xff, 0, 0, 0, 0, 0, 16, 0, 0, 2, 0, 0, 0, 2,
    0, 0, 0, 0, 0, 0, 0, 120, 121,
];

/// In the database `a`: its file 0 has `z` at byte 3.
pub const PUTS_A: &[u8] = &[
    0xfe, 0xff, 0xff, 0xff, 97, 0, 1, 0, 0, 0, 3, 0, 0, 0, 0, 0, 0, 0, 122,
];

/// `a` as in the second one, and in the database `b` the file `.ns` is made, 4096 bytes long.
pub const BOTH: &[u8] = &[
    0xfe, 0xff, 0xff, 0xff, 97, 0, 1, 0, 0, 0, 3, 0, 0, 0, 0, 0, 0, 0, 122, 0xfe, 0xff, 0xff, 0xff,
    98, 0, 0xfd, 0xff, 0xff, 0xff, 0xff, 0xff, 0xff, 0x7f, 0, 16, 0, 0,
];

/// Sections, the lsn where there is one, what a recovery answers, and what lies on the disk then.
type Case = (&'static [Row], Option<u64>, &'static str, &'static str);

const CASES: [Case; 6] = [
    (
        &[],
        None,
        "Ok(Recovered { last: 0, replayed: 0 })",
        "journal/lsn 88 [1, 0, 0, 0, 0, 0, 0, 0, 0, 0, 0, 0]; ",
    ),
    (
        &[(0, 1, MAKES_A)],
        None,
        "Ok(Recovered { last: 1, replayed: 1 })",
        "a.0 4096 [0, 0, 120, 121, 0, 0, 0, 0, 0, 0, 0, 0]; journal/lsn 88 [1, 0, 0, 0, 0, 0, 0, 0, 1, 0, 0, 0]; ",
    ),
    (
        &[(0, 1, MAKES_A), (0, 2, BOTH)],
        None,
        "Ok(Recovered { last: 2, replayed: 2 })",
        "a.0 4096 [0, 0, 120, 122, 0, 0, 0, 0, 0, 0, 0, 0]; b.ns 4096 [0, 0, 0, 0, 0, 0, 0, 0, 0, 0, 0, 0]; journal/lsn 88 [1, 0, 0, 0, 0, 0, 0, 0, 2, 0, 0, 0]; ",
    ),
    (
        &[(1, 2, PUTS_A), (2, 3, MAKES_A)],
        Some(2),
        "Ok(Recovered { last: 3, replayed: 1 })",
        "a.0 4096 [0, 0, 120, 121, 0, 0, 0, 0, 0, 0, 0, 0]; journal/lsn 88 [1, 0, 0, 0, 0, 0, 0, 0, 3, 0, 0, 0]; ",
    ),
    (
        &[(0, 1, MAKES_A)],
        Some(7),
        "Ok(Recovered { last: 7, replayed: 0 })",
        "journal/lsn 88 [1, 0, 0, 0, 0, 0, 0, 0, 7, 0, 0, 0]; ",
    ),
    (
        &[(0, 1, MAKES_A), (0, 2, PUTS_A), (1, 5, PUTS_A)],
        None,
        "Err(JournalGap { expected: 3, found: 5 })",
        "journal/j._0 24576 [106, 10, 1, 77, 10, 32, 32, 32, 32, 32, 32, 32]; journal/j._1 16384 [106, 10, 1, 77, 10, 32, 32, 32, 32, 32, 32, 32]; ",
    ),
];

#[test]
fn recoveries(rt: HostRuntime) -> Result<(), Fail> {
    for (i, case) in CASES.iter().enumerate() {
        let mut disk = disk_of(rt.alloc(), case.0, true)?;
        if let Some(lsn) = case.1 {
            write_mark(&mut disk, lsn)?;
        }
        let done = recover(rt.alloc(), &mut disk);
        let text = format!(in rt.alloc(); "{done:?}")?;
        assert_eq!(rt; text.as_str(), case.2, "at {i}");
        assert_eq!(rt; shown(rt.alloc(), &mut disk)?.as_str(), case.3, "at {i}");
    }
    Ok(())
}

#[test]
fn a_bad_header_is_no_end(rt: HostRuntime) -> Result<(), Fail> {
    let mut disk = disk_of(rt.alloc(), &[(1, 1, MAKES_A)], true)?;
    put_file(&mut disk, "journal/j._0", &[106, 10], true)?;
    let done = recover(rt.alloc(), &mut disk);
    let text = format!(in rt.alloc(); "{done:?}")?;
    assert_eq!(rt; text.as_str(), "Err(BadHeader { file: 0 })");
    Ok(())
}

/// A section that was written and not synced is whole for pick 1, and torn for the others.
#[test]
fn a_torn_section_is_none(rt: HostRuntime) -> Result<(), Fail> {
    for (pick, replayed) in [(0, 0), (1, 1), (2, 0)] {
        let disk = disk_of(rt.alloc(), &[(0, 1, MAKES_A)], false)?;
        let mut left = disk.crash(pick)?;
        let done = recover(rt.alloc(), &mut left);
        let text = format!(in rt.alloc(); "{done:?}")?;
        let due = format!(in rt.alloc();
            "Ok(Recovered {{ last: {replayed}, replayed: {replayed} }})"
        )?;
        assert_eq!(rt; text.as_str(), due.as_str(), "pick {pick}");
    }
    Ok(())
}
