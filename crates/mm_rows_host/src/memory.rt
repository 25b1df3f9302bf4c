//! The disk, the source and the sink in memory.

use crate::outside::Ask::{Create, Len, Moment, Names, Read, Remove, SetLen, Sync, Write};
use crate::outside::{Ask, read, told, written};
use mm_memdisk::{Change, MemDisk, MemSink, MemSource};
use mm_outside::Disk;
use std::alloc::{AllocError, Global};
use std::test::Fail;

/// What was written is read, a gap is zero, and a file that isn't there stays so.
const WRITTEN: [Ask; 8] = [
    Create("b"),
    Create("a"),
    Write("a", 2, b"xy"),
    Write("a", 3, b"z"),
    Read("a", 1),
    SetLen("c", 1),
    Names,
    Moment,
];

/// A file is cut and removed.
const CUT: [Ask; 8] = [
    Create("a"),
    Write("a", 1, b"xyz"),
    SetLen("a", 3),
    Sync("a"),
    Len("a"),
    Read("a", 0),
    Remove("a"),
    Names,
];

/// What a new disk answers, and how many calls it has counted then.
fn told_of(alloc: Global, asks: &[Ask]) -> (Result<String, AllocError>, u64) {
    let mut disk = MemDisk::new(alloc);
    let text = told(alloc, &mut disk, asks);
    (text, disk.calls_made())
}

#[test]
fn a_disk_answers(rt: HostRuntime) -> Result<(), Fail> {
    let (text, calls) = told_of(rt.alloc(), &WRITTEN);
    let text = text?;
    assert_eq!(rt;
        (text.as_str(), calls),
        ("ok; ok; ok; ok; 3 [0, 120, 122, 7, 7, 7]; ok; a b ; 5; ", 7)
    );
    Ok(())
}

/// What a disk answers that is lent, and the moment of the disk itself then.
fn told_of_lent(alloc: Global, asks: &[Ask]) -> (Result<String, AllocError>, u64) {
    let mut disk = MemDisk::new(alloc);
    let text = told(alloc, &mut &mut disk, asks);
    (text, disk.moment())
}

#[test]
fn a_lent_disk_is_the_disk(rt: HostRuntime) -> Result<(), Fail> {
    let (text, moment) = told_of_lent(rt.alloc(), &CUT);
    let text = text?;
    assert_eq!(rt;
        (text.as_str(), moment),
        (
            "ok; ok; ok; ok; Some(3); 3 [0, 120, 121, 7, 7, 7]; ok; ; ",
            5
        )
    );
    Ok(())
}

/// Two syncs of a disk whose second and third calls are to fail.
fn two_syncs(alloc: Global, disk: &mut MemDisk) -> Result<String, Fail> {
    disk.create("a")?;
    disk.fail_at(vec![in alloc; 1, 2]?);
    Ok(told(alloc, disk, &[Sync("a"), Sync("a")])?)
}

/// What two syncs answer, and whether the disk has kept its three calls: the first of this file, the second not done, the
/// third a sync.
fn told_of_failing(alloc: Global) -> (Result<String, Fail>, bool) {
    let mut disk = MemDisk::new(alloc);
    let text = two_syncs(alloc, &mut disk);
    let are_kept = match disk.calls() {
        [first, second, third] => {
            first.name.as_str() == "a" && !second.is_done && third.change == Change::Sync
        }
        _ => false,
    };
    (text, are_kept)
}

#[test]
fn a_disk_fails_where_it_was_told(rt: HostRuntime) -> Result<(), Fail> {
    let (text, are_kept) = told_of_failing(rt.alloc());
    let text = text?;
    assert_eq!(rt; (text.as_str(), are_kept), ("fault; ok; ", true));
    Ok(())
}

/// Reads of a lent source, and then of the source itself, at last byte by byte.
fn reads(alloc: Global, source: &mut MemSource) -> Result<String, AllocError> {
    let mut out = read(alloc, &mut &mut *source, &[2, 2])?;
    out.push_str(read(alloc, source, &[4])?.as_str())?;
    source.limit_reads(1);
    out.push_str(read(alloc, source, &[4, 4, 4])?.as_str())?;
    Ok(out)
}

/// What reads of a source answer whose fourth is to fail, and how many there were.
fn reads_of(bytes: Vec<u8>, fail: Vec<u64>, alloc: Global) -> (Result<String, AllocError>, u64) {
    let mut source = MemSource::new(bytes, fail);
    let text = reads(alloc, &mut source);
    (text, source.reads_made())
}

#[test]
fn a_source_gives_its_bytes(rt: HostRuntime) -> Result<(), Fail> {
    let alloc = rt.alloc();
    let (text, count) = reads_of(b"abcdef".to_vec(alloc)?, vec![in alloc; 3]?, alloc);
    let text = text?;
    assert_eq!(rt;
        (text.as_str(), count),
        (
            "2 [97, 98, 7, 7]; 2 [99, 100, 7, 7]; fault; 1 [101, 7, 7, 7]; 1 [102, 7, 7, 7]; 0 [7, 7, 7, 7]; ",
            6
        )
    );
    Ok(())
}

/// Writes into a lent sink, and then into the sink itself, byte by byte.
fn writes(alloc: Global, sink: &mut MemSink) -> Result<String, AllocError> {
    let mut out = written(alloc, &mut &mut *sink, &[b"ab", b"cd", b"no"])?;
    sink.limit_writes(1);
    out.push_str(written(alloc, sink, &[b"ef"])?.as_str())?;
    Ok(out)
}

/// What writes into a sink answer, how many there were, and whether it has taken these bytes.
fn writes_of(
    alloc: Global,
    fail: Vec<u64>,
    taken: &[u8],
) -> (Result<String, AllocError>, u64, bool) {
    let mut sink = MemSink::new(alloc, fail);
    let text = writes(alloc, &mut sink);
    (text, sink.writes_made(), sink.taken() == taken)
}

#[test]
fn a_sink_keeps_what_it_takes(rt: HostRuntime) -> Result<(), Fail> {
    let alloc = rt.alloc();
    let (text, count, is_taken) = writes_of(alloc, vec![in alloc; 3]?, b"abcde");
    let text = text?;
    assert_eq!(rt;
        (text.as_str(), count, is_taken),
        ("2; 2; fault; 1; ", 4, true)
    );
    Ok(())
}
