//! Runs that stop at a drawn call, and what a crash leaves of them.

ghost use Rattle.std.specs.Prelude.{◌<◌, ◌≤◌};

use crate::opening;
use crate::plain::{self, Plain};
use crate::turns::{finish, play};
use mm_memdisk::MemDisk;
use mm_outside::{Device, Disk};
use mm_recover::recover;
use std::alloc::Global;
use std::test::Fail;

/// A disk that was recovered, which stops at this call, or fails there once.
fn disk(alloc: Global, call: u64, stops: bool) -> Result<MemDisk, Fail> {
    let mut disk = MemDisk::new(alloc);
    let _ = recover(alloc, &mut disk);
    if stops {
        disk.stop_at(call);
    } else {
        disk.fail_at(vec![in alloc; call; 1]?);
    }
    Ok(disk)
}

/// What a crash leaves of a run of drawn turns, and the plain model of that run.
fn left(
    alloc: Global,
    count: u32,
    seed: u64,
    disk: MemDisk,
    pick: u64,
) -> Result<(MemDisk, Plain), Fail>
    requires some { 0 < count }
    requires few { count ≤ 4 }
{
    let mut plain = plain::begin(alloc)?;
    let mut bench = opening::begin(alloc, disk, count)?;
    let _ = play(&mut bench, &mut plain, seed);
    let left = bench.durable.into_disk().crash(pick)?;
    Ok((left, plain))
}

/// The first bytes of two databases' files; zeros where one isn't there.
fn first_bytes(disk: &mut MemDisk, one: &str, other: &str) -> Result<[u8; 16], Device> {
    let mut bytes = [0; 16];
    disk.read_at(one, 0, &mut bytes[..8])?;
    disk.read_at(other, 0, &mut bytes[8..])?;
    Ok(bytes)
}

/// Whether the recovery is a prefix that the model allows.
fn is_prefix(alloc: Global, disk: MemDisk, plain: &Plain) -> Result<bool, Fail> {
    let mut disk = disk;
    match recover(alloc, &mut disk) {
        Ok(recovered) => {
            let front = first_bytes(&mut disk, "b.0", "a.0")?;
            let back = first_bytes(&mut disk, "d.0", "c.0")?;
            Ok(plain::allows(plain, recovered.last, &front, &back))
        }
        Err(_) => Ok(false),
    }
}

/// A run that stops at this call, or where that call alone fails, and is recovered after a crash.
fn checked(
    alloc: Global,
    count: u32,
    seed: u64,
    call: u64,
    stops: bool,
    pick: u64,
) -> Result<bool, Fail>
    requires some { 0 < count }
    requires few { count ≤ 4 }
{
    let (left, plain) = left(alloc, count, seed, disk(alloc, call, stops)?, pick)?;
    is_prefix(alloc, left, &plain)
}

#[test]
fn stopped_at_drawn_calls(rt: HostRuntime) -> Result<(), Fail> {
    for seed in 0..75 {
        for pick in 0..4 {
            let count = 1 + (seed % 4) as u32;
            let call = 10 + seed * 7 % 97;
            assert!(rt;
                checked(rt.alloc(), count, seed, call, true, pick)?,
                "seed {seed}, pick {pick}"
            );
        }
    }
    Ok(())
}

#[test]
fn each_call_fails_once(rt: HostRuntime) -> Result<(), Fail> {
    for call in 1..110 {
        let count = 1 + (call / 4 % 4) as u32;
        assert!(rt;
            checked(rt.alloc(), count, 5, call, false, call % 4)?,
            "call {call}"
        );
    }
    Ok(())
}

/// A whole run syncs sections, and has the receipts of these and no others.
fn receipts(alloc: Global, count: u32, seed: u64) -> Result<bool, Fail>
    requires some { 0 < count }
    requires few { count ≤ 4 }
{
    let mut plain = plain::begin(alloc)?;
    let mut bench = opening::begin(alloc, disk(alloc, 100_000, true)?, count)?;
    let agrees = play(&mut bench, &mut plain, seed)?;
    Ok(agrees && plain::synced(&plain) > 0)
}

#[test]
fn receipts_are_of_synced_sections(rt: HostRuntime) -> Result<(), Fail> {
    for seed in 0..20 {
        let count = 1 + (seed % 4) as u32;
        assert!(rt; receipts(rt.alloc(), count, seed)?, "seed {seed}");
    }
    Ok(())
}

/// A whole run that ends cleanly: the journal is cleared, and what a crash leaves then is all that was synced.
fn ends(alloc: Global, count: u32, seed: u64, pick: u64) -> Result<bool, Fail>
    requires some { 0 < count }
    requires few { count ≤ 4 }
{
    let mut plain = plain::begin(alloc)?;
    let mut bench = opening::begin(alloc, disk(alloc, 100_000, true)?, count)?;
    let agrees = play(&mut bench, &mut plain, seed)?;
    let cleared = finish(&mut bench, &mut plain)?;
    let left = bench.durable.into_disk().crash(pick)?;
    Ok(agrees && cleared && is_prefix(alloc, left, &plain)?)
}

#[test]
fn clean_ends(rt: HostRuntime) -> Result<(), Fail> {
    for seed in 0..20 {
        let count = 1 + (seed % 4) as u32;
        assert!(rt; ends(rt.alloc(), count, seed, seed / 4 % 4)?, "seed {seed}");
    }
    Ok(())
}
