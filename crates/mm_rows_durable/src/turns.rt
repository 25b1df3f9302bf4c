//! Drawn turns of a durable side and of its plain model.

ghost use Rattle.std.specs.Prelude.{OnOk};
ghost use Rattle.mm_rows_durable.specs.Benches.{IsBench};

use crate::plain::{self, Plain};
use crate::subject::Bench;
use crate::{bench, closing};
use mm_base::DbNo;
use mm_outside::Device;

/// How many turns are drawn.
const TURNS: u32 = 60;

/// The next number of a linear congruence.
fn drawn(last: u64) -> u64 {
    last.wrapping_mul(6_364_136_223_846_793_005)
        .wrapping_add(1_442_695_040_888_963_407)
}

// One of so many databases.
fn database(bits: u64, count: usize) -> DbNo {
    match count {
        1 => DbNo(0),
        2 => DbNo((bits % 2) as u32),
        3 => DbNo((bits % 3) as u32),
        _ => DbNo((bits % 4) as u32),
    }
}

// A byte is put at a drawn place.
fn put(bench: &mut Bench, plain: &mut Plain, db: DbNo, bits: u64)
    requires { IsBench bench.old }
    ensures { IsBench bench.new }
{
    let place = (bits % 8) as u8;
    let byte = ((bits >> 3) % 64) as u8 | 1;
    if bench::step(bench, db, place, byte) {
        plain::put(plain, db, place, byte);
    }
}

// A group is closed and sealed, where an entry of that database waits.
fn commit(bench: &mut Bench, plain: &mut Plain, db: DbNo) -> Result<(), Device>
    requires { IsBench bench.old }
    ensures { OnOk result (IsBench bench.new) }
{
    if closing::commit(bench, db)? {
        plain::close(plain)?;
    }
    Ok(())
}

// The oldest pending section is logged, where there is one.
fn log(bench: &mut Bench, plain: &mut Plain) -> Result<(), Device>
    requires { IsBench bench.old }
    ensures { OnOk result (IsBench bench.new) }
{
    if bench::log(bench)? {
        plain::sync(plain);
    }
    Ok(())
}

// What is synced is laid over the files of that database.
fn flush(bench: &mut Bench, db: DbNo) -> Result<(), Device>
    requires { IsBench bench.old }
    ensures { OnOk result (IsBench bench.new) }
{
    bench::flush(bench, db)?;
    Ok(())
}

// The data files are synced, the floor is marked, or the journal is trimmed.
fn settle(bench: &mut Bench, bits: u64) -> Result<(), Device>
    requires { IsBench bench.old }
    ensures { OnOk result (IsBench bench.new) }
{
    match bits % 3 {
        0 => bench::sync(bench),
        1 => bench::mark(bench),
        _ => bench::trim(bench),
    }
}

// One turn.
fn turn(bench: &mut Bench, plain: &mut Plain, bits: u64) -> Result<(), Device>
    requires { IsBench bench.old }
    ensures { OnOk result (IsBench bench.new) }
{
    let db = database(bits >> 4, bench.sides.len());
    match bits % 12 {
        0 | 1 => commit(bench, plain, db),
        2 | 3 => log(bench, plain),
        4 | 5 => flush(bench, db),
        6 | 7 => settle(bench, bits >> 8),
        _ => {
            put(bench, plain, db, bits >> 8);
            Ok(())
        }
    }
}

/// Turns up to one that answers an error. Whether after each exactly the synced sections had a receipt.
pub fn play(bench: &mut Bench, plain: &mut Plain, seed: u64) -> Result<bool, Device>
    requires { IsBench bench.old }
    ensures { OnOk result (IsBench bench.new) }
{
    let mut draw = seed;
    let mut agrees = true;
    'turns: for _ in 0..TURNS {
        draw = drawn(draw);
        turn(bench, plain, draw >> 32)?;
        agrees = agrees && bench::has_receipts(bench, plain::synced(plain), plain::groups(plain));
    }
    Ok(agrees)
}

// No section is pending any more.
fn log_all(bench: &mut Bench, plain: &mut Plain) -> Result<(), Device>
    requires { IsBench bench.old }
    ensures { OnOk result (IsBench bench.new) }
{
    'logs: for _ in 0..TURNS {
        log(bench, plain)?;
    }
    Ok(())
}

// What is synced is laid over the files of each database.
fn flush_all(bench: &mut Bench) -> Result<(), Device>
    requires { IsBench bench.old }
    ensures { OnOk result (IsBench bench.new) }
{
    for db in 0..4 {
        flush(bench, DbNo(db))?;
    }
    Ok(())
}

/// The clean end: all is logged, flushed, synced and marked, and the journal is cleared; false where it may not be.
pub fn finish(bench: &mut Bench, plain: &mut Plain) -> Result<bool, Device>
    requires { IsBench bench.old }
{
    log_all(bench, plain)?;
    flush_all(bench)?;
    bench::sync(bench)?;
    bench::mark(bench)?;
    bench::clear(bench)
}
