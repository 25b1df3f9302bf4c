//! Groups of all databases, closed and sealed.

ghost use Rattle.std.specs.Prelude.{◌≡◌, ◌+◌, ◌<◌, length, true, OnOk};
ghost use Rattle.mm_rows_durable.specs.Benches.{IsBench};
ghost use Rattle.mm_rows_durable.specs.Closings.{MayTake, Takes, IsClosing, IsWaiting};

use crate::side;
use crate::subject::{Bench, Side};
use mm_base::DbNo;
use mm_durable::Durable;
use mm_memdisk::MemDisk;
use mm_outside::Device;

// The durable side takes what a database gives for its group. Where memory is wanting, nothing is closed.
fn close(durable: &mut Durable<MemDisk>, side: &mut Side, db: DbNo) -> Result<(), Device>
    requires { MayTake durable.old db.0 side.old }
    ensures { OnOk result (Takes durable.old durable.new db.0 side.old side.new) }
{
    let ready = side::ready(side);
    if !ready {
        return Err(Device::NoMemory);
    }
    side.items += 1;
    durable.take_closed(db, &mut side.held);
    Ok(())
}

// The same of the next of the databases, of which that with the other number has an entry.
fn close_next(bench: &mut Bench, db: DbNo, entry: u32) -> Result<(), Device>
    requires closing { IsClosing bench.old db.0 entry }
    requires there { db.0 < length bench.old.sides.items }
    ensures closing { OnOk result (IsClosing bench.new (db.0 + 1) entry) }
    ensures count { OnOk result (length bench.new.sides.items ≡ length bench.old.sides.items) }
{
    close(&mut bench.durable, &mut bench.sides[db.0 as usize], db)
}

fn close_all(bench: &mut Bench, entry: u32) -> Result<(), Device>
    requires { IsClosing bench.old 0 entry }
    ensures { OnOk result (IsClosing bench.new (length bench.new.sides.items) entry) }
{
    let count = bench.sides.len() as u32;
    for db in 0..count {
        close_next(bench, DbNo(db), entry)?;
    }
    Ok(())
}

// The group of all databases is closed and sealed.
fn close_and_seal(bench: &mut Bench, entry: u32) -> Result<(), Device>
    requires { IsClosing bench.old 0 entry }
    ensures { OnOk result (IsBench bench.new) }
{
    close_all(bench, entry)?;
    bench.durable.seal();
    Ok(())
}

// An entry of this database waits.
fn is_waiting(bench: &Bench, db: DbNo) -> bool
    ensures { result ≡ true → IsWaiting bench.now db.0 }
{
    let at = db.0 as usize;
    if at >= bench.sides.len() {
        return false;
    }
    bench.sides[at].held.waiting() > 0
}

/// A group of all databases is closed and sealed; false where no entry of this one waits.
pub fn commit(bench: &mut Bench, db: DbNo) -> Result<bool, Device>
    requires { IsBench bench.old }
    ensures { OnOk result (IsBench bench.new) }
{
    let waiting = is_waiting(bench, db);
    if !waiting {
        return Ok(false);
    }
    let ready = bench.durable.ready().is_ok();
    if !ready {
        return Err(Device::NoMemory);
    }
    close_and_seal(bench, db.0)?;
    Ok(true)
}
