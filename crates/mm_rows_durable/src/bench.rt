//! The calls of a durable side over one to four databases. After an error the run is over.

ghost use Rattle.std.specs.Prelude.{◌≡◌, true, false, OnOk, IfOk};
ghost use Rattle.mm_durable.specs.Log.{has_pending, is_marked as all_marked};
ghost use Rattle.mm_rows_durable.specs.Benches.{IsBench};

use crate::side;
use crate::subject::Bench;
use mm_base::DbNo;
use mm_outside::Device;
use mm_tie::Origin;

/// A step that puts a byte at a place of one of the databases; false where it isn't taken.
pub fn step(bench: &mut Bench, db: DbNo, place: u8, byte: u8) -> bool
    requires { IsBench bench.old }
    ensures { IsBench bench.new }
{
    let at = db.0 as usize;
    if at >= bench.sides.len() {
        return false;
    }
    side::step(&mut bench.sides[at], place, byte)
}

/// Writes and syncs the oldest pending section; false where none is pending.
pub fn log(bench: &mut Bench) -> Result<bool, Device>
    requires { IsBench bench.old }
    ensures bench { OnOk result (IsBench bench.new) }
    ensures none { IfOk result (λ logged. logged ≡ false → has_pending bench.new.durable.log ≡ false) }
{
    bench.durable.log()
}

// What is synced is applied in one of the databases.
fn apply(bench: &mut Bench, db: DbNo)
    requires { IsBench bench.old }
    ensures { IsBench bench.new }
{
    let upto = bench.durable.synced();
    let at = db.0 as usize;
    if at < bench.sides.len() {
        side::apply(&mut bench.sides[at], upto);
    }
}

// What one of the databases applied is laid over its files, where all of that is synced.
fn lay(bench: &mut Bench, db: DbNo) -> Result<u64, Device>
    requires { IsBench bench.old }
    ensures { OnOk result (IsBench bench.new) }
{
    let synced = bench.durable.synced();
    let at = db.0 as usize;
    if at >= bench.sides.len() {
        return Ok(0);
    }
    let applied = bench.sides[at].held.applied();
    if synced < applied {
        return Ok(0);
    }
    bench.durable.flush(db, &mut bench.sides[at].held)
}

/// Lays what is synced over the files of one of the databases.
pub fn flush(bench: &mut Bench, db: DbNo) -> Result<u64, Device>
    requires { IsBench bench.old }
    ensures { OnOk result (IsBench bench.new) }
{
    apply(bench, db);
    lay(bench, db)
}

/// Syncs the data files.
pub fn sync(bench: &mut Bench) -> Result<(), Device>
    requires { IsBench bench.old }
    ensures { OnOk result (IsBench bench.new) }
{
    bench.durable.sync_data()
}

/// Marks the floor.
pub fn mark(bench: &mut Bench) -> Result<(), Device>
    requires { IsBench bench.old }
    ensures { OnOk result (IsBench bench.new) }
{
    bench.durable.mark_lsn()
}

/// Trims the journal up to the mark.
pub fn trim(bench: &mut Bench) -> Result<(), Device>
    requires { IsBench bench.old }
    ensures { OnOk result (IsBench bench.new) }
{
    bench.durable.trim()
}

// Each section is marked, of a durable side without a pending one.
fn is_marked(bench: &Bench) -> bool
    requires bench { IsBench bench.now }
    requires none { has_pending bench.now.durable.log ≡ false }
    ensures { result ≡ true → all_marked bench.now.durable.log ≡ true }
{
    bench.durable.marked() == bench.durable.synced()
}

// Removes the journal's files.
fn clear_marked(bench: &mut Bench) -> Result<(), Device>
    requires bench { IsBench bench.old }
    requires marked { all_marked bench.old.durable.log ≡ true }
{
    bench.durable.clear()
}

/// Clears the journal; false where a section is pending or isn't marked.
pub fn clear(bench: &mut Bench) -> Result<bool, Device>
    requires { IsBench bench.old }
{
    if log(bench)? {
        return Ok(false);
    }
    if !is_marked(bench) {
        return Ok(false);
    }
    clear_marked(bench)?;
    Ok(true)
}

/// Whether, of the sections below a number, exactly those up to this one have a receipt.
pub fn has_receipts(bench: &Bench, upto: u64, all: u64) -> bool
    requires { IsBench bench.now }
{
    for section in 1..all {
        if bench.durable.receipt(section).is_some() != (section <= upto) {
            return false;
        }
    }
    true
}
