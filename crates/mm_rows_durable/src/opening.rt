//! The start of a durable side over one to four databases, on a disk in memory.

ghost use Rattle.std.specs.Prelude.{◌≡◌, ◌+◌, ◌<◌, ◌≤◌, ◌++◌, ◌∷◌, [], length, IfOk, OnOk};
ghost use Rattle.mm_rows_durable.specs.Benches.{IsBench, IsFed, IsNamed};

use crate::side;
use crate::subject::{Bench, Side};
use mm_base::{DbNo, Name, NoMemory};
use mm_durable::Durable;
use mm_memdisk::MemDisk;
use mm_tie::Feed;
use std::alloc::Global;

/// How long a file of the journal is at least before the next is begun, in bytes.
const LIMIT: u64 = 20_000;

// A name of one letter behind the others.
fn push_name(names: &mut Vec<Name>, letter: u8) -> Result<(), NoMemory>
    ensures { OnOk result (names.new.items ≡ names.old.items ++ (letter ∷ []) ∷ []) }
{
    let name = Name::new(&[letter]).ok_or(NoMemory)?;
    names.push(name)?;
    Ok(())
}

// The names of so many databases, which aren't in byte order.
fn names(alloc: Global, count: u32) -> Result<Vec<Name>, NoMemory>
    ensures { IfOk result (λ names. IsNamed count names.items) }
{
    let mut names = Vec::new(alloc);
    push_name(&mut names, b'b')?;
    push_name(&mut names, b'a')?;
    push_name(&mut names, b'd')?;
    push_name(&mut names, b'c')?;
    names.truncate(count as usize);
    Ok(names)
}

// One database more, behind the others, and its feed.
fn add(
    alloc: Global,
    sides: &mut Vec<Side>,
    feeds: &mut Vec<Feed>,
    db: DbNo,
) -> Result<(), NoMemory>
    requires { IsFed sides.old.items feeds.old.items }
    ensures fed { OnOk result (IsFed sides.new.items feeds.new.items) }
    ensures count { OnOk result (length sides.new.items ≡ length sides.old.items + 1) }
{
    let (side, feed) = side::begin(alloc, db)?;
    sides.push(side)?;
    feeds.push(feed)?;
    Ok(())
}

// So many databases, and their feeds.
fn fill(
    alloc: Global,
    sides: &mut Vec<Side>,
    feeds: &mut Vec<Feed>,
    count: u32,
) -> Result<(), NoMemory>
    requires sides { sides.old.items ≡ [] }
    requires feeds { feeds.old.items ≡ [] }
    ensures fed { OnOk result (IsFed sides.new.items feeds.new.items) }
    ensures count { OnOk result (length sides.new.items ≡ count) }
{
    for db in 0..count {
        add(alloc, sides, feeds, DbNo(db))?;
    }
    Ok(())
}

/// A run of so many databases, over a disk whose lsn is 0.
pub fn begin(alloc: Global, disk: MemDisk, count: u32) -> Result<Bench, NoMemory>
    requires some { 0 < count }
    requires few { count ≤ 4 }
    ensures { IfOk result (λ bench. IsBench bench) }
{
    let mut sides = Vec::new(alloc);
    let mut feeds = Vec::new(alloc);
    fill(alloc, &mut sides, &mut feeds, count)?;
    let names = names(alloc, count)?;
    match Durable::start(alloc, disk, names, feeds, LIMIT, 0) {
        Ok(durable) => Ok(Bench { durable, sides }),
        Err((none, _)) => Err(none),
    }
}
