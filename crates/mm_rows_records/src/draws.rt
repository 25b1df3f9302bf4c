//! Records that are taken, freed and written at random, beside a plain list of what they hold.

ghost use Rattle.std.specs.Prelude.{OnOk};
ghost use Rattle.mm_rows_records.specs.Drafted.{AreGood, IsOfRecords};

use crate::calls::{freed, rewritten, room, taken};
use mm_base::{DiskLoc, NoMemory};
use mm_records::{RecordStore, Request, SpaceFault};
use mm_views::Draft;
use std::alloc::Global;

/// What a payload's bytes are made of.
#[derive(Clone, Copy)]
pub(crate) struct Made {
    pub(crate) seed: u32,
    pub(crate) len: u32,
}

/// A record, and the payload that it holds.
#[derive(Clone, Copy)]
pub(crate) struct Held {
    pub(crate) at: DiskLoc,
    pub(crate) made: Made,
}

/// The next number of a row of drawn ones.
pub(crate) fn drawn(number: u32) -> u32 {
    number.wrapping_mul(1_664_525).wrapping_add(1_013_904_223)
}

/// The bytes of a payload.
pub(crate) fn bytes_of(alloc: Global, made: Made) -> Result<Vec<u8>, NoMemory> {
    let mut out = Vec::new(alloc);
    for i in 0..made.len {
        out.push((made.seed.wrapping_add(i) % 251) as u8)?;
    }
    Ok(out)
}

// A length that is drawn: most are short, some of several blocks.
fn len_of(number: u32) -> u32 {
    let long = number / 4096 % 16;
    if long == 0 {
        number / 65536 % 20_000
    } else {
        number / 65536 % 600
    }
}

// Takes a place for a drawn payload.
fn take(
    alloc: Global,
    draft: &mut Draft,
    store: RecordStore,
    all: &mut Vec<Held>,
    number: u32,
) -> Result<(), SpaceFault>
    requires good { AreGood draft.old.image }
    requires node { IsOfRecords draft.old.image store.node }
    ensures good { OnOk result (AreGood draft.new.image) }
    ensures node { OnOk result (IsOfRecords draft.new.image store.node) }
{
    let made = Made {
        seed: number,
        len: len_of(number),
    };
    let payload = bytes_of(alloc, made)?;
    let at = taken(draft, store, Request::Record, payload.as_slice())?;
    match all.push(Held { at, made }) {
        Ok(()) => Ok(()),
        Err(_) => Err(SpaceFault::NoMemory),
    }
}

// Frees a drawn one of the records. It answers false where it isn't there.
fn drop_one(
    draft: &mut Draft,
    store: RecordStore,
    all: &mut Vec<Held>,
    number: u32,
) -> Result<bool, NoMemory>
    requires good { AreGood draft.old.image }
    requires node { IsOfRecords draft.old.image store.node }
    ensures good { OnOk result (AreGood draft.new.image) }
    ensures node { OnOk result (IsOfRecords draft.new.image store.node) }
{
    if all.is_empty() {
        return Ok(true);
    }
    let which = number as usize / 8 % all.len();
    let held = all.swap_remove(which);
    freed(draft, store, held.at)
}

// Writes another payload into a drawn one of the records. Where it is too long for the record's room nothing changes.
fn write_one(
    alloc: Global,
    draft: &mut Draft,
    store: RecordStore,
    all: &mut Vec<Held>,
    number: u32,
) -> Result<(), NoMemory>
    requires good { AreGood draft.old.image }
    requires node { IsOfRecords draft.old.image store.node }
    ensures good { OnOk result (AreGood draft.new.image) }
    ensures node { OnOk result (IsOfRecords draft.new.image store.node) }
{
    if all.is_empty() {
        return Ok(());
    }
    let which = number as usize / 8 % all.len();
    let made = Made {
        seed: number,
        len: len_of(number),
    };
    let payload = bytes_of(alloc, made)?;
    let at = all[which].at;
    if rewritten(draft, store, at, payload.as_slice())? {
        all[which].made = made;
    }
    Ok(())
}

// What a drawn number asks for: half of them take a place.
fn one_draw(
    alloc: Global,
    draft: &mut Draft,
    store: RecordStore,
    all: &mut Vec<Held>,
    number: u32,
) -> Result<bool, SpaceFault>
    requires good { AreGood draft.old.image }
    requires node { IsOfRecords draft.old.image store.node }
    ensures good { OnOk result (AreGood draft.new.image) }
    ensures node { OnOk result (IsOfRecords draft.new.image store.node) }
{
    match number / 16_777_216 % 4 {
        0 => Ok(drop_one(draft, store, all, number)?),
        1 => {
            write_one(alloc, draft, store, all, number)?;
            Ok(true)
        }
        _ => {
            take(alloc, draft, store, all, number)?;
            Ok(true)
        }
    }
}

/// So many draws. It answers how many records weren't where the list has them.
pub(crate) fn draw_all(
    alloc: Global,
    draft: &mut Draft,
    store: RecordStore,
    all: &mut Vec<Held>,
    draws: u32,
) -> Result<u32, SpaceFault>
    requires good { AreGood draft.old.image }
    requires node { IsOfRecords draft.old.image store.node }
    ensures good { OnOk result (AreGood draft.new.image) }
    ensures node { OnOk result (IsOfRecords draft.new.image store.node) }
{
    let mut number = 1;
    let mut lost = 0;
    for step in 0..draws {
        number = drawn(number);
        if !one_draw(alloc, draft, store, all, number)? {
            lost = step;
        }
    }
    Ok(lost)
}

// Whether the front of a record's room has its payload.
fn holds(alloc: Global, draft: &Draft, store: RecordStore, held: Held) -> Result<bool, NoMemory>
    requires good { AreGood draft.now.image }
    requires node { IsOfRecords draft.now.image store.node }
{
    let payload = bytes_of(alloc, held.made)?;
    let room = room(alloc, draft, store, held.at)?;
    Ok(room.as_slice().starts_with(payload.as_slice()))
}

/// Whether each of the list's records has its payload.
pub(crate) fn all_right(
    alloc: Global,
    draft: &Draft,
    store: RecordStore,
    all: &[Held],
) -> Result<bool, NoMemory>
    requires good { AreGood draft.now.image }
    requires node { IsOfRecords draft.now.image store.node }
{
    for held in all {
        if !holds(alloc, draft, store, *held)? {
            return Ok(false);
        }
    }
    Ok(true)
}
