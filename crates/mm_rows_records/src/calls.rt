//! The calls on records, each at a draft whose files stand.

ghost use Rattle.std.specs.Prelude.{◌≡◌, ◌≤◌, ℕ, None, length, IfSome, IfOk, OnOk};
ghost use Rattle.std.specs.FinMap.{get};
ghost use Rattle.mm_nstable.specs.FreeChain.{IsFreeName};
ghost use Rattle.mm_records.specs.Constants.{is_collection};
ghost use Rattle.mm_records.specs.declared.asking.Request.TheVariants.{Bucket};
ghost use Rattle.mm_rows_records.specs.Drafted.{AreGood, IsOfRecords, IsThere, IsExtentThere};

use crate::names::{free_chain, indexes};
use mm_base::{DiskLoc, Name, NoMemory};
use mm_extents::next_extent;
use mm_namespaces::{add, drop_namespace, set_up};
use mm_nstable::{details, find};
use mm_records::{RecordStore, Request, SpaceFault};
use mm_views::{Draft, Views};
use std::alloc::Global;

/// More than the records of any test.
const MAX_RECORDS: u32 = 100_000;

// Makes the files of a new database, `.ns` of 1 MiB.
fn set_up_files(draft: &mut Draft) -> Result<(), NoMemory>
    requires { (file : ℕ) → get draft.old.image file ≡ None }
    ensures { OnOk result (AreGood draft.new.image) }
{
    match (free_chain(), indexes()) {
        (Some(free), Some(indexes)) => set_up(draft, &free, &indexes, 1),
        _ => Err(NoMemory),
    }
}

/// A draft with the files of a new database.
pub(crate) fn begun(alloc: Global) -> Result<Draft, NoMemory>
    ensures { IfOk result (λ draft. AreGood draft.image) }
{
    let mut draft = Views::new(alloc).draft();
    set_up_files(&mut draft)?;
    Ok(draft)
}

/// One more namespace, where its name isn't there.
pub(crate) fn namespace(draft: &mut Draft, name: &Name, collection: bool) -> Result<(), SpaceFault>
    requires good { AreGood draft.old.image }
    requires kind { is_collection name.now ≡ collection }
    requires named { IsFreeName name.now → ⊥ }
    ensures { OnOk result (AreGood draft.new.image) }
{
    if find(draft, name).is_some() {
        return Ok(());
    }
    match add(draft, name, collection) {
        Ok(_) => Ok(()),
        Err(_) => Err(SpaceFault::NoMemory),
    }
}

/// Drops a namespace, where it is there.
pub(crate) fn dropped(draft: &mut Draft, name: &Name) -> Result<bool, NoMemory>
    requires good { AreGood draft.old.image }
    requires named { IsFreeName name.now → ⊥ }
    ensures { OnOk result (AreGood draft.new.image) }
{
    let Some(free) = free_chain() else {
        return Ok(false);
    };
    let Some(node) = find(draft, name) else {
        return Ok(false);
    };
    if find(draft, &free).is_none() {
        return Ok(false);
    }
    drop_namespace(draft, &free, node)?;
    Ok(true)
}

/// The records of a namespace that is there.
pub(crate) fn store(draft: &Draft, name: &Name) -> Option<RecordStore>
    requires good { AreGood draft.now.image }
    requires named { IsFreeName name.now → ⊥ }
    ensures { IfSome result (λ store. IsOfRecords draft.now.image store.node) }
{
    let node = find(draft, name)?;
    Some(RecordStore::at(node))
}

/// Takes a place for a payload.
pub(crate) fn taken(
    draft: &mut Draft,
    store: RecordStore,
    request: Request,
    payload: &[u8],
) -> Result<DiskLoc, SpaceFault>
    requires good { AreGood draft.old.image }
    requires node { IsOfRecords draft.old.image store.node }
    requires bucket { request ≡ Bucket → length payload.now ≤ 8192 }
    ensures good { OnOk result (AreGood draft.new.image) }
    ensures node { OnOk result (IsOfRecords draft.new.image store.node) }
{
    store.alloc(draft, request, payload)
}

/// The record of the namespace at a place, where one is there.
pub(crate) fn found(draft: &Draft, store: RecordStore, at: DiskLoc) -> Option<DiskLoc>
    requires good { AreGood draft.now.image }
    requires node { IsOfRecords draft.now.image store.node }
    ensures { IfSome result (λ here. IsThere draft.now.image store.node here) }
{
    let mut next = store.first(draft);
    for step in 0..MAX_RECORDS {
        let Some(here) = next else {
            return None;
        };
        if here == at {
            return Some(here);
        }
        next = store.next(draft, here);
    }
    None
}

/// The places of all records, in their order.
pub(crate) fn places(
    alloc: Global,
    draft: &Draft,
    store: RecordStore,
) -> Result<Vec<DiskLoc>, NoMemory>
    requires good { AreGood draft.now.image }
    requires node { IsOfRecords draft.now.image store.node }
{
    let mut out = Vec::new(alloc);
    let mut next = store.first(draft);
    for step in 0..MAX_RECORDS {
        let Some(here) = next else {
            return Ok(out);
        };
        out.push(here)?;
        next = store.next(draft, here);
    }
    Ok(out)
}

// The first extent of the namespace, where it has one.
fn first_extent(draft: &Draft, store: RecordStore) -> Option<DiskLoc>
    requires good { AreGood draft.now.image }
    requires node { IsOfRecords draft.now.image store.node }
    ensures { IfSome result (λ at. IsExtentThere draft.now.image store.node at) }
{
    let first = details(draft, store.node).first_extent;
    if first.is_null() { None } else { Some(first) }
}

/// The places of the namespace's extents, in the order of their chain.
pub(crate) fn extents(
    alloc: Global,
    draft: &Draft,
    store: RecordStore,
) -> Result<Vec<DiskLoc>, NoMemory>
    requires good { AreGood draft.now.image }
    requires node { IsOfRecords draft.now.image store.node }
{
    let mut out = Vec::new(alloc);
    let mut next = first_extent(draft, store);
    for step in 0..MAX_RECORDS {
        let Some(here) = next else {
            return Ok(out);
        };
        out.push(here)?;
        next = next_extent(draft, here);
    }
    Ok(out)
}

/// Frees a record, where one is there.
pub(crate) fn freed(draft: &mut Draft, store: RecordStore, at: DiskLoc) -> Result<bool, NoMemory>
    requires good { AreGood draft.old.image }
    requires node { IsOfRecords draft.old.image store.node }
    ensures good { OnOk result (AreGood draft.new.image) }
    ensures node { OnOk result (IsOfRecords draft.new.image store.node) }
{
    let Some(here) = found(draft, store, at) else {
        return Ok(false);
    };
    store.free(draft, here)?;
    Ok(true)
}

/// Writes a payload into a record's room, where it is there and the payload isn't too long.
pub(crate) fn rewritten(
    draft: &mut Draft,
    store: RecordStore,
    at: DiskLoc,
    payload: &[u8],
) -> Result<bool, NoMemory>
    requires good { AreGood draft.old.image }
    requires node { IsOfRecords draft.old.image store.node }
    ensures good { OnOk result (AreGood draft.new.image) }
    ensures node { OnOk result (IsOfRecords draft.new.image store.node) }
{
    let Some(here) = found(draft, store, at) else {
        return Ok(false);
    };
    store.write(draft, here, payload)
}

/// The room of a record; nothing where none is there.
pub(crate) fn room(
    alloc: Global,
    draft: &Draft,
    store: RecordStore,
    at: DiskLoc,
) -> Result<Vec<u8>, NoMemory>
    requires good { AreGood draft.now.image }
    requires node { IsOfRecords draft.now.image store.node }
{
    let mut out = Vec::new(alloc);
    if let Some(here) = found(draft, store, at) {
        store.payload(draft, here, &mut out)?;
    }
    Ok(out)
}

/// Writes bytes inside a record's room, where it is there and the room is long enough.
pub(crate) fn written_inside(
    alloc: Global,
    draft: &mut Draft,
    store: RecordStore,
    at: DiskLoc,
    from: u32,
    bytes: &[u8],
) -> Result<bool, NoMemory>
    requires good { AreGood draft.old.image }
    requires node { IsOfRecords draft.old.image store.node }
    ensures good { OnOk result (AreGood draft.new.image) }
    ensures node { OnOk result (IsOfRecords draft.new.image store.node) }
{
    let Some(here) = found(draft, store, at) else {
        return Ok(false);
    };
    let mut out = Vec::new(alloc);
    store.payload(draft, here, &mut out)?;
    if from as usize + bytes.len() > out.len() {
        return Ok(false);
    }
    store.write_inside(draft, here, from, bytes)?;
    Ok(true)
}
