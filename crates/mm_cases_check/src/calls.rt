//! The calls on namespaces and records, each at a draft whose files stand.

ghost use Rattle.std.specs.Prelude.{◌≡◌, ◌≤◌, ℕ, None, length, IfSome, IfOk, OnOk};
ghost use Rattle.std.specs.FinMap.{get};
ghost use Rattle.mm_nstable.specs.FreeChain.{IsFreeName};
ghost use Rattle.mm_records.specs.Constants.{is_collection};
ghost use Rattle.mm_records.specs.declared.asking.Request.TheVariants.{Bucket};
ghost use Rattle.mm_cases_check.specs.Drafted.{AreGood, IsOfRecords, IsThere};

use crate::names::{free_chain, indexes};
use mm_base::{DiskLoc, Name, NoMemory};
use mm_namespaces::{add, drop_namespace, set_up};
use mm_nstable::find;
use mm_records::{RecordStore, Request, SpaceFault};
use mm_views::{Draft, Views};
use std::alloc::Global;

// Makes the files of a new database, `.ns` of 1 MiB.
fn set_up_files(draft: &mut Draft) -> Result<(), NoMemory>
    requires { (file : ℕ) → get draft.old.image file ≡ None }
    ensures { OnOk result (AreGood draft.new.image) }
{
    match (free_chain(), indexes()) {
        (Some(free), Some(indexes)) => set_up(draft, &free, &indexes, 1),
        _ => Err(NoMemory),
    }
}

/// A draft with the files of a new database.
pub(crate) fn begun(alloc: Global) -> Result<Draft, NoMemory>
    ensures { IfOk result (λ draft. AreGood draft.image) }
{
    let mut draft = Views::new(alloc).draft();
    set_up_files(&mut draft)?;
    Ok(draft)
}

// One more namespace, where its name isn't there.
fn namespace(draft: &mut Draft, name: &Name, collection: bool) -> Result<(), SpaceFault>
    requires good { AreGood draft.old.image }
    requires kind { is_collection name.now ≡ collection }
    requires named { IsFreeName name.now → ⊥ }
    ensures { OnOk result (AreGood draft.new.image) }
{
    if find(draft, name).is_some() {
        return Ok(());
    }
    match add(draft, name, collection) {
        Ok(_) => Ok(()),
        Err(_) => Err(SpaceFault::NoMemory),
    }
}

// The records of a namespace that is there.
fn store(draft: &Draft, name: &Name) -> Option<RecordStore>
    requires good { AreGood draft.now.image }
    requires named { IsFreeName name.now → ⊥ }
    ensures { IfSome result (λ store. IsOfRecords draft.now.image store.node) }
{
    let node = find(draft, name)?;
    Some(RecordStore::at(node))
}

// Takes a place for a payload.
fn taken(
    draft: &mut Draft,
    store: RecordStore,
    request: Request,
    payload: &[u8],
) -> Result<(), SpaceFault>
    requires good { AreGood draft.old.image }
    requires node { IsOfRecords draft.old.image store.node }
    requires bucket { request ≡ Bucket → length payload.now ≤ 8192 }
    ensures { OnOk result (AreGood draft.new.image) }
{
    match store.alloc(draft, request, payload) {
        Ok(_) => Ok(()),
        Err(fault) => Err(fault),
    }
}

/// Takes a place in the namespace of a name, which is put in where it isn't there.
pub(crate) fn put(
    draft: &mut Draft,
    name: &Name,
    kind: bool,
    request: Request,
    payload: &[u8],
) -> Result<(), SpaceFault>
    requires good { AreGood draft.old.image }
    requires kind { is_collection name.now ≡ kind }
    requires named { IsFreeName name.now → ⊥ }
    requires bucket { request ≡ Bucket → length payload.now ≤ 8192 }
    ensures { OnOk result (AreGood draft.new.image) }
{
    namespace(draft, name, kind)?;
    match store(draft, name) {
        Some(store) => taken(draft, store, request, payload),
        None => Err(SpaceFault::NoMemory),
    }
}

// The record of a namespace that has so many before it.
fn record_behind(draft: &Draft, store: RecordStore, count: u32) -> Option<DiskLoc>
    requires good { AreGood draft.now.image }
    requires node { IsOfRecords draft.now.image store.node }
    ensures { IfSome result (λ here. IsThere draft.now.image store.node here) }
{
    let mut next = store.first(draft);
    for step in 0..count {
        let Some(here) = next else {
            return None;
        };
        next = store.next(draft, here);
    }
    next
}

// Frees the record that has so many before it, where it is there.
fn freed_of(draft: &mut Draft, store: RecordStore, count: u32) -> Result<(), NoMemory>
    requires good { AreGood draft.old.image }
    requires node { IsOfRecords draft.old.image store.node }
    ensures { OnOk result (AreGood draft.new.image) }
{
    match record_behind(draft, store, count) {
        Some(here) => store.free(draft, here),
        None => Err(NoMemory),
    }
}

/// Frees the record of a namespace that has so many before it.
pub(crate) fn freed(draft: &mut Draft, name: &Name, count: u32) -> Result<(), NoMemory>
    requires good { AreGood draft.old.image }
    requires named { IsFreeName name.now → ⊥ }
    ensures { OnOk result (AreGood draft.new.image) }
{
    match store(draft, name) {
        Some(store) => freed_of(draft, store, count),
        None => Err(NoMemory),
    }
}

/// Drops a namespace.
pub(crate) fn dropped(draft: &mut Draft, name: &Name) -> Result<(), NoMemory>
    requires good { AreGood draft.old.image }
    requires named { IsFreeName name.now → ⊥ }
    ensures { OnOk result (AreGood draft.new.image) }
{
    let Some(free) = free_chain() else {
        return Err(NoMemory);
    };
    let Some(node) = find(draft, name) else {
        return Err(NoMemory);
    };
    if find(draft, &free).is_none() {
        return Err(NoMemory);
    }
    drop_namespace(draft, &free, node)
}
