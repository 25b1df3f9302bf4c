//! The databases that are checked. Payloads that aren't looked into yet are zeros.

ghost use Rattle.std.specs.Prelude.{◌≤◌, length, OnOk};
ghost use Rattle.mm_cases_check.specs.Drafted.{AreGood};

use crate::calls::{begun, dropped, freed, put};
use crate::names::{collection, dropped_one, index, indexes};
use mm_base::NoMemory;
use mm_records::{Request, SpaceFault};
use mm_views::{Draft, Views};
use std::alloc::Global;

/// `{"v": 0, "key": {"_id": 1}, "ns": "test.c", "name": "_id_"}`.
const INDEX_RECORD: &[u8] =
    b"\x3d\0\0\0\x10v\0\0\0\0\0\x03key\0\x0e\0\0\0\x10_id\0\x01\0\0\0\0\x02ns\0\x07\0\0\0test.c\0\x02name\0\x05\0\0\0_id_\0\0";

/// How many bytes a document has.
const DOC_LEN: usize = 14;

// The document `{"_id": NUMBER}`.
fn doc(number: u32) -> [u8; DOC_LEN] {
    let [a, b, c, d] = number.to_le_bytes();
    [14, 0, 0, 0, 0x10, b'_', b'i', b'd', 0, a, b, c, d, 0]
}

fn put_index_record(draft: &mut Draft) -> Result<(), SpaceFault>
    requires { AreGood draft.old.image }
    ensures { OnOk result (AreGood draft.new.image) }
{
    match indexes() {
        Some(name) => put(draft, &name, false, Request::Record, INDEX_RECORD),
        None => Err(SpaceFault::NoMemory),
    }
}

fn put_bucket(draft: &mut Draft) -> Result<(), SpaceFault>
    requires { AreGood draft.old.image }
    ensures { OnOk result (AreGood draft.new.image) }
{
    match index() {
        Some(name) => put(draft, &name, false, Request::Bucket, &[0; 8192]),
        None => Err(SpaceFault::NoMemory),
    }
}

fn put_doc(draft: &mut Draft, payload: &[u8]) -> Result<(), SpaceFault>
    requires { AreGood draft.old.image }
    ensures { OnOk result (AreGood draft.new.image) }
{
    match collection() {
        Some(name) => put(draft, &name, true, Request::Record, payload),
        None => Err(SpaceFault::NoMemory),
    }
}

fn free_doc(draft: &mut Draft, count: u32) -> Result<(), NoMemory>
    requires { AreGood draft.old.image }
    ensures { OnOk result (AreGood draft.new.image) }
{
    match collection() {
        Some(name) => freed(draft, &name, count),
        None => Err(NoMemory),
    }
}

fn put_other(draft: &mut Draft, payload: &[u8]) -> Result<(), SpaceFault>
    requires { AreGood draft.old.image }
    ensures { OnOk result (AreGood draft.new.image) }
{
    match dropped_one() {
        Some(name) => put(draft, &name, true, Request::Record, payload),
        None => Err(SpaceFault::NoMemory),
    }
}

fn drop_other(draft: &mut Draft) -> Result<(), NoMemory>
    requires { AreGood draft.old.image }
    ensures { OnOk result (AreGood draft.new.image) }
{
    match dropped_one() {
        Some(name) => dropped(draft, &name),
        None => Err(NoMemory),
    }
}

// The record of an index, and a bucket of it.
fn put_front(draft: &mut Draft) -> Result<(), SpaceFault>
    requires { AreGood draft.old.image }
    ensures { OnOk result (AreGood draft.new.image) }
{
    put_index_record(draft)?;
    put_bucket(draft)
}

// Five documents.
fn put_five(draft: &mut Draft) -> Result<(), SpaceFault>
    requires { AreGood draft.old.image }
    ensures { OnOk result (AreGood draft.new.image) }
{
    for number in 1..6 {
        put_doc(draft, &doc(number))?;
    }
    Ok(())
}

// Frees the second of five documents, and the fourth.
fn free_two(draft: &mut Draft) -> Result<(), SpaceFault>
    requires { AreGood draft.old.image }
    ensures { OnOk result (AreGood draft.new.image) }
{
    free_doc(draft, 1)?;
    free_doc(draft, 2)?;
    Ok(())
}

// A collection with two extents comes and goes.
fn come_and_go(draft: &mut Draft) -> Result<(), SpaceFault>
    requires { AreGood draft.old.image }
    ensures { OnOk result (AreGood draft.new.image) }
{
    put_other(draft, &doc(1))?;
    put_other(draft, &[0; 8192])?;
    drop_other(draft)?;
    Ok(())
}

// The index gets a second extent.
fn fill_small(draft: &mut Draft) -> Result<(), SpaceFault>
    requires { AreGood draft.old.image }
{
    put_front(draft)?;
    put_five(draft)?;
    put_bucket(draft)?;
    free_two(draft)?;
    come_and_go(draft)
}

// So many documents, each in front of a payload.
fn put_many(draft: &mut Draft, count: u32, payload: &mut [u8]) -> Result<(), SpaceFault>
    requires good { AreGood draft.old.image }
    requires long { DOC_LEN ≤ length payload.old }
    ensures { OnOk result (AreGood draft.new.image) }
{
    for number in 0..count {
        payload[..DOC_LEN].copy_from_slice(&doc(number));
        put_doc(draft, payload)?;
    }
    Ok(())
}

fn fill_many(draft: &mut Draft, count: u32, payload: &mut [u8]) -> Result<(), SpaceFault>
    requires good { AreGood draft.old.image }
    requires long { DOC_LEN ≤ length payload.old }
{
    put_front(draft)?;
    put_many(draft, count, payload)
}

// The views with what a draft made.
fn kept(mut draft: Draft) -> Result<Views, SpaceFault> {
    draft.reserve()?;
    Ok(draft.adopt())
}

/// A new database.
pub(crate) fn fresh(alloc: Global) -> Result<Views, SpaceFault> {
    let draft = begun(alloc)?;
    kept(draft)
}

/// A database in file 0: five documents of a collection, of which two are freed, two extents of its index, and two that are free.
pub(crate) fn small(alloc: Global) -> Result<Views, SpaceFault> {
    let mut draft = begun(alloc)?;
    fill_small(&mut draft)?;
    kept(draft)
}

/// A database with so many documents, each with zeros behind it up to a length.
pub(crate) fn many(alloc: Global, count: u32, len: u32) -> Result<Views, SpaceFault> {
    let Ok(mut payload) = vec![in alloc; 0; DOC_LEN.max(len as usize)] else {
        return Err(SpaceFault::NoMemory);
    };
    let mut draft = begun(alloc)?;
    fill_many(&mut draft, count, &mut payload)?;
    kept(draft)
}
