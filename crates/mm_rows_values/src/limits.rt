//! The most levels and bytes of a document, and the most bytes of a key.

use crate::making::{one, zeros};
use mm_bson::{BsonFault, Doc, Value};
use mm_keys::{KeyFault, KeySpec, key_of};
use mm_update::{Change, ChangeFault};
use std::alloc::{AllocError, Global};
use std::test::Fail;

/// Appends the length of a document and what stands before the value of its element `a`.
fn open(bytes: &mut Vec<u8>, len: u32, kind: u8) -> Result<(), AllocError> {
    bytes.extend_from_slice(&len.to_le_bytes())?;
    bytes.extend_from_slice(&[kind, 0x61, 0])
}

/// Appends a document of so many levels and bytes. Each level but the innermost, which has a binary of zeros, adds eight
/// bytes.
fn spell(bytes: &mut Vec<u8>, levels: u32, len: u32) -> Result<(), AllocError> {
    let mut left = len;
    for _ in 1..levels {
        open(bytes, left, 0x03)?;
        left = left.saturating_sub(8);
    }
    open(bytes, left, 0x05)?;
    bytes.extend_from_slice(&left.saturating_sub(13).to_le_bytes())?;
    bytes.resize(len.min(0x1000_0000) as usize, 0)
}

/// How many levels and bytes the copy of a document has.
fn copied(doc: &Doc) -> Result<(usize, usize), AllocError> {
    let copy = doc.copy()?;
    Ok((copy.levels(), copy.bytes().len()))
}

/// The same of a document that is read.
fn read(alloc: Global, levels: u32, len: u32) -> Result<(usize, usize), BsonFault> {
    let mut bytes = Vec::new(alloc);
    spell(&mut bytes, levels, len)?;
    let doc = Doc::parse(alloc, bytes.as_slice())?;
    Ok(copied(&doc)?)
}

/// A document has at most 100 levels and 16,777,216 bytes.
#[test]
fn deepest_and_longest(rt: HostRuntime) {
    for (levels, len, outcome) in [
        (1, 16_777_216, Ok((1, 16_777_216))),
        (1, 16_777_217, Err(BsonFault::TooLong)),
        (100, 16_777_216, Ok((100, 16_777_216))),
        (100, 16_777_217, Err(BsonFault::TooLong)),
        (101, 16_777_216, Err(BsonFault::TooDeep { at: 700 })),
    ] {
        assert_eq!(rt; read(rt.alloc(), levels, len), outcome, "{levels} {len}");
    }
}

/// A change that sets the field `b` to so many zeros, and eight bytes with them.
fn change_of(alloc: Global, count: usize) -> Result<Change, ChangeFault> {
    let operand = one(alloc, "b", zeros(alloc, count)?)?;
    let change = one(alloc, "$set", Value::Document(operand))?;
    Change::from_doc(alloc, &change)
}

/// The document of so many levels and bytes with that field.
fn changed(alloc: Global, levels: u32, len: u32, count: usize) -> Result<Doc, ChangeFault> {
    let mut bytes = Vec::new(alloc);
    spell(&mut bytes, levels, len)?;
    match Doc::parse(alloc, bytes.as_slice()) {
        Ok(doc) => change_of(alloc, count)?.apply(&doc),
        Err(_) => Err(ChangeFault::NoMemory),
    }
}

/// How many bytes that document has, or would have, and how many levels it has
/// where it is there.
fn changed_len(alloc: Global, levels: u32, len: u32, count: usize) -> Option<(u64, usize)> {
    match changed(alloc, levels, len, count) {
        Ok(doc) => Some((doc.bytes().len() as u64, doc.levels())),
        Err(ChangeFault::TooLong { len }) => Some((len, 0)),
        Err(_) => None,
    }
}

/// The changed document may have as many, whichever of the two is the long one.
#[test]
fn deepest_and_longest_change(rt: HostRuntime) {
    for (levels, len, count, outcome) in [
        (1, 14, 16_777_194, (16_777_216, 1)),
        (1, 14, 16_777_195, (16_777_217, 0)),
        (100, 16_777_207, 1, (16_777_216, 100)),
        (100, 16_777_208, 1, (16_777_217, 0)),
    ] {
        let found = changed_len(rt.alloc(), levels, len, count);
        assert_eq!(rt; found, Some(outcome), "{levels} {len}");
    }
}

/// The specification {"_id": 1}, copied.
fn spec(alloc: Global) -> Result<KeySpec, KeyFault> {
    let doc = one(alloc, "_id", Value::Int32(1))?;
    match KeySpec::from_doc(alloc, &doc) {
        Ok(spec) => Ok(spec.copy()?),
        Err(_) => Err(KeyFault::NoMemory),
    }
}

/// How many bytes the key of `_id` has by it.
fn key_len_of(alloc: Global, doc: &Doc) -> Result<usize, KeyFault> {
    let key = key_of(alloc, doc, &spec(alloc)?)?;
    Ok(key.bytes().len())
}

/// The same of a document whose `_id` is so many zeros.
fn key_len(alloc: Global, count: usize) -> Result<usize, KeyFault> {
    let doc = one(alloc, "_id", zeros(alloc, count)?)?;
    key_len_of(alloc, &doc)
}

/// A key has at most 1024 bytes; a longer one is refused with its whole length.
#[test]
fn longest_key(rt: HostRuntime) {
    for (count, outcome) in [
        (1012, Ok(1024)),
        (1013, Err(KeyFault::KeyTooLong { len: 1025 })),
        (1_000_000, Err(KeyFault::KeyTooLong { len: 1_000_012 })),
    ] {
        assert_eq!(rt; key_len(rt.alloc(), count), outcome, "{count}");
    }
}
