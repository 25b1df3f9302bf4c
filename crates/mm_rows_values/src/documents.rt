//! Documents that are built and copied.

use crate::making::{list_of, one, put};
use mm_bson::{Doc, DocList, Text, Value, ValueList};
use std::alloc::{AllocError, Global};
use std::test::Fail;

/// {"a": {"b": [true], "b": "x"}, "a": Timestamp(2, 1)}
const NESTED: &[u8] =
    b"\x2d\0\0\0\x03a\0\x1a\0\0\0\x04b\0\x09\0\0\0\x080\0\x01\0\x02b\0\x02\0\0\0x\0\0\x11a\0\x01\0\0\0\x02\0\0\0\0";

/// The document inside of it.
fn inner(alloc: Global) -> Result<Doc, AllocError> {
    let list = list_of(alloc, Value::Boolean(true))?;
    let mut inner = one(alloc, "b", Value::Array(list))?;
    let text = Text::from_str(alloc, "x")?;
    put(alloc, &mut inner, "b", Value::String(text))?;
    Ok(inner)
}

fn nested(alloc: Global) -> Result<Doc, AllocError> {
    let inner = inner(alloc)?;
    let mut doc = one(alloc, "a", Value::Document(inner))?;
    let time = Value::Timestamp {
        seconds: 2,
        increment: 1,
    };
    put(alloc, &mut doc, "a", time)?;
    Ok(doc)
}

/// The bytes of the documents of a list, one behind the other.
fn bytes_of(alloc: Global, documents: &DocList) -> Result<Vec<u8>, AllocError> {
    let mut bytes = Vec::new(alloc);
    for doc in documents.documents() {
        bytes.extend_from_slice(doc.bytes())?;
    }
    Ok(bytes)
}

/// The bytes of a list of this one document, copied.
fn copied(alloc: Global) -> Result<Vec<u8>, AllocError> {
    let mut documents = DocList::new(alloc);
    documents.push(nested(alloc)?)?;
    bytes_of(alloc, &documents.copy()?)
}

#[test]
fn builds_and_copies(rt: HostRuntime) -> Result<(), Fail> {
    let bytes = copied(rt.alloc())?;
    assert_eq!(rt; bytes.as_slice(), NESTED);
    Ok(())
}

/// Whether values may go to another thread, and be read by several.
fn crosses<T: Send + Sync>() {}

#[test]
fn threads() {
    crosses::<Doc>();
    crosses::<DocList>();
    crosses::<Value>();
    crosses::<ValueList>();
}
