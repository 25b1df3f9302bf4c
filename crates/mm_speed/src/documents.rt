//! Work on documents that is timed.

ghost use Rattle.std.specs.Prelude.{◌<◌, length, IfSome};

use anyhow::{Result, bail};
use mm_bson::{Doc, DocRef};
use mm_notation::read_doc;
use mm_query::Filter;
use mm_update::Change;
use std::alloc::Global;

/// A text in notation has at most so many bytes.
const MOST_TEXT: usize = 0x1000_0000;

/// The bytes of the document at the front of others, by its length, and what
/// follows them; nothing where none can stand there.
fn front(bytes: &[u8]) -> Option<(&[u8], &[u8])>
    ensures { IfSome result (λ x. length x.1.now < length bytes.now) }
{
    let [a, b, c, d, ..] = bytes else {
        return None;
    };
    let len = u32::from_le_bytes([*a, *b, *c, *d]) as usize;
    if len == 0 || len > bytes.len() {
        return None;
    }
    Some(bytes.split_at(len))
}

/// The document at the front of bytes, and what follows it.
fn read_front(alloc: Global, bytes: &[u8]) -> Result<(Doc, &[u8])> {
    match front(bytes) {
        Some((first, others)) => Ok((Doc::parse(alloc, first)?, others)),
        None => Ok((Doc::parse(alloc, bytes)?, &[])),
    }
}

/// Looks whether the bytes are a document.
pub fn check(bytes: &[u8], times: u32) -> Result<usize> {
    for _ in 0..times {
        let _doc = DocRef::parse(bytes)?;
    }
    Ok(bytes.len())
}

/// Makes a document of the bytes, and drops it.
pub fn parse(alloc: Global, bytes: &[u8], times: u32) -> Result<usize> {
    for _ in 0..times {
        let _doc = Doc::parse(alloc, bytes)?;
    }
    Ok(bytes.len())
}

/// Copies the document that the bytes are, and drops the copy.
pub fn copy(alloc: Global, bytes: &[u8], times: u32) -> Result<usize> {
    let doc = Doc::parse(alloc, bytes)?;
    for _ in 0..times {
        let _copy = doc.copy()?;
    }
    Ok(bytes.len())
}

/// Where the document ends that begins the text.
fn end_of(alloc: Global, text: &str) -> Result<usize> {
    if text.len() > MOST_TEXT || !text.is_char_boundary(0) {
        bail!("the text is too long");
    }
    let (_doc, end) = read_doc(alloc, text, 0)?;
    Ok(end)
}

/// Reads the document that begins the text, and drops it.
pub fn notation(alloc: Global, bytes: &[u8], times: u32) -> Result<usize> {
    let text = str::from_utf8(bytes)?;
    let mut len = 0;
    for _ in 0..times {
        len = end_of(alloc, text)?;
    }
    Ok(len)
}

/// The bytes are a change and a document: makes the changed one.
pub fn change(alloc: Global, bytes: &[u8], times: u32) -> Result<usize> {
    let (spelled, others) = read_front(alloc, bytes)?;
    let (doc, _) = read_front(alloc, others)?;
    let mut len = 0;
    for _ in 0..times {
        let change = Change::from_doc(alloc, &spelled)?;
        len = change.apply(&doc)?.bytes().len();
    }
    Ok(len)
}

fn selects(filter: &Option<Filter>, doc: &DocRef<'_>) -> bool {
    match filter {
        Some(filter) => filter.matches_in_place(doc),
        None => true,
    }
}

/// How many bytes the documents have that match, or all where there is no
/// filter.
fn matching(filter: &Option<Filter>, bytes: &[u8]) -> Result<usize> {
    let mut found: usize = 0;
    let mut rest = bytes;
    while let Some((first, others)) = front(rest) {
        let doc = DocRef::parse(first)?;
        if selects(filter, &doc) {
            found = found.saturating_add(first.len());
        }
        rest = others;
    }
    Ok(found)
}

/// Looks at documents that stand one behind the other.
pub fn scan(bytes: &[u8], times: u32) -> Result<usize> {
    let mut len = 0;
    for _ in 0..times {
        len = matching(&None, bytes)?;
    }
    Ok(len)
}

/// The bytes are a filter and documents one behind the other: looks at each of
/// them, and whether it matches.
pub fn matches(alloc: Global, bytes: &[u8], times: u32) -> Result<usize> {
    let (spelled, others) = read_front(alloc, bytes)?;
    let filter = Some(Filter::from_doc(alloc, &spelled)?);
    let mut len = 0;
    for _ in 0..times {
        len = matching(&filter, others)?;
    }
    Ok(len)
}
