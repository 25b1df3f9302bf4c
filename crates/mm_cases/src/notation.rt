//! Operations on the notation of documents.

use crate::operands::{behind, doc_at, parted};
use anyhow::Result;
use mm_bson::Doc;
use std::alloc::Global;

/// `read TEXT`: the place behind the document at the front of the text, and the document's written form.
pub fn read(alloc: Global, text: &str, place: usize) -> Result<String> {
    let (doc, end) = doc_at(alloc, text, place)?;
    read_text(alloc, end, &doc)
}

fn read_text(alloc: Global, end: usize, doc: &Doc) -> Result<String> {
    let front = format!(in alloc; "{end} ")?;
    behind(front.into_bytes(), doc)
}

/// `read_hex HEX`: the same of a text in hexadecimal digits, which may hold the end of a line.
pub fn read_hex(alloc: Global, digits: &str) -> Result<String> {
    let bytes = hex::decode(alloc, digits)?;
    let text = String::from_utf8(bytes)?;
    read(alloc, text.as_str(), 0)
}

/// `read_at PLACE TEXT`: the same of the document that begins at this place.
pub fn read_at(alloc: Global, text: &str) -> Result<String> {
    let (place, text) = parted(text);
    read(alloc, text, place.parse::<usize>()?)
}
