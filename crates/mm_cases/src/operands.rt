//! The operands of a line, and documents as its answer.

use anyhow::{Result, bail, ensure};
use mm_bson::Doc;
use mm_notation::{read_doc, write_doc};
use std::alloc::{AllocError, Global};

/// How many bytes a text has at most.
const MOST: usize = 0x1000_0000;

/// A text up to its first blank, and what stands behind that.
pub fn parted(text: &str) -> (&str, &str) {
    text.split_once(' ').unwrap_or((text, ""))
}

/// The document that begins at this place of a text, and the place behind it.
pub fn doc_at(alloc: Global, text: &str, place: usize) -> Result<(Doc, usize)> {
    if text.len() > MOST || !text.is_char_boundary(place) {
        bail!("no character begins there");
    }
    Ok(read_doc(alloc, text, place)?)
}

/// The place of the operand behind one that ends here: a blank parts them.
pub fn behind_blank(text: &str, end: usize) -> usize {
    match text.as_bytes().get(end) {
        Some(b' ') => end.saturating_add(1),
        _ => end,
    }
}

/// The document that is the last operand.
pub fn last_doc(alloc: Global, text: &str, place: usize) -> Result<Doc> {
    let (doc, end) = doc_at(alloc, text, place)?;
    ensure!(behind_blank(text, end) == text.len(), "an operand too many");
    Ok(doc)
}

/// The written form of a document.
pub fn text_of(alloc: Global, doc: &Doc) -> Result<String> {
    behind(Vec::new(alloc), doc)
}

/// A text with the written form of a document behind it.
pub fn behind(front: Vec<u8>, doc: &Doc) -> Result<String> {
    let mut bytes = front;
    write_doc(doc, &mut bytes)?;
    Ok(String::from_utf8(bytes)?)
}

/// A word as an answer.
pub fn word(alloc: Global, text: &str) -> Result<String> {
    Ok(String::from_str(alloc, text)?)
}

/// Appends a number, with a blank before it if something stands there.
pub fn put_number(out: &mut String, number: usize) -> Result<(), AllocError> {
    if !out.is_empty() {
        out.push(' ')?;
    }
    write!(out, "{number}")
}
