//! Operations on documents.

use crate::operands::{parted, put_number, text_of, word};
use anyhow::{Result, bail};
use mm_bson::{Doc, DocRef, Element, Text, Value, ValueRef, cmp};
use std::alloc::{AllocError, Global};
use std::cmp::Ordering;

/// The digits of a text, in which blanks may stand.
fn together(alloc: Global, digits: &str) -> Result<Vec<u8>, AllocError> {
    let mut together = Vec::new(alloc);
    for byte in digits.as_bytes() {
        if *byte != b' ' {
            together.push(*byte)?;
        }
    }
    Ok(together)
}

/// `parse HEX`: the document that these bytes spell. Between the digits blanks may stand.
pub fn parsed(alloc: Global, digits: &str) -> Result<String> {
    let digits = together(alloc, digits)?;
    let bytes = hex::decode(alloc, digits.as_slice())?;
    text_of_spelled(alloc, bytes.as_slice())
}

fn text_of_spelled(alloc: Global, bytes: &[u8]) -> Result<String> {
    let doc = Doc::parse(alloc, bytes)?;
    text_of(alloc, &doc)
}

/// `levels DOC`: how many levels a document has.
pub fn levels(alloc: Global, doc: &Doc) -> Result<String> {
    let levels = doc.levels();
    Ok(format!(in alloc; "{levels}")?)
}

/// `get DOC PATH`: what stands at a path, as the document of this one value under the empty name.
pub fn value_at(alloc: Global, doc: &Doc, path: &str) -> Result<String> {
    match doc.get(path) {
        Some(value) => text_of_value(alloc, value),
        None => word(alloc, "none"),
    }
}

/// `find HEX PATH`: the same in the bytes of a document, in place.
pub fn value_in_place(alloc: Global, text: &str) -> Result<String> {
    let (digits, path) = parted(text);
    let bytes = hex::decode(alloc, digits)?;
    value_in(alloc, bytes.as_slice(), path)
}

fn value_in(alloc: Global, bytes: &[u8], path: &str) -> Result<String> {
    let doc = DocRef::parse(bytes)?;
    match doc.get(path) {
        Some(value) => text_in_place(alloc, &value),
        None => word(alloc, "none"),
    }
}

fn text_in_place(alloc: Global, value: &ValueRef<'_>) -> Result<String> {
    let value = Value::copy_of(alloc, value)?;
    text_of_value(alloc, &value)
}

/// The written form of the document of one value under the empty name.
fn text_of_value(alloc: Global, value: &Value) -> Result<String> {
    let mut doc = Doc::new(alloc)?;
    text_with(alloc, &mut doc, value)
}

fn text_with(alloc: Global, doc: &mut Doc, value: &Value) -> Result<String> {
    let name = Text::from_str(alloc, "")?;
    push(doc, name, value)?;
    text_of(alloc, doc)
}

/// Appends a value, if it isn't too large.
fn push(doc: &mut Doc, name: Text, value: &Value) -> Result<()> {
    if !name.has_no_zero() || value.levels() >= 100 || !doc.fits(name.as_bytes(), value) {
        bail!("the value is too large");
    }
    let value = value.copy()?;
    Ok(doc.push(name, value)?)
}

/// `order DOC`: for each value of a document how many of its values are less.
pub fn order(alloc: Global, elements: &[Element]) -> Result<String, AllocError> {
    let mut out = String::new(alloc);
    for element in elements {
        put_number(&mut out, lesser(elements, &element.value))?;
    }
    Ok(out)
}

/// How many values are less than this one.
fn lesser(elements: &[Element], value: &Value) -> usize {
    let mut count = 0usize;
    for element in elements {
        if cmp(&element.value, value) == Ordering::Less {
            count = count.saturating_add(1);
        }
    }
    count
}
