//! The answer to a line.

use crate::changes::{change, changed};
use crate::documents::{levels, order, parsed, value_at, value_in_place};
use crate::filters::{bounds, filter, matches};
use crate::keys::{key, key_order, specification};
use crate::notation::{read, read_at, read_hex};
use crate::operands::{behind_blank, doc_at, last_doc, parted};
use crate::places::{coverage, file, union};
use crate::sizes::{long_path, many_paths};
use anyhow::{Result, bail};
use mm_bson::Doc;
use std::alloc::{AllocError, Global};

/// What one line of input is answered by.
pub fn answer(alloc: Global, line: &str) -> Result<String, AllocError> {
    if line.is_empty() || line.starts_with('#') {
        return String::from_str(alloc, line);
    }
    let (name, rest) = parted(line);
    match called(alloc, name, rest) {
        Ok(text) => Ok(text),
        Err(fault) => format!(in alloc; "{fault}"),
    }
}

/// The operations whose only operand is a document.
const ON_ONE: [&str; 6] = ["change", "filter", "hex", "levels", "order", "spec"];

/// The operations on a document and what stands behind it.
const ON_MORE: [&str; 6] = ["apply", "bounds", "get", "key", "key_order", "matches"];

/// What the operation of this name gives.
fn called(alloc: Global, name: &str, rest: &str) -> Result<String> {
    if ON_ONE.contains(&name) {
        on_one(alloc, name, rest)
    } else if ON_MORE.contains(&name) {
        on_more(alloc, name, rest)
    } else {
        on_text(alloc, name, rest)
    }
}

fn on_one(alloc: Global, name: &str, text: &str) -> Result<String> {
    let doc = last_doc(alloc, text, 0)?;
    of_one(alloc, name, &doc)
}

fn of_one(alloc: Global, name: &str, doc: &Doc) -> Result<String> {
    match name {
        "change" => change(alloc, doc),
        "filter" => filter(alloc, doc),
        "hex" => Ok(hex::encode(alloc, doc.bytes())?),
        "levels" => levels(alloc, doc),
        "order" => Ok(order(alloc, doc.elements())?),
        _ => specification(alloc, doc),
    }
}

fn on_more(alloc: Global, name: &str, text: &str) -> Result<String> {
    let (doc, end) = doc_at(alloc, text, 0)?;
    let place = behind_blank(text, end);
    if name == "get" {
        value_at(alloc, &doc, text.get(place..).unwrap_or(""))
    } else {
        on_two(alloc, name, &doc, text, place)
    }
}

/// What an operation gives on a document and on the one that begins at this place.
fn on_two(alloc: Global, name: &str, first: &Doc, text: &str, place: usize) -> Result<String> {
    let second = last_doc(alloc, text, place)?;
    of_two(alloc, name, first, &second)
}

fn of_two(alloc: Global, name: &str, first: &Doc, second: &Doc) -> Result<String> {
    match name {
        "apply" => changed(alloc, first, second),
        "bounds" => bounds(alloc, first, second),
        "key" => key(alloc, first, second),
        "key_order" => key_order(alloc, first, second),
        _ => matches(alloc, first, second),
    }
}

fn on_text(alloc: Global, name: &str, text: &str) -> Result<String> {
    match name {
        "parse" => parsed(alloc, text),
        "find" => value_in_place(alloc, text),
        "read" => read(alloc, text, 0),
        "read_at" => read_at(alloc, text),
        "read_hex" => read_hex(alloc, text),
        _ => on_numbers(alloc, name, text),
    }
}

fn on_numbers(alloc: Global, name: &str, text: &str) -> Result<String> {
    match name {
        "long" => long_path(alloc, text),
        "wide" => many_paths(alloc, text),
        "file" => file(alloc, text),
        "union" => union(alloc, text),
        "covers" => coverage(alloc, text),
        _ => bail!("no operation has this name"),
    }
}
