//! Operations on filters.

use crate::operands::{text_of, word};
use anyhow::Result;
use mm_bson::Doc;
use mm_keys::KeySpec;
use mm_query::{Bounds, Filter};
use std::alloc::Global;

/// `filter DOC`: `ok`, if the document is a filter.
pub fn filter(alloc: Global, doc: &Doc) -> Result<String> {
    let _filter = Filter::from_doc(alloc, doc)?;
    word(alloc, "ok")
}

/// `matches FILTER DOC`: whether the document matches.
pub fn matches(alloc: Global, filter: &Doc, doc: &Doc) -> Result<String> {
    let filter = Filter::from_doc(alloc, filter)?;
    truth(alloc, filter.matches(doc))
}

/// `true` or `false`.
pub fn truth(alloc: Global, holds: bool) -> Result<String> {
    word(alloc, if holds { "true" } else { "false" })
}

/// `bounds FILTER SPEC`: the least and the greatest key, each of which may be `open`.
pub fn bounds(alloc: Global, filter: &Doc, spec: &Doc) -> Result<String> {
    let filter = Filter::from_doc(alloc, filter)?;
    bounds_by(alloc, &filter, spec)
}

fn bounds_by(alloc: Global, filter: &Filter, spec: &Doc) -> Result<String> {
    let spec = KeySpec::from_doc(alloc, spec)?;
    let bounds = filter.bounds(alloc, &spec)?;
    texts_of(alloc, &bounds)
}

fn texts_of(alloc: Global, bounds: &Bounds) -> Result<String> {
    let low = bound_text(alloc, &bounds.low)?;
    let high = bound_text(alloc, &bounds.high)?;
    Ok(format!(in alloc; "{low} {high}")?)
}

fn bound_text(alloc: Global, bound: &Option<Doc>) -> Result<String> {
    match bound {
        Some(key) => text_of(alloc, key),
        None => word(alloc, "open"),
    }
}
