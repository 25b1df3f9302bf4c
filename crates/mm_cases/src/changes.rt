//! Operations on changes.

use crate::operands::{text_of, word};
use anyhow::Result;
use mm_bson::Doc;
use mm_update::Change;
use std::alloc::Global;

/// `change DOC`: `ok`, if the document is a change of right form.
pub fn change(alloc: Global, doc: &Doc) -> Result<String> {
    let _change = Change::from_doc(alloc, doc)?;
    word(alloc, "ok")
}

/// The document as a change leaves it.
pub fn applied(alloc: Global, doc: &Doc, change: &Doc) -> Result<Doc> {
    let change = Change::from_doc(alloc, change)?;
    Ok(change.apply(doc)?)
}

/// `apply DOC CHANGE`: the changed document.
pub fn changed(alloc: Global, doc: &Doc, change: &Doc) -> Result<String> {
    let doc = applied(alloc, doc, change)?;
    text_of(alloc, &doc)
}
