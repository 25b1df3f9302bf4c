//! Operations on changes that are made here, since they are too large for a line.

use crate::changes::{applied, changed};
use crate::operands::{last_doc, parted};
use anyhow::{Result, bail};
use mm_bson::Doc;
use std::alloc::{AllocError, Global};

/// `long OPERATOR STEPS DOC`: what the operator makes of a document at a path of so many steps, each of them `a`.
pub fn long_path(alloc: Global, text: &str) -> Result<String> {
    let (operator, rest) = parted(text);
    let (steps, rest) = parted(rest);
    let doc = last_doc(alloc, rest, 0)?;
    changed_at(alloc, &doc, operator, steps)
}

fn changed_at(alloc: Global, doc: &Doc, operator: &str, steps: &str) -> Result<String> {
    let text = long_change(alloc, operator, steps.parse::<usize>()?)?;
    changed_by(alloc, doc, text.as_str())
}

/// The change by one operator at a path of so many steps.
fn long_change(alloc: Global, operator: &str, steps: usize) -> Result<String, AllocError> {
    let others = ".a".repeat(alloc, steps.saturating_sub(1))?;
    format!(in alloc; "{{\"{operator}\": {{\"a{others}\": 1}}}}")
}

fn changed_by(alloc: Global, doc: &Doc, change: &str) -> Result<String> {
    let change = last_doc(alloc, change, 0)?;
    changed(alloc, doc, &change)
}

/// `wide PATHS`: how many bytes the empty document has, once so many of its fields are set: `0`, `1` and so on.
pub fn many_paths(alloc: Global, text: &str) -> Result<String> {
    let paths = text.parse::<u32>()?;
    if paths == 0 {
        bail!("no path");
    }
    let len = wide_len(alloc, paths)?;
    Ok(format!(in alloc; "{len}")?)
}

fn wide_len(alloc: Global, paths: u32) -> Result<usize> {
    let text = wide_change(alloc, paths)?;
    let change = last_doc(alloc, text.as_str(), 0)?;
    len_changed(alloc, &change)
}

/// The change that sets so many fields.
fn wide_change(alloc: Global, paths: u32) -> Result<String, AllocError> {
    let mut text = String::from_str(alloc, "{\"$set\": {\"0\": 1")?;
    put_settings(&mut text, paths)?;
    Ok(text)
}

/// Appends what sets the fields behind the first.
fn put_settings(text: &mut String, paths: u32) -> Result<(), AllocError> {
    for i in 1..paths {
        write!(text, ", \"{i}\": 1")?;
    }
    text.push_str("}}")
}

/// How many bytes the empty document has as a change leaves it.
fn len_changed(alloc: Global, change: &Doc) -> Result<usize> {
    let empty = Doc::new(alloc)?;
    let doc = applied(alloc, &empty, change)?;
    Ok(doc.bytes().len())
}
