//! Operations on keys.

use crate::operands::{put_number, text_of};
use anyhow::Result;
use mm_bson::{Doc, Element, Value};
use mm_keys::{KeySpec, key_cmp, key_of};
use std::alloc::{AllocError, Global};
use std::cmp::Ordering;

/// `spec DOC`: the document again, if it is a specification of keys.
pub fn specification(alloc: Global, doc: &Doc) -> Result<String> {
    let spec = KeySpec::from_doc(alloc, doc)?;
    text_of(alloc, spec.document())
}

/// `key DOC SPEC`: the key of a document.
pub fn key(alloc: Global, doc: &Doc, spec: &Doc) -> Result<String> {
    let spec = KeySpec::from_doc(alloc, spec)?;
    let key = key_of(alloc, doc, &spec)?;
    text_of(alloc, &key)
}

/// `key_order SPEC DOC`: for each document inside of the second how many of them are less as keys.
pub fn key_order(alloc: Global, spec: &Doc, keys: &Doc) -> Result<String> {
    let spec = KeySpec::from_doc(alloc, spec)?;
    Ok(ranks(alloc, keys.elements(), &spec)?)
}

fn ranks(alloc: Global, keys: &[Element], spec: &KeySpec) -> Result<String, AllocError> {
    let mut out = String::new(alloc);
    for key in keys {
        put_number(&mut out, lesser(keys, &key.value, spec))?;
    }
    Ok(out)
}

/// How many keys are less than this one.
fn lesser(keys: &[Element], key: &Value, spec: &KeySpec) -> usize {
    let mut count = 0usize;
    for other in keys {
        if is_less(&other.value, key, spec) {
            count = count.saturating_add(1);
        }
    }
    count
}

fn is_less(a: &Value, b: &Value, spec: &KeySpec) -> bool {
    match (a, b) {
        (Value::Document(a), Value::Document(b)) => key_cmp(a, b, spec) == Ordering::Less,
        _ => false,
    }
}
