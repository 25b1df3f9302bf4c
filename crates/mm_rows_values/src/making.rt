//! Putting elements and values behind others.

use mm_bson::{Blob, Doc, Text, Value, ValueList};
use std::alloc::{AllocError, Global};

/// Puts an element behind the others of a document, if it fits.
pub fn put(alloc: Global, doc: &mut Doc, name: &str, value: Value) -> Result<(), AllocError> {
    let name = Text::from_str(alloc, name)?;
    let is_right = name.has_no_zero() && value.levels() < 100;
    if is_right && doc.fits(name.as_bytes(), &value) {
        doc.push(name, value)?;
    }
    Ok(())
}

/// The document of one element, if it fits, or an empty one.
pub fn one(alloc: Global, name: &str, value: Value) -> Result<Doc, AllocError> {
    let mut doc = Doc::new(alloc)?;
    put(alloc, &mut doc, name, value)?;
    Ok(doc)
}

/// The array of one value, if it fits, or an empty one.
pub fn list_of(alloc: Global, value: Value) -> Result<ValueList, AllocError> {
    let mut list = ValueList::new(alloc)?;
    if value.levels() < 100 && list.fits(&value) {
        list.push(value)?;
    }
    Ok(list)
}

/// A binary of so many zeros.
pub fn zeros(alloc: Global, count: usize) -> Result<Value, AllocError> {
    let bytes = vec![in alloc; 0; count]?;
    Ok(Value::Binary {
        subtype: 0,
        bytes: Blob::from_slice(alloc, bytes.as_slice())?,
    })
}
