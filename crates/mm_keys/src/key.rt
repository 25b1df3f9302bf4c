//! The key of a document.

ghost use Rattle.std.specs.Prelude.{◌≡◌, ◌↔◌, ◌+◌, ◌<◌, ◌≤◌, ◌^◌, [], ℕ, length, IsTrue, IfOk, OnOk, IsErrOf};
ghost use Rattle.mm_bson.specs.Tree.{tree_depth, no_elements, element, append};
ghost use Rattle.mm_bson.specs.View.{tree_in};
ghost use Rattle.mm_bson.specs.Spelling.{spelling, value_spelling, element_len};
ghost use Rattle.mm_keys.specs.Key.{key as key_in, keyed, IsArray, HasArray, HasKey, HasLongKey};

use crate::fault::KeyFault;
use crate::specification::KeySpec;
use mm_bson::{Doc, DocRef, Text, TextRef, Value, ValueRef};
use std::alloc::{AllocError, Global};

/// The most bytes that a key has.
pub const MAX_KEY_LEN: usize = 1024;

/// The bytes of a document without elements: its length and the final 00.
const EMPTY_LEN: usize = 5;

/// The bytes of an element without its name and value: the type and a 00.
const ELEMENT_LEN: usize = 2;

/// The value that the path gives to the key: null where it is missing.
fn keyed_at<'a>(doc: &DocRef<'a>, path: &TextRef<'_>) -> ValueRef<'a>
    ensures value { tree_in result ≡ keyed path.now doc.now }
    ensures shallow { tree_depth (tree_in result) < 100 }
    ensures short { length (value_spelling (tree_in result)) < 2 ^ 31 }
{
    doc.is_built();
    match doc.get_bytes(path.as_bytes()) {
        Some(value) => value,
        None => ValueRef::Null,
    }
}

fn is_array(value: &ValueRef<'_>) -> bool
    ensures { IsTrue result ↔ IsArray (tree_in value.now) }
{
    matches!(value, ValueRef::Array(_))
}

/// Puts a field behind those of a key, which has `len` bytes then. Past the
/// most bytes nothing more is put.
fn put(alloc: Global, key: &mut Doc, len: usize, value: &ValueRef<'_>) -> Result<(), AllocError>
    requires levels { tree_depth (tree_in value.now) < 100 }
    requires counted { len ≤ 1024 → length (spelling key.old) + element_len [] (tree_in value.now) ≡ len }
    ensures { OnOk result (len ≤ 1024 → key.new ≡ append key.old (element [] (tree_in value.now) no_elements)) }
{
    if MAX_KEY_LEN < len {
        return Ok(());
    }
    let name = Text::from_str(alloc, "")?;
    let value = Value::copy_of(alloc, value)?;
    key.push(name, value)
}

/// The key of a document: for each path the value there, or null where it is
/// missing, under the empty name. `ArrayKey` where a path leads to an array,
/// else `KeyTooLong` where the key has more than 1024 bytes.
pub fn key_of(alloc: Global, doc: &Doc, spec: &KeySpec) -> Result<Doc, KeyFault>
    ensures ok { IfOk result (λ k. k ≡ key_in doc.now spec.now) }
    ensures has { OnOk result (HasKey doc.now spec.now) }
    ensures array { IsErrOf result KeyFault.ArrayKey → HasArray doc.now spec.now }
    ensures long { (len : ℕ) → IsErrOf result (KeyFault.KeyTooLong len) → HasLongKey doc.now spec.now len }
{
    key_of_in_place(alloc, &doc.as_ref(), spec)
}

/// The key of a document in place, as `key_of` gives it. Each path is looked up
/// once, and no more than 1024 bytes are built.
pub fn key_of_in_place(alloc: Global, doc: &DocRef<'_>, spec: &KeySpec) -> Result<Doc, KeyFault>
    ensures ok { IfOk result (λ k. k ≡ key_in doc.now spec.now) }
    ensures has { OnOk result (HasKey doc.now spec.now) }
    ensures array { IsErrOf result KeyFault.ArrayKey → HasArray doc.now spec.now }
    ensures long { (len : ℕ) → IsErrOf result (KeyFault.KeyTooLong len) → HasLongKey doc.now spec.now len }
{
    let document = spec.document();
    let mut rest = document.as_ref().fields();
    let mut key = Doc::new(alloc)?;
    let mut len = EMPTY_LEN;
    'fields: while let Some(field) = rest.next() {
        let value = keyed_at(doc, &field.name);
        if is_array(&value) {
            return Err(KeyFault::ArrayKey);
        }
        len += ELEMENT_LEN + value.spelled_len();
        put(alloc, &mut key, len, &value)?;
    }
    if len > MAX_KEY_LEN {
        return Err(KeyFault::KeyTooLong { len: len as u64 });
    }
    Ok(key)
}
