//! Writing a finished draft: its spelling goes into one buffer, which is read
//! once.

ghost use Rattle.std.specs.Prelude.{◌≡◌, ◌<◌, ◌≤◌, ◌+◌, ◌-◌, ◌^◌, ◌++◌, ◌∷◌, [], length, take, drop, IfOk, OnOk};
ghost use Rattle.std.specs.Int.{w32, to_le_bytes};
ghost use Rattle.mm_bson.specs.Tree.{depth};
ghost use Rattle.mm_bson.specs.View.{tree};
ghost use Rattle.mm_bson.specs.Spelling.{type_byte as type_byte_of, spelling, array_spelling, value_spelling, values_spelling, element_spelling, elements_spelling, IsName, IsValue, AreElements, AreValues};
ghost use Rattle.mm_update.specs.Drafted.{node_tree, values_at, drafted, one_entry, AreNames};

use crate::draft::{Draft, Entry, Node};
use itoa::Buffer;
use mm_bson::{Doc, ObjectIdRef, Value};
use std::alloc::{AllocError, Global};

/// The bytes of a length.
const LENGTH_LEN: usize = 4;

/// The byte that stands before a value's name (BSON 1.0, element).
fn type_byte(value: &Value) -> u8
    ensures { result ≡ type_byte_of (tree value.now) }
{
    match value {
        Value::String(_) => 0x02,
        Value::Document(_) => 0x03,
        Value::Array(_) => 0x04,
        Value::Binary { .. } => 0x05,
        Value::ObjectId(_) => 0x07,
        Value::Boolean(_) => 0x08,
        Value::Date(_) => 0x09,
        Value::Null => 0x0a,
        Value::Int32(_) => 0x10,
        Value::Timestamp { .. } => 0x11,
        Value::Int64(_) => 0x12,
        Value::MaxKey => 0x7f,
        Value::MinKey => 0xff,
    }
}

/// Each value in memory has a spelling.
fn has_spelling(value: &Value)
    ensures { IsValue (tree value.now) }
{
    match value {
        Value::String(text) => {
            let _bytes = text.as_bytes();
        }
        Value::Document(document) => {
            let _elements = document.elements();
        }
        Value::Array(list) => {
            let _values = list.values();
        }
        Value::Int32(number) => {
            let _number = *number;
        }
        Value::Int64(number) => {
            let _number = *number;
        }
        Value::Date(time) => {
            let _time = *time;
        }
        Value::Binary { subtype, .. } => {
            let _subtype = *subtype;
        }
        Value::ObjectId(id) => {
            let place = ObjectIdRef::of_bytes(id);
            let _bytes = place.as_bytes();
        }
        Value::Timestamp { seconds, increment } => {
            let _seconds = *seconds;
            let _increment = *increment;
        }
        Value::Boolean(_) => {}
        Value::Null => {}
        Value::MinKey => {}
        Value::MaxKey => {}
    }
}

/// Puts bytes behind others. Where memory runs out, nothing is put.
fn put(out: &mut Vec<u8>, bytes: &[u8]) -> Result<(), AllocError>
    ensures { OnOk result (out.new.items ≡ out.old.items ++ bytes.now) }
{
    out.extend_from_slice(bytes)
}

/// How many bytes are put.
fn filled(out: &Vec<u8>) -> usize
    ensures { result ≡ length out.now.items }
{
    out.as_slice().len()
}

/// Puts the length of what begins at this place into the four bytes there.
fn seal(out: &mut Vec<u8>, start: usize)
    requires room { start + 4 ≤ length out.old.items }
    requires short { length out.old.items - start < 2 ^ 31 }
    ensures { out.new.items ≡ take start out.old.items ++ (to_le_bytes w32 (length out.old.items - start) ++ drop (start + 4) out.old.items) }
{
    let len = (filled(out) - start) as u32;
    out.as_mut_slice()[start..start + LENGTH_LEN].copy_from_slice(&len.to_le_bytes());
}

/// Puts a type byte, a name and its 00.
fn put_head(out: &mut Vec<u8>, kind: u8, name: &[u8]) -> Result<(), AllocError>
    ensures { OnOk result (out.new.items ≡ out.old.items ++ (kind ∷ (name.now ++ 0 ∷ []))) }
{
    put(out, &[kind])?;
    put(out, name)?;
    put(out, &[0])
}

/// Puts the values of an array under their names.
fn put_items(out: &mut Vec<u8>, values: &[&Value]) -> Result<(), AllocError>
    requires { length (values_spelling 0 (values_at values.now)) < 2 ^ 31 }
    ensures items { OnOk result (out.new.items ≡ out.old.items ++ values_spelling 0 (values_at values.now)) }
    ensures sound { OnOk result (AreValues (values_at values.now)) }
{
    let mut place: usize = 0;
    for next in values {
        let value = *next;
        has_spelling(value);
        let mut digits = Buffer::new();
        put_head(out, type_byte(value), digits.format(place).as_bytes())?;
        value.as_ref().put(out)?;
        place += 1;
    }
    Ok(())
}

/// Puts an array.
fn put_array(out: &mut Vec<u8>, values: &[&Value]) -> Result<(), AllocError>
    requires { length (array_spelling (values_at values.now)) < 2 ^ 31 }
    ensures items { OnOk result (out.new.items ≡ out.old.items ++ array_spelling (values_at values.now)) }
    ensures sound { OnOk result (AreValues (values_at values.now)) }
{
    let start = filled(out);
    put(out, &[0; LENGTH_LEN])?;
    put_items(out, values)?;
    put(out, &[0])?;
    seal(out, start);
    Ok(())
}

/// The byte that stands before the name of a node.
fn node_type(node: &Node<'_>) -> u8
    ensures { result ≡ type_byte_of (node_tree node.now) }
{
    match node {
        Node::Kept(value) => type_byte(value),
        Node::Int32(_) => 0x10,
        Node::Int64(_) => 0x12,
        Node::Null => 0x0a,
        Node::Document(_) => 0x03,
        Node::Array(_) => 0x04,
    }
}

#[cycle(put)]
fn put_node(out: &mut Vec<u8>, node: &Node<'_>) -> Result<(), AllocError>
    requires { length (value_spelling (node_tree node.now)) < 2 ^ 31 }
    ensures items { OnOk result (out.new.items ≡ out.old.items ++ value_spelling (node_tree node.now)) }
    ensures sound { OnOk result (IsValue (node_tree node.now)) }
{
    match node {
        Node::Kept(value) => {
            has_spelling(value);
            value.as_ref().put(out)
        }
        Node::Int32(number) => put(out, &number.to_le_bytes()),
        Node::Int64(number) => put(out, &number.to_le_bytes()),
        Node::Null => Ok(()),
        Node::Document(draft) => put_draft(out, draft),
        Node::Array(values) => put_array(out, values.as_slice()),
    }
}

/// Puts an entry, unless it was taken out.
#[cycle(put)]
fn put_entry(out: &mut Vec<u8>, entry: &Entry<'_>) -> Result<(), AllocError>
    requires name { AreNames (one_entry entry.now) }
    requires short { length (elements_spelling (one_entry entry.now)) < 2 ^ 31 }
    ensures items { OnOk result (out.new.items ≡ out.old.items ++ elements_spelling (one_entry entry.now)) }
    ensures sound { OnOk result (AreElements (one_entry entry.now)) }
{
    match &entry.node {
        Some(node) => {
            put_head(out, node_type(node), entry.name.as_bytes())?;
            put_node(out, node)
        }
        None => Ok(()),
    }
}

#[cycle(put)]
fn put_entries(out: &mut Vec<u8>, entries: &[Entry<'_>]) -> Result<(), AllocError>
    requires names { AreNames (drafted entries.now) }
    requires short { length (elements_spelling (drafted entries.now)) < 2 ^ 31 }
    ensures items { OnOk result (out.new.items ≡ out.old.items ++ elements_spelling (drafted entries.now)) }
    ensures sound { OnOk result (AreElements (drafted entries.now)) }
{
    'entries: for entry in entries {
        put_entry(out, entry)?;
    }
    Ok(())
}

/// Puts the spelling of a draft behind other bytes.
#[cycle(put)]
fn put_draft(out: &mut Vec<u8>, draft: &Draft<'_>) -> Result<(), AllocError>
    requires { length (spelling draft.now) < 2 ^ 31 }
    ensures items { OnOk result (out.new.items ≡ out.old.items ++ spelling draft.now) }
    ensures sound { OnOk result (AreElements draft.now) }
{
    let start = filled(out);
    put(out, &[0; LENGTH_LEN])?;
    put_entries(out, draft.entries())?;
    put(out, &[0])?;
    seal(out, start);
    Ok(())
}

/// The document of a draft.
pub(crate) fn write(alloc: Global, draft: &Draft<'_>) -> Result<Doc, AllocError>
    requires levels { depth draft.now < 100 }
    requires fits { length (spelling draft.now) < 2 ^ 31 }
    ensures { IfOk result (λ d. d ≡ draft.now) }
{
    let mut out = Vec::new(alloc);
    put_draft(&mut out, draft)?;
    Doc::of_spelled(out)
}
