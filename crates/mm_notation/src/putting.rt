//! Putting what is read behind the bytes of a buffer, as BSON spells it.

ghost use Rattle.std.specs.Prelude.{◌≡◌, ◌<◌, ◌≤◌, ◌+◌, ◌-◌, ◌^◌, ◌++◌, ◌∷◌, [], ℕ, List, length, take, drop, IfOk, OnOk};
ghost use Rattle.std.specs.Int.{w32, to_le_bytes};
ghost use Rattle.mm_bson.specs.View.{tree};
ghost use Rattle.mm_bson.specs.Spelling.{type_byte as type_byte_of, value_spelling, element_spelling, framed, IsValue};

use crate::fault::NoMemory;
use crate::writing::put;
use mm_bson::{ObjectIdRef, Value};
use std::alloc::AllocError;

/// The bytes of a length.
const LENGTH_LEN: usize = 4;

/// A value, a document and an array have fewer bytes, so that the length fits
/// its i32. Each byte of a text makes at most eight of a document, so that one
/// of 2^28 bytes at most always fits.
const LENGTH_LIMIT: usize = 0x8000_0000;

/// The byte that stands before a value's name (BSON 1.0, element).
fn type_byte(value: &Value) -> u8
    ensures { result ≡ type_byte_of (tree value.now) }
{
    match value {
        Value::String(_) => 0x02,
        Value::Document(_) => 0x03,
        Value::Array(_) => 0x04,
        Value::Binary { .. } => 0x05,
        Value::ObjectId(_) => 0x07,
        Value::Boolean(_) => 0x08,
        Value::Date(_) => 0x09,
        Value::Null => 0x0a,
        Value::Int32(_) => 0x10,
        Value::Timestamp { .. } => 0x11,
        Value::Int64(_) => 0x12,
        Value::MaxKey => 0x7f,
        Value::MinKey => 0xff,
    }
}

/// Each value in memory has a spelling.
fn has_spelling(value: &Value)
    ensures { IsValue (tree value.now) }
{
    match value {
        Value::String(text) => {
            let _bytes = text.as_bytes();
        }
        Value::Document(document) => {
            let _elements = document.elements();
        }
        Value::Array(list) => {
            let _values = list.values();
        }
        Value::Int32(number) => {
            let _number = *number;
        }
        Value::Int64(number) => {
            let _number = *number;
        }
        Value::Date(time) => {
            let _time = *time;
        }
        Value::Binary { subtype, .. } => {
            let _subtype = *subtype;
        }
        Value::ObjectId(id) => {
            let place = ObjectIdRef::of_bytes(id);
            let _bytes = place.as_bytes();
        }
        Value::Timestamp { seconds, increment } => {
            let _seconds = *seconds;
            let _increment = *increment;
        }
        Value::Boolean(_) => {}
        Value::Null => {}
        Value::MinKey => {}
        Value::MaxKey => {}
    }
}

/// Puts a type byte, a name and its 00.
pub(crate) fn put_head(out: &mut Vec<u8>, kind: u8, name: &[u8]) -> Result<(), AllocError>
    ensures { OnOk result (out.new.items ≡ out.old.items ++ (kind ∷ (name.now ++ 0 ∷ []))) }
{
    put(out, &[kind])?;
    put(out, name)?;
    put(out, &[0])
}

/// Puts a name and its value, unless the value is too long.
pub(crate) fn put_element(out: &mut Vec<u8>, name: &[u8], value: &Value) -> Result<(), NoMemory>
    ensures items { OnOk result (out.new.items ≡ out.old.items ++ element_spelling name.now (tree value.now)) }
    ensures value { OnOk result (IsValue (tree value.now)) }
    ensures fits { OnOk result (length (value_spelling (tree value.now)) < 2 ^ 31) }
{
    if LENGTH_LIMIT <= value.spelled_len() {
        return Err(NoMemory);
    }
    has_spelling(value);
    put_head(out, type_byte(value), name)?;
    Ok(value.as_ref().put(out)?)
}

/// How many bytes are put.
fn filled(out: &Vec<u8>) -> usize
    ensures { result ≡ length out.now.items }
{
    out.as_slice().len()
}

/// Leaves room for the length of a document, which begins at the place that is
/// returned.
pub(crate) fn begin(out: &mut Vec<u8>) -> Result<usize, AllocError>
    ensures start { IfOk result (λ start. start ≡ length out.old.items) }
    ensures room { OnOk result (out.new.items ≡ out.old.items ++ (0 ∷ 0 ∷ 0 ∷ 0 ∷ [])) }
{
    let start = filled(out);
    put(out, &[0; LENGTH_LEN])?;
    Ok(start)
}

/// Puts the length of what begins at this place into the four bytes there.
fn seal(out: &mut Vec<u8>, start: usize)
    requires room { start + 4 ≤ length out.old.items }
    requires short { length out.old.items - start < 2 ^ 31 }
    ensures { out.new.items ≡ take start out.old.items ++ (to_le_bytes w32 (length out.old.items - start) ++ drop (start + 4) out.old.items) }
{
    let len = (filled(out) - start) as u32;
    out.as_mut_slice()[start..start + LENGTH_LEN].copy_from_slice(&len.to_le_bytes());
}

/// Ends the document that begins at this place, and puts its length, unless it
/// is too long.
pub(crate) fn finish(out: &mut Vec<u8>, start: usize) -> Result<(), NoMemory>
    requires { start + 4 ≤ length out.old.items }
    ensures frame { OnOk result ((old inner : List ℕ) → start ≡ length old → out.old.items ≡ (old ++ (0 ∷ 0 ∷ 0 ∷ 0 ∷ [])) ++ inner → out.new.items ≡ old ++ framed inner) }
    ensures fits { OnOk result (length out.new.items < start + 2 ^ 31) }
{
    put(out, &[0])?;
    if LENGTH_LIMIT <= filled(out) - start {
        return Err(NoMemory);
    }
    seal(out, start);
    Ok(())
}
