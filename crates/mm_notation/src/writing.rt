//! Writing documents.

ghost use Rattle.std.specs.Prelude.{◌≡◌, ◌<◌, ◌++◌, [], ◌∷◌, ℕ, ℤ, List, length, flat_map, codes, decimal, OnOk, OnErr};
ghost use Rattle.std.specs.Fmt.{signed_decimal};
ghost use Rattle.hex.specs.Hex.{encode_lower};
ghost use Rattle.mm_bson.specs.View.{tree, elements_of, values_of};
ghost use Rattle.mm_bson.specs.Tree.{int64, timestamp, object_id, binary};
ghost use Rattle.mm_notation.specs.Written.{written, written_value, written_array, written_string, written_hex, written_byte, more_members, more_values, is_small, Grows};

use crate::fault::NoMemory;
use itoa::Buffer;
use mm_bson::{Doc, Element, Value, ValueList};
use std::alloc::AllocError;

/// Puts bytes behind others, or leaves those as they were.
pub(crate) fn put(out: &mut Vec<u8>, bytes: &[u8]) -> Result<(), AllocError>
    ensures ok { OnOk result (out.new.items ≡ out.old.items ++ bytes.now) }
    ensures err { OnErr result (out.new.items ≡ out.old.items) }
{
    out.extend_from_slice(bytes)
}

/// Puts a byte of a string.
fn put_byte(out: &mut Vec<u8>, byte: u8) -> Result<(), AllocError>
    ensures ok { OnOk result (out.new.items ≡ out.old.items ++ written_byte byte) }
    ensures err { OnErr result (Grows out.old.items out.new.items) }
{
    if byte == b'"' || byte == b'\\' {
        return put(out, &[b'\\', byte]);
    }
    if byte < 0x20 {
        let mut digits = [0, 0];
        hex::encode_to_slice([byte].as_slice(), &mut digits).unwrap();
        put(out, b"\\u00")?;
        return put(out, &digits);
    }
    put(out, &[byte])
}

fn put_inside(out: &mut Vec<u8>, text: &[u8]) -> Result<(), AllocError>
    ensures ok { OnOk result (out.new.items ≡ out.old.items ++ flat_map written_byte text.now) }
    ensures err { OnErr result (Grows out.old.items out.new.items) }
{
    'bytes: for byte in text {
        put_byte(out, *byte)?;
    }
    Ok(())
}

fn put_string(out: &mut Vec<u8>, text: &[u8]) -> Result<(), AllocError>
    ensures ok { OnOk result (out.new.items ≡ out.old.items ++ written_string text.now) }
    ensures err { OnErr result (Grows out.old.items out.new.items) }
{
    put(out, b"\"")?;
    put_inside(out, text)?;
    put(out, b"\"")
}

fn put_hex(out: &mut Vec<u8>, bytes: &[u8]) -> Result<(), AllocError>
    ensures ok { OnOk result (out.new.items ≡ out.old.items ++ written_hex bytes.now) }
    ensures err { OnErr result (Grows out.old.items out.new.items) }
{
    let digits = hex::encode(*out.allocator(), bytes)?;
    put(out, b"\"")?;
    put(out, digits.as_str().as_bytes())?;
    put(out, b"\"")
}

fn put_int(out: &mut Vec<u8>, number: i64) -> Result<(), AllocError>
    ensures ok { OnOk result (out.new.items ≡ out.old.items ++ signed_decimal number) }
    ensures err { OnErr result (out.new.items ≡ out.old.items) }
{
    let mut digits = Buffer::new();
    put(out, digits.format(number).as_bytes())
}

fn put_unsigned(out: &mut Vec<u8>, number: u32) -> Result<(), AllocError>
    ensures ok { OnOk result (out.new.items ≡ out.old.items ++ decimal number) }
    ensures err { OnErr result (out.new.items ≡ out.old.items) }
{
    let mut digits = Buffer::new();
    put(out, digits.format(number).as_bytes())
}

pub(crate) fn is_small(number: i64) -> bool
    ensures { result ≡ is_small number }
{
    i64::from(i32::MIN) <= number && number <= i64::from(i32::MAX)
}

/// Puts a word with an integer in parentheses.
fn put_call(out: &mut Vec<u8>, word: &[u8], number: i64) -> Result<(), AllocError>
    ensures ok { OnOk result (out.new.items ≡ out.old.items ++ (word.now ++ (signed_decimal number ++ codes ")"))) }
    ensures err { OnErr result (Grows out.old.items out.new.items) }
{
    put(out, word)?;
    put_int(out, number)?;
    put(out, b")")
}

fn put_int64(out: &mut Vec<u8>, number: i64) -> Result<(), AllocError>
    ensures ok { OnOk result (out.new.items ≡ out.old.items ++ written_value (int64 number)) }
    ensures err { OnErr result (Grows out.old.items out.new.items) }
{
    if is_small(number) {
        put_call(out, b"NumberLong(", number)
    } else {
        put_int(out, number)
    }
}

fn put_timestamp(out: &mut Vec<u8>, seconds: u32, increment: u32) -> Result<(), AllocError>
    ensures ok { OnOk result (out.new.items ≡ out.old.items ++ written_value (timestamp seconds increment)) }
    ensures err { OnErr result (Grows out.old.items out.new.items) }
{
    put(out, b"Timestamp(")?;
    put_unsigned(out, seconds)?;
    put(out, b", ")?;
    put_unsigned(out, increment)?;
    put(out, b")")
}

fn put_object_id(out: &mut Vec<u8>, id: &[u8]) -> Result<(), AllocError>
    ensures ok { OnOk result (out.new.items ≡ out.old.items ++ written_value (object_id id.now)) }
    ensures err { OnErr result (Grows out.old.items out.new.items) }
{
    put(out, b"ObjectId(")?;
    put_hex(out, id)?;
    put(out, b")")
}

fn put_binary(out: &mut Vec<u8>, subtype: u8, bytes: &[u8]) -> Result<(), AllocError>
    ensures ok { OnOk result (out.new.items ≡ out.old.items ++ written_value (binary subtype bytes.now)) }
    ensures err { OnErr result (Grows out.old.items out.new.items) }
{
    put(out, b"HexData(")?;
    put_unsigned(out, u32::from(subtype))?;
    put(out, b", ")?;
    put_hex(out, bytes)?;
    put(out, b")")
}

#[cycle(write)]
fn put_value(out: &mut Vec<u8>, value: &Value) -> Result<(), AllocError>
    ensures ok { OnOk result (out.new.items ≡ out.old.items ++ written_value (tree value.now)) }
    ensures err { OnErr result (Grows out.old.items out.new.items) }
{
    match value {
        Value::MinKey => put(out, b"MinKey"),
        Value::MaxKey => put(out, b"MaxKey"),
        Value::Null => put(out, b"null"),
        Value::Boolean(true) => put(out, b"true"),
        Value::Boolean(false) => put(out, b"false"),
        Value::Int32(number) => put_int(out, i64::from(*number)),
        Value::Int64(number) => put_int64(out, *number),
        Value::Date(time) => put_call(out, b"Date(", *time),
        Value::Timestamp { seconds, increment } => put_timestamp(out, *seconds, *increment),
        Value::ObjectId(id) => put_object_id(out, id),
        Value::Binary { subtype, bytes } => put_binary(out, *subtype, bytes.as_bytes()),
        Value::String(text) => put_string(out, text.as_bytes()),
        Value::Array(list) => put_array(out, list),
        Value::Document(document) => put_document(out, document),
    }
}

#[cycle(write)]
fn put_array(out: &mut Vec<u8>, list: &ValueList) -> Result<(), AllocError>
    ensures ok { OnOk result (out.new.items ≡ out.old.items ++ written_array list.now) }
    ensures err { OnErr result (Grows out.old.items out.new.items) }
{
    match list.values() {
        [] => put(out, b"[]"),
        [first, others @ ..] => {
            put(out, b"[")?;
            put_value(out, first)?;
            put_more_values(out, others)
        }
    }
}

#[cycle(write)]
fn put_more_values(out: &mut Vec<u8>, values: &[Value]) -> Result<(), AllocError>
    ensures ok { OnOk result (out.new.items ≡ out.old.items ++ more_values (values_of values.now)) }
    ensures err { OnErr result (Grows out.old.items out.new.items) }
{
    'values: for value in values {
        put(out, b", ")?;
        put_value(out, value)?;
    }
    put(out, b"]")
}

#[cycle(write)]
fn put_member(out: &mut Vec<u8>, member: &Element) -> Result<(), AllocError>
    ensures ok { OnOk result (out.new.items ≡ out.old.items ++ (written_string member.now.name ++ (codes ": " ++ written_value (tree member.now.value)))) }
    ensures err { OnErr result (Grows out.old.items out.new.items) }
{
    put_string(out, member.name.as_bytes())?;
    put(out, b": ")?;
    put_value(out, &member.value)
}

#[cycle(write)]
fn put_document(out: &mut Vec<u8>, document: &Doc) -> Result<(), AllocError>
    ensures ok { OnOk result (out.new.items ≡ out.old.items ++ written document.now) }
    ensures err { OnErr result (Grows out.old.items out.new.items) }
{
    match document.elements() {
        [] => put(out, b"{}"),
        [first, others @ ..] => {
            put(out, b"{")?;
            put_member(out, first)?;
            put_more_members(out, others)
        }
    }
}

#[cycle(write)]
fn put_more_members(out: &mut Vec<u8>, members: &[Element]) -> Result<(), AllocError>
    ensures ok { OnOk result (out.new.items ≡ out.old.items ++ more_members (elements_of members.now)) }
    ensures err { OnErr result (Grows out.old.items out.new.items) }
{
    'members: for member in members {
        put(out, b", ")?;
        put_member(out, member)?;
    }
    put(out, b"}")
}

/// Puts the written form of a document behind other bytes. `out` is as before
/// where memory runs out.
pub fn write_doc(doc: &Doc, out: &mut Vec<u8>) -> Result<(), NoMemory>
    ensures ok { OnOk result (out.new.items ≡ out.old.items ++ written doc.now) }
    ensures err { OnErr result (out.new.items ≡ out.old.items) }
{
    let len = out.len();
    match put_document(out, doc) {
        Ok(()) => Ok(()),
        Err(_) => {
            out.truncate(len);
            Err(NoMemory)
        }
    }
}
