//! Spelling one more element behind those of a document, in place.

ghost use Rattle.std.specs.Prelude.{◌≡◌, ◌<◌, ◌≤◌, ◌+◌, ◌^◌, [], ◌∷◌, ◌++◌, List, ℕ, length, drop, slice_set, vec_len, vec_capacity, OnOk, OnErr};
ghost use Rattle.std.specs.Int.{w32, to_le_bytes};
ghost use Rattle.mm_bson.specs.Spelling.{type_byte, value_spelling, text_spelling, framed, element_spelling, element_len, IsValue};
ghost use Rattle.mm_bson.specs.View.{tree_in};

use crate::doc::Value;
use crate::place::ValueRef;
use std::alloc::AllocError;

/// The bytes of a length.
const LENGTH_LEN: usize = 4;

/// Puts bytes behind others, in room that is there.
fn put(out: &mut Vec<u8>, bytes: &[u8])
    requires { vec_len out.old + length bytes.now ≤ vec_capacity out.old }
    ensures items { out.new.items ≡ out.old.items ++ bytes.now }
    ensures len { vec_len out.new ≡ vec_len out.old + length bytes.now }
    ensures capacity { vec_capacity out.old ≤ vec_capacity out.new }
{
    out.extend_from_slice(bytes).unwrap();
}

impl<'a> ValueRef<'a> {
    fn type_byte(&self) -> u8
        ensures { result ≡ type_byte (tree_in self.now) }
    {
        match self {
            ValueRef::String(_) => 0x02,
            ValueRef::Document(_) => 0x03,
            ValueRef::Array(_) => 0x04,
            ValueRef::Binary { .. } => 0x05,
            ValueRef::ObjectId(_) => 0x07,
            ValueRef::Boolean(_) => 0x08,
            ValueRef::Date(_) => 0x09,
            ValueRef::Null => 0x0a,
            ValueRef::Int32(_) => 0x10,
            ValueRef::Timestamp { .. } => 0x11,
            ValueRef::Int64(_) => 0x12,
            ValueRef::MaxKey => 0x7f,
            ValueRef::MinKey => 0xff,
        }
    }

    /// How many bytes spell the value, without a type byte and a name.
    #[tactic(auto, unfolding(crate::specs::Spelling::text_spelling, crate::specs::Spelling::spelling, crate::specs::Spelling::array_spelling))]
    pub fn spelled_len(&self) -> usize
        ensures { result ≡ length (value_spelling (tree_in self.now)) }
    {
        match self {
            ValueRef::String(text) => 4 + text.as_bytes().len() + 1,
            ValueRef::Document(document) => document.bytes().len(),
            ValueRef::Array(list) => list.bytes().len(),
            ValueRef::Binary { bytes, .. } => 4 + 1 + bytes.len(),
            ValueRef::ObjectId(id) => id.as_bytes().len(),
            ValueRef::Boolean(_) => 1,
            ValueRef::Int32(_) => 4,
            ValueRef::Int64(_) | ValueRef::Date(_) | ValueRef::Timestamp { .. } => 8,
            ValueRef::Null | ValueRef::MinKey | ValueRef::MaxKey => 0,
        }
    }
}

impl Value {
    ghost use Rattle.std.specs.Prelude.{◌≡◌, length};
    ghost use Rattle.mm_bson.specs.Spelling.{value_spelling};
    ghost use Rattle.mm_bson.specs.View.{tree};

    /// How many bytes spell the value, without a type byte and a name.
    pub fn spelled_len(&self) -> usize
        ensures { result ≡ length (value_spelling (tree self.now)) }
    {
        self.as_ref().spelled_len()
    }
}

#[tactic(auto, unfolding(crate::specs::Spelling::text_spelling))]
fn put_text(out: &mut Vec<u8>, text: &[u8])
    requires room { vec_len out.old + length (text_spelling text.now) ≤ vec_capacity out.old }
    requires short { length (text_spelling text.now) < 2 ^ 31 }
    ensures items { out.new.items ≡ out.old.items ++ text_spelling text.now }
    ensures len { vec_len out.new ≡ vec_len out.old + length (text_spelling text.now) }
    ensures capacity { vec_capacity out.old ≤ vec_capacity out.new }
{
    let len = text.len() as u32 + 1;
    put(out, &len.to_le_bytes());
    put(out, text);
    put(out, &[0]);
}

fn put_binary(out: &mut Vec<u8>, subtype: u8, bytes: &[u8])
    requires room { vec_len out.old + (5 + length bytes.now) ≤ vec_capacity out.old }
    requires short { 5 + length bytes.now < 2 ^ 31 }
    ensures items { out.new.items ≡ out.old.items ++ (to_le_bytes w32 (length bytes.now) ++ (subtype ∷ bytes.now)) }
    ensures len { vec_len out.new ≡ vec_len out.old + (5 + length bytes.now) }
    ensures capacity { vec_capacity out.old ≤ vec_capacity out.new }
{
    let len = bytes.len() as u32;
    put(out, &len.to_le_bytes());
    put(out, &[subtype]);
    put(out, bytes);
}

/// Puts the spelling of a value behind other bytes.
#[tactic(auto, unfolding(crate::specs::Spelling::spelling, crate::specs::Spelling::array_spelling))]
fn put_value(out: &mut Vec<u8>, value: &ValueRef<'_>)
    requires room { vec_len out.old + length (value_spelling (tree_in value.now)) ≤ vec_capacity out.old }
    requires short { length (value_spelling (tree_in value.now)) < 2 ^ 31 }
    ensures items { out.new.items ≡ out.old.items ++ value_spelling (tree_in value.now) }
    ensures len { vec_len out.new ≡ vec_len out.old + length (value_spelling (tree_in value.now)) }
    ensures sound { IsValue (tree_in value.now) }
    ensures capacity { vec_capacity out.old ≤ vec_capacity out.new }
{
    match value {
        ValueRef::Int32(number) => put(out, &number.to_le_bytes()),
        ValueRef::Int64(number) => put(out, &number.to_le_bytes()),
        ValueRef::Date(number) => put(out, &number.to_le_bytes()),
        ValueRef::Timestamp { seconds, increment } => {
            put(out, &increment.to_le_bytes());
            put(out, &seconds.to_le_bytes());
        }
        ValueRef::String(text) => put_text(out, text.as_bytes()),
        ValueRef::Document(document) => put(out, document.bytes()),
        ValueRef::Array(list) => put(out, list.bytes()),
        ValueRef::Binary { subtype, bytes } => put_binary(out, *subtype, bytes),
        ValueRef::ObjectId(id) => put(out, id.as_bytes()),
        ValueRef::Boolean(set) => put(out, &[if *set { 1 } else { 0 }]),
        ValueRef::Null | ValueRef::MinKey | ValueRef::MaxKey => {}
    }
}

/// Ends a document's bytes anew: the byte that was its last becomes a type
/// byte, and the length counts all.
fn seal(bytes: &mut [u8], at: usize, kind: u8)
    requires behind { 4 ≤ at }
    requires inside { at < length bytes.old }
    requires short { length bytes.old < 2 ^ 32 }
    ensures { bytes.new ≡ to_le_bytes w32 (length bytes.old) ++ drop 4 (slice_set bytes.old at kind) }
{
    bytes[at] = kind;
    let len = bytes.len() as u32;
    bytes[..LENGTH_LEN].copy_from_slice(&len.to_le_bytes());
}

/// Puts an element behind those that the bytes of a document spell.
pub(crate) fn put_element(bytes: &mut Vec<u8>, name: &[u8], value: &ValueRef<'_>)
    requires ended { 5 ≤ vec_len bytes.old }
    requires room { vec_len bytes.old + element_len name.now (tree_in value.now) ≤ vec_capacity bytes.old }
    requires short { vec_len bytes.old + element_len name.now (tree_in value.now) < 2 ^ 31 }
    ensures spelled { (inner : List ℕ) → bytes.old.items ≡ framed inner → bytes.new.items ≡ framed (inner ++ element_spelling name.now (tree_in value.now)) }
    ensures sound { IsValue (tree_in value.now) }
    ensures len { vec_len bytes.new ≡ vec_len bytes.old + element_len name.now (tree_in value.now) }
{
    let last = bytes.len() - 1;
    put(bytes, name);
    put(bytes, &[0]);
    put_value(bytes, value);
    put(bytes, &[0]);
    seal(bytes.as_mut_slice(), last, value.type_byte());
}

/// The same in room that is made. Where memory runs out, nothing is put.
pub(crate) fn put_more(
    bytes: &mut Vec<u8>,
    name: &[u8],
    value: &ValueRef<'_>,
) -> Result<(), AllocError>
    requires ended { 5 ≤ vec_len bytes.old }
    requires short { vec_len bytes.old + element_len name.now (tree_in value.now) < 2 ^ 31 }
    ensures spelled { OnOk result ((inner : List ℕ) → bytes.old.items ≡ framed inner → bytes.new.items ≡ framed (inner ++ element_spelling name.now (tree_in value.now))) }
    ensures sound { OnOk result (IsValue (tree_in value.now)) }
    ensures len { OnOk result (vec_len bytes.new ≡ vec_len bytes.old + element_len name.now (tree_in value.now)) }
    ensures err { OnErr result (bytes.new.items ≡ bytes.old.items) }
{
    let more = name.len() + 2 + value.spelled_len();
    bytes.reserve(more)?;
    put_element(bytes, name, value);
    Ok(())
}

impl<'a> ValueRef<'a> {
    ghost use Rattle.std.specs.Prelude.{◌≡◌, ◌++◌, ◌<◌, ◌^◌, length, OnOk, OnErr};
    ghost use Rattle.mm_bson.specs.Spelling.{value_spelling};
    ghost use Rattle.mm_bson.specs.View.{tree_in};

    /// Puts the spelling of the value behind other bytes. Where memory runs
    /// out, nothing is put.
    pub fn put(&self, out: &mut Vec<u8>) -> Result<(), AllocError>
        requires { length (value_spelling (tree_in self.now)) < 2 ^ 31 }
        ensures ok { OnOk result (out.new.items ≡ out.old.items ++ value_spelling (tree_in self.now)) }
        ensures err { OnErr result (out.new.items ≡ out.old.items) }
    {
        out.reserve(self.spelled_len())?;
        put_value(out, self);
        Ok(())
    }
}
