//! Reading values other than objects and arrays.

ghost use Rattle.std.specs.Prelude.{◌≡◌, ◌<◌, ◌≤◌, ◌+◌, length, take, drop, IfOk, Ok};
ghost use Rattle.mm_bson.specs.Tree.{tree_depth, boolean as boolean_of};
ghost use Rattle.mm_bson.specs.View.{tree};
ghost use Rattle.mm_notation.specs.Reading.{Gives, key_at, number as number_of, opening_at, call_at, timestamp_at, pairs_at, object_id_at, hex_data_at, kind_at, constant_at};
ghost use Rattle.mm_notation.specs.Putting.{leaf_at};

use crate::bytes::{after_byte, after_mark, after_word, skip};
use crate::kind::{Kind, from_byte};
use crate::numbers::{hex_pair, integer, unsigned};
use crate::stop::Stop;
use crate::strings::{hex, string};
use crate::writing::is_small;
use mm_bson::{Blob, Value};
use std::alloc::Global;

/// The kind of the value that begins here.
pub(crate) fn kind(text: &[u8]) -> Result<Kind, Stop<'_>>
    ensures { Gives (λ k. k) result (kind_at text.now) }
{
    let [first, _others @ ..] = text else {
        return Err(Stop::At(text));
    };
    match from_byte(*first) {
        None => Err(Stop::At(text)),
        Some(kind) => Ok(kind),
    }
}

/// `MinKey` or `MaxKey`, of which `M` is read.
#[tactic(auto, unfolding(crate::specs::Reading::key_at))]
fn key(text: &[u8]) -> Result<(Value, &[u8]), Stop<'_>>
    ensures gives { Gives (λ x. (tree x.0, x.1.now)) result (key_at text.now) }
    ensures flat { IfOk result (λ x. tree_depth (tree x.0) ≡ 0) }
    ensures left { IfOk result (λ x. length x.1.now ≤ length text.now) }
{
    match text {
        [b'a', _others @ ..] => {
            let rest = after_word(b"axKey", text)?;
            Ok((Value::MaxKey, rest))
        }
        [] => Err(Stop::At(text)),
        [_first, _others @ ..] => {
            let rest = after_word(b"inKey", text)?;
            Ok((Value::MinKey, rest))
        }
    }
}

/// An int32 where the number is in its range.
fn number(number: i64) -> Value
    ensures value { tree result ≡ number_of number }
    ensures flat { tree_depth (tree result) ≡ 0 }
{
    if is_small(number) {
        Value::Int32(number as i32)
    } else {
        Value::Int64(number)
    }
}

/// The text behind a word, `(` and spaces.
#[tactic(auto, unfolding(crate::specs::Reading::opening_at))]
fn after_opening<'a>(word: &[u8], text: &'a [u8]) -> Result<&'a [u8], Stop<'a>>
    ensures gives { Gives (λ r. (tt, r.now)) result (opening_at word.now text.now) }
    ensures left { IfOk result (λ r. length r.now < length text.now) }
{
    let rest = after_word(word, text)?;
    let rest = after_mark(b'(', rest)?;
    Ok(skip(rest))
}

/// A word with an integer in parentheses.
#[tactic(auto, unfolding(crate::specs::Reading::call_at))]
fn call<'a>(word: &[u8], text: &'a [u8]) -> Result<(i64, &'a [u8]), Stop<'a>>
    ensures gives { Gives (λ x. (x.0, x.1.now)) result (call_at word.now text.now) }
    ensures left { IfOk result (λ x. length x.1.now < length text.now) }
{
    let rest = after_opening(word, text)?;
    let (number, rest) = integer(rest)?;
    let rest = after_mark(b')', rest)?;
    Ok((number, rest))
}

#[tactic(auto, unfolding(crate::specs::Reading::timestamp_at))]
fn timestamp(text: &[u8]) -> Result<(Value, &[u8]), Stop<'_>>
    ensures gives { Gives (λ x. (tree x.0, x.1.now)) result (timestamp_at text.now) }
    ensures flat { IfOk result (λ x. tree_depth (tree x.0) ≡ 0) }
    ensures left { IfOk result (λ x. length x.1.now < length text.now) }
{
    let rest = after_opening(b"Timestamp", text)?;
    let (seconds, rest) = unsigned(0xffff_ffff, rest)?;
    let rest = after_mark(b',', rest)?;
    let (increment, rest) = unsigned(0xffff_ffff, skip(rest))?;
    let rest = after_mark(b')', rest)?;
    let value = Value::Timestamp {
        seconds: seconds as u32,
        increment: increment as u32,
    };
    Ok((value, rest))
}

/// Twelve bytes in hex digits.
fn twelve(text: &[u8]) -> Result<([u8; 12], &[u8]), Stop<'_>>
    ensures gives { Gives (λ x. (x.0, x.1.now)) result (pairs_at 12 text.now) }
    ensures left { IfOk result (λ x. length x.1.now ≤ length text.now) }
{
    let mut found = [0; 12];
    let mut rest = text;
    for i in 0..12 {
        let (byte, after) = hex_pair(rest)?;
        found[i] = byte;
        rest = after;
    }
    Ok((found, rest))
}

#[tactic(auto, unfolding(crate::specs::Reading::object_id_at))]
fn object_id(text: &[u8]) -> Result<(Value, &[u8]), Stop<'_>>
    ensures gives { Gives (λ x. (tree x.0, x.1.now)) result (object_id_at text.now) }
    ensures flat { IfOk result (λ x. tree_depth (tree x.0) ≡ 0) }
    ensures left { IfOk result (λ x. length x.1.now < length text.now) }
{
    let rest = after_opening(b"ObjectId", text)?;
    let rest = after_byte(b'"', rest)?;
    let (id, rest) = twelve(rest)?;
    let rest = after_byte(b'"', rest)?;
    let rest = after_mark(b')', rest)?;
    Ok((Value::ObjectId(id), rest))
}

#[tactic(auto, unfolding(crate::specs::Reading::hex_data_at))]
fn hex_data(alloc: Global, text: &[u8]) -> Result<(Value, &[u8]), Stop<'_>>
    ensures gives { Gives (λ x. (tree x.0, x.1.now)) result (hex_data_at text.now) }
    ensures flat { IfOk result (λ x. tree_depth (tree x.0) ≡ 0) }
    ensures left { IfOk result (λ x. length x.1.now < length text.now) }
{
    let rest = after_opening(b"HexData", text)?;
    let (subtype, rest) = unsigned(255, rest)?;
    let rest = after_mark(b',', rest)?;
    let (bytes, rest) = hex(alloc, skip(rest))?;
    let rest = after_mark(b')', rest)?;
    let value = Value::Binary {
        subtype: subtype as u8,
        bytes: Blob::from_slice(alloc, bytes.as_slice())?,
    };
    Ok((value, rest))
}

/// A word that stands for a boolean.
fn boolean<'a>(found: bool, word: &[u8], text: &'a [u8]) -> Result<(Value, &'a [u8]), Stop<'a>>
    requires { 0 < length word.now }
    ensures gives { Gives (λ x. (tree x.0, x.1.now)) result (constant_at word.now (boolean_of found) text.now) }
    ensures flat { IfOk result (λ x. tree_depth (tree x.0) ≡ 0) }
    ensures left { IfOk result (λ x. length x.1.now < length text.now) }
{
    let rest = after_word(word, text)?;
    Ok((Value::Boolean(found), rest))
}

/// A value of a kind that holds no other. No object and no array is read.
pub(crate) fn leaf(alloc: Global, kind: Kind, text: &[u8]) -> Result<(Value, &[u8]), Stop<'_>>
    ensures gives { Gives (λ x. (tree x.0, x.1.now)) result (leaf_at kind text.now) }
    ensures flat { IfOk result (λ x. tree_depth (tree x.0) ≡ 0) }
    ensures left { IfOk result (λ x. length x.1.now < length text.now) }
{
    match kind {
        Kind::Object | Kind::Array => Err(Stop::At(text)),
        Kind::String => {
            let (text, rest) = string(alloc, false, text)?;
            Ok((Value::String(text), rest))
        }
        Kind::Integer => {
            let (found, rest) = integer(text)?;
            Ok((number(found), rest))
        }
        Kind::True => boolean(true, b"true", text),
        Kind::False => boolean(false, b"false", text),
        Kind::Null => {
            let rest = after_word(b"null", text)?;
            Ok((Value::Null, rest))
        }
        Kind::Key => key(after_byte(b'M', text)?),
        Kind::Long => {
            let (found, rest) = call(b"NumberLong", text)?;
            Ok((Value::Int64(found), rest))
        }
        Kind::Date => {
            let (found, rest) = call(b"Date", text)?;
            Ok((Value::Date(found), rest))
        }
        Kind::Timestamp => timestamp(text),
        Kind::ObjectId => object_id(text),
        Kind::HexData => hex_data(alloc, text),
    }
}
