//! Fields, read from the front of bytes. Nothing is looked at inside a text, a
//! document or an array.
//!
//! Each reader is given the bytes up to its document's last byte, which lies
//! at the offset `end`, and answers a value and the bytes after it.

ghost use Rattle.std.specs.Prelude.{◌≡◌, ◌<◌, ◌≤◌, ◌+◌, ◌==◌, true, length, take, position, Some, None, IfSome, IfOk, Ok};
ghost use Rattle.std.specs.Int.{w32, w64};
ghost use Rattle.std.specs.Fmt.{decimal};
ghost use Rattle.std.specs.Str.{is_utf8, bytes_eq};
ghost use Rattle.mm_bson.specs.Reading.{IsFramed, is_due, number_at, name_at, bytes_at, binary_at, boolean_at, type_at, len_at};
ghost use Rattle.mm_bson.specs.Piece.{Is, piece, piece_len, IsPieceFramed, text_at, framed_at, piece_at, head_at, cut_at};

use crate::fault::BsonFault;
use crate::kind::{Kind, from_byte};
use crate::text::is_text;
use itoa::Buffer;

/// The bytes of the shortest document: its length and its last 00.
pub(crate) const EMPTY_LEN: usize = 5;

/// A value as it lies in its document's bytes.
#[derive(Clone, Copy)]
pub(crate) enum Raw<'a> {
    MinKey,
    Null,
    Int32(i32),
    Int64(i64),
    String(&'a [u8]),
    Document(&'a [u8]),
    Array(&'a [u8]),
    Binary { subtype: u8, bytes: &'a [u8] },
    ObjectId(&'a [u8]),
    Boolean(bool),
    Date(i64),
    Timestamp { seconds: u32, increment: u32 },
    MaxKey,
}

/// A name and its value.
#[derive(Clone, Copy)]
pub(crate) struct Head<'a> {
    pub(crate) name: &'a [u8],
    pub(crate) value: Raw<'a>,
}

/// Whether the bytes are UTF-8, quicker where they are ASCII, as names mostly
/// are.
#[inline(always)]
fn is_name_text(bytes: &[u8]) -> bool
    ensures { result ≡ is_utf8 bytes.now }
{
    if bytes.is_ascii() {
        return true;
    }
    is_text(bytes)
}

#[inline(always)]
pub(crate) fn u32_at(bytes: &[u8], end: usize) -> Result<(u32, &[u8]), BsonFault>
    requires { length bytes.now ≤ end }
    ensures gives { Is (λ x. (x.0, x.1.now)) result (number_at w32 end bytes.now) }
    ensures left { IfOk result (λ x. length x.1.now < length bytes.now) }
{
    match bytes.split_first_chunk() {
        Some((front, rest)) => Ok((u32::from_le_bytes(*front), rest)),
        None => Err(BsonFault::BadLength {
            at: end - bytes.len(),
        }),
    }
}

#[inline(always)]
fn u64_at(bytes: &[u8], end: usize) -> Result<(u64, &[u8]), BsonFault>
    requires { length bytes.now ≤ end }
    ensures gives { Is (λ x. (x.0, x.1.now)) result (number_at w64 end bytes.now) }
    ensures left { IfOk result (λ x. length x.1.now < length bytes.now) }
{
    match bytes.split_first_chunk() {
        Some((front, rest)) => Ok((u64::from_le_bytes(*front), rest)),
        None => Err(BsonFault::BadLength {
            at: end - bytes.len(),
        }),
    }
}

#[inline(always)]
pub(crate) fn zero_in(bytes: &[u8]) -> Option<usize>
    ensures value { result ≡ position (λ b. b == 0) bytes.now }
    ensures within { IfSome result (λ n. n < length bytes.now) }
{
    bytes.iter().position(|b| *b == 0)
}

fn is_numbered(name: &[u8], index: usize) -> bool
    ensures { result ≡ bytes_eq name.now (decimal index) }
{
    let mut digits = Buffer::new();
    name == digits.format(index).as_bytes()
}

/// Whether the name is the one that is due in an array.
#[inline(always)]
fn is_that(due: Option<usize>, name: &[u8]) -> bool
    ensures { result ≡ is_due due name.now }
{
    match due {
        None => true,
        Some(index) => is_numbered(name, index),
    }
}

/// A name and the bytes after its 00.
#[tactic(auto, unfolding(crate::specs::Reading::name_at))]
#[inline(always)]
fn name_of(bytes: &[u8], end: usize, due: Option<usize>) -> Result<(&[u8], &[u8]), BsonFault>
    requires { length bytes.now ≤ end }
    ensures gives { Is (λ x. (x.0.now, x.1.now)) result (name_at due end bytes.now) }
    ensures left { IfOk result (λ x. length x.1.now < length bytes.now) }
{
    match zero_in(bytes) {
        None => Err(BsonFault::BadLength {
            at: end - bytes.len(),
        }),
        Some(n) => {
            let front = &bytes[..n];
            if !is_name_text(front) {
                return Err(BsonFault::BadUtf8 {
                    at: end - bytes.len(),
                });
            }
            if !is_that(due, front) {
                return Err(BsonFault::BadName {
                    at: end - bytes.len(),
                });
            }
            Ok((front, &bytes[n + 1..]))
        }
    }
}

#[tactic(auto, unfolding(crate::specs::Piece::piece_at, crate::specs::Piece::text_at))]
#[inline(always)]
fn text_of(bytes: &[u8], end: usize) -> Result<(Raw<'_>, &[u8]), BsonFault>
    requires { length bytes.now ≤ end }
    ensures gives { Is (λ x. (piece x.0, x.1.now)) result (piece_at Kind.String end bytes.now) }
    ensures framed { IfOk result (λ x. IsPieceFramed (piece x.0)) }
    ensures left { IfOk result (λ x. length x.1.now + piece_len (piece x.0) ≤ length bytes.now) }
{
    let (len, rest) = u32_at(bytes, end)?;
    let len = len as usize;
    if len == 0 || rest.len() < len || rest[len - 1] != 0 {
        return Err(BsonFault::BadLength {
            at: end - bytes.len(),
        });
    }
    Ok((Raw::String(&rest[..len - 1]), &rest[len..]))
}

#[tactic(auto, unfolding(crate::specs::Piece::piece_at))]
#[inline(always)]
fn object_id_of(bytes: &[u8], end: usize) -> Result<(Raw<'_>, &[u8]), BsonFault>
    requires { length bytes.now ≤ end }
    ensures gives { Is (λ x. (piece x.0, x.1.now)) result (piece_at Kind.ObjectId end bytes.now) }
    ensures framed { IfOk result (λ x. IsPieceFramed (piece x.0)) }
    ensures left { IfOk result (λ x. length x.1.now + piece_len (piece x.0) ≤ length bytes.now) }
{
    if bytes.len() < 12 {
        return Err(BsonFault::BadLength {
            at: end - bytes.len(),
        });
    }
    let (id, rest) = bytes.split_at(12);
    Ok((Raw::ObjectId(id), rest))
}

#[tactic(auto, unfolding(crate::specs::Piece::piece_at, crate::specs::Reading::binary_at))]
#[inline(always)]
fn binary_of(bytes: &[u8], end: usize) -> Result<(Raw<'_>, &[u8]), BsonFault>
    requires { length bytes.now ≤ end }
    ensures gives { Is (λ x. (piece x.0, x.1.now)) result (piece_at Kind.Binary end bytes.now) }
    ensures framed { IfOk result (λ x. IsPieceFramed (piece x.0)) }
    ensures left { IfOk result (λ x. length x.1.now + piece_len (piece x.0) ≤ length bytes.now) }
{
    let (len, rest) = u32_at(bytes, end)?;
    let len = len as usize;
    if rest.len() < len + 1 {
        return Err(BsonFault::BadLength {
            at: end - bytes.len(),
        });
    }
    let subtype = rest[0];
    let (bytes, rest) = rest[1..].split_at(len);
    Ok((Raw::Binary { subtype, bytes }, rest))
}

#[tactic(auto, unfolding(crate::specs::Piece::piece_at, crate::specs::Reading::boolean_at))]
#[inline(always)]
fn boolean_of(bytes: &[u8], end: usize) -> Result<(Raw<'_>, &[u8]), BsonFault>
    requires { length bytes.now ≤ end }
    ensures gives { Is (λ x. (piece x.0, x.1.now)) result (piece_at Kind.Boolean end bytes.now) }
    ensures framed { IfOk result (λ x. IsPieceFramed (piece x.0)) }
    ensures left { IfOk result (λ x. length x.1.now + piece_len (piece x.0) ≤ length bytes.now) }
{
    match bytes {
        [] => Err(BsonFault::BadLength { at: end }),
        [0, rest @ ..] => Ok((Raw::Boolean(false), rest)),
        [1, rest @ ..] => Ok((Raw::Boolean(true), rest)),
        [byte, ..] => Err(BsonFault::BadType {
            at: end - bytes.len(),
            byte: *byte,
        }),
    }
}

#[inline(always)]
pub(crate) fn kind_of(bytes: &[u8], start: usize, end: usize) -> Result<(Kind, &[u8]), BsonFault>
    requires { length bytes.now ≤ end }
    ensures gives { Is (λ x. (x.0, x.1.now)) result (type_at start end bytes.now) }
    ensures left { IfOk result (λ x. length x.1.now < length bytes.now) }
{
    match bytes {
        [] => Err(BsonFault::BadLength { at: start }),
        [byte, rest @ ..] => {
            if *byte == 0 {
                return Err(BsonFault::BadLength { at: start });
            }
            match from_byte(*byte) {
                None => Err(BsonFault::BadType {
                    at: end - bytes.len(),
                    byte: *byte,
                }),
                Some(kind) => Ok((kind, rest)),
            }
        }
    }
}

/// How many bytes a document or array inside has.
#[tactic(auto, unfolding(crate::specs::Reading::len_at))]
#[inline(always)]
fn len_of(bytes: &[u8], end: usize) -> Result<usize, BsonFault>
    requires { length bytes.now ≤ end }
    ensures framed { IfOk result (λ n. IsFramed (take n bytes.now) × (n ≤ length bytes.now)) }
    ensures gives { Is (λ n. n) result (len_at end bytes.now) }
{
    let (len, _) = u32_at(bytes, end)?;
    let len = len as usize;
    if len < EMPTY_LEN || bytes.len() < len {
        return Err(BsonFault::BadLength {
            at: end - bytes.len(),
        });
    }
    Ok(len)
}

/// The bytes of a document or array inside.
#[tactic(auto, unfolding(crate::specs::Piece::framed_at))]
#[inline(always)]
fn framed_of(bytes: &[u8], end: usize) -> Result<(&[u8], &[u8]), BsonFault>
    requires { length bytes.now ≤ end }
    ensures gives { Is (λ x. (x.0.now, x.1.now)) result (framed_at end bytes.now) }
    ensures framed { IfOk result (λ x. IsFramed x.0.now) }
    ensures left { IfOk result (λ x. length x.1.now + length x.0.now ≤ length bytes.now) }
{
    match len_of(bytes, end) {
        Ok(len) => Ok(bytes.split_at(len)),
        Err(fault) => Err(fault),
    }
}

// The readers of values, one for each type.

#[tactic(auto, unfolding(crate::specs::Piece::piece_at))]
#[inline(always)]
fn int32_of(bytes: &[u8], end: usize) -> Result<(Raw<'_>, &[u8]), BsonFault>
    requires { length bytes.now ≤ end }
    ensures gives { Is (λ x. (piece x.0, x.1.now)) result (piece_at Kind.Int32 end bytes.now) }
    ensures framed { IfOk result (λ x. IsPieceFramed (piece x.0)) }
    ensures left { IfOk result (λ x. length x.1.now + piece_len (piece x.0) ≤ length bytes.now) }
{
    match u32_at(bytes, end) {
        Ok((bits, rest)) => Ok((Raw::Int32(bits.cast_signed()), rest)),
        Err(fault) => Err(fault),
    }
}

#[tactic(auto, unfolding(crate::specs::Piece::piece_at))]
#[inline(always)]
fn int64_of(bytes: &[u8], end: usize) -> Result<(Raw<'_>, &[u8]), BsonFault>
    requires { length bytes.now ≤ end }
    ensures gives { Is (λ x. (piece x.0, x.1.now)) result (piece_at Kind.Int64 end bytes.now) }
    ensures framed { IfOk result (λ x. IsPieceFramed (piece x.0)) }
    ensures left { IfOk result (λ x. length x.1.now + piece_len (piece x.0) ≤ length bytes.now) }
{
    match u64_at(bytes, end) {
        Ok((bits, rest)) => Ok((Raw::Int64(bits.cast_signed()), rest)),
        Err(fault) => Err(fault),
    }
}

#[tactic(auto, unfolding(crate::specs::Piece::piece_at))]
#[inline(always)]
fn date_of(bytes: &[u8], end: usize) -> Result<(Raw<'_>, &[u8]), BsonFault>
    requires { length bytes.now ≤ end }
    ensures gives { Is (λ x. (piece x.0, x.1.now)) result (piece_at Kind.Date end bytes.now) }
    ensures framed { IfOk result (λ x. IsPieceFramed (piece x.0)) }
    ensures left { IfOk result (λ x. length x.1.now + piece_len (piece x.0) ≤ length bytes.now) }
{
    match u64_at(bytes, end) {
        Ok((bits, rest)) => Ok((Raw::Date(bits.cast_signed()), rest)),
        Err(fault) => Err(fault),
    }
}

#[tactic(auto, unfolding(crate::specs::Piece::piece_at))]
#[inline(always)]
fn timestamp_of(bytes: &[u8], end: usize) -> Result<(Raw<'_>, &[u8]), BsonFault>
    requires { length bytes.now ≤ end }
    ensures gives { Is (λ x. (piece x.0, x.1.now)) result (piece_at Kind.Timestamp end bytes.now) }
    ensures framed { IfOk result (λ x. IsPieceFramed (piece x.0)) }
    ensures left { IfOk result (λ x. length x.1.now + piece_len (piece x.0) ≤ length bytes.now) }
{
    let (increment, rest) = u32_at(bytes, end)?;
    let (seconds, rest) = u32_at(rest, end)?;
    Ok((Raw::Timestamp { seconds, increment }, rest))
}

#[tactic(auto, unfolding(crate::specs::Piece::piece_at))]
#[inline(always)]
pub(crate) fn value_of(kind: Kind, bytes: &[u8], end: usize) -> Result<(Raw<'_>, &[u8]), BsonFault>
    requires { length bytes.now ≤ end }
    ensures gives { Is (λ x. (piece x.0, x.1.now)) result (piece_at kind end bytes.now) }
    ensures framed { IfOk result (λ x. IsPieceFramed (piece x.0)) }
    ensures left { IfOk result (λ x. length x.1.now + piece_len (piece x.0) ≤ length bytes.now) }
{
    match kind {
        Kind::Int32 => int32_of(bytes, end),
        Kind::Int64 => int64_of(bytes, end),
        Kind::Date => date_of(bytes, end),
        Kind::Timestamp => timestamp_of(bytes, end),
        Kind::ObjectId => object_id_of(bytes, end),
        Kind::Binary => binary_of(bytes, end),
        Kind::Boolean => boolean_of(bytes, end),
        Kind::String => text_of(bytes, end),
        Kind::Null => Ok((Raw::Null, bytes)),
        Kind::MinKey => Ok((Raw::MinKey, bytes)),
        Kind::MaxKey => Ok((Raw::MaxKey, bytes)),
        Kind::Document => match framed_of(bytes, end) {
            Ok((document, rest)) => Ok((Raw::Document(document), rest)),
            Err(fault) => Err(fault),
        },
        Kind::Array => match framed_of(bytes, end) {
            Ok((list, rest)) => Ok((Raw::Array(list), rest)),
            Err(fault) => Err(fault),
        },
    }
}

/// An element with no look inside its value.
#[tactic(auto, unfolding(crate::specs::Piece::head_at))]
#[inline(always)]
pub(crate) fn head_of(
    bytes: &[u8],
    start: usize,
    end: usize,
    due: Option<usize>,
) -> Result<(Head<'_>, &[u8]), BsonFault>
    requires { length bytes.now ≤ end }
    ensures gives { Is (λ x. ((x.0.name.now, piece x.0.value), x.1.now)) result (head_at due start end bytes.now) }
    ensures framed { IfOk result (λ x. IsPieceFramed (piece x.0.value)) }
    ensures left { IfOk result (λ x. length x.1.now + piece_len (piece x.0.value) < length bytes.now) }
{
    let (kind, rest) = kind_of(bytes, start, end)?;
    let (name, rest) = name_of(rest, end, due)?;
    let (value, rest) = value_of(kind, rest, end)?;
    Ok((Head { name, value }, rest))
}

/// An element, where neither its name nor its value is looked at inside.
#[tactic(auto, unfolding(crate::specs::Piece::cut_at))]
#[inline(always)]
pub(crate) fn cut_of(bytes: &[u8], end: usize) -> Result<(Head<'_>, &[u8]), BsonFault>
    requires { length bytes.now ≤ end }
    ensures gives { Is (λ x. ((x.0.name.now, piece x.0.value), x.1.now)) result (cut_at end bytes.now) }
    ensures left { IfOk result (λ x. length x.1.now + piece_len (piece x.0.value) < length bytes.now) }
{
    let (kind, rest) = kind_of(bytes, 0, end)?;
    match zero_in(rest) {
        None => Err(BsonFault::BadLength {
            at: end - rest.len(),
        }),
        Some(n) => {
            let (value, behind) = value_of(kind, &rest[n + 1..], end)?;
            let name = &rest[..n];
            Ok((Head { name, value }, behind))
        }
    }
}
