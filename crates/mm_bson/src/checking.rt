//! Whether bytes are a document, and if not, the first fault.

ghost use Rattle.std.specs.Prelude.{◌≡◌, ◌<◌, ◌≤◌, ◌+◌, ◌^◌, ◌↔◌, length, IfSome, IsTrue};
ghost use Rattle.mm_bson.specs.Reading.{IsFramed, next_due, elements_at, nested_at, whole};
ghost use Rattle.mm_bson.specs.Piece.{Is, Judges, piece, piece_len, IsPieceFramed, inside_at};
ghost use Rattle.mm_bson.specs.Tree.{Elements};
ghost use Rattle.mm_bson.specs.Spelling.{IsDocument, spelling};

use crate::fault::BsonFault;
use crate::raw::{EMPTY_LEN, Raw, head_of, u32_at};
use crate::text::is_text;

/// The most bytes that a document which is read has.
pub const MAX_LEN: usize = 0x100_0000;

/// The most levels of documents and arrays, the whole document being the first.
pub const MAX_LEVELS: usize = 100;

fn after(due: Option<usize>) -> Option<usize>
    requires { IfSome due (λ i. i < 2 ^ 32) }
    ensures { result ≡ next_due due }
{
    match due {
        None => None,
        Some(index) => Some(index + 1),
    }
}

/// Looks inside a text, a document or an array, behind which so many bytes
/// are left.
#[cycle(check)]
fn inside(value: Raw<'_>, end: usize, left: usize, levels: usize) -> Result<(), BsonFault>
    requires fits { left + piece_len (piece value) ≤ end }
    requires framed { IsPieceFramed (piece value) }
    requires short { end < 2 ^ 31 }
    requires levels { levels ≤ 100 }
    ensures { Judges result (inside_at (nested_at levels) end (piece value.entry) left) }
{
    match value {
        Raw::String(text) => {
            if is_text(text) {
                Ok(())
            } else {
                Err(BsonFault::BadUtf8 {
                    at: end - (left + (text.len() + 1)),
                })
            }
        }
        Raw::Document(bytes) => nested(bytes, end - (left + bytes.len()), levels, None),
        Raw::Array(bytes) => nested(bytes, end - (left + bytes.len()), levels, Some(0)),
        _ => Ok(()),
    }
}

#[cycle(check)]
fn elements(
    bytes: &[u8],
    start: usize,
    end: usize,
    levels: usize,
    first: Option<usize>,
) -> Result<(), BsonFault>
    requires fits { length bytes.now ≤ end }
    requires short { end < 2 ^ 31 }
    requires levels { levels ≤ 100 }
    requires first { IfSome first (λ i. i ≡ 0) }
    ensures { Judges result (elements_at (nested_at levels) first start end (length bytes.now) bytes.now) }
{
    let mut rest = bytes;
    let mut due = first;
    'elements: while !rest.is_empty() {
        let (head, behind) = head_of(rest, start, end, due)?;
        inside(head.value, end, behind.len(), levels)?;
        rest = behind;
        due = after(due);
    }
    Ok(())
}

#[cycle(check)]
fn nested(bytes: &[u8], start: usize, levels: usize, first: Option<usize>) -> Result<(), BsonFault>
    requires framed { IsFramed bytes.now }
    requires fits { start + length bytes.now < 2 ^ 31 }
    requires levels { levels ≤ 100 }
    requires first { IfSome first (λ i. i ≡ 0) }
    ensures { Judges result (nested_at levels first start bytes.now) }
{
    if levels == 0 {
        return Err(BsonFault::TooDeep { at: start });
    }
    let last = bytes.len() - 1;
    elements(&bytes[4..last], start, start + last, levels - 1, first)?;
    if bytes[last] != 0 {
        return Err(BsonFault::BadLength { at: start });
    }
    Ok(())
}

/// Whether the bytes are a document, all of them, and if not, the first fault
/// in reading order.
#[tactic(auto, unfolding(crate::specs::Reading::whole))]
pub fn check(bytes: &[u8]) -> Result<(), BsonFault>
    ensures { Judges result (whole bytes.now) }
{
    let (len, _) = u32_at(bytes, bytes.len())?;
    let len = len as usize;
    if len < EMPTY_LEN || len < bytes.len() || bytes.len() < len {
        return Err(BsonFault::BadLength { at: 0 });
    }
    if MAX_LEN < len {
        return Err(BsonFault::TooLong);
    }
    nested(bytes, 0, MAX_LEVELS, None)
}

/// Whether the bytes are a document, all of them.
pub fn is_document(bytes: &[u8]) -> bool
    ensures { IsTrue result ↔ ((es : Elements) × IsDocument es × (bytes.now ≡ spelling es)) }
{
    check(bytes).is_ok()
}
