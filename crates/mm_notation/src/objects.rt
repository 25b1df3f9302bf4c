//! Reading objects and arrays. What is read goes into one buffer, from the
//! left, as BSON spells it.

ghost use Rattle.std.specs.Prelude.{◌≡◌, ◌<◌, ◌≤◌, ◌+◌, length, IfOk, Ok};
ghost use Rattle.std.specs.Fmt.{decimal};
ghost use Rattle.mm_bson.specs.Tree.{document, array, no_elements, no_values, item};
ghost use Rattle.mm_bson.specs.Spelling.{spelling, array_spelling, elements_spelling, values_spelling, element_spelling, IsName};
ghost use Rattle.mm_notation.specs.Reading.{Gives, closed_at, closing_at, member_at, items_behind, object_at, array_at, value_at, with_element, document_at};
ghost use Rattle.mm_notation.specs.Putting.{Writes, IsSound, AreSound, AreSoundValues, IsSoundMember, member_spelling, leaf_at};

use crate::bytes::{after_byte, after_mark, skip};
use crate::kind::Kind;
use crate::putting::{begin, finish, put_element, put_head};
use crate::stop::Stop;
use crate::strings::string;
use crate::values::{kind, leaf};
use itoa::Buffer;
use mm_bson::Doc;
use std::alloc::Global;

/// The type bytes of documents and arrays (BSON 1.0, element).
const DOCUMENT: u8 = 0x03;

const ARRAY: u8 = 0x04;

/// Whether the closing mark stands here, behind the opening one.
#[tactic(auto, unfolding(crate::specs::Reading::closed_at))]
fn closed(close: u8, text: &[u8]) -> (bool, &[u8])
    ensures gives { closed_at close text.now ≡ Ok (result.0, result.1.now) }
    ensures left { length result.1.now ≤ length text.now }
{
    match text {
        [first, others @ ..] => {
            if *first == close {
                (true, others)
            } else {
                (false, text)
            }
        }
        [] => (false, text),
    }
}

/// Whether the closing mark stands behind an item, or `,`.
#[tactic(auto, unfolding(crate::specs::Reading::closing_at))]
fn closing(close: u8, text: &[u8]) -> Result<(bool, &[u8]), Stop<'_>>
    ensures gives { Gives (λ x. (x.0, x.1.now)) result (closing_at close text.now) }
    ensures left { IfOk result (λ x. length x.1.now < length text.now) }
{
    let rest = skip(text);
    match rest {
        [first, others @ ..] => {
            if *first == close {
                return Ok((true, others));
            }
            if *first == b',' {
                return Ok((false, skip(others)));
            }
            Err(Stop::At(rest))
        }
        [] => Err(Stop::At(rest)),
    }
}

/// Puts an element whose value holds no other.
fn plain<'a>(
    out: &mut Vec<u8>,
    name: &[u8],
    kind: Kind,
    text: &'a [u8],
) -> Result<&'a [u8], Stop<'a>>
    ensures wrote { Writes (element_spelling name.now) (IsSound 0) out.old.items out.new.items (λ r. r.now) result (leaf_at kind text.now) }
    ensures left { IfOk result (λ r. length r.now < length text.now) }
{
    let (found, rest) = leaf(*out.allocator(), kind, text)?;
    put_element(out, name, &found)?;
    Ok(rest)
}

/// Puts the element of this name, whose value begins here.
#[cycle(read)]
fn element<'a>(
    out: &mut Vec<u8>,
    name: &[u8],
    text: &'a [u8],
    levels: usize,
) -> Result<&'a [u8], Stop<'a>>
    requires { levels ≤ 100 }
    ensures wrote { Writes (element_spelling name.now) (IsSound levels) out.old.items out.new.items (λ r. r.now) result (value_at levels text.now) }
    ensures left { IfOk result (λ r. length r.now < length text.now) }
{
    match kind(text)? {
        Kind::Object => {
            put_head(out, DOCUMENT, name)?;
            object(out, text, levels)
        }
        Kind::Array => {
            put_head(out, ARRAY, name)?;
            array(out, text, levels)
        }
        kind => plain(out, name, kind, text),
    }
}

/// Puts a name and its value.
#[cycle(read)]
fn member<'a>(out: &mut Vec<u8>, text: &'a [u8], levels: usize) -> Result<&'a [u8], Stop<'a>>
    requires { levels ≤ 100 }
    ensures wrote { Writes member_spelling (IsSoundMember levels) out.old.items out.new.items (λ r. r.now) result (member_at (value_at levels) text.now) }
    ensures left { IfOk result (λ r. length r.now < length text.now) }
{
    let (name, rest) = string(*out.allocator(), true, text)?;
    let rest = after_mark(b':', rest)?;
    element(out, name.as_bytes(), skip(rest), levels)
}

/// Puts the members of an object, which may be empty.
#[cycle(read)]
fn members<'a>(
    out: &mut Vec<u8>,
    empty: bool,
    text: &'a [u8],
    levels: usize,
) -> Result<&'a [u8], Stop<'a>>
    requires { levels < 100 }
    ensures wrote { Writes elements_spelling (AreSound levels) out.old.items out.new.items (λ r. r.now) result (items_behind no_elements with_element 0x7d (member_at (value_at levels)) empty text.now) }
    ensures left { IfOk result (λ r. length r.now ≤ length text.now) }
{
    if empty {
        return Ok(text);
    }
    let mut rest = member(out, text, levels)?;
    'members: loop {
        let (last, after) = closing(b'}', rest)?;
        if last {
            return Ok(after);
        }
        rest = member(out, after, levels)?;
    }
}

/// Puts the document that an object stands for.
#[cycle(read)]
fn object<'a>(out: &mut Vec<u8>, text: &'a [u8], levels: usize) -> Result<&'a [u8], Stop<'a>>
    requires { levels ≤ 100 }
    ensures wrote { Writes spelling (λ es. IsSound levels (document es)) out.old.items out.new.items (λ r. r.now) result (object_at levels text.now) }
    ensures left { IfOk result (λ r. length r.now < length text.now) }
{
    if levels == 0 {
        return Err(Stop::At(text));
    }
    let rest = after_byte(b'{', text)?;
    let (empty, rest) = closed(b'}', skip(rest));
    let start = begin(out)?;
    let rest = members(out, empty, rest, levels - 1)?;
    finish(out, start)?;
    Ok(rest)
}

/// Puts the value at this place of an array.
#[cycle(read)]
fn value<'a>(
    out: &mut Vec<u8>,
    place: usize,
    text: &'a [u8],
    levels: usize,
) -> Result<&'a [u8], Stop<'a>>
    requires { levels ≤ 100 }
    ensures wrote { Writes (element_spelling (decimal place)) (IsSound levels) out.old.items out.new.items (λ r. r.now) result (value_at levels text.now) }
    ensures left { IfOk result (λ r. length r.now < length text.now) }
{
    let mut digits = Buffer::new();
    element(out, digits.format(place).as_bytes(), text, levels)
}

/// Puts the values of an array, which may be empty.
#[cycle(read)]
fn values<'a>(
    out: &mut Vec<u8>,
    empty: bool,
    text: &'a [u8],
    levels: usize,
) -> Result<&'a [u8], Stop<'a>>
    requires { levels < 100 }
    ensures wrote { Writes (values_spelling 0) (AreSoundValues levels) out.old.items out.new.items (λ r. r.now) result (items_behind no_values item 0x5d (value_at levels) empty text.now) }
    ensures left { IfOk result (λ r. length r.now ≤ length text.now) }
{
    if empty {
        return Ok(text);
    }
    let mut rest = value(out, 0, text, levels)?;
    let mut place: usize = 1;
    'values: loop {
        let (last, after) = closing(b']', rest)?;
        if last {
            return Ok(after);
        }
        rest = value(out, place, after, levels)?;
        place += 1;
    }
}

/// Puts an array.
#[cycle(read)]
fn array<'a>(out: &mut Vec<u8>, text: &'a [u8], levels: usize) -> Result<&'a [u8], Stop<'a>>
    requires { levels ≤ 100 }
    ensures wrote { Writes array_spelling (λ vs. IsSound levels (array vs)) out.old.items out.new.items (λ r. r.now) result (array_at levels text.now) }
    ensures left { IfOk result (λ r. length r.now < length text.now) }
{
    if levels == 0 {
        return Err(Stop::At(text));
    }
    let rest = after_byte(b'[', text)?;
    let (empty, rest) = closed(b']', skip(rest));
    let start = begin(out)?;
    let rest = values(out, empty, rest, levels - 1)?;
    finish(out, start)?;
    Ok(rest)
}

/// The object of at most 100 levels that begins here, and the text behind it.
#[tactic(auto, unfolding(crate::specs::Reading::document_at))]
pub(crate) fn document(alloc: Global, text: &[u8]) -> Result<(Doc, &[u8]), Stop<'_>>
    ensures { Gives (λ x. (x.0, x.1.now)) result (document_at text.now) }
{
    let mut out = Vec::new(alloc);
    let rest = object(&mut out, text, 100)?;
    let found = Doc::of_spelled(out)?;
    Ok((found, rest))
}
