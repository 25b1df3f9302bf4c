//! Reading documents, and the document of an insert.

ghost use Rattle.std.specs.Prelude.{◌≡◌, ◌<◌, ◌≤◌, true, false, length, IfOk, IfSome, IfNone, OnOk};
ghost use Rattle.std.specs.Str.{bytes_eq};
ghost use Rattle.mm_bson.specs.Tree.{no_elements, element, append, depth, tree_depth};
ghost use Rattle.mm_bson.specs.View.{tree, elements_of};
ghost use Rattle.mm_bson.specs.Spelling.{HasNoZero, AreElements};
ghost use Rattle.mm_model.specs.Database.{id_name};
ghost use Rattle.mm_model.specs.WellFormed.{begins_with_id};
ghost use Rattle.mm_script.specs.Documents.{made_id, with_id, without_first_id};
ghost use Rattle.mm_script.specs.Reading.{Gives, front, notation_here as notation_from, notation_at, hex_of, hex_here as hex_from, document_at, specification_at, is_short_specification};

use crate::fault::LineWhat;
use crate::stop::Stop;
use crate::words::{begins_space, cut, first_bytes, skip};
use hex::FromHexError;
use mm_base::NoMemory;
use mm_bson::{BsonFault, Doc, Element, Text, Value};
use mm_keys::{KeySpec, SpecFault};
use mm_notation::{NotationFault, read_doc};
use std::alloc::Global;

/// The most bytes of a text of which the notation is read. Lines are shorter.
const MOST_NOTATION: usize = 268_435_456;

/// The most bytes of a specification of keys.
const MOST_SPECIFICATION: usize = 65_536;

const ID: &str = "_id";

/// The document in notation with which the text begins.
#[tactic(auto, unfolding(crate::specs::Reading::notation_here))]
fn notation_here(alloc: Global, text: &str) -> Result<(Doc, &str), Stop>
    ensures { Gives (λ x. (x.0, x.1.now)) result (notation_from text.now) }
{
    if text.len() > MOST_NOTATION {
        return Err(Stop::NoMemory);
    }
    match read_doc(alloc, text, 0) {
        Ok((doc, end)) => {
            let (_read, rest) = text.split_at(end);
            Ok((doc, rest))
        }
        Err(NotationFault::Notation { place: _ }) => Err(Stop::What(LineWhat::Document)),
        Err(NotationFault::NoMemory) => Err(Stop::NoMemory),
    }
}

/// The document that digits spell.
#[tactic(auto, unfolding(crate::specs::Reading::hex_of))]
fn doc_of(alloc: Global, digits: &[u8]) -> Result<Doc, Stop>
    ensures { Gives (λ d. d) result (hex_of digits.now) }
{
    let bytes = match hex::decode(alloc, digits) {
        Ok(bytes) => bytes,
        Err(FromHexError::OutOfMemory) => return Err(Stop::NoMemory),
        Err(_) => return Err(Stop::What(LineWhat::Document)),
    };
    match Doc::parse(alloc, &bytes) {
        Ok(doc) => Ok(doc),
        Err(BsonFault::NoMemory) => Err(Stop::NoMemory),
        Err(_) => Err(Stop::What(LineWhat::Document)),
    }
}

/// The document of a word `hex:` and digits.
#[tactic(auto, unfolding(crate::specs::Reading::hex_here))]
fn hex_here(alloc: Global, text: &str) -> Result<(Doc, &str), Stop>
    requires { 4 ≤ length (front text.now) }
    ensures { Gives (λ x. (x.0, x.1.now)) result (hex_from text.now) }
{
    let (word, rest) = cut(text);
    let doc = doc_of(alloc, &word.as_bytes()[4..])?;
    Ok((doc, rest))
}

/// A document, in notation or in hex.
#[tactic(auto, unfolding(crate::specs::Reading::document_at, crate::specs::Reading::document_here))]
pub(crate) fn document(alloc: Global, text: &str) -> Result<(Doc, &str), Stop>
    ensures { Gives (λ x. (x.0, x.1.now)) result (document_at text.now) }
{
    if !begins_space(text) {
        return Err(Stop::What(LineWhat::Document));
    }
    let text = skip(text);
    if first_bytes(text.as_bytes(), 4) == b"hex:".as_slice() {
        hex_here(alloc, text)
    } else {
        notation_here(alloc, text)
    }
}

/// A document in notation.
#[tactic(auto, unfolding(crate::specs::Reading::notation_at))]
fn notation(alloc: Global, text: &str) -> Result<(Doc, &str), Stop>
    ensures { Gives (λ x. (x.0, x.1.now)) result (notation_at text.now) }
{
    if !begins_space(text) {
        return Err(Stop::What(LineWhat::Document));
    }
    notation_here(alloc, skip(text))
}

/// The specification that a document is, where it is short enough.
fn spec_of(alloc: Global, doc: &Doc) -> Result<Option<KeySpec>, NoMemory>
    ensures some { IfOk result (λ found. IfSome found (λ s. (s ≡ doc.now) × (is_short_specification doc.now ≡ true))) }
    ensures none { IfOk result (λ found. IfNone found (is_short_specification doc.now ≡ false)) }
{
    if doc.bytes().len() > MOST_SPECIFICATION {
        return Ok(None);
    }
    match KeySpec::from_doc(alloc, doc) {
        Ok(spec) => Ok(Some(spec)),
        Err(SpecFault::BadSpec) => Ok(None),
        Err(SpecFault::NoMemory) => Err(NoMemory),
    }
}

/// A specification of keys, in notation.
#[tactic(auto, unfolding(crate::specs::Reading::specification_at))]
pub(crate) fn specification(alloc: Global, text: &str) -> Result<(KeySpec, &str), Stop>
    ensures { Gives (λ x. (x.0, x.1.now)) result (specification_at text.now) }
{
    let (doc, rest) = match notation(alloc, text) {
        Ok(read) => read,
        Err(stop) => return Err(stop),
    };
    match spec_of(alloc, &doc)? {
        Some(spec) => Ok((spec, rest)),
        None => Err(Stop::What(LineWhat::Specification)),
    }
}

/// The ObjectId that is made for a document without `_id`.
pub(crate) fn made_id(stamp: u32, session: u32, line: u32) -> [u8; 12]
    ensures { result ≡ made_id stamp session line }
{
    let [a, b, c, d] = stamp.to_be_bytes();
    let [_, _, e, f] = session.to_be_bytes();
    let [_, g, h, i] = line.to_be_bytes();
    [a, b, c, d, 0, 0, 0, e, f, g, h, i]
}

/// Puts a field behind the others. A document whose length doesn't fit its
/// i32 finds no memory.
pub(crate) fn add(doc: &mut Doc, name: Text, value: Value) -> Result<(), NoMemory>
    requires name { HasNoZero name }
    requires levels { tree_depth (tree value) < 100 }
    ensures { OnOk result (doc.new ≡ append doc.old (element name (tree value) no_elements)) }
{
    if !doc.fits(name.as_bytes(), &value) {
        return Err(NoMemory);
    }
    Ok(doc.push(name, value)?)
}

fn is_id(name: &Text) -> bool
    ensures { result ≡ bytes_eq name.now id_name }
{
    name.as_bytes() == ID.as_bytes()
}

fn add_all(doc: &mut Doc, fields: &[Element]) -> Result<(), NoMemory>
    requires fields { AreElements (elements_of fields.now) }
    requires levels { depth (elements_of fields.now) < 100 }
    ensures { OnOk result (doc.new ≡ append doc.old (elements_of fields.now)) }
{
    for field in fields {
        add(doc, field.name.copy()?, field.value.copy()?)?;
    }
    Ok(())
}

/// Puts all fields but the first `_id` behind the others.
fn add_others(doc: &mut Doc, fields: &[Element]) -> Result<(), NoMemory>
    requires fields { AreElements (elements_of fields.now) }
    requires levels { depth (elements_of fields.now) < 100 }
    ensures { OnOk result (doc.new ≡ append doc.old (without_first_id (elements_of fields.now))) }
{
    let mut rest = fields;
    'fields: while let [first, others @ ..] = rest {
        if is_id(&first.name) {
            return add_all(doc, others);
        }
        add(doc, first.name.copy()?, first.value.copy()?)?;
        rest = others;
    }
    Ok(())
}

fn begins_with_id(doc: &Doc) -> bool
    ensures { result ≡ begins_with_id doc.now }
{
    match doc.elements() {
        [first, ..] => is_id(&first.name),
        [] => false,
    }
}

/// The document with its `_id` in front, or with the made one.
fn moved(alloc: Global, made: [u8; 12], doc: &Doc) -> Result<Doc, NoMemory>
    ensures { IfOk result (λ d. d ≡ with_id made doc.now) }
{
    let mut new = Doc::new(alloc)?;
    let name = Text::from_str(alloc, ID)?;
    match doc.find(ID.as_bytes()) {
        Some(id) => {
            add(&mut new, name, id.copy()?)?;
            add_others(&mut new, doc.elements())?;
        }
        None => {
            add(&mut new, name, Value::ObjectId(made))?;
            add_all(&mut new, doc.elements())?;
        }
    }
    Ok(new)
}

/// The document as an insert puts it in: its first `_id` goes first, or is
/// made.
pub(crate) fn with_id(alloc: Global, made: [u8; 12], doc: Doc) -> Result<Doc, NoMemory>
    ensures { IfOk result (λ d. d ≡ with_id made doc) }
{
    if begins_with_id(&doc) {
        return Ok(doc);
    }
    moved(alloc, made, &doc)
}
