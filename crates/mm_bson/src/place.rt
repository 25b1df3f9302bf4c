//! Documents, arrays and values in place.
//!
//! Each is a part of the bytes that spell it, and is seen as what it spells.

ghost use Rattle.std.specs.Prelude.{◌≡◌, ◌<◌, ◌≤◌, ◌^◌, true, length, Ok, IfOk, IfErr, IfSome, IfNone};
ghost use Rattle.std.specs.Str.{is_utf8};
ghost use Rattle.mm_bson.specs.Tree.{Tree, tree_depth, Elements, no_elements, element, no_values, item};
ghost use Rattle.mm_bson.specs.Spelling.{spelling, array_spelling, value_spelling, elements_spelling, IsDocument, IsValue};
ghost use Rattle.mm_bson.specs.Reading.{whole, body};
ghost use Rattle.mm_bson.specs.Faults.{IsExplained, IsShown};
ghost use Rattle.mm_bson.specs.Piece.{Is, piece, piece_for};
ghost use Rattle.mm_bson.specs.Built.{IsBuilt, IsBuiltArray};
ghost use Rattle.mm_bson.specs.Named.{named, unnamed};
ghost use Rattle.mm_bson.specs.View.{tree_in};
ghost use Rattle.mm_bson.specs.Walk.{SpellsDocument, SpellsArray, IsHeld};

use crate::checking::check;
use crate::fault::BsonFault;
use crate::raw::{Raw, cut_of};
use std::marker::Model;
use std::str;

/// A text of UTF-8 in place, seen as its bytes.
#[derive(Drop)]
pub struct TextRef<'a> {
    bytes: &'a [u8],
}

impl<'a> Model for TextRef<'a> {
    ghost use Rattle.std.specs.Prelude.{◌≡◌, true, List, ℕ};
    ghost use Rattle.std.specs.Str.{is_utf8};
    ghost use Rattle.std.specs.Coded.{coded_list, coded_ℕ};

    ghost Value = { List ℕ };

    ghost coded = { coded_list coded_ℕ };

    ghost view = { λ t. t.bytes.now };

    ghost invariant = { λ t. is_utf8 t.bytes.now ≡ true };
}

/// An ObjectId in place, seen as its 12 bytes.
#[derive(Drop)]
pub struct ObjectIdRef<'a> {
    bytes: &'a [u8],
}

impl<'a> Model for ObjectIdRef<'a> {
    ghost use Rattle.std.specs.Prelude.{◌≡◌, List, ℕ, length};
    ghost use Rattle.std.specs.Coded.{coded_list, coded_ℕ};

    ghost Value = { List ℕ };

    ghost coded = { coded_list coded_ℕ };

    ghost view = { λ i. i.bytes.now };

    ghost invariant = { λ i. length i.bytes.now ≡ 12 };
}

/// A document in place, seen as its elements in their order.
#[derive(Drop)]
pub struct DocRef<'a> {
    bytes: &'a [u8],
}

impl<'a> Model for DocRef<'a> {
    ghost use Rattle.mm_bson.specs.Tree.{Elements};
    ghost use Rattle.mm_bson.specs.Code.{elements_code};

    ghost Value = { Elements };

    ghost coded = { elements_code };

    ghost use Rattle.mm_bson.specs.Walk.{document_in, SpellsDocument};

    ghost view = { λ d. document_in d.bytes.now };

    ghost invariant = { λ d. SpellsDocument d.bytes.now (document_in d.bytes.now) };
}

/// An array in place, seen as its values.
#[derive(Drop)]
pub struct ListRef<'a> {
    bytes: &'a [u8],
}

impl<'a> Model for ListRef<'a> {
    ghost use Rattle.mm_bson.specs.Tree.{Values};
    ghost use Rattle.mm_bson.specs.Code.{values_code};

    ghost Value = { Values };

    ghost coded = { values_code };

    ghost use Rattle.mm_bson.specs.Built.{IsBuilt, IsBuiltArray};
    ghost use Rattle.mm_bson.specs.Named.{unnamed};
    ghost use Rattle.mm_bson.specs.Walk.{document_in, SpellsArray};

    ghost view = { λ l. unnamed (document_in l.bytes.now) };

    ghost invariant = { λ l. SpellsArray l.bytes.now (document_in l.bytes.now) };
}

/// A value in place, of one of the types of BSON.
#[derive(Drop)]
pub enum ValueRef<'a> {
    MinKey,
    Null,
    Int32(i32),
    Int64(i64),
    String(TextRef<'a>),
    Document(DocRef<'a>),
    Array(ListRef<'a>),
    Binary { subtype: u8, bytes: &'a [u8] },
    ObjectId(ObjectIdRef<'a>),
    Boolean(bool),
    Date(i64),
    Timestamp { seconds: u32, increment: u32 },
    MaxKey,
}

/// A name and its value, in place.
#[derive(Drop)]
pub struct FieldRef<'a> {
    pub name: TextRef<'a>,
    pub value: ValueRef<'a>,
}

/// The elements of a document from some place on, seen as these elements.
#[derive(Drop)]
pub struct Fields<'a> {
    bytes: &'a [u8],
}

impl<'a> Model for Fields<'a> {
    ghost use Rattle.mm_bson.specs.Tree.{Elements};
    ghost use Rattle.mm_bson.specs.Code.{elements_code};

    ghost Value = { Elements };

    ghost coded = { elements_code };

    ghost use Rattle.mm_bson.specs.Walk.{elements_in, Spells};

    ghost view = { λ f. elements_in f.bytes.now };

    ghost invariant = { λ f. Spells f.bytes.now (elements_in f.bytes.now) };
}

/// The values of an array from some place on, seen as these values.
#[derive(Drop)]
pub struct Items<'a> {
    fields: Fields<'a>,
}

impl<'a> Model for Items<'a> {
    ghost use Rattle.mm_bson.specs.Tree.{Values};
    ghost use Rattle.mm_bson.specs.Code.{values_code};

    ghost Value = { Values };

    ghost coded = { values_code };

    ghost use Rattle.mm_bson.specs.Built.{IsBuilt, IsBuiltArray};
    ghost use Rattle.mm_bson.specs.Named.{unnamed};

    ghost view = { λ i. unnamed i.fields };
}

impl<'a> TextRef<'a> {
    /// The text of these bytes.
    pub fn of_utf8(bytes: &'a [u8]) -> TextRef<'a>
        requires { is_utf8 bytes.now ≡ true }
        ensures { result ≡ bytes.now }
    {
        TextRef { bytes }
    }

    /// The text as a string.
    pub fn as_str(&self) -> &'a str
        ensures { result.now ≡ self.now }
    {
        let bytes = self.as_bytes();
        unsafe { str::from_utf8_unchecked(bytes) }
    }

    /// The bytes of the text.
    pub fn as_bytes(&self) -> &'a [u8]
        ensures bytes { result.now ≡ self.now }
        ensures utf8 { is_utf8 self.now ≡ true }
    {
        self.bytes
    }
}

impl<'a> ObjectIdRef<'a> {
    /// The ObjectId of these bytes.
    pub fn of_bytes(bytes: &'a [u8]) -> ObjectIdRef<'a>
        requires { length bytes.now ≡ 12 }
        ensures { result ≡ bytes.now }
    {
        ObjectIdRef { bytes }
    }

    /// The bytes.
    pub fn as_bytes(&self) -> &'a [u8]
        ensures bytes { result.now ≡ self.now }
        ensures len { length result.now ≡ 12 }
    {
        self.bytes
    }

    /// The bytes by themselves.
    pub fn to_array(&self) -> [u8; 12]
        ensures { result ≡ self.now }
    {
        let mut id = [0; 12];
        id.copy_from_slice(self.as_bytes());
        id
    }
}

/// What stands between a document's length and its last byte.
fn body_of(bytes: &[u8]) -> &[u8]
    requires { 5 ≤ length bytes.now }
    ensures { result.now ≡ body bytes.now }
{
    let last = bytes.len() - 1;
    &bytes[4..last]
}

impl<'a> DocRef<'a> {
    /// The document of these bytes, which are known to spell one.
    pub fn of_spelled(bytes: &'a [u8]) -> DocRef<'a>
        requires { (es : Elements) × SpellsDocument bytes.now es }
        ensures spelled { bytes.now ≡ spelling result }
        ensures same { (es : Elements) → SpellsDocument bytes.now es → result ≡ es }
    {
        DocRef { bytes }
    }

    /// The document that the bytes spell, all of the bytes.
    pub fn parse(bytes: &'a [u8]) -> Result<DocRef<'a>, BsonFault>
        // What is read is spelled so.
        ensures found { IfOk result (λ d. IsDocument d × (bytes.now ≡ spelling d)) }
        // What is spelled so is read.
        ensures only { (d : Elements) → IsDocument d → bytes.now ≡ spelling d → Is (λ x. x) result (Ok d) }
        // Each fault lies in the bytes, and `TooLong` comes of the length alone.
        ensures explained { IfErr result (IsExplained bytes.now) }
        // What stands where the fault is.
        ensures shown { IfErr result (IsShown bytes.now) }
        // Which fault it is.
        ensures exact { Is (λ x. x) result (whole bytes.now) }
    {
        match check(bytes) {
            Ok(()) => Ok(DocRef::of_spelled(bytes)),
            Err(fault) => Err(fault),
        }
    }

    /// The bytes that spell the document.
    pub fn bytes(&self) -> &'a [u8]
        ensures spelled { result.now ≡ spelling self.now }
        ensures held { SpellsDocument result.now self.now }
        ensures built { IsBuilt self.now }
    {
        self.bytes
    }

    /// Each document in place can be one in memory.
    pub fn is_built(&self)
        ensures { IsBuilt self.now }
    {
        let _bytes = self.bytes();
    }

    /// The elements, in their order.
    pub fn fields(&self) -> Fields<'a>
        ensures { result ≡ self.now }
    {
        Fields {
            bytes: body_of(self.bytes),
        }
    }
}

impl<'a> ListRef<'a> {
    /// The array of these bytes, which are known to spell one.
    pub fn of_spelled(bytes: &'a [u8]) -> ListRef<'a>
        requires { (es : Elements) × SpellsArray bytes.now es }
        ensures spelled { bytes.now ≡ array_spelling result }
        ensures same { (es : Elements) → SpellsArray bytes.now es → result ≡ unnamed es }
    {
        ListRef { bytes }
    }

    /// The bytes that spell the array.
    pub fn bytes(&self) -> &'a [u8]
        ensures spelled { result.now ≡ array_spelling self.now }
        ensures held { SpellsArray result.now (named 0 self.now) }
        ensures built { IsBuiltArray self.now }
    {
        self.bytes
    }

    /// The values under their names "0", "1", .. in order.
    pub fn named(&self) -> Fields<'a>
        ensures { result ≡ named 0 self.now }
    {
        Fields {
            bytes: body_of(self.bytes),
        }
    }

    /// The values, in their order.
    pub fn items(&self) -> Items<'a>
        ensures { result ≡ self.now }
    {
        Items {
            fields: self.named(),
        }
    }
}

/// The value that lies so in the bytes.
#[inline(always)]
fn value_in<'a>(value: Raw<'a>) -> ValueRef<'a>
    requires { (t : Tree) × (piece value ≡ piece_for t) × IsHeld t }
    ensures { (t : Tree) → piece value.entry ≡ piece_for t → IsHeld t → tree_in result ≡ t }
{
    match value {
        Raw::MinKey => ValueRef::MinKey,
        Raw::Null => ValueRef::Null,
        Raw::Int32(number) => ValueRef::Int32(number),
        Raw::Int64(number) => ValueRef::Int64(number),
        Raw::String(bytes) => ValueRef::String(TextRef { bytes }),
        Raw::Document(bytes) => ValueRef::Document(DocRef { bytes }),
        Raw::Array(bytes) => ValueRef::Array(ListRef { bytes }),
        Raw::Binary { subtype, bytes } => ValueRef::Binary { subtype, bytes },
        Raw::ObjectId(bytes) => ValueRef::ObjectId(ObjectIdRef { bytes }),
        Raw::Boolean(set) => ValueRef::Boolean(set),
        Raw::Date(time) => ValueRef::Date(time),
        Raw::Timestamp { seconds, increment } => ValueRef::Timestamp { seconds, increment },
        Raw::MaxKey => ValueRef::MaxKey,
    }
}

impl<'a> Fields<'a> {
    /// The bytes that spell these elements.
    pub fn bytes(&self) -> &'a [u8]
        ensures { result.now ≡ elements_spelling self.now }
    {
        self.bytes
    }

    /// The next element.
    pub fn next(&mut self) -> Option<FieldRef<'a>>
        ensures some { IfSome result (λ f. self.old ≡ element f.name (tree_in f.value) self.new) }
        ensures none { IfNone result ((self.old ≡ no_elements) × (self.new ≡ no_elements)) }
    {
        let bytes = self.bytes;
        if bytes.is_empty() {
            return None;
        }
        let Ok((head, behind)) = cut_of(bytes, bytes.len()) else {
            unreachable!()
        };
        self.bytes = behind;
        Some(FieldRef {
            name: TextRef { bytes: head.name },
            value: value_in(head.value),
        })
    }
}

impl<'a> Items<'a> {
    /// The next value.
    pub fn next(&mut self) -> Option<ValueRef<'a>>
        ensures some { IfSome result (λ v. self.old ≡ item (tree_in v) self.new) }
        ensures none { IfNone result ((self.old ≡ no_values) × (self.new ≡ no_values)) }
    {
        match self.fields.next() {
            None => None,
            Some(field) => Some(field.value),
        }
    }
}
