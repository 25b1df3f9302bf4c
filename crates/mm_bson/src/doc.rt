//! Documents, arrays and values in memory.

ghost use Rattle.std.specs.Prelude.{◌≡◌, ◌<◌, ◌≤◌, ◌+◌, ◌^◌, length, Ok, IsTrue, ◌↔◌, IfOk, IfErr, OnOk, OnErr};
ghost use Rattle.std.specs.Fmt.{decimal};
ghost use Rattle.mm_bson.specs.Tree.{Elements, tree_depth, depth, values_depth, no_elements, element, append, no_values, item, append_values, count};
ghost use Rattle.mm_bson.specs.Spelling.{IsDocument, spelling, array_spelling, element_len, HasNoZero};
ghost use Rattle.mm_bson.specs.Reading.{Gives, whole};
ghost use Rattle.mm_bson.specs.Faults.{IsExplained, IsShown};
ghost use Rattle.mm_bson.specs.Built.{IsBuilt, IsBuiltArray, HoldsDocument, HoldsArray};

use crate::fault::BsonFault;
use crate::place::{DocRef, ListRef, ObjectIdRef, ValueRef};
use crate::shared::Shared;
use crate::text::{Blob, Text};
use itoa::Buffer;
use std::alloc::{AllocError, Global};
use std::marker::Model;

/// A document and an array have fewer bytes, so that the length fits its i32.
const LENGTH_LIMIT: usize = 0x8000_0000;

/// The bytes of the empty document and of the empty array.
const EMPTY: [u8; 5] = [5, 0, 0, 0, 0];

/// A document, seen as its elements in their order. It holds the bytes that
/// spell them, has at most 100 levels and is shorter than 2^31 bytes.
#[cycle(doc)]
#[derive(Drop)]
pub struct Doc {
    bytes: Shared,
    elements: Vec<Element>,
    inner_levels: usize,
}

/// A name and its value. Names may repeat.
#[cycle(doc)]
#[derive(Drop)]
pub struct Element {
    pub name: Text,
    pub value: Value,
}

/// A value of one of the types of BSON. A `Date` is in milliseconds.
#[cycle(doc)]
#[derive(Drop)]
pub enum Value {
    MinKey,
    Null,
    Int32(i32),
    Int64(i64),
    String(Text),
    Document(Doc),
    Array(ValueList),
    Binary { subtype: u8, bytes: Blob },
    ObjectId([u8; 12]),
    Boolean(bool),
    Date(i64),
    Timestamp { seconds: u32, increment: u32 },
    MaxKey,
}

/// An array, seen as its values. It holds the bytes that spell it, which are
/// those of a document named "0", "1", .. in order.
#[cycle(doc)]
#[derive(Drop)]
pub struct ValueList {
    bytes: Shared,
    values: Vec<Value>,
    inner_levels: usize,
}

impl Model for Doc {
    ghost use Rattle.mm_bson.specs.Tree.{Elements, depth};
    ghost use Rattle.mm_bson.specs.Code.{elements_code};

    ghost Value = { Elements };

    ghost coded = { elements_code };

    ghost use Rattle.mm_bson.specs.Built.{HoldsDocument};
    ghost use Rattle.mm_bson.specs.View.{elements_of};

    ghost view = { λ d. elements_of d.elements.items };

    ghost invariant = { λ d. HoldsDocument d.bytes d.inner_levels (elements_of d.elements.items) };

    ghost size = { depth };

    ghost use Rattle.std.proofs.Common.{arith};
    ghost use Rattle.mm_bson.specs.Falls.{elements_fall};

    ghost size_decreases = { λ d h. omega (arith, elements_fall d.elements.items) };
}

impl Model for ValueList {
    ghost use Rattle.mm_bson.specs.Tree.{Values, values_depth};
    ghost use Rattle.mm_bson.specs.Code.{values_code};

    ghost Value = { Values };

    ghost coded = { values_code };

    ghost use Rattle.mm_bson.specs.Built.{HoldsArray};
    ghost use Rattle.mm_bson.specs.View.{values_of};

    ghost view = { λ l. values_of l.values.items };

    ghost invariant = { λ l. HoldsArray l.bytes l.inner_levels (values_of l.values.items) };

    ghost size = { values_depth };

    ghost use Rattle.std.proofs.Common.{arith};
    ghost use Rattle.mm_bson.specs.Falls.{values_fall};

    ghost size_decreases = { λ l h. omega (arith, values_fall l.values.items) };
}

impl Doc {
    ghost use Rattle.mm_bson.specs.View.{tree, elements_of};

    /// The empty document.
    pub fn new(alloc: Global) -> Result<Doc, AllocError>
        ensures { IfOk result (λ d. d ≡ no_elements) }
    {
        let bytes = Shared::of_vec(Vec::from_slice(alloc, &EMPTY)?)?;
        Ok(Doc::of_parts(bytes, Vec::new(alloc), 0))
    }

    /// The document that the bytes spell, all of the bytes.
    ///
    /// # Errors
    /// The first fault in reading order: `BadLength` where a length doesn't
    /// agree or the bytes end, `BadType` for a byte that is no type or no
    /// boolean, `BadUtf8`, `BadName` for a name that isn't due in its array,
    /// `TooDeep` above 100 levels, `TooLong` above 16,777,216 bytes.
    pub fn parse(alloc: Global, bytes: &[u8]) -> Result<Doc, BsonFault>
        // What is read is spelled so.
        ensures found { IfOk result (λ d. IsDocument d × (bytes.now ≡ spelling d)) }
        // What is spelled so is read, unless memory runs out.
        ensures only { (d : Elements) → IsDocument d → bytes.now ≡ spelling d → Gives (λ x. x) result (Ok d) }
        // Each fault lies in the bytes, and `TooLong` comes of the length alone.
        ensures explained { IfErr result (IsExplained bytes.now) }
        // What stands where the fault is.
        ensures shown { IfErr result (IsShown bytes.now) }
        // Which fault it is.
        ensures exact { Gives (λ x. x) result (whole bytes.now) }
    {
        match DocRef::parse(bytes) {
            Ok(document) => Ok(Doc::copy_of(alloc, &document)?),
            Err(fault) => Err(fault),
        }
    }

    /// Whether there is room for an element: the length stays below 2^31.
    pub fn fits(&self, name: &[u8], value: &Value) -> bool
        ensures { IsTrue result ↔ (length (spelling self.now) + element_len name.now (tree value.now) < 2 ^ 31) }
    {
        let room = LENGTH_LIMIT - self.bytes().len();
        let len = value.spelled_len();
        name.len() < room && len < room && name.len() + 2 + len < room
    }

    /// Puts an element behind the others. The name and the value are dropped
    /// where memory runs out.
    pub fn push(&mut self, name: Text, value: Value) -> Result<(), AllocError>
        requires name { HasNoZero name }
        requires levels { tree_depth (tree value) < 100 }
        requires fits { length (spelling self.old) + element_len name (tree value) < 2 ^ 31 }
        ensures ok { OnOk result (self.new ≡ append self.old (element name (tree value) no_elements)) }
        ensures err { OnErr result (self.new ≡ self.old) }
    {
        self.elements.reserve(1)?;
        self.bytes.put(name.as_bytes(), &value.as_ref())?;
        self.inner_levels = self.inner_levels.max(value.levels());
        self.elements.push_reserved(Element { name, value });
        Ok(())
    }

    pub(crate) fn of_parts(bytes: Shared, elements: Vec<Element>, inner_levels: usize) -> Doc
        requires { HoldsDocument bytes inner_levels (elements_of elements.items) }
        ensures { result ≡ elements_of elements.items }
    {
        Doc {
            bytes,
            elements,
            inner_levels,
        }
    }

    /// The elements, in their order.
    pub fn elements(&self) -> &[Element]
        ensures elements { elements_of result.now ≡ self.now }
        ensures built { IsBuilt self.now }
    {
        self.elements.as_slice()
    }

    /// The bytes that spell the document.
    pub fn bytes(&self) -> &[u8]
        ensures spelled { result.now ≡ spelling self.now }
        ensures built { IsBuilt self.now }
    {
        self.bytes.as_slice()
    }

    /// The document in place.
    pub fn as_ref(&self) -> DocRef<'_>
        ensures { result ≡ self.now }
    {
        DocRef::of_spelled(self.bytes())
    }

    pub(crate) fn allocator(&self) -> Global {
        *self.elements.allocator()
    }

    pub(crate) fn inner_levels(&self) -> usize
        ensures { result ≡ depth self.now }
    {
        self.inner_levels
    }

    /// How many levels the document has, itself being the first: 1 to 100.
    pub fn levels(&self) -> usize
        ensures levels { result ≡ depth self.now + 1 }
        ensures most { result ≤ 100 }
    {
        self.inner_levels + 1
    }
}

impl ValueList {
    ghost use Rattle.mm_bson.specs.View.{tree, values_of};

    /// The empty array.
    pub fn new(alloc: Global) -> Result<ValueList, AllocError>
        ensures { IfOk result (λ l. l ≡ no_values) }
    {
        let bytes = Shared::of_vec(Vec::from_slice(alloc, &EMPTY)?)?;
        Ok(ValueList::of_parts(bytes, Vec::new(alloc), 0))
    }

    /// Whether there is room for a value: the length stays below 2^31.
    pub fn fits(&self, value: &Value) -> bool
        ensures { IsTrue result ↔ (length (array_spelling self.now) + element_len (decimal (count self.now)) (tree value.now) < 2 ^ 31) }
    {
        let mut digits = Buffer::new();
        let name = digits.format(self.values.len()).as_bytes();
        let room = LENGTH_LIMIT - self.bytes().len();
        let len = value.spelled_len();
        len < room && name.len() + 2 + len < room
    }

    /// Puts a value behind the others. It is dropped where memory runs out.
    pub fn push(&mut self, value: Value) -> Result<(), AllocError>
        requires levels { tree_depth (tree value) < 100 }
        requires fits { length (array_spelling self.old) + element_len (decimal (count self.old)) (tree value) < 2 ^ 31 }
        ensures ok { OnOk result (self.new ≡ append_values self.old (item (tree value) no_values)) }
        ensures err { OnErr result (self.new ≡ self.old) }
    {
        let mut digits = Buffer::new();
        let name = digits.format(self.values.len()).as_bytes();
        self.values.reserve(1)?;
        self.bytes.put(name, &value.as_ref())?;
        self.inner_levels = self.inner_levels.max(value.levels());
        self.values.push_reserved(value);
        Ok(())
    }

    pub(crate) fn of_parts(bytes: Shared, values: Vec<Value>, inner_levels: usize) -> ValueList
        requires { HoldsArray bytes inner_levels (values_of values.items) }
        ensures { result ≡ values_of values.items }
    {
        ValueList {
            bytes,
            values,
            inner_levels,
        }
    }

    /// The values, in their order.
    pub fn values(&self) -> &[Value]
        ensures values { values_of result.now ≡ self.now }
        ensures built { IsBuiltArray self.now }
    {
        self.values.as_slice()
    }

    /// The bytes that spell the array.
    pub fn bytes(&self) -> &[u8]
        ensures spelled { result.now ≡ array_spelling self.now }
        ensures built { IsBuiltArray self.now }
    {
        self.bytes.as_slice()
    }

    /// The array in place.
    pub fn as_ref(&self) -> ListRef<'_>
        ensures { result ≡ self.now }
    {
        ListRef::of_spelled(self.bytes())
    }

    pub(crate) fn allocator(&self) -> Global {
        *self.values.allocator()
    }

    pub(crate) fn inner_levels(&self) -> usize
        ensures { result ≡ values_depth self.now }
    {
        self.inner_levels
    }

    /// How many levels the array has, itself being the first: 1 to 100.
    pub fn levels(&self) -> usize
        ensures levels { result ≡ values_depth self.now + 1 }
        ensures most { result ≤ 100 }
    {
        self.inner_levels + 1
    }
}

impl Value {
    ghost use Rattle.mm_bson.specs.View.{tree, tree_in};

    /// The value in place.
    pub fn as_ref(&self) -> ValueRef<'_>
        ensures { tree_in result ≡ tree self.now }
    {
        match self {
            Value::MinKey => ValueRef::MinKey,
            Value::Null => ValueRef::Null,
            Value::Int32(number) => ValueRef::Int32(*number),
            Value::Int64(number) => ValueRef::Int64(*number),
            Value::String(text) => ValueRef::String(text.as_ref()),
            Value::Document(document) => ValueRef::Document(document.as_ref()),
            Value::Array(list) => ValueRef::Array(list.as_ref()),
            Value::Binary { subtype, bytes } => ValueRef::Binary {
                subtype: *subtype,
                bytes: bytes.as_bytes(),
            },
            Value::ObjectId(id) => ValueRef::ObjectId(ObjectIdRef::of_bytes(id)),
            Value::Boolean(set) => ValueRef::Boolean(*set),
            Value::Date(time) => ValueRef::Date(*time),
            Value::Timestamp { seconds, increment } => ValueRef::Timestamp {
                seconds: *seconds,
                increment: *increment,
            },
            Value::MaxKey => ValueRef::MaxKey,
        }
    }

    /// How many levels of documents and arrays the value has.
    pub fn levels(&self) -> usize
        ensures levels { result ≡ tree_depth (tree self.now) }
        ensures most { result ≤ 100 }
    {
        match self {
            Value::Document(document) => document.levels(),
            Value::Array(list) => list.levels(),
            _ => 0,
        }
    }
}
