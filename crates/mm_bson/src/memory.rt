//! Documents, arrays and values in memory, made of those in place.
//!
//! The bytes are copied once. Each document and array inside shares them; it is
//! found in them by the place behind it.

ghost use Rattle.std.specs.Prelude.{◌≡◌, ◌≤◌, ◌+◌, length, IfOk, OnOk};
ghost use Rattle.mm_bson.specs.Tree.{Elements, no_elements, element, append, depth, no_values, item as item_of, append_values, values_depth};
ghost use Rattle.mm_bson.specs.Named.{unnamed};
ghost use Rattle.mm_bson.specs.Spelling.{spelling, array_spelling, value_spelling, elements_spelling};
ghost use Rattle.mm_bson.specs.View.{tree, tree_in, elements_of, values_of};
ghost use Rattle.mm_bson.specs.Walk.{EndsAt, IsPlain, SpellsDocument};

use crate::doc::{Doc, Element, Value, ValueList};
use crate::place::{DocRef, FieldRef, Fields, ListRef, ValueRef};
use crate::shared::Shared;
use crate::text::{Blob, Text};
use std::alloc::{AllocError, Global};

/// How many levels lie inside the elements.
fn levels_of(elements: &[Element]) -> usize
    ensures { result ≡ depth (elements_of elements.now) }
{
    let mut most = 0;
    for element in elements {
        most = most.max(element.value.levels());
    }
    most
}

/// How many levels lie inside the values.
fn levels_of_values(values: &[Value]) -> usize
    ensures { result ≡ values_depth (values_of values.now) }
{
    let mut most = 0;
    for value in values {
        most = most.max(value.levels());
    }
    most
}

/// A value with no document or array in it.
#[inline(always)]
fn plain(alloc: Global, value: &ValueRef<'_>) -> Result<Value, AllocError>
    requires { IsPlain (tree_in value.now) }
    ensures { IfOk result (λ v. tree v ≡ tree_in value.now) }
{
    Ok(match value {
        ValueRef::MinKey => Value::MinKey,
        ValueRef::Null => Value::Null,
        ValueRef::Int32(number) => Value::Int32(*number),
        ValueRef::Int64(number) => Value::Int64(*number),
        ValueRef::String(text) => Value::String(Text::from_slice(alloc, text.as_bytes())?),
        ValueRef::Binary { subtype, bytes } => Value::Binary {
            subtype: *subtype,
            bytes: Blob::from_slice(alloc, bytes)?,
        },
        ValueRef::ObjectId(id) => Value::ObjectId(id.to_array()),
        ValueRef::Boolean(set) => Value::Boolean(*set),
        ValueRef::Date(time) => Value::Date(*time),
        ValueRef::Timestamp { seconds, increment } => Value::Timestamp {
            seconds: *seconds,
            increment: *increment,
        },
        ValueRef::MaxKey => Value::MaxKey,
        ValueRef::Document(_) | ValueRef::Array(_) => unreachable!(),
    })
}

/// The value that ends at this place of the bytes.
#[cycle(build)]
#[inline(always)]
#[tactic(auto, unfolding(crate::specs::Spelling::spelling, crate::specs::Spelling::array_spelling))]
fn value(alloc: Global, all: &Shared, end: usize, value: &ValueRef<'_>) -> Result<Value, AllocError>
    requires { EndsAt end (value_spelling (tree_in value.now)) all.now }
    ensures { IfOk result (λ v. tree v ≡ tree_in value.now) }
{
    match value {
        ValueRef::Document(inner) => Ok(Value::Document(document(alloc, all, end, inner)?)),
        ValueRef::Array(inner) => Ok(Value::Array(list(alloc, all, end, inner)?)),
        _ => plain(alloc, value),
    }
}

/// Puts an element behind others, whose value ends at this place of the bytes.
/// The value is made where it goes to stand, since moving it is dear.
#[cycle(build)]
#[inline(never)]
fn put(
    alloc: Global,
    all: &Shared,
    end: usize,
    field: &FieldRef<'_>,
    found: &mut Vec<Element>,
) -> Result<(), AllocError>
    requires { EndsAt end (value_spelling (tree_in field.now.value)) all.now }
    ensures { OnOk result (elements_of found.new.items ≡ append (elements_of found.old.items) (element field.now.name (tree_in field.now.value) no_elements)) }
{
    found.reserve(1)?;
    let name = Text::from_slice(alloc, field.name.as_bytes())?;
    let value = value(alloc, all, end, &field.value)?;
    found.push_reserved(Element { name, value });
    Ok(())
}

/// The same for a value of an array.
#[cycle(build)]
#[inline(never)]
fn put_item(
    alloc: Global,
    all: &Shared,
    end: usize,
    item: &ValueRef<'_>,
    found: &mut Vec<Value>,
) -> Result<(), AllocError>
    requires { EndsAt end (value_spelling (tree_in item.now)) all.now }
    ensures { OnOk result (values_of found.new.items ≡ append_values (values_of found.old.items) (item_of (tree_in item.now) no_values)) }
{
    found.reserve(1)?;
    let made = value(alloc, all, end, item)?;
    found.push_reserved(made);
    Ok(())
}

#[cycle(build)]
fn elements(
    alloc: Global,
    all: &Shared,
    end: usize,
    fields: Fields<'_>,
) -> Result<Vec<Element>, AllocError>
    requires { EndsAt end (elements_spelling fields) all.now }
    ensures { IfOk result (λ es. elements_of es.items ≡ fields.entry) }
{
    let mut found = Vec::new(alloc);
    let mut rest = fields;
    'fields: while let Some(field) = rest.next() {
        let behind = end - rest.bytes().len();
        put(alloc, all, behind, &field, &mut found)?;
    }
    Ok(found)
}

#[cycle(build)]
fn values(
    alloc: Global,
    all: &Shared,
    end: usize,
    fields: Fields<'_>,
) -> Result<Vec<Value>, AllocError>
    requires { EndsAt end (elements_spelling fields) all.now }
    ensures { IfOk result (λ vs. values_of vs.items ≡ unnamed fields.entry) }
{
    let mut found = Vec::new(alloc);
    let mut rest = fields;
    'fields: while let Some(field) = rest.next() {
        let behind = end - rest.bytes().len();
        put_item(alloc, all, behind, &field.value, &mut found)?;
    }
    Ok(found)
}

/// The document that ends at this place of the bytes.
#[cycle(build)]
fn document(
    alloc: Global,
    all: &Shared,
    end: usize,
    document: &DocRef<'_>,
) -> Result<Doc, AllocError>
    requires { EndsAt end (spelling document.now) all.now }
    ensures { IfOk result (λ d. d ≡ document.now) }
{
    let len = document.bytes().len();
    let bytes = all.part(end - len, len)?;
    let found = elements(alloc, all, end - 1, document.fields())?;
    let inner_levels = levels_of(found.as_slice());
    Ok(Doc::of_parts(bytes, found, inner_levels))
}

/// The array that ends at this place of the bytes.
#[cycle(build)]
fn list(
    alloc: Global,
    all: &Shared,
    end: usize,
    list: &ListRef<'_>,
) -> Result<ValueList, AllocError>
    requires { EndsAt end (array_spelling list.now) all.now }
    ensures { IfOk result (λ l. l ≡ list.now) }
{
    let len = list.bytes().len();
    let bytes = all.part(end - len, len)?;
    let found = values(alloc, all, end - 1, list.named())?;
    let inner_levels = levels_of_values(found.as_slice());
    Ok(ValueList::of_parts(bytes, found, inner_levels))
}

impl Doc {
    /// The document of these bytes, which are known to spell one. They are read
    /// once and not copied.
    #[inline(always)]
    pub fn of_spelled(bytes: Vec<u8>) -> Result<Doc, AllocError>
        requires { (es : Elements) × SpellsDocument bytes.items es }
        ensures { IfOk result (λ d. (es : Elements) → SpellsDocument bytes.items es → d ≡ es) }
    {
        let alloc = *bytes.allocator();
        let end = bytes.len();
        let all = Shared::of_vec(bytes)?;
        document(alloc, &all, end, &DocRef::of_spelled(all.as_slice()))
    }

    /// A document in memory that is the one in place.
    #[inline(always)]
    pub fn copy_of(alloc: Global, document: &DocRef<'_>) -> Result<Doc, AllocError>
        ensures { IfOk result (λ d. d ≡ document.now) }
    {
        Doc::of_spelled(Vec::from_slice(alloc, document.bytes())?)
    }

    /// The document again.
    pub fn copy(&self) -> Result<Doc, AllocError>
        ensures { IfOk result (λ d. d ≡ self.now) }
    {
        Doc::copy_of(self.allocator(), &self.as_ref())
    }
}

impl ValueList {
    /// An array in memory that is the one in place.
    pub fn copy_of(alloc: Global, list: &ListRef<'_>) -> Result<ValueList, AllocError>
        ensures { IfOk result (λ l. l ≡ list.now) }
    {
        let bytes = list.bytes();
        let all = Shared::of_vec(Vec::from_slice(alloc, bytes)?)?;
        self::list(alloc, &all, bytes.len(), list)
    }

    /// The array again.
    pub fn copy(&self) -> Result<ValueList, AllocError>
        ensures { IfOk result (λ l. l ≡ self.now) }
    {
        ValueList::copy_of(self.allocator(), &self.as_ref())
    }
}

impl Value {
    /// A value in memory that is the one in place.
    pub fn copy_of(alloc: Global, value: &ValueRef<'_>) -> Result<Value, AllocError>
        ensures { IfOk result (λ v. tree v ≡ tree_in value.now) }
    {
        match value {
            ValueRef::Document(inner) => Ok(Value::Document(Doc::copy_of(alloc, inner)?)),
            ValueRef::Array(inner) => Ok(Value::Array(ValueList::copy_of(alloc, inner)?)),
            _ => plain(alloc, value),
        }
    }
}

impl Value {
    /// The value again.
    pub fn copy(&self) -> Result<Value, AllocError>
        ensures { IfOk result (λ v. tree v ≡ tree self.now) }
    {
        Ok(match self {
            Value::MinKey => Value::MinKey,
            Value::Null => Value::Null,
            Value::Int32(number) => Value::Int32(*number),
            Value::Int64(number) => Value::Int64(*number),
            Value::String(text) => Value::String(text.copy()?),
            Value::Document(document) => Value::Document(document.copy()?),
            Value::Array(list) => Value::Array(list.copy()?),
            Value::Binary { subtype, bytes } => Value::Binary {
                subtype: *subtype,
                bytes: bytes.copy()?,
            },
            Value::ObjectId(id) => Value::ObjectId(*id),
            Value::Boolean(set) => Value::Boolean(*set),
            Value::Date(time) => Value::Date(*time),
            Value::Timestamp { seconds, increment } => Value::Timestamp {
                seconds: *seconds,
                increment: *increment,
            },
            Value::MaxKey => Value::MaxKey,
        })
    }
}
