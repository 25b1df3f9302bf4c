//! What stands at a path.

ghost use Rattle.std.specs.Prelude.{◌≡◌, ◌+◌, ◌<◌, ◌==◌, drop, length, position, option_map, option_and_then, IfSome};
ghost use Rattle.mm_bson.specs.Tree.{tree_depth};
ghost use Rattle.mm_bson.specs.View.{tree, elements_of, tree_in};
ghost use Rattle.mm_bson.specs.Path.{find as find_in, members, value_at_path};

use crate::doc::{Doc, Element, Value};
use crate::place::{DocRef, Fields, ValueRef};

/// The place of the first dot.
fn dot_in(path: &[u8]) -> Option<usize>
    ensures value { result ≡ position (λ b. b == 46) path.now }
    ensures within { IfSome result (λ n. n < length path.now) }
{
    path.iter().position(|b| *b == 46)
}

/// What stands after the byte at this place.
fn after(path: &[u8], at: usize) -> &[u8]
    requires { at < length path.now }
    ensures { result.now ≡ drop (at + 1) path.now }
{
    let (_, rest) = path.split_at(at + 1);
    rest
}

fn find<'a>(elements: &'a [Element], name: &[u8]) -> Option<&'a Value>
    ensures { option_map (λ v. tree v.now) result ≡ find_in name.now (elements_of elements.now) }
{
    for element in elements {
        if element.name.as_bytes() == name {
            return Some(&element.value);
        }
    }
    None
}

/// The elements of the document of this name.
fn members_of<'a>(elements: &'a [Element], name: &[u8]) -> Option<&'a [Element]>
    ensures { option_map (λ es. elements_of es.now) result ≡ option_and_then members (find_in name.now (elements_of elements.now)) }
{
    match find(elements, name) {
        Some(Value::Document(document)) => Some(document.elements()),
        _ => None,
    }
}

impl Doc {
    /// The first value of the name.
    pub fn find(&self, name: &[u8]) -> Option<&Value>
        ensures value { option_map (λ v. tree v.now) result ≡ find_in name.now self.now }
        ensures shallow { IfSome result (λ v. tree_depth (tree v.now) < 100) }
    {
        find(self.elements(), name)
    }

    /// The value at the path, whose names are parted by dots: the first of each
    /// name. Each name but the last leads to a document, else there is none.
    pub fn get(&self, path: &str) -> Option<&Value>
        ensures value { option_map (λ v. tree v.now) result ≡ value_at_path path.now self.now }
        ensures shallow { IfSome result (λ v. tree_depth (tree v.now) < 100) }
    {
        let mut elements = self.elements();
        let mut rest = path.as_bytes();
        'steps: while let Some(n) = dot_in(rest) {
            match members_of(elements, &rest[..n]) {
                None => return None,
                Some(inner) => elements = inner,
            }
            rest = after(rest, n);
        }
        find(elements, rest)
    }
}

fn find_in_place<'a>(fields: Fields<'a>, name: &[u8]) -> Option<ValueRef<'a>>
    ensures { option_map tree_in result ≡ find_in name.now fields.entry }
{
    let mut rest = fields;
    'fields: while let Some(field) = rest.next() {
        if field.name.as_bytes() == name {
            return Some(field.value);
        }
    }
    None
}

/// The elements of the document of this name.
fn members_in_place<'a>(fields: Fields<'a>, name: &[u8]) -> Option<Fields<'a>>
    ensures { result ≡ option_and_then members (find_in name.now fields.entry) }
{
    match find_in_place(fields, name) {
        Some(ValueRef::Document(document)) => Some(document.fields()),
        _ => None,
    }
}

impl<'a> DocRef<'a> {
    /// The first value of the name.
    pub fn find(&self, name: &[u8]) -> Option<ValueRef<'a>>
        ensures value { option_map tree_in result ≡ find_in name.now self.now }
        ensures shallow { IfSome result (λ v. tree_depth (tree_in v) < 100) }
    {
        self.is_built();
        find_in_place(self.fields(), name)
    }

    /// The value at the path, whose names are parted by dots: the first of each
    /// name. Each name but the last leads to a document, else there is none.
    pub fn get(&self, path: &str) -> Option<ValueRef<'a>>
        ensures value { option_map tree_in result ≡ value_at_path path.now self.now }
        ensures shallow { IfSome result (λ v. tree_depth (tree_in v) < 100) }
    {
        self.get_bytes(path.as_bytes())
    }

    /// The same, where the path is given as bytes.
    pub fn get_bytes(&self, path: &[u8]) -> Option<ValueRef<'a>>
        ensures value { option_map tree_in result ≡ value_at_path path.now self.now }
        ensures shallow { IfSome result (λ v. tree_depth (tree_in v) < 100) }
    {
        self.is_built();
        let mut fields = self.fields();
        let mut rest = path;
        'steps: while let Some(n) = dot_in(rest) {
            match members_in_place(fields, &rest[..n]) {
                None => return None,
                Some(inner) => fields = inner,
            }
            rest = after(rest, n);
        }
        find_in_place(fields, rest)
    }
}
