//! The order of values: by class, and then inside the class.

ghost use Rattle.std.specs.Prelude.{◌≡◌, length};
ghost use Rattle.std.specs.Cmp.{IsTotalOrder};
ghost use Rattle.std.specs.Ordering.{ordering_then, nat_cmp};
ghost use Rattle.mm_bson.specs.View.{tree, tree_in};
ghost use Rattle.mm_bson.specs.Order.{class as class_of, inside as inside_of, text_cmp, bit, compare, compare_elements, compare_values};

use crate::doc::Value;
use crate::place::{DocRef, FieldRef, ListRef, TextRef, ValueRef};
use std::cmp::Ordering;

impl<'a> ValueRef<'a> {
    /// The class of the value, a number from 0 on in the order of the classes.
    /// An int32 and an int64 have one class.
    pub fn class(&self) -> u8
        ensures { result ≡ class_of (tree_in self.now) }
    {
        match self {
            ValueRef::MinKey => 0,
            ValueRef::Null => 1,
            ValueRef::Int32(_) | ValueRef::Int64(_) => 2,
            ValueRef::String(_) => 3,
            ValueRef::Document(_) => 4,
            ValueRef::Array(_) => 5,
            ValueRef::Binary { .. } => 6,
            ValueRef::ObjectId(_) => 7,
            ValueRef::Boolean(_) => 8,
            ValueRef::Date(_) => 9,
            ValueRef::Timestamp { .. } => 10,
            ValueRef::MaxKey => 11,
        }
    }

    /// The order of this value and another one, that of `cmp`.
    pub fn cmp(&self, other: &ValueRef<'_>) -> Ordering
        ensures { result ≡ compare (tree_in self.now) (tree_in other.now) }
    {
        item_cmp(self, other)
    }
}

fn texts(a: &TextRef<'_>, b: &TextRef<'_>) -> Ordering
    ensures { result ≡ text_cmp a.now b.now }
{
    a.as_bytes().cmp(b.as_bytes())
}

fn bytes_cmp(a: &[u8], b: &[u8]) -> Ordering
    ensures { result ≡ text_cmp a.now b.now }
{
    a.cmp(b)
}

fn bit_of(set: bool) -> u8
    ensures { result ≡ bit set }
{
    if set { 1 } else { 0 }
}

fn binaries(k: u8, x: &[u8], l: u8, y: &[u8]) -> Ordering
    ensures { result ≡ ordering_then (nat_cmp (length x.now) (length y.now)) (ordering_then (nat_cmp k l) (text_cmp x.now y.now)) }
{
    match x.len().cmp(&y.len()) {
        Ordering::Equal => match k.cmp(&l) {
            Ordering::Equal => bytes_cmp(x, y),
            other => other,
        },
        other => other,
    }
}

fn timestamps(s: u32, i: u32, t: u32, j: u32) -> Ordering
    ensures { result ≡ ordering_then (nat_cmp s t) (nat_cmp i j) }
{
    match s.cmp(&t) {
        Ordering::Equal => i.cmp(&j),
        other => other,
    }
}

/// Of two values of one class.
#[cycle(order)]
fn inside(a: &ValueRef<'_>, b: &ValueRef<'_>) -> Ordering
    requires { class_of (tree_in a.now) ≡ class_of (tree_in b.now) }
    ensures { result ≡ inside_of (tree_in a.now) (tree_in b.now) }
{
    match (a, b) {
        (ValueRef::Int32(x), ValueRef::Int32(y)) => x.cmp(y),
        (ValueRef::Int32(x), ValueRef::Int64(y)) => i64::from(*x).cmp(y),
        (ValueRef::Int64(x), ValueRef::Int32(y)) => x.cmp(&i64::from(*y)),
        (ValueRef::Int64(x), ValueRef::Int64(y)) => x.cmp(y),
        (ValueRef::String(x), ValueRef::String(y)) => texts(x, y),
        (ValueRef::Document(x), ValueRef::Document(y)) => documents(x, y),
        (ValueRef::Array(x), ValueRef::Array(y)) => lists(x, y),
        (
            ValueRef::Binary {
                subtype: k,
                bytes: x,
            },
            ValueRef::Binary {
                subtype: l,
                bytes: y,
            },
        ) => binaries(*k, x, *l, y),
        (ValueRef::ObjectId(x), ValueRef::ObjectId(y)) => bytes_cmp(x.as_bytes(), y.as_bytes()),
        (ValueRef::Boolean(x), ValueRef::Boolean(y)) => bit_of(*x).cmp(&bit_of(*y)),
        (ValueRef::Date(x), ValueRef::Date(y)) => x.cmp(y),
        (
            ValueRef::Timestamp {
                seconds: s,
                increment: i,
            },
            ValueRef::Timestamp {
                seconds: t,
                increment: j,
            },
        ) => timestamps(*s, *i, *t, *j),
        (ValueRef::MinKey, ValueRef::MinKey) => Ordering::Equal,
        (ValueRef::Null, ValueRef::Null) => Ordering::Equal,
        (ValueRef::MaxKey, ValueRef::MaxKey) => Ordering::Equal,
        _ => unreachable!(),
    }
}

#[cycle(order)]
fn element_cmp(a: &FieldRef<'_>, b: &FieldRef<'_>) -> Ordering
    ensures { result ≡ ordering_then (nat_cmp (class_of (tree_in a.now.value)) (class_of (tree_in b.now.value)))
        (ordering_then (text_cmp a.now.name b.now.name) (inside_of (tree_in a.now.value) (tree_in b.now.value))) }
{
    match a.value.class().cmp(&b.value.class()) {
        Ordering::Equal => match texts(&a.name, &b.name) {
            Ordering::Equal => inside(&a.value, &b.value),
            other => other,
        },
        other => other,
    }
}

#[cycle(order)]
fn documents(a: &DocRef<'_>, b: &DocRef<'_>) -> Ordering
    ensures { result ≡ compare_elements a.now b.now }
{
    let mut left = a.fields();
    let mut right = b.fields();
    'fields: loop {
        match (left.next(), right.next()) {
            (None, None) => return Ordering::Equal,
            (None, Some(_y)) => return Ordering::Less,
            (Some(_x), None) => return Ordering::Greater,
            (Some(x), Some(y)) => match element_cmp(&x, &y) {
                Ordering::Equal => {}
                other => return other,
            },
        }
    }
}

#[cycle(order)]
fn item_cmp(a: &ValueRef<'_>, b: &ValueRef<'_>) -> Ordering
    ensures { result ≡ ordering_then (nat_cmp (class_of (tree_in a.now)) (class_of (tree_in b.now))) (inside_of (tree_in a.now) (tree_in b.now)) }
{
    match a.class().cmp(&b.class()) {
        Ordering::Equal => inside(a, b),
        other => other,
    }
}

#[cycle(order)]
fn lists(a: &ListRef<'_>, b: &ListRef<'_>) -> Ordering
    ensures { result ≡ compare_values a.now b.now }
{
    let mut left = a.items();
    let mut right = b.items();
    'items: loop {
        match (left.next(), right.next()) {
            (None, None) => return Ordering::Equal,
            (None, Some(_y)) => return Ordering::Less,
            (Some(_x), None) => return Ordering::Greater,
            (Some(x), Some(y)) => match item_cmp(&x, &y) {
                Ordering::Equal => {}
                other => return other,
            },
        }
    }
}

/// The class of a value, a number from 0 on in the order of the classes. An
/// int32 and an int64 have one class.
pub fn class(value: &Value) -> u8
    ensures { result ≡ class_of (tree value.now) }
{
    value.as_ref().class()
}

/// The order of two values: MinKey, null, numbers, string, document, array,
/// binary, ObjectId, boolean, date, timestamp, MaxKey, and inside each class
/// by value. An int32 and an int64 of one number are equal.
pub fn cmp(a: &Value, b: &Value) -> Ordering
    ensures { result ≡ compare (tree a.now) (tree b.now) }
{
    a.as_ref().cmp(&b.as_ref())
}

/// The order of values is total: the other way round it is turned round, and
/// it is transitive.
pub fn order_is_total()
    ensures { IsTotalOrder compare }
{}
