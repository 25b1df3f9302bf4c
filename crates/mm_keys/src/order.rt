//! The order of keys.

ghost use Rattle.std.specs.Prelude.{◌≡◌};
ghost use Rattle.std.specs.Cmp.{IsTotalOrder};
ghost use Rattle.mm_bson.specs.Tree.{Elements};
ghost use Rattle.mm_bson.specs.View.{tree_in};
ghost use Rattle.mm_keys.specs.KeyOrder.{by_sign, first_sign, after_first, key_compare, FirstDifferenceDecides, ShorterIsLess, EqualKeysAgree};

use crate::specification::KeySpec;
use mm_bson::{Doc, DocRef, Fields, ValueRef};
use std::cmp::Ordering;

/// An order, turned round where the sign is below 0.
fn turned(sign: &ValueRef<'_>, order: Ordering) -> Ordering
    ensures { result ≡ by_sign (tree_in sign.now) order }
{
    match sign {
        ValueRef::Int32(number) if *number < 0 => order.reverse(),
        _ => order,
    }
}

/// An order by the sign of the next field of a specification.
fn by_next(signs: &mut Fields<'_>, order: Ordering) -> Ordering
    ensures turned { result ≡ first_sign signs.old order }
    ensures after { signs.new ≡ after_first signs.old }
{
    match signs.next() {
        None => order,
        Some(field) => turned(&field.value, order),
    }
}

/// The order of two keys by a specification: field by field by the order of
/// values, turned round where it has -1; a field past its end counts as one
/// with 1. A key that another one begins with is the lesser.
pub fn key_cmp(a: &Doc, b: &Doc, spec: &KeySpec) -> Ordering
    ensures { result ≡ key_compare spec.now a.now b.now }
{
    key_cmp_in_place(&a.as_ref(), &b.as_ref(), spec)
}

/// The order of two keys in place, that of `key_cmp`.
pub fn key_cmp_in_place(a: &DocRef<'_>, b: &DocRef<'_>, spec: &KeySpec) -> Ordering
    ensures { result ≡ key_compare spec.now a.now b.now }
{
    let mut left = a.fields();
    let mut right = b.fields();
    let mut signs = spec.document().as_ref().fields();
    'fields: loop {
        match (left.next(), right.next()) {
            (None, None) => return Ordering::Equal,
            (None, Some(_y)) => return Ordering::Less,
            (Some(_x), None) => return Ordering::Greater,
            (Some(x), Some(y)) => match by_next(&mut signs, x.value.cmp(&y.value)) {
                Ordering::Equal => {}
                other => return other,
            },
        }
    }
}

/// The order of keys by any specification is total: the other way round it is
/// turned round, it is transitive, and equal keys stand alike to every other.
pub fn key_order_is_total()
    ensures { (spec : Elements) → IsTotalOrder (key_compare spec) }
{}

/// The order of keys in other words: the first field whose values differ
/// decides by its sign, else the shorter key is less.
pub fn key_order_by_fields()
    ensures difference { FirstDifferenceDecides }
    ensures shorter { ShorterIsLess }
    ensures equal { EqualKeysAgree }
{}
