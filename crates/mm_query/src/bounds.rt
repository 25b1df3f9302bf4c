//! Between which keys those of the matching documents lie.

ghost use Rattle.std.specs.Prelude.{◌≡◌, ◌<◌, [], Option, None, IfOk, OnOk, option_map, if◌then◌else◌};
ghost use Rattle.mm_bson.specs.Tree.{tree_depth, append, no_elements, element};
ghost use Rattle.mm_bson.specs.View.{tree, elements_of};
ghost use Rattle.mm_query.specs.Bounds.{is_at as is_at_path, equal_to as equal_to_in, first_equal as first_equal_at, value_bound as value_bound_at, turned as turned_by, extreme as extreme_of, extremes, bound};

use crate::condition::has_operators;
use crate::ends::Ends;
use crate::limit::{is_at, limit_at};
use crate::memory::NoMemory;
use crate::side::Side;
use mm_bson::{Doc, Element, Text, Value};
use mm_keys::KeySpec;
use std::alloc::Global;

/// Between which keys those of the matching documents lie. Where a bound isn't
/// there, that side is open.
#[derive(Drop)]
pub struct Bounds {
    pub low: Option<Doc>,
    pub high: Option<Doc>,
}

fn equal_to(condition: &Value) -> Option<&Value>
    ensures { option_map (λ t. tree t.now) result ≡ equal_to_in (tree condition.now) }
{
    match condition {
        Value::Array(_) => None,
        Value::Document(doc) if has_operators(doc.as_ref().fields()) => None,
        _ => Some(condition),
    }
}

fn equal_at<'a>(path: &[u8], field: &'a Element) -> Option<&'a Value>
    ensures { option_map (λ t. tree t.now) result ≡ (if is_at_path path.now field.now.name then equal_to_in (tree field.now.value) else None) }
{
    if is_at(path, field.name.as_bytes()) {
        equal_to(&field.value)
    } else {
        None
    }
}

/// The value of the first equality at a path.
fn first_equal<'a>(path: &[u8], fields: &'a [Element]) -> Option<&'a Value>
    ensures { option_map (λ t. tree t.now) result ≡ first_equal_at path.now (elements_of fields.now) }
{
    for field in fields {
        if let Some(value) = equal_at(path, field) {
            return Some(value);
        }
    }
    None
}

/// The bound of the values at a path: an equality goes before a limit.
fn value_bound<'a>(
    side: Side,
    path: &[u8],
    fields: &'a [Element],
    ends: &'a Ends,
) -> Option<&'a Value>
    ensures { option_map (λ t. tree t.now) result ≡ value_bound_at side path.now (elements_of fields.now) }
{
    match first_equal(path, fields) {
        Some(value) => Some(value),
        None => limit_at(side, path, fields, ends),
    }
}

/// The side of a place's values on which they come first or last by its sign.
fn turned(sign: &Value, side: Side) -> Side
    ensures { result ≡ turned_by (tree sign.now) side }
{
    match sign {
        Value::Int32(number) if *number < 0 => side.opposite(),
        _ => side,
    }
}

fn extreme(side: Side) -> Value
    ensures value { tree result ≡ extreme_of side }
    ensures flat { tree_depth (tree result) < 100 }
{
    match side {
        Side::Low => Value::MinKey,
        Side::High => Value::MaxKey,
    }
}

/// Puts a value behind a key's others. The value is dropped where memory runs
/// out.
fn put(alloc: Global, key: &mut Doc, value: Value) -> Result<(), NoMemory>
    requires { tree_depth (tree value) < 100 }
    ensures { OnOk result (key.new ≡ append key.old (element [] (tree value) no_elements)) }
{
    let name = Text::from_str(alloc, "")?;
    if !key.fits(name.as_bytes(), &value) {
        return Err(NoMemory);
    }
    key.push(name, value)?;
    Ok(())
}

/// The key of a value and, for each further place, the first or the last one.
fn filled(alloc: Global, side: Side, value: &Value, fields: &[Element]) -> Result<Doc, NoMemory>
    requires { tree_depth (tree value.now) < 100 }
    ensures { IfOk result (λ k. k ≡ element [] (tree value.now) (extremes side (elements_of fields.now))) }
{
    let mut key = Doc::new(alloc)?;
    let first = value.copy()?;
    put(alloc, &mut key, first)?;
    for field in fields {
        let last = extreme(turned(&field.value, side));
        put(alloc, &mut key, last)?;
    }
    Ok(key)
}

/// The bound on one side.
pub(crate) fn key_bound(
    alloc: Global,
    side: Side,
    filter: &Doc,
    spec: &KeySpec,
    ends: &Ends,
) -> Result<Option<Doc>, NoMemory>
    ensures { IfOk result (λ k. k ≡ bound side filter.now spec.now) }
{
    match spec.document().elements() {
        [] => Ok(None),
        [first, others @ ..] => {
            let values = turned(&first.value, side);
            match value_bound(values, first.name.as_bytes(), filter.elements(), ends) {
                Some(value) => {
                    let key = filled(alloc, side, value, others)?;
                    Ok(Some(key))
                }
                None => Ok(None),
            }
        }
    }
}
