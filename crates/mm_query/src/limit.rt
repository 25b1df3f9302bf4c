//! Between which values of a key a filter's conditions on a path hold it.

ghost use Rattle.std.specs.Prelude.{◌≡◌, None, option_map, if◌then◌else◌};
ghost use Rattle.mm_bson.specs.View.{tree, elements_of, values_of};
ghost use Rattle.mm_query.specs.Form.{operator_of as operator_by, is_and as is_and_name};
ghost use Rattle.mm_query.specs.Bounds.{is_at as is_at_path, nothing as nothing_from, range_limit as range_limit_from, weak_limit as weak_limit_from, strict_limit as strict_limit_from, in_limit as in_limit_of, exists_limit as exists_limit_of, limit_by, limit_among as limit_among_in, limit_in as limit_in_condition, limit_at as limit_at_path, limit_inside as limit_inside_of, limit_each as limit_each_of};

use crate::condition::has_operators;
use crate::ends::Ends;
use crate::matching::{is_and, is_or};
use crate::operator::{Operator, operator_of};
use crate::outermost::{outermost, tighter};
use crate::side::Side;
use mm_bson::{Element, Value, cmp};
use std::cmp::Ordering;

/// The limits between which nothing lies.
fn nothing(side: Side, ends: &Ends) -> &Value
    ensures { tree result.now ≡ nothing_from side }
{
    ends.extreme(side.opposite())
}

/// Of values of the operand's class that aren't before it, seen from a side.
fn range_limit<'a>(from: Side, side: Side, operand: &'a Value, ends: &'a Ends) -> &'a Value
    ensures { tree result.now ≡ range_limit_from from side (tree operand.now) }
{
    match (from, side) {
        (Side::Low, Side::Low) | (Side::High, Side::High) => operand,
        _ => ends.end(side, operand),
    }
}

/// The same of a key's values, which are no arrays.
fn weak_limit<'a>(from: Side, side: Side, operand: &'a Value, ends: &'a Ends) -> &'a Value
    ensures { tree result.now ≡ weak_limit_from from side (tree operand.now) }
{
    match operand {
        Value::Array(_) => nothing(side, ends),
        _ => range_limit(from, side, operand, ends),
    }
}

/// The same of those that are behind the operand.
fn strict_limit<'a>(from: Side, side: Side, operand: &'a Value, ends: &'a Ends) -> &'a Value
    ensures { tree result.now ≡ strict_limit_from from side (tree operand.now) }
{
    if cmp(operand, ends.end(from.opposite(), operand)) == Ordering::Equal {
        nothing(side, ends)
    } else {
        weak_limit(from, side, operand, ends)
    }
}

fn in_limit<'a>(side: Side, operand: &'a Value, ends: &'a Ends) -> Option<&'a Value>
    ensures { option_map (λ t. tree t.now) result ≡ in_limit_of side (tree operand.now) }
{
    match operand {
        Value::Array(list) => match outermost(side, list.values()) {
            Some(value) => Some(value),
            None => Some(nothing(side, ends)),
        },
        _ => None,
    }
}

fn exists_limit<'a>(operand: &Value, ends: &'a Ends) -> Option<&'a Value>
    ensures { option_map (λ t. tree t.now) result ≡ exists_limit_of (tree operand.now) }
{
    match operand {
        Value::Boolean(false) => Some(ends.missing()),
        _ => None,
    }
}

fn limit_of<'a>(side: Side, field: &'a Element, ends: &'a Ends) -> Option<&'a Value>
    ensures { option_map (λ t. tree t.now) result ≡ limit_by side (operator_by field.now.name) (tree field.now.value) }
{
    let operand = &field.value;
    match operator_of(field.name.as_bytes()) {
        Some(Operator::Gt) => Some(strict_limit(Side::Low, side, operand, ends)),
        Some(Operator::Gte) => Some(weak_limit(Side::Low, side, operand, ends)),
        Some(Operator::Lt) => Some(strict_limit(Side::High, side, operand, ends)),
        Some(Operator::Lte) => Some(weak_limit(Side::High, side, operand, ends)),
        Some(Operator::In) => in_limit(side, operand, ends),
        Some(Operator::Exists) => exists_limit(operand, ends),
        _ => None,
    }
}

/// The tightest of those that operators give.
fn limit_among<'a>(side: Side, operators: &'a [Element], ends: &'a Ends) -> Option<&'a Value>
    ensures { option_map (λ t. tree t.now) result ≡ limit_among_in side (elements_of operators.now) }
{
    let mut best = None;
    for operator in operators {
        best = tighter(side, best, limit_of(side, operator, ends));
    }
    best
}

fn limit_in<'a>(side: Side, condition: &'a Value, ends: &'a Ends) -> Option<&'a Value>
    ensures { option_map (λ t. tree t.now) result ≡ limit_in_condition side (tree condition.now) }
{
    match condition {
        Value::Document(doc) if has_operators(doc.as_ref().fields()) => {
            limit_among(side, doc.elements(), ends)
        }
        Value::Array(_) => Some(nothing(side, ends)),
        _ => Some(condition),
    }
}

/// Whether a field's condition is on the path.
pub(crate) fn is_at(path: &[u8], name: &[u8]) -> bool
    ensures { result ≡ is_at_path path.now name.now }
{
    if is_and(name) || is_or(name) {
        return false;
    }
    name == path
}

#[cycle(limit)]
fn field_limit<'a>(side: Side, path: &[u8], field: &'a Element, ends: &'a Ends) -> Option<&'a Value>
    ensures { option_map (λ t. tree t.now) result ≡ (if is_and_name field.now.name then limit_inside_of side path.now (tree field.now.value) else (if is_at_path path.now field.now.name then limit_in_condition side (tree field.now.value) else None)) }
{
    let name = field.name.as_bytes();
    if is_and(name) {
        limit_inside(side, path, &field.value, ends)
    } else if is_at(path, name) {
        limit_in(side, &field.value, ends)
    } else {
        None
    }
}

/// The tightest limit that a filter's fields give to the value at a path.
#[cycle(limit)]
pub(crate) fn limit_at<'a>(
    side: Side,
    path: &[u8],
    fields: &'a [Element],
    ends: &'a Ends,
) -> Option<&'a Value>
    ensures { option_map (λ t. tree t.now) result ≡ limit_at_path side path.now (elements_of fields.now) }
{
    let mut best = None;
    'fields: for field in fields {
        best = tighter(side, best, field_limit(side, path, field, ends));
    }
    best
}

#[cycle(limit)]
fn limit_inside<'a>(side: Side, path: &[u8], value: &'a Value, ends: &'a Ends) -> Option<&'a Value>
    ensures { option_map (λ t. tree t.now) result ≡ limit_inside_of side path.now (tree value.now) }
{
    match value {
        Value::Document(filter) => limit_at(side, path, filter.elements(), ends),
        Value::Array(list) => limit_each(side, path, list.values(), ends),
        _ => None,
    }
}

#[cycle(limit)]
fn limit_each<'a>(side: Side, path: &[u8], values: &'a [Value], ends: &'a Ends) -> Option<&'a Value>
    ensures { option_map (λ t. tree t.now) result ≡ limit_each_of side path.now (values_of values.now) }
{
    let mut best = None;
    'each: for value in values {
        best = tighter(side, best, limit_inside(side, path, value, ends));
    }
    best
}
