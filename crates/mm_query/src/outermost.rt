//! The least and the greatest of several values, and the tighter of two limits.

ghost use Rattle.std.specs.Prelude.{◌≡◌, option_map};
ghost use Rattle.mm_bson.specs.View.{tree, values_of};
ghost use Rattle.mm_query.specs.Bounds.{from_side as from_side_by, outer as outer_by, outer_of as outer_of_two, outermost as outermost_among, unless_array as unless_array_of, tighter as tighter_of};

use crate::side::Side;
use mm_bson::{Value, cmp};
use std::cmp::Ordering;

/// How two values stand, seen from a side: from High the greater comes first.
fn from_side(side: Side, value: &Value, other: &Value) -> Ordering
    ensures { result ≡ from_side_by side (tree value.now) (tree other.now) }
{
    match side {
        Side::Low => cmp(value, other),
        Side::High => cmp(other, value),
    }
}

fn outer<'a>(side: Side, value: &'a Value, other: &'a Value) -> &'a Value
    ensures { tree result.now ≡ outer_by side (tree value.now) (tree other.now) }
{
    match from_side(side, value, other) {
        Ordering::Greater => other,
        _ => value,
    }
}

/// Of two values the one that comes first from a side.
fn outer_of<'a>(side: Side, value: Option<&'a Value>, other: Option<&'a Value>) -> Option<&'a Value>
    ensures { option_map (λ t. tree t.now) result ≡ outer_of_two side (option_map (λ t. tree t.now) value.entry) (option_map (λ t. tree t.now) other.entry) }
{
    match (value, other) {
        (None, _) => other,
        (_, None) => value,
        (Some(first), Some(second)) => Some(outer(side, first, second)),
    }
}

/// Of two limits from a side the one that leaves less.
pub(crate) fn tighter<'a>(
    side: Side,
    best: Option<&'a Value>,
    more: Option<&'a Value>,
) -> Option<&'a Value>
    ensures { option_map (λ t. tree t.now) result ≡ tighter_of side (option_map (λ t. tree t.now) best.entry) (option_map (λ t. tree t.now) more.entry) }
{
    outer_of(side.opposite(), best, more)
}

fn unless_array(value: &Value) -> Option<&Value>
    ensures { option_map (λ t. tree t.now) result ≡ unless_array_of (tree value.now) }
{
    match value {
        Value::Array(_) => None,
        _ => Some(value),
    }
}

/// The least of the values that are no arrays, or from High the greatest; of
/// equal ones the first.
pub(crate) fn outermost(side: Side, values: &[Value]) -> Option<&Value>
    ensures { option_map (λ t. tree t.now) result ≡ outermost_among side (values_of values.now) }
{
    let mut end = None;
    for value in values {
        end = outer_of(side, end, unless_array(value));
    }
    end
}
