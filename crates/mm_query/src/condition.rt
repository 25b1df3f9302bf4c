//! What a condition asks of the value at its path.

ghost use Rattle.std.specs.Prelude.{◌≡◌, ◌↔◌, true, IsTrue, option_map};
ghost use Rattle.std.specs.declared.cmp.Ordering.TheVariants.{Equal};
ghost use Rattle.mm_bson.specs.Tree.{boolean};
ghost use Rattle.mm_bson.specs.Order.{class as class_of, compare};
ghost use Rattle.mm_bson.specs.View.{tree, tree_in};
ghost use Rattle.mm_query.specs.Form.{has_dollar as begins_with_dollar, has_operators as has_operators_in, operator_of as operator_by};
ghost use Rattle.mm_query.specs.Match.{SomeOf, Equals, is_so as is_so_by, Stands, EqualsSome, HoldsAt, HoldsBy, AllHold, MeetsAt, Meets};
ghost use Rattle.mm_query.specs.Kept.{name_of, tests_of, demand_tree, IsDemand};

use crate::kept::{Demand, Test};
use crate::operator::Operator;
use mm_bson::{Fields, Items, ValueRef};
use std::cmp::Ordering;

fn is_equal(operand: &ValueRef<'_>, value: &ValueRef<'_>) -> bool
    ensures { IsTrue result ↔ (compare (tree_in value.now) (tree_in operand.now) ≡ Equal) }
{
    value.cmp(operand) == Ordering::Equal
}

fn some_equal(operand: &ValueRef<'_>, values: Items<'_>) -> bool
    ensures { IsTrue result ↔ SomeOf (λ v. compare v (tree_in operand.now) ≡ Equal) values.entry }
{
    let mut rest = values;
    while let Some(first) = rest.next() {
        if is_equal(operand, &first) {
            return true;
        }
    }
    false
}

/// Whether a value is equal to the operand, or an array with such an element.
fn equals(operand: &ValueRef<'_>, value: &ValueRef<'_>) -> bool
    ensures { IsTrue result ↔ Equals (tree_in operand.now) (tree_in value.now) }
{
    if is_equal(operand, value) {
        return true;
    }
    match value {
        ValueRef::Array(list) => some_equal(operand, list.items()),
        _ => false,
    }
}

fn is_so(operator: Operator, order: Ordering) -> bool
    ensures { result ≡ is_so_by operator order }
{
    match (operator, order) {
        (Operator::Gt | Operator::Gte, Ordering::Greater) => true,
        (Operator::Lt | Operator::Lte, Ordering::Less) => true,
        (Operator::Gte | Operator::Lte, Ordering::Equal) => true,
        _ => false,
    }
}

fn one_stands(operator: Operator, operand: &ValueRef<'_>, value: &ValueRef<'_>) -> bool
    ensures { IsTrue result ↔ ((class_of (tree_in value.now) ≡ class_of (tree_in operand.now)) × (is_so_by operator (compare (tree_in value.now) (tree_in operand.now)) ≡ true)) }
{
    value.class() == operand.class() && is_so(operator, value.cmp(operand))
}

fn some_stands(operator: Operator, operand: &ValueRef<'_>, values: Items<'_>) -> bool
    ensures { IsTrue result ↔ SomeOf (λ v. (class_of v ≡ class_of (tree_in operand.now)) × (is_so_by operator (compare v (tree_in operand.now)) ≡ true)) values.entry }
{
    let mut rest = values;
    while let Some(first) = rest.next() {
        if one_stands(operator, operand, &first) {
            return true;
        }
    }
    false
}

/// Whether a value of the operand's class stands so to it, or is an array with
/// such an element.
fn stands(operator: Operator, operand: &ValueRef<'_>, value: &ValueRef<'_>) -> bool
    ensures { IsTrue result ↔ Stands operator (tree_in operand.now) (tree_in value.now) }
{
    if one_stands(operator, operand, value) {
        return true;
    }
    match value {
        ValueRef::Array(list) => some_stands(operator, operand, list.items()),
        _ => false,
    }
}

fn equals_one(operands: Items<'_>, value: &ValueRef<'_>) -> bool
    ensures { IsTrue result ↔ SomeOf (λ u. Equals u (tree_in value.now)) operands.entry }
{
    let mut rest = operands;
    while let Some(first) = rest.next() {
        if equals(&first, value) {
            return true;
        }
    }
    false
}

fn equals_some(operand: &ValueRef<'_>, value: &ValueRef<'_>) -> bool
    ensures { IsTrue result ↔ EqualsSome (tree_in operand.now) (tree_in value.now) }
{
    match operand {
        ValueRef::Array(list) => equals_one(list.items(), value),
        _ => false,
    }
}

fn is_there(operand: &ValueRef<'_>, found: bool) -> bool
    ensures { IsTrue result ↔ (tree_in operand.now ≡ boolean found) }
{
    match operand {
        ValueRef::Boolean(wanted) => *wanted == found,
        _ => false,
    }
}

fn holds_at(operator: Operator, operand: &ValueRef<'_>, value: &ValueRef<'_>, found: bool) -> bool
    ensures { IsTrue result ↔ HoldsAt operator (tree_in operand.now) (tree_in value.now) found }
{
    match operator {
        Operator::Ne => !equals(operand, value),
        Operator::In => equals_some(operand, value),
        Operator::Nin => !equals_some(operand, value),
        Operator::Exists => is_there(operand, found),
        Operator::Gt | Operator::Gte | Operator::Lt | Operator::Lte => {
            stands(operator, operand, value)
        }
    }
}

/// Whether an operator holds of a value, which is null where none was found.
fn one_holds(test: &Test, value: &ValueRef<'_>, found: bool) -> bool
    ensures { IsTrue result ↔ HoldsBy (operator_by (name_of test.now.operator)) (tree test.now.operand) (tree_in value.now) found }
{
    holds_at(test.operator, &test.operand.as_ref(), value, found)
}

/// Whether all operators hold of a value.
fn all_hold(tests: &[Test], value: &ValueRef<'_>, found: bool) -> bool
    ensures { IsTrue result ↔ AllHold (tests_of tests.now) (tree_in value.now) found }
{
    for test in tests {
        if !one_holds(test, value, found) {
            return false;
        }
    }
    true
}

/// Whether a document is one of operators.
pub(crate) fn has_operators(fields: Fields<'_>) -> bool
    ensures { result ≡ has_operators_in fields.entry }
{
    let mut rest = fields;
    match rest.next() {
        Some(first) => has_dollar(first.name.as_bytes()),
        None => false,
    }
}

/// Whether a name begins with a dollar sign.
pub(crate) fn has_dollar(name: &[u8]) -> bool
    ensures { result ≡ begins_with_dollar name.now }
{
    match name {
        [first, ..] => *first == b'$',
        [] => false,
    }
}

fn meets_at(demand: &Demand, value: &ValueRef<'_>, found: bool) -> bool
    requires { IsDemand demand.now }
    ensures { IsTrue result ↔ MeetsAt (demand_tree demand.now) (tree_in value.now) found }
{
    match demand {
        Demand::Equality(operand) => equals(&operand.as_ref(), value),
        Demand::Operators(tests) => all_hold(tests.as_slice(), value, found),
    }
}

/// Whether the value at a path is such as it is asked to be. A missing one
/// counts as null but for `$exists`.
pub(crate) fn meets(demand: &Demand, found: Option<ValueRef<'_>>) -> bool
    requires { IsDemand demand.now }
    ensures { IsTrue result ↔ Meets (demand_tree demand.now) (option_map tree_in found.entry) }
{
    match found {
        Some(value) => meets_at(demand, &value, true),
        None => meets_at(demand, &ValueRef::Null, false),
    }
}
