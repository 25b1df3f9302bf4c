//! Making the conditions of a filter, up to the first wrong operator in reading
//! order.

ghost use Rattle.std.specs.Prelude.{◌≡◌, ◌||◌, if◌then◌else◌, true, false, Some, IfOk, OnOk};
ghost use Rattle.mm_bson.specs.Tree.{document, array, no_elements, element, append, no_values, item, append_values};
ghost use Rattle.mm_bson.specs.View.{tree, elements_of, values_of};
ghost use Rattle.mm_query.specs.Form.{wrong, operator_of as operator_by, wrong_operators, wrong_condition, are_documents as are_documents_in, has_filters as has_filters_in, is_and as is_and_name, is_or as is_or_name, has_dollar as begins_with_dollar, has_operators as has_operators_by, wrong_filter, wrong_inside, wrong_filters};
ghost use Rattle.mm_query.specs.Kept.{name_of, tests_of, demand_tree, filters_of, condition_on, conditions_of, IsDemand, IsCondition, AreConditions, Refuses, Passes};

use crate::condition::{has_dollar, has_operators};
use crate::fault::FilterFault;
use crate::kept::{Condition, Conjunction, Demand, Test};
use crate::matching::{is_and, is_or};
use crate::operator::{operator_of, suits};
use mm_bson::{Element, Text, Value};
use std::alloc::Global;

fn bad_operator(name: &Text) -> FilterFault
    ensures { Refuses result (Some name.now) }
{
    match name.copy() {
        Ok(name) => FilterFault::BadOperator { name },
        Err(_) => FilterFault::NoMemory,
    }
}

fn test_of(field: &Element) -> Result<Test, FilterFault>
    ensures name { IfOk result (λ x. name_of x.operator ≡ field.now.name) }
    ensures operand { IfOk result (λ x. tree x.operand ≡ tree field.now.value) }
    ensures form { Passes result (wrong field.now.name (tree field.now.value) (operator_by field.now.name)) }
{
    match operator_of(field.name.as_bytes()) {
        Some(operator) if suits(operator, &field.value) => {
            let operand = field.value.copy()?;
            Ok(Test { operator, operand })
        }
        _ => Err(bad_operator(&field.name)),
    }
}

/// Puts the operators of a condition behind others.
fn add_tests(tests: &mut Vec<Test>, fields: &[Element]) -> Result<(), FilterFault>
    ensures ok { OnOk result (tests_of tests.new.items ≡ append (tests_of tests.old.items) (elements_of fields.now)) }
    ensures form { Passes result (wrong_operators (elements_of fields.now)) }
{
    for field in fields {
        tests.reserve(1)?;
        let test = test_of(field)?;
        tests.push_reserved(test);
    }
    Ok(())
}

fn operators(alloc: Global, fields: &[Element]) -> Result<Demand, FilterFault>
    requires { has_operators_by (elements_of fields.now) ≡ true }
    ensures ok { IfOk result (λ x. demand_tree x ≡ document (elements_of fields.now)) }
    ensures kept { IfOk result IsDemand }
    ensures form { Passes result (wrong_operators (elements_of fields.now)) }
{
    let mut tests = Vec::new(alloc);
    add_tests(&mut tests, fields)?;
    Ok(Demand::Operators(tests))
}

/// What is asked of the value at a path.
fn demand(alloc: Global, value: &Value) -> Result<Demand, FilterFault>
    ensures ok { IfOk result (λ x. demand_tree x ≡ tree value.now) }
    ensures kept { IfOk result IsDemand }
    ensures form { Passes result (wrong_condition (tree value.now)) }
{
    match value {
        Value::Document(doc) if has_operators(doc.as_ref().fields()) => operators(
            alloc,
            doc.elements(),
        ),
        _ => Ok(Demand::Equality(value.copy()?)),
    }
}

fn are_documents(values: &[Value]) -> bool
    ensures { result ≡ are_documents_in (values_of values.now) }
{
    for value in values {
        match value {
            Value::Document(_) => {}
            _ => return false,
        }
    }
    true
}

/// Whether the operand of `$and` or `$or` is an array of documents that isn't
/// empty.
fn has_filters(operand: &Value) -> bool
    ensures { result ≡ has_filters_in (tree operand.now) }
{
    match operand {
        Value::Array(list) => match list.values() {
            [] => false,
            [_first, ..] => are_documents(list.values()),
        },
        _ => false,
    }
}

/// The filter that a value is, which is a document.
#[cycle(form)]
fn filter_in(alloc: Global, value: &Value) -> Result<Conjunction, FilterFault>
    requires { are_documents_in (item (tree value.now) no_values) ≡ true }
    ensures ok { IfOk result (λ c. document c ≡ tree value.now) }
    ensures form { Passes result (wrong_inside (tree value.now)) }
{
    match value {
        Value::Document(doc) => conjunction(alloc, doc.elements()),
        _ => unreachable!(),
    }
}

/// Puts the filters of an array behind others.
#[cycle(form)]
fn add_filters(
    alloc: Global,
    filters: &mut Vec<Conjunction>,
    values: &[Value],
) -> Result<(), FilterFault>
    requires { are_documents_in (values_of values.now) ≡ true }
    ensures ok { OnOk result (filters_of filters.new.items ≡ append_values (filters_of filters.old.items) (values_of values.now)) }
    ensures form { Passes result (wrong_filters (values_of values.now)) }
{
    'filters: for value in values {
        filters.reserve(1)?;
        let filter = filter_in(alloc, value)?;
        filters.push_reserved(filter);
    }
    Ok(())
}

/// The filters that are the operand of `$and` or `$or`.
#[cycle(form)]
fn filters(alloc: Global, field: &Element) -> Result<Vec<Conjunction>, FilterFault>
    ensures ok { IfOk result (λ fs. array (filters_of fs.items) ≡ tree field.now.value) }
    ensures form { Passes result (if has_filters_in (tree field.now.value) then wrong_inside (tree field.now.value) else Some field.now.name) }
{
    match &field.value {
        Value::Array(list) if has_filters(&field.value) => {
            let mut found = Vec::new(alloc);
            add_filters(alloc, &mut found, list.values())?;
            Ok(found)
        }
        _ => Err(bad_operator(&field.name)),
    }
}

/// What a field of a filter asks.
#[cycle(form)]
fn condition(alloc: Global, field: &Element) -> Result<Condition, FilterFault>
    ensures ok { IfOk result (λ c. condition_on c no_elements ≡ element field.now.name (tree field.now.value) no_elements) }
    ensures kept { IfOk result IsCondition }
    ensures form { Passes result (if is_and_name field.now.name || is_or_name field.now.name then (if has_filters_in (tree field.now.value) then wrong_inside (tree field.now.value) else Some field.now.name) else (if begins_with_dollar field.now.name then Some field.now.name else wrong_condition (tree field.now.value))) }
{
    let name = field.name.as_bytes();
    if is_and(name) {
        return Ok(Condition::AllOf(filters(alloc, field)?));
    }
    if is_or(name) {
        return Ok(Condition::AnyOf(filters(alloc, field)?));
    }
    if has_dollar(name) {
        return Err(bad_operator(&field.name));
    }
    let path = field.name.copy()?;
    let asked = demand(alloc, &field.value)?;
    Ok(Condition::At {
        path,
        demand: asked,
    })
}

/// Puts the conditions of a filter's fields behind others.
#[cycle(form)]
fn add_conditions(
    alloc: Global,
    conditions: &mut Vec<Condition>,
    fields: &[Element],
) -> Result<(), FilterFault>
    requires { AreConditions conditions.old.items }
    ensures ok { OnOk result (conditions_of conditions.new.items ≡ append (conditions_of conditions.old.items) (elements_of fields.now)) }
    ensures kept { OnOk result (AreConditions conditions.new.items) }
    ensures form { Passes result (wrong_filter (elements_of fields.now)) }
{
    'fields: for field in fields {
        conditions.reserve(1)?;
        let one = condition(alloc, field)?;
        conditions.push_reserved(one);
    }
    Ok(())
}

/// All that a filter's fields ask.
#[cycle(form)]
pub(crate) fn conjunction(alloc: Global, fields: &[Element]) -> Result<Conjunction, FilterFault>
    ensures ok { IfOk result (λ c. c ≡ elements_of fields.now) }
    ensures form { Passes result (wrong_filter (elements_of fields.now)) }
{
    let mut conditions = Vec::new(alloc);
    add_conditions(alloc, &mut conditions, fields)?;
    Ok(Conjunction::new(conditions))
}
