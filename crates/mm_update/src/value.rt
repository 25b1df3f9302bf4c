//! The values that operators make.

ghost use Rattle.std.specs.Prelude.{◌≡◌, ◌+ℤ◌, IfOk, option_map};
ghost use Rattle.mm_bson.specs.Tree.{int32, array, item, no_values, append_values};
ghost use Rattle.mm_bson.specs.View.{tree};
ghost use Rattle.mm_update.specs.Edited.{wide as wide_sum, sum as sum_of, pushed as pushed_to, value_by, inc_value, push_value, Gives};
ghost use Rattle.mm_update.specs.Drafted.{node_tree, values_at};

use crate::draft::Node;
use crate::fault::{ChangeFault, bad_change, inc_overflow, not_number};
use crate::step::{Operator, Step};
use mm_bson::{Text, Value, ValueList};
use std::alloc::{AllocError, Global};

fn wide<'a>(path: &Text, a: i64, b: i64) -> Result<Node<'a>, ChangeFault>
    ensures { Gives node_tree result (wide_sum path.now (a +ℤ b)) }
{
    match a.checked_add(b) {
        Some(number) => Ok(Node::Int64(number)),
        None => Err(inc_overflow(path)),
    }
}

/// The sum of two int32: an int64 where it leaves their range.
fn narrow<'a>(path: &Text, a: i32, b: i32) -> Result<Node<'a>, ChangeFault>
    ensures { Gives node_tree result (sum_of path.now (int32 a) (int32 b)) }
{
    match a.checked_add(b) {
        Some(number) => Ok(Node::Int32(number)),
        None => wide(path, i64::from(a), i64::from(b)),
    }
}

fn sum<'a>(path: &Text, a: &Value, b: &Value) -> Result<Node<'a>, ChangeFault>
    ensures { Gives node_tree result (sum_of path.now (tree a.now) (tree b.now)) }
{
    match (a, b) {
        (Value::Int32(x), Value::Int32(y)) => narrow(path, *x, *y),
        (Value::Int32(x), Value::Int64(y)) => wide(path, i64::from(*x), *y),
        (Value::Int64(x), Value::Int32(y)) => wide(path, *x, i64::from(*y)),
        (Value::Int64(x), Value::Int64(y)) => wide(path, *x, *y),
        _ => Err(not_number(path)),
    }
}

fn incremented<'a>(step: &'a Step, old: Option<Node<'a>>) -> Result<Node<'a>, ChangeFault>
    ensures { Gives node_tree result (inc_value step.now.path step.now.operand (option_map node_tree old.entry)) }
{
    match old {
        None => Ok(Node::Kept(step.operand())),
        Some(Node::Kept(value)) => sum(step.path(), value, step.operand()),
        Some(Node::Int32(number)) => sum(step.path(), &Value::Int32(number), step.operand()),
        Some(Node::Int64(number)) => sum(step.path(), &Value::Int64(number), step.operand()),
        Some(_) => Err(not_number(step.path())),
    }
}

/// The values of an array.
fn values_in<'a>(alloc: Global, list: &'a ValueList) -> Result<Vec<&'a Value>, AllocError>
    ensures { IfOk result (λ vs. values_at vs.items ≡ list.now) }
{
    let mut found = Vec::new(alloc);
    let values = list.values();
    for value in values {
        found.push(value)?;
    }
    Ok(found)
}

/// An array with one more value.
fn with_last<'a>(values: Vec<&'a Value>, value: &'a Value) -> Result<Node<'a>, AllocError>
    ensures { IfOk result (λ n. node_tree n ≡ array (append_values (values_at values.entry.items) (item (tree value.now) no_values))) }
{
    let mut values = values;
    values.push(value)?;
    Ok(Node::Array(values))
}

fn pushed<'a>(alloc: Global, step: &'a Step, old: Node<'a>) -> Result<Node<'a>, ChangeFault>
    ensures { Gives node_tree result (pushed_to step.now.path (node_tree old.entry) step.now.operand) }
{
    match old {
        Node::Array(values) => Ok(with_last(values, step.operand())?),
        Node::Kept(Value::Array(list)) => {
            let values = values_in(alloc, list)?;
            Ok(with_last(values, step.operand())?)
        }
        _ => Err(bad_change(step.path())),
    }
}

fn pushed_or_new<'a>(
    alloc: Global,
    step: &'a Step,
    old: Option<Node<'a>>,
) -> Result<Node<'a>, ChangeFault>
    ensures { Gives node_tree result (push_value step.now.path step.now.operand (option_map node_tree old.entry)) }
{
    match old {
        None => Ok(with_last(Vec::new(alloc), step.operand())?),
        Some(node) => pushed(alloc, step, node),
    }
}

/// What the step makes of the value at its path.
pub(crate) fn new_value<'a>(
    alloc: Global,
    step: &'a Step,
    old: Option<Node<'a>>,
) -> Result<Node<'a>, ChangeFault>
    ensures { Gives node_tree result (value_by step.now.operator step.now.path step.now.operand (option_map node_tree old.entry)) }
{
    match step.operator() {
        Operator::Inc => incremented(step, old),
        Operator::Push => pushed_or_new(alloc, step, old),
        Operator::Set | Operator::Unset => Ok(Node::Kept(step.operand())),
    }
}
