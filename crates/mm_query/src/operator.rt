//! The operators of conditions.

ghost use Rattle.std.specs.Prelude.{◌≡◌};
ghost use Rattle.mm_query.specs.Form.{order_operator as order_operator_by, other_operator as other_operator_by, operator_of as operator_by, suits as suits_by};
ghost use Rattle.mm_bson.specs.View.{tree};

use mm_bson::Value;

/// What a condition asks of a value.
#[derive(Clone, Copy)]
pub(crate) enum Operator {
    Gt,
    Gte,
    Lt,
    Lte,
    Ne,
    In,
    Nin,
    Exists,
}

fn order_operator(name: &[u8]) -> Option<Operator>
    ensures { result ≡ order_operator_by name.now }
{
    if name == b"$gt".as_slice() {
        Some(Operator::Gt)
    } else if name == b"$gte".as_slice() {
        Some(Operator::Gte)
    } else if name == b"$lt".as_slice() {
        Some(Operator::Lt)
    } else if name == b"$lte".as_slice() {
        Some(Operator::Lte)
    } else {
        None
    }
}

fn other_operator(name: &[u8]) -> Option<Operator>
    ensures { result ≡ other_operator_by name.now }
{
    if name == b"$ne".as_slice() {
        Some(Operator::Ne)
    } else if name == b"$in".as_slice() {
        Some(Operator::In)
    } else if name == b"$nin".as_slice() {
        Some(Operator::Nin)
    } else if name == b"$exists".as_slice() {
        Some(Operator::Exists)
    } else {
        None
    }
}

/// The operator of a name.
pub(crate) fn operator_of(name: &[u8]) -> Option<Operator>
    ensures { result ≡ operator_by name.now }
{
    match order_operator(name) {
        Some(operator) => Some(operator),
        None => other_operator(name),
    }
}

/// Whether an operand is one for its operator.
pub(crate) fn suits(operator: Operator, operand: &Value) -> bool
    ensures { result ≡ suits_by operator (tree operand.now) }
{
    match (operator, operand) {
        (Operator::In | Operator::Nin, Value::Array(_)) => true,
        (Operator::In | Operator::Nin, _) => false,
        (Operator::Exists, Value::Boolean(_)) => true,
        (Operator::Exists, _) => false,
        _ => true,
    }
}
