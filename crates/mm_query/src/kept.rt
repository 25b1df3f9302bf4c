//! The conditions of a filter, as they are kept for matching.

use crate::operator::Operator;
use mm_bson::{Text, Value};
use std::marker::Model;

/// Conditions that must all hold, seen as the filter that they were made of.
#[cycle(kept)]
#[derive(Drop)]
pub(crate) struct Conjunction {
    conditions: Vec<Condition>,
}

/// What one field of a filter asks: of the value at a path, or that all of
/// several filters match, or any of them.
#[cycle(kept)]
#[derive(Drop)]
pub(crate) enum Condition {
    At { path: Text, demand: Demand },
    AllOf(Vec<Conjunction>),
    AnyOf(Vec<Conjunction>),
}

/// What is asked of a value: to be equal to this one, or that all operators
/// hold of it.
#[derive(Drop)]
pub(crate) enum Demand {
    Equality(Value),
    Operators(Vec<Test>),
}

/// An operator and its operand.
#[derive(Drop)]
pub(crate) struct Test {
    pub(crate) operator: Operator,
    pub(crate) operand: Value,
}

impl Model for Conjunction {
    ghost use Rattle.mm_bson.specs.Tree.{Elements, depth};
    ghost use Rattle.mm_bson.specs.Code.{elements_code};

    ghost Value = { Elements };

    ghost coded = { elements_code };

    ghost use Rattle.mm_query.specs.Kept.{conditions_of, AreConditions};

    ghost view = { λ c. conditions_of c.conditions.items };

    ghost invariant = { λ c. AreConditions c.conditions.items };

    ghost size = { depth };

    ghost use Rattle.std.proofs.Common.{arith};
    ghost use Rattle.mm_query.specs.KeptFalls.{conditions_fall};

    ghost size_decreases = { λ c h. omega (arith, conditions_fall c.conditions.items) };
}

impl Conjunction {
    ghost use Rattle.std.specs.Prelude.{◌≡◌};
    ghost use Rattle.mm_query.specs.Kept.{conditions_of, AreConditions};

    /// These conditions.
    pub(crate) fn new(conditions: Vec<Condition>) -> Conjunction
        requires { AreConditions conditions.items }
        ensures { result ≡ conditions_of conditions.items }
    {
        Conjunction { conditions }
    }

    /// The conditions, in their order.
    pub(crate) fn conditions(&self) -> &[Condition]
        ensures filter { conditions_of result.now ≡ self.now }
        ensures kept { AreConditions result.now }
    {
        self.conditions.as_slice()
    }
}
