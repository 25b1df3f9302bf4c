//! Whether a document matches the conditions of a filter.

ghost use Rattle.std.specs.Prelude.{◌≡◌, ◌↔◌, IsTrue};
ghost use Rattle.mm_query.specs.Form.{is_and as is_and_name, is_or as is_or_name};
ghost use Rattle.mm_query.specs.Kept.{filters_of, conditions_of, IsCondition, AreConditions, Holds};
ghost use Rattle.mm_query.specs.Match.{Matches, EachMatches, OneMatches};

use crate::condition::meets;
use crate::kept::{Condition, Conjunction};
use mm_bson::DocRef;

pub(crate) fn is_and(name: &[u8]) -> bool
    ensures { result ≡ is_and_name name.now }
{
    name == b"$and".as_slice()
}

pub(crate) fn is_or(name: &[u8]) -> bool
    ensures { result ≡ is_or_name name.now }
{
    name == b"$or".as_slice()
}

#[cycle(matching)]
fn holds(condition: &Condition, doc: &DocRef<'_>) -> bool
    requires { IsCondition condition.now }
    ensures { IsTrue result ↔ Holds condition.now doc.now }
{
    match condition {
        Condition::At { path, demand } => meets(demand, doc.get_bytes(path.as_bytes())),
        Condition::AllOf(filters) => each_matches(filters.as_slice(), doc),
        Condition::AnyOf(filters) => one_matches(filters.as_slice(), doc),
    }
}

#[cycle(matching)]
fn all_hold(conditions: &[Condition], doc: &DocRef<'_>) -> bool
    requires { AreConditions conditions.now }
    ensures { IsTrue result ↔ Matches (conditions_of conditions.now) doc.now }
{
    'conditions: for condition in conditions {
        if !holds(condition, doc) {
            return false;
        }
    }
    true
}

/// Whether a document meets all that a filter asks.
#[cycle(matching)]
pub(crate) fn matches(filter: &Conjunction, doc: &DocRef<'_>) -> bool
    ensures { IsTrue result ↔ Matches filter.now doc.now }
{
    all_hold(filter.conditions(), doc)
}

#[cycle(matching)]
fn each_matches(filters: &[Conjunction], doc: &DocRef<'_>) -> bool
    ensures { IsTrue result ↔ EachMatches (filters_of filters.now) doc.now }
{
    'each: for filter in filters {
        if !matches(filter, doc) {
            return false;
        }
    }
    true
}

#[cycle(matching)]
fn one_matches(filters: &[Conjunction], doc: &DocRef<'_>) -> bool
    ensures { IsTrue result ↔ OneMatches (filters_of filters.now) doc.now }
{
    'one: for filter in filters {
        if matches(filter, doc) {
            return true;
        }
    }
    false
}
