//! What is wrong with a change before any document is seen.

ghost use Rattle.std.specs.Prelude.{◌≡◌, ◌++◌, ◌∷◌, ◌||◌, List, ℕ, [], true, false, IfOk, OnOk, MatchOption, length};
ghost use Rattle.mm_bson.specs.Tree.{document};
ghost use Rattle.mm_bson.specs.Spelling.{HasNoZero};
ghost use Rattle.mm_bson.specs.View.{tree, elements_of};
ghost use Rattle.mm_update.specs.Paths.{overlap, overlaps_any as overlaps_some};
ghost use Rattle.mm_update.specs.Edit.{operator_of as operator_by, edits_at, edits_in, edits_of, paths, Knows};
ghost use Rattle.mm_update.specs.Form.{field as field_place, entries, entries_in, places, has_path, is_number as is_number_tree, wrong_edit, first_wrong, first_operator, Passes};
ghost use Rattle.mm_update.specs.Drafted.{AreNames};
ghost use Rattle.mm_update.specs.Laws.{AreApart};

use crate::apart::Apart;
use crate::fault::{ChangeFault, bad_change, not_number};
use crate::path::{has_dollar, has_empty_step, is_id};
use crate::step::{Operator, Step};
use mm_bson::{Element, Text, Value, class};
use std::alloc::{AllocError, Global};

/// The class of numbers in the order of values.
const NUMBERS: u8 = 2;

fn operator_of(name: &[u8]) -> Option<Operator>
    ensures { result ≡ operator_by name.now }
{
    if name == b"$set".as_slice() {
        Some(Operator::Set)
    } else if name == b"$unset".as_slice() {
        Some(Operator::Unset)
    } else if name == b"$inc".as_slice() {
        Some(Operator::Inc)
    } else if name == b"$push".as_slice() {
        Some(Operator::Push)
    } else {
        None
    }
}

/// The fields of a document that has some.
fn fields_of(value: &Value) -> Option<&[Element]>
    ensures fields { MatchOption result (has_path (tree value.now) ≡ false) (λ es. tree value.now ≡ document (elements_of es.now)) }
    ensures some { MatchOption result (has_path (tree value.now) ≡ false) (λ _. has_path (tree value.now) ≡ true) }
    ensures names { MatchOption result (has_path (tree value.now) ≡ false) (λ es. AreNames (elements_of es.now)) }
{
    match value {
        Value::Document(doc) => {
            let fields = doc.elements();
            if fields.is_empty() {
                None
            } else {
                Some(fields)
            }
        }
        _ => None,
    }
}

fn is_number(value: &Value) -> bool
    ensures { result ≡ is_number_tree (tree value.now) }
{
    class(value) == NUMBERS
}

/// Looks at an edit behind others, whose paths these are. `NotNumber`,
/// `ChangesId` and `BadChange` by the rules of its path and operand.
fn check<'a>(
    earlier: &mut Apart<'a>,
    operator: Operator,
    entry: &'a Element,
) -> Result<(), ChangeFault>
    ensures form { Passes result (wrong_edit earlier.old (record { operator = operator; path = entry.now.name; operand = tree entry.now.value })) }
    ensures one_more { OnOk result ((q : List ℕ) → overlaps_some earlier.new q ≡ (overlap entry.now.name q || overlaps_some earlier.old q)) }
{
    let path = &entry.name;
    if has_empty_step(path.as_str()) || !earlier.put(path)? {
        return Err(bad_change(path));
    }
    if is_id(path.as_str()) {
        return Err(ChangeFault::ChangesId);
    }
    if operator == Operator::Inc && !is_number(&entry.value) {
        return Err(not_number(path));
    }
    Ok(())
}

fn step_of(operator: Operator, entry: &Element) -> Result<Step, AllocError>
    requires { HasNoZero entry.now.name }
    ensures { IfOk result (λ s. s ≡ record { operator = operator; path = entry.now.name; operand = tree entry.now.value }) }
{
    let path = entry.name.copy()?;
    let operand = entry.value.copy()?;
    Ok(Step::new(operator, path, operand))
}

/// Puts the edits of an operator behind others, up to the first that is wrong.
fn add_edits<'a>(
    steps: &mut Vec<Step>,
    earlier: &mut Apart<'a>,
    operator: Operator,
    fields: &'a [Element],
) -> Result<(), ChangeFault>
    requires names { AreNames (elements_of fields.now) }
    requires known { Knows earlier.old steps.old.items }
    ensures known { OnOk result (Knows earlier.new steps.new.items) }
    ensures ok { OnOk result (steps.new.items ≡ steps.old.items ++ edits_at operator (elements_of fields.now)) }
    ensures form { Passes result (first_wrong (paths steps.old.items) (entries (edits_at operator (elements_of fields.now)))) }
{
    for field in fields {
        check(earlier, operator, field)?;
        steps.push(step_of(operator, field)?)?;
    }
    Ok(())
}

/// Puts the edits of a field behind others, up to the first place that is
/// wrong.
fn add_field<'a>(
    steps: &mut Vec<Step>,
    earlier: &mut Apart<'a>,
    field: &'a Element,
) -> Result<(), ChangeFault>
    requires { Knows earlier.old steps.old.items }
    ensures known { OnOk result (Knows earlier.new steps.new.items) }
    ensures ok { OnOk result (steps.new.items ≡ steps.old.items ++ edits_in (operator_by field.now.name) (tree field.now.value)) }
    ensures form { Passes result (first_wrong (paths steps.old.items) (field_place field.now.name (tree field.now.value) ∷ entries_in (operator_by field.now.name) (tree field.now.value))) }
{
    match (operator_of(field.name.as_bytes()), fields_of(&field.value)) {
        (Some(operator), Some(fields)) => add_edits(steps, earlier, operator, fields),
        _ => Err(bad_change(&field.name)),
    }
}

/// The edits of a change by operators.
pub(crate) fn edits(alloc: Global, fields: &[Element]) -> Result<Vec<Step>, ChangeFault>
    ensures ok { IfOk result (λ steps. steps.items ≡ edits_of (elements_of fields.now)) }
    ensures apart { IfOk result (λ steps. AreApart steps.items) }
    ensures form { Passes result (first_wrong [] (places (elements_of fields.now))) }
{
    let mut steps = Vec::new(alloc);
    let mut earlier = Apart::new(alloc);
    for field in fields {
        add_field(&mut steps, &mut earlier, field)?;
    }
    Ok(steps)
}

/// Refuses a replacement that has an operator.
pub(crate) fn check_replacement(fields: &[Element]) -> Result<(), ChangeFault>
    ensures { Passes result (first_operator (elements_of fields.now)) }
{
    for field in fields {
        if has_dollar(field.name.as_bytes()) {
            return Err(bad_change(&field.name));
        }
    }
    Ok(())
}
