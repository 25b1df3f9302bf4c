//! What a change answers where a path has more steps than a document may have
//! levels: the finished document's length is summed, and it is never made.

ghost use Rattle.std.specs.Prelude.{◌≡◌, ◌<◌, ◌+◌, ◌-◌, length, max, false, List, ℕ, drop, option_map, IsTrue, IfOk, OnOk, IfSome};
ghost use Rattle.mm_bson.specs.Tree.{Elements};
ghost use Rattle.mm_bson.specs.Path.{names};
ghost use Rattle.mm_bson.specs.View.{tree};
ghost use Rattle.mm_update.specs.Paths.{overlap, overlaps_any};
ghost use Rattle.mm_update.specs.Edit.{edits};
ghost use Rattle.mm_update.specs.Edited.{put, removed, value_by, edited, all_edited, Fails};
ghost use Rattle.mm_update.specs.Changed.{changed};
ghost use Rattle.mm_update.specs.Drafted.{node_tree};
ghost use Rattle.mm_update.specs.Laws.{AreApart};
ghost use Rattle.mm_update.specs.Meeting.{absent, present, closer, meet, reach, most_common, steps_len as len_of_steps, doc_len, tree_len, GivesLen, IsLong, HasLong};
ghost use Rattle.mm_update.specs.Met.{seen};

use crate::apart::Apart;
use crate::draft::Node;
use crate::fault::{ChangeFault, bad_change};
use crate::measure::node_len;
use crate::path::split;
use crate::step::{Operator, Step};
use crate::value::new_value;
use mm_bson::{Doc, MAX_LEN, MAX_LEVELS, Text, Value};
use std::alloc::{AllocError, Global};

/// The bytes of a step that is made, but its name: a type byte, a 00, and the
/// length and final 00 of the document behind it.
const STEP_LEN: usize = 7;

/// The bytes of a document that has no elements.
const EMPTY_LEN: usize = 5;

/// How a path meets a document.
#[derive(Clone, Copy)]
pub(crate) enum Meeting<'a> {
    /// So many steps lead to documents, and the next one isn't there.
    Absent(usize),
    /// A step before the last leads to another value.
    Blocked,
    /// The last step, whose name has so many bytes, leads to a value.
    Present { name: &'a str, value: &'a Value },
}

/// How a path meets a document.
fn meeting_with<'a>(doc: &'a Doc, path: &'a str) -> Meeting<'a>
    ensures { seen result ≡ meet (names path.now) doc.now }
{
    let mut inside = doc;
    let mut rest = path;
    let mut kept = 0;
    loop {
        let first = split(rest);
        let Some(value) = inside.find(first.name.as_bytes()) else {
            return Meeting::Absent(kept);
        };
        let Some(behind) = first.rest else {
            return Meeting::Present {
                name: first.name,
                value,
            };
        };
        let Value::Document(inner) = value else {
            return Meeting::Blocked;
        };
        inside = inner;
        rest = behind;
        kept += 1;
    }
}

/// The bytes of a path's steps but the first `skipped`, each with its name, a
/// type byte and a 00, and the five of a document behind it. None where that is
/// past usize.
fn steps_len(path: &str, skipped: usize) -> Option<usize>
    ensures { IfSome result (λ n. n ≡ len_of_steps (drop skipped (names path.now))) }
{
    let mut len: usize = 0;
    let mut skip = skipped;
    let mut rest = Some(path);
    while let Some(here) = rest {
        let first = split(here);
        if skip == 0 {
            len = len.checked_add(first.name.len())?.checked_add(STEP_LEN)?;
        } else {
            skip -= 1;
        }
        rest = first.rest;
    }
    Some(len)
}

/// How a path meets a document once these paths are made.
fn meeting_after<'a>(makers: &Apart<'_>, path: &'a Text, doc: &'a Doc) -> Meeting<'a>
    ensures { seen result ≡ closer (most_common makers.now (names path.now)) (meet (names path.now) doc.now) }
{
    match meeting_with(doc, path.as_str()) {
        Meeting::Absent(kept) => Meeting::Absent(makers.common(path).max(kept)),
        other => other,
    }
}

/// Puts the path of an edit among those that are made, unless it is `$unset`.
fn add_maker<'a>(makers: &mut Apart<'a>, step: &'a Step) -> Result<(), AllocError>
    requires { overlaps_any makers.old step.now.path ≡ false }
    ensures reach { OnOk result ((ms : List (List ℕ)) → most_common makers.new ms ≡ max (reach step.now ms) (most_common makers.old ms)) }
    ensures free { OnOk result ((q : List ℕ) → overlap step.now.path q ≡ false → overlaps_any makers.old q ≡ false → overlaps_any makers.new q ≡ false) }
{
    if step.operator() == Operator::Unset {
        return Ok(());
    }
    let _apart = makers.put(step.path())?;
    Ok(())
}

/// A node of the value, where there is one.
fn node_of<'a>(old: Option<&'a Value>) -> Option<Node<'a>>
    ensures { option_map node_tree result ≡ option_map (λ v. tree v.now) old.entry }
{
    match old {
        Some(value) => Some(Node::Kept(value)),
        None => None,
    }
}

/// How many bytes spell what a step makes of a value.
fn value_len<'a>(
    alloc: Global,
    step: &'a Step,
    old: Option<&'a Value>,
) -> Result<usize, ChangeFault>
    ensures { GivesLen tree_len result (value_by step.now.operator step.now.path step.now.operand (option_map (λ v. tree v.now) old.entry)) }
{
    let old = node_of(old);
    match new_value(alloc, step, old) {
        Ok(node) => match node_len(&node) {
            Some(len) => Ok(len),
            None => Err(ChangeFault::NoMemory),
        },
        Err(fault) => Err(fault),
    }
}

/// The length with a new value in place of an old one.
fn exchanged(len: usize, new: usize, old: usize) -> Result<usize, AllocError>
    ensures { IfOk result (λ n. n ≡ len + new - old) }
{
    match len.checked_add(new) {
        Some(sum) => Ok(sum.saturating_sub(old)),
        None => Err(AllocError),
    }
}

/// The length of a document with another value where the step's path leads.
fn len_replaced(alloc: Global, step: &Step, value: &Value, len: usize) -> Result<usize, ChangeFault>
    ensures { (name : List ℕ) (es : Elements) → meet (names step.now.path) es ≡ present name (tree value.now) → doc_len es ≡ len
        → GivesLen doc_len result (put step.now.path (value_by step.now.operator step.now.path step.now.operand) (names step.now.path) es) }
{
    match value_len(alloc, step, Some(value)) {
        Ok(new) => Ok(exchanged(len, new, value.spelled_len())?),
        Err(fault) => Err(fault),
    }
}

/// The length of a document with the steps made that are behind so many.
fn len_made(alloc: Global, step: &Step, kept: usize, len: usize) -> Result<usize, ChangeFault>
    ensures { (es : Elements) → meet (names step.now.path) es ≡ absent kept → doc_len es ≡ len
        → GivesLen doc_len result (put step.now.path (value_by step.now.operator step.now.path step.now.operand) (names step.now.path) es) }
{
    let Some(made) = steps_len(step.path().as_str(), kept) else {
        return Err(ChangeFault::NoMemory);
    };
    match value_len(alloc, step, None) {
        Ok(new) => {
            let more = exchanged(made, new, 0)?;
            Ok(exchanged(len, more, EMPTY_LEN)?)
        }
        Err(fault) => Err(fault),
    }
}

/// The length of a document with the value that a step puts.
fn len_with(
    alloc: Global,
    step: &Step,
    meeting: Meeting<'_>,
    len: usize,
) -> Result<usize, ChangeFault>
    ensures { (es : Elements) → meet (names step.now.path) es ≡ seen meeting.entry → doc_len es ≡ len
        → GivesLen doc_len result (put step.now.path (value_by step.now.operator step.now.path step.now.operand) (names step.now.path) es) }
{
    match meeting {
        Meeting::Absent(kept) => len_made(alloc, step, kept, len),
        Meeting::Blocked => Err(bad_change(step.path())),
        Meeting::Present { value, .. } => len_replaced(alloc, step, value, len),
    }
}

/// The length of a document without the field that a path leads to.
fn len_without(meeting: Meeting<'_>, len: usize) -> usize
    ensures { (path : List ℕ) (es : Elements) → meet (names path) es ≡ seen meeting.entry → doc_len es ≡ len → doc_len (removed (names path) es) ≡ result }
{
    match meeting {
        Meeting::Present { name, value } => len
            .saturating_sub(name.len())
            .saturating_sub(2)
            .saturating_sub(value.spelled_len()),
        Meeting::Absent(_) => len,
        Meeting::Blocked => len,
    }
}

/// The length of a document with an edit made.
fn len_after(
    alloc: Global,
    step: &Step,
    meeting: Meeting<'_>,
    len: usize,
) -> Result<usize, ChangeFault>
    ensures { (es : Elements) → meet (names step.now.path) es ≡ seen meeting.entry → doc_len es ≡ len → GivesLen doc_len result (edited step.now es) }
{
    match step.operator() {
        Operator::Unset => Ok(len_without(meeting, len)),
        _ => len_with(alloc, step, meeting, len),
    }
}

/// The length of a document with all edits made, which is not made itself.
fn len_of_all(alloc: Global, steps: &[Step], doc: &Doc) -> Result<usize, ChangeFault>
    requires { AreApart steps.now }
    ensures { GivesLen doc_len result (all_edited steps.now doc.now) }
{
    let mut len = doc.bytes().len();
    let mut makers = Apart::new(alloc);
    for step in steps {
        let meeting = meeting_after(&makers, step.path(), doc);
        match len_after(alloc, step, meeting, len) {
            Ok(next) => len = next,
            Err(fault) => return Err(fault),
        }
        add_maker(&mut makers, step)?;
    }
    Ok(len)
}

/// Whether a path has more steps than a document may have levels.
fn is_past_levels(path: &str) -> bool
    ensures { IsTrue result → 100 < length (names path.now) }
{
    let mut steps = 0;
    let mut rest = Some(path);
    while let Some(here) = rest {
        if steps == MAX_LEVELS {
            return true;
        }
        steps += 1;
        rest = split(here).rest;
    }
    false
}

/// Whether an edit makes more steps than a document may have levels.
fn is_long(step: &Step) -> bool
    ensures { IsTrue result → IsLong step.now }
{
    step.operator() != Operator::Unset && is_past_levels(step.path().as_str())
}

/// Whether one of the edits makes more steps than a document may have levels.
pub(crate) fn has_long(steps: &[Step]) -> bool
    ensures { IsTrue result → HasLong steps.now }
{
    for step in steps {
        if is_long(step) {
            return true;
        }
    }
    false
}

/// Why a change with such an edit is refused: the first edit that the document
/// can't have, or else what the finished document would be.
pub(crate) fn refused(alloc: Global, steps: &[Step], doc: &Doc) -> ChangeFault
    requires apart { AreApart steps.now }
    requires long { HasLong steps.now }
    ensures { Fails result (changed (edits steps.now) doc.now) }
{
    match len_of_all(alloc, steps, doc) {
        Ok(len) => {
            if len > MAX_LEN {
                return ChangeFault::TooLong { len: len as u64 };
            }
            ChangeFault::TooDeep
        }
        Err(fault) => fault,
    }
}
