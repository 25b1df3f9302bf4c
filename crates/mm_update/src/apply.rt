//! What a change makes of a document.

ghost use Rattle.std.specs.Prelude.{◌≡◌, IfOk, OnOk, option_map};
ghost use Rattle.std.specs.Str.{bytes_eq};
ghost use Rattle.mm_bson.specs.Tree.{Elements, append};
ghost use Rattle.mm_bson.specs.View.{tree, elements_of};
ghost use Rattle.mm_update.specs.Paths.{id_name};
ghost use Rattle.mm_update.specs.Edited.{all_edited, Gives};
ghost use Rattle.mm_update.specs.Changed.{is_old_id, keeps_id as keeps_id_by, id_field, other_fields, replaced, finished, carried_out, changed};
ghost use Rattle.mm_update.specs.Drafted.{AreNames};
ghost use Rattle.mm_update.specs.PlanView.{plan_in};

use crate::change::{Body, Change};
use crate::draft::{Draft, Node};
use crate::edit::edit;
use crate::fault::ChangeFault;
use crate::long::{has_long, refused};
use crate::measure::{is_shallow, len};
use crate::path::ID;
use crate::step::Step;
use crate::write::write;
use mm_bson::{Doc, Element, MAX_LEN, MAX_LEVELS, Text, Value, cmp};
use std::alloc::{AllocError, Global};
use std::cmp::Ordering;

/// The draft's document, where it may be stored.
fn finish(alloc: Global, draft: &Draft<'_>) -> Result<Doc, ChangeFault>
    ensures { Gives (λ (d : Elements). d) result (finished draft.now) }
{
    let Some(len) = len(draft) else {
        return Err(ChangeFault::NoMemory);
    };
    if len > MAX_LEN {
        return Err(ChangeFault::TooLong { len: len as u64 });
    }
    if !is_shallow(draft, MAX_LEVELS) {
        return Err(ChangeFault::TooDeep);
    }
    Ok(write(alloc, draft)?)
}

/// Makes the edits one after the other.
fn edit_all<'a>(alloc: Global, draft: &mut Draft<'a>, steps: &'a [Step]) -> Result<(), ChangeFault>
    ensures { Gives (λ _. draft.new) result (all_edited steps.now draft.old) }
{
    for step in steps {
        edit(alloc, draft, step)?;
    }
    Ok(())
}

/// Whether the value is equal to the old `_id` by the order of values.
fn is_old(old: Option<&Value>, value: &Value) -> bool
    ensures { result ≡ is_old_id (option_map (λ v. tree v.now) old.entry) (tree value.now) }
{
    match old {
        Some(id) => cmp(value, id) == Ordering::Equal,
        None => false,
    }
}

fn is_id(name: &Text) -> bool
    ensures { result ≡ bytes_eq name.now id_name }
{
    name.as_bytes() == ID.as_bytes()
}

/// Whether each field `_id` has the old value.
fn keeps_id(old: Option<&Value>, fields: &[Element]) -> bool
    ensures { result ≡ keeps_id_by (option_map (λ v. tree v.now) old.entry) (elements_of fields.now) }
{
    for field in fields {
        if is_id(&field.name) && !is_old(old, &field.value) {
            return false;
        }
    }
    true
}

/// Puts the fields but `_id` behind the entries of a draft.
fn add_others<'a>(draft: &mut Draft<'a>, fields: &'a [Element]) -> Result<(), AllocError>
    requires { AreNames (elements_of fields.now) }
    ensures { OnOk result (draft.new ≡ append draft.old (other_fields (elements_of fields.now))) }
{
    for field in fields {
        if is_id(&field.name) {
            continue;
        }
        draft.add(field.name.as_str(), Node::Kept(&field.value))?;
    }
    Ok(())
}

/// A draft with the old `_id` alone.
fn id_draft<'a>(alloc: Global, old: Option<&'a Value>) -> Result<Draft<'a>, AllocError>
    ensures { IfOk result (λ d. d ≡ id_field (option_map (λ v. tree v.now) old.entry)) }
{
    let mut draft = Draft::new(alloc);
    if let Some(value) = old {
        draft.add(ID, Node::Kept(value))?;
    }
    Ok(draft)
}

/// The old `_id`, then the other fields of the new document.
fn replace<'a>(alloc: Global, new: &'a Doc, old: &'a Doc) -> Result<Draft<'a>, ChangeFault>
    ensures { Gives (λ (d : Elements). d) result (replaced new.now old.now) }
{
    let id = old.find(ID.as_bytes());
    if !keeps_id(id, new.elements()) {
        return Err(ChangeFault::ChangesId);
    }
    let mut draft = id_draft(alloc, id)?;
    add_others(&mut draft, new.elements())?;
    Ok(draft)
}

/// The draft of a document with the edits made.
fn edited<'a>(alloc: Global, steps: &'a [Step], doc: &'a Doc) -> Result<Draft<'a>, ChangeFault>
    ensures { Gives (λ (d : Elements). d) result (all_edited steps.now doc.now) }
{
    let mut draft = Draft::open(alloc, doc)?;
    edit_all(alloc, &mut draft, steps)?;
    Ok(draft)
}

fn carry_out<'a>(alloc: Global, body: &'a Body, doc: &'a Doc) -> Result<Draft<'a>, ChangeFault>
    ensures { Gives (λ (d : Elements). d) result (carried_out (plan_in body.now) doc.now) }
{
    match body {
        Body::Replacement(new) => replace(alloc, new, doc),
        Body::Edits(steps) => edited(alloc, steps.as_slice(), doc),
    }
}

impl Change {
    /// The changed document. A refusal is that of the first edit that the
    /// document can't have, `ChangesId` of a replacement with another `_id`, or
    /// else `TooLong` and then `TooDeep` of the finished document.
    pub fn apply(&self, doc: &Doc) -> Result<Doc, ChangeFault>
        ensures { Gives (λ (d : Elements). d) result (changed self.now doc.now) }
    {
        match &self.body {
            Body::Edits(steps) if has_long(steps.as_slice()) => {
                Err(refused(self.alloc, steps.as_slice(), doc))
            }
            body => {
                let draft = carry_out(self.alloc, body, doc)?;
                finish(self.alloc, &draft)
            }
        }
    }
}
