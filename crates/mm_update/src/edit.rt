//! What an edit makes of a draft.

ghost use Rattle.std.specs.Prelude.{◌≡◌, IfOk, OnOk, IfSome, option_map};
ghost use Rattle.mm_bson.specs.Tree.{Elements};
ghost use Rattle.mm_bson.specs.Path.{names, find};
ghost use Rattle.mm_bson.specs.Spelling.{HasNoZero};
ghost use Rattle.mm_update.specs.Paths.{behind};
ghost use Rattle.mm_update.specs.Edited.{put as put_in, removed, opened, onward as onward_by, inside_only, value_by, edited, Gives};
ghost use Rattle.mm_update.specs.Drafted.{node_tree, inside_document};
ghost use Rattle.mm_update.specs.Opening.{IsOpened};

use crate::draft::{Draft, Node};
use crate::fault::{ChangeFault, bad_change};
use crate::path::split;
use crate::step::{Operator, Step};
use crate::value::new_value;
use mm_bson::Value;
use std::alloc::{AllocError, Global};

/// What a node is to a step behind it.
pub(crate) enum Opened<'a> {
    Document(Draft<'a>),
    Other(Node<'a>),
}

/// A node as a draft of its document, or again where it is none.
fn open<'a>(alloc: Global, node: Node<'a>) -> Result<Opened<'a>, AllocError>
    ensures { IfOk result (IsOpened (node_tree node.entry)) }
{
    match node {
        Node::Document(draft) => Ok(Opened::Document(draft)),
        Node::Kept(Value::Document(doc)) => Ok(Opened::Document(Draft::open(alloc, doc)?)),
        other => Ok(Opened::Other(other)),
    }
}

/// The draft that a step before the last leads to.
fn inside<'a>(alloc: Global, step: &Step, old: Option<Node<'a>>) -> Result<Draft<'a>, ChangeFault>
    ensures { Gives (λ (d : Elements). d) result (opened step.now.path (option_map node_tree old.entry)) }
{
    match old {
        None => Ok(Draft::new(alloc)),
        Some(node) => match open(alloc, node)? {
            Opened::Document(draft) => Ok(draft),
            Opened::Other(_) => Err(bad_change(step.path())),
        },
    }
}

/// Makes the value at the path anew.
#[cycle(put)]
fn put<'a>(
    alloc: Global,
    draft: &mut Draft<'a>,
    path: &'a str,
    step: &'a Step,
) -> Result<(), ChangeFault>
    requires { HasNoZero path.now }
    ensures { Gives (λ _. draft.new) result (put_in step.now.path (value_by step.now.operator step.now.path step.now.operand) (names path.now) draft.old) }
{
    let first = split(path);
    draft.prepare(alloc)?;
    let old = draft.take(first.name);
    let node = onward(alloc, first.rest, old, step)?;
    draft.put(first.name, node)?;
    Ok(())
}

/// What becomes of what a step leads to.
#[cycle(put)]
fn onward<'a>(
    alloc: Global,
    rest: Option<&'a str>,
    old: Option<Node<'a>>,
    step: &'a Step,
) -> Result<Node<'a>, ChangeFault>
    requires { IfSome rest (λ path. HasNoZero path.now) }
    ensures { let value = value_by step.now.operator step.now.path step.now.operand in
        Gives node_tree result (onward_by step.now.path (behind rest.entry) value (put_in step.now.path value (behind rest.entry)) (option_map node_tree old.entry)) }
{
    match rest {
        None => new_value(alloc, step, old),
        Some(path) => {
            let mut draft = inside(alloc, step, old)?;
            put(alloc, &mut draft, path, step)?;
            Ok(Node::Document(draft))
        }
    }
}

/// Takes the field at the path out where it is there.
#[cycle(remove)]
fn remove<'a>(alloc: Global, draft: &mut Draft<'a>, path: &'a str) -> Result<(), AllocError>
    requires { HasNoZero path.now }
    ensures { OnOk result (draft.new ≡ removed (names path.now) draft.old) }
{
    let first = split(path);
    draft.prepare(alloc)?;
    match first.rest {
        None => {
            draft.drop_first(first.name);
            Ok(())
        }
        Some(rest) => remove_inside(alloc, draft, first.name, rest),
    }
}

#[cycle(remove)]
fn remove_inside<'a>(
    alloc: Global,
    draft: &mut Draft<'a>,
    name: &'a str,
    rest: &'a str,
) -> Result<(), AllocError>
    requires name { HasNoZero name.now }
    requires rest { HasNoZero rest.now }
    ensures { OnOk result (draft.new ≡ inside_only name.now (removed (names rest.now)) draft.old (find name.now draft.old)) }
{
    match draft.take(name) {
        None => Ok(()),
        Some(old) => {
            let node = node_without(alloc, old, rest)?;
            draft.put(name, node)
        }
    }
}

#[cycle(remove)]
fn node_without<'a>(alloc: Global, node: Node<'a>, rest: &'a str) -> Result<Node<'a>, AllocError>
    requires { HasNoZero rest.now }
    ensures { IfOk result (λ n. node_tree n ≡ inside_document (removed (names rest.now)) (node_tree node.entry)) }
{
    match open(alloc, node)? {
        Opened::Document(mut draft) => {
            remove(alloc, &mut draft, rest)?;
            Ok(Node::Document(draft))
        }
        Opened::Other(other) => Ok(other),
    }
}

/// Makes a draft what an edit makes of it.
pub(crate) fn edit<'a>(
    alloc: Global,
    draft: &mut Draft<'a>,
    step: &'a Step,
) -> Result<(), ChangeFault>
    ensures { Gives (λ _. draft.new) result (edited step.now draft.old) }
{
    match step.operator() {
        Operator::Unset => Ok(remove(alloc, draft, step.path().as_str())?),
        _ => put(alloc, draft, step.path().as_str(), step),
    }
}
