//! How long and how deep a draft is.

ghost use Rattle.std.specs.Prelude.{◌≡◌, ◌↔◌, ◌<◌, IsTrue, IfSome, length};
ghost use Rattle.mm_bson.specs.Tree.{tree_depth, depth, values_depth};
ghost use Rattle.mm_bson.specs.Spelling.{spelling, array_spelling, value_spelling, elements_spelling, element_len as len_of_element};
ghost use Rattle.std.specs.Fmt.{decimal};
ghost use Rattle.mm_update.specs.Drafted.{node_tree, one_entry, values_at};

use crate::draft::{Draft, Entry, Node};
use itoa::Buffer;
use mm_bson::Value;

/// The bytes of an empty document or array: its length and the final 00.
const EMPTY_LEN: usize = 5;

/// The bytes of an element without its name and value: the type and a 00.
const ELEMENT_LEN: usize = 2;

/// How many bytes the name of an array's value has.
fn name_len(place: usize) -> usize
    ensures { result ≡ length (decimal place) }
{
    let mut digits = Buffer::new();
    digits.format(place).as_bytes().len()
}

/// How many bytes an array has, or none where that is past usize.
fn array_len(values: &[&Value]) -> Option<usize>
    ensures { IfSome result (λ n. n ≡ length (array_spelling (values_at values.now))) }
{
    let mut len = EMPTY_LEN;
    let mut place = 0;
    for next in values {
        let value = *next;
        len = len
            .checked_add(ELEMENT_LEN)?
            .checked_add(name_len(place))?
            .checked_add(value.spelled_len())?;
        place += 1;
    }
    Some(len)
}

#[cycle(len)]
pub(crate) fn node_len(node: &Node<'_>) -> Option<usize>
    ensures { IfSome result (λ n. n ≡ length (value_spelling (node_tree node.now))) }
{
    match node {
        Node::Kept(value) => Some(value.spelled_len()),
        Node::Int32(_) => Some(4),
        Node::Int64(_) => Some(8),
        Node::Null => Some(0),
        Node::Document(draft) => len(draft),
        Node::Array(values) => array_len(values.as_slice()),
    }
}

#[cycle(len)]
fn element_len(name: &str, node: &Node<'_>) -> Option<usize>
    ensures { IfSome result (λ n. n ≡ len_of_element name.now (node_tree node.now)) }
{
    let len = node_len(node)?;
    len.checked_add(ELEMENT_LEN)?.checked_add(name.len())
}

/// How many bytes an entry has: none where it was taken out.
#[cycle(len)]
fn entry_len(entry: &Entry<'_>) -> Option<usize>
    ensures { IfSome result (λ n. n ≡ length (elements_spelling (one_entry entry.now))) }
{
    match &entry.node {
        Some(node) => element_len(entry.name, node),
        None => Some(0),
    }
}

/// How many bytes a draft has, or none where that is past usize.
#[cycle(len)]
pub(crate) fn len(draft: &Draft<'_>) -> Option<usize>
    ensures { IfSome result (λ n. n ≡ length (spelling draft.now)) }
{
    let mut len = EMPTY_LEN;
    let entries = draft.entries();
    'entries: for entry in entries {
        len = len.checked_add(entry_len(entry)?)?;
    }
    Some(len)
}

fn values_are_shallow(values: &[&Value], limit: usize) -> bool
    requires { 0 < limit }
    ensures { IsTrue result ↔ (values_depth (values_at values.now) < limit) }
{
    for next in values {
        let value = *next;
        if value.levels() >= limit {
            return false;
        }
    }
    true
}

#[cycle(shallow)]
fn node_is_shallow(node: &Node<'_>, limit: usize) -> bool
    requires { 0 < limit }
    ensures { IsTrue result ↔ (tree_depth (node_tree node.now) < limit) }
{
    match node {
        Node::Kept(value) => value.levels() < limit,
        Node::Int32(_) => true,
        Node::Int64(_) => true,
        Node::Null => true,
        Node::Document(draft) => limit > 1 && is_shallow(draft, limit - 1),
        Node::Array(values) => limit > 1 && values_are_shallow(values.as_slice(), limit - 1),
    }
}

#[cycle(shallow)]
fn entry_is_shallow(entry: &Entry<'_>, limit: usize) -> bool
    requires { 0 < limit }
    ensures { IsTrue result ↔ (depth (one_entry entry.now) < limit) }
{
    match &entry.node {
        Some(node) => node_is_shallow(node, limit),
        None => true,
    }
}

/// Whether fewer levels than the limit lie inside a draft.
#[cycle(shallow)]
pub(crate) fn is_shallow(draft: &Draft<'_>, limit: usize) -> bool
    requires { 0 < limit }
    ensures { IsTrue result ↔ (depth draft.now < limit) }
{
    let entries = draft.entries();
    'entries: for entry in entries {
        if !entry_is_shallow(entry, limit) {
            return false;
        }
    }
    true
}
