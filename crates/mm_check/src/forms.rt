//! The forms of the names of a database's nodes.

ghost use Rattle.std.specs.Prelude.{◌≡◌, ◌++◌, ◌∷◌, ◌-◌, ◌==◌, ◌||◌, ℕ, [], suc, length, take, drop, true, false, MatchOption, IfOk, List};
ghost use Rattle.std.specs.List.{list_all};
ghost use Rattle.mm_records.specs.Constants.{is_name};
ghost use Rattle.mm_check.specs.NodeQuestions.{is_word, begins, is_coll, is_index, dollar_at, is_coll_index, is_own, has_form};
ghost use Rattle.mm_check.specs.NodeForms.{IsForms, HasFront};

use std::alloc::{AllocError, Global};

/// What the names of a database's nodes begin with, and the names of its own two nodes.
#[derive(Drop)]
pub(crate) struct Forms {
    // The database's name and a dot.
    pub(crate) front: Vec<u8>,
    pub(crate) free: Vec<u8>,
    pub(crate) indexes: Vec<u8>,
}

// One text behind another.
fn joined(alloc: Global, front: &[u8], back: &[u8]) -> Result<Vec<u8>, AllocError>
    ensures { IfOk result (λ text. text.items ≡ front.now ++ back.now) }
{
    let mut text = Vec::new(alloc);
    text.extend_from_slice(front)?;
    text.extend_from_slice(back)?;
    Ok(text)
}

// The forms of a database's names.
pub(crate) fn forms_of(alloc: Global, database: &[u8]) -> Result<Forms, AllocError>
    ensures { IfOk result (λ forms. IsForms database.now forms) }
{
    let front = joined(alloc, database, b".")?;
    let free = joined(alloc, database, b".$freelist")?;
    let indexes = joined(alloc, database, b".system.indexes")?;
    Ok(Forms {
        front,
        free,
        indexes,
    })
}

// A letter, a digit or `_`.
fn is_word(byte: u8) -> bool
    ensures { result ≡ is_word byte }
{
    byte.is_ascii_alphanumeric() || byte == b'_'
}

fn are_words(text: &[u8]) -> bool
    ensures { result ≡ list_all is_word text.now }
{
    text.iter().all(|byte| is_word(*byte))
}

fn are_words_and_dots(text: &[u8]) -> bool
    ensures { result ≡ list_all (λ b. is_word b || (b == 46)) text.now }
{
    text.iter().all(|byte| is_word(*byte) || *byte == b'.')
}

// What stands behind a front of a text, where it has this front.
fn behind<'a>(text: &'a [u8], front: &[u8]) -> Option<&'a [u8]>
    ensures { MatchOption result (begins front.now text.now ≡ false) (λ rest. HasFront front.now text.now rest.now) }
{
    text.strip_prefix(front)
}

// A text has this front.
fn has_front(text: &[u8], front: &[u8]) -> bool
    ensures { result ≡ begins front.now text.now }
{
    behind(text, front).is_some()
}

// The name of a collection, without its database.
#[tactic(auto, unfolding(crate::specs::NodeQuestions::is_coll))]
fn is_coll(name: &[u8]) -> bool
    ensures { result ≡ is_coll name.now }
{
    !name.is_empty() && name.len() <= 60 && are_words_and_dots(name) && !has_front(name, b"system.")
}

// The name of an index, without its collection.
#[tactic(auto, unfolding(crate::specs::NodeQuestions::is_index))]
fn is_index(name: &[u8]) -> bool
    ensures { result ≡ is_index name.now }
{
    !name.is_empty() && name.len() <= 40 && are_words(name)
}

// How many bytes stand before the first `$`.
fn dollar_at(name: &[u8]) -> usize
    ensures { result ≡ dollar_at name.now }
{
    name.iter().take_while(|byte| **byte != b'$').count()
}

// The name of an index, `C.$I`.
#[tactic(auto, unfolding(crate::specs::NodeQuestions::is_coll_index))]
fn is_coll_index(name: &[u8]) -> bool
    ensures { result ≡ is_coll_index name.now }
{
    let at = dollar_at(name);
    if at == 0 || name.len() <= at {
        return false;
    }
    name[at - 1] == b'.' && is_coll(&name[..at - 1]) && is_index(&name[at + 1..])
}

// The name of a collection or of an index, without its database.
fn is_plain_name(name: &[u8]) -> bool
    ensures { result ≡ (is_coll name.now || is_coll_index name.now) }
{
    is_coll(name) || is_coll_index(name)
}

// The same behind the database's name and a dot.
fn is_own(front: &[u8], name: &[u8]) -> bool
    ensures { (d : List ℕ) → front.now ≡ d ++ 46 ∷ [] → result ≡ is_own d name.now }
{
    match behind(name, front) {
        None => false,
        Some(rest) => is_plain_name(rest),
    }
}

// The name has one of the forms of a database.
pub(crate) fn has_form(forms: &Forms, name: &[u8]) -> bool
    ensures { (d : List ℕ) → IsForms d forms.now → result ≡ has_form d name.now }
{
    if name.is_empty() {
        return false;
    }
    if name.len() > 120 {
        return false;
    }
    if name == forms.free.as_slice() {
        return true;
    }
    if name == forms.indexes.as_slice() {
        return true;
    }
    is_own(&forms.front, name)
}
