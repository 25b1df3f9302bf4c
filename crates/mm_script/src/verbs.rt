//! Which words are names, sessions, verbs and steps.

ghost use Rattle.std.specs.Prelude.{◌≡◌, ◌||◌, ◌==◌};
ghost use Rattle.std.specs.List.{list_all};
ghost use Rattle.mm_model.specs.WellFormed.{is_word, is_collection_name, is_index_name};
ghost use Rattle.mm_script.specs.declared.fault.LineWhat.TheVariants as what;
ghost use Rattle.mm_script.specs.Names.{session_of as session_in, database_of as database_in, is_new_index as is_new_index_name, verb_of as verb_in, is_step as is_step_word, step_of as step_in};
ghost use Rattle.mm_script.specs.Reading.{Gives, part_at};

use crate::fault::LineWhat;
use crate::stop::Stop;
use crate::words::{any_word, first_bytes};
use mm_base::Name;

/// The most bytes of a collection's name.
const MAX_COLLECTION_LEN: usize = 60;

/// The most bytes of an index's name.
const MAX_INDEX_LEN: usize = 40;

/// What a command does.
#[derive(Clone, Copy, Debug, PartialEq, Eq)]
pub(crate) enum Verb {
    Insert,
    Find,
    Update,
    Remove,
    Create,
    Drop,
    EnsureIndex,
    DropIndex,
}

/// A named step of the run.
#[derive(Clone, Copy, Debug, PartialEq, Eq)]
pub(crate) enum Step {
    Close,
    Log,
    Apply,
    Remap,
    Commit,
    Flush,
    Sync,
    Lsn,
    Trim,
}

/// The session of a word: a digit from 1 to 8.
pub(crate) fn session_of(word: &[u8]) -> Option<u32>
    ensures { result ≡ session_in word.now }
{
    match word {
        [digit] => {
            if b'1' <= *digit && *digit <= b'8' {
                Some(u32::from(*digit - b'0'))
            } else {
                None
            }
        }
        _ => None,
    }
}

/// The place of a database's name among all of them.
pub(crate) fn database_of(names: &[Name], word: &[u8]) -> Option<usize>
    ensures { result ≡ database_in names.now word.now }
{
    names.iter().position(|name| name.bytes() == word)
}

/// Whether it is an ASCII letter, a digit or `_`.
fn is_word_byte(byte: u8) -> bool
    ensures { result ≡ is_word byte }
{
    byte.is_ascii_alphanumeric() || byte == b'_'
}

fn are_word_bytes(name: &[u8]) -> bool
    ensures { result ≡ list_all is_word name.now }
{
    name.iter().all(|byte| is_word_byte(*byte))
}

fn are_collection_bytes(name: &[u8]) -> bool
    ensures { result ≡ list_all (λ b. is_word b || (b == 46)) name.now }
{
    name.iter().all(|byte| is_word_byte(*byte) || *byte == b'.')
}

fn is_collection(name: &[u8]) -> bool
    ensures { result ≡ is_collection_name name.now }
{
    !name.is_empty()
        && name.len() <= MAX_COLLECTION_LEN
        && are_collection_bytes(name)
        && !(first_bytes(name, 7) == b"system.".as_slice())
}

fn is_index(name: &[u8]) -> bool
    ensures { result ≡ is_index_name name.now }
{
    !name.is_empty() && name.len() <= MAX_INDEX_LEN && are_word_bytes(name)
}

fn is_new_index(name: &[u8]) -> bool
    ensures { result ≡ is_new_index_name name.now }
{
    is_index(name) && !(name == b"_id_".as_slice())
}

/// A collection's name.
#[tactic(auto, unfolding(crate::specs::Reading::part_at))]
pub(crate) fn collection(text: &str) -> Result<(Name, &str), Stop>
    ensures { Gives (λ x. (x.0, x.1.now)) result (part_at what.Collection is_collection_name text.now) }
{
    let (word, rest) = any_word(LineWhat::Collection, text)?;
    if !is_collection(word.as_bytes()) {
        return Err(Stop::What(LineWhat::Collection));
    }
    match Name::new(word.as_bytes()) {
        Some(name) => Ok((name, rest)),
        None => Err(Stop::What(LineWhat::Collection)),
    }
}

/// An index's name.
#[tactic(auto, unfolding(crate::specs::Reading::part_at))]
pub(crate) fn index(text: &str) -> Result<(Name, &str), Stop>
    ensures { Gives (λ x. (x.0, x.1.now)) result (part_at what.Index is_index_name text.now) }
{
    let (word, rest) = any_word(LineWhat::Index, text)?;
    if !is_index(word.as_bytes()) {
        return Err(Stop::What(LineWhat::Index));
    }
    match Name::new(word.as_bytes()) {
        Some(name) => Ok((name, rest)),
        None => Err(Stop::What(LineWhat::Index)),
    }
}

/// The name of an index that can be made.
#[tactic(auto, unfolding(crate::specs::Reading::part_at))]
pub(crate) fn new_index(text: &str) -> Result<(Name, &str), Stop>
    ensures { Gives (λ x. (x.0, x.1.now)) result (part_at what.Index is_new_index_name text.now) }
{
    let (word, rest) = any_word(LineWhat::Index, text)?;
    if !is_new_index(word.as_bytes()) {
        return Err(Stop::What(LineWhat::Index));
    }
    match Name::new(word.as_bytes()) {
        Some(name) => Ok((name, rest)),
        None => Err(Stop::What(LineWhat::Index)),
    }
}

pub(crate) fn verb_of(word: &[u8]) -> Option<Verb>
    ensures { result ≡ verb_in word.now }
{
    if word == b"insert".as_slice() {
        Some(Verb::Insert)
    } else if word == b"find".as_slice() {
        Some(Verb::Find)
    } else if word == b"update".as_slice() {
        Some(Verb::Update)
    } else if word == b"remove".as_slice() {
        Some(Verb::Remove)
    } else if word == b"create".as_slice() {
        Some(Verb::Create)
    } else if word == b"drop".as_slice() {
        Some(Verb::Drop)
    } else if word == b"ensureIndex".as_slice() {
        Some(Verb::EnsureIndex)
    } else if word == b"dropIndex".as_slice() {
        Some(Verb::DropIndex)
    } else {
        None
    }
}

/// Whether a word is a step's.
pub(crate) fn is_step(word: &[u8]) -> bool
    ensures { result ≡ is_step_word word.now }
{
    match word {
        [first, ..] => *first == b'!',
        [] => false,
    }
}

pub(crate) fn step_of(word: &[u8]) -> Option<Step>
    ensures { result ≡ step_in word.now }
{
    if word == b"!close".as_slice() {
        Some(Step::Close)
    } else if word == b"!log".as_slice() {
        Some(Step::Log)
    } else if word == b"!apply".as_slice() {
        Some(Step::Apply)
    } else if word == b"!remap".as_slice() {
        Some(Step::Remap)
    } else if word == b"!commit".as_slice() {
        Some(Step::Commit)
    } else if word == b"!flush".as_slice() {
        Some(Step::Flush)
    } else if word == b"!sync".as_slice() {
        Some(Step::Sync)
    } else if word == b"!lsn".as_slice() {
        Some(Step::Lsn)
    } else if word == b"!trim".as_slice() {
        Some(Step::Trim)
    } else {
        None
    }
}
