//! Reading commands behind their verb.

ghost use Rattle.std.specs.Prelude.{◌≡◌};
ghost use Rattle.mm_script.specs.Grammar.{closing as closing_form, insert_form, index_form, find_form, update_form, remove_form, create_form, drop_form, ensure_index_form, drop_index_form, of_verb as form_of_verb};
ghost use Rattle.mm_script.specs.Reading.{Gives, read};

use crate::documents::{document, made_id, specification, with_id};
use crate::fault::LineWhat;
use crate::stop::Stop;
use crate::verbs::{Verb, collection, index, new_index};
use crate::words::{end, flag};
use mm_base::{DbNo, Name, SessionNo};
use mm_bson::Doc;
use mm_model::{Action, Command};
use std::alloc::Global;

/// Where a command stands: its line, its session and its database.
#[derive(Clone, Copy, Debug)]
pub(crate) struct Place {
    pub line: u32,
    pub session: u32,
    pub db: u32,
}

/// The end of a command, with or without `j`.
#[tactic(auto, unfolding(crate::specs::Grammar::closing))]
fn closing(place: Place, command: Command, text: &str) -> Result<Action, Stop>
    ensures { Gives (λ a. a) result (read (closing_form place command) text.now) }
{
    let (j, rest) = flag(b"j", text);
    end(rest)?;
    Ok(Action::Run {
        line: place.line,
        session: SessionNo(place.session),
        db: DbNo(place.db),
        command,
        j,
    })
}

#[tactic(auto, unfolding(crate::specs::Grammar::insert_form))]
fn insert(alloc: Global, stamp: u32, place: Place, text: &str) -> Result<Action, Stop>
    ensures { Gives (λ a. a) result (read (insert_form stamp place) text.now) }
{
    let (coll, rest) = match collection(text) {
        Ok(read) => read,
        Err(stop) => return Err(stop),
    };
    let (doc, rest) = match document(alloc, rest) {
        Ok(read) => read,
        Err(stop) => return Err(stop),
    };
    let made = made_id(stamp, place.session, place.line);
    let doc = with_id(alloc, made, doc)?;
    closing(place, Command::Insert { coll, doc }, rest)
}

/// The part `[index I]` of a find, and its end.
fn find_index(
    place: Place,
    coll: Name,
    filter: Doc,
    indexed: bool,
    text: &str,
) -> Result<Action, Stop>
    ensures { Gives (λ a. a) result (read (index_form place coll filter indexed) text.now) }
{
    if !indexed {
        let command = Command::Find {
            coll,
            filter,
            index: None,
        };
        return closing(place, command, text);
    }
    let (name, rest) = match index(text) {
        Ok(read) => read,
        Err(stop) => return Err(stop),
    };
    let command = Command::Find {
        coll,
        filter,
        index: Some(name),
    };
    closing(place, command, rest)
}

#[tactic(auto, unfolding(crate::specs::Grammar::find_form))]
fn find(alloc: Global, place: Place, text: &str) -> Result<Action, Stop>
    ensures { Gives (λ a. a) result (read (find_form place) text.now) }
{
    let (coll, rest) = match collection(text) {
        Ok(read) => read,
        Err(stop) => return Err(stop),
    };
    let (filter, rest) = match document(alloc, rest) {
        Ok(read) => read,
        Err(stop) => return Err(stop),
    };
    let (indexed, rest) = flag(b"index", rest);
    find_index(place, coll, filter, indexed, rest)
}

#[tactic(auto, unfolding(crate::specs::Grammar::update_form))]
fn update(alloc: Global, place: Place, text: &str) -> Result<Action, Stop>
    ensures { Gives (λ a. a) result (read (update_form place) text.now) }
{
    let (coll, rest) = match collection(text) {
        Ok(read) => read,
        Err(stop) => return Err(stop),
    };
    let (filter, rest) = match document(alloc, rest) {
        Ok(read) => read,
        Err(stop) => return Err(stop),
    };
    let (change, rest) = match document(alloc, rest) {
        Ok(read) => read,
        Err(stop) => return Err(stop),
    };
    let (multi, rest) = flag(b"multi", rest);
    closing(
        place,
        Command::Update {
            coll,
            filter,
            change,
            multi,
        },
        rest,
    )
}

#[tactic(auto, unfolding(crate::specs::Grammar::remove_form))]
fn remove(alloc: Global, place: Place, text: &str) -> Result<Action, Stop>
    ensures { Gives (λ a. a) result (read (remove_form place) text.now) }
{
    let (coll, rest) = match collection(text) {
        Ok(read) => read,
        Err(stop) => return Err(stop),
    };
    let (filter, rest) = match document(alloc, rest) {
        Ok(read) => read,
        Err(stop) => return Err(stop),
    };
    let (one, rest) = flag(b"one", rest);
    closing(place, Command::Remove { coll, filter, one }, rest)
}

#[tactic(auto, unfolding(crate::specs::Grammar::create_form))]
fn create(place: Place, text: &str) -> Result<Action, Stop>
    ensures { Gives (λ a. a) result (read (create_form place) text.now) }
{
    let (coll, rest) = match collection(text) {
        Ok(read) => read,
        Err(stop) => return Err(stop),
    };
    closing(place, Command::Create { coll }, rest)
}

#[tactic(auto, unfolding(crate::specs::Grammar::drop_form))]
fn drop_collection(place: Place, text: &str) -> Result<Action, Stop>
    ensures { Gives (λ a. a) result (read (drop_form place) text.now) }
{
    let (coll, rest) = match collection(text) {
        Ok(read) => read,
        Err(stop) => return Err(stop),
    };
    closing(place, Command::Drop { coll }, rest)
}

#[tactic(auto, unfolding(crate::specs::Grammar::ensure_index_form))]
fn ensure_index(alloc: Global, place: Place, text: &str) -> Result<Action, Stop>
    ensures { Gives (λ a. a) result (read (ensure_index_form place) text.now) }
{
    let (coll, rest) = match collection(text) {
        Ok(read) => read,
        Err(stop) => return Err(stop),
    };
    let (name, rest) = match new_index(rest) {
        Ok(read) => read,
        Err(stop) => return Err(stop),
    };
    let (spec, rest) = match specification(alloc, rest) {
        Ok(read) => read,
        Err(stop) => return Err(stop),
    };
    let (unique, rest) = flag(b"unique", rest);
    closing(
        place,
        Command::EnsureIndex {
            coll,
            name,
            spec,
            unique,
        },
        rest,
    )
}

#[tactic(auto, unfolding(crate::specs::Grammar::drop_index_form))]
fn drop_index(place: Place, text: &str) -> Result<Action, Stop>
    ensures { Gives (λ a. a) result (read (drop_index_form place) text.now) }
{
    let (coll, rest) = match collection(text) {
        Ok(read) => read,
        Err(stop) => return Err(stop),
    };
    let (name, rest) = match index(rest) {
        Ok(read) => read,
        Err(stop) => return Err(stop),
    };
    closing(place, Command::DropIndex { coll, name }, rest)
}

/// A command behind its verb, which may be none.
pub(crate) fn of_verb(
    alloc: Global,
    stamp: u32,
    place: Place,
    verb: Option<Verb>,
    text: &str,
) -> Result<Action, Stop>
    ensures { Gives (λ a. a) result (read (form_of_verb stamp place verb) text.now) }
{
    match verb {
        None => Err(Stop::What(LineWhat::Verb)),
        Some(Verb::Insert) => insert(alloc, stamp, place, text),
        Some(Verb::Find) => find(alloc, place, text),
        Some(Verb::Update) => update(alloc, place, text),
        Some(Verb::Remove) => remove(alloc, place, text),
        Some(Verb::Create) => create(place, text),
        Some(Verb::Drop) => drop_collection(place, text),
        Some(Verb::EnsureIndex) => ensure_index(alloc, place, text),
        Some(Verb::DropIndex) => drop_index(place, text),
    }
}
