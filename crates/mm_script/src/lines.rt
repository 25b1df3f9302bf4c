//! Reading a line.

ghost use Rattle.std.specs.Prelude.{◌≡◌, ◌∷◌, Bool, IfOk, IfErr};
ghost use Rattle.mm_script.specs.Form.{ends};
ghost use Rattle.mm_script.specs.Grammar.{setting, verb_form, database_form, in_database as form_in_database, in_session as form_in_session, of_step as form_of_step, flush_of as form_of_flush, step_form, first_form, line_form};
ghost use Rattle.mm_script.specs.Reading.{Gives, read, line_at};

use crate::commands::{Place, of_verb};
use crate::fault::LineWhat;
use crate::stop::Stop;
use crate::verbs::{Step, database_of, is_step, session_of, step_of, verb_of};
use crate::words::{any_word, end, first_word};
use mm_base::{DbNo, Name};
use mm_model::Action;
use std::alloc::Global;
use std::str;

/// A database's number. One that doesn't fit finds no memory.
fn number_of(place: Option<usize>) -> Result<Option<u32>, Stop>
    ensures number { IfOk result (λ number. number ≡ place) }
    ensures memory { IfErr result (λ e. e ≡ Stop.NoMemory) }
{
    match place {
        None => Ok(None),
        Some(place) => match u32::try_from(place) {
            Ok(number) => Ok(Some(number)),
            Err(_) => Err(Stop::NoMemory),
        },
    }
}

/// The action of a line that ends here.
fn ending(action: Action, text: &str) -> Result<Action, Stop>
    ensures { Gives (λ a. a) result (read (ends action) text.now) }
{
    end(text)?;
    Ok(action)
}

fn flush_of(line: u32, db: Option<u32>, text: &str) -> Result<Action, Stop>
    ensures { Gives (λ a. a) result (read (form_of_flush line db) text.now) }
{
    match db {
        None => Err(Stop::What(LineWhat::Database)),
        Some(db) => ending(Action::Flush { line, db: DbNo(db) }, text),
    }
}

/// A flush, behind its word.
fn flush(names: &[Name], line: u32, text: &str) -> Result<Action, Stop>
    ensures { Gives (λ a. a) result (read (form_of_step names.now line (Some Step.Flush)) text.now) }
{
    let (word, rest) = any_word(LineWhat::Database, text)?;
    let db = number_of(database_of(names, word.as_bytes()))?;
    flush_of(line, db, rest)
}

/// A step, which may be none.
fn of_step(names: &[Name], line: u32, step: Option<Step>, text: &str) -> Result<Action, Stop>
    ensures { Gives (λ a. a) result (read (form_of_step names.now line step) text.now) }
{
    match step {
        None => Err(Stop::What(LineWhat::Step)),
        Some(Step::Close) => ending(Action::Close { line }, text),
        Some(Step::Log) => ending(Action::Log { line }, text),
        Some(Step::Apply) => ending(Action::Apply { line }, text),
        Some(Step::Remap) => ending(Action::Remap { line }, text),
        Some(Step::Commit) => ending(Action::Commit { line }, text),
        Some(Step::Flush) => flush(names, line, text),
        Some(Step::Sync) => ending(Action::Sync { line }, text),
        Some(Step::Lsn) => ending(Action::Lsn { line }, text),
        Some(Step::Trim) => ending(Action::Trim { line }, text),
    }
}

/// A line whose first word is a step's.
#[tactic(auto, unfolding(crate::specs::Grammar::step_form))]
fn step(
    names: &[Name],
    stamp: u32,
    steps: bool,
    line: u32,
    word: &str,
    text: &str,
) -> Result<Action, Stop>
    ensures { Gives (λ a. a) result (read (step_form (setting names.now stamp steps) line word.now) text.now) }
{
    if !steps {
        return Err(Stop::What(LineWhat::Step));
    }
    of_step(names, line, step_of(word.as_bytes()), text)
}

/// A command behind its database.
#[tactic(auto, unfolding(crate::specs::Grammar::verb_form))]
fn command(alloc: Global, stamp: u32, place: Place, text: &str) -> Result<Action, Stop>
    ensures { Gives (λ a. a) result (read (verb_form stamp place) text.now) }
{
    let (word, rest) = any_word(LineWhat::Verb, text)?;
    of_verb(alloc, stamp, place, verb_of(word.as_bytes()), rest)
}

fn in_database(
    alloc: Global,
    stamp: u32,
    line: u32,
    session: u32,
    db: Option<u32>,
    text: &str,
) -> Result<Action, Stop>
    ensures { Gives (λ a. a) result (read (form_in_database stamp line session db) text.now) }
{
    match db {
        None => Err(Stop::What(LineWhat::Database)),
        Some(db) => command(alloc, stamp, Place { line, session, db }, text),
    }
}

/// A command behind its session.
#[tactic(auto, unfolding(crate::specs::Grammar::database_form))]
fn behind_session(
    alloc: Global,
    names: &[Name],
    stamp: u32,
    line: u32,
    session: u32,
    text: &str,
) -> Result<Action, Stop>
    ensures { (steps : Bool) → Gives (λ a. a) result (read (database_form (setting names.now stamp steps) line session) text.now) }
{
    let (word, rest) = any_word(LineWhat::Database, text)?;
    let db = number_of(database_of(names, word.as_bytes()))?;
    in_database(alloc, stamp, line, session, db, rest)
}

/// A line behind its first word.
fn behind_first(
    alloc: Global,
    names: &[Name],
    stamp: u32,
    steps: bool,
    line: u32,
    word: &str,
    text: &str,
) -> Result<Action, Stop>
    ensures { Gives (λ a. a) result (read (first_form (setting names.now stamp steps) line word.now) text.now) }
{
    if is_step(word.as_bytes()) {
        return step(names, stamp, steps, line, word, text);
    }
    match session_of(word.as_bytes()) {
        None => Err(Stop::What(LineWhat::Session)),
        Some(session) => behind_session(alloc, names, stamp, line, session, text),
    }
}

/// A line that isn't skipped.
#[tactic(auto, unfolding(crate::specs::Grammar::line_form))]
fn whole_line(
    alloc: Global,
    names: &[Name],
    stamp: u32,
    steps: bool,
    line: u32,
    text: &str,
) -> Result<Action, Stop>
    ensures { Gives (λ a. a) result (read (line_form (setting names.now stamp steps) line) (0x20 ∷ text.now)) }
{
    let (word, rest) = first_word(LineWhat::Session, text)?;
    behind_first(alloc, names, stamp, steps, line, word, rest)
}

/// The action of line `line`, which isn't skipped.
#[tactic(auto, unfolding(crate::specs::Reading::line_at))]
pub(crate) fn action_of(
    alloc: Global,
    names: &[Name],
    stamp: u32,
    steps: bool,
    line: u32,
    bytes: &[u8],
) -> Result<Action, Stop>
    ensures { Gives (λ a. a) result (line_at (setting names.now stamp steps) line bytes.now) }
{
    match str::from_utf8(bytes) {
        Ok(text) => whole_line(alloc, names, stamp, steps, line, text),
        Err(_) => Err(Stop::What(LineWhat::Utf8)),
    }
}
