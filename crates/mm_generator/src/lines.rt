//! Generated lines.

ghost use Rattle.std.specs.Prelude.{◌≡◌, ◌<◌, ◌≤◌, ◌∷◌, ◌++◌, [], length, IfOk, OnOk};
ghost use Rattle.mm_model.specs.declared.action.Action.TheVariants as action;
ghost use Rattle.mm_generator.specs.Generator.{index_line, bulk_line as line_drawn, flushes, pause, generated};

use crate::commands::{drawn_command, ensure_index};
use crate::draws::Draws;
use mm_base::{DbNo, Name, NoMemory, SessionNo};
use mm_model::Action;
use std::alloc::Global;

/// Sessions take turns.
const SESSIONS: u32 = 4;

/// Every so many lines all that was done is brought into the data files.
const LINES_PER_PAUSE: u32 = 200;

/// The line that makes the index on a database.
fn index_at(alloc: Global, line: u32) -> Result<Action, NoMemory>
    requires { 0 < line }
    ensures { IfOk result (λ a. a ≡ index_line line) }
{
    Ok(Action::Run {
        line,
        session: SessionNo(1),
        db: DbNo(line - 1),
        command: ensure_index(alloc)?,
        j: false,
    })
}

/// A line of `databases` databases.
#[tactic(auto, unfolding(crate::specs::Generator::bulk_line))]
fn bulk_line(
    alloc: Global,
    draws: &mut Draws,
    databases: u32,
    line: u32,
) -> Result<Action, NoMemory>
    requires { (0 < databases) × (0 < line) }
    ensures action { IfOk result (λ a. a ≡ (line_drawn databases line draws.old).0) }
    ensures state { OnOk result (draws.new ≡ (line_drawn databases line draws.old).1) }
{
    if line <= databases {
        return index_at(alloc, line);
    }
    let db = draws.draw() % databases;
    let (command, j) = drawn_command(alloc, line, draws)?;
    Ok(Action::Run {
        line,
        session: SessionNo(1 + line % SESSIONS),
        db: DbNo(db),
        command,
        j,
    })
}

/// Puts a flush of each database behind the others.
fn push_flushes(actions: &mut Vec<Action>, databases: u32, line: u32) -> Result<(), NoMemory>
    ensures { OnOk result (actions.new.items ≡ actions.old.items ++ flushes line 0 databases) }
{
    let mut db = 0;
    'databases: while db < databases {
        actions.push(Action::Flush { line, db: DbNo(db) })?;
        db += 1;
    }
    Ok(())
}

/// Puts the steps behind the others that stand behind a line.
#[tactic(auto, unfolding(crate::specs::Generator::pause))]
fn push_pause(actions: &mut Vec<Action>, databases: u32, line: u32) -> Result<(), NoMemory>
    ensures { OnOk result (actions.new.items ≡ actions.old.items ++ pause databases line) }
{
    if line % LINES_PER_PAUSE != 0 {
        return Ok(());
    }
    actions.push(Action::Commit { line })?;
    push_flushes(actions, databases, line)?;
    actions.push(Action::Sync { line })?;
    actions.push(Action::Lsn { line })?;
    actions.push(Action::Trim { line })?;
    Ok(())
}

/// Puts a line and its steps behind the others.
fn push_line(
    alloc: Global,
    actions: &mut Vec<Action>,
    draws: &mut Draws,
    databases: u32,
    line: u32,
) -> Result<(), NoMemory>
    requires { (0 < databases) × (0 < line) }
    ensures actions { OnOk result (actions.new.items ≡ actions.old.items ++ ((line_drawn databases line draws.old).0 ∷ pause databases line)) }
    ensures state { OnOk result (draws.new ≡ (line_drawn databases line draws.old).1) }
{
    let action = bulk_line(alloc, draws, databases, line)?;
    actions.push(action)?;
    push_pause(actions, databases, line)
}

/// How many databases there are. More than a u32 counts find no memory.
fn number_of(names: &[Name]) -> Result<u32, NoMemory>
    ensures { IfOk result (λ n. n ≡ length names.now) }
{
    match u32::try_from(names.len()) {
        Ok(number) => Ok(number),
        Err(_) => Err(NoMemory),
    }
}

/// Draws the actions of `count` lines from a seed, over databases of these
/// names. Lines are counted from 1; a step has the number of the line before
/// it.
pub fn generate(
    alloc: Global,
    seed: u64,
    count: u32,
    names: &[Name],
) -> Result<Vec<Action>, NoMemory>
    requires { 0 < length names.now }
    ensures { IfOk result (λ actions. actions.items ≡ generated seed count (length names.now)) }
{
    let databases = number_of(names)?;
    let mut actions = Vec::new(alloc);
    let mut draws = Draws::new(seed);
    let mut line = 0;
    'lines: while line < count {
        line += 1;
        push_line(alloc, &mut actions, &mut draws, databases, line)?;
    }
    Ok(actions)
}
