//! Scripts, read whole.

ghost use Rattle.std.specs.Prelude.{◌≡◌, ◌∷◌, ◌≤◌, ◌<◌, ◌+◌, ◌⊎◌, ◌&&◌, [], ℕ, List, length, position, nat_lt, IfOk, IfErr, OnOk, ◌++◌};
ghost use Rattle.std.specs.List.{position_or_len, cons_option};
ghost use Rattle.mm_model.specs.declared.action.Action.{Action};
ghost use Rattle.mm_script.specs.Grammar.{setting};
ghost use Rattle.mm_script.specs.Lines.{is_line_end, lines, is_skipped as is_skipped_line};
ghost use Rattle.mm_script.specs.Reading.{Gives, Reads, judged, script_at};
ghost use Rattle.mm_script.specs.Script.{most_bytes, IsScript, IsFirstRefused, IfLine};

use crate::fault::{LineWhat, ScriptFault};
use crate::lines::action_of;
use crate::stop::Stop;
use mm_base::Name;
use mm_model::Action;
use std::alloc::Global;
use std::marker::Model;

/// The most lines of a script.
pub const MOST_LINES: u32 = 100_000;

/// The most bytes of a script.
pub const MOST_BYTES: usize = 67_108_864;

/// A script, seen as its actions in the order of their lines.
#[derive(Drop)]
pub struct Script {
    actions: Vec<Action>,
}

impl Model for Script {
    ghost use Rattle.std.specs.Prelude.{List};
    ghost use Rattle.mm_model.specs.declared.action.Action.{Action};
    ghost use Rattle.mm_model.specs.contracts.action.Action as action_row;
    ghost use Rattle.std.specs.Coded.{codes};

    ghost Value = { List Action };

    ghost coded = { Prim.hlevel (codes, action_row.the_row.coded) };

    ghost view = { λ s. s.actions.items };
}

fn first_end(bytes: &[u8]) -> Option<usize>
    ensures { result ≡ position is_line_end bytes.now }
{
    bytes.iter().position(|byte| *byte == b'\n')
}

/// Where the first line ends.
fn place_of_end(bytes: &[u8]) -> usize
    ensures place { result ≡ position_or_len is_line_end bytes.now }
    ensures within { result ≤ length bytes.now }
{
    match first_end(bytes) {
        Some(place) => place,
        None => bytes.len(),
    }
}

/// The first line, without the byte that ends it, and what follows it.
fn first_line(bytes: &[u8]) -> (&[u8], &[u8])
    requires { 0 < length bytes.now }
    ensures first { lines bytes.now ≡ result.0.now ∷ lines result.1.now }
    ensures shorter { length result.1.now < length bytes.now }
    ensures sizes { (length result.0.now + 1 + length result.1.now ≡ length bytes.now) ⊎ ((length result.0.now ≡ length bytes.now) × (result.1.now ≡ [])) }
{
    let (line, rest) = bytes.split_at(place_of_end(bytes));
    if rest.is_empty() {
        return (line, rest);
    }
    let (_end, after) = rest.split_at(1);
    (line, after)
}

/// Whether a line is a comment, or holds nothing but spaces.
#[tactic(auto, unfolding(crate::specs::Lines::is_skipped))]
fn is_skipped(line: &[u8]) -> bool
    ensures { result ≡ is_skipped_line line.now }
{
    for byte in line {
        if *byte != b' ' {
            return *byte == b'#';
        }
    }
    true
}

/// What line `line` asks for, if it isn't skipped. It stands behind `at` bytes
/// of `total`.
#[tactic(auto, unfolding(crate::specs::Reading::judged))]
fn judge(
    alloc: Global,
    names: &[Name],
    stamp: u32,
    steps: bool,
    line: u32,
    too_long: bool,
    bytes: &[u8],
) -> Result<Option<Action>, Stop>
    ensures judged { (total at : ℕ) → too_long ≡ (nat_lt most_bytes total && nat_lt most_bytes (at + length bytes.now + 1))
        → Gives (λ a. a) result (judged (setting names.now stamp steps) total at line bytes.now) }
    ensures few { IfOk result (λ _. line ≤ MOST_LINES) }
{
    if line > MOST_LINES {
        return Err(Stop::What(LineWhat::TooManyLines));
    }
    if too_long {
        return Err(Stop::What(LineWhat::TooLong));
    }
    if is_skipped(bytes) {
        return Ok(None);
    }
    match action_of(alloc, names, stamp, steps, line, bytes) {
        Ok(action) => Ok(Some(action)),
        Err(stop) => Err(stop),
    }
}

fn push_found(actions: &mut Vec<Action>, found: Option<Action>) -> Result<(), ScriptFault>
    ensures ok { OnOk result (actions.new.items ≡ actions.old.items ++ cons_option found []) }
    ensures err { IfErr result (λ e. e ≡ ScriptFault.NoMemory) }
{
    if let Some(action) = found {
        actions.push(action)?;
    }
    Ok(())
}

/// The actions of all lines.
fn actions_of(
    alloc: Global,
    bytes: &[u8],
    names: &[Name],
    stamp: u32,
    steps: bool,
) -> Result<Vec<Action>, ScriptFault>
    ensures { Reads (λ v. v.items) result (script_at (setting names.now stamp steps) (length bytes.now) 0 1 (lines bytes.now)) }
{
    let mut actions = Vec::new(alloc);
    let mut rest = bytes;
    let mut number = 1;
    'lines: while !rest.is_empty() {
        let (line, after) = first_line(rest);
        let too_long = MOST_BYTES < bytes.len() - after.len();
        match judge(alloc, names, stamp, steps, number, too_long, line) {
            Ok(found) => push_found(&mut actions, found)?,
            Err(Stop::What(what)) => return Err(ScriptFault::Line { number, what }),
            Err(Stop::NoMemory) => return Err(ScriptFault::NoMemory),
        }
        number += 1;
        rest = after;
    }
    Ok(actions)
}

impl Script {
    /// Reads a script: its lines are commands of the databases with these
    /// names and, with `steps`, steps of the run. A document to be inserted
    /// has its `_id` in front, or one made of `stamp`, the session and the
    /// line.
    ///
    /// # Errors
    /// `Line` with the first line that a script can't have there, and what the
    /// first part of it that fails from the left isn't. `NoMemory`.
    pub fn read(
        alloc: Global,
        bytes: &[u8],
        names: &[Name],
        stamp: u32,
        steps: bool,
    ) -> Result<Script, ScriptFault>
        // What is read is what the lines stand for.
        ensures read { IfOk result (λ script. IsScript (setting names.now stamp steps) bytes.now script) }
        // No script with these bytes asks for anything else.
        ensures only { IfOk result (λ script. (asked : List Action) → IsScript (setting names.now stamp steps) bytes.now asked → asked ≡ script) }
        // A refusal names the first line that is refused, and why.
        ensures refused { IfLine result (λ number what. IsFirstRefused (setting names.now stamp steps) bytes.now number what) }
        // And then the bytes are no script.
        ensures none { IfLine result (λ number what. (asked : List Action) → IsScript (setting names.now stamp steps) bytes.now asked → ⊥) }
    {
        match actions_of(alloc, bytes, names, stamp, steps) {
            Ok(actions) => Ok(Script { actions }),
            Err(fault) => Err(fault),
        }
    }

    /// The actions, in the order of their lines.
    pub fn actions(&self) -> &[Action]
        ensures { result.now ≡ self.now }
    {
        self.actions.as_slice()
    }
}
