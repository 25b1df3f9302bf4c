//! The commands of generated lines.

ghost use Rattle.std.specs.Prelude.{◌≡◌, ◌==◌, ◌%◌, true, false, Some, IfOk, OnOk};
ghost use Rattle.mm_model.specs.declared.command.Command.TheVariants as command;
ghost use Rattle.mm_generator.specs.Generator.{bulk, k_index, by_k, one_more, draw, drawn, Drawn, insert_at, update_at, find_at, remove_at, of_kind, drawn_line};

use crate::draws::Draws;
use crate::fields::{bulk_fields, by_key, counting};
use mm_base::{Name, NoMemory};
use mm_bson::Doc;
use mm_keys::KeySpec;
use mm_model::Command;
use std::alloc::Global;

/// The keys of the inserted documents are below this.
const KEYS: u32 = 1000;

/// The numbers in their texts are below this.
const TEXTS: u32 = 100_000;

/// Every so many lines an insert waits for its group's sync.
const LINES_PER_J: u32 = 50;

/// The collection of all lines.
fn bulk_name() -> Name
    ensures { result ≡ bulk }
{
    Name::new(b"bulk").unwrap()
}

/// The index that each database has on it.
fn index_name() -> Name
    ensures { result ≡ k_index }
{
    Name::new(b"k_1").unwrap()
}

/// The command that makes the index.
pub(crate) fn ensure_index(alloc: Global) -> Result<Command, NoMemory>
    ensures { IfOk result (λ c. c ≡ command.EnsureIndex bulk k_index (by_k 1) false) }
{
    match KeySpec::from_doc(alloc, &by_key(alloc, 1)?) {
        Ok(spec) => Ok(Command::EnsureIndex {
            coll: bulk_name(),
            name: index_name(),
            spec,
            unique: false,
        }),
        Err(_) => Err(NoMemory),
    }
}

/// A filter on a key that is drawn.
fn drawn_filter(alloc: Global, draws: &mut Draws) -> Result<Doc, NoMemory>
    ensures filter { IfOk result (λ d. d ≡ by_k (draw draws.old % KEYS)) }
    ensures state { OnOk result (draws.new ≡ drawn draws.old) }
{
    by_key(alloc, draws.draw() % KEYS)
}

fn insert(alloc: Global, line: u32, draws: &mut Draws) -> Result<Command, NoMemory>
    ensures command { IfOk result (λ c. c ≡ (insert_at line draws.old).command) }
    ensures state { OnOk result (draws.new ≡ (insert_at line draws.old).state) }
{
    let key = draws.draw() % KEYS;
    let text = draws.draw() % TEXTS;
    Ok(Command::Insert {
        coll: bulk_name(),
        doc: bulk_fields(alloc, line, key, text)?,
    })
}

fn update(alloc: Global, draws: &mut Draws) -> Result<Command, NoMemory>
    ensures command { IfOk result (λ c. c ≡ (update_at draws.old).command) }
    ensures state { OnOk result (draws.new ≡ (update_at draws.old).state) }
{
    Ok(Command::Update {
        coll: bulk_name(),
        filter: drawn_filter(alloc, draws)?,
        change: counting(alloc)?,
        multi: true,
    })
}

fn find(alloc: Global, draws: &mut Draws) -> Result<Command, NoMemory>
    ensures command { IfOk result (λ c. c ≡ (find_at draws.old).command) }
    ensures state { OnOk result (draws.new ≡ (find_at draws.old).state) }
{
    Ok(Command::Find {
        coll: bulk_name(),
        filter: drawn_filter(alloc, draws)?,
        index: Some(index_name()),
    })
}

fn remove(alloc: Global, draws: &mut Draws) -> Result<Command, NoMemory>
    ensures command { IfOk result (λ c. c ≡ (remove_at draws.old).command) }
    ensures state { OnOk result (draws.new ≡ (remove_at draws.old).state) }
{
    Ok(Command::Remove {
        coll: bulk_name(),
        filter: drawn_filter(alloc, draws)?,
        one: false,
    })
}

/// The command of a kind from 0 to 9, and whether it waits for its group.
fn of_kind(
    alloc: Global,
    line: u32,
    draws: &mut Draws,
    kind: u32,
) -> Result<(Command, bool), NoMemory>
    ensures command { IfOk result (λ c. c.0 ≡ (of_kind line draws.old kind).command) }
    ensures j { IfOk result (λ c. c.1 ≡ (of_kind line draws.old kind).j) }
    ensures state { OnOk result (draws.new ≡ (of_kind line draws.old kind).state) }
{
    match kind {
        0..=5 => Ok((insert(alloc, line, draws)?, line % LINES_PER_J == 0)),
        6 | 7 => Ok((update(alloc, draws)?, false)),
        8 => Ok((find(alloc, draws)?, false)),
        _ => Ok((remove(alloc, draws)?, false)),
    }
}

/// A command that is drawn, and whether it waits for its group.
pub(crate) fn drawn_command(
    alloc: Global,
    line: u32,
    draws: &mut Draws,
) -> Result<(Command, bool), NoMemory>
    ensures command { IfOk result (λ c. c.0 ≡ (drawn_line line draws.old).command) }
    ensures j { IfOk result (λ c. c.1 ≡ (drawn_line line draws.old).j) }
    ensures state { OnOk result (draws.new ≡ (drawn_line line draws.old).state) }
{
    let kind = draws.draw() % 10;
    of_kind(alloc, line, draws, kind)
}
