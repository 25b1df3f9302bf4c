//! The lines of groups.

ghost use Rattle.std.specs.Prelude.{◌≡◌, [], ◌∷◌, ◌++◌, length, flat_map, decimal, OnOk, OnErr};
ghost use Rattle.mm_notation.specs.Written.{Grows};
ghost use Rattle.mm_script.specs.Groups.{head_text, entry_text, database_text, group_text};

use crate::writing::{put, put_counted, put_number};
use mm_base::{Name, NoMemory};
use std::alloc::{AllocError, Global};
use std::marker::Model;

/// What became of a group.
#[derive(Clone, Copy, Debug, PartialEq, Eq)]
pub enum Fate {
    /// Its section was synced at this moment of the disk.
    Synced { moment: u64 },
    /// It was closed, and its section wasn't synced.
    NotSynced,
    /// The run ended before it was closed.
    NotClosed,
}

/// Lines of a script by number, seen as the list of their numbers.
#[derive(Drop)]
pub struct LineList {
    lines: Vec<u32>,
}

impl Model for LineList {
    ghost use Rattle.std.specs.Prelude.{List, ℕ};
    ghost use Rattle.std.specs.Coded.{coded_list, coded_ℕ};

    ghost Value = { List ℕ };

    ghost coded = { coded_list coded_ℕ };

    ghost view = { λ l. l.lines.items };
}

impl LineList {
    /// No lines. It takes no memory.
    pub fn new(alloc: Global) -> LineList
        ensures { result ≡ [] }
    {
        LineList {
            lines: Vec::new(alloc),
        }
    }

    /// Puts a line behind the others.
    pub fn push(&mut self, line: u32) -> Result<(), AllocError>
        ensures ok { OnOk result (self.new ≡ self.old ++ line ∷ []) }
        ensures err { OnErr result (self.new ≡ self.old) }
    {
        self.lines.push(line)?;
        Ok(())
    }

    /// The numbers, in their order.
    pub fn lines(&self) -> &[u32]
        ensures { result.now ≡ self.now }
    {
        self.lines.as_slice()
    }
}

/// Puts a word, a number and what became of the group.
fn put_fate(out: &mut Vec<u8>, word: &[u8], number: u64, fate: &[u8]) -> Result<(), AllocError>
    ensures ok { OnOk result (out.new.items ≡ out.old.items ++ (word.now ++ (decimal number ++ fate.now))) }
    ensures err { OnErr result (Grows out.old.items out.new.items) }
{
    put(out, word)?;
    put_number(out, number)?;
    put(out, fate)
}

fn put_head(out: &mut Vec<u8>, number: u64, fate: Fate) -> Result<(), AllocError>
    ensures ok { OnOk result (out.new.items ≡ out.old.items ++ head_text number fate) }
    ensures err { OnErr result (Grows out.old.items out.new.items) }
{
    match fate {
        Fate::Synced { moment } => {
            put_counted(out, b"section ", number)?;
            put_counted(out, b" at ", moment)
        }
        Fate::NotSynced => put_fate(out, b"group ", number, b" not synced"),
        Fate::NotClosed => put_fate(out, b"group ", number, b" not closed"),
    }
}

fn put_lines(out: &mut Vec<u8>, lines: &[u32]) -> Result<(), AllocError>
    ensures ok { OnOk result (out.new.items ≡ out.old.items ++ flat_map entry_text lines.now) }
    ensures err { OnErr result (Grows out.old.items out.new.items) }
{
    for line in lines {
        put_counted(out, b" ", u64::from(*line))?;
    }
    Ok(())
}

/// Puts a name between two marks, and lines.
fn put_row(
    out: &mut Vec<u8>,
    before: &[u8],
    name: &[u8],
    behind: &[u8],
    lines: &[u32],
) -> Result<(), AllocError>
    ensures ok { OnOk result (out.new.items ≡ out.old.items ++ (before.now ++ (name.now ++ (behind.now ++ flat_map entry_text lines.now)))) }
    ensures err { OnErr result (Grows out.old.items out.new.items) }
{
    put(out, before)?;
    put(out, name)?;
    put(out, behind)?;
    put_lines(out, lines)
}

fn put_database(out: &mut Vec<u8>, name: &Name, lines: &LineList) -> Result<(), AllocError>
    ensures ok { OnOk result (out.new.items ≡ out.old.items ++ database_text (name.now, lines.now)) }
    ensures err { OnErr result (Grows out.old.items out.new.items) }
{
    put_row(out, b" ", name.bytes(), b":", lines.lines())
}

fn put_databases(out: &mut Vec<u8>, entries: &[(Name, LineList)]) -> Result<(), AllocError>
    ensures ok { OnOk result (out.new.items ≡ out.old.items ++ flat_map database_text entries.now) }
    ensures err { OnErr result (Grows out.old.items out.new.items) }
{
    for entry in entries {
        put_database(out, &entry.0, &entry.1)?;
    }
    Ok(())
}

fn put_group(
    out: &mut Vec<u8>,
    number: u64,
    fate: Fate,
    entries: &[(Name, LineList)],
) -> Result<(), AllocError>
    ensures ok { OnOk result (out.new.items ≡ out.old.items ++ group_text number fate entries.now) }
    ensures err { OnErr result (Grows out.old.items out.new.items) }
{
    put_head(out, number, fate)?;
    put_databases(out, entries)?;
    put(out, b"\n")
}

/// Puts the line of a group behind other bytes: its number, what became of it,
/// and for each database, in their order, the name and the lines of its
/// entries. `out` is as before where memory runs out.
pub fn write_group(
    number: u64,
    fate: Fate,
    entries: &[(Name, LineList)],
    out: &mut Vec<u8>,
) -> Result<(), NoMemory>
    ensures ok { OnOk result (out.new.items ≡ out.old.items ++ group_text number fate entries.now) }
    ensures err { OnErr result (out.new.items ≡ out.old.items) }
{
    let len = out.len();
    match put_group(out, number, fate, entries) {
        Ok(()) => Ok(()),
        Err(_) => {
            out.truncate(len);
            Err(NoMemory)
        }
    }
}
