//! Operations on scripts and their texts. A script is read with the databases `test` and `other`, with numbers 0 and 1,
//! and with the stamp 1400000000.

use crate::actions::put_actions;
use anyhow::{Result, bail};
use mm_base::Name;
use mm_model::Action;
use mm_script::{Fate, LineList, Script, generate, write_group};
use std::alloc::{AllocError, Global};

/// The stamp of made `_id`s.
const STAMP: u32 = 1_400_000_000;

/// A name that these bytes spell.
fn name(bytes: &[u8]) -> Result<Name> {
    match Name::new(bytes) {
        Some(name) => Ok(name),
        None => bail!("no name"),
    }
}

/// The first word of a text, and what follows it.
fn first_word(text: &str) -> (&str, &str) {
    text.split_once(' ').unwrap_or((text, ""))
}

/// The actions as a text.
fn actions_text(alloc: Global, actions: &[Action]) -> Result<String> {
    let mut out = Vec::new(alloc);
    put_actions(alloc, &mut out, actions)?;
    Ok(String::from_utf8(out)?)
}

/// The script's two databases.
fn databases() -> Result<[Name; 2]> {
    Ok([name(b"test")?, name(b"other")?])
}

fn read(alloc: Global, bytes: &[u8], steps: bool) -> Result<String> {
    let script = Script::read(alloc, bytes, &databases()?, STAMP, steps)?;
    actions_text(alloc, script.actions())
}

/// Appends a text, with a line end for each bar.
fn put_lines(out: &mut Vec<u8>, text: &[u8]) -> Result<(), AllocError> {
    for byte in text {
        out.push(if *byte == b'|' { b'\n' } else { *byte })?;
    }
    Ok(())
}

/// The script of a text, in which a bar stands for the end of a line, behind so many empty lines and so many `#`.
fn read_behind(
    alloc: Global,
    lines: usize,
    marks: usize,
    text: &str,
    steps: bool,
) -> Result<String> {
    let mut bytes = vec![in alloc; b'\n'; lines]?;
    bytes.resize(lines.saturating_add(marks), b'#')?;
    put_lines(&mut bytes, text.as_bytes())?;
    read(alloc, bytes.as_slice(), steps)
}

/// `script TEXT`: the actions of a script in which a bar stands for the end of a line, parted by bars.
pub fn script(alloc: Global, text: &str) -> Result<String> {
    read_behind(alloc, 0, 0, text, true)
}

/// `commands TEXT`: the same of a script that has no steps.
pub fn commands(alloc: Global, text: &str) -> Result<String> {
    read_behind(alloc, 0, 0, text, false)
}

/// `script_hex HEX`: the same of a script in hexadecimal digits.
pub fn script_hex(alloc: Global, digits: &str) -> Result<String> {
    let bytes = hex::decode(alloc, digits)?;
    read(alloc, bytes.as_slice(), true)
}

/// `behind LINES MARKS TEXT`: the same behind so many empty lines, and then so many `#`.
pub fn behind(alloc: Global, text: &str) -> Result<String> {
    let (lines, rest) = first_word(text);
    let (marks, text) = first_word(rest);
    read_behind(
        alloc,
        lines.parse::<usize>()?,
        marks.parse::<usize>()?,
        text,
        true,
    )
}

/// Appends the names that the words of a text are.
fn put_names(names: &mut Vec<Name>, text: &str) -> Result<()> {
    for word in text.split_whitespace() {
        names.push(name(word.as_bytes())?)?;
    }
    Ok(())
}

/// The actions that are drawn with these names, but for so many of the first ones.
fn shown(alloc: Global, seed: u64, count: u32, skip: usize, names: &[Name]) -> Result<String> {
    if names.is_empty() {
        bail!("no name");
    }
    let actions = generate(alloc, seed, count, names)?;
    match actions.get(skip..) {
        Some(shown) => actions_text(alloc, shown),
        None => bail!("not so many actions"),
    }
}

/// `generate SEED COUNT SKIP NAME..`: the actions that are drawn, but for the first ones.
pub fn drawn(alloc: Global, text: &str) -> Result<String> {
    let (seed, rest) = first_word(text);
    let (count, rest) = first_word(rest);
    let (skip, rest) = first_word(rest);
    let seed = seed.parse::<u64>()?;
    let count = count.parse::<u32>()?;
    let skip = skip.parse::<usize>()?;
    let mut names = Vec::new(alloc);
    put_names(&mut names, rest)?;
    shown(alloc, seed, count, skip, names.as_slice())
}

fn fate(word: &str) -> Result<Fate> {
    match word {
        "not_synced" => Ok(Fate::NotSynced),
        "not_closed" => Ok(Fate::NotClosed),
        _ => Ok(Fate::Synced {
            moment: word.parse::<u64>()?,
        }),
    }
}

/// Appends the numbers that the words of a text are.
fn put_line_numbers(lines: &mut LineList, text: &str) -> Result<()> {
    for number in text.split_whitespace() {
        lines.push(number.parse::<u32>()?)?;
    }
    Ok(())
}

/// A database's name, and the numbers behind it.
fn lines_of(alloc: Global, text: &str) -> Result<(Name, LineList)> {
    let (word, rest) = first_word(text);
    let name = name(word.as_bytes())?;
    let mut lines = LineList::new(alloc);
    put_line_numbers(&mut lines, rest)?;
    Ok((name, lines))
}

/// Appends the databases of a group, which are parted by bars.
fn put_entries(alloc: Global, entries: &mut Vec<(Name, LineList)>, text: &str) -> Result<()> {
    for part in text.split('|') {
        entries.push(lines_of(alloc, part)?)?;
    }
    Ok(())
}

fn group_text(
    alloc: Global,
    number: u64,
    fate: Fate,
    entries: &[(Name, LineList)],
) -> Result<String> {
    let mut out = Vec::new(alloc);
    write_group(number, fate, entries, &mut out)?;
    let _end = out.pop();
    Ok(String::from_utf8(out)?)
}

/// `group NUMBER MOMENT NAME LINE..|NAME LINE..`: the line of a group without its end; for the moment may stand
/// `not_synced` or `not_closed`.
pub fn group(alloc: Global, text: &str) -> Result<String> {
    let (number, rest) = first_word(text);
    let (moment, rest) = first_word(rest);
    let number = number.parse::<u64>()?;
    let fate = fate(moment)?;
    let mut entries = Vec::new(alloc);
    put_entries(alloc, &mut entries, rest)?;
    group_text(alloc, number, fate, entries.as_slice())
}
