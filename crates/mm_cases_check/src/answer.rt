//! The answer to a line.

use crate::changes::damage;
use crate::drawing::drawn;
use crate::finding::told;
use crate::loading::{Files, is_inside};
use crate::making::{fresh, many, small};
use crate::numbers::{file, number, word};
use anyhow::{Result, bail};
use mm_views::Views;
use std::alloc::{AllocError, Global};

/// What one line of input is answered by. The operations are on the files.
pub(crate) fn answer(alloc: Global, files: &mut Files, line: &str) -> Result<String, AllocError> {
    if line.is_empty() || line.starts_with('#') {
        return String::from_str(alloc, line);
    }
    let (name, rest) = line.split_once(' ').unwrap_or((line, ""));
    match called(alloc, files, name, rest) {
        Ok(text) => Ok(text),
        Err(fault) => format!(in alloc; "{fault}"),
    }
}

// What the operation of this name gives.
fn called(alloc: Global, files: &mut Files, name: &str, rest: &str) -> Result<String> {
    match name {
        "new" => begin_new(alloc, files),
        "small" => begin_small(alloc, files),
        "many" => begin_many(alloc, files, rest),
        "damage" => damage(alloc, files, rest),
        "drawn" => drawn(alloc, files, rest),
        _ => asked(alloc, files.views(), name, rest),
    }
}

// The same of an operation that changes nothing.
fn asked(alloc: Global, views: &Views, name: &str, rest: &str) -> Result<String> {
    match name {
        "check" => told(alloc, views),
        "files" => cut(alloc, views, rest),
        "bytes" => bytes(alloc, views, rest),
        _ => bail!("no operation has this name"),
    }
}

// Holds the files of these views, and checks them.
fn begin(alloc: Global, files: &mut Files, made: &Views) -> Result<String> {
    *files = Files::of(alloc, made)?;
    told(alloc, files.views())
}

// `new`: makes a new database, and what a check says of it.
fn begin_new(alloc: Global, files: &mut Files) -> Result<String> {
    let made = fresh(alloc)?;
    begin(alloc, files, &made)
}

// `small`: makes the small database, and what a check says of it.
fn begin_small(alloc: Global, files: &mut Files) -> Result<String> {
    let made = small(alloc)?;
    begin(alloc, files, &made)
}

// `many COUNT LENGTH`: makes a database with so many documents of a length, and what a check says of it.
fn begin_many(alloc: Global, files: &mut Files, text: &str) -> Result<String> {
    let mut words = text.split_whitespace();
    let count = number(word(words.next())?)?;
    let len = number(word(words.next())?)?;
    let made = many(alloc, count, len)?;
    begin(alloc, files, &made)
}

// Puts in a file of a length.
fn put_file(alloc: Global, views: &Views, files: &mut Files, words: [&str; 2]) -> Result<()> {
    let file = file(words[0])?;
    let len = number(words[1])?;
    files.put_part(alloc, views, file, len)
}

// Puts in the files of a text, each with its length.
fn put_files(alloc: Global, views: &Views, files: &mut Files, text: &str) -> Result<()> {
    let mut words = text.split_whitespace();
    while let Some(first) = words.next() {
        let len = word(words.next())?;
        put_file(alloc, views, files, [first, len])?;
    }
    Ok(())
}

// `files FILE LENGTH ..`: what a check says where these files, and no others, have these lengths.
fn cut(alloc: Global, views: &Views, text: &str) -> Result<String> {
    let mut files = Files::new(alloc);
    put_files(alloc, views, &mut files, text)?;
    told(alloc, files.views())
}

// `bytes FILE OFFSET LENGTH`: these bytes.
fn bytes(alloc: Global, views: &Views, text: &str) -> Result<String> {
    let mut words = text.split_whitespace();
    let file = file(word(words.next())?)?;
    let at = number(word(words.next())?)?;
    let len = number(word(words.next())?)? as usize;
    if !is_inside(views, file, at, len) {
        bail!("no such place");
    }
    let mut bytes = vec![in alloc; 0; len]?;
    views.read(file, at, &mut bytes);
    Ok(hex::encode(alloc, &bytes)?)
}
