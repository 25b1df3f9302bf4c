//! The work that is timed.

ghost use Rattle.std.specs.Prelude.{◌≤◌, length};

use crate::documents::{change, check, copy, matches, notation, parse, scan};
use anyhow::{Result, bail};
use md5::{Digest, Md5};
use mm_section::{read_section, write_section};
use std::alloc::{AllocError, Global};

/// The id of the file that the section stands in.
const FILE_ID: u64 = 1;

/// What the line and the bytes ask for, or why it can't be done.
pub fn answer(alloc: Global, input: &[u8]) -> Result<String, AllocError> {
    match done(alloc, input) {
        Ok(text) => Ok(text),
        Err(fault) => format!(in alloc; "{fault}"),
    }
}

fn done(alloc: Global, input: &[u8]) -> Result<String> {
    let (line, section) = first_line(input);
    let line = str::from_utf8(line)?;
    let (word, times) = line.split_once(' ').unwrap_or((line, ""));
    let times = times.parse::<u32>()?;
    let len = match word {
        "hash" => hash(section, times),
        "read" => read(alloc, section, times)?,
        "write" => write(alloc, section, times)?,
        _ => on_documents(alloc, word, section, times)?,
    };
    Ok(format!(in alloc; "{times} times {len} bytes")?)
}

fn on_documents(alloc: Global, word: &str, bytes: &[u8], times: u32) -> Result<usize> {
    match word {
        "check" => check(bytes, times),
        "parse" => parse(alloc, bytes, times),
        "copy" => copy(alloc, bytes, times),
        "notation" => notation(alloc, bytes, times),
        "change" => change(alloc, bytes, times),
        "scan" => scan(bytes, times),
        "match" => matches(alloc, bytes, times),
        _ => bail!("no work has this name"),
    }
}

/// The first line, without the byte that ends it, and what follows it.
fn first_line(input: &[u8]) -> (&[u8], &[u8]) {
    let (line, rest) = input.split_at(line_len(input));
    match rest {
        [_end, behind @ ..] => (line, behind),
        [] => (line, rest),
    }
}

/// How long the first line is.
fn line_len(input: &[u8]) -> usize
    ensures { result ≤ length input.now }
{
    match input.iter().position(|byte| *byte == b'\n') {
        Some(place) => place,
        None => input.len(),
    }
}

fn hash(bytes: &[u8], times: u32) -> usize {
    for _ in 0..times {
        let _ = Md5::digest(bytes);
    }
    bytes.len()
}

fn read(alloc: Global, bytes: &[u8], times: u32) -> Result<usize> {
    let mut len = 0;
    for _ in 0..times {
        let Some((_section, read)) = read_section(alloc, bytes, FILE_ID)? else {
            bail!("no section");
        };
        len = read;
    }
    Ok(len)
}

/// Each round reads the section and writes it again.
fn write(alloc: Global, bytes: &[u8], times: u32) -> Result<usize> {
    let mut len = 0;
    for _ in 0..times {
        let Some((section, _)) = read_section(alloc, bytes, FILE_ID)? else {
            bail!("no section");
        };
        let mut out = Vec::new(alloc);
        write_section(&section, FILE_ID, &mut out)?;
        len = out.len();
    }
    Ok(len)
}
