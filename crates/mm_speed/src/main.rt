//! Work that scripts time from outside, done as often as it is told.
//!
//! Standard input is a line with a word and a number, and behind it bytes. By the word they are
//! - `hash`, `read` or `write`: a section of the journal in the file with id 1, which is hashed, read, or read and written;
//! - `check`, `parse` or `copy`: a document, which is looked at in place, made, or copied;
//! - `notation`: a text that a document begins, which is read;
//! - `change`: a change and a document, of which the changed one is made;
//! - `scan`: documents, which are looked at in place; `match`: a filter and documents, and it is also looked whether each matches.
//!
//! The answer is one line: how often it was done, and how many bytes were hashed, read, written or made each time.
//!
//! It promises no more than that it is safe and ends: `bench/journal.py` and `bench/documents.py` time it.
#![tactic(auto)]

mod documents;
mod work;

use crate::work::answer;
use std::io::{self, Read};

fn main(rt: HostRuntime) -> io::Result<()> {
    let alloc = rt.alloc();
    let mut input = Vec::new(alloc);
    rt.reader().read_to_end(&mut input)?;
    let text = answer(alloc, input.as_slice())?;
    println!(rt; "{text}")?;
    Ok(())
}
