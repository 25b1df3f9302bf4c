//! Checks the files of a database, whole and damaged, as lines of standard input ask.
//!
//! A line is the name of an operation and its operands, each parted by a blank. Each line is answered by one line: by what the call gives,
//! or by the text of its fault. An empty line and a comment, which begins with `#`, are given back as they are. The stored input and output
//! are the tables of cases, each group under the rule that it is from.
//!
//! The files are made by the calls on namespaces and records, each at a draft whose files stand, and are then held as loaded views, in which
//! bytes are changed for one check and put back. That each damage is answered as its row says is what the table shows; no clause says it.
#![tactic(auto)]

mod answer;
mod calls;
mod changes;
mod drawing;
mod finding;
mod headers;
mod loading;
mod making;
mod names;
mod numbers;

use crate::answer::answer;
use crate::loading::Files;
use std::alloc::Global;
use std::io::{self, BufRead, BufReader};

/// Answers each line of the input.
fn answer_all(rt: &(impl Print + Input), alloc: Global, files: &mut Files) -> io::Result<()> {
    let reader = BufReader::new(alloc, rt.reader())?;
    for line in reader.lines(alloc) {
        let text = answer(alloc, files, line?.as_str())?;
        println!(rt; "{text}")?;
    }
    Ok(())
}

fn main(rt: HostRuntime) -> io::Result<()> {
    let alloc = rt.alloc();
    let mut files = Files::new(alloc);
    answer_all(&rt, alloc, &mut files)
}
