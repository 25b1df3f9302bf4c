//! Reads scripts, draws them, and writes replies and groups, as lines of standard input ask, so that the language can
//! be tried by hand.
//!
//! A line is the name of an operation and its operands, each parted by a blank. Each line is answered by one line: by
//! what the call gives, or by the text of its fault. An empty line and a comment, which begins with `#`, are given
//! back as they are. The stored input and output are the tables of cases, each group under the rule that it is from.
//!
//! It promises no more than that it is safe and ends: what it shows is what the calls' own contracts say.
#![tactic(auto)]

mod actions;
mod answer;
mod replies;
mod scripts;

use crate::answer::answer;
use std::io::{self, BufRead, BufReader};

fn main(rt: HostRuntime) -> io::Result<()> {
    let alloc = rt.alloc();
    let reader = BufReader::new(alloc, rt.reader())?;
    for line in reader.lines(alloc) {
        let text = answer(alloc, line?.as_str())?;
        println!(rt; "{text}")?;
    }
    Ok(())
}
