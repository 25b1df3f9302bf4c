//! Answers public calls on operands that stand in lines of standard input, so that a rule can be tried by hand.
//!
//! A line is the name of an operation and its operands, each parted by a blank. Each line is answered by one line: by
//! what the call gives, or by the text of its fault. An empty line and a comment, which begins with `#`, are given
//! back as they are. The stored input and output are the tables of cases, each group under the rule that it is from.
//!
//! It promises no more than that it is safe and ends: what it shows is what the calls' own contracts say.
#![tactic(auto)]

mod answer;
mod changes;
mod documents;
mod filters;
mod keys;
mod notation;
mod operands;
mod places;
mod sizes;

use crate::answer::answer;
use std::io::{self, BufRead, BufReader};

fn main(rt: HostRuntime) -> io::Result<()> {
    let alloc = rt.alloc();
    let reader = BufReader::new(alloc, rt.reader())?;
    for line in reader.lines(alloc) {
        let text = answer(alloc, line?.as_str())?;
        println!(rt; "{text}")?;
    }
    Ok(())
}
