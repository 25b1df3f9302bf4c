//! Operations on places in files. A range is three numbers: its file, its offset and its length.

use crate::filters::truth;
use anyhow::{Result, bail};
use mm_ranges::{RangeSet, is_file, max_len};
use std::alloc::{AllocError, Global};

/// The numbers of a text.
fn numbers(alloc: Global, text: &str) -> Result<Vec<u32>> {
    let mut numbers = Vec::new(alloc);
    for word in text.split_whitespace() {
        numbers.push(word.parse::<u32>()?)?;
    }
    Ok(numbers)
}

/// Puts the places of these ranges into a set, one after the other.
fn fill(set: &mut RangeSet, numbers: &[u32]) -> Result<()> {
    let mut rest = numbers;
    while let [file, at, len, others @ ..] = rest {
        if *len == 0 || at.checked_add(*len).is_none() {
            bail!("no range");
        }
        set.insert(*file, *at, *len)?;
        rest = others;
    }
    Ok(())
}

/// `union RANGE..`: the ranges of all their places.
pub fn union(alloc: Global, text: &str) -> Result<String> {
    let numbers = numbers(alloc, text)?;
    let mut set = RangeSet::new(alloc);
    fill(&mut set, numbers.as_slice())?;
    Ok(ranges_of(alloc, &set)?)
}

fn ranges_of(alloc: Global, set: &RangeSet) -> Result<String, AllocError> {
    let mut out = String::new(alloc);
    for range in set.iter() {
        put_range(&mut out, range)?;
    }
    Ok(out)
}

/// Appends a range, with a blank before it if something stands there.
fn put_range(out: &mut String, range: (u32, u32, u32)) -> Result<(), AllocError> {
    let (file, at, len) = range;
    if !out.is_empty() {
        out.push(' ')?;
    }
    write!(out, "{file} {at} {len}")
}

/// `covers RANGE RANGE..`: whether each place of the first range is in one of the others.
pub fn coverage(alloc: Global, text: &str) -> Result<String> {
    let numbers = numbers(alloc, text)?;
    truth(alloc, is_covered(alloc, numbers.as_slice())?)
}

fn is_covered(alloc: Global, numbers: &[u32]) -> Result<bool> {
    let [file, at, len, others @ ..] = numbers else {
        bail!("no range");
    };
    let mut set = RangeSet::new(alloc);
    fill(&mut set, others)?;
    Ok(set.covers(*file, *at, *len))
}

/// `file NUMBER`: whether a database may have a file of this number, and how many bytes it may have.
pub fn file(alloc: Global, text: &str) -> Result<String> {
    let file = text.parse::<u32>()?;
    let is = is_file(file);
    let most = max_len(file);
    Ok(format!(in alloc; "{is} {most}")?)
}
