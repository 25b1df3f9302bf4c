//! Operands that are numbers, and the names of files.

use anyhow::{Result, bail};
use mm_views::NS_FILE;

/// The number of a file: that of `.ns` is spelled `ns`.
pub(crate) fn file(word: &str) -> Result<u32> {
    if word == "ns" {
        return Ok(NS_FILE);
    }
    number(word)
}

/// A number.
pub(crate) fn number(word: &str) -> Result<u32> {
    Ok(word.parse::<u32>()?)
}

/// A word that is there.
pub(crate) fn word<'a>(next: Option<&'a str>) -> Result<&'a str> {
    match next {
        Some(word) => Ok(word),
        None => bail!("an operand is missing"),
    }
}
