//! Bytes of files that are changed for one check.

use crate::finding::told;
use crate::loading::{Change, Files, is_inside};
use crate::numbers::{file, number, word};
use anyhow::{Result, bail};
use mm_views::Views;
use std::alloc::{AllocError, Global};

// The change that a file, an offset and bytes in hexadecimal digits ask for.
fn change_of(alloc: Global, words: [&str; 3]) -> Result<Change> {
    Ok(Change {
        file: file(words[0])?,
        at: number(words[1])?,
        bytes: hex::decode(alloc, words[2])?,
    })
}

// The changes of a text.
fn changes(alloc: Global, text: &str) -> Result<Vec<Change>> {
    let mut all = Vec::new(alloc);
    let mut words = text.split_whitespace();
    while let Some(first) = words.next() {
        let at = word(words.next())?;
        let bytes = word(words.next())?;
        all.push(change_of(alloc, [first, at, bytes])?)?;
    }
    Ok(all)
}

// Whether the files have as many bytes at each place.
fn are_inside(views: &Views, changes: &[Change]) -> bool {
    for change in changes {
        if !is_inside(views, change.file, change.at, change.bytes.len()) {
            return false;
        }
    }
    true
}

fn swap_all(alloc: Global, files: &mut Files, changes: &mut [Change]) -> Result<(), AllocError> {
    for i in 0..changes.len() {
        files.swap(alloc, &mut changes[i])?;
    }
    Ok(())
}

fn swap_back(alloc: Global, files: &mut Files, changes: &mut [Change]) -> Result<(), AllocError> {
    for i in (0..changes.len()).rev() {
        files.swap(alloc, &mut changes[i])?;
    }
    Ok(())
}

// What a check says where the bytes are swapped. They are put back.
fn told_with(alloc: Global, files: &mut Files, changes: &mut [Change]) -> Result<String> {
    swap_all(alloc, files, changes)?;
    let said = told(alloc, files.views());
    swap_back(alloc, files, changes)?;
    said
}

/// `damage FILE OFFSET BYTES ..`: what a check says where these bytes stand there. They are put back.
pub(crate) fn damage(alloc: Global, files: &mut Files, text: &str) -> Result<String> {
    let mut changes = changes(alloc, text)?;
    if !are_inside(files.views(), &changes) {
        bail!("no such place");
    }
    told_with(alloc, files, &mut changes)
}
