//! Bytes of headers that are drawn and changed.

use crate::finding::told;
use crate::headers::{Part, blocks, extents, file_headers, nodes};
use crate::loading::{Change, Files, is_inside};
use crate::numbers::{number, word};
use anyhow::Result;
use mm_views::Views;
use std::alloc::{AllocError, Global};

// Numbers that follow one another from a seed on.
#[derive(Clone, Copy)]
struct Draws {
    state: u64,
}

impl Draws {
    fn next(&mut self) -> u32 {
        self.state = self
            .state
            .wrapping_mul(6_364_136_223_846_793_005)
            .wrapping_add(1_442_695_040_888_963_407);
        (self.state >> 33) as u32
    }
}

// The headers by kind: of files, nodes, extents and blocks.
fn headers(alloc: Global, views: &Views) -> Result<[Vec<Part>; 4], AllocError> {
    let extents = extents(alloc, views)?;
    let blocks = blocks(alloc, views, &extents)?;
    Ok([
        file_headers(alloc, views)?,
        nodes(alloc, views)?,
        extents,
        blocks,
    ])
}

// The byte at a place; 0 where the file has none there.
fn byte_at(views: &Views, file: u32, at: u32) -> u8 {
    let mut bytes = [0; 1];
    if is_inside(views, file, at, 1) {
        views.read(file, at, &mut bytes);
    }
    bytes[0]
}

// The place of a drawn byte of a drawn one of these.
fn place_in(draws: &mut Draws, parts: &[Part]) -> (u32, u32) {
    if parts.is_empty() {
        return (0, 0);
    }
    let part = parts[draws.next() as usize % parts.len()];
    let byte = draws.next() % part.len.max(1);
    (part.file, part.at.saturating_add(byte))
}

// The place of a drawn byte of a header of a drawn kind.
fn place_of(draws: &mut Draws, headers: &[Vec<Part>; 4]) -> (u32, u32) {
    let kind = draws.next() as usize % 4;
    place_in(draws, &headers[kind])
}

// Another byte at a drawn place.
fn change_of(
    alloc: Global,
    views: &Views,
    draws: &mut Draws,
    headers: &[Vec<Part>; 4],
) -> Result<Change, AllocError> {
    let (file, at) = place_of(draws, headers);
    let other = byte_at(views, file, at) ^ (1 + draws.next() % 255) as u8;
    let bytes = vec![in alloc; other; 1]?;
    Ok(Change { file, at, bytes })
}

// Whether two checks say the same where the byte is changed. It is put back.
fn is_told_twice(alloc: Global, files: &mut Files, change: &mut Change) -> Result<bool> {
    files.swap(alloc, change)?;
    let first = told(alloc, files.views());
    let second = told(alloc, files.views());
    files.swap(alloc, change)?;
    Ok(first? == second?)
}

// How many of so many changes are answered twice the same.
fn told_twice(
    alloc: Global,
    files: &mut Files,
    headers: &[Vec<Part>; 4],
    draws: &mut Draws,
    count: u32,
) -> Result<u32> {
    let mut same: u32 = 0;
    for step in 0..count {
        let mut change = change_of(alloc, files.views(), draws, headers)?;
        if is_told_twice(alloc, files, &mut change)? {
            same = same.saturating_add(1);
        }
    }
    Ok(same)
}

/// `drawn SEED COUNT`: how many of so many drawn bytes of headers, changed one at a time, are answered twice the same.
pub(crate) fn drawn(alloc: Global, files: &mut Files, text: &str) -> Result<String> {
    let mut words = text.split_whitespace();
    let state = u64::from(number(word(words.next())?)?);
    let count = number(word(words.next())?)?;
    let headers = headers(alloc, files.views())?;
    let same = told_twice(alloc, files, &headers, &mut Draws { state }, count)?;
    Ok(format!(in alloc; "{same}")?)
}
