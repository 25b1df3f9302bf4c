//! Where the headers stand in the files of a database, by the lengths that they have.

use crate::loading::is_inside;
use mm_views::{NS_FILE, Views};
use std::alloc::{AllocError, Global};

/// Some bytes of a file.
#[derive(Clone, Copy)]
pub(crate) struct Part {
    pub(crate) file: u32,
    pub(crate) at: u32,
    pub(crate) len: u32,
}

/// More than the headers of any database here.
const MOST: u32 = 100_000;

// The number at a place, 0 where the file has no four bytes there.
fn word_at(views: &Views, file: u32, at: u32) -> u32 {
    let mut bytes = [0; 4];
    if is_inside(views, file, at, 4) {
        views.read(file, at, &mut bytes);
    }
    u32::from_le_bytes(bytes)
}

/// The headers of the data files that are there.
pub(crate) fn file_headers(alloc: Global, views: &Views) -> Result<Vec<Part>, AllocError> {
    let mut parts = Vec::new(alloc);
    for file in 0..8 {
        if views.len(file).is_some() {
            parts.push(Part {
                file,
                at: 0,
                len: 24,
            })?;
        }
    }
    Ok(parts)
}

/// The used nodes.
pub(crate) fn nodes(alloc: Global, views: &Views) -> Result<Vec<Part>, AllocError> {
    let mut parts = Vec::new(alloc);
    for node in 0..views.len(NS_FILE).unwrap_or(0) / 628 {
        let at = node * 628;
        if word_at(views, NS_FILE, at) != 0 {
            parts.push(Part {
                file: NS_FILE,
                at,
                len: 628,
            })?;
        }
    }
    Ok(parts)
}

// Appends the headers of the extents of a file: each has its length at 156, and the file's header at 16 the place behind the last.
fn put_extents(views: &Views, file: u32, parts: &mut Vec<Part>) -> Result<(), AllocError> {
    let end = word_at(views, file, 16);
    let mut at: u32 = 8192;
    for step in 0..MOST {
        let len = word_at(views, file, at.saturating_add(156));
        if at >= end || len == 0 {
            return Ok(());
        }
        parts.push(Part { file, at, len: 176 })?;
        at = at.saturating_add(len);
    }
    Ok(())
}

/// The headers of the extents.
pub(crate) fn extents(alloc: Global, views: &Views) -> Result<Vec<Part>, AllocError> {
    let mut parts = Vec::new(alloc);
    for file in 0..8 {
        put_extents(views, file, &mut parts)?;
    }
    Ok(parts)
}

// Appends the headers of the blocks of an extent: each has its length at 0.
fn put_blocks(views: &Views, extent: Part, parts: &mut Vec<Part>) -> Result<(), AllocError> {
    let file = extent.file;
    let end = extent
        .at
        .saturating_add(word_at(views, file, extent.at.saturating_add(156)));
    let mut at = extent.at.saturating_add(extent.len);
    for step in 0..MOST {
        let len = word_at(views, file, at);
        if at >= end || len == 0 {
            return Ok(());
        }
        parts.push(Part { file, at, len: 16 })?;
        at = at.saturating_add(len);
    }
    Ok(())
}

/// The headers of the live records and the deleted blocks, of which these are the extents.
pub(crate) fn blocks(
    alloc: Global,
    views: &Views,
    extents: &[Part],
) -> Result<Vec<Part>, AllocError> {
    let mut parts = Vec::new(alloc);
    for extent in extents {
        put_blocks(views, *extent, &mut parts)?;
    }
    Ok(parts)
}
