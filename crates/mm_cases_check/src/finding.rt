//! What a check says, as a text.

use crate::names::database;
use anyhow::{Result, bail};
use mm_check::check;
use mm_model::{CheckFault, Finding, Report, What};
use mm_views::{NS_FILE, Views};
use std::alloc::{AllocError, Global};

// The word of what is wrong.
fn word_of(what: What) -> &'static str {
    match what {
        What::File => "file",
        What::Node => "node",
        What::Extent => "extent",
        What::Extents => "extents",
        What::Lost => "lost",
        What::Chain => "chain",
        What::Deleted => "deleted",
        What::Tiling => "tiling",
        What::Counts => "counts",
        What::Document => "document",
        What::Index => "index",
        What::Bucket => "bucket",
        What::Pair => "pair",
    }
}

// A finding: its file, offset and word.
fn found(alloc: Global, finding: Finding) -> Result<String, AllocError> {
    let (at, word) = (finding.at, word_of(finding.what));
    if finding.file == NS_FILE {
        return format!(in alloc; "ns {at} {word}");
    }
    let file = finding.file;
    format!(in alloc; "{file} {at} {word}")
}

// What is told where nothing is found.
fn reported(alloc: Global, report: Report) -> Result<String, AllocError> {
    let (files, collections, documents) = (report.files, report.collections, report.documents);
    let (indexes, buckets) = (report.indexes, report.buckets);
    format!(in alloc;
        "files {files} collections {collections} documents {documents} indexes {indexes} buckets {buckets}"
    )
}

/// What a check says of the files.
pub(crate) fn told(alloc: Global, views: &Views) -> Result<String> {
    let Some(name) = database() else {
        bail!("no name");
    };
    match check(alloc, &name, views) {
        Ok(report) => Ok(reported(alloc, report)?),
        Err(CheckFault::Found(finding)) => Ok(found(alloc, finding)?),
        Err(CheckFault::NoMemory) => bail!("out of memory"),
    }
}
