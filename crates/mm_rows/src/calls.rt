//! The top call over a disk, a source and a sink in memory.

use mm_main::tool_main;
use mm_memdisk::{MemDisk, MemSink, MemSource};
use std::alloc::{AllocError, Global};

/// The bytes of a source.
pub enum Script {
    Text(&'static [u8]),
    /// Inserts of documents of these lengths in bytes, 15 at least. Each has a text of `x`, which is its `_id`.
    Inserts(&'static [usize]),
    /// An insert, and a line of `x` behind it, so many bytes together.
    Padded(usize),
}

/// A script of one insert of `{"_id": 1}`.
pub const ONE_INSERT: &[u8] = b"1 test insert c hex:0e000000105f6964000100000000\n";

/// A call of a source and one of a sink that fail; 0 is none.
pub type Failing = (u64, u64);

/// The code of the status, how many bytes the sink took, and whether these are the text that was wanted.
pub type Said = (u8, usize, bool);

/// Appends a line that inserts a document of so many bytes.
fn push_insert(script: &mut Vec<u8>, len: usize) -> Result<(), AllocError> {
    script.extend_from_slice(b"1 test insert c {\"_id\": \"")?;
    let end = script.len().saturating_add(len.saturating_sub(15));
    script.resize(end, b'x')?;
    script.extend_from_slice(b"\"}\n")
}

fn inserts(alloc: Global, lens: &[usize]) -> Result<Vec<u8>, AllocError> {
    let mut script = Vec::new(alloc);
    for len in lens {
        push_insert(&mut script, *len)?;
    }
    Ok(script)
}

fn padded(alloc: Global, len: usize) -> Result<Vec<u8>, AllocError> {
    let mut script = ONE_INSERT.to_vec(alloc)?;
    script.resize(len, b'x')?;
    Ok(script)
}

fn bytes_of(alloc: Global, script: &Script) -> Result<Vec<u8>, AllocError> {
    match script {
        Script::Text(bytes) => bytes.to_vec(alloc),
        Script::Inserts(lens) => inserts(alloc, lens),
        Script::Padded(len) => padded(alloc, *len),
    }
}

fn words_of(alloc: Global, all: &[&str]) -> Result<Vec<String>, AllocError> {
    let mut words = Vec::new(alloc);
    for word in all {
        words.push(String::from_str(alloc, word)?)?;
    }
    Ok(words)
}

/// The code that the words give.
fn code_of(
    alloc: Global,
    words: &[&str],
    source: &mut MemSource,
    sink: &mut MemSink,
    disk: &mut MemDisk,
) -> Result<u8, AllocError> {
    let words = words_of(alloc, words)?;
    Ok(tool_main(alloc, &words, source, sink, disk).code())
}

/// What is said of a source's bytes.
fn said_of(
    alloc: Global,
    words: &[&str],
    source: &mut MemSource,
    failing: u64,
    disk: &mut MemDisk,
    text: &[u8],
) -> Result<Said, AllocError> {
    let mut sink = MemSink::new(alloc, vec![in alloc; failing]?);
    let code = code_of(alloc, words, source, &mut sink, disk)?;
    let taken = sink.taken();
    Ok((code, taken.len(), taken == text))
}

fn source_of(alloc: Global, script: &Script, failing: u64) -> Result<MemSource, AllocError> {
    let bytes = bytes_of(alloc, script)?;
    Ok(MemSource::new(bytes, vec![in alloc; failing]?))
}

/// What the top call says to these words over a disk, where a read and a write fail.
pub fn said(
    alloc: Global,
    disk: &mut MemDisk,
    words: &[&str],
    script: &Script,
    failing: Failing,
    text: &[u8],
) -> Result<Said, AllocError> {
    let (read, write) = failing;
    let mut source = source_of(alloc, script, read)?;
    said_of(alloc, words, &mut source, write, disk, text)
}
