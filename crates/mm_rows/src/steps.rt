//! What is done with a disk, step by step, and what is seen of it.

use crate::calls::{Failing, ONE_INSERT, Said, Script, said};
use crate::steps::Step::{
    Bytes, Calls, Dump, DumpOf, Fail, Len, Make, Moment, Play, Run, SetLen, Write,
};
use mm_memdisk::MemDisk;
use mm_outside::{Device, Disk};
use std::alloc::{AllocError, Global};
use std::process::Abort;

/// A change of the disk, a call of the top call with the code of its status and its text, or what is seen of the disk.
pub enum Step {
    /// Makes a file.
    Make(&'static str),
    /// Gives the data file a length.
    SetLen(u64),
    /// Writes bytes over the data file.
    Write(u32, &'static [u8]),
    /// This changing call of the disk is to fail.
    Fail(u64),
    Play(Script, u8, &'static [u8]),
    /// A dump, which makes no change.
    Dump(u8, &'static [u8]),
    /// A dump that ends well, whose text has so many bytes.
    DumpOf(usize),
    /// These words over a script of one insert, where a read and a write fail.
    Run(&'static [&'static str], Failing, u8, &'static [u8]),
    /// The disk's moment.
    Moment(u64),
    /// How many calls the disk had.
    Calls(u64),
    /// The length of the data file.
    Len(u64),
    /// Bytes of the data file.
    Bytes(u32, &'static [u8]),
}

/// What is done with a disk that has no files at first.
pub type Case = &'static [Step];

const DATA_FILE: &str = "test.0";

fn change(disk: &mut MemDisk, step: &Step) -> Result<(), Device> {
    match step {
        Make(name) => disk.create(name),
        SetLen(len) => disk.set_len(DATA_FILE, *len),
        Write(at, bytes) => disk.write_at(DATA_FILE, u64::from(*at), bytes),
        _ => Ok(()),
    }
}

fn fail_at(alloc: Global, disk: &mut MemDisk, call: u64) -> Result<(), AllocError> {
    disk.fail_at(vec![in alloc; call]?);
    Ok(())
}

fn has_bytes(alloc: Global, disk: &mut MemDisk, at: u32, bytes: &[u8]) -> Result<bool, Device> {
    let mut found = vec![in alloc; 9; bytes.len()]?;
    disk.read_at(DATA_FILE, u64::from(at), &mut found)?;
    Ok(found.as_slice() == bytes)
}

fn has_len(disk: &mut MemDisk, len: u64) -> Result<bool, Device> {
    Ok(disk.len(DATA_FILE)? == Some(len))
}

/// What a dump says, if it makes no change.
fn dumped(alloc: Global, disk: &mut MemDisk, text: &[u8]) -> Result<Option<Said>, AllocError> {
    let moment = disk.moment();
    let said = said(
        alloc,
        disk,
        &["dump", "F"],
        &Script::Text(b""),
        (0, 0),
        text,
    )?;
    Ok((disk.moment() == moment).then_some(said))
}

fn dumps(alloc: Global, disk: &mut MemDisk, code: u8, text: &[u8]) -> Result<bool, AllocError> {
    Ok(dumped(alloc, disk, text)? == Some((code, text.len(), true)))
}

fn dumps_of(alloc: Global, disk: &mut MemDisk, len: usize) -> Result<bool, AllocError> {
    Ok(dumped(alloc, disk, b"")? == Some((0, len, len == 0)))
}

fn says(
    alloc: Global,
    disk: &mut MemDisk,
    words: &[&str],
    script: &Script,
    failing: Failing,
    code: u8,
    text: &[u8],
) -> Result<bool, AllocError> {
    let said = said(alloc, disk, words, script, failing, text)?;
    Ok(said == (code, text.len(), true))
}

/// Whether the top call says what it should.
fn is_said(alloc: Global, disk: &mut MemDisk, step: &Step) -> Result<bool, AllocError> {
    match step {
        Play(script, code, text) => {
            says(alloc, disk, &["play", "F"], script, (0, 0), *code, text)
        }
        Run(words, failing, code, text) => {
            says(
                alloc,
                disk,
                words,
                &Script::Text(ONE_INSERT),
                *failing,
                *code,
                text,
            )
        }
        Dump(code, text) => dumps(alloc, disk, *code, text),
        DumpOf(len) => dumps_of(alloc, disk, *len),
        _ => Ok(false),
    }
}

/// Whether the disk has what it should.
fn is_seen(alloc: Global, disk: &mut MemDisk, step: &Step) -> Result<bool, Device> {
    match step {
        Moment(moment) => Ok(disk.moment() == *moment),
        Calls(count) => Ok(disk.calls_made() == *count),
        Len(len) => has_len(disk, *len),
        Bytes(at, bytes) => has_bytes(alloc, disk, *at, bytes),
        _ => Ok(false),
    }
}

/// Does a step, and answers whether all is as it says.
fn holds(alloc: Global, disk: &mut MemDisk, step: &Step) -> Result<bool, Device> {
    match step {
        Play(..) | Run(..) | Dump(..) | DumpOf(_) => Ok(is_said(alloc, disk, step)?),
        Moment(_) | Calls(_) | Len(_) | Bytes(..) => is_seen(alloc, disk, step),
        Fail(call) => {
            fail_at(alloc, disk, *call)?;
            Ok(true)
        }
        _ => {
            change(disk, step)?;
            Ok(true)
        }
    }
}

/// The first step that doesn't hold.
fn first_step(alloc: Global, disk: &mut MemDisk, steps: &[Step]) -> Result<Option<usize>, Device> {
    for (i, step) in steps.iter().enumerate() {
        if !holds(alloc, disk, step)? {
            return Ok(Some(i));
        }
    }
    Ok(None)
}

fn first_of(alloc: Global, steps: &[Step]) -> Result<Option<usize>, Device> {
    let mut disk = MemDisk::new(alloc);
    first_step(alloc, &mut disk, steps)
}

/// The first case in which a step doesn't hold, with the first such step.
fn first_other(alloc: Global, cases: &[Case]) -> Result<Option<(usize, usize)>, Device> {
    for (i, steps) in cases.iter().enumerate() {
        if let Some(step) = first_of(alloc, steps)? {
            return Ok(Some((i, step)));
        }
    }
    Ok(None)
}

/// Compares all steps of these cases.
pub fn hold(judge: &impl Abort, alloc: Global, cases: &[Case]) {
    assert_eq!(judge; first_other(alloc, cases), Ok(None));
}
