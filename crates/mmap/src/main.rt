//! The store's program: the top call over a folder and the standard streams.
#![tactic(auto)]

use mm_host::{FolderDisk, StdinSource, StdoutSink};
use mm_main::{Status, tool_main};
use std::alloc::{AllocError, Global};
use std::process::ExitCode;
use std::{env, io};

// The words behind the program's name.
fn words_of(rt: &HostRuntime) -> io::Result<Vec<String>> {
    let mut words = Vec::new(rt.alloc());
    for word in env::args(rt)?.skip(1) {
        words.push(word)?;
    }
    Ok(words)
}

// The folder that the words name, or the empty name.
fn folder_of(alloc: Global, words: &[String]) -> Result<String, AllocError> {
    match words.get(1) {
        Some(folder) => folder.clone(),
        None => Ok(String::new(alloc)),
    }
}

fn main(rt: HostRuntime) -> ExitCode {
    let alloc = rt.alloc();
    let words = match words_of(&rt) {
        Ok(words) => words,
        Err(error) => {
            if error.kind() == io::ErrorKind::OutOfMemory {
                return ExitCode::from(Status::NoMemory.code());
            }
            Vec::new(alloc)
        }
    };
    let Ok(folder) = folder_of(alloc, &words) else {
        return ExitCode::from(Status::NoMemory.code());
    };
    let mut disk = FolderDisk::new(rt, folder);
    let mut source = StdinSource::new(rt);
    let mut sink = StdoutSink::new(rt);
    let status = tool_main(alloc, &words, &mut source, &mut sink, &mut disk);
    ExitCode::from(status.code())
}
