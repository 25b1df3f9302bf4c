//! What is asked of a disk, a source and a sink, and their answers as a text.

use mm_base::NoMemory;
use mm_outside::{Device, Disk, Sink, SinkFault, Source, SourceFault};
use std::alloc::{AllocError, Global};
use std::test::Fail;

/// What a disk is asked.
#[derive(Clone, Copy)]
pub enum Ask {
    Create(&'static str),
    Write(&'static str, u64, &'static [u8]),
    SetLen(&'static str, u64),
    Sync(&'static str),
    Remove(&'static str),
    Names,
    Len(&'static str),
    Read(&'static str, u64),
    Moment,
}

/// Asks for a change, if it is one.
fn changed<D: Disk>(disk: &mut D, ask: Ask) -> Option<Result<(), Device>> {
    match ask {
        Ask::Create(name) => Some(disk.create(name)),
        Ask::Write(name, at, bytes) if at < 1000 && bytes.len() < 1000 => {
            Some(disk.write_at(name, at, bytes))
        }
        Ask::SetLen(name, len) => Some(disk.set_len(name, len)),
        Ask::Sync(name) => Some(disk.sync(name)),
        Ask::Remove(name) => Some(disk.remove(name)),
        _ => None,
    }
}

/// Appends the names, each with a blank behind it.
fn names_of<D: Disk>(out: &mut String, disk: &mut D) -> Result<(), Device> {
    let mut names = Vec::new(*out.allocator());
    disk.names(&mut names)?;
    for name in &names {
        write!(out, "{name} ")?;
    }
    Ok(())
}

fn len_of<D: Disk>(out: &mut String, disk: &mut D, name: &str) -> Result<(), Device> {
    let len = disk.len(name)?;
    write!(out, "{len:?}")?;
    Ok(())
}

/// Appends how many bytes are read, and the buffer of six sevens behind it.
fn bytes_of<D: Disk>(out: &mut String, disk: &mut D, name: &str, at: u64) -> Result<(), Device> {
    let mut buf = [7u8; 6];
    let count = disk.read_at(name, at, &mut buf)?;
    write!(out, "{count} {buf:?}")?;
    Ok(())
}

/// Appends what is seen, if nothing fails.
fn seen<D: Disk>(out: &mut String, disk: &mut D, ask: Ask) -> Result<(), Device> {
    match ask {
        Ask::Names => names_of(out, disk),
        Ask::Read(name, at) => bytes_of(out, disk, name, at),
        Ask::Len(name) => len_of(out, disk, name),
        _ => Ok(write!(out, "{}", disk.moment())?),
    }
}

pub fn word(fault: Device) -> &'static str {
    match fault {
        Device::Fault => "fault",
        Device::NoMemory => "no memory",
    }
}

/// Appends the answer to one of the asks.
fn answer<D: Disk>(out: &mut String, disk: &mut D, ask: Ask) -> Result<(), AllocError> {
    let outcome = match changed(disk, ask) {
        Some(Ok(())) => return out.push_str("ok"),
        Some(outcome) => outcome,
        None => seen(out, disk, ask),
    };
    match outcome {
        Ok(()) => Ok(()),
        Err(fault) => out.push_str(word(fault)),
    }
}

/// What a disk answers, one after the other.
pub fn told<D: Disk>(alloc: Global, disk: &mut D, asks: &[Ask]) -> Result<String, AllocError> {
    let mut out = String::new(alloc);
    for ask in asks {
        answer(&mut out, disk, *ask)?;
        out.push_str("; ")?;
    }
    Ok(out)
}

/// What reads into buffers of so many sevens answer.
pub fn read<S: Source>(
    alloc: Global,
    source: &mut S,
    lens: &[usize],
) -> Result<String, AllocError> {
    let mut out = String::new(alloc);
    for len in lens {
        let mut buf = [7u8; 4];
        if 0 < *len && *len <= 4 {
            match source.read(&mut buf[..*len]) {
                Ok(count) => write!(out, "{count} {buf:?}; ")?,
                Err(SourceFault) => out.push_str("fault; ")?,
            }
        }
    }
    Ok(out)
}

/// What writes of these bytes answer.
pub fn written<K: Sink>(
    alloc: Global,
    sink: &mut K,
    texts: &[&[u8]],
) -> Result<String, AllocError> {
    let mut out = String::new(alloc);
    for text in texts {
        if !text.is_empty() {
            match sink.write(text) {
                Ok(count) => write!(out, "{count}; ")?,
                Err(SinkFault) => out.push_str("fault; ")?,
            }
        }
    }
    Ok(out)
}

#[test]
fn errors_have_a_text(rt: HostRuntime) -> Result<(), Fail> {
    let alloc = rt.alloc();
    let texts = format!(in alloc;
        "{}, {}, {}, {}, {}",
        NoMemory,
        Device::Fault,
        Device::NoMemory,
        SourceFault,
        SinkFault
    )?;
    assert_eq!(rt;
        texts.as_str(),
        "out of memory, the disk failed, out of memory, the source failed, the sink failed"
    );
    Ok(())
}
