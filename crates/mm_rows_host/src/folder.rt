//! The disk of a real folder, with what its system is asked.

use crate::outside::Ask::{Create, Len, Moment, Names, Read, Remove, SetLen, Sync, Write};
use crate::outside::{Ask, word};
use crate::watched::{Watched, append};
use mm_host::FolderDisk;
use mm_outside::{Device, Disk};
use std::alloc::{AllocError, Global};
use std::cell::RefCell;
use std::os::unix::fs::symlink;
use std::process::Abort;
use std::test::Fail;
use std::{fs, io, process};

/// A folder in which disks play, one after the other.
#[derive(Clone, Copy)]
struct Case {
    name: &'static str,
    /// Whether it stands before, with the files that `make` puts there.
    is_made: bool,
    /// What stands behind the folder's path in that of the disk.
    below: &'static str,
    plays: &'static [Play],
}

/// What a disk is asked over a system that takes and gives at most so many bytes at once, and each answer, behind what
/// the system was asked for it. F is the disk's folder.
type Play = (usize, &'static [Ask], &'static str);

/// Any number of bytes.
const ALL: usize = usize::MAX;

/// Nothing is there, and no call makes it but `create`.
const ABSENT: Case = Case {
    name: "absent",
    is_made: false,
    below: "",
    plays: &[(
        ALL,
        &[
            Names,
            Len("test.0"),
            Read("test.0", 0),
            Write("test.0", 0, b"abc"),
            SetLen("test.0", 9),
            Sync("test.0"),
            Remove("test.0"),
            Moment,
        ],
        "; None; 0 [7, 7, 7, 7, 7, 7]; ok; ok; ok; ok; 4; ",
    )],
};

/// The folder and its subfolder are made with their first files, and a file that is there is made durable again. A second
/// disk finds them, and counts from its own start. A removal is durable by its folder's sync, also where the file is gone
/// already.
const MADE_AND_REMOVED: Case = Case {
    name: "made",
    is_made: false,
    below: "",
    plays: &[
        (
            ALL,
            &[
                Create("test.0"),
                Names,
                Create("journal/lsn"),
                Create("journal/j._0"),
                Create("a.0"),
                Create("test.0"),
                Names,
            ],
            "make F; make F/test.0; sync F/..; sync F; ok; test.0 ; make F/journal; make F/journal/lsn; sync F/..; sync F; sync F/journal; ok; make F/journal/j._0; sync F/..; sync F; sync F/journal; ok; make F/a.0; sync F/..; sync F; ok; sync F/..; sync F; ok; a.0 journal/j._0 journal/lsn test.0 ; ",
        ),
        (
            ALL,
            &[
                Len("test.0"),
                Remove("test.0"),
                Remove("test.0"),
                Remove("journal/j._0"),
                Moment,
                Len("test.0"),
                Names,
            ],
            "Some(0); take F/test.0; sync F; ok; sync F; ok; take F/journal/j._0; sync F/journal; ok; 3; None; a.0 journal/lsn ; ",
        ),
    ],
};

/// Folders that stand are synced too: a run may have been stopped between a folder's making and its sync.
const STANDING: Case = Case {
    name: "standing",
    is_made: true,
    below: "",
    plays: &[(
        ALL,
        &[Create("test.0"), Create("journal/lsn")],
        "make F/test.0; sync F/..; sync F; ok; make F/journal/lsn; sync F/..; sync F; sync F/journal; ok; ",
    )],
};

/// A gap is zero, a write of no bytes lengthens too, `create` leaves a file as it is, and a sync is that of the file.
const BYTES: Case = Case {
    name: "bytes",
    is_made: false,
    below: "",
    plays: &[(
        ALL,
        &[
            Create("test.0"),
            Write("test.0", 4, b"cd"),
            Sync("test.0"),
            Write("test.0", 0, b"ab"),
            Create("test.0"),
            Read("test.0", 0),
            Read("test.0", 3),
            Read("test.0", 6),
            Read("test.0", u64::MAX),
            Write("test.0", 8, b""),
            Len("test.0"),
            Write("test.0", 3, b""),
            SetLen("test.0", 5),
            SetLen("test.0", 6),
            Sync("test.0"),
            Read("test.0", 0),
        ],
        "make F; make F/test.0; sync F/..; sync F; ok; write F/test.0; ok; sync F/test.0; ok; write F/test.0; ok; sync F/..; sync F; ok; 6 [97, 98, 0, 0, 99, 100]; 3 [0, 99, 100, 7, 7, 7]; 0 [7, 7, 7, 7, 7, 7]; 0 [7, 7, 7, 7, 7, 7]; cut F/test.0; ok; Some(8); ok; cut F/test.0; ok; cut F/test.0; ok; sync F/test.0; ok; 6 [97, 98, 0, 0, 99, 0]; ",
    )],
};

/// Reads and writes go on where the system takes or gives few bytes, and stop where it takes none.
const SHORT: Case = Case {
    name: "short",
    is_made: false,
    below: "",
    plays: &[
        (
            2,
            &[
                Create("test.0"),
                Write("test.0", 1, b"abcde"),
                Read("test.0", 0),
                Read("test.0", 1),
            ],
            "make F; make F/test.0; sync F/..; sync F; ok; write F/test.0; write F/test.0; write F/test.0; ok; 6 [0, 97, 98, 99, 100, 101]; 5 [97, 98, 99, 100, 101, 7]; ",
        ),
        (
            0,
            &[Write("test.0", 0, b"x"), Write("test.0", 0, b""), Moment],
            "write F/test.0; fault; ok; 2; ",
        ),
        (ALL, &[Read("test.0", 0)], "6 [0, 97, 98, 99, 100, 101]; "),
    ],
};

/// These names never reach the system, and the changing call counts as begun.
const REFUSED: Case = Case {
    name: "refused",
    is_made: false,
    below: "",
    plays: &[(
        ALL,
        &[
            Create(""),
            Len(""),
            Create("."),
            Len("."),
            Create(".."),
            Len(".."),
            Create("/x"),
            Len("/x"),
            Create("../x"),
            Len("../x"),
            Create("sub/x"),
            Len("sub/x"),
            Create("journal/"),
            Len("journal/"),
            Create("journal/.."),
            Len("journal/.."),
            Create("journal/sub/x"),
            Len("journal/sub/x"),
            Moment,
            Names,
        ],
        "fault; fault; fault; fault; fault; fault; fault; fault; fault; fault; fault; fault; fault; fault; fault; fault; fault; fault; 9; ; ",
    )],
};

/// A folder, a device and a link that leads nowhere are not among the names and are left alone: each call that would read,
/// make, change or take them is a fault, and the system is asked for nothing that changes. A link to a file is that
/// file, and a removal takes the link.
const NO_FILES: Case = Case {
    name: "others",
    is_made: true,
    below: "",
    plays: &[(
        ALL,
        &[
            Create("journal"),
            Write("journal", 0, b"x"),
            SetLen("journal", 0),
            Sync("journal"),
            Remove("journal"),
            Read("journal", 0),
            Len("journal"),
            Create("device"),
            Write("device", 0, b"x"),
            SetLen("device", 0),
            Sync("device"),
            Remove("device"),
            Read("device", 0),
            Len("device"),
            Create("dangling"),
            Write("dangling", 0, b"x"),
            SetLen("dangling", 0),
            Sync("dangling"),
            Remove("dangling"),
            Read("dangling", 0),
            Len("dangling"),
            Moment,
            Names,
            Create("b.0"),
            Write("b.0", 3, b"d"),
            Len("a.0"),
            Remove("b.0"),
            Len("b.0"),
            Len("a.0"),
        ],
        "fault; fault; fault; fault; fault; fault; None; fault; fault; fault; fault; fault; fault; None; fault; fault; fault; fault; fault; fault; None; 15; a.0 b.0 ; sync F/..; sync F; ok; write F/b.0; ok; Some(4); take F/b.0; sync F; ok; None; Some(4); ",
    )],
};

/// Only the folder itself is made where it is missing.
const NO_FOLDER_ABOVE: Case = Case {
    name: "deep",
    is_made: false,
    below: "/sub",
    plays: &[(ALL, &[Names, Create("test.0"), Moment], "; fault; 1; ")],
};

/// A file is no folder.
const A_FILE: Case = Case {
    name: "file",
    is_made: true,
    below: "/a.0",
    plays: &[(ALL, &[Names, Create("test.0"), Moment], "fault; fault; 1; ")],
};

/// Removes a folder, if it is there.
fn clear(rt: HostRuntime, folder: &str) -> Result<(), Fail> {
    if fs::exists(&rt, folder)? {
        fs::remove_dir_all(&rt, folder)?;
    }
    Ok(())
}

/// The path of a folder that isn't there.
fn fresh_folder(rt: HostRuntime, name: &str) -> Result<String, Fail> {
    let id = process::id(rt.process());
    let folder = format!(in rt.alloc(); "mm_rows_host-{name}-{id}")?;
    clear(rt, folder.as_str())?;
    Ok(folder)
}

/// Puts a link into a folder.
fn link(rt: HostRuntime, folder: &str, name: &str, to: &str) -> Result<(), Fail> {
    symlink(&rt, to, format!(in rt.alloc(); "{folder}/{name}")?)?;
    Ok(())
}

/// Makes a folder with a file of three bytes and a link to it, a subfolder, a device and a link that leads nowhere.
fn make(rt: HostRuntime, folder: &str) -> Result<(), Fail> {
    fs::create_dir(&rt, folder)?;
    fs::create_dir(&rt, format!(in rt.alloc(); "{folder}/journal")?)?;
    fs::write(&rt, format!(in rt.alloc(); "{folder}/a.0")?, "abc")?;
    link(rt, folder, "b.0", "a.0")?;
    link(rt, folder, "device", "/dev/null")?;
    link(rt, folder, "dangling", "nowhere")
}

/// Asks for a change, if it is one.
fn changed(disk: &mut FolderDisk<Watched<'_>>, ask: Ask) -> Option<Result<(), Device>> {
    match ask {
        Create(name) => Some(disk.create(name)),
        Write(name, at, bytes) if at < 1000 && bytes.len() < 1000 => {
            Some(disk.write_at(name, at, bytes))
        }
        SetLen(name, len) => Some(disk.set_len(name, len)),
        Sync(name) => Some(disk.sync(name)),
        Remove(name) => Some(disk.remove(name)),
        _ => None,
    }
}

/// Appends the names, each with a blank behind it.
fn names_of(out: &mut String, disk: &mut FolderDisk<Watched<'_>>) -> Result<(), Device> {
    let mut names = Vec::new(*out.allocator());
    disk.names(&mut names)?;
    for name in &names {
        write!(out, "{name} ")?;
    }
    Ok(())
}

/// Appends how many bytes are read, and the buffer of six sevens behind it.
fn bytes_of(
    out: &mut String,
    disk: &mut FolderDisk<Watched<'_>>,
    name: &str,
    at: u64,
) -> Result<(), Device> {
    let mut buf = [7u8; 6];
    let count = disk.read_at(name, at, &mut buf)?;
    write!(out, "{count} {buf:?}")?;
    Ok(())
}

fn len_of(out: &mut String, disk: &mut FolderDisk<Watched<'_>>, name: &str) -> Result<(), Device> {
    let len = disk.len(name)?;
    write!(out, "{len:?}")?;
    Ok(())
}

fn moment_of(out: &mut String, disk: &FolderDisk<Watched<'_>>) -> Result<(), Device> {
    let moment = disk.moment();
    write!(out, "{moment}")?;
    Ok(())
}

/// Appends what is seen, if nothing fails.
fn seen(out: &mut String, disk: &mut FolderDisk<Watched<'_>>, ask: Ask) -> Result<(), Device> {
    match ask {
        Names => names_of(out, disk),
        Read(name, at) => bytes_of(out, disk, name, at),
        Len(name) => len_of(out, disk, name),
        _ => moment_of(out, disk),
    }
}

/// Appends the answer to one of the asks.
fn answer(
    out: &mut String,
    disk: &mut FolderDisk<Watched<'_>>,
    ask: Ask,
) -> Result<(), AllocError> {
    let outcome = match changed(disk, ask) {
        Some(Ok(())) => return out.push_str("ok"),
        Some(outcome) => outcome,
        None => seen(out, disk, ask),
    };
    match outcome {
        Ok(()) => Ok(()),
        Err(fault) => out.push_str(word(fault)),
    }
}

/// Asks a disk, and puts each answer behind what the system was asked for it.
fn ask_all(
    alloc: Global,
    disk: &mut FolderDisk<Watched<'_>>,
    asked: &RefCell<String>,
    asks: &[Ask],
) -> io::Result<()> {
    for ask in asks {
        let mut text = String::new(alloc);
        answer(&mut text, disk, *ask)?;
        append(asked, &[text.as_str(), "; "])?;
    }
    Ok(())
}

fn play(system: Watched<'_>, asks: &[Ask]) -> io::Result<()> {
    let folder = String::from_str(system.rt.alloc(), system.folder)?;
    let mut disk = FolderDisk::new(system, folder);
    ask_all(system.rt.alloc(), &mut disk, system.asked, asks)
}

/// What a disk of a folder answers, and what its system is asked.
fn told_at(rt: HostRuntime, folder: &str, most: usize, asks: &[Ask]) -> io::Result<String> {
    let asked = RefCell::new(String::new(rt.alloc()));
    play(
        Watched {
            rt,
            folder,
            asked: &asked,
            most,
        },
        asks,
    )?;
    Ok(asked.into_inner())
}

/// Compares what is told in a folder.
fn compare(judge: &impl Abort, rt: HostRuntime, folder: &str, plays: &[Play]) -> Result<(), Fail> {
    for (most, asks, want) in plays {
        let text = told_at(rt, folder, *most, asks)?;
        assert_eq!(judge; text.as_str(), *want);
    }
    Ok(())
}

/// Makes the folder of a case, compares what is told there, and removes it.
fn check(judge: &impl Abort, rt: HostRuntime, case: &Case) -> Result<(), Fail> {
    let folder = fresh_folder(rt, case.name)?;
    if case.is_made {
        make(rt, folder.as_str())?;
    }
    let path = format!(in rt.alloc(); "{folder}{}", case.below)?;
    compare(judge, rt, path.as_str(), case.plays)?;
    clear(rt, folder.as_str())
}

#[test]
fn folders(rt: HostRuntime) -> Result<(), Fail> {
    for case in [
        ABSENT,
        MADE_AND_REMOVED,
        STANDING,
        BYTES,
        SHORT,
        REFUSED,
        NO_FILES,
        NO_FOLDER_ABOVE,
        A_FILE,
    ] {
        check(&rt, rt, &case)?;
    }
    Ok(())
}
