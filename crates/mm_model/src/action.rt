//! What a script asks for, line by line.

use crate::command::Command;
use crate::reply::Reply;
use mm_base::{DbNo, SessionNo};

/// A command that was carried out or refused, with its session, its line and
/// its reply: what a history consists of.
#[derive(Drop)]
pub struct Entry {
    pub session: u32,
    pub line: u32,
    pub command: Command,
    pub reply: Reply,
}

/// A line of a script: a command of a session, which waits for its group's
/// sync where `j` is set, or a named step of the run. An action that stands on
/// no line has the line of the command before it.
#[derive(Drop)]
pub enum Action {
    /// Carries a command out.
    Run {
        line: u32,
        session: SessionNo,
        db: DbNo,
        command: Command,
        j: bool,
    },
    /// Closes the group.
    Close {
        line: u32,
    },
    /// Writes each pending section to the journal and syncs it.
    Log {
        line: u32,
    },
    /// Lays the closed parts of synced sections over the shared images.
    Apply {
        line: u32,
    },
    /// Gives back private pages that are as the shared ones.
    Remap {
        line: u32,
    },
    /// Closes, logs, applies and remaps.
    Commit {
        line: u32,
    },
    /// Writes what a database's data files lack of the applied sections.
    Flush {
        line: u32,
        db: DbNo,
    },
    /// Syncs the data files.
    Sync {
        line: u32,
    },
    /// Writes the number up to which the data files are synced.
    Lsn {
        line: u32,
    },
    /// Removes the journal files that recovery can't need.
    Trim {
        line: u32,
    },
}
