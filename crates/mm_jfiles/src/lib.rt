//! The files of MongoDB 2.6's journal, `journal/j._0`, `journal/j._1` and so on, and the lsn file.
//!
//! `JFiles` is what the side that appends knows of the files: their numbers, the last section of each, the length of the last one. Each
//! call says which changing calls of the disk it makes: all of them at Ok (`Makes`), and at every exit the first of them up to any, the
//! last perhaps stopped (`MakesSome`). What stands on the disk, and what a crash leaves at each moment, follows from these lists.
//!
//! - `append` begins a new file, with a header that is synced, exactly where there is none or the last has `limit` bytes or more, and
//!   writes the bytes behind the last file's; `sync` syncs that file.
//! - `trim` and `clear` remove files, the oldest first. `trim` never removes the last.
//! - `file_name` and `file_number` give a file's name for its number, and back.
//! - `write_mark` makes the lsn file the spelling of a number and syncs it; `read_mark` gives the number exactly where it is one's spelling.
//!
//! After an error a value is done with: nothing is promised of a later call. Nothing here looks into the bytes that are appended.
#![tactic(auto)]

mod jfiles;
mod marks;
mod names;

pub use jfiles::JFiles;
pub use marks::{read_mark, write_mark};
pub use names::{file_name, file_number};
