//! Recovery: the journal is read, its sections above the lsn are laid over the databases' files, and it is cleared.
//!
//! - `recover` syncs every file, reads the lsn and the whole journal, lays the sections above the lsn over the files in order,
//!   syncs the touched files, writes the lsn as the greater of the old one and the last section and syncs it, and removes the
//!   journal's files, the oldest first. It says the lsn that it leaves and how many sections it laid.
//! - A journal's first fault is told, by its place, before a byte is written.
//! - Of a whole image: stopped anywhere, by a crash or a fault, it leaves whole images with the same recovered files at every
//!   moment since it began (`KeepsRecovery`), or since its first syncs (`KeepsSettled`), as long as no torn record passes for a
//!   whole one by chance. So it may be made again, and stopped again, to any depth: `any_depth` is that law.
//! - `load` writes nothing: it reads the files of one database into new views, with the sections above the lsn laid over them
//!   in memory. Of a whole image these are the recovered files. It tells the journal's first fault, or else the first file that
//!   is too long.
//!
//! It isn't promised that a torn section, header or lsn never passes by chance, nor that memory is there: the journal's files are
//! read whole, one at a time, and their sections are kept until they are laid.
#![tactic(auto)]

mod closing;
mod fault;
mod files;
mod journal;
mod laying;
mod loading;
mod log;
mod names;
mod numbers;
mod overlaying;
mod recovery;
mod replaying;
mod sections;
mod touched;

pub use closing::sync_all;
pub use fault::Recover;
pub use laying::lay_part;
pub use loading::load;
pub use names::disk_name;
pub use recovery::{any_depth, recover};
pub use replaying::Recovered;
