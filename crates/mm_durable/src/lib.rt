//! The durable side: the sealed sections of a run, on their way through the journal into the data files.
//!
//! - `Durable` has the disk, the log of sealed sections and the feeds of one to four databases. `take_closed` takes what a database gives for
//!   a group, `seal` makes the next section of what all of them gave, by name in byte order, and takes no memory; `log`, `flush`, `sync_data`,
//!   `mark_lsn` and `trim` bring it through the journal into the files. A receipt is there exactly for a section that is synced.
//! - Each call keeps one fact (`IsServed` in specs/): each image that a crash leaves, at any moment since the start, is whole, and its recovery
//!   has the sections synced before that moment, or one more, of all databases alike: the files that their items give up to there. A call that
//!   is stopped leaves such images too; after it the side is ended. The fact is said where the disk tells its content.
//! - `Log` is the part that knows no feeds: how far the sections have come is synced in the journal, flushed by database, in all synced data
//!   files (the floor), and marked in the lsn file.
//!
//! Not promised: when a group is closed or synced, and that memory is there.
#![tactic(auto)]

mod counting;
mod durable;
mod flushing;
mod intake;
mod laws;
mod log;
mod opening;
mod seats;
mod spelling;
mod syncing;

pub use durable::Durable;
pub use laws::{crashes_leave_a_prefix, crashes_leave_items, files_read_flushed_items};
pub use log::{Log, Receipt};
