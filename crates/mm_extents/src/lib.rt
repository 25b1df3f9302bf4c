//! The data files of a database as extents and blocks (MongoDB 2.6, MMAPv1).
//!
//! - `Heap` (specs/Heap) says what stands at each place: the header of an extent, a live record with its room, a deleted block. `IsHeap`
//!   says that the files' bytes have each of these and that no two overlap. What is said above of tiling, chains and lists speaks of the
//!   heap alone.
//! - `FilesStand` says which files there are, how long, with which headers; `IsTiled` that extents tile the files, and blocks the extents;
//!   `ExtentsStand` that each extent is once on the chain of the name that it has.
//! - Each `set_x` writes one field of one frame: the heap changes at that place alone (`change`), and every other cell, of whatever
//!   namespace, is as it was. It declares that frame alone (`weight`).
//! - `make_first` makes the first data file of a database, without extents.
//! - `next_extent` answers the extent behind another.
//! - `new_extent` makes one: the first free extent that is long enough, else bytes of the last file's unused rest, else of files that it
//!   makes, up to the eighth (`IsNewExtent`, specs/FreeExtents; `IsRest`, specs/Rests). `NoSpace` comes exactly where none of these has as
//!   many bytes (`NoExtent`). It never raises the room of the files, and lowers it by at most four times what is asked for (`LowersRoom`,
//!   specs/Room). After an error of it the draft is to be dropped.
//! - `free_extents` puts the extents of a dropped namespace behind the last free one (`AreFreed`, specs/Dropping).
//!
//! Where else there is no memory all is as it was. Which records and lists there are, and which bytes a payload has, is for the crates above.
#![tactic(auto)]

mod blocks;
mod cells;
mod chains;
mod dropping;
mod fault;
mod free_chain;
mod made_files;
mod new_extents;
mod places;

pub use blocks::{read_deleted, set_live, set_next_deleted, split_record};
pub use cells::{
    read_extent, read_record, set_deleted, set_first, set_last, set_next, set_prev, set_room,
    set_xnext, set_xprev,
};
pub use chains::next_extent;
pub use dropping::free_extents;
pub use fault::SpaceFault;
pub use made_files::make_first;
pub use new_extents::new_extent;
pub use places::{Spot, link, named_spot, natural, no_place, place, spot_of};
