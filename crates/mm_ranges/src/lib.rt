//! Sets of places in files, and what a group of changes lays over a database's files.
//!
//! A `RangeSet` is a set of places, seen as the one list of its ranges that is sorted, disjoint and not touching.
//! `insert` and `merge` add exactly the places of a range or of another set; `covers` and `weight` take no memory.
//! A `RoomSet` is such a set that takes the memory for a merge ahead of it, so that the merge itself takes none.
//! Look-ups, and each range that is put in, cost the logarithm of the number of ranges.
//!
//! A `Part` is what one group changed in one database: the files that it made, of zeros, and bytes at its ranges.
//! `specs/Overlay.antt` says what a part laid over files is: the last range that has a place decides its byte, a made
//! file is zeros of exactly its length, a range past the end lengthens its file with zeros, an absent file is made.
//!
//! Not promised here: that a part's ranges are in order or within the limits of a file (`IsAllowed` in
//! `specs/Limits.antt` says it, and who makes a part ensures it), nor how much memory a set takes.
#![tactic(auto)]

mod limits;
mod memory;
mod part;
mod range_iter;
mod range_set;
mod room_set;
mod spans;

pub use limits::{MAX_FILE_LEN, MAX_NS_LEN, NS_FILE, PAGE_LEN, is_file, max_len};
pub use memory::NoMemory;
pub use part::{Bytes, Closed, Made, MadeList, Part, Piece, PieceList, last_piece_decides};
pub use range_iter::RangeIter;
pub use range_set::{RangeSet, one_normal_form};
pub use room_set::RoomSet;
