//! What all of Metchoqi stands on: names, places and numbers in bytes.
//!
//! - `Name` is 1 to 120 bytes without a zero; `DbNo` and `SessionNo` are numbers of databases and sessions; `NoMemory` is want of memory.
//! - `DiskLoc` is a place, a file and an offset. There is one null place, and no place with a file -1 and another offset than 0.
//! - `read_u16` to `read_i64`, `read_place`, `read_places` and `read_array` read what stands at an offset, little-endian, and `put_u16` to
//!   `put_zeros` write it. They take no memory, and ask that the place lies inside the bytes.
//!
//! A reader's answer is a function of the bytes that it reads (`part`), and a writer fixes the whole buffer (`overwritten`). `specs/` says
//! what a frame of such fields is, by its table (`Tables`), and `proofs/` has the laws of tables for every crate that reads and writes
//! frames. Nothing here knows what a frame means.
#![tactic(auto)]

mod arrays;
mod fields;
mod ids;
mod memory;
mod name;
mod place;
mod places;

pub use arrays::{frame, is_zero, put_bytes, put_zeros, read_array};
pub use fields::{
    put_i32, put_i64, put_u16, put_u32, put_u64, read_i32, read_i64, read_u16, read_u32, read_u64,
};
pub use ids::{DbNo, SessionNo};
pub use memory::NoMemory;
pub use name::{MAX_NAME_LEN, NAME_FIELD_LEN, Name};
pub use place::DiskLoc;
pub use places::{PLACE_LEN, put_place, put_places, read_place, read_places, spells_place};
