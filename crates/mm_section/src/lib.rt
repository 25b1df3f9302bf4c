//! The sections of MongoDB 2.6's journal: what one group commit changed, as one record of a file.
//!
//! `specs/Spells.antt` says how a section is spelled in the file with an id (`Spells`): a header, per database its name, the files that
//! were made and the ranges, a footer with the MD5 of all before it, and zeros up to a multiple of 8192 bytes. Names, made files and
//! ranges stand in rising order, and no other order is a spelling.
//!
//! - `write_section` appends a section's spelling, or nothing where memory is wanting;
//! - `read_section` gives the section that the front of some bytes spells, and its length; None is told exactly where no front of them
//!   spells a section with that id, whatever stands there.
//!
//! `proofs/Apart.antt` has the laws: a section has one spelling for an id, and no spelled section begins with another. They hold whatever
//! the hash is, and nothing is promised of how hard a section with a right hash is to make.
#![tactic(auto)]

mod order;
mod reading;
mod sealing;
mod section;
mod writing;

pub use reading::read_section;
pub use section::{PartList, Section};
pub use writing::write_section;
