//! What is under test: a durable side and its databases.

use crate::toy::Toy;
use mm_durable::Durable;
use mm_held::{Held, Pass};
use mm_memdisk::MemDisk;
use mm_probe::Counter;

/// A held database with its one session, and how many lines and items it had.
#[derive(Drop)]
pub struct Side {
    pub held: Held<Toy, Counter>,
    pub pass: Pass,
    pub line: u32,
    pub items: u32,
}

/// The durable side, and its databases by number.
#[derive(Drop)]
pub struct Bench {
    pub durable: Durable<MemDisk>,
    pub sides: Vec<Side>,
}
