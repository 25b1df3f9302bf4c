//! A plain model of a held database with three files of eight bytes.
//!
//! After a close, the shared image that the group gives is the private one as it was. What is told is one sum of numbers.

use crate::bench::{DONE, LACKS, NEXT};

/// How many groups the model can close.
const MOST: usize = 64;

/// The sum of what was told, with one more number.
pub fn mixed(sum: u64, number: u64) -> u64 {
    (sum ^ number).wrapping_mul(0x0100_0000_01b3)
}

/// The model: both images, which bytes are opened, the private image at each close, and sums of the log and of the groups' entries.
#[derive(Clone, Copy)]
pub struct Plain {
    pub private: [u8; 24],
    pub shared: [u8; 24],
    pub opened: [bool; 24],
    pub images: [[u8; 24]; 64],
    pub closed: usize,
    pub applied: u64,
    pub line: u64,
    pub waiting: u64,
    pub log: u64,
    pub groups: u64,
}

/// The model of a database that begins.
pub fn begin() -> Plain {
    Plain {
        private: [0; 24],
        shared: [0; 24],
        opened: [false; 24],
        images: [[0; 24]; 64],
        closed: 0,
        applied: NEXT - 1,
        line: 0,
        waiting: 0,
        log: 0,
        groups: 0,
    }
}

// The section of the opened group.
fn section(plain: &Plain) -> u64 {
    NEXT.wrapping_add(plain.closed as u64)
}

// Opens one byte or two, and sets the first.
fn open(plain: &mut Plain, place: usize, two: bool, byte: u8) {
    if place < 24 {
        plain.private[place] = byte;
        plain.opened[place] = true;
    }
    if two && place < 23 {
        plain.opened[place + 1] = true;
    }
}

/// A step of a session.
pub fn step(plain: &mut Plain, session: u64, name: [u8; 4]) -> u64 {
    let at = usize::from(name[1] % 8);
    let two = name[2] % 2 == 1;
    let is_ok = name[0] % 4 < 3 && !(two && at == 7);
    if is_ok {
        open(plain, 8 * usize::from(name[0] % 4) + at, two, name[3]);
    }
    plain.line = plain.line.wrapping_add(1);
    plain.waiting = plain.waiting.wrapping_add(1);
    plain.log = mixed(
        mixed(mixed(plain.log, session), plain.line),
        u64::from(is_ok),
    );
    mixed(if is_ok { DONE } else { LACKS }, section(plain))
}

// The opened bytes and their places.
fn opened(plain: &Plain) -> u64 {
    let mut sum = 0;
    for place in 0..24 {
        if plain.opened[place] {
            sum = mixed(mixed(sum, place as u64), u64::from(plain.private[place]));
        }
    }
    sum
}

/// Closes the group.
pub fn close(plain: &mut Plain) -> u64 {
    let sum = mixed(mixed(opened(plain), section(plain)), plain.waiting);
    if plain.closed < MOST {
        plain.images[plain.closed] = plain.private;
        plain.closed += 1;
    }
    plain.opened = [false; 24];
    plain.groups = mixed(plain.groups, plain.waiting);
    plain.waiting = 0;
    sum
}

/// Applies the groups of sections up to a number.
pub fn apply(plain: &mut Plain, upto: u64) {
    let last = section(plain).wrapping_sub(1);
    let to = if upto < last { upto } else { last };
    let group = to.wrapping_sub(NEXT) as usize;
    if plain.applied < to && group < MOST {
        plain.applied = to;
        plain.shared = plain.images[group];
    }
}

/// Both images, and the numbers.
pub fn look(plain: &Plain) -> u64 {
    let mut sum = mixed(mixed(plain.applied, section(plain)), plain.waiting);
    for place in 0..24 {
        let private = u64::from(plain.private[place]);
        let shared = u64::from(plain.shared[place]);
        sum = mixed(mixed(sum, private), shared);
    }
    sum
}
