//! A plain model: the bytes that the databases have after each group.

use mm_base::{DbNo, NoMemory};
use mm_outside::Device;
use std::alloc::Global;

/// Eight bytes of each of four databases.
type State = [u8; 32];

/// The bytes of now, and those after each closed group; and how many groups are synced.
#[derive(Drop)]
pub struct Plain {
    now: State,
    after: Vec<State>,
    synced: u64,
}

/// Nothing is put yet, and no group is closed.
pub fn begin(alloc: Global) -> Result<Plain, NoMemory> {
    let mut after = Vec::new(alloc);
    after.push([0; 32])?;
    Ok(Plain {
        now: [0; 32],
        after,
        synced: 0,
    })
}

/// A byte is put at one of eight places of one of the databases.
pub fn put(plain: &mut Plain, db: DbNo, place: u8, byte: u8) {
    let at = 8 * (db.0 % 4) as usize + usize::from(place % 8);
    if let Some(old) = plain.now.get_mut(at) {
        *old = byte;
    }
}

/// A group of all is closed.
pub fn close(plain: &mut Plain) -> Result<(), Device> {
    plain.after.push(plain.now)?;
    Ok(())
}

/// One group more is synced.
pub fn sync(plain: &mut Plain) {
    plain.synced = plain.synced.wrapping_add(1);
}

/// Whether this may be what a crash leaves, in two halves: the bytes after that many groups, the synced ones or one more.
pub fn allows(plain: &Plain, groups: u64, front: &[u8; 16], back: &[u8; 16]) -> bool {
    let synced = groups == plain.synced || groups == plain.synced.wrapping_add(1);
    match plain.after.get(groups as usize) {
        Some(after) => synced && after[..16] == front[..] && after[16..] == back[..],
        None => false,
    }
}

/// How many groups are synced.
pub fn synced(plain: &Plain) -> u64 {
    plain.synced
}

/// How many groups are closed, and one more.
pub fn groups(plain: &Plain) -> u64 {
    plain.after.len() as u64
}
