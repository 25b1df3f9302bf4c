//! The ends of the chain of free extents.

use mm_base::DiskLoc;

/// Where the chain of free extents begins and ends, as `first_extent` and `last_extent` of its node say; both null where it is empty.
#[derive(Clone, Copy, Debug, PartialEq, Eq)]
pub struct FreeEnds {
    /// The first free extent, or null.
    pub first: DiskLoc,
    /// The last free extent, or null.
    pub last: DiskLoc,
}
