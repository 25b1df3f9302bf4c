//! Lists of deleted blocks, as the files have them.

ghost use Rattle.std.specs.Prelude.{◌≡◌};
ghost use Rattle.mm_check.specs.ExtentChain.{KnowsExtents};
ghost use Rattle.mm_check.specs.ListChain.{is_of_list, lies_in_own, list_reading};

use crate::frames::{read_deleted, read_extent};
use crate::numbers::{is_long, lies_in, list_of, place_link, size};
use crate::places::is_known;
use mm_base::DiskLoc;
use mm_views::Views;
use mm_walk::{Chain, Link};
use std::collections::BTreeSet;

/// A list of a node's deleted blocks.
#[derive(Drop)]
pub(crate) struct Deleted<'a> {
    pub(crate) views: &'a Views,
    pub(crate) own: &'a [(u32, u32)],
    pub(crate) known: &'a BTreeSet<u64>,
    pub(crate) list: u32,
    pub(crate) node: (u32, u32),
    pub(crate) head: DiskLoc,
    ghost extents: { KnowsExtents views.now.private known.now own.now },
}

// A block's length is one of the list.
fn is_of_list(list: u32, len: i32) -> bool
    ensures { result ≡ is_of_list list len }
{
    is_long(len) && list_of(size(len)) == list
}

impl Deleted<'_> {
    // A block lies in the extent that it names, which is one of the node's.
    fn lies_in_own(&self, at: (u32, u32), extent_ofs: i32) -> bool
        ensures { result ≡ lies_in_own self.now.views.now.private self.now.own.now at extent_ofs }
    {
        if extent_ofs < 0 {
            return false;
        }
        let extent = (at.0, extent_ofs as u32);
        if !is_known(self.known, extent) {
            return false;
        }
        lies_in(
            at.0,
            extent.1,
            size(read_extent(self.views, extent).len),
            at,
        )
    }
}

impl Chain for Deleted<'_> {
    ghost reading = { λ s. list_reading s.views.now.private s.own.now s.list s.node s.head };

    fn head(&self) -> Link {
        place_link(self.views, self.head)
    }

    fn next(&self, before: Option<(u32, u32)>, at: (u32, u32)) -> Option<Link> {
        let _before = before;
        match self.views.len(at.0) {
            Some(len) if u64::from(at.1) + 16 <= u64::from(len) => {}
            _ => return None,
        }
        let header = read_deleted(self.views, at);
        if !self.lies_in_own(at, header.extent_ofs)
            || !is_of_list(self.list, header.length_with_headers)
        {
            return None;
        }
        Some(place_link(self.views, header.next_deleted))
    }

    fn closes(&self, last: Option<(u32, u32)>) -> bool {
        let _last = last;
        true
    }

    fn home(&self) -> (u32, u32) {
        self.node
    }

    fn tail(&self) -> (u32, u32) {
        self.node
    }
}
