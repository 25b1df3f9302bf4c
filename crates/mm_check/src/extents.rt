//! Extents one behind the other in a file, and on the chains of their nodes.

ghost use Rattle.std.specs.Prelude.{◌≡◌};
ghost use Rattle.mm_check.specs.ExtentChain.{EndsIn, KnowsExtents, file_reading, chain_reading};

use crate::frames::read_extent;
use crate::numbers::{is_pages, leads_on, names_place, place_link, size};
use crate::places::is_known;
use mm_base::{DiskLoc, NAME_FIELD_LEN};
use mm_frames::EXTENT_MAGIC;
use mm_views::Views;
use mm_walk::{Chain, Link};
use std::collections::BTreeSet;

/// The extents of a data file, from behind its header to its unused rest.
#[derive(Drop)]
pub(crate) struct FileExtents<'a> {
    pub(crate) views: &'a Views,
    pub(crate) file: u32,
    pub(crate) unused: u32,
    ghost ends: { EndsIn views.now.private file unused },
}

impl Chain for FileExtents<'_> {
    ghost reading = { λ s. file_reading s.views.now.private s.file s.unused };

    fn head(&self) -> Link {
        leads_on(self.file, self.unused, 8192)
    }

    fn next(&self, before: Option<(u32, u32)>, at: (u32, u32)) -> Option<Link> {
        let _before = before;
        if at.0 != self.file || u64::from(at.1) + 176 > u64::from(self.unused) {
            return None;
        }
        let header = read_extent(self.views, at);
        let end = u64::from(at.1) + u64::from(size(header.len));
        if header.magic != EXTENT_MAGIC
            || !names_place(header.my_loc, Some(at))
            || !is_pages(header.len)
            || end > u64::from(self.unused)
        {
            return None;
        }
        Some(leads_on(self.file, self.unused, end as u32))
    }

    fn closes(&self, last: Option<(u32, u32)>) -> bool {
        let _last = last;
        true
    }

    fn home(&self) -> (u32, u32) {
        (self.file, 0)
    }

    fn tail(&self) -> (u32, u32) {
        (self.file, 0)
    }
}

/// The chain of a node's extents.
#[derive(Drop)]
pub(crate) struct NodeExtents<'a> {
    pub(crate) views: &'a Views,
    pub(crate) all: &'a [(u32, u32)],
    pub(crate) known: &'a BTreeSet<u64>,
    pub(crate) field: [u8; NAME_FIELD_LEN],
    pub(crate) node: (u32, u32),
    pub(crate) first: DiskLoc,
    pub(crate) last: DiskLoc,
    ghost extents: { KnowsExtents views.now.private known.now all.now },
}

impl Chain for NodeExtents<'_> {
    ghost reading = { λ s. chain_reading s.views.now.private s.all.now s.field s.node s.first s.last };

    fn head(&self) -> Link {
        if self.first.file == -1 {
            return Link::End;
        }
        if self.first.file < 0 || self.first.ofs < 0 {
            return Link::Outside;
        }
        let at = (self.first.file as u32, self.first.ofs as u32);
        if is_known(self.known, at) {
            Link::To(at)
        } else {
            Link::Outside
        }
    }

    fn next(&self, before: Option<(u32, u32)>, at: (u32, u32)) -> Option<Link> {
        if !is_known(self.known, at) {
            return None;
        }
        let header = read_extent(self.views, at);
        if header.namespace != self.field || !names_place(header.xprev, before) {
            return None;
        }
        Some(place_link(self.views, header.xnext))
    }

    fn closes(&self, last: Option<(u32, u32)>) -> bool {
        names_place(self.last, last)
    }

    fn home(&self) -> (u32, u32) {
        self.node
    }

    fn tail(&self) -> (u32, u32) {
        self.node
    }
}
