//! Live chains, as the files have them.

ghost use Rattle.std.specs.Prelude.{◌≡◌};
ghost use Rattle.mm_check.specs.RecordChain.{LiesIn, records_reading};

use crate::frames::read_record;
use crate::numbers::{is_long, is_pos, lies_in, names_ofs, names_place, ofs_link, place_link};
use mm_base::DiskLoc;
use mm_views::Views;
use mm_walk::{Chain, Link};

/// The live records of an extent.
#[derive(Drop)]
pub struct Records<'a> {
    pub(crate) views: &'a Views,
    pub(crate) file: u32,
    pub(crate) ofs: u32,
    pub(crate) len: u32,
    pub(crate) first: DiskLoc,
    pub(crate) last: DiskLoc,
    ghost lies: { LiesIn views.now.private file ofs len },
}

impl Chain for Records<'_> {
    ghost reading = { λ s. records_reading s.views.now.private (s.file, s.ofs) s.len s.first s.last };

    fn head(&self) -> Link {
        place_link(self.views, self.first)
    }

    fn next(&self, before: Option<(u32, u32)>, at: (u32, u32)) -> Option<Link> {
        if !lies_in(self.file, self.ofs, self.len, at) {
            return None;
        }
        let header = read_record(self.views, at);
        if !is_long(header.length_with_headers)
            || !is_pos(header.extent_ofs, self.ofs)
            || !names_ofs(header.prev_ofs, before)
        {
            return None;
        }
        Some(ofs_link(self.views, self.file, header.next_ofs))
    }

    fn closes(&self, last: Option<(u32, u32)>) -> bool {
        names_place(self.last, last)
    }

    fn home(&self) -> (u32, u32) {
        (self.file, self.ofs)
    }

    fn tail(&self) -> (u32, u32) {
        (self.file, self.ofs)
    }
}
