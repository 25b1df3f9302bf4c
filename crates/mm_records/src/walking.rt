//! The records of a namespace in their order.

ghost use Rattle.std.specs.Prelude.{◌≡◌, ℕ, List, flat_map};
ghost use Rattle.mm_frames.specs.Texts.{text_in};
ghost use Rattle.std.specs.Option.{option_map};
ghost use Rattle.mm_links.specs.Links.{Place, first_of, next_in};
ghost use Rattle.mm_extents.specs.Changes.{loc};
ghost use Rattle.mm_records.specs.Shape.{Shape};
ghost use Rattle.mm_records.specs.Stands.{IsOwn, walk};
ghost use Rattle.mm_records.specs.Walking.{IsRest, IsAhead};

use mm_base::DiskLoc;
use mm_extents::{Spot, link, named_spot, natural, place, read_extent, read_record};
use mm_views::Draft;

// More than there are places in the data files.
const MAX_STEPS: u32 = 536_870_913;

// The first record of the extents from one on.
pub(crate) fn first_from(draft: &Draft, from: DiskLoc) -> Option<DiskLoc>
    requires { (free : List ℕ) × ((s : Shape) × ((name : List ℕ) × ((rest : List Place) × IsRest draft.now.image free s name rest from))) }
    ensures { (free : List ℕ) (s : Shape) (name : List ℕ) (rest : List Place) → IsRest draft.now.image free s name rest from
        → result ≡ option_map loc (first_of (flat_map s.records rest)) }
{
    let mut at = from;
    for step in 0..MAX_STEPS {
        let Some(extent) = named_spot(at) else {
            return None;
        };
        let header = read_extent(draft, extent);
        if header.first_record.is_null() {
            at = header.xnext;
        } else {
            return Some(header.first_record);
        }
    }
    unreachable!()
}

// The record behind another.
pub(crate) fn next_of(draft: &Draft, node: u32, at: Spot) -> Option<DiskLoc>
    requires { (free : List ℕ) × ((s : Shape) × IsOwn draft.now.image free s node (at.file, at.ofs)) }
    ensures { (free : List ℕ) (s : Shape) (own : IsOwn draft.now.image free s node (at.file, at.ofs))
        → result ≡ option_map loc (next_in (walk s (text_in own.hh.namespace)) (at.file, at.ofs)) }
{
    let _node = node;
    let head = read_record(draft, at);
    match link(head.next_ofs) {
        Some(ofs) => Some(place(Spot { file: at.file, ofs })),
        None => {
            let extent = Spot {
                file: at.file,
                ofs: natural(head.extent_ofs),
            };
            first_from(draft, read_extent(draft, extent).xnext)
        }
    }
}
