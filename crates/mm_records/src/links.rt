//! Links between records.

ghost use Rattle.std.specs.Prelude.{◌≡◌, ◌<◌, OnOk};
ghost use Rattle.mm_extents.specs.Heap.{Heap, IsHeap};
ghost use Rattle.mm_extents.specs.Changes.{KeepsHeaders, DeclaresAtMost};
ghost use Rattle.mm_records.specs.Shape.{list_for};
ghost use Rattle.mm_records.specs.Freeing.{loc_in, forward, backward};
ghost use Rattle.mm_records.specs.Passing.{LinkFits, Fits};

use mm_base::{DiskLoc, NoMemory};
use mm_extents::{Spot, link, set_first, set_last, set_next, set_prev};
use mm_views::Draft;

// A link inside a file as a place.
pub(crate) fn place_in(file: u32, ofs: i32) -> DiskLoc
    requires { file < 8 }
    ensures { result ≡ loc_in file ofs }
{
    if ofs < 0 {
        return DiskLoc::NULL;
    }
    DiskLoc {
        file: file as i32,
        ofs,
    }
}

// The list of a block.
pub(crate) fn list_of(len: u32) -> usize
    ensures is { result ≡ list_for len }
    ensures there { result < 19 }
{
    let mut size = 32;
    for list in 0..18 {
        if len < size {
            return list;
        }
        size *= 2;
    }
    18
}

// The link to a record goes past it.
pub(crate) fn pass_forward(
    draft: &mut Draft,
    file: u32,
    ext: u32,
    prev: i32,
    next: i32,
) -> Result<(), NoMemory>
    requires { Fits draft.old.image file ext prev }
    ensures heap { OnOk result ((heap : Heap) → IsHeap draft.old.image heap → LinkFits file ext prev heap → IsHeap draft.new.image (forward file ext prev next heap)) }
    ensures kept { OnOk result (KeepsHeaders draft.old.image draft.new.image) }
    ensures weight { DeclaresAtMost 188 draft.old draft.new }
{
    match link(prev) {
        Some(ofs) => set_next(draft, Spot { file, ofs }, next),
        None => set_first(draft, Spot { file, ofs: ext }, place_in(file, next)),
    }
}

// The link back to a record goes past it.
pub(crate) fn pass_back(
    draft: &mut Draft,
    file: u32,
    ext: u32,
    prev: i32,
    next: i32,
) -> Result<(), NoMemory>
    requires { Fits draft.old.image file ext next }
    ensures heap { OnOk result ((heap : Heap) → IsHeap draft.old.image heap → LinkFits file ext next heap → IsHeap draft.new.image (backward file ext prev next heap)) }
    ensures kept { OnOk result (KeepsHeaders draft.old.image draft.new.image) }
    ensures weight { DeclaresAtMost 188 draft.old draft.new }
{
    match link(next) {
        Some(ofs) => set_prev(draft, Spot { file, ofs }, prev),
        None => set_last(draft, Spot { file, ofs: ext }, place_in(file, prev)),
    }
}
