//! Extents of a namespace that is dropped join the free chain.

ghost use Rattle.std.specs.Prelude.{◌≡◌, ◌≢◌, ℕ, pos, ◌+◌, ◌*◌, ◌<◌, ◌++◌, List, length, OnOk};
ghost use Rattle.mm_base.specs.Bytes.{padded};
ghost use Rattle.mm_base.specs.Places.{null};
ghost use Rattle.mm_frames.specs.Texts.{text_in};
ghost use Rattle.mm_links.specs.Links.{Place, appended};
ghost use Rattle.mm_extents.specs.Heap.{Heap};
ghost use Rattle.mm_extents.specs.Changes.{KeepsHeaders, DeclaresAtMost};
ghost use Rattle.mm_extents.specs.FreeExtents.{HasFree};
ghost use Rattle.mm_extents.specs.Dropping.{header_freed, IsUsed, joined, AreUsed, AreFreed};

use crate::cells::{overwrite, read_extent};
use crate::new_extents::pass_next;
use crate::places::{Spot, named_spot, no_place, place};
use mm_base::{DiskLoc, Name, NoMemory};
use mm_frames::{EXTENT_MAGIC, ExtentHeader, FreeEnds, extent_header_frame};
use mm_views::Draft;

// More than there are places in the data files.
const MAX_STEPS: u32 = 536_870_913;

// The header of a free extent, behind another one.
fn freed_header(at: Spot, name: &Name, len: i32, prev: DiskLoc) -> ExtentHeader
    requires file { at.file < 8 }
    requires ofs { at.ofs < 67108864 }
    ensures is { result ≡ header_freed (at.file, at.ofs) name.now len prev }
    ensures named { text_in (padded 128 name.now) ≡ name.now }
{
    let _bytes = name.bytes();
    let null = no_place();
    ExtentHeader {
        magic: EXTENT_MAGIC,
        my_loc: place(at),
        xnext: null,
        xprev: prev,
        namespace: name.padded(),
        len,
        first_record: null,
        last_record: null,
    }
}

// The ends of the free chain with one more extent behind its last.
fn join_ends(free: &mut FreeEnds, at: DiskLoc)
    ensures alone { free.old.first ≡ null → free.new.first ≡ at }
    ensures first { free.old.first ≢ null → free.new.first ≡ free.old.first }
    ensures last { free.new.last ≡ at }
{
    if free.first.is_null() {
        free.first = at;
    }
    free.last = at;
}

// An extent becomes the last of the free chain.
fn free_extent(
    draft: &mut Draft,
    at: Spot,
    name: &Name,
    free: &mut FreeEnds,
) -> Result<(), NoMemory>
    requires { (heap : Heap) × ((chain : List Place) × ((n : ℕ) × (HasFree draft.old.image name.now heap chain free.old × IsUsed heap name.now (at.file, at.ofs) n))) }
    ensures ok { OnOk result ((heap : Heap) (chain : List Place) (n : ℕ) → HasFree draft.old.image name.now heap chain free.old → IsUsed heap name.now (at.file, at.ofs) n
        → HasFree draft.new.image name.now (joined heap name.now chain (at.file, at.ofs) n free.old.last) (appended chain (at.file, at.ofs)) free.new) }
    ensures kept { OnOk result (KeepsHeaders draft.old.image draft.new.image) }
    ensures weight { DeclaresAtMost 376 draft.old draft.new }
{
    let header = freed_header(at, name, read_extent(draft, at).len, free.last);
    pass_next(draft, free.last, place(at))?;
    overwrite(draft, at, &extent_header_frame(&header))?;
    join_ends(free, place(at));
    Ok(())
}

/// The extents from `first` on become free ones, in their order at the end of the free chain. `name` is that of the free chain. They keep their
/// lengths, and what is in them is any bytes. Each declares at most 376 bytes. After an error the draft is to be dropped.
pub fn free_extents(
    draft: &mut Draft,
    name: &Name,
    first: DiskLoc,
    free: &mut FreeEnds,
) -> Result<(), NoMemory>
    requires { (heap : Heap) × ((chain : List Place) × ((ps : List Place) × (HasFree draft.old.image name.now heap chain free.old × AreUsed heap name.now ps first))) }
    ensures ok { OnOk result ((heap : Heap) (chain ps : List Place) → HasFree draft.old.image name.now heap chain free.old → AreUsed heap name.now ps first
        → (t : Heap) × (HasFree draft.new.image name.now t (chain ++ ps) free.new × AreFreed heap t name.now chain ps)) }
    ensures kept { OnOk result (KeepsHeaders draft.old.image draft.new.image) }
    ensures weight { (heap : Heap) (chain ps : List Place) → HasFree draft.old.image name.now heap chain free.old → AreUsed heap name.now ps first → DeclaresAtMost (376 * length ps) draft.old draft.new }
{
    let mut next = first;
    for step in 0..MAX_STEPS {
        let Some(at) = named_spot(next) else {
            return Ok(());
        };
        next = read_extent(draft, at).xnext;
        free_extent(draft, at, name, free)?;
    }
    unreachable!()
}
