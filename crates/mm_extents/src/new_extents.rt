//! New extents.

ghost use Rattle.std.specs.Prelude.{◌≡◌, ◌≢◌, ℕ, ◌+◌, ◌-◌, ◌*◌, ◌%◌, ◌<◌, ◌≤◌, Some, pos, true, List, Option, length, IfOk, OnOk, IsErrOf};
ghost use Rattle.mm_base.specs.Bytes.{part, padded};
ghost use Rattle.mm_frames.specs.Texts.{text_in};
ghost use Rattle.mm_ranges.specs.Overlay.{bytes_at};
ghost use Rattle.mm_base.specs.Places.{null};
ghost use Rattle.mm_frames.specs.declared.extent_header.ExtentHeader.{ExtentHeader};
ghost use Rattle.mm_links.specs.Links.{Place, has, without};
ghost use Rattle.mm_extents.specs.Heap.{Heap, IsHeap};
ghost use Rattle.mm_extents.specs.Changes.{loc_or, LowOr, len_of, KeepsHeaders, DeclaresAtMost};
ghost use Rattle.mm_extents.specs.Files.{file_len, unused_in, FilesStand};
ghost use Rattle.mm_frames.specs.declared.free_ends.FreeEnds.{FreeEnds};
ghost use Rattle.mm_ranges.specs.declared.limits.TheConstants.{NS_FILE};
ghost use Rattle.mm_extents.specs.Rests.{NoRest};
ghost use Rattle.mm_extents.specs.Room.{room, LowersRoom};
ghost use Rattle.mm_extents.specs.FreeExtents.{IsFirstFree, AllShorter, IsMadeOf, NoExtent, IsClear, with_extent, header_made, next_passed, prev_passed, ExtentOr, PassFits, HasFree, IsReused, IsCutOff, IsLeftFull};

use crate::cells::{overwrite, read_extent, set_xnext, set_xprev};
use crate::fault::SpaceFault;
use crate::free_chain::first_free;
use crate::made_files::{put_fields, rest_of};
use crate::places::{Spot, named_spot, natural, no_place, place};
use mm_base::{DiskLoc, Name, NoMemory};
use mm_frames::{
    DELETED_HEADER_LEN, DeletedHeader, EXTENT_HEADER_LEN, EXTENT_MAGIC, ExtentHeader, FreeEnds,
    deleted_header_frame, extent_header_frame,
};
use mm_views::Draft;

// The header of an extent without records, of so many bytes.
fn new_header(at: Spot, name: &Name, len: u32) -> ExtentHeader
    requires file { at.file < 8 }
    requires ofs { at.ofs < 67108864 }
    requires len { len ≤ 67108864 }
    ensures is { result ≡ header_made (at.file, at.ofs) name.now len }
    ensures named { text_in (padded 128 name.now) ≡ name.now }
{
    let _bytes = name.bytes();
    let null = no_place();
    ExtentHeader {
        magic: EXTENT_MAGIC,
        my_loc: place(at),
        xnext: null,
        xprev: null,
        namespace: name.padded(),
        len: len as i32,
        first_record: null,
        last_record: null,
    }
}

// Makes the bytes at a place an extent without records, whose whole room is one deleted block.
pub(crate) fn put_extent(draft: &mut Draft, at: Spot, name: &Name, len: u32) -> Result<(), NoMemory>
    requires file { at.file < 8 }
    requires long { 4096 ≤ len }
    requires short { at.ofs + len ≤ 67108864 }
    requires behind { 8192 ≤ at.ofs }
    requires inside { at.ofs + len ≤ length (bytes_at draft.old.image at.file) }
    ensures heap { OnOk result ((heap : Heap) → IsHeap draft.old.image heap → IsClear heap (at.file, at.ofs) len
        → IsHeap draft.new.image (with_extent (at.file, at.ofs) name.now len (part (at.ofs + 192) (len - 192) (bytes_at draft.old.image at.file)) heap)) }
    ensures kept { OnOk result (KeepsHeaders draft.old.image draft.new.image) }
    ensures named { text_in (padded 128 name.now) ≡ name.now }
    ensures weight { DeclaresAtMost (EXTENT_HEADER_LEN + 12 + (DELETED_HEADER_LEN + 12)) draft.old draft.new }
{
    let header = new_header(at, name, len);
    overwrite(draft, at, &extent_header_frame(&header))?;
    let block = DeletedHeader {
        length_with_headers: (len - 176) as i32,
        extent_ofs: at.ofs as i32,
        next_deleted: no_place(),
    };
    let behind = Spot {
        file: at.file,
        ofs: at.ofs + 176,
    };
    overwrite(draft, behind, &deleted_header_frame(&block))
}

// The link to an extent goes past it, in the extent before it.
pub(crate) fn pass_next(draft: &mut Draft, before: DiskLoc, next: DiskLoc) -> Result<(), NoMemory>
    requires { (o : Option Place) × PassFits draft.old.image o before }
    ensures heap { OnOk result ((o : Option Place) (heap : Heap) → before ≡ loc_or o → LowOr o → IsHeap draft.old.image heap → ExtentOr heap o → IsHeap draft.new.image (next_passed o next heap)) }
    ensures kept { OnOk result (KeepsHeaders draft.old.image draft.new.image) }
    ensures weight { DeclaresAtMost 188 draft.old draft.new }
{
    match named_spot(before) {
        Some(extent) => set_xnext(draft, extent, next),
        None => Ok(()),
    }
}

// The link back to an extent goes past it, in the extent behind it.
fn pass_prev(draft: &mut Draft, behind: DiskLoc, prev: DiskLoc) -> Result<(), NoMemory>
    requires { (o : Option Place) × PassFits draft.old.image o behind }
    ensures heap { OnOk result ((o : Option Place) (heap : Heap) → behind ≡ loc_or o → LowOr o → IsHeap draft.old.image heap → ExtentOr heap o → IsHeap draft.new.image (prev_passed o prev heap)) }
    ensures kept { OnOk result (KeepsHeaders draft.old.image draft.new.image) }
    ensures weight { DeclaresAtMost 188 draft.old draft.new }
{
    match named_spot(behind) {
        Some(extent) => set_xprev(draft, extent, prev),
        None => Ok(()),
    }
}

// The first of the free extents goes past one that was the first.
fn pass_first(free: &mut FreeEnds, header: &ExtentHeader)
    ensures first { header.now.xprev ≡ null → free.new.first ≡ header.now.xnext }
    ensures kept { header.now.xprev ≢ null → free.new.first ≡ free.old.first }
    ensures last { free.new.last ≡ free.old.last }
{
    if header.xprev.is_null() {
        free.first = header.xnext;
    }
}

// The last of the free extents goes before one that was the last.
fn pass_last(free: &mut FreeEnds, header: &ExtentHeader)
    ensures last { header.now.xnext ≡ null → free.new.last ≡ header.now.xprev }
    ensures kept { header.now.xnext ≢ null → free.new.last ≡ free.old.last }
    ensures first { free.new.first ≡ free.old.first }
{
    if header.xnext.is_null() {
        free.last = header.xprev;
    }
}

// A free extent becomes one of a namespace, without records, and keeps its length.
pub(crate) fn reuse_extent(
    draft: &mut Draft,
    at: Spot,
    name: &Name,
    free: &mut FreeEnds,
) -> Result<(), NoMemory>
    requires { (db : List ℕ) × ((heap : Heap) × ((chain : List Place) × (HasFree draft.old.image db heap chain free.old × (has chain (at.file, at.ofs) ≡ true)))) }
    ensures ok { OnOk result ((db : List ℕ) (heap : Heap) (chain : List Place) → HasFree draft.old.image db heap chain free.old → has chain (at.file, at.ofs) ≡ true → name.now ≢ db
        → (t : Heap) × ((n : ℕ) × (HasFree draft.new.image db t (without (at.file, at.ofs) chain) free.new × IsReused heap t chain (at.file, at.ofs) name.now n))) }
    ensures kept { OnOk result (KeepsHeaders draft.old.image draft.new.image) }
    ensures weight { DeclaresAtMost 592 draft.old draft.new }
{
    let header = read_extent(draft, at);
    pass_next(draft, header.xprev, header.xnext)?;
    pass_prev(draft, header.xnext, header.xprev)?;
    pass_first(free, &header);
    pass_last(free, &header);
    put_extent(draft, at, name, natural(header.len))
}

// Cuts an extent without records from the unused rest of a data file.
pub(crate) fn cut_extent(draft: &mut Draft, at: Spot, name: &Name, len: u32) -> Result<(), NoMemory>
    requires rest { (db : List ℕ) × ((heap : Heap) × ((chain : List Place) × ((ends : FreeEnds) × (HasFree draft.old.image db heap chain ends × (unused_in draft.old.image at.file ≡ Some (pos at.ofs)))))) }
    requires file { at.file < 8 }
    requires there { len_of draft.old.image at.file ≡ Some (file_len at.file) }
    requires fits { at.ofs + len ≤ file_len at.file }
    requires pages { len % 4096 ≡ 0 }
    requires long { 4096 ≤ len }
    ensures ok { OnOk result ((db : List ℕ) (heap : Heap) (chain : List Place) (ends : FreeEnds) → HasFree draft.old.image db heap chain ends → unused_in draft.old.image at.file ≡ Some (pos at.ofs) → name.now ≢ db
        → (t : Heap) × (HasFree draft.new.image db t chain ends × IsCutOff heap t (at.file, at.ofs) name.now len)) }
    ensures room { OnOk result (LowersRoom len draft.old.image draft.new.image) }
    ensures ns { OnOk result (bytes_at draft.new.image NS_FILE ≡ bytes_at draft.old.image NS_FILE) }
    ensures weight { DeclaresAtMost 252 draft.old draft.new }
{
    put_fields(draft, at.file, at.ofs + len)?;
    put_extent(draft, at, name, len)
}

// A free extent that is long enough becomes one of a namespace.
fn reuse_new(
    draft: &mut Draft,
    at: Spot,
    name: &Name,
    len: u32,
    free: &mut FreeEnds,
) -> Result<DiskLoc, SpaceFault>
    requires { (db : List ℕ) × ((heap : Heap) × ((chain : List Place) × (HasFree draft.old.image db heap chain free.old × IsFirstFree heap chain len (at.file, at.ofs)))) }
    ensures ok { IfOk result (λ e. (db : List ℕ) (heap : Heap) (chain : List Place) → HasFree draft.old.image db heap chain free.old → IsFirstFree heap chain len (at.file, at.ofs) → name.now ≢ db
        → IsMadeOf draft.old.image draft.new.image db heap chain free.new name.now len e) }
    ensures memory { IsErrOf result SpaceFault.NoSpace → ⊥ }
    ensures room { OnOk result (room draft.new.image ≡ room draft.old.image) }
    ensures ns { OnOk result (bytes_at draft.new.image NS_FILE ≡ bytes_at draft.old.image NS_FILE) }
    ensures weight { DeclaresAtMost 592 draft.old draft.new }
{
    reuse_extent(draft, at, name, free)?;
    Ok(place(at))
}

// An extent is cut from the files, where no free one is long enough.
fn cut_new(draft: &mut Draft, name: &Name, len: u32) -> Result<DiskLoc, SpaceFault>
    requires stands { (db : List ℕ) × ((heap : Heap) × ((chain : List Place) × ((ends : FreeEnds) × HasFree draft.old.image db heap chain ends))) }
    requires pages { len % 4096 ≡ 0 }
    requires some { 0 < len }
    ensures ok { IfOk result (λ e. (db : List ℕ) (heap : Heap) (chain : List Place) (ends : FreeEnds) → HasFree draft.old.image db heap chain ends → AllShorter heap len chain → name.now ≢ db
        → IsMadeOf draft.old.image draft.new.image db heap chain ends name.now len e) }
    ensures full { IsErrOf result SpaceFault.NoSpace → NoRest draft.old.image len }
    ensures left { IsErrOf result SpaceFault.NoSpace → IsLeftFull draft.old.image draft.new.image len }
    ensures space { IfOk result (λ e. NoRest draft.old.image len → ⊥) }
    ensures room { OnOk result (LowersRoom (4 * len) draft.old.image draft.new.image) }
    ensures ns { OnOk result (bytes_at draft.new.image NS_FILE ≡ bytes_at draft.old.image NS_FILE) }
    ensures weight { DeclaresAtMost 588 draft.old draft.new }
{
    let at = rest_of(draft, len)?;
    cut_extent(draft, at, name, len)?;
    Ok(place(at))
}

/// A new extent of a namespace, without records, of at least `len` bytes: the first free one that is long enough, which keeps its length; else
/// `len` bytes of the last file's unused rest; else of files that are made behind it, up to the first that has as many. Its whole room is one deleted block.
/// `NoSpace` where none of these has as many. The room of the files falls by at most four times `len`. After an error the draft is to be dropped;
/// after `NoSpace` it is known that only files without extents were made, and that they have as little room (`left`).
pub fn new_extent(
    draft: &mut Draft,
    name: &Name,
    len: u32,
    free: &mut FreeEnds,
) -> Result<DiskLoc, SpaceFault>
    requires stands { (db : List ℕ) × ((heap : Heap) × ((chain : List Place) × HasFree draft.old.image db heap chain free.old)) }
    requires pages { len % 4096 ≡ 0 }
    requires some { 0 < len }
    ensures ok { IfOk result (λ e. (db : List ℕ) (heap : Heap) (chain : List Place) → HasFree draft.old.image db heap chain free.old → name.now ≢ db
        → IsMadeOf draft.old.image draft.new.image db heap chain free.new name.now len e) }
    ensures full { IsErrOf result SpaceFault.NoSpace → (db : List ℕ) (heap : Heap) (chain : List Place) → HasFree draft.old.image db heap chain free.old → NoExtent draft.old.image heap chain len }
    ensures left { IsErrOf result SpaceFault.NoSpace → IsLeftFull draft.old.image draft.new.image len }
    ensures space { IfOk result (λ e. (db : List ℕ) (heap : Heap) (chain : List Place) → HasFree draft.old.image db heap chain free.old → NoExtent draft.old.image heap chain len → ⊥) }
    ensures room { OnOk result (LowersRoom (4 * len) draft.old.image draft.new.image) }
    ensures ns { OnOk result (bytes_at draft.new.image NS_FILE ≡ bytes_at draft.old.image NS_FILE) }
    ensures weight { DeclaresAtMost 592 draft.old draft.new }
{
    match first_free(draft, free, len) {
        Some(at) => reuse_new(draft, at, name, len, free),
        None => cut_new(draft, name, len),
    }
}
