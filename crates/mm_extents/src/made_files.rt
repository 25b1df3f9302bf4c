//! The data files and their headers.

ghost use Rattle.std.specs.Prelude.{◌≡◌, ℕ, ◌+◌, ◌-◌, ◌*◌, ◌^◌, ◌<◌, ◌≤◌, ◌==◌, if◌then◌else◌, min, take, length, pos, List, Some, None, OnOk, OnErr, IfOk, IsErrOf};
ghost use Rattle.mm_base.specs.Bytes.{part, zeros};
ghost use Rattle.mm_ranges.specs.Overlay.{bytes_at};
ghost use Rattle.mm_ranges.specs.declared.limits.TheConstants.{NS_FILE};
ghost use Rattle.mm_frames.specs.FileHeader.{file_header_bytes};
ghost use Rattle.mm_frames.specs.declared.free_ends.FreeEnds.{FreeEnds};
ghost use Rattle.mm_links.specs.Links.{Place};
ghost use Rattle.mm_extents.specs.Heap.{Heap};
ghost use Rattle.mm_extents.specs.Changes.{written, len_of, DeclaresAtMost};
ghost use Rattle.mm_extents.specs.Files as files;
ghost use Rattle.mm_extents.specs.Files.{FilesStand, HasNamesAlone, AreUnused};
ghost use Rattle.mm_extents.specs.Rests.{IsLast, IsRest, NoRest, IsMade, IsNextRest};
ghost use Rattle.mm_extents.specs.Room.{room, LowersRoom};
ghost use Rattle.mm_extents.specs.FreeExtents.{HasFree, IsLeftFull};

use crate::cells::overwrite;
use crate::fault::SpaceFault;
use crate::places::{Spot, natural, place};
use mm_base::NoMemory;
use mm_frames::{
    DATA_FILE_VERSION, DATA_FILE_VERSION_MINOR, FILE_HEADER_LEN, FileHeader, file_header_frame,
    read_file_header,
};
use mm_views::Draft;

// What stands in a file's header before its zeros, in bytes.
const HEADER_FIELDS_LEN: usize = 24;

// How long a data file is.
pub(crate) fn file_len(file: u32) -> u32
    ensures is { result ≡ files.file_len file }
    ensures least { 1048576 ≤ result }
    ensures most { result ≤ 67108864 }
{
    1_048_576 << file.min(6)
}

// The header of a data file, of which no extent has the bytes from `unused` on.
fn header_of(file: u32, unused: u32) -> FileHeader
    requires file { file < 8 }
    requires unused { unused ≤ files.file_len file }
    ensures { result ≡ files.header_with file unused }
{
    let len = file_len(file);
    FileHeader {
        version: DATA_FILE_VERSION,
        version_minor: DATA_FILE_VERSION_MINOR,
        file_length: len,
        unused: place(Spot { file, ofs: unused }),
        unused_length: len - unused,
    }
}

// Writes the fields of a data file's header, whose zeros are there.
pub(crate) fn put_fields(draft: &mut Draft, file: u32, unused: u32) -> Result<(), NoMemory>
    requires file { file < 8 }
    requires unused { unused ≤ files.file_len file }
    requires there { FILE_HEADER_LEN ≤ length (bytes_at draft.old.image file) }
    requires zeros { part 24 8168 (bytes_at draft.old.image file) ≡ zeros 8168 }
    ensures ok { OnOk result (draft.new ≡ written file 0 (take 24 (file_header_bytes (files.header_with file unused))) draft.old) }
    ensures header { OnOk result (part 0 8192 (bytes_at draft.new.image file) ≡ file_header_bytes (files.header_with file unused)) }
    ensures weight { DeclaresAtMost 36 draft.old draft.new }
    ensures err { OnErr result (draft.new ≡ draft.old) }
{
    let frame = file_header_frame(&header_of(file, unused));
    overwrite(draft, Spot { file, ofs: 0 }, &frame[..HEADER_FIELDS_LEN])
}

/// Makes data file 0 without extents, where there is `.ns` and no data file. After an error the draft is to be dropped.
pub fn make_first(draft: &mut Draft) -> Result<(), NoMemory>
    requires { HasNamesAlone draft.old.image }
    ensures files { OnOk result (FilesStand draft.new.image) }
    ensures empty { OnOk result (AreUnused draft.new.image) }
    ensures ns { OnOk result (bytes_at draft.new.image NS_FILE ≡ bytes_at draft.old.image NS_FILE) }
    ensures weight { DeclaresAtMost 48 draft.old draft.new }
{
    draft.add_file(0, file_len(0))?;
    put_fields(draft, 0, FILE_HEADER_LEN as u32)
}

// Makes a data file behind the last one.
fn make_file(draft: &mut Draft, file: u32) -> Result<(), NoMemory>
    requires file { file < 7 }
    requires last { IsLast draft.old.image file }
    ensures stands { OnOk result ((db : List ℕ) (heap : Heap) (chain : List Place) (ends : FreeEnds) → HasFree draft.old.image db heap chain ends → HasFree draft.new.image db heap chain ends) }
    ensures last { OnOk result (IsLast draft.new.image (file + 1)) }
    ensures unused { OnOk result (files.unused_in draft.new.image (file + 1) ≡ Some (pos 8192)) }
    ensures room { OnOk result ((u : ℕ) → files.unused_in draft.old.image file ≡ Some (pos u) → room draft.old.image ≡ room draft.new.image + (files.file_len file - u)) }
    ensures ns { OnOk result (bytes_at draft.new.image NS_FILE ≡ bytes_at draft.old.image NS_FILE) }
    ensures weight { DeclaresAtMost 48 draft.old draft.new }
{
    let next = file + 1;
    draft.add_file(next, file_len(next))?;
    put_fields(draft, next, FILE_HEADER_LEN as u32)
}

// Makes data files behind the last one, until one has so many bytes behind its header.
fn make_rest(draft: &mut Draft, last: u32, len: u32) -> Result<Spot, SpaceFault>
    requires last { IsLast draft.old.image last }
    requires few { (u : ℕ) × ((files.unused_in draft.old.image last ≡ Some (pos u)) × (files.file_len last < u + len)) }
    ensures stands { OnOk result ((db : List ℕ) (heap : Heap) (chain : List Place) (ends : FreeEnds) → HasFree draft.old.image db heap chain ends → HasFree draft.new.image db heap chain ends) }
    ensures rest { IfOk result (λ at. IsRest draft.new.image (at.file, at.ofs) len) }
    ensures made { IfOk result (λ at. IsMade draft.old.image (at.file, at.ofs) len) }
    ensures full { IsErrOf result SpaceFault.NoSpace → (k : ℕ) → k < 8 → len_of draft.old.image k ≡ None → files.file_len k < 8192 + len }
    ensures left { IsErrOf result SpaceFault.NoSpace → IsLeftFull draft.old.image draft.new.image len }
    ensures room { OnOk result (LowersRoom (3 * len) draft.old.image draft.new.image) }
    ensures ns { OnOk result (bytes_at draft.new.image NS_FILE ≡ bytes_at draft.old.image NS_FILE) }
    ensures weight { DeclaresAtMost 336 draft.old draft.new }
{
    for file in last..7 {
        make_file(draft, file)?;
        if file_len(file + 1) - FILE_HEADER_LEN as u32 >= len {
            return Ok(Spot {
                file: file + 1,
                ofs: FILE_HEADER_LEN as u32,
            });
        }
    }
    Err(SpaceFault::NoSpace)
}

// The last data file.
fn last_file(draft: &Draft) -> u32
    requires { FilesStand draft.now.image }
    ensures { IsLast draft.now.image result }
{
    for file in 0..7 {
        if draft.len(file + 1).is_none() {
            return file;
        }
    }
    7
}

// Where the unused rest of a data file begins.
fn unused_ofs(draft: &Draft, file: u32) -> u32
    requires files { FilesStand draft.now.image }
    requires file { file < 8 }
    requires there { len_of draft.now.image file ≡ Some (files.file_len file) }
    ensures is { files.unused_in draft.now.image file ≡ Some (pos result) }
    ensures from { 8192 ≤ result }
    ensures to { result ≤ files.file_len file }
{
    let mut bytes = [0; FILE_HEADER_LEN];
    draft.read(file, 0, &mut bytes);
    natural(read_file_header(&bytes, 0).unused.ofs)
}

// So many unused bytes: those of the last file, or of a file that is made behind it.
pub(crate) fn rest_of(draft: &mut Draft, len: u32) -> Result<Spot, SpaceFault>
    requires { FilesStand draft.old.image }
    ensures stands { OnOk result ((db : List ℕ) (heap : Heap) (chain : List Place) (ends : FreeEnds) → HasFree draft.old.image db heap chain ends → HasFree draft.new.image db heap chain ends) }
    ensures rest { IfOk result (λ at. IsRest draft.new.image (at.file, at.ofs) len) }
    ensures next { IfOk result (λ at. IsNextRest draft.old.image (at.file, at.ofs) len) }
    ensures full { IsErrOf result SpaceFault.NoSpace → NoRest draft.old.image len }
    ensures left { IsErrOf result SpaceFault.NoSpace → IsLeftFull draft.old.image draft.new.image len }
    ensures some { IfOk result (λ at. NoRest draft.old.image len → ⊥) }
    ensures room { OnOk result (LowersRoom (3 * len) draft.old.image draft.new.image) }
    ensures ns { OnOk result (bytes_at draft.new.image NS_FILE ≡ bytes_at draft.old.image NS_FILE) }
    ensures weight { DeclaresAtMost 336 draft.old draft.new }
{
    let file = last_file(draft);
    let ofs = unused_ofs(draft, file);
    if file_len(file) - ofs >= len {
        return Ok(Spot { file, ofs });
    }
    make_rest(draft, file, len)
}
