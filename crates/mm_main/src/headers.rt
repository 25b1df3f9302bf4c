// The headers of a data file and of its extent.
ghost use Rattle.std.specs.Prelude.{◌≡◌, ◌↔◌, ◌≤◌, ◌^◌, ◌<◌, ◌⊎◌, ◌++◌, ℕ, List, pos, length, IsTrue, IfSome, IfNone};
ghost use Rattle.mm_base.specs.Bytes.{part};
ghost use Rattle.mm_base.specs.Places.{null};
ghost use Rattle.mm_base.specs.Tables.{HasAll};
ghost use Rattle.mm_base.specs.declared.place.DiskLoc.{DiskLoc};
ghost use Rattle.mm_frames.specs.ExtentHeader.{extent_header_of, extent_header_table};
ghost use Rattle.mm_main.specs.Room.{file_len, extent_at, extent_len};
ghost use Rattle.mm_main.specs.DataFile.{at_file_0, namespace_of, HasFileHeader};
ghost use Rattle.mm_main.specs.Collections.{IsCollection};
ghost use Rattle.mm_main.specs.Findings.{IsHeaded, IsOpened, extent_linking};
ghost use Rattle.mm_main.specs.Contents.{full_name};
ghost use Rattle.mm_main.specs.Opening.{HasConstants, HasNumbers};

use crate::answers::{EXTENT_AT, FILE_LEN};
use crate::collections::{behind, is_collection};
use crate::file::{EXTENT_LEN, VERSION, VERSION_MINOR};
use mm_base::{DiskLoc, Name, is_zero};
use mm_frames::{
    EXTENT_MAGIC, ExtentHeader, FILE_HEADER_LEN, FileHeader, read_extent_header, read_file_header,
};

// Where the fields of a file's header end, and its zeros begin.
const FIELDS_END: usize = 24;

/// The collection of an extent, and where its chain of records begins and ends.
#[derive(Drop)]
pub struct Extent {
    pub namespace: Name,
    pub first: DiskLoc,
    pub last: DiskLoc,
}

/// Whether the place is an offset of the file number 0.
pub fn is_at(place: DiskLoc, ofs: usize) -> bool
    requires { ofs < 2 ^ 31 }
    ensures { IsTrue result ↔ (place ≡ at_file_0 (pos ofs)) }
{
    place.file == 0 && place.ofs == ofs as i32
}

// Whether the fields of the file's header are right for this place behind its extents.
fn has_numbers(header: &FileHeader, unused: usize) -> bool
    requires { unused ≤ file_len }
    ensures { IsTrue result ↔ HasNumbers header.now unused }
{
    header.version == VERSION
        && header.version_minor == VERSION_MINOR
        && header.file_length == FILE_LEN as u32
        && is_at(header.unused, unused)
        && header.unused_length == (FILE_LEN - unused) as u32
}

// Whether the file's header is the one for this place behind its extents.
fn has_header(file: &[u8], unused: usize) -> bool
    requires size { length file.now ≡ file_len }
    requires unused { unused ≤ file_len }
    ensures { IsTrue result ↔ HasFileHeader file.now unused }
{
    let header = read_file_header(file, 0);
    if !has_numbers(&header, unused) {
        return false;
    }
    is_zero(file, FIELDS_END, FILE_HEADER_LEN - FIELDS_END)
}

/// The first byte that no extent has, where the file's length and its header are right.
pub fn unused_of(file: &[u8]) -> Option<usize>
    ensures some { IfSome result (λ unused. (length file.now ≡ file_len) × HasFileHeader file.now unused × ((unused ≡ extent_at) ⊎ (unused ≡ file_len))) }
    ensures none { IfNone result (IsHeaded file.now → ⊥) }
{
    if file.len() != FILE_LEN {
        return None;
    }
    if has_header(file, EXTENT_AT) {
        return Some(EXTENT_AT);
    }
    if has_header(file, FILE_LEN) {
        return Some(FILE_LEN);
    }
    None
}

// Whether the fields are right that are the same in each extent.
fn has_constants(header: &ExtentHeader) -> bool
    ensures { IsTrue result ↔ HasConstants header.now }
{
    header.magic == EXTENT_MAGIC
        && is_at(header.my_loc, EXTENT_AT)
        && header.xnext.is_null()
        && header.xprev.is_null()
        && header.len == EXTENT_LEN
}

// The full name of a collection that a zero padded field holds.
fn name_in(field: &[u8]) -> Option<Name>
    requires { length field.now ≡ 128 }
    ensures some { IfSome result (λ name. (collection : List ℕ) × IsCollection collection × (name ≡ full_name collection) × (field.now ≡ namespace_of collection)) }
    ensures none { IfNone result ((collection : List ℕ) → IsCollection collection → field.now ≡ namespace_of collection → ⊥) }
{
    let Some(name) = Name::from_padded(field) else {
        return None;
    };
    let Some(collection) = behind(name.bytes(), b"test.") else {
        return None;
    };
    if is_collection(collection) {
        Some(name)
    } else {
        None
    }
}

/// The one extent of a file that has one, or nothing where its header is wrong.
pub fn extent_of(file: &[u8]) -> Option<Extent>
    requires size { length file.now ≡ file_len }
    requires header { HasFileHeader file.now file_len }
    ensures some { IfSome result (λ extent. (collection : List ℕ) × (extent.namespace ≡ full_name collection) × IsOpened file.now collection extent.first extent.last) }
    ensures none { IfNone result ((collection : List ℕ) (first last : DiskLoc) → IsOpened file.now collection first last → ⊥) }
{
    let header = read_extent_header(file, EXTENT_AT);
    if !has_constants(&header) {
        return None;
    }
    let Some(namespace) = name_in(&header.namespace) else {
        return None;
    };
    Some(Extent {
        namespace,
        first: header.first_record,
        last: header.last_record,
    })
}
