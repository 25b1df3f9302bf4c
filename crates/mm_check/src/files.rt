//! The files of a database: whether they are there, with their lengths and headers.

ghost use Rattle.std.specs.Prelude.{◌≡◌, ◌<◌, ◌≤◌, ◌-◌, length, Some, None};
ghost use Rattle.std.specs.FinMap.{get};
ghost use Rattle.mm_base.specs.Bytes.{part};
ghost use Rattle.mm_ranges.specs.Overlay.{bytes_at};
ghost use Rattle.mm_extents.specs.Changes.{len_of};
ghost use Rattle.mm_extents.specs.Files as stands;
ghost use Rattle.mm_walk.specs.Questions.{first_failing};
ghost use Rattle.mm_check.specs.FileQuestions.{is_ns_len, unused_of, is_header, none_from, file_right, file_questions};

use crate::numbers::size;
use mm_extents::{Spot, place};
use mm_frames::{
    DATA_FILE_VERSION, DATA_FILE_VERSION_MINOR, FILE_HEADER_LEN, FileHeader, file_header_frame,
    read_file_header,
};
use mm_views::{NS_FILE, Views};

// How many data files a database may have.
pub(crate) const DATA_FILES: u32 = 8;

// How long a data file is.
fn file_len(file: u32) -> u32
    ensures { result ≡ stands.file_len file }
{
    1_048_576 << file.min(6)
}

// The header of a data file, of which no extent has the bytes from `unused` on.
fn header_with(file: u32, unused: u32) -> FileHeader
    requires file { file < 8 }
    requires unused { unused ≤ stands.file_len file }
    ensures { result ≡ stands.header_with file unused }
{
    let len = file_len(file);
    FileHeader {
        version: DATA_FILE_VERSION,
        version_minor: DATA_FILE_VERSION_MINOR,
        file_length: len,
        unused: place(Spot { file, ofs: unused }),
        unused_length: len - unused,
    }
}

// The header of a data file.
fn header(views: &Views, file: u32) -> [u8; FILE_HEADER_LEN]
    requires { FILE_HEADER_LEN ≤ length (bytes_at views.now.private file) }
    ensures { result ≡ part 0 FILE_HEADER_LEN (bytes_at views.now.private file) }
{
    let mut bytes = [0; FILE_HEADER_LEN];
    views.read(file, 0, &mut bytes);
    bytes
}

// Where the unused rest of a data file begins, as its header says.
pub(crate) fn unused(views: &Views, file: u32) -> u32
    requires { FILE_HEADER_LEN ≤ length (bytes_at views.now.private file) }
    ensures { result ≡ unused_of (part 0 FILE_HEADER_LEN (bytes_at views.now.private file)) }
{
    size(read_file_header(&header(views, file), 0).unused.ofs)
}

// A data file has its header.
fn has_header(views: &Views, file: u32) -> bool
    requires file { file < 8 }
    requires long { FILE_HEADER_LEN ≤ length (bytes_at views.now.private file) }
    ensures { result ≡ is_header file (part 0 FILE_HEADER_LEN (bytes_at views.now.private file)) }
{
    let unused = unused(views, file);
    if unused < FILE_HEADER_LEN as u32 || file_len(file) < unused {
        return false;
    }
    header(views, file) == file_header_frame(&header_with(file, unused))
}

// None of the data files from a number on is there.
pub(crate) fn none_from(views: &Views, file: u32) -> bool
    requires { file ≤ 8 }
    ensures { result ≡ none_from views.now.private file (8 - file) }
{
    for k in file..DATA_FILES {
        if views.len(k).is_some() {
            return false;
        }
    }
    true
}

// A data file is there and right, or it and all behind it are absent and it isn't the first.
fn file_right(views: &Views, file: u32) -> bool
    requires { file < 8 }
    ensures { result ≡ file_right views.now.private file (7 - file) (get views.now.private file) }
{
    match views.len(file) {
        None => file != 0 && none_from(views, file + 1),
        Some(len) => len == file_len(file) && has_header(views, file),
    }
}

// The length of `.ns` is right.
fn names_right(views: &Views) -> bool
    ensures { result ≡ is_ns_len (len_of views.now.private 2147483647) }
{
    match views.len(NS_FILE) {
        None => false,
        Some(len) => len % 1_048_576 == 0 && 1_048_576 <= len && len <= 16_777_216,
    }
}

/// Phase `file`: where the first file is missing or wrong, as (file, 0); None exactly where the files stand.
pub fn wrong_file(views: &Views) -> Option<(u32, u32)>
    ensures { result ≡ first_failing (file_questions views.now.private) }
{
    if !names_right(views) {
        return Some((NS_FILE, 0));
    }
    for file in 0..DATA_FILES {
        if !file_right(views, file) {
            return Some((file, 0));
        }
    }
    None
}
