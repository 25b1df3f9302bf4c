//! The header of a data file.

ghost use Rattle.std.specs.Prelude.{◌≡◌, ◌+◌, ◌≤◌, ◌↔◌, IsTrue, length};
ghost use Rattle.mm_base.specs.Bytes.{part, Puts};
ghost use Rattle.mm_frames.specs.FileHeader.{file_header_of, file_header_bytes};

use mm_base::{
    DiskLoc, frame, is_zero, put_place, put_u32, put_zeros, read_place, read_u32, spells_place,
};

/// The length of a data file's header, in bytes.
pub const FILE_HEADER_LEN: usize = 8192;

/// The version of every data file.
pub const DATA_FILE_VERSION: u32 = 4;

/// The minor version of every data file.
pub const DATA_FILE_VERSION_MINOR: u32 = 5;

const VERSION_AT: usize = 0;

const VERSION_MINOR_AT: usize = 4;

const FILE_LENGTH_AT: usize = 8;

const UNUSED_AT: usize = 12;

const UNUSED_LENGTH_AT: usize = 20;

const ZEROS_AT: usize = 24;

/// What stands at the front of a data file.
#[derive(Clone, Copy, Debug, PartialEq, Eq)]
pub struct FileHeader {
    /// `DATA_FILE_VERSION` in every data file.
    pub version: u32,
    /// `DATA_FILE_VERSION_MINOR` in every data file.
    pub version_minor: u32,
    /// The length of the file in bytes.
    pub file_length: u32,
    /// The first byte that no extent has.
    pub unused: DiskLoc,
    /// How many bytes no extent has, from `unused` to the end of the file.
    pub unused_length: u32,
}

/// The file's header at `at`. The bytes behind its fields aren't looked at: `is_file_header` says whether they are zeros.
#[tactic(auto, using(mm_base::proofs::Sets::signed), unfolding(crate::specs::FileHeader::file_header_of))]
pub fn read_file_header(bytes: &[u8], at: usize) -> FileHeader
    requires { at + FILE_HEADER_LEN ≤ length bytes.now }
    ensures { result ≡ file_header_of (part at FILE_HEADER_LEN bytes.now) }
{
    let frame = frame(bytes, at, FILE_HEADER_LEN);
    FileHeader {
        version: read_u32(frame, VERSION_AT),
        version_minor: read_u32(frame, VERSION_MINOR_AT),
        file_length: read_u32(frame, FILE_LENGTH_AT),
        unused: read_place(frame, UNUSED_AT),
        unused_length: read_u32(frame, UNUSED_LENGTH_AT),
    }
}

/// Writes a file's header at `at`, with zeros behind its fields.
pub fn put_file_header(bytes: &mut [u8], at: usize, header: &FileHeader)
    requires { at + FILE_HEADER_LEN ≤ length bytes.old }
    ensures { Puts FILE_HEADER_LEN file_header_bytes file_header_of at
        header.now bytes.old bytes.new }
{
    put_u32(bytes, at + VERSION_AT, header.version);
    put_u32(bytes, at + VERSION_MINOR_AT, header.version_minor);
    put_u32(bytes, at + FILE_LENGTH_AT, header.file_length);
    put_place(bytes, at + UNUSED_AT, header.unused);
    put_u32(bytes, at + UNUSED_LENGTH_AT, header.unused_length);
    put_zeros(bytes, at + ZEROS_AT, FILE_HEADER_LEN - ZEROS_AT);
}

/// The bytes of a file's header.
#[tactic(auto, using(mm_base::proofs::Sets::whole))]
pub fn file_header_frame(header: &FileHeader) -> [u8; FILE_HEADER_LEN]
    ensures spelled { result ≡ file_header_bytes header.now }
    ensures again { file_header_of result ≡ header.now }
{
    let mut frame = [0; FILE_HEADER_LEN];
    put_file_header(&mut frame, 0, header);
    frame
}

/// Whether the bytes at `at` are those that `put_file_header` writes for the header that stands there: its zeros are there, and a null
/// place has offset 0.
pub fn is_file_header(bytes: &[u8], at: usize) -> bool
    requires { at + FILE_HEADER_LEN ≤ length bytes.now }
    ensures { let frame = part at FILE_HEADER_LEN bytes.now in
        IsTrue result ↔ (frame ≡ file_header_bytes (file_header_of frame)) }
{
    let frame = frame(bytes, at, FILE_HEADER_LEN);
    spells_place(frame, UNUSED_AT) && is_zero(frame, ZEROS_AT, FILE_HEADER_LEN - ZEROS_AT)
}
