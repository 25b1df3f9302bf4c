//! The front of a section of the journal.

ghost use Rattle.std.specs.Prelude.{◌≡◌, ◌+◌, ◌≤◌, length};
ghost use Rattle.mm_base.specs.Bytes.{part, Puts};
ghost use Rattle.mm_frames.specs.SectionHeader.{section_header_of, section_header_bytes};

use mm_base::{frame, put_u32, put_u64, read_u32, read_u64};

/// The length of a section's header, in bytes.
pub const SECTION_HEADER_LEN: usize = 20;

/// A section with its padding has a multiple of this length in bytes.
pub const SECTION_ALIGNMENT: usize = 8192;

const LEN_AT: usize = 0;

const NUMBER_AT: usize = 4;

const FILE_ID_AT: usize = 12;

/// What stands at the front of a section.
#[derive(Clone, Copy, Debug, PartialEq, Eq)]
pub struct SectionHeader {
    /// The section's length in bytes, from its header to the end of its footer.
    pub len: u32,
    /// The section's number.
    pub number: u64,
    /// The id of the journal's file in which it stands.
    pub file_id: u64,
}

/// The section's header at `at`.
#[tactic(auto, using(mm_base::proofs::Sets::signed), unfolding(crate::specs::SectionHeader::section_header_of))]
pub fn read_section_header(bytes: &[u8], at: usize) -> SectionHeader
    requires { at + SECTION_HEADER_LEN ≤ length bytes.now }
    ensures { result ≡ section_header_of (part at SECTION_HEADER_LEN bytes.now) }
{
    let frame = frame(bytes, at, SECTION_HEADER_LEN);
    SectionHeader {
        len: read_u32(frame, LEN_AT),
        number: read_u64(frame, NUMBER_AT),
        file_id: read_u64(frame, FILE_ID_AT),
    }
}

/// Writes a section's header at `at`.
pub fn put_section_header(bytes: &mut [u8], at: usize, header: &SectionHeader)
    requires { at + SECTION_HEADER_LEN ≤ length bytes.old }
    ensures { Puts SECTION_HEADER_LEN section_header_bytes section_header_of at
        header.now bytes.old bytes.new }
{
    put_u32(bytes, at + LEN_AT, header.len);
    put_u64(bytes, at + NUMBER_AT, header.number);
    put_u64(bytes, at + FILE_ID_AT, header.file_id);
}

/// The bytes of a section's header.
#[tactic(auto, using(mm_base::proofs::Sets::whole))]
pub fn section_header_frame(header: &SectionHeader) -> [u8; SECTION_HEADER_LEN]
    ensures spelled { result ≡ section_header_bytes header.now }
    ensures again { section_header_of result ≡ header.now }
{
    let mut frame = [0; SECTION_HEADER_LEN];
    put_section_header(&mut frame, 0, header);
    frame
}
