//! The header of a file of the journal.

ghost use Rattle.std.specs.Prelude.{◌≡◌, ◌≤◌, length};
ghost use Rattle.mm_base.specs.Bytes.{Puts};
ghost use Rattle.mm_frames.specs.JournalHeader.{journal_header_bytes, journal_id_of, header_kind, is_marked, is_ours, is_foreign};

use mm_base::{frame, put_bytes, put_u16, put_u64, put_zeros, read_u16};

/// The length of the header of a journal's file, in bytes. The sections follow.
pub const JOURNAL_HEADER_LEN: usize = 8192;

/// The version of the journal.
pub const JOURNAL_VERSION: u16 = 0x4d01;

const MARK: [u8; 2] = *b"j\n";

const LINE_END: [u8; 1] = *b"\n";

const LINE_ENDS: [u8; 2] = *b"\n\n";

const TIME: [u8; 20] = [b' '; 20];

const MARK_AT: usize = 0;

const VERSION_AT: usize = 2;

const FIRST_LINE_END_AT: usize = 4;

const TIME_AT: usize = 5;

const SECOND_LINE_END_AT: usize = 25;

const PATH_AT: usize = 26;

const THIRD_LINE_END_AT: usize = 154;

const FILE_ID_AT: usize = 156;

const RESERVED_AT: usize = 164;

const LAST_LINE_END_AT: usize = 8190;

/// What stands at the front of a file of the journal.
#[derive(Clone, Copy, Debug, PartialEq, Eq)]
pub enum HeaderKind {
    /// The header of this version with the id that is looked for.
    Ours,
    /// The header of another version.
    Foreign,
    /// Neither.
    Broken,
}

/// Writes the header of the file with this id at the front.
pub fn put_journal_header(bytes: &mut [u8], id: u64)
    requires { JOURNAL_HEADER_LEN ≤ length bytes.old }
    ensures { Puts JOURNAL_HEADER_LEN journal_header_bytes journal_id_of 0 id bytes.old bytes.new }
{
    put_bytes(bytes, MARK_AT, &MARK);
    put_u16(bytes, VERSION_AT, JOURNAL_VERSION);
    put_bytes(bytes, FIRST_LINE_END_AT, &LINE_END);
    put_bytes(bytes, TIME_AT, &TIME);
    put_bytes(bytes, SECOND_LINE_END_AT, &LINE_END);
    put_zeros(bytes, PATH_AT, THIRD_LINE_END_AT - PATH_AT);
    put_bytes(bytes, THIRD_LINE_END_AT, &LINE_ENDS);
    put_u64(bytes, FILE_ID_AT, id);
    put_zeros(bytes, RESERVED_AT, LAST_LINE_END_AT - RESERVED_AT);
    put_bytes(bytes, LAST_LINE_END_AT, &LINE_ENDS);
}

/// The header of the file with this id.
#[tactic(auto, using(mm_base::proofs::Sets::whole))]
pub fn journal_header_frame(id: u64) -> [u8; JOURNAL_HEADER_LEN]
    ensures spelled { result ≡ journal_header_bytes id }
    ensures again { journal_id_of result ≡ id }
{
    let mut frame = [0; JOURNAL_HEADER_LEN];
    put_journal_header(&mut frame, id);
    frame
}

// Whether the bytes by which every version's header is known are right.
fn is_marked(bytes: &[u8]) -> bool
    requires { JOURNAL_HEADER_LEN ≤ length bytes.now }
    ensures { result ≡ is_marked bytes.now }
{
    bytes[0] == b'j'
        && bytes[1] == b'\n'
        && bytes[4] == b'\n'
        && bytes[25] == b'\n'
        && bytes[154] == b'\n'
        && bytes[155] == b'\n'
        && bytes[8190] == b'\n'
        && bytes[8191] == b'\n'
}

fn is_ours(bytes: &[u8], id: u64) -> bool
    ensures { result ≡ is_ours id bytes.now }
{
    bytes.len() >= JOURNAL_HEADER_LEN
        && frame(bytes, 0, JOURNAL_HEADER_LEN) == journal_header_frame(id).as_slice()
}

fn is_foreign(bytes: &[u8]) -> bool
    ensures { result ≡ is_foreign bytes.now }
{
    bytes.len() >= JOURNAL_HEADER_LEN
        && is_marked(bytes)
        && read_u16(bytes, VERSION_AT) != JOURNAL_VERSION
}

/// What stands at the front of a file that is to have this id. A file that is shorter than a header is `Broken`.
#[tactic(auto, unfolding(crate::specs::JournalHeader::header_kind))]
pub fn read_journal_header(bytes: &[u8], id: u64) -> HeaderKind
    ensures { result ≡ header_kind id bytes.now }
{
    if is_ours(bytes, id) {
        HeaderKind::Ours
    } else if is_foreign(bytes) {
        HeaderKind::Foreign
    } else {
        HeaderKind::Broken
    }
}
