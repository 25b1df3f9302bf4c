//! The entries of a section of the journal, but for the bytes of a range and of a name.

ghost use Rattle.std.specs.Prelude.{◌≡◌, ◌+◌, ◌≤◌, length};
ghost use Rattle.mm_base.specs.Bytes.{part, Puts};
ghost use Rattle.mm_frames.specs.EntryHead.{entry_head_of, entry_head_bytes, made_entry_of, made_entry_bytes};

use mm_base::{frame, put_u32, read_u32};

/// The length of a range's head, in bytes. The range's bytes follow.
pub const ENTRY_HEAD_LEN: usize = 12;

/// The length of a made file's entry, in bytes.
pub const MADE_ENTRY_LEN: usize = 12;

/// The most bytes that a range has.
pub const MAX_RANGE_LEN: u32 = 67_108_864;

/// The first word of a database's name. Its bytes follow, and a zero.
pub const NAME_WORD: u32 = 0xffff_fffe;

/// The first word of a made file's entry.
pub const MADE_WORD: u32 = 0xffff_fffd;

const LEN_AT: usize = 0;

const OFS_AT: usize = 4;

const FILE_AT: usize = 8;

const WORD_AT: usize = 0;

const MADE_FILE_AT: usize = 4;

const MADE_LEN_AT: usize = 8;

/// What stands at the front of a range.
#[derive(Clone, Copy, Debug, PartialEq, Eq)]
pub struct EntryHead {
    /// How many bytes the range has: 1 to `MAX_RANGE_LEN`.
    pub len: u32,
    /// The range's offset in its file.
    pub ofs: u32,
    /// The file's number.
    pub file: u32,
}

/// A file that was made, full of zeros.
#[derive(Clone, Copy, Debug, PartialEq, Eq)]
pub struct MadeEntry {
    /// The file's number.
    pub file: u32,
    /// Its length in bytes.
    pub len: u32,
}

/// The range's head at `at`.
#[tactic(auto, using(mm_base::proofs::Sets::signed), unfolding(crate::specs::EntryHead::entry_head_of))]
pub fn read_entry_head(bytes: &[u8], at: usize) -> EntryHead
    requires { at + ENTRY_HEAD_LEN ≤ length bytes.now }
    ensures { result ≡ entry_head_of (part at ENTRY_HEAD_LEN bytes.now) }
{
    let frame = frame(bytes, at, ENTRY_HEAD_LEN);
    EntryHead {
        len: read_u32(frame, LEN_AT),
        ofs: read_u32(frame, OFS_AT),
        file: read_u32(frame, FILE_AT),
    }
}

/// Writes a range's head at `at`.
pub fn put_entry_head(bytes: &mut [u8], at: usize, head: &EntryHead)
    requires { at + ENTRY_HEAD_LEN ≤ length bytes.old }
    ensures { Puts ENTRY_HEAD_LEN entry_head_bytes entry_head_of at head.now bytes.old bytes.new }
{
    put_u32(bytes, at + LEN_AT, head.len);
    put_u32(bytes, at + OFS_AT, head.ofs);
    put_u32(bytes, at + FILE_AT, head.file);
}

/// The bytes of a range's head.
#[tactic(auto, using(mm_base::proofs::Sets::whole))]
pub fn entry_head_frame(head: &EntryHead) -> [u8; ENTRY_HEAD_LEN]
    ensures spelled { result ≡ entry_head_bytes head.now }
    ensures again { entry_head_of result ≡ head.now }
{
    let mut frame = [0; ENTRY_HEAD_LEN];
    put_entry_head(&mut frame, 0, head);
    frame
}

/// The made file at `at`, whatever its first word.
#[tactic(auto, using(mm_base::proofs::Sets::signed), unfolding(crate::specs::EntryHead::made_entry_of))]
pub fn read_made_entry(bytes: &[u8], at: usize) -> MadeEntry
    requires { at + MADE_ENTRY_LEN ≤ length bytes.now }
    ensures { result ≡ made_entry_of (part at MADE_ENTRY_LEN bytes.now) }
{
    let frame = frame(bytes, at, MADE_ENTRY_LEN);
    MadeEntry {
        file: read_u32(frame, MADE_FILE_AT),
        len: read_u32(frame, MADE_LEN_AT),
    }
}

/// Writes a made file's entry at `at`.
pub fn put_made_entry(bytes: &mut [u8], at: usize, made: &MadeEntry)
    requires { at + MADE_ENTRY_LEN ≤ length bytes.old }
    ensures { Puts MADE_ENTRY_LEN made_entry_bytes made_entry_of at made.now bytes.old bytes.new }
{
    put_u32(bytes, at + WORD_AT, MADE_WORD);
    put_u32(bytes, at + MADE_FILE_AT, made.file);
    put_u32(bytes, at + MADE_LEN_AT, made.len);
}

/// The bytes of a made file's entry.
#[tactic(auto, using(mm_base::proofs::Sets::whole))]
pub fn made_entry_frame(made: &MadeEntry) -> [u8; MADE_ENTRY_LEN]
    ensures spelled { result ≡ made_entry_bytes made.now }
    ensures again { made_entry_of result ≡ made.now }
{
    let mut frame = [0; MADE_ENTRY_LEN];
    put_made_entry(&mut frame, 0, made);
    frame
}
