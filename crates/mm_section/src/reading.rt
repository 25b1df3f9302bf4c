//! A section is read.

ghost use Rattle.std.specs.Prelude.{◌≡◌, ◌≢◌, ◌+◌, ◌-◌, ◌^◌, ◌<◌, ◌≤◌, ◌++◌, ◌&&◌, nat_lt, nat_le, ◌==◌, not, ℕ, List, [], ◌∷◌, length, drop, IfOk, IfSome, IfNone};
ghost use Rattle.std.specs.List.{prefix_len};
ghost use Rattle.mm_ranges.specs.declared.part.Part.{Part};
ghost use Rattle.mm_section.specs.Spells.{Names, make_of, put_of, HasNone, Begins, IsPart};
ghost use Rattle.mm_section.specs.Reading.{HasNoName, HasNoMade, HasNoPiece, HasNoPart, Reads, ReadsMade, ReadsPieces, ReadsPart, IsHead, AreSpelled};

use crate::order::{is_part, names_rise};
use crate::sealing::{padding, unseal};
use crate::section::{PartList, Section};
use mm_base::{NoMemory, read_u32};
use mm_frames::{
    ENTRY_HEAD_LEN, EntryHead, FOOTER_LEN, MADE_ENTRY_LEN, MADE_WORD, MAX_RANGE_LEN, NAME_WORD,
    SECTION_HEADER_LEN, read_entry_head, read_made_entry,
};
use mm_ranges::{Bytes, Made, MadeList, Part, Piece, PieceList};
use std::alloc::Global;

const WORD_LEN: usize = 4;

// How many bytes a name's entry has beside the name: its first word, and the zero behind it.
const NAME_ENTRY_LEN: usize = 5;

// The bytes from `at` on.
#[tactic(auto, using(std::proofs::lemmas::List::take_all))]
fn tail(bytes: &[u8], at: usize) -> &[u8]
    requires { at ≤ length bytes.now }
    ensures { result.now ≡ drop at bytes.now }
{
    &bytes[at..]
}

fn len_before_zero(bytes: &[u8]) -> usize
    ensures { result ≡ prefix_len (λ b. not (b == 0)) bytes.now }
{
    bytes.iter().take_while(|byte| **byte != 0).count()
}

// The name that stands at the front, but for the test whether it is a database's.
fn read_name(bytes: &[u8]) -> Option<&[u8]>
    ensures some { IfSome result (λ name. Reads (Names name.now ∷ []) (length name.now + 5) bytes.now) }
    ensures none { IfNone result (HasNoName bytes.now) }
{
    if bytes.len() < WORD_LEN {
        return None;
    }
    if read_u32(bytes, 0) != NAME_WORD {
        return None;
    }
    let rest = tail(bytes, WORD_LEN);
    let len = len_before_zero(rest);
    if len < rest.len() {
        Some(&rest[..len])
    } else {
        None
    }
}

// The made file's entry at `at`.
fn made_at(bytes: &[u8], at: usize) -> Option<Made>
    requires { at ≤ length bytes.now }
    ensures some { IfSome result (λ made. Reads (make_of made ∷ []) 12 (drop at bytes.now)) }
    ensures none { IfNone result (HasNoMade (drop at bytes.now)) }
{
    let rest = tail(bytes, at);
    if rest.len() < MADE_ENTRY_LEN {
        return None;
    }
    if read_u32(rest, 0) != MADE_WORD {
        return None;
    }
    let entry = read_made_entry(rest, 0);
    Some(Made {
        file: entry.file,
        len: entry.len,
    })
}

// Whether a range may have this length where there is so much room.
fn is_range_len(len: u32, room: usize) -> bool
    ensures { result ≡ (nat_lt 0 len && (nat_le len 67108864 && nat_le len room)) }
{
    0 < len && len <= MAX_RANGE_LEN && len as usize <= room
}

// The head of the range at the front, of which all bytes are there.
fn head_of(bytes: &[u8]) -> Option<EntryHead>
    ensures some { IfSome result (λ head. IsHead head bytes.now) }
    ensures none { IfNone result (HasNoPiece bytes.now) }
{
    if bytes.len() < ENTRY_HEAD_LEN {
        return None;
    }
    let head = read_entry_head(bytes, 0);
    if is_range_len(head.len, bytes.len() - ENTRY_HEAD_LEN) {
        Some(head)
    } else {
        None
    }
}

fn read_all_made(alloc: Global, bytes: &[u8]) -> Result<(Vec<Made>, usize), NoMemory>
    ensures { IfOk result (λ read. ReadsMade read.0.items read.1 bytes.now) }
{
    let mut all = Vec::new(alloc);
    let mut at = 0;
    while let Some(made) = made_at(bytes, at) {
        all.push(made)?;
        at += MADE_ENTRY_LEN;
    }
    Ok((all, at))
}

// The range at `at`, of which all bytes are there.
fn piece_at(alloc: Global, bytes: &[u8], at: usize) -> Result<Option<Piece>, NoMemory>
    requires { at ≤ length bytes.now }
    ensures some { IfOk result (λ found. IfSome found (λ piece. Reads (put_of piece ∷ []) (length piece.bytes + 12) (drop at bytes.now))) }
    ensures none { IfOk result (λ found. IfNone found (HasNoPiece (drop at bytes.now))) }
{
    let rest = tail(bytes, at);
    let Some(head) = head_of(rest) else {
        return Ok(None);
    };
    let end = ENTRY_HEAD_LEN + head.len as usize;
    let there = rest[ENTRY_HEAD_LEN..end].to_vec(alloc)?;
    Ok(Some(Piece {
        file: head.file,
        at: head.ofs,
        bytes: Bytes::new(there),
    }))
}

fn read_all_pieces(alloc: Global, bytes: &[u8]) -> Result<(Vec<Piece>, usize), NoMemory>
    ensures { IfOk result (λ read. ReadsPieces read.0.items read.1 bytes.now) }
{
    let mut all = Vec::new(alloc);
    let mut at = 0;
    while let Some(piece) = piece_at(alloc, bytes, at)? {
        at += ENTRY_HEAD_LEN + piece.bytes.len();
        all.push(piece)?;
    }
    Ok((all, at))
}

// The entries at the front that belong to a database's name.
fn read_entries(alloc: Global, bytes: &[u8], name: &[u8]) -> Result<(Part, usize), NoMemory>
    requires { Reads (Names name.now ∷ []) (length name.now + 5) bytes.now }
    ensures { IfOk result (λ read. ReadsPart read.0 read.1 bytes.now) }
{
    let name_len = name.len() + NAME_ENTRY_LEN;
    let (made, made_len) = read_all_made(alloc, tail(bytes, name_len))?;
    let (pieces, pieces_len) = read_all_pieces(alloc, tail(bytes, name_len + made_len))?;
    let part = Part {
        name: Bytes::new(name.to_vec(alloc)?),
        made: MadeList::new(made),
        pieces: PieceList::new(pieces),
    };
    Ok((part, name_len + made_len + pieces_len))
}

// The part at the front, and its length.
fn read_part(alloc: Global, bytes: &[u8]) -> Result<Option<(Part, usize)>, NoMemory>
    ensures some { IfOk result (λ found. IfSome found (λ read. IsPart read.0 × ReadsPart read.0 read.1 bytes.now)) }
    ensures none { IfOk result (λ found. IfNone found (HasNoPart bytes.now)) }
{
    let Some(name) = read_name(bytes) else {
        return Ok(None);
    };
    let (part, len) = read_entries(alloc, bytes, name)?;
    if is_part(&part) {
        Ok(Some((part, len)))
    } else {
        Ok(None)
    }
}

// The parts that these bytes are.
fn read_parts(alloc: Global, bytes: &[u8]) -> Result<Option<Vec<Part>>, NoMemory>
    ensures some { IfOk result (λ found. IfSome found (λ parts. AreSpelled parts.items bytes.now)) }
    ensures none { IfOk result (λ found. IfNone found ((parts : List Part) → AreSpelled parts bytes.now → ⊥)) }
{
    let mut parts = Vec::new(alloc);
    let mut at = 0;
    while at < bytes.len() {
        let Some((part, len)) = read_part(alloc, tail(bytes, at))? else {
            return Ok(None);
        };
        parts.push(part)?;
        at += len;
    }
    if names_rise(&parts) {
        Ok(Some(parts))
    } else {
        Ok(None)
    }
}

/// The section that the front of these bytes spells in the file with this id, and how many bytes spell it. None is answered
/// exactly where no front of them spells one.
pub fn read_section(
    alloc: Global,
    input: &[u8],
    id: u64,
) -> Result<Option<(Section, usize)>, NoMemory>
    ensures some { IfOk result (λ found. IfSome found (λ read. Begins read.0 id read.1 input.now)) }
    ensures none { IfOk result (λ found. IfNone found (HasNone id input.now)) }
{
    let Some(header) = unseal(input, id) else {
        return Ok(None);
    };
    let len = header.len as usize;
    let Some(parts) = read_parts(alloc, &input[SECTION_HEADER_LEN..len - FOOTER_LEN])? else {
        return Ok(None);
    };
    let section = Section {
        number: header.number,
        parts: PartList::new(parts),
    };
    Ok(Some((section, len + padding(len))))
}
