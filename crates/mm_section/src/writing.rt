//! A section is written.

ghost use Rattle.std.specs.Prelude.{◌≡◌, ◌+◌, ◌-◌, ◌^◌, ◌<◌, ◌++◌, List, length, map, OnOk, OnErr};
ghost use Rattle.mm_base.specs.Bytes.{zeros};
ghost use Rattle.mm_base.specs.Fields.{u32_bytes};
ghost use Rattle.mm_section.specs.Spells.{Names, Makes, Puts, entry_bytes, entries_bytes, part_entries, parts_bytes, make_of, put_of, sealed_len, front_bytes, section_bytes, IsSpellable};
ghost use Rattle.mm_section.specs.Reading.{IsKept, AreShort, PartsShort};

use crate::sealing::{hash, padding};
use crate::section::Section;
use mm_base::NoMemory;
use mm_frames::{
    EntryHead, FOOTER_LEN, Footer, MadeEntry, NAME_WORD, SectionHeader, entry_head_frame,
    footer_frame, made_entry_frame, put_section_header, section_header_frame,
};
use mm_ranges::{Made, Part, Piece};

fn append(out: &mut Vec<u8>, bytes: &[u8]) -> Result<(), NoMemory>
    ensures ok { OnOk result (out.new.items ≡ out.old.items ++ bytes.now) }
    ensures kept { IsKept out.old.items out.new.items }
{
    out.extend_from_slice(bytes)?;
    Ok(())
}

#[tactic(auto, unfolding(mm_base::specs::Bytes::zeros))]
fn append_zeros(out: &mut Vec<u8>, count: usize) -> Result<(), NoMemory>
    ensures ok { OnOk result (out.new.items ≡ out.old.items ++ zeros count) }
    ensures kept { IsKept out.old.items out.new.items }
{
    let zeros = vec![in *out.allocator(); 0; count]?;
    append(out, &zeros)
}

#[tactic(auto, unfolding(mm_base::specs::Fields::u32_bytes))]
fn append_u32(out: &mut Vec<u8>, value: u32) -> Result<(), NoMemory>
    ensures ok { OnOk result (out.new.items ≡ out.old.items ++ u32_bytes value) }
    ensures kept { IsKept out.old.items out.new.items }
{
    append(out, &value.to_le_bytes())
}

fn append_name(out: &mut Vec<u8>, name: &[u8]) -> Result<(), NoMemory>
    ensures ok { OnOk result (out.new.items ≡ out.old.items ++ entry_bytes (Names name.now)) }
    ensures kept { IsKept out.old.items out.new.items }
{
    append_u32(out, NAME_WORD)?;
    append(out, name)?;
    append(out, &[0])?;
    Ok(())
}

fn append_made(out: &mut Vec<u8>, made: &Made) -> Result<(), NoMemory>
    ensures ok { OnOk result (out.new.items ≡ out.old.items ++ entry_bytes (make_of made.now)) }
    ensures kept { IsKept out.old.items out.new.items }
{
    let entry = MadeEntry {
        file: made.file,
        len: made.len,
    };
    append(out, &made_entry_frame(&entry))
}

fn append_piece(out: &mut Vec<u8>, piece: &Piece) -> Result<(), NoMemory>
    requires { length piece.now.bytes < 2 ^ 32 }
    ensures ok { OnOk result (out.new.items ≡ out.old.items ++ entry_bytes (put_of piece.now)) }
    ensures kept { IsKept out.old.items out.new.items }
{
    let head = EntryHead {
        len: piece.bytes.len() as u32,
        ofs: piece.at,
        file: piece.file,
    };
    append(out, &entry_head_frame(&head))?;
    append(out, piece.bytes.as_slice())?;
    Ok(())
}

fn append_all_made(out: &mut Vec<u8>, all: &[Made]) -> Result<(), NoMemory>
    ensures ok { OnOk result (out.new.items ≡ out.old.items ++ entries_bytes (map make_of all.now)) }
    ensures kept { IsKept out.old.items out.new.items }
{
    for made in all {
        append_made(out, made)?;
    }
    Ok(())
}

fn append_all_pieces(out: &mut Vec<u8>, all: &[Piece]) -> Result<(), NoMemory>
    requires { AreShort all.now }
    ensures ok { OnOk result (out.new.items ≡ out.old.items ++ entries_bytes (map put_of all.now)) }
    ensures kept { IsKept out.old.items out.new.items }
{
    for piece in all {
        append_piece(out, piece)?;
    }
    Ok(())
}

fn append_part(out: &mut Vec<u8>, part: &Part) -> Result<(), NoMemory>
    requires { AreShort part.now.pieces }
    ensures ok { OnOk result (out.new.items ≡ out.old.items ++ entries_bytes (part_entries part.now)) }
    ensures kept { IsKept out.old.items out.new.items }
{
    append_name(out, part.name.as_slice())?;
    append_all_made(out, part.made.as_slice())?;
    append_all_pieces(out, part.pieces.as_slice())?;
    Ok(())
}

fn append_parts(out: &mut Vec<u8>, parts: &[Part]) -> Result<(), NoMemory>
    requires { PartsShort parts.now }
    ensures ok { OnOk result (out.new.items ≡ out.old.items ++ parts_bytes parts.now) }
    ensures kept { IsKept out.old.items out.new.items }
{
    for part in parts {
        append_part(out, part)?;
    }
    Ok(())
}

// The header and the entries. The header is written once more when the length is known.
fn append_front(out: &mut Vec<u8>, section: &Section, id: u64) -> Result<(), NoMemory>
    requires pieces { PartsShort section.now.parts }
    requires short { sealed_len (parts_bytes section.now.parts) < 2 ^ 32 }
    ensures ok { OnOk result (out.new.items ≡ out.old.items ++ front_bytes section.now.number id (parts_bytes section.now.parts)) }
    ensures kept { IsKept out.old.items out.new.items }
{
    let start = out.len();
    let mut header = SectionHeader {
        len: 0,
        number: section.number,
        file_id: id,
    };
    append(out, &section_header_frame(&header))?;
    append_parts(out, section.parts.as_slice())?;
    header.len = (out.len() - start + FOOTER_LEN) as u32;
    put_section_header(out, start, &header);
    Ok(())
}

fn append_section(out: &mut Vec<u8>, section: &Section, id: u64) -> Result<(), NoMemory>
    requires pieces { PartsShort section.now.parts }
    requires short { sealed_len (parts_bytes section.now.parts) < 2 ^ 32 }
    ensures ok { OnOk result (out.new.items ≡ out.old.items ++ section_bytes id section.now) }
    ensures kept { IsKept out.old.items out.new.items }
{
    let start = out.len();
    append_front(out, section, id)?;
    let footer = Footer {
        hash: hash(&out[start..]),
    };
    let len = out.len() - start + FOOTER_LEN;
    append(out, &footer_frame(&footer))?;
    append_zeros(out, padding(len))?;
    Ok(())
}

/// Appends the section's spelling in the file with this id. Where memory is wanting, nothing is appended.
pub fn write_section(section: &Section, id: u64, out: &mut Vec<u8>) -> Result<(), NoMemory>
    requires { IsSpellable section.now }
    ensures ok { OnOk result (out.new.items ≡ out.old.items ++ section_bytes id section.now) }
    ensures err { OnErr result (out.new.items ≡ out.old.items) }
{
    let start = out.len();
    match append_section(out, section, id) {
        Ok(()) => Ok(()),
        Err(error) => {
            out.truncate(start);
            Err(error)
        }
    }
}
