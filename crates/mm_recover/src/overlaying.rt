//! Sections are laid over one file, in memory.

ghost use Rattle.std.specs.Prelude.{◌≡◌, ◌+◌, ◌<◌, ◌≤◌, ◌^◌, ◌++◌, [], ◌∷◌, IsTrue, IfOk, OnOk, length, take, drop, replicate, unwrap_or};
ghost use Rattle.std.specs.Ordering.{eq_by_cmp};
ghost use Rattle.mm_bytes.specs.Files.{overwritten};
ghost use Rattle.mm_outside.specs.Image.{name_cmp};
ghost use Rattle.mm_section.specs.Spells.{is_db_name};
ghost use Rattle.mm_journal.specs.Real.{disk_name};
ghost use Rattle.mm_crash.specs.Journal.{AllCan, above, entries_of};
ghost use Rattle.mm_journal.proofs.Real.{the_format, the_names};
ghost use Rattle.mm_recover.specs.Laying.{made_entry, piece_entry, made_entries, piece_entries, part_entries, parts_entries, newer_entries, AreNamed};
ghost use Rattle.mm_recover.specs.Overlaid.{own_name, bytes_of, LaysOver};

use mm_base::Name;
use mm_ranges::{Made, Part, Piece};
use mm_section::Section;
use std::alloc::{AllocError, Global};

/// A file of a database, by its number.
#[derive(Clone, Copy)]
pub struct DataFile {
    pub name: Name,
    pub number: u32,
}

/// A file that may be there.
pub type Content = Option<Vec<u8>>;

// So many zeros.
fn zeros(alloc: Global, len: u32) -> Result<Vec<u8>, AllocError>
    ensures { IfOk result (λ bytes. bytes.items ≡ replicate len 0) }
{
    vec![in alloc; 0; len as usize]
}

// Puts the bytes over those that are there.
fn put(old: &mut [u8], at: usize, bytes: &[u8])
    requires { at + length bytes.now ≤ length old.old }
    ensures { old.new ≡ take at old.old ++ bytes.now ++ drop (at + length bytes.now) old.old }
{
    old[at..at + bytes.len()].copy_from_slice(bytes);
}

// Puts the bytes over those of the file, and zeros in a gap before them.
fn overwrite(file: &mut Vec<u8>, at: usize, bytes: &[u8]) -> Result<(), AllocError>
    requires { at + length bytes.now < 2 ^ 64 }
    ensures { OnOk result (file.new.items ≡ overwritten at bytes.now file.old.items) }
{
    let len = file.len().max(at + bytes.len());
    file.resize(len, 0)?;
    put(file, at, bytes);
    Ok(())
}

// The bytes of a file; none of an absent one.
fn bytes_in(alloc: Global, content: Content) -> Vec<u8>
    ensures { result.items ≡ unwrap_or (bytes_of content) [] }
{
    match content {
        Some(bytes) => bytes,
        None => Vec::new(alloc),
    }
}

// It is the file of this number of the database of this name.
fn is_own(file: &DataFile, name: &[u8], number: u32) -> bool
    requires own { IsTrue (is_db_name file.now.name) }
    requires name { IsTrue (is_db_name name.now) }
    ensures { result ≡ eq_by_cmp name_cmp (own_name file.now) (disk_name name.now number) }
{
    if number != file.number {
        return false;
    }
    file.name.bytes() == name
}

fn lay_one_made(
    alloc: Global,
    file: &DataFile,
    content: Content,
    name: &[u8],
    made: Made,
) -> Result<Content, AllocError>
    requires own { IsTrue (is_db_name file.now.name) }
    requires name { IsTrue (is_db_name name.now) }
    ensures { IfOk result (λ new. LaysOver (made_entry name.now made ∷ []) (own_name file.now) content new) }
{
    if !is_own(file, name, made.file) {
        return Ok(content);
    }
    let bytes = zeros(alloc, made.len)?;
    Ok(Some(bytes))
}

fn lay_one_piece(
    alloc: Global,
    file: &DataFile,
    content: Content,
    name: &[u8],
    piece: &Piece,
) -> Result<Content, AllocError>
    requires own { IsTrue (is_db_name file.now.name) }
    requires name { IsTrue (is_db_name name.now) }
    ensures { IfOk result (λ new. LaysOver (piece_entry name.now piece.now ∷ []) (own_name file.now) content new) }
{
    if !is_own(file, name, piece.file) {
        return Ok(content);
    }
    let mut bytes = bytes_in(alloc, content);
    overwrite(&mut bytes, piece.at as usize, piece.bytes.as_slice())?;
    Ok(Some(bytes))
}

fn lay_made(
    alloc: Global,
    file: &DataFile,
    content: Content,
    name: &[u8],
    all: &[Made],
) -> Result<Content, AllocError>
    requires own { IsTrue (is_db_name file.now.name) }
    requires name { IsTrue (is_db_name name.now) }
    ensures { IfOk result (λ new. LaysOver (made_entries name.now all.now) (own_name file.now) content new) }
{
    let mut content = content;
    for made in all {
        content = lay_one_made(alloc, file, content, name, *made)?;
    }
    Ok(content)
}

fn lay_pieces(
    alloc: Global,
    file: &DataFile,
    content: Content,
    name: &[u8],
    pieces: &[Piece],
) -> Result<Content, AllocError>
    requires own { IsTrue (is_db_name file.now.name) }
    requires name { IsTrue (is_db_name name.now) }
    ensures { IfOk result (λ new. LaysOver (piece_entries name.now pieces.now) (own_name file.now) content new) }
{
    let mut content = content;
    for piece in pieces {
        content = lay_one_piece(alloc, file, content, name, piece)?;
    }
    Ok(content)
}

fn lay_part(
    alloc: Global,
    file: &DataFile,
    content: Content,
    part: &Part,
) -> Result<Content, AllocError>
    requires own { IsTrue (is_db_name file.now.name) }
    requires name { IsTrue (is_db_name part.now.name) }
    ensures { IfOk result (λ new. LaysOver (part_entries part.now) (own_name file.now) content new) }
{
    let name = part.name.as_slice();
    let content = lay_made(alloc, file, content, name, part.made.as_slice())?;
    lay_pieces(alloc, file, content, name, part.pieces.as_slice())
}

fn lay_parts(
    alloc: Global,
    file: &DataFile,
    content: Content,
    parts: &[Part],
) -> Result<Content, AllocError>
    requires own { IsTrue (is_db_name file.now.name) }
    requires named { AreNamed parts.now }
    ensures { IfOk result (λ new. LaysOver (parts_entries parts.now) (own_name file.now) content new) }
{
    let mut content = content;
    for part in parts {
        content = lay_part(alloc, file, content, part)?;
    }
    Ok(content)
}

// The parts of a section, if it is above the lsn.
fn lay_section(
    alloc: Global,
    file: &DataFile,
    content: Content,
    section: &Section,
    lsn: u64,
) -> Result<Content, AllocError>
    requires own { IsTrue (is_db_name file.now.name) }
    requires named { AreNamed section.now.parts }
    ensures { IfOk result (λ new. LaysOver (newer_entries lsn section.now) (own_name file.now) content new) }
{
    if section.number <= lsn {
        return Ok(content);
    }
    lay_parts(alloc, file, content, section.parts.as_slice())
}

/// The file with the sections above the lsn laid over it, in order.
pub fn overlay(
    alloc: Global,
    file: &DataFile,
    content: Content,
    sections: &[Section],
    lsn: u64,
) -> Result<Content, AllocError>
    requires own { IsTrue (is_db_name file.now.name) }
    requires can { AllCan the_format sections.now }
    ensures { IfOk result (λ new. LaysOver (entries_of the_names.disk_name (above lsn sections.now)) (own_name file.now) content new) }
{
    let mut content = content;
    for section in sections {
        content = lay_section(alloc, file, content, section, lsn)?;
    }
    Ok(content)
}
