//! The names of the files that sections touch, each once.

ghost use Rattle.std.specs.Prelude.{◌≡◌, ℕ, List, IsTrue, IfOk, map, string_bytes};
ghost use Rattle.std.specs.List.Sorted.{IsStrictlySortedBy};
ghost use Rattle.mm_outside.specs.Image.{name_cmp};
ghost use Rattle.mm_section.specs.Spells.{is_db_name};
ghost use Rattle.mm_journal.specs.Real.{disk_name};
ghost use Rattle.mm_crash.specs.Journal.{AllCan, above, entries_of};
ghost use Rattle.mm_journal.proofs.Real.{the_format, the_names};
ghost use Rattle.mm_recover.specs.Laying.{made_entries, piece_entries, part_entries, parts_entries, newer_entries, AreNamed};
ghost use Rattle.std.specs.BTreeSet.{contains_text};
ghost use Rattle.mm_recover.specs.Touched.{is_touched, Adds, AddsName, AreTouched};

use crate::names::disk_name;
use mm_ranges::{Made, Part, Piece};
use mm_section::Section;
use std::alloc::{AllocError, Global};
use std::collections::BTreeSet;

type Names = BTreeSet<String>;

fn add_file(alloc: Global, names: Names, name: &[u8], file: u32) -> Result<Names, AllocError>
    requires { IsTrue (is_db_name name.now) }
    ensures { IfOk result (λ all. AddsName (disk_name name.now file) names all) }
{
    let mut names = names;
    let text = disk_name(alloc, name, file)?;
    names.insert(text)?;
    Ok(names)
}

fn add_made(alloc: Global, names: Names, name: &[u8], all: &[Made]) -> Result<Names, AllocError>
    requires { IsTrue (is_db_name name.now) }
    ensures { IfOk result (λ new. Adds (made_entries name.now all.now) names new) }
{
    let mut names = names;
    for made in all {
        names = add_file(alloc, names, name, made.file)?;
    }
    Ok(names)
}

fn add_pieces(
    alloc: Global,
    names: Names,
    name: &[u8],
    pieces: &[Piece],
) -> Result<Names, AllocError>
    requires { IsTrue (is_db_name name.now) }
    ensures { IfOk result (λ new. Adds (piece_entries name.now pieces.now) names new) }
{
    let mut names = names;
    for piece in pieces {
        names = add_file(alloc, names, name, piece.file)?;
    }
    Ok(names)
}

fn add_part(alloc: Global, names: Names, part: &Part) -> Result<Names, AllocError>
    requires { IsTrue (is_db_name part.now.name) }
    ensures { IfOk result (λ new. Adds (part_entries part.now) names new) }
{
    let name = part.name.as_slice();
    let names = add_made(alloc, names, name, part.made.as_slice())?;
    add_pieces(alloc, names, name, part.pieces.as_slice())
}

fn add_parts(alloc: Global, names: Names, parts: &[Part]) -> Result<Names, AllocError>
    requires { AreNamed parts.now }
    ensures { IfOk result (λ new. Adds (parts_entries parts.now) names new) }
{
    let mut names = names;
    for part in parts {
        names = add_part(alloc, names, part)?;
    }
    Ok(names)
}

// Those of a section, if it is above the lsn.
fn add_section(
    alloc: Global,
    names: Names,
    section: &Section,
    lsn: u64,
) -> Result<Names, AllocError>
    requires { AreNamed section.now.parts }
    ensures { IfOk result (λ new. Adds (newer_entries lsn section.now) names new) }
{
    if section.number <= lsn {
        return Ok(names);
    }
    add_parts(alloc, names, section.parts.as_slice())
}

fn touched_set(alloc: Global, sections: &[Section], lsn: u64) -> Result<Names, AllocError>
    requires { AllCan the_format sections.now }
    ensures { IfOk result (λ names. (file : List ℕ) → contains_text names file ≡ is_touched file (entries_of the_names.disk_name (above lsn sections.now))) }
{
    let mut names = BTreeSet::new(alloc);
    for section in sections {
        names = add_section(alloc, names, section, lsn)?;
    }
    Ok(names)
}

// The set's names, in byte order.
fn in_order(alloc: Global, set: &Names) -> Result<Vec<String>, AllocError>
    ensures all { IfOk result (λ names. map string_bytes names.items ≡ map string_bytes set.now.keys) }
    ensures rising { IfOk result (λ names. IsStrictlySortedBy name_cmp (map string_bytes names.items)) }
{
    let mut names = Vec::new(alloc);
    for name in set {
        names.push(name.clone()?)?;
    }
    Ok(names)
}

/// The names of the files that the sections above the lsn touch, each once, in byte order.
pub fn touched(alloc: Global, sections: &[Section], lsn: u64) -> Result<Vec<String>, AllocError>
    requires { AllCan the_format sections.now }
    ensures { IfOk result (λ names. AreTouched (entries_of the_names.disk_name (above lsn sections.now)) (map string_bytes names.items)) }
{
    let set = touched_set(alloc, sections, lsn)?;
    in_order(alloc, &set)
}
