//! Sections are laid over the database's files.

ghost use Rattle.std.specs.Prelude.{◌≡◌, ◌+◌, ◌<◌, ◌^◌, IsTrue, OnOk, length};
ghost use Rattle.mm_outside.specs.declared.disk.Device.TheVariants.{Fault};
ghost use Rattle.mm_outside.specs.Fault.{HasCause};
ghost use Rattle.mm_outside.specs.Ask.{Makes, MakesSome};
ghost use Rattle.mm_section.specs.Spells.{is_db_name};
ghost use Rattle.mm_crash.specs.Overlay as overlay;
ghost use Rattle.mm_crash.specs.Asks.{act_asks, lay_asks};
ghost use Rattle.mm_journal.specs.Real.{disk_name};
ghost use Rattle.mm_crash.specs.Journal.{AllCan, above, entries_of};
ghost use Rattle.mm_journal.proofs.Real.{the_format, the_names};
ghost use Rattle.mm_recover.specs.Laying.{made_entries, piece_entries, part_entries, parts_entries, newer_entries, AreNamed};

use crate::names::disk_name;
use mm_outside::{Device, Disk};
use mm_ranges::{Made, Part, Piece};
use mm_section::Section;
use std::alloc::Global;

// A file is made of so many zeros. One that is there is emptied first.
fn make_file<D: Disk>(disk: &mut D, name: &str, len: u64) -> Result<(), Device>
    ensures made { OnOk result (Makes (act_asks name.now (overlay.Makes len)) (D.told disk.old) (D.told disk.new)) }
    ensures cut { MakesSome (act_asks name.now (overlay.Makes len)) (D.told disk.old) (D.told disk.new) }
    ensures cause { HasCause Fault (D.faults disk.old) (D.faults disk.new) result }
{
    disk.create(name)?;
    disk.set_len(name, 0)?;
    disk.set_len(name, len)?;
    Ok(())
}

// Bytes are put into a file, which is made where it isn't there.
fn put_bytes<D: Disk>(disk: &mut D, name: &str, at: u64, bytes: &[u8]) -> Result<(), Device>
    requires { at + length bytes.now < 2 ^ 64 }
    ensures made { OnOk result (Makes (act_asks name.now (overlay.Puts at bytes.now)) (D.told disk.old) (D.told disk.new)) }
    ensures cut { MakesSome (act_asks name.now (overlay.Puts at bytes.now)) (D.told disk.old) (D.told disk.new) }
    ensures cause { HasCause Fault (D.faults disk.old) (D.faults disk.new) result }
{
    disk.create(name)?;
    disk.write_at(name, at, bytes)?;
    Ok(())
}

fn lay_one_made<D: Disk>(alloc: Global, disk: &mut D, name: &[u8], made: Made) -> Result<(), Device>
    requires { IsTrue (is_db_name name.now) }
    ensures made { OnOk result (Makes (act_asks (disk_name name.now made.file) (overlay.Makes made.len)) (D.told disk.old) (D.told disk.new)) }
    ensures cut { MakesSome (act_asks (disk_name name.now made.file) (overlay.Makes made.len)) (D.told disk.old) (D.told disk.new) }
    ensures cause { HasCause Fault (D.faults disk.old) (D.faults disk.new) result }
{
    let file = disk_name(alloc, name, made.file)?;
    make_file(disk, &file, made.len as u64)
}

fn lay_one_piece<D: Disk>(
    alloc: Global,
    disk: &mut D,
    name: &[u8],
    piece: &Piece,
) -> Result<(), Device>
    requires { IsTrue (is_db_name name.now) }
    ensures made { OnOk result (Makes (act_asks (disk_name name.now piece.now.file) (overlay.Puts piece.now.at piece.now.bytes)) (D.told disk.old) (D.told disk.new)) }
    ensures cut { MakesSome (act_asks (disk_name name.now piece.now.file) (overlay.Puts piece.now.at piece.now.bytes)) (D.told disk.old) (D.told disk.new) }
    ensures cause { HasCause Fault (D.faults disk.old) (D.faults disk.new) result }
{
    let file = disk_name(alloc, name, piece.file)?;
    put_bytes(disk, &file, piece.at as u64, piece.bytes.as_slice())
}

fn lay_made<D: Disk>(alloc: Global, disk: &mut D, name: &[u8], all: &[Made]) -> Result<(), Device>
    requires { IsTrue (is_db_name name.now) }
    ensures made { OnOk result (Makes (lay_asks (made_entries name.now all.now)) (D.told disk.old) (D.told disk.new)) }
    ensures cut { MakesSome (lay_asks (made_entries name.now all.now)) (D.told disk.old) (D.told disk.new) }
    ensures cause { HasCause Fault (D.faults disk.old) (D.faults disk.new) result }
{
    for made in all {
        lay_one_made(alloc, disk, name, *made)?;
    }
    Ok(())
}

fn lay_pieces<D: Disk>(
    alloc: Global,
    disk: &mut D,
    name: &[u8],
    pieces: &[Piece],
) -> Result<(), Device>
    requires { IsTrue (is_db_name name.now) }
    ensures made { OnOk result (Makes (lay_asks (piece_entries name.now pieces.now)) (D.told disk.old) (D.told disk.new)) }
    ensures cut { MakesSome (lay_asks (piece_entries name.now pieces.now)) (D.told disk.old) (D.told disk.new) }
    ensures cause { HasCause Fault (D.faults disk.old) (D.faults disk.new) result }
{
    for piece in pieces {
        lay_one_piece(alloc, disk, name, piece)?;
    }
    Ok(())
}

/// Lays a part over the files: the files that it made, and then its ranges.
pub fn lay_part<D: Disk>(alloc: Global, disk: &mut D, part: &Part) -> Result<(), Device>
    requires { IsTrue (is_db_name part.now.name) }
    ensures made { OnOk result (Makes (lay_asks (part_entries part.now)) (D.told disk.old) (D.told disk.new)) }
    ensures cut { MakesSome (lay_asks (part_entries part.now)) (D.told disk.old) (D.told disk.new) }
    ensures cause { HasCause Fault (D.faults disk.old) (D.faults disk.new) result }
{
    let name = part.name.as_slice();
    lay_made(alloc, disk, name, part.made.as_slice())?;
    lay_pieces(alloc, disk, name, part.pieces.as_slice())
}

/// Lays parts over the files, in order: a made file becomes exactly its zeros, and a range is written, with its file made
/// where it is absent.
pub fn lay_parts<D: Disk>(alloc: Global, disk: &mut D, parts: &[Part]) -> Result<(), Device>
    requires { AreNamed parts.now }
    ensures made { OnOk result (Makes (lay_asks (parts_entries parts.now)) (D.told disk.old) (D.told disk.new)) }
    ensures cut { MakesSome (lay_asks (parts_entries parts.now)) (D.told disk.old) (D.told disk.new) }
    ensures cause { HasCause Fault (D.faults disk.old) (D.faults disk.new) result }
{
    for part in parts {
        lay_part(alloc, disk, part)?;
    }
    Ok(())
}

// The parts of a section, if it is above the lsn.
fn lay_section<D: Disk>(
    alloc: Global,
    disk: &mut D,
    section: &Section,
    lsn: u64,
) -> Result<(), Device>
    requires { AreNamed section.now.parts }
    ensures made { OnOk result (Makes (lay_asks (newer_entries lsn section.now)) (D.told disk.old) (D.told disk.new)) }
    ensures cut { MakesSome (lay_asks (newer_entries lsn section.now)) (D.told disk.old) (D.told disk.new) }
    ensures cause { HasCause Fault (D.faults disk.old) (D.faults disk.new) result }
{
    if section.number <= lsn {
        return Ok(());
    }
    lay_parts(alloc, disk, section.parts.as_slice())
}

/// Lays the sections above the lsn over the files, in order.
pub fn lay_newer<D: Disk>(
    alloc: Global,
    disk: &mut D,
    sections: &[Section],
    lsn: u64,
) -> Result<(), Device>
    requires { AllCan the_format sections.now }
    ensures made { OnOk result (Makes (lay_asks (entries_of the_names.disk_name (above lsn sections.now))) (D.told disk.old) (D.told disk.new)) }
    ensures cut { MakesSome (lay_asks (entries_of the_names.disk_name (above lsn sections.now))) (D.told disk.old) (D.told disk.new) }
    ensures cause { HasCause Fault (D.faults disk.old) (D.faults disk.new) result }
{
    for section in sections {
        lay_section(alloc, disk, section, lsn)?;
    }
    Ok(())
}
