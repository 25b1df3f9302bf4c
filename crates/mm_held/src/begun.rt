//! What a database begins with: its files as they were loaded, whole, and its views.

ghost use Rattle.std.specs.Prelude.{◌≡◌, ◌++◌, [], length, OnOk, IfOk};
ghost use Rattle.std.specs.FinMap.{get, empty};
ghost use Rattle.mm_ranges.specs.Overlay.{bytes_at};
ghost use Rattle.mm_views.specs.State.{IsCovered, KeepsLimits};
ghost use Rattle.mm_held.specs.Loaded.{made_for, piece_for, files_part, whole_part, StandsIfAny, IsBegun};

use crate::engine::Engine;
use mm_base::NoMemory;
use mm_ranges::{Bytes, Made, MadeList, NS_FILE, Part, Piece, PieceList};
use mm_views::Views;
use std::alloc::Global;

// The files that a database may have, in rising number.
const FILES: [u32; 9] = [0, 1, 2, 3, 4, 5, 6, 7, NS_FILE];

// All bytes of a file of the shared image.
fn whole_file(alloc: Global, views: &Views, file: u32, len: u32) -> Result<Vec<u8>, NoMemory>
    requires { length (bytes_at views.now.shared file) ≡ len }
    ensures { IfOk result (λ bytes. bytes.items ≡ bytes_at views.now.shared file) }
{
    let mut bytes = Vec::with_capacity(alloc, len as usize)?;
    'pieces: while bytes.len() < len as usize {
        bytes.extend_from_slice(views.shared_piece(file, bytes.len() as u32))?;
    }
    Ok(bytes)
}

// Copies a file of the shared image whole, if it is there.
fn copy_file(
    views: &Views,
    file: u32,
    made: &mut Vec<Made>,
    pieces: &mut Vec<Piece>,
) -> Result<(), NoMemory>
    ensures made { OnOk result (made.new.items ≡ made.old.items ++ made_for file (get views.now.shared file)) }
    ensures pieces { OnOk result (pieces.new.items ≡ pieces.old.items ++ piece_for file (get views.now.shared file)) }
{
    let Some(len) = views.shared_len(file) else {
        return Ok(());
    };
    let bytes = Bytes::new(whole_file(*made.allocator(), views, file, len)?);
    made.push(Made { file, len })?;
    pieces.push(Piece { file, at: 0, bytes })?;
    Ok(())
}

// Copies those of these files that are there in the shared image.
fn copied(alloc: Global, views: &Views, files: &[u32]) -> Result<Part, NoMemory>
    ensures { IfOk result (λ part. part ≡ files_part files.now views.now.shared) }
{
    let mut made = Vec::new(alloc);
    let mut pieces = Vec::new(alloc);
    for &file in files {
        copy_file(views, file, &mut made, &mut pieces)?;
    }
    Ok(Part {
        name: Bytes::new(Vec::new(alloc)),
        made: MadeList::new(made),
        pieces: PieceList::new(pieces),
    })
}

/// All files of the shared image, each made and whole.
pub fn loaded(alloc: Global, views: &Views) -> Result<Part, NoMemory>
    ensures { IfOk result (λ part. part ≡ whole_part views.now.shared) }
{
    copied(alloc, views, &FILES)
}

// Views without a file, in which the engine's draft of a new database is adopted.
fn set_up<E: Engine>(engine: &E, views: Views) -> Result<Views, NoMemory>
    requires none { views.private ≡ empty }
    requires made { views.made ≡ [] }
    requires opened { views.opened ≡ [] }
    requires closed { views.closed ≡ [] }
    ensures { IfOk result (λ new. IsBegun (E.means engine.now) views new) }
{
    let mut draft = views.draft();
    engine.setup(&mut draft)?;
    draft.reserve()?;
    Ok(draft.adopt())
}

/// The views with which a database begins. `part` has all files that were loaded.
pub fn begun<E: Engine>(engine: &E, views: Views, part: &Part) -> Result<Views, NoMemory>
    requires part { part.now ≡ whole_part views.private }
    requires limits { KeepsLimits views.private }
    requires covered { IsCovered views }
    requires made { views.made ≡ [] }
    requires opened { views.opened ≡ [] }
    requires closed { views.closed ≡ [] }
    requires stands { StandsIfAny (E.means engine.now) views.private }
    ensures { IfOk result (λ new. IsBegun (E.means engine.now) views new) }
{
    if part.made.as_slice().is_empty() {
        return set_up(engine, views);
    }
    Ok(views)
}
