// The parts that a close gives, and those that wait to be applied.
ghost use Rattle.std.specs.Prelude.{◌≡◌, ℕ, ◌+◌, ◌<◌, ◌≤◌, List, [], ◌∷◌, length, replicate, IfOk, IsTrue};
ghost use Rattle.mm_ranges.specs.Places.{Range};
ghost use Rattle.mm_ranges.specs.Room.{shown};
ghost use Rattle.mm_ranges.specs.Overlay.{piece_of, pieces_of, laid_over, over, IsInside, AreInside};
ghost use Rattle.mm_views.specs.State.{PiecesInside, PartFits};
ghost use Rattle.mm_views.specs.Fresh.{zero_files, with_fresh, are_files};

use crate::image::Plain;
use mm_base::NoMemory;
use mm_ranges::{Bytes, Made, MadeList, Part, Piece, PieceList, RangeIter, RoomSet};
use std::alloc::Global;
use std::marker::Model;

// Zeros.
pub(crate) fn zeros(alloc: Global, len: u32) -> Result<Bytes, NoMemory>
    ensures { IfOk result (λ bytes. bytes ≡ replicate len 0) }
{
    Ok(Bytes::new(vec![in alloc; 0; len as usize]?))
}

// The bytes that an image has at a range.
pub(crate) fn piece(
    alloc: Global,
    image: &Plain,
    file: u32,
    at: u32,
    len: u32,
) -> Result<Piece, NoMemory>
    requires some { 0 < len }
    requires inside { IsInside image.now (file, at, len) }
    ensures { IfOk result (λ piece. piece ≡ piece_of image.now (file, at, len)) }
{
    let bytes = &image.tail(file, at as usize)[..len as usize];
    Ok(Piece {
        file,
        at,
        bytes: Bytes::new(bytes.to_vec(alloc)?),
    })
}

// The bytes that an image has at each range.
fn pieces(alloc: Global, image: &Plain, ranges: RangeIter<'_>) -> Result<Vec<Piece>, NoMemory>
    requires { AreInside image.now ranges }
    ensures { IfOk result (λ list. list.items ≡ pieces_of ranges.entry image.now) }
{
    let mut list = Vec::new(alloc);
    for (file, at, len) in ranges {
        list.push(piece(alloc, image, file, at, len)?)?;
    }
    Ok(list)
}

// The part of an image that was made and opened.
pub(crate) fn part(
    alloc: Global,
    image: &Plain,
    made: &[Made],
    opened: &RoomSet,
) -> Result<Part, NoMemory>
    requires { AreInside image.now (shown opened.now) }
    ensures { IfOk result
        (λ part. part ≡ record { name = []; made = made.now; pieces = pieces_of (shown opened.now) image.now }) }
{
    Ok(Part {
        name: Bytes::new(Vec::new(alloc)),
        made: MadeList::new(Vec::from_slice(alloc, made)?),
        pieces: PieceList::new(pieces(alloc, image, opened.iter())?),
    })
}

// A file of zeros that waits to be put into the shared image.
#[derive(Drop)]
struct Fresh {
    file: u32,
    bytes: Bytes,
}

// Files of zeros, as they are made.
fn fresh_files(alloc: Global, made: &[Made]) -> Result<Vec<Fresh>, NoMemory>
    ensures { IfOk result (λ files. files.items ≡ zero_files made.now) }
{
    let mut files = Vec::new(alloc);
    for m in made {
        files.push(Fresh {
            file: m.file,
            bytes: zeros(alloc, m.len)?,
        })?;
    }
    Ok(files)
}

// A closed part, with the memory that it takes to apply it.
#[derive(Drop)]
pub(crate) struct Kept {
    part: Part,
    fresh: Vec<Fresh>,
}

impl Model for Kept {
    ghost use Rattle.std.specs.Prelude.{◌≡◌};
    ghost use Rattle.mm_ranges.specs.declared.part.Part.{Part};
    ghost use Rattle.mm_views.specs.Codes.{part_code};

    ghost Value = { Part };

    ghost coded = { part_code };

    ghost use Rattle.mm_views.specs.Fresh.{zero_files};

    ghost view = { λ k. k.part };

    ghost invariant = { λ k. k.fresh.items ≡ zero_files k.part.made };
}

// What the next close gives and keeps.
#[derive(Drop)]
pub(crate) struct Prepared {
    pub(crate) given: Part,
    pub(crate) kept: Kept,
}

impl Kept {
    pub(crate) fn new(alloc: Global, part: Part) -> Result<Kept, NoMemory>
        ensures { IfOk result (λ kept. kept ≡ part) }
    {
        let fresh = fresh_files(alloc, part.made.as_slice())?;
        Ok(Kept { part, fresh })
    }

    // Lays the part over an image. It takes no memory.
    pub(crate) fn lay_over(self, image: &mut Plain)
        requires { PartFits image.old self }
        ensures { image.new ≡ over self image.old }
    {
        let Kept { part, fresh } = self;
        put_all(image, fresh);
        lay_all(image, part.pieces.as_slice());
    }
}

// Puts files into an image.
fn put_all(image: &mut Plain, files: Vec<Fresh>)
    requires { IsTrue (are_files files.items) }
    ensures { image.new ≡ with_fresh files.items image.old }
{
    for file in files {
        image.put(file.file, file.bytes);
    }
}

// Lays pieces over an image, one after another.
fn lay_all(image: &mut Plain, pieces: &[Piece])
    requires { PiecesInside image.old pieces.now }
    ensures { image.new ≡ laid_over pieces.now image.old }
{
    for piece in pieces {
        image.lay(piece.file, piece.at as usize, piece.bytes.as_slice());
    }
}
