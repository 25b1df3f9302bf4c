// What a group changed in a database: the files that it made, and bytes at places.
ghost use Rattle.std.specs.Prelude.{◌≡◌, ◌+◌, ◌≤◌, ◌↔◌, [], IsTrue, length};
ghost use Rattle.mm_bytes.specs.Files.{overwritten};
ghost use Rattle.mm_ranges.specs.Overlay.{Image, laid_over, LiesOver};

use std::marker::Model;

/// Bytes, seen as their list.
#[derive(Drop)]
pub struct Bytes {
    items: Vec<u8>,
}

impl Model for Bytes {
    ghost use Rattle.std.specs.Prelude.{ℕ, List};

    ghost Value = { List ℕ };

    ghost view = { λ b. b.items.items };
}

impl Bytes {
    pub fn new(items: Vec<u8>) -> Bytes
        ensures { result ≡ items.items }
    {
        Bytes { items }
    }

    pub fn len(&self) -> usize
        ensures { result ≡ length self.now }
    {
        self.items.len()
    }

    pub fn is_empty(&self) -> bool
        ensures { IsTrue result ↔ (self.now ≡ []) }
    {
        self.items.is_empty()
    }

    pub fn as_slice(&self) -> &[u8]
        ensures { result.now ≡ self.now }
    {
        &self.items
    }

    /// Writes bytes over those from an offset on.
    pub fn overwrite(&mut self, at: usize, bytes: &[u8])
        requires { at + length bytes.now ≤ length self.old }
        ensures { self.new ≡ overwritten at bytes.now self.old }
    {
        overwrite(&mut self.items, at, bytes);
    }
}

// Writes bytes over those from an offset on.
fn overwrite(old: &mut [u8], at: usize, bytes: &[u8])
    requires { at + length bytes.now ≤ length old.old }
    ensures { old.new ≡ overwritten at bytes.now old.old }
{
    old[at..at + bytes.len()].copy_from_slice(bytes);
}

/// Bytes at a place of a file.
#[derive(Drop)]
pub struct Piece {
    pub file: u32,
    pub at: u32,
    pub bytes: Bytes,
}

/// A file that was made: `len` zeros.
#[derive(Clone, Copy, Debug, PartialEq, Eq)]
pub struct Made {
    pub file: u32,
    pub len: u32,
}

/// Pieces, seen as their list.
#[derive(Drop)]
pub struct PieceList {
    items: Vec<Piece>,
}

impl Model for PieceList {
    ghost use Rattle.std.specs.Prelude.{List};
    ghost use Rattle.mm_ranges.specs.declared.part.Piece.{Piece};

    ghost Value = { List Piece };

    ghost view = { λ p. p.items.items };
}

impl PieceList {
    pub fn new(items: Vec<Piece>) -> PieceList
        ensures { result ≡ items.items }
    {
        PieceList { items }
    }

    pub fn as_slice(&self) -> &[Piece]
        ensures { result.now ≡ self.now }
    {
        &self.items
    }
}

/// Made files, seen as their list.
#[derive(Drop)]
pub struct MadeList {
    items: Vec<Made>,
}

impl Model for MadeList {
    ghost use Rattle.std.specs.Prelude.{List};
    ghost use Rattle.mm_ranges.specs.declared.part.Made.{Made};

    ghost Value = { List Made };

    ghost view = { λ m. m.items.items };
}

impl MadeList {
    pub fn new(items: Vec<Made>) -> MadeList
        ensures { result ≡ items.items }
    {
        MadeList { items }
    }

    pub fn as_slice(&self) -> &[Made]
        ensures { result.now ≡ self.now }
    {
        &self.items
    }
}

/// What one group changed in the database of this name: the files that it made, and the bytes at its declared ranges.
#[derive(Drop)]
pub struct Part {
    pub name: Bytes,
    pub made: MadeList,
    pub pieces: PieceList,
}

/// A part with the number of its journal section, and the number of its entries.
#[derive(Drop)]
pub struct Closed {
    pub section: u64,
    pub part: Part,
    pub entries: u64,
}

/// Pieces laid over an image one after another give the image in which, place by place, the last piece that has a place
/// decides its byte, and no other image is so. The call does nothing.
pub fn last_piece_decides(pieces: &PieceList)
    ensures lies { (image : Image) → LiesOver pieces.now image (laid_over pieces.now image) }
    ensures one { (image new : Image) → LiesOver pieces.now image new → new ≡ laid_over pieces.now image }
{
    let _ = &pieces.items;
}
