//! Whether parts may be spelled: their names, made files and ranges, and the order of these.

ghost use Rattle.std.specs.Prelude.{◌≡◌, ◌+◌, ◌^◌, ◌<◌, ◌↔◌, ◌&&◌, IsTrue, List, length};
ghost use Rattle.std.specs.List.{list_all};
ghost use Rattle.mm_ranges.specs.Places.{is_range, is_normal};
ghost use Rattle.mm_ranges.specs.Places as places;
ghost use Rattle.mm_ranges.specs.Overlay.{ranges_of};
ghost use Rattle.mm_ranges.specs.Limits.{is_lowest, is_rising, may_be_made, is_allowed};
ghost use Rattle.mm_section.specs.Spells.{is_letter, is_db_name, is_first, are_rising};
ghost use Rattle.mm_section.specs.Reading.{range_of, is_part};

use mm_ranges::{Made, PAGE_LEN, Part, Piece, is_file, max_len};

const MAX_DB_NAME_LEN: usize = 16;

fn is_letter(byte: u8) -> bool
    ensures { result ≡ is_letter byte }
{
    byte.is_ascii_lowercase() || (byte.is_ascii_digit() || byte == b'_')
}

fn are_letters(bytes: &[u8]) -> bool
    ensures { result ≡ list_all is_letter bytes.now }
{
    bytes.iter().all(|byte| is_letter(*byte))
}

fn is_db_name(name: &[u8]) -> bool
    ensures { result ≡ is_db_name name.now }
{
    !name.is_empty() && name.len() <= MAX_DB_NAME_LEN && are_letters(name)
}

fn may_be_made(made: &Made) -> bool
    ensures { result ≡ may_be_made made.now }
{
    is_file(made.file) && made.len % PAGE_LEN == 0 && made.len <= max_len(made.file)
}

fn all_may_be_made(made: &[Made]) -> bool
    ensures { result ≡ list_all may_be_made made.now }
{
    made.iter().all(|made| may_be_made(made))
}

fn is_lowest(made: &Made, others: &[Made]) -> bool
    ensures { result ≡ is_lowest made.now others.now }
{
    match others.first() {
        Some(next) => made.file < next.file,
        None => true,
    }
}

fn is_rising(made: &[Made]) -> bool
    ensures { result ≡ is_rising made.now }
{
    let mut rest = made;
    while let Some((first, others)) = rest.split_first() {
        if !is_lowest(first, others) {
            return false;
        }
        rest = others;
    }
    true
}

// The range has a place, and its end fits 32 bits.
fn is_range(piece: &Piece) -> bool
    ensures { result ≡ is_range (range_of piece.now) }
{
    let _file = piece.file;
    !piece.bytes.is_empty() && piece.bytes.len() < (1 << 32) - piece.at as usize
}

fn comes_before(piece: &Piece, others: &[Piece]) -> bool
    requires { IsTrue (is_range (range_of piece.now)) }
    ensures { result ≡ places.is_first (range_of piece.now) (ranges_of others.now) }
{
    let end = piece.at as usize + piece.bytes.len();
    match others.first() {
        Some(next) => {
            piece.file < next.file || (piece.file == next.file && end < next.at as usize)
        }
        None => true,
    }
}

fn is_allowed(piece: &Piece) -> bool
    requires { IsTrue (is_range (range_of piece.now)) }
    ensures { result ≡ is_allowed (range_of piece.now) }
{
    let end = piece.at as usize + piece.bytes.len();
    is_file(piece.file) && end <= max_len(piece.file) as usize
}

// The first of the ranges may stand there, and before the others.
fn may_come(piece: &Piece, others: &[Piece]) -> bool
    ensures { let r = range_of piece.now in
        result ≡ (is_range r && (places.is_first r (ranges_of others.now) && is_allowed r)) }
{
    if is_range(piece) {
        comes_before(piece, others) && is_allowed(piece)
    } else {
        false
    }
}

fn are_pieces(pieces: &[Piece]) -> bool
    ensures { result ≡ (is_normal (ranges_of pieces.now) && list_all is_allowed (ranges_of pieces.now)) }
{
    let mut rest = pieces;
    while let Some((first, others)) = rest.split_first() {
        if !may_come(first, others) {
            return false;
        }
        rest = others;
    }
    true
}

/// Whether the part may stand in a section.
pub(crate) fn is_part(part: &Part) -> bool
    ensures { result ≡ is_part part.now }
{
    let made = part.made.as_slice();
    let pieces = part.pieces.as_slice();
    is_db_name(part.name.as_slice())
        && !(made.is_empty() && pieces.is_empty())
        && is_rising(made)
        && all_may_be_made(made)
        && are_pieces(pieces)
}

fn comes_first(name: &[u8], others: &[Part]) -> bool
    ensures { result ≡ is_first name.now others.now }
{
    match others.first() {
        Some(next) => name.cmp(next.name.as_slice()).is_lt(),
        None => true,
    }
}

/// Whether the parts' names rise.
pub(crate) fn names_rise(parts: &[Part]) -> bool
    ensures { result ≡ are_rising parts.now }
{
    let mut rest = parts;
    while let Some((first, others)) = rest.split_first() {
        if !comes_first(first.name.as_slice(), others) {
            return false;
        }
        rest = others;
    }
    true
}
