//! How many bytes are written for a database.

ghost use Rattle.std.specs.Prelude.{◌≡◌, ◌<◌, ◌^◌};
ghost use Rattle.std.specs.List.{sum_by};
ghost use Rattle.mm_durable.specs.Flushed.{range_bytes, own_bytes, flushed_bytes};

use crate::flushing::is_same;
use mm_ranges::{Part, Piece};
use mm_section::Section;

// Those of ranges.
fn range_bytes(pieces: &[Piece]) -> u64
    requires { range_bytes pieces.now < 2 ^ 64 }
    ensures { result ≡ range_bytes pieces.now }
{
    let mut count = 0;
    for piece in pieces {
        count += piece.bytes.len() as u64;
    }
    count
}

// Those of a part's ranges, where it is of this database.
fn part_bytes(part: &Part, name: &[u8]) -> u64
    requires { own_bytes name.now part.now < 2 ^ 64 }
    ensures { result ≡ own_bytes name.now part.now }
{
    if is_same(part.name.as_slice(), name) {
        range_bytes(part.pieces.as_slice())
    } else {
        0
    }
}

// Those of the database's ranges in these parts.
fn parts_bytes(parts: &[Part], name: &[u8]) -> u64
    requires { sum_by (own_bytes name.now) parts.now < 2 ^ 64 }
    ensures { result ≡ sum_by (own_bytes name.now) parts.now }
{
    let mut count = 0;
    for part in parts {
        count += part_bytes(part, name);
    }
    count
}

/// Those of a database's ranges in these sections.
pub fn flushed_bytes(sections: &[Section], name: &[u8]) -> u64
    requires { flushed_bytes name.now sections.now < 2 ^ 64 }
    ensures { result ≡ flushed_bytes name.now sections.now }
{
    let mut count = 0;
    for section in sections {
        count += parts_bytes(section.parts.as_slice(), name);
    }
    count
}
