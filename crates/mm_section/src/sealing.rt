//! What stands round the entries of a section: its hash and its padding.

ghost use Rattle.std.specs.Prelude.{◌≡◌, ◌<◌, ◌≤◌, ◌^◌, ◌↔◌, IsTrue, IfSome, IfNone};
ghost use Rattle.mm_section.specs.Spells.{hash_of, padding};
ghost use Rattle.mm_section.specs.Reading.{is_possible, IsWhole, IsSealed, HasNoSeal};

use md5::{Digest, Md5};
use mm_base::is_zero;
use mm_frames::{
    FOOTER_LEN, Footer, HASH_LEN, SECTION_ALIGNMENT, SECTION_HEADER_LEN, SectionHeader, is_footer,
    read_section_header,
};

// The length of a section without entries, from its header to the end of its footer.
const LEAST_LEN: u32 = 52;

/// The hash of the bytes before a section's footer.
#[tactic(auto, unfolding(crate::specs::Spells::hash_of))]
pub(crate) fn hash(bytes: &[u8]) -> [u8; HASH_LEN]
    ensures { result ≡ hash_of bytes.now }
{
    Md5::digest(bytes)
}

/// How many zeros stand behind a section of this length.
pub(crate) fn padding(len: usize) -> usize
    ensures is { result ≡ padding len }
    ensures short { result < 8192 }
{
    (SECTION_ALIGNMENT - len % SECTION_ALIGNMENT) % SECTION_ALIGNMENT
}

fn is_possible(header: &SectionHeader, id: u64) -> bool
    ensures { result ≡ is_possible id header.now }
{
    header.file_id == id && header.number < u64::MAX && header.len >= LEAST_LEN
}

// Whether the footer and the padding of a section of this length are right.
fn is_whole(input: &[u8], len: usize) -> bool
    requires long { 52 ≤ len }
    requires short { len < 2 ^ 32 }
    ensures { IsTrue result ↔ IsWhole len input.now }
{
    let zeros = padding(len);
    if input.len() < len + zeros {
        return false;
    }
    let footer_at = len - FOOTER_LEN;
    let footer = Footer {
        hash: hash(&input[..footer_at]),
    };
    is_footer(input, footer_at, &footer) && is_zero(input, len, zeros)
}

/// The header of the section that stands at the front, whatever its entries are.
pub(crate) fn unseal(input: &[u8], id: u64) -> Option<SectionHeader>
    ensures some { IfSome result (λ header. IsSealed id header input.now) }
    ensures none { IfNone result (HasNoSeal id input.now) }
{
    if input.len() < SECTION_HEADER_LEN {
        return None;
    }
    let header = read_section_header(input, 0);
    if !is_possible(&header, id) {
        return None;
    }
    if is_whole(input, header.len as usize) {
        Some(header)
    } else {
        None
    }
}
