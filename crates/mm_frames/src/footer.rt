//! The end of a section of the journal.

ghost use Rattle.std.specs.Prelude.{◌≡◌, ◌+◌, ◌≤◌, ◌↔◌, IsTrue, length};
ghost use Rattle.mm_base.specs.Bytes.{part, Puts};
ghost use Rattle.mm_frames.specs.Footer.{footer_of, footer_bytes};

use mm_base::{frame, put_bytes, put_u32, put_zeros, read_array};

/// The length of a section's footer, in bytes. Zeros follow up to the next multiple of `SECTION_ALIGNMENT`.
pub const FOOTER_LEN: usize = 32;

/// The length of a section's hash, in bytes.
pub const HASH_LEN: usize = 16;

/// The first word of a footer.
pub const FOOTER_WORD: u32 = 0xffff_ffff;

const FOOTER_MARK: [u8; 4] = *b"\n\n\n\n";

const WORD_AT: usize = 0;

const HASH_AT: usize = 4;

const RESERVED_AT: usize = 20;

const MARK_AT: usize = 28;

/// What stands at the end of a section.
#[derive(Clone, Copy, Debug, PartialEq, Eq)]
pub struct Footer {
    /// The MD5 of the section's bytes before the footer.
    pub hash: [u8; HASH_LEN],
}

/// The footer at `at`. Its other bytes aren't looked at: `is_footer` says whether they are a footer's.
#[tactic(auto, using(mm_base::proofs::Sets::signed), unfolding(crate::specs::Footer::footer_of))]
pub fn read_footer(bytes: &[u8], at: usize) -> Footer
    requires { at + FOOTER_LEN ≤ length bytes.now }
    ensures { result ≡ footer_of (part at FOOTER_LEN bytes.now) }
{
    let frame = frame(bytes, at, FOOTER_LEN);
    Footer {
        hash: read_array(frame, HASH_AT),
    }
}

/// Writes a footer at `at`.
pub fn put_footer(bytes: &mut [u8], at: usize, footer: &Footer)
    requires { at + FOOTER_LEN ≤ length bytes.old }
    ensures { Puts FOOTER_LEN footer_bytes footer_of at footer.now bytes.old bytes.new }
{
    let Footer { hash } = *footer;
    put_u32(bytes, at + WORD_AT, FOOTER_WORD);
    put_bytes(bytes, at + HASH_AT, &hash);
    put_zeros(bytes, at + RESERVED_AT, MARK_AT - RESERVED_AT);
    put_bytes(bytes, at + MARK_AT, &FOOTER_MARK);
}

/// The bytes of a footer.
#[tactic(auto, using(mm_base::proofs::Sets::whole))]
pub fn footer_frame(footer: &Footer) -> [u8; FOOTER_LEN]
    ensures spelled { result ≡ footer_bytes footer.now }
    ensures again { footer_of result ≡ footer.now }
{
    let mut frame = [0; FOOTER_LEN];
    put_footer(&mut frame, 0, footer);
    frame
}

/// Whether the bytes at `at` are the footer with this hash.
pub fn is_footer(bytes: &[u8], at: usize, footer: &Footer) -> bool
    requires { at + FOOTER_LEN ≤ length bytes.now }
    ensures { IsTrue result ↔ (part at FOOTER_LEN bytes.now ≡ footer_bytes footer.now) }
{
    frame(bytes, at, FOOTER_LEN) == footer_frame(footer).as_slice()
}
