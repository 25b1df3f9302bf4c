//! The lsn file: the number of the last section that all data files hold.

ghost use Rattle.std.specs.Prelude.{◌≡◌, ◌≢◌, ◌<◌, ◌^◌, ◌↔◌, ℕ, IsTrue, IfSome, IfNone};
ghost use Rattle.mm_base.specs.Bytes.{Puts};
ghost use Rattle.mm_frames.specs.Lsn.{lsn_bytes, lsn_of};

use mm_base::{put_u32, put_u64, put_zeros, read_u64};

/// The length of the lsn file, in bytes.
pub const LSN_LEN: usize = 88;

const LSN_VERSION: u32 = 1;

const VERSION_AT: usize = 0;

const RESERVED_AT: usize = 4;

const LSN_AT: usize = 8;

const COMPLEMENT_AT: usize = 16;

const ZEROS_AT: usize = 24;

/// Writes the lsn file's bytes.
pub fn put_lsn(bytes: &mut [u8; LSN_LEN], lsn: u64)
    ensures spelled { bytes.new ≡ lsn_bytes lsn }
    ensures again { lsn_of bytes.new ≡ lsn }
{
    put_u32(bytes, VERSION_AT, LSN_VERSION);
    put_u32(bytes, RESERVED_AT, 0);
    put_u64(bytes, LSN_AT, lsn);
    put_u64(bytes, COMPLEMENT_AT, u64::MAX - lsn);
    put_zeros(bytes, ZEROS_AT, LSN_LEN - ZEROS_AT);
}

/// The number that the lsn file's bytes spell, or None where they spell none.
pub fn read_lsn(bytes: &[u8]) -> Option<u64>
    ensures some { IfSome result (λ lsn. bytes.now ≡ lsn_bytes lsn) }
    ensures none { IfNone result ((lsn : ℕ) → lsn < 2 ^ 64 → bytes.now ≢ lsn_bytes lsn) }
{
    if bytes.len() != LSN_LEN {
        return None;
    }
    let lsn = read_u64(bytes, LSN_AT);
    if spells_lsn(bytes, lsn) {
        Some(lsn)
    } else {
        None
    }
}

fn spells_lsn(bytes: &[u8], lsn: u64) -> bool
    ensures { IsTrue result ↔ (bytes.now ≡ lsn_bytes lsn) }
{
    let mut spelled = [0; LSN_LEN];
    put_lsn(&mut spelled, lsn);
    bytes == spelled.as_slice()
}
