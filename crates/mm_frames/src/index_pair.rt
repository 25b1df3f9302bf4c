//! The place of an index's root bucket, and of its record.

ghost use Rattle.std.specs.Prelude.{◌≡◌, ◌+◌, ◌*◌, ◌≤◌, length};
ghost use Rattle.mm_base.specs.Bytes.{part, overwritten, Puts};
ghost use Rattle.mm_base.specs.Lists.{list_of, list_bytes};
ghost use Rattle.mm_frames.specs.IndexPair.{index_pair_of, index_pair_bytes};

use mm_base::{DiskLoc, frame, put_place, read_place};

/// The length of an index's pair of places, in bytes.
pub const INDEX_PAIR_LEN: usize = 16;

const HEAD_AT: usize = 0;

const INFO_AT: usize = 8;

/// Where an index is.
#[derive(Clone, Copy, Debug, PartialEq, Eq)]
pub struct IndexPair {
    /// The index's root bucket.
    pub head: DiskLoc,
    /// The index's record in `system.indexes`.
    pub info: DiskLoc,
}

impl IndexPair {
    /// The pair of no index.
    pub const NULL: IndexPair = IndexPair {
        head: DiskLoc::NULL,
        info: DiskLoc::NULL,
    };
}

/// The pair at `at`.
#[tactic(auto, using(mm_base::proofs::Sets::signed), unfolding(crate::specs::IndexPair::index_pair_of))]
pub fn read_index_pair(bytes: &[u8], at: usize) -> IndexPair
    requires { at + INDEX_PAIR_LEN ≤ length bytes.now }
    ensures { result ≡ index_pair_of (part at INDEX_PAIR_LEN bytes.now) }
{
    let frame = frame(bytes, at, INDEX_PAIR_LEN);
    IndexPair {
        head: read_place(frame, HEAD_AT),
        info: read_place(frame, INFO_AT),
    }
}

/// Writes a pair at `at`.
pub fn put_index_pair(bytes: &mut [u8], at: usize, pair: &IndexPair)
    requires { at + INDEX_PAIR_LEN ≤ length bytes.old }
    ensures { Puts INDEX_PAIR_LEN index_pair_bytes index_pair_of at pair.now bytes.old bytes.new }
{
    put_place(bytes, at + HEAD_AT, pair.head);
    put_place(bytes, at + INFO_AT, pair.info);
}

/// Pairs one behind the other.
pub(crate) fn read_index_pairs<const N: usize>(bytes: &[u8], at: usize) -> [IndexPair; N]
    requires { at + INDEX_PAIR_LEN * N ≤ length bytes.now }
    ensures { result ≡ list_of INDEX_PAIR_LEN index_pair_of N (part at (INDEX_PAIR_LEN * N) bytes.now) }
{
    let mut pairs = [IndexPair::NULL; N];
    for i in 0..N {
        pairs[i] = read_index_pair(bytes, at + INDEX_PAIR_LEN * i);
    }
    pairs
}

/// Writes pairs one behind the other.
pub(crate) fn put_index_pairs(bytes: &mut [u8], at: usize, pairs: &[IndexPair])
    requires { at + INDEX_PAIR_LEN * length pairs.now ≤ length bytes.old }
    ensures { bytes.new ≡ overwritten at (list_bytes index_pair_bytes pairs.now) bytes.old }
{
    for (i, pair) in pairs.iter().enumerate() {
        put_index_pair(bytes, at + INDEX_PAIR_LEN * i, pair);
    }
}
