//! A bucket's bytes while pairs are put into them, before there is a header.

ghost use Rattle.std.specs.Prelude.{◌≡◌, ◌+◌, ◌-◌, ◌*◌, ◌≤◌, ◌<◌, ◌++◌, ◌∷◌, [], List, length, take, drop};
ghost use Rattle.mm_bucket.specs.Pairs.{Pair, IsKey, Fits, Contents};
ghost use Rattle.mm_bucket.specs.Layout.{Built};

use crate::bucket::{BODY_LEN, BUCKET_LEN};
use mm_base::{DiskLoc, put_bytes};
use mm_frames::{BUCKET_HEADER_LEN, KEY_NODE_LEN, KeyNode, put_key_node};
use std::marker::Model;

/// Puts a pair behind the `count` others of a bucket, and gives where its key begins in the body.
fn put_pair(
    bytes: &mut [u8],
    count: usize,
    begin: usize,
    left: DiskLoc,
    rec: DiskLoc,
    key: &[u8],
) -> usize
    requires key { IsKey key.now }
    requires whole { length bytes.old ≡ 8192 }
    requires room { 18 * (count + 1) + length key.now ≤ begin }
    requires inside { begin ≤ 8152 }
    ensures begin { result + length key.now ≡ begin }
    ensures pushed { (ps : List Pair) → Built bytes.old count begin ps
        → Built bytes.new (count + 1) result (ps ++ record { left = left; rec = rec; key = key.now } ∷ []) }
{
    let first = begin - key.len();
    put_bytes(bytes, BUCKET_HEADER_LEN + first, key);
    let node = KeyNode {
        left,
        rec,
        key_ofs: first as u16,
    };
    put_key_node(bytes, BUCKET_HEADER_LEN + KEY_NODE_LEN * count, &node);
    first
}

/// Pairs in a bucket's bytes, seen as the list of them.
#[derive(Drop)]
pub struct Builder {
    pub bytes: [u8; BUCKET_LEN],
    pub count: usize,
    pub begin: usize,
}

impl Model for Builder {
    ghost use Rattle.std.specs.Prelude.{List};
    ghost use Rattle.mm_bucket.specs.Pairs.{Pair};
    ghost use Rattle.mm_bucket.specs.Layout.{pairs_in, Built};

    ghost Value = { List Pair };

    ghost view = { λ b. pairs_in b.bytes 40 b.count };

    ghost invariant = { λ b. Built b.bytes b.count b.begin (pairs_in b.bytes 40 b.count) };
}

impl Builder {
    /// No pairs.
    pub fn new() -> Builder
        ensures { result ≡ [] }
    {
        Builder {
            bytes: [0; BUCKET_LEN],
            count: 0,
            begin: BODY_LEN,
        }
    }

    /// Puts a pair behind the others.
    pub fn push(&mut self, left: DiskLoc, rec: DiskLoc, key: &[u8])
        requires key { IsKey key.now }
        requires fits { Fits (self.old ++ record { left = left; rec = rec; key = key.now } ∷ []) }
        ensures { self.new ≡ self.old ++ record { left = left; rec = rec; key = key.now } ∷ [] }
    {
        self.begin = put_pair(&mut self.bytes, self.count, self.begin, left, rec, key);
        self.count += 1;
    }
}
