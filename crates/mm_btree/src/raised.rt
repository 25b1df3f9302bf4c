//! What goes up where a bucket was parted.

ghost use Rattle.std.specs.Prelude.{◌≡◌};
ghost use Rattle.mm_base.specs.Places.{null};
ghost use Rattle.mm_bucket.specs.Pairs.{IsKey};

use mm_base::DiskLoc;
use std::marker::Model;

/// The pair between the two parts, and the place of the right one.
#[derive(Drop)]
pub struct Raised {
    key: Vec<u8>,
    rec: DiskLoc,
    right: DiskLoc,
}

impl Model for Raised {
    ghost use Rattle.mm_bucket.specs.Pairs.{IsKey};
    ghost use Rattle.mm_bucket.specs.Rules.{IsPlace};
    ghost use Rattle.mm_btree.specs.Changes.{Up};

    ghost Value = { Up };

    ghost view = { λ u. record { mid = record { key = u.key.items; rec = u.rec }; right = u.right } };

    ghost invariant = { λ u. IsKey u.key.items × IsPlace u.right };
}

impl Raised {
    pub fn made(key: Vec<u8>, rec: DiskLoc, right: DiskLoc) -> Raised
        requires key { IsKey key.items }
        requires place { right ≡ null → ⊥ }
        ensures { result ≡ record { mid = record { key = key.items; rec = rec }; right = right } }
    {
        Raised { key, rec, right }
    }

    pub fn key(&self) -> &[u8]
        ensures is { result.now ≡ self.now.mid.key }
        ensures key { IsKey result.now }
    {
        self.key.as_slice()
    }

    pub fn rec(&self) -> DiskLoc
        ensures { result ≡ self.now.mid.rec }
    {
        self.rec
    }

    pub fn right(&self) -> DiskLoc
        ensures is { result ≡ self.now.right }
        ensures place { result ≡ null → ⊥ }
    {
        self.right
    }
}
