//! A pair on its way to another bucket.

ghost use Rattle.std.specs.Prelude.{◌≡◌, ◌<◌, length, IfOk};
ghost use Rattle.mm_bucket.specs.Pairs.{pair_at, IsKey};
ghost use Rattle.mm_btree.specs.Nodes.{item_of};

use mm_base::{DiskLoc, NoMemory};
use mm_bucket::Bucket;
use std::alloc::Global;
use std::marker::Model;

/// A pair that is in no bucket for the moment.
#[derive(Drop)]
pub struct Carried {
    key: Vec<u8>,
    rec: DiskLoc,
}

impl Model for Carried {
    ghost use Rattle.mm_bucket.specs.Pairs.{IsKey};
    ghost use Rattle.mm_btree.specs.Nodes.{Item};

    ghost Value = { Item };

    ghost view = { λ c. record { key = c.key.items; rec = c.rec } };

    ghost invariant = { λ c. IsKey c.key.items };
}

impl Carried {
    /// The pair at a place of a bucket.
    pub fn of(alloc: Global, bucket: &Bucket, place: usize) -> Result<Carried, NoMemory>
        requires { place < length bucket.now.pairs }
        ensures { IfOk result (λ c. c ≡ item_of (pair_at bucket.now.pairs place)) }
    {
        let key = Vec::from_slice(alloc, bucket.key(place))?;
        Ok(Carried {
            key,
            rec: bucket.rec(place),
        })
    }

    pub fn key(&self) -> &[u8]
        ensures is { result.now ≡ self.now.key }
        ensures key { IsKey result.now }
    {
        self.key.as_slice()
    }

    pub fn rec(&self) -> DiskLoc
        ensures { result ≡ self.now.rec }
    {
        self.rec
    }
}
