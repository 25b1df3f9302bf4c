//! Where a pair stands in a bucket.

ghost use Rattle.std.specs.Prelude.{◌≡◌, ◌<◌, length, IfOk, IfErr};
ghost use Rattle.mm_bucket.specs.Pairs.{pair_at};
ghost use Rattle.mm_bucket.specs.Order.{compare_pair, AreInOrder, IsFoundAt, Belongs};

use crate::bucket::Bucket;
use mm_base::DiskLoc;
use mm_bson::{Doc, DocRef};
use mm_keys::{KeySpec, key_cmp_in_place};
use std::cmp::Ordering;

impl Bucket {
    /// A pair beside a key and a record: by the order of keys, and for equal keys by the record's file and offset.
    pub fn compare(&self, place: usize, key: &DocRef<'_>, rec: DiskLoc, spec: &KeySpec) -> Ordering
        requires { place < length self.now.pairs }
        ensures { result ≡ compare_pair spec.now (pair_at self.now.pairs place) key.now rec }
    {
        let here = DocRef::of_spelled(self.key(place));
        match key_cmp_in_place(&here, key, spec) {
            Ordering::Equal => self.rec(place).cmp(&rec),
            other => other,
        }
    }

    /// Where a pair of this key and this record stands, `Ok`, or where it belongs, `Err`. The pairs must stand in the order of the
    /// specification. The search is by halves, and no key is copied.
    pub fn find(&self, key: &Doc, rec: DiskLoc, spec: &KeySpec) -> Result<usize, usize>
        requires { AreInOrder spec.now self.now.pairs }
        ensures found { IfOk result (IsFoundAt spec.now self.now.pairs key.now rec) }
        ensures missing { IfErr result (Belongs spec.now self.now.pairs key.now rec) }
    {
        self.find_in_place(&key.as_ref(), rec, spec)
    }

    /// The same for a key in place.
    pub fn find_in_place(
        &self,
        key: &DocRef<'_>,
        rec: DiskLoc,
        spec: &KeySpec,
    ) -> Result<usize, usize>
        requires { AreInOrder spec.now self.now.pairs }
        ensures found { IfOk result (IsFoundAt spec.now self.now.pairs key.now rec) }
        ensures missing { IfErr result (Belongs spec.now self.now.pairs key.now rec) }
    {
        let mut low = 0;
        let mut high = self.len();
        while low < high {
            let middle = low + (high - low) / 2;
            match self.compare(middle, key, rec, spec) {
                Ordering::Less => low = middle + 1,
                Ordering::Equal => return Ok(middle),
                Ordering::Greater => high = middle,
            }
        }
        Err(low)
    }
}
