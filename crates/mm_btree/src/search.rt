//! A key is looked for in a tree.

ghost use Rattle.std.specs.Prelude.{◌≡◌, IfOk, map, drop, length, ◌≤◌, ◌<◌};
ghost use Rattle.mm_base.specs.declared.place.DiskLoc.{DiskLoc};
ghost use Rattle.mm_bson.specs.Walk.{document_in};
ghost use Rattle.mm_keys.specs.KeyOrder.{key_compare};
ghost use Rattle.mm_bucket.specs.Pairs.{pair_at};
ghost use Rattle.mm_btree.specs.Nodes.{item_of};
ghost use Rattle.mm_btree.specs.Trees.{Sub};
ghost use Rattle.mm_btree.specs.Lists.{Sorted};
ghost use Rattle.mm_btree.specs.Changes.{StandsAt};
ghost use Rattle.mm_btree.specs.Order.{item_lt, first_with, IsKeyPlace, IsFirst};

use crate::store::NodeStore;
use mm_base::{DiskLoc, NoMemory};
use mm_bson::DocRef;
use mm_bucket::Bucket;
use mm_keys::{KeySpec, key_cmp_in_place};
use std::cmp::Ordering;

/// The key of a pair beside a key.
pub fn compare_key(bucket: &Bucket, place: usize, key: &DocRef<'_>, spec: &KeySpec) -> Ordering
    requires { place < length bucket.now.pairs }
    ensures { result ≡ key_compare spec.now (document_in (pair_at bucket.now.pairs place).key) key.now }
{
    let here = DocRef::of_spelled(bucket.key(place));
    key_cmp_in_place(&here, key, spec)
}

/// Where the first pair stands whose key isn't less than this one, by halves.
pub fn first_not_less(bucket: &Bucket, key: &DocRef<'_>, spec: &KeySpec) -> usize
    requires { Sorted (item_lt spec.now) (map item_of bucket.now.pairs) }
    ensures is { IsKeyPlace spec.now key.now (map item_of bucket.now.pairs) result }
    ensures inside { result ≤ length bucket.now.pairs }
{
    let mut low = 0;
    let mut high = bucket.len();
    while low < high {
        let middle = low + (high - low) / 2;
        match compare_key(bucket, middle, key, spec) {
            Ordering::Less => low = middle + 1,
            Ordering::Equal => high = middle,
            Ordering::Greater => high = middle,
        }
    }
    low
}

/// The record of the pair at that place, if its key is equal.
fn equal_at(bucket: &Bucket, place: usize, key: &DocRef<'_>, spec: &KeySpec) -> Option<DiskLoc>
    requires order { Sorted (item_lt spec.now) (map item_of bucket.now.pairs) }
    requires place { IsKeyPlace spec.now key.now (map item_of bucket.now.pairs) place }
    requires inside { place ≤ length bucket.now.pairs }
    ensures { result ≡ first_with spec.now key.now (drop place (map item_of bucket.now.pairs)) }
{
    let pairs = bucket.len();
    if pairs <= place {
        return None;
    }
    match compare_key(bucket, place, key, spec) {
        Ordering::Less => None,
        Ordering::Equal => Some(bucket.rec(place)),
        Ordering::Greater => None,
    }
}

/// The record of the first pair of a tree of this height whose key is equal to this one, by the order of the specification. One path is
/// read.
pub fn find<S: NodeStore>(
    store: &S,
    spec: &KeySpec,
    at: DiskLoc,
    height: u32,
    key: &DocRef<'_>,
) -> Result<Option<DiskLoc>, NoMemory>
    requires { (up : DiskLoc) × (s : Sub) × StandsAt (item_lt spec.now) (S.bucket_at store.now) up height s at }
    ensures { IfOk result (IsFirst (S.bucket_at store.now) spec.now at height key.now) }
{
    let bucket = store.read(at)?;
    let place = first_not_less(&bucket, key, spec);
    if height == 0 {
        return Ok(equal_at(&bucket, place, key, spec));
    }
    let kid = bucket.child(place);
    match find(store, spec, kid, height - 1, key)? {
        Some(rec) => Ok(Some(rec)),
        None => Ok(equal_at(&bucket, place, key, spec)),
    }
}
