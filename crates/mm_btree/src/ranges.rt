//! The pairs of a tree in order, all of them or those between two bounds.

ghost use Rattle.std.specs.Prelude.{◌≡◌, ◌++◌, ◌-◌, ◌≤◌, Some, OnOk, map, take, drop, length};
ghost use Rattle.mm_base.specs.declared.place.DiskLoc.{DiskLoc};
ghost use Rattle.mm_btree.specs.Nodes.{item_of};
ghost use Rattle.mm_btree.specs.Trees.{Sub};
ghost use Rattle.mm_btree.specs.Lists.{Sorted};
ghost use Rattle.mm_btree.specs.Changes.{StandsAt, IsTree};
ghost use Rattle.mm_btree.specs.Order.{item_lt};
ghost use Rattle.mm_btree.specs.Listed.{listed, rec_of, between, IsStart, IsEnd};

use crate::search::{compare_key, first_not_less};
use crate::store::NodeStore;
use mm_base::{DiskLoc, NoMemory};
use mm_bson::DocRef;
use mm_bucket::Bucket;
use mm_keys::KeySpec;
use mm_query::Bounds;

/// Where the first pair stands whose key isn't less than the lower bound.
fn run_start(bucket: &Bucket, bounds: &Bounds, spec: &KeySpec) -> usize
    requires { Sorted (item_lt spec.now) (map item_of bucket.now.pairs) }
    ensures { IsStart spec.now bounds.now.low bucket.now.pairs result }
{
    match &bounds.low {
        None => 0,
        Some(low) => first_not_less(bucket, &low.as_ref(), spec),
    }
}

/// Where the first pair stands, from a place on, whose key is greater than this one, by halves.
fn first_greater(bucket: &Bucket, from: usize, key: &DocRef<'_>, spec: &KeySpec) -> usize
    requires order { Sorted (item_lt spec.now) (map item_of bucket.now.pairs) }
    requires inside { from ≤ length bucket.now.pairs }
    ensures { IsEnd spec.now (Some key.now) bucket.now.pairs from result }
{
    let mut low = from;
    let mut high = bucket.len();
    while low < high {
        let middle = low + (high - low) / 2;
        if compare_key(bucket, middle, key, spec).is_gt() {
            high = middle;
        } else {
            low = middle + 1;
        }
    }
    low
}

/// Where the first pair stands, from a place on, whose key is greater than the upper bound.
fn run_end(bucket: &Bucket, from: usize, bounds: &Bounds, spec: &KeySpec) -> usize
    requires order { Sorted (item_lt spec.now) (map item_of bucket.now.pairs) }
    requires inside { from ≤ length bucket.now.pairs }
    ensures { IsEnd spec.now bounds.now.high bucket.now.pairs from result }
{
    match &bounds.high {
        None => bucket.len(),
        Some(high) => first_greater(bucket, from, &high.as_ref(), spec),
    }
}

/// Puts the records of a bucket's pairs, from one place up to another, behind the others.
fn push_run(bucket: &Bucket, from: usize, to: usize, out: &mut Vec<DiskLoc>) -> Result<(), NoMemory>
    requires order { from ≤ to }
    requires inside { to ≤ length bucket.now.pairs }
    ensures { OnOk result (out.new.items ≡ out.old.items ++ map rec_of (take (to - from) (drop from (map item_of bucket.now.pairs)))) }
{
    for place in from..to {
        out.push(bucket.rec(place))?;
    }
    Ok(())
}

/// Puts the records of the pairs that lie between the bounds behind the others: of the subtree at a place, whose leaves are so many levels
/// down. Of a bucket that has none of them, one child is read.
fn range_below<S: NodeStore>(
    store: &S,
    spec: &KeySpec,
    at: DiskLoc,
    height: u32,
    bounds: &Bounds,
    out: &mut Vec<DiskLoc>,
) -> Result<(), NoMemory>
    requires { (up : DiskLoc) × (s : Sub) × StandsAt (item_lt spec.now) (S.bucket_at store.now) up height s at }
    ensures { OnOk result (out.new.items ≡ out.old.items ++ between spec.now bounds.now.low bounds.now.high (listed (S.bucket_at store.now) height at)) }
{
    let bucket = store.read(at)?;
    let from = run_start(&bucket, bounds, spec);
    let to = run_end(&bucket, from, bounds, spec);
    if height == 0 {
        return push_run(&bucket, from, to, out);
    }
    for place in from..to {
        range_below(store, spec, bucket.child(place), height - 1, bounds, out)?;
        out.push(bucket.rec(place))?;
    }
    range_below(store, spec, bucket.child(to), height - 1, bounds, out)
}

/// Puts the records of the pairs whose keys lie between the bounds behind the others, in the order of the pairs. Read are the paths to the
/// first and the last of them and the buckets between.
pub fn range<S: NodeStore>(
    store: &S,
    spec: &KeySpec,
    root: DiskLoc,
    height: u32,
    bounds: &Bounds,
    out: &mut Vec<DiskLoc>,
) -> Result<(), NoMemory>
    requires { (s : Sub) × IsTree (item_lt spec.now) (S.bucket_at store.now) root height s }
    ensures { OnOk result ((s : Sub) → IsTree (item_lt spec.now) (S.bucket_at store.now) root height s
        → out.new.items ≡ out.old.items ++ between spec.now bounds.now.low bounds.now.high s.pairs) }
{
    range_below(store, spec, root, height, bounds, out)
}

/// Puts the records of all pairs behind the others, in the order of the pairs.
pub fn walk<S: NodeStore>(
    store: &S,
    spec: &KeySpec,
    root: DiskLoc,
    height: u32,
    out: &mut Vec<DiskLoc>,
) -> Result<(), NoMemory>
    requires { (s : Sub) × IsTree (item_lt spec.now) (S.bucket_at store.now) root height s }
    ensures { OnOk result ((s : Sub) → IsTree (item_lt spec.now) (S.bucket_at store.now) root height s
        → out.new.items ≡ out.old.items ++ map rec_of s.pairs) }
{
    let all = Bounds {
        low: None,
        high: None,
    };
    range(store, spec, root, height, &all, out)
}
