//! A pair is taken out of a tree.

ghost use Rattle.std.specs.Prelude.{◌≡◌, ◌+◌, ◌≤◌, ◌<◌, length, map, None, Some, IfOk, IfErr, OnOk, IsErrOf};
ghost use Rattle.mm_base.specs.Places.{null};
ghost use Rattle.mm_base.specs.declared.place.DiskLoc.{DiskLoc};
ghost use Rattle.mm_bucket.specs.Pairs.{IsKey};
ghost use Rattle.mm_bucket.specs.Rules.{children, AreAlike};
ghost use Rattle.mm_btree.specs.Nodes.{Item, item_of, node_of};
ghost use Rattle.mm_btree.specs.Trees.{Sub};
ghost use Rattle.mm_btree.specs.Lists.{Sorted};
ghost use Rattle.mm_btree.specs.Order.{item_lt};
ghost use Rattle.mm_btree.specs.Changes.{StandsAt};
ghost use Rattle.mm_btree.specs.Removal.{IsThere, IsGap, IsBelowRoot, IsLast, IsOut, IsGone};
ghost use Rattle.mm_btree.specs.Costs.{taking_weighs};

use crate::carried::Carried;
use crate::fault::TreeFault;
use crate::mending::{mend, write_left};
use crate::outcome::{Last, Removed};
use crate::store::NodeStore;
use mm_base::DiskLoc;
use mm_bson::DocRef;
use mm_bucket::Bucket;
use mm_keys::KeySpec;
use std::alloc::Global;

/// Where a pair of an equal key and this record stands in a bucket, `Ok`, or where it belongs, `Err`.
pub fn look_for(bucket: &Bucket, key: &[u8], rec: DiskLoc, spec: &KeySpec) -> Result<usize, usize>
    requires key { IsKey key.now }
    requires order { Sorted (item_lt spec.now) (map item_of bucket.now.pairs) }
    ensures there { IfOk result (IsThere spec.now (map item_of bucket.now.pairs) (record { key = key.now; rec = rec })) }
    ensures gap { IfErr result (IsGap spec.now (map item_of bucket.now.pairs) (record { key = key.now; rec = rec })) }
{
    bucket.find_in_place(&DocRef::of_spelled(key), rec, spec)
}

/// Takes the last pair out of the subtree at a place, below the root of its tree.
fn take_last_below<S: NodeStore>(
    alloc: Global,
    store: &mut S,
    at: DiskLoc,
    height: u32,
) -> Result<Last, TreeFault>
    requires { (up : DiskLoc) × (s : Sub) × IsBelowRoot (S.bucket_at store.old) up height s at }
    ensures ok { IfOk result (λ l. IsLast (S.bucket_at store.old) (S.bucket_at store.new) at height l.pair l.outcome) }
    ensures full { IsErrOf result TreeFault.NoSpace → S.is_full store.new }
    ensures other { IsErrOf result TreeFault.Duplicate → ⊥ }
    ensures stays { S.beside store.new ≡ S.beside store.old }
    ensures asked { S.asked store.new ≤ S.asked store.old + height }
    ensures weight { S.declared store.new ≤ S.declared store.old + taking_weighs height }
{
    let mut bucket = store.read(at)?;
    let pairs = bucket.len();
    if height == 0 {
        let last = pairs - 1;
        let pair = Carried::of(alloc, &bucket, last)?;
        bucket.remove_at(last);
        let left = write_left(store, at, &bucket)?;
        return Ok(Last {
            pair,
            outcome: left,
        });
    }
    let kid = bucket.child(pairs);
    let below = take_last_below(alloc, store, kid, height - 1)?;
    let outcome = mend(alloc, store, at, bucket, pairs, below.outcome)?;
    Ok(Last {
        pair: below.pair,
        outcome,
    })
}

/// Takes a pair out of the bucket where it stands; above a leaf the one before it, which is the last of the child there.
fn take_out<S: NodeStore>(
    alloc: Global,
    store: &mut S,
    spec: &KeySpec,
    at: DiskLoc,
    height: u32,
    mut bucket: Bucket,
    place: usize,
) -> Result<Removed, TreeFault>
    requires bucket { S.bucket_at store.old at ≡ Some (node_of bucket) }
    requires alike { AreAlike (children bucket) }
    requires place { place < length bucket.pairs }
    requires stands { (up : DiskLoc) × (s : Sub) × StandsAt (item_lt spec.now) (S.bucket_at store.old) up height s at }
    ensures ok { IfOk result (λ r. (x : Item) → IsThere spec.now (map item_of bucket.pairs) x place
        → IsOut spec.now (S.bucket_at store.old) (S.bucket_at store.new) at height x r.instead r.outcome) }
    ensures full { IsErrOf result TreeFault.NoSpace → S.is_full store.new }
    ensures other { IsErrOf result TreeFault.Duplicate → ⊥ }
    ensures stays { S.beside store.new ≡ S.beside store.old }
    ensures asked { S.asked store.new ≤ S.asked store.old + height }
    ensures weight { S.declared store.new ≤ S.declared store.old + taking_weighs height }
{
    if height == 0 {
        bucket.remove_at(place);
        let left = write_left(store, at, &bucket)?;
        return Ok(Removed {
            instead: None,
            outcome: left,
        });
    }
    let kid = bucket.child(place);
    let last = take_last_below(alloc, store, kid, height - 1)?;
    let outcome = mend(alloc, store, at, bucket, place, last.outcome)?;
    Ok(Removed {
        instead: Some(last.pair),
        outcome,
    })
}

/// Takes a pair out of the subtree at a place; where it stands above a leaf, the pair before it. `None` where it isn't there; then nothing
/// has changed.
pub fn remove_below<S: NodeStore>(
    alloc: Global,
    store: &mut S,
    spec: &KeySpec,
    at: DiskLoc,
    height: u32,
    key: &[u8],
    rec: DiskLoc,
) -> Result<Option<Removed>, TreeFault>
    requires key { IsKey key.now }
    requires stands { (up : DiskLoc) × (s : Sub) × StandsAt (item_lt spec.now) (S.bucket_at store.old) up height s at }
    ensures ok { IfOk result (IsGone spec.now (S.bucket_at store.old) (S.bucket_at store.new) at height (record { key = key.now; rec = rec })) }
    ensures kept { IfOk result (λ r. r ≡ None → store.new ≡ store.old) }
    ensures place { OnOk result (at ≡ null → ⊥) }
    ensures full { IsErrOf result TreeFault.NoSpace → S.is_full store.new }
    ensures other { IsErrOf result TreeFault.Duplicate → ⊥ }
    ensures stays { S.beside store.new ≡ S.beside store.old }
    ensures asked { S.asked store.new ≤ S.asked store.old + height }
    ensures weight { S.declared store.new ≤ S.declared store.old + taking_weighs height }
{
    let bucket = store.read(at)?;
    match look_for(&bucket, key, rec, spec) {
        Ok(place) => {
            let removed = take_out(alloc, store, spec, at, height, bucket, place)?;
            Ok(Some(removed))
        }
        Err(place) => {
            if height == 0 {
                return Ok(None);
            }
            let kid = bucket.child(place);
            match remove_below(alloc, store, spec, kid, height - 1, key, rec)? {
                None => Ok(None),
                Some(below) => {
                    let outcome = mend(alloc, store, at, bucket, place, below.outcome)?;
                    Ok(Some(Removed {
                        instead: below.instead,
                        outcome,
                    }))
                }
            }
        }
    }
}
