//! A bucket is written as one or as two.

ghost use Rattle.std.specs.Prelude.{◌≡◌, ◌≤◌, ◌+◌, Some, IsSome, IfOk, OnOk, IsErrOf, length};
ghost use Rattle.mm_base.specs.declared.place.DiskLoc.{DiskLoc};
ghost use Rattle.mm_bucket.specs.Pairs.{Contents, IsKey, with_pair, IsParted};
ghost use Rattle.mm_bucket.specs.Rules.{children, AreAlike};
ghost use Rattle.mm_btree.specs.Nodes.{node_of};
ghost use Rattle.mm_btree.specs.Changes.{adopted, AreThere, IsSettled};
ghost use Rattle.mm_btree.specs.Costs.{adopting_weighs, settling_weighs};

use crate::fault::TreeFault;
use crate::raised::Raised;
use crate::store::NodeStore;
use mm_base::{DiskLoc, NoMemory};
use mm_bucket::Bucket;
use std::alloc::Global;

/// Each child, the last one included, gets another parent.
fn adopt_all<S: NodeStore>(store: &mut S, bucket: &Bucket, up: DiskLoc) -> Result<(), NoMemory>
    requires { AreThere (S.bucket_at store.old) (children bucket.now) }
    ensures ok { OnOk result ((q : DiskLoc) → S.bucket_at store.new q ≡ adopted (S.bucket_at store.old) (children bucket.now) up q) }
    ensures stays { S.beside store.new ≡ S.beside store.old }
    ensures asked { S.asked store.new ≡ S.asked store.old }
    ensures weight { S.declared store.new ≤ S.declared store.old + adopting_weighs }
{
    let pairs = bucket.len();
    for place in 0..pairs + 1 {
        store.set_parent(bucket.child(place), up)?;
    }
    Ok(())
}

/// Each child of a bucket gets another parent; a leaf has none.
pub fn adopt<S: NodeStore>(store: &mut S, bucket: &Bucket, up: DiskLoc) -> Result<(), NoMemory>
    requires { AreThere (S.bucket_at store.old) (node_of bucket.now).kids }
    ensures ok { OnOk result ((q : DiskLoc) → S.bucket_at store.new q ≡ adopted (S.bucket_at store.old) (node_of bucket.now).kids up q) }
    ensures stays { S.beside store.new ≡ S.beside store.old }
    ensures asked { S.asked store.new ≡ S.asked store.old }
    ensures weight { S.declared store.new ≤ S.declared store.old + adopting_weighs }
{
    if bucket.next().is_null() {
        return Ok(());
    }
    adopt_all(store, bucket, up)
}

/// Writes the two parts of a bucket, the right one at a new place, and gives what goes up: the last pair of the left part, and that place.
fn part<S: NodeStore>(
    alloc: Global,
    store: &mut S,
    at: DiskLoc,
    mut left: Bucket,
    right: &Bucket,
    last: usize,
) -> Result<Raised, TreeFault>
    requires there { IsSome (S.bucket_at store.old at) }
    requires last { last + 1 ≡ length left.pairs }
    requires whole { (w : Contents) × IsParted w left right.now × AreAlike (children w) × AreThere (S.bucket_at store.old) (node_of w).kids }
    ensures ok { IfOk result (λ u. (w : Contents) → IsParted w left right.now → AreAlike (children w) → IsSettled (S.bucket_at store.old) (S.bucket_at store.new) at (node_of w) (Some u)) }
    ensures full { IsErrOf result TreeFault.NoSpace → S.is_full store.new }
    ensures other { IsErrOf result TreeFault.Duplicate → ⊥ }
    ensures stays { S.beside store.new ≡ S.beside store.old }
    ensures asked { S.asked store.new ≤ S.asked store.old + 1 }
    ensures weight { S.declared store.new ≤ S.declared store.old + settling_weighs }
{
    let key = Vec::from_slice(alloc, left.key(last))?;
    let record = left.rec(last);
    left.remove_at(last);
    let place = store.add(right)?;
    store.write(at, &left)?;
    adopt(store, right, place)?;
    Ok(Raised::made(key, record, place))
}

/// Puts a pair into a bucket, with the child behind it, and writes it at its place; where the pair has no room, as two, and then gives what
/// goes up.
pub fn settle<S: NodeStore>(
    alloc: Global,
    store: &mut S,
    at: DiskLoc,
    mut bucket: Bucket,
    place: usize,
    key: &[u8],
    rec: DiskLoc,
    after: DiskLoc,
) -> Result<Option<Raised>, TreeFault>
    requires there { IsSome (S.bucket_at store.old at) }
    requires place { place ≤ length bucket.pairs }
    requires key { IsKey key.now }
    requires alike { AreAlike (children (with_pair bucket place key.now rec after)) }
    requires kids { AreThere (S.bucket_at store.old) (node_of (with_pair bucket place key.now rec after)).kids }
    ensures ok { IfOk result (IsSettled (S.bucket_at store.old) (S.bucket_at store.new) at (node_of (with_pair bucket place key.now rec after))) }
    ensures full { IsErrOf result TreeFault.NoSpace → S.is_full store.new }
    ensures other { IsErrOf result TreeFault.Duplicate → ⊥ }
    ensures stays { S.beside store.new ≡ S.beside store.old }
    ensures asked { S.asked store.new ≤ S.asked store.old + 1 }
    ensures weight { S.declared store.new ≤ S.declared store.old + settling_weighs }
{
    let mut right = Bucket::new(DiskLoc::NULL);
    match bucket.put(place, key, rec, after, &mut right) {
        None => {
            store.write(at, &bucket)?;
            Ok(None)
        }
        Some(last) => {
            let up = part(alloc, store, at, bucket, &right, last)?;
            Ok(Some(up))
        }
    }
}
