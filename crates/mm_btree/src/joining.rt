//! Two neighbours, of which one has no pairs, are joined with the pair between them.

ghost use Rattle.std.specs.Prelude.{◌≡◌, false, ◌+◌, ◌≤◌, [], length, None, Some, IsSome, IfOk};
ghost use Rattle.mm_base.specs.declared.place.DiskLoc.{DiskLoc};
ghost use Rattle.mm_bucket.specs.Pairs.{Contents, IsKey, with_pair, IsParted};
ghost use Rattle.mm_bucket.specs.Rules.{children, AreAlike};
ghost use Rattle.mm_btree.specs.Nodes.{Node, node_of, place_eq, put};
ghost use Rattle.mm_btree.specs.Changes.{AreThere, IsSettled};
ghost use Rattle.mm_btree.specs.Removal.{AreNeighbours, up_at, IsJoined};
ghost use Rattle.mm_btree.specs.Costs.{adopting_weighs, bucket_weighs, joining_weighs};

use crate::carried::Carried;
use crate::settle::adopt;
use crate::store::NodeStore;
use mm_base::{DiskLoc, NoMemory};
use mm_bucket::Bucket;
use std::alloc::Global;

/// Writes the two parts of a bucket at two places that have buckets, and gives the last pair of the left part, which stands between them.
fn part_anew<S: NodeStore>(
    alloc: Global,
    store: &mut S,
    left: DiskLoc,
    right: DiskLoc,
    mut whole: Bucket,
    rest: &Bucket,
    last: usize,
) -> Result<Carried, NoMemory>
    requires left { IsSome (S.bucket_at store.old left) }
    requires right { IsSome (S.bucket_at store.old right) }
    requires last { last + 1 ≡ length whole.pairs }
    requires whole { (w : Contents) × IsParted w whole rest.now × AreAlike (children w) × AreThere (S.bucket_at store.old) (node_of w).kids }
    ensures ok { IfOk result (λ mid. (w : Contents) → IsParted w whole rest.now → AreAlike (children w)
        → IsSettled (put (S.bucket_at store.old) right None) (S.bucket_at store.new) left (node_of w) (up_at right (Some mid))) }
    ensures stays { S.beside store.new ≡ S.beside store.old }
    ensures asked { S.asked store.new ≡ S.asked store.old }
    ensures weight { S.declared store.new ≤ S.declared store.old + (bucket_weighs + bucket_weighs + adopting_weighs) }
{
    let mid = Carried::of(alloc, &whole, last)?;
    whole.remove_at(last);
    store.write(right, rest)?;
    store.write(left, &whole)?;
    adopt(store, rest, right)?;
    Ok(mid)
}

/// Puts a pair into the bucket that two neighbours have become, and writes it at the left place; the right one is given back. Where the
/// pair has no room, writes it as two, and gives the pair that then stands between them.
fn fold<S: NodeStore>(
    alloc: Global,
    store: &mut S,
    left: DiskLoc,
    right: DiskLoc,
    mut whole: Bucket,
    place: usize,
    key: &[u8],
    rec: DiskLoc,
    after: DiskLoc,
) -> Result<Option<Carried>, NoMemory>
    requires left { IsSome (S.bucket_at store.old left) }
    requires right { IsSome (S.bucket_at store.old right) }
    requires apart { place_eq left right ≡ false }
    requires place { place ≤ length whole.pairs }
    requires key { IsKey key.now }
    requires alike { AreAlike (children (with_pair whole place key.now rec after)) }
    requires kids { AreThere (S.bucket_at store.old) (node_of (with_pair whole place key.now rec after)).kids }
    ensures ok { IfOk result (λ r. IsSettled (put (S.bucket_at store.old) right None) (S.bucket_at store.new) left
        (node_of (with_pair whole place key.now rec after)) (up_at right r)) }
    ensures stays { S.beside store.new ≡ S.beside store.old }
    ensures asked { S.asked store.new ≡ S.asked store.old }
    ensures weight { S.declared store.new ≤ S.declared store.old + (bucket_weighs + bucket_weighs + adopting_weighs) }
{
    let mut rest = Bucket::new(DiskLoc::NULL);
    match whole.put(place, key, rec, after, &mut rest) {
        None => {
            store.free(right)?;
            store.write(left, &whole)?;
            Ok(None)
        }
        Some(last) => {
            let mid = part_anew(alloc, store, left, right, whole, &rest, last)?;
            Ok(Some(mid))
        }
    }
}

/// Joins a bucket with the one behind it, which has no pairs, and the pair between them.
pub fn join_behind<S: NodeStore>(
    alloc: Global,
    store: &mut S,
    left: DiskLoc,
    right: DiskLoc,
    key: &[u8],
    rec: DiskLoc,
) -> Result<Option<Carried>, NoMemory>
    requires key { IsKey key.now }
    requires two { (b c : Node) × AreNeighbours (S.bucket_at store.old) left right b c × (c.pairs ≡ []) }
    ensures ok { IfOk result (λ r. (b c : Node) → AreNeighbours (S.bucket_at store.old) left right b c → c.pairs ≡ []
        → IsJoined (S.bucket_at store.old) (S.bucket_at store.new) left right b (record { key = key.now; rec = rec }) c r) }
    ensures stays { S.beside store.new ≡ S.beside store.old }
    ensures asked { S.asked store.new ≡ S.asked store.old }
    ensures weight { S.declared store.new ≤ S.declared store.old + joining_weighs }
{
    let whole = store.read(left)?;
    let thin = store.read(right)?;
    adopt(store, &thin, left)?;
    let place = whole.len();
    fold(
        alloc,
        store,
        left,
        right,
        whole,
        place,
        key,
        rec,
        thin.next(),
    )
}

/// Joins a bucket, which has no pairs, with the one behind it and the pair between them.
pub fn join_before<S: NodeStore>(
    alloc: Global,
    store: &mut S,
    left: DiskLoc,
    right: DiskLoc,
    key: &[u8],
    rec: DiskLoc,
) -> Result<Option<Carried>, NoMemory>
    requires key { IsKey key.now }
    requires two { (b c : Node) × AreNeighbours (S.bucket_at store.old) left right b c × (b.pairs ≡ []) }
    ensures ok { IfOk result (λ r. (b c : Node) → AreNeighbours (S.bucket_at store.old) left right b c → b.pairs ≡ []
        → IsJoined (S.bucket_at store.old) (S.bucket_at store.new) left right b (record { key = key.now; rec = rec }) c r) }
    ensures stays { S.beside store.new ≡ S.beside store.old }
    ensures asked { S.asked store.new ≡ S.asked store.old }
    ensures weight { S.declared store.new ≤ S.declared store.old + joining_weighs }
{
    let thin = store.read(left)?;
    let mut whole = store.read(right)?;
    adopt(store, &whole, left)?;
    let after = whole.child(0);
    whole.set_child(0, thin.next());
    fold(alloc, store, left, right, whole, 0, key, rec, after)
}
