//! A bucket of which a child has lost a pair is mended.

ghost use Rattle.std.specs.Prelude.{◌≡◌, ◌+◌, ◌<◌, ◌≤◌, length, Some, IsSome, IfOk, IsErrOf};
ghost use Rattle.mm_base.specs.Places.{null};
ghost use Rattle.mm_base.specs.declared.place.DiskLoc.{DiskLoc};
ghost use Rattle.mm_bucket.specs.Rules.{children, AreAlike};
ghost use Rattle.mm_btree.specs.Nodes.{Item, node_of};
ghost use Rattle.mm_btree.specs.Changes.{AreThere, IsSettled};
ghost use Rattle.mm_btree.specs.Removal.{IsWritten, with_item, after_join as joined_above, Scene, IsAbove, IsMended};
ghost use Rattle.mm_btree.specs.declared.outcome.Outcome.TheVariants.{Thin, Parted};
ghost use Rattle.mm_btree.specs.Costs.{bucket_weighs, mending_weighs, settling_weighs};

use crate::carried::Carried;
use crate::fault::TreeFault;
use crate::joining::{join_before, join_behind};
use crate::outcome::Outcome;
use crate::raised::Raised;
use crate::settle::settle;
use crate::store::NodeStore;
use mm_base::{DiskLoc, NoMemory};
use mm_bucket::Bucket;
use std::alloc::Global;

/// Writes a bucket that has lost a pair at its place, and says whether it has one left.
pub fn write_left<S: NodeStore>(
    store: &mut S,
    at: DiskLoc,
    bucket: &Bucket,
) -> Result<Outcome, NoMemory>
    requires there { IsSome (S.bucket_at store.old at) }
    requires alike { AreAlike (children bucket.now) }
    ensures ok { IfOk result (IsWritten (S.bucket_at store.old) (S.bucket_at store.new) at (node_of bucket.now)) }
    ensures stays { S.beside store.new ≡ S.beside store.old }
    ensures asked { S.asked store.new ≡ S.asked store.old }
    ensures weight { S.declared store.new ≤ S.declared store.old + bucket_weighs }
{
    store.write(at, bucket)?;
    if bucket.len() == 0 {
        return Ok(Outcome::Thin);
    }
    Ok(Outcome::Whole)
}

/// A pair of a bucket gives way to another, and the bucket is written at its place, as one or as two; the children stay.
pub fn exchange<S: NodeStore>(
    alloc: Global,
    store: &mut S,
    at: DiskLoc,
    mut bucket: Bucket,
    place: usize,
    new: &Carried,
) -> Result<Option<Raised>, TreeFault>
    requires there { IsSome (S.bucket_at store.old at) }
    requires place { place < length bucket.pairs }
    requires alike { AreAlike (children bucket) }
    requires kids { AreThere (S.bucket_at store.old) (node_of bucket).kids }
    ensures ok { IfOk result (IsSettled (S.bucket_at store.old) (S.bucket_at store.new) at (with_item (node_of bucket) place new.now)) }
    ensures full { IsErrOf result TreeFault.NoSpace → S.is_full store.new }
    ensures other { IsErrOf result TreeFault.Duplicate → ⊥ }
    ensures stays { S.beside store.new ≡ S.beside store.old }
    ensures asked { S.asked store.new ≤ S.asked store.old + 1 }
    ensures weight { S.declared store.new ≤ S.declared store.old + settling_weighs }
{
    let left = bucket.child(place);
    let after = bucket.child(place + 1);
    bucket.remove_at(place);
    bucket.set_child(place, left);
    settle(alloc, store, at, bucket, place, new.key(), new.rec(), after)
}

/// Of a bucket, the pair between two children is gone that have become one, at the place of the first; or another stands in its stead.
fn after_join<S: NodeStore>(
    alloc: Global,
    store: &mut S,
    at: DiskLoc,
    mut bucket: Bucket,
    place: usize,
    joined: Option<Carried>,
) -> Result<Outcome, TreeFault>
    requires there { IsSome (S.bucket_at store.old at) }
    requires place { place < length bucket.pairs }
    requires alike { AreAlike (children bucket) }
    requires inner { bucket.next ≡ null → ⊥ }
    requires kids { (y : Item) → joined ≡ Some y → AreThere (S.bucket_at store.old) (node_of bucket).kids }
    ensures ok { IfOk result (IsWritten (S.bucket_at store.old) (S.bucket_at store.new) at (joined_above (node_of bucket) place joined)) }
    ensures full { IsErrOf result TreeFault.NoSpace → S.is_full store.new }
    ensures other { IsErrOf result TreeFault.Duplicate → ⊥ }
    ensures stays { S.beside store.new ≡ S.beside store.old }
    ensures asked { S.asked store.new ≤ S.asked store.old + 1 }
    ensures weight { S.declared store.new ≤ S.declared store.old + settling_weighs }
{
    match joined {
        None => {
            let left = bucket.child(place);
            bucket.set_child(place + 1, left);
            bucket.remove_at(place);
            let outcome = write_left(store, at, &bucket)?;
            Ok(outcome)
        }
        Some(mid) => {
            let up = exchange(alloc, store, at, bucket, place, &mid)?;
            Ok(Outcome::of(up))
        }
    }
}

/// Mends a bucket of which the child at a place, not the first, has no pairs: the child is joined with the one before it.
fn mend_behind<S: NodeStore>(
    alloc: Global,
    store: &mut S,
    at: DiskLoc,
    bucket: Bucket,
    place: usize,
) -> Result<Outcome, TreeFault>
    requires some { 1 ≤ place }
    requires alike { AreAlike (children bucket) }
    requires above { (w : Scene) × IsAbove w (S.bucket_at store.old) at (node_of bucket) place Thin }
    ensures ok { IfOk result (λ r. (w : Scene) → IsAbove w (S.bucket_at store.old) at (node_of bucket) place Thin → IsMended w (S.bucket_at store.new) place r) }
    ensures full { IsErrOf result TreeFault.NoSpace → S.is_full store.new }
    ensures other { IsErrOf result TreeFault.Duplicate → ⊥ }
    ensures stays { S.beside store.new ≡ S.beside store.old }
    ensures asked { S.asked store.new ≤ S.asked store.old + 1 }
    ensures weight { S.declared store.new ≤ S.declared store.old + mending_weighs }
{
    let before = place - 1;
    let left = bucket.child(before);
    let right = bucket.child(place);
    let joined = join_behind(
        alloc,
        store,
        left,
        right,
        bucket.key(before),
        bucket.rec(before),
    )?;
    after_join(alloc, store, at, bucket, before, joined)
}

/// Mends a bucket of which the first child has no pairs: the child is joined with the one behind it.
fn mend_first<S: NodeStore>(
    alloc: Global,
    store: &mut S,
    at: DiskLoc,
    bucket: Bucket,
) -> Result<Outcome, TreeFault>
    requires alike { AreAlike (children bucket) }
    requires above { (w : Scene) × IsAbove w (S.bucket_at store.old) at (node_of bucket) 0 Thin }
    ensures ok { IfOk result (λ r. (w : Scene) → IsAbove w (S.bucket_at store.old) at (node_of bucket) 0 Thin → IsMended w (S.bucket_at store.new) 0 r) }
    ensures full { IsErrOf result TreeFault.NoSpace → S.is_full store.new }
    ensures other { IsErrOf result TreeFault.Duplicate → ⊥ }
    ensures stays { S.beside store.new ≡ S.beside store.old }
    ensures asked { S.asked store.new ≤ S.asked store.old + 1 }
    ensures weight { S.declared store.new ≤ S.declared store.old + mending_weighs }
{
    let left = bucket.child(0);
    let right = bucket.child(1);
    let joined = join_before(alloc, store, left, right, bucket.key(0), bucket.rec(0))?;
    after_join(alloc, store, at, bucket, 0, joined)
}

/// The child at a place has become two: the bucket gets the pair between.
fn mend_parted<S: NodeStore>(
    alloc: Global,
    store: &mut S,
    at: DiskLoc,
    bucket: Bucket,
    place: usize,
    up: &Raised,
) -> Result<Outcome, TreeFault>
    requires alike { AreAlike (children bucket) }
    requires above { (w : Scene) × IsAbove w (S.bucket_at store.old) at (node_of bucket) place (Parted up.now) }
    ensures ok { IfOk result (λ r. (w : Scene) → IsAbove w (S.bucket_at store.old) at (node_of bucket) place (Parted up.now) → IsMended w (S.bucket_at store.new) place r) }
    ensures full { IsErrOf result TreeFault.NoSpace → S.is_full store.new }
    ensures other { IsErrOf result TreeFault.Duplicate → ⊥ }
    ensures stays { S.beside store.new ≡ S.beside store.old }
    ensures asked { S.asked store.new ≤ S.asked store.old + 1 }
    ensures weight { S.declared store.new ≤ S.declared store.old + mending_weighs }
{
    let more = settle(
        alloc,
        store,
        at,
        bucket,
        place,
        up.key(),
        up.rec(),
        up.right(),
    )?;
    Ok(Outcome::of(more))
}

/// Mends a bucket of which the child at a place has lost a pair.
pub fn mend<S: NodeStore>(
    alloc: Global,
    store: &mut S,
    at: DiskLoc,
    bucket: Bucket,
    place: usize,
    outcome: Outcome,
) -> Result<Outcome, TreeFault>
    requires alike { AreAlike (children bucket) }
    requires above { (w : Scene) × IsAbove w (S.bucket_at store.old) at (node_of bucket) place outcome }
    ensures ok { IfOk result (λ r. (w : Scene) → IsAbove w (S.bucket_at store.old) at (node_of bucket) place outcome → IsMended w (S.bucket_at store.new) place r) }
    ensures full { IsErrOf result TreeFault.NoSpace → S.is_full store.new }
    ensures other { IsErrOf result TreeFault.Duplicate → ⊥ }
    ensures stays { S.beside store.new ≡ S.beside store.old }
    ensures asked { S.asked store.new ≤ S.asked store.old + 1 }
    ensures weight { S.declared store.new ≤ S.declared store.old + mending_weighs }
{
    match outcome {
        Outcome::Whole => Ok(Outcome::Whole),
        Outcome::Parted(up) => mend_parted(alloc, store, at, bucket, place, &up),
        Outcome::Thin => {
            if place == 0 {
                mend_first(alloc, store, at, bucket)
            } else {
                mend_behind(alloc, store, at, bucket, place)
            }
        }
    }
}
