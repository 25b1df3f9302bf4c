//! A pair is put into a tree.

ghost use Rattle.std.specs.Prelude.{◌≡◌, ◌+◌, ◌∷◌, [], None, Some, IfOk, OnOk, IsErrOf, IsSome, map, length, ◌≤◌};
ghost use Rattle.mm_base.specs.Places.{null};
ghost use Rattle.mm_base.specs.declared.place.DiskLoc.{DiskLoc};
ghost use Rattle.mm_bucket.specs.Pairs.{IsKey};
ghost use Rattle.mm_bucket.specs.Rules.{children, AreAlike};
ghost use Rattle.mm_btree.specs.Nodes.{item_of, node_of};
ghost use Rattle.mm_btree.specs.Trees.{Sub};
ghost use Rattle.mm_btree.specs.Lists.{ins, Sorted};
ghost use Rattle.mm_btree.specs.Order.{item_lt, IsLacking};
ghost use Rattle.mm_btree.specs.Changes.{IsPlace, StandsAt, IsInserted, AreThere, rooted_map, IsTree, IsChanged, root_after, height_after};
ghost use Rattle.mm_btree.specs.Costs.{below_weighs, growing_weighs, insert_asks, insert_weighs};

use crate::fault::TreeFault;
use crate::raised::Raised;
use crate::settle::{adopt, settle};
use crate::store::NodeStore;
use mm_base::DiskLoc;
use mm_bson::DocRef;
use mm_bucket::Bucket;
use mm_keys::KeySpec;
use std::alloc::Global;

/// Where a pair belongs in a bucket that hasn't it.
fn place_of(bucket: &Bucket, key: &[u8], rec: DiskLoc, spec: &KeySpec) -> usize
    requires key { IsKey key.now }
    requires order { Sorted (item_lt spec.now) (map item_of bucket.now.pairs) }
    requires lacking { IsLacking spec.now (record { key = key.now; rec = rec }) (map item_of bucket.now.pairs) }
    ensures is { IsPlace (item_lt spec.now) (map item_of bucket.now.pairs) (record { key = key.now; rec = rec }) result }
    ensures inside { result ≤ length bucket.now.pairs }
{
    match bucket.find_in_place(&DocRef::of_spelled(key), rec, spec) {
        Ok(place) => place,
        Err(place) => place,
    }
}

/// Puts a pair into the subtree at a place, whose leaves are so many levels down. Where the subtree's root was parted, gives what goes up.
fn insert_below<S: NodeStore>(
    alloc: Global,
    store: &mut S,
    spec: &KeySpec,
    at: DiskLoc,
    height: u32,
    key: &[u8],
    rec: DiskLoc,
) -> Result<Option<Raised>, TreeFault>
    requires key { IsKey key.now }
    requires stands { (up : DiskLoc) × (s : Sub) × StandsAt (item_lt spec.now) (S.bucket_at store.old) up height s at × IsLacking spec.now (record { key = key.now; rec = rec }) s.pairs }
    ensures ok { IfOk result (λ r. (up : DiskLoc) → IsInserted (item_lt spec.now) (S.bucket_at store.old) (S.bucket_at store.new) at height (record { key = key.now; rec = rec }) up r) }
    ensures place { OnOk result (at ≡ null → ⊥) }
    ensures full { IsErrOf result TreeFault.NoSpace → S.is_full store.new }
    ensures other { IsErrOf result TreeFault.Duplicate → ⊥ }
    ensures stays { S.beside store.new ≡ S.beside store.old }
    ensures asked { S.asked store.new ≤ S.asked store.old + (height + 1) }
    ensures weight { S.declared store.new ≤ S.declared store.old + below_weighs height }
{
    let bucket = store.read(at)?;
    let place = place_of(&bucket, key, rec, spec);
    if height == 0 {
        return settle(alloc, store, at, bucket, place, key, rec, DiskLoc::NULL);
    }
    let kid = bucket.child(place);
    match insert_below(alloc, store, spec, kid, height - 1, key, rec)? {
        None => Ok(None),
        Some(up) => settle(
            alloc,
            store,
            at,
            bucket,
            place,
            up.key(),
            up.rec(),
            up.right(),
        ),
    }
}

/// A root over two buckets and the pair between them.
fn over(left: DiskLoc, up: &Raised) -> Bucket
    requires { left ≡ null → ⊥ }
    ensures node { node_of result ≡ record { parent = null; pairs = up.now.mid ∷ []; kids = left ∷ up.now.right ∷ [] } }
    ensures alike { AreAlike (children result) }
{
    let mut bucket = Bucket::new(DiskLoc::NULL);
    bucket.set_next(up.right());
    bucket.insert_at(0, up.key(), up.rec(), left);
    bucket
}

/// Puts a new root over the old one and what was parted from it.
pub fn grow<S: NodeStore>(store: &mut S, root: DiskLoc, up: &Raised) -> Result<DiskLoc, TreeFault>
    requires root { root ≡ null → ⊥ }
    requires there { AreThere (S.bucket_at store.old) (root ∷ up.now.right ∷ []) }
    ensures free { IfOk result (λ r. S.bucket_at store.old r ≡ None) }
    ensures same { IfOk result (λ r. (q : DiskLoc) → S.bucket_at store.new q ≡ rooted_map (S.bucket_at store.old) r root up.now q) }
    ensures full { IsErrOf result TreeFault.NoSpace → S.is_full store.new }
    ensures other { IsErrOf result TreeFault.Duplicate → ⊥ }
    ensures stays { S.beside store.new ≡ S.beside store.old }
    ensures asked { S.asked store.new ≤ S.asked store.old + 1 }
    ensures weight { S.declared store.new ≤ S.declared store.old + growing_weighs }
{
    let bucket = over(root, up);
    let place = store.add(&bucket)?;
    adopt(store, &bucket, place)?;
    Ok(place)
}

/// Puts a pair into a tree of this height that hasn't it: the list has it in its place. Where there is a new root, its place is given, and
/// the tree is one higher. `NoSpace` only where the store is full; after an error the store is to be dropped.
pub fn insert_pair<S: NodeStore>(
    alloc: Global,
    store: &mut S,
    spec: &KeySpec,
    root: DiskLoc,
    height: u32,
    key: &[u8],
    rec: DiskLoc,
) -> Result<Option<DiskLoc>, TreeFault>
    requires key { IsKey key.now }
    requires tree { (s : Sub) × IsTree (item_lt spec.now) (S.bucket_at store.old) root height s × IsLacking spec.now (record { key = key.now; rec = rec }) s.pairs }
    ensures ok { IfOk result (λ r. (s : Sub) → IsTree (item_lt spec.now) (S.bucket_at store.old) root height s → IsLacking spec.now (record { key = key.now; rec = rec }) s.pairs
        → (t : Sub) × IsChanged (item_lt spec.now) (S.bucket_at store.old) (S.bucket_at store.new) (root_after root r) (height_after height r) s
        (ins (item_lt spec.now) (record { key = key.now; rec = rec }) s.pairs) t) }
    ensures full { IsErrOf result TreeFault.NoSpace → S.is_full store.new }
    ensures other { IsErrOf result TreeFault.Duplicate → ⊥ }
    ensures stays { S.beside store.new ≡ S.beside store.old }
    ensures asked { S.asked store.new ≤ S.asked store.old + insert_asks height }
    ensures weight { S.declared store.new ≤ S.declared store.old + insert_weighs height }
{
    match insert_below(alloc, store, spec, root, height, key, rec)? {
        None => Ok(None),
        Some(up) => {
            let place = grow(store, root, &up)?;
            Ok(Some(place))
        }
    }
}
