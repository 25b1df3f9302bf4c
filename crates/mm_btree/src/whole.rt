//! A pair is taken out of a whole tree, whose root may change.

ghost use Rattle.std.specs.Prelude.{◌≡◌, ◌↔◌, ◌+◌, ◌^◌, ◌<◌, ◌≤◌, Bool, List, None, Some, IfOk, IsErrOf};
ghost use Rattle.mm_base.specs.Places.{null};
ghost use Rattle.mm_base.specs.declared.place.DiskLoc.{DiskLoc};
ghost use Rattle.mm_bucket.specs.Pairs.{IsKey};
ghost use Rattle.mm_btree.specs.Nodes.{Item, Buckets};
ghost use Rattle.mm_btree.specs.Trees.{Sub};
ghost use Rattle.mm_btree.specs.Lists.{Sorted};
ghost use Rattle.mm_btree.specs.Order.{item_lt, IsLacking};
ghost use Rattle.mm_btree.specs.Changes.{IsTree, IsChanged};
ghost use Rattle.mm_btree.specs.Removal.{without, exchanged, IsRootLeft, IsTurned};
ghost use Rattle.mm_btree.specs.declared.outcome.Outcome.TheVariants.{Thin};
ghost use Rattle.mm_btree.specs.Costs.{freeing_weighs, growing_weighs, insert_asks, insert_weighs, parent_weighs, remove_asks, remove_weighs};

use crate::adding::grow;
use crate::carried::Carried;
use crate::exchanging::exchange_below;
use crate::fault::TreeFault;
use crate::outcome::Outcome;
use crate::removing::remove_below;
use crate::store::NodeStore;
use mm_base::{DiskLoc, NoMemory};
use mm_keys::KeySpec;
use std::alloc::Global;

/// Where the root of a tree is, and how many levels down its leaves are.
#[derive(Clone, Copy, Debug, PartialEq, Eq)]
pub struct Root {
    pub place: DiskLoc,
    pub height: u32,
}

/// The one child of a root without pairs becomes the root.
fn lower<S: NodeStore>(store: &mut S, root: DiskLoc, height: u32) -> Result<Root, NoMemory>
    requires high { 0 < height }
    requires thin { (m : Buckets) × (s : Sub) × (list : List Item) × IsRootLeft m (S.bucket_at store.old) height s list root Thin }
    ensures ok { IfOk result (λ r. (lt : Item → Item → Bool) (m : Buckets) (s : Sub) (list : List Item) → IsRootLeft m (S.bucket_at store.old) height s list root Thin → Sorted lt list
        → (t : Sub) × IsChanged lt m (S.bucket_at store.new) r.place r.height s list t) }
    ensures low { IfOk result (λ r. r.height ≤ height) }
    ensures stays { S.beside store.new ≡ S.beside store.old }
    ensures asked { S.asked store.new ≡ S.asked store.old }
    ensures weight { S.declared store.new ≤ S.declared store.old + (freeing_weighs + parent_weighs) }
{
    let bucket = store.read(root)?;
    let kid = bucket.next();
    store.free(root)?;
    store.set_parent(kid, DiskLoc::NULL)?;
    Ok(Root {
        place: kid,
        height: height - 1,
    })
}

/// What has become of the root of a tree is made a tree again.
fn settle_root<S: NodeStore>(
    store: &mut S,
    root: DiskLoc,
    height: u32,
    outcome: Outcome,
) -> Result<Root, TreeFault>
    requires place { root ≡ null → ⊥ }
    requires low { height + 1 < 2 ^ 32 }
    requires left { (m : Buckets) × (s : Sub) × (list : List Item) × IsRootLeft m (S.bucket_at store.old) height s list root outcome }
    ensures ok { IfOk result (λ r. (lt : Item → Item → Bool) (m : Buckets) (s : Sub) (list : List Item) → IsRootLeft m (S.bucket_at store.old) height s list root outcome → Sorted lt list
        → (t : Sub) × IsChanged lt m (S.bucket_at store.new) r.place r.height s list t) }
    ensures low { IfOk result (λ r. r.height ≤ height + 1) }
    ensures full { IsErrOf result TreeFault.NoSpace → S.is_full store.new }
    ensures other { IsErrOf result TreeFault.Duplicate → ⊥ }
    ensures stays { S.beside store.new ≡ S.beside store.old }
    ensures asked { S.asked store.new ≤ S.asked store.old + 1 }
    ensures weight { S.declared store.new ≤ S.declared store.old + growing_weighs }
{
    match outcome {
        Outcome::Whole => Ok(Root {
            place: root,
            height,
        }),
        Outcome::Parted(up) => {
            let place = grow(store, root, &up)?;
            Ok(Root {
                place,
                height: height + 1,
            })
        }
        Outcome::Thin => {
            if height == 0 {
                return Ok(Root {
                    place: root,
                    height,
                });
            }
            let lowered = lower(store, root, height)?;
            Ok(lowered)
        }
    }
}

/// A pair of a tree gives way to another.
fn exchange_pair<S: NodeStore>(
    alloc: Global,
    store: &mut S,
    spec: &KeySpec,
    root: Root,
    key: &[u8],
    rec: DiskLoc,
    new: &Carried,
) -> Result<Root, TreeFault>
    requires key { IsKey key.now }
    requires low { root.height + 1 < 2 ^ 32 }
    requires tree { (s : Sub) × IsTree (item_lt spec.now) (S.bucket_at store.old) root.place root.height s × (IsLacking spec.now (record { key = key.now; rec = rec }) s.pairs → ⊥) }
    ensures ok { IfOk result (λ r. (s : Sub) → IsTree (item_lt spec.now) (S.bucket_at store.old) root.place root.height s → (IsLacking spec.now (record { key = key.now; rec = rec }) s.pairs → ⊥)
        → Sorted (item_lt spec.now) (exchanged spec.now (record { key = key.now; rec = rec }) new.now s.pairs)
        → (t : Sub) × IsChanged (item_lt spec.now) (S.bucket_at store.old) (S.bucket_at store.new) r.place r.height s (exchanged spec.now (record { key = key.now; rec = rec }) new.now s.pairs) t) }
    ensures full { IsErrOf result TreeFault.NoSpace → S.is_full store.new }
    ensures other { IsErrOf result TreeFault.Duplicate → ⊥ }
    ensures stays { S.beside store.new ≡ S.beside store.old }
    ensures asked { S.asked store.new ≤ S.asked store.old + insert_asks root.height }
    ensures weight { S.declared store.new ≤ S.declared store.old + insert_weighs root.height }
{
    match exchange_below(alloc, store, spec, root.place, root.height, key, rec, new)? {
        None => Ok(root),
        Some(up) => {
            let place = grow(store, root.place, &up)?;
            Ok(Root {
                place,
                height: root.height + 1,
            })
        }
    }
}

/// Where the pair before another was taken out in its stead, it now stands in its place.
fn stand_in<S: NodeStore>(
    alloc: Global,
    store: &mut S,
    spec: &KeySpec,
    root: Root,
    key: &[u8],
    rec: DiskLoc,
    instead: Option<Carried>,
) -> Result<Root, TreeFault>
    requires key { IsKey key.now }
    requires low { root.height + 1 < 2 ^ 32 }
    requires turned { (m : Buckets) × (s : Sub) × (list : List Item) × (t : Sub) × IsTurned spec.now m (S.bucket_at store.old) root.place root.height (record { key = key.now; rec = rec }) instead s list t }
    ensures ok { IfOk result (λ r. (m : Buckets) (s : Sub) (list : List Item) (t : Sub) → IsTurned spec.now m (S.bucket_at store.old) root.place root.height (record { key = key.now; rec = rec }) instead s list t
        → (u : Sub) × IsChanged (item_lt spec.now) m (S.bucket_at store.new) r.place r.height s (without spec.now (record { key = key.now; rec = rec }) s.pairs) u) }
    ensures full { IsErrOf result TreeFault.NoSpace → S.is_full store.new }
    ensures other { IsErrOf result TreeFault.Duplicate → ⊥ }
    ensures stays { S.beside store.new ≡ S.beside store.old }
    ensures asked { S.asked store.new ≤ S.asked store.old + insert_asks root.height }
    ensures weight { S.declared store.new ≤ S.declared store.old + insert_weighs root.height }
{
    match instead {
        None => Ok(root),
        Some(before) => exchange_pair(alloc, store, spec, root, key, rec, &before),
    }
}

/// Takes the pair of a key and a record out of a tree: the list is without it. Gives the root that the tree then has. `None` exactly where
/// no pair of an equal key and this record is there; then nothing has changed. `NoSpace` only where the store is full: a key that takes
/// another's place above may be the longer one. After an error the store is to be dropped.
pub fn remove<S: NodeStore>(
    alloc: Global,
    store: &mut S,
    spec: &KeySpec,
    root: DiskLoc,
    height: u32,
    key: &[u8],
    rec: DiskLoc,
) -> Result<Option<Root>, TreeFault>
    requires key { IsKey key.now }
    requires low { height + 2 < 2 ^ 32 }
    requires tree { (s : Sub) × IsTree (item_lt spec.now) (S.bucket_at store.old) root height s }
    ensures out { IfOk result (λ r. (after : Root) → r ≡ Some after → (s : Sub) → IsTree (item_lt spec.now) (S.bucket_at store.old) root height s
        → (t : Sub) × IsChanged (item_lt spec.now) (S.bucket_at store.old) (S.bucket_at store.new) after.place after.height s (without spec.now (record { key = key.now; rec = rec }) s.pairs) t) }

    // It is there exactly where a root is answered.
    ensures there { IfOk result (λ r. (s : Sub) → IsTree (item_lt spec.now) (S.bucket_at store.old) root height s
        → (r ≡ None) ↔ IsLacking spec.now (record { key = key.now; rec = rec }) s.pairs) }
    ensures kept { IfOk result (λ r. r ≡ None → store.new ≡ store.old) }
    ensures full { IsErrOf result TreeFault.NoSpace → S.is_full store.new }
    ensures other { IsErrOf result TreeFault.Duplicate → ⊥ }
    ensures stays { S.beside store.new ≡ S.beside store.old }
    ensures asked { S.asked store.new ≤ S.asked store.old + remove_asks height }
    ensures weight { S.declared store.new ≤ S.declared store.old + remove_weighs height }
{
    match remove_below(alloc, store, spec, root, height, key, rec)? {
        None => Ok(None),
        Some(removed) => {
            let turned = settle_root(store, root, height, removed.outcome)?;
            let last = stand_in(alloc, store, spec, turned, key, rec, removed.instead)?;
            Ok(Some(last))
        }
    }
}
