//! A pair is put into a tree or taken out, whatever the tree's height.

ghost use Rattle.std.specs.Prelude.{◌≡◌, ℕ, ◌+◌, ◌≤◌, Some, None, IfOk, OnOk, IsErrOf};
ghost use Rattle.mm_base.specs.declared.place.DiskLoc.{DiskLoc as Place};
ghost use Rattle.mm_bucket.specs.Pairs.{IsKey};
ghost use Rattle.mm_btree.specs.Trees.{Sub};
ghost use Rattle.mm_btree.specs.Order.{item_lt, IsLacking};
ghost use Rattle.mm_btree.specs.Changes.{IsTree};
ghost use Rattle.mm_btree.specs.Costs.{insert_asks, insert_weighs, remove_asks, remove_weighs};
ghost use Rattle.mm_trees.specs.Changes.{OfHeight, IsPutIn, IsTwice, IsntTwice, IsTaken, IsThere};

use crate::height::height_of;
use mm_base::DiskLoc;
use mm_btree::{NodeStore, TreeFault};
use mm_keys::KeySpec;
use std::alloc::Global;

/// Puts a pair into a tree that hasn't it, and gives the new root, where there is one.
pub fn put_in<S: NodeStore>(
    alloc: Global,
    store: &mut S,
    spec: &KeySpec,
    root: DiskLoc,
    key: &[u8],
    rec: DiskLoc,
    unique: bool,
) -> Result<Option<DiskLoc>, TreeFault>
    requires key { IsKey key.now }
    requires tree { (h : ℕ) × ((s : Sub) × (IsTree (item_lt spec.now) (S.bucket_at store.old) root h s × IsLacking spec.now (record { key = key.now; rec = rec }) s.pairs)) }
    ensures ok { IfOk result (IsPutIn spec.now (S.bucket_at store.old) (S.bucket_at store.new) root (record { key = key.now; rec = rec })) }
    ensures alone { OnOk result (IsntTwice spec.now (S.bucket_at store.old) root key.now unique) }
    ensures duplicate { IsErrOf result TreeFault.Duplicate → IsTwice spec.now (S.bucket_at store.old) root key.now unique }
    ensures kept { IsErrOf result TreeFault.Duplicate → store.new ≡ store.old }
    ensures full { IsErrOf result TreeFault.NoSpace → S.is_full store.new }
    ensures stays { S.beside store.new ≡ S.beside store.old }
    ensures asked { OfHeight spec.now (S.bucket_at store.old) root (λ h. S.asked store.new ≤ S.asked store.old + insert_asks h) }
    ensures weight { OfHeight spec.now (S.bucket_at store.old) root (λ h. S.declared store.new ≤ S.declared store.old + insert_weighs h) }
{
    let height = height_of(store, root)?;
    mm_btree::insert(alloc, store, spec, root, height, key, rec, unique)
}

/// Takes a pair out of a tree, and gives the root that the tree then has. `None` exactly where it isn't there; then nothing has changed.
pub fn take_out<S: NodeStore>(
    alloc: Global,
    store: &mut S,
    spec: &KeySpec,
    root: DiskLoc,
    key: &[u8],
    rec: DiskLoc,
) -> Result<Option<DiskLoc>, TreeFault>
    requires key { IsKey key.now }
    requires tree { (h : ℕ) × ((s : Sub) × IsTree (item_lt spec.now) (S.bucket_at store.old) root h s) }
    ensures out { IfOk result (λ r. (after : Place) → r ≡ Some after → IsTaken spec.now (S.bucket_at store.old) (S.bucket_at store.new) root (record { key = key.now; rec = rec }) after) }
    ensures there { IfOk result (IsThere spec.now (S.bucket_at store.old) root (record { key = key.now; rec = rec })) }
    ensures kept { IfOk result (λ r. r ≡ None → store.new ≡ store.old) }
    ensures full { IsErrOf result TreeFault.NoSpace → S.is_full store.new }
    ensures other { IsErrOf result TreeFault.Duplicate → ⊥ }
    ensures stays { S.beside store.new ≡ S.beside store.old }
    ensures asked { OfHeight spec.now (S.bucket_at store.old) root (λ h. S.asked store.new ≤ S.asked store.old + remove_asks h) }
    ensures weight { OfHeight spec.now (S.bucket_at store.old) root (λ h. S.declared store.new ≤ S.declared store.old + remove_weighs h) }
{
    let height = height_of(store, root)?;
    match mm_btree::remove(alloc, store, spec, root, height, key, rec)? {
        None => Ok(None),
        Some(after) => Ok(Some(after.place)),
    }
}
