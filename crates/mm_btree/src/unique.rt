//! A pair is put into an index that may be unique.

ghost use Rattle.std.specs.Prelude.{◌≡◌, ◌+◌, ◌≤◌, ◌↔◌, IsTrue, IsSome, IfOk, IsErrOf, OnOk};
ghost use Rattle.mm_bson.specs.Walk.{document_in};
ghost use Rattle.mm_bucket.specs.Pairs.{IsKey};
ghost use Rattle.mm_btree.specs.Trees.{Sub};
ghost use Rattle.mm_btree.specs.Lists.{ins};
ghost use Rattle.mm_btree.specs.Order.{item_lt, IsLacking, first_with};
ghost use Rattle.mm_btree.specs.Changes.{IsTree, IsChanged, root_after, height_after};
ghost use Rattle.mm_btree.specs.Costs.{insert_asks, insert_weighs};

use crate::adding::insert_pair;
use crate::fault::TreeFault;
use crate::search::find;
use crate::store::NodeStore;
use mm_base::{DiskLoc, NoMemory};
use mm_bson::DocRef;
use mm_keys::KeySpec;
use std::alloc::Global;

/// Whether a tree of this height has a pair of an equal key.
fn has_key<S: NodeStore>(
    store: &S,
    spec: &KeySpec,
    root: DiskLoc,
    height: u32,
    key: &[u8],
) -> Result<bool, NoMemory>
    requires key { IsKey key.now }
    requires tree { (s : Sub) × IsTree (item_lt spec.now) (S.bucket_at store.now) root height s }
    ensures { IfOk result (λ there. (s : Sub) → IsTree (item_lt spec.now) (S.bucket_at store.now) root height s
        → IsTrue there ↔ IsSome (first_with spec.now (document_in key.now) s.pairs)) }
{
    let wanted = DocRef::of_spelled(key);
    match find(store, spec, root, height, &wanted)? {
        Some(_rec) => Ok(true),
        None => Ok(false),
    }
}

/// Whether a pair of this key may not go in.
fn is_taken<S: NodeStore>(
    store: &S,
    spec: &KeySpec,
    root: DiskLoc,
    height: u32,
    key: &[u8],
    unique: bool,
) -> Result<bool, NoMemory>
    requires key { IsKey key.now }
    requires tree { (s : Sub) × IsTree (item_lt spec.now) (S.bucket_at store.now) root height s }
    ensures { IfOk result (λ taken. (s : Sub) → IsTree (item_lt spec.now) (S.bucket_at store.now) root height s
        → IsTrue taken ↔ (IsTrue unique × IsSome (first_with spec.now (document_in key.now) s.pairs))) }
{
    if unique {
        return has_key(store, spec, root, height, key);
    }
    Ok(false)
}

/// Puts a pair into a tree of this height that hasn't it: the list has it in its place. Where there is a new root, its place is given, and
/// the tree is one higher. `Duplicate` exactly where the index is unique and a pair of an equal key stands there, which is then one of
/// another record; the store is as it was. `NoSpace` only where the store is full. After `NoSpace` and `NoMemory` the store is to be
/// dropped.
pub fn insert<S: NodeStore>(
    alloc: Global,
    store: &mut S,
    spec: &KeySpec,
    root: DiskLoc,
    height: u32,
    key: &[u8],
    rec: DiskLoc,
    unique: bool,
) -> Result<Option<DiskLoc>, TreeFault>
    requires key { IsKey key.now }
    requires tree { (s : Sub) × IsTree (item_lt spec.now) (S.bucket_at store.old) root height s × IsLacking spec.now (record { key = key.now; rec = rec }) s.pairs }
    ensures ok { IfOk result (λ r. (s : Sub) → IsTree (item_lt spec.now) (S.bucket_at store.old) root height s → IsLacking spec.now (record { key = key.now; rec = rec }) s.pairs
        → (t : Sub) × IsChanged (item_lt spec.now) (S.bucket_at store.old) (S.bucket_at store.new) (root_after root r) (height_after height r) s
        (ins (item_lt spec.now) (record { key = key.now; rec = rec }) s.pairs) t) }

    // An equal key is refused, and only that.
    ensures alone { OnOk result ((s : Sub) → IsTree (item_lt spec.now) (S.bucket_at store.old) root height s → IsTrue unique
        → IsSome (first_with spec.now (document_in key.now) s.pairs) → ⊥) }
    ensures duplicate { IsErrOf result TreeFault.Duplicate → (s : Sub) → IsTree (item_lt spec.now) (S.bucket_at store.old) root height s
        → IsTrue unique × IsSome (first_with spec.now (document_in key.now) s.pairs) }
    ensures kept { IsErrOf result TreeFault.Duplicate → store.new ≡ store.old }
    ensures full { IsErrOf result TreeFault.NoSpace → S.is_full store.new }
    ensures stays { S.beside store.new ≡ S.beside store.old }
    ensures asked { S.asked store.new ≤ S.asked store.old + insert_asks height }
    ensures weight { S.declared store.new ≤ S.declared store.old + insert_weighs height }
{
    if is_taken(store, spec, root, height, key, unique)? {
        return Err(TreeFault::Duplicate);
    }
    insert_pair(alloc, store, spec, root, height, key, rec)
}
