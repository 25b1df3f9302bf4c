//! The pairs of a tree in a draft, which is lent to a store for the time of a call.

ghost use Rattle.std.specs.Prelude.{◌≡◌, ℕ, List, Some, None, IfOk, OnOk, IsErrOf};
ghost use Rattle.mm_base.specs.declared.place.DiskLoc.{DiskLoc as Place};
ghost use Rattle.mm_bucket.specs.Pairs.{IsKey};
ghost use Rattle.mm_extents.specs.Changes.{DeclaresAtMost};
ghost use Rattle.mm_records.specs.Shape.{Shape};
ghost use Rattle.mm_btree.specs.Trees.{Sub};
ghost use Rattle.mm_btree.specs.Order.{item_lt, IsLacking};
ghost use Rattle.mm_btree.specs.Changes.{IsTree};
ghost use Rattle.mm_btree.specs.Costs.{insert_weighs, remove_weighs};
ghost use Rattle.mm_trees.specs.Buckets.{Holds, Goes, IsFull, IsScarce, bucket_in};
ghost use Rattle.mm_trees.specs.Costs.{most_places};
ghost use Rattle.mm_trees.specs.Changes.{OfHeight, IsPutIn, IsTwice, IsntTwice, IsTaken, IsThere};

use crate::changes::{put_in, take_out};
use crate::store::Store;
use mm_base::DiskLoc;
use mm_btree::TreeFault;
use mm_keys::KeySpec;
use mm_views::{Draft, Views};
use std::alloc::Global;
use std::mem;

/// Puts a pair into a tree of the node's buckets that hasn't it, and gives the new root, where there is one.
pub fn put_pair(
    alloc: Global,
    draft: &mut Draft,
    node: u32,
    spec: &KeySpec,
    root: DiskLoc,
    key: &[u8],
    rec: DiskLoc,
    unique: bool,
) -> Result<Option<DiskLoc>, TreeFault>
    requires key { IsKey key.now }
    requires holds { (free : List ℕ) × ((s : Shape) × Holds draft.old.image free s node) }
    requires tree { (h : ℕ) × ((s : Sub) × (IsTree (item_lt spec.now) (bucket_in draft.old.image node) root h s × IsLacking spec.now (record { key = key.now; rec = rec }) s.pairs)) }
    ensures ok { IfOk result (IsPutIn spec.now (bucket_in draft.old.image node) (bucket_in draft.new.image node) root (record { key = key.now; rec = rec })) }
    ensures goes { OnOk result (Goes draft.old.image draft.new.image node most_places) }
    ensures alone { OnOk result (IsntTwice spec.now (bucket_in draft.old.image node) root key.now unique) }
    ensures duplicate { IsErrOf result TreeFault.Duplicate → IsTwice spec.now (bucket_in draft.old.image node) root key.now unique }
    ensures kept { IsErrOf result TreeFault.Duplicate → draft.new ≡ draft.old }
    ensures full { IsErrOf result TreeFault.NoSpace → IsFull draft.old.image draft.new.image node }
    ensures scarce { IsErrOf result TreeFault.NoSpace → IsScarce draft.old.image node most_places }
    ensures weight { OfHeight spec.now (bucket_in draft.old.image node) root (λ h. DeclaresAtMost (insert_weighs h) draft.old draft.new) }
{
    let lent = mem::replace(draft, Views::new(alloc).draft());
    let mut store = Store::new(lent, node);
    let result = put_in(alloc, &mut store, spec, root, key, rec, unique);
    *draft = store.into_draft();
    result
}

/// Takes a pair out of a tree of the node's buckets, and gives the root that the tree then has. `None` exactly where it isn't there; then
/// nothing has changed.
pub fn take_pair(
    alloc: Global,
    draft: &mut Draft,
    node: u32,
    spec: &KeySpec,
    root: DiskLoc,
    key: &[u8],
    rec: DiskLoc,
) -> Result<Option<DiskLoc>, TreeFault>
    requires key { IsKey key.now }
    requires holds { (free : List ℕ) × ((s : Shape) × Holds draft.old.image free s node) }
    requires tree { (h : ℕ) × ((s : Sub) × IsTree (item_lt spec.now) (bucket_in draft.old.image node) root h s) }
    ensures out { IfOk result (λ r. (after : Place) → r ≡ Some after → IsTaken spec.now (bucket_in draft.old.image node) (bucket_in draft.new.image node) root (record { key = key.now; rec = rec }) after) }
    ensures goes { IfOk result (λ r. (after : Place) → r ≡ Some after → Goes draft.old.image draft.new.image node most_places) }
    ensures there { IfOk result (IsThere spec.now (bucket_in draft.old.image node) root (record { key = key.now; rec = rec })) }
    ensures kept { IfOk result (λ r. r ≡ None → draft.new ≡ draft.old) }
    ensures full { IsErrOf result TreeFault.NoSpace → IsFull draft.old.image draft.new.image node }
    ensures scarce { IsErrOf result TreeFault.NoSpace → IsScarce draft.old.image node most_places }
    ensures weight { OfHeight spec.now (bucket_in draft.old.image node) root (λ h. DeclaresAtMost (remove_weighs h) draft.old draft.new) }
    ensures other { IsErrOf result TreeFault.Duplicate → ⊥ }
{
    let lent = mem::replace(draft, Views::new(alloc).draft());
    let mut store = Store::new(lent, node);
    let result = take_out(alloc, &mut store, spec, root, key, rec);
    *draft = store.into_draft();
    result
}
