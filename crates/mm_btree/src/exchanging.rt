//! A pair of a tree gives way to another.

ghost use Rattle.std.specs.Prelude.{◌≡◌, ◌+◌, ◌≤◌, IfOk, OnOk, IsErrOf};
ghost use Rattle.mm_base.specs.Places.{null};
ghost use Rattle.mm_base.specs.declared.place.DiskLoc.{DiskLoc};
ghost use Rattle.mm_bucket.specs.Pairs.{IsKey};
ghost use Rattle.mm_btree.specs.Trees.{Sub};
ghost use Rattle.mm_btree.specs.Order.{item_lt, IsLacking};
ghost use Rattle.mm_btree.specs.Changes.{StandsAt};
ghost use Rattle.mm_btree.specs.Removal.{IsExchanged};
ghost use Rattle.mm_btree.specs.Costs.{below_weighs};

use crate::carried::Carried;
use crate::fault::TreeFault;
use crate::mending::exchange;
use crate::raised::Raised;
use crate::removing::look_for;
use crate::settle::settle;
use crate::store::NodeStore;
use mm_base::DiskLoc;
use mm_keys::KeySpec;
use std::alloc::Global;

/// Puts a pair in the stead of another, which is in the subtree at a place. The caller sees to the order.
pub fn exchange_below<S: NodeStore>(
    alloc: Global,
    store: &mut S,
    spec: &KeySpec,
    at: DiskLoc,
    height: u32,
    key: &[u8],
    rec: DiskLoc,
    new: &Carried,
) -> Result<Option<Raised>, TreeFault>
    requires key { IsKey key.now }
    requires stands { (up : DiskLoc) × (s : Sub) × StandsAt (item_lt spec.now) (S.bucket_at store.old) up height s at × (IsLacking spec.now (record { key = key.now; rec = rec }) s.pairs → ⊥) }
    ensures ok { IfOk result (λ r. (up : DiskLoc) → IsExchanged spec.now (S.bucket_at store.old) (S.bucket_at store.new) at height (record { key = key.now; rec = rec }) new.now up r) }
    ensures place { OnOk result (at ≡ null → ⊥) }
    ensures full { IsErrOf result TreeFault.NoSpace → S.is_full store.new }
    ensures other { IsErrOf result TreeFault.Duplicate → ⊥ }
    ensures stays { S.beside store.new ≡ S.beside store.old }
    ensures asked { S.asked store.new ≤ S.asked store.old + (height + 1) }
    ensures weight { S.declared store.new ≤ S.declared store.old + below_weighs height }
{
    let bucket = store.read(at)?;
    match look_for(&bucket, key, rec, spec) {
        Ok(place) => exchange(alloc, store, at, bucket, place, new),
        Err(place) => {
            if height == 0 {
                return Ok(None);
            }
            let kid = bucket.child(place);
            match exchange_below(alloc, store, spec, kid, height - 1, key, rec, new)? {
                None => Ok(None),
                Some(up) => settle(
                    alloc,
                    store,
                    at,
                    bucket,
                    place,
                    up.key(),
                    up.rec(),
                    up.right(),
                ),
            }
        }
    }
}
