//! An empty tree is made.

ghost use Rattle.std.specs.Prelude.{◌≡◌, ◌+◌, ◌≤◌, IfOk, IsErrOf};
ghost use Rattle.mm_btree.specs.Changes.{IsMade};
ghost use Rattle.mm_btree.specs.Costs.{place_weighs};

use crate::fault::TreeFault;
use crate::store::NodeStore;
use mm_base::DiskLoc;
use mm_bucket::Bucket;

/// Makes a tree without pairs, one bucket at a place that was free, and gives that place, its root. `NoSpace` only where the store is full.
pub fn make<S: NodeStore>(store: &mut S) -> Result<DiskLoc, TreeFault>
    ensures made { IfOk result (IsMade (S.bucket_at store.old) (S.bucket_at store.new)) }
    ensures full { IsErrOf result TreeFault.NoSpace → S.is_full store.new }
    ensures other { IsErrOf result TreeFault.Duplicate → ⊥ }
    ensures stays { S.beside store.new ≡ S.beside store.old }
    ensures asked { S.asked store.new ≤ S.asked store.old + 1 }
    ensures weight { S.declared store.new ≤ S.declared store.old + place_weighs }
{
    let root = store.add(&Bucket::new(DiskLoc::NULL))?;
    Ok(root)
}
