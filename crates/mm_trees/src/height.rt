//! How high a tree is.

ghost use Rattle.std.specs.Prelude.{◌≡◌, ℕ, ◌≤◌, IfOk};
ghost use Rattle.mm_btree.specs.Trees.{Sub};
ghost use Rattle.mm_trees.specs.Indexes.{IsRooted};

use mm_base::{DiskLoc, NoMemory};
use mm_btree::NodeStore;

/// How many levels below the root of a tree its leaves are: one bucket of each level is read. There are no more than 64, since a tree of
/// height h has 2^h buckets at different places.
pub fn height_of<S: NodeStore>(store: &S, root: DiskLoc) -> Result<u32, NoMemory>
    requires { (h : ℕ) × ((s : Sub) × IsRooted (S.bucket_at store.now) root h s) }
    ensures is { IfOk result (λ r. (h : ℕ) (s : Sub) → IsRooted (S.bucket_at store.now) root h s → r ≡ h) }
    ensures low { IfOk result (λ r. r ≤ 64) }
{
    let mut at = root;
    for level in 0..65_u32 {
        let bucket = store.read(at)?;
        if bucket.next().is_null() {
            return Ok(level);
        }
        at = bucket.child(0);
    }
    unreachable!()
}
