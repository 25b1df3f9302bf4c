//! The buckets of a node, as records of a draft.

ghost use Rattle.std.specs.Prelude.{◌≡◌, ℕ, List, None, Some, IsSome, IfOk, OnOk, IsErrOf};
ghost use Rattle.mm_base.specs.Places.{null};
ghost use Rattle.mm_bucket.specs.Rules.{children, AreAlike};
ghost use Rattle.mm_btree.specs.Nodes.{node_of, put, with_parent};
ghost use Rattle.mm_records.specs.Shape.{Shape};
ghost use Rattle.mm_extents.specs.Changes.{DeclaresAtMost};
ghost use Rattle.mm_trees.specs.Buckets.{Holds, IsStep, IsFull, IsScarce, bucket_in};

use mm_base::{DiskLoc, NoMemory, put_place};
use mm_bucket::{BUCKET_LEN, Bucket};
use mm_extents::spot_of;
use mm_records::{RecordStore, Request, SpaceFault};
use mm_views::Draft;

/// The bucket at a place of the node. It takes no memory.
pub fn bucket_at(draft: &Draft, node: u32, at: DiskLoc) -> Bucket
    requires { (free : List ℕ) × ((s : Shape) × (Holds draft.now.image free s node × IsSome (bucket_in draft.now.image node at))) }
    ensures bucket { bucket_in draft.now.image node at ≡ Some (node_of result) }
    ensures alike { AreAlike (children result) }
    ensures place { at ≡ null → ⊥ }
{
    let _node = node;
    let spot = spot_of(at);
    let mut bytes = [0; BUCKET_LEN];
    draft.read(spot.file, spot.ofs + 16, &mut bytes);
    match Bucket::spelled(&bytes) {
        Some(bucket) => bucket,
        None => unreachable!(),
    }
}

/// Writes a bucket in the stead of the one that is there: its 8192 bytes are declared.
pub fn write_bucket(
    draft: &mut Draft,
    node: u32,
    at: DiskLoc,
    bucket: &Bucket,
) -> Result<(), NoMemory>
    requires there { (free : List ℕ) × ((s : Shape) × (Holds draft.old.image free s node × IsSome (bucket_in draft.old.image node at))) }
    requires alike { AreAlike (children bucket.now) }
    ensures step { OnOk result (IsStep draft.old.image draft.new.image node 0 (put (bucket_in draft.old.image node) at (Some (node_of bucket.now)))) }
    ensures weight { DeclaresAtMost 8204 draft.old draft.new }
{
    let records = RecordStore { node };
    records.write_inside(draft, at, 0, bucket.bytes())?;
    Ok(())
}

/// Puts the bucket that is there under another parent: these 8 bytes alone are declared.
pub fn write_parent(draft: &mut Draft, node: u32, at: DiskLoc, up: DiskLoc) -> Result<(), NoMemory>
    requires { (free : List ℕ) × ((s : Shape) × (Holds draft.old.image free s node × IsSome (bucket_in draft.old.image node at))) }
    ensures step { OnOk result (IsStep draft.old.image draft.new.image node 0 (put (bucket_in draft.old.image node) at (with_parent up (bucket_in draft.old.image node at)))) }
    ensures weight { DeclaresAtMost 20 draft.old draft.new }
{
    let mut bytes = [0; 8];
    put_place(&mut bytes, 0, up);
    let records = RecordStore { node };
    records.write_inside(draft, at, 0, &bytes)?;
    Ok(())
}

/// Takes a place for a bucket and writes it there. `NoSpace` only where no deleted block has room for a bucket, and no extent more fits.
pub fn add_bucket(draft: &mut Draft, node: u32, bucket: &Bucket) -> Result<DiskLoc, SpaceFault>
    requires holds { (free : List ℕ) × ((s : Shape) × Holds draft.old.image free s node) }
    requires alike { AreAlike (children bucket.now) }
    ensures free { IfOk result (λ at. bucket_in draft.old.image node at ≡ None) }
    ensures place { IfOk result (λ at. at ≡ null → ⊥) }
    ensures step { IfOk result (λ at. IsStep draft.old.image draft.new.image node 1 (put (bucket_in draft.old.image node) at (Some (node_of bucket.now)))) }
    ensures full { IsErrOf result SpaceFault.NoSpace → IsFull draft.old.image draft.new.image node }
    ensures scarce { IsErrOf result SpaceFault.NoSpace → IsScarce draft.old.image node 1 }
    ensures weight { DeclaresAtMost 10704 draft.old draft.new }
{
    let records = RecordStore { node };
    let at = records.alloc(draft, Request::Bucket, bucket.bytes())?;
    Ok(at)
}

/// Gives the place of a bucket back.
pub fn free_bucket(draft: &mut Draft, node: u32, at: DiskLoc) -> Result<(), NoMemory>
    requires { (free : List ℕ) × ((s : Shape) × (Holds draft.old.image free s node × IsSome (bucket_in draft.old.image node at))) }
    ensures step { OnOk result (IsStep draft.old.image draft.new.image node 0 (put (bucket_in draft.old.image node) at None)) }
    ensures weight { DeclaresAtMost 912 draft.old draft.new }
{
    let records = RecordStore { node };
    records.free(draft, at)?;
    Ok(())
}
