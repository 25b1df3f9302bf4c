//! Where the buckets of an index lie.

ghost use Rattle.std.specs.Prelude.{◌≡◌, ℕ, ◌+◌, ◌≤◌, Option, Some, None, IsSome, IfOk, OnOk, IsErrOf};
ghost use Rattle.mm_base.specs.Places.{null};
ghost use Rattle.mm_base.specs.declared.place.DiskLoc.{DiskLoc as Place};
ghost use Rattle.mm_bucket.specs.Rules.{children, AreAlike};
ghost use Rattle.mm_btree.specs.Nodes.{Node, node_of, put, with_parent};

use crate::fault::TreeFault;
use mm_base::{DiskLoc, NoMemory};
use mm_bucket::Bucket;

/// A map from places to buckets. A place has a bucket where the bytes there spell one of which all children are null, or none is; the null
/// place has none.
pub trait NodeStore {
    /// The bucket at a place.
    ghost bucket_at: { Self → Place → Option Node };

    /// No bucket more has room.
    ghost is_full: { Self → Type 0 };

    /// What a store has beside its buckets, as what it was made of. No call changes it, not even one that gives up.
    ghost Beside: { Type 0 };

    ghost beside: { Self → Self.Beside };

    /// How many places were asked for so far, one that was refused included.
    ghost asked: { Self → ℕ };

    /// How much the changes weigh so far: a range its length and 12 (an upper bound).
    ghost declared: { Self → ℕ };

    /// The bucket at a place that has one.
    fn read(&self, at: DiskLoc) -> Result<Bucket, NoMemory>
        requires { IsSome (bucket_at self.now at) }
        ensures bucket { IfOk result (λ b. bucket_at self.now at ≡ Some (node_of b)) }
        ensures alike { IfOk result (λ b. AreAlike (children b)) }
        ensures place { OnOk result (at ≡ null → ⊥) };

    /// Writes a bucket in the stead of the one that is there, all of its bytes.
    fn write(&mut self, at: DiskLoc, bucket: &Bucket) -> Result<(), NoMemory>
        requires there { IsSome (bucket_at self.old at) }
        requires alike { AreAlike (children bucket.now) }
        ensures same { OnOk result ((q : Place) → bucket_at self.new q ≡ put (bucket_at self.old) at (Some (node_of bucket.now)) q) }
        ensures stays { beside self.new ≡ beside self.old }
        ensures asked { asked self.new ≡ asked self.old }
        ensures weight { declared self.new ≤ declared self.old + 8204 };

    /// Writes the parent of the bucket that is there, these bytes alone.
    fn set_parent(&mut self, at: DiskLoc, up: DiskLoc) -> Result<(), NoMemory>
        requires { IsSome (bucket_at self.old at) }
        ensures same { OnOk result ((q : Place) → bucket_at self.new q ≡ put (bucket_at self.old) at (with_parent up (bucket_at self.old at)) q) }
        ensures stays { beside self.new ≡ beside self.old }
        ensures asked { asked self.new ≡ asked self.old }
        ensures weight { declared self.new ≤ declared self.old + 20 };

    /// Takes a place that no bucket has, and writes a bucket there.
    fn add(&mut self, bucket: &Bucket) -> Result<DiskLoc, TreeFault>
        requires { AreAlike (children bucket.now) }
        ensures free { IfOk result (λ at. bucket_at self.old at ≡ None) }
        ensures place { IfOk result (λ at. at ≡ null → ⊥) }
        ensures same { IfOk result (λ at. (q : Place) → bucket_at self.new q ≡ put (bucket_at self.old) at (Some (node_of bucket.now)) q) }
        ensures full { IsErrOf result TreeFault.NoSpace → is_full self.new }
        ensures other { IsErrOf result TreeFault.Duplicate → ⊥ }
        ensures stays { beside self.new ≡ beside self.old }
        ensures asked { asked self.new ≡ asked self.old + 1 }
        ensures weight { declared self.new ≤ declared self.old + 10704 };

    /// Gives the place of a bucket back.
    fn free(&mut self, at: DiskLoc) -> Result<(), NoMemory>
        requires { IsSome (bucket_at self.old at) }
        ensures same { OnOk result ((q : Place) → bucket_at self.new q ≡ put (bucket_at self.old) at None q) }
        ensures stays { beside self.new ≡ beside self.old }
        ensures asked { asked self.new ≡ asked self.old }
        ensures weight { declared self.new ≤ declared self.old + 912 };
}
