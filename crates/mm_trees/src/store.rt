//! A draft as a store of the buckets of a node.

ghost use Rattle.std.specs.Prelude.{◌≡◌, ℕ, List, false};
ghost use Rattle.mm_records.specs.Shape.{Shape};
ghost use Rattle.mm_views.specs.State.{Drafting};
ghost use Rattle.mm_trees.specs.Buckets.{Holds};
ghost use Rattle.mm_trees.specs.Kept.{IsKept, asked_of, bucket_of, is_full_of, start_of, weight_of};

use crate::asked::Asked;
use crate::buckets::{add_bucket, bucket_at, free_bucket, write_bucket, write_parent};
use mm_base::{DiskLoc, NoMemory};
use mm_btree::{NodeStore, TreeFault};
use mm_bucket::Bucket;
use mm_records::SpaceFault;
use mm_views::Draft;
use std::marker::Model;
use std::snapshot::Snapshot;

/// The buckets of a node in a draft that may be changed, and how many places were asked for. Once a call gives up it has none.
#[derive(Drop)]
pub struct Store {
    draft: Draft,
    node: u32,
    // a call gave up
    broken: bool,
    // the draft as it was
    start: Snapshot<Draft>,
    asked: Asked,
}

impl Model for Store {
    ghost use Rattle.mm_trees.specs.Asked.{places_asked};
    ghost use Rattle.mm_trees.specs.Kept.{Kept, kept_code, IsKept};

    ghost Value = { Kept };

    ghost coded = { kept_code };

    ghost view = { λ s. record { draft = s.draft; node = s.node; broken = s.broken; start = s.start.value; asked = places_asked s.asked } };

    ghost invariant = { λ s. IsKept (record { draft = s.draft; node = s.node; broken = s.broken; start = s.start.value; asked = places_asked s.asked }) };
}

impl Store {
    /// The buckets of a node, each of whose records is one.
    pub fn new(draft: Draft, node: u32) -> Store
        requires { (free : List ℕ) × ((s : Shape) × Holds draft.image free s node) }
        ensures { result ≡ record { draft = draft; node = node; broken = false; start = draft; asked = 0 } }
    {
        let start = Snapshot::of(&draft);
        Store {
            draft,
            node,
            broken: false,
            start,
            asked: Asked::none(),
        }
    }

    /// The draft. Where no call gave up, the files hold buckets, as far as those of the start did, and all else is as it was there.
    pub fn into_draft(self) -> Draft
        ensures draft { result ≡ self.draft }
        ensures kept { IsKept self }
    {
        let Store {
            draft,
            node: _,
            broken: _,
            start: _,
            asked: _,
        } = self;
        draft
    }
}

impl NodeStore for Store {
    ghost bucket_at = { bucket_of };

    ghost is_full = { is_full_of };

    ghost Beside = { Drafting × ℕ };

    ghost beside = { start_of };

    ghost asked = { asked_of };

    ghost declared = { weight_of };

    fn read(&self, at: DiskLoc) -> Result<Bucket, NoMemory> {
        Ok(bucket_at(&self.draft, self.node, at))
    }

    fn write(&mut self, at: DiskLoc, bucket: &Bucket) -> Result<(), NoMemory> {
        self.broken = true;
        write_bucket(&mut self.draft, self.node, at, bucket)?;
        self.broken = false;
        Ok(())
    }

    fn set_parent(&mut self, at: DiskLoc, up: DiskLoc) -> Result<(), NoMemory> {
        self.broken = true;
        write_parent(&mut self.draft, self.node, at, up)?;
        self.broken = false;
        Ok(())
    }

    fn add(&mut self, bucket: &Bucket) -> Result<DiskLoc, TreeFault> {
        self.asked = self.asked.and_one();
        if self.broken {
            return Err(TreeFault::NoMemory);
        }
        self.broken = true;
        match add_bucket(&mut self.draft, self.node, bucket) {
            Ok(at) => {
                self.broken = false;
                Ok(at)
            }
            Err(SpaceFault::NoSpace) => Err(TreeFault::NoSpace),
            Err(SpaceFault::NoMemory) => Err(TreeFault::NoMemory),
        }
    }

    fn free(&mut self, at: DiskLoc) -> Result<(), NoMemory> {
        self.broken = true;
        free_bucket(&mut self.draft, self.node, at)?;
        self.broken = false;
        Ok(())
    }
}
