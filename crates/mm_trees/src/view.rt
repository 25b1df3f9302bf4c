//! A draft that is only read, as the buckets of a node.

ghost use Rattle.std.specs.Prelude.{◌≡◌, ℕ, List};
ghost use Rattle.mm_records.specs.Shape.{Shape};
ghost use Rattle.mm_views.specs.State.{weight_in};
ghost use Rattle.mm_trees.specs.Buckets.{Holds, bucket_in};

use crate::asked::Asked;
use crate::buckets::bucket_at;
use mm_base::{DiskLoc, NoMemory};
use mm_btree::{NodeStore, TreeFault};
use mm_bucket::Bucket;
use mm_views::Draft;
use std::marker::Model;

/// The buckets of a node in a draft that is only read. What would change them gives up.
#[derive(Drop)]
pub struct View<'a> {
    draft: &'a Draft,
    node: u32,
    asked: Asked,
}

impl<'a> Model for View<'a> {
    ghost use Rattle.std.specs.Prelude.{ℕ, List};
    ghost use Rattle.std.specs.Coded.{coded×, coded_ℕ};
    ghost use Rattle.mm_records.specs.Shape.{Shape};
    ghost use Rattle.mm_trees.specs.Asked.{places_asked};
    ghost use Rattle.mm_trees.specs.Buckets.{Holds};
    ghost use Rattle.mm_views.specs.State.{Drafting};
    ghost use Rattle.mm_views.specs.Codes.{drafting_code};

    ghost Value = { Drafting × (ℕ × ℕ) };

    ghost coded = { coded× drafting_code (coded× coded_ℕ coded_ℕ) };

    ghost view = { λ v. (v.draft.now, (v.node, places_asked v.asked)) };

    ghost invariant = { λ v. (free : List ℕ) × ((s : Shape) × Holds v.draft.now.image free s v.node) };
}

impl<'a> View<'a> {
    /// The buckets of a node, each of whose records is one.
    pub fn new(draft: &'a Draft, node: u32) -> View<'a>
        requires { (free : List ℕ) × ((s : Shape) × Holds draft.now.image free s node) }
        ensures { result ≡ (draft.now, (node, 0)) }
    {
        View {
            draft,
            node,
            asked: Asked::none(),
        }
    }
}

impl<'a> NodeStore for View<'a> {
    ghost bucket_at = { λ v at. bucket_in v.0.image v.1.0 at };

    ghost is_full = { λ _. ⊥ };

    ghost Beside = { Unit {0} };

    ghost beside = { λ _. tt };

    ghost asked = { λ v. v.1.1 };

    ghost declared = { λ v. weight_in v.0.made v.0.declared };

    fn read(&self, at: DiskLoc) -> Result<Bucket, NoMemory> {
        Ok(bucket_at(self.draft, self.node, at))
    }

    fn write(&mut self, _at: DiskLoc, _bucket: &Bucket) -> Result<(), NoMemory> {
        Err(NoMemory)
    }

    fn set_parent(&mut self, _at: DiskLoc, _up: DiskLoc) -> Result<(), NoMemory> {
        Err(NoMemory)
    }

    fn add(&mut self, _bucket: &Bucket) -> Result<DiskLoc, TreeFault> {
        self.asked = self.asked.and_one();
        Err(TreeFault::NoMemory)
    }

    fn free(&mut self, _at: DiskLoc) -> Result<(), NoMemory> {
        Err(NoMemory)
    }
}
