//! One more namespace.

ghost use Rattle.std.specs.Prelude.{◌≡◌, ◌↔◌, ℕ, List, None, IfOk, OnErr, IsErrOf, count_by};
ghost use Rattle.std.specs.FinMap.{get, insert};
ghost use Rattle.mm_frames.specs.declared.details.Details.{Details};
ghost use Rattle.mm_nstable.specs.Nodes.{nodes_of, is_free};
ghost use Rattle.mm_nstable.specs.Table.{table_of};
ghost use Rattle.mm_nstable.specs.FreeChain.{IsFreeName};
ghost use Rattle.mm_extents.specs.Changes.{DeclaresAtMost};
ghost use Rattle.mm_extents.specs.Room.{room};
ghost use Rattle.mm_records.specs.Constants.{is_collection};
ghost use Rattle.mm_records.specs.Shape.{Shape};
ghost use Rattle.mm_records.specs.Stands.{Stands, IsNode, ns_in};
ghost use Rattle.mm_records.specs.Map.{name_at};
ghost use Rattle.mm_namespaces.specs.Fresh.{IsFresh};

use crate::fresh::put_fresh;
use mm_base::Name;
use mm_nstable::NsFault;
use mm_views::Draft;

/// Puts a namespace without extents under a name that isn't there, and answers its node. `collection` says whether the name is that of a
/// collection. The room of the files stays. `NsFull` where no node is free. After an error all is as it was.
pub fn add(draft: &mut Draft, name: &Name, collection: bool) -> Result<u32, NsFault>
    requires stands { (free : List ℕ) × ((s : Shape) × Stands draft.old.image free s) }
    requires absent { get (table_of (ns_in draft.old.image)) name.now ≡ None }
    requires kind { is_collection name.now ≡ collection }
    requires isnt_free { IsFreeName name.now → ⊥ }
    ensures stands { IfOk result (λ node. (free : List ℕ) (s : Shape) → Stands draft.old.image free s → Stands draft.new.image free s) }
    ensures node { IfOk result (λ node. (free : List ℕ) (s : Shape) → Stands draft.old.image free s → IsNode draft.new.image free node) }
    ensures named { IfOk result (λ node. name_at draft.new.image node ≡ name.now) }
    ensures table { IfOk result (λ node. (details : Details) × (IsFresh name.now details
        × (table_of (ns_in draft.new.image) ≡ insert (table_of (ns_in draft.old.image)) name.now (record { node = node; details = details })))) }
    ensures full { IsErrOf result NsFault.NsFull ↔ (count_by is_free (nodes_of (ns_in draft.old.image)) ≡ 0) }
    ensures room { IfOk result (λ node. room draft.new.image ≡ room draft.old.image) }
    ensures weight { DeclaresAtMost 640 draft.old draft.new }
    ensures err { OnErr result (draft.new ≡ draft.old) }
{
    put_fresh(draft, name, collection)
}
