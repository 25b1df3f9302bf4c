//! The files of a new database.

ghost use Rattle.std.specs.Prelude.{◌≡◌, ◌≢◌, ◌≤◌, ◌<◌, ◌*◌, ℕ, false, None, OnOk, IfOk, length, count_by, replicate};
ghost use Rattle.std.specs.FinMap.{get, empty, insert};
ghost use Rattle.mm_frames.specs.declared.details.Details.{Details};
ghost use Rattle.mm_nstable.specs.Nodes.{IsTable, nodes_of, node_at, count_of, is_free};
ghost use Rattle.mm_nstable.specs.Table.{Held, table_of};
ghost use Rattle.mm_nstable.specs.FreeChain.{IsFreeName};
ghost use Rattle.mm_extents.specs.Changes.{len_of, DeclaresAtMost};
ghost use Rattle.mm_extents.specs.Files.{HasNamesAlone};
ghost use Rattle.mm_records.specs.Constants.{is_collection};
ghost use Rattle.mm_records.specs.Stands.{ns_in};
ghost use Rattle.mm_namespaces.specs.Fresh.{IsFresh, IsNew};

use crate::fresh::put_fresh;
use mm_base::{Name, NoMemory};
use mm_extents::make_first;
use mm_nstable::NsFault;
use mm_views::{Draft, NS_FILE};

// How many bytes a MiB has.
const MIB: u32 = 1_048_576;

// Makes `.ns`, of so many MiB of zeros.
fn make_names(draft: &mut Draft, ns_mib: u32) -> Result<(), NoMemory>
    requires none { (file : ℕ) → get draft.old.image file ≡ None }
    requires least { 1 ≤ ns_mib }
    requires most { ns_mib ≤ 16 }
    ensures alone { OnOk result (HasNamesAlone draft.new.image) }
    ensures zeros { OnOk result (ns_in draft.new.image ≡ replicate (ns_mib * 1048576) 0) }
    ensures weight { DeclaresAtMost 12 draft.old draft.new }
{
    draft.add_file(NS_FILE, ns_mib * MIB)
}

// Puts a namespace without extents under a name that isn't there, where a node is free.
fn put_name(draft: &mut Draft, name: &Name) -> Result<u32, NoMemory>
    requires table { IsTable (ns_in draft.old.image) }
    requires absent { get (table_of (ns_in draft.old.image)) name.now ≡ None }
    requires kind { is_collection name.now ≡ false }
    requires room { count_by is_free (nodes_of (ns_in draft.old.image)) ≡ 0 → ⊥ }
    ensures kept { IsTable (ns_in draft.new.image) }
    ensures put { IfOk result (λ node. (details : Details) × (IsFresh name.now details
        × (table_of (ns_in draft.new.image) ≡ insert (table_of (ns_in draft.old.image)) name.now (record { node = node; details = details })))) }
    ensures others { IfOk result (λ node. (k : ℕ) → k < count_of (ns_in draft.old.image) → k ≢ node → node_at (ns_in draft.new.image) k ≡ node_at (ns_in draft.old.image) k) }
    ensures lengths { OnOk result ((file : ℕ) → len_of draft.new.image file ≡ len_of draft.old.image file) }
    ensures weight { DeclaresAtMost 640 draft.old draft.new }
{
    match put_fresh(draft, name, false) {
        Ok(node) => Ok(node),
        Err(NsFault::NsFull) => unreachable!(),
        Err(NsFault::NoMemory) => Err(NoMemory),
    }
}

/// Makes the files of a new database in a draft without files: `.ns` of so many MiB, with the nodes of the chain of free extents and of the
/// list of indexes, and data file 0, without extents. After an error the draft is to be dropped.
pub fn set_up(draft: &mut Draft, free: &Name, indexes: &Name, ns_mib: u32) -> Result<(), NoMemory>
    requires none { (file : ℕ) → get draft.old.image file ≡ None }
    requires least { 1 ≤ ns_mib }
    requires most { ns_mib ≤ 16 }
    requires free_name { IsFreeName free.now }
    requires free_kind { is_collection free.now ≡ false }
    requires indexes_name { IsFreeName indexes.now → ⊥ }
    requires indexes_kind { is_collection indexes.now ≡ false }
    ensures new { OnOk result (IsNew draft.new.image free.now) }
    ensures table { OnOk result ((a b : Held) × (IsFresh free.now a.details × (IsFresh indexes.now b.details
        × (table_of (ns_in draft.new.image) ≡ insert (insert empty free.now a) indexes.now b)))) }
    ensures len { OnOk result (length (ns_in draft.new.image) ≡ ns_mib * 1048576) }
    ensures weight { DeclaresAtMost 1340 draft.old draft.new }
{
    make_names(draft, ns_mib)?;
    put_name(draft, free)?;
    put_name(draft, indexes)?;
    make_first(draft)
}
