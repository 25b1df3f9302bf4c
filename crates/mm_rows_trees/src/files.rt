//! The files of a new database with a collection and the namespace of its index, in which nothing stands yet.

ghost use Rattle.std.specs.Prelude.{◌≡◌, ℕ, None, true, false, pos, IfSome, IfOk, OnOk};
ghost use Rattle.std.specs.FinMap.{get};
ghost use Rattle.mm_nstable.specs.FreeChain.{IsFreeName};
ghost use Rattle.mm_records.specs.Constants.{is_collection};
ghost use Rattle.mm_records.specs.Map.{name_at};
ghost use Rattle.mm_rows_trees.specs.Ready.{IsBare, IsOfRecords, IsNodeOf, AreReady, IsCounted};

use crate::names::{collection, free_chain, index, indexes};
use mm_base::{Name, NoMemory};
use mm_frames::Details;
use mm_namespaces::{add, set_up};
use mm_nstable::{details, find, put_details};
use mm_views::{Draft, Views};
use std::alloc::Global;

// Makes the files of a new database, `.ns` of 1 MiB.
fn set_up_files(draft: &mut Draft) -> Result<(), NoMemory>
    requires { (file : ℕ) → get draft.old.image file ≡ None }
    ensures { OnOk result (IsBare draft.new.image) }
{
    match (free_chain(), indexes()) {
        (Some(free), Some(indexes)) => set_up(draft, &free, &indexes, 1),
        _ => Err(NoMemory),
    }
}

/// A draft with the files of a new database.
pub(crate) fn begun(alloc: Global) -> Result<Draft, NoMemory>
    ensures { IfOk result (λ draft. IsBare draft.image) }
{
    let mut draft = Views::new(alloc).draft();
    set_up_files(&mut draft)?;
    Ok(draft)
}

// One more namespace.
fn namespace(draft: &mut Draft, name: &Name, collection: bool) -> Result<(), NoMemory>
    requires bare { IsBare draft.old.image }
    requires kind { is_collection name.now ≡ collection }
    requires named { IsFreeName name.now → ⊥ }
    ensures { OnOk result (IsBare draft.new.image) }
{
    if find(draft, name).is_some() {
        return Err(NoMemory);
    }
    match add(draft, name, collection) {
        Ok(_) => Ok(()),
        Err(_) => Err(NoMemory),
    }
}

// The node of a namespace that is there.
fn node_of(draft: &Draft, name: &Name) -> Option<u32>
    requires bare { IsBare draft.now.image }
    requires named { IsFreeName name.now → ⊥ }
    ensures { IfSome result (λ node. IsNodeOf draft.now.image node name.now) }
{
    find(draft, name)
}

// Details that count one index.
fn one_index(mut counts: Details) -> Details
    ensures { result ≡ record counts { n_indexes = pos 1 } }
{
    counts.n_indexes = 1;
    counts
}

// Whether details count no index.
fn lack_indexes(counts: &Details) -> bool
    ensures { result ≡ true → counts.now.n_indexes ≡ pos 0 }
{
    counts.n_indexes == 0
}

// Counts one index in the details of a collection that has none.
fn counted(draft: &mut Draft, owner: u32) -> Result<(), NoMemory>
    requires bare { IsBare draft.old.image }
    requires owner { IsOfRecords draft.old.image owner }
    requires kind { is_collection (name_at draft.old.image owner) ≡ true }
    ensures { OnOk result (IsCounted draft.old.image draft.new.image owner) }
{
    let counts = details(draft, owner);
    if !lack_indexes(&counts) {
        return Err(NoMemory);
    }
    put_details(draft, owner, &one_index(counts))
}

// The nodes of the index and of its collection.
fn nodes(draft: &mut Draft, collection: &Name, index: &Name) -> Result<(u32, u32), NoMemory>
    requires bare { IsBare draft.old.image }
    requires kind { is_collection collection.now ≡ true }
    requires index_kind { is_collection index.now ≡ false }
    requires named { IsFreeName collection.now → ⊥ }
    requires index_named { IsFreeName index.now → ⊥ }
    ensures { IfOk result (λ nodes. AreReady draft.new.image nodes.0 nodes.1) }
{
    namespace(draft, collection, true)?;
    namespace(draft, index, false)?;
    let (Some(node), Some(owner)) = (node_of(draft, index), node_of(draft, collection)) else {
        return Err(NoMemory);
    };
    counted(draft, owner)?;
    Ok((node, owner))
}

/// Makes the namespaces of a collection and of its index. It answers the nodes of the index and of the collection.
pub(crate) fn ready(draft: &mut Draft) -> Result<(u32, u32), NoMemory>
    requires { IsBare draft.old.image }
    ensures { IfOk result (λ nodes. AreReady draft.new.image nodes.0 nodes.1) }
{
    match (collection(), index()) {
        (Some(collection), Some(index)) => nodes(draft, &collection, &index),
        _ => Err(NoMemory),
    }
}
