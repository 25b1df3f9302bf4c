//! The calls on an index, each at a draft in which it lists some pairs.

ghost use Rattle.std.specs.Prelude.{IfOk, OnOk};
ghost use Rattle.mm_bson.specs.Spelling.{spelling};
ghost use Rattle.mm_bucket.specs.Pairs.{IsKey};
ghost use Rattle.mm_rows_trees.specs.Ready.{IsBare, AreReady, HasSome};

use crate::files::ready;
use mm_base::{DiskLoc, NoMemory};
use mm_bson::Doc;
use mm_btree::TreeFault;
use mm_keys::KeySpec;
use mm_nstable::details;
use mm_query::Bounds;
use mm_records::RecordStore;
use mm_trees::Tree;
use mm_views::Draft;
use std::alloc::Global;

/// `{"a": 1}`.
const SPEC: [u8; 12] = *b"\x0c\0\0\0\x10a\0\x01\0\0\0\0";

// The specification of one field, rising.
fn rising_spec(alloc: Global) -> Result<KeySpec, NoMemory> {
    let Ok(document) = Doc::parse(alloc, &SPEC) else {
        return Err(NoMemory);
    };
    match KeySpec::from_doc(alloc, &document) {
        Ok(spec) => Ok(spec),
        Err(_) => Err(NoMemory),
    }
}

// Makes an index at the first position of a collection.
fn made_at(draft: &mut Draft, nodes: (u32, u32), spec: KeySpec) -> Result<Tree, NoMemory>
    requires { AreReady draft.old.image nodes.0 nodes.1 }
    ensures { IfOk result (λ tree. HasSome draft.new.image tree.store.node tree.owner tree.position tree.spec) }
{
    let tree = Tree::at(RecordStore::at(nodes.0), nodes.1, 0, spec);
    match tree.make(draft) {
        Ok(_) => Ok(tree),
        Err(_) => Err(NoMemory),
    }
}

/// Makes a collection and an index of it.
pub(crate) fn made(alloc: Global, draft: &mut Draft) -> Result<Tree, NoMemory>
    requires { IsBare draft.old.image }
    ensures { IfOk result (λ tree. HasSome draft.new.image tree.store.node tree.owner tree.position tree.spec) }
{
    let spec = rising_spec(alloc)?;
    let nodes = ready(draft)?;
    made_at(draft, nodes, spec)
}

/// Puts a pair in; false where it was there, and then it is out.
pub(crate) fn put(
    alloc: Global,
    draft: &mut Draft,
    tree: &Tree,
    key: &Doc,
    rec: DiskLoc,
) -> Result<bool, TreeFault>
    requires key { IsKey (spelling key.now) }
    requires index { HasSome draft.old.image tree.now.store.node tree.now.owner tree.now.position tree.now.spec }
    ensures { OnOk result (HasSome draft.new.image tree.now.store.node tree.now.owner tree.now.position tree.now.spec) }
{
    if tree.remove(alloc, draft, key, rec)? {
        return Ok(false);
    }
    tree.insert(alloc, draft, key, rec, false)?;
    Ok(true)
}

/// Puts a pair in that isn't there, as of a unique index; false where it is refused, since a pair of an equal key stands there.
pub(crate) fn put_alone(
    alloc: Global,
    draft: &mut Draft,
    tree: &Tree,
    key: &Doc,
    rec: DiskLoc,
) -> Result<bool, TreeFault>
    requires key { IsKey (spelling key.now) }
    requires index { HasSome draft.old.image tree.now.store.node tree.now.owner tree.now.position tree.now.spec }
    ensures { OnOk result (HasSome draft.new.image tree.now.store.node tree.now.owner tree.now.position tree.now.spec) }
{
    if tree.remove(alloc, draft, key, rec)? {
        return Err(TreeFault::NoMemory);
    }
    match tree.insert(alloc, draft, key, rec, true) {
        Ok(()) => Ok(true),
        Err(TreeFault::Duplicate) => Ok(false),
        Err(fault) => Err(fault),
    }
}

/// Takes a pair out; false where it wasn't there.
pub(crate) fn taken(
    alloc: Global,
    draft: &mut Draft,
    tree: &Tree,
    key: &Doc,
    rec: DiskLoc,
) -> Result<bool, TreeFault>
    requires key { IsKey (spelling key.now) }
    requires index { HasSome draft.old.image tree.now.store.node tree.now.owner tree.now.position tree.now.spec }
    ensures { OnOk result (HasSome draft.new.image tree.now.store.node tree.now.owner tree.now.position tree.now.spec) }
{
    tree.remove(alloc, draft, key, rec)
}

/// The records of all pairs, in their order.
pub(crate) fn listed(alloc: Global, draft: &Draft, tree: &Tree) -> Result<Vec<DiskLoc>, NoMemory>
    requires { HasSome draft.now.image tree.now.store.node tree.now.owner tree.now.position tree.now.spec }
{
    let mut out = Vec::new(alloc);
    tree.walk(draft, &mut out)?;
    Ok(out)
}

/// The records of the pairs whose keys lie between two bounds, in their order.
pub(crate) fn ranged(
    alloc: Global,
    draft: &Draft,
    tree: &Tree,
    bounds: &Bounds,
) -> Result<Vec<DiskLoc>, NoMemory>
    requires { HasSome draft.now.image tree.now.store.node tree.now.owner tree.now.position tree.now.spec }
{
    let mut out = Vec::new(alloc);
    tree.range(draft, bounds, &mut out)?;
    Ok(out)
}

/// How many buckets the index has.
pub(crate) fn buckets(draft: &Draft, tree: &Tree) -> i64
    requires { HasSome draft.now.image tree.now.store.node tree.now.owner tree.now.position tree.now.spec }
{
    details(draft, tree.store.node).nrecords
}
