//! The trees of indexes.

ghost use Rattle.std.specs.Prelude.{◌≡◌, ◌+◌, ◌↔◌, ◌++◌, [], List, true, false, map, IsTrue, IsSome, IfOk, OnOk, IsErrOf};
ghost use Rattle.mm_bson.specs.Spelling.{spelling};
ghost use Rattle.mm_bson.specs.Walk.{document_in};
ghost use Rattle.mm_extents.specs.Changes.{DeclaresAtMost};
ghost use Rattle.mm_bucket.specs.Pairs.{IsKey};
ghost use Rattle.mm_btree.specs.Nodes.{Item};
ghost use Rattle.mm_btree.specs.Lists.{ins};
ghost use Rattle.mm_btree.specs.Order.{item_lt, IsLacking, first_with};
ghost use Rattle.mm_btree.specs.Listed.{rec_of, between};
ghost use Rattle.mm_btree.specs.Removal.{without};
ghost use Rattle.mm_btree.specs.Costs.{place_weighs, insert_weighs, remove_weighs};
ghost use Rattle.mm_trees.specs.Buckets.{IsFull, IsScarce};
ghost use Rattle.mm_trees.specs.Costs.{most_places, naming_weighs};
ghost use Rattle.mm_trees.specs.Roots.{root_in};
ghost use Rattle.mm_trees.specs.Indexes.{HasIndex, IsUnmade, GoesBeside};

use crate::buckets::add_bucket;
use crate::height::height_of;
use crate::lending::{put_pair, take_pair};
use crate::roots::{put_root, root_of};
use crate::view::View;
use mm_base::{DiskLoc, NoMemory};
use mm_bson::Doc;
use mm_btree::TreeFault;
use mm_bucket::Bucket;
use mm_keys::KeySpec;
use mm_query::Bounds;
use mm_records::{RecordStore, SpaceFault};
use mm_views::Draft;
use std::alloc::Global;

/// An index of a collection: the records of its node, the collection's node, the position of its pair there, and its specification.
#[derive(Drop)]
pub struct Tree {
    pub store: RecordStore,
    pub owner: u32,
    pub position: u32,
    pub spec: KeySpec,
}

impl Tree {
    /// The index at a position of a collection's node.
    pub fn at(store: RecordStore, owner: u32, position: u32, spec: KeySpec) -> Tree
        ensures { result ≡ record { store = store; owner = owner; position = position; spec = spec } }
    {
        Tree {
            store,
            owner,
            position,
            spec,
        }
    }

    /// The record of the first pair whose key is equal to this one, by the order of the specification. Two paths are read: the first one
    /// of the tree, for its height, and that of the key.
    pub fn find(&self, draft: &Draft, key: &Doc) -> Result<Option<DiskLoc>, NoMemory>
        requires { (pairs : List Item) × HasIndex draft.now.image self.now.store.node self.now.owner self.now.position self.now.spec pairs }
        ensures { IfOk result (λ r. (pairs : List Item) → HasIndex draft.now.image self.now.store.node self.now.owner self.now.position self.now.spec pairs
            → r ≡ first_with self.now.spec key.now pairs) }
    {
        let root = root_of(draft, self.owner, self.position);
        let view = View::new(draft, self.store.node);
        let height = height_of(&view, root)?;
        mm_btree::find(&view, &self.spec, root, height, &key.as_ref())
    }

    /// Puts the records of the pairs whose keys lie between the bounds behind the others, in the order of the pairs.
    pub fn range(
        &self,
        draft: &Draft,
        bounds: &Bounds,
        out: &mut Vec<DiskLoc>,
    ) -> Result<(), NoMemory>
        requires { (pairs : List Item) × HasIndex draft.now.image self.now.store.node self.now.owner self.now.position self.now.spec pairs }
        ensures { OnOk result ((pairs : List Item) → HasIndex draft.now.image self.now.store.node self.now.owner self.now.position self.now.spec pairs
            → out.new.items ≡ out.old.items ++ between self.now.spec bounds.now.low bounds.now.high pairs) }
    {
        let root = root_of(draft, self.owner, self.position);
        let view = View::new(draft, self.store.node);
        let height = height_of(&view, root)?;
        mm_btree::range(&view, &self.spec, root, height, bounds, out)
    }

    /// Puts the records of all pairs behind the others, in the order of the pairs.
    pub fn walk(&self, draft: &Draft, out: &mut Vec<DiskLoc>) -> Result<(), NoMemory>
        requires { (pairs : List Item) × HasIndex draft.now.image self.now.store.node self.now.owner self.now.position self.now.spec pairs }
        ensures { OnOk result ((pairs : List Item) → HasIndex draft.now.image self.now.store.node self.now.owner self.now.position self.now.spec pairs
            → out.new.items ≡ out.old.items ++ map rec_of pairs) }
    {
        let root = root_of(draft, self.owner, self.position);
        let view = View::new(draft, self.store.node);
        let height = height_of(&view, root)?;
        mm_btree::walk(&view, &self.spec, root, height, out)
    }

    /// Makes the index: a tree without pairs, whose root the pair then names. `NoSpace` only where the node's bucket fits nowhere, and never where
    /// the node has a deleted block for one; after an error the draft is to be dropped. It declares a bucket, what taking a place declares, and
    /// the details.
    pub fn make(&self, draft: &mut Draft) -> Result<DiskLoc, SpaceFault>
        requires { IsUnmade draft.old.image self.now.store.node self.now.owner self.now.position }
        ensures ok { OnOk result (HasIndex draft.new.image self.now.store.node self.now.owner self.now.position self.now.spec []) }
        ensures root { IfOk result (λ root. root_in draft.new.image self.now.owner self.now.position ≡ root) }
        ensures beside { OnOk result (GoesBeside draft.old.image draft.new.image self.now.store.node self.now.owner self.now.position 1) }
        ensures full { IsErrOf result SpaceFault.NoSpace → IsFull draft.old.image draft.new.image self.now.store.node }
        ensures scarce { IsErrOf result SpaceFault.NoSpace → IsScarce draft.old.image self.now.store.node 1 }
        ensures weight { DeclaresAtMost (place_weighs + naming_weighs) draft.old draft.new }
    {
        let root = add_bucket(draft, self.store.node, &Bucket::new(DiskLoc::NULL))?;
        put_root(draft, self.owner, self.position, root)?;
        Ok(root)
    }

    /// Puts a pair in its place. The key must have no names and at most 1024 bytes, and no pair of an equal key and this record may be there.
    /// `Duplicate` exactly where the index is unique and a pair of an equal key stands there; then nothing has changed. `NoSpace` only where a
    /// bucket fits nowhere, and never where the node has a deleted block for 32 buckets. After any other error the draft is to be dropped. What it
    /// declares is bounded by the tree's height.
    pub fn insert(
        &self,
        alloc: Global,
        draft: &mut Draft,
        key: &Doc,
        rec: DiskLoc,
        unique: bool,
    ) -> Result<(), TreeFault>
        requires key { IsKey (spelling key.now) }
        requires index { (pairs : List Item) × (HasIndex draft.old.image self.now.store.node self.now.owner self.now.position self.now.spec pairs
            × IsLacking self.now.spec (record { key = spelling key.now; rec = rec }) pairs) }
        ensures ok { OnOk result ((pairs : List Item) → HasIndex draft.old.image self.now.store.node self.now.owner self.now.position self.now.spec pairs
            → IsLacking self.now.spec (record { key = spelling key.now; rec = rec }) pairs
            → HasIndex draft.new.image self.now.store.node self.now.owner self.now.position self.now.spec (ins (item_lt self.now.spec) (record { key = spelling key.now; rec = rec }) pairs)) }
        ensures beside { OnOk result (GoesBeside draft.old.image draft.new.image self.now.store.node self.now.owner self.now.position most_places) }

        // An equal key is refused where the index is unique, and only that.
        ensures alone { OnOk result ((pairs : List Item) → HasIndex draft.old.image self.now.store.node self.now.owner self.now.position self.now.spec pairs
            → IsTrue unique → IsSome (first_with self.now.spec (document_in (spelling key.now)) pairs) → ⊥) }
        ensures duplicate { IsErrOf result TreeFault.Duplicate → (pairs : List Item) → HasIndex draft.old.image self.now.store.node self.now.owner self.now.position self.now.spec pairs
            → IsTrue unique × IsSome (first_with self.now.spec (document_in (spelling key.now)) pairs) }
        ensures kept { IsErrOf result TreeFault.Duplicate → draft.new ≡ draft.old }
        ensures full { IsErrOf result TreeFault.NoSpace → IsFull draft.old.image draft.new.image self.now.store.node }
        ensures scarce { IsErrOf result TreeFault.NoSpace → IsScarce draft.old.image self.now.store.node most_places }
        ensures weight { (pairs : List Item) (index : HasIndex draft.old.image self.now.store.node self.now.owner self.now.position self.now.spec pairs)
            → DeclaresAtMost (insert_weighs index.height + naming_weighs) draft.old draft.new }
    {
        let root = root_of(draft, self.owner, self.position);
        let bytes = key.bytes();
        match put_pair(
            alloc,
            draft,
            self.store.node,
            &self.spec,
            root,
            bytes,
            rec,
            unique,
        )? {
            None => Ok(()),
            Some(top) => {
                put_root(draft, self.owner, self.position, top)?;
                Ok(())
            }
        }
    }

    /// Takes the pair of an equal key and this record out; false exactly where it isn't there, and then nothing has changed. `NoSpace` only where
    /// a bucket fits nowhere, and never where the node has a deleted block for 32 buckets: a key that takes another's place above may be the longer
    /// one. After an error the draft is to be dropped. What it declares is bounded by the tree's height.
    pub fn remove(
        &self,
        alloc: Global,
        draft: &mut Draft,
        key: &Doc,
        rec: DiskLoc,
    ) -> Result<bool, TreeFault>
        requires key { IsKey (spelling key.now) }
        requires index { (pairs : List Item) × HasIndex draft.old.image self.now.store.node self.now.owner self.now.position self.now.spec pairs }
        ensures out { IfOk result (λ there. there ≡ true → (pairs : List Item) → HasIndex draft.old.image self.now.store.node self.now.owner self.now.position self.now.spec pairs
            → HasIndex draft.new.image self.now.store.node self.now.owner self.now.position self.now.spec (without self.now.spec (record { key = spelling key.now; rec = rec }) pairs)) }
        ensures beside { IfOk result (λ there. there ≡ true → GoesBeside draft.old.image draft.new.image self.now.store.node self.now.owner self.now.position most_places) }
        ensures there { IfOk result (λ there. (pairs : List Item) → HasIndex draft.old.image self.now.store.node self.now.owner self.now.position self.now.spec pairs
            → (there ≡ false) ↔ IsLacking self.now.spec (record { key = spelling key.now; rec = rec }) pairs) }
        ensures kept { IfOk result (λ there. there ≡ false → draft.new ≡ draft.old) }
        ensures full { IsErrOf result TreeFault.NoSpace → IsFull draft.old.image draft.new.image self.now.store.node }
        ensures scarce { IsErrOf result TreeFault.NoSpace → IsScarce draft.old.image self.now.store.node most_places }
        ensures weight { (pairs : List Item) (index : HasIndex draft.old.image self.now.store.node self.now.owner self.now.position self.now.spec pairs)
            → DeclaresAtMost (remove_weighs index.height + naming_weighs) draft.old draft.new }
        ensures other { IsErrOf result TreeFault.Duplicate → ⊥ }
    {
        let root = root_of(draft, self.owner, self.position);
        let bytes = key.bytes();
        match take_pair(alloc, draft, self.store.node, &self.spec, root, bytes, rec)? {
            None => Ok(false),
            Some(top) => {
                put_root(draft, self.owner, self.position, top)?;
                Ok(true)
            }
        }
    }
}
