//! A document in the making: it may be longer and deeper than one that is
//! stored. It borrows what is kept of the document and of the change.

ghost use Rattle.std.specs.Prelude.{◌≡◌, ◌++◌, ◌∷◌, [], List, ℕ, Some, None, OnOk, OnErr, OnSome, IfNone, option_map};
ghost use Rattle.mm_bson.specs.Tree.{null};
ghost use Rattle.mm_bson.specs.Path.{find};
ghost use Rattle.mm_update.specs.Edited.{with_value, without};
ghost use Rattle.mm_update.specs.declared.draft.Node.{Node as Kept};
ghost use Rattle.mm_update.specs.Drafted.{place_in, drafted, node_tree};
ghost use Rattle.mm_update.specs.Indexed.{first_named, IsIndex};

use crate::index::{Index, index_of, place_of, tell};
use mm_bson::{Doc, Value};
use std::alloc::{AllocError, Global};
use std::marker::Model;
use std::mem;

/// So many edits of a draft walk its entries; then an index is made.
const FEW_EDITS: usize = 8;

/// A document in the making, seen as its elements.
#[cycle(draft)]
#[derive(Drop)]
pub(crate) struct Draft<'a> {
    entries: Vec<Entry<'a>>,
    index: Option<Index<'a>>,
    edits: usize,
}

/// A name and what it names, or nothing where that was taken out.
#[cycle(draft)]
#[derive(Drop)]
pub(crate) struct Entry<'a> {
    pub(crate) name: &'a str,
    pub(crate) node: Option<Node<'a>>,
}

/// A value of the document or the change, a sum, null where a value was taken,
/// or a document or array in the making.
#[cycle(draft)]
#[derive(Drop)]
pub(crate) enum Node<'a> {
    Kept(&'a Value),
    Int32(i32),
    Int64(i64),
    Null,
    Document(Draft<'a>),
    Array(Vec<&'a Value>),
}

impl<'a> Model for Draft<'a> {
    ghost use Rattle.mm_bson.specs.Tree.{Elements, depth};
    ghost use Rattle.mm_bson.specs.Code.{elements_code};

    ghost Value = { Elements };

    ghost coded = { elements_code };

    ghost use Rattle.mm_update.specs.Drafted.{drafted, AreNames};
    ghost use Rattle.mm_update.specs.Indexed.{IsIndex};

    ghost view = { λ d. drafted d.entries.items };

    ghost invariant = { λ d. AreNames (drafted d.entries.items) × IsIndex d.index d.entries.items };

    ghost size = { depth };

    ghost use Rattle.std.proofs.Common.{arith};
    ghost use Rattle.mm_update.specs.DraftFalls.{draft_falls};

    ghost size_decreases = { λ d h. omega (arith, draft_falls d.entries.items) };
}

/// Takes what the first entry of the name has, and leaves null there.
fn take_in<'a>(
    entries: &mut Vec<Entry<'a>>,
    index: &Option<Index<'a>>,
    name: &str,
) -> Option<Node<'a>>
    requires { IsIndex index.now entries.old.items }
    ensures value { option_map node_tree result ≡ find name.now (drafted entries.old.items) }
    ensures some { OnSome result (drafted entries.new.items ≡ with_value name.now null (drafted entries.old.items)) }
    ensures none { IfNone result (entries.new.items ≡ entries.old.items) }
    ensures names { (q : List ℕ) → first_named q entries.new.items ≡ first_named q entries.old.items }
{
    match place_of(index, entries.as_slice(), name) {
        Some(place) => {
            let entry = &mut entries[place];
            mem::replace(&mut entry.node, Some(Node::Null))
        }
        None => None,
    }
}

/// Puts an entry behind the others.
fn push<'a>(
    entries: &mut Vec<Entry<'a>>,
    index: &mut Option<Index<'a>>,
    name: &'a str,
    node: Node<'a>,
) -> Result<(), AllocError>
    requires { IsIndex index.old entries.old.items }
    ensures ok { OnOk result (entries.new.items ≡ entries.old.items ++ record { name = name.entry; node = Some node.entry } ∷ []) }
    ensures err { OnErr result (entries.new.items ≡ entries.old.items) }
    ensures index { IsIndex index.new entries.new.items }
{
    entries.reserve(1)?;
    let place = entries.as_slice().len();
    tell(index, name, place)?;
    entries.push_reserved(Entry {
        name,
        node: Some(node),
    });
    Ok(())
}

/// Gives the entry at this place another node.
fn set<'a>(entries: &mut Vec<Entry<'a>>, name: &str, place: usize, node: Option<Node<'a>>)
    requires { place_in name.now entries.old.items ≡ Some place }
    ensures put { (n : Kept) → node.entry ≡ Some n → drafted entries.new.items ≡ with_value name.now (node_tree n) (drafted entries.old.items) }
    ensures taken { node.entry ≡ None → drafted entries.new.items ≡ without name.now (drafted entries.old.items) }
    ensures names { (q : List ℕ) → first_named q entries.new.items ≡ first_named q entries.old.items }
{
    let entry = &mut entries[place];
    entry.node = node;
}

fn put_in<'a>(
    entries: &mut Vec<Entry<'a>>,
    index: &mut Option<Index<'a>>,
    name: &'a str,
    node: Node<'a>,
) -> Result<(), AllocError>
    requires { IsIndex index.old entries.old.items }
    ensures ok { OnOk result (drafted entries.new.items ≡ with_value name.now (node_tree node.entry) (drafted entries.old.items)) }
    ensures err { OnErr result (entries.new.items ≡ entries.old.items) }
    ensures index { IsIndex index.new entries.new.items }
{
    match place_of(index, entries.as_slice(), name) {
        Some(place) => {
            set(entries, name, place, Some(node));
            Ok(())
        }
        None => push(entries, index, name, node),
    }
}

fn drop_in<'a>(entries: &mut Vec<Entry<'a>>, index: &Option<Index<'a>>, name: &str)
    requires { IsIndex index.now entries.old.items }
    ensures entries { drafted entries.new.items ≡ without name.now (drafted entries.old.items) }
    ensures names { (q : List ℕ) → first_named q entries.new.items ≡ first_named q entries.old.items }
{
    if let Some(place) = place_of(index, entries.as_slice(), name) {
        set(entries, name, place, None);
    }
}

impl<'a> Draft<'a> {
    ghost use Rattle.std.specs.Prelude.{◌≡◌, IfOk, OnOk, OnErr, OnSome, IfNone, option_map};
    ghost use Rattle.mm_bson.specs.Tree.{Tree, no_elements, element, append};
    ghost use Rattle.mm_bson.specs.View.{tree};
    ghost use Rattle.mm_bson.specs.Path.{find};
    ghost use Rattle.mm_bson.specs.Spelling.{HasNoZero};
    ghost use Rattle.mm_update.specs.Edited.{with_value, without};
    ghost use Rattle.mm_update.specs.Drafted.{node_tree, drafted, AreNames};

    /// A draft without entries. It takes no memory.
    pub(crate) fn new(alloc: Global) -> Draft<'a>
        ensures { result ≡ no_elements }
    {
        Draft {
            entries: Vec::new(alloc),
            index: None,
            edits: 0,
        }
    }

    /// A draft of a document.
    pub(crate) fn open(alloc: Global, doc: &'a Doc) -> Result<Draft<'a>, AllocError>
        ensures { IfOk result (λ d. d ≡ doc.now) }
    {
        let mut draft = Draft::new(alloc);
        let elements = doc.elements();
        for element in elements {
            draft.add(element.name.as_str(), Node::Kept(&element.value))?;
        }
        Ok(draft)
    }

    /// Puts an entry behind the others.
    pub(crate) fn add(&mut self, name: &'a str, node: Node<'a>) -> Result<(), AllocError>
        requires { HasNoZero name.now }
        ensures { OnOk result (self.new ≡ append self.old (element name.now (node_tree node.entry) no_elements)) }
    {
        push(&mut self.entries, &mut self.index, name, node)
    }

    /// The entries, in their order.
    pub(crate) fn entries(&self) -> &[Entry<'a>]
        ensures entries { drafted result.now ≡ self.now }
        ensures names { AreNames self.now }
    {
        self.entries.as_slice()
    }

    /// Makes ready for one more edit: an index of the names is made where there
    /// were some.
    pub(crate) fn prepare(&mut self, alloc: Global) -> Result<(), AllocError>
        ensures { self.new ≡ self.old }
    {
        if self.edits < FEW_EDITS {
            self.edits += 1;
            return Ok(());
        }
        if self.index.is_none() {
            let index = index_of(alloc, self.entries.as_slice())?;
            self.index = Some(index);
        }
        Ok(())
    }

    /// Takes what the first entry of the name has, and leaves null there.
    pub(crate) fn take(&mut self, name: &str) -> Option<Node<'a>>
        requires { HasNoZero name.now }
        ensures value { option_map node_tree result ≡ find name.now self.old }
        ensures rest { (t : Tree) → with_value name.now t self.new ≡ with_value name.now t self.old }
        ensures none { IfNone result (self.new ≡ self.old) }
    {
        take_in(&mut self.entries, &self.index, name)
    }

    /// Gives the first entry of the name this node; where there is none, puts
    /// one behind the others.
    pub(crate) fn put(&mut self, name: &'a str, node: Node<'a>) -> Result<(), AllocError>
        requires { HasNoZero name.now }
        ensures { OnOk result (self.new ≡ with_value name.now (node_tree node.entry) self.old) }
    {
        put_in(&mut self.entries, &mut self.index, name, node)
    }

    /// Takes the first entry of the name out.
    pub(crate) fn drop_first(&mut self, name: &str)
        ensures { self.new ≡ without name.now self.old }
    {
        drop_in(&mut self.entries, &self.index, name);
    }
}
