//! The search among the nodes: it begins at the hash, goes upwards, wraps, and looks at every node.

ghost use Rattle.std.specs.Prelude.{◌≡◌, ℕ, ◌<◌, ◌+◌, ◌%◌, ◌↔◌, true, false, IsTrue, IfSome, IfNone};
ghost use Rattle.mm_base.specs.Bytes.{padded};
ghost use Rattle.mm_base.specs.Names.{IsName};
ghost use Rattle.mm_nstable.specs.Hash.{hash_of};
ghost use Rattle.mm_nstable.specs.Nodes.{count_of, node_at, head_in, is_free};
ghost use Rattle.mm_nstable.specs.Table.{probe, IsFirstFree};
ghost use Rattle.mm_nstable.specs.Changes.{ns_of};

use crate::hash::hash;
use crate::nodes::{head, node_count};
use mm_base::{NAME_FIELD_LEN, Name};
use mm_views::Draft;

// The i-th node at which a search looks that begins at a hash.
fn probed(count: u32, hash: u32, i: u32) -> u32
    requires { i < count }
    ensures is { result ≡ (hash % count + i) % count }
    ensures there { result < count }
{
    let start = hash % count;
    if i < count - start {
        start + i
    } else {
        i - (count - start)
    }
}

// Whether a node has a hash and a name field.
fn has(draft: &Draft, node: u32, hash: u32, field: &[u8; NAME_FIELD_LEN]) -> bool
    requires { node < count_of (ns_of draft.now) }
    ensures { IsTrue result ↔ (((head_in (node_at (ns_of draft.now) node)).hash ≡ hash) × ((head_in (node_at (ns_of draft.now) node)).name ≡ field.now)) }
{
    let head = head(draft, node);
    head.hash == hash && head.name == *field
}

// The node that has a name and its hash.
pub(crate) fn holder(draft: &Draft, name: &Name) -> Option<u32>
    ensures name { IsName name.now }
    ensures some { IfSome result (λ node. (node < count_of (ns_of draft.now)) × ((head_in (node_at (ns_of draft.now) node)).hash ≡ hash_of name.now) × ((head_in (node_at (ns_of draft.now) node)).name ≡ padded 128 name.now)) }
    ensures none { IfNone result ((i : ℕ) → i < count_of (ns_of draft.now) → (head_in (node_at (ns_of draft.now) (probe (count_of (ns_of draft.now)) name.now i))).hash ≡ hash_of name.now → (head_in (node_at (ns_of draft.now) (probe (count_of (ns_of draft.now)) name.now i))).name ≡ padded 128 name.now → ⊥) }
{
    let count = node_count(draft);
    let hash = hash(name);
    let field = name.padded();
    for i in 0..count {
        let node = probed(count, hash, i);
        if has(draft, node, hash, &field) {
            return Some(node);
        }
    }
    None
}

// The first free node in the order of the search for a name.
pub(crate) fn first_free(draft: &Draft, name: &Name) -> Option<u32>
    ensures some { IfSome result (λ node. IsFirstFree (ns_of draft.now) name.now node) }
    ensures there { IfSome result (λ node. node < count_of (ns_of draft.now)) }
    ensures none { IfNone result ((i : ℕ) → i < count_of (ns_of draft.now) → is_free (node_at (ns_of draft.now) (probe (count_of (ns_of draft.now)) name.now i)) ≡ false) }
{
    let count = node_count(draft);
    let hash = hash(name);
    for i in 0..count {
        let node = probed(count, hash, i);
        if head(draft, node).hash == 0 {
            return Some(node);
        }
    }
    None
}
