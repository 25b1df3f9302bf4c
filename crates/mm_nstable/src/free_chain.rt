//! The ends of the chain of free extents, which one node names.

ghost use Rattle.std.specs.Prelude.{◌≡◌, ◌+◌, ◌*◌, ◌<◌, ◌≤◌, ◌↔◌, ◌==◌, not, ℕ, List, length, IsTrue, OnOk, OnErr};
ghost use Rattle.std.specs.List.{prefix_len};
ghost use Rattle.std.specs.FinMap.{insert};
ghost use Rattle.mm_frames.specs.Details.{details_bytes};
ghost use Rattle.mm_views.specs.State.{weight_in};
ghost use Rattle.mm_nstable.specs.Nodes.{count_of, node_at, name_in, is_used, IsTable, AreFreeZeros, SameNames};
ghost use Rattle.mm_nstable.specs.Table.{Held, table_of};
ghost use Rattle.mm_nstable.specs.Changes.{ns_of, written_at};
ghost use Rattle.mm_nstable.specs.FreeChain.{IsFreeName, IsFreeNode, HasFreeChain, ends_of, with_ends};

use crate::nodes::{node_count, node_name};
use crate::table::{details, put_details};
use mm_base::NoMemory;
use mm_frames::{DETAILS_LEN, FreeEnds, NODE_HEAD_LEN, NODE_LEN};
use mm_views::Draft;

// How many bytes stand before the first dot.
fn len_before_dot(name: &[u8]) -> usize
    ensures before { result ≡ prefix_len (λ b. not (b == 46)) name.now }
    ensures inside { result ≤ length name.now }
{
    name.iter().take_while(|byte| **byte != b'.').count()
}

// Whether a name is that of the chain of free extents.
#[tactic(auto, unfolding(crate::specs::FreeChain::IsFreeName))]
fn is_free_name(name: &[u8]) -> bool
    ensures { IsTrue result ↔ IsFreeName name.now }
{
    let dot = len_before_dot(name);
    &name[dot..] == b".$freelist".as_slice()
}

// Whether a node is used and has the name of the chain of free extents.
fn has_free_name(draft: &Draft, node: u32) -> bool
    requires table { IsTable (ns_of draft.now) }
    requires there { node < count_of (ns_of draft.now) }
    ensures { IsTrue result ↔ ((IsTrue (is_used (ns_of draft.now) node)) × IsFreeName (name_in (node_at (ns_of draft.now) node))) }
{
    match node_name(draft, node) {
        Some(name) => is_free_name(name.bytes()),
        None => false,
    }
}

// The node of the chain of free extents.
fn free_node(draft: &Draft) -> u32
    requires table { IsTable (ns_of draft.now) }
    requires there { (free : List ℕ) × ((held : Held) × HasFreeChain (ns_of draft.now) free held) }
    ensures { IsFreeNode (ns_of draft.now) result }
{
    for node in 0..node_count(draft) {
        if has_free_name(draft, node) {
            return node;
        }
    }
    unreachable!()
}

/// The ends of the chain of free extents. One node has its name: a database's name without a dot, and `.$freelist`.
pub fn free_ends(draft: &Draft) -> FreeEnds
    requires table { IsTable (ns_of draft.now) }
    requires there { (free : List ℕ) × ((held : Held) × HasFreeChain (ns_of draft.now) free held) }
    ensures { (free : List ℕ) (held : Held) → HasFreeChain (ns_of draft.now) free held → result ≡ ends_of held.details }
{
    let details = details(draft, free_node(draft));
    FreeEnds {
        first: details.first_extent,
        last: details.last_extent,
    }
}

/// Writes the ends of the chain of free extents into the details of its node.
pub fn put_free_ends(draft: &mut Draft, ends: &FreeEnds) -> Result<(), NoMemory>
    requires table { IsTable (ns_of draft.old) }
    requires there { (free : List ℕ) × ((held : Held) × HasFreeChain (ns_of draft.old) free held) }
    ensures written { OnOk result ((free : List ℕ) (held : Held) → HasFreeChain (ns_of draft.old) free held
        → draft.new ≡ written_at (NODE_LEN * held.node + NODE_HEAD_LEN) (details_bytes (with_ends ends.now held.details)) draft.old) }
    ensures table { OnOk result ((free : List ℕ) (held : Held) → HasFreeChain (ns_of draft.old) free held
        → table_of (ns_of draft.new) ≡ insert (table_of (ns_of draft.old)) free (record { node = held.node; details = with_ends ends.now held.details })) }
    ensures names { SameNames (ns_of draft.old) (ns_of draft.new) }
    ensures kept { IsTable (ns_of draft.new) }
    ensures zeros { AreFreeZeros (ns_of draft.old) → AreFreeZeros (ns_of draft.new) }
    ensures weight { weight_in draft.new.made draft.new.declared ≤ weight_in draft.old.made draft.old.declared + (DETAILS_LEN + 12) }
    ensures err { OnErr result (draft.new ≡ draft.old) }
{
    let node = free_node(draft);
    let mut details = details(draft, node);
    details.first_extent = ends.first;
    details.last_extent = ends.last;
    put_details(draft, node, &details)
}
