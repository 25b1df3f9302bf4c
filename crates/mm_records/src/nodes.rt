//! The details of a namespace, which its node holds.

ghost use Rattle.std.specs.Prelude.{◌≡◌, ℕ, ◌+◌, ◌<◌, ◌≤◌, IsTrue, OnOk};
ghost use Rattle.std.specs.FinMap.{insert};
ghost use Rattle.mm_ranges.specs.Overlay.{bytes_at};
ghost use Rattle.mm_nstable.specs.Nodes.{node_at, name_in, is_used, IsTable, SameNames};
ghost use Rattle.mm_nstable.specs.Table.{table_of};
ghost use Rattle.mm_nstable.specs.Changes.{ns_of};
ghost use Rattle.mm_extents.specs.Changes.{len_of, DeclaresAtMost};

use mm_base::{Name, NoMemory};
use mm_frames::{Details, NODE_HEAD_LEN, NODE_LEN, read_node_head};
use mm_nstable::put_details;
use mm_views::{Draft, NS_FILE};

// Writes the details of a used node. The data files stay.
pub(crate) fn put_node(draft: &mut Draft, node: u32, details: Details) -> Result<(), NoMemory>
    requires { IsTrue (is_used (ns_of draft.old) node) }
    ensures lengths { OnOk result ((f : ℕ) → len_of draft.new.image f ≡ len_of draft.old.image f) }
    ensures files { OnOk result ((f : ℕ) → f < 8 → bytes_at draft.new.image f ≡ bytes_at draft.old.image f) }
    ensures table { OnOk result (IsTable (ns_of draft.old)
        → table_of (ns_of draft.new) ≡ insert (table_of (ns_of draft.old)) (name_in (node_at (ns_of draft.old) node)) (record { node = node; details = details })) }
    ensures kept { IsTable (ns_of draft.old) → IsTable (ns_of draft.new) }
    ensures names { SameNames (ns_of draft.old) (ns_of draft.new) }
    ensures weight { DeclaresAtMost 508 draft.old draft.new }
{
    put_details(draft, node, &details)
}

// The name of a used node.
pub(crate) fn name_of(draft: &Draft, node: u32) -> Name
    requires table { IsTable (ns_of draft.now) }
    requires used { IsTrue (is_used (ns_of draft.now) node) }
    ensures { result ≡ name_in (node_at (ns_of draft.now) node) }
{
    // The file's length bounds its places.
    let _len = draft.len(NS_FILE);
    let mut bytes = [0; NODE_HEAD_LEN];
    draft.read(NS_FILE, NODE_LEN as u32 * node, &mut bytes);
    match Name::from_padded(&read_node_head(&bytes, 0).name) {
        Some(name) => name,
        None => unreachable!(),
    }
}
