//! The map from names to details that the nodes hold.

ghost use Rattle.std.specs.Prelude.{◌≡◌, ◌+◌, ◌*◌, ◌<◌, ◌≤◌, ◌++◌, ◌↔◌, map, IsTrue, IfSome, IfOk, OnOk, OnErr, IsErrOf, None, Some, count_by, take, length};
ghost use Rattle.std.specs.Option.{option_map};
ghost use Rattle.std.specs.FinMap.{get, insert, remove};
ghost use Rattle.mm_base.specs.Bytes.{zeros};
ghost use Rattle.mm_frames.specs.Details.{details_bytes};
ghost use Rattle.mm_views.specs.State.{weight_in};
ghost use Rattle.mm_nstable.specs.Nodes.{count_of, node_at, nodes_of, name_in, details_in, is_free, is_used, IsTable, AreFreeZeros, SameNames};
ghost use Rattle.mm_nstable.specs.Table.{entries_of, table_of, IsFirstFree};
ghost use Rattle.mm_nstable.specs.Changes.{ns_of, written_at, node_bytes};

use crate::fault::NsFault;
use crate::nodes::{head, node_count, node_details, node_frame, node_name, overwrite, place};
use crate::search::{first_free, holder};
use mm_base::{Name, NoMemory};
use mm_frames::{DETAILS_LEN, Details, NODE_HEAD_LEN, NODE_LEN, details_frame};
use mm_views::Draft;

/// The number of the node that holds a name.
pub fn find(draft: &Draft, name: &Name) -> Option<u32>
    requires { IsTable (ns_of draft.now) }
    ensures is { result ≡ option_map (λ held. held.node) (get (table_of (ns_of draft.now)) name.now) }
    ensures used { IfSome result (λ node. IsTrue (is_used (ns_of draft.now) node)) }
    ensures name { IfSome result (λ node. name_in (node_at (ns_of draft.now) node) ≡ name.now) }
{
    holder(draft, name)
}

/// Puts a name that isn't there into the first free node in the order of its search, with its details. It answers that node.
pub fn insert(draft: &mut Draft, name: &Name, details: &Details) -> Result<u32, NsFault>
    requires table { IsTable (ns_of draft.old) }
    requires absent { get (table_of (ns_of draft.old)) name.now ≡ None }
    ensures place { IfOk result (λ node. IsFirstFree (ns_of draft.old) name.now node) }
    ensures written { IfOk result (λ node. draft.new ≡ written_at (NODE_LEN * node) (node_bytes name.now details.now) draft.old) }
    ensures table { IfOk result (λ node. table_of (ns_of draft.new) ≡ insert (table_of (ns_of draft.old)) name.now (record { node = node; details = details.now })) }
    ensures used { IfOk result (λ node. IsTrue (is_used (ns_of draft.new) node)) }
    ensures kept { IsTable (ns_of draft.new) }
    ensures zeros { AreFreeZeros (ns_of draft.old) → AreFreeZeros (ns_of draft.new) }
    ensures weight { weight_in draft.new.made draft.new.declared ≤ weight_in draft.old.made draft.old.declared + (NODE_LEN + 12) }
    ensures full { IsErrOf result NsFault.NsFull ↔ (count_by is_free (nodes_of (ns_of draft.old)) ≡ 0) }
    ensures err { OnErr result (draft.new ≡ draft.old) }
{
    let Some(node) = first_free(draft, name) else {
        return Err(NsFault::NsFull);
    };
    let at = place(draft, node);
    overwrite(draft, at, &node_frame(name, details))?;
    Ok(node)
}

/// Takes out the name that a node holds, and its details. The node is all zeros then.
pub fn remove(draft: &mut Draft, node: u32) -> Result<(), NoMemory>
    requires table { IsTable (ns_of draft.old) }
    requires used { IsTrue (is_used (ns_of draft.old) node) }
    ensures written { OnOk result (draft.new ≡ written_at (NODE_LEN * node) (zeros NODE_LEN) draft.old) }
    ensures table { OnOk result (table_of (ns_of draft.new) ≡ remove (table_of (ns_of draft.old)) (name_in (node_at (ns_of draft.old) node))) }
    ensures kept { IsTable (ns_of draft.new) }
    ensures zeros { AreFreeZeros (ns_of draft.old) → AreFreeZeros (ns_of draft.new) }
    ensures weight { weight_in draft.new.made draft.new.declared ≤ weight_in draft.old.made draft.old.declared + (NODE_LEN + 12) }
    ensures err { OnErr result (draft.new ≡ draft.old) }
{
    let at = place(draft, node);
    overwrite(draft, at, &[0; NODE_LEN])
}

/// How many nodes are free.
pub fn free_nodes(draft: &Draft) -> u32
    ensures { result ≡ count_by is_free (nodes_of (ns_of draft.now)) }
{
    let mut free = 0;
    for node in 0..node_count(draft) {
        if head(draft, node).hash == 0 {
            free += 1;
        }
    }
    free
}

/// Puts each name with its node behind what a list holds, by rising node.
pub fn names(draft: &Draft, out: &mut Vec<(Name, u32)>) -> Result<(), NoMemory>
    requires { IsTable (ns_of draft.now) }
    ensures ok { OnOk result (out.new.items ≡ out.old.items ++ map (λ entry. (entry.0, entry.1.node)) (entries_of (ns_of draft.now))) }
    ensures err { OnErr result (out.new.items ≡ out.old.items) }
{
    let len = out.len();
    let pushed = push_names(draft, out);
    if pushed.is_err() {
        out.truncate(len);
    }
    pushed
}

/// What the node of a name says of its namespace.
pub fn details(draft: &Draft, node: u32) -> Details
    requires { node < count_of (ns_of draft.now) }
    ensures is { result ≡ details_in (node_at (ns_of draft.now) node) }

    // In a table it is what the map has under the node's name.
    ensures table { IsTable (ns_of draft.now) → IsTrue (is_used (ns_of draft.now) node)
        → get (table_of (ns_of draft.now)) (name_in (node_at (ns_of draft.now) node)) ≡ Some (record { node = node; details = result }) }
{
    node_details(draft, node)
}

/// Writes the details of a used node.
pub fn put_details(draft: &mut Draft, node: u32, details: &Details) -> Result<(), NoMemory>
    requires { IsTrue (is_used (ns_of draft.old) node) }
    ensures written { OnOk result (draft.new ≡ written_at (NODE_LEN * node + NODE_HEAD_LEN) (details_bytes details.now) draft.old) }
    ensures table { OnOk result (IsTable (ns_of draft.old)
        → table_of (ns_of draft.new) ≡ insert (table_of (ns_of draft.old)) (name_in (node_at (ns_of draft.old) node)) (record { node = node; details = details.now })) }
    ensures names { SameNames (ns_of draft.old) (ns_of draft.new) }
    ensures kept { IsTable (ns_of draft.old) → IsTable (ns_of draft.new) }
    ensures zeros { AreFreeZeros (ns_of draft.old) → AreFreeZeros (ns_of draft.new) }
    ensures weight { weight_in draft.new.made draft.new.declared ≤ weight_in draft.old.made draft.old.declared + (DETAILS_LEN + 12) }
    ensures err { OnErr result (draft.new ≡ draft.old) }
{
    let at = place(draft, node) + NODE_HEAD_LEN as u32;
    overwrite(draft, at, &details_frame(details))
}

// Puts each name with its node behind what a list holds, as far as memory reaches.
fn push_names(draft: &Draft, out: &mut Vec<(Name, u32)>) -> Result<(), NoMemory>
    requires { IsTable (ns_of draft.now) }
    ensures ok { OnOk result (out.new.items ≡ out.old.items ++ map (λ entry. (entry.0, entry.1.node)) (entries_of (ns_of draft.now))) }
    ensures err { OnErr result (take (length out.old.items) out.new.items ≡ out.old.items) }
{
    for node in 0..node_count(draft) {
        if let Some(name) = node_name(draft, node) {
            out.push((name, node))?;
        }
    }
    Ok(())
}
