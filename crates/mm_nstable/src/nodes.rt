//! The nodes of `.ns`, as a draft has them.

ghost use Rattle.std.specs.Prelude.{◌≡◌, ◌+◌, ◌*◌, ◌<◌, ◌≤◌, true, false, length, IfSome, IfNone, OnOk, OnErr};
ghost use Rattle.mm_views.specs.State.{weight_in};
ghost use Rattle.mm_nstable.specs.Nodes.{count_of, node_at, head_in, name_in, details_in, is_free, IsNamed};
ghost use Rattle.mm_nstable.specs.Changes.{ns_of, written_at, node_bytes};

use crate::hash::hash;
use mm_base::{Name, NoMemory};
use mm_frames::{
    DETAILS_LEN, Details, NODE_HEAD_LEN, NODE_LEN, NodeHead, put_details, put_node_head,
    read_details, read_node_head,
};
use mm_views::{Draft, NS_FILE};

// How many nodes there are.
pub(crate) fn node_count(draft: &Draft) -> u32
    ensures { result ≡ count_of (ns_of draft.now) }
{
    match draft.len(NS_FILE) {
        Some(len) => len / NODE_LEN as u32,
        None => 0,
    }
}

// Where a node begins.
pub(crate) fn place(draft: &Draft, node: u32) -> u32
    requires { node < count_of (ns_of draft.now) }
    ensures is { result ≡ NODE_LEN * node }
    ensures inside { result + NODE_LEN ≤ length (ns_of draft.now) }
{
    // The file's length bounds its places.
    let _len = draft.len(NS_FILE);
    NODE_LEN as u32 * node
}

// The hash and the name field of a node.
pub(crate) fn head(draft: &Draft, node: u32) -> NodeHead
    requires { node < count_of (ns_of draft.now) }
    ensures { result ≡ head_in (node_at (ns_of draft.now) node) }
{
    let mut bytes = [0; NODE_HEAD_LEN];
    draft.read(NS_FILE, place(draft, node), &mut bytes);
    read_node_head(&bytes, 0)
}

// The name of a node, or None where it is free.
pub(crate) fn node_name(draft: &Draft, node: u32) -> Option<Name>
    requires { node < count_of (ns_of draft.now) }
    ensures some { IfSome result (λ name. (is_free (node_at (ns_of draft.now) node) ≡ false) × (name ≡ name_in (node_at (ns_of draft.now) node))) }
    ensures none { IfNone result (IsNamed (node_at (ns_of draft.now) node) → is_free (node_at (ns_of draft.now) node) ≡ true) }
{
    let head = head(draft, node);
    if head.hash == 0 {
        return None;
    }
    Name::from_padded(&head.name)
}

// The details of a node.
pub(crate) fn node_details(draft: &Draft, node: u32) -> Details
    requires { node < count_of (ns_of draft.now) }
    ensures { result ≡ details_in (node_at (ns_of draft.now) node) }
{
    let mut bytes = [0; DETAILS_LEN];
    draft.read(
        NS_FILE,
        place(draft, node) + NODE_HEAD_LEN as u32,
        &mut bytes,
    );
    read_details(&bytes, 0)
}

// The bytes of a used node.
pub(crate) fn node_frame(name: &Name, details: &Details) -> [u8; NODE_LEN]
    ensures len { length result ≡ NODE_LEN }
    ensures is { result ≡ node_bytes name.now details.now }
    ensures named { IsNamed result }
    ensures name { name_in result ≡ name.now }
    ensures used { is_free result ≡ false }
    ensures details { details_in result ≡ details.now }
{
    let mut frame = [0; NODE_LEN];
    let head = NodeHead {
        hash: hash(name),
        name: name.padded(),
    };
    put_node_head(&mut frame, 0, &head);
    put_details(&mut frame, NODE_HEAD_LEN, details);
    frame
}

// Declares and writes bytes of `.ns`.
pub(crate) fn overwrite(draft: &mut Draft, at: u32, bytes: &[u8]) -> Result<(), NoMemory>
    requires some { 0 < length bytes.now }
    requires short { length bytes.now ≤ 628 }
    requires inside { at + length bytes.now ≤ length (ns_of draft.old) }
    ensures ok { OnOk result (draft.new ≡ written_at at bytes.now draft.old) }
    ensures weight { weight_in draft.new.made draft.new.declared ≤ weight_in draft.old.made draft.old.declared + (length bytes.now + 12) }
    ensures err { OnErr result (draft.new ≡ draft.old) }
{
    draft.declare(NS_FILE, at, bytes.len() as u32)?;
    draft.write(NS_FILE, at, bytes);
    Ok(())
}
