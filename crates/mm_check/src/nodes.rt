//! The nodes of `.ns`, as the private image has them.

ghost use Rattle.std.specs.Prelude.{◌≡◌, ◌+◌, ◌*◌, ◌<◌, ◌≤◌, length, IfOk};
ghost use Rattle.mm_nstable.specs.Nodes.{count_of, node_at, head_in};
ghost use Rattle.mm_records.specs.Stands.{ns_in};
ghost use Rattle.mm_check.specs.Findings.{nodes_in, details_at};

use mm_frames::{
    DETAILS_LEN, Details, NODE_HEAD_LEN, NODE_LEN, NodeHead, read_details, read_node_head,
};
use mm_views::{NS_FILE, Views};
use std::alloc::{AllocError, Global};

// How many nodes there are.
pub(crate) fn node_count(views: &Views) -> u32
    ensures { result ≡ count_of (ns_in views.now.private) }
{
    match views.len(NS_FILE) {
        Some(len) => len / NODE_LEN as u32,
        None => 0,
    }
}

// Where a node begins.
pub(crate) fn node_ofs(views: &Views, node: u32) -> u32
    requires { node < count_of (ns_in views.now.private) }
    ensures is { result ≡ NODE_LEN * node }
    ensures inside { result + NODE_LEN ≤ length (ns_in views.now.private) }
{
    // The file's length bounds its places.
    let _len = views.len(NS_FILE);
    NODE_LEN as u32 * node
}

// The hash and the name field of a node.
pub(crate) fn node_head(views: &Views, node: u32) -> NodeHead
    requires { node < count_of (ns_in views.now.private) }
    ensures { result ≡ head_in (node_at (ns_in views.now.private) node) }
{
    let mut bytes = [0; NODE_HEAD_LEN];
    views.read(NS_FILE, node_ofs(views, node), &mut bytes);
    read_node_head(&bytes, 0)
}

// What a node says of its namespace.
pub(crate) fn node_details(views: &Views, node: u32) -> Details
    requires { node < count_of (ns_in views.now.private) }
    ensures { result ≡ details_at views.now.private node }
{
    let mut bytes = [0; DETAILS_LEN];
    views.read(
        NS_FILE,
        node_ofs(views, node) + NODE_HEAD_LEN as u32,
        &mut bytes,
    );
    read_details(&bytes, 0)
}

// The used nodes by number.
pub(crate) fn used_nodes(alloc: Global, views: &Views) -> Result<Vec<u32>, AllocError>
    ensures { IfOk result (λ nodes. nodes.items ≡ nodes_in views.now.private) }
{
    let mut nodes = Vec::new(alloc);
    for node in 0..node_count(views) {
        if node_head(views, node).hash != 0 {
            nodes.push(node)?;
        }
    }
    Ok(nodes)
}
