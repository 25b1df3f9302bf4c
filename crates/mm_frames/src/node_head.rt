//! The front of a node of the `.ns` file.

ghost use Rattle.std.specs.Prelude.{◌≡◌, ◌+◌, ◌≤◌, length};
ghost use Rattle.mm_base.specs.Bytes.{part, Puts};
ghost use Rattle.mm_frames.specs.NodeHead.{node_head_of, node_head_bytes};

use mm_base::{NAME_FIELD_LEN, frame, put_bytes, put_u32, read_array, read_u32};

/// The length of a node's hash and name, in bytes. The details follow.
pub const NODE_HEAD_LEN: usize = 132;

const HASH_AT: usize = 0;

const NAME_AT: usize = 4;

/// Whose details a node holds.
#[derive(Clone, Copy, Debug, PartialEq, Eq)]
pub struct NodeHead {
    /// The hash of the name, or 0 in a free node.
    pub hash: u32,
    /// The namespace's name, zero padded.
    pub name: [u8; NAME_FIELD_LEN],
}

/// The node's head at `at`.
#[tactic(auto, using(mm_base::proofs::Sets::signed), unfolding(crate::specs::NodeHead::node_head_of))]
pub fn read_node_head(bytes: &[u8], at: usize) -> NodeHead
    requires { at + NODE_HEAD_LEN ≤ length bytes.now }
    ensures { result ≡ node_head_of (part at NODE_HEAD_LEN bytes.now) }
{
    let frame = frame(bytes, at, NODE_HEAD_LEN);
    NodeHead {
        hash: read_u32(frame, HASH_AT),
        name: read_array(frame, NAME_AT),
    }
}

/// Writes a node's head at `at`.
pub fn put_node_head(bytes: &mut [u8], at: usize, head: &NodeHead)
    requires { at + NODE_HEAD_LEN ≤ length bytes.old }
    ensures { Puts NODE_HEAD_LEN node_head_bytes node_head_of at head.now bytes.old bytes.new }
{
    let NodeHead { hash, name } = *head;
    put_u32(bytes, at + HASH_AT, hash);
    put_bytes(bytes, at + NAME_AT, &name);
}

/// The bytes of a node's head.
#[tactic(auto, using(mm_base::proofs::Sets::whole))]
pub fn node_head_frame(head: &NodeHead) -> [u8; NODE_HEAD_LEN]
    ensures spelled { result ≡ node_head_bytes head.now }
    ensures again { node_head_of result ≡ head.now }
{
    let mut frame = [0; NODE_HEAD_LEN];
    put_node_head(&mut frame, 0, head);
    frame
}
