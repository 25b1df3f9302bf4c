//! The key nodes of a bucket.

ghost use Rattle.std.specs.Prelude.{◌≡◌, ◌+◌, ◌≤◌, length};
ghost use Rattle.mm_base.specs.Bytes.{part, Puts};
ghost use Rattle.mm_frames.specs.KeyNode.{key_node_of, key_node_bytes};

use mm_base::{DiskLoc, frame, put_place, put_u16, read_place, read_u16};

/// The length of a key node, in bytes.
pub const KEY_NODE_LEN: usize = 18;

const LEFT_AT: usize = 0;

const REC_AT: usize = 8;

const KEY_OFS_AT: usize = 16;

/// A pair of a bucket: its left child, its record, and where its key begins.
#[derive(Clone, Copy, Debug, PartialEq, Eq)]
pub struct KeyNode {
    /// The child whose pairs stand before this one, or null in a leaf.
    pub left: DiskLoc,
    /// The record that the pair names.
    pub rec: DiskLoc,
    /// Where the key begins, counted from the end of the bucket's header.
    pub key_ofs: u16,
}

/// The key node at `at`.
#[tactic(auto, using(mm_base::proofs::Sets::signed), unfolding(crate::specs::KeyNode::key_node_of))]
pub fn read_key_node(bytes: &[u8], at: usize) -> KeyNode
    requires { at + KEY_NODE_LEN ≤ length bytes.now }
    ensures { result ≡ key_node_of (part at KEY_NODE_LEN bytes.now) }
{
    let frame = frame(bytes, at, KEY_NODE_LEN);
    KeyNode {
        left: read_place(frame, LEFT_AT),
        rec: read_place(frame, REC_AT),
        key_ofs: read_u16(frame, KEY_OFS_AT),
    }
}

/// Writes a key node at `at`.
pub fn put_key_node(bytes: &mut [u8], at: usize, node: &KeyNode)
    requires { at + KEY_NODE_LEN ≤ length bytes.old }
    ensures { Puts KEY_NODE_LEN key_node_bytes key_node_of at node.now bytes.old bytes.new }
{
    let key_ofs = node.key_ofs;
    put_place(bytes, at + LEFT_AT, node.left);
    put_place(bytes, at + REC_AT, node.rec);
    put_u16(bytes, at + KEY_OFS_AT, key_ofs);
}

/// The bytes of a key node.
#[tactic(auto, using(mm_base::proofs::Sets::whole))]
pub fn key_node_frame(node: &KeyNode) -> [u8; KEY_NODE_LEN]
    ensures spelled { result ≡ key_node_bytes node.now }
    ensures again { key_node_of result ≡ node.now }
{
    let mut frame = [0; KEY_NODE_LEN];
    put_key_node(&mut frame, 0, node);
    frame
}
