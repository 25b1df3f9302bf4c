//! The nodes whose blocks are looked at, with their extents.

ghost use Rattle.std.specs.Prelude.{◌≡◌, ◌<◌, ◌≤◌, ◌==◌, not, IfOk, List, length, map, flat_map, All, ℕ};
ghost use Rattle.std.specs.List.{prefix_len};
ghost use Rattle.mm_frames.specs.Texts.{text_in};
ghost use Rattle.mm_links.specs.Links.{Place};
ghost use Rattle.mm_nstable.specs.Nodes.{count_of};
ghost use Rattle.mm_records.specs.Constants.{is_name};
ghost use Rattle.mm_records.specs.Stands.{ns_in};
ghost use Rattle.mm_check.specs.Findings.{name_of, owners_of, without_free};
ghost use Rattle.mm_check.specs.NodeQuestions.{free_name};
ghost use Rattle.mm_check.specs.Phases.{owner_of};

use crate::nodes::node_head;
use mm_base::NAME_FIELD_LEN;
use mm_views::Views;
use std::alloc::{AllocError, Global};

/// A node with the places of its extents.
#[derive(Drop)]
pub struct Owned<'a> {
    pub(crate) node: u32,
    pub(crate) extents: &'a [(u32, u32)],
}

// How many bytes stand before the first zero.
fn len_before_zero(field: &[u8]) -> usize
    ensures before { result ≡ prefix_len (λ b. not (b == 0)) field.now }
    ensures inside { result ≤ length field.now }
{
    field.iter().take_while(|byte| **byte != 0).count()
}

// The text of a zero padded field.
pub(crate) fn text_of(field: &[u8; NAME_FIELD_LEN]) -> &[u8]
    ensures { result.now ≡ text_in field.now }
{
    let len = len_before_zero(field);
    &field[..len]
}

// A node has this name.
pub(crate) fn is_named(views: &Views, node: u32, name: &[u8]) -> bool
    requires { node < count_of (ns_in views.now.private) }
    ensures { result ≡ is_name (name_of views.now.private node) name.now }
{
    let head = node_head(views, node);
    text_of(&head.name) == name
}

/// The nodes with their chains, but those of one name.
pub(crate) fn without<'a>(
    alloc: Global,
    views: &Views,
    free: &[u8],
    nodes: &[u32],
    chains: &'a [Vec<(u32, u32)>],
) -> Result<Vec<Owned<'a>>, AllocError>
    requires nodes { All (λ k. k < count_of (ns_in views.now.private)) nodes.now }
    requires chains { length nodes.now ≡ length chains.now }
    ensures { IfOk result (λ owners. (d : List ℕ) → free.now ≡ free_name d → map owner_of owners.items ≡ without_free d views.now.private (owners_of nodes.now (map (λ ps. ps.items) chains.now))) }
{
    let mut owners = Vec::new(alloc);
    for i in 0..nodes.len() {
        let extents: &[(u32, u32)] = &chains[i];
        if !is_named(views, nodes[i], free) {
            owners.push(Owned {
                node: nodes[i],
                extents,
            })?;
        }
    }
    Ok(owners)
}

/// The extents of these nodes, one node's behind the other's.
pub(crate) fn extents_of(alloc: Global, owners: &[Owned<'_>]) -> Result<Vec<(u32, u32)>, AllocError>
    ensures { IfOk result (λ all. all.items ≡ flat_map (λ o. o.extents) (map owner_of owners.now)) }
{
    let mut all = Vec::new(alloc);
    for owner in owners {
        all.extend_from_slice(owner.extents)?;
    }
    Ok(all)
}
