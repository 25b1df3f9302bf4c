//! The chains that the check follows, made from what the phases before found.

ghost use Rattle.std.specs.Prelude.{◌≡◌, ◌<◌, ℕ, true, IfOk, length, map, is_some, All};
ghost use Rattle.std.specs.FinMap.{get};
ghost use Rattle.mm_links.specs.Links.{Place, has};
ghost use Rattle.mm_nstable.specs.Nodes.{count_of};
ghost use Rattle.mm_records.specs.Stands.{ns_in};
ghost use Rattle.mm_walk.specs.Questions.{first_failing};
ghost use Rattle.mm_check.specs.ExtentChain.{InFile, KnowsExtents};
ghost use Rattle.mm_check.specs.FileQuestions.{file_questions};
ghost use Rattle.mm_check.specs.Findings.{file_chains, lists_of};
ghost use Rattle.mm_check.specs.Phases.{reading_of, extents_reading, node_reading, deleted_reading, owner_at, file_chain, node_chain, record_chain, list_chain};

use crate::extents::{FileExtents, NodeExtents};
use crate::files::{DATA_FILES, unused};
use crate::frames::read_extent;
use crate::lists::Deleted;
use crate::nodes::{node_details, node_head, node_ofs};
use crate::numbers::size;
use crate::records::Records;
use mm_base::DiskLoc;
use mm_views::{NS_FILE, Views};
use std::alloc::{AllocError, Global};
use std::collections::BTreeSet;

// How many lists of deleted blocks a node has.
const LISTS: u32 = 19;

// The extents of a data file.
fn file_chain(views: &Views, file: u32) -> FileExtents<'_>
    requires files { first_failing (file_questions views.now.private) ≡ None }
    requires data_file { file < 8 }
    requires there { is_some (get views.now.private file) ≡ true }
    ensures { extents_reading result ≡ file_chain views.now.private file }
{
    let unused = unused(views, file);
    FileExtents {
        views,
        file,
        unused,
    }
}

// The extents of each data file that is there, by number.
pub(crate) fn file_chains(alloc: Global, views: &Views) -> Result<Vec<FileExtents<'_>>, AllocError>
    requires { first_failing (file_questions views.now.private) ≡ None }
    ensures { IfOk result (λ chains. map extents_reading chains.items ≡ file_chains views.now.private) }
{
    let mut chains = Vec::new(alloc);
    for file in 0..DATA_FILES {
        if views.len(file).is_some() {
            chains.push(file_chain(views, file))?;
        }
    }
    Ok(chains)
}

// The chain of a node's extents.
fn node_chain<'a>(
    views: &'a Views,
    node: u32,
    all: &'a [(u32, u32)],
    known: &'a BTreeSet<u64>,
) -> NodeExtents<'a>
    requires node { node < count_of (ns_in views.now.private) }
    requires extents { KnowsExtents views.now.private known.now all.now }
    ensures { node_reading result ≡ node_chain views.now.private all.now node }
{
    let details = node_details(views, node);
    let head = node_head(views, node);
    let field = head.name;
    NodeExtents {
        views,
        all,
        known,
        field,
        node: (NS_FILE, node_ofs(views, node)),
        first: details.first_extent,
        last: details.last_extent,
    }
}

// The chains of the extents of these nodes.
pub(crate) fn node_chains<'a>(
    alloc: Global,
    views: &'a Views,
    nodes: &[u32],
    all: &'a [(u32, u32)],
    known: &'a BTreeSet<u64>,
) -> Result<Vec<NodeExtents<'a>>, AllocError>
    requires nodes { All (λ k. k < count_of (ns_in views.now.private)) nodes.now }
    requires extents { KnowsExtents views.now.private known.now all.now }
    ensures { IfOk result (λ chains. map node_reading chains.items ≡ map (node_chain views.now.private all.now) nodes.now) }
{
    let mut chains = Vec::new(alloc);
    for i in 0..nodes.len() {
        chains.push(node_chain(views, nodes[i], all, known))?;
    }
    Ok(chains)
}

// The live records of an extent.
fn record_chain(views: &Views, extent: (u32, u32)) -> Records<'_>
    requires { InFile views.now.private extent }
    ensures { reading_of result ≡ record_chain views.now.private extent }
{
    let header = read_extent(views, extent);
    Records {
        views,
        file: extent.0,
        ofs: extent.1,
        len: size(header.len),
        first: header.first_record,
        last: header.last_record,
    }
}

// The live records of these extents.
pub(crate) fn record_chains<'a>(
    alloc: Global,
    views: &'a Views,
    extents: &[(u32, u32)],
) -> Result<Vec<Records<'a>>, AllocError>
    requires { (p : Place) → has extents.now p ≡ true → InFile views.now.private p }
    ensures { IfOk result (λ chains. map reading_of chains.items ≡ map (record_chain views.now.private) extents.now) }
{
    let mut chains = Vec::new(alloc);
    for i in 0..extents.len() {
        chains.push(record_chain(views, extents[i]))?;
    }
    Ok(chains)
}

// A list of a node's deleted blocks.
fn list_chain<'a>(
    views: &'a Views,
    node: u32,
    extents: &'a [(u32, u32)],
    known: &'a BTreeSet<u64>,
    list: u32,
) -> Deleted<'a>
    requires node { node < count_of (ns_in views.now.private) }
    requires extents { KnowsExtents views.now.private known.now extents.now }
    requires list { list < 19 }
    ensures { deleted_reading result ≡ list_chain views.now.private (owner_at node extents.now) list }
{
    let head: DiskLoc = node_details(views, node).deleted[list as usize];
    Deleted {
        views,
        own: extents,
        known,
        list,
        node: (NS_FILE, node_ofs(views, node)),
        head,
    }
}

// The lists of a node's deleted blocks.
pub(crate) fn node_lists<'a>(
    alloc: Global,
    views: &'a Views,
    node: u32,
    extents: &'a [(u32, u32)],
    known: &'a BTreeSet<u64>,
) -> Result<Vec<Deleted<'a>>, AllocError>
    requires node { node < count_of (ns_in views.now.private) }
    requires extents { KnowsExtents views.now.private known.now extents.now }
    ensures { IfOk result (λ chains. map deleted_reading chains.items ≡ lists_of views.now.private (owner_at node extents.now)) }
{
    let mut chains = Vec::new(alloc);
    for list in 0..LISTS {
        chains.push(list_chain(views, node, extents, known, list))?;
    }
    Ok(chains)
}
