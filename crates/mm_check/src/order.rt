//! The phases in a row.

ghost use Rattle.std.specs.Prelude.{◌≡◌, ◌++◌, [], map, flat_map, None, IfOk, OnOk};
ghost use Rattle.mm_links.specs.Links.{Place};
ghost use Rattle.mm_model.specs.declared.finding.What.{What};
ghost use Rattle.mm_model.specs.declared.finding.CheckFault.TheVariants.{Found, NoMemory};
ghost use Rattle.mm_records.specs.Shape.{Shape};
ghost use Rattle.mm_walk.specs.Questions.{first_failing};
ghost use Rattle.mm_walk.specs.Walk.{Knows, seen_after};
ghost use Rattle.mm_check.specs.FileQuestions.{file_questions};
ghost use Rattle.mm_check.specs.NodeForms.{IsForms};
ghost use Rattle.mm_check.specs.Findings.{joined, nodes_in, owners, Clear2, Clear3, Clear5, Clear6, Clear7, Clear8, Clear9, IsClear};
ghost use Rattle.mm_check.specs.Phases.{owner_of};
ghost use Rattle.mm_check.specs.Standing.{HasNoDot, HasShape};
ghost use Rattle.mm_check.specs.TheCheck.{IsFinding, IfFound, Finds, IsFault, IsOutcome};

use crate::counts::wrong_counts;
use crate::files::wrong_file;
use crate::forms::{Forms, forms_of};
use crate::gaps::first_gap_of;
use crate::lost::first_lost;
use crate::nodes::used_nodes;
use crate::owners::{Owned, extents_of, without};
use crate::phases::{deleted_blocks, file_extents, live_records, node_extents};
use crate::places::join;
use crate::table::wrong_node;
use mm_base::Name;
use mm_model::{CheckFault, Finding, What};
use mm_views::Views;
use mm_walk::Broken;
use std::alloc::{AllocError, Global};
use std::collections::BTreeSet;

// What is found at a place.
fn found(at: (u32, u32), what: What) -> CheckFault
    ensures { result ≡ Found (record { file = at.0; at = at.1; what = what }) }
{
    CheckFault::Found(Finding {
        file: at.0,
        at: at.1,
        what,
    })
}

// Why a chain wasn't followed, as a fault.
fn fault(broken: Broken, what: What) -> CheckFault
    ensures { IsFault broken what result }
{
    match broken {
        Broken::At(at) => found(at, what),
        Broken::NoMemory => CheckFault::NoMemory,
    }
}

// Nothing, or what is found at a place.
fn outcome(at: Option<(u32, u32)>, what: What) -> Result<(), CheckFault>
    ensures { IsOutcome at what result }
{
    match at {
        None => Ok(()),
        Some(at) => Err(found(at, what)),
    }
}

// Phase `node`.
fn check_nodes(alloc: Global, name: &Name, views: &Views, forms: &Forms) -> Result<(), CheckFault>
    requires files { first_failing (file_questions views.now.private) ≡ None }
    requires forms { IsForms name.now forms.now }
    ensures clear { OnOk result (Clear2 name.now views.now.private) }
    ensures found { Finds name.now views.now.private result }
{
    match wrong_node(alloc, views, forms) {
        Err(_) => Err(CheckFault::NoMemory),
        Ok(at) => outcome(at, What::Node),
    }
}

// Phases `file` and `node`.
fn check_tables(alloc: Global, name: &Name, views: &Views, forms: &Forms) -> Result<(), CheckFault>
    requires { IsForms name.now forms.now }
    ensures clear { OnOk result (Clear2 name.now views.now.private) }
    ensures found { Finds name.now views.now.private result }
{
    match wrong_file(views) {
        Some(at) => Err(found(at, What::File)),
        None => check_nodes(alloc, name, views, forms),
    }
}

// Phase `extent`: the extents of the files.
fn extents_in_files(
    alloc: Global,
    name: &Name,
    views: &Views,
) -> Result<Vec<Vec<(u32, u32)>>, CheckFault>
    requires { Clear2 name.now views.now.private }
    ensures clear { IfOk result (λ all. Clear3 name.now views.now.private (map (λ ps. ps.items) all.items)) }
    ensures found { Finds name.now views.now.private result }
{
    match file_extents(alloc, views) {
        Ok(all) => Ok(all),
        Err(broken) => Err(fault(broken, What::Extent)),
    }
}

// Phases `extents` and `lost`, where these are the places of the extents of the files.
fn chains_of(
    alloc: Global,
    name: &Name,
    views: &Views,
    all: &[Vec<(u32, u32)>],
    places: &[(u32, u32)],
    nodes: &[u32],
) -> Result<Vec<Vec<(u32, u32)>>, CheckFault>
    requires clear { Clear3 name.now views.now.private (map (λ ps. ps.items) all.now) }
    requires places { places.now ≡ joined (map (λ ps. ps.items) all.now) }
    requires nodes { nodes.now ≡ nodes_in views.now.private }
    ensures clear { IfOk result (λ chains. Clear5 name.now views.now.private (map (λ ps. ps.items) chains.items)) }
    ensures found { Finds name.now views.now.private result }
{
    let mut seen = BTreeSet::new(alloc);
    let chains = match node_extents(alloc, views, nodes, places, &mut seen) {
        Ok(chains) => chains,
        Err(broken) => return Err(fault(broken, What::Extents)),
    };
    match first_lost(places, &seen) {
        Some(at) => Err(found(at, What::Lost)),
        None => Ok(chains),
    }
}

// Phases `extents` and `lost`: the chains of the nodes, of which these are the extents of the files.
fn extents_of_nodes(
    alloc: Global,
    name: &Name,
    views: &Views,
    all: &[Vec<(u32, u32)>],
    nodes: &[u32],
) -> Result<Vec<Vec<(u32, u32)>>, CheckFault>
    requires clear { Clear3 name.now views.now.private (map (λ ps. ps.items) all.now) }
    requires nodes { nodes.now ≡ nodes_in views.now.private }
    ensures clear { IfOk result (λ chains. Clear5 name.now views.now.private (map (λ ps. ps.items) chains.items)) }
    ensures found { Finds name.now views.now.private result }
{
    match join(alloc, all) {
        Err(_) => Err(CheckFault::NoMemory),
        Ok(places) => chains_of(alloc, name, views, all, &places, nodes),
    }
}

// Phase `chain`: the live records of these nodes, which have these extents, and the places that were seen.
fn records_of(
    alloc: Global,
    name: &Name,
    views: &Views,
    chains: &[Vec<(u32, u32)>],
    extents: &[(u32, u32)],
    seen: &mut BTreeSet<u64>,
) -> Result<Vec<Vec<(u32, u32)>>, CheckFault>
    requires clear { Clear5 name.now views.now.private (map (λ ps. ps.items) chains.now) }
    requires extents { extents.now ≡ flat_map (λ o. o.extents) (owners name.now views.now.private (map (λ ps. ps.items) chains.now)) }
    requires none { Knows seen.old [] }
    ensures clear { IfOk result (λ records. Clear6 name.now views.now.private (map (λ ps. ps.items) chains.now) (map (λ ps. ps.items) records.items)) }
    ensures seen { IfOk result (λ records. Knows seen.new (seen_after [] (map (λ ps. ps.items) records.items))) }
    ensures found { Finds name.now views.now.private result }
{
    match live_records(alloc, views, extents, seen) {
        Ok(records) => Ok(records),
        Err(broken) => Err(fault(broken, What::Chain)),
    }
}

// Phase `deleted`: the deleted blocks of these nodes, behind the live records.
fn blocks_of<'a>(
    alloc: Global,
    name: &Name,
    views: &'a Views,
    chains: &[Vec<(u32, u32)>],
    owned: &[Owned<'a>],
    records: &[Vec<(u32, u32)>],
    seen: &mut BTreeSet<u64>,
) -> Result<Vec<Vec<(u32, u32)>>, CheckFault>
    requires clear { Clear6 name.now views.now.private (map (λ ps. ps.items) chains.now) (map (λ ps. ps.items) records.now) }
    requires owned { map owner_of owned.now ≡ owners name.now views.now.private (map (λ ps. ps.items) chains.now) }
    requires seen { Knows seen.old (seen_after [] (map (λ ps. ps.items) records.now)) }
    ensures clear { IfOk result (λ blocks. Clear7 name.now views.now.private (map (λ ps. ps.items) chains.now) (map (λ ps. ps.items) records.now) (map (λ ps. ps.items) blocks.items)) }
    ensures found { Finds name.now views.now.private result }
{
    match deleted_blocks(alloc, views, owned, seen) {
        Ok(blocks) => Ok(blocks),
        Err(broken) => Err(fault(broken, What::Deleted)),
    }
}

// The places of the live records and of the deleted blocks.
fn placed_of(
    alloc: Global,
    records: &[Vec<(u32, u32)>],
    blocks: &[Vec<(u32, u32)>],
) -> Result<Vec<(u32, u32)>, AllocError>
    ensures { IfOk result (λ placed. placed.items ≡ joined (map (λ ps. ps.items) records.now) ++ joined (map (λ ps. ps.items) blocks.now)) }
{
    let mut placed = join(alloc, records)?;
    let more = join(alloc, blocks)?;
    placed.extend_from_slice(&more)?;
    Ok(placed)
}

// Phase `tiling`, over the extents of these nodes.
fn check_gaps(
    alloc: Global,
    name: &Name,
    views: &Views,
    chains: &[Vec<(u32, u32)>],
    extents: &[(u32, u32)],
    records: &[Vec<(u32, u32)>],
    blocks: &[Vec<(u32, u32)>],
) -> Result<(), CheckFault>
    requires clear { Clear7 name.now views.now.private (map (λ ps. ps.items) chains.now) (map (λ ps. ps.items) records.now) (map (λ ps. ps.items) blocks.now) }
    requires extents { extents.now ≡ flat_map (λ o. o.extents) (owners name.now views.now.private (map (λ ps. ps.items) chains.now)) }
    ensures clear { OnOk result (Clear8 name.now views.now.private (map (λ ps. ps.items) chains.now) (map (λ ps. ps.items) records.now) (map (λ ps. ps.items) blocks.now)) }
    ensures found { Finds name.now views.now.private result }
{
    let placed = match placed_of(alloc, records, blocks) {
        Ok(placed) => placed,
        Err(_) => return Err(CheckFault::NoMemory),
    };
    match first_gap_of(alloc, views, &placed, extents) {
        Err(_) => Err(CheckFault::NoMemory),
        Ok(at) => outcome(at, What::Tiling),
    }
}

// Phase `counts`, over these nodes.
fn check_counts(
    alloc: Global,
    name: &Name,
    views: &Views,
    chains: &[Vec<(u32, u32)>],
    owned: &[Owned<'_>],
    records: &[Vec<(u32, u32)>],
    blocks: &[Vec<(u32, u32)>],
) -> Result<(), CheckFault>
    requires clear { Clear8 name.now views.now.private (map (λ ps. ps.items) chains.now) (map (λ ps. ps.items) records.now) (map (λ ps. ps.items) blocks.now) }
    requires owned { map owner_of owned.now ≡ owners name.now views.now.private (map (λ ps. ps.items) chains.now) }
    ensures clear { OnOk result (Clear9 name.now views.now.private (map (λ ps. ps.items) chains.now) (map (λ ps. ps.items) records.now) (map (λ ps. ps.items) blocks.now)) }
    ensures found { Finds name.now views.now.private result }
{
    match wrong_counts(alloc, views, owned, records) {
        Err(_) => Err(CheckFault::NoMemory),
        Ok(at) => outcome(at, What::Counts),
    }
}

// Phases `tiling` and `counts`, over what the phases before found.
fn check_placed<'a>(
    alloc: Global,
    name: &Name,
    views: &'a Views,
    chains: &[Vec<(u32, u32)>],
    owned: &[Owned<'a>],
    extents: &[(u32, u32)],
    records: &[Vec<(u32, u32)>],
    blocks: &[Vec<(u32, u32)>],
) -> Result<(), CheckFault>
    requires clear { Clear7 name.now views.now.private (map (λ ps. ps.items) chains.now) (map (λ ps. ps.items) records.now) (map (λ ps. ps.items) blocks.now) }
    requires owned { map owner_of owned.now ≡ owners name.now views.now.private (map (λ ps. ps.items) chains.now) }
    requires extents { extents.now ≡ flat_map (λ o. o.extents) (owners name.now views.now.private (map (λ ps. ps.items) chains.now)) }
    ensures clear { OnOk result (IsClear name.now views.now.private) }
    ensures found { Finds name.now views.now.private result }
{
    match check_gaps(alloc, name, views, chains, extents, records, blocks) {
        Err(fault) => Err(fault),
        Ok(()) => check_counts(alloc, name, views, chains, owned, records, blocks),
    }
}

// Phases `deleted` to `counts`, behind the live records.
fn check_deleted<'a>(
    alloc: Global,
    name: &Name,
    views: &'a Views,
    chains: &[Vec<(u32, u32)>],
    owned: &[Owned<'a>],
    extents: &[(u32, u32)],
    records: &[Vec<(u32, u32)>],
    seen: &mut BTreeSet<u64>,
) -> Result<(), CheckFault>
    requires clear { Clear6 name.now views.now.private (map (λ ps. ps.items) chains.now) (map (λ ps. ps.items) records.now) }
    requires owned { map owner_of owned.now ≡ owners name.now views.now.private (map (λ ps. ps.items) chains.now) }
    requires extents { extents.now ≡ flat_map (λ o. o.extents) (owners name.now views.now.private (map (λ ps. ps.items) chains.now)) }
    requires seen { Knows seen.old (seen_after [] (map (λ ps. ps.items) records.now)) }
    ensures clear { OnOk result (IsClear name.now views.now.private) }
    ensures found { Finds name.now views.now.private result }
{
    match blocks_of(alloc, name, views, chains, owned, records, seen) {
        Err(fault) => Err(fault),
        Ok(blocks) => check_placed(alloc, name, views, chains, owned, extents, records, &blocks),
    }
}

// Phases `chain` to `counts`, over these nodes and their extents.
fn check_owned<'a>(
    alloc: Global,
    name: &Name,
    views: &'a Views,
    chains: &[Vec<(u32, u32)>],
    owned: &[Owned<'a>],
    extents: &[(u32, u32)],
) -> Result<(), CheckFault>
    requires clear { Clear5 name.now views.now.private (map (λ ps. ps.items) chains.now) }
    requires owned { map owner_of owned.now ≡ owners name.now views.now.private (map (λ ps. ps.items) chains.now) }
    requires extents { extents.now ≡ flat_map (λ o. o.extents) (owners name.now views.now.private (map (λ ps. ps.items) chains.now)) }
    ensures clear { OnOk result (IsClear name.now views.now.private) }
    ensures found { Finds name.now views.now.private result }
{
    let mut seen = BTreeSet::new(alloc);
    match records_of(alloc, name, views, chains, extents, &mut seen) {
        Err(fault) => Err(fault),
        Ok(records) => {
            check_deleted(
                alloc, name, views, chains, owned, extents, &records, &mut seen,
            )
        }
    }
}

// Phases `chain` to `counts`, over these nodes.
fn check_kept<'a>(
    alloc: Global,
    name: &Name,
    views: &'a Views,
    chains: &[Vec<(u32, u32)>],
    owned: &[Owned<'a>],
) -> Result<(), CheckFault>
    requires clear { Clear5 name.now views.now.private (map (λ ps. ps.items) chains.now) }
    requires owned { map owner_of owned.now ≡ owners name.now views.now.private (map (λ ps. ps.items) chains.now) }
    ensures clear { OnOk result (IsClear name.now views.now.private) }
    ensures found { Finds name.now views.now.private result }
{
    match extents_of(alloc, owned) {
        Err(_) => Err(CheckFault::NoMemory),
        Ok(extents) => check_owned(alloc, name, views, chains, owned, &extents),
    }
}

// Phases `chain` to `counts`, of the nodes with these chains.
fn check_chains<'a>(
    alloc: Global,
    name: &Name,
    views: &'a Views,
    forms: &Forms,
    nodes: &[u32],
    chains: &'a [Vec<(u32, u32)>],
) -> Result<(), CheckFault>
    requires clear { Clear5 name.now views.now.private (map (λ ps. ps.items) chains.now) }
    requires forms { IsForms name.now forms.now }
    requires nodes { nodes.now ≡ nodes_in views.now.private }
    ensures clear { OnOk result (IsClear name.now views.now.private) }
    ensures found { Finds name.now views.now.private result }
{
    match without(alloc, views, &forms.free, nodes, chains) {
        Err(_) => Err(CheckFault::NoMemory),
        Ok(owned) => check_kept(alloc, name, views, chains, &owned),
    }
}

// Phases `extents` to `counts`, of the files with these extents.
fn check_extents(
    alloc: Global,
    name: &Name,
    views: &Views,
    forms: &Forms,
    all: &[Vec<(u32, u32)>],
) -> Result<(), CheckFault>
    requires clear { Clear3 name.now views.now.private (map (λ ps. ps.items) all.now) }
    requires forms { IsForms name.now forms.now }
    ensures clear { OnOk result (IsClear name.now views.now.private) }
    ensures found { Finds name.now views.now.private result }
{
    let nodes = match used_nodes(alloc, views) {
        Ok(nodes) => nodes,
        Err(_) => return Err(CheckFault::NoMemory),
    };
    match extents_of_nodes(alloc, name, views, all, &nodes) {
        Err(fault) => Err(fault),
        Ok(chains) => check_chains(alloc, name, views, forms, &nodes, &chains),
    }
}

// Phases `extent` to `counts`.
fn check_chained(alloc: Global, name: &Name, views: &Views, forms: &Forms) -> Result<(), CheckFault>
    requires clear { Clear2 name.now views.now.private }
    requires forms { IsForms name.now forms.now }
    ensures clear { OnOk result (IsClear name.now views.now.private) }
    ensures found { Finds name.now views.now.private result }
{
    match extents_in_files(alloc, name, views) {
        Err(fault) => Err(fault),
        Ok(all) => check_extents(alloc, name, views, forms, &all),
    }
}

// All phases up to `counts`.
fn check_phases(alloc: Global, name: &Name, views: &Views, forms: &Forms) -> Result<(), CheckFault>
    requires { IsForms name.now forms.now }
    ensures clear { OnOk result (IsClear name.now views.now.private) }
    ensures found { Finds name.now views.now.private result }
{
    match check_tables(alloc, name, views, forms) {
        Err(fault) => Err(fault),
        Ok(()) => check_chained(alloc, name, views, forms),
    }
}

/// The first finding of the phases `file` to `counts` in the private image of a database's files, or Ok exactly where they find nothing. Only
/// this finding is the first. Where one is found, points 1 to 5 of what stands hold of the files with no shape; with Ok they hold with some,
/// the database's name having no dot. After `NoMemory` nothing is known.
pub fn check_files(alloc: Global, name: &Name, views: &Views) -> Result<(), CheckFault>
    ensures clear { OnOk result (IsClear name.now views.now.private) }
    ensures none { OnOk result ((what : What) (at : Place) → IsFinding name.now views.now.private what at → ⊥) }
    ensures found { Finds name.now views.now.private result }
    ensures only { IfFound result (λ f. (what : What) (at : Place) → IsFinding name.now views.now.private what at → (what ≡ f.what) × (at ≡ (f.file, f.at))) }
    ensures unclear { IfFound result (λ f. IsClear name.now views.now.private → ⊥) }
    ensures stands { OnOk result (HasNoDot name.now → (s : Shape) × HasShape name.now views.now.private s) }
    ensures nowhere { IfFound result (λ f. (s : Shape) → HasShape name.now views.now.private s → ⊥) }
{
    match forms_of(alloc, name.bytes()) {
        Err(_) => Err(CheckFault::NoMemory),
        Ok(forms) => check_phases(alloc, name, views, &forms),
    }
}
