//! The phases that follow chains, one function each.

ghost use Rattle.std.specs.Prelude.{◌≡◌, ◌<◌, ℕ, List, [], true, map, flat_map, length, IfOk, All};
ghost use Rattle.mm_links.specs.Links.{Place, has, once};
ghost use Rattle.mm_nstable.specs.Nodes.{count_of};
ghost use Rattle.mm_records.specs.Stands.{ns_in};
ghost use Rattle.mm_walk.specs.Walk.{AreWhole, BreaksFirst, IfBroken, Knows, seen_after};
ghost use Rattle.mm_walk.specs.Questions.{first_failing};
ghost use Rattle.mm_check.specs.ExtentChain.{InFile};
ghost use Rattle.mm_check.specs.FileQuestions.{file_questions};
ghost use Rattle.mm_check.specs.Findings.{file_chains, lists_of};
ghost use Rattle.mm_check.specs.Phases.{reading_of, owner_of, node_chain, record_chain};

use crate::chains::{file_chains, node_chains, node_lists, record_chains};
use crate::owners::Owned;
use crate::places::known;
use crate::records::Records;
use mm_views::Views;
use mm_walk::{Broken, follow_all};
use std::alloc::Global;
use std::collections::BTreeSet;

/// Phase `extent`: the extents of each data file, by number, where the files are right. They are all exactly where each file is extents
/// up to its unused rest, and else the place that is first wrong is answered.
pub fn file_extents(alloc: Global, views: &Views) -> Result<Vec<Vec<(u32, u32)>>, Broken>
    requires { first_failing (file_questions views.now.private) ≡ None }
    ensures whole { IfOk result (λ all. AreWhole [] (file_chains views.now.private) (map (λ ps. ps.items) all.items)) }
    ensures broken { IfBroken result (λ at. BreaksFirst [] (file_chains views.now.private) at) }
{
    let chains = file_chains(alloc, views)?;
    let mut seen = BTreeSet::new(alloc);
    follow_all(alloc, &chains, &mut seen)
}

/// Phase `extents`: the chains of the extents of these nodes, of which `all` are the places, and the places that were seen on them.
pub fn node_extents<'a>(
    alloc: Global,
    views: &'a Views,
    nodes: &[u32],
    all: &'a [(u32, u32)],
    seen: &mut BTreeSet<u64>,
) -> Result<Vec<Vec<(u32, u32)>>, Broken>
    requires nodes { All (λ k. k < count_of (ns_in views.now.private)) nodes.now }
    requires inside { (p : Place) → has all.now p ≡ true → InFile views.now.private p }
    requires none { Knows seen.old [] }
    ensures whole { IfOk result (λ chains. AreWhole [] (map (node_chain views.now.private all.now) nodes.now) (map (λ ps. ps.items) chains.items)) }
    ensures seen { IfOk result (λ chains. Knows seen.new (seen_after [] (map (λ ps. ps.items) chains.items))) }
    ensures broken { IfBroken result (λ at. BreaksFirst [] (map (node_chain views.now.private all.now) nodes.now) at) }
{
    let known = known(alloc, all)?;
    let chains = node_chains(alloc, views, nodes, all, &known)?;
    follow_all(alloc, &chains, seen)
}

/// The live chains of extents, in their order, and the places that were seen on them.
pub fn live_chains(
    alloc: Global,
    extents: &[Records<'_>],
    seen: &mut BTreeSet<u64>,
) -> Result<Vec<Vec<(u32, u32)>>, Broken>
    requires { Knows seen.old [] }
    ensures whole { IfOk result (λ all. AreWhole [] (map reading_of extents.now) (map (λ ps. ps.items) all.items)) }
    ensures seen { IfOk result (λ all. Knows seen.new (seen_after [] (map (λ ps. ps.items) all.items))) }
    ensures broken { IfBroken result (λ at. BreaksFirst [] (map reading_of extents.now) at) }
{
    follow_all(alloc, extents, seen)
}

/// Phase `chain`: the live records of these extents, extent by extent, and the places that were seen.
pub fn live_records(
    alloc: Global,
    views: &Views,
    extents: &[(u32, u32)],
    seen: &mut BTreeSet<u64>,
) -> Result<Vec<Vec<(u32, u32)>>, Broken>
    requires inside { (p : Place) → has extents.now p ≡ true → InFile views.now.private p }
    requires none { Knows seen.old [] }
    ensures whole { IfOk result (λ all. AreWhole [] (map (record_chain views.now.private) extents.now) (map (λ ps. ps.items) all.items)) }
    ensures seen { IfOk result (λ all. Knows seen.new (seen_after [] (map (λ ps. ps.items) all.items))) }
    ensures broken { IfBroken result (λ at. BreaksFirst [] (map (record_chain views.now.private) extents.now) at) }
{
    let chains = record_chains(alloc, views, extents)?;
    live_chains(alloc, &chains, seen)
}

// The deleted blocks of a node, list by list, and the places that were seen.
fn deleted_of<'a>(
    alloc: Global,
    views: &'a Views,
    owner: &Owned<'a>,
    seen: &mut BTreeSet<u64>,
) -> Result<Vec<Vec<(u32, u32)>>, Broken>
    requires node { owner.now.node < count_of (ns_in views.now.private) }
    requires inside { (p : Place) → has owner.now.extents.now p ≡ true → InFile views.now.private p }
    requires some { (before : List Place) × (Knows seen.old before × (once before ≡ true)) }
    ensures whole { IfOk result (λ all. (before : List Place) → Knows seen.old before → once before ≡ true → AreWhole before (lists_of views.now.private (owner_of owner.now)) (map (λ ps. ps.items) all.items)) }
    ensures seen { IfOk result (λ all. (before : List Place) → Knows seen.old before → once before ≡ true → Knows seen.new (seen_after before (map (λ ps. ps.items) all.items))) }
    ensures broken { IfBroken result (λ at. (before : List Place) → Knows seen.old before → once before ≡ true → BreaksFirst before (lists_of views.now.private (owner_of owner.now)) at) }
{
    let known = known(alloc, owner.extents)?;
    let lists = node_lists(alloc, views, owner.node, owner.extents, &known)?;
    follow_all(alloc, &lists, seen)
}

/// Phase `deleted`: the deleted blocks of these nodes, node by node and list by list, behind what was seen before.
pub fn deleted_blocks<'a>(
    alloc: Global,
    views: &'a Views,
    owners: &[Owned<'a>],
    seen: &mut BTreeSet<u64>,
) -> Result<Vec<Vec<(u32, u32)>>, Broken>
    requires nodes { All (λ o. o.node < count_of (ns_in views.now.private)) owners.now }
    requires inside { (p : Place) → has (flat_map (λ o. o.extents) (map owner_of owners.now)) p ≡ true → InFile views.now.private p }
    requires some { (before : List Place) × (Knows seen.old before × (once before ≡ true)) }
    ensures whole { IfOk result (λ all. (before : List Place) → Knows seen.old before → once before ≡ true → AreWhole before (flat_map (lists_of views.now.private) (map owner_of owners.now)) (map (λ ps. ps.items) all.items)) }
    ensures broken { IfBroken result (λ at. (before : List Place) → Knows seen.old before → once before ≡ true → BreaksFirst before (flat_map (lists_of views.now.private) (map owner_of owners.now)) at) }
{
    let mut all = Vec::new(alloc);
    for i in 0..owners.len() {
        match deleted_of(alloc, views, &owners[i], seen) {
            Ok(mut lists) => all.append(&mut lists)?,
            Err(broken) => return Err(broken),
        }
    }
    Ok(all)
}
