//! The nodes of `.ns`: whether each is right, and the first that isn't.

ghost use Rattle.std.specs.Prelude.{◌≡◌, ◌+◌, ◌<◌, ◌&&◌, ◌==◌, not, ℕ, List, true, IfOk};
ghost use Rattle.std.specs.BTreeSet.{contains, Updates};
ghost use Rattle.std.specs.Ordering.{nat_cmp};
ghost use Rattle.std.specs.Cmp.Lexicographic.{slice_cmp};
ghost use Rattle.mm_nstable.specs.Hash.{hash_of};
ghost use Rattle.mm_nstable.specs.Nodes.{count_of};
ghost use Rattle.mm_records.specs.Stands.{ns_in};
ghost use Rattle.mm_walk.specs.Questions.{first_failing};
ghost use Rattle.mm_check.specs.NodeForms.{IsForms};
ghost use Rattle.mm_check.specs.NodeQuestions.{has_form, has_name, node_right, node_questions};
ghost use Rattle.mm_check.specs.SeenNames.{KnowsNames, NamesAll};

use crate::forms::{Forms, has_form};
use crate::hash::hash;
use crate::nodes::{node_count, node_head, node_ofs};
use mm_base::{NAME_FIELD_LEN, Name};
use mm_frames::NodeHead;
use mm_views::{NS_FILE, Views};
use std::alloc::{AllocError, Global};
use std::collections::BTreeSet;

// The name has one of the forms, and this hash.
fn is_named(forms: &Forms, hashed: u32, name: &Name) -> bool
    ensures { (d : List ℕ) → IsForms d forms.now → result ≡ (has_form d name.now && (hashed == hash_of name.now)) }
{
    if !has_form(forms, name.bytes()) {
        return false;
    }
    hashed == hash(name.bytes())
}

// A used node with a name is right; its field is then one of those that were seen.
fn named_right(
    forms: &Forms,
    head: &NodeHead,
    name: &Name,
    seen: &mut BTreeSet<[u8; NAME_FIELD_LEN]>,
) -> Result<bool, AllocError>
    ensures right { IfOk result (λ right. (d : List ℕ) → IsForms d forms.now → right ≡ (has_form d name.now && ((head.now.hash == hash_of name.now) && not (contains (slice_cmp nat_cmp) seen.old head.now.name)))) }
    ensures seen { IfOk result (λ right. right ≡ true → Updates (slice_cmp nat_cmp) seen.old seen.new head.now.name true) }
{
    if !is_named(forms, head.hash, name) {
        return Ok(false);
    }
    let fresh = seen.insert(head.name)?;
    Ok(fresh)
}

// A node is right; its name, where it is used, is then one of those that were seen.
fn node_right(
    views: &Views,
    forms: &Forms,
    node: u32,
    seen: &mut BTreeSet<[u8; NAME_FIELD_LEN]>,
) -> Result<bool, AllocError>
    requires there { node < count_of (ns_in views.now.private) }
    requires seen { KnowsNames (ns_in views.now.private) node seen.old }
    ensures right { IfOk result (λ right. (d : List ℕ) → IsForms d forms.now → right ≡ node_right d (ns_in views.now.private) node) }
    ensures seen { IfOk result (λ right. right ≡ true → KnowsNames (ns_in views.now.private) (node + 1) seen.new) }
{
    let head = node_head(views, node);
    if head.hash == 0 {
        return Ok(true);
    }
    match Name::from_padded(&head.name) {
        None => Ok(false),
        Some(name) => named_right(forms, &head, &name, seen),
    }
}

// A node with this text was seen among all nodes.
fn is_seen(seen: &BTreeSet<[u8; NAME_FIELD_LEN]>, text: &[u8]) -> bool
    ensures { (bytes : List ℕ) → KnowsNames bytes (count_of bytes) seen.now → NamesAll bytes → result ≡ has_name bytes (count_of bytes) text.now }
{
    match Name::new(text) {
        None => false,
        Some(name) => seen.contains(&name.padded()),
    }
}

/// Phase `node`: where the first node is wrong, or the start of `.ns` where one of the database's own nodes isn't there.
pub(crate) fn wrong_node(
    alloc: Global,
    views: &Views,
    forms: &Forms,
) -> Result<Option<(u32, u32)>, AllocError>
    ensures { IfOk result (λ at. (d : List ℕ) → IsForms d forms.now → at ≡ first_failing (node_questions d (ns_in views.now.private))) }
{
    let mut seen = BTreeSet::new(alloc);
    for node in 0..node_count(views) {
        if !node_right(views, forms, node, &mut seen)? {
            return Ok(Some((NS_FILE, node_ofs(views, node))));
        }
    }
    if !is_seen(&seen, &forms.free) {
        return Ok(Some((NS_FILE, 0)));
    }
    if !is_seen(&seen, &forms.indexes) {
        return Ok(Some((NS_FILE, 0)));
    }
    Ok(None)
}
