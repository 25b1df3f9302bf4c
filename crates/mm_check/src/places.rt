//! Places that were seen.

ghost use Rattle.std.specs.Prelude.{◌≡◌, ◌++◌, ◌∷◌, List, [], IfOk, OnOk, map};
ghost use Rattle.mm_links.specs.Links.{Place, has};
ghost use Rattle.mm_walk.specs.Walk.{Knows};
ghost use Rattle.mm_check.specs.Findings.{joined};

use mm_walk::key;
use std::alloc::{AllocError, Global};
use std::collections::BTreeSet;

// A place is one of those that the set has.
pub(crate) fn is_known(set: &BTreeSet<u64>, at: (u32, u32)) -> bool
    ensures { (seen : List Place) → Knows set.now seen → result ≡ has seen at }
{
    set.contains(&key(at))
}

// The places of lists, one list behind the other.
pub(crate) fn join(alloc: Global, lists: &[Vec<(u32, u32)>]) -> Result<Vec<(u32, u32)>, AllocError>
    ensures { IfOk result (λ all. all.items ≡ joined (map (λ ps. ps.items) lists.now)) }
{
    let mut all = Vec::new(alloc);
    for places in lists {
        all.extend_from_slice(places)?;
    }
    Ok(all)
}

// Adds a place to those that the set has.
fn add(set: &mut BTreeSet<u64>, file: u32, ofs: u32) -> Result<(), AllocError>
    ensures { OnOk result ((seen : List Place) → Knows set.old seen → Knows set.new (seen ++ (file, ofs) ∷ [])) }
{
    set.insert(key((file, ofs)))?;
    Ok(())
}

// The set of some places.
pub(crate) fn known(alloc: Global, places: &[(u32, u32)]) -> Result<BTreeSet<u64>, AllocError>
    ensures { IfOk result (λ set. Knows set places.now) }
{
    let mut set = BTreeSet::new(alloc);
    for i in 0..places.len() {
        add(&mut set, places[i].0, places[i].1)?;
    }
    Ok(set)
}
