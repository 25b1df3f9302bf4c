//! What a unique index refuses, and what isn't there to be taken out.

ghost use Rattle.std.specs.Prelude.{OnOk};
ghost use Rattle.mm_rows_trees.specs.Ready.{IsBare, HasSome};

use crate::files::begun;
use crate::filling::{are, filled};
use crate::index::{buckets, listed, put_alone, taken};
use crate::keys::{Keys, key, record};
use mm_base::NoMemory;
use mm_btree::TreeFault;
use mm_trees::Tree;
use mm_views::Draft;
use std::alloc::Global;
use std::test::Fail;

// The record of no pair.
fn other(i: u32) -> u32 {
    i.wrapping_add(2000)
}

// Whether a pair of this number's key and another record goes into the index as a unique one.
fn goes_in(alloc: Global, draft: &mut Draft, tree: &Tree, i: u32) -> Result<bool, TreeFault>
    requires { HasSome draft.old.image tree.now.store.node tree.now.owner tree.now.position tree.now.spec }
    ensures { OnOk result (HasSome draft.new.image tree.now.store.node tree.now.owner tree.now.position tree.now.spec) }
{
    let key = key(alloc, Keys::Numbers, i)?;
    put_alone(alloc, draft, tree, &key, record(other(i)))
}

// Whether a pair of this number's key and the record of another number is taken out.
fn goes_out(
    alloc: Global,
    draft: &mut Draft,
    tree: &Tree,
    i: u32,
    rec: u32,
) -> Result<bool, TreeFault>
    requires { HasSome draft.old.image tree.now.store.node tree.now.owner tree.now.position tree.now.spec }
    ensures { OnOk result (HasSome draft.new.image tree.now.store.node tree.now.owner tree.now.position tree.now.spec) }
{
    let key = key(alloc, Keys::Numbers, i)?;
    taken(alloc, draft, tree, &key, record(rec))
}

// Whether any pair goes in whose key is there, or out that isn't there.
fn any_goes(alloc: Global, draft: &mut Draft, tree: &Tree, count: u32) -> Result<bool, TreeFault>
    requires { HasSome draft.old.image tree.now.store.node tree.now.owner tree.now.position tree.now.spec }
    ensures { OnOk result (HasSome draft.new.image tree.now.store.node tree.now.owner tree.now.position tree.now.spec) }
{
    for i in 0..count {
        let twice = goes_in(alloc, draft, tree, i)?;
        let of_other = goes_out(alloc, draft, tree, i, other(i))?;
        let of_none = goes_out(alloc, draft, tree, other(i), i)?;
        if twice || of_other || of_none {
            return Ok(true);
        }
    }
    Ok(false)
}

// Whether the index lists the pairs of the first numbers.
fn lists(alloc: Global, draft: &Draft, tree: &Tree, count: u32) -> Result<bool, NoMemory>
    requires { HasSome draft.now.image tree.now.store.node tree.now.owner tree.now.position tree.now.spec }
{
    let records = listed(alloc, draft, tree)?;
    Ok(are(records.as_slice(), 0, count))
}

// All that is refused leaves the index as it was, and a key that isn't there goes in.
fn refuses_in(alloc: Global, draft: &mut Draft, count: u32) -> Result<bool, TreeFault>
    requires { IsBare draft.old.image }
{
    let tree = filled(alloc, draft, Keys::Numbers, count)?;
    let before = buckets(draft, &tree);
    let went = any_goes(alloc, draft, &tree, count)?;
    let same = lists(alloc, draft, &tree, count)? && buckets(draft, &tree) == before;
    let comes = goes_in(alloc, draft, &tree, count)?;
    Ok(!went && same && comes)
}

fn refuses(alloc: Global, count: u32) -> Result<bool, TreeFault> {
    let mut draft = begun(alloc)?;
    refuses_in(alloc, &mut draft, count)
}

// Each key of an index is refused with another record, those in the upper buckets too; no pair goes out but by its own key and record.
#[test]
fn equal_keys_and_missing_pairs_are_refused(rt: HostRuntime) -> Result<(), Fail> {
    for count in [0_u32, 1, 281, 1000] {
        assert!(rt; refuses(rt.alloc(), count)?);
    }
    Ok(())
}
