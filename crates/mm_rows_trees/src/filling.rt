//! An index that is filled before it is asked.

ghost use Rattle.std.specs.Prelude.{IfOk, OnOk};
ghost use Rattle.mm_rows_trees.specs.Ready.{IsBare, HasSome};

use crate::drill::step;
use crate::index::made;
use crate::keys::{Keys, record};
use crate::orders::{Order, ordered};
use mm_base::DiskLoc;
use mm_btree::TreeFault;
use mm_trees::Tree;
use mm_views::Draft;
use std::alloc::Global;

// Pairs come in an order, none of which is there.
fn fill(
    alloc: Global,
    draft: &mut Draft,
    tree: &Tree,
    keys: Keys,
    order: &[u32],
) -> Result<(), TreeFault>
    requires { HasSome draft.old.image tree.now.store.node tree.now.owner tree.now.position tree.now.spec }
    ensures { OnOk result (HasSome draft.new.image tree.now.store.node tree.now.owner tree.now.position tree.now.spec) }
{
    for at in 0..order.len() {
        let _is_new = step(alloc, draft, tree, keys, order[at], true)?;
    }
    Ok(())
}

/// An index of a new database with so many pairs, which came in a drawn order.
pub(crate) fn filled(
    alloc: Global,
    draft: &mut Draft,
    keys: Keys,
    count: u32,
) -> Result<Tree, TreeFault>
    requires { IsBare draft.old.image }
    ensures { IfOk result (λ tree. HasSome draft.new.image tree.store.node tree.owner tree.position tree.spec) }
{
    let order = ordered(alloc, Order::Drawn, count, 1)?;
    let tree = made(alloc, draft)?;
    fill(alloc, draft, &tree, keys, order.as_slice())?;
    Ok(tree)
}

/// Whether the records are those of the numbers from one up to another, in their order.
pub(crate) fn are(records: &[DiskLoc], from: u32, to: u32) -> bool {
    let mut i = from;
    for rec in records.iter() {
        if *rec != record(i) {
            return false;
        }
        i = i.wrapping_add(1);
    }
    i == to
}
