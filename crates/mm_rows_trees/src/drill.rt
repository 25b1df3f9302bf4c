//! Pairs come in one order and go in another, and the index is compared with a list all the way.

ghost use Rattle.std.specs.Prelude.{OnOk};
ghost use Rattle.mm_rows_trees.specs.Ready.{IsBare, HasSome};

use crate::files::begun;
use crate::index::{buckets, listed, made, put, taken};
use crate::keys::{Keys, key, record};
use crate::orders::{Order, ordered};
use mm_base::{DiskLoc, NoMemory};
use mm_btree::TreeFault;
use mm_trees::Tree;
use mm_views::Draft;
use std::alloc::Global;
use std::test::Fail;

/// What a drill found.
#[derive(Clone, Copy)]
struct Found {
    // each step did what it should, and so did each comparison
    right: bool,
    // the buckets once all pairs were in
    most: i64,
    // and once all were out
    least: i64,
}

// Whether the records are those of the numbers that are there, in their order.
fn agree(records: &[DiskLoc], there: &[bool]) -> bool {
    let mut rest = records.iter();
    let mut i = 0_u32;
    for is_there in there.iter() {
        if *is_there && rest.next() != Some(&record(i)) {
            return false;
        }
        i = i.wrapping_add(1);
    }
    rest.next().is_none()
}

// Whether the index lists what is there.
fn lists(alloc: Global, draft: &Draft, tree: &Tree, there: &[bool]) -> Result<bool, NoMemory>
    requires { HasSome draft.now.image tree.now.store.node tree.now.owner tree.now.position tree.now.spec }
{
    let records = listed(alloc, draft, tree)?;
    Ok(agree(records.as_slice(), there))
}

/// One pair comes or goes.
pub(crate) fn step(
    alloc: Global,
    draft: &mut Draft,
    tree: &Tree,
    keys: Keys,
    i: u32,
    comes: bool,
) -> Result<bool, TreeFault>
    requires { HasSome draft.old.image tree.now.store.node tree.now.owner tree.now.position tree.now.spec }
    ensures { OnOk result (HasSome draft.new.image tree.now.store.node tree.now.owner tree.now.position tree.now.spec) }
{
    let key = key(alloc, keys, i)?;
    if comes {
        put(alloc, draft, tree, &key, record(i))
    } else {
        taken(alloc, draft, tree, &key, record(i))
    }
}

// Notes that a pair came or went.
fn note(there: &mut [bool], i: u32, comes: bool) {
    if let Some(is_there) = there.get_mut(i as usize) {
        *is_there = comes;
    }
}

// Pairs come or go in an order. After each hundredth step the index is compared with what is there.
fn steps(
    alloc: Global,
    draft: &mut Draft,
    tree: &Tree,
    keys: Keys,
    order: &[u32],
    there: &mut [bool],
    comes: bool,
) -> Result<bool, TreeFault>
    requires { HasSome draft.old.image tree.now.store.node tree.now.owner tree.now.position tree.now.spec }
    ensures { OnOk result (HasSome draft.new.image tree.now.store.node tree.now.owner tree.now.position tree.now.spec) }
{
    for at in 0..order.len() {
        let i = order[at];
        if !step(alloc, draft, tree, keys, i, comes)? {
            return Ok(false);
        }
        note(there, i, comes);
        if at % 100 == 99 && !lists(alloc, draft, tree, there)? {
            return Ok(false);
        }
    }
    Ok(true)
}

// All pairs come in one order, and go in another.
fn come_and_go(
    alloc: Global,
    draft: &mut Draft,
    tree: &Tree,
    keys: Keys,
    coming: &[u32],
    going: &[u32],
) -> Result<Found, TreeFault>
    requires { HasSome draft.old.image tree.now.store.node tree.now.owner tree.now.position tree.now.spec }
{
    let mut there = vec![in alloc; false; coming.len()]?;
    let came = steps(alloc, draft, tree, keys, coming, &mut there, true)?;
    let most = buckets(draft, tree);
    let went = steps(alloc, draft, tree, keys, going, &mut there, false)?;
    let empty = lists(alloc, draft, tree, there.as_slice())?;
    Ok(Found {
        right: came && went && empty,
        most,
        least: buckets(draft, tree),
    })
}

// An index of a new database is filled with so many pairs in an order, and emptied in a drawn one.
fn drill_in(
    alloc: Global,
    draft: &mut Draft,
    keys: Keys,
    order: Order,
    count: u32,
) -> Result<Found, TreeFault>
    requires { IsBare draft.old.image }
{
    let coming = ordered(alloc, order, count, 1)?;
    let going = ordered(alloc, Order::Drawn, count, 2)?;
    let tree = made(alloc, draft)?;
    come_and_go(
        alloc,
        draft,
        &tree,
        keys,
        coming.as_slice(),
        going.as_slice(),
    )
}

fn drill(alloc: Global, keys: Keys, order: Order, count: u32) -> Result<Found, TreeFault> {
    let mut draft = begun(alloc)?;
    drill_in(alloc, &mut draft, keys, order, count)
}

// The keys, the order, how many pairs, and how many buckets they have at the least and at the most.
const DRILLS: [(Keys, Order, u32, i64, i64); 9] = [
    (Keys::Numbers, Order::Rising, 281, 1, 1),
    (Keys::Numbers, Order::Rising, 282, 3, 3),
    (Keys::Numbers, Order::Rising, 3000, 12, 24),
    (Keys::Numbers, Order::Falling, 3000, 12, 24),
    (Keys::Numbers, Order::Drawn, 3000, 12, 24),
    (Keys::Equal, Order::Drawn, 3000, 12, 24),
    (Keys::Long, Order::Rising, 7, 1, 1),
    (Keys::Long, Order::Rising, 8, 3, 3),
    // more than 73 buckets of at most eight children each are four levels
    (Keys::Long, Order::Drawn, 3000, 429, 1500),
];

// Pairs come in rising, falling and drawn orders, and go in a drawn one. 281 keys of 11 bytes fit a bucket, and seven of 1024, and one more
// parts it; once all are gone there is one bucket, without keys.
#[test]
fn indexes_list_their_pairs(rt: HostRuntime) -> Result<(), Fail> {
    for (keys, order, count, least, most) in DRILLS {
        let found = drill(rt.alloc(), keys, order, count)?;
        assert!(rt; found.right);
        assert!(rt; found.most >= least && found.most <= most);
        assert_eq!(rt; found.least, 1);
    }
    Ok(())
}
