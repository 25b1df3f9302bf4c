//! What an index answers of its pairs.

ghost use Rattle.mm_rows_trees.specs.Ready.{IsBare, HasSome};

use crate::files::begun;
use crate::filling::{are, filled};
use crate::index::ranged;
use crate::keys::{Keys, key, record};
use mm_base::NoMemory;
use mm_bson::Doc;
use mm_btree::TreeFault;
use mm_query::Bounds;
use mm_trees::Tree;
use mm_views::Draft;
use std::alloc::Global;
use std::test::Fail;

/// A number, and that of the first pair whose key it is.
type Find = (u32, Option<u32>);

/// Two bounds, and the numbers of the pairs between: from the first up to the second.
type Range = (Option<u32>, Option<u32>, u32, u32);

// Whether the first pair of a key is that of this number.
fn finds(alloc: Global, draft: &Draft, tree: &Tree, find: Find) -> Result<bool, NoMemory>
    requires { HasSome draft.now.image tree.now.store.node tree.now.owner tree.now.position tree.now.spec }
{
    let (number, first) = find;
    let key = key(alloc, Keys::Numbers, number)?;
    let found = tree.find(draft, &key)?;
    match first {
        Some(i) => Ok(found == Some(record(i))),
        None => Ok(found.is_none()),
    }
}

fn finds_all(alloc: Global, draft: &Draft, tree: &Tree, asked: &[Find]) -> Result<bool, NoMemory>
    requires { HasSome draft.now.image tree.now.store.node tree.now.owner tree.now.position tree.now.spec }
{
    for find in asked.iter() {
        if !finds(alloc, draft, tree, *find)? {
            return Ok(false);
        }
    }
    Ok(true)
}

fn bound(alloc: Global, number: Option<u32>) -> Result<Option<Doc>, NoMemory> {
    match number {
        None => Ok(None),
        Some(number) => {
            let key = key(alloc, Keys::Numbers, number)?;
            Ok(Some(key))
        }
    }
}

fn bounds(alloc: Global, low: Option<u32>, high: Option<u32>) -> Result<Bounds, NoMemory> {
    let low = bound(alloc, low)?;
    let high = bound(alloc, high)?;
    Ok(Bounds { low, high })
}

// Whether the pairs between two bounds are those of these numbers.
fn ranges(alloc: Global, draft: &Draft, tree: &Tree, range: Range) -> Result<bool, NoMemory>
    requires { HasSome draft.now.image tree.now.store.node tree.now.owner tree.now.position tree.now.spec }
{
    let (low, high, from, to) = range;
    let bounds = bounds(alloc, low, high)?;
    let records = ranged(alloc, draft, tree, &bounds)?;
    Ok(are(records.as_slice(), from, to))
}

fn ranges_all(alloc: Global, draft: &Draft, tree: &Tree, asked: &[Range]) -> Result<bool, NoMemory>
    requires { HasSome draft.now.image tree.now.store.node tree.now.owner tree.now.position tree.now.spec }
{
    for range in asked.iter() {
        if !ranges(alloc, draft, tree, *range)? {
            return Ok(false);
        }
    }
    Ok(true)
}

fn answers_in(
    alloc: Global,
    draft: &mut Draft,
    keys: Keys,
    count: u32,
    asked: &[Find],
    between: &[Range],
) -> Result<bool, TreeFault>
    requires { IsBare draft.old.image }
{
    let tree = filled(alloc, draft, keys, count)?;
    let found = finds_all(alloc, draft, &tree, asked)?;
    let listed = ranges_all(alloc, draft, &tree, between)?;
    Ok(found && listed)
}

// Whether an index of so many pairs finds and lists what it should.
fn answers(
    alloc: Global,
    keys: Keys,
    count: u32,
    asked: &[Find],
    between: &[Range],
) -> Result<bool, TreeFault> {
    let mut draft = begun(alloc)?;
    answers_in(alloc, &mut draft, keys, count, asked, between)
}

// -1, as a key has it.
const MINUS_ONE: u32 = 4_294_967_295;

// The keys 0, 2 and so on to 598 have three records each.
const FINDS_OF_THREES: [Find; 8] = [
    (0, Some(0)),
    (1, None),
    (2, Some(3)),
    (300, Some(450)),
    (598, Some(897)),
    (599, None),
    (600, None),
    (MINUS_ONE, None),
];

const RANGES_OF_THREES: [Range; 12] = [
    (None, None, 0, 900),
    (Some(0), Some(0), 0, 3),
    (Some(10), Some(20), 15, 33),
    (Some(11), Some(19), 18, 30),
    (Some(100), Some(500), 150, 753),
    (Some(598), None, 897, 900),
    (Some(599), None, 900, 900),
    (None, Some(0), 0, 3),
    (None, Some(597), 0, 897),
    (None, Some(MINUS_ONE), 0, 0),
    (Some(3), Some(3), 6, 6),
    (Some(20), Some(10), 30, 30),
];

// The keys 0, 1 and 2 have 300 records each, more than a bucket holds.
const FINDS_OF_EQUAL: [Find; 5] = [
    (0, Some(0)),
    (1, Some(300)),
    (2, Some(600)),
    (3, None),
    (MINUS_ONE, None),
];

const RANGES_OF_EQUAL: [Range; 6] = [
    (None, None, 0, 900),
    (Some(0), Some(0), 0, 300),
    (Some(1), Some(1), 300, 600),
    (Some(1), None, 300, 900),
    (None, Some(1), 0, 600),
    (Some(3), None, 900, 900),
];

#[test]
fn keys_are_found_and_lie_between_bounds(rt: HostRuntime) -> Result<(), Fail> {
    let alloc = rt.alloc();
    assert!(rt;
        answers(
            alloc,
            Keys::Threes,
            900,
            &FINDS_OF_THREES,
            &RANGES_OF_THREES
        )?
    );
    assert!(rt; answers(alloc, Keys::Equal, 900, &FINDS_OF_EQUAL, &RANGES_OF_EQUAL)?);
    assert!(rt; answers(alloc, Keys::Numbers, 0, &[(0, None)], &[(None, None, 0, 0)])?);
    Ok(())
}
