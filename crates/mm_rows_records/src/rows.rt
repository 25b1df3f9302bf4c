//! The rows.

ghost use Rattle.std.specs.Prelude.{OnOk, IfOk};
ghost use Rattle.mm_rows_records.specs.Drafted.{AreGood, IsOfRecords};

use crate::calls::{
    begun, dropped, extents, freed, namespace, places, rewritten, room, store, taken,
    written_inside,
};
use crate::draws::{Held, Made, all_right, bytes_of, draw_all};
use crate::layout::place_in;
use crate::names::collection;
use mm_base::{DiskLoc, NoMemory};
use mm_records::{RecordStore, Request, SpaceFault};
use mm_views::Draft;
use std::alloc::Global;
use std::test::Fail;

// The places of a collection's first record, and of another collection's of that name once the first was dropped.
fn anew_in(draft: &mut Draft) -> Result<[DiskLoc; 2], SpaceFault>
    requires { AreGood draft.old.image }
{
    let Some(name) = collection() else {
        return Err(SpaceFault::NoMemory);
    };
    let a = place_in(draft, &name, true, Request::Record, &[1; 30])?;
    if !dropped(draft, &name)? {
        return Err(SpaceFault::NoMemory);
    }
    let b = place_in(draft, &name, true, Request::Record, &[2; 60])?;
    Ok([a, b])
}

fn places_anew(alloc: Global) -> Result<[DiskLoc; 2], SpaceFault> {
    let mut draft = begun(alloc)?;
    anew_in(&mut draft)
}

// The records of a collection that is there then.
fn collected(draft: &mut Draft) -> Result<RecordStore, SpaceFault>
    requires { AreGood draft.old.image }
    ensures good { OnOk result (AreGood draft.new.image) }
    ensures node { IfOk result (λ store. IsOfRecords draft.new.image store.node) }
{
    let Some(name) = collection() else {
        return Err(SpaceFault::NoMemory);
    };
    namespace(draft, &name, true)?;
    match store(draft, &name) {
        Some(store) => Ok(store),
        None => Err(SpaceFault::NoMemory),
    }
}

// How many payloads of so many bytes find a place, up to a number of them.
fn fitting_in(draft: &mut Draft, payload: &[u8], most: u32) -> Result<u32, SpaceFault>
    requires { AreGood draft.old.image }
{
    let store = collected(draft)?;
    for count in 0..most {
        match taken(draft, store, Request::Record, payload) {
            Ok(_) => {}
            Err(SpaceFault::NoSpace) => return Ok(count),
            Err(SpaceFault::NoMemory) => return Err(SpaceFault::NoMemory),
        }
    }
    Ok(most)
}

fn fitting(alloc: Global, len: u32, most: u32) -> Result<u32, SpaceFault> {
    let payload = bytes_of(alloc, Made { seed: 0, len })?;
    let mut draft = begun(alloc)?;
    fitting_in(&mut draft, payload.as_slice(), most)
}

// The places of three records, of the first two again once they were freed, and of one more.
fn taken_again(draft: &mut Draft) -> Result<[DiskLoc; 5], SpaceFault>
    requires { AreGood draft.old.image }
{
    let store = collected(draft)?;
    let a = taken(draft, store, Request::Record, &[1; 100])?;
    let b = taken(draft, store, Request::Record, &[2; 40])?;
    let c = taken(draft, store, Request::Record, &[3; 100])?;
    freed(draft, store, a)?;
    let d = taken(draft, store, Request::Record, &[4; 90])?;
    freed(draft, store, b)?;
    let e = taken(draft, store, Request::Record, &[5; 48])?;
    Ok([a, b, c, d, e])
}

fn places_again(alloc: Global) -> Result<[DiskLoc; 5], SpaceFault> {
    let mut draft = begun(alloc)?;
    taken_again(&mut draft)
}

// The room of a record of 100 bytes once five of them were written, and six bytes behind its end weren't.
fn written_in(alloc: Global, draft: &mut Draft) -> Result<Vec<u8>, SpaceFault>
    requires { AreGood draft.old.image }
{
    let store = collected(draft)?;
    let at = taken(draft, store, Request::Record, &[1; 100])?;
    written_inside(alloc, draft, store, at, 10, &[9; 5])?;
    written_inside(alloc, draft, store, at, 107, &[8; 6])?;
    Ok(room(alloc, draft, store, at)?)
}

fn room_written(alloc: Global) -> Result<Vec<u8>, SpaceFault> {
    let mut draft = begun(alloc)?;
    written_in(alloc, &mut draft)
}

// Whether payloads of a record's room, and of a byte more, are written there; and what the room holds then.
fn filled_in(alloc: Global, draft: &mut Draft) -> Result<(bool, bool, Vec<u8>), SpaceFault>
    requires { AreGood draft.old.image }
{
    let store = collected(draft)?;
    let at = taken(draft, store, Request::Record, &[1; 100])?;
    let whole = rewritten(draft, store, at, &[2; 112])?;
    let longer = rewritten(draft, store, at, &[3; 113])?;
    Ok((whole, longer, room(alloc, draft, store, at)?))
}

fn room_filled(alloc: Global) -> Result<(bool, bool, Vec<u8>), SpaceFault> {
    let mut draft = begun(alloc)?;
    filled_in(alloc, &mut draft)
}

// Frees the records of these numbers one after the other, and says whether those that are left stand in their order each time.
fn frees_in(
    alloc: Global,
    draft: &mut Draft,
    store: RecordStore,
    left: &mut Vec<DiskLoc>,
    order: &[usize],
) -> Result<bool, NoMemory>
    requires good { AreGood draft.old.image }
    requires node { IsOfRecords draft.old.image store.node }
{
    for which in order {
        if *which >= left.len() {
            return Ok(false);
        }
        let at = left.remove(*which);
        if !freed(draft, store, at)? {
            return Ok(false);
        }
        if places(alloc, draft, store)?.as_slice() != left.as_slice() {
            return Ok(false);
        }
    }
    Ok(true)
}

// Takes so many records of the collection, of one payload.
fn fill(
    draft: &mut Draft,
    store: RecordStore,
    left: &mut Vec<DiskLoc>,
    count: usize,
    payload: &[u8],
) -> Result<(), SpaceFault>
    requires good { AreGood draft.old.image }
    requires node { IsOfRecords draft.old.image store.node }
    ensures good { OnOk result (AreGood draft.new.image) }
    ensures node { OnOk result (IsOfRecords draft.new.image store.node) }
{
    for step in 0..count {
        let at = taken(draft, store, Request::Record, payload)?;
        if left.push(at).is_err() {
            return Err(SpaceFault::NoMemory);
        }
    }
    Ok(())
}

fn chain_in(alloc: Global, draft: &mut Draft, order: &[usize]) -> Result<bool, SpaceFault>
    requires { AreGood draft.old.image }
{
    let store = collected(draft)?;
    let mut left = Vec::new(alloc);
    fill(draft, store, &mut left, order.len(), &[7; 50])?;
    Ok(frees_in(alloc, draft, store, &mut left, order)?)
}

// Whether a chain of as many records as the order has numbers stays right while they are freed. Each number is that among those that are left.
fn chain(alloc: Global, order: &[usize]) -> Result<bool, SpaceFault> {
    let mut draft = begun(alloc)?;
    chain_in(alloc, &mut draft, order)
}

// The extents that fifty records of 1000 bytes take.
fn grown_in(alloc: Global, draft: &mut Draft) -> Result<Vec<DiskLoc>, SpaceFault>
    requires { AreGood draft.old.image }
{
    let store = collected(draft)?;
    let mut left = Vec::new(alloc);
    fill(draft, store, &mut left, 50, &[7; 1000])?;
    Ok(extents(alloc, draft, store)?)
}

fn grown(alloc: Global) -> Result<Vec<DiskLoc>, SpaceFault> {
    let mut draft = begun(alloc)?;
    grown_in(alloc, &mut draft)
}

// What many draws leave: whether a record was lost, how many the list has, whether each has its payload, and how many a walk finds.
fn fragments_in(alloc: Global, draft: &mut Draft, draws: u32) -> Result<[usize; 4], SpaceFault>
    requires { AreGood draft.old.image }
{
    let store = collected(draft)?;
    let mut all: Vec<Held> = Vec::new(alloc);
    let lost = draw_all(alloc, draft, store, &mut all, draws)?;
    let right = all_right(alloc, draft, store, all.as_slice())?;
    let walked = places(alloc, draft, store)?;
    Ok([lost as usize, all.len(), usize::from(right), walked.len()])
}

fn fragments(alloc: Global, draws: u32) -> Result<[usize; 4], SpaceFault> {
    let mut draft = begun(alloc)?;
    fragments_in(alloc, &mut draft, draws)
}

// Each payload of 16 MiB asks for 17 MiB, and each extent for 4096 bytes more: the file of 32 MiB has one, those of 64 MiB three each.
#[test]
fn seven_large_ones(rt: HostRuntime) -> Result<(), Fail> {
    let count = fitting(rt.alloc(), 16_777_216, 9)?;
    assert_eq!(rt; count, 7);
    Ok(())
}

// Each extent is twice as long as the one before it: of 16,384, 32,768 and 65,536 bytes, with 15, 31 and the other 4 of these records.
#[test]
fn growing_extents(rt: HostRuntime) -> Result<(), Fail> {
    let extents = grown(rt.alloc())?;
    let offsets = [8192, 24576, 57344];
    assert_eq!(rt; extents.len(), 3);
    for (at, ofs) in extents.iter().zip(offsets.iter()) {
        assert_eq!(rt; at.file, 0);
        assert_eq!(rt; at.ofs, *ofs);
    }
    Ok(())
}

#[test]
fn the_same_places(rt: HostRuntime) -> Result<(), Fail> {
    let [a, b, c, d, e] = places_again(rt.alloc())?;
    assert_eq!(rt; d, a);
    assert_eq!(rt; e, b);
    assert_eq!(rt; c.ofs, b.ofs.wrapping_add(64));
    assert_eq!(rt; b.ofs, a.ofs.wrapping_add(128));
    Ok(())
}

// The extent of a dropped collection is the next one's.
#[test]
fn a_dropped_collection(rt: HostRuntime) -> Result<(), Fail> {
    let [a, b] = places_anew(rt.alloc())?;
    assert_eq!(rt; a, b);
    Ok(())
}

#[test]
fn a_part_of_a_room(rt: HostRuntime) -> Result<(), Fail> {
    let room = room_written(rt.alloc())?;
    assert_eq!(rt; room.len(), 112);
    assert_eq!(rt;
        &room.as_slice()[8..17],
        [1, 1, 9, 9, 9, 9, 9, 1, 1].as_slice()
    );
    assert_eq!(rt;
        &room.as_slice()[98..112],
        [1, 1, 0, 0, 0, 0, 0, 0, 0, 0, 0, 0, 0, 0].as_slice()
    );
    Ok(())
}

#[test]
fn a_payload_too_long(rt: HostRuntime) -> Result<(), Fail> {
    let (whole, longer, room) = room_filled(rt.alloc())?;
    assert_eq!(rt; (whole, longer), (true, false));
    assert_eq!(rt; room.as_slice(), [2; 112].as_slice());
    Ok(())
}

#[test]
fn chains_of_one_to_three(rt: HostRuntime) -> Result<(), Fail> {
    let orders: [&[usize]; 9] = [
        &[0],
        &[0, 0],
        &[1, 0],
        &[0, 0, 0],
        &[0, 1, 0],
        &[1, 0, 0],
        &[1, 1, 0],
        &[2, 0, 0],
        &[2, 1, 0],
    ];
    for order in orders {
        let right = chain(rt.alloc(), order)?;
        assert!(rt; right, "{order:?}");
    }
    Ok(())
}

#[test]
fn many_draws(rt: HostRuntime) -> Result<(), Fail> {
    let [lost, held, right, walked] = fragments(rt.alloc(), 2000)?;
    assert_eq!(rt; lost, 0);
    assert_eq!(rt; right, 1);
    assert_eq!(rt; walked, held);
    assert!(rt; held > 200);
    Ok(())
}
