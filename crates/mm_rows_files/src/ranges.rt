//! Sets of places, and parts.

use crate::judging::same;
use mm_ranges::{
    Bytes, Closed, Made, MadeList, NoMemory, Part, Piece, PieceList, RangeIter, RangeSet, RoomSet,
    last_piece_decides, one_normal_form,
};
use std::alloc::{AllocError, Global};

/// The first ranges of a set.
type Ranges = [Option<(u32, u32, u32)>; 3];

fn first(mut ranges: RangeIter<'_>) -> Ranges {
    [ranges.next(), ranges.next(), ranges.next()]
}

fn two_ranges(
    set: &mut RangeSet,
    first: (u32, u32, u32),
    second: (u32, u32, u32),
) -> Result<(), NoMemory> {
    for (file, at, len) in [first, second] {
        if 0 < len && at < 10_000 && len < 10_000 {
            set.insert(file, at, len)?;
        }
    }
    Ok(())
}

/// What two ranges that touch weigh.
fn weight(alloc: Global) -> Result<u64, NoMemory> {
    let mut set = RangeSet::new(alloc);
    set.insert(0, 100, 4)?;
    set.insert(0, 104, 4)?;
    Ok(set.weight())
}

/// The ranges of two sets, where the second is put into the first.
fn merge(set: &mut RangeSet, more: &mut RangeSet) -> Result<Ranges, NoMemory> {
    two_ranges(set, (0, 10, 10), (0, 40, 10))?;
    two_ranges(more, (0, 20, 20), (2, 0, 1))?;
    set.merge(more)?;
    one_normal_form(set, set);
    Ok(first(set.iter()))
}

fn merged(alloc: Global) -> Result<Ranges, NoMemory> {
    let mut set = RangeSet::new(alloc);
    let mut more = RangeSet::new(alloc);
    merge(&mut set, &mut more)
}

/// The ranges of a set once there is room for others, and then with the others.
fn fill_room(set: &mut RoomSet, more: &mut RangeSet) -> Result<[Ranges; 2], NoMemory> {
    two_ranges(more, (0, 20, 20), (5, 0, 4096))?;
    set.make_room(more)?;
    let before = first(set.iter());
    set.give_back(more);
    set.make_room(more)?;
    set.merge(more);
    Ok([before, first(set.iter())])
}

fn with_room(alloc: Global) -> Result<[Ranges; 2], NoMemory> {
    let mut set = RoomSet::new(alloc);
    let mut more = RangeSet::new(alloc);
    fill_room(&mut set, &mut more)
}

#[test]
fn sets(rt: HostRuntime) {
    same(&rt, &weight(rt.alloc()), &Ok(20));
    let ranges = [Some((0, 10, 40)), Some((2, 0, 1)), None];
    same(&rt, &merged(rt.alloc()), &Ok(ranges));
    let ranges = [Some((0, 20, 20)), Some((5, 0, 4096)), None];
    same(&rt, &with_room(rt.alloc()), &Ok([[None; 3], ranges]));
}

fn moves_between_threads<T: Send + Sync>(_: &T) {}

/// A byte that was written over, in a piece.
fn pieces(alloc: Global) -> Result<PieceList, AllocError> {
    let mut bytes = Bytes::new(vec![in alloc; 7u8]?);
    if bytes.len() == 1 && !bytes.is_empty() {
        bytes.overwrite(0, &[8]);
    }
    let mut pieces = Vec::new(alloc);
    pieces.push(Piece {
        file: 0,
        at: 100,
        bytes,
    })?;
    Ok(PieceList::new(pieces))
}

/// The part of a file that was made and of one piece.
fn closed(alloc: Global) -> Result<Closed, AllocError> {
    let pieces = pieces(alloc)?;
    let made = vec![in alloc; Made { file: 1, len: 4096 }]?;
    Ok(Closed {
        section: 1,
        part: Part {
            name: Bytes::new(Vec::new(alloc)),
            made: MadeList::new(made),
            pieces,
        },
        entries: 2,
    })
}

/// How long the name of a part is, whether it made just that file, and whether it has just that byte.
fn look(part: &Part) -> (usize, bool, bool) {
    last_piece_decides(&part.pieces);
    let has_made = part.made.as_slice() == [Made { file: 1, len: 4096 }].as_slice();
    let has_byte = match part.pieces.as_slice() {
        [piece] => piece.bytes.as_slice() == [8].as_slice(),
        _ => false,
    };
    (part.name.as_slice().len(), has_made, has_byte)
}

fn seen(alloc: Global) -> Result<(usize, bool, bool), NoMemory> {
    let closed = closed(alloc)?;
    moves_between_threads(&closed);
    moves_between_threads(&RoomSet::new(alloc));
    Ok(look(&closed.part))
}

#[test]
fn parts(rt: HostRuntime) {
    same(&rt, &seen(rt.alloc()), &Ok((0, true, true)));
}
