//! The names of a database in its `.ns` file.

ghost use Rattle.std.specs.Prelude.{◌≤◌, IfOk};
ghost use Rattle.mm_nstable.specs.Nodes.{IsTable};
ghost use Rattle.mm_nstable.specs.Changes.{ns_of};

use crate::judging::same;
use mm_base::{DiskLoc, Name, NoMemory};
use mm_frames::{Details, IndexPair};
use mm_nstable::{NsFault, details, find, free_nodes, insert, names, put_details, remove};
use mm_views::{Draft, NS_FILE, Views};
use std::alloc::Global;

/// What is done with a name: it's put in with so many records where it isn't there, another number is written, it's
/// taken out, or it's only looked up.
enum Act {
    Put(i64),
    Set(i64),
    TakeOut,
    LookUp,
}

/// The node of a name, and the number in its details.
type Place = Option<(u32, i64)>;

/// What is done, with which name, and where this is then.
type Row = (Act, &'static [u8], Result<Place, NsFault>);

/// Names go by their hashes, 0x08000061 and 0x08197e55, in a table of 1669 nodes.
const WIDE: &[Row] = &[
    (Act::Put(1), b"a", Ok(Some((183, 1)))),
    (Act::Put(2), b"a.b", Ok(Some((158, 2)))),
];

/// In a table of three nodes the searches for the first three names begin at one of them. The node that is taken out
/// stands in the run that the search for the third name goes through.
const FULL: &[Row] = &[
    (Act::Put(1), b"a", Ok(Some((0, 1)))),
    (Act::Put(2), b"d", Ok(Some((1, 2)))),
    (Act::Put(3), b"g", Ok(Some((2, 3)))),
    (Act::Put(4), b"b", Err(NsFault::NsFull)),
    (Act::Set(5), b"d", Ok(Some((1, 5)))),
    (Act::LookUp, b"a", Ok(Some((0, 1)))),
    (Act::LookUp, b"g", Ok(Some((2, 3)))),
    (Act::TakeOut, b"d", Ok(None)),
    (Act::LookUp, b"a", Ok(Some((0, 1)))),
    (Act::LookUp, b"g", Ok(Some((2, 3)))),
    (Act::Put(4), b"j", Ok(Some((1, 4)))),
];

/// A draft with a `.ns` of zeros.
fn zeros(alloc: Global, len: u32) -> Result<Draft, NoMemory>
    requires { len ≤ 16777216 }
    ensures { IfOk result (λ draft. IsTable (ns_of draft)) }
{
    let mut views = Views::new(alloc);
    views.load(NS_FILE, len)?;
    Ok(views.draft())
}

fn details_of(nrecords: i64) -> Details {
    let none = IndexPair {
        head: DiskLoc::NULL,
        info: DiskLoc::NULL,
    };
    Details {
        first_extent: DiskLoc { file: 1, ofs: 8192 },
        last_extent: DiskLoc::NULL,
        deleted: [DiskLoc::NULL; 19],
        datasize: 7,
        nrecords,
        last_extent_size: 0,
        n_indexes: 0,
        indexes: [none; 10],
        is_capped: 0,
        max_docs_in_capped: 0x7fff_ffff,
        padding: 0x3ff0_0000_0000_0000,
        system_flags: 1,
        cap_extent: DiskLoc::NULL,
        cap_first_new_record: DiskLoc::NULL,
        data_file_version: 0,
        index_file_version: 0,
        multikey: 0,
        extra_offset: 0,
        index_builds: 0,
        user_flags: 1,
    }
}

fn put(draft: &mut Draft, name: &Name, nrecords: i64) -> Result<(), NsFault>
    requires { IsTable (ns_of draft.old) }
    ensures { IsTable (ns_of draft.new) }
{
    if find(draft, name).is_none() {
        insert(draft, name, &details_of(nrecords))?;
    }
    Ok(())
}

fn set(draft: &mut Draft, name: &Name, nrecords: i64) -> Result<(), NsFault>
    requires { IsTable (ns_of draft.old) }
    ensures { IsTable (ns_of draft.new) }
{
    if let Some(node) = find(draft, name) {
        put_details(draft, node, &details_of(nrecords))?;
    }
    Ok(())
}

fn take_out(draft: &mut Draft, name: &Name) -> Result<(), NsFault>
    requires { IsTable (ns_of draft.old) }
    ensures { IsTable (ns_of draft.new) }
{
    if let Some(node) = find(draft, name) {
        remove(draft, node)?;
    }
    Ok(())
}

fn look_up(draft: &Draft, name: &Name) -> Place
    requires { IsTable (ns_of draft.now) }
{
    let node = find(draft, name)?;
    Some((node, details(draft, node).nrecords))
}

fn act_on(draft: &mut Draft, act: &Act, name: &Name) -> Result<(), NsFault>
    requires { IsTable (ns_of draft.old) }
    ensures { IsTable (ns_of draft.new) }
{
    match act {
        Act::Put(nrecords) => put(draft, name, *nrecords),
        Act::Set(nrecords) => set(draft, name, *nrecords),
        Act::TakeOut => take_out(draft, name),
        Act::LookUp => Ok(()),
    }
}

/// Where a name is once that is done.
fn answer(draft: &mut Draft, act: &Act, name: &Name) -> Result<Place, NsFault>
    requires { IsTable (ns_of draft.old) }
    ensures { IsTable (ns_of draft.new) }
{
    act_on(draft, act, name)?;
    Ok(look_up(draft, name))
}

fn is_answered(draft: &mut Draft, row: &Row) -> bool
    requires { IsTable (ns_of draft.old) }
    ensures { IsTable (ns_of draft.new) }
{
    let (act, bytes, want) = row;
    match Name::new(bytes) {
        Some(name) => answer(draft, act, &name) == *want,
        None => false,
    }
}

/// The first of the rows that is answered otherwise.
fn first_other(draft: &mut Draft, rows: &[Row]) -> Option<usize>
    requires { IsTable (ns_of draft.old) }
    ensures { IsTable (ns_of draft.new) }
{
    for (i, row) in rows.iter().enumerate() {
        if !is_answered(draft, row) {
            return Some(i);
        }
    }
    None
}

/// The first byte of each of the first names, with its node.
type Names = [Option<(u8, u32)>; 3];

fn name_at(all: &[(Name, u32)], i: usize) -> Option<(u8, u32)> {
    let (name, node) = all.get(i)?;
    Some((*name.bytes().first()?, *node))
}

fn list(alloc: Global, draft: &Draft) -> Result<Names, NoMemory>
    requires { IsTable (ns_of draft.now) }
{
    let mut all = Vec::new(alloc);
    names(draft, &mut all)?;
    let all = all.as_slice();
    Ok([name_at(all, 0), name_at(all, 1), name_at(all, 2)])
}

/// The first of the rows that is answered otherwise, how many nodes are free before and after, and the names then.
type Told = (Option<usize>, [u32; 2], Names);

fn play(alloc: Global, draft: &mut Draft, rows: &[Row]) -> Result<Told, NoMemory>
    requires { IsTable (ns_of draft.old) }
{
    let before = free_nodes(draft);
    let other = first_other(draft, rows);
    let names = list(alloc, draft)?;
    Ok((other, [before, free_nodes(draft)], names))
}

/// The same of a new file of this length.
fn told(alloc: Global, len: u32, rows: &[Row]) -> Result<Told, NoMemory>
    requires { len ≤ 16777216 }
{
    let mut draft = zeros(alloc, len)?;
    play(alloc, &mut draft, rows)
}

#[test]
fn tables(rt: HostRuntime) {
    let names = [Some((b'a', 158)), Some((b'a', 183)), None];
    let wide = told(rt.alloc(), 1_048_576, WIDE);
    same(&rt, &wide, &Ok((None, [1669, 1667], names)));
    let names = [Some((b'a', 0)), Some((b'j', 1)), Some((b'g', 2))];
    let full = told(rt.alloc(), 2000, FULL);
    same(&rt, &full, &Ok((None, [3, 0], names)));
}
