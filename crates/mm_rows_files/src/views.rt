//! Drafts, groups, and the two images of a database's files.

ghost use Rattle.std.specs.Prelude.{◌≤◌};

use crate::judging::same;
use mm_base::NoMemory;
use mm_ranges::Part;
use mm_views::{Draft, Views};
use std::alloc::Global;

fn moves_between_threads<T: Send + Sync>(_: &T) {}

/// Views of one file, with two bytes in it.
fn loaded(alloc: Global, len: u32) -> Views
    requires { len ≤ 67108864 }
{
    let mut views = Views::new(alloc);
    if let Ok(()) = views.load(0, len)
        && let Some(len) = views.len(0)
        && 12 <= len
    {
        views.fill(0, 10, &[7, 8]);
    }
    views
}

/// Eight bytes in two intents that touch, and what these weigh.
fn write_eight(draft: &mut Draft) -> Result<u64, NoMemory> {
    if let Some(len) = draft.len(0)
        && 108 <= len
    {
        draft.declare(0, 100, 4)?;
        draft.declare(0, 104, 4)?;
        draft.write(0, 100, &[1, 2, 3, 4, 5, 6, 7, 8]);
        draft.write(0, 100, &[]);
    }
    Ok(draft.weigh())
}

/// A new file, and what it weighs.
fn make_file(draft: &mut Draft) -> Result<u64, NoMemory> {
    if draft.len(1).is_none() {
        draft.add_file(1, 4096)?;
    }
    Ok(draft.weigh())
}

/// The views of a draft, which is given up where there is no memory to adopt it.
fn adopted(mut draft: Draft) -> Views {
    match draft.reserve() {
        Ok(()) => draft.adopt(),
        Err(NoMemory) => draft.give_up(),
    }
}

/// How many files a part has made, and whether its one piece is that of the eight bytes.
fn look_at_part(part: &Part) -> (usize, bool) {
    let has_eight = match part.pieces.as_slice() {
        [piece] => {
            let bytes = piece.bytes.as_slice();
            (piece.file, piece.at) == (0, 100) && bytes == [1, 2, 3, 4, 5, 6, 7, 8].as_slice()
        }
        _ => false,
    };
    (part.made.as_slice().len(), has_eight)
}

/// Closes the group, and applies it.
fn group(views: &mut Views) -> Result<(usize, bool), NoMemory> {
    views.ready()?;
    let part = views.close();
    views.remap();
    views.apply();
    Ok(look_at_part(&part))
}

/// A byte of each image, where the file has it: the private one by two calls, and the shared one.
fn bytes(views: &Views, at: u32) -> [Option<u8>; 3] {
    let mut found = [None; 3];
    if let Some(len) = views.len(0)
        && at < len
    {
        let mut byte = [0; 1];
        views.read(0, at, &mut byte);
        found[0] = Some(byte[0]);
        found[1] = Some(views.piece(0, at)[0]);
    }
    if let Some(len) = views.shared_len(0)
        && at < len
    {
        found[2] = Some(views.shared_piece(0, at)[0]);
    }
    found
}

/// A byte of a draft, by two calls.
fn drafted(draft: &Draft, at: u32) -> [Option<u8>; 2] {
    let mut found = [None; 2];
    if let Some(len) = draft.len(0)
        && at < len
    {
        let mut byte = [0; 1];
        draft.read(0, at, &mut byte);
        found = [Some(byte[0]), Some(draft.piece(0, at)[0])];
    }
    found
}

/// What is seen of views: their weight, a byte, and how long the file 1 is in the private and in the shared image.
type Seen = (u64, [Option<u8>; 3], [Option<u32>; 2]);

fn look(views: &Views, at: u32) -> Seen {
    moves_between_threads(views);
    let made = [views.len(1), views.shared_len(1)];
    (views.weight(), bytes(views, at), made)
}

/// What is seen of the views of a draft that is adopted and once its group is applied, and what the group has.
fn after_group(draft: Draft) -> ([Seen; 2], Result<(usize, bool), NoMemory>) {
    let mut views = adopted(draft);
    let before = look(&views, 100);
    let part = group(&mut views);
    ([before, look(&views, 107)], part)
}

/// What a draft that writes eight bytes weighs, with the draft.
fn of_writes(alloc: Global) -> (Result<u64, NoMemory>, Draft) {
    let mut draft = loaded(alloc, 8192).draft();
    (write_eight(&mut draft), draft)
}

/// What a draft that makes a file weighs, with the draft.
fn of_a_file(alloc: Global) -> (Result<u64, NoMemory>, Draft) {
    let mut draft = Views::new(alloc).draft();
    (make_file(&mut draft), draft)
}

/// A draft that writes eight bytes in two intents that touch, its group, and the apply of that.
#[test]
fn one_group(rt: HostRuntime) {
    let (weight, draft) = of_writes(rt.alloc());
    let (seen, part) = after_group(draft);
    let written = (20, [Some(1), Some(1), Some(0)], [None; 2]);
    let applied = (0, [Some(8); 3], [None; 2]);
    same(&rt, &seen, &[written, applied]);
    same(&rt, &(weight, part), &(Ok(20), Ok((0, true))));
}

/// A file that is made weighs 12, and is in the shared image once its part is applied.
#[test]
fn a_made_file(rt: HostRuntime) {
    let (weight, draft) = of_a_file(rt.alloc());
    let (seen, part) = after_group(draft);
    let made = (12, [None; 3], [Some(4096), None]);
    let applied = (0, [None; 3], [Some(4096); 2]);
    same(&rt, &seen, &[made, applied]);
    same(&rt, &(weight, part), &(Ok(12), Ok((1, false))));
}

/// What a draft weighs that has written eight bytes and made a file.
fn write_and_make(draft: &mut Draft) -> Result<u64, NoMemory> {
    write_eight(draft)?;
    make_file(draft)
}

/// What is seen of the views of a draft that is given up.
fn given_up(draft: Draft) -> [Seen; 2] {
    let views = draft.give_up();
    [look(&views, 100), look(&views, 11)]
}

/// Bytes of a draft before and after it writes and makes a file, and what it weighs then.
fn changed(draft: &mut Draft) -> ([[Option<u8>; 2]; 2], Result<u64, NoMemory>) {
    let before = drafted(draft, 11);
    let weight = write_and_make(draft);
    ([before, drafted(draft, 100)], weight)
}

/// A draft that is given up leaves nothing.
#[test]
fn leaves_nothing(rt: HostRuntime) {
    let mut draft = loaded(rt.alloc(), 8192).draft();
    let found = changed(&mut draft);
    same(&rt, &found, &([[Some(8); 2], [Some(1); 2]], Ok(32)));
    let seen = given_up(draft);
    let none = (0, [Some(0); 3], [None; 2]);
    let loaded = (0, [Some(8); 3], [None; 2]);
    same(&rt, &seen, &[none, loaded]);
}
