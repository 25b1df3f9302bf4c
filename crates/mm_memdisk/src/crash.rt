// What a crash leaves.
ghost use Rattle.std.specs.Prelude.{◌≡◌, ◌<◌, ◌≤◌, false, length, slice_index, map, Some, string_bytes, IfOk};
ghost use Rattle.std.specs.Option.{option_map};
ghost use Rattle.mm_outside.specs.Told.{IsTorn, MayLeaveFile, is_in, image_after};
ghost use Rattle.mm_memdisk.specs.Calls.{AreFit, CanBegin, calls_of};
ghost use Rattle.mm_memdisk.specs.Files.{Reads};
ghost use Rattle.mm_memdisk.specs.Traced.{file_of, pending_in, MayHave};
ghost use Rattle.mm_memdisk.specs.Left.{start_of, IsSame, Puts, FollowsCall, TracesFile, LeavesFile, LeavesThese, LeavesAll};

use crate::call::Begun;
use crate::files::{Files, names_in};
use crate::traced::{Contents, Traced, Unsettled, after_call, first_trace};
use std::alloc::{AllocError, Global};
use std::collections::BTreeMap;

/// Numbers that a seed gives, one after another.
#[derive(Drop)]
pub struct Draws {
    seed: u64,
}

impl Draws {
    pub fn new(seed: u64) -> Draws {
        Draws { seed }
    }

    // The next number, of 31 bits.
    fn draw(&mut self) -> u64 {
        self.seed = self
            .seed
            .wrapping_mul(6_364_136_223_846_793_005)
            .wrapping_add(1_442_695_040_888_963_407);
        self.seed >> 33
    }
}

/// The files at first, the calls since, and the number that picks what a crash leaves.
#[derive(Clone, Copy)]
pub struct Asked<'a> {
    pub start: &'a Files,
    pub calls: &'a [Begun],
    pub pick: u64,
}

// Whether an offset lies in one of these ranges.
fn is_in(at: u64, ranges: &[(u64, u64)]) -> bool
    ensures { result ≡ is_in at ranges.now }
{
    for range in ranges {
        if range.0 <= at && at < range.1 {
            return true;
        }
    }
    false
}

// A length between two.
fn drawn_len(least: u64, greatest: u64, draws: &mut Draws) -> u64
    requires { least ≤ greatest }
    ensures least { least ≤ result }
    ensures greatest { result ≤ greatest }
{
    // A draw is smaller than this, so that a greater room changes nothing.
    let room = (greatest - least).min(u32::MAX as u64);
    least + draws.draw() % (room + 1)
}

// A byte that is drawn where something is pending, and else the file's.
fn drawn_byte(now: &[u8], pending: &Unsettled, at: u64, draws: &mut Draws) -> u8
    requires { pending.now.least ≤ length now.now }
    ensures { at < pending.now.least → is_in at pending.now.ranges.items ≡ false → result ≡ slice_index now.now at }
{
    if at >= pending.least || is_in(at, &pending.ranges) {
        return (draws.draw() % 256) as u8;
    }
    now[at as usize]
}

// The file at a length that is drawn, with drawn bytes wherever something is pending.
fn torn(
    alloc: Global,
    now: &[u8],
    pending: &Unsettled,
    draws: &mut Draws,
) -> Result<Vec<u8>, AllocError>
    requires { IsTorn now.now (pending_in pending.now) now.now }
    ensures { IfOk result (λ bytes. IsTorn now.now (pending_in pending.now) bytes.items) }
{
    let len = drawn_len(pending.least, pending.greatest, draws);
    let mut bytes = Vec::new(alloc);
    for at in 0..len {
        bytes.push(drawn_byte(now, pending, at, draws))?;
    }
    Ok(bytes)
}

// The bytes that a file that is there is left with.
fn left_bytes(
    alloc: Global,
    contents: &Contents,
    pending: &Unsettled,
    pick: u64,
    draws: &mut Draws,
) -> Result<Vec<u8>, AllocError>
    requires { MayHave (Some contents.now) (pending_in pending.now) }
    ensures { IfOk result (λ bytes. IsTorn contents.now.read.items (pending_in pending.now) bytes.items) }
{
    match pick {
        0 => contents.synced.to_vec(alloc),
        1 => contents.written.to_vec(alloc),
        _ => torn(alloc, &contents.read, pending, draws),
    }
}

// What a file is left with, or None where it is gone.
fn left_file(
    alloc: Global,
    traced: &Traced,
    pick: u64,
    draws: &mut Draws,
) -> Result<Option<Vec<u8>>, AllocError>
    requires { MayHave traced.now.contents (pending_in traced.now.pending) }
    ensures { IfOk result (λ left. MayLeaveFile (file_of traced.now) (pending_in traced.now.pending) (option_map (λ bytes. bytes.items) left)) }
{
    let is_turned = traced.pending.is_unsure && pick % 2 == 1;
    match &traced.contents {
        None if is_turned => Ok(Some(Vec::new(alloc))),
        None => Ok(None),
        Some(_) if is_turned => Ok(None),
        Some(contents) => {
            let bytes = left_bytes(alloc, contents, &traced.pending, pick, draws)?;
            Ok(Some(bytes))
        }
    }
}

// The trace of the file of this name after one call more.
fn follow(alloc: Global, traced: Traced, begun: &Begun, name: &str) -> Result<Traced, AllocError>
    requires { CanBegin begun.now.change }
    ensures { IfOk result (λ new. FollowsCall begun.now name.now traced new) }
{
    if begun.name.as_str() != name {
        return Ok(traced);
    }
    after_call(alloc, traced, begun)
}

// The trace of the file of this name after these calls.
fn trace(alloc: Global, disk: &Asked, name: &str) -> Result<Traced, AllocError>
    requires { AreFit disk.now.calls.now }
    ensures { IfOk result (λ traced. TracesFile (start_of disk.now) disk.now.calls.now name.now traced) }
{
    let mut traced = first_trace(alloc, disk.start.get(name))?;
    for begun in disk.calls {
        traced = follow(alloc, traced, begun, name)?;
    }
    Ok(traced)
}

/// The files that a crash leaves, as they begin and as they read, which is the same.
#[derive(Drop)]
pub struct Left {
    pub start: Files,
    pub files: Files,
}

// A file of this name and these bytes more.
fn put(alloc: Global, mut left: Left, name: &str, bytes: Vec<u8>) -> Result<Left, AllocError>
    requires { IsSame left.start left.files }
    ensures same { IfOk result (λ new. IsSame new.start new.files) }
    ensures puts { IfOk result (λ new. Puts name.now (Some bytes.items) left.files new.files) }
{
    let copy = bytes.to_vec(alloc)?;
    left.start.insert(String::from_str(alloc, name)?, copy)?;
    left.files.insert(String::from_str(alloc, name)?, bytes)?;
    Ok(left)
}

// What a crash leaves of the file of this name more.
fn leave_file(
    alloc: Global,
    disk: &Asked,
    name: &str,
    draws: &mut Draws,
    left: Left,
) -> Result<Left, AllocError>
    requires fit { AreFit disk.now.calls.now }
    requires same { IsSame left.start left.files }
    ensures same { IfOk result (λ new. IsSame new.start new.files) }
    ensures puts { IfOk result (λ new. LeavesFile (start_of disk.now) disk.now.calls.now name.now left.files new.files) }
{
    let traced = trace(alloc, disk, name)?;
    match left_file(alloc, &traced, disk.pick, draws)? {
        Some(bytes) => put(alloc, left, name, bytes),
        None => Ok(left),
    }
}

// What a crash leaves of these files.
fn leave_all(
    alloc: Global,
    disk: &Asked,
    names: &[String],
    draws: &mut Draws,
) -> Result<Left, AllocError>
    requires fit { AreFit disk.now.calls.now }
    ensures same { IfOk result (λ new. IsSame new.start new.files) }
    ensures left { IfOk result (λ new. LeavesThese (start_of disk.now) disk.now.calls.now (map string_bytes names.now) new.files) }
{
    let mut left = Left {
        start: BTreeMap::new(alloc),
        files: BTreeMap::new(alloc),
    };
    for name in names {
        left = leave_file(alloc, disk, name, draws, left)?;
    }
    Ok(left)
}

// What a crash leaves of the file of this name more, unless it is there.
fn leave_unless_there(
    alloc: Global,
    disk: &Asked,
    files: &Files,
    name: &str,
    draws: &mut Draws,
    left: Left,
) -> Result<Left, AllocError>
    requires fit { AreFit disk.now.calls.now }
    requires same { IsSame left.start left.files }
    requires left { LeavesAll (start_of disk.now) disk.now.calls.now left.files }
    ensures same { IfOk result (λ new. IsSame new.start new.files) }
    ensures left { IfOk result (λ new. LeavesAll (start_of disk.now) disk.now.calls.now new.files) }
{
    if files.contains_key(name) {
        return Ok(left);
    }
    leave_file(alloc, disk, name, draws, left)
}

// The files more that aren't there, and whose creation was stopped.
fn leave_absent(
    alloc: Global,
    disk: &Asked,
    files: &Files,
    draws: &mut Draws,
    left: Left,
) -> Result<Left, AllocError>
    requires fit { AreFit disk.now.calls.now }
    requires same { IsSame left.start left.files }
    requires left { LeavesAll (start_of disk.now) disk.now.calls.now left.files }
    ensures same { IfOk result (λ new. IsSame new.start new.files) }
    ensures left { IfOk result (λ new. LeavesAll (start_of disk.now) disk.now.calls.now new.files) }
{
    let mut left = left;
    for begun in disk.calls {
        left = leave_unless_there(alloc, disk, files, begun.name.as_str(), draws, left)?;
    }
    Ok(left)
}

/// What a crash leaves after these calls: the files in byte order, and then those whose creation was stopped.
pub fn leave(alloc: Global, disk: &Asked, files: &Files) -> Result<Left, AllocError>
    requires fit { AreFit disk.now.calls.now }
    requires reads { Reads files.now (image_after (start_of disk.now) (calls_of disk.now.calls.now)) }
    ensures same { IfOk result (λ new. IsSame new.start new.files) }
    ensures left { IfOk result (λ new. LeavesAll (start_of disk.now) disk.now.calls.now new.files) }
{
    let names = names_in(alloc, files)?;
    let mut draws = Draws::new(disk.pick);
    let left = leave_all(alloc, disk, &names, &mut draws)?;
    leave_absent(alloc, disk, files, &mut draws, left)
}
