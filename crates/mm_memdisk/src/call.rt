// The changing calls, as they are kept.
ghost use Rattle.std.specs.Prelude.{◌≡◌, ◌+◌, [], ◌∷◌, ◌++◌, vec_len, OnOk, OnErr, if◌then◌else◌};
ghost use Rattle.mm_outside.specs.Image.{Image};
ghost use Rattle.mm_outside.specs.Told.{changed, image_after};
ghost use Rattle.mm_memdisk.specs.Files.{Reads, Follows};
ghost use Rattle.mm_memdisk.specs.Calls.{call_of, calls_of, CanBegin};

use crate::files::{self, Files};
use std::alloc::{AllocError, Global};

/// What a changing call is to do to its file. Offsets and lengths are in bytes.
#[derive(Debug, Drop, PartialEq, Eq)]
pub enum Change {
    /// Make it, empty, where it is absent.
    Create,
    /// Put these bytes at this offset.
    WriteAt { at: u64, bytes: Vec<u8> },
    /// Give it this length.
    SetLen { len: u64 },
    /// Make what is read last.
    Sync,
    /// Remove it.
    Remove,
}

/// A changing call that has begun.
#[derive(Debug, Drop, PartialEq, Eq)]
pub struct Begun {
    /// The name of its file.
    pub name: String,
    /// What it was to do.
    pub change: Change,
    /// Whether it was done. One that wasn't answered a fault.
    pub is_done: bool,
}

// What the call does to the files. A call that isn't done changes none.
fn apply(alloc: Global, files: &mut Files, begun: &Begun) -> Result<(), AllocError>
    requires { CanBegin begun.now.change }
    ensures ok { OnOk result (Follows files.old files.new (λ image. if begun.now.is_done then changed (call_of begun.now).change (call_of begun.now).name image else image)) }
    ensures err { OnErr result (Follows files.old files.new (λ image. image)) }
{
    if !begun.is_done {
        return Ok(());
    }
    let name = begun.name.as_str();
    match &begun.change {
        Change::Create => files::create(alloc, files, name),
        Change::WriteAt { at, bytes } => files::write_at(files, name, *at as usize, bytes),
        Change::SetLen { len } => files::set_len(files, name, *len as usize),
        Change::Sync => Ok(()),
        Change::Remove => {
            files::remove(files, name);
            Ok(())
        }
    }
}

/// Keeps the call, and does it. Where memory is wanting, files and calls stay as they read.
pub fn begin(
    alloc: Global,
    files: &mut Files,
    calls: &mut Vec<Begun>,
    begun: Begun,
) -> Result<(), AllocError>
    requires { CanBegin begun.change }
    ensures ok { OnOk result ((start : Image) → Reads files.old (image_after start (calls_of calls.old.items))
        → Reads files.new (image_after start (calls_of calls.new.items))) }
    ensures calls { OnOk result (calls_of calls.new.items ≡ call_of begun ∷ calls_of calls.old.items) }
    ensures items { OnOk result (calls.new.items ≡ calls.old.items ++ begun ∷ []) }
    ensures len { OnOk result (vec_len calls.new ≡ vec_len calls.old + 1) }
    ensures err { OnErr result (Follows files.old files.new (λ image. image)) }
    ensures calls_err { OnErr result (calls.new.items ≡ calls.old.items) }
{
    calls.reserve(1)?;
    apply(alloc, files, &begun)?;
    calls.push_reserved(begun);
    Ok(())
}
