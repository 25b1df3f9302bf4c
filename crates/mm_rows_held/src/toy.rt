//! An engine that declares the range that it is asked for, and puts a byte at its begin.

ghost use Rattle.std.specs.Prelude.{◌≡◌, ◌+◌, ◌<◌, ◌≤◌, true, length, IfOk};
ghost use Rattle.mm_ranges.specs.Overlay.{bytes_at};
ghost use Rattle.mm_held.specs.Meaning.{Stored};
ghost use Rattle.mm_held.specs.Steps.{IsAnswered};
ghost use Rattle.mm_model.specs.declared.command.Command.{Command as Asked};
ghost use Rattle.mm_rows_held.specs.Toy.{toy};

use mm_base::NoMemory;
use mm_held::Engine;
use mm_model::{CheckFault, Command, Reply};
use mm_ranges::NS_FILE;
use mm_views::{Draft, Views};

/// The files that may be asked for. The last is never there.
pub const FILES: [u32; 4] = [0, 1, NS_FILE, 5];

/// How long a range may be.
const LENS: [u32; 4] = [1, 2, 67_108_852, 67_108_853];

/// A range of a file, and a byte for its begin.
#[derive(Clone, Copy)]
struct Ask {
    file: u32,
    at: u32,
    len: u32,
    byte: u8,
}

fn byte_of(name: &[u8], at: usize) -> u8 {
    match name.get(at) {
        Some(byte) => *byte,
        None => 0,
    }
}

// A collection's name asks: its digits are a file's index, a place, a length's index, and the byte.
fn ask_of(name: &[u8]) -> Ask {
    Ask {
        file: FILES[usize::from(byte_of(name, 0) % 4)],
        at: u32::from(byte_of(name, 1) % 8),
        len: LENS[usize::from(byte_of(name, 2) % 4)],
        byte: byte_of(name, 3),
    }
}

// The range is in the file.
fn has_range(draft: &Draft, ask: Ask) -> bool
    ensures { result ≡ true → (0 < ask.len) × (ask.at + ask.len ≤ length (bytes_at draft.now.image ask.file)) }
{
    match draft.len(ask.file) {
        Some(len) => 0 < ask.len && ask.at < len && ask.len <= len - ask.at,
        None => false,
    }
}

// Declares the range and puts the byte there, where the file has it.
fn carry_out(draft: &mut Draft, ask: Ask) -> Result<Reply, NoMemory>
    ensures views { draft.new.views ≡ draft.old.views }
    ensures answered { IfOk result (λ reply. (db : Stored) (c : Asked) → IsAnswered toy db c draft.old draft.new reply) }
{
    if !has_range(draft, ask) {
        return Ok(Reply::NoSpace);
    }
    draft.declare(ask.file, ask.at, ask.len)?;
    draft.write(ask.file, ask.at, &[ask.byte]);
    Ok(Reply::Done(0))
}

/// The toy engine.
#[derive(Drop)]
pub struct Toy;

impl Engine for Toy {
    ghost means = { λ _. toy };

    fn setup(&self, draft: &mut Draft) -> Result<(), NoMemory> {
        draft.add_file(0, 4096)
    }

    fn step(&self, draft: &mut Draft, command: &Command) -> Result<Reply, NoMemory> {
        match command {
            Command::Create { coll } => carry_out(draft, ask_of(coll.bytes())),
            _ => Ok(Reply::NoSpace),
        }
    }

    fn accept(&self, _views: &Views) -> Result<(), CheckFault> {
        Ok(())
    }
}
