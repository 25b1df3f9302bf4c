//! An engine that puts a byte at a place of file 0.

ghost use Rattle.std.specs.Prelude.{◌≡◌, ◌<◌, true, length, IfOk};
ghost use Rattle.mm_ranges.specs.Overlay.{bytes_at};
ghost use Rattle.mm_held.specs.Meaning.{Stored};
ghost use Rattle.mm_held.specs.Steps.{IsAnswered};
ghost use Rattle.mm_model.specs.declared.command.Command.{Command as Asked};
ghost use Rattle.mm_rows_durable.specs.Toy.{toy};

use mm_base::NoMemory;
use mm_held::Engine;
use mm_model::{CheckFault, Command, Reply};
use mm_views::{Draft, Views};

/// How many places may be asked for.
pub const PLACES: u8 = 8;

fn byte_of(name: &[u8], at: usize) -> u8 {
    match name.get(at) {
        Some(byte) => *byte,
        None => 0,
    }
}

// The place is in the file.
fn has_place(draft: &Draft, at: u32) -> bool
    ensures { result ≡ true → at < length (bytes_at draft.now.image 0) }
{
    match draft.len(0) {
        Some(len) => at < len,
        None => false,
    }
}

// Puts the byte there, where the file has the place.
fn carry_out(draft: &mut Draft, at: u32, byte: u8) -> Result<Reply, NoMemory>
    ensures views { draft.new.views ≡ draft.old.views }
    ensures answered { IfOk result (λ reply. (db : Stored) (c : Asked) → IsAnswered toy db c draft.old draft.new reply) }
{
    if !has_place(draft, at) {
        return Ok(Reply::NoSpace);
    }
    draft.declare(0, at, 1)?;
    draft.write(0, at, &[byte]);
    Ok(Reply::Done(0))
}

/// The toy engine. A collection's name asks: its first byte is a place, its second the byte.
#[derive(Drop)]
pub struct Toy;

impl Engine for Toy {
    ghost means = { λ _. toy };

    fn setup(&self, draft: &mut Draft) -> Result<(), NoMemory> {
        draft.add_file(0, 4096)
    }

    fn step(&self, draft: &mut Draft, command: &Command) -> Result<Reply, NoMemory> {
        match command {
            Command::Create { coll } => carry_out(
                draft,
                u32::from(byte_of(coll.bytes(), 0) % PLACES),
                byte_of(coll.bytes(), 1),
            ),
            _ => Ok(Reply::NoSpace),
        }
    }

    fn accept(&self, _views: &Views) -> Result<(), CheckFault> {
        Ok(())
    }
}
