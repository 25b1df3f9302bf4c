//! A database under test, with its one session.

ghost use Rattle.std.specs.Prelude.{◌≡◌, ◌+◌, ◌<◌, ◌∷◌, [], length, true, IfOk};
ghost use Rattle.mm_tie.specs.Ends.{taken, taker_ring};
ghost use Rattle.mm_rows_durable.specs.Sides.{IsSide, SameSide, MayClose, IsSat, Stays};

use crate::subject::Side;
use crate::toy::Toy;
use mm_base::{DbNo, Name, NoMemory};
use mm_held::{Held, Pass};
use mm_model::Command;
use mm_probe::Counter;
use mm_tie::Feed;
use mm_views::Views;
use std::alloc::Global;

/// How many entries the session may have, and how many groups may be closed.
pub const ROOM: u32 = 1000;

// A database that begins with these views.
fn begin_with(views: Views, db: DbNo, rooms: Vec<u32>) -> Result<(Side, Feed), NoMemory>
    requires rooms { rooms.items ≡ 1000 ∷ [] }
    requires made { views.made ≡ [] }
    requires opened { views.opened ≡ [] }
    requires closed { views.closed ≡ [] }
    ensures side { IfOk result (λ r. IsSide r.0) }
    ensures own { IfOk result (λ r. taker_ring r.1 ≡ r.0.held.images.ring) }
    ensures first { IfOk result (λ r. length (taken r.1) ≡ 1) }
{
    let (held, mut passes, feed) = Held::start(
        Toy,
        views,
        db,
        1,
        rooms,
        ROOM,
        Some(Counter::new()),
    )?;
    let pass = passes.remove(0);
    let side = Side {
        held,
        pass,
        line: 1,
        items: 1,
    };
    Ok((side, feed))
}

/// A database without files, which its engine sets up, and its feed. Its first group has section 1.
pub fn begin(alloc: Global, db: DbNo) -> Result<(Side, Feed), NoMemory>
    ensures side { IfOk result (λ r. IsSide r.0) }
    ensures own { IfOk result (λ r. taker_ring r.1 ≡ r.0.held.images.ring) }
    ensures first { IfOk result (λ r. length (taken r.1) ≡ 1) }
{
    let rooms = vec![in alloc; ROOM; 1]?;
    begin_with(Views::new(alloc), db, rooms)
}

// A step of the session.
fn step_in(held: &mut Held<Toy, Counter>, pass: &mut Pass, line: u32, command: &Command) -> bool
    requires pass { IsSat held.old line pass.old }
    requires line { line < 1000 }
    ensures pass { IsSat held.new (line + 1) pass.new }
    ensures stays { Stays held.old held.new }
{
    held.step(pass, line, command).is_ok()
}

/// A step that puts a byte at a place; false where it isn't taken.
pub fn step(side: &mut Side, place: u8, byte: u8) -> bool
    requires { IsSide side.old }
    ensures side { IsSide side.new }
    ensures same { SameSide side.old side.new }
{
    let line = side.line;
    let Some(coll) = Name::new(&[place | 0x40, byte | 1]) else {
        return false;
    };
    if line >= ROOM {
        return false;
    }
    side.line += 1;
    step_in(
        &mut side.held,
        &mut side.pass,
        line,
        &Command::Create { coll },
    )
}

/// Takes the memory for a close; false where it isn't there, or no item more may be given.
pub fn ready(side: &mut Side) -> bool
    requires { IsSide side.old }
    ensures side { IsSide side.new }
    ensures same { SameSide side.old side.new }
    ensures waiting { side.new.held.waiting ≡ side.old.held.waiting }
    ensures ready { result ≡ true → MayClose side.new }
{
    side.items <= ROOM && side.held.ready().is_ok()
}

/// Applies the closed parts of sections up to a number.
pub fn apply(side: &mut Side, upto: u64)
    requires { IsSide side.old }
    ensures side { IsSide side.new }
    ensures same { SameSide side.old side.new }
{
    side.held.apply(upto);
    side.held.remap();
}
