//! What is taken from the databases: the items of their feeds.

ghost use Rattle.std.specs.Prelude.{◌≡◌, ◌<◌, ◌≤◌, ◌++◌, ◌∷◌, [], get_or, length, true, vec_capacity, OnOk};
ghost use Rattle.mm_tie.specs.Ends.{taken, taker_ring, taker_room};
ghost use Rattle.mm_tie.specs.Items.{image_of, up_to, Follows};

use crate::seats::{put_parts, take_seats};
use mm_base::{Name, NoMemory};
use mm_ranges::{Bytes, Closed, Part};
use mm_tie::{Feed, Origin};
use std::alloc::Global;
use std::mem;

/// A copy of a database's name for its next part, and the item that the database gave since the last seal.
#[derive(Drop)]
pub struct Seat {
    pub name: Bytes,
    pub item: Option<Closed>,
}

/// The feeds of the databases, by number, and what they gave for the next section.
#[derive(Drop)]
pub struct Intake {
    pub alloc: Global,
    pub feeds: Vec<Feed>,
    // the names in rising order, and of each database its place there
    pub sorted: Vec<Name>,
    pub ranks: Vec<usize>,
    // in that order; none between a seal and the next `ready`
    pub seats: Vec<Seat>,
    // room for the parts of the next section
    pub parts: Vec<Part>,
}

// Agrees with a database, and closes its opened group.
fn close<O: Origin>(feed: &mut Feed, from: &mut O) -> Closed
    requires own { taker_ring feed.old ≡ O.own_ring from.old }
    requires ready { O.is_ready from.old ≡ true }
    requires room { length (O.given from.old) < O.most from.old }
    ensures agree { O.given from.old ≡ taken feed.old }
    ensures given { O.given from.new ≡ O.given from.old ++ result ∷ [] }
    ensures taken { taken feed.new ≡ O.given from.new }
    ensures follows { Follows (O.given from.old) result }
    ensures closes { O.closes from.old from.new }
    ensures most { O.most from.new ≡ O.most from.old }
    ensures own { O.own_ring from.new ≡ O.own_ring from.old }
    ensures ring { taker_ring feed.new ≡ taker_ring feed.old }
    ensures feed { taker_room feed.new ≡ taker_room feed.old }
{
    from.agree(feed);
    from.close(feed)
}

impl Intake {
    ghost use Rattle.std.specs.Prelude.{List, ℕ};
    ghost use Rattle.mm_items.specs.Given.{sealed_parts};
    ghost use Rattle.mm_durable.specs.Intake.{IsOwn, HasTaken, SameTaken, KeepsFeeds, TakesItem, AreAllOrNone, IsIntake, has_seats, given_of};

    /// With both ends in hand, what the database gave is what its feed took, and its shared image is that of the items of sections up to its
    /// applied one. Nothing changes, and it takes no memory.
    pub fn agree<O: Origin>(&mut self, db: usize, from: &mut O)
        requires { IsOwn self.old db (O.own_ring from.old) }
        ensures agree { HasTaken self.old db (O.given from.old) }
        ensures shared { (O.viewed from.old).shared ≡ image_of (up_to (O.applied_to from.old) (O.given from.old)) }
        ensures same { SameTaken self.old self.new }
        ensures origin { from.new ≡ from.old }
    {
        from.agree(&mut self.feeds[db]);
    }

    /// Takes what the next section needs: a copy of each name, and room for the parts. Where that is there already, nothing changes.
    pub fn ready(&mut self) -> Result<(), NoMemory>
        requires { AreAllOrNone self.old }
        ensures ready { OnOk result (has_seats self.new ≡ true) }
        ensures still { has_seats self.old ≡ true → has_seats self.new ≡ true }
        ensures feeds { KeepsFeeds self.old self.new }
        ensures kept { (names : List (List ℕ)) (sealed : ℕ) → IsIntake names sealed self.old → IsIntake names sealed self.new }
    {
        if self.seats.as_slice().is_empty() {
            let parts = Vec::with_capacity(self.alloc, self.sorted.as_slice().len())?;
            self.seats = take_seats(self.alloc, &self.sorted)?;
            self.parts = parts;
        }
        Ok(())
    }

    /// Agrees with a database, closes its opened group, and keeps the item for the next section. It takes no memory.
    pub fn take_closed<O: Origin>(&mut self, db: usize, from: &mut O)
        requires own { IsOwn self.old db (O.own_ring from.old) }
        requires ready { O.is_ready from.old ≡ true }
        requires room { length (O.given from.old) < O.most from.old }
        requires ranks { db < length self.old.ranks.items }
        requires seat { get_or self.old.ranks.items db 0 < length self.old.seats.items }
        ensures agree { HasTaken self.old db (O.given from.old) }
        ensures takes { TakesItem self.old db (O.given from.old) (O.given from.new) self.new }
        ensures closes { O.closes from.old from.new }
        ensures most { O.most from.new ≡ O.most from.old }
        ensures own { O.own_ring from.new ≡ O.own_ring from.old }
    {
        let item = close(&mut self.feeds[db], from);
        let rank = self.ranks[db];
        self.seats[rank].item = Some(item);
    }

    /// The parts of the next section, in the order of the seats; one without a made file and without a range is left out. It takes no
    /// memory, and leaves no seats.
    pub fn seal(&mut self) -> Vec<Part>
        requires none { self.old.parts.items ≡ [] }
        requires room { length self.old.seats.items ≤ vec_capacity self.old.parts }
        ensures parts { result.items ≡ sealed_parts (given_of self.old.seats.items) }
        ensures seats { self.new.seats.items ≡ [] }
        ensures feeds { KeepsFeeds self.old self.new }
    {
        let mut parts = mem::replace(&mut self.parts, Vec::new(self.alloc));
        let seats = mem::replace(&mut self.seats, Vec::new(self.alloc));
        put_parts(&mut parts, seats);
        parts
    }
}
