//! The images of a database, and the items that were given for its closed groups.

ghost use Rattle.std.specs.Prelude.{◌≡◌, ◌+◌, ◌<◌, ◌≤◌, ◌^◌, ◌++◌, ◌∷◌, [], length, true, IsTrue, IfOk, IfErr, OnOk, OnErr};
ghost use Rattle.std.specs.FinMap.{empty};
ghost use Rattle.mm_ranges.specs.Overlay.{over};
ghost use Rattle.mm_views.specs.State.{closed_from, part_of, weight_in, IsCovered};
ghost use Rattle.mm_tie.specs.Ends.{taken, taker_ring, taker_room};
ghost use Rattle.mm_tie.specs.Items.{image_of, up_to, Follows};
ghost use Rattle.mm_held.specs.Meaning.{Stored};
ghost use Rattle.mm_held.specs.Steps.{IsStep, IsCause};
ghost use Rattle.mm_held.specs.Images.{IsImaged, SameItems, IsApplied, item, last_up_to};
ghost use Rattle.mm_held.specs.Loaded.{IsBegun, StandsIfAny, whole_part};

use crate::attempt::{Answer, attempt};
use crate::begun::{begun, loaded};
use crate::engine::Engine;
use crate::fault::Refused;
use mm_base::NoMemory;
use mm_model::Command;
use mm_ranges::{Closed, Part};
use mm_tie::{Feed, Giver, agree, hand_over, pair};
use mm_views::Views;
use std::alloc::Global;
use std::marker::Model;
use std::mem;

/// The views of a database, and the end by which it gives an item for each closed group.
#[derive(Drop)]
pub struct Images {
    alloc: Global,
    views: Views,
    giver: Giver<Closed>,
    // the sections of item 0, of the last item, and of the last applied one
    first: u64,
    last: u64,
    applied: u64,
}

impl Model for Images {
    ghost use Rattle.std.specs.Prelude.{◌≡◌, ◌+◌, ◌<◌, ◌^◌, length};
    ghost use Rattle.mm_tie.specs.Ends.{given, giver_room};
    ghost use Rattle.mm_held.specs.Images.{Imaged, imaged, IsImaged};
    ghost use Rattle.mm_held.specs.Codes.{imaged_code};

    ghost Value = { Imaged };

    ghost coded = { imaged_code };

    ghost view = { λ i. imaged i.views i.first i.applied i.giver };

    ghost invariant = { λ i. IsImaged (imaged i.views i.first i.applied i.giver) × (i.last + 1 ≡ i.first + length (given i.giver)) × (i.first + giver_room i.giver < 2 ^ 64) };
}

impl Images {
    // Images whose item 0 has this part and section, and their feed. At most `most` items are given.
    fn with_item(
        alloc: Global,
        views: Views,
        part: Part,
        first: u64,
        most: usize,
    ) -> Result<(Images, Feed), NoMemory>
        requires whole { over part empty ≡ views.shared }
        requires covered { IsCovered views }
        requires closed { views.closed ≡ [] }
        requires light { weight_in views.made views.opened ≤ 67108864 }
        requires most { 1 ≤ most }
        requires bound { first + most < 2 ^ 64 }
        ensures images { IfOk result (λ r. r.0 ≡ record { views = views; first = first; given = item first part 0 ∷ []; ring = taker_ring r.1; most = most; applied = first }) }
        ensures imaged { IfOk result (λ r. IsImaged r.0) }
        ensures feed { IfOk result (λ r. (taken r.1 ≡ item first part 0 ∷ []) × (taker_room r.1 ≡ most)) }
    {
        let (mut giver, mut feed) = pair(alloc, most)?;
        let item = Closed {
            section: first,
            part,
            entries: 0,
        };
        let _ = hand_over(&mut giver, &mut feed, item);
        let images = Images {
            alloc,
            views,
            giver,
            first,
            last: first,
            applied: first,
        };
        Ok((images, feed))
    }

    /// The images of a database that begins with loaded views, and their feed. Item 0 has the loaded files whole. At most `most` items are given.
    pub fn begin<E: Engine>(
        engine: &E,
        alloc: Global,
        mut views: Views,
        first: u64,
        most: usize,
    ) -> Result<(Images, Feed), NoMemory>
        requires made { views.made ≡ [] }
        requires opened { views.opened ≡ [] }
        requires closed { views.closed ≡ [] }
        requires stands { StandsIfAny (E.means engine.now) views.private }
        requires most { 1 ≤ most }
        requires bound { first + most < 2 ^ 64 }
        ensures begun { IfOk result (λ r. IsBegun (E.means engine.now) views r.0.views) }
        ensures images { IfOk result (λ r. r.0 ≡ record { views = r.0.views; first = first; given = item first (whole_part views.private) 0 ∷ []; ring = taker_ring r.1; most = most; applied = first }) }
        ensures opening { IfOk result (λ r. image_of r.0.given ≡ views.private) }
        ensures imaged { IfOk result (λ r. IsImaged r.0) }
        ensures feed { IfOk result (λ r. (taken r.1 ≡ r.0.given) × (taker_room r.1 ≡ most)) }
    {
        views.remap();
        let part = loaded(alloc, &views)?;
        let begun = begun(engine, views, &part)?;
        Images::with_item(alloc, begun, part, first, most)
    }

    /// Carries a command out. What it changes is opened; a refusal changes nothing.
    pub fn step<E: Engine>(&mut self, engine: &E, command: &Command) -> Result<Answer, Refused>
        requires stands { (db : Stored) × (E.means engine.now).stands self.old.views.private db }
        ensures twice { IfOk result (λ a. a.kept ≡ a.reply) }
        ensures step { IfOk result (λ a. (db : Stored) → (E.means engine.now).stands self.old.views.private db
            → IsStep (E.means engine.now) db command.now self.old.views self.new.views a.reply) }
        ensures items { SameItems self.old self.new }
        ensures imaged { IsImaged self.new }
        ensures full { IfErr result (λ refused. (db : Stored) → (E.means engine.now).stands self.old.views.private db
            → IsCause (E.means engine.now) db command.now self.old.views.private (weight_in self.old.views.made self.old.views.opened) refused) }
        ensures err { OnErr result (self.new ≡ self.old) }
    {
        let views = mem::replace(&mut self.views, Views::new(self.alloc));
        let (views, answer) = attempt(engine, views, command);
        self.views = views;
        answer
    }

    /// Takes the memory for a close.
    pub fn ready(&mut self) -> Result<(), NoMemory>
        ensures ok { OnOk result (self.new ≡ record self.old { views = record self.old.views { is_ready = true } }) }
        ensures err { OnErr result (self.new ≡ self.old) }
        ensures imaged { IsImaged self.new }
    {
        self.views.ready()
    }

    /// Closes what is opened, and gives its item with this number of entries. It takes no memory.
    pub fn close(&mut self, feed: &mut Feed, entries: u64) -> Closed
        requires ready { IsTrue self.old.views.is_ready }
        requires room { length self.old.given < self.old.most }
        requires own { taker_ring feed.old ≡ self.old.ring }
        ensures item { result ≡ item (self.old.first + length self.old.given) (part_of self.old.views) entries }
        ensures closed { self.new ≡ record self.old { views = closed_from self.old.views; given = self.old.given ++ result ∷ [] } }
        ensures taken { taken feed.new ≡ taken feed.old ++ result ∷ [] }
        ensures follows { Follows self.old.given result }
        ensures whole { image_of self.new.given ≡ self.new.views.private }
        ensures imaged { IsImaged self.new }
        ensures ring { (taker_ring feed.new ≡ taker_ring feed.old) × (taker_room feed.new ≡ taker_room feed.old) }
    {
        let part = self.views.close();
        self.last += 1;
        let item = Closed {
            section: self.last,
            part,
            entries,
        };
        hand_over(&mut self.giver, feed, item)
    }

    /// With its own feed in hand, what was given is what was taken.
    pub fn agree(&mut self, feed: &mut Feed)
        requires { taker_ring feed.old ≡ self.old.ring }
        ensures agree { self.old.given ≡ taken feed.old }
        ensures shared { self.old.views.shared ≡ image_of (up_to self.old.applied self.old.given) }
        ensures same { self.new ≡ self.old }
        ensures taken { taken feed.new ≡ taken feed.old }
        ensures ring { (taker_ring feed.new ≡ taker_ring feed.old) × (taker_room feed.new ≡ taker_room feed.old) }
    {
        agree(&mut self.giver, feed);
    }

    /// Applies the part of the next section.
    fn apply_one(&mut self)
        requires { self.old.applied + 1 < self.old.first + length self.old.given }
        ensures applied { IsApplied self.old (self.old.applied + 1) self.new }
        ensures imaged { IsImaged self.new }
    {
        self.views.apply();
        self.applied += 1;
    }

    /// Applies the closed parts of sections up to a number. It takes no memory.
    pub fn apply(&mut self, upto: u64)
        ensures applied { IsApplied self.old (last_up_to self.old upto) self.new }
        ensures imaged { IsImaged self.new }
    {
        while self.applied < upto && self.applied < self.last {
            self.apply_one();
        }
    }

    /// Gives memory back that holds the same in both images. No byte changes, and it takes no memory.
    pub fn remap(&mut self)
        ensures { self.new ≡ self.old }
    {
        self.views.remap();
    }

    /// The views.
    pub fn views(&self) -> &Views
        ensures views { result.now ≡ self.now.views }
        ensures shared { self.now.views.shared ≡ image_of (up_to self.now.applied self.now.given) }
        ensures imaged { IsImaged self.now }
    {
        &self.views
    }

    /// The section of the last applied item.
    pub fn applied(&self) -> u64
        ensures { result ≡ self.now.applied }
    {
        self.applied
    }

    /// The section of the last item.
    pub fn last(&self) -> u64
        ensures last { result + 1 ≡ self.now.first + length self.now.given }
        ensures bound { result + 1 < 2 ^ 64 }
    {
        self.last
    }
}
