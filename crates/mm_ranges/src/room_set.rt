// A set of places that can hold room for the ranges of another.
ghost use Rattle.std.specs.Prelude.{◌≡◌, ℕ, ◌+◌, ◌^◌, ◌<◌, List, [], OnOk, OnErr, IsTrue, ◌↔◌, sum_by};
ghost use Rattle.mm_ranges.specs.Places.{Range, Covers, is_normal, inserted, merged, weight_of};
ghost use Rattle.mm_ranges.specs.Room.{shown, has_room, is_touched, without_room, given_back};

use crate::memory::NoMemory;
use crate::range_iter::RangeIter;
use crate::range_set::RangeSet;
use crate::spans::{
    Reach, Span, Starts, Tally, are_covered, hold, how_near, let_go, put, put_alone,
};
use std::alloc::Global;
use std::collections::BTreeMap;
use std::marker::Model;

/// A set of places that takes the memory for a merge ahead of it. It is seen as its spans, some of them empty;
/// those that have a place are its ranges, in normal form.
#[derive(Drop)]
pub struct RoomSet {
    starts: Starts,
    tally: Tally,
}

impl Model for RoomSet {
    ghost use Rattle.std.specs.Prelude.{List};
    ghost use Rattle.mm_ranges.specs.Places.{Range};
    ghost use Rattle.mm_ranges.specs.Spans.{spans_of, IsCounted};

    ghost Value = { List Range };

    ghost view = { λ a. spans_of a.starts.entries };

    ghost invariant = { λ a. IsCounted a.tally a.starts.entries };
}

impl RoomSet {
    pub fn new(alloc: Global) -> RoomSet
        ensures { result ≡ [] }
    {
        RoomSet {
            starts: BTreeMap::new(alloc),
            tally: Tally {
                places: 0,
                ranges: 0,
            },
        }
    }

    // Takes the memory for a range that ends at a place.
    fn make_room_at(&mut self, file: u32, end: u32) -> Result<(), NoMemory>
        ensures touched { OnOk result (IsTrue (is_touched self.new file end)) }
        ensures shown { shown self.new ≡ shown self.old }
        ensures room { (rs : List Range) → IsTrue (has_room self.old rs) → IsTrue (has_room self.new rs) }
    {
        hold(&mut self.starts, file, end)?;
        Ok(())
    }

    // Puts in a range whose end is touched.
    fn put(&mut self, file: u32, at: u32, len: u32)
        requires some { 0 < len }
        requires fits { at + len < 2 ^ 32 }
        requires touched { IsTrue (is_touched self.old file (at + len)) }
        ensures shown { shown self.new ≡ inserted (file, at, len) (shown self.old) }
        ensures room { (rs : List Range) → IsTrue (has_room self.old rs) → IsTrue (has_room self.new rs) }
    {
        let end = at + len;
        let new = Span {
            file,
            start: at,
            end,
        };
        put(&mut self.starts, &mut self.tally, new);
    }

    /// Adds the places of a range.
    pub(crate) fn insert(&mut self, file: u32, at: u32, len: u32) -> Result<(), NoMemory>
        requires some { 0 < len }
        requires fits { at + len < 2 ^ 32 }
        ensures ok { OnOk result (shown self.new ≡ inserted (file, at, len) (shown self.old)) }
        ensures err { OnErr result (shown self.new ≡ shown self.old) }
    {
        let end = at + len;
        let new = Span {
            file,
            start: at,
            end,
        };
        match how_near(&self.starts, new) {
            Reach::Inside => {}
            Reach::Alone => put_alone(&mut self.starts, &mut self.tally, new)?,
            Reach::Touching => {
                self.make_room_at(file, end)?;
                self.put(file, at, len);
            }
        }
        Ok(())
    }

    /// Takes the memory that a merge with another set needs. The ranges stay.
    pub fn make_room(&mut self, others: &RangeSet) -> Result<(), NoMemory>
        ensures room { OnOk result (IsTrue (has_room self.new others.now)) }
        ensures shown { shown self.new ≡ shown self.old }

        // Room that there was is there.
        ensures stays { (rs : List Range) → IsTrue (has_room self.old rs) → IsTrue (has_room self.new rs) }
    {
        for (file, at, len) in others.iter() {
            self.make_room_at(file, at + len)?;
        }
        Ok(())
    }

    /// Adds the places of another set, for which there is room. It takes no memory.
    pub fn merge(&mut self, others: &RangeSet)
        requires { IsTrue (has_room self.old others.now) }
        ensures shown { shown self.new ≡ merged (shown self.old) others.now }
    {
        for (file, at, len) in others.iter() {
            self.put(file, at, len);
        }
    }

    // Gives back the memory that is held for a range that ends at a place.
    fn give_back_at(&mut self, file: u32, end: u32)
        ensures { self.new ≡ without_room file end self.old }
    {
        let_go(&mut self.starts, file, end);
    }

    /// Gives back the memory that is held for a merge with another set. The ranges stay.
    pub fn give_back(&mut self, others: &RangeSet)
        ensures room { self.new ≡ given_back self.old others.now }
        ensures shown { shown self.new ≡ shown self.old }
    {
        for (file, at, len) in others.iter() {
            self.give_back_at(file, at + len);
        }
    }

    /// The ranges in rising order.
    pub fn iter(&self) -> RangeIter<'_>
        ensures ranges { result ≡ shown self.now }
        ensures normal { IsTrue (is_normal (shown self.now)) }
    {
        RangeIter::new(&self.starts)
    }

    // Whether each place of a range is in the set.
    pub(crate) fn covers(&self, file: u32, at: u32, len: u32) -> bool
        ensures { IsTrue result ↔ Covers (shown self.now) file at len }
    {
        len == 0 || are_covered(&self.starts, file, at, len)
    }

    /// What the ranges weigh: each its length and 12.
    pub fn weight(&self) -> u64
        requires { sum_by weight_of (shown self.now) < 2 ^ 64 }
        ensures { result ≡ sum_by weight_of (shown self.now) }
    {
        self.tally.places + 12 * self.tally.ranges
    }
}
