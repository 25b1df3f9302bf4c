// A set of places.
ghost use Rattle.std.specs.Prelude.{◌≡◌, ℕ, ◌+◌, ◌^◌, ◌<◌, ◌≤◌, ◌||◌, List, [], true, OnOk, OnErr, IsTrue, ◌↔◌, sum_by};
ghost use Rattle.mm_ranges.specs.Places.{Range, Covers, CoverSame, is_in, is_covered, is_normal, inserted, merged, weight_of};

use crate::memory::NoMemory;
use crate::range_iter::RangeIter;
use crate::room_set::RoomSet;
use std::alloc::Global;
use std::marker::Model;

/// A set of places, seen as the list of its ranges: sorted, disjoint and not touching.
#[derive(Drop)]
pub struct RangeSet {
    spans: RoomSet,
}

impl Model for RangeSet {
    ghost use Rattle.std.specs.Prelude.{List};
    ghost use Rattle.std.specs.Prelude.{◌≡◌, true};
    ghost use Rattle.mm_ranges.specs.Places.{Range, is_normal};
    ghost use Rattle.mm_ranges.specs.Room.{shown};

    ghost Value = { List Range };

    ghost view = { λ a. shown a.spans };

    ghost invariant = { λ a. is_normal (shown a.spans) ≡ true };
}

impl RangeSet {
    pub fn new(alloc: Global) -> RangeSet
        ensures { result ≡ [] }
    {
        RangeSet {
            spans: RoomSet::new(alloc),
        }
    }

    /// Adds the places of a range.
    pub fn insert(&mut self, file: u32, at: u32, len: u32) -> Result<(), NoMemory>
        requires some { 0 < len }
        requires fits { at + len < 2 ^ 32 }
        ensures ok { OnOk result (self.new ≡ inserted (file, at, len) self.old) }
        ensures covered { OnOk result ((f p : ℕ) → is_covered self.new f p ≡ (is_in f p (file, at, len) || is_covered self.old f p)) }
        ensures err { OnErr result (self.new ≡ self.old) }
        ensures normal { IsTrue (is_normal self.new) }
    {
        self.spans.insert(file, at, len)?;
        Ok(())
    }

    /// Adds the places of another set.
    pub fn merge(&mut self, other: &RangeSet) -> Result<(), NoMemory>
        ensures ok { OnOk result (self.new ≡ merged self.old other.now) }
        ensures covered { OnOk result ((f p : ℕ) → is_covered self.new f p ≡ (is_covered other.now f p || is_covered self.old f p)) }
        ensures weight { sum_by weight_of self.new ≤ sum_by weight_of self.old + sum_by weight_of other.now }
        ensures err { OnErr result (self.new ≡ self.old) }
        ensures normal { IsTrue (is_normal self.new) }
    {
        let _ = &other.spans;
        self.spans.make_room(other)?;
        self.spans.merge(other);
        Ok(())
    }

    /// The ranges in rising order.
    pub fn iter(&self) -> RangeIter<'_>
        ensures ranges { result ≡ self.now }
        ensures normal { IsTrue (is_normal self.now) }
    {
        self.spans.iter()
    }

    /// Whether each place of a range is in the set.
    pub fn covers(&self, file: u32, at: u32, len: u32) -> bool
        ensures { IsTrue result ↔ Covers self.now file at len }
    {
        self.spans.covers(file, at, len)
    }

    /// What the set weighs: each range its length and 12.
    pub fn weight(&self) -> u64
        requires { sum_by weight_of self.now < 2 ^ 64 }
        ensures { result ≡ sum_by weight_of self.now }
    {
        self.spans.weight()
    }
}

/// Two sets of the same places are the same list of ranges: a set of places has one normal form. The call does nothing.
pub fn one_normal_form(a: &RangeSet, b: &RangeSet)
    requires { CoverSame a.now b.now }
    ensures { a.now ≡ b.now }
{
    let _ = &a.spans;
    let _ = &b.spans;
}
