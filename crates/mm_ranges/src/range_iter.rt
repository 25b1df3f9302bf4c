// Going over the ranges of a set.
ghost use Rattle.std.specs.Prelude.{◌≡◌, ℕ, List};
ghost use Rattle.std.specs.Iterator.{YieldsFirst, item_count};
ghost use Rattle.mm_ranges.specs.Room.{shown};
ghost use Rattle.mm_ranges.specs.Spans.{spans_of};

use crate::spans::Starts;
use std::collections::btree_map::Iter;
use std::marker::Model;

/// The ranges of a set in rising order, each as its file, its offset and its length.
#[derive(Drop)]
pub struct RangeIter<'a> {
    entries: Iter<'a, (u32, u32), u32>,
}

impl<'a> Model for RangeIter<'a> {
    ghost use Rattle.std.specs.Prelude.{List};
    ghost use Rattle.mm_ranges.specs.Places.{Range};
    ghost use Rattle.mm_ranges.specs.Room.{shown};
    ghost use Rattle.mm_ranges.specs.Spans.{spans_of};

    ghost Value = { List Range };

    ghost view = { λ a. shown (spans_of a.entries) };
}

impl<'a> RangeIter<'a> {
    pub(crate) fn new(starts: &'a Starts) -> RangeIter<'a>
        ensures { result ≡ shown (spans_of starts.now.entries) }
    {
        RangeIter {
            entries: starts.iter(),
        }
    }
}

impl<'a> Iterator for RangeIter<'a> {
    type Item = (u32, u32, u32);

    ghost next_gives = { YieldsFirst (λ s. s) };

    ghost remaining = { item_count (λ s. s) };

    fn next(&mut self) -> Option<(u32, u32, u32)> {
        while let Some((&(file, end), &start)) = self.entries.next() {
            if start < end {
                return Some((file, start, end - start));
            }
        }
        None
    }
}
