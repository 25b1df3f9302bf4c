//! What a durable side begins with: its databases in rising order of their names, and the place of each there.

ghost use Rattle.std.specs.Prelude.{◌≡◌, map, IfOk};
ghost use Rattle.std.specs.List.Sorted.{IsPermutation, IsSorted};
ghost use Rattle.std.specs.Ordering.{nat_cmp};
ghost use Rattle.std.specs.Cmp.Lexicographic.{slice_cmp};
ghost use Rattle.mm_durable.specs.Names.{index_of};

use crate::flushing::is_same;
use crate::intake::Intake;
use mm_base::{Name, NoMemory};
use mm_tie::Feed;
use std::alloc::Global;

// The names in rising order.
fn in_order(alloc: Global, names: &[Name]) -> Result<Vec<Name>, NoMemory>
    ensures same { IfOk result (λ sorted. IsPermutation names.now sorted.items) }
    ensures rising { IfOk result (λ sorted. IsSorted (slice_cmp nat_cmp) sorted.items) }
{
    let mut sorted = Vec::from_slice(alloc, names)?;
    sorted.sort_unstable();
    Ok(sorted)
}

// The place of a name among these, or how many they are.
fn place_of(names: &[Name], name: &[u8]) -> usize
    ensures { result ≡ index_of names.now name.now }
{
    let mut place = 0;
    for one in names {
        if is_same(one.bytes(), name) {
            return place;
        }
        place += 1;
    }
    place
}

// Of each name its place in the rising order.
fn ranks_of(alloc: Global, names: &[Name], sorted: &[Name]) -> Result<Vec<usize>, NoMemory>
    ensures { IfOk result (λ ranks. ranks.items ≡ map (λ n. index_of sorted.now n) names.now) }
{
    let mut ranks = Vec::new(alloc);
    for name in names {
        ranks.push(place_of(sorted, name.bytes()))?;
    }
    Ok(ranks)
}

impl Intake {
    ghost use Rattle.std.specs.Prelude.{◌<◌, ◌≤◌, ℕ, [], length, get_or};
    ghost use Rattle.mm_tie.specs.Ends.{taken};
    ghost use Rattle.mm_durable.specs.Names.{AreDatabases};
    ghost use Rattle.mm_durable.specs.Intake.{IsIntake};

    /// The feeds of these databases, each of which took its item 0 and no other.
    pub fn start(alloc: Global, names: &[Name], feeds: Vec<Feed>) -> Result<Intake, NoMemory>
        requires some { 0 < length names.now }
        requires few { length names.now ≤ 4 }
        requires names { AreDatabases names.now }
        requires feeds { length feeds.items ≡ length names.now }
        requires first { (d : ℕ) → d < length names.now → length (get_or (map taken feeds.items) d []) ≡ 1 }
        ensures intake { IfOk result (λ intake. IsIntake names.now 0 intake) }
        ensures feeds { IfOk result (λ intake. intake.feeds.items ≡ feeds.items) }
    {
        let sorted = in_order(alloc, names)?;
        let ranks = ranks_of(alloc, names, &sorted)?;
        Ok(Intake {
            alloc,
            feeds,
            sorted,
            ranks,
            seats: Vec::new(alloc),
            parts: Vec::new(alloc),
        })
    }
}
