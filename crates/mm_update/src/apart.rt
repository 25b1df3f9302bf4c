//! Paths of which no two overlap, in the order of their steps.

ghost use Rattle.std.specs.Prelude.{◌≡◌, ◌≤◌, ◌||◌, true, false, length, map, not, max, IsTrue, IfOk, List, ℕ};
ghost use Rattle.mm_update.specs.Paths.{by_steps as by_steps_of, leads as leads_by, overlap, overlaps_any, AreInOrder, IsPlace, IsFreeAt, IsFreeBefore, IsFree};
ghost use Rattle.mm_update.specs.Meeting.{common as common_by, most_common, common_before as common_before_by, common_at as common_at_by};
ghost use Rattle.mm_bson.specs.Path.{names};

use crate::path::{leads, split};
use mm_bson::Text;
use std::alloc::{AllocError, Global};
use std::cmp::Ordering;
use std::marker::Model;

/// The order of two paths, step by step.
fn by_steps(path: &str, other: &str) -> Ordering
    ensures { result ≡ by_steps_of (names path.now) (names other.now) }
{
    let mut left = path;
    let mut right = other;
    loop {
        let a = split(left);
        let b = split(right);
        match a.name.as_bytes().cmp(b.name.as_bytes()) {
            Ordering::Equal => {}
            order => return order,
        }
        match (a.rest, b.rest) {
            (None, None) => return Ordering::Equal,
            (None, Some(_)) => return Ordering::Less,
            (Some(_), None) => return Ordering::Greater,
            (Some(after_a), Some(after_b)) => {
                left = after_a;
                right = after_b;
            }
        }
    }
}

/// The place of a path among others: behind those that come before it.
fn place_of(paths: &[&Text], path: &Text) -> usize
    requires { AreInOrder (map (λ t. t.now) paths.now) }
    ensures { IsPlace result (map (λ t. t.now) paths.now) path.now }
{
    let mut low = 0;
    let mut high = paths.len();
    while low < high {
        let middle = low + (high - low) / 2;
        match by_steps(paths[middle].as_str(), path.as_str()) {
            Ordering::Less => low = middle + 1,
            _ => high = middle,
        }
    }
    low
}

/// Whether the path before the place leads to this one.
fn is_led_to(paths: &[&Text], place: usize, path: &Text) -> bool
    requires { place ≤ length paths.now }
    ensures led { IsTrue result → overlaps_any (map (λ t. t.now) paths.now) path.now ≡ true }
    ensures free { result ≡ false → IsFreeBefore path.now place (map (λ t. t.now) paths.now) }
{
    if place == 0 {
        return false;
    }
    leads(paths[place - 1].as_str(), path.as_str())
}

/// Whether a path leads to the one at the place.
fn leads_at(paths: &[&Text], place: usize, path: &Text) -> bool
    ensures leads { IsTrue result → overlaps_any (map (λ t. t.now) paths.now) path.now ≡ true }
    ensures free { result ≡ false → IsFreeAt path.now place (map (λ t. t.now) paths.now) }
{
    if place >= paths.len() {
        return false;
    }
    leads(path.as_str(), paths[place].as_str())
}

/// Whether a path overlaps one of its neighbours at its place.
fn overlaps_at(paths: &[&Text], place: usize, path: &Text) -> bool
    requires order { AreInOrder (map (λ t. t.now) paths.now) }
    requires place { IsPlace place (map (λ t. t.now) paths.now) path.now }
    ensures some { IsTrue result → overlaps_any (map (λ t. t.now) paths.now) path.now ≡ true }
    ensures none { result ≡ false → IsFree path.now place (map (λ t. t.now) paths.now) }
{
    if is_led_to(paths, place, path) {
        return true;
    }
    leads_at(paths, place, path)
}

/// How many steps two paths have in common at their start.
fn common(path: &str, other: &str) -> usize
    ensures { result ≡ common_by (names path.now) (names other.now) }
{
    let mut left = path;
    let mut right = other;
    let mut same = 0;
    loop {
        let a = split(left);
        let b = split(right);
        if a.name.as_bytes() != b.name.as_bytes() {
            return same;
        }
        same += 1;
        match (a.rest, b.rest) {
            (Some(after_a), Some(after_b)) => {
                left = after_a;
                right = after_b;
            }
            _ => return same,
        }
    }
}

/// How many steps a path has in common with the one before its place.
fn common_before(paths: &[&Text], place: usize, path: &Text) -> usize
    requires { place ≤ length paths.now }
    ensures { result ≡ common_before_by path.now place (map (λ t. t.now) paths.now) }
{
    if place == 0 {
        return 0;
    }
    common(paths[place - 1].as_str(), path.as_str())
}

/// How many steps a path has in common with the one at the place.
fn common_at(paths: &[&Text], place: usize, path: &Text) -> usize
    ensures { result ≡ common_at_by path.now place (map (λ t. t.now) paths.now) }
{
    if place >= paths.len() {
        return 0;
    }
    common(paths[place].as_str(), path.as_str())
}

/// Paths that are apart, seen as their list in the order of their steps.
#[derive(Drop)]
pub(crate) struct Apart<'a> {
    paths: Vec<&'a Text>,
}

impl<'a> Model for Apart<'a> {
    ghost use Rattle.std.specs.Prelude.{List, ℕ, map};
    ghost use Rattle.std.specs.Coded.{coded_list, coded_ℕ};

    ghost Value = { List (List ℕ) };

    ghost coded = { coded_list (coded_list coded_ℕ) };

    ghost use Rattle.mm_update.specs.Paths.{AreInOrder};

    ghost view = { λ a. map (λ t. t.now) a.paths.items };

    ghost invariant = { λ a. AreInOrder (map (λ t. t.now) a.paths.items) };
}

impl<'a> Apart<'a> {
    ghost use Rattle.std.specs.Prelude.{[]};

    /// How many steps a path has in common with one of these at most.
    pub(crate) fn common(&self, path: &Text) -> usize
        ensures { result ≡ most_common self.now (names path.now) }
    {
        let paths = self.paths.as_slice();
        let place = place_of(paths, path);
        common_before(paths, place, path).max(common_at(paths, place, path))
    }

    /// No paths. It takes no memory.
    pub(crate) fn new(alloc: Global) -> Apart<'a>
        ensures { result ≡ [] }
    {
        Apart {
            paths: Vec::new(alloc),
        }
    }

    /// Puts a path that is apart from all others among them. It answers whether
    /// it was.
    pub(crate) fn put(&mut self, path: &'a Text) -> Result<bool, AllocError>
        ensures answer { IfOk result (λ put. put ≡ not (overlaps_any self.old path.now)) }
        ensures one_more { IfOk result (λ put. IsTrue put → (q : List ℕ) → overlaps_any self.new q ≡ (overlap path.now q || overlaps_any self.old q)) }
        ensures common { IfOk result (λ put. IsTrue put → (ms : List (List ℕ)) → most_common self.new ms ≡ max (common_by (names path.now) ms) (most_common self.old ms)) }
    {
        let place = place_of(self.paths.as_slice(), path);
        if overlaps_at(self.paths.as_slice(), place, path) {
            return Ok(false);
        }
        self.paths.insert(place, path)?;
        Ok(true)
    }
}
