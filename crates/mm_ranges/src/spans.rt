// Spans of places in a map, each at its end, so that one look-up finds the first span that reaches a place.
ghost use Rattle.std.specs.Prelude.{◌≡◌, ℕ, ◌+◌, ◌-◌, ◌^◌, ◌<◌, ◌≤◌, List, Some, IfSome, IfNone, OnOk, OnErr, IsTrue, ◌↔◌, nat_le, ◌==◌, ◌&&◌};
ghost use Rattle.std.specs.Option.{option_map};
ghost use Rattle.mm_ranges.specs.Places.{Covers, is_before, is_within, inserted};
ghost use Rattle.mm_ranges.specs.Room.{is_touched, without_room};
ghost use Rattle.mm_ranges.specs.Spans.{IsKept, Counts, Joins, IsLast, IsAlone, LiesSo, spans_of, first_at, count_of, places_in, ranges_in, range_of, entry_of};

use crate::memory::NoMemory;
use std::collections::BTreeMap;

// A file and the end of a span in it, and the start of that span.
pub(crate) type Starts = BTreeMap<(u32, u32), u32>;

#[derive(Clone, Copy)]
pub(crate) struct Span {
    pub(crate) file: u32,
    pub(crate) start: u32,
    pub(crate) end: u32,
}

// How many places spans have, and how many of the spans have one.
#[derive(Clone, Copy)]
pub(crate) struct Tally {
    pub(crate) places: u64,
    pub(crate) ranges: u64,
}

impl Tally {
    fn with(self, span: Span) -> Tally
        requires order { span.start ≤ span.end }
        requires places { self.places + (span.end - span.start) < 2 ^ 64 }
        requires ranges { self.ranges + count_of (range_of span) < 2 ^ 64 }
        ensures places { result.places ≡ self.places + (span.end - span.start) }
        ensures ranges { result.ranges ≡ self.ranges + count_of (range_of span) }
    {
        Tally {
            places: self.places + u64::from(span.end - span.start),
            ranges: self.ranges + u64::from(span.start < span.end),
        }
    }

    fn without(self, span: Span) -> Tally
        requires order { span.start ≤ span.end }
        requires places { span.end - span.start ≤ self.places }
        requires ranges { count_of (range_of span) ≤ self.ranges }
        ensures places { result.places + (span.end - span.start) ≡ self.places }
        ensures ranges { result.ranges + count_of (range_of span) ≡ self.ranges }
    {
        Tally {
            places: self.places - u64::from(span.end - span.start),
            ranges: self.ranges - u64::from(span.start < span.end),
        }
    }
}

// The first span that ends at a place or after it.
pub(crate) fn first_from(starts: &Starts, file: u32, at: u32) -> Option<Span>
    ensures { option_map entry_of result ≡ first_at file at starts.now.entries }
{
    match starts.range((file, at)..).next() {
        Some((&(file, end), &start)) => Some(Span { file, start, end }),
        None => None,
    }
}

// Whether a span of the file starts no later than a place.
fn is_begun(span: Span, file: u32, at: u32) -> bool
    ensures { result ≡ (span.file == file && nat_le span.start at) }
{
    span.file == file && span.start <= at
}

// Whether a span has the place or ends there.
fn touches(starts: &Starts, file: u32, at: u32) -> bool
    requires { IsKept starts.now.entries }
    ensures { result ≡ is_touched (spans_of starts.now.entries) file at }
{
    match first_from(starts, file, at) {
        Some(span) => is_begun(span, file, at),
        None => false,
    }
}

// Whether a span has all places of a range.
fn has_range(span: Span, file: u32, at: u32, len: u32) -> bool
    requires { span.start ≤ span.end }
    ensures { result ≡ is_within (range_of span) (file, at, len) }
{
    span.file == file && span.start <= at && u64::from(at) + u64::from(len) <= u64::from(span.end)
}

// Whether each place of a range that has some lies in a span.
pub(crate) fn are_covered(starts: &Starts, file: u32, at: u32, len: u32) -> bool
    requires kept { IsKept starts.now.entries }
    requires some { 0 < len }
    ensures { IsTrue result ↔ Covers (spans_of starts.now.entries) file at len }
{
    match first_from(starts, file, at) {
        Some(span) => has_range(span, file, at, len),
        None => false,
    }
}

// Makes an empty span at a place, unless a span is there that has it or ends there.
pub(crate) fn hold(starts: &mut Starts, file: u32, at: u32) -> Result<(), NoMemory>
    requires { IsKept starts.old.entries }
    ensures ok { OnOk result (spans_of starts.new.entries ≡ inserted (file, at, 0) (spans_of starts.old.entries)) }
    ensures err { OnErr result (starts.new.entries ≡ starts.old.entries) }
    ensures kept { IsKept starts.new.entries }
    ensures places { places_in starts.new.entries ≡ places_in starts.old.entries }
    ensures ranges { ranges_in starts.new.entries ≡ ranges_in starts.old.entries }
{
    if !touches(starts, file, at) {
        starts.insert((file, at), at)?;
    }
    Ok(())
}

// The first span that ends between the start and the end of another.
fn shorter(starts: &Starts, whole: Span) -> Option<Span>
    ensures some { IfSome result (λ s. (first_at whole.file whole.start starts.now.entries ≡ Some (entry_of s)) × (s.end < whole.end)) }
    ensures none { IfNone result (IsLast whole starts.now.entries) }
{
    match first_from(starts, whole.file, whole.start) {
        Some(span) if span.end < whole.end => Some(span),
        _ => None,
    }
}

// Takes out the spans that end within another, and gives the least span round it and them.
fn swallow(starts: &mut Starts, tally: &mut Tally, new: Span) -> Span
    requires kept { IsKept starts.old.entries }
    requires counts { Counts tally.old starts.old.entries }
    requires joins { Joins new starts.old.entries }
    ensures kept { IsKept starts.new.entries }
    ensures counts { Counts tally.new starts.new.entries }
    ensures joins { Joins result starts.new.entries }
    ensures last { IsLast result starts.new.entries }
    ensures same { inserted (range_of result) (spans_of starts.new.entries) ≡ inserted (range_of new) (spans_of starts.old.entries) }
{
    let mut whole = new;
    while let Some(span) = shorter(starts, whole) {
        *tally = tally.without(span);
        starts.remove(&(span.file, span.end));
        whole.start = whole.start.min(span.start);
    }
    whole
}

// Stretches the span that the end of another touches, so that it has that one's places.
fn stretch(starts: &mut Starts, tally: &mut Tally, whole: Span)
    requires kept { IsKept starts.old.entries }
    requires counts { Counts tally.old starts.old.entries }
    requires joins { Joins whole starts.old.entries }
    requires last { IsLast whole starts.old.entries }
    ensures kept { IsKept starts.new.entries }
    ensures counts { Counts tally.new starts.new.entries }
    ensures spans { spans_of starts.new.entries ≡ inserted (range_of whole) (spans_of starts.old.entries) }
{
    let Some(span) = first_from(starts, whole.file, whole.start) else {
        unreachable!()
    };
    let start = whole.start.min(span.start);
    *tally = tally.without(span).with(Span { start, ..span });
    match starts.insert((span.file, span.end), start) {
        Ok(_) => {}
        Err(_) => unreachable!(),
    }
}

// How a span lies to those of a map.
#[derive(Clone, Copy)]
pub(crate) enum Reach {
    // within one, so that it changes nothing
    Inside,
    // it touches none
    Alone,
    Touching,
}

// Whether a span has all of another.
fn has_span(span: Span, new: Span) -> bool
    requires old { span.start ≤ span.end }
    requires new { new.start ≤ new.end }
    ensures { result ≡ is_within (range_of span) (range_of new) }
{
    span.file == new.file && span.start <= new.start && new.end <= span.end
}

// Whether a span begins behind another, with a place between them.
fn is_behind(span: Span, new: Span) -> bool
    requires { new.start ≤ new.end }
    ensures { result ≡ is_before (range_of new) (range_of span) }
{
    new.file < span.file || (new.file == span.file && new.end < span.start)
}

// How a span lies to those of the map.
pub(crate) fn how_near(starts: &Starts, new: Span) -> Reach
    requires kept { IsKept starts.now.entries }
    requires order { new.start ≤ new.end }
    ensures { LiesSo result new starts.now.entries }
{
    let Some(span) = first_from(starts, new.file, new.start) else {
        return Reach::Alone;
    };
    if has_span(span, new) {
        Reach::Inside
    } else if is_behind(span, new) {
        Reach::Alone
    } else {
        Reach::Touching
    }
}

// Puts in a span that touches no other.
pub(crate) fn put_alone(starts: &mut Starts, tally: &mut Tally, new: Span) -> Result<(), NoMemory>
    requires kept { IsKept starts.old.entries }
    requires counts { Counts tally.old starts.old.entries }
    requires order { new.start ≤ new.end }
    requires alone { IsAlone new starts.old.entries }
    ensures ok { OnOk result (spans_of starts.new.entries ≡ inserted (range_of new) (spans_of starts.old.entries)) }
    ensures err { OnErr result (starts.new.entries ≡ starts.old.entries) }
    ensures kept { IsKept starts.new.entries }
    ensures counts { Counts tally.new starts.new.entries }
{
    starts.insert((new.file, new.end), new.start)?;
    *tally = tally.with(new);
    Ok(())
}

// Puts a span in among the others. It takes no memory.
pub(crate) fn put(starts: &mut Starts, tally: &mut Tally, new: Span)
    requires kept { IsKept starts.old.entries }
    requires counts { Counts tally.old starts.old.entries }
    requires joins { Joins new starts.old.entries }
    ensures kept { IsKept starts.new.entries }
    ensures counts { Counts tally.new starts.new.entries }
    ensures spans { spans_of starts.new.entries ≡ inserted (range_of new) (spans_of starts.old.entries) }
{
    if let Reach::Inside = how_near(starts, new) {
        return;
    }
    let whole = swallow(starts, tally, new);
    stretch(starts, tally, whole);
}

// Whether a span is the empty one at a place.
fn is_empty_at(span: Span, file: u32, at: u32) -> bool
    ensures { IsTrue result ↔ (span ≡ record { file = file; start = at; end = at }) }
{
    span.file == file && span.start == at && span.end == at
}

// Takes out an empty span at a place, if one is there.
pub(crate) fn let_go(starts: &mut Starts, file: u32, at: u32)
    requires { IsKept starts.old.entries }
    ensures kept { IsKept starts.new.entries }
    ensures spans { spans_of starts.new.entries ≡ without_room file at (spans_of starts.old.entries) }
    ensures places { places_in starts.new.entries ≡ places_in starts.old.entries }
    ensures ranges { ranges_in starts.new.entries ≡ ranges_in starts.old.entries }
{
    let Some(span) = first_from(starts, file, at) else {
        return;
    };
    if is_empty_at(span, file, at) {
        starts.remove(&(file, at));
    }
}
