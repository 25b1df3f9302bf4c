//! Where the entries of a draft are.

ghost use Rattle.std.specs.Prelude.{◌≡◌, ◌<◌, ◌≤◌, ◌+◌, ◌^◌, ◌++◌, ◌∷◌, ◌&&◌, [], List, length, is_some, IfOk, OnOk, OnErr, option_map};
ghost use Rattle.std.specs.Str.{bytes_eq};
ghost use Rattle.mm_update.specs.declared.draft.Entry.{Entry as Kept};
ghost use Rattle.mm_update.specs.Drafted.{place_in};
ghost use Rattle.mm_update.specs.Indexed.{first_named, Knows, IsIndex};

use crate::draft::Entry;
use std::alloc::{AllocError, Global};
use std::collections::HashMap;

/// The place of the first entry of each name, taken out or not.
pub(crate) type Index<'a> = HashMap<&'a str, usize>;

/// Tells an index of one more entry. Where memory runs out, nothing is told.
fn add_name<'a>(index: &mut Index<'a>, name: &'a str, place: usize) -> Result<(), AllocError>
    ensures ok { (es : List Kept) (e : Kept) → Knows index.old es → e.name.now ≡ name.now → place ≡ length es → OnOk result (Knows index.new (es ++ e ∷ [])) }
    ensures err { (es : List Kept) → Knows index.old es → OnErr result (Knows index.new es) }
{
    if index.contains_key(name) {
        return Ok(());
    }
    match index.insert(name, place) {
        Ok(_) => Ok(()),
        Err(_) => Err(AllocError),
    }
}

/// The same, where there is an index.
pub(crate) fn tell<'a>(
    index: &mut Option<Index<'a>>,
    name: &'a str,
    place: usize,
) -> Result<(), AllocError>
    ensures ok { (es : List Kept) (e : Kept) → IsIndex index.old es → e.name.now ≡ name.now → place ≡ length es → OnOk result (IsIndex index.new (es ++ e ∷ [])) }
    ensures err { (es : List Kept) → IsIndex index.old es → OnErr result (IsIndex index.new es) }
{
    match index {
        Some(places) => add_name(places, name, place),
        None => Ok(()),
    }
}

/// The index of these entries.
pub(crate) fn index_of<'a>(alloc: Global, entries: &[Entry<'a>]) -> Result<Index<'a>, AllocError>
    ensures { IfOk result (λ m. Knows m entries.now) }
{
    let mut index = HashMap::new(alloc);
    for place in 0..entries.len() {
        add_name(&mut index, entries[place].name, place)?;
    }
    Ok(index)
}

/// Whether an entry is there and has the name.
fn is_named(entry: &Entry<'_>, name: &str) -> bool
    ensures { result ≡ (is_some entry.now.node && bytes_eq entry.now.name.now name.now) }
{
    entry.node.is_some() && entry.name.as_bytes() == name.as_bytes()
}

/// The place of the first entry of the name among those from a place on.
fn place_among(entries: &[Entry<'_>], start: usize, name: &str) -> Option<usize>
    requires { start + length entries.now < 2 ^ 64 }
    ensures { result ≡ option_map (λ k. start + k) (place_in name.now entries.now) }
{
    let mut place = start;
    for entry in entries {
        if is_named(entry, name) {
            return Some(place);
        }
        place += 1;
    }
    None
}

/// The place that an index has for a name.
fn first_of(index: &Index<'_>, name: &str) -> Option<usize>
    ensures { (es : List Kept) → Knows index.now es → result ≡ first_named name.now es }
{
    match index.get(name) {
        Some(place) => Some(*place),
        None => None,
    }
}

/// The place of the first entry of the name, by an index.
fn place_by(index: &Index<'_>, entries: &[Entry<'_>], name: &str) -> Option<usize>
    requires { Knows index.now entries.now }
    ensures { result ≡ place_in name.now entries.now }
{
    match first_of(index, name) {
        None => None,
        Some(first) => {
            let _len = entries.len();
            let (_, rest) = entries.split_at(first);
            place_among(rest, first, name)
        }
    }
}

/// The place of the first entry of the name.
pub(crate) fn place_of(
    index: &Option<Index<'_>>,
    entries: &[Entry<'_>],
    name: &str,
) -> Option<usize>
    requires { IsIndex index.now entries.now }
    ensures { result ≡ place_in name.now entries.now }
{
    match index {
        None => place_among(entries, 0, name),
        Some(index) => place_by(index, entries, name),
    }
}
