// The chain of the records of an extent.
ghost use Rattle.std.specs.Prelude.{◌≡◌, ℕ, ℤ, pos, negsuc, ◌+◌, ◌≤◌, ◌<◌, ◌^◌, ◌↔◌, List, length, All, IsTrue, IfOk, IfSome, IfNone};
ghost use Rattle.mm_base.specs.declared.place.DiskLoc.{DiskLoc};
ghost use Rattle.mm_main.specs.declared.finding.What.TheVariants.{Chain};
ghost use Rattle.mm_main.specs.Room.{file_len};
ghost use Rattle.mm_main.specs.Opening.{IsBehind};
ghost use Rattle.mm_main.specs.Findings.{to_offset, link_of, place_link, IsLinked, IsFollowed, FailsBehind, IfFound, last_or, prev_of, last_place};

use crate::answers::{EXTENT_AT, FILE_LEN};
use crate::finding::{Finding, Unreadable, What};
use crate::headers::{Extent, is_at};
use mm_base::DiskLoc;
use mm_frames::{CHAIN_END, REC_HEADER_LEN, RecHeader, read_rec_header};
use std::alloc::Global;

// The least length of a record.
const LEAST_LEN: i32 = 32;

/// Where a link leads.
#[derive(Clone, Copy)]
pub enum Link {
    /// Nowhere: the chain ends.
    End,
    /// To an offset of the file.
    To(usize),
    /// Outside of the file.
    Outside,
}

// Where an offset of the file leads.
fn to_offset(ofs: i32) -> Link
    ensures { result ≡ to_offset ofs }
{
    if ofs < 0 || FILE_LEN as i32 <= ofs {
        return Link::Outside;
    }
    Link::To(ofs as usize)
}

// Where the link of a record leads.
fn link_of(ofs: i32) -> Link
    ensures { result ≡ link_of ofs }
{
    if ofs == CHAIN_END {
        return Link::End;
    }
    to_offset(ofs)
}

// Where the place of the first record leads.
fn place_link(place: DiskLoc) -> Link
    ensures { result ≡ place_link place }
{
    match place.file {
        -1 => Link::End,
        0 => to_offset(place.ofs),
        _ => Link::Outside,
    }
}

// The last of some offsets, or another where there is none.
fn last_or(ats: &[usize], other: usize) -> usize
    ensures { result ≡ last_or other ats.now }
{
    match ats.last() {
        Some(at) => *at,
        None => other,
    }
}

// What the next record has for the one before it.
fn prev_of(ats: &[usize]) -> i32
    requires { last_or 0 ats.now < 2 ^ 31 }
    ensures { result ≡ prev_of ats.now }
{
    if ats.is_empty() {
        return CHAIN_END;
    }
    last_or(ats, 0) as i32
}

// Whether it is the place of the last record, or null where there is none.
fn is_last(place: DiskLoc, ats: &[usize]) -> bool
    requires { last_or 0 ats.now < 2 ^ 31 }
    ensures { IsTrue result ↔ (place ≡ last_place ats.now) }
{
    if ats.is_empty() {
        return place.is_null();
    }
    is_at(place, last_or(ats, 0))
}

// Whether a record is long enough, of the extent, and behind another.
fn is_behind(header: &RecHeader, prev: i32) -> bool
    ensures { IsTrue result ↔ IsBehind header.now prev }
{
    header.length_with_headers >= LEAST_LEN
        && header.extent_ofs == EXTENT_AT as i32
        && header.prev_ofs == prev
}

// The link of the record at an offset to the next one, where it is a record behind another.
fn next_of(file: &[u8], prev: i32, at: usize) -> Option<i32>
    requires { length file.now ≡ file_len }
    ensures some { IfSome result (λ next. (here : IsLinked file.now prev at) × (here.next ≡ next)) }
    ensures none { IfNone result (IsLinked file.now prev at → ⊥) }
{
    if at < EXTENT_AT || FILE_LEN - REC_HEADER_LEN < at {
        return None;
    }
    let header = read_rec_header(file, at);
    if !is_behind(&header, prev) {
        return None;
    }
    Some(header.next_ofs)
}

// The chain is wrong at an offset.
fn wrong(at: usize) -> Unreadable
    ensures { result ≡ Unreadable.Found (record { at = at; what = Chain }) }
{
    Unreadable::Found(Finding {
        at,
        what: What::Chain,
    })
}

// Follows a chain from its first record to its end.
fn follow(alloc: Global, file: &[u8], first: DiskLoc) -> Result<Vec<usize>, Unreadable>
    requires { length file.now ≡ file_len }
    ensures followed { IfOk result (λ ats. IsFollowed file.now first ats.items Link.End) }
    ensures found { IfFound result (λ at what. (what ≡ Chain) × (ats : List ℕ) × (link : Link) × IsFollowed file.now first ats link × ((last : DiskLoc) → FailsBehind file.now last ats link at)) }
{
    let mut ats = Vec::new(alloc);
    let mut link = place_link(first);
    'records: while let Link::To(at) = link {
        let Some(next) = next_of(file, prev_of(&ats), at) else {
            return Err(wrong(at));
        };
        ats.push(at)?;
        link = link_of(next);
    }
    match link {
        Link::End => Ok(ats),
        _ => Err(wrong(last_or(&ats, EXTENT_AT))),
    }
}

/// The offsets of an extent's records, in the order of their chain.
pub fn records_of(alloc: Global, file: &[u8], extent: &Extent) -> Result<Vec<usize>, Unreadable>
    requires { length file.now ≡ file_len }
    ensures followed { IfOk result (λ ats. IsFollowed file.now extent.now.first ats.items Link.End × (extent.now.last ≡ last_place ats.items)) }
    ensures found { IfFound result (λ at what. (what ≡ Chain) × (ats : List ℕ) × (link : Link) × IsFollowed file.now extent.now.first ats link × FailsBehind file.now extent.now.last ats link at) }
{
    let ats = follow(alloc, file, extent.first)?;
    if !is_last(extent.last, &ats) {
        return Err(wrong(EXTENT_AT));
    }
    Ok(ats)
}
