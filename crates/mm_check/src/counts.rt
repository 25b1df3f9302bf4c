//! The counts and constant fields of details, and the first node whose are wrong.

ghost use Rattle.std.specs.Prelude.{◌≡◌, ◌+◌, ◌-◌, ◌^◌, ◌<◌, ◌≤◌, ℕ, true, length, map, flat_map, take, drop, sum_by, min, IfOk, All};
ghost use Rattle.mm_ranges.specs.Overlay.{bytes_at};
ghost use Rattle.mm_links.specs.Links.{Place, has, last_of};
ghost use Rattle.mm_nstable.specs.Nodes.{count_of};
ghost use Rattle.mm_records.specs.Stands.{ns_in};
ghost use Rattle.mm_walk.specs.Questions.{first_failing};
ghost use Rattle.mm_check.specs.RecordChain.{is_pos};
ghost use Rattle.mm_check.specs.ExtentChain.{InFile};
ghost use Rattle.mm_check.specs.BlockQuestions.{block_len};
ghost use Rattle.mm_check.specs.CountQuestions.{last_size, counts_right};
ghost use Rattle.mm_check.specs.Findings.{joined, name_of, details_at, count_questions};
ghost use Rattle.mm_check.specs.Phases.{owner_of};

use crate::constants::constants_right;
use crate::frames::{read_extent, read_record};
use crate::nodes::{node_details, node_head, node_ofs};
use crate::numbers::{is_pos, size};
use crate::owners::{Owned, text_of};
use crate::places::join;
use mm_frames::Details;
use mm_views::{NS_FILE, Views};
use std::alloc::{AllocError, Global};

// The number is this one.
fn is_number(z: i64, n: u64) -> bool
    ensures { result ≡ is_pos z n }
{
    i128::from(z) == i128::from(n)
}

// The number is this one, of which 2^64 and above aren't told apart.
fn is_count(z: i64, n: u64) -> bool
    ensures { (m : ℕ) → n ≡ min m (2 ^ 64 - 1) → result ≡ is_pos z m }
{
    is_number(z, n)
}

// The bytes of records behind their headers; no more than 2^64 - 1.
fn bytes_of(views: &Views, records: &[(u32, u32)]) -> u64
    requires { (p : Place) → has records.now p ≡ true → p.1 + 16 ≤ length (bytes_at views.now.private p.0) }
    ensures { result ≡ min (sum_by (λ p. block_len views.now.private p - 16) records.now) (2 ^ 64 - 1) }
{
    let mut sum: u64 = 0;
    for i in 0..records.len() {
        let len = size(read_record(views, records[i]).length_with_headers);
        sum = sum.saturating_add(u64::from(len.saturating_sub(16)));
    }
    sum
}

// The length of the last extent, 0 where there is none.
fn last_size(views: &Views, extents: &[(u32, u32)]) -> u32
    requires { (p : Place) → has extents.now p ≡ true → InFile views.now.private p }
    ensures { result ≡ last_size views.now.private (last_of extents.now) }
{
    let n = extents.len();
    if n == 0 {
        return 0;
    }
    size(read_extent(views, extents[n - 1]).len)
}

// The counts of details are those of these extents and records, and the constant fields are right.
fn details_right(
    views: &Views,
    name: &[u8],
    details: &Details,
    extents: &[(u32, u32)],
    records: &[(u32, u32)],
) -> bool
    requires extents { (p : Place) → has extents.now p ≡ true → InFile views.now.private p }
    requires records { (p : Place) → has records.now p ≡ true → p.1 + 16 ≤ length (bytes_at views.now.private p.0) }
    ensures { result ≡ counts_right views.now.private name.now details.now extents.now records.now }
{
    is_number(details.nrecords, records.len() as u64)
        && is_count(details.datasize, bytes_of(views, records))
        && is_pos(details.last_extent_size, last_size(views, extents))
        && constants_right(name, details)
}

// The counts and the constant fields of a node are right.
fn counts_right(
    alloc: Global,
    views: &Views,
    owner: &Owned<'_>,
    records: &[Vec<(u32, u32)>],
) -> Result<bool, AllocError>
    requires node { owner.now.node < count_of (ns_in views.now.private) }
    requires extents { (p : Place) → has owner.now.extents.now p ≡ true → InFile views.now.private p }
    requires records { (p : Place) → has (joined (map (λ ps. ps.items) records.now)) p ≡ true → p.1 + 16 ≤ length (bytes_at views.now.private p.0) }
    ensures { IfOk result (λ right. right ≡ counts_right views.now.private (name_of views.now.private owner.now.node) (details_at views.now.private owner.now.node) owner.now.extents.now (joined (map (λ ps. ps.items) records.now))) }
{
    let records = join(alloc, records)?;
    let head = node_head(views, owner.node);
    let details = node_details(views, owner.node);
    Ok(details_right(
        views,
        text_of(&head.name),
        &details,
        owner.extents,
        &records,
    ))
}

// The first of some lists.
fn first_lists(lists: &[Vec<(u32, u32)>], n: usize) -> &[Vec<(u32, u32)>]
    ensures { result.now ≡ take n lists.now }
{
    if lists.len() < n {
        return lists;
    }
    &lists[..n]
}

// The lists behind the first ones.
fn other_lists(lists: &[Vec<(u32, u32)>], n: usize) -> &[Vec<(u32, u32)>]
    ensures { result.now ≡ drop n lists.now }
{
    if lists.len() < n {
        return &lists[lists.len()..];
    }
    &lists[n..]
}

/// Phase `counts`: the first of these nodes whose details count wrongly or have a wrong constant field. The live records are told extent
/// by extent.
pub fn wrong_counts(
    alloc: Global,
    views: &Views,
    owners: &[Owned<'_>],
    records: &[Vec<(u32, u32)>],
) -> Result<Option<(u32, u32)>, AllocError>
    requires nodes { All (λ o. o.node < count_of (ns_in views.now.private)) owners.now }
    requires extents { (p : Place) → has (flat_map (λ o. o.extents) (map owner_of owners.now)) p ≡ true → InFile views.now.private p }
    requires records { (p : Place) → has (joined (map (λ ps. ps.items) records.now)) p ≡ true → p.1 + 16 ≤ length (bytes_at views.now.private p.0) }
    ensures { IfOk result (λ at. at ≡ first_failing (count_questions views.now.private (map owner_of owners.now) (map (λ ps. ps.items) records.now))) }
{
    let mut rest = records;
    for i in 0..owners.len() {
        let n = owners[i].extents.len();
        if !counts_right(alloc, views, &owners[i], first_lists(rest, n))? {
            return Ok(Some((NS_FILE, node_ofs(views, owners[i].node))));
        }
        rest = other_lists(rest, n);
    }
    Ok(None)
}
