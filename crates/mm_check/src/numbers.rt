//! Tests of the numbers in headers.

ghost use Rattle.std.specs.Prelude.{◌≡◌, ◌+◌, ◌≤◌, ◌<◌, ◌==◌, ◌&&◌, nat_le, ℕ, pos, length};
ghost use Rattle.mm_ranges.specs.Overlay.{bytes_at};
ghost use Rattle.mm_check.specs.RecordChain.{is_pos, is_long, is_minus_one, names_ofs, names_place, to_offset, ofs_link, place_link};
ghost use Rattle.mm_check.specs.ExtentChain.{nat_of, nat_in, is_pages, leads_on};
ghost use Rattle.mm_records.specs.Shape.{list_for};

use mm_base::DiskLoc;
use mm_frames::CHAIN_END;
use mm_views::Views;
use mm_walk::Link;

// The number is this one.
pub(crate) fn is_pos(z: i32, n: u32) -> bool
    ensures { result ≡ is_pos z n }
{
    i64::from(z) == i64::from(n)
}

// A record's or block's length is enough.
pub(crate) fn is_long(z: i32) -> bool
    ensures { result ≡ is_long z }
{
    z >= 32
}

// The number is -1.
pub(crate) fn is_minus_one(z: i32) -> bool
    ensures { result ≡ is_minus_one z }
{
    z == -1
}

// The link names this place, or none.
pub(crate) fn names_ofs(z: i32, at: Option<(u32, u32)>) -> bool
    ensures { result ≡ names_ofs z at }
{
    match at {
        None => z == CHAIN_END,
        Some(p) => i64::from(z) == i64::from(p.1),
    }
}

// Where an offset of a file leads.
pub(crate) fn to_offset(views: &Views, file: u32, ofs: u32) -> Link
    ensures { result ≡ to_offset views.now.private file ofs }
{
    match views.len(file) {
        Some(len) if ofs < len => Link::To((file, ofs)),
        _ => Link::Outside,
    }
}

// Where the link of a record leads.
pub(crate) fn ofs_link(views: &Views, file: u32, ofs: i32) -> Link
    ensures { result ≡ ofs_link views.now.private file ofs }
{
    if ofs == CHAIN_END {
        return Link::End;
    }
    if ofs < 0 {
        return Link::Outside;
    }
    to_offset(views, file, ofs as u32)
}

// A place lies in an extent, with 16 bytes.
pub(crate) fn lies_in(file: u32, ofs: u32, len: u32, at: (u32, u32)) -> bool
    ensures { result ≡ ((at.0 == file) && (nat_le (ofs + 176) at.1 && nat_le (at.1 + 16) (ofs + len))) }
{
    at.0 == file
        && u64::from(ofs) + 176 <= u64::from(at.1)
        && u64::from(at.1) + 16 <= u64::from(ofs) + u64::from(len)
}

// The place is this one, or null.
pub(crate) fn names_place(d: DiskLoc, at: Option<(u32, u32)>) -> bool
    ensures { result ≡ names_place d at }
{
    match at {
        None => is_minus_one(d.file),
        Some(p) => is_pos(d.file, p.0) && is_pos(d.ofs, p.1),
    }
}

// Where the two numbers of a place lead.
pub(crate) fn place_link(views: &Views, d: DiskLoc) -> Link
    ensures { result ≡ place_link views.now.private d }
{
    if d.file == -1 {
        return Link::End;
    }
    if d.file < 0 || 8 <= d.file || d.ofs < 0 {
        return Link::Outside;
    }
    to_offset(views, d.file as u32, d.ofs as u32)
}

// A length that isn't negative; 0 for one that is.
pub(crate) fn size(z: i32) -> u32
    ensures { result ≡ nat_of z }
{
    if z < 0 { 0 } else { z as u32 }
}

// A count that isn't negative; 0 for one that is.
pub(crate) fn count(z: i64) -> u64
    ensures { result ≡ nat_of z }
{
    if z < 0 { 0 } else { z as u64 }
}

// The number where it isn't negative.
pub(crate) fn offset(z: i32) -> Option<u32>
    ensures { result ≡ nat_in z }
{
    if z < 0 { None } else { Some(z as u32) }
}

// The length is of whole pages, at least one.
pub(crate) fn is_pages(z: i32) -> bool
    ensures { result ≡ is_pages z }
{
    if z < 0 {
        return false;
    }
    z as u32 % 4096 == 0 && 4096 <= z as u32
}

// Where an extent of a file ends, the next begins, or the unused rest.
pub(crate) fn leads_on(file: u32, unused: u32, at: u32) -> Link
    ensures { result ≡ leads_on file unused at }
{
    if at == unused {
        Link::End
    } else {
        Link::To((file, at))
    }
}

// The list of a block of this length.
pub(crate) fn list_of(len: u32) -> u32
    ensures is { result ≡ list_for len }
    ensures there { result < 19 }
{
    let mut size = 32;
    for list in 0..18 {
        if len < size {
            return list;
        }
        size *= 2;
    }
    18
}
