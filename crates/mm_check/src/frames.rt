//! Frames of a data file, as the private image has them.

ghost use Rattle.std.specs.Prelude.{◌≡◌, ◌+◌, ◌≤◌, length};
ghost use Rattle.mm_ranges.specs.Overlay.{bytes_at};
ghost use Rattle.mm_check.specs.RecordChain.{rec_at};
ghost use Rattle.mm_check.specs.ListChain.{del_at};
ghost use Rattle.mm_check.specs.ExtentChain.{ext_at};

use mm_frames::{
    DeletedHeader, EXTENT_HEADER_LEN, ExtentHeader, REC_HEADER_LEN, RecHeader, read_deleted_header,
    read_extent_header, read_rec_header,
};
use mm_views::Views;

// The header of the record at a place.
pub(crate) fn read_record(views: &Views, at: (u32, u32)) -> RecHeader
    requires { at.1 + 16 ≤ length (bytes_at views.now.private at.0) }
    ensures { result ≡ rec_at views.now.private at }
{
    let mut bytes = [0; REC_HEADER_LEN];
    views.read(at.0, at.1, &mut bytes);
    read_rec_header(&bytes, 0)
}

// The header of the deleted block at a place.
pub(crate) fn read_deleted(views: &Views, at: (u32, u32)) -> DeletedHeader
    requires { at.1 + 16 ≤ length (bytes_at views.now.private at.0) }
    ensures { result ≡ del_at views.now.private at }
{
    let mut bytes = [0; REC_HEADER_LEN];
    views.read(at.0, at.1, &mut bytes);
    read_deleted_header(&bytes, 0)
}

// The header of the extent at a place.
pub(crate) fn read_extent(views: &Views, at: (u32, u32)) -> ExtentHeader
    requires { at.1 + 176 ≤ length (bytes_at views.now.private at.0) }
    ensures { result ≡ ext_at views.now.private at }
{
    let mut bytes = [0; EXTENT_HEADER_LEN];
    views.read(at.0, at.1, &mut bytes);
    read_extent_header(&bytes, 0)
}
