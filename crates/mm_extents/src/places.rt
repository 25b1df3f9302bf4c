//! Places, as code counts them and as frames have them.

ghost use Rattle.std.specs.Prelude.{◌≡◌, ℕ, pos, negsuc, ◌^◌, ◌<◌, ◌≤ℤ◌, Option, Some, None, IfSome, IfNone};
ghost use Rattle.mm_base.specs.Places.{null};
ghost use Rattle.mm_links.specs.Links.{Place};
ghost use Rattle.mm_extents.specs.Changes.{loc, loc_or, IsLow, LowOr};

use mm_base::DiskLoc;

/// A file and an offset in it.
#[derive(Clone, Copy, Debug, PartialEq, Eq)]
pub struct Spot {
    pub file: u32,
    pub ofs: u32,
}

/// A number that isn't negative.
pub fn natural(z: i32) -> u32
    requires { pos 0 ≤ℤ z }
    ensures { z ≡ pos result }
{
    z as u32
}

/// The offset that a link inside a file names, if it names one.
pub fn link(ofs: i32) -> Option<u32>
    ensures some { IfSome result (λ a. ofs ≡ pos a) }
    ensures none { IfNone result ((n : ℕ) × (ofs ≡ negsuc n)) }
{
    if ofs < 0 { None } else { Some(ofs as u32) }
}

/// A place as a frame has it.
pub fn place(at: Spot) -> DiskLoc
    requires file { at.file < 8 }
    requires ofs { at.ofs < 2 ^ 31 }
    ensures { result ≡ loc (at.file, at.ofs) }
{
    DiskLoc {
        file: at.file as i32,
        ofs: at.ofs as i32,
    }
}

/// The place that names none.
pub fn no_place() -> DiskLoc
    ensures { result ≡ null }
{
    DiskLoc::NULL
}

/// The place in the data files that a frame names, or None where it names none.
pub fn named_spot(at: DiskLoc) -> Option<Spot>
    requires { (o : Option Place) × ((at ≡ loc_or o) × LowOr o) }
    ensures some { IfSome result (λ spot. (o : Option Place) → at ≡ loc_or o → LowOr o → o ≡ Some (spot.file, spot.ofs)) }
    ensures none { IfNone result ((o : Option Place) → at ≡ loc_or o → LowOr o → o ≡ None) }
{
    if at.file < 0 {
        return None;
    }
    Some(Spot {
        file: natural(at.file),
        ofs: natural(at.ofs),
    })
}

/// The place in the data files that a frame names, where it names one.
pub fn spot_of(at: DiskLoc) -> Spot
    requires { (p : Place) × ((at ≡ loc p) × IsLow p) }
    ensures { (p : Place) → at ≡ loc p → IsLow p → p ≡ (result.file, result.ofs) }
{
    match named_spot(at) {
        Some(spot) => spot,
        None => unreachable!(),
    }
}
