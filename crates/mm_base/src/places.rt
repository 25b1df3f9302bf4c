//! Places at an offset.

ghost use Rattle.std.specs.Prelude.{◌≡◌, ◌+◌, ◌*◌, ◌≤◌, ◌↔◌, IsTrue, length};
ghost use Rattle.mm_base.specs.Bytes.{part, overwritten};
ghost use Rattle.mm_base.specs.Lists.{list_of, list_bytes};
ghost use Rattle.mm_base.specs.Places.{place_of, place_bytes};

use crate::fields::{put_i32, read_i32};
use crate::place::DiskLoc;

/// The length of a place, in bytes.
pub const PLACE_LEN: usize = 8;

/// The place at `at`. File -1 is the null place, whatever its offset.
#[tactic(auto, using(crate::proofs::Sets::reads))]
pub fn read_place(bytes: &[u8], at: usize) -> DiskLoc
    requires { at + 8 ≤ length bytes.now }
    ensures { result ≡ place_of (part at 8 bytes.now) }
{
    let file = read_i32(bytes, at);
    if file == -1 {
        return DiskLoc::NULL;
    }
    DiskLoc {
        file,
        ofs: read_i32(bytes, at + 4),
    }
}

/// Writes a place at `at`.
#[tactic(auto, using(crate::proofs::Sets::writes), unfolding(crate::specs::Places::place_bytes))]
pub fn put_place(bytes: &mut [u8], at: usize, value: DiskLoc)
    requires { at + 8 ≤ length bytes.old }
    ensures { bytes.new ≡ overwritten at (place_bytes value) bytes.old }
{
    put_i32(bytes, at, value.file);
    put_i32(bytes, at + 4, value.ofs);
}

/// Whether these eight bytes are as `put_place` writes them. They aren't where file -1 stands beside another offset than 0.
pub fn spells_place(bytes: &[u8], at: usize) -> bool
    requires { at + 8 ≤ length bytes.now }
    ensures { IsTrue result ↔ (part at 8 bytes.now ≡ place_bytes (place_of (part at 8 bytes.now))) }
{
    !read_place(bytes, at).is_null() || read_i32(bytes, at + 4) == 0
}

/// The `N` places at `at`, one behind the other.
pub fn read_places<const N: usize>(bytes: &[u8], at: usize) -> [DiskLoc; N]
    requires { at + 8 * N ≤ length bytes.now }
    ensures { result ≡ list_of 8 place_of N (part at (8 * N) bytes.now) }
{
    let mut places = [DiskLoc::NULL; N];
    for i in 0..N {
        places[i] = read_place(bytes, at + PLACE_LEN * i);
    }
    places
}

/// Writes places at `at`, one behind the other.
pub fn put_places(bytes: &mut [u8], at: usize, places: &[DiskLoc])
    requires { at + 8 * length places.now ≤ length bytes.old }
    ensures { bytes.new ≡ overwritten at (list_bytes place_bytes places.now) bytes.old }
{
    for (i, place) in places.iter().enumerate() {
        put_place(bytes, at + PLACE_LEN * i, *place);
    }
}
