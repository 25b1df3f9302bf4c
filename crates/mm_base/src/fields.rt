//! Numbers at an offset, little-endian.

ghost use Rattle.std.specs.Prelude.{◌≡◌, ◌+◌, ◌≤◌, length};
ghost use Rattle.mm_base.specs.Bytes.{part, overwritten};
ghost use Rattle.mm_base.specs.Fields.{u16_of, u32_of, u64_of, i32_of, i64_of, u16_bytes, u32_bytes, u64_bytes, i32_bytes, i64_bytes};

use crate::arrays::{put_bytes, read_array};

/// The `u16` at `at`.
#[tactic(auto, unfolding(crate::specs::Fields::u16_of))]
pub fn read_u16(bytes: &[u8], at: usize) -> u16
    requires { at + 2 ≤ length bytes.now }
    ensures { result ≡ u16_of (part at 2 bytes.now) }
{
    u16::from_le_bytes(read_array(bytes, at))
}

/// The `u32` at `at`.
#[tactic(auto, unfolding(crate::specs::Fields::u32_of))]
pub fn read_u32(bytes: &[u8], at: usize) -> u32
    requires { at + 4 ≤ length bytes.now }
    ensures { result ≡ u32_of (part at 4 bytes.now) }
{
    u32::from_le_bytes(read_array(bytes, at))
}

/// The `u64` at `at`.
#[tactic(auto, unfolding(crate::specs::Fields::u64_of))]
pub fn read_u64(bytes: &[u8], at: usize) -> u64
    requires { at + 8 ≤ length bytes.now }
    ensures { result ≡ u64_of (part at 8 bytes.now) }
{
    u64::from_le_bytes(read_array(bytes, at))
}

/// The `i32` at `at`.
#[tactic(auto, unfolding(crate::specs::Fields::i32_of))]
pub fn read_i32(bytes: &[u8], at: usize) -> i32
    requires { at + 4 ≤ length bytes.now }
    ensures { result ≡ i32_of (part at 4 bytes.now) }
{
    read_u32(bytes, at).cast_signed()
}

/// The `i64` at `at`.
#[tactic(auto, unfolding(crate::specs::Fields::i64_of))]
pub fn read_i64(bytes: &[u8], at: usize) -> i64
    requires { at + 8 ≤ length bytes.now }
    ensures { result ≡ i64_of (part at 8 bytes.now) }
{
    read_u64(bytes, at).cast_signed()
}

/// Writes a `u16` at `at`.
#[tactic(auto, unfolding(crate::specs::Fields::u16_bytes))]
pub fn put_u16(bytes: &mut [u8], at: usize, value: u16)
    requires { at + 2 ≤ length bytes.old }
    ensures { bytes.new ≡ overwritten at (u16_bytes value) bytes.old }
{
    put_bytes(bytes, at, &value.to_le_bytes());
}

/// Writes a `u32` at `at`.
#[tactic(auto, unfolding(crate::specs::Fields::u32_bytes))]
pub fn put_u32(bytes: &mut [u8], at: usize, value: u32)
    requires { at + 4 ≤ length bytes.old }
    ensures { bytes.new ≡ overwritten at (u32_bytes value) bytes.old }
{
    put_bytes(bytes, at, &value.to_le_bytes());
}

/// Writes a `u64` at `at`.
#[tactic(auto, unfolding(crate::specs::Fields::u64_bytes))]
pub fn put_u64(bytes: &mut [u8], at: usize, value: u64)
    requires { at + 8 ≤ length bytes.old }
    ensures { bytes.new ≡ overwritten at (u64_bytes value) bytes.old }
{
    put_bytes(bytes, at, &value.to_le_bytes());
}

/// Writes a `i32` at `at`.
#[tactic(auto, unfolding(crate::specs::Fields::i32_bytes))]
pub fn put_i32(bytes: &mut [u8], at: usize, value: i32)
    requires { at + 4 ≤ length bytes.old }
    ensures { bytes.new ≡ overwritten at (i32_bytes value) bytes.old }
{
    put_u32(bytes, at, value.cast_unsigned());
}

/// Writes a `i64` at `at`.
#[tactic(auto, unfolding(crate::specs::Fields::i64_bytes))]
pub fn put_i64(bytes: &mut [u8], at: usize, value: i64)
    requires { at + 8 ≤ length bytes.old }
    ensures { bytes.new ≡ overwritten at (i64_bytes value) bytes.old }
{
    put_u64(bytes, at, value.cast_unsigned());
}
