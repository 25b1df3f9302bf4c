//! Bytes at an offset.

ghost use Rattle.std.specs.Prelude.{◌≡◌, ◌+◌, ◌≤◌, ◌↔◌, IsTrue, length, ◌==◌};
ghost use Rattle.std.specs.List.{list_all};
ghost use Rattle.mm_base.specs.Bytes.{part, overwritten, zeros};

/// The `N` bytes at `at`.
#[tactic(auto, unfolding(crate::specs::Bytes::part))]
pub fn read_array<const N: usize>(bytes: &[u8], at: usize) -> [u8; N]
    requires { at + N ≤ length bytes.now }
    ensures { result ≡ part at N bytes.now }
{
    let mut array = [0; N];
    array.copy_from_slice(&bytes[at..at + N]);
    array
}

/// Writes these bytes at `at`.
#[tactic(auto, unfolding(crate::specs::Bytes::overwritten))]
pub fn put_bytes(bytes: &mut [u8], at: usize, value: &[u8])
    requires { at + length value.now ≤ length bytes.old }
    ensures { bytes.new ≡ overwritten at value.now bytes.old }
{
    bytes[at..at + value.len()].copy_from_slice(value);
}

/// The `len` bytes from `at` on.
#[tactic(auto, unfolding(crate::specs::Bytes::part))]
pub fn frame(bytes: &[u8], at: usize, len: usize) -> &[u8]
    requires { at + len ≤ length bytes.now }
    ensures is { result.now ≡ part at len bytes.now }
    ensures len { length result.now ≡ len }
{
    &bytes[at..at + len]
}

/// Writes `len` zeros at `at`.
#[tactic(auto, unfolding(crate::specs::Bytes::overwritten, crate::specs::Bytes::zeros))]
pub fn put_zeros(bytes: &mut [u8], at: usize, len: usize)
    requires { at + len ≤ length bytes.old }
    ensures { bytes.new ≡ overwritten at (zeros len) bytes.old }
{
    bytes[at..at + len].fill(0);
}

/// Whether the `len` bytes from `at` on are zeros.
pub fn is_zero(bytes: &[u8], at: usize, len: usize) -> bool
    requires { at + len ≤ length bytes.now }
    ensures { IsTrue result ↔ (part at len bytes.now ≡ zeros len) }
{
    are_zeros(frame(bytes, at, len))
}

fn are_zeros(bytes: &[u8]) -> bool
    ensures { result ≡ list_all (λ b. b == 0) bytes.now }
{
    bytes.iter().all(|byte| *byte == 0)
}
