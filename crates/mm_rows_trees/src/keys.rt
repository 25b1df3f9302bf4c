//! The keys and records of the tests' pairs.

ghost use Rattle.std.specs.Prelude.{IfOk};
ghost use Rattle.mm_bson.specs.Spelling.{spelling};
ghost use Rattle.mm_bucket.specs.Pairs.{IsKey};

use mm_base::{DiskLoc, NoMemory, put_bytes, put_u32};
use mm_bson::Doc;
use mm_keys::is_key;
use std::alloc::Global;

/// What keys a test has.
#[derive(Clone, Copy)]
pub(crate) enum Keys {
    /// `{"": i}`, of 11 bytes.
    Numbers,
    /// A text of 1012 letters and the number behind, of 1024 bytes.
    Long,
    /// `{"": i / 300}`.
    Equal,
    /// `{"": i / 3 * 2}`: each even number three times, and no odd one.
    Threes,
}

// `{"": i}`.
fn number(i: u32) -> [u8; 11] {
    let mut bytes = *b"\x0b\0\0\0\x10\0\0\0\0\0\0";
    put_u32(&mut bytes, 6, i);
    bytes
}

// A digit of a number.
fn digit(i: u32, unit: u32) -> u8 {
    match unit {
        0 => b'0',
        _ => b'0' + (i / unit % 10) as u8,
    }
}

// `{"": "aa..0123"}`, of 1024 bytes.
fn long(i: u32) -> [u8; 1024] {
    let mut bytes = [b'a'; 1024];
    put_bytes(&mut bytes, 0, b"\0\x04\0\0\x02\0\xf5\x03\0\0");
    let digits = [
        digit(i, 1000),
        digit(i, 100),
        digit(i, 10),
        digit(i, 1),
        0,
        0,
    ];
    put_bytes(&mut bytes, 1018, &digits);
    bytes
}

// The key that bytes spell.
fn key_of(alloc: Global, bytes: &[u8]) -> Result<Doc, NoMemory>
    ensures { IfOk result (λ key. IsKey (spelling key)) }
{
    if bytes.len() > 1024 || !is_key(bytes) {
        return Err(NoMemory);
    }
    match Doc::parse(alloc, bytes) {
        Ok(key) => Ok(key),
        Err(_) => Err(NoMemory),
    }
}

/// The key of a pair.
pub(crate) fn key(alloc: Global, keys: Keys, i: u32) -> Result<Doc, NoMemory>
    ensures { IfOk result (λ key. IsKey (spelling key)) }
{
    match keys {
        Keys::Numbers => key_of(alloc, &number(i)),
        Keys::Long => key_of(alloc, &long(i)),
        Keys::Equal => key_of(alloc, &number(i / 300)),
        Keys::Threes => key_of(alloc, &number(i / 3 * 2)),
    }
}

/// The record of a pair.
pub(crate) fn record(i: u32) -> DiskLoc {
    DiskLoc {
        file: 0,
        ofs: (i % 4096) as i32,
    }
}
