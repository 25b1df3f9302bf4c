//! Texts and byte strings.

ghost use Rattle.std.specs.Prelude.{◌≡◌, ◌↔◌, true, IsTrue, IfOk};
ghost use Rattle.std.specs.Str.{is_utf8};
ghost use Rattle.mm_bson.specs.Spelling.{HasNoZero};

use crate::place::TextRef;
use smallvec::SmallVec;
use std::alloc::{AllocError, Global};
use std::marker::Model;
use std::str;

/// How many bytes a text or byte string keeps in itself.
const INLINE_LEN: usize = 22;

/// A text of UTF-8, seen as its bytes.
#[derive(Drop)]
pub struct Text {
    bytes: SmallVec<u8, INLINE_LEN>,
}

impl Model for Text {
    ghost use Rattle.std.specs.Prelude.{◌≡◌, true, List, ℕ};
    ghost use Rattle.std.specs.Str.{is_utf8};
    ghost use Rattle.std.specs.Coded.{coded_list, coded_ℕ};

    ghost Value = { List ℕ };

    ghost coded = { coded_list coded_ℕ };

    ghost view = { λ t. t.bytes.items };

    ghost invariant = { λ t. is_utf8 t.bytes.items ≡ true };
}

/// Whether the bytes are UTF-8, so that they may be a text.
pub fn is_text(bytes: &[u8]) -> bool
    ensures { result ≡ is_utf8 bytes.now }
{
    match str::from_utf8(bytes) {
        Ok(_) => true,
        Err(_) => false,
    }
}

fn has_no_zero(bytes: &[u8]) -> bool
    ensures { IsTrue result ↔ HasNoZero bytes.now }
{
    for byte in bytes {
        if *byte == 0 {
            return false;
        }
    }
    true
}

impl Text {
    /// A text of these bytes.
    pub fn from_slice(alloc: Global, bytes: &[u8]) -> Result<Text, AllocError>
        requires { is_utf8 bytes.now ≡ true }
        ensures { IfOk result (λ t. t ≡ bytes.now) }
    {
        Ok(Text {
            bytes: SmallVec::from_slice(alloc, bytes)?,
        })
    }

    /// A text of this string.
    pub fn from_str(alloc: Global, text: &str) -> Result<Text, AllocError>
        ensures { IfOk result (λ t. t ≡ text.now) }
    {
        Text::from_slice(alloc, text.as_bytes())
    }

    /// The text again.
    pub fn copy(&self) -> Result<Text, AllocError>
        ensures { IfOk result (λ t. t ≡ self.now) }
    {
        Text::from_slice(*self.bytes.allocator(), self.as_bytes())
    }

    /// The text as a string.
    pub fn as_str(&self) -> &str
        ensures { result.now ≡ self.now }
    {
        let bytes = self.as_bytes();
        unsafe { str::from_utf8_unchecked(bytes) }
    }

    /// The text in place.
    pub fn as_ref(&self) -> TextRef<'_>
        ensures { result ≡ self.now }
    {
        TextRef::of_utf8(self.as_bytes())
    }

    /// Whether no byte is 00, so that the text may be a name.
    pub fn has_no_zero(&self) -> bool
        ensures { IsTrue result ↔ HasNoZero self.now }
    {
        has_no_zero(self.as_bytes())
    }

    /// The bytes of the text.
    pub fn as_bytes(&self) -> &[u8]
        ensures bytes { result.now ≡ self.now }
        ensures utf8 { is_utf8 self.now ≡ true }
    {
        self.bytes.as_slice()
    }
}

/// A byte string, seen as its bytes.
#[derive(Drop)]
pub struct Blob {
    bytes: SmallVec<u8, INLINE_LEN>,
}

impl Model for Blob {
    ghost use Rattle.std.specs.Prelude.{List, ℕ};
    ghost use Rattle.std.specs.Coded.{coded_list, coded_ℕ};

    ghost Value = { List ℕ };

    ghost coded = { coded_list coded_ℕ };

    ghost view = { λ b. b.bytes.items };
}

impl Blob {
    /// A byte string of these bytes.
    pub fn from_slice(alloc: Global, bytes: &[u8]) -> Result<Blob, AllocError>
        ensures { IfOk result (λ b. b ≡ bytes.now) }
    {
        Ok(Blob {
            bytes: SmallVec::from_slice(alloc, bytes)?,
        })
    }

    /// The byte string again.
    pub fn copy(&self) -> Result<Blob, AllocError>
        ensures { IfOk result (λ b. b ≡ self.now) }
    {
        Blob::from_slice(*self.bytes.allocator(), self.as_bytes())
    }

    /// The bytes.
    pub fn as_bytes(&self) -> &[u8]
        ensures { result.now ≡ self.now }
    {
        self.bytes.as_slice()
    }
}
