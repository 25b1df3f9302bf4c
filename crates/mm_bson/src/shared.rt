//! Bytes that a document and those inside it share.

ghost use Rattle.std.specs.Prelude.{◌≡◌, ◌<◌, ◌≤◌, ◌+◌, ◌^◌, ◌++◌, List, ℕ, length, take, drop, vec_len, IfOk, OnOk, OnErr};
ghost use Rattle.mm_bson.specs.Spelling.{framed, element_spelling, element_len, IsValue};
ghost use Rattle.mm_bson.specs.View.{tree_in};

use crate::place::ValueRef;
use crate::writing::put_more;
use std::alloc::{AllocError, Global};
use std::marker::Model;
use std::sync::Arc;

/// A part of bytes whose owners are counted, seen as that part.
#[derive(Drop)]
pub(crate) struct Shared {
    all: Arc<Vec<u8>, Global>,
    start: u32,
    len: u32,
}

impl Model for Shared {
    ghost use Rattle.std.specs.Prelude.{◌<◌, ◌≤◌, ◌+◌, ◌^◌, List, ℕ, length, take, drop};
    ghost use Rattle.std.specs.Coded.{coded_list, coded_ℕ};
    ghost use Rattle.std.specs.Arc.{arc_value};

    ghost Value = { List ℕ };

    ghost coded = { coded_list coded_ℕ };

    ghost view = { λ s. take s.len (drop s.start (arc_value s.all).items) };

    ghost invariant = { λ s. (s.start + s.len ≤ length (arc_value s.all).items) × (s.start + s.len < 2 ^ 31) };
}

impl Shared {
    /// All of these bytes.
    pub(crate) fn of_vec(bytes: Vec<u8>) -> Result<Shared, AllocError>
        requires { vec_len bytes < 2 ^ 31 }
        ensures { IfOk result (λ s. s ≡ bytes.items) }
    {
        let len = bytes.len() as u32;
        let alloc = *bytes.allocator();
        let all = Arc::new(alloc, bytes)?;
        Ok(Shared { all, start: 0, len })
    }

    /// The bytes.
    pub(crate) fn as_slice(&self) -> &[u8]
        ensures { result.now ≡ self.now }
    {
        let start = self.start as usize;
        let end = start + self.len as usize;
        &self.all.as_slice()[start..end]
    }

    /// So many bytes from this place on.
    pub(crate) fn part(&self, start: usize, len: usize) -> Result<Shared, AllocError>
        requires { start + len ≤ length self.now }
        ensures { IfOk result (λ s. s ≡ take len (drop start self.now)) }
    {
        let all = Arc::try_clone(&self.all)?;
        Ok(Shared {
            all,
            start: self.start + start as u32,
            len: len as u32,
        })
    }

    /// Puts an element behind those that the bytes of a document spell. They
    /// are copied first where they have other owners. Where memory runs out,
    /// nothing changes.
    pub(crate) fn put(&mut self, name: &[u8], value: &ValueRef<'_>) -> Result<(), AllocError>
        requires ended { 5 ≤ length self.old }
        requires short { length self.old + element_len name.now (tree_in value.now) < 2 ^ 31 }
        ensures spelled { OnOk result ((inner : List ℕ) → self.old ≡ framed inner → self.new ≡ framed (inner ++ element_spelling name.now (tree_in value.now))) }
        ensures sound { OnOk result (IsValue (tree_in value.now)) }
        ensures err { OnErr result (self.new ≡ self.old) }
    {
        if self.start == 0 && self.len as usize == self.all.len() {
            if let Some(bytes) = Arc::get_mut(&mut self.all) {
                put_more(bytes, name, value)?;
                self.len = bytes.len() as u32;
                return Ok(());
            }
        }
        *self = self.copied_with(name, value)?;
        Ok(())
    }

    // The same in bytes of their own.
    fn copied_with(&self, name: &[u8], value: &ValueRef<'_>) -> Result<Shared, AllocError>
        requires ended { 5 ≤ length self.now }
        requires short { length self.now + element_len name.now (tree_in value.now) < 2 ^ 31 }
        ensures spelled { IfOk result (λ s. (inner : List ℕ) → self.now ≡ framed inner → s ≡ framed (inner ++ element_spelling name.now (tree_in value.now))) }
        ensures sound { OnOk result (IsValue (tree_in value.now)) }
    {
        let mut bytes = Vec::from_slice(*self.all.allocator(), self.as_slice())?;
        put_more(&mut bytes, name, value)?;
        Shared::of_vec(bytes)
    }
}
