//! Names of databases, collections and indexes.

ghost use Rattle.std.specs.Prelude.{◌≡◌, ◌≢◌, ◌≤◌, ℕ, List, ◌↔◌, IsSome, IfSome, IfNone, Some, length, nat_eq, refl, ◌==◌, not};
ghost use Rattle.std.specs.List.{prefix_len};
ghost use Rattle.std.specs.Ordering.{nat_cmp};
ghost use Rattle.std.specs.Cmp.{on_equiv, on_total, on_po, on_per, partial_equiv_from_equiv};
ghost use Rattle.std.specs.Cmp.Lexicographic.{pointwise, slice_cmp, nat_list_eq_equiv, nat_list_cmp_total, texts_po, texts_ties};
ghost use Rattle.mm_base.specs.Bytes.{padded};
ghost use Rattle.mm_base.specs.Names.{IsName};

use crate::arrays::{is_zero, put_bytes};
use std::alloc::AllocError;
use std::cmp::Ordering;
use std::marker::Model;

/// How many bytes a name has at most.
pub const MAX_NAME_LEN: usize = 120;

/// How long the zero padded field is that holds a name in a file, in bytes.
pub const NAME_FIELD_LEN: usize = 128;

/// A name: 1 to 120 bytes, none of them zero. It is seen as the list of its bytes, and takes no memory.
#[derive(Copy, Debug)]
pub struct Name {
    len: usize,
    held: [u8; MAX_NAME_LEN],
}

impl Model for Name {
    ghost use Rattle.std.specs.Prelude.{ℕ, List, length, take};
    ghost use Rattle.std.proofs.Common.{arith, sym, length-take-le};
    ghost use Rattle.mm_base.specs.Bytes.{padded};
    ghost use Rattle.mm_base.specs.Names.{HoldsName};

    ghost Value = { List ℕ };

    ghost view = { λ name. take name.len name.held };

    ghost invariant = { λ name. HoldsName name.len name.held };

    ghost inverse = { λ bytes. record { len = length bytes; held = padded 120 bytes } };

    ghost inverse_ok = { λ name holds i. record {
      len = length-take-le name.len name.held (omega (arith, holds.inside, holds.room)) i;
      held = sym holds.rest i;
    } };
}

impl Clone for Name {
    ghost use Rattle.std.specs.Prelude.{◌≡◌, ⊤};

    ghost is_clone = { λ name copy. copy ≡ name };

    ghost is_infallible = { λ _. ⊤ };

    fn clone(&self) -> Result<Name, AllocError> {
        Ok(*self)
    }
}

impl PartialEq for Name {
    ghost eq = { pointwise nat_eq };

    ghost laws = { partial_equiv_from_equiv nat_list_eq_equiv };

    fn eq(&self, other: &Name) -> bool {
        self.bytes() == other.bytes()
    }
}

impl Eq for Name {
    ghost laws = { nat_list_eq_equiv };
}

/// Names stand in the order of their bytes.
impl PartialOrd for Name {
    ghost partial_cmp = { λ a b. Some (slice_cmp nat_cmp a b) };

    ghost laws = { texts_po };

    fn partial_cmp(&self, other: &Name) -> Option<Ordering> {
        Some(self.cmp(other))
    }
}

impl Ord for Name {
    ghost cmp = { slice_cmp nat_cmp };

    ghost total = { nat_list_cmp_total };

    ghost matches_partial_cmp = { λ a b. refl };

    ghost matches_eq = { texts_ties };

    fn cmp(&self, other: &Name) -> Ordering {
        self.bytes().cmp(other.bytes())
    }
}

impl Name {
    /// The name with these bytes, or None where they are empty, more than 120, or hold a zero.
    pub fn new(bytes: &[u8]) -> Option<Name>
        ensures some { IsSome result ↔ IsName bytes.now }
        ensures bytes { IfSome result (λ name. name ≡ bytes.now) }
    {
        if bytes.is_empty() || bytes.len() > MAX_NAME_LEN || bytes.contains(&0) {
            return None;
        }
        let mut held = [0; MAX_NAME_LEN];
        put_bytes(&mut held, 0, bytes);
        Some(Name {
            len: bytes.len(),
            held,
        })
    }

    /// Its bytes: 1 to 120, none of them zero.
    pub fn bytes(&self) -> &[u8]
        ensures is { result.now ≡ self.now }
        ensures name { IsName self.now }
    {
        &self.held[..self.len]
    }

    /// Its bytes, and zeros behind them, as a file holds them.
    pub fn padded(&self) -> [u8; NAME_FIELD_LEN]
        ensures { result ≡ padded NAME_FIELD_LEN self.now }
    {
        let mut field = [0; NAME_FIELD_LEN];
        put_bytes(&mut field, 0, self.bytes());
        field
    }

    /// The name that a zero padded field holds, or None where it holds none.
    pub fn from_padded(field: &[u8]) -> Option<Name>
        ensures some { IfSome result (λ name. IsName name × (field.now ≡ padded (length field.now) name)) }
        ensures none { IfNone result ((name : List ℕ) → IsName name → field.now ≢ padded (length field.now) name) }
    {
        let len = len_before_zero(field);
        if !is_zero(field, len, field.len() - len) {
            return None;
        }
        Name::new(&field[..len])
    }
}

/// How many bytes stand before the first zero.
fn len_before_zero(field: &[u8]) -> usize
    ensures before { result ≡ prefix_len (λ b. not (b == 0)) field.now }
    ensures inside { result ≤ length field.now }
{
    field.iter().take_while(|byte| **byte != 0).count()
}
