//! Specifications of keys.

ghost use Rattle.std.specs.Prelude.{◌≡◌, ◌↔◌, ◌≤◌, IsTrue, IsSome, IfOk, OnOk, IsErrOf};
ghost use Rattle.mm_bson.specs.View.{tree, elements_of};
ghost use Rattle.mm_bson.specs.Path.{find as find_in};
ghost use Rattle.mm_keys.specs.Specification.{fields as field_count, IsSign, AreSigned, AreDifferent, IsSpecification};

use crate::fault::SpecFault;
use mm_bson::{Doc, Element, Value};
use std::alloc::{AllocError, Global};
use std::marker::Model;

/// The most fields that a specification has.
pub const MAX_FIELDS: usize = 31;

/// A specification of keys, seen as its document: 1 to 31 different paths in
/// order, each with 1 or -1.
#[derive(Drop)]
pub struct KeySpec {
    document: Doc,
}

impl Model for KeySpec {
    ghost use Rattle.mm_bson.specs.Tree.{Elements};
    ghost use Rattle.mm_bson.specs.Code.{elements_code};

    ghost Value = { Elements };

    ghost coded = { elements_code };

    ghost use Rattle.mm_keys.specs.Specification.{IsSpecification};

    ghost view = { λ s. s.document };

    ghost invariant = { λ s. IsSpecification s.document };
}

/// Whether a value is the int32 1 or -1.
fn is_sign(value: &Value) -> bool
    ensures { IsTrue result ↔ IsSign (tree value.now) }
{
    match value {
        Value::Int32(sign) => *sign == 1 || *sign == -1,
        _ => false,
    }
}

fn are_signed(fields: &[Element]) -> bool
    ensures { IsTrue result ↔ AreSigned (elements_of fields.now) }
{
    for field in fields {
        if !is_sign(&field.value) {
            return false;
        }
    }
    true
}

fn has_name(fields: &[Element], name: &[u8]) -> bool
    ensures { IsTrue result ↔ IsSome (find_in name.now (elements_of fields.now)) }
{
    for field in fields {
        if field.name.as_bytes() == name {
            return true;
        }
    }
    false
}

fn are_different(fields: &[Element]) -> bool
    ensures { IsTrue result ↔ AreDifferent (elements_of fields.now) }
{
    for i in 0..fields.len() {
        if has_name(&fields[i + 1..], fields[i].name.as_bytes()) {
            return false;
        }
    }
    true
}

/// Whether there are 1 to 31 fields.
fn has_few(fields: &[Element]) -> bool
    ensures some { IsTrue result → 1 ≤ field_count (elements_of fields.now) }
    ensures few { IsTrue result → field_count (elements_of fields.now) ≤ 31 }
    ensures exactly { 1 ≤ field_count (elements_of fields.now) → field_count (elements_of fields.now) ≤ 31 → IsTrue result }
{
    !fields.is_empty() && fields.len() <= MAX_FIELDS
}

/// Whether the fields are those of a specification.
fn is_specification(fields: &[Element]) -> bool
    ensures { IsTrue result ↔ IsSpecification (elements_of fields.now) }
{
    has_few(fields) && are_signed(fields) && are_different(fields)
}

impl KeySpec {
    /// The specification that a document is. `BadSpec` where it is none.
    pub fn from_doc(_alloc: Global, doc: &Doc) -> Result<KeySpec, SpecFault>
        ensures ok { IfOk result (λ s. s ≡ doc.now) }
        ensures accepted { OnOk result (IsSpecification doc.now) }
        ensures refused { IsErrOf result SpecFault.BadSpec → IsSpecification doc.now → ⊥ }
    {
        if !is_specification(doc.elements()) {
            return Err(SpecFault::BadSpec);
        }
        let document = doc.copy()?;
        Ok(KeySpec { document })
    }

    /// The document of the specification.
    pub fn document(&self) -> &Doc
        ensures document { result.now ≡ self.now }
        ensures specification { IsSpecification self.now }
    {
        &self.document
    }

    /// The specification again.
    pub fn copy(&self) -> Result<KeySpec, AllocError>
        ensures { IfOk result (λ s. s ≡ self.now) }
    {
        let document = self.document.copy()?;
        Ok(KeySpec { document })
    }
}
