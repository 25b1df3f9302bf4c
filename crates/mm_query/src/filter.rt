//! Filters.

ghost use Rattle.std.specs.Prelude.{◌≡◌, ◌↔◌, IsTrue, IfOk, OnOk, IsErrOf, List, ℕ, Some};
ghost use Rattle.mm_bson.specs.Tree.{Tree, Elements};
ghost use Rattle.mm_query.specs.declared.side.Side.TheVariants.{Low, High};
ghost use Rattle.mm_query.specs.Bounds.{first_equality, key_from, bound, Bound};
ghost use Rattle.mm_query.specs.Form.{wrong_filter as wrong_filter_in};
ghost use Rattle.mm_query.specs.Match.{Matches};

use crate::bounds::{Bounds, key_bound};
use crate::ends::Ends;
use crate::fault::FilterFault;
use crate::form::conjunction;
use crate::kept::Conjunction;
use crate::matching::matches;
use crate::memory::NoMemory;
use crate::side::Side;
use mm_bson::{Doc, DocRef};
use mm_keys::KeySpec;
use std::alloc::Global;
use std::marker::Model;

/// A filter, seen as its document. It keeps the conditions that this has, so
/// that no call looks at their operators again.
#[derive(Drop)]
pub struct Filter {
    document: Doc,
    asks: Conjunction,
}

impl Model for Filter {
    ghost use Rattle.std.specs.Prelude.{◌≡◌};
    ghost use Rattle.mm_bson.specs.Tree.{Elements};
    ghost use Rattle.mm_bson.specs.Code.{elements_code};

    ghost Value = { Elements };

    ghost coded = { elements_code };

    ghost view = { λ f. f.document };

    ghost invariant = { λ f. f.asks ≡ f.document };
}

impl Filter {
    /// The filter that a document is. `BadOperator` with the first wrong
    /// operator in reading order where it is none.
    pub fn from_doc(alloc: Global, doc: &Doc) -> Result<Filter, FilterFault>
        ensures ok { IfOk result (λ f. f ≡ doc.now) }
        ensures right { OnOk result (wrong_filter_in doc.now ≡ None) }
        ensures wrong { (name : List ℕ) → IsErrOf result (FilterFault.BadOperator name) → wrong_filter_in doc.now ≡ Some name }
    {
        let asks = conjunction(alloc, doc.elements())?;
        let document = doc.copy()?;
        Ok(Filter { document, asks })
    }

    /// Whether a document matches the filter.
    pub fn matches(&self, doc: &Doc) -> bool
        ensures { IsTrue result ↔ Matches self.now doc.now }
    {
        self.matches_in_place(&doc.as_ref())
    }

    /// Whether a document in place matches the filter.
    pub fn matches_in_place(&self, doc: &DocRef<'_>) -> bool
        ensures { IsTrue result ↔ Matches self.now doc.now }
    {
        matches(&self.asks, doc)
    }

    /// Between which keys by a specification those of the matching documents
    /// lie, where they have one. An equality on its first path, with a value
    /// that isn't an array, gives both bounds: the value and, for each further
    /// place, the first and the last value in its order. Else each condition on
    /// that path gives them, also inside `$and`, and the tightest of each side
    /// counts: `$gt`, `$gte`, `$lt` and `$lte` the operand on one side and the
    /// end of its class on the other, `$in` its least and its greatest element,
    /// `$exists` null where none is to be there. What no key can meet gives
    /// bounds between which nothing lies. `NoMemory` also where a bound would
    /// have 2^31 bytes or more.
    pub fn bounds(&self, alloc: Global, spec: &KeySpec) -> Result<Bounds, NoMemory>
        ensures between { IfOk result (λ b. Bound self.now spec.now b.low b.high) }
        ensures equality { (t : Tree) → first_equality spec.now self.now ≡ Some t → IfOk result (λ b. (b.low ≡ Some (key_from Low t spec.now)) × (b.high ≡ Some (key_from High t spec.now))) }
        ensures exact { IfOk result (λ b. (b.low ≡ bound Low self.now spec.now) × (b.high ≡ bound High self.now spec.now)) }
    {
        let ends = Ends::new(alloc)?;
        self.bounds_with(alloc, spec, &ends)
    }

    fn bounds_with(&self, alloc: Global, spec: &KeySpec, ends: &Ends) -> Result<Bounds, NoMemory>
        ensures between { IfOk result (λ b. Bound self.now spec.now b.low b.high) }
        ensures equality { (t : Tree) → first_equality spec.now self.now ≡ Some t → IfOk result (λ b. (b.low ≡ Some (key_from Low t spec.now)) × (b.high ≡ Some (key_from High t spec.now))) }
        ensures exact { IfOk result (λ b. (b.low ≡ bound Low self.now spec.now) × (b.high ≡ bound High self.now spec.now)) }
    {
        let low = key_bound(alloc, Side::Low, &self.document, spec, ends)?;
        let high = key_bound(alloc, Side::High, &self.document, spec, ends)?;
        Ok(Bounds { low, high })
    }
}
