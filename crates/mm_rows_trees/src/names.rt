//! The names of the tests' namespaces.

ghost use Rattle.std.specs.Prelude.{◌≡◌, true, false, IfSome};
ghost use Rattle.mm_nstable.specs.FreeChain.{IsFreeName};
ghost use Rattle.mm_records.specs.Constants.{is_collection};

use mm_base::Name;

/// The name of the chain of free extents.
pub(crate) fn free_chain() -> Option<Name>
    ensures { IfSome result (λ name. IsFreeName name × (is_collection name ≡ false)) }
{
    Name::new(b"test.$freelist")
}

/// The name of the list of indexes.
pub(crate) fn indexes() -> Option<Name>
    ensures { IfSome result (λ name. (IsFreeName name → ⊥) × (is_collection name ≡ false)) }
{
    Name::new(b"test.system.indexes")
}

/// The name of a collection.
pub(crate) fn collection() -> Option<Name>
    ensures { IfSome result (λ name. (IsFreeName name → ⊥) × (is_collection name ≡ true)) }
{
    Name::new(b"test.c")
}

/// The name of an index of that collection.
pub(crate) fn index() -> Option<Name>
    ensures { IfSome result (λ name. (IsFreeName name → ⊥) × (is_collection name ≡ false)) }
{
    Name::new(b"test.c.$_id_")
}
