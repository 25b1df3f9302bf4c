//! The names of the namespaces.

ghost use Rattle.std.specs.Prelude.{◌≡◌, true, false, IfSome};
ghost use Rattle.mm_nstable.specs.FreeChain.{IsFreeName};
ghost use Rattle.mm_records.specs.Constants.{is_collection};

use mm_base::Name;

/// The name of the database.
pub(crate) fn database() -> Option<Name> {
    Name::new(b"test")
}

/// The name of the chain of free extents.
pub(crate) fn free_chain() -> Option<Name>
    ensures { IfSome result (λ name. IsFreeName name × (is_collection name ≡ false)) }
{
    Name::new(b"test.$freelist")
}

/// The name of the list of indexes.
pub(crate) fn indexes() -> Option<Name>
    ensures { IfSome result (λ name. (IsFreeName name → ⊥) × (is_collection name ≡ false)) }
{
    Name::new(b"test.system.indexes")
}

/// The name of the collection.
pub(crate) fn collection() -> Option<Name>
    ensures { IfSome result (λ name. (IsFreeName name → ⊥) × (is_collection name ≡ true)) }
{
    Name::new(b"test.c")
}

/// The name of the index of that collection.
pub(crate) fn index() -> Option<Name>
    ensures { IfSome result (λ name. (IsFreeName name → ⊥) × (is_collection name ≡ false)) }
{
    Name::new(b"test.c.$_id_")
}

/// The name of the collection that is dropped.
pub(crate) fn dropped_one() -> Option<Name>
    ensures { IfSome result (λ name. (IsFreeName name → ⊥) × (is_collection name ≡ true)) }
{
    Name::new(b"test.d")
}
