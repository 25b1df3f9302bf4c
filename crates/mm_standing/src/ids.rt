//! The index `_id_` lists the documents in their order.

ghost use Rattle.mm_standing.specs.Ids.{IdsOrderPairs, IdsAreInOrder, WalkIsScan, HeldAreDocuments, IdIsFirst, HeldInOrder, HeldWalkIsScan};

/// The pairs of `_id_` stand as the documents do, in rising order of `_id`: the one with the lesser `_id` has the lesser pair. So the records
/// that a walk over the tree at a collection's position 0 gives are those of its documents, in their order.
pub fn ids_are_in_order()
    ensures pairs { IdsOrderPairs }
    ensures each { IdsAreInOrder }
    ensures walk { WalkIsScan }
    ensures documents { HeldAreDocuments }
    ensures first { IdIsFirst }
    ensures held { HeldInOrder }
    ensures scan { HeldWalkIsScan }
{}
