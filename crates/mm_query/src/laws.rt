//! Laws of the definitions, each the contract of a function that does nothing.

ghost use Rattle.std.specs.Prelude.{◌↔◌, codes};
ghost use Rattle.std.specs.Bool.{Decides};
ghost use Rattle.mm_bson.specs.Tree.{document, array, Elements, no_elements, element, item, no_values};
ghost use Rattle.mm_query.specs.Laws.{NinIsContrary, NeIsContrary};
ghost use Rattle.mm_query.specs.Marks.{WrongComesFirst, RightIsFilter};
ghost use Rattle.mm_query.specs.Match.{Matches};
ghost use Rattle.mm_query.specs.Selection.{selects};

/// The empty filter matches each document.
pub fn empty_filter_matches_all()
    ensures { (d : Elements) → Matches no_elements d }
{}

/// `$and` of one filter is that filter, and so is `$or` of it.
pub fn one_filter_is_itself()
    ensures and { (es d : Elements) → Matches (element (codes "$and") (array (item (document es) no_values)) no_elements) d ↔ Matches es d }
    ensures or { (es d : Elements) → Matches (element (codes "$or") (array (item (document es) no_values)) no_elements) d ↔ Matches es d }
{}

/// A document matches `$nin` at a path exactly where it doesn't match `$in`
/// there, and `$ne` exactly where it hasn't the value.
pub fn contraries()
    ensures nin { NinIsContrary }
    ensures ne { NeIsContrary }
{}

/// Matching can be told: the test `selects` is the relation.
pub fn selects_what_matches()
    ensures { (filter document : Elements) → Decides (selects filter document) (Matches filter document) }
{}

/// A document is a filter exactly where each operator in it is right, and else
/// the first wrong operator is the first of them, in reading order, that isn't.
pub fn wrong_operators_come_first()
    ensures none { RightIsFilter }
    ensures first { WrongComesFirst }
{}
