//! Laws of the definitions, each the contract of a function that does nothing.

ghost use Rattle.mm_update.specs.Laws.{KeepsId, KeepsOthers, SetsValue, FormsApart, MakesValue, AddsNumbers, PushesBehind, TakesOut, Replaces};

/// A change that is applied leaves the `_id` as it is.
pub fn changes_keep_the_id()
    ensures { KeepsId }
{}

/// A path that overlaps none of a change's paths keeps its value.
pub fn changes_keep_other_paths()
    ensures { KeepsOthers }
{}

/// What `$set` puts at a path is there in the end, since the paths of a change
/// of right form are apart.
pub fn set_puts_its_value()
    ensures value { SetsValue }
    ensures apart { FormsApart }
{}

/// What an edit other than `$unset` makes of the old value at its path is there
/// in the end.
pub fn edits_make_their_values()
    ensures { MakesValue }
{}

/// `$inc` makes the sum of two numbers, as integers.
pub fn inc_adds()
    ensures { AddsNumbers }
{}

/// `$push` puts its value behind those of the old array.
pub fn push_puts_behind()
    ensures { PushesBehind }
{}

/// `$unset` leaves nothing at its path, where the last name stands once.
pub fn unset_takes_out()
    ensures { TakesOut }
{}

/// A replacement decides each name but `_id`.
pub fn replacements_decide_the_rest()
    ensures { Replaces }
{}
