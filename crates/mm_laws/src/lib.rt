//! More laws of what commands, changes and filters make of documents and of a database, and of which bytes are a document or a script.
//! Definitions and laws alone: no code stands here.
//!
//! - A command is refused for want of nodes exactly where the database that it would leave takes more than there are; where a collection is
//!   dropped, there is room for another.
//! - A find gives each document that matches once, in the order of `_id`, or of an index's keys and then of `_id`.
//! - The number of an `ensureIndex` is how many indexes came, so 0 for one that is there; a document that is too large is refused as such first.
//! - Bytes are a script, which asks for one list of actions, or they are refused at one line and for one cause.
//! - The document that a script's insert puts in for one without `_id` has the made one in front, and is found by it alone.
//! - Of two inputs of as many bytes that agree up to the end of the field at which the one's first fault as a document lies, the other has the
//!   same fault.
//! - Where a path leads to nothing, `$inc` puts its number, `$push` an array of its value, and `$unset` leaves the document; a sum of two int32
//!   is an int32 where that holds it, and an int64 else; `$in` is equality to some of its values, `$exists` tells whether a value is there, and
//!   a filter's fields all have to match, in any order.
//!
//! Nothing here is promised of engines: that they answer as `after` does is proved where they stand.
#![tactic(auto)]

mod laws;

pub use laws::{
    bytes_are_judged, conditions_join, faults_tell_ends, finds_are_sorted, finds_give_what_matches,
    first_bytes_decide, inc_keeps_widths, indexing_counts_indexes, made_ids_are_found,
    nodes_are_counted, nothing_is_there, operators_tell, room_comes_back, too_large_comes_first,
    worked_examples, worked_faults,
};
