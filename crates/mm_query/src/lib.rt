//! Filters of documents.
//!
//! A `Filter` is seen as its document.
//! - `Filter::from_doc` takes exactly the documents that are filters. Any other
//!   it refuses by the first wrong operator in reading order.
//! - `matches` says whether a document matches, and `matches_in_place` whether
//!   one in place does, by the same definition. They take no memory, and walk
//!   the conditions that `from_doc` made of the filter's document.
//! - `bounds` gives two keys between which lie those of all matching documents
//!   that have one. An equality on the first path of the specification makes
//!   them begin with its value; else the tightest of what the conditions there
//!   allow counts: an operand, the end of its class, or nothing at all.
//!
//! Not promised: that memory suffices, and that bounds are the narrowest. In
//! specs/, Form says which documents are filters, Marks the same place by place, Match when a document matches
//! one, Selection the same as a test, Kept what a filter's conditions in memory stand for, and Bounds what bounds are.
#![tactic(auto)]

mod bounds;
mod condition;
mod ends;
mod fault;
mod filter;
mod form;
mod kept;
mod laws;
mod limit;
mod matching;
mod memory;
mod operator;
mod outermost;
mod side;

pub use bounds::Bounds;
pub use fault::FilterFault;
pub use filter::Filter;
pub use laws::{
    contraries, empty_filter_matches_all, one_filter_is_itself, selects_what_matches,
    wrong_operators_come_first,
};
pub use memory::NoMemory;
