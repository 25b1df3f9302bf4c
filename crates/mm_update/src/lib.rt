//! Changes of documents.
//!
//! A `Change` is a replacement, or edits by `$set`, `$unset`, `$inc` and
//! `$push` in reading order.
//! - `Change::from_doc` takes exactly the changes of right form. It refuses any
//!   other by the first place in reading order at which something is wrong.
//! - `apply` gives the changed document. It refuses a document by the first
//!   edit that it can't have, and else where the finished document has more
//!   than 16,777,216 bytes or 100 levels. The document given is left alone.
//! - A change leaves the `_id` as it is, and each path that overlaps none of
//!   its own. At those it makes what the laws say.
//!
//! Documents are walked level by level, at most 100. Where an edit would make
//! more, nothing is made: the finished document is measured by loops.
//!
//! Not promised: that memory suffices. In specs/, Form says what is wrong with
//! a change, Edited what an edit makes of a document, Changed what a change
//! does, Laws what it keeps and makes, and Meeting how a path meets a document.
#![tactic(auto)]

mod apart;
mod apply;
mod change;
mod draft;
mod edit;
mod fault;
mod form;
mod index;
mod laws;
mod long;
mod measure;
mod path;
mod step;
mod value;
mod write;

pub use change::Change;
pub use fault::ChangeFault;
pub use laws::{
    changes_keep_other_paths, changes_keep_the_id, edits_make_their_values, inc_adds,
    push_puts_behind, replacements_decide_the_rest, set_puts_its_value, unset_takes_out,
};
