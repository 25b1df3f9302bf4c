//! The script language, and the texts of replies and groups.
//!
//! - `Script::read` reads a script into the actions of its lines: commands of
//!   named databases, and steps of the run. A missing `_id` is made, and the
//!   first `_id` of an inserted document goes in front. A refusal names the
//!   first line that a script can't have, and what its first wrong part isn't.
//! - `write_reply` puts exactly the text of a reply behind other bytes, and
//!   `write_group` that of a group; where memory runs out the bytes are as
//!   before.
//! - `generate` draws the actions of a script from a seed.
//! - The laws say that what is read is well formed and stands on rising lines,
//!   that a reply is known by its text and its command, and that the text of a
//!   run tells its history.
//!
//! Not promised: that memory suffices. In specs/, Grammar is the language as
//! one form, Form what a form means and where a text first fails it, Script
//! what a script is, Replies and Groups the texts of replies and groups, and
//! Render the text of a whole run, which nothing here writes.
#![tactic(auto)]

mod commands;
mod documents;
mod fault;
mod generated;
mod groups;
mod laws;
mod lines;
mod replies;
mod script;
mod stop;
mod verbs;
mod words;
mod writing;

pub use fault::{LineWhat, ScriptFault};
pub use generated::generate;
pub use groups::{Fate, LineList, write_group};
pub use laws::{replies_are_known, scripts_are_well_read, texts_tell_histories, worked_examples};
pub use replies::write_reply;
pub use script::{MOST_BYTES, MOST_LINES, Script};
