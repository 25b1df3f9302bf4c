//! The top call of the store's program, `tool_main`, over any disk, source and sink.
//!
//! Promised, as clauses of that call. `play` (`Plays` in `specs/Top.antt`): at status 0 the disk has the one file `test.0`, whose live
//! records are the documents answered `ok 1`, a dump of it has just these documents, and the replies of exactly that script are printed;
//! status 3 comes exactly where the bytes are no script that is played, with the first line that is refused and what of it isn't there,
//! and status 8 exactly by the first file that is there; with no fault counted and a script on an empty disk the status is 0 or 7.
//! `dump` (`Dumps`): the status and the text are the one dump of the disk's files, and nothing is asked to change. Status 2 comes exactly by the words; 4, 5 and 6 only where the disk, the source or the sink counted a
//! fault in this call. A refusal leaves the disk as it was; that of words or of a script comes before the disk has had a call.
//!
//! Not promised: how long it takes, and anything of an outside that tells nothing, as a real folder.
//!
//! The way of one insert: `input` reads the source, `script` has it read into actions and finds the first that isn't played, `store`
//! makes a draft for each, `answers` gives it a block, `file` changes the data file in the draft, `disk` writes and syncs it, `text`
//! and `output` print the reply; `play` joins them.
//!
//! The way back: `headers`, `chain` and `layout` find what is first wrong in a data file, or read its documents, `reading` joins
//! them, and `dump` says what is read.
#![tactic(auto)]

mod answers;
mod chain;
mod collections;
mod disk;
mod dump;
mod file;
mod finding;
mod headers;
mod input;
mod layout;
mod output;
mod play;
mod reading;
mod script;
mod status;
mod store;
mod text;
mod tool;
mod words;

pub use status::Status;
pub use tool::tool_main;
