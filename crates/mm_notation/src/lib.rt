//! The notation of documents: objects, arrays, strings, integers, `true`,
//! `false`, `null`, `MinKey`, `MaxKey`, `NumberLong`, `Date`, `Timestamp`,
//! `ObjectId` and `HexData`.
//!
//! - `write_doc` puts exactly the written form of a document behind other
//!   bytes, or leaves them as they were where memory runs out. The written
//!   form is one of the document's texts.
//! - `read_doc` reads the one document whose text begins at a place. It
//!   faults only where none does, and names the least place: the text up to
//!   it can still become a document's, and where the text goes on there, the
//!   text through this byte can't.
//!
//! Not promised: that memory suffices. In specs/, Grammar says which texts
//! stand for which document, Written is the written form, and Answer what is
//! answered.
#![tactic(auto)]

mod bytes;
mod fault;
mod kind;
mod laws;
mod numbers;
mod objects;
mod putting;
mod reading;
mod stop;
mod strings;
mod values;
mod writing;

pub use fault::{NoMemory, NotationFault};
pub use laws::{texts_are_unique, written_is_text};
pub use reading::read_doc;
pub use writing::write_doc;
