//! Two views of a database's files, and the write intents between them (MongoDB 2.6, MMAPv1: the shared and the private view).
//!
//! - `Views` has a shared image, which goes to disk, and a private one, which commands see. Where they differ, lengths included, there is
//!   an opened intent, a made file or a closed part that isn't applied: `coverage`, a clause of each call that changes them.
//! - `Draft` changes the private image at declared places alone. `adopt` keeps its image and opens what it declared and made; `give_up`
//!   answers the very views from before it.
//! - `close` gives exactly the made files and the opened intents with their private bytes, and keeps that part as the newest; `apply` lays
//!   the oldest over the shared image and changes nothing else; `remap` changes no byte.
//! - Only `load`, `ready`, `add_file`, `declare` and `reserve` take memory. Where there is none they leave everything as it was.
//!
//! Each call is one equation on `State` or `Drafting` (`specs/State.antt`). Nothing here reaches a disk, and nothing is said of time; the
//! length of what `piece` gives isn't said either.
#![tactic(auto)]

mod draft;
mod image;
mod parts;
mod views;

pub use draft::Draft;
pub use mm_ranges::NS_FILE;
pub use views::Views;
