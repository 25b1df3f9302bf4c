//! The store's adapters over the real thing: a folder of files, standard input and standard output.
//!
//! `FolderDisk` is a `Disk` over the files of a folder and of its subfolder `journal`, `StdinSource` a
//! `Source` and `StdoutSink` a `Sink`. Each is a few lines over calls of the system. They keep no copy
//! of any byte, so what a call has done the system has been told.
//!
//! Proved: each answers a fault only where its count of faults rose in that call, and the moment rises by
//! one with each changing call that begins. Short reads and short writes go on until all is done, and a
//! write that takes no byte is a fault.
//!
//! Not proved: what the system makes of its calls. They tell nothing of what a file or a stream holds, and
//! that a crash leaves of a folder what the `Disk` says is a promise of the operating system.
#![tactic(auto)]

mod faults;
mod files;
mod folder;
mod names;
mod streams;
mod whole;

pub use folder::FolderDisk;
pub use streams::{StdinSource, StdoutSink};
