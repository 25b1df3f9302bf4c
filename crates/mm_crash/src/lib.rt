//! What a crash leaves of a disk whose data files stand behind a journal, and what recovery makes of it. Definitions and laws alone:
//! no code stands here.
//!
//! - `specs/Overlay.antt`: files that are made and bytes that are laid over files, the last on top, and when two contents differ nowhere
//!   but in such entries.
//! - `specs/Journal.antt`: which sections the files of a journal hold. `specs/Recovered.antt`: which images are whole, and the files of
//!   their recovery. `specs/Chance.antt`: the premise that no torn record passes for a whole one.
//! - `specs/Story.antt`, `specs/Parts.antt`, `specs/Rest.antt`: the sections of a run, what a crash leaves file by file, and what stands
//!   between two calls of the side that logs. `specs/Asks.antt`: the calls of each of its steps.
//!
//! `proofs/Overlay.antt` has the laws of entries, `proofs/Log.antt` and `proofs/Flush.antt` that each step of the side that logs, stopped
//! anywhere, leaves whole images, `proofs/Kept.antt` that a run of them does, `proofs/RecoveryRun.antt` that a recovery does, stopped
//! anywhere. All of it holds for any way of spelling sections that has the laws of `Format`.
#![tactic(auto)]
