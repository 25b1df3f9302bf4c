//! What each moment of a run may leave is one prefix of its sections. Definitions and laws alone: no code stands here.
//!
//! - `specs/Prefix.antt`: what one image has to be (`IsPrefix`), and the fact of the side that logs (`IsDurable`): what stands on the disk now,
//!   what each image may be that a crash at any moment since the start leaves, and since when each section is in all of them.
//! - `specs/Chain.antt`: images that crashes within recoveries leave, one after another.
//!
//! `proofs/Keeping.antt` leads the fact on by a run of calls that is done or stopped, `proofs/Logging.antt` and `proofs/Removing.antt` have the runs of
//! a logged section and of removed files, `proofs/Laws.antt` what follows of receipts and of recoveries.
#![tactic(auto)]
