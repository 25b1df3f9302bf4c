//! The calls of a journal's files keep what a crash may leave. Definitions and laws alone: no code stands here.
//!
//! `mm_jfiles` says which changing calls each of its functions makes, `mm_crash` what a crash leaves while such calls are made.
//! `specs/Tracks.antt` ties the two: the numbers that the code keeps are those of the sections that stand on the disk. `proofs/Tracks.antt`
//! shows that a section that is appended and synced, and files that are removed from the oldest on, keep it, and that stopped anywhere
//! they leave whole images, without a gap between the oldest section that isn't trimmed and the last one, or the one under write.
#![tactic(auto)]
