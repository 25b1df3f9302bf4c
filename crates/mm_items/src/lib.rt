//! What a database gave for a group, laid over its files on the disk. Definitions and laws alone: no code stands here.
//!
//! `specs/Next.antt`: what has to hold of a part so that it may come next behind what was laid before (`MayCome`). `proofs/Next.antt`: a part that
//! fits the image which the items before it give may come next, and the files on the disk then read that image with the part laid over it.
#![tactic(auto)]
