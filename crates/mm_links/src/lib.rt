//! Chains of places, as lists: what the linked lists in a database's data files are (MongoDB 2.6, MMAPv1).
//!
//! `specs/Links.antt` says what stands behind a place of a chain (`next_in`), what a chain is without a place (`without`) or with one more
//! behind its last (`appended`), and that two functions of links make a chain (`IsLinked`): each place names the one behind it, that one
//! names it, and the first names none before it.
//!
//! `proofs/` has the laws: a place that is passed by in both directions leaves the chain without it (`unlinked`), one that is put behind
//! the last leaves the chain with it (`linked_on`), links that stay keep the chain (`relinked`). They hold for any type of links, so for
//! extents, live records and the free extents alike.
//!
//! There is no code here, and nothing is said of bytes: which links stand in which frames is for the crates above.
#![tactic(auto)]
