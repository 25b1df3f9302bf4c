//! Bytes at an offset: the definitions that files, images and frames share, and their laws. It has no code.
//!
//! - `specs/Files.antt` is of a file, which a write may make longer: `resized`, `overwritten` with zeros in a gap before
//!   the new bytes, and `read_from`.
//! - `specs/Parts.antt` is of bytes of a fixed length: `part`, and `overwritten` inside of them.
//!
//! Both are lists of bytes. `proofs/Agree.antt` says that they are one where the written bytes begin inside the old ones,
//! `proofs/Files.antt` which bytes and which length a write leaves, and `proofs/Parts.antt` which parts.
#![tactic(auto)]
