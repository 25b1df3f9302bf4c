//! Tests of documents, keys and changes: what the cases of `mm_cases` can't show.
//!
//! Those try each public call on lines of text. Here stand building and copying, lengths and levels at the limits of a
//! document, lengths past those of a key, what may go between threads, and the laws. A helper that owns documents makes its calls and
//! answers plain numbers or bytes; the tests compare.
#![tactic(auto)]

#[cfg(test)]
mod documents;
#[cfg(test)]
mod laws;
#[cfg(test)]
mod limits;
#[cfg(test)]
mod making;
