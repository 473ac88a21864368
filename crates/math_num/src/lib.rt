//! Lemmas of whole numbers: division with a rest, powers of two, residues, and numbers of words.
//!
//! There is no call. The definitions stand in `specs/`, the lemmas in `proofs/`; every crate may
//! cite them.
#![tactic(auto)]
