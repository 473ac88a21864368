//! Lemmas of lists: places, elements, sums, numbers one after another, and searches.
//!
//! There is no call. The definitions stand in `specs/Numbers.antt`, the lemmas in `proofs/`; every
//! crate may cite them.
#![tactic(auto)]
