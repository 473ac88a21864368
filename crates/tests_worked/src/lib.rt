//! Rows worked by hand.
#![tactic(auto)]
