//! Tests of what stands over the system: files, and streams that take a part or nothing.
#![tactic(auto)]

#[cfg(test)]
mod streams;
