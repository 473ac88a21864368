//! Sums of three inputs that are added up input by input in a type of their own.

use crate::nets::Answer;
use crate::operations::of_three;
use crate::words::{read_end, read_term, valid_type};
use anyhow::{Error, Result};
use dg_model::Op;
use fx_type::full_sum;
use std::alloc::Global;
use tests_rows::Row;

/// Three terms, the type in which they are added up, and the end.
pub fn accumulated(alloc: Global, words: &mut Row<'_>) -> Result<Answer> {
    let (p, a) = read_term(words)?;
    let (q, b) = read_term(words)?;
    let (r, c) = read_term(words)?;
    let own = valid_type(words)?;
    let end = read_end(words)?;
    let first = full_sum(&[(false, own), (p, a.kind)]);
    let second = full_sum(&[(false, own), (q, b.kind)]);
    let third = full_sum(&[(false, own), (r, c.kind)]);
    match (first, second, third) {
        (Ok(_), Ok(_), Ok(_)) => {
            let op = Op::Sum { accum: Some(own) };
            of_three(alloc, op, &[p, q, r], a, b, c, end)
        }
        _ => Err(Error::msg("too wide")),
    }
}
