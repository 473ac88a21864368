//! The element that is put in.
use crate::design::Design;
use dg_model::Block;
use dg_tables::Place;
use fx_type::FxType;

/// An element of a design, its block, the nets of its operands, and the types of what its inputs
/// offer (own).
#[derive(Clone, Copy)]
pub struct Site<'a> {
    pub design: Design<'a>,
    pub place: Place,
    pub one: &'a Block,
    pub operands: &'a [u32],
    pub types: &'a [FxType],
}
