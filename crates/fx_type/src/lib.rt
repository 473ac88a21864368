//! Types of signals: their ranges, the types that hold sums, products and unions, and what
//! rounding and conversion mean.
//!
//! A value is a stored integer; its real value is that integer times 2 to the power minus `frac`.
//! No call takes memory, and every call that takes a type has the condition that it is valid
//! (`IsType`). The definitions stand in `specs/`: types and ranges in `FxType.antt`, full types in
//! `FullType.antt` and as functions in `FullTypeOf.antt`, rounding, conversion and the stored
//! integer of a decimal in `Conversion.antt`, the latter as a function in `StoredOf.antt`.
//! `Laws.antt` has the laws.
#![tactic(auto)]

mod decimal;
mod full;
mod kind;
mod laws;
mod rounding;
mod spec;

pub use decimal::Decimal;
pub use full::{TooWide, full_product, full_sum, union};
pub use kind::FxType;
pub use laws::{full_product_is_one, full_sum_is_one, nearest_is_one, stored_is_one, union_is_one};
pub use rounding::Rounding;
pub use spec::TypeSpec;
