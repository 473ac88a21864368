//! Rounding and conversion between types, decimals, and the stored integer of a decimal.
//!
//! `convert` and `to_stored` meet `Converts` and `Stores` of `fx_type`, whose rows are inequalities
//! over whole numbers. A number and a type of at most 63 bits are converted in 64 bits (`narrow.rt`):
//! what a mode adds before a shift down makes the whole number below the one that it takes, and a
//! number shifted up stays as it is in a word of its sign that has the bits. Other numbers are
//! converted in 128 bits, without loss:
//!
//! - shifted down, a number is the lower of two whole numbers and a rest, which tell what a mode takes;
//! - shifted down by 128 bits or more, it is 0 or -1 and a `Part` that its sign tells;
//! - shifted up past 128 bits, it is out of every type's range, so saturation takes an end, and
//!   wrapping keeps the low bits;
//! - a decimal's quotient by a power of ten is shifted up bit by bit with its remainder, which stays
//!   below the power of ten, and is out of every range once it passes 127 bits.
//!
//! No call takes memory. `specs/Laws.antt` has laws of rounding and conversion, and
//! `specs/DecimalText.antt` says which texts are decimals. What only the private steps keep is
//! defined in `specs/inner`.
#![tactic(auto)]

mod conversion;
mod decimal;
mod laws;
mod narrow;
mod settle;
mod split;
mod stored;

pub use conversion::convert;
pub use decimal::{DecimalFault, read_decimal};
pub use laws::{
    conversion_gives_one, exact_conversion_is_exact, floor_and_ceiling_bound_every_mode,
    rounding_gives_one, rounding_is_monotone, same_type_is_identity, storing_gives_one,
};
pub use stored::to_stored;
