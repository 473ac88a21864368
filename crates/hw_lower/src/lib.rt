//! Block elements as nets.
//!
//! An operation is planned first: steps on steps before them (`Plan`), each a `NetOp` in a word,
//! whose numbers are told by `Obeys` of `specs/inner/Planned`. A plan grows at its end (`IsMade`),
//! so what is said of its numbers stays. It remembers whether memory was wanting, which `lower`
//! asks once, and all of this is said unless it was. Then every step behind the arguments is a net,
//! and in the rows of each later netlist that keeps these nets they have the numbers of the plan
//! (`proofs/Shown`). `specs/Lowered` says what `lower` owes. All of it stays within 128 bits:
//! rounding in the word of the source, as the number below and a carry of one bit, bounds compared
//! before a shift up, sums and products in the word of their full type.
//!
//! How many nets an operation has:
//!
//! | part | nets |
//! |---|---|
//! | conversion that loses no bit | none where the word stays and nothing is shifted, else 1 |
//! | bits lost, Floor | 1 |
//! | Nearest | 3 |
//! | Ceiling | 5; 3 where one bit is lost; 2 of one bit without sign |
//! | Zero | 5; unsigned 1 |
//! | Round | 8, or 6 where one bit is lost; unsigned 3 |
//! | Convergent | 7; 5 where one bit is lost |
//! | where no bit of the word is left | 1 fewer: Ceiling of more bits, Zero of a signed word |
//! | where more bits are lost than it has | 1 fewer: Convergent, Round of a signed word |
//! | and for another word | 1 |
//! | and with `saturate` | 4 for each end that can be passed |
//! | conversion to boolean | 2 in all, none of one bit without sign |
//! | Sum of n | n - 1, 1 where the first is subtracted, and 1 for each that has another word or unit |
//! | Product, Gain | 1, 2, and the conversion |
//! | Switch | both conversions, and 4 (`>=`), 3 (`>`) or 1 |
//! | Relational | 1, or 2 for `~=`, `<=`, `>=`, and 1 for each that has another word or unit |
//! | Logic of n booleans | AND, OR n - 1, XOR 2 (n - 1), their opposites 1 more, NOT 1 |
//! | an input of more bits there | 2 more with OR, NOR and NOT, else of the first input alone |
//! | Pass, a conversion to the same type | none |
#![tactic(auto)]

mod aligning;
mod bits;
mod comparing;
mod gates;
mod lowering;
mod plan;
mod planning;
mod relating;
mod rounding;
mod settling;
mod sums;

pub use lowering::{lower, lower_total};
