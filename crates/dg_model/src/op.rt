ghost use Rattle.std.specs.Prelude.{◌≡◌};
ghost use Rattle.dg_model.specs.Operation.{without_frac as without_frac_of};
ghost use Rattle.dg_model.specs.Equation.{accumulator as accumulator_of};

use crate::kind::{Criterion, Gate, Relation};
use fx_type::{FxType, Rounding, TypeSpec};

/// An elementwise operation, its parameters converted to stored integers (own).
#[derive(Clone, Copy)]
pub enum Op {
    /// The sum of its inputs with their signs: exact, or added up input by input in the type `accum`.
    Sum {
        accum: Option<FxType>,
    },
    /// The input times `coefficient`, which is a stored integer of the type `param`.
    Gain {
        coefficient: i128,
        param: FxType,
    },
    /// The product of two inputs.
    Product,
    /// Input 1 or input 3, by input 2. `threshold` is a stored integer of the type of input 2.
    Switch {
        criterion: Criterion,
        threshold: i128,
    },
    /// Whether two real values are so related.
    Relational {
        operator: Relation,
    },
    /// A gate over the truth of its inputs.
    Logic {
        operator: Gate,
    },
    /// The real value converted, or the stored integer where `stored` is set.
    Convert {
        stored: bool,
    },
    /// The input itself.
    Pass,
}

/// An operation with what it needs to know of its inputs and its result (own).
#[derive(Clone, Copy)]
pub struct OpCall<'a> {
    /// What is done.
    pub op: Op,
    /// For a Sum, one mark an input, `true` where it is subtracted; else not looked at.
    pub signs: &'a [bool],
    /// The types of the inputs in order.
    pub types: &'a [FxType],
    /// The type of the result.
    pub result: FxType,
    /// How the result is rounded.
    pub rounding: Rounding,
    /// Whether a result out of range goes to the nearest end, and does not wrap.
    pub saturate: bool,
}

/// The type with the same stored integers and frac 0.
pub fn without_frac(kind: FxType) -> FxType
    ensures { result ≡ without_frac_of kind }
{
    match kind {
        FxType::Num { signed, width, .. } => FxType::Num {
            signed,
            width,
            frac: 0,
        },
        FxType::Logical => FxType::Logical,
    }
}

/// The type in which a sum is added up, where it is so specified and has this type; none where it is
/// exact.
pub fn accumulator(spec: TypeSpec, kind: FxType) -> Option<FxType>
    ensures { result ≡ accumulator_of spec kind }
{
    match spec {
        TypeSpec::Internal | TypeSpec::Auto => None,
        TypeSpec::Fixed(_) | TypeSpec::SameFirst => Some(kind),
    }
}
