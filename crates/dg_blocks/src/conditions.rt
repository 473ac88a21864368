//! The operations that ask something of their inputs: criteria, relations and gates.
ghost use Rattle.std.specs.Prelude.{◌≡◌, count_by};
ghost use Rattle.std.specs.List.{list_all, list_any};
ghost use Rattle.fx_type.specs.declared.kind.FxType.{FxType};
ghost use Rattle.fx_type.specs.FxType.{IsType, InRange};
ghost use Rattle.fx_type.specs.FullType.{IsUnion};
ghost use Rattle.dg_model.specs.Operation.{meets as meets_of, compares as compares_of, compares_values as compares_values_of, gate_of, is_true as is_true_of};

use crate::exact::aligned_value;
use dg_model::{Criterion, Gate, Relation};
use fx_type::FxType;

/// Whether the criterion of a Switch holds of its input 2.
pub fn meets(criterion: Criterion, threshold: i128, control: i128) -> bool
    ensures { result ≡ meets_of criterion threshold control }
{
    match criterion {
        Criterion::AtLeast => control >= threshold,
        Criterion::Above => control > threshold,
        Criterion::NotZero => control != 0,
    }
}

/// Whether two numbers in one unit are so related.
fn compares(operator: Relation, x: i128, y: i128) -> bool
    ensures { result ≡ compares_of operator x y }
{
    match operator {
        Relation::Eq => x == y,
        Relation::Ne => x != y,
        Relation::Lt => x < y,
        Relation::Le => x <= y,
        Relation::Ge => x >= y,
        Relation::Gt => x > y,
    }
}

/// Whether the real values of two stored integers are so related.
pub fn compares_values(operator: Relation, a: FxType, b: FxType, x: i128, y: i128) -> bool
    requires left { IsType a }
    requires right { IsType b }
    requires x_in_range { InRange a x }
    requires y_in_range { InRange b y }
    requires union { (union : FxType) × IsUnion a b union }
    ensures { result ≡ compares_values_of operator a b x y }
{
    let frac = a.frac().max(b.frac());
    compares(
        operator,
        aligned_value(frac, a, x),
        aligned_value(frac, b, y),
    )
}

/// Whether every input is true.
fn all_true(inputs: &[i128]) -> bool
    ensures { result ≡ list_all is_true_of inputs.now }
{
    inputs.iter().all(|v| *v != 0)
}

/// Whether some input is true.
fn some_true(inputs: &[i128]) -> bool
    ensures { result ≡ list_any is_true_of inputs.now }
{
    inputs.iter().any(|v| *v != 0)
}

/// How many inputs are true.
fn count_true(inputs: &[i128]) -> usize
    ensures { result ≡ count_by is_true_of inputs.now }
{
    inputs.iter().filter(|v| **v != 0).count()
}

/// The gate over the truth of its inputs.
pub fn gate(operator: Gate, inputs: &[i128]) -> bool
    ensures { result ≡ gate_of operator inputs.now }
{
    match operator {
        Gate::And => all_true(inputs),
        Gate::Or => some_true(inputs),
        Gate::Nand => !all_true(inputs),
        Gate::Nor | Gate::Not => !some_true(inputs),
        Gate::Xor => count_true(inputs) % 2 == 1,
        Gate::Nxor => count_true(inputs) % 2 == 0,
    }
}
