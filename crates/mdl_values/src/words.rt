//! Parameters whose values are words.
ghost use Rattle.std.specs.Prelude.{◌≡◌};
ghost use Rattle.mdl_values.specs.Words.{value_beside, listed, rounding_of, switch_of, reset_of, criterion_of, relation_of, gate_of};

use dg_model::{Criterion, Gate, Relation};
use fx_type::Rounding;

/// Words, and what each of them says.
type Words<T> = &'static [(&'static str, T)];

const ROUNDINGS: Words<Rounding> = &[
    ("Floor", Rounding::Floor),
    ("Ceiling", Rounding::Ceiling),
    ("Zero", Rounding::Zero),
    ("Nearest", Rounding::Nearest),
    ("Round", Rounding::Round),
    ("Convergent", Rounding::Convergent),
];

const SWITCHES: Words<bool> = &[("on", true), ("off", false)];

const RESETS: Words<bool> = &[("held", false), ("reset", true)];

const CRITERIA: Words<Criterion> = &[
    ("u2 >= Threshold", Criterion::AtLeast),
    ("u2 > Threshold", Criterion::Above),
    ("u2 ~= 0", Criterion::NotZero),
];

const RELATIONS: Words<Relation> = &[
    ("==", Relation::Eq),
    ("~=", Relation::Ne),
    ("<", Relation::Lt),
    ("<=", Relation::Le),
    (">=", Relation::Ge),
    (">", Relation::Gt),
];

const GATES: Words<Gate> = &[
    ("AND", Gate::And),
    ("OR", Gate::Or),
    ("NAND", Gate::Nand),
    ("NOR", Gate::Nor),
    ("XOR", Gate::Xor),
    ("NXOR", Gate::Nxor),
    ("NOT", Gate::Not),
];

/// The value that stands beside a text in a list of words.
pub fn value_beside<T: Copy>(words: &[(&str, T)], text: &[u8]) -> Option<T>
    ensures { result ≡ value_beside (listed words.now) text.now }
{
    for (word, value) in words {
        if text == word.as_bytes() {
            return Some(*value);
        }
    }
    None
}

/// Reads a rounding. Source: Simulink reference, `RndMeth`.
pub fn read_rounding(text: &[u8]) -> Option<Rounding>
    ensures { result ≡ rounding_of text.now }
{
    value_beside(ROUNDINGS, text)
}

/// Reads `on` as `true` and `off` as `false`. Source: Simulink reference.
pub fn read_switch(text: &[u8]) -> Option<bool>
    ensures { result ≡ switch_of text.now }
{
    value_beside(SWITCHES, text)
}

/// Reads `reset` as `true` and `held` as `false`. Source: Simulink reference, Enable and Outport.
pub fn read_reset(text: &[u8]) -> Option<bool>
    ensures { result ≡ reset_of text.now }
{
    value_beside(RESETS, text)
}

/// Reads what a Switch asks. Source: Simulink reference, Switch, `Criteria`.
pub fn read_criterion(text: &[u8]) -> Option<Criterion>
    ensures { result ≡ criterion_of text.now }
{
    value_beside(CRITERIA, text)
}

/// Reads a relation. Source: Simulink reference, Relational Operator, `Operator`.
pub fn read_relation(text: &[u8]) -> Option<Relation>
    ensures { result ≡ relation_of text.now }
{
    value_beside(RELATIONS, text)
}

/// Reads a gate. Source: Simulink reference, Logical Operator, `Operator`.
pub fn read_gate(text: &[u8]) -> Option<Gate>
    ensures { result ≡ gate_of text.now }
{
    value_beside(GATES, text)
}
