//! The columns of a kind's row that hold lists.
ghost use Rattle.std.specs.Prelude.{◌≡◌, ◌∷◌, [], MatchOption};
ghost use Rattle.dg_model.specs.Equation.{signs_of};
ghost use Rattle.dg_model.specs.Lent.{lent_full, lent_shape};
ghost use Rattle.dg_model.specs.Library.{row_of};

use crate::kind::Kind;
use fx_type::{Decimal, TypeSpec};

/// How the signals of a block come from those of its inputs (Simulink reference, signal dimensions).
#[derive(Clone, Copy)]
pub enum Shape<'a> {
    /// Element by element, where one of a single element is repeated.
    Elementwise,
    /// Its inputs end to end, of these sizes where the list isn't empty.
    Joined { sizes: &'a [u32] },
    /// The parts of its input, of these sizes; of zeros alone, as even as can be.
    Parted { sizes: &'a [u32] },
    /// One element from all of its input.
    Single,
}

/// The full type or union of its inputs that a block's equation names, and that the internal rule
/// gives (Fixed-Point Designer, full precision; the unions are own).
#[derive(Clone, Copy)]
pub enum FullRule<'a> {
    /// None.
    NoFull,
    /// The full sum of the inputs, where `true` marks one that is subtracted; or those of its steps,
    /// where it is added up in a type that is so specified.
    FullSum {
        negative: &'a [bool],
        accum: TypeSpec,
    },
    /// The full product of input 1 and coefficients of this list, whose type is so specified.
    FullScaled {
        value: &'a [Decimal],
        param: TypeSpec,
    },
    /// The full product of inputs 1 and 2.
    FullProduct,
    /// The union of inputs 1 and 2.
    UnionOfTwo,
    /// The union of inputs 1 and 3, which is named only where the internal rule takes it.
    UnionOfEnds,
}

impl Kind {
    /// How the signals of its blocks come from those of their inputs.
    pub fn shape(&self) -> Shape<'_>
        ensures { lent_shape result ≡ (row_of self.now).signal.shape }
    {
        match self {
            Kind::Mux { sizes } => Shape::Joined {
                sizes: sizes.as_slice(),
            },
            Kind::Demux { sizes } => Shape::Parted {
                sizes: sizes.as_slice(),
            },
            Kind::EnableTest => Shape::Single,
            _ => Shape::Elementwise,
        }
    }

    /// The full type or union that its equation names.
    pub fn full(&self) -> FullRule<'_>
        ensures { lent_full result ≡ (row_of self.now).types.full }
    {
        match self {
            Kind::Sum { negative, accum } => FullRule::FullSum {
                negative: negative.as_slice(),
                accum: *accum,
            },
            Kind::Gain { value, param } => FullRule::FullScaled {
                value: value.as_slice(),
                param: *param,
            },
            Kind::Product => FullRule::FullProduct,
            Kind::Relational { .. } => FullRule::UnionOfTwo,
            Kind::Switch { .. } => FullRule::UnionOfEnds,
            _ => FullRule::NoFull,
        }
    }

    /// The signs of a Sum, where `true` marks an input that is subtracted; no other kind has any.
    pub fn signs(&self) -> &[bool]
        ensures { result.now ≡ signs_of self.now }
    {
        match self.full() {
            FullRule::FullSum { negative, .. } => negative,
            _ => &[],
        }
    }

    /// Its list parameter, if it has one.
    pub fn list(&self) -> Option<&[Decimal]>
        ensures { MatchOption result ((row_of self.now).signal.lists ≡ [])
            (λ list. (row_of self.now).signal.lists ≡ list.now ∷ []) }
    {
        match self {
            Kind::Constant { value } => Some(value.as_slice()),
            Kind::Gain { value, .. } => Some(value.as_slice()),
            Kind::Switch { threshold, .. } => Some(threshold.as_slice()),
            Kind::Delay { initial, .. } => Some(initial.as_slice()),
            Kind::RateTransition { initial, .. } => Some(initial.as_slice()),
            Kind::EnOut { initial, .. } => Some(initial.as_slice()),
            _ => None,
        }
    }

    /// The width that it declares, 0 where it declares none.
    pub fn declared_width(&self) -> usize
        ensures { result ≡ (row_of self.now).signal.width }
    {
        match self {
            Kind::Inport { width, .. } | Kind::Pass { width } => *width as usize,
            Kind::Constant { value } => value.as_slice().len(),
            _ => 0,
        }
    }
}
