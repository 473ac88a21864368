ghost use Rattle.std.specs.Prelude.{◌≡◌};
ghost use Rattle.dg_model.specs.Library.{row_of};
ghost use Rattle.dg_model.specs.Wired.{root_input, root_output};
ghost use Rattle.dg_model.specs.inner.RowColumns.{fixed_row};

use crate::kind::Kind;
use fx_type::FxType;

/// What a block is in its System (Simulink reference, ports and subsystems).
#[derive(Clone, Copy)]
pub enum Role {
    /// The root input port of this number.
    RootInput { number: u32 },
    /// The root output port of this number.
    RootOutput { number: u32 },
    /// An inner port of this declared width, 0 where it declares none.
    InnerPort { width: u32 },
    /// An output port of an enabled subsystem.
    EnabledOutput,
    /// The control of an enabled subsystem.
    Control,
    /// A block that is no port.
    Plain,
}

impl Role {
    /// The number of a root input port.
    pub fn input_number(self) -> Option<u32>
        ensures { result ≡ root_input self }
    {
        match self {
            Role::RootInput { number } => Some(number),
            _ => None,
        }
    }

    /// The number of a root output port.
    pub fn output_number(self) -> Option<u32>
        ensures { result ≡ root_output self }
    {
        match self {
            Role::RootOutput { number } => Some(number),
            _ => None,
        }
    }
}

/// Where a block may stand (Simulink reference, enabled subsystems; the limits are own).
#[derive(Clone, Copy)]
pub enum Standing {
    /// Everywhere.
    Anywhere,
    /// Outside of enabled subsystems.
    Outside,
    /// Only in an enabled subsystem.
    Inside,
}

/// The type of a block's outputs where its specification chooses none (Simulink reference, each
/// block's page).
#[derive(Clone, Copy)]
pub enum OwnType {
    /// None.
    Untyped,
    /// Always this one.
    Always { kind: FxType },
    /// That of input 1.
    OfInput,
}

/// Which period a block takes where it inherits one (Simulink reference, sample time propagation).
#[derive(Clone, Copy)]
pub enum Inherited {
    /// That of its sources, and none where no source's value ever changes.
    OfSources,
    /// The same, but always a period: it moves on though its sources don't change.
    Moving,
    /// One base sample.
    Base,
    /// None: its value never changes.
    Unchanging,
}

/// When a block reads its inputs for its value at a base sample (Simulink reference, direct
/// feedthrough).
#[derive(Clone, Copy)]
pub enum Reading {
    /// In that sample.
    Now,
    /// In samples before.
    Before,
    /// Before where its input is slower, else in that sample.
    BeforeIfSlower,
}

/// When a block asks whether the enabled subsystem that holds it is enabled (Simulink reference,
/// enabled subsystems).
#[derive(Clone, Copy)]
pub enum Asking {
    /// It doesn't ask.
    Never,
    /// For its value at a base sample in that sample.
    Now,
    /// For its values in samples after.
    Before,
}

/// What is told of a kind of block: the columns of its row that are choices, numbers or marks
/// (Simulink reference, each block's page; the limits are own).
#[derive(Clone, Copy)]
pub struct Row {
    /// What it is in its System.
    pub role: Role,
    /// Where it may stand.
    pub stands: Standing,
    /// The type of its outputs where its specification chooses none.
    pub own: OwnType,
    /// Which period it takes where it inherits one.
    pub inherits: Inherited,
    /// When it reads its inputs.
    pub reads: Reading,
    /// When it asks whether it is enabled.
    pub asks: Asking,
    /// How many samples of each element it keeps for its value later.
    pub delay: u32,
    /// Whether a plan may set registers behind it.
    pub pipelines: bool,
    /// Whether each of its elements is a multiplication.
    pub multiplies: bool,
}

/// A block that is no port, whose value is made of its inputs in the same sample and has their type.
const PLAIN: Row = Row {
    role: Role::Plain,
    stands: Standing::Anywhere,
    own: OwnType::OfInput,
    inherits: Inherited::OfSources,
    reads: Reading::Now,
    asks: Asking::Never,
    delay: 0,
    pipelines: false,
    multiplies: false,
};

/// The end of a signal.
const END: Row = Row {
    own: OwnType::Untyped,
    ..PLAIN
};

/// An input port of the root.
const ROOT_INPUT: Row = Row {
    inherits: Inherited::Base,
    ..END
};

/// An output port of the root.
const ROOT_OUTPUT: Row = Row {
    inherits: Inherited::Moving,
    ..PLAIN
};

/// A value that never changes.
const CONSTANT: Row = Row {
    own: OwnType::Untyped,
    inherits: Inherited::Unchanging,
    ..PLAIN
};

/// The value 0.
const GROUND: Row = Row {
    own: OwnType::Always {
        kind: FxType::Num {
            signed: false,
            width: 1,
            frac: 0,
        },
    },
    ..CONSTANT
};

/// An operation, behind which registers may stand.
const OPERATION: Row = Row {
    own: OwnType::Untyped,
    pipelines: true,
    ..PLAIN
};

/// A multiplication.
const MULTIPLICATION: Row = Row {
    multiplies: true,
    ..OPERATION
};

/// An operation that decides whether something holds.
const DECISION: Row = Row {
    own: OwnType::Always {
        kind: FxType::Logical,
    },
    ..OPERATION
};

/// A delay.
const DELAY: Row = Row {
    inherits: Inherited::Moving,
    reads: Reading::Before,
    asks: Asking::Before,
    ..PLAIN
};

/// A change of the period.
const TRANSITION: Row = Row {
    stands: Standing::Outside,
    reads: Reading::BeforeIfSlower,
    ..PLAIN
};

/// The control of an enabled subsystem.
const CONTROL: Row = Row {
    stands: Standing::Outside,
    own: OwnType::Always {
        kind: FxType::Logical,
    },
    ..PLAIN
};

/// An output port of an enabled subsystem.
const ENABLED_OUTPUT: Row = Row {
    stands: Standing::Inside,
    inherits: Inherited::Moving,
    asks: Asking::Now,
    ..PLAIN
};

impl Kind {
    /// What it is in its System.
    fn role(&self) -> Role
        ensures { result ≡ (row_of self.now).place.role }
    {
        match self {
            Kind::Inport { number, .. } => Role::RootInput { number: *number },
            Kind::Outport { number } => Role::RootOutput { number: *number },
            Kind::Pass { width } => Role::InnerPort { width: *width },
            Kind::EnableTest => Role::Control,
            Kind::EnOut { .. } => Role::EnabledOutput,
            _ => Role::Plain,
        }
    }

    /// How many samples of each element it keeps.
    fn delay(&self) -> u32
        ensures { result ≡ (row_of self.now).timing.delay }
    {
        match self {
            Kind::Delay { length, .. } => *length,
            _ => 0,
        }
    }

    /// The columns of its row that hold no parameter, as one value, so that none is proved kind by
    /// kind.
    fn fixed_row(&self) -> &'static Row
        ensures { result.now ≡ fixed_row self.now }
    {
        match self {
            Kind::Inport { .. } => &ROOT_INPUT,
            Kind::Outport { .. } => &ROOT_OUTPUT,
            Kind::Constant { .. } => &CONSTANT,
            Kind::Ground => &GROUND,
            Kind::Sum { .. } | Kind::Switch { .. } | Kind::Convert { .. } => &OPERATION,
            Kind::Gain { .. } | Kind::Product => &MULTIPLICATION,
            Kind::Relational { .. } | Kind::Logic { .. } => &DECISION,
            Kind::Delay { .. } => &DELAY,
            Kind::Mux { .. } | Kind::Demux { .. } | Kind::Pass { .. } => &PLAIN,
            Kind::RateTransition { .. } => &TRANSITION,
            Kind::EnableTest => &CONTROL,
            Kind::EnOut { .. } => &ENABLED_OUTPUT,
            Kind::Terminator => &END,
        }
    }

    /// The row of a kind. A new kind has no meaning before it has one.
    pub fn row(&self) -> Row
        ensures role { result.role ≡ (row_of self.now).place.role }
        ensures stands { result.stands ≡ (row_of self.now).place.stands }
        ensures own { result.own ≡ (row_of self.now).types.own }
        ensures inherits { result.inherits ≡ (row_of self.now).timing.inherits }
        ensures reads { result.reads ≡ (row_of self.now).timing.reads }
        ensures asks { result.asks ≡ (row_of self.now).timing.asks }
        ensures delay { result.delay ≡ (row_of self.now).timing.delay }
        ensures pipelines { result.pipelines ≡ (row_of self.now).hardware.pipelines }
        ensures multiplies { result.multiplies ≡ (row_of self.now).hardware.multiplies }
    {
        Row {
            role: self.role(),
            delay: self.delay(),
            ..*self.fixed_row()
        }
    }
}
