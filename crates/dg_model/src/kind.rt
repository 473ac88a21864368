use fx_io::{Flags, Sequence, Sizes};
use fx_type::{Decimal, TypeSpec};

/// What a block does, with the parameters that only its kind has (Simulink reference, block library).
#[derive(Drop)]
pub enum Kind {
    /// A root input port. Its `number` is from 1, and a `width` of 0 is not declared.
    Inport {
        number: u32,
        width: u32,
    },
    /// A root output port, numbered from 1.
    Outport {
        number: u32,
    },
    /// A value that never changes; a list of one is repeated.
    Constant {
        value: Decimals,
    },
    /// The value 0.
    Ground,
    /// The sum of its inputs, where `true` marks one that is subtracted; `accum` chooses the type in
    /// which it is added up input by input, or the internal rule, by which it is exact.
    Sum {
        negative: Flags,
        accum: TypeSpec,
    },
    /// The input times a coefficient; `param` chooses the coefficient's type.
    Gain {
        value: Decimals,
        param: TypeSpec,
    },
    /// The product of two inputs.
    Product,
    /// Input 1 where the criterion holds of input 2 and the threshold, else input 3.
    Switch {
        criterion: Criterion,
        threshold: Decimals,
    },
    /// Whether input 1 and input 2 are so related.
    Relational {
        operator: Relation,
    },
    /// A gate over the truth of its inputs.
    Logic {
        operator: Gate,
    },
    /// The input in another type: its real value, or its stored integer where `stored` is set.
    Convert {
        stored: bool,
    },
    /// The input `length` counted hits ago, before that `initial`. `reset` says whether an enabled
    /// subsystem around it begins anew when it is enabled again.
    Delay {
        length: u32,
        initial: Decimals,
        reset: bool,
    },
    /// Its inputs end to end, of these sizes; an empty list fixes none.
    Mux {
        sizes: Sizes,
    },
    /// The parts of its input in order, one size an output; zeros alone leave the sizes open.
    Demux {
        sizes: Sizes,
    },
    /// The input at another period.
    RateTransition {
        period: Decimal,
        initial: Decimals,
    },
    /// The input itself: an inner port. A `width` of 0 is inherited.
    Pass {
        width: u32,
    },
    /// 1 where some element of its input, the control of an enabled subsystem, is above 0.
    EnableTest,
    /// An output port of an enabled subsystem. Where it is not enabled it keeps its value, or gives
    /// `initial` where `reset` is set.
    EnOut {
        reset: bool,
        initial: Decimals,
    },
    /// The end of a signal that nothing reads.
    Terminator,
}

/// What a Switch asks of its input 2 (Simulink reference, Switch, `Criteria`).
#[derive(Clone, Copy, Debug)]
pub enum Criterion {
    /// `u2 >= Threshold`.
    AtLeast,
    /// `u2 > Threshold`.
    Above,
    /// `u2 ~= 0`.
    NotZero,
}

/// A relation of two real values (Simulink reference, Relational Operator).
#[derive(Clone, Copy, Debug)]
pub enum Relation {
    /// `==`.
    Eq,
    /// `~=`.
    Ne,
    /// `<`.
    Lt,
    /// `<=`.
    Le,
    /// `>=`.
    Ge,
    /// `>`.
    Gt,
}

/// A gate (Simulink reference, Logical Operator).
#[derive(Clone, Copy, Debug)]
pub enum Gate {
    /// Each input is true.
    And,
    /// Some input is true.
    Or,
    /// Not each input is true.
    Nand,
    /// No input is true.
    Nor,
    /// An odd number of inputs is true.
    Xor,
    /// An even number of inputs is true.
    Nxor,
    /// The only input is false.
    Not,
}

/// A list parameter, as a Gain's values.
pub type Decimals = Sequence<Decimal>;
