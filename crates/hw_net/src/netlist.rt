//! Netlists as data: nets by number, each with its word and what it shows.
ghost use Rattle.std.specs.Prelude.{◌≡◌};
ghost use Rattle.hw_net.specs.Operation.{arity};

use fx_io::{Sequence, Sizes, Text};

/// Nets by number, from 0.
pub type Nets = Sequence<Net>;
/// Ports in order.
pub type NetPorts = Sequence<NetPort>;
/// Names for nets.
pub type NetLabels = Sequence<NetLabel>;

/// A frame: each `period` base samples one value, the first from base sample `latency` on (own).
#[derive(Clone, Copy, Debug, PartialEq, Eq, PartialOrd, Ord)]
pub struct Frame {
    /// How many base samples a value stands. It is above 0.
    pub period: u32,
    /// The base sample at which the first value begins.
    pub latency: u64,
}

/// A net: the word of its values, and what it shows (own).
#[derive(Drop)]
pub struct Net {
    pub signed: bool,
    /// How many bits the word has.
    pub width: u8,
    pub kind: NetKind,
}

/// What a net shows (own). Other nets are named by their numbers.
#[derive(Drop)]
pub enum NetKind {
    /// An operation on nets in the same clock.
    Comb {
        op: NetOp,
        args: Sizes,
    },
    /// A register that takes `from` once a frame, at the edge that ends clock `slot` of the frame.
    /// With a slot past the frame's end it never takes.
    Reg {
        frame: Frame,
        slot: u32,
        first: i128,
        from: u32,
    },
    /// A register that takes at the edge that ends the frame, where `enable` is not 0. Else it
    /// keeps its value, or takes `first` where `reset` is set.
    EnReg {
        frame: Frame,
        enable: u32,
        reset: bool,
        first: i128,
        from: u32,
    },
    /// An accumulator, which adds `from` at each edge that ends a clock at which `enable` is not 0,
    /// cut to its word. At the edge that ends the frame it takes 0 instead.
    Acc {
        frame: Frame,
        enable: u32,
        from: u32,
    },
    /// `from` itself before its frame and in the first `live` base samples of each frame, and from
    /// then on to the frame's end what `from` had in the last clock of these.
    Bridge {
        frame: Frame,
        live: u32,
        from: u32,
    },
    /// A shared multiplier: the product of two nets in the same clock.
    Unit {
        left: u32,
        right: u32,
    },
    /// How many edges are left of the frame.
    Counter {
        frame: Frame,
    },
}

/// An operation on numbers, cut to the word of its net (own).
#[derive(Clone, Copy)]
pub enum NetOp {
    /// The input of this number.
    Input(u32),
    /// A constant.
    Const(i128),
    /// The argument.
    Resize,
    /// The argument times 2 to the power of these places.
    ShiftUp(u8),
    /// The argument by 2 to the power of these places, rounded down.
    ShiftDown(u8),
    Add,
    Subtract,
    Negate,
    Multiply,
    /// Bit by bit on two's complement, as `Or`, `Xor` and `Not`.
    And,
    Or,
    Xor,
    Not,
    /// 1 where the first argument is below the second, else 0.
    Less,
    /// 1 where the arguments are equal, else 0.
    Equal,
    /// The second argument where the first is not 0, else the third.
    Choose,
    /// The bits `low` to `high` of the argument's word, as an unsigned number.
    Slice { high: u8, low: u8 },
}

/// How many arguments an operation has.
pub fn arity(op: NetOp) -> usize
    ensures { result ≡ arity op }
{
    match op {
        NetOp::Input(_) | NetOp::Const(_) => 0,
        NetOp::Resize
        | NetOp::ShiftUp(_)
        | NetOp::ShiftDown(_)
        | NetOp::Negate
        | NetOp::Not
        | NetOp::Slice { .. } => 1,
        NetOp::Add
        | NetOp::Subtract
        | NetOp::Multiply
        | NetOp::And
        | NetOp::Or
        | NetOp::Xor
        | NetOp::Less
        | NetOp::Equal => 2,
        NetOp::Choose => 3,
    }
}

/// A port of the module (own).
#[derive(Drop)]
pub struct NetPort {
    pub name: Text,
    /// The number of the net that it shows.
    pub net: u32,
    /// How many base samples a value stands.
    pub period: u32,
    /// The clock of the first value.
    pub latency: u64,
}

/// A name that a net is to have in the module (own).
#[derive(Drop)]
pub struct NetLabel {
    pub net: u32,
    pub name: Text,
}
