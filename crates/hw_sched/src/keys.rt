// Kinds of operations by parts that stand in an order.
ghost use Rattle.std.specs.Prelude.{◌≡◌};
ghost use Rattle.hw_sched.specs.inner.Keys.{word_of as word_of_type, key_of, kind_from};

use fx_type::FxType;

/// The word of a type that has numbers.
#[derive(Clone, Copy, PartialEq, Eq, PartialOrd, Ord)]
pub struct Word {
    pub signed: bool,
    pub width: u8,
    pub frac: i16,
}

/// A kind of operations: those of one kind can be served by one multiplier.
#[derive(Clone, Copy, PartialEq, Eq, PartialOrd, Ord)]
pub struct KindKey {
    pub period: u64,
    pub lat: u64,
    /// The types of the operands, none for Logical.
    pub left: Option<Word>,
    pub right: Option<Word>,
}

/// The word of a type, none for Logical.
fn word_of(operand: FxType) -> Option<Word>
    ensures { result ≡ word_of_type operand }
{
    match operand {
        FxType::Num {
            signed,
            width,
            frac,
        } => Some(Word {
            signed,
            width,
            frac,
        }),
        FxType::Logical => None,
    }
}

impl KindKey {
    /// The kind of operations of a period, a latency and these types of operands.
    pub fn of(period: u64, lat: u64, left: FxType, right: FxType) -> KindKey
        ensures { result ≡ key_of (kind_from period lat left right) }
    {
        KindKey {
            period,
            lat,
            left: word_of(left),
            right: word_of(right),
        }
    }
}
