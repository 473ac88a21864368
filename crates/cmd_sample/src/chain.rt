ghost use Rattle.std.specs.Prelude.{◌≡◌};
ghost use Rattle.cmd_sample.specs.Chain.{kind_of, word_of, inputs_of};

/// The kinds of blocks of a sample's chain.
#[derive(Clone, Copy)]
pub enum ChainKind {
    Delay,
    Sum,
    Gain,
    Product,
    Switch,
}

impl ChainKind {
    /// The kind of the block at this place of the chain, from 1, with this number.
    pub fn of(place: u32, number: u64) -> ChainKind
        ensures { result ≡ kind_of place number }
    {
        if place % 4 == 0 {
            return ChainKind::Delay;
        }
        match number / (1 << 33) % 4 {
            0 => ChainKind::Sum,
            1 => ChainKind::Gain,
            2 => ChainKind::Product,
            _ => ChainKind::Switch,
        }
    }

    /// Its BlockType, and how many inputs it has.
    fn row(self) -> (&'static [u8], u64)
        ensures word { result.0.now ≡ word_of self }
        ensures inputs { result.1 ≡ inputs_of self }
    {
        match self {
            ChainKind::Delay => (b"UnitDelay", 1),
            ChainKind::Sum => (b"Sum", 2),
            ChainKind::Gain => (b"Gain", 1),
            ChainKind::Product => (b"Product", 2),
            ChainKind::Switch => (b"Switch", 3),
        }
    }

    /// Its BlockType.
    pub fn word(self) -> &'static [u8]
        ensures { result.now ≡ word_of self }
    {
        self.row().0
    }

    /// How many inputs it has.
    pub fn inputs(self) -> u64
        ensures { result ≡ inputs_of self }
    {
        self.row().1
    }
}
