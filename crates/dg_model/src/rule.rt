//! The rules, with their numbers and words.
ghost use Rattle.std.specs.Prelude.{◌≡◌};
ghost use Rattle.dg_model.specs.RuleTable.{rule_number, rule_word};

/// A rule of models, of plans or of ports, in the order in which they are tried (Simulink
/// reference, model files, signal attributes, sample times and algebraic loops; those of plans and
/// of ports are own).
#[derive(Clone, Copy)]
pub enum Rule {
    /// The sections of a text are those of one model, with blocks that differ in their names and
    /// lines that join blocks.
    Structure,
    /// Each block is of a type in the library.
    Library,
    /// Each parameter in the library's row of a block reads as its row says.
    Parameter,
    /// Each input port has one driver, and each line joins ports that are there.
    Wiring,
    /// A System has at most one EnablePort, and an enabled subsystem holds no other and no rate
    /// transition.
    Enable,
    /// The widths of signals are found and agree, and elements are not too many.
    Dimension,
    /// The types of signals are known and agree, and what equations name is valid.
    Type,
    /// Declared periods are multiples of the least, and those of blocks that are joined agree.
    Rate,
    /// No block needs its own value in the same sample.
    Loop,
    /// Each path of a plan is that of a block behind which registers may stand.
    Plan,
    /// No cycle of blocks makes its own blocks later.
    Latency,
    /// The slots that the shared operations of a period need stand in it.
    Budget,
    /// Storage and the greatest latency are within their bounds.
    Size,
    /// Each root port has a number in every base sample.
    Stream,
}

impl Rule {
    /// The rule's number, 1 to 14.
    pub fn number(self) -> u8
        ensures { result ≡ rule_number self }
    {
        match self {
            Rule::Structure => 1,
            Rule::Library => 2,
            Rule::Parameter => 3,
            Rule::Wiring => 4,
            Rule::Enable => 5,
            Rule::Dimension => 6,
            Rule::Type => 7,
            Rule::Rate => 8,
            Rule::Loop => 9,
            Rule::Plan => 10,
            Rule::Latency => 11,
            Rule::Budget => 12,
            Rule::Size => 13,
            Rule::Stream => 14,
        }
    }

    /// What the rule is about.
    pub fn word(self) -> &'static [u8]
        ensures { result.now ≡ rule_word self }
    {
        match self {
            Rule::Structure => b"structure",
            Rule::Library => b"library",
            Rule::Parameter => b"parameter",
            Rule::Wiring => b"wiring",
            Rule::Enable => b"enable",
            Rule::Dimension => b"dimension",
            Rule::Type => b"type",
            Rule::Rate => b"rate",
            Rule::Loop => b"loop",
            Rule::Plan => b"plan",
            Rule::Latency => b"latency",
            Rule::Budget => b"budget",
            Rule::Size => b"size",
            Rule::Stream => b"stream",
        }
    }
}
