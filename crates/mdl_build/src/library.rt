//! The block types that are known, and the parameters that are read of each, in one table.
//!
//! A new block type is a variant of `BlockType`, a row here and in `type_names.rt`, the same row in
//! `specs/Library.antt`, and a row of its kind in `dg_model`.
ghost use Rattle.std.specs.Prelude.{◌≡◌, map};
ghost use Rattle.mdl_build.specs.Library.{row_of, parameters_of};

/// A block type (Simulink reference, block library).
#[derive(Clone, Copy)]
pub enum BlockType {
    Inport,
    Outport,
    Constant,
    Ground,
    Terminator,
    Sum,
    Gain,
    Product,
    UnitDelay,
    Delay,
    Switch,
    RelationalOperator,
    Logic,
    DataTypeConversion,
    Mux,
    Demux,
    RateTransition,
    SubSystem,
    EnablePort,
    DiscreteFir,
}

/// How the value of a parameter is read, and which setting it gives (own).
#[derive(Clone, Copy)]
pub enum Reader {
    /// The default alone; it gives no setting.
    Default,
    /// A port's number, 1 to 20,000.
    Port,
    /// A declared width: -1, a number from 1 to 1024, or that in brackets.
    Width,
    /// A number from 1 to 1024.
    Length,
    /// A number from 2 to 32, which a gate of one input doesn't look at.
    Operands,
    /// A type, or the default, which gives none.
    TypeOrAuto,
    /// A type, the default, which is the internal rule, or `Inherit: Same as first input`.
    TypeOrFirst,
    /// A type, the default, which is the internal rule, or `Inherit: Same as input`.
    TypeOrInput,
    /// A type, or the default, which is the internal rule.
    TypeOrInternal,
    /// A type, the default, which is the internal rule, or `Inherit: Same as input`, for a
    /// coefficient.
    CoefficientType,
    /// A type, or the default, which is the internal rule, for the coefficients of a filter.
    TapType,
    /// A type, the default, which is the internal rule, or `Inherit: Same as first input`, for an
    /// accumulator.
    AccumulatorType,
    /// A type alone.
    Type,
    /// The default, or a text that begins with `Inherit: Logical`; both are `boolean`.
    Truth,
    /// -1, or a period.
    SampleTime,
    /// inf, -1, or a period.
    ConstantTime,
    /// A period alone.
    Period,
    /// 1 to 1024 decimals.
    List,
    /// The same, or `[]`, which is 0.
    ListOrEmpty,
    /// 2 to 32 decimals, the coefficients of a filter.
    Taps,
    /// One decimal, or one less than the filter has coefficients.
    States,
    /// Signs, or their number.
    Signs,
    /// `2` or `**`; it gives no setting.
    Factors,
    /// A number from 1 to 1024, or so many sizes in brackets.
    Parts,
    /// A rounding.
    Rounding,
    /// `on` or `off`.
    Saturation,
    /// `held` or `reset`.
    Reset,
    /// What a Switch asks.
    Criterion,
    /// A relation.
    Relation,
    /// A gate.
    Gate,
    /// The default, or `Stored Integer (SI)`.
    Conversion,
}

/// A parameter of a block type: its name, its value where the model gives none, and how it is read.
#[derive(Clone, Copy)]
pub struct Parameter(&'static str, &'static str, Reader);

impl Parameter {
    /// Its name.
    pub fn name(&self) -> &'static str
        ensures { result.now ≡ (row_of self.now).name }
    {
        self.0
    }

    /// Its value where the model gives none.
    pub fn default(&self) -> &'static str
        ensures { result.now ≡ (row_of self.now).default }
    {
        self.1
    }

    /// How it is read.
    pub fn reader(&self) -> Reader
        ensures { result ≡ (row_of self.now).reader }
    {
        self.2
    }
}

// Parameters of several block types.
const TYPE_OR_AUTO: Parameter = Parameter("OutDataTypeStr", "Inherit: auto", Reader::TypeOrAuto);

const TYPE_OR_FIRST: Parameter = Parameter(
    "OutDataTypeStr",
    "Inherit: Inherit via internal rule",
    Reader::TypeOrFirst,
);

const TRUTH: Parameter = Parameter("OutDataTypeStr", "boolean", Reader::Truth);

const INITIAL_CONDITION: Parameter = Parameter("InitialCondition", "0", Reader::List);

const ROUNDING: Parameter = Parameter("RndMeth", "Floor", Reader::Rounding);

const SATURATION: Parameter = Parameter("SaturateOnIntegerOverflow", "off", Reader::Saturation);

const SAMPLE_TIME: Parameter = Parameter("SampleTime", "-1", Reader::SampleTime);

const INPORT: &[Parameter] = &[
    Parameter("Port", "1", Reader::Port),
    TYPE_OR_AUTO,
    SAMPLE_TIME,
    Parameter("PortDimensions", "-1", Reader::Width),
];

const OUTPORT: &[Parameter] = &[
    Parameter("Port", "1", Reader::Port),
    TYPE_OR_AUTO,
    SAMPLE_TIME,
    Parameter("OutputWhenDisabled", "held", Reader::Reset),
    Parameter("InitialOutput", "[]", Reader::ListOrEmpty),
];

const CONSTANT: &[Parameter] = &[
    Parameter("Value", "1", Reader::List),
    Parameter(
        "OutDataTypeStr",
        "Inherit: Inherit from 'Constant value'",
        Reader::TypeOrAuto,
    ),
    Parameter("SampleTime", "inf", Reader::ConstantTime),
];

const SUM: &[Parameter] = &[
    Parameter("Inputs", "++", Reader::Signs),
    Parameter(
        "AccumDataTypeStr",
        "Inherit: Inherit via internal rule",
        Reader::AccumulatorType,
    ),
    TYPE_OR_FIRST,
    ROUNDING,
    SATURATION,
    SAMPLE_TIME,
];

const GAIN: &[Parameter] = &[
    Parameter("Gain", "1", Reader::List),
    Parameter(
        "ParamDataTypeStr",
        "Inherit: Inherit via internal rule",
        Reader::CoefficientType,
    ),
    Parameter("Multiplication", "Element-wise(K.*u)", Reader::Default),
    Parameter(
        "OutDataTypeStr",
        "Inherit: Inherit via internal rule",
        Reader::TypeOrInput,
    ),
    ROUNDING,
    SATURATION,
    SAMPLE_TIME,
];

const PRODUCT: &[Parameter] = &[
    Parameter("Inputs", "2", Reader::Factors),
    Parameter("Multiplication", "Element-wise(.*)", Reader::Default),
    TYPE_OR_FIRST,
    ROUNDING,
    SATURATION,
    SAMPLE_TIME,
];

const UNIT_DELAY: &[Parameter] = &[INITIAL_CONDITION, SAMPLE_TIME];

const DELAY: &[Parameter] = &[
    Parameter("DelayLength", "2", Reader::Length),
    INITIAL_CONDITION,
    SAMPLE_TIME,
    Parameter("DelayLengthSource", "Dialog", Reader::Default),
    Parameter("InitialConditionSource", "Dialog", Reader::Default),
    Parameter("ExternalReset", "None", Reader::Default),
    Parameter("ShowEnablePort", "off", Reader::Default),
];

const SWITCH: &[Parameter] = &[
    Parameter("Criteria", "u2 >= Threshold", Reader::Criterion),
    Parameter("Threshold", "0", Reader::List),
    TYPE_OR_FIRST,
    ROUNDING,
    SATURATION,
    SAMPLE_TIME,
];

const RELATIONAL_OPERATOR: &[Parameter] = &[
    Parameter("Operator", "<=", Reader::Relation),
    TRUTH,
    SAMPLE_TIME,
];

const LOGIC: &[Parameter] = &[
    Parameter("Operator", "AND", Reader::Gate),
    Parameter("Inputs", "2", Reader::Operands),
    TRUTH,
    SAMPLE_TIME,
];

const DATA_TYPE_CONVERSION: &[Parameter] = &[
    Parameter(
        "OutDataTypeStr",
        "Inherit: Inherit via back propagation",
        Reader::Type,
    ),
    Parameter(
        "ConvertRealWorld",
        "Real World Value (RWV)",
        Reader::Conversion,
    ),
    ROUNDING,
    SATURATION,
    SAMPLE_TIME,
];

const MUX: &[Parameter] = &[Parameter("Inputs", "4", Reader::Parts)];

const DEMUX: &[Parameter] = &[
    Parameter("Outputs", "4", Reader::Parts),
    Parameter("BusSelectionMode", "off", Reader::Default),
];

const RATE_TRANSITION: &[Parameter] = &[
    Parameter("OutPortSampleTime", "-1", Reader::Period),
    Parameter("OutPortSampleTimeOpt", "Specify", Reader::Default),
    Parameter("Deterministic", "on", Reader::Default),
    INITIAL_CONDITION,
];

const SUB_SYSTEM: &[Parameter] = &[Parameter("SystemSampleTime", "-1", Reader::Default)];

const ENABLE_PORT: &[Parameter] = &[
    Parameter("StatesWhenEnabling", "held", Reader::Reset),
    Parameter("ShowOutputPort", "off", Reader::Default),
];

/// The coefficients of a filter.
pub const COEFFICIENTS: Parameter = Parameter("Coefficients", "[0.5 0.5]", Reader::Taps);

const DISCRETE_FIR: &[Parameter] = &[
    COEFFICIENTS,
    Parameter("CoefSource", "Dialog parameters", Reader::Default),
    Parameter("FilterStructure", "Direct form", Reader::Default),
    Parameter("InitialStates", "0", Reader::States),
    Parameter(
        "CoefDataTypeStr",
        "Inherit: Same word length as input",
        Reader::TapType,
    ),
    Parameter(
        "ProductDataTypeStr",
        "Inherit: Inherit via internal rule",
        Reader::Default,
    ),
    Parameter(
        "AccumDataTypeStr",
        "Inherit: Inherit via internal rule",
        Reader::Default,
    ),
    Parameter(
        "OutDataTypeStr",
        "Inherit: Inherit via internal rule",
        Reader::TypeOrInternal,
    ),
    ROUNDING,
    SATURATION,
    SAMPLE_TIME,
];

/// Those of a block type that has none.
const NONE: &[Parameter] = &[];

/// The parameters that are read of a block type, in the order in which they are tried (Simulink
/// reference, each block's page; the defaults are own).
pub fn parameters(block_type: BlockType) -> &'static [Parameter]
    ensures { map row_of result.now ≡ parameters_of block_type }
{
    match block_type {
        BlockType::Inport => INPORT,
        BlockType::Outport => OUTPORT,
        BlockType::Constant => CONSTANT,
        BlockType::Ground => NONE,
        BlockType::Terminator => NONE,
        BlockType::Sum => SUM,
        BlockType::Gain => GAIN,
        BlockType::Product => PRODUCT,
        BlockType::UnitDelay => UNIT_DELAY,
        BlockType::Delay => DELAY,
        BlockType::Switch => SWITCH,
        BlockType::RelationalOperator => RELATIONAL_OPERATOR,
        BlockType::Logic => LOGIC,
        BlockType::DataTypeConversion => DATA_TYPE_CONVERSION,
        BlockType::Mux => MUX,
        BlockType::Demux => DEMUX,
        BlockType::RateTransition => RATE_TRANSITION,
        BlockType::SubSystem => SUB_SYSTEM,
        BlockType::EnablePort => ENABLE_PORT,
        BlockType::DiscreteFir => DISCRETE_FIR,
    }
}
