//! The names of the block types.
ghost use Rattle.std.specs.Prelude.{◌≡◌};
ghost use Rattle.mdl_build.specs.Library.{number_of, type_name, type_of_name};

use crate::library::BlockType;
use mdl_values::value_beside;

/// How many block types there are.
pub const TYPES: usize = 20;

/// All block types, each at its number.
pub const BLOCK_TYPES: [BlockType; TYPES] = [
    BlockType::Inport,
    BlockType::Outport,
    BlockType::Constant,
    BlockType::Ground,
    BlockType::Terminator,
    BlockType::Sum,
    BlockType::Gain,
    BlockType::Product,
    BlockType::UnitDelay,
    BlockType::Delay,
    BlockType::Switch,
    BlockType::RelationalOperator,
    BlockType::Logic,
    BlockType::DataTypeConversion,
    BlockType::Mux,
    BlockType::Demux,
    BlockType::RateTransition,
    BlockType::SubSystem,
    BlockType::EnablePort,
    BlockType::DiscreteFir,
];

/// The name of each block type, at its number.
const NAMES: &[(&str, BlockType)] = &[
    ("Inport", BlockType::Inport),
    ("Outport", BlockType::Outport),
    ("Constant", BlockType::Constant),
    ("Ground", BlockType::Ground),
    ("Terminator", BlockType::Terminator),
    ("Sum", BlockType::Sum),
    ("Gain", BlockType::Gain),
    ("Product", BlockType::Product),
    ("UnitDelay", BlockType::UnitDelay),
    ("Delay", BlockType::Delay),
    ("Switch", BlockType::Switch),
    ("RelationalOperator", BlockType::RelationalOperator),
    ("Logic", BlockType::Logic),
    ("DataTypeConversion", BlockType::DataTypeConversion),
    ("Mux", BlockType::Mux),
    ("Demux", BlockType::Demux),
    ("RateTransition", BlockType::RateTransition),
    ("SubSystem", BlockType::SubSystem),
    ("EnablePort", BlockType::EnablePort),
    ("DiscreteFir", BlockType::DiscreteFir),
];

/// The place of a block type among all of them.
pub fn number_of(block_type: BlockType) -> usize
    ensures { result ≡ number_of block_type }
{
    block_type as usize
}

/// The name of a block type.
pub fn type_name(block_type: BlockType) -> &'static str
    ensures { result.now ≡ type_name block_type }
{
    let number = number_of(block_type);
    NAMES[number].0
}

/// The block type of a name.
pub fn type_of_name(name: &[u8]) -> Option<BlockType>
    ensures { result ≡ type_of_name name.now }
{
    value_beside(NAMES, name)
}
