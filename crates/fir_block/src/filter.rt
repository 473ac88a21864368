ghost use Rattle.std.specs.Prelude.{◌≡◌, ◌≤◌, length};
ghost use Rattle.dg_model.specs.KindRow.{IsBetween};
ghost use Rattle.fir_block.specs.Expanded.{extent as extent_of};

use dg_model::{Block, Decimals, Edges, PeriodSpec};
use fx_io::{Sequence, Text};
use fx_type::{Rounding, TypeSpec};

/// A discrete FIR filter (Simulink reference, Discrete FIR Filter).
#[derive(Drop)]
pub struct Fir {
    /// Its name in its System.
    pub name: Text,
    /// What its input now, one hit ago and so on are multiplied with.
    pub coefficients: Decimals,
    /// What its input was before the first hit, one hit ago and so on; one is repeated.
    pub initial: Decimals,
    /// How the type of each coefficient is chosen.
    pub param: TypeSpec,
    /// How the type of its output is chosen.
    pub result: TypeSpec,
    /// How its output is rounded.
    pub rounding: Rounding,
    /// Whether an output out of range goes to the nearest end, and does not wrap.
    pub saturate: bool,
    /// How its period is chosen.
    pub period: PeriodSpec,
}

/// A block in the subsystem that a filter stands for.
#[derive(Drop)]
pub struct FirBlock {
    /// Its name in the subsystem.
    pub name: Text,
    /// What it is.
    pub block: Block,
}

/// These in file order.
pub type FirBlocks = Sequence<FirBlock>;

/// The subsystem that a filter stands for.
#[derive(Drop)]
pub struct Expansion {
    /// Its blocks in file order.
    pub blocks: FirBlocks,
    /// The lines between them, by the numbers of the blocks.
    pub edges: Edges,
}

/// How many blocks a filter of so many coefficients stands for, the subsystem among them.
pub fn extent(coefficients: u32) -> u32
    requires { IsBetween 2 32 coefficients }
    ensures { result ≡ extent_of coefficients }
{
    2 * coefficients + 3
}
