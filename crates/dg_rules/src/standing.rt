ghost use Rattle.std.specs.Prelude.{◌≡◌, ◌<◌, IfOk, replicate};
ghost use Rattle.dg_rules.specs.inner.Standings.{next_standing};
ghost use Rattle.dg_rules.specs.declared.standing.Standing.TheVariants.{Unseen};

use fx_io::OutOfMemory;
use std::alloc::Global;

/// How a line of a plan stands with the blocks that were looked at.
#[derive(Clone, Copy, PartialEq, Eq)]
pub enum Standing {
    /// None has its path.
    Unseen,
    /// Registers may stand behind each that has it.
    Found,
    /// Behind one that has it none may stand.
    Refused,
}

/// How a line stands with one more block of its path, behind which registers may stand or not.
pub fn next(may: bool, standing: Standing) -> Standing
    ensures { result ≡ next_standing may standing }
{
    match standing {
        Standing::Unseen | Standing::Found if may => Standing::Found,
        Standing::Unseen | Standing::Found | Standing::Refused => Standing::Refused,
    }
}

/// So many lines of which no block has the path.
pub fn unseen(alloc: Global, count: usize) -> Result<Vec<Standing>, OutOfMemory>
    ensures { IfOk result (λ standings. standings.items ≡ replicate count Unseen) }
{
    let standings = vec![in alloc; Standing::Unseen; count]?;
    Ok(standings)
}
