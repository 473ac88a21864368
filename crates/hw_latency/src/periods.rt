ghost use Rattle.std.specs.Prelude.{◌≡◌, IfOk};
ghost use Rattle.dg_model.specs.Periods.{periods_of as periods_of_diagram};

use dg_model::Checked;
use fx_io::OutOfMemory;
use std::alloc::Global;

/// The periods of a diagram's blocks.
pub fn periods_of(alloc: Global, checked: &Checked) -> Result<Vec<Option<u32>>, OutOfMemory>
    ensures { IfOk result (λ periods. periods.items ≡ periods_of_diagram checked.now.diagram) }
{
    checked.keeps_rules();
    let count = checked.diagram().blocks.as_slice().len();
    let mut periods = Vec::new(alloc);
    for block in 0..count {
        periods.push(checked.period(block as u32))?;
    }
    Ok(periods)
}
