ghost use Rattle.std.specs.Prelude.{◌≡◌, IfOk};
ghost use Rattle.dg_model.specs.PlanRange.{AreDifferent};
ghost use Rattle.dg_rules.specs.inner.Lines.{number_of};

use dg_model::Pipeline;
use fx_io::OutOfMemory;
use std::alloc::Global;
use std::collections::BTreeMap;

/// The numbers of a plan's lines by their paths.
#[derive(Drop)]
pub struct Lines<'a> {
    by_path: BTreeMap<&'a [u8], usize>,
}

impl<'a> Lines<'a> {
    ghost use Rattle.dg_rules.specs.inner.Lines.{AreLines, paths_in};

    /// The paths of these lines, which differ.
    pub fn of(alloc: Global, pipelines: &'a [Pipeline]) -> Result<Lines<'a>, OutOfMemory>
        requires { AreDifferent pipelines.now }
        ensures { IfOk result (λ lines. AreLines pipelines.now lines) }
    {
        let mut by_path = BTreeMap::new(alloc);
        for (number, pipeline) in pipelines.iter().enumerate() {
            by_path.insert(pipeline.path.bytes(), number)?;
        }
        Ok(Lines { by_path })
    }

    /// The number of the line of a path, if there is one.
    pub fn number(&self, path: &[u8]) -> Option<usize>
        ensures { result ≡ number_of (paths_in self.now) path.now }
    {
        self.by_path.get(path).copied()
    }
}
