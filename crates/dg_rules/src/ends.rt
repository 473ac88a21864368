ghost use Rattle.std.specs.Prelude.{◌≡◌, ◌≤◌, ◌++◌, ℕ, List, IfOk, OnOk, length, true, false};
ghost use Rattle.dg_model.specs.declared.plan.Pipeline.{Pipeline as Line};
ghost use Rattle.dg_rules.specs.inner.Ends.{HasEnds, IsNoEnd, is_end};

use dg_model::Pipeline;
use fx_io::OutOfMemory;
use std::alloc::Global;
use std::collections::BTreeMap;

/// How many bytes an end of a path has at the most.
const LONGEST: usize = 8;

/// How the paths of a plan's lines end, by up to eight bytes of each.
#[derive(Drop)]
pub struct Ends<'a> {
    by_bytes: BTreeMap<&'a [u8], ()>,
}

/// Puts the ends of a path to others.
fn put_ends<'a>(ends: &mut BTreeMap<&'a [u8], ()>, path: &'a [u8]) -> Result<(), OutOfMemory>
    ensures ends { OnOk result (HasEnds ends.new.entries path.now) }
    ensures kept { OnOk result ((end : List ℕ) → is_end ends.old.entries end ≡ true
        → is_end ends.new.entries end ≡ true) }
{
    for size in 0..path.len().min(LONGEST) + 1 {
        let (_, end) = path.split_at(path.len() - size);
        ends.insert(end, ())?;
    }
    Ok(())
}

impl<'a> Ends<'a> {
    ghost use Rattle.dg_rules.specs.inner.Ends.{HaveEnds};

    /// The ends of the paths of these lines.
    pub fn of(alloc: Global, pipelines: &'a [Pipeline]) -> Result<Ends<'a>, OutOfMemory>
        ensures { IfOk result (λ ends. HaveEnds pipelines.now ends.by_bytes.entries) }
    {
        let mut by_bytes = BTreeMap::new(alloc);
        for pipeline in pipelines {
            put_ends(&mut by_bytes, pipeline.path.bytes())?;
        }
        Ok(Ends { by_bytes })
    }

    /// Whether a path may end with a name. Where it may not, no line's does.
    pub fn may_end(&self, name: &[u8]) -> bool
        ensures { result ≡ false → (lines : List Line)
            → HaveEnds lines self.now.by_bytes.entries → IsNoEnd lines name.now }
    {
        let (_, end) = name.split_at(name.len() - name.len().min(LONGEST));
        self.by_bytes.contains_key(end)
    }
}
