ghost use Rattle.std.specs.Prelude.{◌≡◌, ◌<◌, [], All, IfOk, OnOk, length, replicate};
ghost use Rattle.dg_model.specs.Wired.{IsWired};
ghost use Rattle.dg_rates.specs.inner.Links.{AreTied, AreSources};
ghost use Rattle.fx_io.specs.Rows.{noted, row_at};

use dg_model::Diagram;
use fx_io::{OutOfMemory, Sequence, Sizes, empty_rows, push_at};
use std::alloc::Global;

/// What each block reads, in order of its ports and then its control, and which blocks read it,
/// itself among them.
#[derive(Drop)]
pub struct Links {
    pub sources: Sequence<Sizes>,
    pub readers: Sequence<Sizes>,
    pub ghost tied: { AreTied (length sources) (length sources) sources readers },
}

/// A block reads a source.
fn link(
    sources: &mut Vec<Sizes>,
    readers: &mut Vec<Sizes>,
    reader: u32,
    source: u32,
) -> Result<(), OutOfMemory>
    requires reader { reader < length sources.old.items }
    requires source { source < length readers.old.items }
    ensures sources { OnOk result
        (sources.new.items ≡ noted sources.old.items reader source) }
    ensures readers { OnOk result
        (readers.new.items ≡ noted readers.old.items source reader) }
{
    push_at(sources, reader, source)?;
    push_at(readers, source, reader)?;
    Ok(())
}

/// Puts the links of a diagram: along its edges, from each block to itself, and from the control of
/// an enabled subsystem to each block in it.
fn put_links(
    diagram: &Diagram,
    sources: &mut Vec<Sizes>,
    readers: &mut Vec<Sizes>,
) -> Result<(), OutOfMemory>
    requires wired { IsWired diagram.now }
    requires sources { sources.old.items ≡ replicate (length diagram.now.blocks) [] }
    requires readers { readers.old.items ≡ replicate (length diagram.now.blocks) [] }
    ensures tied { OnOk result (AreTied (length diagram.now.blocks)
        (length diagram.now.blocks) sources.new.items readers.new.items) }
    ensures sources { OnOk result (AreSources diagram.now sources.new.items) }
{
    let edges = diagram.edges.as_slice();
    let blocks = diagram.blocks.as_slice();
    for edge in edges {
        link(sources, readers, edge.to, edge.from)?;
    }
    for (place, block) in blocks.iter().enumerate() {
        push_at(readers, place as u32, place as u32)?;
        if let Some(control) = block.enable {
            link(sources, readers, place as u32, control)?;
        }
    }
    Ok(())
}

impl Links {
    /// The links of a diagram.
    pub fn of(alloc: Global, diagram: &Diagram) -> Result<Links, OutOfMemory>
        requires { IsWired diagram.now }
        ensures size { IfOk result (λ links. length links.sources ≡ length diagram.now.blocks) }
        ensures sources { IfOk result (λ links. AreSources diagram.now links.sources) }
    {
        let count = diagram.blocks.as_slice().len();
        let mut sources: Vec<Sizes> = empty_rows(alloc, count)?;
        let mut readers: Vec<Sizes> = empty_rows(alloc, count)?;
        put_links(diagram, &mut sources, &mut readers)?;
        Ok(Links {
            sources: Sequence::from_vec(sources),
            readers: Sequence::from_vec(readers),
        })
    }

    /// The blocks that a block reads.
    pub fn sources_of(&self, block: u32) -> &[u32]
        requires { block < length self.now.sources }
        ensures value { result.now ≡ row_at self.now.sources block }
        ensures there { All (λ source. source < length self.now.sources) result.now }
    {
        self.sources.as_slice()[block as usize].as_slice()
    }
}
