//! The entries of a sample in order.
ghost use Rattle.std.specs.Prelude.{◌≡◌, ◌≤◌, ◌<◌, ◌++◌, ◌∷◌, [], length, map, Some, slice_get, slice_set, IfOk, OnOk};
ghost use Rattle.math_list.specs.Numbers.{numbers_from};
ghost use Rattle.dg_model.specs.Attributes.{attributes_of};
ghost use Rattle.dg_model.specs.Solves.{shown_ports, shown_width};
ghost use Rattle.dg_tables.specs.Entries.{AreEntries, place_at};
ghost use Rattle.dg_tables.specs.Finding.{AreLines, Finds};
ghost use Rattle.dg_tables.specs.inner.Layout.{line_put, ArePut};

use crate::entries::{Place, Places};
use crate::reading::{Starts, ports_shown, width_shown};
use dg_model::{Block, Checked, Edge};
use fx_io::OutOfMemory;
use std::alloc::Global;

/// Puts the entries of a port behind the others.
fn put_entries(places: &mut Places, block: u32, port: u32, width: u32) -> Result<(), OutOfMemory>
    ensures { OnOk result (places.new
        ≡ places.old ++ map (place_at block port) (numbers_from 0 width)) }
{
    for element in 0..width {
        places.push(Place {
            block,
            port,
            element,
        })?;
    }
    Ok(())
}

/// Puts a port and its entries behind the others.
fn put_port(
    checked: &Checked,
    starts: &mut Starts,
    places: &mut Places,
    one: &Block,
    block: u32,
    port: u32,
) -> Result<(), OutOfMemory>
    requires lines { AreLines checked.now.diagram starts.old.lines.items }
    requires block { slice_get checked.now.diagram.blocks block ≡ Some one.now }
    requires from { 1 ≤ port }
    requires to { port ≤ shown_ports one.now.kind one.now.outputs }
    ensures lines { OnOk result (starts.new.lines.items ≡ starts.old.lines.items) }
    ensures ports { OnOk result (starts.new.ports.items ≡ starts.old.ports.items) }
    ensures entries { OnOk result (starts.new.entries.items
        ≡ starts.old.entries.items ++ length places.old ∷ []) }
    ensures places { OnOk result (places.new ≡ places.old ++ map (place_at block port)
        (numbers_from 0 (shown_width checked.now.diagram (attributes_of checked.now.diagram)
        one.now.kind block port))) }
{
    let width = width_shown(checked, starts, one, block, port);
    starts.entries.push(places.as_slice().len())?;
    put_entries(places, block, port, width)
}

/// Puts the ports of a block and their entries behind the others.
fn put_block(
    checked: &Checked,
    starts: &mut Starts,
    places: &mut Places,
    one: &Block,
    block: u32,
) -> Result<(), OutOfMemory>
    requires lines { AreLines checked.now.diagram starts.old.lines.items }
    requires block { slice_get checked.now.diagram.blocks block ≡ Some one.now }
    requires size { length starts.old.ports.items ≡ length checked.now.diagram.blocks }
    ensures lines { OnOk result (starts.new.lines.items ≡ starts.old.lines.items) }
    ensures ports { OnOk result (starts.new.ports.items
        ≡ slice_set starts.old.ports.items block (length starts.old.entries.items)) }
    ensures put { OnOk result (ArePut checked.now.diagram (attributes_of checked.now.diagram) block
        one.now (shown_ports one.now.kind one.now.outputs) starts.old.entries.items places.old
        starts.new.entries.items places.new) }
{
    starts.ports[block as usize] = starts.entries.as_slice().len();
    for i in 0..ports_shown(one) {
        put_port(checked, starts, places, one, block, i + 1)?;
    }
    Ok(())
}

/// Writes down the place of a line into a port 1.
fn put_line(firsts: &mut Vec<usize>, place: usize, edge: Edge)
    requires { edge.to < length firsts.old.items }
    ensures { firsts.new.items ≡ line_put firsts.old.items place edge }
{
    if edge.to_port == 1 {
        firsts[edge.to as usize] = place;
    }
}

/// Where the lines into each block begin; no port and no entry is put yet.
fn line_starts(alloc: Global, checked: &Checked) -> Result<Starts, OutOfMemory>
    ensures lines { IfOk result (λ starts. AreLines checked.now.diagram starts.lines.items) }
    ensures ports { IfOk result (λ starts.
        length starts.ports.items ≡ length checked.now.diagram.blocks) }
{
    checked.keeps_rules();
    let count = checked.diagram().blocks.as_slice().len();
    let ports: Vec<usize> = vec![in alloc; 0; count]?;
    let mut firsts: Vec<usize> = vec![in alloc; 0; count]?;
    for (place, edge) in checked.diagram().edges.as_slice().iter().enumerate() {
        put_line(&mut firsts, place, *edge);
    }
    Ok(Starts {
        lines: firsts,
        ports,
        entries: Vec::new(alloc),
    })
}

/// The entries of a sample in the order of the blocks, with what finds them.
///
/// # Errors
/// Want of memory, also where the count of all entries has no room in 32 bits.
pub fn lay_out(alloc: Global, checked: &Checked) -> Result<(Starts, Places), OutOfMemory>
    ensures entries { IfOk result (λ pair. AreEntries checked.now.diagram
        (attributes_of checked.now.diagram) pair.1) }
    ensures finds { IfOk result (λ pair. Finds checked.now pair.0 pair.1) }
{
    checked.keeps_rules();
    let mut starts = line_starts(alloc, checked)?;
    let mut places = Places::new(alloc);
    for block in checked.order() {
        let one = &checked.diagram().blocks.as_slice()[*block as usize];
        put_block(checked, &mut starts, &mut places, one, *block)?;
    }
    let Ok(_count) = u32::try_from(places.as_slice().len()) else {
        // word: rules name entries in 32 bits
        return Err(OutOfMemory);
    };
    Ok((starts, places))
}
