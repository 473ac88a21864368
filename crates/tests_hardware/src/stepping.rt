//! What nets show, clock by clock.
ghost use Rattle.std.specs.Prelude.{◌≡◌, ◌<◌, length};
ghost use Rattle.hw_net.specs.Netlist.{IsNetlist};
ghost use Rattle.hw_run.specs.State.{IsStateOf};

use anyhow::{Error, Result};
use hw_net::Netlist;
use hw_run::{NetState, is_netlist};
use std::alloc::Global;
use std::io::Write;
use tests_rows::{Row, write_result};

/// Prints what a net shows in the clocks that a row tells, where the inputs are these one behind
/// another.
pub fn put_shown<W: Write>(
    alloc: Global,
    net: &Netlist,
    inputs: &[i128],
    number: u32,
    row: &mut Row<'_>,
    out: &mut W,
) -> Result<()> {
    let clocks = row.number()?;
    let first = row.number()? as usize;
    let step = row.number()?.max(1) as usize;
    let values = values_of(alloc, net, inputs, number, clocks)?;
    for value in values.iter().skip(first).step_by(step) {
        write!(out, "{value} ")?;
    }
    write_result(out.write_all(b"\n"))
}

/// What a net shows in the first clocks.
fn values_of(
    alloc: Global,
    net: &Netlist,
    inputs: &[i128],
    number: u32,
    clocks: u32,
) -> Result<Vec<i128>> {
    if !is_netlist(alloc, net)? {
        return Err(Error::msg("the netlist can't be run"));
    }
    if net.nets().len() <= number as usize {
        return Err(Error::msg("no net"));
    }
    let mut state = NetState::new(alloc, net)?;
    let mut values = Vec::new(alloc);
    let put = put_values(net, inputs, number, clocks, &mut state, &mut values);
    drop(state);
    put?;
    Ok(values)
}

/// Puts what a net shows in the first clocks behind one another.
fn put_values(
    net: &Netlist,
    inputs: &[i128],
    number: u32,
    clocks: u32,
    state: &mut NetState,
    values: &mut Vec<i128>,
) -> Result<()>
    requires netlist { IsNetlist net.now }
    requires there { number < length net.now.nets }
    requires state { IsStateOf net.now state.old }
    requires begun { state.old.clocks ≡ 0 }
{
    let mut left = inputs;
    for _clock in 0..clocks {
        if left.len() < net.inputs().len() {
            return Err(Error::msg("too few inputs"));
        }
        let (now, behind) = left.split_at(net.inputs().len());
        state.step(net, now);
        values.push(state.value(number))?;
        left = behind;
    }
    Ok(())
}
