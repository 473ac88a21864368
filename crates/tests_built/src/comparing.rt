//! What is printed of a model by a plan.
ghost use Rattle.dg_model.specs.PlanOf.{IsPlanOf};
ghost use Rattle.hw_net.specs.Emittable.{IsEmittable};
ghost use Rattle.hw_net.specs.Netlist.{IsNetlist};
ghost use Rattle.hw_rules.specs.Times.{AreTimes};

use crate::designs::{Simulated, simulate};
use crate::stepping::{Tally, tallies_of};
use crate::windows::windows_of;
use anyhow::{Error, Result};
use cmd_design::{DesignFault, Designed, designed_of};
use hw_build::build;
use hw_net::{Net, NetKind, Netlist};
use hw_run::is_netlist;
use hw_tidy::tidy;
use std::alloc::Global;
use std::io::Write;
use tests_rows::write_result;

/// What is asked of a netlist.
#[derive(Clone, Copy)]
pub enum Asked<'a> {
    /// What it shows under a stimulus, as it is built and as it is tidied.
    Run(&'a [u8]),
    /// How many registers and Counters it has.
    Held,
    /// How many nets it has, and how many it has when it is tidied.
    Tidied,
}

/// Prints the rule that a model by a plan breaks, or what is asked of its netlist.
pub fn put_comparison<W: Write>(
    alloc: Global,
    model: &[u8],
    plan: &[u8],
    asked: Asked<'_>,
    out: &mut W,
) -> Result<()> {
    match designed_of(alloc, model, plan) {
        Ok(designed) => {
            let put = put_designed(alloc, &designed, asked, out);
            drop(designed);
            put
        }
        Err(fault) => put_fault(fault, out),
    }
}

fn put_designed<W: Write>(
    alloc: Global,
    designed: &Designed,
    asked: Asked<'_>,
    out: &mut W,
) -> Result<()>
    requires plan { IsPlanOf designed.now.checked.diagram designed.now.planned.resolved }
    requires times { AreTimes designed.now.checked.diagram designed.now.planned.resolved
        designed.now.planned.times }
{
    let plan = &designed.planned;
    match build(
        alloc,
        &designed.checked,
        &plan.resolved,
        &plan.times.latencies,
        &plan.times.slots,
    ) {
        Ok(netlist) => {
            let put = put_built(alloc, designed, &netlist, asked, out);
            drop(netlist);
            put
        }
        Err(_fault) => Err(Error::msg("no netlist")),
    }
}

fn put_built<W: Write>(
    alloc: Global,
    designed: &Designed,
    netlist: &Netlist,
    asked: Asked<'_>,
    out: &mut W,
) -> Result<()>
    requires runs { IsNetlist netlist.now }
    requires emittable { IsEmittable netlist.now }
{
    let tidied = tidy(alloc, netlist)?;
    let put = put_netlists(alloc, designed, netlist, &tidied, asked, out);
    drop(tidied);
    put
}

fn put_netlists<W: Write>(
    alloc: Global,
    designed: &Designed,
    netlist: &Netlist,
    tidied: &Netlist,
    asked: Asked<'_>,
    out: &mut W,
) -> Result<()> {
    if !is_netlist(alloc, netlist)? || !is_netlist(alloc, tidied)? {
        return Err(Error::msg("a netlist can't be run"));
    }
    match asked {
        Asked::Run(stimulus) => put_run(alloc, designed, netlist, tidied, stimulus, out),
        Asked::Held => put_held(netlist, out),
        Asked::Tidied => put_sizes(netlist, tidied, out),
    }
}

fn put_run<W: Write>(
    alloc: Global,
    designed: &Designed,
    netlist: &Netlist,
    tidied: &Netlist,
    stimulus: &[u8],
    out: &mut W,
) -> Result<()>
    requires built { IsNetlist netlist.now }
    requires tidied { IsNetlist tidied.now }
{
    let simulated = simulate(alloc, &designed.checked, stimulus)?;
    let put = put_simulated(alloc, designed, netlist, tidied, &simulated, out);
    drop(simulated);
    put
}

/// Prints what the netlist of a design shows beside a simulation, as it is built, and where it shows
/// something else when it is tidied, that too.
fn put_simulated<W: Write>(
    alloc: Global,
    designed: &Designed,
    netlist: &Netlist,
    tidied: &Netlist,
    simulated: &Simulated,
    out: &mut W,
) -> Result<()>
    requires built { IsNetlist netlist.now }
    requires tidied { IsNetlist tidied.now }
{
    put_inputs(netlist, out)?;
    let tallies = shown_of(alloc, designed, netlist, simulated)?;
    put_outputs(netlist, tallies.as_slice(), out)?;
    let others = shown_of(alloc, designed, tidied, simulated)?;
    if tallies == others {
        return Ok(());
    }
    out.write_all(b"tidied\n")?;
    put_outputs(tidied, others.as_slice(), out)
}

/// What each output of a netlist of a design showed beside a simulation.
fn shown_of(
    alloc: Global,
    designed: &Designed,
    netlist: &Netlist,
    simulated: &Simulated,
) -> Result<Vec<Tally>>
    requires { IsNetlist netlist.now }
{
    let windows = windows_of(alloc, designed, netlist)?;
    tallies_of(alloc, simulated, netlist, windows.as_slice())
}

/// Prints how many nets a netlist has before and after.
fn put_sizes<W: Write>(netlist: &Netlist, tidied: &Netlist, out: &mut W) -> Result<()> {
    let nets = netlist.nets().len();
    let left = tidied.nets().len();
    let held = held_of(tidied.nets());
    write_result(writeln!(out, "nets {nets} tidied {left} held {held}"))
}

/// Prints how many registers and Counters a netlist has.
fn put_held<W: Write>(netlist: &Netlist, out: &mut W) -> Result<()> {
    let held = held_of(netlist.nets());
    write_result(writeln!(out, "held {held}"))
}

fn held_of(nets: &[Net]) -> usize {
    let mut held = 0usize;
    for net in nets {
        match &net.kind {
            NetKind::Comb { .. } | NetKind::Unit { .. } => {}
            NetKind::Reg { .. }
            | NetKind::EnReg { .. }
            | NetKind::Acc { .. }
            | NetKind::Bridge { .. }
            | NetKind::Counter { .. } => held = held.wrapping_add(1),
        }
    }
    held
}

/// Prints the line of what a model and a plan lack.
pub fn put_fault<W: Write>(fault: DesignFault, out: &mut W) -> Result<()> {
    match fault {
        DesignFault::NotMdl { line } => write_result(writeln!(out, "line {line}")),
        DesignFault::BreaksRule { line } => {
            let put = out.write_all(line.bytes());
            drop(line);
            write_result(put)
        }
        DesignFault::BadPlan { line, cause } => {
            write_result(writeln!(out, "plan line {line}: {cause}"))
        }
        DesignFault::OutOfMemory => Err(Error::msg("out of memory")),
    }
}

/// Prints the names of the input ports.
fn put_inputs<W: Write>(netlist: &Netlist, out: &mut W) -> Result<()> {
    for port in netlist.inputs() {
        out.write_all(b"input ")?;
        out.write_all(port.name.bytes())?;
        out.write_all(b"\n")?;
    }
    Ok(())
}

/// Prints what was counted of each output port.
fn put_outputs<W: Write>(netlist: &Netlist, tallies: &[Tally], out: &mut W) -> Result<()> {
    for (port, tally) in netlist.outputs().iter().zip(tallies.iter()) {
        out.write_all(port.name.bytes())?;
        let latency = port.latency;
        let Tally { equal, seen } = *tally;
        writeln!(out, " latency {latency} equal {equal} of {seen}")?;
    }
    Ok(())
}
