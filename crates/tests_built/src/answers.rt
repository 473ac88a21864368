//! What is told of a model and a plan.
ghost use Rattle.std.specs.Prelude.{◌≡◌, IfSome, length};
ghost use Rattle.hw_latency.specs.Latency.{AreLatencies};
ghost use Rattle.dg_model.specs.PlanOf.{IsPlanOf};

use crate::comparing::put_fault;
use crate::schedules::{put_path, put_slots};
use anyhow::Result;
use cmd_design::{checked_of, designed_of};
use dg_model::{Block, Checked, Resolved};
use dg_rules::resolve;
use fx_io::Longs;
use fx_tables::read_plan;
use hw_latency::{Latencies, latencies_of};
use hw_sched::{Sizing, depths, slots_of};
use std::alloc::Global;
use std::io::Write;
use tests_rows::write_result;

/// Tells the schedule as far as there is one, and then its size, or what the model and the plan lack.
pub fn answer<W: Write>(alloc: Global, model: &[u8], plan: &[u8], out: &mut W) -> Result<()> {
    put_found(alloc, model, plan, out)?;
    match designed_of(alloc, model, plan) {
        Ok(designed) => {
            let Sizing { storage, latency } = designed.planned.times.sizing;
            drop(designed);
            write_result(writeln!(out, "storage {storage} latency {latency}"))
        }
        Err(fault) => put_fault(fault, out),
    }
}

fn put_found<W: Write>(alloc: Global, model: &[u8], plan: &[u8], out: &mut W) -> Result<()> {
    match checked_of(alloc, model) {
        Ok(checked) => {
            let put = put_planned(alloc, &checked, plan, out);
            drop(checked);
            put
        }
        Err(_refusal) => Ok(()),
    }
}

fn put_planned<W: Write>(alloc: Global, checked: &Checked, plan: &[u8], out: &mut W) -> Result<()> {
    match resolved_of(alloc, checked, plan) {
        Some(plan) => {
            let put = put_times(alloc, checked, &plan, out);
            drop(plan);
            put
        }
        None => Ok(()),
    }
}

/// The plan of a text by the blocks of a diagram, where it is one and keeps its rule.
fn resolved_of(alloc: Global, checked: &Checked, text: &[u8]) -> Option<Resolved>
    ensures { IfSome result (IsPlanOf checked.now.diagram) }
{
    match read_plan(alloc, text) {
        Ok(plan) => {
            let resolved = resolve(alloc, checked, &plan);
            drop(plan);
            resolved.ok()
        }
        Err(_fault) => None,
    }
}

fn put_times<W: Write>(alloc: Global, checked: &Checked, plan: &Resolved, out: &mut W) -> Result<()>
    requires { IsPlanOf checked.now.diagram plan.now }
{
    match latencies_of(alloc, checked, plan) {
        Ok(latencies) => {
            let put = put_listed(alloc, checked, plan, &latencies, out);
            drop(latencies);
            put
        }
        Err(_fault) => Ok(()),
    }
}

fn put_listed<W: Write>(
    alloc: Global,
    checked: &Checked,
    plan: &Resolved,
    latencies: &Latencies,
    out: &mut W,
) -> Result<()>
    requires plan { IsPlanOf checked.now.diagram plan.now }
    requires latencies { AreLatencies checked.now.diagram plan.now latencies.now }
{
    let depths = depths(alloc, checked, plan)?;
    let put = list(
        alloc,
        checked.diagram().blocks.as_slice(),
        latencies,
        &depths,
        out,
    );
    drop(depths);
    put?;
    match slots_of(alloc, checked, latencies, plan) {
        Ok(slots) => {
            let put = put_slots(alloc, checked, plan, latencies.lat.as_slice(), &slots, out);
            drop(slots);
            put
        }
        Err(_fault) => Ok(()),
    }
}

fn list<W: Write>(
    alloc: Global,
    blocks: &[Block],
    latencies: &Latencies,
    depths: &Longs,
    out: &mut W,
) -> Result<()>
    requires lat { length latencies.now.lat ≡ length blocks.now }
    requires fed { length latencies.now.fed ≡ length blocks.now }
    requires depths { length depths.now ≡ length blocks.now }
{
    for place in 0..blocks.len() {
        put_path(alloc, &blocks[place].path, out)?;
        let lat = latencies.lat.as_slice()[place];
        let depth = depths.as_slice()[place];
        let fed = latencies.fed.as_slice()[place];
        write_numbers(lat, depth, fed, out)?;
    }
    Ok(())
}

fn write_numbers<W: Write>(lat: u64, depth: u64, fed: bool, out: &mut W) -> Result<()> {
    let mark = if fed { " fed" } else { "" };
    write_result(writeln!(out, " latency {lat} depth {depth}{mark}"))
}
