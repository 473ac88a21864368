//! Modules of netlists without ports and labels.
ghost use Rattle.std.specs.Prelude.{◌≡◌, true, All};
ghost use Rattle.hw_net.specs.Emittable.{IsEmittable};
ghost use Rattle.tests_hardware.specs.inner.NetTests.{IsCounted};

use anyhow::{Error, Result};
use fx_io::{OpenGate, Text};
use hw_net::{NetKind, Netlist};
use hw_run::is_netlist;
use hw_tidy::tidy;
use std::alloc::Global;
use std::io::Write;
use std::thread::Threads;
use tests_rows::{Row, write_result};
use vl_ast::Module;
use vl_emit::emit;
use vl_write::write;

fn is_counted(netlist: &Netlist, kind: &NetKind) -> bool
    ensures { result ≡ true → IsCounted netlist.now kind.now }
{
    match kind {
        NetKind::Reg { frame, .. } => netlist.counter_of(*frame).is_some(),
        NetKind::EnReg { frame, .. } => netlist.counter_of(*frame).is_some(),
        NetKind::Acc { frame, .. } => netlist.counter_of(*frame).is_some(),
        NetKind::Bridge { frame, .. } => netlist.counter_of(*frame).is_some(),
        NetKind::Comb { .. } | NetKind::Unit { .. } | NetKind::Counter { .. } => true,
    }
}

/// Whether there is a Counter of each frame that a register names.
fn has_counters(netlist: &Netlist) -> bool
    ensures { result ≡ true → All (λ net. IsCounted netlist.now net.kind) netlist.now.nets }
{
    netlist
        .nets()
        .iter()
        .all(|net| is_counted(netlist, &net.kind))
}

/// Whether a netlist has neither ports nor labels, and a Counter of each frame.
fn is_bare(netlist: &Netlist) -> bool
    ensures { result ≡ true → IsEmittable netlist.now }
{
    if netlist.cycles() > 1024 || !has_counters(netlist) {
        return false;
    }
    if !netlist.inputs().is_empty() || !netlist.outputs().is_empty() {
        return false;
    }
    netlist.labels().is_empty()
}

/// The netlist that the passes make of one.
pub fn tidied(alloc: Global, netlist: &Netlist) -> Result<Netlist> {
    if !is_netlist(alloc, netlist)? || !is_bare(netlist) {
        return Err(Error::msg("the netlist has no module"));
    }
    Ok(tidy(alloc, netlist)?)
}

fn module_of(alloc: Global, netlist: &Netlist) -> Result<Module> {
    if !is_netlist(alloc, netlist)? || !is_bare(netlist) {
        return Err(Error::msg("the netlist has no module"));
    }
    Ok(emit(alloc, netlist)?)
}

/// Prints how many items the module of a netlist has.
pub fn put_items<W: Write>(alloc: Global, netlist: &Netlist, out: &mut W) -> Result<()> {
    let module = module_of(alloc, netlist)?;
    let count = module.items.as_slice().len();
    drop(module);
    write_result(writeln!(out, "{count} items"))
}

fn text_of<R: Threads + Sync>(rt: &R, alloc: Global, netlist: &Netlist) -> Result<Text> {
    let module = module_of(alloc, netlist)?;
    let text = write(rt, alloc, &module, &OpenGate);
    drop(module);
    Ok(text?)
}

/// Prints the module of a netlist.
pub fn put_module<R: Threads + Sync, W: Write>(
    rt: &R,
    alloc: Global,
    netlist: &Netlist,
    out: &mut W,
) -> Result<()> {
    let text = text_of(rt, alloc, netlist)?;
    write_result(out.write_all(text.bytes()))
}

/// Prints the lines of a netlist's module that give a net its value.
pub fn put_spelled<R: Threads + Sync, W: Write>(
    rt: &R,
    alloc: Global,
    netlist: &Netlist,
    row: &mut Row<'_>,
    out: &mut W,
) -> Result<()> {
    let net = row.number()?;
    let text = text_of(rt, alloc, netlist)?;
    let begin = format!(in alloc; "assign fx_n{net} = ")?;
    put_lines(text.bytes(), begin.as_bytes(), out)
}

/// Prints the lines of a text that begin so.
fn put_lines<W: Write>(text: &[u8], begin: &[u8], out: &mut W) -> Result<()> {
    for line in text.split(|byte| *byte == b'\n') {
        if line.starts_with(begin) {
            out.write_all(line)?;
            out.write_all(b"\n")?;
        }
    }
    Ok(())
}
