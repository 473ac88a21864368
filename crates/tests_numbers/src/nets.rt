//! An operation as a number and as nets.
ghost use Rattle.std.specs.Prelude.{◌≡◌, ℕ, true, length, slice_get, Some};
ghost use Rattle.fx_type.specs.declared.kind.FxType.{FxType};
ghost use Rattle.fx_type.specs.FxType.{width_of, is_signed};
ghost use Rattle.dg_model.specs.Operation.{operation_of, CanCarryOut};
ghost use Rattle.hw_net.specs.Netlist.{HasWord};
ghost use Rattle.hw_lower.specs.Lowered.{AreArgs};

use anyhow::{Error, Result};
use dg_blocks::{Prepared, output};
use dg_model::OpCall;
use fx_io::{Sizes, Text};
use fx_type::FxType;
use hw_lower::lower;
use hw_net::{Net, NetKind, NetOp, NetPort, Netlist};
use hw_run::{NetState, is_netlist};
use std::alloc::Global;

/// What an operation gives, what it gives prepared, what its nets show, and how many these are.
#[derive(Clone, Copy)]
pub struct Answer {
    pub value: i128,
    pub prepared: i128,
    pub shown: i128,
    pub nets: usize,
}

/// What an operation gives of these inputs, as a number and as nets.
pub fn operation_answer(alloc: Global, call: &OpCall, inputs: &[i128]) -> Result<Answer>
    requires { CanCarryOut (operation_of call.now) inputs.now }
{
    let value = output(call, inputs);
    let prepared = Prepared::new(call).output(call, inputs);
    let mut net = Netlist::new(alloc, 1);
    let shown = shown_in(alloc, &mut net, call, inputs);
    let nets = net.nets().len().saturating_sub(inputs.len());
    drop(net);
    Ok(Answer {
        value,
        prepared,
        shown: shown?,
        nets,
    })
}

/// What the nets of an operation show, which are put into an empty netlist behind its inputs.
fn shown_in(alloc: Global, net: &mut Netlist, call: &OpCall, inputs: &[i128]) -> Result<i128>
    requires { CanCarryOut (operation_of call.now) inputs.now }
{
    let mut args = Vec::new(alloc);
    put_inputs(alloc, net, call.types, &mut args)?;
    lowered_value(alloc, net, call, args.as_slice(), inputs)
}

/// Puts an input of each type into the netlist, and gives the numbers of their nets.
fn put_inputs(
    alloc: Global,
    net: &mut Netlist,
    types: &[FxType],
    args: &mut Vec<u32>,
) -> Result<()> {
    for kind in types {
        put_input(alloc, net, *kind, args)?;
    }
    Ok(())
}

fn put_input(alloc: Global, net: &mut Netlist, kind: FxType, args: &mut Vec<u32>) -> Result<()> {
    let Ok(input) = u32::try_from(args.len()) else {
        return Err(Error::msg("too many inputs"));
    };
    let number = net.add(input_of(alloc, input, kind))?;
    args.push(number)?;
    let name = Text::copy(alloc, b"in")?;
    net.add_input(NetPort {
        name,
        net: number,
        period: 1,
        latency: 0,
    })?;
    Ok(())
}

/// What the nets of an operation show, where their arguments have these numbers.
fn lowered_value(
    alloc: Global,
    net: &mut Netlist,
    call: &OpCall,
    args: &[u32],
    inputs: &[i128],
) -> Result<i128>
    requires { CanCarryOut (operation_of call.now) inputs.now }
{
    if !are_args(net, call.types, args) {
        return Err(Error::msg("an input lacks its net"));
    }
    let number = lower(alloc, net, call, args)?;
    shown_value(alloc, net, number, inputs)
}

/// The net of an input.
fn input_of(alloc: Global, input: u32, kind: FxType) -> Net {
    let args = Sizes::new(alloc);
    Net {
        signed: kind.is_signed(),
        width: kind.width(),
        kind: NetKind::Comb {
            op: NetOp::Input(input),
            args,
        },
    }
}

/// Whether a net has the word of a type.
fn is_of(net: &Net, kind: FxType) -> bool
    ensures wide { result ≡ true → net.now.width ≡ width_of kind }
    ensures sign { result ≡ true → net.now.signed ≡ is_signed kind }
{
    net.width == kind.width() && net.signed == kind.is_signed()
}

/// Whether the net of a number is there with the word of a type.
fn has_word(nets: &[Net], number: u32, kind: FxType) -> bool
    ensures { result ≡ true → HasWord nets.now number (width_of kind) (is_signed kind) }
{
    match nets.get(number as usize) {
        Some(net) => is_of(net, kind),
        None => false,
    }
}

/// Whether the nets of the numbers have the words of the types.
fn have_words(nets: &[Net], types: &[FxType], args: &[u32]) -> bool
    requires { length args.now ≡ length types.now }
    ensures { result ≡ true → (input number : ℕ) (type : FxType)
        → slice_get args.now input ≡ Some number → slice_get types.now input ≡ Some type
        → HasWord nets.now number (width_of type) (is_signed type) }
{
    for k in 0..types.len() {
        if !has_word(nets, args[k], types[k]) {
            return false;
        }
    }
    true
}

/// Whether there is a net for each type, of its word.
fn are_args(net: &Netlist, types: &[FxType], args: &[u32]) -> bool
    ensures { result ≡ true → AreArgs net.now types.now args.now }
{
    if args.len() != types.len() {
        return false;
    }
    have_words(net.nets(), types, args)
}

/// What a net shows of these inputs in the first clock.
fn shown_value(alloc: Global, net: &Netlist, number: u32, inputs: &[i128]) -> Result<i128> {
    let sound = is_netlist(alloc, net)?;
    if !sound {
        return Err(Error::msg("the netlist can't be run"));
    }
    if net.inputs().len() != inputs.len() {
        return Err(Error::msg("an input is not there"));
    }
    if net.nets().len() <= number as usize {
        return Err(Error::msg("the result is not there"));
    }
    let mut state = NetState::new(alloc, net)?;
    state.step(net, inputs);
    Ok(state.value(number))
}
