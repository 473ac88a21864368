//! The nets of a plan.
ghost use Rattle.std.specs.Prelude.{◌≡◌, ◌≤◌, ◌<◌, length, All, IfOk, OnOk};
ghost use Rattle.dg_model.specs.Operation.{operation_of, CanPrepare};
ghost use Rattle.hw_lower.specs.Lowered.{AreArgs, CanTotal, IsLowered, IsTotalled, Lowers};
ghost use Rattle.hw_lower.specs.inner.PlanSteps.{reads_of};
ghost use Rattle.hw_lower.specs.inner.Spread.{BeginsWith};
ghost use Rattle.hw_lower.specs.inner.PlanNets.{AreNumbers, AreNets, CanPut, net_by};

use crate::plan::{Plan, Step, finish, put_alone, word_of};
use crate::planning::{plan_operation, plan_total};
use dg_model::OpCall;
use fx_io::{OutOfMemory, Sequence, Sizes};
use fx_type::FxType;
use hw_net::{Net, NetKind, NetOp, Netlist, arity};
use std::alloc::Global;

/// The net of a step, where the numbers of the steps before are known.
fn net_of(alloc: Global, step: Step, numbers: &[u32]) -> Result<Net, OutOfMemory>
    requires { All (λ read. read < length numbers.now) (reads_of step) }
    ensures { IfOk result (λ net. net ≡ net_by numbers.now step) }
{
    let places = [step.first, step.second, step.third];
    let reads = &places[..arity(step.op)];
    let mut args = Sizes::new(alloc);
    for place in reads {
        args.push(numbers[*place as usize])?;
    }
    Ok(Net {
        signed: step.word.signed,
        width: step.word.width,
        kind: NetKind::Comb { op: step.op, args },
    })
}

/// The inputs of an operation, as a plan begins.
fn inputs_of(alloc: Global, types: &[FxType]) -> Plan
    requires { length types.now ≤ 32 }
    ensures { BeginsWith result types.now (length types.now) }
{
    let mut plan = Plan {
        steps: Sequence::new(alloc),
        wanting: false,
    };
    for (input, kind) in types.iter().enumerate() {
        let _ = put_alone(&mut plan, NetOp::Input(input as u32), word_of(*kind));
    }
    plan
}

/// Puts the nets of the steps behind the arguments into the netlist, and tells the numbers of all.
fn put_nets(
    alloc: Global,
    net: &mut Netlist,
    steps: &[Step],
    args: &[u32],
) -> Result<Vec<u32>, OutOfMemory>
    requires { CanPut net.old steps.now args.now }
    ensures numbers { IfOk result (λ numbers.
        AreNumbers args.now (length net.old.nets) (length steps.now) numbers.items) }
    ensures nets { OnOk result (AreNets net.old net.new args.now steps.now (length steps.now)) }
{
    let mut numbers = Vec::new(alloc);
    numbers.extend_from_slice(args)?;
    for place in args.len()..steps.len() {
        let step = steps[place];
        let one = net_of(alloc, step, numbers.as_slice())?;
        let number = net.add(one)?;
        numbers.push(number)?;
    }
    Ok(numbers)
}

/// Puts a block element into the netlist: the nets of an operation on others, behind those that
/// are there, and gives the number of the one that has its result. In the rows of every later
/// netlist that keeps these nets, it shows what the operation gives of what its arguments show, at
/// each clock at which these are in the ranges of their types (`IsLowered`). No net but operations
/// is put in, and one Multiply at most, at a place that is told (`Lowers`). Where memory is wanting
/// the netlist is of no more use. Source: own.
pub fn lower(
    alloc: Global,
    net: &mut Netlist,
    call: &OpCall,
    args: &[u32],
) -> Result<u32, OutOfMemory>
    requires args { AreArgs net.old call.now.types.now args.now }
    requires can { CanPrepare (operation_of call.now) }
    ensures lowers { OnOk result (Lowers net.old net.new (operation_of call.now) args.now) }
    ensures lowered { IfOk result (λ number.
        IsLowered net.old net.new (operation_of call.now) args.now number) }
{
    let mut plan = inputs_of(alloc, call.types);
    let result = plan_operation(&mut plan, call);
    let steps = finish(plan)?;
    let numbers = put_nets(alloc, net, steps.as_slice(), args)?;
    Ok(numbers[result.place as usize])
}

/// Puts a Sum into the netlist, of which some inputs are given as they are, and sums of the others in
/// the word of its full type: terms with signs and types of their own. In the rows of every later
/// netlist that keeps these nets, the net that is told shows what the Sum gives of any values whose
/// exact sum is that of the terms, modulo 2 to the width of the full type (`IsTotalled`). Where
/// memory is wanting the netlist is of no more use. Source: own.
pub fn lower_total(
    alloc: Global,
    net: &mut Netlist,
    call: &OpCall,
    full: FxType,
    signs: &[bool],
    types: &[FxType],
    args: &[u32],
) -> Result<u32, OutOfMemory>
    requires args { AreArgs net.old types.now args.now }
    requires can { CanTotal (operation_of call.now) full signs.now types.now }
    ensures lowers { OnOk result (Lowers net.old net.new (operation_of call.now) args.now) }
    ensures totalled { IfOk result (λ number. IsTotalled net.old net.new (operation_of call.now)
        full signs.now types.now args.now number) }
{
    let mut plan = inputs_of(alloc, types);
    let result = plan_total(&mut plan, call, full, signs, types);
    let steps = finish(plan)?;
    let numbers = put_nets(alloc, net, steps.as_slice(), args)?;
    Ok(numbers[result.place as usize])
}
