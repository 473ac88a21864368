ghost use Rattle.std.specs.Prelude.{◌≡◌, ◌<◌, ◌≤◌, ◌^◌, true, IfErr, IfOk, IfSome, length, slice_get};
ghost use Rattle.vl_ast.specs.declared.modules.Port.{Port};
ghost use Rattle.vl_ast.specs.Conditions.{BreaksNone};
ghost use Rattle.vl_ast.specs.Driven.{output_ports, port_number};
ghost use Rattle.vl_ast.specs.Steps.{IsEdge, IsFirstRow};
ghost use Rattle.vl_ast.specs.Value.{number_of};
ghost use Rattle.vl_check.specs.Cause.{IsCause};
ghost use Rattle.vl_eval.specs.Given.{driven_ports, given};
ghost use Rattle.vl_eval.specs.inner.Edges.{IsFirst};
ghost use Rattle.vl_eval.specs.inner.Moves.{IsWatch};
ghost use Rattle.vl_eval.specs.inner.Ops.{IsOrdered};

use crate::operators::half_of;
use crate::plan::{Output, Plan, plan_of};
use crate::watching::{Watch, move_on, watch_of};
use fx_io::OutOfMemory;
use std::alloc::Global;
use vl_ast::{Module, mask_of, meaning_by_layer};
use vl_check::VlFault;

/// A module that breaks no condition, in one row of its run (IEEE 1364-2005, 6.1 and 9.2.2). It makes the
/// room for a row once.
#[derive(Drop)]
pub struct Machine {
    source: Module,
    plan: Plan,
    /// The values of the input ports and registers, and then of the operations.
    values: Vec<u128>,
    watch: Option<Watch>,
}

/// The values of a machine in a row of its run.
#[derive(Drop)]
pub struct Snapshot {
    values: Vec<u128>,
}

/// The values of row 0: those of the operations, where every register and input is 0.
fn first_values(alloc: Global, plan: &Plan) -> Result<Vec<u128>, OutOfMemory>
    requires { IsOrdered plan.now.base plan.now.arranged.ops }
    ensures { IfOk result (λ values. IsFirst plan.now.base plan.now.arranged.ops values.items) }
{
    let Some(room) = plan.base.checked_add(plan.arranged.ops.len()) else {
        // word: words and operations are counted in 64 bits
        return Err(OutOfMemory);
    };
    let mut values = vec![in alloc; 0u128; room]?;
    plan.arranged.ops.sweep(plan.base, 0, values.as_mut_slice());
    Ok(values)
}

/// The number of a word, by two's complement where it is signed.
fn number_in(bits: u128, width: u32, signed: bool) -> i128
    requires most { width ≤ 128 }
    requires fits { bits < 2 ^ width }
    requires wide { width ≡ 128 → signed ≡ true }
    ensures { result ≡ number_of (record { width = width; signed = signed; bits = bits }) }
{
    if signed && bits >= half_of(width) {
        -((mask_of(width) - bits) as i128) - 1
    } else {
        bits as i128
    }
}

/// What a machine begins with.
#[derive(Drop)]
struct Start {
    values: Vec<u128>,
    watch: Option<Watch>,
}

/// The values of row 0, and a watch.
fn begin(alloc: Global, plan: &Plan) -> Result<Start, OutOfMemory>
    requires { IsOrdered plan.now.base plan.now.arranged.ops }
    ensures values { IfOk result (λ start. IsFirst plan.now.base plan.now.arranged.ops
        start.values.items) }
    ensures watch { IfOk result (λ start. IfSome start.watch (IsWatch plan.now)) }
{
    let values = first_values(alloc, plan)?;
    let watch = watch_of(alloc, plan)?;
    Ok(Start { values, watch })
}

impl Machine {
    ghost use Rattle.vl_ast.specs.Runs.{Row};
    ghost use Rattle.vl_eval.specs.Machine.{AreFit, HasRoom, HasValues, IsKept, IsReady, row_of, source_of};
    ghost use Rattle.vl_eval.specs.declared.machine.Snapshot.{Snapshot};

    /// A machine in row 0 of its module, in which every register and input is 0. The time is linear in
    /// the module, but for the lengths of operands of operators, casts and choices, which are worked
    /// out at each depth (own).
    ///
    /// # Errors
    /// The first of the six conditions that the module breaks, or want of memory.
    pub fn new(alloc: Global, source: Module) -> Result<Machine, VlFault>
        ensures sound { IfOk result (λ machine. BreaksNone source) }
        ensures source { IfOk result (λ machine. source_of machine ≡ source) }
        ensures row { IfOk result (λ machine. IsFirstRow source (λ name. 0)
            (λ name. 0) (row_of machine)) }
        ensures ready { IfOk result IsReady }
        ensures fault { IfErr result (IsCause source) }
    {
        meaning_by_layer();
        let plan = match plan_of(alloc, &source) {
            Ok(plan) => plan,
            Err(fault) => {
                source.discard();
                return Err(fault);
            }
        };
        match begin(alloc, &plan) {
            Ok(Start { values, watch }) => Ok(Machine {
                source,
                plan,
                values,
                watch,
            }),
            Err(wanting) => {
                drop(plan);
                source.discard();
                Err(wanting.into())
            }
        }
    }

    /// One edge of `clk`: the registers take their next values from the present row, and the next row
    /// follows from them and from the bits of each input port but `clk`. It takes no memory.
    pub fn edge(&mut self, inputs: &[u128])
        requires ready { IsReady self.old }
        requires fit { AreFit (driven_ports (source_of self.old)) inputs.now }
        ensures row { IsEdge (source_of self.old) (row_of self.old)
            (given (driven_ports (source_of self.old)) inputs.now) (row_of self.new) }
        ensures source { source_of self.new ≡ source_of self.old }
        ensures ready { IsReady self.new }
        ensures kept { (snapshot : Snapshot) (row : Row) → IsKept self.old snapshot row
            → IsKept self.new snapshot row }
    {
        meaning_by_layer();
        move_on(
            &self.plan,
            &mut self.watch,
            inputs,
            self.values.as_mut_slice(),
        );
    }

    /// A snapshot of the row.
    ///
    /// # Errors
    /// Want of memory.
    pub fn snapshot(&self, alloc: Global) -> Result<Snapshot, OutOfMemory>
        requires ready { IsReady self.now }
        ensures { IfOk result (λ snapshot. IsKept self.now snapshot (row_of self.now)) }
    {
        let mut values = vec![in alloc; 0u128; self.values.len()]?;
        values
            .as_mut_slice()
            .copy_from_slice(self.values.as_slice());
        Ok(Snapshot { values })
    }

    /// Makes of an earlier snapshot one of the row. It takes no memory.
    pub fn keep(&self, snapshot: &mut Snapshot)
        requires ready { IsReady self.now }
        requires room { HasRoom self.now snapshot.old }
        ensures { IsKept self.now snapshot.new (row_of self.now) }
    {
        snapshot
            .values
            .as_mut_slice()
            .copy_from_slice(self.values.as_slice());
    }

    /// Whether the machine has the values of a snapshot, and so is in its row.
    pub fn is_at(&self, snapshot: &Snapshot) -> bool
        ensures at { result ≡ true → (row : Row) → IsKept self.now snapshot.now row
            → row ≡ row_of self.now }
        ensures same { HasValues self.now snapshot.now → result ≡ true }
    {
        self.values.as_slice() == snapshot.values.as_slice()
    }

    /// The number that an output port shows, by its place among those that carry numbers.
    pub fn port(&self, place: usize) -> i128
        requires ready { IsReady self.now }
        requires within { place < length (output_ports (source_of self.now)) }
        ensures { (port : Port) → slice_get (output_ports (source_of self.now)) place ≡ Some port
            → result ≡ port_number port (row_of self.now port.name) }
    {
        meaning_by_layer();
        let Output {
            slot,
            width,
            signed,
        } = self.plan.outputs[place];
        let bits = self.values[slot];
        number_in(bits, width, signed)
    }

    /// Frees the machine with its module, so that crates above needn't prove how.
    pub fn discard(self) {
        let Machine {
            source,
            plan,
            values,
            watch,
        } = self;
        drop(plan);
        drop(values);
        drop(watch);
        source.discard();
    }

    /// The module that it was made with.
    pub fn module(&self) -> &Module
        ensures { result.now ≡ source_of self.now }
    {
        &self.source
    }
}
