ghost use Rattle.std.specs.Prelude.{◌≡◌, ◌<◌, ◌++◌, ◌∷◌, [], false, IfErr, IfOk, OnOk, length, map, option_map};
ghost use Rattle.vl_ast.specs.Conditions.{BreaksNone};
ghost use Rattle.vl_ast.specs.Driven.{output_ports};
ghost use Rattle.vl_check.specs.Cause.{IsCause};
ghost use Rattle.vl_check.specs.Ordering.{IsOrdering};
ghost use Rattle.vl_check.specs.Scope.{IsScopeOf, names_in};
ghost use Rattle.vl_eval.specs.Given.{driven_ports};
ghost use Rattle.vl_eval.specs.inner.PlaceBits.{IfFine};
ghost use Rattle.vl_eval.specs.inner.PlanOperations.{AreCaptured, AreNumbers, AreOperations, AreWired, IsChecked, IsPlan, IsPlanOf, assignment_at, output_of, slot_of_port, the_assignment};

use crate::adding::Additions;
use crate::arranging::{Arranged, arrange};
use crate::assigning::{build_assigned, build_next};
use crate::code::{Code, constants};
use crate::site::{Site, slot};
use fx_io::OutOfMemory;
use std::alloc::Global;
use vl_ast::{Expr, ModItem, Module, meaning_by_layer};
use vl_check::{
    Checked, Scope, VlFault, check, is_driven_input, is_number_output, is_stallable, net,
};

/// What a register takes at an edge: the value at a place, into its own.
#[derive(Clone, Copy)]
pub struct Capture {
    pub from: usize,
    pub to: usize,
}

/// Where an output port has its value, and how it is read.
#[derive(Clone, Copy)]
pub struct Output {
    pub slot: usize,
    pub width: u32,
    /// Whether the bits are read by two's complement.
    pub signed: bool,
}

/// The operations of a module, and where its names have their values: input ports and registers
/// below `base`, and each wire and output where its assignment's last operation has it.
#[derive(Drop)]
pub struct Plan {
    pub base: usize,
    pub arranged: Arranged,
    /// How many constants stand first among the operations.
    pub constants: usize,
    /// The places of the input ports but `clk`.
    pub inputs: Vec<usize>,
    pub outputs: Vec<Output>,
}

/// The numbers below a count.
fn numbers(alloc: Global, count: usize) -> Result<Vec<usize>, OutOfMemory>
    ensures { IfOk result (λ numbers. AreNumbers count numbers.items) }
{
    let mut numbers = Vec::new(alloc);
    for number in 0..count {
        numbers.push(number)?;
    }
    Ok(numbers)
}

/// What an item assigns to a name.
#[derive(Clone, Copy)]
struct Assignment<'a> {
    name: &'a [u8],
    value: &'a Expr,
}

/// The assignment at the place that a number has, if it has one.
fn assignment_of<'a>(
    source: &'a Module,
    places: &[Option<usize>],
    number: usize,
) -> Option<Assignment<'a>>
    ensures { option_map the_assignment result ≡ assignment_at source.now.items places.now number }
{
    let Some(place) = places.get(number) else {
        return None;
    };
    let Some(place) = *place else {
        return None;
    };
    match source.items.as_slice().get(place) {
        Some(ModItem::Assign { name, value }) => Some(Assignment {
            name: name.bytes(),
            value,
        }),
        _ => None,
    }
}

/// Adds the operations of the assignments, each behind those whose names it reads, and notes where
/// the names then have their values.
fn wires(
    ops: &mut Additions,
    slots: &mut Vec<usize>,
    scope: &Scope<'_>,
    source: &Module,
    order: &[usize],
    places: &[Option<usize>],
)
    requires sound { BreaksNone source.now }
    requires scope { IsScopeOf source.now scope.now }
    requires order { IsOrdering source.now scope.now order.now places.now }
    requires numbers { AreNumbers (length (names_in scope.now)) slots.old.items }
    requires none { ops.old.code ≡ [] }
    ensures { IfFine ops.old ops.new (AreWired source.now scope.now slots.new.items ops.new.code) }
{
    meaning_by_layer();
    for number in order {
        let Some(Assignment { name, value }) = assignment_of(source, places, *number) else {
            continue;
        };
        let width = net(scope, name).length;
        let site = Site {
            scope,
            slots: slots.as_slice(),
            base: scope.count(),
        };
        let slot = build_assigned(ops, &site, value, width);
        slots[*number] = slot;
    }
}

/// Puts what a register takes behind the others.
fn put_capture(ops: &mut Additions, captures: &mut Vec<Capture>, capture: Capture)
    ensures code { ops.new.code ≡ ops.old.code }
    ensures put { IfFine ops.old ops.new (captures.new.items ≡ captures.old.items ++ capture ∷ []) }
{
    if let Err(_refused) = captures.push(capture) {
        ops.wanting = true;
    }
}

/// Adds the operations of what the registers take at an edge, and puts into an empty list what that
/// is.
fn captures(ops: &mut Additions, site: &Site<'_, '_>, source: &Module, captures: &mut Vec<Capture>)
    requires sound { BreaksNone source.now }
    requires scope { IsScopeOf source.now site.now.scope.now }
    requires base { site.now.base ≡ length (names_in site.now.scope.now) }
    requires wired { ops.old.wanting ≡ false → AreWired source.now site.now.scope.now
        site.now.slots.now ops.old.code }
    requires none { captures.old.items ≡ [] }
    ensures { IfFine ops.old ops.new (AreCaptured source.now site.now.scope.now site.now.slots.now
        source.now.items ops.old.code ops.new.code captures.new.items) }
{
    meaning_by_layer();
    for item in source.items.as_slice() {
        if let ModItem::Always {
            name,
            first,
            condition,
            value,
        } = item
        {
            let from = build_next(ops, site, name.bytes(), first, condition, value);
            let to = slot(site, name.bytes());
            put_capture(ops, captures, Capture { from, to });
        }
    }
}

/// Puts the places of the input ports but `clk`, and where the output ports that carry numbers have
/// their values, in order, into empty lists.
fn put_ports(
    site: &Site<'_, '_>,
    source: &Module,
    inputs: &mut Vec<usize>,
    outputs: &mut Vec<Output>,
) -> Result<(), OutOfMemory>
    requires inputs { inputs.old.items ≡ [] }
    requires outputs { outputs.old.items ≡ [] }
    ensures inputs { OnOk result (inputs.new.items
        ≡ map (slot_of_port site.now.scope.now site.now.slots.now) (driven_ports source.now)) }
    ensures outputs { OnOk result (outputs.new.items
        ≡ map (output_of site.now.scope.now site.now.slots.now) (output_ports source.now)) }
{
    let stalls = is_stallable(source);
    for port in source.ports.as_slice() {
        if is_driven_input(port) {
            inputs.push(slot(site, port.name.bytes()))?;
        }
        if is_number_output(port, stalls) {
            outputs.push(Output {
                slot: slot(site, port.name.bytes()),
                width: port.width,
                signed: port.signed | (port.width == 128),
            })?;
        }
    }
    Ok(())
}

/// Puts the operations of the assignments and the registers of a module where there are none.
fn fill(
    source: &Module,
    checked: &Checked<'_>,
    ops: &mut Additions,
    slots: &mut Vec<usize>,
    captured: &mut Vec<Capture>,
)
    requires checked { IsChecked source.now checked.now }
    requires ops { ops.old.code ≡ [] }
    requires slots { AreNumbers (length (names_in checked.now.scope)) slots.old.items }
    requires captures { captured.old.items ≡ [] }
    ensures { IfFine ops.old ops.new (AreOperations source.now checked.now.scope
        (record { ops = ops.new.code; slots = slots.new; captures = captured.new })) }
{
    let scope = &checked.scope;
    let order = checked.order.as_slice();
    let places = checked.places.as_slice();
    wires(ops, slots, scope, source, order, places);
    let site = Site {
        scope,
        slots: slots.as_slice(),
        base: scope.count(),
    };
    captures(ops, &site, source, captured);
}

/// The operations of the assignments and the registers of a module, by level and kind.
fn arranged_in(
    alloc: Global,
    source: &Module,
    checked: &Checked<'_>,
) -> Result<Arranged, OutOfMemory>
    requires { IsChecked source.now checked.now }
    ensures { IfOk result (AreOperations source.now checked.now.scope) }
{
    meaning_by_layer();
    let base = checked.scope.count();
    let mut slots = numbers(alloc, base)?;
    let mut additions = Additions {
        code: Code::new(alloc),
        wanting: false,
    };
    let mut captures = Vec::new(alloc);
    fill(source, checked, &mut additions, &mut slots, &mut captures);
    let Additions { code, wanting } = additions;
    let built = Arranged {
        ops: code,
        slots,
        captures,
    };
    if wanting {
        drop(built);
        // allocation: that of the operation or the list at which it first failed
        return Err(OutOfMemory);
    }
    arrange(alloc, base, built)
}

/// The operations of a module that breaks no condition.
fn plan_in(alloc: Global, source: &Module, checked: &Checked<'_>) -> Result<Plan, OutOfMemory>
    requires { IsChecked source.now checked.now }
    ensures { IfOk result (IsPlan source.now checked.now.scope) }
{
    let base = checked.scope.count();
    let arranged = arranged_in(alloc, source, checked)?;
    let constants = constants(&arranged.ops);
    let mut plan = Plan {
        base,
        arranged,
        constants,
        inputs: Vec::new(alloc),
        outputs: Vec::new(alloc),
    };
    let site = Site {
        scope: &checked.scope,
        slots: plan.arranged.slots.as_slice(),
        base,
    };
    match put_ports(&site, source, &mut plan.inputs, &mut plan.outputs) {
        Ok(()) => Ok(plan),
        Err(wanting) => {
            drop(plan);
            Err(wanting)
        }
    }
}

/// Tries the six conditions, and works out the operations of a module that breaks none.
pub fn plan_of(alloc: Global, source: &Module) -> Result<Plan, VlFault>
    ensures planned { IfOk result (IsPlanOf source.now) }
    ensures fault { IfErr result (IsCause source.now) }
{
    let checked = check(alloc, source)?;
    match plan_in(alloc, source, &checked) {
        Ok(plan) => {
            drop(checked);
            Ok(plan)
        }
        Err(wanting) => {
            drop(checked);
            Err(wanting.into())
        }
    }
}
