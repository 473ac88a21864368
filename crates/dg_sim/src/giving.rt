//! What the rule of a cell gives.
ghost use Rattle.std.specs.Prelude.{◌≡◌, ◌≤◌, ◌+◌, pos, int_lt, length, map, take, Some, if◌then◌else◌, IfSome};
ghost use Rattle.std.specs.List.{list_any};
ghost use Rattle.dg_model.specs.Hits.{is_hit};
ghost use Rattle.dg_model.specs.Operation.{CanCarryOut, OpGives};
ghost use Rattle.dg_sim.specs.Program.{value_at, operation_at, looked_at, kept_or, is_on, Gives, CanGive};
ghost use Rattle.dg_blocks.specs.Prepared.{IsPrepared};
ghost use Rattle.dg_sim.specs.Ready.{IsReadyFor};
ghost use Rattle.dg_sim.specs.Sim.{kept_at};

use crate::past::Past;
use crate::program::{Program, Rule, Work};
use crate::readying::call_of;
use dg_blocks::Prepared;

/// Whether a block of this period hits at a base sample.
pub fn hits(period: Option<u32>, t: u64) -> bool
    ensures { result ≡ is_hit period t }
{
    match period {
        None => t == 0,
        Some(every) => {
            if every == 1 {
                true
            } else if every == 0 {
                t == 0
            } else {
                t % u64::from(every) == 0
            }
        }
    }
}

/// The value at a place.
fn value_in(row: &[i128], at: usize) -> i128
    ensures { result ≡ value_at row.now at }
{
    match row.get(at) {
        Some(value) => *value,
        None => 0,
    }
}

/// The value of a cell.
pub fn read(row: &[i128], cell: u32) -> i128
    ensures { result ≡ value_at row.now cell }
{
    value_in(row, cell as usize)
}

/// Whether a control is on.
pub fn on(row: &[i128], control: Option<u32>) -> bool
    ensures { result ≡ is_on (value_at row.now) control }
{
    match control {
        None => true,
        Some(control) => read(row, control) == 1,
    }
}

/// The values of these cells, written to the front of a list.
fn gather(row: &[i128], args: &[u32], inputs: &mut [i128])
    requires { length args.now ≤ length inputs.old }
    ensures { take (length args.now) inputs.new ≡ map (value_at row.now) args.now }
{
    for (i, cell) in args.iter().enumerate() {
        inputs[i] = read(row, *cell);
    }
}

/// What an operation gives of these inputs. Its call is put together only where something asks for it.
fn operation_output(program: &Program, work: &Work, prepared: &Prepared, inputs: &[i128]) -> i128
    requires types { work.now.first + work.now.count ≤ length program.now.types }
    requires signs { work.now.first_sign + work.now.signs ≤ length program.now.signs }
    requires ready { IsPrepared prepared.now (operation_at program.now work.now) }
    requires can { CanCarryOut (operation_at program.now work.now) inputs.now }
    ensures { OpGives (operation_at program.now work.now) inputs.now result }
{
    if let Some(value) = prepared.alone(inputs) {
        return value;
    }
    prepared.output(&call_of(program, *work), inputs)
}

/// What an operation of one input gives of the value of its cell, where nothing of its call is needed.
fn output_of_one(program: &Program, work: &Work, prepared: &Prepared, row: &[i128]) -> Option<i128>
    requires one { work.now.count ≡ 1 }
    requires args { work.now.first + 1 ≤ length program.now.args }
    requires ready { IsPrepared prepared.now (operation_at program.now work.now) }
    requires can { CanCarryOut (operation_at program.now work.now)
        (looked_at program.now (value_at row.now) work.now.first 1) }
    ensures { IfSome result (λ value. OpGives (operation_at program.now work.now)
        (looked_at program.now (value_at row.now) work.now.first 1) value) }
{
    let cell = program.args.as_slice()[work.first as usize];
    prepared.alone(&[read(row, cell)])
}

/// What an operation gives.
fn work(
    program: &Program,
    work: &Work,
    prepared: &Prepared,
    row: &[i128],
    inputs: &mut [i128],
) -> i128
    requires inputs { 32 ≤ length inputs.old }
    requires few { work.now.count ≤ 32 }
    requires args { work.now.first + work.now.count ≤ length program.now.args }
    requires types { work.now.first + work.now.count ≤ length program.now.types }
    requires signs { work.now.first_sign + work.now.signs ≤ length program.now.signs }
    requires ready { IsPrepared prepared.now (operation_at program.now work.now) }
    requires can { CanCarryOut (operation_at program.now work.now)
        (looked_at program.now (value_at row.now) work.now.first work.now.count) }
    ensures { OpGives (operation_at program.now work.now)
        (looked_at program.now (value_at row.now) work.now.first work.now.count) result }
{
    let (first, count) = (work.first as usize, work.count as usize);
    if count == 1 {
        if let Some(value) = output_of_one(program, work, prepared, row) {
            return value;
        }
    }
    gather(row, &program.args.as_slice()[first..first + count], inputs);
    operation_output(program, work, prepared, &inputs[..count])
}

/// Whether one of these cells is above 0.
fn some_above(row: &[i128], args: &[u32]) -> bool
    ensures { result ≡ list_any (λ x. int_lt (pos 0) x) (map (value_at row.now) args.now) }
{
    args.iter()
        .map(|cell| read(row, *cell))
        .any(|value| value > 0)
}

/// What a memory keeps, or else an initial value.
fn memory_value(pasts: &[Past], memory: u32, age: u32, initial: i128) -> i128
    ensures { result ≡ kept_or (kept_at pasts.now memory) age initial }
{
    match pasts.get(memory as usize) {
        Some(past) => past.get(age as usize).unwrap_or(initial),
        None => initial,
    }
}

/// The value of a cell where a control is on, else another value.
fn read_where_on(row: &[i128], from: u32, control: u32, otherwise: i128) -> i128
    ensures { result ≡ (if is_on (value_at row.now) (Some control) then value_at row.now from
        else otherwise) }
{
    if on(row, Some(control)) {
        read(row, from)
    } else {
        otherwise
    }
}

/// What the rule of a cell gives in a sample.
pub fn give(
    program: &Program,
    rule: &Rule,
    prepared: &Prepared,
    t: u64,
    row: &[i128],
    pasts: &[Past],
    numbers: &[i128],
    inputs: &mut [i128],
) -> i128
    requires inputs { 32 ≤ length inputs.old }
    requires ready { IsReadyFor program.now prepared.now rule.now }
    requires can { CanGive program.now (value_at row.now) rule.now }
    ensures { Gives program.now (value_at row.now) (kept_at pasts.now) numbers.now t rule.now result }
{
    match rule {
        Rule::Input { column } => value_in(numbers, *column),
        Rule::Fixed { value } => *value,
        Rule::Same { from } => read(row, *from),
        Rule::Works { work: one } => work(program, one, prepared, row, inputs),
        Rule::Above { first, count } => {
            let (first, count) = (*first as usize, *count as usize);
            i128::from(some_above(row, &program.args.as_slice()[first..first + count]))
        }
        Rule::Past {
            memory,
            age,
            initial,
        } => memory_value(pasts, *memory, *age, *initial),
        Rule::Slower {
            memory,
            period,
            initial,
        } => {
            memory_value(
                pasts,
                *memory,
                if hits(*period, t) { 0 } else { 1 },
                *initial,
            )
        }
        Rule::Held {
            memory,
            from,
            control,
            initial,
        } => read_where_on(
            row,
            *from,
            *control,
            memory_value(pasts, *memory, 0, *initial),
        ),
        Rule::Reset {
            from,
            control,
            initial,
        } => read_where_on(row, *from, *control, *initial),
    }
}
