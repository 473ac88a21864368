ghost use Rattle.std.specs.Prelude.{◌≡◌, ◌<◌, ◌^◌, All, Contains, IfOk, filter, length, true};
ghost use Rattle.vl_ast.specs.declared.modules.Port.{Port};
ghost use Rattle.vl_ast.specs.Conditions.{BreaksNone, is_width};
ghost use Rattle.vl_ast.specs.Driven.{output_ports, stimulus_ports};
ghost use Rattle.vl_eval.specs.Machine.{source_of};
ghost use Rattle.vl_replay.specs.Columns.{column_of, columns_of};
ghost use Rattle.vl_replay.specs.inner.Samplers.{carries};

use fx_io::{OutOfMemory, Sequence};
use fx_tables::{Column, Columns};
use std::alloc::Global;
use vl_ast::{Port, mask_of, step_of};
use vl_check::{carries, is_stallable};
use vl_eval::Machine;

/// The columns of a stimulus and of its response (own).
#[derive(Drop)]
pub struct PortColumns {
    /// One for each input port that carries numbers.
    pub inputs: Columns,
    /// One for each output port that carries numbers.
    pub outputs: Columns,
}

/// No table has so many columns.
const MOST_COLUMNS: usize = 4_294_967_296;

/// The period of a port and the range of its numbers: two's complement where it is signed or has
/// 128 bits.
fn column(port: &Port) -> Column
    requires { is_width port.now.width ≡ true }
    ensures column { result ≡ column_of port.now }
    ensures period { 0 < result.period }
{
    let width = port.width;
    let period = step_of(port);
    let greatest = mask_of(width);
    if port.signed || width == 128 {
        let high = (greatest / 2) as i128;
        Column {
            low: !high,
            high,
            period,
        }
    } else {
        Column {
            low: 0,
            high: greatest as i128,
            period,
        }
    }
}

/// The columns of the inputs that carry numbers, or else of the outputs, in order.
fn columns_where(
    alloc: Global,
    ports: &[Port],
    stalls: bool,
    inputs: bool,
) -> Result<Columns, OutOfMemory>
    requires { (port : Port) → Contains ports.now port → is_width port.width ≡ true }
    ensures columns { IfOk result (λ columns.
        columns ≡ columns_of (filter (carries inputs stalls) ports.now)) }
    ensures periods { IfOk result (All (λ column. 0 < column.period)) }
    ensures few { IfOk result (λ columns. length columns < 2 ^ 32) }
{
    let mut columns = Sequence::new(alloc);
    for port in ports {
        if carries(port, stalls, inputs) {
            columns.push(column(port))?;
        }
    }
    if columns.as_slice().len() >= MOST_COLUMNS {
        // word: columns are numbered in 32 bits
        return Err(OutOfMemory);
    }
    Ok(columns)
}

/// The columns of a machine's stimulus and response, in the order of its ports.
///
/// # Errors
/// Want of memory, or of numbers for the ports where these are 2^32 and more.
pub fn columns(alloc: Global, machine: &Machine) -> Result<PortColumns, OutOfMemory>
    requires sound { BreaksNone (source_of machine.now) }
    ensures inputs { IfOk result (λ columns.
        columns.inputs ≡ columns_of (stimulus_ports (source_of machine.now))) }
    ensures outputs { IfOk result (λ columns.
        columns.outputs ≡ columns_of (output_ports (source_of machine.now))) }
    ensures input_periods { IfOk result (λ columns.
        All (λ column. 0 < column.period) columns.inputs) }
    ensures few_inputs { IfOk result (λ columns. length columns.inputs < 2 ^ 32) }
    ensures few_outputs { IfOk result (λ columns. length columns.outputs < 2 ^ 32) }
    ensures output_periods { IfOk result (λ columns.
        All (λ column. 0 < column.period) columns.outputs) }
{
    let source = machine.module();
    let ports = source.ports.as_slice();
    let stalls = is_stallable(source);
    let inputs = columns_where(alloc, ports, stalls, true)?;
    let outputs = columns_where(alloc, ports, stalls, false)?;
    Ok(PortColumns { inputs, outputs })
}
