ghost use Rattle.std.specs.Prelude.{◌≡◌, IfOk, length, true};
ghost use Rattle.vl_ast.specs.Conditions.{is_width};
ghost use Rattle.vl_ast.specs.Control.{is_stallable};
ghost use Rattle.vl_ast.specs.Value.{bits_of};
ghost use Rattle.vl_eval.specs.Given.{driven_ports};
ghost use Rattle.vl_replay.specs.Sampled.{numbers_of};
ghost use Rattle.vl_replay.specs.inner.Drivers.{AreBits, AreWithin, IsWithin, driver_bits, drivers_from, is_own, own_driver, reset_bits};

use crate::samplers::hit_at;
use fx_io::OutOfMemory;
use fx_tables::Rows;
use std::alloc::Global;
use vl_ast::{Module, Port, mask_of, step_of};
use vl_check::{is_driven_input, is_stallable};

/// How an input port but `clk` is driven.
#[derive(Clone, Copy)]
pub enum Driver {
    /// By 1 in the row before clock 0, and else by 0.
    Reset,
    /// By 0 before clock 0, and else by 1.
    Enable,
    /// By a column of the stimulus.
    Column { place: u32, period: u32, width: u32 },
}

/// Whether the port is `reset`, or `clk_enable` of a module that stalls.
fn is_own(port: &Port, stalls: bool) -> bool
    ensures { result ≡ is_own stalls port.now }
{
    let name = port.name.bytes();
    (stalls && name == b"clk_enable".as_slice()) || name == b"reset".as_slice()
}

/// How such a port is driven.
fn own_driver(port: &Port) -> Driver
    ensures { result ≡ own_driver port.now }
{
    if port.name.bytes() == b"reset".as_slice() {
        Driver::Reset
    } else {
        Driver::Enable
    }
}

/// How the input ports of a module but `clk` are driven, in order.
///
/// # Errors
/// Want of memory, also of numbers for the columns where these are 2^32 and more.
pub fn drivers_of(alloc: Global, source: &Module) -> Result<Vec<Driver>, OutOfMemory>
    ensures { IfOk result (λ drivers. drivers.items
        ≡ drivers_from (is_stallable source.now) 0 (driven_ports source.now)) }
{
    let stalls = is_stallable(source);
    let mut drivers = Vec::new(alloc);
    let mut place: u32 = 0;
    for port in source.ports.as_slice() {
        if is_driven_input(port) {
            if is_own(port, stalls) {
                drivers.push(own_driver(port))?;
            } else {
                let Some(next) = place.checked_add(1) else {
                    // word: columns are numbered in 32 bits
                    return Err(OutOfMemory);
                };
                drivers.push(Driver::Column {
                    place,
                    period: step_of(port),
                    width: port.width,
                })?;
                place = next;
            }
        }
    }
    Ok(drivers)
}

/// The bits of a number in a width, by two's complement.
fn bits_of(number: i128, width: u32) -> u128
    requires { is_width width ≡ true }
    ensures { result ≡ bits_of width number }
{
    number.cast_unsigned() & mask_of(width)
}

/// The bits of an input port at the clocks of a sample.
fn driven_bits(driver: Driver, stimulus: &Rows, sample: u64) -> u128
    requires { IsWithin stimulus.now.columns driver }
    ensures { result ≡ driver_bits (numbers_of stimulus.now) stimulus.now.lines sample driver }
{
    match driver {
        Driver::Reset => 0,
        Driver::Enable => 1,
        Driver::Column {
            place,
            period,
            width,
        } => {
            let sample = hit_at(period, sample);
            if sample < stimulus.count() {
                bits_of(stimulus.get(sample, place), width)
            } else {
                0
            }
        }
    }
}

/// The bits of an input port in the row with `reset`.
fn reset_bits(driver: Driver) -> u128
    ensures { result ≡ reset_bits driver }
{
    match driver {
        Driver::Reset => 1,
        Driver::Enable | Driver::Column { .. } => 0,
    }
}

/// Puts the bits of the row with `reset`.
pub fn put_reset(drivers: &[Driver], bits: &mut [u128])
    requires { length bits.old ≡ length drivers.now }
    ensures { AreBits reset_bits drivers.now (length drivers.now) bits.new }
{
    for k in 0..drivers.len() {
        bits[k] = reset_bits(drivers[k]);
    }
}

/// Puts the bits at the clocks of a sample.
pub fn put_bits(drivers: &[Driver], stimulus: &Rows, sample: u64, bits: &mut [u128])
    requires long { length bits.old ≡ length drivers.now }
    requires within { AreWithin stimulus.now.columns drivers.now }
    ensures { AreBits (driver_bits (numbers_of stimulus.now) stimulus.now.lines sample) drivers.now
        (length drivers.now) bits.new }
{
    for k in 0..drivers.len() {
        bits[k] = driven_bits(drivers[k], stimulus, sample);
    }
}
