//! The clocks in which outputs show their numbers.

use anyhow::{Error, Result};
use cmd_design::Designed;
use dg_tables::output_blocks;
use hw_net::{NetPort, Netlist};
use std::alloc::Global;

/// When an output shows its numbers.
#[derive(Clone, Copy)]
pub struct Window {
    /// The net that it shows.
    pub net: u32,
    /// The base samples from one hit to the next.
    pub period: u32,
    /// The clock of its first frame.
    pub start: u64,
    /// The clock of a frame from which on it shows.
    pub ready: u64,
}

/// The sample whose number is to be seen at a clock of a frame that begins at `start`, if there is one.
pub fn sample_at(cycles: u32, period: u32, start: u64, ready: u64, clock: u64) -> Option<u64> {
    let since = clock.checked_sub(start)?;
    let length = u64::from(period).checked_mul(u64::from(cycles))?;
    if length == 0 || since % length < ready {
        return None;
    }
    (since / length).checked_mul(u64::from(period))
}

impl Window {
    /// The clock behind the frame of the last of so many samples.
    pub fn end(self, cycles: u32, samples: u64) -> Result<u64> {
        let Some(frames) = samples.checked_add(u64::from(self.period)) else {
            return Err(Error::msg("too many samples"));
        };
        let Some(length) = frames.checked_mul(u64::from(cycles)) else {
            return Err(Error::msg("too many clocks"));
        };
        match self.start.checked_add(length) {
            Some(end) => Ok(end),
            None => Err(Error::msg("too many clocks")),
        }
    }
}

/// The windows of a netlist's outputs, in order.
pub fn windows_of(alloc: Global, designed: &Designed, netlist: &Netlist) -> Result<Vec<Window>> {
    let blocks = output_blocks(alloc, &designed.checked)?;
    let mut windows = Vec::new(alloc);
    put_windows(designed, netlist.outputs(), blocks.as_slice(), &mut windows)?;
    Ok(windows)
}

/// Puts the windows of ports behind one another.
fn put_windows(
    designed: &Designed,
    ports: &[NetPort],
    blocks: &[u32],
    windows: &mut Vec<Window>,
) -> Result<()> {
    if ports.len() != blocks.len() {
        return Err(Error::msg("an output lacks a port"));
    }
    for (port, block) in ports.iter().zip(blocks.iter()) {
        windows.push(window_of(designed, port, *block)?)?;
    }
    Ok(())
}

fn window_of(designed: &Designed, port: &NetPort, block: u32) -> Result<Window> {
    let start = start_of(designed, block)?;
    let Some(ready) = port.latency.checked_sub(start) else {
        return Err(Error::msg("an output is declared too early"));
    };
    Ok(Window {
        net: port.net,
        period: port.period,
        start,
        ready,
    })
}

/// The clock of the first frame of a block.
fn start_of(designed: &Designed, block: u32) -> Result<u64> {
    let Some(lat) = designed
        .planned
        .times
        .latencies
        .lat
        .as_slice()
        .get(block as usize)
    else {
        return Err(Error::msg("an output has no latency"));
    };
    match lat.checked_mul(u64::from(designed.planned.resolved.cycles)) {
        Some(start) => Ok(start),
        None => Err(Error::msg("a latency is too great")),
    }
}
