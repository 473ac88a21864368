//! A netlist stepped clock by clock beside a simulation.
ghost use Rattle.std.specs.Prelude.{◌≤◌};
ghost use Rattle.hw_net.specs.Netlist.{IsNetlist};

use crate::designs::Simulated;
use crate::windows::{Window, sample_at};
use anyhow::{Error, Result};
use hw_net::Netlist;
use hw_run::NetState;
use std::alloc::Global;

/// How many numbers an output showed in its windows, and how many of them were equal to those of the
/// simulation.
#[derive(Clone, Copy, PartialEq, Eq)]
pub struct Tally {
    pub equal: u64,
    pub seen: u64,
}

/// No run has so many clocks.
const MOST_CLOCKS: u64 = 1_048_576;

impl Tally {
    /// The tally with a number more, where one is expected.
    fn with(self, value: i128, expected: Option<i128>) -> Tally {
        let Some(expected) = expected else {
            return self;
        };
        Tally {
            equal: self.equal.saturating_add(u64::from(value == expected)),
            seen: self.seen.saturating_add(1),
        }
    }
}

/// The number that an output is to show at a clock, where this is in the window of a hit.
fn expected_number(
    simulated: &Simulated,
    cycles: u32,
    place: usize,
    window: Window,
    clock: u64,
) -> Option<i128> {
    let Window {
        net: _,
        period,
        start,
        ready,
    } = window;
    simulated.shown_at(sample_at(cycles, period, start, ready, clock)?, place)
}

/// Steps a netlist for so many clocks, and counts what the output of a place shows.
fn tally_of(
    alloc: Global,
    simulated: &Simulated,
    netlist: &Netlist,
    place: usize,
    window: Window,
    clocks: u64,
) -> Result<Tally>
    requires netlist { IsNetlist netlist.now }
    requires few { clocks ≤ 1048576 }
{
    let mut tally = Tally { equal: 0, seen: 0 };
    if window.net as usize >= netlist.nets().len() {
        return Err(Error::msg("an output has no net"));
    }
    let mut state = NetState::new(alloc, netlist)?;
    for clock in 0..clocks {
        let numbers = simulated.inputs_at(alloc, netlist.cycles(), clock)?;
        if numbers.len() != netlist.inputs().len() {
            return Err(Error::msg("an input lacks a port"));
        }
        state.step(netlist, numbers.as_slice());
        let expected = expected_number(simulated, netlist.cycles(), place, window, clock);
        tally = tally.with(state.value(window.net), expected);
    }
    Ok(tally)
}

/// What each output of a netlist showed in its windows.
pub fn tallies_of(
    alloc: Global,
    simulated: &Simulated,
    netlist: &Netlist,
    windows: &[Window],
) -> Result<Vec<Tally>>
    requires netlist { IsNetlist netlist.now }
{
    let mut tallies = Vec::new(alloc);
    for (place, window) in windows.iter().enumerate() {
        let clocks = window.end(netlist.cycles(), simulated.samples())?;
        if clocks > MOST_CLOCKS {
            return Err(Error::msg("too many clocks"));
        }
        tallies.push(tally_of(alloc, simulated, netlist, place, *window, clocks)?)?;
    }
    Ok(tallies)
}
