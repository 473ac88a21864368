ghost use Rattle.std.specs.Prelude.{◌≡◌, ◌+◌, ◌^◌, ◌<◌, length, All, IfOk};
ghost use Rattle.hw_net.specs.Netlist.{IsNetlist};
ghost use Rattle.hw_run.specs.inner.StepTests.{CanStep};
ghost use Rattle.hw_run.specs.State.{State, IsStateOf, row_of};
ghost use Rattle.hw_order.specs.Order.{IsOrder};
ghost use Rattle.hw_net.specs.Step.{Goes};

use crate::stepping::net_value;
use fx_io::OutOfMemory;
use hw_net::Netlist;
use hw_order::order_of;
use std::alloc::Global;
use std::marker::Model;
use std::mem;

/// A run of a netlist as it stands (own): how many clocks were made, and what each net shows in the
/// last of them.
#[derive(Drop)]
pub struct NetState {
    clocks: u64,
    row: Vec<i128>,
    spare: Vec<i128>,
    order: Vec<u32>,
}

impl Model for NetState {
    ghost use Rattle.std.specs.Prelude.{◌≡◌, length};
    ghost use Rattle.hw_run.specs.State.{State};

    ghost Value = { State };

    ghost view = { λ state.
        record { clocks = state.clocks; values = state.row.items; order = state.order.items } };

    ghost invariant = { λ state. length state.spare.items ≡ length state.row.items };
}

/// One sweep: what each net shows at a clock, from the row of the clock before.
fn sweep(net: &Netlist, order: &[u32], clock: u64, now: &[i128], next: &mut [i128], inputs: &[i128])
    requires netlist { IsNetlist net.now }
    requires can { All (λ one. CanStep (length net.now.inputs) one.kind) net.now.nets }
    requires order { IsOrder net.now.nets order.now }
    requires now { length now.now ≡ length net.now.nets }
    requires next { length next.old ≡ length net.now.nets }
    requires inputs { length inputs.now ≡ length net.now.inputs }
    ensures { Goes net.now clock (row_of inputs.now) (row_of now.now) (row_of next.new) }
{
    let nets = net.nets();
    let cycles = net.cycles();
    for place in order {
        let k = *place as usize;
        let value = net_value(&nets[k], cycles, clock, now[k], now, next, inputs);
        next[k] = value;
    }
}

impl NetState {
    /// One clock more. From `new` it is clock 0. It takes no memory.
    pub fn step(&mut self, net: &Netlist, inputs: &[i128])
        requires netlist { IsNetlist net.now }
        requires state { IsStateOf net.now self.old }
        requires room { self.old.clocks < 2 ^ 63 }
        requires inputs { length inputs.now ≡ length net.now.inputs }
        ensures state { IsStateOf net.now self.new }
        ensures clocks { self.new.clocks ≡ self.old.clocks + 1 }
        ensures goes { Goes net.now self.old.clocks (row_of inputs.now) (row_of self.old.values)
            (row_of self.new.values) }
    {
        sweep(
            net,
            self.order.as_slice(),
            self.clocks,
            self.row.as_slice(),
            self.spare.as_mut_slice(),
            inputs,
        );
        mem::swap(&mut self.row, &mut self.spare);
        self.clocks += 1;
    }

    /// What a net shows in the last clock that was made.
    pub fn value(&self, net: u32) -> i128
        requires made { 0 < self.now.clocks }
        requires there { net < length self.now.values }
        ensures { result ≡ row_of self.now.values net }
    {
        self.row[net as usize]
    }
}

impl NetState {
    /// A run before its first clock.
    pub fn new(alloc: Global, net: &Netlist) -> Result<NetState, OutOfMemory>
        requires { IsNetlist net.now }
        ensures state { IfOk result (λ state. IsStateOf net.now state) }
        ensures clocks { IfOk result (λ state. state.clocks ≡ 0) }
    {
        let order = order_of(alloc, net)?;
        let count = net.nets().len();
        let row: Vec<i128> = vec![in alloc; 0; count]?;
        let spare: Vec<i128> = vec![in alloc; 0; count]?;
        Ok(NetState {
            clocks: 0,
            row,
            spare,
            order,
        })
    }
}
