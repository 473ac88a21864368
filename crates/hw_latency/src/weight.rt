ghost use Rattle.std.specs.Prelude.{◌≡◌, ◌<◌, ◌≤◌, length};
ghost use Rattle.dg_model.specs.Attributes.{attributes_of};
ghost use Rattle.dg_model.specs.Library.{row_of};
ghost use Rattle.hw_arcs.specs.Found.{most_gain};
ghost use Rattle.dg_model.specs.PlanOf.{IsPlanOf};
ghost use Rattle.hw_latency.specs.Weight.{arc_between as arc_between_of, behind};
ghost use Rattle.hw_latency.specs.Weight.{gain_into as gain_into_of, is_free as is_free_of};
ghost use Rattle.hw_latency.specs.Weight.{is_registered as is_registered_of};
ghost use Rattle.hw_latency.specs.Weight.{samples as samples_of, slack_into as slack_into_of};

use crate::block::block_at;
use dg_model::{Block, Checked, Kind, Reading, Resolved};
use dg_sort::reads_now;
use hw_arcs::Arc;

/// The base samples of a period, 0 where a value never changes.
pub fn samples(period: Option<u32>) -> u32
    ensures { result ≡ samples_of period }
{
    match period {
        None => 0,
        Some(period) => period,
    }
}

/// Whether a block stands in no enabled subsystem.
fn is_free(enable: Option<u32>) -> bool
    ensures { result ≡ is_free_of enable }
{
    match enable {
        None => true,
        Some(_) => false,
    }
}

/// Whether an edge into a block is registered, by its period and that of the source.
pub fn is_registered(block: &Block, own: u32, driver: u32) -> bool
    ensures { result ≡ is_registered_of block.now own driver }
{
    let is_now = reads_now(&block.kind, own < driver);
    is_free(block.enable) && !is_now
}

/// The base samples by which a block is behind what it reads.
fn samples_behind(kind: &Kind, own: u32, driver: u32) -> u64
    ensures { result
        ≡ behind (row_of kind.now).timing.reads (row_of kind.now).timing.delay own driver }
{
    let row = kind.row();
    match row.reads {
        Reading::Now => 0,
        Reading::Before => u64::from(row.delay) * u64::from(own),
        Reading::BeforeIfSlower => { if own < driver { u64::from(driver) } else { 0 } }
    }
}

/// What an edge gains: the source's registers and the reserve.
fn gain_into(is_registered: bool, is_fed: bool, stages: u32, period: u32) -> u64
    requires { stages ≤ 64 }
    ensures is { result ≡ gain_into_of is_registered is_fed stages period }
    ensures small { result ≤ most_gain }
{
    let registers = u64::from(stages) * u64::from(period);
    if is_registered {
        if is_fed {
            registers + u64::from(period)
        } else {
            registers + 1
        }
    } else {
        registers
    }
}

/// What the end of an edge makes up for.
fn slack_into(is_registered: bool, block: &Block, own: u32, driver: u32) -> u64
    ensures { result ≡ slack_into_of is_registered block.now own driver }
{
    if is_registered {
        samples_behind(&block.kind, own, driver)
    } else {
        0
    }
}

/// What an edge from a block to another asks of their latencies.
pub fn arc_between(checked: &Checked, plan: &Resolved, fed: &[bool], from: u32, to: u32) -> Arc
    requires plan { IsPlanOf checked.now.diagram plan.now }
    requires fed { length fed.now ≡ length checked.now.diagram.blocks }
    requires from { from < length checked.now.diagram.blocks }
    requires to { to < length checked.now.diagram.blocks }
    ensures is { result
        ≡ arc_between_of checked.now.diagram (attributes_of checked.now.diagram) plan.now fed.now
        from to }
    ensures from { result.from ≡ from }
    ensures to { result.to ≡ to }
    ensures small { result.gain ≤ most_gain }
{
    let Some(period) = checked.period(from) else {
        return Arc {
            from,
            to,
            counts: false,
            gain: 0,
            slack: 0,
        };
    };
    let end = checked.period(to);
    let own = samples(end);
    let block = block_at(checked, to);
    let registered = is_registered(block, own, period);
    let mark = fed[from as usize];
    let stages = plan.stages.as_slice()[from as usize];
    let gain = gain_into(registered, mark, stages, period);
    let slack = slack_into(registered, block, own, period);
    Arc {
        from,
        to,
        counts: true,
        gain,
        slack,
    }
}
