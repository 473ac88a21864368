ghost use Rattle.std.specs.Prelude.{◌≡◌, ◌≤◌, ◌<◌, All, IfErr, IfOk, length};
ghost use Rattle.cmd_design.specs.Design.{IsDesignOf};
ghost use Rattle.cmd_design.specs.Refused.{IsDesigned, IsRefusedDesign};
ghost use Rattle.cmd_model.specs.Model.{IsModelOf};
ghost use Rattle.cmd_sample.specs.ModelText.{sample_model};
ghost use Rattle.cmd_sample.specs.Numbers.{greatest_sample};
ghost use Rattle.cmd_sample.specs.Stimulus.{sample_plan, sample_stimulus};
ghost use Rattle.fx_top.specs.Call.{stream_in};
ghost use Rattle.fx_top.specs.Sampled.{EndsSample, HasSampleCause, HasSampleWritten};
ghost use Rattle.fx_top.specs.Summarized.{IsSampleResponse, IsSummaryOf, latency_of_output};
ghost use Rattle.cmd_generate.specs.Generating.{IsPlanOn};
ghost use Rattle.fx_top.specs.inner.SampleFaults.{AreOutputs, IsOwed, IsSampleFault};
ghost use Rattle.hw_rules.specs.Times.{AreTimes, timing_in};

use crate::answer::Answer;
use crate::parts::put_text;
use cmd_check::clocks_of;
use cmd_design::{DesignFault, Designed, designed_of};
use cmd_generate::text_of;
use cmd_sample::{Bench, Made, model_text, plan_text, stimulus_text, summary};
use cmd_simulate::{response_text, simulation_in};
use dg_model::Checked;
use dg_tables::output_blocks;
use fx_io::{OutOfMemory, Sink, Text};
use fx_tables::TableFault;
use hw_rules::{Planned, multiplications};
use std::alloc::Global;
use std::thread::Threads;

/// Why a sample has no summary.
#[derive(Drop)]
pub enum SampleFault {
    /// Its model, or its plan on the model's diagram, breaks a rule, which this line tells.
    BreaksRule { line: Text },
    /// Memory is wanting.
    OutOfMemory,
}

impl From<OutOfMemory> for SampleFault {
    ghost use Rattle.std.specs.Prelude.{◌≡◌};
    ghost use Rattle.fx_top.specs.declared.sample.SampleFault.TheVariants.{OutOfMemory};

    ghost from_gives = { λ _ fault. fault ≡ OutOfMemory };

    fn from(_refused: OutOfMemory) -> SampleFault {
        SampleFault::OutOfMemory
    }
}

/// When the output at a place of a list shows its first number, in clocks; 0 where there is none.
fn latency_at(
    checked: &Checked,
    planned: &Planned,
    outputs: &[u32],
    place: usize,
) -> Result<u64, OutOfMemory>
    requires times { AreTimes checked.now.diagram planned.now.resolved planned.now.times }
    requires listed { AreOutputs checked.now.diagram outputs.now }
    requires there { All (λ block. block < length checked.now.diagram.blocks) outputs.now }
    ensures { IfOk result (λ clocks. clocks ≡ latency_of_output checked.now.diagram
        planned.now.resolved (timing_in planned.now.times) place) }
{
    match outputs.get(place) {
        Some(block) => clocks_of(checked, planned, *block),
        None => Ok(0),
    }
}

/// What the module of a design says of itself.
fn made_of(alloc: Global, checked: &Checked, planned: &Planned) -> Result<Made, OutOfMemory>
    requires { IsPlanOn checked.now.diagram planned.now }
    ensures { IfOk result (IsOwed checked.now.diagram planned.now.resolved
        (timing_in planned.now.times)) }
{
    checked.keeps_rules();
    dg_model::root_elements_are_listed();
    let owed = multiplications(checked, &planned.resolved, &planned.times)?;
    let outputs = output_blocks(alloc, checked)?;
    let out = latency_at(checked, planned, outputs.as_slice(), 0);
    let slow = latency_at(checked, planned, outputs.as_slice(), 1);
    drop(outputs);
    Ok(Made {
        multiplications: owed,
        out_latency: out?,
        slow_latency: slow?,
    })
}

/// What the module of a sample is compared with: the response of its diagram, and no bytes where the
/// stimulus doesn't fit the diagram's columns.
fn sample_response(alloc: Global, checked: &Checked, number: u32) -> Result<Text, SampleFault>
    requires few { number ≤ greatest_sample }
    requires model { IsModelOf (sample_model number) checked.now.diagram }
    ensures made { IfOk result (IsSampleResponse number) }
    ensures refused { IfErr result (IsSampleFault number) }
{
    let stimulus = stimulus_text(alloc, number)?;
    let simulation = match simulation_in(alloc, checked, stimulus.bytes()) {
        Ok(simulation) => simulation,
        Err(TableFault::Bad { .. }) => {
            drop(stimulus);
            return Ok(Text::new());
        }
        Err(TableFault::OutOfMemory) => {
            drop(stimulus);
            return Err(SampleFault::OutOfMemory);
        }
    };
    drop(stimulus);
    let lines = response_text(alloc, checked, simulation)?;
    Ok(lines)
}

/// Why the texts of a sample make no design.
fn fault_of_design(number: u32, fault: DesignFault) -> SampleFault
    requires few { number ≤ greatest_sample }
    requires cause { IsRefusedDesign (sample_model number) sample_plan fault }
    ensures { IsSampleFault number result }
{
    cmd_sample::models_stand();
    cmd_sample::plan_is_good();
    match fault {
        DesignFault::NotMdl { .. } => unreachable!(),
        DesignFault::BadPlan { .. } => unreachable!(),
        DesignFault::BreaksRule { line } => SampleFault::BreaksRule { line },
        DesignFault::OutOfMemory => SampleFault::OutOfMemory,
    }
}

/// The design of a sample.
fn sample_design(alloc: Global, number: u32) -> Result<Designed, SampleFault>
    requires { number ≤ greatest_sample }
    ensures designed { IfOk result (IsDesigned (sample_model number) sample_plan) }
    ensures on { IfOk result (λ designed. IsPlanOn designed.checked.diagram designed.planned) }
    ensures refused { IfErr result (IsSampleFault number) }
{
    let model = model_text(alloc, number)?;
    match designed_of(alloc, model.bytes(), plan_text()) {
        Ok(designed) => Ok(designed),
        Err(fault) => Err(fault_of_design(number, fault)),
    }
}

/// The summary of a design of a sample, by what a bench tells of its module.
fn summary_by<R: Threads + Sync, B: Bench>(
    rt: &R,
    alloc: Global,
    number: u32,
    checked: &Checked,
    planned: &Planned,
    bench: &mut B,
) -> Result<Text, SampleFault>
    requires few { number ≤ greatest_sample }
    requires design { IsDesignOf (sample_model number) sample_plan checked.now.diagram
        planned.now.resolved (timing_in planned.now.times) }
    requires on { IsPlanOn checked.now.diagram planned.now }
    ensures made { IfOk result (IsSummaryOf B.may_tell number (B.tells bench.new)) }
    ensures refused { IfErr result (IsSampleFault number) }
{
    let made = made_of(alloc, checked, planned)?;
    let response = match sample_response(alloc, checked, number) {
        Ok(response) => response,
        Err(fault) => return Err(fault),
    };
    let verilog = match text_of(rt, alloc, checked, planned) {
        Ok(verilog) => verilog,
        Err(OutOfMemory) => {
            drop(response);
            return Err(SampleFault::OutOfMemory);
        }
    };
    let text = summary(
        alloc,
        number,
        made,
        verilog.bytes(),
        response.bytes(),
        bench,
    );
    drop(verilog);
    drop(response);
    let text = text?;
    Ok(text)
}

/// The summary of a sample, by what a bench tells of its module.
fn summary_of<R: Threads + Sync, B: Bench>(
    rt: &R,
    alloc: Global,
    number: u32,
    bench: &mut B,
) -> Result<Text, SampleFault>
    requires { number ≤ greatest_sample }
    ensures made { IfOk result (IsSummaryOf B.may_tell number (B.tells bench.new)) }
    ensures refused { IfErr result (IsSampleFault number) }
{
    let designed = match sample_design(alloc, number) {
        Ok(designed) => designed,
        Err(fault) => return Err(fault),
    };
    let summed = summary_by(
        rt,
        alloc,
        number,
        &designed.checked,
        &designed.planned,
        bench,
    );
    designed.discard();
    summed
}

/// Writes the summary of a sample.
pub fn sample<'a, R: Threads + Sync, B: Bench, K: Sink>(
    rt: &R,
    alloc: Global,
    number: u32,
    bench: &mut B,
    out: &mut K,
) -> Answer<'a>
    requires { number ≤ greatest_sample }
    ensures cause { HasSampleCause number result }
    ensures written { HasSampleWritten (IsSummaryOf B.may_tell number (B.tells bench.new))
        (stream_in K.taken K.faults out.old out.new) result }
{
    let text = match summary_of(rt, alloc, number, bench) {
        Ok(text) => text,
        Err(SampleFault::BreaksRule { line }) => return Answer::BreaksRule { line },
        Err(SampleFault::OutOfMemory) => return Answer::OutOfMemory,
    };
    match put_text(out, text) {
        Ok(()) => Answer::Done,
        Err(_) => Answer::CannotWrite,
    }
}

/// Does what `run` does on `sample NUMBER`, by a bench of the caller's, and gives the exit status
/// (own). The number is from 1 to 5000.
///
/// The summary tells of a model of so many blocks how many multiplications its module has, how late
/// its outputs are in clocks, and in how many fields at hits what `bench` tells of its Verilog text
/// agrees with the response of its diagram. The status is 0; or 1, 4 or 7 with one line to `err`.
pub fn sample_with<R: Threads + Sync, B: Bench, K: Sink, E: Sink>(
    rt: &R,
    alloc: Global,
    number: u32,
    bench: &mut B,
    out: &mut K,
    err: &mut E,
) -> u8
    requires least { 1 ≤ number }
    requires most { number ≤ greatest_sample }
    ensures { EndsSample number (IsSummaryOf B.may_tell number (B.tells bench.new))
        (stream_in K.taken K.faults out.old out.new)
        (stream_in E.taken E.faults err.old err.new) result }
{
    let answer = sample(rt, alloc, number, bench, out);
    answer.report(err);
    let status = answer.status();
    drop(answer);
    status
}
