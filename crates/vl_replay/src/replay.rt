ghost use Rattle.std.specs.Prelude.{◌≡◌, ◌≤◌, ◌<◌, ◌+◌, ◌*◌, ◌^◌, ℤ, IfOk, OnOk, List, length};
ghost use Rattle.fx_tables.specs.Stimulus.{most_cells};
ghost use Rattle.vl_ast.specs.Conditions.{BreaksNone};
ghost use Rattle.vl_ast.specs.Driven.{output_ports, stimulus_ports};
ghost use Rattle.vl_ast.specs.Steps.{IsFirstRow};
ghost use Rattle.vl_ast.specs.Windows.{Sample};
ghost use Rattle.vl_eval.specs.Machine.{IsReady, row_of, source_of};
ghost use Rattle.vl_replay.specs.Sampled.{Sampled, numbers_of};

use crate::playing::{Score, play_sample, score_of};
use crate::resting::play_ahead;
use crate::samplers::start_of;
use fx_io::OutOfMemory;
use fx_tables::Rows;
use std::alloc::Global;
use vl_ast::{one_run, steps_run};
use vl_eval::Machine;

/// A machine with its stimulus, and room for the numbers that are sampled of it while others of
/// their samples are to come (own). It stands before a sample, whose numbers are the next.
#[derive(Drop)]
pub struct Replay {
    machine: Machine,
    score: Score,
    /// The bits of the input ports but `clk` in the next row.
    bits: Vec<u128>,
    /// The numbers of the outputs: a ring of rows, in which a sample has the row of its remainder.
    cells: Vec<i128>,
}

impl Replay {
    ghost use Rattle.vl_replay.specs.Replays.{StandsBefore, module_of, stimulus_of};
    ghost use Rattle.vl_replay.specs.inner.Start.{CanBegin};

    /// Takes all memory of a replay, and passes the clocks before the first that sample 0 waits for.
    /// The machine is in row 0, as `Machine::new` leaves it, and the stimulus has the columns of its
    /// module.
    ///
    /// # Errors
    /// Want of memory.
    pub fn new(alloc: Global, machine: Machine, stimulus: Rows) -> Result<Replay, OutOfMemory>
        requires ready { IsReady machine }
        requires sound { BreaksNone (source_of machine) }
        requires row { IsFirstRow (source_of machine) (λ name. 0) (λ name. 0) (row_of machine) }
        requires columns { stimulus.columns ≡ length (stimulus_ports (source_of machine)) }
        requires outputs { length (output_ports (source_of machine)) < 2 ^ 32 }
        requires few { stimulus.lines ≤ most_cells }
        ensures stands { IfOk result (λ replay. StandsBefore replay 0) }
        ensures source { IfOk result (λ replay. module_of replay ≡ source_of machine) }
        ensures stimulus { IfOk result (λ replay. stimulus_of replay ≡ stimulus) }
    {
        let score = match score_of(alloc, machine.module(), stimulus) {
            Ok(score) => score,
            Err(wanting) => {
                machine.discard();
                return Err(wanting);
            }
        };
        let mut replay = Replay {
            machine,
            score,
            bits: Vec::new(alloc),
            cells: Vec::new(alloc),
        };
        match replay.begin(alloc) {
            Ok(()) => Ok(replay),
            Err(wanting) => {
                replay.discard();
                Err(wanting)
            }
        }
    }

    /// Frees the replay with its machine, so that crates above needn't prove how.
    pub fn discard(self) {
        let Replay {
            machine,
            score,
            bits,
            cells,
        } = self;
        machine.discard();
        drop(score);
        drop(bits);
        drop(cells);
    }

    /// Takes the memory for numbers, and passes the clocks before the first that sample 0 waits for.
    fn begin(&mut self, alloc: Global) -> Result<(), OutOfMemory>
        requires { CanBegin self.old }
        ensures stands { OnOk result (StandsBefore self.new 0) }
        ensures source { OnOk result (module_of self.new ≡ module_of self.old) }
        ensures stimulus { OnOk result (stimulus_of self.new ≡ stimulus_of self.old) }
    {
        self.bits.resize(self.score.drivers.len(), 0)?;
        self.cells
            .resize(self.score.window as usize * self.score.samplers.len(), 0)?;
        let delay = self.score.delay;
        play_ahead(
            alloc,
            &mut self.machine,
            &self.score,
            delay,
            &mut self.bits,
            &mut self.cells,
        )
    }

    /// Goes on to the next sample. It takes no memory.
    pub fn advance(&mut self, sample: u64)
        requires stands { StandsBefore self.old sample }
        requires within { sample < (stimulus_of self.old).lines }
        ensures stands { StandsBefore self.new (sample + 1) }
        ensures source { module_of self.new ≡ module_of self.old }
        ensures stimulus { stimulus_of self.new ≡ stimulus_of self.old }
    {
        let played = sample + self.score.delay;
        play_sample(
            &mut self.machine,
            &self.score,
            played,
            &mut self.bits,
            &mut self.cells,
        );
    }

    /// The numbers of the sample that was passed last, one for each output that carries numbers. It
    /// takes no memory.
    pub fn row(&self, sample: u64) -> &[i128]
        requires stands { StandsBefore self.now (sample + 1) }
        requires within { sample < (stimulus_of self.now).lines }
        ensures long { length result.now ≡ length (output_ports (module_of self.now)) }
        ensures sampled { (table : Sample → List ℤ) → Sampled (module_of self.now)
            (numbers_of (stimulus_of self.now)) (stimulus_of self.now).lines table
            → result.now ≡ table sample }
    {
        steps_run();
        one_run();
        let outputs = self.score.samplers.len();
        let start = start_of(self.score.window, outputs, sample);
        &self.cells[start..start + outputs]
    }
}
