//! A simulator of a checked diagram.
ghost use Rattle.std.specs.Prelude.{◌≡◌, ◌<◌, ◌≤◌, ◌+◌, ◌^◌, ℕ, All, IfOk, length};
ghost use Rattle.dg_model.specs.Attributes.{attributes_of};
ghost use Rattle.dg_model.specs.RootElements.{root_outputs};
ghost use Rattle.dg_model.specs.Signals.{Stimulus, Table};
ghost use Rattle.dg_sim.specs.Ready.{AreReady};
ghost use Rattle.dg_sim.specs.Sim.{Simulation, IsProgram, IsSimOf, IsAt, IsStepped, Stands};
ghost use Rattle.dg_sim.specs.inner.ProgramSteps.{AreRooms};

use crate::building::program_of;
use crate::past::Past;
use crate::program::{Memory, Program};
use crate::readying::prepare;
use crate::sweeping::{keep, show, sweep};
use dg_blocks::Prepared;
use dg_model::Checked;
use dg_tables::kept_moves;
use fx_io::OutOfMemory;
use std::alloc::Global;
use std::marker::Model;

/// A run of a checked diagram as it stands (own): the samples that were made, the value of each entry
/// in the last of them, what its blocks keep for later ones, and what is prepared for each entry.
#[derive(Drop)]
pub struct Sim {
    program: Program,
    samples: u64,
    row: Vec<i128>,
    pasts: Vec<Past>,
    prepared: Vec<Prepared>,
}

impl Model for Sim {
    ghost use Rattle.dg_sim.specs.Sim.{Simulation};

    ghost Value = { Simulation };

    ghost view = { λ sim. record {
      program = sim.program;
      samples = sim.samples;
      row = sim.row.items;
      pasts = sim.pasts.items;
      prepared = sim.prepared.items;
    } };
}

impl Sim {
    /// One sample more: `numbers` has one number for each root input element, and the numbers of the
    /// root output elements are written to `out`. A number of an input that doesn't hit is not looked
    /// at, and an output that doesn't hit shows the value of its last hit. It takes no memory.
    /// Source: Simulink reference, simulation of discrete models.
    pub fn step(&mut self, checked: &Checked, numbers: &[i128], out: &mut [i128])
        requires sim { IsSimOf checked.now self.old }
        requires room { self.old.samples < 2 ^ 63 }
        requires at { (stimulus : Stimulus) × (n : ℕ) × (table : Table)
            × IsAt checked.now self.old numbers.now stimulus n table }
        requires out { length out.old
            ≡ length (root_outputs checked.now.diagram (attributes_of checked.now.diagram)) }
        ensures sim { IsSimOf checked.now self.new }
        ensures samples { self.new.samples ≡ self.old.samples + 1 }
        ensures stepped { IsStepped checked.now self.old self.new numbers.now out.new }
    {
        kept_moves();
        let (program, t) = (&self.program, self.samples);
        sweep(
            checked,
            program,
            t,
            self.pasts.as_slice(),
            self.prepared.as_slice(),
            numbers,
            self.row.as_mut_slice(),
        );
        keep(program, t, self.row.as_slice(), self.pasts.as_mut_slice());
        show(self.row.as_slice(), program.outputs.as_slice(), out);
        self.samples += 1;
    }
}

/// Room for what each memory keeps.
fn pasts_of(alloc: Global, memories: &[Memory]) -> Result<Vec<Past>, OutOfMemory>
    requires { All (λ memory. 1 ≤ memory.room) memories.now }
    ensures { IfOk result (λ pasts. AreRooms memories.now pasts.items (length memories.now)) }
{
    let mut pasts = Vec::new(alloc);
    for memory in memories {
        pasts.push(Past::new(alloc, memory.room as usize)?)?;
    }
    Ok(pasts)
}

/// What a run has beside its program before its first sample.
#[derive(Drop)]
struct Beginning {
    row: Vec<i128>,
    pasts: Vec<Past>,
    prepared: Vec<Prepared>,
}

/// What a run of a program has before its first sample.
fn beginning_of(
    alloc: Global,
    checked: &Checked,
    program: &Program,
) -> Result<Beginning, OutOfMemory>
    requires { IsProgram checked.now.diagram (attributes_of checked.now.diagram) program.now }
    ensures row { IfOk result (λ beginning.
        length beginning.row.items ≡ length program.now.places) }
    ensures rooms { IfOk result (λ beginning. AreRooms program.now.memories beginning.pasts.items
        (length program.now.memories)) }
    ensures ready { IfOk result (λ beginning.
        AreReady program.now beginning.prepared.items (length program.now.cells)) }
{
    let count = program.places.as_slice().len();
    let row: Vec<i128> = vec![in alloc; 0; count]?;
    let pasts = pasts_of(alloc, program.memories.as_slice())?;
    let prepared = prepare(alloc, checked, program)?;
    Ok(Beginning {
        row,
        pasts,
        prepared,
    })
}

impl Sim {
    /// A simulator of a checked diagram before its first sample.
    ///
    /// # Errors
    /// Want of memory.
    pub fn new(alloc: Global, checked: &Checked) -> Result<Sim, OutOfMemory>
        ensures sim { IfOk result (λ sim. IsSimOf checked.now sim) }
        ensures stands { IfOk result (λ sim. (table : Table) → Stands checked.now.diagram
            (attributes_of checked.now.diagram) sim table 0) }
    {
        let program = program_of(alloc, checked)?;
        match beginning_of(alloc, checked, &program) {
            Ok(beginning) => Ok(Sim {
                program,
                samples: 0,
                row: beginning.row,
                pasts: beginning.pasts,
                prepared: beginning.prepared,
            }),
            Err(wanting) => {
                drop(program);
                Err(wanting)
            }
        }
    }

    /// Frees the simulator, so that crates above needn't prove how.
    pub fn discard(self) {
        drop(self);
    }
}
