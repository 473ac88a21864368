//! The passes of a sample: the values of the cells, what memories keep, and the outputs.
ghost use Rattle.std.specs.Prelude.{◌≡◌, ℕ, length, map, Some, slice_get};
ghost use Rattle.dg_model.specs.Attributes.{attributes_of};
ghost use Rattle.dg_model.specs.Signals.{Stimulus, Table};
ghost use Rattle.dg_model.specs.Hits.{is_hit};
ghost use Rattle.dg_sim.specs.declared.program.Memory.{Memory};
ghost use Rattle.dg_sim.specs.Ready.{AreReady};
ghost use Rattle.dg_sim.specs.Ring.{PastValues};
ghost use Rattle.dg_sim.specs.Program.{value_at, is_on, move_of};
ghost use Rattle.dg_sim.specs.Sim.{IsProgram, IsAt, Agrees, past_moved};

use crate::giving::{give, hits, on, read};
use crate::past::Past;
use crate::program::{Memory, Program};
use dg_blocks::Prepared;
use dg_model::Checked;
use dg_tables::{entries_stay, entry_is_one, solved_is_in_range};

/// The value of every cell at a sample: of those that hit by their rules, of the others what it was.
pub fn sweep(
    checked: &Checked,
    program: &Program,
    t: u64,
    pasts: &[Past],
    prepared: &[Prepared],
    numbers: &[i128],
    row: &mut [i128],
)
    requires program { IsProgram checked.now.diagram
        (attributes_of checked.now.diagram) program.now }
    requires row { length row.old ≡ length program.now.places }
    requires ready { AreReady program.now prepared.now (length program.now.cells) }
    requires at { (stimulus : Stimulus) × (n : ℕ) × (table : Table)
        × IsAt checked.now (record {
          program = program.now;
          samples = t;
          row = row.old;
          pasts = pasts.now;
          prepared = prepared.now;
        }) numbers.now stimulus n table }
    ensures { (stimulus : Stimulus) (n : ℕ) (table : Table)
        → IsAt checked.now (record {
          program = program.now;
          samples = t;
          row = row.old;
          pasts = pasts.now;
          prepared = prepared.now;
        }) numbers.now stimulus n table
        → Agrees checked.now.diagram (attributes_of checked.now.diagram) program.now.places
        (length program.now.places) (value_at row.new) table t }
{
    entry_is_one();
    solved_is_in_range();
    entries_stay();
    checked.keeps_rules();
    let mut inputs = [0i128; 32];
    for (k, cell) in program.cells.as_slice().iter().enumerate() {
        if hits(cell.period, t) {
            row[k] = give(
                program,
                &cell.rule,
                &prepared[k],
                t,
                row,
                pasts,
                numbers,
                &mut inputs,
            );
        }
    }
}

/// What a memory keeps after a sample in which the cells have these values.
fn keep_one(memory: &Memory, t: u64, row: &[i128], past: &mut Past)
    ensures { past.new ≡ past_moved (move_of (is_hit memory.now.period t)
        (is_on (value_at row.now) memory.now.control) memory.now.reset)
        (value_at row.now memory.now.from) past.old }
{
    if hits(memory.period, t) {
        if on(row, memory.control) {
            past.push(read(row, memory.from));
        } else if memory.reset {
            past.forget();
        }
    }
}

/// What all memories keep.
pub fn keep(program: &Program, t: u64, row: &[i128], pasts: &mut [Past])
    requires { length pasts.old ≡ length program.now.memories }
    ensures size { length pasts.new ≡ length pasts.old }
    ensures each { (m : ℕ) (memory : Memory) (past : PastValues)
        → slice_get program.now.memories m ≡ Some memory → slice_get pasts.old m ≡ Some past
        → slice_get pasts.new m ≡ Some (past_moved (move_of (is_hit memory.period t)
        (is_on (value_at row.now) memory.control) memory.reset)
        (value_at row.now memory.from) past) }
{
    for (m, memory) in program.memories.as_slice().iter().enumerate() {
        keep_one(memory, t, row, &mut pasts[m]);
    }
}

/// Writes the values of these cells.
pub fn show(row: &[i128], cells: &[u32], out: &mut [i128])
    requires { length out.old ≡ length cells.now }
    ensures { out.new ≡ map (value_at row.now) cells.now }
{
    for (i, cell) in cells.iter().enumerate() {
        out[i] = read(row, *cell);
    }
}
