ghost use Rattle.std.specs.Prelude.{◌≡◌, ◌+◌, ◌≤◌, ◌++◌, IfOk, OnOk};
ghost use Rattle.cmd_sample.specs.Numbers.{greatest_sample, sample_number};
ghost use Rattle.cmd_sample.specs.Stimulus.{sample_plan, sample_stimulus, stimulus_line, stimulus_of as stimulus_of_number};

use crate::numbers::number_after;
use crate::pushing::push_each;
use fx_io::{OutOfMemory, Text};
use itoa::Buffer;
use std::alloc::Global;

/// The plan of a sample: 64 clocks for a base sample, and up to 64 multipliers for operations of a kind.
pub fn plan_text() -> &'static [u8]
    ensures { result.now ≡ sample_plan }
{
    b"cycles 64\nmultipliers 64\n"
}

/// How many base samples a stimulus has.
const SAMPLES: u32 = 8;

/// The last number of a chain of so many blocks.
fn last_number(count: u32) -> u64
    ensures { result ≡ sample_number count count }
{
    let mut number = u64::from(count);
    for _ in 0..count {
        number = number_after(number);
    }
    number
}

/// The 16 bits of a number that count most, as a signed number around 0.
fn stimulus_of(number: u64) -> i64
    ensures { result ≡ stimulus_of_number number }
{
    (number / (1 << 48)) as i64 - 32768
}

fn push_stimulus(text: &mut Vec<u8>, number: u64) -> Result<(), OutOfMemory>
    ensures { OnOk result (text.new.items ≡ text.old.items ++ stimulus_line number) }
{
    let mut digits = Buffer::new();
    push_each(
        text,
        &[digits.format(stimulus_of(number)).as_bytes(), b"\n"],
    )
}

/// Puts the stimulus that follows the last number of a chain of so many blocks.
pub fn push_all(text: &mut Vec<u8>, count: u32) -> Result<(), OutOfMemory>
    requires { count ≤ greatest_sample }
    ensures { OnOk result (text.new.items ≡ text.old.items ++ sample_stimulus count) }
{
    let mut number = last_number(count);
    for _ in 0..SAMPLES {
        number = number_after(number);
        push_stimulus(text, number)?;
    }
    Ok(())
}

/// The stimulus of the sample of so many blocks, of 8 base samples. The only error is want of memory.
pub fn stimulus_text(alloc: Global, count: u32) -> Result<Text, OutOfMemory>
    requires { count ≤ greatest_sample }
    ensures { IfOk result (λ text. text ≡ sample_stimulus count) }
{
    let mut text = Vec::new(alloc);
    push_all(&mut text, count)?;
    Text::from_vec(alloc, text)
}
