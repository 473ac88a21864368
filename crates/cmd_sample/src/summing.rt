ghost use Rattle.std.specs.Prelude.{◌≡◌, ◌≤◌, ◌++◌, IfOk, OnOk};
ghost use Rattle.cmd_sample.specs.Numbers.{greatest_sample};
ghost use Rattle.cmd_sample.specs.Summary.{summary_text as summary_text_of};

use crate::pushing::push_each;
use fx_io::{OutOfMemory, Text};
use itoa::Buffer;
use std::alloc::Global;

/// What a sample's module says of itself.
#[derive(Clone, Copy)]
pub struct Made {
    /// How many operators `*` its expressions have.
    pub multiplications: u64,
    /// The latency of `Out`, in clocks.
    pub out_latency: u64,
    /// The latency of `Slow`, in clocks.
    pub slow_latency: u64,
}

/// Puts the summary of the sample of so many blocks, where so many fields are equal.
fn push_summary(text: &mut Vec<u8>, count: u32, made: Made, equal: u64) -> Result<(), OutOfMemory>
    requires { count ≤ greatest_sample }
    ensures { OnOk result (text.new.items ≡ text.old.items ++ summary_text_of count made equal) }
{
    let mut blocks = Buffer::new();
    let mut samples = Buffer::new();
    let mut multiplications = Buffer::new();
    let mut out = Buffer::new();
    let mut slow = Buffer::new();
    let mut fields = Buffer::new();
    push_each(
        text,
        &[
            b"blocks ",
            blocks.format(u64::from(count) + 4).as_bytes(),
            b"\nsamples ",
            samples.format(8u64).as_bytes(),
            b"\nmultiplications ",
            multiplications.format(made.multiplications).as_bytes(),
            b"\nlatency Out ",
            out.format(made.out_latency).as_bytes(),
            b"\nlatency Slow ",
            slow.format(made.slow_latency).as_bytes(),
            b"\nequal ",
            fields.format(equal).as_bytes(),
            b" of 12\n",
        ],
    )
}

/// The summary of the sample of so many blocks, where so many fields are equal. The only error is want
/// of memory.
pub fn summary_text(alloc: Global, count: u32, made: Made, equal: u64) -> Result<Text, OutOfMemory>
    requires { count ≤ greatest_sample }
    ensures { IfOk result (λ text. text ≡ summary_text_of count made equal) }
{
    let mut text = Vec::new(alloc);
    push_summary(&mut text, count, made, equal)?;
    Text::from_vec(alloc, text)
}
