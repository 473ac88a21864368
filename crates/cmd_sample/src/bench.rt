ghost use Rattle.std.specs.Prelude.{◌≡◌, ◌≤◌, IfOk, OnOk};
ghost use Rattle.cmd_sample.specs.Numbers.{greatest_sample};
ghost use Rattle.cmd_sample.specs.Stimulus.{sample_stimulus};
ghost use Rattle.cmd_sample.specs.Summary.{equal_count as equal_count_of, summary_text as summary_text_of};

use crate::fields::equal_count;
use crate::stimulus::push_all;
use crate::summing::{Made, summary_text};
use fx_io::{OutOfMemory, Text};
use std::alloc::Global;

/// What replays a Verilog text under a stimulus and tells the response (own). Contracts see the bytes
/// that it tells.
pub trait Bench {
    ghost use Rattle.std.specs.Prelude.{List, ℕ};

    ghost tells: { Self → List ℕ };

    // which bytes may be told of a Verilog text and a stimulus
    ghost may_tell: { List ℕ → List ℕ → List ℕ → Type 0 };

    /// Replays a Verilog text under a stimulus. The only error is want of memory.
    fn replay(&mut self, alloc: Global, verilog: &[u8], stimulus: &[u8]) -> Result<(), OutOfMemory>
        ensures { OnOk result (may_tell verilog.now stimulus.now (tells self.new)) };

    /// The bytes that it tells.
    fn told(&self) -> &[u8]
        ensures { result.now ≡ tells self.now };
}

/// The summary of the sample of so many blocks, whose module has this Verilog text and whose diagram
/// has this response: it counts the fields at hits in which a bench tells the same of the text. The
/// only error is want of memory.
pub fn summary<B: Bench>(
    alloc: Global,
    count: u32,
    made: Made,
    verilog: &[u8],
    response: &[u8],
    bench: &mut B,
) -> Result<Text, OutOfMemory>
    requires { count ≤ greatest_sample }
    ensures text { IfOk result (λ text. text
        ≡ summary_text_of count made (equal_count_of response.now (B.tells bench.new))) }
    ensures told { OnOk result (B.may_tell verilog.now (sample_stimulus count)
        (B.tells bench.new)) }
{
    let mut stimulus = Vec::new(alloc);
    push_all(&mut stimulus, count)?;
    bench.replay(alloc, verilog, &stimulus)?;
    summary_text(alloc, count, made, equal_count(response, bench.told()))
}
