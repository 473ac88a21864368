//! One chain of registers for all uses of a source.
ghost use Rattle.std.specs.Prelude.{◌*◌, ◌<◌, ◌≤◌, ◌∷◌, [], All};
ghost use Rattle.std.specs.Prelude.{IfOk, OnOk};
ghost use Rattle.hw_lines.specs.Chain.{IsSource, IsUse, AreAnswers, IsChained, IsAnswer, source_of};
ghost use Rattle.hw_lines.specs.Chain.{reader_of};
ghost use Rattle.hw_lines.specs.inner.Ends.{CanEnd, PutsEnd};
ghost use Rattle.hw_net.specs.Emittable.{most_cycles};

use crate::ends::{end_of, reader_of};
use crate::source::{Source, Use};
use crate::source_taps::{most_frames, taps_of};
use fx_io::{OutOfMemory, Sizes};
use hw_net::{Frame, FrameIndex, Netlist};
use std::alloc::Global;

/// Answers a use by the end of its line, by which later lines that are seen in its frame end too.
fn end_at(
    net: &mut Netlist,
    source: Source,
    taps: &[u32],
    ends: &mut FrameIndex,
    answers: &mut Sizes,
    one: Use,
) -> Result<(), OutOfMemory>
    requires { CanEnd net.old source taps.now one }
    ensures { OnOk result (PutsEnd net.old net.new source taps.now ends.old ends.new answers.old
        answers.new one) }
{
    let reader = reader_of(source, one);
    if let Some(number) = ends.find(reader) {
        return answers.push(number);
    }
    let number = end_of(net, source, taps, one)?;
    ends.put(reader, number)?;
    answers.push(number)
}

/// The chain of a source: one register for each of its frames up to the last that is used, and
/// behind these at most one more net for each different use that isn't whole periods later. Uses
/// that are seen in one frame share it.
fn put_chain(
    alloc: Global,
    net: &mut Netlist,
    source: Source,
    uses: &[Use],
) -> Result<Sizes, OutOfMemory>
    requires low { 0 < net.old.cycles }
    requires high { net.old.cycles ≤ most_cycles }
    requires source { IsSource net.old source }
    requires uses { All (IsUse source) uses.now }
    ensures answers { IfOk result (λ answers. AreAnswers net.old net.new source uses.now answers) }
    ensures chained { OnOk result (IsChained net.old net.new source uses.now) }
{
    let made = taps_of(alloc, net, source, most_frames(source.frame.period, uses))?;
    let taps = made.as_slice();
    let mut ends = FrameIndex::new(alloc);
    let mut answers = Sizes::new(alloc);
    for one in uses {
        end_at(net, source, taps, &mut ends, &mut answers, *one)?;
    }
    Ok(answers)
}

/// Shows a net later to its readers, by one chain of registers: for each use the number of a net
/// that shows it `shift` base samples later, over frames of the greater of its period and the
/// reader's. A plain line shows what the net shows at the clock itself, as long as its own frame
/// stands. A registered one shows what the net had just before the reader sees it, and `first`
/// before that. The values hold in the rows of every later netlist that keeps these nets. Time is
/// in the registers and the uses. Where memory is wanting the netlist is of no more use. Source:
/// own.
pub fn chain(
    alloc: Global,
    net: &mut Netlist,
    from: u32,
    frame: Frame,
    first: i128,
    registered: bool,
    uses: &[Use],
) -> Result<Sizes, OutOfMemory>
    requires low { 0 < net.old.cycles }
    requires high { net.old.cycles ≤ most_cycles }
    requires source { IsSource net.old (source_of from frame first registered) }
    requires uses { All (IsUse (source_of from frame first registered)) uses.now }
    ensures answers { IfOk result (λ answers.
        AreAnswers net.old net.new (source_of from frame first registered) uses.now answers) }
    ensures chained { OnOk result
        (IsChained net.old net.new (source_of from frame first registered) uses.now) }
{
    let source = Source {
        from,
        frame,
        first,
        registered,
    };
    put_chain(alloc, net, source, uses)
}

/// Shows a net later to one reader: a chain with one use.
pub fn line(
    alloc: Global,
    net: &mut Netlist,
    from: u32,
    frame: Frame,
    shift: u64,
    period: u32,
    first: i128,
    registered: bool,
) -> Result<u32, OutOfMemory>
    requires low { 0 < net.old.cycles }
    requires high { net.old.cycles ≤ most_cycles }
    requires source { IsSource net.old (source_of from frame first registered) }
    requires use_is { IsUse (source_of from frame first registered)
        (record { shift = shift; period = period }) }
    ensures answer { IfOk result (λ number.
        IsAnswer net.old net.new (source_of from frame first registered)
        (reader_of (source_of from frame first registered)
        (record { shift = shift; period = period })) number) }
    ensures chained { OnOk result
        (IsChained net.old net.new (source_of from frame first registered)
        (record { shift = shift; period = period } ∷ [])) }
{
    let uses = [Use { shift, period }];
    let answers = chain(alloc, net, from, frame, first, registered, &uses)?;
    Ok(answers.as_slice()[0])
}
