ghost use Rattle.std.specs.Prelude.{◌≡◌, ◌++◌, IfOk, OnOk, map};
ghost use Rattle.std.specs.List.{flat_map};
ghost use Rattle.cmd_explore.specs.FindingsText.{finding_line, findings_text as findings_text_of, least_of, named, pair_text, verdict_text, worth_text};

use cmd_model::push_shown;
use dg_model::Block;
use fx_io::{OutOfMemory, Text};
use fx_text::{push, push_number};
use hw_explore::{Finding, Findings, Judged};
use std::alloc::Global;

/// Adds a number in decimal behind its word.
#[tactic(auto, unfolding(crate::specs::FindingsText::named))]
fn push_named(text: &mut Vec<u8>, word: &[u8], number: u64) -> Result<(), OutOfMemory>
    ensures { OnOk result (text.new.items ≡ text.old.items ++ named word.now number) }
{
    push(text, word)?;
    push_number(text, number)
}

/// Adds a plan's clocks and multipliers.
fn push_pair(text: &mut Vec<u8>, finding: &Finding) -> Result<(), OutOfMemory>
    ensures { OnOk result (text.new.items ≡ text.old.items ++ pair_text finding.now) }
{
    push_named(text, b"cycles ", u64::from(finding.cycles))?;
    push_named(text, b" multipliers ", u64::from(finding.multipliers))
}

/// Adds how many multiplications a good plan leaves, and how late.
fn push_worth(text: &mut Vec<u8>, owed: u64, latency: u64) -> Result<(), OutOfMemory>
    ensures { OnOk result (text.new.items ≡ text.old.items ++ worth_text owed latency) }
{
    push_named(text, b" multiplications ", owed)?;
    push_named(text, b" latency ", latency)
}

/// Adds what a plan is worth.
fn push_verdict(text: &mut Vec<u8>, verdict: &Judged, blocks: &[Block]) -> Result<(), OutOfMemory>
    ensures { OnOk result (text.new.items
        ≡ text.old.items ++ verdict_text (map (λ block. block.path) blocks.now) verdict.now) }
{
    match verdict {
        Judged::Good { owed, latency } => push_worth(text, *owed, *latency),
        Judged::Bad { rule, shown } => {
            push_named(text, b": rule ", u64::from(rule.number()))?;
            push(text, b" (")?;
            push(text, rule.word())?;
            push(text, b")")?;
            push_shown(text, shown, blocks)
        }
    }
}

/// Adds the line of a plan.
#[tactic(auto, unfolding(crate::specs::FindingsText::finding_line))]
fn push_line(text: &mut Vec<u8>, finding: &Finding, blocks: &[Block]) -> Result<(), OutOfMemory>
    ensures { OnOk result (text.new.items
        ≡ text.old.items ++ finding_line (map (λ block. block.path) blocks.now) finding.now) }
{
    push_pair(text, finding)?;
    push_verdict(text, &finding.verdict, blocks)?;
    push(text, b"\n")
}

/// Adds the least plan.
fn push_least(text: &mut Vec<u8>, rows: &[Finding], least: Option<u32>) -> Result<(), OutOfMemory>
    ensures { OnOk result (text.new.items ≡ text.old.items ++ least_of rows.now least) }
{
    match least {
        Some(place) => match rows.get(place as usize) {
            Some(finding) => push_pair(text, finding),
            None => push(text, b"none"),
        },
        None => push(text, b"none"),
    }
}

/// Adds the lines of plans.
fn push_lines(text: &mut Vec<u8>, rows: &[Finding], blocks: &[Block]) -> Result<(), OutOfMemory>
    ensures { OnOk result (text.new.items ≡ text.old.items
        ++ flat_map (finding_line (map (λ block. block.path) blocks.now)) rows.now) }
{
    for row in rows {
        push_line(text, row, blocks)?;
    }
    Ok(())
}

/// A line for each plan of a range, with its multiplications and its latency or the rule that it
/// breaks first, and a line with the least plan. The blocks are those of the model.
pub fn findings_text(
    alloc: Global,
    findings: &Findings,
    blocks: &[Block],
) -> Result<Text, OutOfMemory>
    ensures { IfOk result (λ text. text
        ≡ findings_text_of (map (λ block. block.path) blocks.now) findings.now) }
{
    let mut text = Vec::new(alloc);
    let rows = findings.rows.as_slice();
    push_lines(&mut text, rows, blocks)?;
    push(&mut text, b"least ")?;
    push_least(&mut text, rows, findings.least)?;
    push(&mut text, b"\n")?;
    Text::from_vec(alloc, text)
}
