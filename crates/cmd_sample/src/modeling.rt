ghost use Rattle.std.specs.Prelude.{◌≡◌, ◌<◌, ◌≤◌, ◌++◌, ◌-◌, IfOk, OnOk, codes};
ghost use Rattle.std.specs.List.{flat_map, range_with_len};
ghost use Rattle.cmd_sample.specs.ModelText.{chain_lines, chain_name as chain_name_of, chain_text, end_lines, ends_text, input_text, line_text, model_head, parameters_of, sample_model};
ghost use Rattle.cmd_sample.specs.Numbers.{greatest_sample};
ghost use Rattle.cmd_sample.specs.inner.Parts.{part_at, part_text};

use crate::chain::ChainKind;
use crate::numbers::number_after;
use crate::pushing::{push_each, push_line};
use fx_io::{OutOfMemory, Text};
use fx_text::push;
use itoa::Buffer;
use std::alloc::Global;

/// The name of the block at a place of the chain; at 0 stands the input.
fn chain_name(alloc: Global, place: u32) -> Result<Text, OutOfMemory>
    ensures { IfOk result (λ name. name ≡ chain_name_of place) }
{
    if place == 0 {
        return Text::copy(alloc, b"In");
    }
    let mut digits = Buffer::new();
    let letter = Text::copy(alloc, b"B")?;
    letter.append(alloc, digits.format(place).as_bytes())
}

/// The parameters of a block of the chain.
#[tactic(auto, unfolding(crate::specs::ModelText::parameter_text, crate::specs::ModelText::type_parameter, crate::specs::ModelText::gain_parameters))]
fn parameters(kind: ChainKind) -> &'static [u8]
    ensures { result.now ≡ parameters_of kind }
{
    match kind {
        ChainKind::Delay => b"      InitialCondition \"1\"\n",
        ChainKind::Gain => {
            b"      Gain \"0.75\"\n      ParamDataTypeStr \"fixdt(1,16,14)\"\n      OutDataTypeStr \"fixdt(1,16,8)\"\n"
        }
        ChainKind::Sum | ChainKind::Product | ChainKind::Switch => {
            b"      OutDataTypeStr \"fixdt(1,16,8)\"\n"
        }
    }
}

/// A block of the chain: its place, from 1, and its kind.
#[derive(Clone, Copy)]
struct Link {
    place: u32,
    kind: ChainKind,
}

/// Puts the block of the chain.
fn push_block(alloc: Global, text: &mut Vec<u8>, link: Link) -> Result<(), OutOfMemory>
    ensures { OnOk result (text.new.items ≡ text.old.items ++ chain_text link.place link.kind) }
{
    let name = chain_name(alloc, link.place)?;
    push_each(
        text,
        &[
            b"    Block {\n",
            b"      BlockType ",
            link.kind.word(),
            b"\n",
            b"      Name \"",
            name.bytes(),
            b"\"\n",
            parameters(link.kind),
            b"    }\n",
        ],
    )
}

/// Puts the line from a block to the first port of another, and those from the input to so many more.
fn push_lines_to(
    text: &mut Vec<u8>,
    source: &[u8],
    name: &[u8],
    more: u64,
) -> Result<(), OutOfMemory>
    requires { more ≤ 2 }
    ensures { OnOk result (text.new.items ≡ text.old.items ++ (line_text source.now name.now 1
        ++ flat_map (line_text (codes "In") name.now) (range_with_len 2 more))) }
{
    push_line(text, source, name, 1)?;
    for port in 0..more {
        push_line(text, b"In", name, port + 2)?;
    }
    Ok(())
}

/// Puts the lines into the block of the chain.
fn push_lines_into(alloc: Global, text: &mut Vec<u8>, link: Link) -> Result<(), OutOfMemory>
    requires { 0 < link.place }
    ensures { OnOk result (text.new.items ≡ text.old.items ++ chain_lines link.place link.kind) }
{
    let source = chain_name(alloc, link.place - 1)?;
    let name = chain_name(alloc, link.place)?;
    push_lines_to(text, source.bytes(), name.bytes(), link.kind.inputs() - 1)
}

/// What is put of each block of the chain: itself, or the lines into it.
#[derive(Clone, Copy)]
enum Part {
    Block,
    Lines,
}

/// Puts a part of the block of the chain.
fn push_part(alloc: Global, text: &mut Vec<u8>, part: Part, link: Link) -> Result<(), OutOfMemory>
    requires { 0 < link.place }
    ensures { OnOk result (text.new.items ≡ text.old.items ++ part_text part link.place link.kind) }
{
    match part {
        Part::Block => push_block(alloc, text, link),
        Part::Lines => push_lines_into(alloc, text, link),
    }
}

/// Puts a part of each block of the chain.
fn push_chain(alloc: Global, text: &mut Vec<u8>, part: Part, count: u32) -> Result<(), OutOfMemory>
    requires { count ≤ greatest_sample }
    ensures { OnOk result (text.new.items
        ≡ text.old.items ++ flat_map (part_at part count) (range_with_len 1 count)) }
{
    let mut number = u64::from(count);
    for before in 0..count {
        number = number_after(number);
        let place = before + 1;
        let kind = ChainKind::of(place, number);
        push_part(alloc, text, part, Link { place, kind })?;
    }
    Ok(())
}

/// Puts what stands before the blocks of the chain, with the input.
fn push_start(text: &mut Vec<u8>) -> Result<(), OutOfMemory>
    ensures { OnOk result (text.new.items ≡ text.old.items ++ (model_head ++ input_text)) }
{
    push_each(
        text,
        &[
            b"Model {\n",
            b"  Name \"sample\"\n",
            b"  System {\n",
            b"    Block {\n",
            b"      BlockType Inport\n",
            b"      Name \"In\"\n",
            b"      OutDataTypeStr \"fixdt(1,16,8)\"\n",
            b"      SampleTime \"1\"\n",
            b"    }\n",
        ],
    )
}

/// Puts the blocks behind the chain.
fn push_ends(text: &mut Vec<u8>) -> Result<(), OutOfMemory>
    ensures { OnOk result (text.new.items ≡ text.old.items ++ ends_text) }
{
    push_each(
        text,
        &[
            b"    Block {\n",
            b"      BlockType RateTransition\n",
            b"      Name \"Down\"\n",
            b"      OutPortSampleTime \"2\"\n",
            b"    }\n",
            b"    Block {\n",
            b"      BlockType Outport\n",
            b"      Name \"Out\"\n",
            b"    }\n",
            b"    Block {\n",
            b"      BlockType Outport\n",
            b"      Name \"Slow\"\n",
            b"      Port \"2\"\n",
            b"    }\n",
        ],
    )
}

/// Puts the lines into the blocks behind the chain.
fn push_end_lines(text: &mut Vec<u8>, last: &[u8]) -> Result<(), OutOfMemory>
    ensures { OnOk result (text.new.items ≡ text.old.items ++ end_lines last.now) }
{
    push_line(text, last, b"Down", 1)?;
    push_line(text, last, b"Out", 1)?;
    push_line(text, b"Down", b"Slow", 1)
}

/// Puts the model with a chain of so many blocks.
fn push_model(alloc: Global, text: &mut Vec<u8>, count: u32) -> Result<(), OutOfMemory>
    requires { count ≤ greatest_sample }
    ensures { OnOk result (text.new.items ≡ text.old.items ++ sample_model count) }
{
    push_start(text)?;
    push_chain(alloc, text, Part::Block, count)?;
    push_ends(text)?;
    push_chain(alloc, text, Part::Lines, count)?;
    let last = chain_name(alloc, count)?;
    push_end_lines(text, last.bytes())?;
    push(text, b"  }\n}\n")
}

/// The model text with a chain of so many blocks: an input of 16 bits, the chain, a transition to twice
/// the period, and an output of either. The only error is want of memory.
pub fn model_text(alloc: Global, count: u32) -> Result<Text, OutOfMemory>
    requires { count ≤ greatest_sample }
    ensures { IfOk result (λ text. text ≡ sample_model count) }
{
    let mut text = Vec::new(alloc);
    push_model(alloc, &mut text, count)?;
    Text::from_vec(alloc, text)
}
