ghost use Rattle.std.specs.Prelude.{◌≡◌, ◌<◌, IfOk, Option, Some, None, [], length, map, option_map, slice_set, true, if◌then◌else◌};
ghost use Rattle.vl_ast.specs.declared.modules.Module.{Module};
ghost use Rattle.vl_ast.specs.Nets.{mentions};
ghost use Rattle.vl_ast.specs.Conditions.{doubly, first_fault, is_double, is_driver_of, is_undriven, may_drive_it, mentioned, needs_driver, undriven};
ghost use Rattle.vl_check.specs.inner.Mentions.{declared_of, kind_of, mention_of, shown};
ghost use Rattle.vl_check.specs.inner.Marks.{AreFirst, AreNumbered, Marks, declares, double_where, drives, first_after, undriven_where};

use crate::mentions::{Declared, Kind, Mention};
use crate::names::mentioned_name;
use fx_io::OutOfMemory;
use std::alloc::Global;

/// Whether the place declares a name.
fn declares(mention: &Mention<'_>) -> bool
    ensures { result ≡ declares (mention_of mention.now) }
{
    match mention {
        Mention::Declares(_) => true,
        Mention::Drives { .. } | Mention::Reads(_) | Mention::Clocks => false,
    }
}

/// Whether the place drives a name.
fn drives(mention: &Mention<'_>) -> bool
    ensures { result ≡ drives (mention_of mention.now) }
{
    match mention {
        Mention::Drives { .. } => true,
        Mention::Declares(_) | Mention::Reads(_) | Mention::Clocks => false,
    }
}

fn needs_driver(kind: Kind) -> bool
    ensures { result ≡ needs_driver (kind_of kind) }
{
    match kind {
        Kind::InputPort => false,
        Kind::OutputPort | Kind::PlainWire | Kind::Register => true,
    }
}

fn may_drive(clocked: bool, declared: Option<Declared<'_>>) -> bool
    ensures { result ≡ may_drive_it clocked (option_map declared_of declared.entry) }
{
    match declared {
        None => true,
        Some(declared) => match declared.kind {
            Kind::InputPort => false,
            Kind::OutputPort | Kind::PlainWire => !clocked,
            Kind::Register => clocked,
        },
    }
}

fn mark(marks: &mut Vec<bool>, number: usize, holds: bool)
    requires { number < length marks.old.items }
    ensures { marks.new.items ≡ (if holds then slice_set marks.old.items number true
        else marks.old.items) }
{
    if holds {
        marks[number] = true;
    }
}

/// By the number of each name, whether some place of the text drives it.
fn driven_names(
    alloc: Global,
    text: &[Mention<'_>],
    numbers: &[usize],
    count: usize,
) -> Result<Vec<bool>, OutOfMemory>
    requires { AreNumbered text.now numbers.now count }
    ensures long { IfOk result (λ driven. length driven.items ≡ count) }
    ensures marks { IfOk result (λ driven.
        Marks is_driver_of (map mentioned (shown text.now)) numbers.now driven.items
        (shown text.now)) }
{
    let mut driven = vec![in alloc; false; count]?;
    for (i, mention) in text.iter().enumerate() {
        mark(&mut driven, numbers[i], drives(mention));
    }
    Ok(driven)
}

/// Whether the place is undriven, where its name was declared before it or not and is driven
/// somewhere or not.
fn is_undriven(mention: &Mention<'_>, declared: bool, driven: bool) -> bool
    ensures { result ≡ undriven_where declared driven (mention_of mention.now) }
{
    match mention {
        Mention::Declares(of) => needs_driver(of.kind) && !driven,
        Mention::Drives { .. } | Mention::Reads(_) => !declared,
        Mention::Clocks => false,
    }
}

/// The first name that is read or driven and isn't declared before, or that has no driver and needs
/// one.
pub fn first_undriven<'a>(
    alloc: Global,
    text: &[Mention<'a>],
    numbers: &[usize],
    count: usize,
) -> Result<Option<&'a [u8]>, OutOfMemory>
    requires { AreNumbered text.now numbers.now count }
    ensures { IfOk result (λ name. option_map (λ found. found.now) name
        ≡ first_fault (is_undriven (shown text.now)) [] (shown text.now)) }
{
    let driven = driven_names(alloc, text, numbers, count)?;
    let mut declared = vec![in alloc; false; count]?;
    for (i, mention) in text.iter().enumerate() {
        let number = numbers[i];
        if is_undriven(mention, declared[number], driven[number]) {
            return Ok(Some(mentioned_name(mention)));
        }
        mark(&mut declared, number, declares(mention));
    }
    Ok(None)
}

fn declare<'a>(first: &mut Vec<Option<Declared<'a>>>, number: usize, mention: &Mention<'a>)
    requires { number < length first.old.items }
    ensures { first.new.items ≡ first_after first.old.items number mention.now }
{
    if let Mention::Declares(declared) = mention {
        if first[number].is_none() {
            first[number] = Some(*declared);
        }
    }
}

/// By the number of each name, its first declaration.
pub fn first_declarations<'a>(
    alloc: Global,
    text: &[Mention<'a>],
    numbers: &[usize],
    count: usize,
) -> Result<Vec<Option<Declared<'a>>>, OutOfMemory>
    requires { AreNumbered text.now numbers.now count }
    ensures long { IfOk result (λ declared. length declared.items ≡ count) }
    ensures first { IfOk result (λ declared.
        AreFirst (map mentioned (shown text.now)) numbers.now declared.items (shown text.now)) }
{
    let mut first = vec![in alloc; None; count]?;
    for (i, mention) in text.iter().enumerate() {
        declare(&mut first, numbers[i], mention);
    }
    Ok(first)
}

/// Whether the place is a second one, or one that may not drive its name, where the name was
/// declared before it or not and driven before it or not, and is declared so.
fn is_double(
    mention: &Mention<'_>,
    declared: bool,
    driven: bool,
    declaration: Option<Declared<'_>>,
) -> bool
    ensures { result ≡ double_where declared driven (option_map declared_of declaration.entry)
        (mention_of mention.now) }
{
    match mention {
        Mention::Declares(_declared) => declared,
        Mention::Drives { clocked, name: _ } => driven || !may_drive(*clocked, declaration),
        Mention::Reads(_) | Mention::Clocks => false,
    }
}

/// The first name that is declared or driven a second time, or driven by what may not drive it.
pub fn first_double<'a>(
    alloc: Global,
    text: &[Mention<'a>],
    numbers: &[usize],
    first: &[Option<Declared<'a>>],
) -> Result<Option<&'a [u8]>, OutOfMemory>
    requires numbers { AreNumbered text.now numbers.now (length first.now) }
    requires first { AreFirst (map mentioned (shown text.now)) numbers.now first.now
        (shown text.now) }
    ensures { IfOk result (λ name. (m : Module) → shown text.now ≡ mentions m
        → option_map (λ found. found.now) name ≡ doubly m) }
{
    let mut declared = vec![in alloc; false; first.len()]?;
    let mut driven = vec![in alloc; false; first.len()]?;
    for (i, mention) in text.iter().enumerate() {
        let number = numbers[i];
        if is_double(mention, declared[number], driven[number], first[number]) {
            return Ok(Some(mentioned_name(mention)));
        }
        mark(&mut declared, number, declares(mention));
        mark(&mut driven, number, drives(mention));
    }
    Ok(None)
}
