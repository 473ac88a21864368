ghost use Rattle.std.specs.Prelude.{◌≡◌, ◌<◌, IfOk, MatchResult, ℕ, length, slice_index};
ghost use Rattle.vl_ast.specs.declared.modules.Module.{Module};
ghost use Rattle.vl_ast.specs.Nets.{mentions};
ghost use Rattle.vl_check.specs.Cause.{IsCause};
ghost use Rattle.vl_check.specs.Scope.{IsScopeOf, names_in};
ghost use Rattle.vl_check.specs.inner.NameFacts.{IsFound, IsOrderable};
ghost use Rattle.vl_check.specs.inner.CycleMarks.{AreMarked, AreNamed, IsBeginning, IsTurned, first_some, marked_at, marked_number};
ghost use Rattle.vl_check.specs.inner.Mentions.{mention_of, shown};

use crate::assigned::{Assigned, assignments_of};
use crate::fault::VlFault;
use crate::mentions::Mention;
use crate::scope::Scope;
use crate::sorting::{Sorted, place_of, sort};
use fx_io::{OutOfMemory, Sequence, Text, Texts};
use std::alloc::Global;
use vl_ast::Module;

/// An order of a module's assignments.
#[derive(Drop)]
pub struct Found {
    /// The numbers of the names that they give, each behind those that its assignment reads.
    pub order: Vec<usize>,
    /// By the number of each name, the place of the item that assigns it.
    pub places: Vec<Option<usize>>,
}

/// By number, whether it is one of these.
fn marks_of(alloc: Global, numbers: &[usize], count: usize) -> Result<Vec<bool>, OutOfMemory>
    requires { (i : ℕ) → i < length numbers.now → slice_index numbers.now i < count }
    ensures { IfOk result (λ marks. AreMarked numbers.now count marks.items) }
{
    let mut marks = vec![in alloc; false; count]?;
    for number in numbers {
        marks[*number] = true;
    }
    Ok(marks)
}

/// Whether the name's number is marked.
fn marked_number(scope: &Scope<'_>, marks: &[bool], name: &[u8]) -> Option<usize>
    ensures { result ≡ marked_number scope.now marks.now name.now }
{
    let Some(number) = scope.number(name) else {
        return None;
    };
    match marks.get(number) {
        None => None,
        Some(mark) => { if *mark { Some(number) } else { None } }
    }
}

/// A marked number whose name stands at the place.
fn marked_at(scope: &Scope<'_>, marks: &[bool], mention: &Mention<'_>) -> Option<usize>
    ensures { result ≡ marked_at scope.now marks.now (mention_of mention.now) }
{
    match mention {
        Mention::Declares(declared) => marked_number(scope, marks, declared.name),
        Mention::Drives { name, .. } | Mention::Reads(name) => marked_number(scope, marks, name),
        Mention::Clocks => match marked_number(scope, marks, b"clk") {
            Some(number) => Some(number),
            None => marked_number(scope, marks, b"reset"),
        },
    }
}

/// The marked number whose name stands first in the text.
fn first_marked(text: &[Mention<'_>], scope: &Scope<'_>, marks: &[bool]) -> Option<usize>
    ensures { result ≡ first_some (marked_at scope.now marks.now) (shown text.now) }
{
    for mention in text {
        if let Some(number) = marked_at(scope, marks, mention) {
            return Some(number);
        }
    }
    None
}

/// Where the cycle has the number that stands first in the text.
fn beginning(
    alloc: Global,
    text: &[Mention<'_>],
    scope: &Scope<'_>,
    cycle: &[usize],
) -> Result<usize, OutOfMemory>
    ghost source: { Module }
    requires whole { shown text.now ≡ mentions source }
    requires scope { IsScopeOf source scope.now }
    requires some { 0 < length cycle.now }
    requires named { AreNamed source scope.now cycle.now }
    ensures { IfOk result (λ at. IsBeginning source scope.now cycle.now at) }
{
    let marks = marks_of(alloc, cycle, scope.count())?;
    match first_marked(text, scope, marks.as_slice()) {
        None => Ok(0),
        Some(number) => Ok(place_of(cycle, number)),
    }
}

/// The names of a cycle of numbers, begun at a place of it.
fn turned_names(
    alloc: Global,
    scope: &Scope<'_>,
    cycle: &[usize],
    at: usize,
) -> Result<Texts, OutOfMemory>
    requires within { (i : ℕ) → i < length cycle.now
        → slice_index cycle.now i < length (names_in scope.now) }
    requires at { at < length cycle.now }
    ensures { IfOk result (IsTurned (names_in scope.now) cycle.now at) }
{
    let mut names = Sequence::new(alloc);
    for i in 0..cycle.len() {
        let name = scope.name(cycle[(at + i) % cycle.len()]);
        names.push(Text::copy(alloc, name)?)?;
    }
    Ok(names)
}

/// An order of the assignments. The fault is a cycle of them, begun with the first in the text.
pub fn assignment_order(
    alloc: Global,
    text: &[Mention<'_>],
    scope: &Scope<'_>,
    source: &Module,
) -> Result<Found, VlFault>
    ghost of: { Module }
    requires of { of ≡ source.now }
    requires sound { IsOrderable of text.now scope.now }
    ensures { MatchResult result (IsFound of scope.now) (IsCause of) }
{
    let Assigned { places, reads } = assignments_of(alloc, scope, source.items.as_slice())?;
    let sorted = sort(alloc, reads.as_slice());
    drop(reads);
    match sorted? {
        Sorted::Order(order) => Ok(Found { order, places }),
        Sorted::Cycle(cycle) => {
            drop(places);
            let at = beginning(alloc, text, scope, cycle.as_slice())?;
            let names = turned_names(alloc, scope, cycle.as_slice(), at)?;
            Err(VlFault::CombLoop { names })
        }
    }
}
