ghost use Rattle.std.specs.Prelude.{◌≡◌, IfOk, OnOk, map};
ghost use Rattle.vl_ast.specs.Nets.{names_read};
ghost use Rattle.vl_check.specs.Scope.{number_at};
ghost use Rattle.vl_check.specs.inner.Assignments.{IsNoted, places_after, reads_after};

use crate::mentions::{Mentions, all_of, push_names};
use crate::names::{mentioned_name, put_at};
use crate::scope::Scope;
use fx_io::{OutOfMemory, Sequence, empty_rows};
use std::alloc::Global;
use vl_ast::{Expr, ModItem};

/// By the number of each name, the place of the item that assigns it, and the numbers of the names that
/// the assignment reads.
#[derive(Drop)]
pub struct Assigned {
    pub places: Vec<Option<usize>>,
    pub reads: Vec<Sequence<usize>>,
}

/// The numbers of the names that an expression reads.
fn numbers_read(alloc: Global, scope: &Scope<'_>, e: &Expr) -> Result<Sequence<usize>, OutOfMemory>
    ensures { IfOk result (λ numbers. numbers ≡ map (number_at scope.now) (names_read e.now)) }
{
    let mut reads = Mentions {
        all: Vec::new(alloc),
        wanting: false,
    };
    push_names(&mut reads, e);
    let reads = all_of(reads)?;
    let mut numbers = Sequence::new(alloc);
    for mention in reads.as_slice() {
        numbers.push(scope.number_or_count(mentioned_name(mention)))?;
    }
    Ok(numbers)
}

/// Notes the place of an item, and what it reads, where it is an assignment.
fn note(
    alloc: Global,
    scope: &Scope<'_>,
    at: usize,
    item: &ModItem,
    places: &mut Vec<Option<usize>>,
    reads: &mut Vec<Sequence<usize>>,
) -> Result<(), OutOfMemory>
    ensures places { OnOk result (places.new.items
        ≡ places_after scope.now places.old.items at item.now) }
    ensures reads { OnOk result (reads.new.items ≡ reads_after scope.now reads.old.items item.now) }
{
    let ModItem::Assign { name, value } = item else {
        return Ok(());
    };
    let number = scope.number_or_count(name.bytes());
    let read = numbers_read(alloc, scope, value)?;
    put_at(places, number, Some(at));
    put_at(reads, number, read);
    Ok(())
}

/// By the number of each name, what assigns it.
pub fn assignments_of(
    alloc: Global,
    scope: &Scope<'_>,
    items: &[ModItem],
) -> Result<Assigned, OutOfMemory>
    ensures { IfOk result (λ assigned. IsNoted scope.now items.now assigned.places.items
        assigned.reads.items) }
{
    let mut places = vec![in alloc; None; scope.count()]?;
    let mut reads = empty_rows(alloc, scope.count())?;
    for (at, item) in items.iter().enumerate() {
        note(alloc, scope, at, item, &mut places, &mut reads)?;
    }
    Ok(Assigned { places, reads })
}
