ghost use Rattle.std.specs.Prelude.{◌≡◌, IfErr, IfOk, MatchResult};
ghost use Rattle.vl_ast.specs.declared.modules.Module.{Module};
ghost use Rattle.vl_ast.specs.Conditions.{BreaksNone, IsFirstFault};
ghost use Rattle.vl_ast.specs.Nets.{mentions};
ghost use Rattle.vl_check.specs.Cause.{IsCause};
ghost use Rattle.vl_check.specs.Ordering.{IsOrdering};
ghost use Rattle.vl_check.specs.Scope.{IsScopeOf};
ghost use Rattle.vl_check.specs.inner.NameFacts.{IsKnown, IsSoundOrder};
ghost use Rattle.vl_check.specs.inner.Mentions.{shown};
ghost use Rattle.vl_check.specs.inner.Rest.{IsFirstOfRest, fault_in};

use crate::attributes::no_attribute;
use crate::clocking::no_reset;
use crate::driving::{first_declarations, first_double, first_undriven};
use crate::fault::VlFault;
use crate::mentions::{Mention, mentions_of};
use crate::names::{Numbers, mentioned_name};
use crate::ordering::{Found, assignment_order};
use crate::scope::Scope;
use crate::widths::too_wide;
use fx_io::{OutOfMemory, Text};
use std::alloc::Global;
use std::collections::BTreeMap;
use vl_ast::Module;

/// What a module that breaks no condition has.
#[derive(Drop)]
pub struct Checked<'a> {
    /// Its names and their declarations.
    pub scope: Scope<'a>,
    /// The numbers of the names that assignments give, each behind those that its assignment reads.
    pub order: Vec<usize>,
    /// By the number of each name, the place of the item that assigns it.
    pub places: Vec<Option<usize>>,
}

/// The names of a text with their declarations, and the number of the name at each place.
#[derive(Drop)]
struct Known<'a> {
    scope: Scope<'a>,
    numbers: Vec<usize>,
}

/// The conditions whose faults show one name.
#[derive(Clone, Copy)]
enum Broken {
    Undriven,
    Doubly,
    TooWide,
    NoReset,
    NoAttribute,
}

/// A condition with the name at which it is broken.
#[derive(Clone, Copy)]
struct Named<'a> {
    broken: Broken,
    name: &'a [u8],
}

fn known_of<'a>(alloc: Global, text: &[Mention<'a>]) -> Result<Known<'a>, OutOfMemory>
    ensures { IfOk result (λ known. (m : Module) → shown text.now ≡ mentions m
        → IsKnown m text.now known.scope known.numbers.items) }
{
    let mut known = Numbers {
        names: Vec::new(alloc),
        by_name: BTreeMap::new(alloc),
        numbers: Vec::new(alloc),
    };
    for mention in text {
        known.add(mentioned_name(mention))?;
    }
    let Numbers {
        names,
        by_name,
        numbers,
    } = known;
    let declared = first_declarations(alloc, text, numbers.as_slice(), names.len())?;
    let scope = Scope {
        names,
        by_name,
        declared,
    };
    Ok(Known { scope, numbers })
}

/// Tries the six conditions in their order (own). The time is linear in the module, but for names, which
/// are looked up in an ordered map.
pub fn check<'a>(alloc: Global, source: &'a Module) -> Result<Checked<'a>, VlFault>
    ensures sound { IfOk result (λ checked. BreaksNone source.now) }
    ensures scope { IfOk result (λ checked. IsScopeOf source.now checked.scope) }
    ensures order { IfOk result (λ checked.
        IsOrdering source.now checked.scope checked.order.items checked.places.items) }
    ensures fault { IfErr result (IsCause source.now) }
{
    let mentions = mentions_of(alloc, source)?;
    let text = mentions.as_slice();
    let known = known_of(alloc, text)?;
    let Found { order, places } = order_of(alloc, source, text, &known)?;
    let Known { scope, numbers } = known;
    drop(numbers);
    Ok(Checked {
        scope,
        order,
        places,
    })
}

/// Tries the six conditions on a module whose names are known, and gives the order of its assignments.
fn order_of(
    alloc: Global,
    source: &Module,
    text: &[Mention<'_>],
    known: &Known<'_>,
) -> Result<Found, VlFault>
    requires { IsKnown source.now text.now known.now.scope known.now.numbers.items }
    ensures { MatchResult result (IsSoundOrder source.now known.now.scope) (IsCause source.now) }
{
    let numbers = known.numbers.as_slice();
    if let Some(name) = first_undriven(alloc, text, numbers, known.scope.count())? {
        return Err(fault_of(alloc, Broken::Undriven, name));
    }
    if let Some(name) = first_double(alloc, text, numbers, known.scope.declared.as_slice())? {
        return Err(fault_of(alloc, Broken::Doubly, name));
    }
    let found = assignment_order(alloc, text, &known.scope, source)?;
    match first_of_rest(source, text, &known.scope) {
        None => Ok(found),
        Some(Named { broken, name }) => {
            drop(found);
            Err(fault_of(alloc, broken, name))
        }
    }
}

/// The first of the last three conditions that is broken, with the name that it shows.
fn first_of_rest<'a>(
    source: &'a Module,
    text: &[Mention<'_>],
    scope: &Scope<'_>,
) -> Option<Named<'a>>
    requires whole { shown text.now ≡ mentions source.now }
    requires scope { IsScopeOf source.now scope.now }
    ensures { IsFirstOfRest source.now result }
{
    if let Some(name) = too_wide(scope, source) {
        return Some(Named {
            broken: Broken::TooWide,
            name,
        });
    }
    if let Some(name) = no_reset(text, source) {
        return Some(Named {
            broken: Broken::NoReset,
            name,
        });
    }
    match no_attribute(source) {
        None => None,
        Some(name) => Some(Named {
            broken: Broken::NoAttribute,
            name,
        }),
    }
}

/// The fault of a condition with the name that it shows, or want of memory for the name.
fn fault_of(alloc: Global, broken: Broken, name: &[u8]) -> VlFault
    ensures { (m : Module) → IsFirstFault m (fault_in broken name.now) → IsCause m result }
{
    let Ok(name) = Text::copy(alloc, name) else {
        // allocation: the copy of the name
        return VlFault::OutOfMemory;
    };
    match broken {
        Broken::Undriven => VlFault::Undriven { name },
        Broken::Doubly => VlFault::Doubly { name },
        Broken::TooWide => VlFault::TooWide { name },
        Broken::NoReset => VlFault::NoReset { name },
        Broken::NoAttribute => VlFault::NoAttribute { name },
    }
}
