//! One chain of registers for all readers of a source.
ghost use Rattle.std.specs.Prelude.{◌<◌, ◌≤◌, IfOk, length};
ghost use Rattle.hw_build.specs.inner.Wants.{AreAnswered, AreClasses, AreWants};
ghost use Rattle.hw_build.specs.inner.EndSearch.{AreAsked, AreNumbered};
ghost use Rattle.hw_build.specs.inner.Wants.{IsClass, IsClassAnswered};

use crate::asks::{Asks, nets_of};
use crate::wants::{Class, Classes, seats_of};
use fx_io::{OutOfMemory, Sizes};
use hw_lines::chain;
use hw_net::Netlist;
use std::alloc::Global;
use std::collections::BTreeMap;

/// The chain of a class: a net for each of its uses.
fn put_class(alloc: Global, net: &mut Netlist, class: &Class) -> Result<Sizes, OutOfMemory>
    requires low { 0 < net.old.cycles }
    requires high { net.old.cycles ≤ 1024 }
    requires class { IsClass net.old class.now }
    ensures { IfOk result (λ numbers. IsClassAnswered net.old net.new class.now numbers) }
{
    let feed = class.feed;
    chain(
        alloc,
        net,
        feed.hub,
        feed.frame,
        feed.first.unwrap_or(0),
        feed.first.is_some(),
        class.uses.as_slice(),
    )
}

/// The chains of all classes.
fn put_classes(
    alloc: Global,
    net: &mut Netlist,
    classes: &[Class],
) -> Result<Vec<Sizes>, OutOfMemory>
    requires low { 0 < net.old.cycles }
    requires high { net.old.cycles ≤ 1024 }
    requires classes { AreClasses net.old classes.now }
    ensures { IfOk result (λ answers.
        AreAnswered net.old net.new classes.now answers.items (length classes.now)) }
{
    let mut answers: Vec<Sizes> = Vec::new(alloc);
    for class in classes {
        let own = put_class(alloc, net, class)?;
        answers.push(own)?;
    }
    Ok(answers)
}

/// The nets of what ends ask: one for each ask. Sources are shown later to their readers, and those
/// of one source share one chain.
pub fn put_asks(alloc: Global, net: &mut Netlist, asks: &Asks) -> Result<Sizes, OutOfMemory>
    requires low { 0 < net.old.cycles }
    requires high { net.old.cycles ≤ 1024 }
    requires wants { AreWants net.old asks.now.wants.items }
    requires numbered { AreNumbered asks.now.list.items (length asks.now.wants.items) }
    ensures { IfOk result (λ nets.
        AreAsked net.old net.new asks.now.list.items asks.now.wants.items nets) }
{
    let mut classes = Classes {
        list: Vec::new(alloc),
        numbers: BTreeMap::new(alloc),
    };
    let seats = seats_of(alloc, &mut classes, asks.wants.as_slice())?;
    let answers = put_classes(alloc, net, classes.list.as_slice())?;
    nets_of(
        alloc,
        asks.list.as_slice(),
        seats.as_slice(),
        answers.as_slice(),
    )
}
