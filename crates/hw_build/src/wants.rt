//! What ends of blocks want of sources that are shown later, and which wants share registers.
ghost use Rattle.std.specs.Prelude.{◌≡◌, [], IfOk, OnOk, length};
ghost use Rattle.hw_build.specs.inner.Wants.{AreIndexed, IsClassFor, IsSeated, AreSeated};

use fx_io::OutOfMemory;
use hw_lines::Use;
use hw_net::Frame;
use std::alloc::Global;
use std::collections::BTreeMap;

/// A source that is shown later.
#[derive(Clone, Copy, PartialEq, Eq, PartialOrd, Ord)]
pub struct Feed {
    /// Its net.
    pub hub: u32,
    /// The frames in which it stands.
    pub frame: Frame,
    /// What it is shown to have had before, where its readers have registers.
    pub first: Option<i128>,
}

/// A reader of a source.
#[derive(Clone, Copy)]
pub struct Want {
    pub feed: Feed,
    pub to: Use,
}

/// All readers of a source, which share one chain.
#[derive(Drop)]
pub struct Class {
    pub feed: Feed,
    pub uses: Vec<Use>,
}

/// Where a reader stands: the number of its class, and its place there.
#[derive(Clone, Copy)]
pub struct Seat {
    pub class: u32,
    pub place: u32,
}

/// The readers of all sources, and the number of the class of each source.
#[derive(Drop)]
pub struct Classes {
    pub list: Vec<Class>,
    pub numbers: BTreeMap<Feed, u32>,
}

/// The number of the class of a source, which is put behind the others at its first reader.
fn class_for(alloc: Global, classes: &mut Classes, feed: Feed) -> Result<u32, OutOfMemory>
    requires { AreIndexed classes.old.list.items classes.old.numbers.entries }
    ensures is { IfOk result (λ number.
        IsClassFor classes.old.list.items classes.new.list.items feed number) }
    ensures indexed { OnOk result (AreIndexed classes.new.list.items classes.new.numbers.entries) }
{
    if let Some(found) = classes.numbers.get(&feed).copied() {
        return Ok(found);
    }
    let Ok(number) = u32::try_from(classes.list.len()) else {
        // word: the number of a class, of 32 bits
        return Err(OutOfMemory);
    };
    classes.list.push(Class {
        feed,
        uses: Vec::new(alloc),
    })?;
    let _ = classes.numbers.insert(feed, number)?;
    Ok(number)
}

/// Puts a reader behind the others of its class.
fn seat_for(alloc: Global, classes: &mut Classes, want: Want) -> Result<Seat, OutOfMemory>
    requires { AreIndexed classes.old.list.items classes.old.numbers.entries }
    ensures is { IfOk result (λ seat.
        IsSeated classes.old.list.items classes.new.list.items want seat) }
    ensures indexed { OnOk result (AreIndexed classes.new.list.items classes.new.numbers.entries) }
{
    let class = class_for(alloc, classes, want.feed)?;
    let Ok(place) = u32::try_from(classes.list[class as usize].uses.len()) else {
        // word: a place in a class, of 32 bits
        return Err(OutOfMemory);
    };
    classes.list[class as usize].uses.push(want.to)?;
    Ok(Seat { class, place })
}

/// The classes of wants, in the order of their first ones, and the places of all.
pub fn seats_of(
    alloc: Global,
    classes: &mut Classes,
    wants: &[Want],
) -> Result<Vec<Seat>, OutOfMemory>
    requires list { classes.old.list.items ≡ [] }
    requires numbers { classes.old.numbers.entries ≡ [] }
    ensures { IfOk result (λ seats.
        AreSeated wants.now classes.new.list.items seats.items (length wants.now)) }
{
    let mut seats = Vec::new(alloc);
    for want in wants {
        let seat = seat_for(alloc, classes, *want)?;
        seats.push(seat)?;
    }
    Ok(seats)
}
