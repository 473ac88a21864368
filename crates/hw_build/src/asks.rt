//! What the elements of ends ask: nets as they are, or shown later.
ghost use Rattle.std.specs.Prelude.{◌+◌, ◌<◌, ◌≤◌, ◌^◌, None, Some, IfOk, OnOk, length};
ghost use Rattle.hw_build.specs.inner.EndSearch.{AreNets, AreNumbered, AsksAll, AsksOne, IsNetFor, IsNumber};
ghost use Rattle.hw_build.specs.inner.EndSearch.{hub_from, plain_want, unasked};
ghost use Rattle.hw_build.specs.inner.Wants.{ArePlaces, nets_at};

use crate::wants::{Feed, Seat, Want};
use fx_io::{OutOfMemory, Sizes};
use hw_lines::Use;
use hw_net::Frame;
use std::alloc::Global;

/// What an element of an end asks: the net of a source, and the number of the want if that is to be
/// shown later.
#[derive(Clone, Copy)]
pub struct Ask {
    pub hub: u32,
    pub want: Option<u32>,
}

/// The asks of all ends in order, and the wants of those that ask for something later.
#[derive(Drop)]
pub struct Asks {
    pub list: Vec<Ask>,
    pub wants: Vec<Want>,
}

/// What is asked stands behind the other asks, or want of memory.
pub type Asked = Result<(), OutOfMemory>;

/// Asks for a net that is shown later.
pub fn ask_later(asks: &mut Asks, want: Want) -> Asked
    ensures { OnOk result (AsksOne asks.old.list.items asks.new.list.items
        asks.old.wants.items asks.new.wants.items want.feed.hub (Some want)) }
{
    let Ok(number) = u32::try_from(asks.wants.len()) else {
        // word: the number of a want, of 32 bits
        return Err(OutOfMemory);
    };
    asks.list.push(Ask {
        hub: want.feed.hub,
        want: Some(number),
    })?;
    asks.wants.push(want)?;
    Ok(())
}

/// Asks for the elements of a signal, whose nets stand one behind another, as they are.
pub fn ask_signal(asks: &mut Asks, first: u32, width: u32) -> Asked
    requires { first + width ≤ 2 ^ 32 }
    ensures { OnOk result (AsksAll asks.old.list.items asks.new.list.items
        asks.old.wants.items asks.new.wants.items (hub_from first) unasked width) }
{
    for element in 0..width {
        asks.list.push(Ask {
            hub: first + element,
            want: None,
        })?;
    }
    Ok(())
}

/// Asks for the elements of a signal, shown later.
pub fn ask_plain(asks: &mut Asks, first: u32, width: u32, frame: Frame, to: Use) -> Asked
    requires { first + width ≤ 2 ^ 32 }
    ensures { OnOk result (AsksAll asks.old.list.items asks.new.list.items
        asks.old.wants.items asks.new.wants.items (hub_from first) (plain_want first frame to)
        width) }
{
    for element in 0..width {
        let feed = Feed {
            hub: first + element,
            frame,
            first: None,
        };
        ask_later(asks, Want { feed, to })?;
    }
    Ok(())
}

/// The net of an ask: its own, or that at the seat of its want.
fn net_of(ask: Ask, seats: &[Seat], answers: &[Sizes]) -> u32
    requires number { IsNumber (length seats.now) ask.want }
    requires places { ArePlaces answers.now seats.now }
    ensures { IsNetFor (nets_at answers.now seats.now) result ask.hub ask.want }
{
    match ask.want {
        None => ask.hub,
        Some(want) => {
            let seat = seats[want as usize];
            let own = answers[seat.class as usize].as_slice();
            own[seat.place as usize]
        }
    }
}

/// The nets of asks, where the wants have these seats in the answers of their classes.
pub fn nets_of(
    alloc: Global,
    list: &[Ask],
    seats: &[Seat],
    answers: &[Sizes],
) -> Result<Sizes, OutOfMemory>
    requires numbered { AreNumbered list.now (length seats.now) }
    requires places { ArePlaces answers.now seats.now }
    ensures { IfOk result (λ nets.
        AreNets list.now (nets_at answers.now seats.now) nets (length list.now)) }
{
    let mut nets = Sizes::new(alloc);
    for ask in list {
        nets.push(net_of(*ask, seats, answers))?;
    }
    Ok(nets)
}
