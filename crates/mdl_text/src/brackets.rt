ghost use Rattle.std.specs.Prelude.{◌≡◌, ◌+◌, ◌^◌, ◌<◌, ◌≤◌, length, IfSome};
ghost use Rattle.mdl_text.specs.inner.Plain.{spot_at, spot_step, list_from, IsWithin};

use crate::strings::Place;

/// A place in a list: how many brackets are open beside the first, and where beside quotes.
#[derive(Clone, Copy)]
pub struct Spot {
    pub place: Place,
    pub nesting: u64,
}

/// How a list goes on over a line.
#[derive(Clone, Copy)]
pub enum ListEnd {
    /// Its last bracket stands on the line, and so many bytes are its own.
    Closed { taken: usize },
    /// It goes on in the next line, with so many brackets open beside the first.
    Open { nesting: u64 },
    /// A string is left open.
    Broken,
}

fn spot_at(place: Place, nesting: u64) -> Spot
    ensures { result ≡ spot_at place nesting }
{
    Spot { place, nesting }
}

/// Reads one byte of a list. `None` at the bracket that closes it.
#[tactic(auto, unfolding(crate::specs::inner::Plain::spot_step))]
fn spot_step(spot: Spot, byte: u8) -> Option<Spot>
    requires { spot.nesting + 1 < 2 ^ 64 }
    ensures value { result ≡ spot_step spot byte }
    ensures within { IfSome result (λ next. next.nesting ≤ spot.nesting + 1) }
{
    let Spot { place, nesting } = spot;
    match place {
        Place::Outside => match byte {
            b'"' => Some(spot_at(Place::Inside, nesting)),
            b'[' => Some(spot_at(Place::Outside, nesting + 1)),
            b']' if nesting == 0 => None,
            b']' => Some(spot_at(Place::Outside, nesting - 1)),
            _ => Some(spot),
        },
        Place::Inside => match byte {
            b'"' => Some(spot_at(Place::Outside, nesting)),
            b'\\' => Some(spot_at(Place::Escaped, nesting)),
            _ => Some(spot),
        },
        Place::Escaped => Some(spot_at(Place::Inside, nesting)),
    }
}

/// How a list with so many brackets open beside the first goes on over a line.
pub fn list_end(nesting: u64, line: &[u8]) -> ListEnd
    requires { nesting + length line.now < 2 ^ 64 }
    ensures value { result ≡ list_from nesting line.now }
    ensures within { IsWithin (length line.now) (nesting + length line.now) result }
{
    let mut spot = spot_at(Place::Outside, nesting);
    for (i, byte) in line.iter().enumerate() {
        match spot_step(spot, *byte) {
            None => return ListEnd::Closed { taken: i + 1 },
            Some(next) => spot = next,
        }
    }
    let Spot { place, nesting } = spot;
    match place {
        Place::Outside => ListEnd::Open { nesting },
        Place::Inside | Place::Escaped => ListEnd::Broken,
    }
}
