//! Workers that wait for each other.

use fx_io::Gate;
use std::sync::atomic::{AtomicU64, Ordering};

/// How often a worker looks for the other at the most.
const MOST_TURNS: u64 = 1_000_000_000;

/// At the first and at the last place a worker raises its flag and waits for the other's.
#[derive(Drop)]
pub struct Meeting {
    last_place: u64,
    first: AtomicU64,
    last: AtomicU64,
    met: AtomicU64,
}

impl Meeting {
    /// Where the last worker passes at this place.
    pub fn new(last_place: u64) -> Meeting {
        Meeting {
            last_place,
            first: AtomicU64::new(0),
            last: AtomicU64::new(0),
            met: AtomicU64::new(0),
        }
    }

    /// How many workers met the other.
    pub fn met_count(&self) -> u64 {
        self.met.load(Ordering::SeqCst)
    }

    fn wait(&self, own: &AtomicU64, other: &AtomicU64) {
        own.store(1, Ordering::SeqCst);
        for _ in 0..MOST_TURNS {
            if other.load(Ordering::SeqCst) == 1 {
                self.met.fetch_add(1, Ordering::SeqCst);
                return;
            }
        }
    }
}

impl Gate for Meeting {
    fn pass(&self, place: u64) {
        if place == 0 {
            self.wait(&self.first, &self.last);
        } else if place == self.last_place {
            self.wait(&self.last, &self.first);
        }
    }
}
