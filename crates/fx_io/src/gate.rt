/// What a worker passes before its piece of work (own). No result depends on a gate: a test uses
/// one to see that two workers are under way at once.
pub trait Gate {
    /// Passes before the piece of work at this place, counted from 0. Returns whatever the place.
    fn pass(&self, place: u64);
}

/// The gate that does nothing.
#[derive(Clone, Copy, Drop)]
pub struct OpenGate;

impl Gate for OpenGate {
    fn pass(&self, _place: u64) {}
}
