//! The memory of a Delay (Simulink reference, Delay).
ghost use Rattle.std.specs.Prelude.{◌≡◌, ◌<◌, ◌≤◌, ◌∷◌, ◌^◌, length, take, slice_get};
ghost use Rattle.dg_sim.specs.Ring.{place, ring_values};

/// Where a ring stands.
#[derive(Clone, Copy)]
pub struct Ring {
    /// The place of the latest value.
    pub head: usize,
    /// How many places are in use.
    pub filled: usize,
}

impl Ring {
    /// The value that is so much older than the latest.
    pub fn get(self, values: &[i128], age: usize) -> Option<i128>
        requires head { self.head < length values.now }
        requires filled { self.filled ≤ length values.now }
        ensures { result ≡ slice_get (ring_values values.now self.head self.filled) age }
    {
        if age < self.filled {
            Some(values[self.place(values.len(), age)])
        } else {
            None
        }
    }

    /// Where it stands among so many places.
    fn place(self, n: usize, age: usize) -> usize
        requires head { self.head < n }
        requires age { age < n }
        requires room { n < 2 ^ 62 }
        ensures is { result ≡ place n self.head age }
        ensures there { result < n }
    {
        if self.head + age < n {
            self.head + age
        } else {
            self.head + age - n
        }
    }

    /// The ring with one more value, which takes the place of the oldest where all are in use.
    pub fn push(self, values: &mut [i128], v: i128) -> Ring
        requires head { self.head < length values.old }
        requires filled { self.filled ≤ length values.old }
        ensures head { result.head < length values.new }
        ensures filled { result.filled ≤ length values.new }
        ensures same { length values.new ≡ length values.old }
        ensures kept { ring_values values.new result.head result.filled
            ≡ take (length values.old) (v ∷ ring_values values.old self.head self.filled) }
    {
        let n = values.len();
        let head = if self.head == 0 { n - 1 } else { self.head - 1 };
        let filled = if self.filled < n { self.filled + 1 } else { n };
        values[head] = v;
        Ring { head, filled }
    }
}
