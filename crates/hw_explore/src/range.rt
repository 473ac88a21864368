/// From a number to another (own).
#[derive(Clone, Copy)]
pub struct Ends {
    /// The lowest number.
    pub low: u64,
    /// The highest number.
    pub high: u64,
}

/// Numbers of clocks for a base sample and numbers of multipliers, each from the lowest to the
/// highest (own).
#[derive(Clone, Copy)]
pub struct Range {
    /// The least number of clocks, at least 1.
    pub low_cycles: u32,
    /// The greatest number of clocks, at most 1024.
    pub high_cycles: u32,
    /// The least number of multipliers.
    pub low_multipliers: u32,
    /// The greatest number of multipliers, at most 64.
    pub high_multipliers: u32,
}

ghost use Rattle.std.specs.Prelude.{◌≡◌, ◌<◌, ◌≤◌, IfSome};
ghost use Rattle.dg_model.specs.Limits.{most_cycles};
ghost use Rattle.hw_explore.specs.Range.{IsRange, between as between_of, choices_of, cycles_of, is_range, multipliers_of, pairs_of, range_between};

/// Whether the ends are those of a range.
fn is_range_between(cycles: Ends, multipliers: Ends) -> bool
    ensures { result ≡ is_range (between_of cycles multipliers) }
{
    1 <= cycles.low
        && cycles.low <= cycles.high
        && cycles.high <= 1024
        && multipliers.low <= multipliers.high
        && multipliers.high <= 64
        && (cycles.high - cycles.low + 1) * (multipliers.high - multipliers.low + 1) <= 4096
}

impl Range {
    /// The range of clocks and of multipliers between these ends, where they are 1 to 1024 clocks and
    /// 0 to 64 multipliers, each from the lowest to the highest, and at most 4096 pairs.
    pub fn between(cycles: Ends, multipliers: Ends) -> Option<Range>
        ensures is { result ≡ range_between cycles multipliers }
        ensures range { IfSome result IsRange }
    {
        if !is_range_between(cycles, multipliers) {
            return None;
        }
        Some(Range {
            low_cycles: cycles.low as u32,
            high_cycles: cycles.high as u32,
            low_multipliers: multipliers.low as u32,
            high_multipliers: multipliers.high as u32,
        })
    }

    /// How many numbers of multipliers there are.
    fn choices(&self) -> u32
        requires { IsRange self.now }
        ensures is { result ≡ choices_of self.now }
        ensures some { 0 < result }
        ensures few { result ≤ 65 }
    {
        self.high_multipliers - self.low_multipliers + 1
    }

    /// How many plans there are.
    pub fn pairs(&self) -> u32
        requires { IsRange self.now }
        ensures { result ≡ pairs_of self.now }
    {
        (self.high_cycles - self.low_cycles + 1) * self.choices()
    }

    /// The clocks of the plan of this number.
    pub fn cycles(&self, place: u32) -> u32
        requires range { IsRange self.now }
        requires there { place < pairs_of self.now }
        ensures is { result ≡ cycles_of self.now place }
        ensures some { 1 ≤ result }
        ensures few { result ≤ most_cycles }
    {
        self.low_cycles + place / self.choices()
    }

    /// The multipliers of the plan of this number.
    pub fn multipliers(&self, place: u32) -> u32
        requires { IsRange self.now }
        ensures is { result ≡ multipliers_of self.now place }
        ensures few { result ≤ 64 }
    {
        self.low_multipliers + place % self.choices()
    }
}
