//! Why what is built shows a table. The function does nothing.
ghost use Rattle.hw_shows.specs.Laws.{BuiltIsShown, StagesAreShown, OperandsAreServed};

/// Waves that are built as a schedule of a checked diagram says, and driven by a stimulus, show each
/// table that solves the diagram: every entry of every block at every clock at which it is to be
/// seen, before its pipeline, in each register of it and behind it, and to a shared operation from
/// the clock of its slot on (own).
pub fn built_is_shown()
    ensures shown { BuiltIsShown }
    ensures stages { StagesAreShown }
    ensures served { OperandsAreServed }
{
    dg_blocks::each_is_one();
    hw_net::register_is_closed();
    hw_net::enabled_register_is_closed();
}
