//! What the definitions together say. Each law is a function that does nothing.
ghost use Rattle.dg_flat.specs.Laws.{BrokenIsOne, FlatIsNotBroken, FlatIsOne, FlatIsThere};
ghost use Rattle.dg_flat.specs.Origins.{OriginsAre, OriginsDiffer};

/// Nested blocks and lines have one flat diagram that is wired, at most.
pub fn flat_is_one()
    ensures { FlatIsOne }
{}

/// The first of the rules of wiring and of enabled subsystems that is broken is told as one fault.
pub fn broken_is_one()
    ensures { BrokenIsOne }
{}

/// Where both rules are kept, none is broken.
pub fn flat_is_not_broken()
    ensures { FlatIsNotBroken }
{}

/// Sound blocks and lines can't both have no flat diagram that is wired and break neither rule.
pub fn flat_is_there()
    ensures { FlatIsThere }
{}

/// Each block of a flat diagram comes from a nested block that is no subsystem, and no two from one place.
pub fn origins_are()
    ensures come { OriginsAre }
    ensures differ { OriginsDiffer }
{}
