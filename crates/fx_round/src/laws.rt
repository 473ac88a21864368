//! Laws of rounding and conversion, which callers may use. The functions do nothing.
ghost use Rattle.fx_round.specs.Laws.{RoundingIsMonotone, FloorIsLeast, CeilingIsGreatest, ExactIsKept, SameTypeIsIdentity, RoundingGivesOne, ConversionGivesOne, StoringGivesOne};

/// A greater number is rounded to one that is no less.
pub fn rounding_is_monotone()
    ensures { RoundingIsMonotone }
{}

/// No mode goes below `Floor` or above `Ceiling`.
pub fn floor_and_ceiling_bound_every_mode()
    ensures floor { FloorIsLeast }
    ensures ceiling { CeilingIsGreatest }
{}

/// A type that has the value exactly keeps it.
pub fn exact_conversion_is_exact()
    ensures { ExactIsKept }
{}

/// A conversion to the same type changes nothing.
pub fn same_type_is_identity()
    ensures { SameTypeIsIdentity }
{}

/// Each mode rounds a quotient to exactly one whole number.
pub fn rounding_gives_one()
    ensures { RoundingGivesOne }
{}

/// A conversion gives exactly one number, in the range of the type.
pub fn conversion_gives_one()
    ensures { ConversionGivesOne }
{}

/// A decimal is stored as exactly one number, in the range of the type.
pub fn storing_gives_one()
    ensures { StoringGivesOne }
{}
