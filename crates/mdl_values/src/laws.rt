//! What the definitions together say. The law is a function that does nothing.
ghost use Rattle.mdl_values.specs.Laws.{ValuesAreOne};

/// A text has at most one value of each kind.
pub fn values_are_one()
    ensures { ValuesAreOne }
{}
