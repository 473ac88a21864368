//! What the definitions together say. Each law is a function that does nothing.
ghost use Rattle.laws_samples.specs.Laws.{DiagramsHaveColumns};

/// A diagram of the form of a sample's that keeps the rules has the columns of samples.
pub fn diagrams_have_columns()
    ensures { DiagramsHaveColumns }
{}
