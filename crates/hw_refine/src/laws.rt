//! What the definition says. The functions do nothing.
ghost use Rattle.hw_refine.specs.Drops.{DropsRefine};
ghost use Rattle.hw_refine.specs.Laws.{RefinementsCompose, RefinesItself};
ghost use Rattle.hw_refine.specs.Redirects.{RedirectsRefine};
ghost use Rattle.hw_refine.specs.Represents.{RepresentsRefine};
ghost use Rattle.hw_refine.specs.Same.{CopiesShowSame, RepeatsShowSame};

/// A netlist can stand in its own place.
pub fn refines_itself()
    ensures { RefinesItself }
{}

/// What can stand in the place of what can stand in a netlist's place can stand in that netlist's.
pub fn refinements_compose()
    ensures { RefinementsCompose }
{}

/// A netlist whose nets read others that show the same can stand in the place of the one before.
pub fn redirects_refine()
    ensures { RedirectsRefine }
{}

/// A netlist without nets that nothing reaches can stand in the place of the one with them.
pub fn drops_refine()
    ensures { DropsRefine }
{}

/// A net that is resized to its own word shows what it is made of.
pub fn copies_show_same()
    ensures { CopiesShowSame }
{}

/// The same operation on the same nets shows the same.
pub fn repeats_show_same()
    ensures { RepeatsShowSame }
{}

/// A netlist in which each net of another has one that does the same can stand in its place.
pub fn represents_refine()
    ensures { RepresentsRefine }
{}
