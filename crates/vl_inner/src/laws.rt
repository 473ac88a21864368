//! Laws of expressions and items over other names. The functions do nothing.
ghost use Rattle.vl_inner.specs.Laws.{RenamedIsOfGrammar, RenamedIsSame, RenamedMeans, RenamedMultiplies, RenamedReads};

/// An expression over other names means what it means over its own, where the same is declared of both.
pub fn renamed_means()
    ensures { RenamedMeans }
{}

/// It reads the other names.
pub fn renamed_reads()
    ensures { RenamedReads }
{}

/// An item over other names is of the grammar where the item is.
pub fn renamed_is_of_grammar()
    ensures { RenamedIsOfGrammar }
{}

/// It has as many multiplications.
pub fn renamed_multiplies()
    ensures { RenamedMultiplies }
{}

/// Over its own names it is itself.
pub fn renamed_is_same()
    ensures { RenamedIsSame }
{}
