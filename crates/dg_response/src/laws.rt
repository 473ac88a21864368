//! Laws of responses. The functions do nothing.
ghost use Rattle.dg_response.specs.Laws.{ResponsesAreOne, SomeResponds};

/// There is one response of a diagram that keeps the rules to the rows of a stimulus (own).
pub fn one_response()
    ensures { ResponsesAreOne }
{
    dg_model::root_elements_are_listed();
    dg_tables::tables_are_one();
}

/// There is a response of a diagram that keeps the rules to the rows of a stimulus (own).
pub fn some_response()
    ensures { SomeResponds }
{
    dg_model::columns_are_a_stimulus();
    dg_tables::some_table_solves();
}
