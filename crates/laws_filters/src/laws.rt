//! What the definitions together say. Each law is a function that does nothing.
ghost use Rattle.laws_filters.specs.Laws.{FiltersConvolve, FiltersFit, FittingConvolve};

/// The blocks of a filter in a diagram that keeps the rules fit one another: they have one width, each
/// product has its full type, and the delays run with the sum.
pub fn filters_fit()
    ensures { FiltersFit }
{
    dg_tables::operations_prepare();
    fx_type::full_product_is_one();
    hw_sched::periods_are_above();
}

/// In a table that solves, the entry of a filter's sum at a hit is the convolution of its coefficients
/// with its input (Simulink reference, Discrete FIR Filter, direct form), where its blocks fit one
/// another.
fn fitting_convolve()
    ensures { FittingConvolve }
{
    dg_filters::taps_are_held();
    dg_tables::operations_prepare();
    dg_tables::solved_is_in_range();
    fx_round::same_type_is_identity();
    fx_round::storing_gives_one();
    fx_type::full_product_is_one();
}

/// In a table that solves, the entry of each filter's sum at a hit is the convolution of its
/// coefficients with its input (Simulink reference, Discrete FIR Filter, direct form).
pub fn filters_convolve()
    ensures { FiltersConvolve }
{
    filters_fit();
    fitting_convolve();
}
