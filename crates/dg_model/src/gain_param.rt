//! The type of a Gain's coefficients.
ghost use Rattle.dg_model.specs.GainParam.{ParamTypeIsOne};

/// A law, which callers may use: a Gain's parameter type is the one that the function gives, and
/// there is none where it gives none. It does nothing.
pub fn param_type_is_one()
    ensures { ParamTypeIsOne }
{}
