//! How the value of each parameter is read.
ghost use Rattle.std.specs.Prelude.{IfOk};
ghost use Rattle.mdl_values.specs.Reads.{Finds};
ghost use Rattle.mdl_build.specs.inner.Readings.{IsReadAs};

use crate::library::{Parameter, Reader};
use crate::list_readers::{list, list_or_empty, parts, signs, states, taps};
use crate::plain_readers::{
    coefficient, conversion, default_alone, factors, operands, tap_type, truth, type_alone,
    type_or, type_or_first,
};
use crate::settings::Setting;
use fx_io::OutOfMemory;
use fx_type::TypeSpec;
use mdl_values::{
    read_constant_time, read_criterion, read_gate, read_number, read_period, read_relation,
    read_reset, read_rounding, read_sample_time, read_switch, read_width,
};
use std::alloc::Global;

/// Reads the value of a parameter of a block whose first parameter has the text `first`.
pub fn read_setting(
    alloc: Global,
    parameter: Parameter,
    first: &[u8],
    text: &[u8],
) -> Result<Option<Setting>, OutOfMemory>
    ensures { IfOk result (λ found. Finds (IsReadAs first.now parameter text.now) found) }
{
    let default = parameter.default().as_bytes();
    match parameter.reader() {
        Reader::Default => Ok(default_alone(text, default)),
        Reader::Port => Ok(read_number(text, 1, 20000).map(Setting::Number)),
        Reader::Width => Ok(read_width(alloc, text)?.map(Setting::Width)),
        Reader::Length => Ok(read_number(text, 1, 1024).map(Setting::Number)),
        Reader::Operands => Ok(operands(first, text)),
        Reader::TypeOrAuto => Ok(type_or(text, default, TypeSpec::Auto)),
        Reader::TypeOrFirst => Ok(type_or_first(text, default, b"Inherit: Same as first input")),
        Reader::TypeOrInput => Ok(type_or_first(text, default, b"Inherit: Same as input")),
        Reader::TypeOrInternal => Ok(type_or(text, default, TypeSpec::Internal)),
        Reader::CoefficientType => Ok(coefficient(text, default, b"Inherit: Same as input")),
        Reader::AccumulatorType => Ok(coefficient(text, default, b"Inherit: Same as first input")),
        Reader::TapType => Ok(tap_type(text, default)),
        Reader::Type => Ok(type_alone(text)),
        Reader::Truth => Ok(truth(text, default)),
        Reader::SampleTime => Ok(read_sample_time(alloc, text)?.map(Setting::Period)),
        Reader::ConstantTime => Ok(read_constant_time(alloc, text)?.map(Setting::Period)),
        Reader::Period => Ok(read_period(alloc, text)?.map(Setting::Rate)),
        Reader::List => list(alloc, text),
        Reader::ListOrEmpty => list_or_empty(alloc, text),
        Reader::Taps => Ok(taps(alloc, text)?.map(Setting::List)),
        Reader::States => states(alloc, first, text),
        Reader::Signs => signs(alloc, text),
        Reader::Factors => Ok(factors(text)),
        Reader::Parts => parts(alloc, text),
        Reader::Rounding => Ok(read_rounding(text).map(Setting::Rounding)),
        Reader::Saturation => Ok(read_switch(text).map(Setting::Saturate)),
        Reader::Reset => Ok(read_reset(text).map(Setting::Flag)),
        Reader::Criterion => Ok(read_criterion(text).map(Setting::Criterion)),
        Reader::Relation => Ok(read_relation(text).map(Setting::Relation)),
        Reader::Gate => Ok(read_gate(text).map(Setting::Gate)),
        Reader::Conversion => Ok(conversion(text, default)),
    }
}
