ghost use Rattle.std.specs.Prelude.{◌≡◌};
ghost use Rattle.dg_model.specs.Hits.{is_slow_to_fast as is_slow_to_fast_of};

/// Whether a line leads from a source of a longer period to a block of a shorter one, as into a rate
/// transition from slow to fast (Simulink reference, Rate Transition). Periods are in base samples;
/// what never changes has none.
pub fn is_slow_to_fast(driver: Option<u32>, own: Option<u32>) -> bool
    ensures { result ≡ is_slow_to_fast_of driver own }
{
    match (driver, own) {
        (Some(driver), Some(own)) => own < driver,
        (Some(_), None) => false,
        (None, Some(_)) => false,
        (None, None) => false,
    }
}
