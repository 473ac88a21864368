ghost use Rattle.std.specs.Prelude.{◌≡◌};
ghost use Rattle.cmd_sample.specs.Numbers.{number_after as number_after_of};

/// The number after a number of a sample (Knuth, MMIX).
#[tactic(auto, unfolding(crate::specs::Numbers::number_after), using(crate::proofs::Congruence::after_is))]
pub fn number_after(number: u64) -> u64
    ensures { result ≡ number_after_of number }
{
    number
        .wrapping_mul(6364136223846793005)
        .wrapping_add(1442695040888963407)
}
