// The one generator of this library: the rule by which each constant follows from the one before, and each state of a load.
#![tactic(auto)]

ghost use Rattle.std.specs.Prelude.{◌≡◌};
ghost use Rattle.generator.specs.Generator.{next};

const MULTIPLIER: u64 = 6364136223846793005;

const INCREMENT: u64 = 1442695040888963407;

// The state after this one.
pub fn next(state: u64) -> u64
    ensures { result ≡ next state }
{
    MULTIPLIER.wrapping_mul(state).wrapping_add(INCREMENT)
}
