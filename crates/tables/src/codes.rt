// Polarities and units by their numbers, for any number: refusal 11 keeps others than 0 and 1 out wherever they are read. One
// generic function for both would need a trait that names each type's default, which is longer than the two calls.
ghost use Rattle.std.specs.Prelude.{◌≡◌};
ghost use Rattle.rules.specs.Codes.{polarity_of, unit_of};

use rules::transient::{PulsePolarity, TraceTimeUnit};

pub fn polarity_of(code: u8) -> PulsePolarity
    ensures { result ≡ polarity_of code }
{
    PulsePolarity::try_from(code).unwrap_or(PulsePolarity::Low)
}

pub fn unit_of(code: u8) -> TraceTimeUnit
    ensures { result ≡ unit_of code }
{
    TraceTimeUnit::try_from(code).unwrap_or(TraceTimeUnit::GameTick)
}
