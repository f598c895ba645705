// Delays in redstone ticks.
ghost use Rattle.std.specs.Prelude.{⊤, ◌≡◌};
ghost use Rattle.rules.specs.Delay.{saturating_add, add_range, zero_range};

use std::ops::Add;

#[derive(Clone, Copy, PartialEq, Eq, Debug)]
pub struct DelayRange {
    pub minimum_redstone_ticks: u32,
    pub maximum_redstone_ticks: u32,
}

// The sum of two numbers, or the largest number of 32 bits where it would be above that. It is the library's method,
// and stands since other crates can call it by this name.
#[tactic(auto, unfolding(crate::specs::Delay::saturating_add))]
pub fn saturating_add(a: u32, b: u32) -> u32
    ensures { result ≡ saturating_add a b }
{
    a.saturating_add(b)
}

impl DelayRange {
    pub const ZERO: DelayRange = DelayRange {
        minimum_redstone_ticks: 0,
        maximum_redstone_ticks: 0,
    };

    // zero and add stand since other crates can call them by these names; what is used here is ZERO and +.
    pub fn zero() -> Self
        ensures { result ≡ zero_range }
    {
        DelayRange::ZERO
    }

    pub fn add(self, other: Self) -> Self
        ensures { result ≡ add_range self other }
    {
        DelayRange {
            minimum_redstone_ticks: saturating_add(
                self.minimum_redstone_ticks,
                other.minimum_redstone_ticks,
            ),
            maximum_redstone_ticks: saturating_add(
                self.maximum_redstone_ticks,
                other.maximum_redstone_ticks,
            ),
        }
    }
}

impl Add for DelayRange {
    type Output = DelayRange;

    ghost can_add = { λ _ _. ⊤ };

    ghost add_gives = { λ a b sum. sum ≡ add_range a b };

    fn add(self, other: DelayRange) -> DelayRange {
        DelayRange::add(self, other)
    }
}
