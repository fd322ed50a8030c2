ghost use Rattle.std.specs.Prelude.{◌≡◌, ◌+◌, ◌^◌, nat_lt, pos};
ghost use Rattle.trial_spec.specs.CloseTests.{both_ends, ends_with, rises_from};

use std::marker::Model;

/// The greatest number of a generation and the least, and the latest value at each.
#[derive(Debug, Drop)]
pub struct TrueEnds {
    greatest: u128,
    at_greatest: u128,
    least: u128,
    at_least: u128,
}

impl Model for TrueEnds {
    ghost use Rattle.std.specs.Prelude.{pos};
    ghost use Rattle.trial_spec.specs.CloseTests.{Ends};

    ghost Value = { Ends };

    ghost view = { λ e. record {
      greatest = pos e.greatest;
      at_greatest = e.at_greatest;
      least = pos e.least;
      at_least = e.at_least;
    } };
}

// A value that rises by this much, or by more, isn't told from 32 bits.
const MODULUS: u128 = 1 << 32;

impl TrueEnds {
    /// Of the first value.
    pub fn of(number: u128, value: u128) -> TrueEnds
        ensures { result ≡ both_ends (record { number = pos number; value = value }) }
    {
        TrueEnds {
            greatest: number,
            at_greatest: value,
            least: number,
            at_least: value,
        }
    }

    /// Whether a value rises by less than 2^32 from that at the greatest number, where its number is above it, and that
    /// at the least from it, where its number is below.
    pub fn rises(&self, number: u128, value: u128) -> bool
        ensures { result ≡ rises_from (2 ^ 32) self.now (record { number = pos number; value = value }) }
    {
        let up = self.greatest >= number || rises_by_less(value, self.at_greatest);
        let down = number >= self.least || rises_by_less(self.at_least, value);
        up && down
    }

    /// Enters a value.
    pub fn enter(&mut self, number: u128, value: u128)
        ensures { self.new ≡ ends_with self.old (record { number = pos number; value = value }) }
    {
        if self.greatest <= number {
            self.greatest = number;
            self.at_greatest = value;
        }
        if number <= self.least {
            self.least = number;
            self.at_least = value;
        }
    }
}

// Whether a value is above another by less than 2^32, or not above it.
fn rises_by_less(value: u128, from: u128) -> bool
    ensures { result ≡ nat_lt value (from + 2 ^ 32) }
{
    value.saturating_sub(from) < MODULUS
}
