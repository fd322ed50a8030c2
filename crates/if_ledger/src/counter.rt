ghost use Rattle.std.specs.Prelude.{◌≡◌, ◌+◌, ◌<◌, ◌≤◌, ◌^◌};
ghost use Rattle.count_spec.specs.CounterRise.{step_between};
ghost use Rattle.if_ledger.specs.Records.{modulus_32, modulus_64};
ghost use Rattle.if_ledger.specs.Counters.{risen_32, risen_64};

use count_spec::Place;

/// The rise of a counter of 32 bits over runs, from the least to the greatest number of each.
#[derive(Debug, Drop)]
pub struct Counter32 {
    /// The sum of the steps.
    pub total: u128,
    /// The value at the greatest number of the last run; 0 where there is none.
    pub at_greatest: u32,
    /// The value at the least number of the last run; 0 where there is none.
    pub at_least: u32,
}

impl Counter32 {
    /// The rise over no runs.
    pub fn none() -> Counter32
        ensures { result ≡ record { total = 0; at_greatest = 0; at_least = 0 } }
    {
        Counter32 {
            total: 0,
            at_greatest: 0,
            at_least: 0,
        }
    }

    /// Enters the value that a number at this place shows. Values go on from 2^32 - 1 to 0.
    pub fn enter(&mut self, place: Place, value: u32)
        requires few { self.old.total < 2 ^ 126 }
        ensures risen { self.new ≡ risen_32 self.old place value }
        ensures few { self.new.total ≤ self.old.total + 2 ^ 64 }
    {
        match place {
            Place::Only => {
                self.at_greatest = value;
                self.at_least = value;
            }
            Place::Newest => {
                self.total += step_32(self.at_greatest, value);
                self.at_greatest = value;
            }
            Place::Inside => {}
            Place::Least => {
                self.total += step_32(value, self.at_least);
                self.at_least = value;
            }
        }
    }
}

/// The rise of a counter of 64 bits over runs, from the least to the greatest number of each.
#[derive(Debug, Drop)]
pub struct Counter64 {
    /// The sum of the steps.
    pub total: u128,
    /// The value at the greatest number of the last run; 0 where there is none.
    pub at_greatest: u64,
    /// The value at the least number of the last run; 0 where there is none.
    pub at_least: u64,
}

impl Counter64 {
    /// The rise over no runs.
    pub fn none() -> Counter64
        ensures { result ≡ record { total = 0; at_greatest = 0; at_least = 0 } }
    {
        Counter64 {
            total: 0,
            at_greatest: 0,
            at_least: 0,
        }
    }

    /// Enters the value that a number at this place shows. Values go on from 2^64 - 1 to 0.
    pub fn enter(&mut self, place: Place, value: u64)
        requires few { self.old.total < 2 ^ 126 }
        ensures risen { self.new ≡ risen_64 self.old place value }
        ensures few { self.new.total ≤ self.old.total + 2 ^ 64 }
    {
        match place {
            Place::Only => {
                self.at_greatest = value;
                self.at_least = value;
            }
            Place::Newest => {
                self.total += step_64(self.at_greatest, value);
                self.at_greatest = value;
            }
            Place::Inside => {}
            Place::Least => {
                self.total += step_64(value, self.at_least);
                self.at_least = value;
            }
        }
    }
}

// From one value of a counter of 32 bits to the next, mod 2^32.
fn step_32(before: u32, after: u32) -> u128
    ensures step { result ≡ step_between modulus_32 before after }
    ensures few { result < 2 ^ 64 }
{
    after.wrapping_sub(before) as u128
}

// From one value of a counter of 64 bits to the next, mod 2^64.
fn step_64(old: u64, new: u64) -> u128
    ensures step { result ≡ step_between modulus_64 old new }
    ensures few { result < 2 ^ 64 }
{
    new.wrapping_sub(old) as u128
}
