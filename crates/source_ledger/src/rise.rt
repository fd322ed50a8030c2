ghost use Rattle.std.specs.Prelude.{◌≡◌, ◌+◌, ◌<◌, ◌≤◌, ◌^◌};
ghost use Rattle.source_ledger.specs.Rises.{risen, greatest_after};

use late_window::{Entered, Place};

/// The rise of a 32-bit value over boots, from the least to the greatest number of each.
#[derive(Debug, Drop)]
pub struct Rise {
    /// The sum of the steps.
    pub total: u128,
    /// The value at the greatest number of the last boot; 0 where there is none.
    pub at_greatest: u32,
    /// The value at the least number of the last boot; 0 where there is none.
    pub at_least: u32,
}

impl Rise {
    /// The rise over no boots.
    pub fn none() -> Rise
        ensures { result ≡ record { total = 0; at_greatest = 0; at_least = 0 } }
    {
        Rise {
            total: 0,
            at_greatest: 0,
            at_least: 0,
        }
    }

    /// Enters the value that a number shows, by the window's answer to it. Values go on from 2^32 - 1 to 0.
    pub fn enter(&mut self, answer: Entered, value: u32)
        requires few { self.old.total < 2 ^ 100 }
        ensures risen { self.new ≡ risen self.old answer value }
        ensures few { self.new.total < self.old.total + 2 ^ 32 }
    {
        if let Entered::First { place, .. } = answer {
            match place {
                Place::Only => {
                    self.at_greatest = value;
                    self.at_least = value;
                }
                Place::Newest => {
                    self.total += value.wrapping_sub(self.at_greatest) as u128;
                    self.at_greatest = value;
                }
                Place::Inside => {}
                Place::Least => {
                    self.total += self.at_least.wrapping_sub(value) as u128;
                    self.at_least = value;
                }
            }
        }
    }
}

/// The value at the greatest number, after a number that shows `new` was answered so.
pub fn newest_value(answer: Entered, new: u32, old: u32) -> u32
    ensures { result ≡ greatest_after answer new old }
{
    match answer {
        Entered::First {
            place: Place::Only | Place::Newest,
            ..
        } => new,
        _ => old,
    }
}
