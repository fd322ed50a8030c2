ghost use Rattle.std.specs.Prelude.{◌≡◌, ◌<◌, IsOk, IfOk, IfSome, vec_len};
ghost use Rattle.datagram_links.specs.Clocks.{Tells, value_of, values_after};
ghost use Rattle.datagram_links.specs.Memory.{clock_seen};

use crate::Clock;
use std::marker::Model;
use wire_spec::Failed;

/// A clock over a list of values, which it gives one after the other, and then the last one over and over. It never
/// fails.
#[derive(Debug, Drop)]
pub struct ListClock {
    values: Vec<u64>,
    at: usize,
}

impl Model for ListClock {
    ghost use Rattle.std.specs.Prelude.{◌<◌, ℕ, List, drop, vec_len};

    ghost Value = { List ℕ };

    ghost view = { λ c. drop c.at c.values.items };

    ghost invariant = { λ c. c.at < vec_len c.values };
}

impl ListClock {
    /// A clock of these values in ms, at least one.
    pub fn new(values: Vec<u64>) -> ListClock
        requires { 0 < vec_len values }
        ensures { result ≡ values.items }
    {
        ListClock { values, at: 0 }
    }
}

impl Clock for ListClock {
    ghost seen = { clock_seen };

    fn now(&mut self) -> Result<u64, Failed>
        ensures value { IfOk result (λ at. IfSome (clock_seen self.old).told (λ values. at ≡ value_of values)) }
        ensures moves { Tells (clock_seen self.old) (clock_seen self.new) result }
        ensures never_fails { IsOk result }
        ensures after { self.new ≡ values_after self.old }
    {
        let value = self.values[self.at];
        if self.at + 1 < self.values.len() {
            self.at += 1;
        }
        Ok(value)
    }
}
