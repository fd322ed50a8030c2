ghost use Rattle.std.specs.Prelude.{◌≡◌, IfOk, IfSome};
ghost use Rattle.datagram_links.specs.Clocks.{ClockSeen, Tells, value_of};

use wire_spec::Failed;

/// A clock.
pub trait Clock {
    /// The values that it gives one after the other, and then the last one over and over, or None where it doesn't
    /// tell them; and how many calls have failed, up to 2^64 - 1.
    ghost seen: { Self → ClockSeen };

    /// The time in ms. `Failed` comes only where the count of faults rose in this call, and nothing else changes then.
    fn now(&mut self) -> Result<u64, Failed>
        ensures value { IfOk result (λ at. IfSome (seen self.old).told (λ values. at ≡ value_of values)) }
        ensures moves { Tells (seen self.old) (seen self.new) result };
}
