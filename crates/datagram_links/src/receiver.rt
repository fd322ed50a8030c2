ghost use Rattle.std.specs.Prelude.{◌≡◌, map};

use wire_spec::Failed;

/// What takes datagrams that are passed on. `Failed` comes from a call only where the count of faults rose in it, and
/// the place and the datagrams are then as before.
pub trait Receiver: Drop {
    ghost use Rattle.datagram_links.specs.Receivers.{ReceiverSeen, Does, aimed_at, passed_one, shown};

    /// The place that it is aimed at and the datagrams that it took, or None where it doesn't tell them; and how many
    /// calls have failed, up to 2^64 - 1.
    ghost seen: { Self → ReceiverSeen };

    /// Sets the place that it is aimed at.
    fn aim(&mut self, place: &str) -> Result<(), Failed>
        ensures { Does (seen self.old) (aimed_at place.now (seen self.old)) (seen self.new) result };

    /// Takes one datagram.
    fn pass(&mut self, bytes: &[u8]) -> Result<(), Failed>
        ensures { Does (seen self.old) (passed_one bytes.now (seen self.old)) (seen self.new) result };

    /// The datagrams that it took, where it tells them, and else none.
    fn taken(&self) -> &[Vec<u8>]
        ensures { map (λ v. v.items) result.now ≡ shown (seen self.now).told };
}
