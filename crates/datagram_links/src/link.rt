ghost use Rattle.std.specs.Prelude.{IfOk, IfSome};
ghost use Rattle.datagram_links.specs.Links.{LinkSeen, Makes, FitsRoom, GivesNext, listening, aimed, received_one, sent_one};

use crate::Received;
use wire_spec::Failed;

/// A link over which datagrams come and go. `Failed` comes from a call only where the count of faults rose in it, and
/// all else that the link tells is then as before. A call that succeeds leaves whatever its entry doesn't name.
pub trait Link {
    /// The items that it has left, its two places and the datagrams that it took, or None where it doesn't tell them;
    /// and how many calls have failed, up to 2^64 - 1.
    ghost seen: { Self → LinkSeen };

    /// Sets the place that it listens at.
    fn listen(&mut self, place: &str) -> Result<(), Failed>
        ensures { Makes (seen self.old) (listening place.now (seen self.old)) (seen self.new) result };

    /// Sets the place that it is aimed at.
    fn aim(&mut self, place: &str) -> Result<(), Failed>
        ensures { Makes (seen self.old) (aimed place.now (seen self.old)) (seen self.new) result };

    /// Moves the next item: a datagram, whose first bytes go to the start of the room, as many as it has, with the
    /// arrival in ms; or `Quiet`, which also comes behind the last item.
    fn receive(&mut self, room: &mut [u8]) -> Result<Received, Failed>
        ensures bound { IfOk result (λ r. FitsRoom r room.new) }
        ensures moves { Makes (seen self.old) (received_one (seen self.old)) (seen self.new) result }
        ensures gives { IfOk result (λ r. IfSome (seen self.old).told (λ told. GivesNext told.items r room.new)) };

    /// Takes one datagram to send.
    fn send(&mut self, bytes: &[u8]) -> Result<(), Failed>
        ensures { Makes (seen self.old) (sent_one bytes.now (seen self.old)) (seen self.new) result };
}
