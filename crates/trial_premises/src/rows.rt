//! Worked rows, computed by the check. Deliveries have the latest first.

ghost use Rattle.std.specs.Prelude.{◌≡◌, true, false};
ghost use Rattle.books_spec.specs.Limits.{usual_limits};
ghost use Rattle.trial_spec.specs.PremiseTests.{visible, close, roomy, apparent};
ghost use Rattle.trial_premises.specs.Rows.{history, all_hold, restart_too_soon, pool_too_high, reset_first, numbers_far_apart};

/// A source is reset, its sub-agent restarts, and datagrams come twice, late and out of order: each premise holds.
pub fn all_hold_row()
    ensures visible { visible usual_limits history all_hold ≡ true }
    ensures close { close usual_limits history all_hold ≡ true }
    ensures roomy { roomy usual_limits all_hold ≡ true }
    ensures apparent { apparent usual_limits history all_hold ≡ true }
{}

/// A boot mark of the next boot within the slack, though beyond it from that of the datagram that came last: restarts
/// don't show, and the other premises hold.
pub fn restart_row()
    ensures not_visible { visible usual_limits history restart_too_soon ≡ false }
    ensures close { close usual_limits history restart_too_soon ≡ true }
    ensures roomy { roomy usual_limits restart_too_soon ≡ true }
    ensures apparent { apparent usual_limits history restart_too_soon ≡ true }
{}

/// A pool that rises by 2^32 down to a new least number: it isn't close, and the other premises hold.
pub fn pool_row()
    ensures visible { visible usual_limits history pool_too_high ≡ true }
    ensures not_close { close usual_limits history pool_too_high ≡ false }
    ensures roomy { roomy usual_limits pool_too_high ≡ true }
    ensures apparent { apparent usual_limits history pool_too_high ≡ true }
{}

/// Numbers of datagrams 2^31 apart: they aren't close, and the other premises hold.
pub fn numbers_row()
    ensures visible { visible usual_limits history numbers_far_apart ≡ true }
    ensures not_close { close usual_limits history numbers_far_apart ≡ false }
    ensures roomy { roomy usual_limits numbers_far_apart ≡ true }
    ensures apparent { apparent usual_limits history numbers_far_apart ≡ true }
{}

/// The first sample of a generation that was reset arrives behind one of the next generation: resets don't show, and the
/// other premises hold.
pub fn reset_row()
    ensures visible { visible usual_limits history reset_first ≡ true }
    ensures close { close usual_limits history reset_first ≡ true }
    ensures roomy { roomy usual_limits reset_first ≡ true }
    ensures not_apparent { apparent usual_limits history reset_first ≡ false }
{}
