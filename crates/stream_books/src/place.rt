ghost use Rattle.std.specs.Prelude.{◌≡◌, ◌^◌, ◌≤◌, pos, ◌+ℤ◌, ◌-ℤ◌, ◌≤ℤ◌};
ghost use Rattle.count_spec.specs.Boots.{is_near_multiple, place_at};

use count_spec::StretchPlace;

// Whether the difference of two boot marks is at most the slack away from a multiple of 2^32, in ms.
fn is_near_multiple_of_wrap(slack: u32, difference: i128) -> bool
    requires from { pos 0 ≤ℤ (difference +ℤ pos (2 ^ 65)) }
    requires to { difference ≤ℤ pos (2 ^ 65) }
    ensures { result ≡ is_near_multiple slack difference }
{
    let above = difference.rem_euclid(4294967296);
    above <= slack as i128 || 4294967296 - above <= slack as i128
}

/// The place of a datagram whose boot mark less that of the newest datagram of the current boot is this, in ms.
pub fn place_of(slack: u32, difference: i128) -> StretchPlace
    requires from { pos 0 ≤ℤ (difference +ℤ pos (2 ^ 65)) }
    requires to { difference ≤ℤ pos (2 ^ 65) }
    ensures { result ≡ place_at slack difference }
{
    if is_near_multiple_of_wrap(slack, difference) {
        StretchPlace::Current
    } else if difference > 0 {
        StretchPlace::Next
    } else {
        StretchPlace::Stale
    }
}
