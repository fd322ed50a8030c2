ghost use Rattle.std.specs.Prelude.{◌≡◌, pos, ◌^◌, ◌≤ℤ◌};
ghost use Rattle.count_spec.specs.Windows.{near};
ghost use Rattle.late_window.specs.Steps.{IsBeside};

/// On which side of the newest number a number is, and how far away.
pub enum Side {
    /// So far above, from 1 up to and without 2^31.
    Above(u32),
    /// So far below, from 0 to 2^31.
    Below(u32),
}

/// The number that a mark stands for: the one congruent to it mod 2^32 that is at least `newest - 2^31` and
/// less than `newest + 2^31`.
pub fn nearest(mark: u32, newest: i128) -> i128
    requires from { pos 0 ≤ℤ newest }
    requires to { newest ≤ℤ pos (2 ^ 100) }
    ensures { result ≡ near mark newest }
{
    let lowest = newest - 2147483648;
    lowest + (mark as i128 - lowest).rem_euclid(4294967296)
}

/// The side of the number that a mark stands for.
pub fn side_of(mark: u32, newest: i128) -> Side
    requires from { pos 0 ≤ℤ newest }
    requires to { newest ≤ℤ pos (2 ^ 100) }
    ensures { IsBeside result newest (near mark newest) }
{
    let number = nearest(mark, newest);
    if number > newest {
        Side::Above((number - newest) as u32)
    } else {
        Side::Below((newest - number) as u32)
    }
}
