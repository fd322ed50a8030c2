ghost use Rattle.std.specs.Prelude.{◌≡◌};
ghost use Rattle.books_spec.specs.Generations.{is_before as before};
ghost use Rattle.trial_premises.specs.Places.{place_shown};

/// Where a sample stands in its boot.
#[derive(Clone, Copy, Debug, Drop)]
pub struct TruePlace {
    /// The number of its datagram, which never wraps.
    pub datagram: u128,
    /// Its index among all samples of the datagram, counted from 0.
    pub index: usize,
}

/// Whether the first place is before the second: in an earlier datagram, or in the same one with a lower index.
pub fn is_before(first: TruePlace, second: TruePlace) -> bool
    ensures { result ≡ before (place_shown first) (place_shown second) }
{
    first.datagram < second.datagram
        || (first.datagram == second.datagram && first.index < second.index)
}
