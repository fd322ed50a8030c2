ghost use Rattle.std.specs.Prelude.{◌≡◌};
ghost use Rattle.books_spec.specs.Generations.{is_before as before, later as later_of};

use books_spec::SamplePlace;

/// Whether the first place is before the second: in an earlier datagram, or in the same one with a lower index.
pub fn is_before(first: SamplePlace, second: SamplePlace) -> bool
    ensures { result ≡ before first second }
{
    first.datagram < second.datagram
        || (first.datagram == second.datagram && first.index < second.index)
}

/// The later one of two places.
pub fn later(first: SamplePlace, second: SamplePlace) -> SamplePlace
    ensures { result ≡ later_of first second }
{
    if is_before(first, second) {
        second
    } else {
        first
    }
}
