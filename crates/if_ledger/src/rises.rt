ghost use Rattle.std.specs.Prelude.{◌≡◌, ◌+◌, ◌-◌, ◌^◌, ℕ};
ghost use Rattle.if_ledger.specs.Records.{counters_in};
ghost use Rattle.if_ledger.specs.Counters.{no_rises, rises_after, totals_of, AreAtMost};

use crate::counter::{Counter32, Counter64};
use count_spec::Place;
use rec_counters::IfCounters;

/// The rises of the thirteen counters of an interface, in the order of its record.
#[derive(Debug, Drop)]
pub struct Rises {
    pub in_octets: Counter64,
    pub in_ucast: Counter32,
    pub in_multicast: Counter32,
    pub in_broadcast: Counter32,
    pub in_discards: Counter32,
    pub in_errors: Counter32,
    pub in_unknown: Counter32,
    pub out_octets: Counter64,
    pub out_ucast: Counter32,
    pub out_multicast: Counter32,
    pub out_broadcast: Counter32,
    pub out_discards: Counter32,
    pub out_errors: Counter32,
}

impl Rises {
    /// The rises over no runs.
    pub fn none() -> Rises
        ensures { result ≡ no_rises }
    {
        Rises {
            in_octets: Counter64::none(),
            in_ucast: Counter32::none(),
            in_multicast: Counter32::none(),
            in_broadcast: Counter32::none(),
            in_discards: Counter32::none(),
            in_errors: Counter32::none(),
            in_unknown: Counter32::none(),
            out_octets: Counter64::none(),
            out_ucast: Counter32::none(),
            out_multicast: Counter32::none(),
            out_broadcast: Counter32::none(),
            out_discards: Counter32::none(),
            out_errors: Counter32::none(),
        }
    }

    /// Enters what a record shows whose sample has a number at this place.
    pub fn enter(&mut self, place: Place, counters: &IfCounters<'_>)
        requires few { AreAtMost (2 ^ 126 - 2 ^ 64) self.old }
        ensures risen { self.new ≡ rises_after self.old place (counters_in counters.now) }
        ensures few { (most : ℕ) → AreAtMost most self.old → AreAtMost (most + 2 ^ 64) self.new }
    {
        self.in_octets.enter(place, counters.in_octets);
        self.in_ucast.enter(place, counters.in_ucast);
        self.in_multicast.enter(place, counters.in_multicast);
        self.in_broadcast.enter(place, counters.in_broadcast);
        self.in_discards.enter(place, counters.in_discards);
        self.in_errors.enter(place, counters.in_errors);
        self.in_unknown.enter(place, counters.in_unknown);
        self.out_octets.enter(place, counters.out_octets);
        self.out_ucast.enter(place, counters.out_ucast);
        self.out_multicast.enter(place, counters.out_multicast);
        self.out_broadcast.enter(place, counters.out_broadcast);
        self.out_discards.enter(place, counters.out_discards);
        self.out_errors.enter(place, counters.out_errors);
    }

    /// The sums, in the order of the record.
    pub fn totals(&self) -> [u128; 13]
        ensures { result ≡ totals_of self.now }
    {
        [
            self.in_octets.total,
            self.in_ucast.total,
            self.in_multicast.total,
            self.in_broadcast.total,
            self.in_discards.total,
            self.in_errors.total,
            self.in_unknown.total,
            self.out_octets.total,
            self.out_ucast.total,
            self.out_multicast.total,
            self.out_broadcast.total,
            self.out_discards.total,
            self.out_errors.total,
        ]
    }
}
