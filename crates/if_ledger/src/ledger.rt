ghost use Rattle.std.specs.Prelude.{◌≡◌, ◌+◌, ◌^◌, ◌<◌, ◌≤◌, false, List, [], ◌∷◌, length};
ghost use Rattle.count_spec.specs.Windows.{has};
ghost use Rattle.if_ledger.specs.Counters.{greatest_after, least_after};
ghost use Rattle.books_spec.specs.InterfaceRise.{NumberedCounters, interface_view};
ghost use Rattle.if_ledger.specs.Records.{counters_in};
ghost use Rattle.if_ledger.specs.Ledgers.{StandsFor, numbers_in, place_in};

use crate::rises::Rises;
use count_spec::Place;
use rec_counters::IfCounters;
use std::marker::Model;

/// How far the counters of one interface rose, over runs of samples of its source.
#[derive(Debug, Drop)]
pub struct IfLedger {
    /// The run that was entered last; 0 where there is none.
    run: u64,
    /// How many samples were entered.
    samples: u64,
    /// The greatest number of the last run; 0 where there is none.
    greatest: i128,
    /// The least number of the last run; 0 where there is none.
    least: i128,
    rises: Rises,
}

impl Model for IfLedger {
    ghost use Rattle.if_ledger.specs.Ledgers.{IfState};

    ghost Value = { IfState };

    ghost use Rattle.if_ledger.specs.Fields.{if_state, IsIfLedger};

    ghost view = { if_state };

    ghost invariant = { IsIfLedger };
}

impl IfLedger {
    /// Nothing was entered; the run is 0.
    pub fn open() -> IfLedger
        ensures stands { StandsFor result [] }
        ensures run { result.run ≡ 0 }
        ensures samples { result.samples ≡ 0 }
    {
        IfLedger {
            run: 0,
            samples: 0,
            greatest: 0,
            least: 0,
            rises: Rises::none(),
        }
    }

    /// Enters the counters that the sample of this number shows, in this run, which is `run()` or a later one, from 1
    /// on; a later one begins anew, and what the counters rose by stays. Fewer than 2^62 samples were entered before.
    pub fn enter(&mut self, run: u64, number: i128, counters: &IfCounters<'_>)
        requires run_from { self.old.run ≤ run }
        requires run_counts { 1 ≤ run }
        requires few { self.old.samples < 2 ^ 62 }
        ensures begins { (runs : List (List NumberedCounters)) → self.old.run < run → StandsFor self.old runs
            → StandsFor self.new ((record { number = number; counters = counters_in counters.now } ∷ []) ∷ runs) }
        ensures goes_on { (current : List NumberedCounters) (closed : List (List NumberedCounters)) → run ≡ self.old.run
            → 1 ≤ length current → has (numbers_in current) number ≡ false → StandsFor self.old (current ∷ closed)
            → StandsFor self.new ((record { number = number; counters = counters_in counters.now } ∷ current) ∷ closed) }
        ensures run { self.new.run ≡ run }
        ensures samples { self.new.samples ≡ self.old.samples + 1 }
    {
        let place = self.place(run, number);
        self.greatest = greatest_number(place, number, self.greatest);
        self.least = least_number(place, number, self.least);
        self.rises.enter(place, counters);
        self.run = run;
        self.samples += 1;
    }

    /// The run that was entered last; 0 where there is none.
    pub fn run(&self) -> u64
        ensures { result ≡ self.now.run }
    {
        self.run
    }

    /// How many samples were entered.
    pub fn samples(&self) -> u64
        ensures value { result ≡ self.now.samples }
        ensures entered { (runs : List (List NumberedCounters)) → StandsFor self.now runs
            → result ≡ (interface_view runs).samples }
    {
        self.samples
    }

    /// How far each counter rose, in the order of the record: summed over the runs, in each from the least to the
    /// greatest number. A counter of bytes goes on from 2^64 - 1 to 0, the others from 2^32 - 1.
    pub fn rises(&self) -> [u128; 13]
        ensures { (runs : List (List NumberedCounters)) → StandsFor self.now runs → result ≡ (interface_view runs).rises }
    {
        self.rises.totals()
    }

    // Where a number of this run stands among those before it.
    fn place(&self, run: u64, number: i128) -> Place
        requires run_from { self.now.run ≤ run }
        ensures { result ≡ place_in self.now run number }
    {
        if run > self.run {
            Place::Only
        } else if number > self.greatest {
            Place::Newest
        } else if number < self.least {
            Place::Least
        } else {
            Place::Inside
        }
    }
}

// The greatest number, after one more at this place.
fn greatest_number(place: Place, new: i128, old: i128) -> i128
    ensures { result ≡ greatest_after place new old }
{
    match place {
        Place::Only | Place::Newest => new,
        Place::Inside | Place::Least => old,
    }
}

// The least number, after one more at this place.
fn least_number(place: Place, new: i128, old: i128) -> i128
    ensures { result ≡ least_after place new old }
{
    match place {
        Place::Only | Place::Least => new,
        Place::Inside | Place::Newest => old,
    }
}
