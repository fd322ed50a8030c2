ghost use Rattle.std.specs.Prelude.{◌≡◌, ◌+◌, ◌^◌, ◌<◌, ◌≤◌, true, false, List, [], ◌∷◌, length};
ghost use Rattle.books_spec.specs.Generations.{booked};
ghost use Rattle.books_spec.specs.SourceViews.{PlacedReading, place_in, placed_mark, source_view};
ghost use Rattle.stream_books.specs.Sources.{StandsFor, is_flow, width_of, boot_of, entered_count};

use books_spec::{Booked, SamplePlace, SampleReading, SourceLedgerView};
use source_ledger::{CounterLedger, FlowLedger};

/// What a collector keeps of one source.
#[derive(Debug, Drop)]
pub enum SourceRecord {
    /// Of a source of flow samples.
    Flow(FlowLedger),
    /// Of a source of counters samples.
    Counters(CounterLedger),
}

impl SourceRecord {
    /// Nothing came yet from a source of flow samples. The width of its windows is from 1 to 8,192.
    pub fn open_flow(width: u32) -> SourceRecord
        requires width_from { 1 ≤ width }
        requires width_to { width ≤ 8192 }
        ensures stands { StandsFor result [] }
        ensures kind { is_flow result ≡ true }
        ensures width { width_of result ≡ width }
        ensures boot { boot_of result ≡ 0 }
        ensures entered { entered_count result ≡ 0 }
    {
        SourceRecord::Flow(FlowLedger::open(width))
    }

    /// Nothing came yet from a source of counters samples. The width of its windows is from 1 to 8,192.
    pub fn open_counters(width: u32) -> SourceRecord
        requires width_from { 1 ≤ width }
        requires width_to { width ≤ 8192 }
        ensures stands { StandsFor result [] }
        ensures kind { is_flow result ≡ false }
        ensures width { width_of result ≡ width }
        ensures boot { boot_of result ≡ 0 }
        ensures entered { entered_count result ≡ 0 }
    {
        SourceRecord::Counters(CounterLedger::open(width))
    }

    /// Enters what a sample shows that stands at this place in this boot, from 1 on; a boot later than that of the last
    /// one closes it. Fewer than 2^62 samples were entered before. `Past` comes exactly where the sample is of an
    /// earlier generation of the source.
    #[inline(always)]
    pub fn enter(&mut self, boot: u64, at: SamplePlace, reading: SampleReading) -> Booked
        requires boot_from { boot_of self.old ≤ boot }
        requires boot_counts { 1 ≤ boot }
        requires few { entered_count self.old < 2 ^ 62 }
        ensures stands { (current : List PlacedReading) (closed : List (List PlacedReading)) → length closed + 1 ≡ boot
            → StandsFor self.old (current ∷ closed)
            → StandsFor self.new ((record { place = at; reading = reading } ∷ current) ∷ closed) }
        ensures answer { (current : List PlacedReading) (closed : List (List PlacedReading)) → length closed + 1 ≡ boot
            → StandsFor self.old (current ∷ closed)
            → result ≡ booked place_in placed_mark (width_of self.old) current
            (record { place = at; reading = reading }) }
        ensures kind { is_flow self.new ≡ is_flow self.old }
        ensures width { width_of self.new ≡ width_of self.old }
        ensures boot { boot_of self.new ≡ boot }
        ensures entered { entered_count self.new ≡ entered_count self.old + 1 }
    {
        match self {
            SourceRecord::Flow(ledger) => ledger.enter(
                boot,
                at,
                reading.sequence,
                reading.pool,
                reading.drops,
                reading.rate,
            ),
            SourceRecord::Counters(ledger) => ledger.enter(boot, at, reading.sequence),
        }
    }

    /// Sums over the generations of all boots up to this one, which is that of the last sample or a later one; a later
    /// one closes it.
    pub fn view(&self, boot: u64) -> SourceLedgerView
        requires { boot_of self.now ≤ boot }
        ensures view { (boots : List (List PlacedReading)) → length boots ≡ boot → StandsFor self.now boots
            → result ≡ source_view (is_flow self.now) (width_of self.now) boots }
        ensures conserved { result.ledger.issued ≡ result.ledger.received + result.ledger.pending + result.ledger.lost }
    {
        match self {
            SourceRecord::Flow(ledger) => SourceLedgerView {
                generations: ledger.generations(),
                ledger: ledger.view(boot),
                stale: ledger.stale(),
            },
            SourceRecord::Counters(ledger) => SourceLedgerView {
                generations: ledger.generations(),
                ledger: ledger.view(boot),
                stale: ledger.stale(),
            },
        }
    }
}
