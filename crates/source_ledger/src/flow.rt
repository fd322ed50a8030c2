ghost use Rattle.std.specs.Prelude.{◌≡◌, ◌+◌, ◌^◌, ◌<◌, ◌≤◌, true, List, [], ◌∷◌, length};
ghost use Rattle.std.specs.List.{sum_by};
ghost use Rattle.source_ledger.specs.Boots.{entered_boots};
ghost use Rattle.books_spec.specs.SourceViews.{PlacedReading, stretches_view};
ghost use Rattle.source_ledger.specs.Generations.{booked, source_stretches, generation_count, stale_count};
ghost use Rattle.source_ledger.specs.Flows.{StandsFor, placed_sample};

use crate::generations::GenerationLedger;
use crate::rise::{Rise, newest_value};
use books_spec::{Booked, LedgerView, SamplePlace};
use std::marker::Model;

/// The sample numbers of a source of flow samples over the generations of the boots of its stream, with the rise of the
/// sample pool and of the drops, and the sampling rate.
#[derive(Debug, Drop)]
pub struct FlowLedger {
    /// The sample pool, in packets.
    pool: Rise,
    /// The drops, in packets.
    drops: Rise,
    /// The sampling rate at the greatest number of the last generation; 0 where there is none.
    rate: u32,
    numbers: GenerationLedger,
}

impl Model for FlowLedger {
    ghost use Rattle.source_ledger.specs.Flows.{FlowState};

    ghost Value = { FlowState };

    ghost use Rattle.source_ledger.specs.Fields.{flow_state, IsFlowLedger};

    ghost view = { flow_state };

    ghost invariant = { IsFlowLedger };
}

impl FlowLedger {
    /// An empty ledger, of boot 0. The width of its windows is from 1 to 8,192.
    pub fn open(width: u32) -> FlowLedger
        requires width_from { 1 ≤ width }
        requires width_to { width ≤ 8192 }
        ensures stands { StandsFor result [] }
        ensures width { result.numbers.marks.width ≡ width }
        ensures boot { result.numbers.boot ≡ 0 }
        ensures entered { result.numbers.marks.entered + result.numbers.stale ≡ 0 }
    {
        FlowLedger {
            pool: Rise::none(),
            drops: Rise::none(),
            rate: 0,
            numbers: GenerationLedger::open(width),
        }
    }

    /// Enters a flow sample of this boot, which is `boot()` or a later one, from 1 on; a later one closes the last. `at`
    /// is where the sample stands in the boot. Fewer than 2^62 samples were entered before.
    ///
    /// `Past` comes exactly where the sample is of an earlier generation of the boot, and then nothing is counted. A
    /// sample that opens a generation closes the last. Pool, drops and rate count where the answer is `First`.
    #[inline(always)]
    pub fn enter(
        &mut self,
        boot: u64,
        at: SamplePlace,
        mark: u32,
        pool: u32,
        drops: u32,
        rate: u32,
    ) -> Booked
        requires boot_from { self.old.numbers.boot ≤ boot }
        requires boot_counts { 1 ≤ boot }
        requires few { self.old.numbers.marks.entered + self.old.numbers.stale < 2 ^ 62 }
        ensures stands { (current : List PlacedReading) (closed : List (List PlacedReading)) → length closed + 1 ≡ boot
            → StandsFor self.old (current ∷ closed)
            → StandsFor self.new ((placed_sample at mark pool drops rate ∷ current) ∷ closed) }
        ensures answer { (current : List PlacedReading) (closed : List (List PlacedReading)) → length closed + 1 ≡ boot
            → StandsFor self.old (current ∷ closed)
            → result ≡ booked self.old.numbers.marks.width current (placed_sample at mark pool drops rate) }
        ensures width { self.new.numbers.marks.width ≡ self.old.numbers.marks.width }
        ensures boot { self.new.numbers.boot ≡ boot }
        ensures entered { self.new.numbers.marks.entered + self.new.numbers.stale
            ≡ self.old.numbers.marks.entered + self.old.numbers.stale + 1 }
    {
        let booked = self.numbers.enter(boot, at, mark);
        if let Booked::Entered(answer) = booked {
            self.pool.enter(answer, pool);
            self.drops.enter(answer, drops);
            self.rate = newest_value(answer, rate, self.rate);
        }
        booked
    }

    /// The number of the boot that was entered last; 0 where there is none.
    pub fn boot(&self) -> u64
        ensures value { result ≡ self.now.numbers.boot }
        ensures boots { (boots : List (List PlacedReading)) → StandsFor self.now boots → result ≡ length (entered_boots boots) }
    {
        self.numbers.boot()
    }

    /// How many samples were entered, those that were answered `Past` too.
    pub fn entered(&self) -> u64
        ensures value { result ≡ self.now.numbers.marks.entered + self.now.numbers.stale }
        ensures samples { (boots : List (List PlacedReading)) → StandsFor self.now boots → result ≡ sum_by length boots }
    {
        self.numbers.entered()
    }

    /// How many generations there were in all boots.
    pub fn generations(&self) -> u64
        ensures value { result ≡ self.now.numbers.generations }
        ensures generations { (boots : List (List PlacedReading)) → StandsFor self.now boots
            → result ≡ generation_count self.now.numbers.marks.width boots }
    {
        self.numbers.generations()
    }

    /// How many samples were answered `Past`.
    pub fn stale(&self) -> u64
        ensures value { result ≡ self.now.numbers.stale }
        ensures samples { (boots : List (List PlacedReading)) → StandsFor self.now boots
            → result ≡ stale_count self.now.numbers.marks.width boots }
    {
        self.numbers.stale()
    }

    /// Sums over all generations of the boots up to this one, which is `boot()` or a later one; a later one closes the
    /// last. The rate is that at the greatest number of the source's last generation.
    pub fn view(&self, boot: u64) -> LedgerView
        requires { self.now.numbers.boot ≤ boot }
        ensures view { (boots : List (List PlacedReading)) → length boots ≡ boot → StandsFor self.now boots
            → result ≡ stretches_view true self.now.numbers.marks.width
            (source_stretches self.now.numbers.marks.width boots) }
        ensures conserved { result.issued ≡ result.received + result.pending + result.lost }
    {
        LedgerView {
            pool: self.pool.total,
            drops: self.drops.total,
            rate: self.rate,
            ..self.numbers.view(boot)
        }
    }
}
