ghost use Rattle.std.specs.Prelude.{◌≡◌, ◌+◌, ◌<◌, ◌≤◌, ◌==◌, ◌&&◌, ◌||◌, ℕ, true, false, length, List, [], ◌∷◌, Some, None, pos, IfOk, OnOk};
ghost use Rattle.trial_spec.specs.ApparentTests.{does_not_rise, is_not_before};
ghost use Rattle.account_spec.specs.Arrivals.{Arrived};
ghost use Rattle.trial_premises.specs.Places.{place_shown, opener_shown};
ghost use Rattle.trial_premises.specs.Window.{is_behind};
ghost use Rattle.trial_premises.specs.Samples.{SourceState, IsArrived, is_apparent_in, is_close_in, Begins, Opens, Counts, Advances, GoesOn};
ghost use Rattle.trial_premises.specs.Sources.{StandsFor};

use crate::by_index::ByIndex;
use crate::delivered::TrueSample;
use crate::ends::TrueEnds;
use crate::newest::{NewestNumbers, both, newer};
use crate::places::{TruePlace, is_before};
use std::alloc::{AllocError, Global};
use std::marker::Model;

/// Whether the numbers, pools and drops of a source are close in each of its generations, and whether its resets show
/// in numbers and their order.
#[derive(Drop)]
pub struct SourceWatch {
    /// The boot of its latest sample; 0 where there is none.
    boot: u64,
    /// The generation of the first sample in the boot.
    first: u64,
    /// The newest generation in the boot.
    newest: u64,
    /// The newest number of that.
    newest_number: u128,
    /// The newest number of each generation in the boot.
    numbers: NewestNumbers,
    /// Where the sample stood that opened each generation in the boot but the first.
    openers: ByIndex<TruePlace>,
    /// The pools in the newest generation.
    pools: TrueEnds,
    /// The drops in the newest generation.
    drops: TrueEnds,
    /// Whether each sample of each boot so far was close.
    close: bool,
    /// Whether each sample of each boot so far was apparent.
    apparent: bool,
}

impl Model for SourceWatch {
    ghost use Rattle.trial_premises.specs.Samples.{SourceState};

    ghost Value = { SourceState };

    ghost view = { λ s. record {
      boot = s.boot;
      first = s.first;
      newest = s.newest;
      newest_number = s.newest_number;
      numbers = s.numbers.numbers.slots.items;
      openers = s.openers.slots.items;
      pools = s.pools;
      drops = s.drops;
      close = s.close;
      apparent = s.apparent;
    } };
}

impl SourceWatch {
    /// No sample was delivered.
    pub fn new(alloc: Global) -> SourceWatch
        ensures { (width : ℕ) → StandsFor width 0 result [] }
    {
        SourceWatch {
            boot: 0,
            first: 0,
            newest: 0,
            newest_number: 0,
            numbers: NewestNumbers::new(alloc),
            openers: ByIndex::new(alloc),
            pools: TrueEnds::of(0, 0),
            drops: TrueEnds::of(0, 0),
            close: true,
            apparent: true,
        }
    }

    /// Makes room for this generation. Where there is no memory, it stands for the same samples too.
    fn reserve(&mut self, generation: u64) -> Result<(), AllocError>
        ensures same { (width boot : ℕ) (boots : List (List Arrived)) → StandsFor width boot self.old boots
            → StandsFor width boot self.new boots }
        ensures numbers { IfOk result (λ _. generation < length self.new.numbers) }
        ensures openers { IfOk result (λ _. generation < length self.new.openers) }
    {
        self.numbers.reserve(generation)?;
        self.openers.reserve(generation)
    }

    /// Enters a sample of this boot, which is that of the latest sample or a later one, where there is room for its
    /// generation. `width` is that of the windows over sample numbers, and `at` is where the sample stands in the boot.
    fn enter(&mut self, width: u32, boot: u64, at: TruePlace, sample: &TrueSample)
        requires numbers { sample.now.generation < length self.old.numbers }
        requires openers { sample.now.generation < length self.old.openers }
        ensures { (a : Arrived) (current : List Arrived) (closed : List (List Arrived)) → IsArrived sample.now at a
            → 1 ≤ boot → StandsFor width boot self.old (current ∷ closed) → StandsFor width boot self.new ((a ∷ current) ∷ closed) }
    {
        if boot > self.boot {
            self.begin(boot, sample);
        } else {
            self.go_on(width, at, sample);
        }
    }

    /// Makes room for a sample and enters it. Where there is no memory, nothing more is known of it.
    pub fn take(
        &mut self,
        width: u32,
        boot: u64,
        at: TruePlace,
        sample: &TrueSample,
    ) -> Result<(), AllocError>
        ensures { OnOk result ((a : Arrived) (current : List Arrived) (closed : List (List Arrived)) → IsArrived sample.now at a
            → 1 ≤ boot → StandsFor width boot self.old (current ∷ closed)
            → StandsFor width boot self.new ((a ∷ current) ∷ closed)) }
    {
        self.reserve(sample.generation)?;
        self.enter(width, boot, at, sample);
        Ok(())
    }

    /// Whether numbers, pools and drops were close.
    pub fn is_close(&self) -> bool
        ensures { result ≡ self.now.close }
    {
        self.close
    }

    /// Whether resets showed in numbers and their order.
    pub fn is_apparent(&self) -> bool
        ensures { result ≡ self.now.apparent }
    {
        self.apparent
    }

    // The first sample of a boot.
    fn begin(&mut self, boot: u64, sample: &TrueSample)
        requires { sample.now.generation < length self.old.numbers }
        ensures begins { Begins boot sample.now self.old self.new }
    {
        self.numbers.clear();
        self.numbers.enter(sample.generation, sample.number);
        self.openers.clear();
        self.boot = boot;
        self.first = sample.generation;
        self.newest = sample.generation;
        self.newest_number = sample.number;
        self.pools = TrueEnds::of(sample.number, sample.pool);
        self.drops = TrueEnds::of(sample.number, sample.drops);
    }

    // A further sample of the boot.
    fn go_on(&mut self, width: u32, at: TruePlace, sample: &TrueSample)
        requires numbers { sample.now.generation < length self.old.numbers }
        requires openers { sample.now.generation < length self.old.openers }
        ensures goes_on { GoesOn width at sample.now self.old self.new }
    {
        self.judge(at, sample);
        self.advance(width, at, sample);
        self.numbers.enter(sample.generation, sample.number);
    }

    // Whether the sample is close and apparent after those so far.
    fn judge(&mut self, at: TruePlace, sample: &TrueSample)
        ensures { self.new ≡ record self.old {
          close = is_close_in self.old sample.now && self.old.close;
          apparent = is_apparent_in self.old at sample.now && self.old.apparent;
        } }
    {
        let close = both(
            self.numbers.is_close(sample.generation, sample.number),
            self.close,
        );
        let apparent = both(self.shows(at, sample), self.apparent);
        self.close = close;
        self.apparent = apparent;
    }

    // Whether the sample is apparent after those so far.
    fn shows(&self, at: TruePlace, sample: &TrueSample) -> bool
        ensures { result ≡ is_apparent_in self.now at sample.now }
    {
        let rises_behind = sample.generation <= self.newest
            || does_not_rise(sample.number, self.newest_number);
        let behind_opener = is_not_before(at, self.openers.get(sample.generation));
        self.first <= sample.generation && rises_behind && behind_opener
    }

    // The newest generation after the sample.
    fn advance(&mut self, width: u32, at: TruePlace, sample: &TrueSample)
        requires { sample.now.generation < length self.old.openers }
        ensures advances { Advances width at sample.now self.old self.new }
        ensures numbers { self.new.numbers ≡ self.old.numbers }
        ensures first { self.new.first ≡ self.old.first }
        ensures boot { self.new.boot ≡ self.old.boot }
        ensures apparent { self.new.apparent ≡ self.old.apparent }
        ensures room { length self.new.openers ≡ length self.old.openers }
    {
        if sample.generation > self.newest {
            self.open_generation(at, sample);
        } else if sample.generation == self.newest {
            self.follow(width, sample);
        }
    }

    // The sample opens a generation.
    fn open_generation(&mut self, at: TruePlace, sample: &TrueSample)
        requires { sample.now.generation < length self.old.openers }
        ensures opens { Opens at sample.now self.old self.new }
        ensures numbers { self.new.numbers ≡ self.old.numbers }
        ensures first { self.new.first ≡ self.old.first }
        ensures boot { self.new.boot ≡ self.old.boot }
        ensures apparent { self.new.apparent ≡ self.old.apparent }
        ensures room { length self.new.openers ≡ length self.old.openers }
    {
        self.newest = sample.generation;
        self.newest_number = sample.number;
        self.openers.set(sample.generation, at);
        self.pools = TrueEnds::of(sample.number, sample.pool);
        self.drops = TrueEnds::of(sample.number, sample.drops);
    }

    // The sample is of the newest generation.
    fn follow(&mut self, width: u32, sample: &TrueSample)
        ensures late { is_behind width (Some self.old.newest_number) sample.now.number ≡ true → self.new ≡ self.old }
        ensures counts { is_behind width (Some self.old.newest_number) sample.now.number ≡ false → Counts sample.now self.old self.new }
        ensures newest { self.new.newest ≡ self.old.newest }
        ensures openers { self.new.openers ≡ self.old.openers }
        ensures numbers { self.new.numbers ≡ self.old.numbers }
        ensures first { self.new.first ≡ self.old.first }
        ensures boot { self.new.boot ≡ self.old.boot }
        ensures apparent { self.new.apparent ≡ self.old.apparent }
    {
        if !is_late(width, self.newest_number, sample.number) {
            self.count(sample);
        }
    }

    // The sample is of the newest generation, and in time.
    fn count(&mut self, sample: &TrueSample)
        ensures counts { Counts sample.now self.old self.new }
        ensures newest { self.new.newest ≡ self.old.newest }
        ensures openers { self.new.openers ≡ self.old.openers }
        ensures numbers { self.new.numbers ≡ self.old.numbers }
        ensures first { self.new.first ≡ self.old.first }
        ensures boot { self.new.boot ≡ self.old.boot }
        ensures apparent { self.new.apparent ≡ self.old.apparent }
    {
        let rises = both(
            self.pools.rises(sample.number, sample.pool),
            self.drops.rises(sample.number, sample.drops),
        );
        self.close = both(rises, self.close);
        self.pools.enter(sample.number, sample.pool);
        self.drops.enter(sample.number, sample.drops);
        self.newest_number = newer(Some(self.newest_number), sample.number);
    }
}

// Whether a number is at most the newest less the width.
fn is_late(width: u32, newest: u128, number: u128) -> bool
    ensures { result ≡ is_behind width (Some newest) number }
{
    number <= newest && newest - number >= width as u128
}

// Numbers begin again at this.
const WRAP: u128 = 1 << 32;

// Whether the signed difference of 32 bits of a number from another is at most 0.
#[tactic(auto, using(crate::proofs::RiseAhead::rise_is))]
fn does_not_rise(number: u128, from: u128) -> bool
    ensures { result ≡ does_not_rise (pos number) (pos from) }
{
    let ahead = (number % WRAP + (WRAP + WRAP / 2) - from % WRAP) % WRAP;
    ahead <= WRAP / 2
}

// Whether a place isn't before that one, if there is one.
fn is_not_before(at: TruePlace, opener: Option<TruePlace>) -> bool
    ensures { result ≡ is_not_before (place_shown at) (opener_shown opener) }
{
    match opener {
        Some(opener) => !is_before(at, opener),
        None => true,
    }
}
