ghost use Rattle.std.specs.Prelude.{◌≡◌, ◌+◌, ◌^◌, ◌<◌, ◌≤◌, ◌&&◌, ◌++◌, ℕ, nat_lt, cond, false, List, [], ◌∷◌, length, map};
ghost use Rattle.std.specs.List.{sum_by};
ghost use Rattle.books_spec.specs.Views.{marks_in};
ghost use Rattle.books_spec.specs.SourceViews.{PlacedReading, place_in, placed_mark, stretches_view};
ghost use Rattle.books_spec.specs.Generations.{is_before as before, does_not_rise};
ghost use Rattle.source_ledger.specs.Generations.{generation_place, booked, source_stretches, generation_count, stale_count};
ghost use Rattle.source_ledger.specs.Boots.{entered_boots};
ghost use Rattle.source_ledger.specs.Numbers.{StandsFor, ShowsCurrent, newest_after, Opens, GoesOn, Passes};
ghost use Rattle.source_ledger.specs.Marks as marks;

use crate::marks::MarkLedger;
use crate::places::{is_before, later};
use books_spec::{Booked, LedgerView, SamplePlace};
use count_spec::StretchPlace;
use late_window::Entered;
use std::marker::Model;

/// The sample numbers of a source over the generations of the boots of its stream: the stretches between the restarts
/// of the agent and the resets of the source.
///
/// A source that is reset numbers its samples anew. So a sample opens the next generation where it stands after all
/// First samples of the current one, and its number isn't above theirs; and it is of an earlier generation of its boot
/// where it stands before the sample that opened the current one.
#[derive(Debug, Drop)]
pub struct GenerationLedger {
    /// The number of the boot that was entered last; 0 where there is none.
    boot: u64,
    /// How many generations there were in all boots.
    generations: u64,
    /// How many of them are of the boot that was entered last.
    in_boot: u64,
    /// How many samples were of earlier generations.
    stale: u64,
    /// Where the sample stands that opened the current generation.
    opened: SamplePlace,
    /// The greatest place of the First samples of the current generation.
    newest: SamplePlace,
    /// The marks of the generations.
    marks: MarkLedger,
}

impl Model for GenerationLedger {
    ghost use Rattle.source_ledger.specs.Numbers.{NumbersState};

    ghost Value = { NumbersState };

    ghost use Rattle.source_ledger.specs.Fields.{numbers_state, IsGenerationLedger};

    ghost view = { numbers_state };

    ghost invariant = { IsGenerationLedger };
}

/// Where no sample stands yet.
const NO_PLACE: SamplePlace = SamplePlace {
    datagram: 0,
    index: 0,
};

impl GenerationLedger {
    /// An empty ledger, of boot 0. The width of its windows is from 1 to 8,192.
    pub fn open(width: u32) -> GenerationLedger
        requires width_from { 1 ≤ width }
        requires width_to { width ≤ 8192 }
        ensures stands { StandsFor result [] }
        ensures width { result.marks.width ≡ width }
        ensures boot { result.boot ≡ 0 }
        ensures entered { result.marks.entered + result.stale ≡ 0 }
    {
        GenerationLedger {
            boot: 0,
            generations: 0,
            in_boot: 0,
            stale: 0,
            opened: NO_PLACE,
            newest: NO_PLACE,
            marks: MarkLedger::open(width),
        }
    }

    /// Enters a mark of this boot, which is `boot()` or a later one, from 1 on; a later one closes the last. `at` is
    /// where its sample stands in the boot. Fewer than 2^62 marks were entered before.
    ///
    /// `Past` comes exactly where the sample is of an earlier generation of the boot, and then nothing is counted. A
    /// sample that opens a generation closes the last.
    #[inline(always)]
    pub fn enter(&mut self, boot: u64, at: SamplePlace, mark: u32) -> Booked
        requires boot_from { self.old.boot ≤ boot }
        requires boot_counts { 1 ≤ boot }
        requires few { self.old.marks.entered + self.old.stale < 2 ^ 62 }
        ensures stands { (x : PlacedReading) (current : List PlacedReading) (closed : List (List PlacedReading)) → x.place ≡ at
            → placed_mark x ≡ mark → length closed + 1 ≡ boot → StandsFor self.old (current ∷ closed)
            → StandsFor self.new ((x ∷ current) ∷ closed) }
        ensures answer { (x : PlacedReading) (current : List PlacedReading) (closed : List (List PlacedReading)) → x.place ≡ at
            → placed_mark x ≡ mark → length closed + 1 ≡ boot → StandsFor self.old (current ∷ closed)
            → result ≡ booked self.old.marks.width current x }
        ensures width { self.new.marks.width ≡ self.old.marks.width }
        ensures boot { self.new.boot ≡ boot }
        ensures entered { self.new.marks.entered + self.new.stale ≡ self.old.marks.entered + self.old.stale + 1 }
    {
        if boot > self.boot {
            return self.begin(boot, at, mark);
        }
        match self.place(at, mark) {
            StretchPlace::Current => self.go_on(at, mark),
            StretchPlace::Next => self.begin_next(at, mark),
            StretchPlace::Stale => self.pass(),
        }
    }

    /// The number of the boot that was entered last; 0 where there is none.
    pub fn boot(&self) -> u64
        ensures value { result ≡ self.now.boot }
        ensures boots { (boots : List (List PlacedReading)) → StandsFor self.now boots → result ≡ length (entered_boots boots) }
    {
        self.boot
    }

    /// How many marks were entered, those that were answered `Past` too.
    pub fn entered(&self) -> u64
        ensures value { result ≡ self.now.marks.entered + self.now.stale }
        ensures marks { (boots : List (List PlacedReading)) → StandsFor self.now boots → result ≡ sum_by length boots }
    {
        self.marks.entered() + self.stale
    }

    /// How many generations there were in all boots.
    pub fn generations(&self) -> u64
        ensures value { result ≡ self.now.generations }
        ensures generations { (boots : List (List PlacedReading)) → StandsFor self.now boots
            → result ≡ generation_count self.now.marks.width boots }
    {
        self.generations
    }

    /// How many marks were answered `Past`.
    pub fn stale(&self) -> u64
        ensures value { result ≡ self.now.stale }
        ensures samples { (boots : List (List PlacedReading)) → StandsFor self.now boots
            → result ≡ stale_count self.now.marks.width boots }
    {
        self.stale
    }

    /// Sums over all generations of the boots up to this one, which is `boot()` or a later one; a later one closes the
    /// last. Pool, drops and rate are 0.
    pub fn view(&self, boot: u64) -> LedgerView
        requires { self.now.boot ≤ boot }
        ensures view { (boots : List (List PlacedReading)) → length boots ≡ boot → StandsFor self.now boots
            → result ≡ stretches_view false self.now.marks.width (source_stretches self.now.marks.width boots) }
        ensures conserved { result.issued ≡ result.received + result.pending + result.lost }
    {
        if boot > self.boot {
            self.marks.closed_view()
        } else {
            self.marks.view()
        }
    }

    // Where a sample of the boot that was entered last belongs.
    fn place(&self, at: SamplePlace, mark: u32) -> StretchPlace
        ensures { (x : PlacedReading) (opener : PlacedReading) (more : List PlacedReading) (closed earlier : List (List PlacedReading)) → x.place ≡ at
            → placed_mark x ≡ mark → ShowsCurrent self.now.marks.width self.now ((opener ∷ more) ∷ closed)
            → marks.StandsFor self.now.marks (marks_in placed_mark (((opener ∷ more) ∷ closed) ++ earlier))
            → result ≡ generation_place self.now.marks.width ((opener ∷ more) ∷ closed) x }
    {
        place_by(self.opens(at, mark), self.is_past(at))
    }

    // Whether a sample of that boot opens the next generation.
    fn opens(&self, at: SamplePlace, mark: u32) -> bool
        ensures { (current : List PlacedReading) (closed : List (List ℕ))
            → marks.StandsFor self.now.marks (map placed_mark current ∷ closed)
            → result ≡ (before self.now.newest at
            && does_not_rise place_in placed_mark self.now.marks.width current mark) }
    {
        is_before(self.newest, at) && self.marks.is_behind(mark)
    }

    // Whether a sample of that boot that opens no generation is of an earlier one.
    fn is_past(&self, at: SamplePlace) -> bool
        ensures { result ≡ (nat_lt 1 self.now.in_boot && before at self.now.opened) }
    {
        self.in_boot > 1 && is_before(at, self.opened)
    }

    // The first sample of a later boot.
    fn begin(&mut self, boot: u64, at: SamplePlace, mark: u32) -> Booked
        requires few { self.old.marks.entered + self.old.stale < 2 ^ 62 }
        ensures opens { Opens self.old self.new boot 1 at mark result }
    {
        self.boot = boot;
        self.in_boot = 0;
        self.begin_next(at, mark)
    }

    // A sample that opens the next generation: the last one is closed.
    fn begin_next(&mut self, at: SamplePlace, mark: u32) -> Booked
        requires few { self.old.marks.entered + self.old.stale < 2 ^ 62 }
        ensures opens { Opens self.old self.new self.old.boot (self.old.in_boot + 1) at mark result }
    {
        self.marks.close();
        let answer = self.marks.enter(mark);
        self.generations += 1;
        self.in_boot += 1;
        self.opened = at;
        self.newest = at;
        Booked::Entered(answer)
    }

    // A sample of the current generation.
    #[inline(always)]
    fn go_on(&mut self, at: SamplePlace, mark: u32) -> Booked
        requires few { self.old.marks.entered + self.old.stale < 2 ^ 62 }
        ensures goes_on { GoesOn self.old self.new at mark result }
    {
        let answer = self.marks.enter(mark);
        self.newest = newest_place(answer, at, self.newest);
        Booked::Entered(answer)
    }

    // A sample of an earlier generation.
    fn pass(&mut self) -> Booked
        requires few { self.old.marks.entered + self.old.stale < 2 ^ 62 }
        ensures passes { Passes self.old self.new }
        ensures answer { result ≡ Booked.Past }
    {
        self.stale += 1;
        Booked::Past
    }
}

// Where a sample belongs, by whether it opens a generation, and else is of an earlier one.
fn place_by(opens: bool, is_past: bool) -> StretchPlace
    ensures { result ≡ cond opens StretchPlace.Next (cond is_past StretchPlace.Stale StretchPlace.Current) }
{
    if opens {
        StretchPlace::Next
    } else if is_past {
        StretchPlace::Stale
    } else {
        StretchPlace::Current
    }
}

// The greatest place of the First samples, after a sample at this place was answered so.
fn newest_place(answer: Entered, at: SamplePlace, newest: SamplePlace) -> SamplePlace
    ensures { result ≡ newest_after answer at newest }
{
    match answer {
        Entered::First { .. } => later(at, newest),
        Entered::Repeat | Entered::Late => newest,
    }
}
