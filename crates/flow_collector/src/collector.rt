ghost use Rattle.std.specs.Prelude.{◌≡◌, ℕ, ◌+◌, ◌≤◌, ◌<◌, ◌^◌, false, List, [], ◌∷◌, length, map, vec_len, slice_get, Some, IfOk, IfErr, IfSome};
ghost use Rattle.std.specs.declared.result.Result.TheVariants.{Err};
ghost use Rattle.std.specs.Option.{option_map};
ghost use Rattle.datagram_core.specs.Trees.{tree_of};
ghost use Rattle.books_spec.specs.declared.limits.Limits.{Limits};
ghost use Rattle.books_spec.specs.Items.{Item, Got, Malformed as Faulty};
ghost use Rattle.books_spec.specs.Limits.{AreLawful, refused_limit};
ghost use Rattle.books_spec.specs.Books.{books, taken, totals, listed_streams, listed_sources, most_entries};
ghost use Rattle.books_spec.specs.WholeBooks.{whole_books};
ghost use Rattle.collector_views.specs.Views.{stream_shown, source_shown};
ghost use Rattle.sample_taps.specs.Briefs.{facts_in};
ghost use Rattle.sample_taps.specs.Classes.{no_classes, with_headers};
ghost use Rattle.sample_taps.specs.Feeding.{Held};
ghost use Rattle.flow_collector.specs.Items.{datagram_in};
ghost use Rattle.flow_collector.specs.Interfaces.{interface_shown_of};
ghost use Rattle.flow_collector.specs.Collectors.{StandsFor};
ghost use Rattle.flow_collector.specs.Headers.{briefs_now, headered};
ghost use Rattle.flow_collector.specs.Steps.{is_first};
ghost use Rattle.flow_collector.specs.Refusals.{IsRefusedBy};

use crate::OpenRefusal;
use crate::books::{Books, Seeds};
use crate::samples::enter_samples;
use collector_tables::StreamKey;
use collector_views::{IfView, Limits, SourceView, StreamView, Totals};
use data_format::Fault;
use datagram_core::Datagram;
use sample_taps::{Briefing, ClassTotals, Tap, Taps};
use std::alloc::{AllocError, Global};
use std::marker::Model;
use stream_books::Taken;

/// What a collector holds: its books, and how many headers of each class it was fed. Between two calls no header waits for
/// the consumers.
#[derive(Drop)]
pub struct Collector {
    books: Books,
    briefing: Briefing,
}

impl Model for Collector {
    ghost use Rattle.std.specs.Prelude.{◌≡◌, []};
    ghost use Rattle.flow_collector.specs.Collectors.{CollectorState};

    ghost Value = { CollectorState };

    ghost view = { λ c. record { books = c.books; classes = c.briefing.totals } };

    ghost invariant = { λ c. c.briefing.pending ≡ [] };
}

impl Collector {
    /// Nothing was taken yet; there is room for all that the limits allow, and no later call needs more room.
    ///
    /// `BadLimit` comes exactly where a limit is out of its range, with the least number of such a limit; `Memory`
    /// only where there is none for the tables.
    pub fn open(alloc: Global, limits: Limits, seeds: Seeds) -> Result<Collector, OpenRefusal>
        ensures stands { IfOk result (λ c. StandsFor c.books limits []) }
        ensures classes { IfOk result (λ c. c.classes ≡ no_classes) }
        ensures refused { IfErr result (λ e. IsRefusedBy limits e) }
        ensures bad_limit { (number : ℕ) → refused_limit limits ≡ Some number → result ≡ Err (OpenRefusal.BadLimit number) }
    {
        match Books::open(alloc, limits, seeds) {
            Ok(books) => Ok(Collector {
                books,
                briefing: Briefing::new(),
            }),
            Err(refusal) => Err(refusal),
        }
    }

    /// Nothing was taken yet; there is room for all that the limits allow, and no later call needs more room. Each limit is
    /// within its range, so an error comes only where there is no memory for the tables.
    pub fn open_within(alloc: Global, limits: Limits, seeds: Seeds) -> Result<Collector, AllocError>
        requires { AreLawful limits }
        ensures stands { IfOk result (λ c. StandsFor c.books limits []) }
        ensures classes { IfOk result (λ c. c.classes ≡ no_classes) }
    {
        Ok(Collector {
            books: Books::open_within(alloc, limits, seeds)?,
            briefing: Briefing::new(),
        })
    }

    /// Takes a datagram, which arrived at `at` ms, as the next entry, and answers, in this order: `Spent`, exactly
    /// where 2^48 entries were taken before, and then nothing changes; `Unlisted`, exactly where its stream is new and
    /// as many are listed as the limits allow; `Stale`, where it comes from an earlier boot of its sub-agent; `Late`,
    /// `Repeat` or `First` by the window over the numbers of its boot. The samples of a `First` datagram are entered,
    /// in their order. Never `Malformed`. All the room that it needs was taken at the opening.
    ///
    /// The headers in those flow samples of a `First` datagram that are First themselves are counted by their classes and
    /// go to the consumers, in their order. Any other datagram goes to none.
    pub fn take(&mut self, at: u64, datagram: &Datagram<'_>, taps: &mut Taps) -> Taken
        requires { taps.old.ended + vec_len taps.old.held < 2 ^ 64 }
        ensures stands { (l : Limits) (items : List Item) → length items < most_entries → StandsFor self.old.books l items
            → StandsFor self.new.books l (Got (datagram_in at (tree_of datagram.now)) ∷ items) }
        ensures answer { (l : Limits) (items : List Item) → StandsFor self.old.books l items
            → result ≡ taken l items (Got (datagram_in at (tree_of datagram.now))) }
        ensures spent { (l : Limits) (items : List Item) → most_entries ≤ length items → StandsFor self.old.books l items
            → self.new ≡ self.old }
        ensures fed { (l : Limits) (items : List Item) → length items < most_entries → StandsFor self.old.books l items
            → Held (λ x b y. (v : _) × (y ≡ record x { value = v }) × (⟦<dyn Tap as Tap>⟧ x.vtable).step x.value b v)
            (λ x. (⟦<dyn Tap as Tap>⟧ x.vtable).ended x.value)
            (briefs_now l items (headered at (tree_of datagram.now))) taps.old.held.items taps.new.held.items }
        ensures classes { (l : Limits) (items : List Item) → length items < most_entries → StandsFor self.old.books l items
            → self.new.classes ≡ with_headers self.old.classes (map facts_in (briefs_now l items (headered at (tree_of datagram.now)))) }
        ensures untold { is_first result ≡ false → (taps.new ≡ taps.old) × (self.new.classes ≡ self.old.classes) }
        ensures ended { taps.new.ended + vec_len taps.new.held ≡ taps.old.ended + vec_len taps.old.held }
    {
        if self.books.is_spent() {
            return Taken::Spent;
        }
        let head = datagram.head();
        let stream = StreamKey {
            agent: head.agent,
            sub_agent: head.sub_agent,
        };
        let Some(found) = self.books.take_head(stream, at, head.uptime, head.sequence) else {
            return Taken::Unlisted;
        };
        if is_entered(found.receipt.taken) {
            let samples = datagram.samples();
            enter_samples(&mut self.books, &mut self.briefing, taps, &found, samples);
            self.briefing.finish(taps);
            return found.receipt.taken;
        }
        found.receipt.taken
    }

    /// Takes an entry that is no datagram, with its first fault, as the next one: `Malformed`, and it is counted; or
    /// `Spent`, exactly where 2^48 entries were taken before, and then nothing changes. No header is counted. All the
    /// room that it needs was taken at the opening.
    pub fn reject(&mut self, fault: &Fault) -> Taken
        ensures stands { (l : Limits) (items : List Item) → length items < most_entries → StandsFor self.old.books l items
            → StandsFor self.new.books l (Faulty fault.now ∷ items) }
        ensures answer { (l : Limits) (items : List Item) → StandsFor self.old.books l items
            → result ≡ taken l items (Faulty fault.now) }
        ensures spent { (l : Limits) (items : List Item) → most_entries ≤ length items → StandsFor self.old.books l items
            → self.new ≡ self.old }
        ensures classes { self.new.classes ≡ self.old.classes }
    {
        self.books.reject(fault)
    }

    /// How many streams are listed.
    pub fn stream_count(&self) -> usize
        ensures streams { (l : Limits) (items : List Item) → StandsFor self.now.books l items
            → result ≡ length (listed_streams l items) }
        ensures limit { result ≤ self.now.books.limits.streams }
    {
        self.books.stream_count()
    }

    /// What is shown of the stream at a place, from 0 on in order of first arrival; `None` exactly past the end.
    pub fn stream(&self, place: usize) -> Option<StreamView>
        ensures view { (l : Limits) (items : List Item) → StandsFor self.now.books l items
            → option_map stream_shown result ≡ slice_get (books l items).streams place }
        ensures conserved { IfSome result (λ v. v.ledger.issued ≡ v.ledger.received + v.ledger.pending + v.ledger.lost) }
    {
        self.books.stream(place)
    }

    /// How many sources are listed.
    pub fn source_count(&self) -> usize
        ensures sources { (l : Limits) (items : List Item) → StandsFor self.now.books l items
            → result ≡ length (listed_sources l items) }
        ensures limit { result ≤ self.now.books.limits.sources }
    {
        self.books.source_count()
    }

    /// What is shown of the source at a place, from 0 on in order of first arrival; `None` exactly past the end.
    pub fn source(&self, place: usize) -> Option<SourceView>
        ensures view { (l : Limits) (items : List Item) → StandsFor self.now.books l items
            → option_map source_shown result ≡ slice_get (whole_books l items).sources place }
        ensures conserved { IfSome result (λ v. v.ledger.issued ≡ v.ledger.received + v.ledger.pending + v.ledger.lost) }
    {
        self.books.source(place)
    }

    /// By how much the counters of the interface rose of which the source at a place has samples; `None` exactly where no
    /// source is there, where it is one of flow samples, or where no First sample of it has a record of interface counters.
    pub fn interface(&self, place: usize) -> Option<IfView>
        ensures view { (l : Limits) (items : List Item) → StandsFor self.now.books l items
            → result ≡ interface_shown_of l items (slice_get (listed_sources l items) place) }
    {
        self.books.interface(place)
    }

    /// The counts of all entries, exact after each call.
    pub fn totals(&self) -> Totals
        ensures { (l : Limits) (items : List Item) → StandsFor self.now.books l items → result ≡ totals l items }
    {
        self.books.totals()
    }

    /// How many headers there were of each class, exact after each call.
    pub fn classes(&self) -> ClassTotals
        ensures { result ≡ self.now.classes }
    {
        self.briefing.totals()
    }
}

// Whether the samples of a datagram that was answered so are entered.
fn is_entered(taken: Taken) -> bool
    ensures { result ≡ is_first taken }
{
    match taken {
        Taken::First => true,
        _ => false,
    }
}
