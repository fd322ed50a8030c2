// The books of a collector.
ghost use Rattle.std.specs.Prelude.{◌≡◌, ℕ, ◌+◌, ◌≤◌, ◌<◌, nat_le, true, List, [], ◌∷◌, length, slice_get, if◌then◌else◌, Some, None, IfOk, IfErr, IfSome};
ghost use Rattle.std.specs.declared.result.Result.TheVariants.{Err};
ghost use Rattle.std.specs.Option.{option_map};
ghost use Rattle.data_format.specs.Trees.{frame_tree};
ghost use Rattle.data_format.specs.Views.{FrameView};
ghost use Rattle.data_format.specs.declared.heads.Form.{Form};
ghost use Rattle.datagram_core.specs.SampleHeads.{AreCountersIn};
ghost use Rattle.datagram_core.specs.Tables.{samples_read};
ghost use Rattle.books_spec.specs.declared.limits.Limits.{Limits};
ghost use Rattle.books_spec.specs.Items.{Datagram as Given, Other, Item, Got, Malformed as Faulty, stream_of};
ghost use Rattle.books_spec.specs.Limits.{AreLawful, refused_limit};
ghost use Rattle.books_spec.specs.Books.{books, fault_after, taken, taken_now, totals, listed_streams, listed_sources, stream_number, most_entries};
ghost use Rattle.books_spec.specs.WholeBooks.{whole_books};
ghost use Rattle.stream_books.specs.Streams.{IsAt};
ghost use Rattle.collector_tables.specs.Keys.{stream_in};
ghost use Rattle.collector_tables.specs.Answers.{answer_in_books};
ghost use Rattle.collector_views.specs.Views.{stream_shown, source_shown};
ghost use Rattle.flow_collector.specs.Items.{sample_in};
ghost use Rattle.flow_collector.specs.Interfaces.{interface_shown_of};
ghost use Rattle.flow_collector.specs.Collectors.{StandsFor};
ghost use Rattle.flow_collector.specs.Headers.{stream_fed};
ghost use Rattle.flow_collector.specs.Shown.{sample_shown, carried_in, flow_of, id_shown};
ghost use Rattle.flow_collector.specs.Steps.{is_first, is_first_at, is_first_of, with_samples, with_sample, IsFound, Enters, Midway};
ghost use Rattle.flow_collector.specs.Refusals.{IsRefusedBy};

use crate::OpenRefusal;
use crate::first::is_first_at;
use crate::interfaces::{carried_by, enter_carried, interface_view};
use crate::shown::{Shown, counters_shown, flow_shown};
use collector_tables::{EnteredAt, SourceKey, SourceTable, StreamKey, StreamTable, TakenAt};
use collector_views::{FirstFault, IfView, Limits, SourceView, StreamView, Totals};
use data_format::{CountersHead, Fault, FlowHead};
use datagram_core::Samples;
use if_ledger::IfTable;
use rec_counters::IfCounters;
use std::alloc::{AllocError, Global};
use std::hash::RandomState;
use std::marker::Model;
use stream_books::{SamplePlace, Taken};

/// At most so many entries are taken.
const MOST_ENTRIES: u64 = 1 << 48;

/// What the hashes of a collector's tables begin with. No figure depends on it.
#[derive(Clone, Copy)]
pub struct Seeds {
    /// Of the table of streams.
    pub streams: RandomState,
    /// Of the table of sources.
    pub sources: RandomState,
}

/// The books of a collector: the streams and the sources that it lists, and counts of all entries.
#[derive(Drop)]
pub struct Books {
    limits: Limits,
    streams: StreamTable,
    sources: SourceTable,
    /// The interface counters of each source, at its place.
    interfaces: IfTable,
    totals: Totals,
}

impl Model for Books {
    ghost use Rattle.flow_collector.specs.Collectors.{BooksState, books_state, AreBooks};

    ghost Value = { BooksState };

    ghost view = { books_state };

    ghost invariant = { λ c. AreBooks (books_state c) };
}

impl Books {
    /// Nothing was taken yet; there is room for all that the limits allow, and no later call needs more room.
    ///
    /// `BadLimit` comes exactly where a limit is out of its range, with the least number of such a limit; `Memory`
    /// only where there is none for the tables.
    pub fn open(alloc: Global, limits: Limits, seeds: Seeds) -> Result<Books, OpenRefusal>
        ensures stands { IfOk result (λ c. StandsFor c limits []) }
        ensures refused { IfErr result (λ e. IsRefusedBy limits e) }
        ensures bad_limit { (number : ℕ) → refused_limit limits ≡ Some number → result ≡ Err (OpenRefusal.BadLimit number) }
    {
        if let Some(number) = limits.refused() {
            return Err(OpenRefusal::BadLimit { number });
        }
        match Books::open_within(alloc, limits, seeds) {
            Ok(books) => Ok(books),
            Err(_) => Err(OpenRefusal::Memory),
        }
    }

    /// Nothing was taken yet; there is room for all that the limits allow, and no later call needs more room. Each limit is
    /// within its range, so an error comes only where there is no memory for the tables.
    pub fn open_within(alloc: Global, limits: Limits, seeds: Seeds) -> Result<Books, AllocError>
        requires { AreLawful limits }
        ensures { IfOk result (λ c. StandsFor c limits []) }
    {
        let streams = StreamTable::open(alloc, limits.streams, seeds.streams)?;
        let sources = SourceTable::open(alloc, limits.sources, seeds.sources)?;
        let interfaces = IfTable::open(alloc, limits.sources)?;
        Ok(Books {
            limits,
            streams,
            sources,
            interfaces,
            totals: NO_TOTALS,
        })
    }

    /// Whether 2^48 entries were taken.
    pub(crate) fn is_spent(&self) -> bool
        ensures { result ≡ nat_le most_entries self.now.totals.entries }
    {
        self.totals.entries >= MOST_ENTRIES
    }

    /// Takes a datagram as though it had no samples; `None` where its stream isn't listed.
    pub(crate) fn take_head(
        &mut self,
        stream: StreamKey,
        at: u64,
        uptime: u32,
        sequence: u32,
    ) -> Option<TakenAt>
        requires { self.old.totals.entries < most_entries }
        ensures stands { (l : Limits) (items : List Item) (d : Given) → stream_in stream ≡ stream_of d
            → IsAt d at uptime sequence → StandsFor self.old l items
            → StandsFor self.new l (Got (with_samples d []) ∷ items) }
        ensures answer { (l : Limits) (items : List Item) (d : Given) → stream_in stream ≡ stream_of d
            → IsAt d at uptime sequence → StandsFor self.old l items
            → answer_in_books result ≡ taken_now l items (Got d) }
        ensures found { (l : Limits) (items : List Item) (d : Given) → stream_in stream ≡ stream_of d
            → IsAt d at uptime sequence → StandsFor self.old l items
            → IfSome result (λ t. IsFound l items t d) }
        ensures midway { IfSome result (λ t. is_first t.receipt.taken ≡ true → Midway self.new t 0) }
    {
        self.totals.entries += 1;
        let found = self.streams.take(
            stream,
            self.limits.datagram_width,
            self.limits.boot_slack,
            at,
            uptime,
            sequence,
        );
        self.totals.unlisted += none_count(found.is_some());
        found
    }

    /// Enters the flow sample of this head of this index of the datagram, and answers the number of its stream, counted from
    /// 1, where the sample is First: its headers then go to the consumers. `None` where they don't.
    #[inline(always)]
    pub(crate) fn enter_flow(&mut self, found: &TakenAt, index: u32, head: &FlowHead) -> Option<u32>
        requires midway { Midway self.old found.now index }
        requires few { index ≤ 8190 }
        ensures stands { (l : Limits) (items : List Item) (d : Given) → Enters l items found.now d
            → length d.samples ≡ index → StandsFor self.old l (Got d ∷ items)
            → StandsFor self.new l (Got (with_sample d (flow_of head.now)) ∷ items) }
        ensures fed { (l : Limits) (items : List Item) (d : Given) → Enters l items found.now d
            → length d.samples ≡ index → StandsFor self.old l (Got d ∷ items)
            → result ≡ stream_fed l items d (record { datagram = found.now.receipt.number; index = index }) head.now }
    {
        let number = self.stream_number(found);
        let entered = self.enter(found, index, flow_shown(head), &None);
        if is_first_at(&entered) {
            Some(number)
        } else {
            None
        }
    }

    // The number of the stream of the datagram whose samples are entered, counted from 1.
    fn stream_number(&self, found: &TakenAt) -> u32
        requires { (index : ℕ) × Midway self.now found.now index }
        ensures { (l : Limits) (items : List Item) (d : Given) → Enters l items found.now d
            → result ≡ stream_number l (Got d ∷ items) (stream_of d) }
    {
        let listed = found.place < self.limits.streams;
        prove!(listed);
        found.place + 1
    }

    /// Enters a sample of a format that isn't read.
    pub(crate) fn enter_other(&mut self, found: &TakenAt, index: u32)
        requires midway { Midway self.old found.now index }
        requires few { index ≤ 8190 }
        ensures stands { (l : Limits) (items : List Item) (d : Given) → Enters l items found.now d
            → length d.samples ≡ index → StandsFor self.old l (Got d ∷ items)
            → StandsFor self.new l (Got (with_sample d Other) ∷ items) }
    {
        self.totals.other += 1;
    }

    /// Enters the counters sample of this head, the first of those ahead.
    #[inline(never)]
    pub(crate) fn enter_counters(
        &mut self,
        found: &TakenAt,
        index: u32,
        head: &CountersHead,
        ahead: Samples<'_>,
    ) -> Option<EnteredAt>
        requires midway { Midway self.old found.now index }
        requires few { index ≤ 8190 }
        ensures stands { (l : Limits) (items : List Item) (d : Given) (form : Form) (f : FrameView) (rest : List FrameView)
            → Enters l items found.now d → length d.samples ≡ index → ahead.entry ≡ f ∷ rest → AreCountersIn form f head.now
            → StandsFor self.old l (Got d ∷ items)
            → StandsFor self.new l (Got (with_sample d (sample_in (frame_tree samples_read f))) ∷ items) }
    {
        let carried = carried_by(ahead);
        self.enter(found, index, counters_shown(head), &carried)
    }

    // Enters what a sample shows whose format is read, and the counters of an interface that it may carry.
    #[inline(always)]
    fn enter(
        &mut self,
        found: &TakenAt,
        index: u32,
        shown: Shown,
        carried: &Option<IfCounters<'_>>,
    ) -> Option<EnteredAt>
        requires midway { Midway self.old found.now index }
        requires few { index ≤ 8190 }
        ensures stands { (l : Limits) (items : List Item) (d : Given) → Enters l items found.now d
            → length d.samples ≡ index → StandsFor self.old l (Got d ∷ items)
            → StandsFor self.new l (Got (with_sample d (sample_shown shown (carried_in carried.now))) ∷ items) }
        ensures first { (l : Limits) (items : List Item) (d : Given) → Enters l items found.now d
            → length d.samples ≡ index → StandsFor self.old l (Got d ∷ items)
            → is_first_at result ≡ is_first_of l items d (record { datagram = found.now.receipt.number; index = index })
            (id_shown shown) shown.reading }
    {
        let key = SourceKey {
            stream: found.place,
            kind: shown.kind,
            source: shown.source,
        };
        let at = place_at(found, index);
        let width = self.limits.sample_width;
        let entered = self
            .sources
            .enter(key, width, found.boot, at, shown.reading);
        self.totals.unlisted_samples += none_count(entered.is_some());
        enter_carried(&mut self.interfaces, &self.sources, &entered, carried);
        entered
    }

    /// Takes an entry that is no datagram, with its first fault, as the next one: `Malformed`, and it is counted; or
    /// `Spent`, exactly where 2^48 entries were taken before, and then nothing changes. All the room that it needs was taken at the opening.
    pub fn reject(&mut self, fault: &Fault) -> Taken
        ensures stands { (l : Limits) (items : List Item) → length items < most_entries → StandsFor self.old l items
            → StandsFor self.new l (Faulty fault.now ∷ items) }
        ensures answer { (l : Limits) (items : List Item) → StandsFor self.old l items
            → result ≡ taken l items (Faulty fault.now) }
        ensures spent { (l : Limits) (items : List Item) → most_entries ≤ length items → StandsFor self.old l items
            → self.new ≡ self.old }
    {
        if self.totals.entries >= MOST_ENTRIES {
            return Taken::Spent;
        }
        self.totals.entries += 1;
        self.totals.malformed += 1;
        self.totals.first_fault = first_of(self.totals.first_fault, self.totals.entries, fault);
        Taken::Malformed
    }

    /// How many streams are listed.
    pub fn stream_count(&self) -> usize
        ensures streams { (l : Limits) (items : List Item) → StandsFor self.now l items
            → result ≡ length (listed_streams l items) }
        ensures limit { result ≤ self.now.limits.streams }
    {
        self.streams.len()
    }

    /// What is shown of the stream at a place, from 0 on in order of first arrival; `None` exactly past the end.
    pub fn stream(&self, place: usize) -> Option<StreamView>
        ensures view { (l : Limits) (items : List Item) → StandsFor self.now l items
            → option_map stream_shown result ≡ slice_get (books l items).streams place }
        ensures conserved { IfSome result (λ v. v.ledger.issued ≡ v.ledger.received + v.ledger.pending + v.ledger.lost) }
    {
        let (key, stream) = self.streams.get(place)?;
        Some(StreamView {
            agent: key.agent,
            sub_agent: key.sub_agent,
            boots: stream.boots(),
            ledger: stream.view(),
            stale: stream.stale(),
        })
    }

    /// How many sources are listed.
    pub fn source_count(&self) -> usize
        ensures sources { (l : Limits) (items : List Item) → StandsFor self.now l items
            → result ≡ length (listed_sources l items) }
        ensures limit { result ≤ self.now.limits.sources }
    {
        self.sources.len()
    }

    /// What is shown of the source at a place, from 0 on in order of first arrival; `None` exactly past the end.
    pub fn source(&self, place: usize) -> Option<SourceView>
        ensures view { (l : Limits) (items : List Item) → StandsFor self.now l items
            → option_map source_shown result ≡ slice_get (whole_books l items).sources place }
        ensures conserved { IfSome result (λ v. v.ledger.issued ≡ v.ledger.received + v.ledger.pending + v.ledger.lost) }
    {
        let (key, source) = self.sources.get(place)?;
        let (_, stream) = self.streams.get(key.stream as usize)?;
        let view = source.view(stream.boots());
        Some(SourceView {
            stream: key.stream + 1,
            flow: key.kind.is_flow(),
            source: key.source,
            generations: view.generations,
            ledger: view.ledger,
            stale: view.stale,
        })
    }

    /// By how much the counters of the interface rose of which the source at a place has samples; `None` exactly where no
    /// source is there, where it is one of flow samples, or where no First sample of it has a record of interface counters.
    pub fn interface(&self, place: usize) -> Option<IfView>
        ensures view { (l : Limits) (items : List Item) → StandsFor self.now l items
            → result ≡ interface_shown_of l items (slice_get (listed_sources l items) place) }
    {
        let (key, _) = self.sources.get(place)?;
        let ledger = self.interfaces.get(place)?;
        interface_view(key.kind, ledger)
    }

    /// The counts of all entries, exact after each call.
    pub fn totals(&self) -> Totals
        ensures { (l : Limits) (items : List Item) → StandsFor self.now l items → result ≡ totals l items }
    {
        self.totals
    }
}

/// The counts before any entry.
const NO_TOTALS: Totals = Totals {
    entries: 0,
    malformed: 0,
    unlisted: 0,
    unlisted_samples: 0,
    other: 0,
    first_fault: None,
};

// The first fault, after an entry of this number that has this fault.
fn first_of(first: Option<FirstFault>, entry: u64, fault: &Fault) -> Option<FirstFault>
    ensures { (before : ℕ) → entry ≡ before + 1
        → result ≡ fault_after first before (Faulty fault.now) }
{
    match first {
        Some(earlier) => Some(earlier),
        None => Some(FirstFault {
            entry,
            fault: *fault,
        }),
    }
}

// Where the sample of this index stands of a datagram that was taken so.
fn place_at(found: &TakenAt, index: u32) -> SamplePlace
    ensures { result ≡ record { datagram = found.now.receipt.number; index = index } }
{
    SamplePlace {
        datagram: found.receipt.number,
        index,
    }
}

// 1 where nothing was found for an arrival, and else 0.
fn none_count(is_found: bool) -> u64
    ensures { result ≡ if is_found then 0 else 1 }
{
    if is_found { 0 } else { 1 }
}
