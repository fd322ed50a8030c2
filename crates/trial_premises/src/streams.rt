ghost use Rattle.std.specs.Prelude.{◌≡◌, ◌≤◌, ◌<◌, ℕ, List, [], ◌∷◌, length, Some, slice_get, pos, IfOk, OnOk};
ghost use Rattle.std.specs.List.{list_all};
ghost use Rattle.agent_spec.specs.Samples.{Sample};
ghost use Rattle.books_spec.specs.Items.{SourceId};
ghost use Rattle.books_spec.specs.Books.{onto};
ghost use Rattle.books_spec.specs.Listing.{same_id, AreDistinct};
ghost use Rattle.account_spec.specs.Deliveries.{Delivery, id_in};
ghost use Rattle.account_spec.specs.Arrivals.{Arrived, arrived_from};
ghost use Rattle.trial_premises.specs.Delivered.{IsOf, AreSamples};
ghost use Rattle.trial_premises.specs.Samples.{IsArrived};
ghost use Rattle.account_spec.specs.Histories.{SubAgent, IsHistory, stream_in};
ghost use Rattle.trial_premises.specs.Premises.{HaveSources};
ghost use Rattle.trial_premises.specs.Streams.{StandsFor, StreamsStand, SourcesStand, samples_of, ids_of, is_visible as visible, is_close as close, are_close as close_all, are_apparent as apparent_all};

use crate::boots::BootWatch;
use crate::delivered::{TrueDatagram, TrueSample};
use crate::places::TruePlace;
use crate::sources::SourceWatch;
use crate::window::TrueWindow;
use books_spec::Limits;
use std::alloc::{AllocError, Global};
use std::marker::Model;

/// What the premises ask of one sub-agent, over its deliveries so far.
#[derive(Drop)]
pub struct StreamWatch {
    boots: BootWatch,
    /// Which datagrams of the newest boot came in time.
    window: TrueWindow,
    /// Its sources, by their places.
    sources: Vec<SourceWatch>,
}

impl Model for StreamWatch {
    ghost use Rattle.trial_premises.specs.Streams.{StreamState};

    ghost Value = { StreamState };

    ghost view = { λ s. record { boots = s.boots; window = s.window; sources = s.sources.items } };
}

impl StreamWatch {
    /// Nothing was delivered. There are so many sources, and the windows over the numbers of datagrams are this wide.
    pub fn open(alloc: Global, sources: usize, limits: &Limits) -> Result<StreamWatch, AllocError>
        requires { 1 ≤ limits.now.datagram_width }
        ensures { IfOk result (λ s. (ids : List SourceId) → length ids ≡ sources → StandsFor limits.now ids s []) }
    {
        let window = TrueWindow::open(alloc, limits.datagram_width)?;
        let sources = new_sources(alloc, sources)?;
        Ok(StreamWatch {
            boots: BootWatch::new(alloc),
            window,
            sources,
        })
    }

    /// Enters a delivery, with its samples in their order. A sample of a source that isn't there changes nothing. Where
    /// there is no memory, nothing more is known of it.
    pub fn deliver(
        &mut self,
        limits: &Limits,
        datagram: TrueDatagram,
        samples: &[TrueSample],
    ) -> Result<(), AllocError>
        ensures { OnOk result ((ids : List SourceId) (d : Delivery) (before : List Delivery) → AreDistinct same_id ids
            → IsOf datagram d → AreSamples ids samples.now d.datagram.samples → StandsFor limits.now ids self.old before
            → StandsFor limits.now ids self.new (d ∷ before)) }
    {
        let newest = self.boots.newest_boot();
        self.boots.reserve(datagram.boot)?;
        self.boots.enter(limits.boot_slack, datagram);
        if datagram.boot < newest {
            return Ok(());
        }
        let begins = newest < datagram.boot;
        if !self.window.enter_in_boot(begins, datagram.number) {
            return Ok(());
        }
        enter_samples(
            &mut self.sources,
            limits.sample_width,
            datagram.boot,
            datagram.number,
            samples,
        )?;
        Ok(())
    }

    /// Whether restarts showed in uptime.
    pub fn is_visible(&self) -> bool
        ensures { result ≡ visible self.now }
    {
        self.boots.is_visible()
    }

    /// Whether fewer than 2^31 numbers separated the receipts of datagrams.
    pub fn is_close(&self) -> bool
        ensures { result ≡ close self.now }
    {
        self.boots.is_close()
    }

    /// Whether fewer than 2^31 numbers separated the receipts of samples, and pools and drops rose by less than 2^32.
    pub fn are_close(&self) -> bool
        ensures { result ≡ close_all self.now }
    {
        self.sources.iter().all(|source| source.is_close())
    }

    /// Whether resets showed in numbers and their order.
    pub fn are_apparent(&self) -> bool
        ensures { result ≡ apparent_all self.now }
    {
        self.sources.iter().all(|source| source.is_apparent())
    }
}

/// Sub-agents of which nothing was delivered, with so many sources each.
pub fn new_streams(
    alloc: Global,
    limits: &Limits,
    sources: &[usize],
) -> Result<Vec<StreamWatch>, AllocError>
    requires { 1 ≤ limits.now.datagram_width }
    ensures { IfOk result (λ v. (history : List SubAgent) → HaveSources history sources.now
        → StreamsStand limits.now history v.items []) }
{
    let mut streams = Vec::new(alloc);
    for count in sources.iter() {
        streams.push(StreamWatch::open(alloc, *count, limits)?)?;
    }
    Ok(streams)
}

/// Enters a delivery of the sub-agent at this place, with its samples in their order. Where there is no memory, nothing
/// more is known of that sub-agent.
pub fn deliver_at(
    streams: &mut Vec<StreamWatch>,
    stream: usize,
    limits: &Limits,
    datagram: TrueDatagram,
    samples: &[TrueSample],
) -> Result<(), AllocError>
    ensures { OnOk result ((history : List SubAgent) (a : SubAgent) (d : Delivery) (before : List Delivery)
        → IsHistory history → slice_get history stream ≡ Some a → d.stream ≡ stream_in a → IsOf datagram d
        → AreSamples (ids_of a) samples.now d.datagram.samples → StreamsStand limits.now history streams.old.items before
        → StreamsStand limits.now history streams.new.items (d ∷ before)) }
{
    if stream < streams.len() {
        let watch = &mut streams[stream];
        watch.deliver(limits, datagram, samples)?;
    }
    Ok(())
}

/// Whether restarts of each sub-agent showed in uptime.
pub fn all_visible(streams: &[StreamWatch]) -> bool
    ensures { result ≡ list_all visible streams.now }
{
    streams.iter().all(|stream| stream.is_visible())
}

/// Whether the datagrams of each sub-agent were close.
pub fn all_close(streams: &[StreamWatch]) -> bool
    ensures { result ≡ list_all close streams.now }
{
    streams.iter().all(|stream| stream.is_close())
}

/// Whether the samples of each source of each sub-agent were close.
pub fn all_samples_close(streams: &[StreamWatch]) -> bool
    ensures { result ≡ list_all close_all streams.now }
{
    streams.iter().all(|stream| stream.are_close())
}

/// Whether resets of each source of each sub-agent showed in numbers and their order.
pub fn all_apparent(streams: &[StreamWatch]) -> bool
    ensures { result ≡ list_all apparent_all streams.now }
{
    streams.iter().all(|stream| stream.are_apparent())
}

// So many sources of which no sample was delivered.
fn new_sources(alloc: Global, count: usize) -> Result<Vec<SourceWatch>, AllocError>
    ensures { IfOk result (λ v. (ids : List SourceId) (width : ℕ) → length ids ≡ count
        → SourcesStand width 0 (λ id. []) ids v.items) }
{
    let mut sources = Vec::new(alloc);
    while sources.len() < count {
        sources.push(SourceWatch::new(alloc))?;
    }
    Ok(sources)
}

// Enters the samples of a datagram of this number, in this boot, which is the newest.
fn enter_samples(
    sources: &mut Vec<SourceWatch>,
    width: u32,
    boot: u64,
    number: u128,
    samples: &[TrueSample],
) -> Result<(), AllocError>
    ensures { OnOk result ((ids : List SourceId) (given : List Sample) (before : List Arrived)
        (closed : SourceId → List (List Arrived)) → AreDistinct same_id ids → 1 ≤ boot → AreSamples ids samples.now given
        → SourcesStand width boot (λ id. samples_of id before ∷ closed id) ids sources.old.items
        → SourcesStand width boot (λ id. samples_of id (onto (arrived_from boot (pos number) 0 given) before) ∷ closed id)
        ids sources.new.items) }
{
    for (index, sample) in samples.iter().enumerate() {
        let at = TruePlace {
            datagram: number,
            index,
        };
        enter_sample(sources, width, boot, at, sample)?;
    }
    Ok(())
}

// Enters a sample of this boot, which is the newest, at its place.
fn enter_sample(
    sources: &mut Vec<SourceWatch>,
    width: u32,
    boot: u64,
    at: TruePlace,
    sample: &TrueSample,
) -> Result<(), AllocError>
    ensures { OnOk result ((ids : List SourceId) (a : Arrived) (before : List Arrived)
        (closed : SourceId → List (List Arrived)) → AreDistinct same_id ids → 1 ≤ boot → IsArrived sample.now at a
        → slice_get ids sample.now.source ≡ Some (id_in a.sample)
        → SourcesStand width boot (λ id. samples_of id before ∷ closed id) ids sources.old.items
        → SourcesStand width boot (λ id. samples_of id (a ∷ before) ∷ closed id) ids sources.new.items) }
{
    if sample.source < sources.len() {
        let source = &mut sources[sample.source];
        source.take(width, boot, at, sample)?;
    }
    Ok(())
}
