ghost use Rattle.std.specs.Prelude.{◌≡◌, ◌≤◌, ◌&&◌, true, false, List, [], ◌∷◌, map, Some, slice_get, IfOk, OnOk, OnErr, IsErr};
ghost use Rattle.books_spec.specs.declared.limits.Limits.{Limits as Bounds};
ghost use Rattle.books_spec.specs.Books.{totals};
ghost use Rattle.account_spec.specs.Histories.{SubAgent, IsHistory, stream_in};
ghost use Rattle.account_spec.specs.Deliveries.{Delivery, item};
ghost use Rattle.trial_spec.specs.PremiseTests.{visible as visible_test, close as close_test, roomy as roomy_test, apparent as apparent_test};
ghost use Rattle.trial_premises.specs.Delivered.{IsOf, AreSamples};
ghost use Rattle.trial_premises.specs.Streams.{ids_of};
ghost use Rattle.trial_premises.specs.Premises.{StandsFor, HaveSources};

use crate::delivered::{TrueDatagram, TrueSample};
use crate::newest::both;
use crate::streams::{
    StreamWatch, all_apparent, all_close, all_samples_close, all_visible, deliver_at, new_streams,
};
use books_spec::Limits;
use std::alloc::{AllocError, Global};
use std::marker::Model;

/// Whether the premises hold of what was delivered so far of a history: restarts show in uptime, fewer than 2^31 numbers
/// separate receipts, and resets show in numbers and their order.
///
/// It is told of each delivery in order of arrival. Sub-agents have places, by their order in the history, and sources
/// have places within their sub-agent.
#[derive(Drop)]
pub struct Premises {
    limits: Limits,
    /// By their places.
    streams: Vec<StreamWatch>,
    /// Whether there was no memory for a delivery.
    spent: bool,
}

impl Model for Premises {
    ghost use Rattle.trial_premises.specs.Premises.{PremiseState};

    ghost Value = { PremiseState };

    ghost view = { λ p. record { limits = p.limits; streams = p.streams.items; spent = p.spent } };
}

impl Premises {
    /// Nothing was delivered. `sources` has how many sources each sub-agent has. The width of the windows over the numbers
    /// of datagrams is at least 1.
    pub fn open(alloc: Global, limits: Limits, sources: &[usize]) -> Result<Premises, AllocError>
        requires { 1 ≤ limits.datagram_width }
        ensures stands { IfOk result (λ p. (history : List SubAgent) → HaveSources history sources.now → StandsFor p history []) }
        ensures limits { IfOk result (λ p. p.limits ≡ limits) }
        ensures fresh { IfOk result (λ p. p.spent ≡ false) }
    {
        let streams = new_streams(alloc, &limits, sources)?;
        Ok(Premises {
            limits,
            streams,
            spent: false,
        })
    }

    /// Enters a delivery of the sub-agent at this place, with its samples in their order. A sub-agent or a source that
    /// isn't there changes nothing.
    ///
    /// Where there is no memory it is spent: nothing more is known of it, and each later call answers so too.
    pub fn deliver(
        &mut self,
        stream: usize,
        datagram: TrueDatagram,
        samples: &[TrueSample],
    ) -> Result<(), AllocError>
        ensures stands { OnOk result ((history : List SubAgent) (a : SubAgent) (d : Delivery) (before : List Delivery)
            → IsHistory history → slice_get history stream ≡ Some a → d.stream ≡ stream_in a → IsOf datagram d
            → AreSamples (ids_of a) samples.now d.datagram.samples → StandsFor self.old history before
            → StandsFor self.new history (d ∷ before)) }
        ensures limits { self.new.limits ≡ self.old.limits }
        ensures ready { OnOk result (self.new.spent ≡ false) }
        ensures spent { OnErr result (self.new.spent ≡ true) }
        ensures stays_spent { self.old.spent ≡ true → IsErr result }
    {
        if self.spent {
            return Err(AllocError);
        }
        self.spent = true;
        deliver_at(&mut self.streams, stream, &self.limits, datagram, samples)?;
        self.spent = false;
        Ok(())
    }

    /// Whether restarts show in uptime.
    pub fn visible(&self) -> bool
        ensures { (history : List SubAgent) (deliveries : List Delivery) → StandsFor self.now history deliveries
            → result ≡ visible_test self.now.limits history deliveries }
    {
        all_visible(&self.streams)
    }

    /// Whether fewer than 2^31 numbers separate receipts, and pools and drops rise by less than 2^32.
    pub fn close(&self) -> bool
        ensures { (history : List SubAgent) (deliveries : List Delivery) → StandsFor self.now history deliveries
            → result ≡ close_test self.now.limits history deliveries }
    {
        both(all_close(&self.streams), all_samples_close(&self.streams))
    }

    /// Whether resets show in numbers and their order.
    pub fn apparent(&self) -> bool
        ensures { (history : List SubAgent) (deliveries : List Delivery) → StandsFor self.now history deliveries
            → result ≡ apparent_test self.now.limits history deliveries }
    {
        all_apparent(&self.streams)
    }
}

/// Whether each stream and each source is listed, by how many entries and samples a collector didn't list.
pub fn roomy(unlisted: u64, unlisted_samples: u64) -> bool
    ensures { (l : Bounds) (deliveries : List Delivery) → (totals l (map item deliveries)).unlisted ≡ unlisted
        → (totals l (map item deliveries)).unlisted_samples ≡ unlisted_samples → result ≡ roomy_test l deliveries }
{
    unlisted == 0 && unlisted_samples == 0
}
