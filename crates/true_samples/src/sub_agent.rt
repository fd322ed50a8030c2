ghost use Rattle.std.specs.Prelude.{◌≡◌, ◌+◌, ◌<◌, ◌^◌, ◌++◌, List, [], ◌∷◌, length, Some, None, IfSome, IfNone};
ghost use Rattle.std.specs.List.{sum_by};
ghost use Rattle.agent_spec.specs.Samples.{Setup};
ghost use Rattle.agent_spec.specs.Events.{Event};
ghost use Rattle.agent_spec.specs.Boots.{happened};
ghost use Rattle.agent_spec.specs.Spelled.{Sender};
ghost use Rattle.script_spec.specs.Agents.{numbered};
ghost use Rattle.account_spec.specs.Histories.{counter_sources, flow_sources};
ghost use Rattle.true_samples.specs.Bounds.{AreFew};
ghost use Rattle.true_samples.specs.Standing.{StandsFor, AreSame, sent_at};

use crate::boots::TrueBoot;
use crate::counts::{CounterCounts, FlowCounts};
use crate::samples::{IssuedSample, SentDatagram};
use data_format::SourceId;
use std::marker::Model;

/// What a sub-agent of a device truly counted, boot by boot. It is told what the sub-agent did, call by call.
///
/// After want of memory it stands for nothing, and isn't to be used.
#[derive(Drop)]
pub struct TrueSubAgent {
    /// The number of the first datagram of a boot.
    pub(crate) first: u32,
    /// The sources by their places.
    pub(crate) flow_ids: Vec<SourceId>,
    pub(crate) counter_ids: Vec<SourceId>,
    pub(crate) flows: Vec<FlowCounts>,
    pub(crate) counters: Vec<CounterCounts>,
    /// The samples that wait for a datagram, in order of issue.
    pub(crate) staged: Vec<IssuedSample>,
    pub(crate) current: TrueBoot,
    /// The boots before, in their order.
    pub(crate) earlier: Vec<TrueBoot>,
}

/// How many datagrams were sent, samples issued and marked packets dropped.
#[derive(Clone, Copy, Debug, PartialEq, Eq, Drop)]
pub struct Totals {
    pub datagrams: u128,
    pub issued: u128,
    pub dropped: u128,
}

impl Model for TrueSubAgent {
    ghost use Rattle.true_samples.specs.States.{TrueState};

    ghost Value = { TrueState };

    ghost view = { λ t. record {
      first = t.first;
      flow_ids = t.flow_ids.items;
      counter_ids = t.counter_ids.items;
      flows = t.flows.items;
      counters = t.counters.items;
      staged = t.staged.items;
      current = t.current;
      earlier = t.earlier.items;
    } };
}

impl TrueSubAgent {
    /// The datagram of this number of the boot of this number, each counted from 1. `None` comes exactly where none was
    /// sent.
    pub fn find(&self, boot: u64, number: u64) -> Option<&SentDatagram>
        ensures some { (sender : Sender) (s : Setup) (events : List Event) (earlier : List (List Event))
            → StandsFor sender s self.now events earlier
            → IfSome result (λ d. AreSame sender s (Some d.now) (sent_at s (events ∷ earlier) boot number)) }
        ensures none { (sender : Sender) (s : Setup) (events : List Event) (earlier : List (List Event))
            → StandsFor sender s self.now events earlier
            → IfNone result (AreSame sender s None (sent_at s (events ∷ earlier) boot number)) }
    {
        let Some(boot) = self.boot(boot) else {
            return None;
        };
        boot.find(number)
    }

    // The boot of this number, counted from 1.
    fn boot(&self, number: u64) -> Option<&TrueBoot>
        ensures some { IfSome result (λ b. numbered (self.now.earlier ++ self.now.current ∷ []) number ≡ Some b.now) }
        ensures none { IfNone result (numbered (self.now.earlier ++ self.now.current ∷ []) number ≡ None) }
    {
        if number == 0 {
            return None;
        }
        let place = (number - 1) as usize;
        if place == self.earlier.len() {
            return Some(&self.current);
        }
        self.earlier.get(place)
    }

    /// How many sources it has: those that it samples and those that it polls.
    pub fn source_count(&self) -> usize
        ensures { (sender : Sender) (s : Setup) (events : List Event) (earlier : List (List Event))
            → StandsFor sender s self.now events earlier → result ≡ length (flow_sources s ++ counter_sources s) }
    {
        self.flow_ids.len() + self.counter_ids.len()
    }

    /// How many datagrams it has sent in its current boot.
    pub fn sent_count(&self) -> usize
        ensures { (sender : Sender) (s : Setup) (events : List Event) (earlier : List (List Event))
            → StandsFor sender s self.now events earlier → result ≡ length (happened s events).sent }
    {
        self.current.sent_count()
    }

    /// What it did in all its boots.
    pub fn totals(&self) -> Totals
        ensures datagrams { (sender : Sender) (s : Setup) (events : List Event) (earlier : List (List Event))
            → StandsFor sender s self.now events earlier
            → result.datagrams ≡ sum_by (λ (boot : List Event). length (happened s boot).sent) (events ∷ earlier) }
        ensures issued { (sender : Sender) (s : Setup) (events : List Event) (earlier : List (List Event))
            → StandsFor sender s self.now events earlier
            → result.issued ≡ sum_by (λ (boot : List Event). length (happened s boot).issued) (events ∷ earlier) }
        ensures dropped { (sender : Sender) (s : Setup) (events : List Event) (earlier : List (List Event))
            → StandsFor sender s self.now events earlier
            → result.dropped ≡ sum_by (λ (boot : List Event). length (happened s boot).dropped) (events ∷ earlier) }
        ensures most { AreFew (1 + length self.now.earlier) result }
    {
        let mut totals = totals_of(&self.current);
        for boot in self.earlier.iter() {
            let boot = totals_of(boot);
            totals.datagrams += boot.datagrams;
            totals.issued += boot.issued;
            totals.dropped += boot.dropped;
        }
        totals
    }
}

// What it did in a boot.
fn totals_of(boot: &TrueBoot) -> Totals
    ensures datagrams { result.datagrams ≡ length boot.now.datagrams }
    ensures issued { result.issued ≡ boot.now.issued }
    ensures dropped { result.dropped ≡ boot.now.dropped }
    ensures most { (result.datagrams < 2 ^ 64) × (result.issued < 2 ^ 64) × (result.dropped < 2 ^ 64) }
{
    Totals {
        datagrams: boot.datagrams.len() as u128,
        issued: boot.issued as u128,
        dropped: boot.dropped as u128,
    }
}
