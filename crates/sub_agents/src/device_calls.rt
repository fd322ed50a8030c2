// What happens to the sub-agents of a device.
ghost use Rattle.std.specs.Prelude.{◌≡◌, ◌<◌, ◌-◌, ◌^◌, ◌↔◌, true, false, ℕ, List, length, slice_get, set, Some, Err, IsOk, IsErr, IfOk, OnOk, OnErr};
ghost use Rattle.agent_spec.specs.Sources.{FlowSetup};
ghost use Rattle.agent_spec.specs.Events.{Observe, Reset};
ghost use Rattle.agent_spec.specs.Boots.{IsAmong};
ghost use Rattle.agent_spec.specs.Counting.{next_count};
ghost use Rattle.sub_agents.specs.Setups.{flow_source};
ghost use Rattle.sub_agents.specs.Packets.{packet_of};
ghost use Rattle.sub_agents.specs.Answers.{refusal_in, seen_by, source_of_kind};
ghost use Rattle.sub_agents.specs.Polls.{counters_fit, Polls};
ghost use Rattle.sub_agents.specs.Sent.{Sends};
ghost use Rattle.sub_agents.specs.SubAgents.{SubAgentState, BootSoFar, StandsFor, with_event, next_boot, so_far};
ghost use Rattle.sub_agents.specs.Devices.{StandForEach, with_sub, home_of, device_refusal, has_kind};

use crate::{Device, NoSource, ObserveRefusal, Packet, PollRefusal, Seen};
use agent_outlets::{Outlet, OutletFault};
use agent_poller::Meter;
use data_format::SourceId;

impl Device {
    /// Observes a packet of a source of flow samples, as the sub-agent does that has it. `NoSource` comes exactly where
    /// none has. A refusal leaves all as it was.
    pub fn observe(&mut self, source: SourceId, packet: &Packet<'_>) -> Result<Seen, ObserveRefusal>
        ensures refused { refusal_in result ≡ device_refusal source packet.now self.old.subs }
        ensures unchanged { OnErr result (self.new ≡ self.old) }

        // The sub-agent that has the source stands for one event more, and the answer is what comes of the packet.
        ensures stands { (boots : List BootSoFar) → StandForEach self.old.subs boots → IfOk result (λ seen.
            (place : ℕ) × (home_of true source self.old.subs ≡ Some place)
            × (b : BootSoFar) × (f : FlowSetup) × (slice_get boots place ≡ Some b) × IsAmong f b.setup.flows
            × (f.source ≡ flow_source source) × (seen ≡ seen_by f b)
            × StandForEach self.new.subs (set boots place (with_event (Observe f (packet_of packet.now)) b))) }
    {
        let Some(place) = self.home(true, source) else {
            return Err(ObserveRefusal::NoSource);
        };
        self.observe_at(place, source, packet)
    }

    /// Polls the sub-agent at a place, as it does itself.
    pub fn poll<M: Meter>(
        &mut self,
        sub: usize,
        uptime: u32,
        meter: &mut M,
    ) -> Result<u32, PollRefusal>
        requires { sub < length self.old.subs }
        ensures large { (s : SubAgentState) → slice_get self.old.subs sub ≡ Some s
            → (result ≡ Err PollRefusal.TooLarge) ↔ (counters_fit s ≡ false) }
        ensures unchanged { result ≡ Err PollRefusal.TooLarge → (self.new ≡ self.old) × (meter.new ≡ meter.old) }
        ensures polls { (s : SubAgentState) (b : BootSoFar) → slice_get self.old.subs sub ≡ Some s → StandsFor s b
            → counters_fit s ≡ true → (new : SubAgentState) × (self.new ≡ with_sub sub new self.old)
            × Polls M.gives M.faults s new b uptime meter.old meter.new result }
    {
        self.subs[sub].poll(uptime, meter)
    }

    /// Sends all that the sub-agent at a place has staged, as it does itself.
    pub fn send<O: Outlet>(
        &mut self,
        sub: usize,
        uptime: u32,
        outlet: &mut O,
    ) -> Result<u64, OutletFault>
        requires sub { sub < length self.old.subs }
        requires numbered { (s : SubAgentState) → slice_get self.old.subs sub ≡ Some s → s.numbered < 2 ^ 62 }
        ensures sends { (s : SubAgentState) (b : BootSoFar) → slice_get self.old.subs sub ≡ Some s → StandsFor s b
            → (new : SubAgentState) × (self.new ≡ with_sub sub new self.old)
            × Sends new b uptime (O.taken outlet.old) (O.taken outlet.new) result }
        ensures kept { OnOk result (O.faults outlet.new ≡ O.faults outlet.old) }
        ensures failed { OnErr result (O.faults outlet.new ≡ next_count (O.faults outlet.old)) }
    {
        self.subs[sub].send(uptime, outlet)
    }

    /// Begins a source of flow samples anew, or where `flow` is false a source of counters samples, as the sub-agent does
    /// that has it. `NoSource` comes exactly where none has; then all is as it was.
    pub fn reset(&mut self, flow: bool, source: SourceId) -> Result<(), NoSource>
        ensures refused { IsErr result ↔ (has_kind flow source self.old.subs ≡ false) }
        ensures unchanged { OnErr result (self.new ≡ self.old) }

        // The sub-agent that has the source stands for the reset.
        ensures stands { (boots : List BootSoFar) → StandForEach self.old.subs boots → OnOk result (
            (place : ℕ) × (home_of flow source self.old.subs ≡ Some place)
            × (b : BootSoFar) × (slice_get boots place ≡ Some b)
            × StandForEach self.new.subs (set boots place (with_event (Reset (source_of_kind flow source)) b))) }
    {
        let Some(place) = self.home(flow, source) else {
            return Err(NoSource);
        };
        self.reset_at(place, flow, source)
    }

    /// Begins the next boot of the sub-agent at a place.
    pub fn restart(&mut self, sub: usize)
        requires sub { sub < length self.old.subs }
        requires boot { (s : SubAgentState) → slice_get self.old.subs sub ≡ Some s → s.boot < 2 ^ 64 - 1 }
        ensures { (s : SubAgentState) (b : BootSoFar) → slice_get self.old.subs sub ≡ Some s → StandsFor s b
            → (new : SubAgentState) × (self.new ≡ with_sub sub new self.old) × StandsFor new (next_boot b) }
    {
        self.subs[sub].restart();
    }

    /// The number of the boot of the sub-agent at a place, counted from 1.
    pub fn boot(&self, sub: usize) -> u64
        requires { sub < length self.now.subs }
        ensures { (s : SubAgentState) → slice_get self.now.subs sub ≡ Some s → result ≡ s.boot }
    {
        self.subs[sub].boot()
    }

    /// How many samples of the sub-agent at a place wait for a datagram.
    pub fn staged(&self, sub: usize) -> usize
        requires { sub < length self.now.subs }
        ensures { (s : SubAgentState) (b : BootSoFar) → slice_get self.now.subs sub ≡ Some s → StandsFor s b
            → result ≡ length (so_far b).staged }
    {
        self.subs[sub].staged()
    }

    /// How many datagrams of the sub-agent at a place were numbered in its boot.
    pub fn numbered(&self, sub: usize) -> u64
        requires { sub < length self.now.subs }
        ensures { (s : SubAgentState) → slice_get self.now.subs sub ≡ Some s → result ≡ s.numbered }
    {
        self.subs[sub].numbered()
    }

    /// The place of the sub-agent that has a source of flow samples, or where `flow` is false a source of counters samples.
    pub fn home(&self, flow: bool, source: SourceId) -> Option<usize>
        ensures { result ≡ home_of flow source self.now.subs }
    {
        for (place, sub_agent) in self.subs.iter().enumerate() {
            if sub_agent.has(flow, source) {
                return Some(place);
            }
        }
        None
    }

    /// Observes a packet of a source of flow samples, as the sub-agent does that has it. Its place is the one that `home`
    /// tells, counted from 0; it isn't searched for again. A refusal leaves all as it was, and comes as in `observe`, but
    /// for `NoSource`, which never comes.
    pub fn observe_at(
        &mut self,
        place: usize,
        source: SourceId,
        packet: &Packet<'_>,
    ) -> Result<Seen, ObserveRefusal>
        requires { home_of true source self.old.subs ≡ Some place }
        ensures refused { refusal_in result ≡ device_refusal source packet.now self.old.subs }
        ensures unchanged { OnErr result (self.new ≡ self.old) }
        ensures stands { (boots : List BootSoFar) → StandForEach self.old.subs boots → IfOk result (λ seen.
            (b : BootSoFar) × (f : FlowSetup) × (slice_get boots place ≡ Some b) × IsAmong f b.setup.flows
            × (f.source ≡ flow_source source) × (seen ≡ seen_by f b)
            × StandForEach self.new.subs (set boots place (with_event (Observe f (packet_of packet.now)) b))) }
    {
        self.subs[place].observe(source, packet)
    }

    /// Begins a source of flow samples anew, or where `flow` is false a source of counters samples, as the sub-agent does
    /// that has it. Its place is the one that `home` tells, counted from 0; it isn't searched for again. `NoSource` never
    /// comes.
    pub fn reset_at(&mut self, place: usize, flow: bool, source: SourceId) -> Result<(), NoSource>
        requires { home_of flow source self.old.subs ≡ Some place }
        ensures reset { IsOk result }
        ensures stands { (boots : List BootSoFar) → StandForEach self.old.subs boots → OnOk result (
            (b : BootSoFar) × (slice_get boots place ≡ Some b)
            × StandForEach self.new.subs (set boots place (with_event (Reset (source_of_kind flow source)) b))) }
    {
        self.subs[place].reset(flow, source)
    }
}
