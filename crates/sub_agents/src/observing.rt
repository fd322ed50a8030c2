// A packet is observed.
ghost use Rattle.std.specs.Prelude.{◌≡◌, ◌≤◌, ◌<◌, ℕ, true, false, [], ◌∷◌, length, slice_get, Some, IfOk, IfSome, IfNone, OnErr, OnOk};
ghost use Rattle.agent_spec.specs.Sources.{FlowSetup};
ghost use Rattle.agent_spec.specs.Events.{Observe};
ghost use Rattle.agent_spec.specs.Boots.{IsAmong};
ghost use Rattle.agent_spec.specs.Spelled.{fits_in};
ghost use Rattle.sub_agents.specs.Setups.{flow_source};
ghost use Rattle.sub_agents.specs.Packets.{packet_of, port_fits, ports_fit};
ghost use Rattle.sub_agents.specs.Counts.{flow_setup};
ghost use Rattle.sub_agents.specs.SubAgents.{BootSoFar, StandsFor, with_event, sender_of};
ghost use Rattle.sub_agents.specs.Answers.{a_sample, refusal, refusal_in, seen_by};
ghost use Rattle.sub_agents.specs.declared.sources.FlowSource.{FlowSource};

use crate::SubAgent;
use crate::packet::{ObserveRefusal, Packet, Seen};
use crate::sources::Taken;
use crate::staged::{MAX_HEADER, Staged, flow_size, head_size, stage_packet};
use agent_setups::place_of;
use data_format::{Form, Port, SourceId};

// Whether a port can be said in this form.
fn fits_form(form: Form, port: &Port) -> bool
    ensures { result ≡ port_fits form port.now }
{
    match form {
        Form::Compact => port.form < 4 && port.value < 1_073_741_824,
        Form::Expanded => true,
    }
}

// Whether both ports of a packet can.
fn both_fit_form(form: Form, packet: &Packet<'_>) -> bool
    ensures { result ≡ ports_fit form packet.now }
{
    fits_form(form, &packet.input) && fits_form(form, &packet.output)
}

impl SubAgent {
    /// Observes a packet of a source of flow samples. A packet that is marked is issued as a sample, which is staged, or
    /// dropped where the stage is full. A refusal leaves all as it was.
    pub fn observe(&mut self, source: SourceId, packet: &Packet<'_>) -> Result<Seen, ObserveRefusal>
        ensures refused { refusal_in result ≡ refusal self.old source packet.now }
        ensures unchanged { OnErr result (self.new ≡ self.old) }

        // The sub-agent stands for one event more, and the answer is what comes of the packet.
        ensures stands { (b : BootSoFar) → StandsFor self.old b → IfOk result (λ seen.
            (f : FlowSetup) × IsAmong f b.setup.flows × (f.source ≡ flow_source source) × (seen ≡ seen_by f b)
            × StandsFor self.new (with_event (Observe f (packet_of packet.now)) b)) }
    {
        let Some(place) = place_of(&self.flow_ids, source) else {
            return Err(ObserveRefusal::NoSource);
        };
        if !both_fit_form(self.form, packet) {
            return Err(ObserveRefusal::BadPort);
        }
        if !self.packet_fits(packet) {
            return Err(ObserveRefusal::TooLarge);
        }
        Ok(self.take_packet(place, packet))
    }

    // Whether a datagram has room for a sample of this packet alone.
    fn packet_fits(&self, packet: &Packet<'_>) -> bool
        ensures { (source : SourceId) → result ≡ fits_in (sender_of self.now) (a_sample (flow_source source) (packet_of packet.now) ∷ []) }
    {
        let shown = packet.header.len().min(MAX_HEADER);
        let size = head_size(&self.agent) + flow_size(self.form, shown, packet.vlan);
        size <= self.max_datagram as usize
    }

    // Observes a packet of the source at a place.
    fn take_packet(&mut self, place: usize, packet: &Packet<'_>) -> Seen
        requires place { place < length self.old.flows }
        requires ports { ports_fit self.old.form packet.now ≡ true }
        requires fits { (source : SourceId) → fits_in (sender_of self.old) (a_sample (flow_source source) (packet_of packet.now) ∷ []) ≡ true }
        ensures stands { (b : BootSoFar) (f : FlowSource) → StandsFor self.old b → slice_get self.old.flows place ≡ Some f
            → StandsFor self.new (with_event (Observe (flow_setup f) (packet_of packet.now)) b) }
        ensures seen { (b : BootSoFar) (f : FlowSource) → StandsFor self.old b → slice_get self.old.flows place ≡ Some f
            → result ≡ seen_by (flow_setup f) b }
    {
        let has_place = !self.stage.is_full();
        let flow = &mut self.flows[place];
        let source = flow.source;
        let rate = flow.rate;
        match flow.take(has_place) {
            Taken::Passed => Seen::Passed,
            Taken::Dropped => Seen::Dropped,
            Taken::Issued(marks) => {
                let staged = stage_packet(source, rate, marks, packet);
                self.stage.push_back(Staged::Flow(staged));
                Seen::Issued {
                    sequence: marks.next,
                }
            }
        }
    }
}
