//! The laws. Events have the latest first.

ghost use Rattle.std.specs.Prelude.{◌≡◌, ℕ, ◌<◌, ◌^◌, true, List, length, map, None};
ghost use Rattle.std.specs.List.{AllByRecursion};
ghost use Rattle.wire_spec.specs.Spelling.{IsLawful};
ghost use Rattle.wire_spec.specs.Tables.{interface_counters};
ghost use Rattle.data_format.specs.declared.source.SourceId.{SourceId};
ghost use Rattle.data_format.specs.declared.heads.Form.{Form};
ghost use Rattle.rec_counters.specs.Contents.{interface_content};
ghost use Rattle.rec_counters.specs.declared.interface.IfCounters.{IfCounters};
ghost use Rattle.agent_spec.specs.Sources.{Source, FlowSetup};
ghost use Rattle.agent_spec.specs.Events.{Event, Observe, Poll, Send, Reset};
ghost use Rattle.agent_setups.specs.declared.setup.Setup.{Setup};
ghost use Rattle.agent_setups.specs.Faults.{setup_fault};
ghost use Rattle.sub_agents.specs.declared.packet.Packet.{Packet};
ghost use Rattle.sub_agents.specs.Setups.{flow_source};
ghost use Rattle.sub_agents.specs.Packets.{packet_of};
ghost use Rattle.sub_agents.specs.Opening.{sender_in, first_boot};
ghost use Rattle.sub_agents.specs.Answers.{refusal};
ghost use Rattle.sub_agents.specs.Polls.{counters_fit};
ghost use Rattle.sub_agents.specs.SubAgents.{SubAgentState, sender_of};
ghost use Rattle.delivered_items.specs.Accepted.{IsTaken, IsAccepted};
ghost use Rattle.accepted_calls.specs.Words.{IsPacketOfWords, IsSetupOfWords};

/// A packet that isn't refused, readings of a meter where a counters sample fits, an uptime of 32 bits, and any reset.
pub fn what_calls_take_is_accepted()
    ensures observed { (s : SubAgentState) (id : SourceId) (p : Packet) (f : FlowSetup) → IsPacketOfWords p
        → f.source ≡ flow_source id → refusal s id p ≡ None → IsTaken (sender_of s) (Observe f (packet_of p)) }
    ensures polled { (s : SubAgentState) (now : ℕ) (read : List IfCounters) → 0 < length s.pollers
        → counters_fit s ≡ true
        → AllByRecursion (λ (c : IfCounters). IsLawful interface_counters (interface_content c).0) read
        → IsTaken (sender_of s) (Poll now (map (λ (c : IfCounters). (interface_content c).0) read)) }
    ensures sent { (s : SubAgentState) (now count : ℕ) → now < 2 ^ 32 → IsTaken (sender_of s) (Send now count) }
    ensures reset { (s : SubAgentState) (source : Source) → IsTaken (sender_of s) (Reset source) }
{}

/// A sub-agent whose set-up breaks no rule, in whose boots each event was taken by a call.
pub fn what_is_set_up_is_accepted()
    ensures { (form : Form) (s : Setup) (boots : List (List Event)) → IsSetupOfWords s → setup_fault form s ≡ None
        → AllByRecursion (AllByRecursion (IsTaken (sender_in form s))) boots
        → IsAccepted (record { sender = sender_in form s; setup = (first_boot form s).setup; boots = boots }) }
{}
