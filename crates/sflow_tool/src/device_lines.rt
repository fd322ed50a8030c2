// What a line of a script makes the device do. The device refuses nothing to a line that may follow, so no answer here is
// `SetUp`.
ghost use Rattle.std.specs.Prelude.{◌≡◌, ◌+◌, ◌-◌, ◌<◌, ◌^◌, true, [], ◌∷◌, ℕ, List, length, map, slice_get, Some, OnOk};
ghost use Rattle.agent_outlets.specs.Outlets.{outlet_taken};
ghost use Rattle.script_spec.specs.Lines.{Line, PacketLine, PollLine, SendLine, RestartLine, ResetLine};
ghost use Rattle.script_spec.specs.Sent.{sent_by};
ghost use Rattle.script_laws.specs.Lawful.{AreLawful};
ghost use Rattle.script_tables.specs.Said.{source_said};
ghost use Rattle.script_tables.specs.Tables.{HasSent, StandsAt};
ghost use Rattle.script_meter.specs.Tallies.{Counts};
ghost use Rattle.sub_agents.specs.Packets.{packet_of};
ghost use Rattle.sub_agents.specs.SubAgents.{SubAgentState};
ghost use Rattle.script_spec.specs.Lines.{place_of};
ghost use Rattle.sflow_tool.specs.ScriptBoots.{DeviceOf, put_entry};
ghost use Rattle.sflow_tool.specs.Steps.{Makes, SendsAt, seen_as as answer_as};

use crate::step::Step;
use agent_outlets::ListOutlet;
use data_format::SourceId;
use script_meter::ScriptMeter;
use sub_agents::laws::sources_are_known;
use sub_agents::{Device, OutletFault, Packet, Seen as Answer};
use true_samples::Seen;

// What came of a packet, without the word of its sample.
fn seen_as(answer: Answer) -> Seen
    ensures { result ≡ answer_as answer }
{
    match answer {
        Answer::Passed => Seen::Passed,
        Answer::Issued { .. } => Seen::Issued,
        Answer::Dropped => Seen::Dropped,
    }
}

/// A source sees a packet.
pub(crate) fn observe(device: &mut Device, source: SourceId, packet: &Packet<'_>) -> Step
    ensures { (lines : List Line) → AreLawful (PacketLine (place_of (source_said true source)) (packet_of packet.now) ∷ lines)
        → DeviceOf device.old lines
        → DeviceOf device.new (PacketLine (place_of (source_said true source)) (packet_of packet.now) ∷ lines)
        × Makes lines (PacketLine (place_of (source_said true source)) (packet_of packet.now)) result }
{
    let Some(place) = device.home(true, source) else {
        return Step::SetUp;
    };
    match device.observe_at(place, source, packet) {
        Ok(answer) => Step::Observed {
            place,
            source,
            seen: seen_as(answer),
        },
        Err(_) => Step::SetUp,
    }
}

/// The sub-agent at a place polls.
pub(crate) fn poll(device: &mut Device, meter: &mut ScriptMeter, place: usize, uptime: u32) -> Step
    requires { place < length device.old.subs }
    ensures { (lines : List Line) (id at : ℕ) → AreLawful (PollLine id uptime ∷ lines) → DeviceOf device.old lines
        → Counts meter.old lines → StandsAt lines id place at
        → DeviceOf device.new (PollLine id uptime ∷ lines) × (meter.new ≡ meter.old)
        × Makes lines (PollLine id uptime) result }
{
    sources_are_known();
    match device.poll(place, uptime, meter) {
        Ok(count) => Step::Polled {
            place,
            uptime,
            count,
        },
        Err(_) => Step::SetUp,
    }
}

/// The sub-agent at a place sends.
pub(crate) fn send(
    device: &mut Device,
    place: usize,
    uptime: u32,
    outlet: &mut ListOutlet,
) -> Result<(), OutletFault>
    requires sub { place < length device.old.subs }
    requires numbered { (s : SubAgentState) → slice_get device.old.subs place ≡ Some s → s.numbered < 2 ^ 62 }
    ensures { OnOk result ((lines : List Line) (id at : ℕ) → AreLawful (SendLine id uptime ∷ lines) → DeviceOf device.old lines
        → StandsAt lines id place at → outlet.old.taken ≡ []
        → DeviceOf device.new (SendLine id uptime ∷ lines)
        × ((time : ℕ) → SendsAt lines (SendLine id uptime) place uptime (record { at = time; datagrams = outlet.new }))
        × (map (put_entry (at + uptime)) outlet.new.taken ≡ sent_by lines (SendLine id uptime))) }
{
    device.send(place, uptime, outlet)?;
    Ok(())
}

/// How many datagrams the newest boot of the sub-agent at a place has sent.
pub(crate) fn sent_so_far(device: &Device, place: usize) -> u64
    requires { place < length device.now.subs }
    ensures { (lines : List Line) (id now at : ℕ) → AreLawful (SendLine id now ∷ lines) → DeviceOf device.now (SendLine id now ∷ lines)
        → StandsAt lines id place at → HasSent id result lines (SendLine id now) }
{
    device.numbered(place)
}

/// The sub-agent at a place restarts.
pub(crate) fn restart(device: &mut Device, place: usize) -> Step
    requires sub { place < length device.old.subs }
    requires boot { (s : SubAgentState) → slice_get device.old.subs place ≡ Some s → s.boot < 2 ^ 64 - 1 }
    ensures { (lines : List Line) (id at now : ℕ) → AreLawful (RestartLine id at ∷ lines) → DeviceOf device.old lines
        → StandsAt lines id place now
        → DeviceOf device.new (RestartLine id at ∷ lines) × Makes lines (RestartLine id at) result }
{
    device.restart(place);
    Step::Restarted { place }
}

/// A source begins anew.
pub(crate) fn reset(device: &mut Device, flow: bool, source: SourceId) -> Step
    ensures { (lines : List Line) → AreLawful (ResetLine (source_said flow source) ∷ lines) → DeviceOf device.old lines
        → DeviceOf device.new (ResetLine (source_said flow source) ∷ lines)
        × Makes lines (ResetLine (source_said flow source)) result }
{
    let Some(place) = device.home(flow, source) else {
        return Step::SetUp;
    };
    match device.reset_at(place, flow, source) {
        Ok(()) => Step::Reset {
            place,
            flow,
            source,
        },
        Err(_) => Step::SetUp,
    }
}
