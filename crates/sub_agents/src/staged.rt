// Samples that wait for a datagram.
ghost use Rattle.std.specs.Prelude.{◌≡◌, ◌≤◌, ◌+◌, take, length};
ghost use Rattle.wire_spec.specs.Heads.{address_tree};
ghost use Rattle.wire_spec.specs.Spelling.{spell};
ghost use Rattle.data_format.specs.Addresses.{address_of};
ghost use Rattle.sub_agents.specs.Staged.{IsWritable, staged_size};
ghost use Rattle.sub_agents.specs.Sizes.{flow_bytes, counters_bytes};

use crate::packet::Packet;
use agent_sampler::Marks;
use arrayvec::ArrayVec;
use data_format::{Address, CountersHead, FlowHead, Form, SourceId};
use rec_counters::IfCounters;

/// How many bytes of a packet a sample shows at most.
pub(crate) const MAX_HEADER: usize = 128;

/// A flow sample.
#[derive(Drop)]
pub(crate) struct StagedFlow {
    pub head: FlowHead,
    pub frame_length: u32,
    pub vlan: Option<u16>,
    pub header: ArrayVec<u8, MAX_HEADER>,
}

/// A counters sample.
#[derive(Clone, Copy, Drop)]
pub(crate) struct StagedCounters {
    pub head: CountersHead,
    pub counters: IfCounters<'static>,
}

/// A sample.
#[derive(Drop)]
pub(crate) enum Staged {
    Flow(StagedFlow),
    Counters(StagedCounters),
}

/// A sample of a packet, with the words of its source. A sample shows the first 128 bytes of the packet.
pub(crate) fn stage_packet(
    source: SourceId,
    rate: u32,
    marks: Marks,
    packet: &Packet<'_>,
) -> StagedFlow
    ensures head { result.head ≡ record {
      sequence = marks.next;
      source = source;
      rate = rate;
      pool = marks.pool;
      drops = marks.drops;
      input = packet.now.input;
      output = packet.now.output;
    } }
    ensures frame_length { result.frame_length ≡ packet.now.frame_length }
    ensures vlan { result.vlan ≡ packet.now.vlan }
    ensures header { result.header.items ≡ take 128 packet.now.header.now }
{
    let mut header = ArrayVec::new();
    let shown = packet.header.len().min(MAX_HEADER);
    match header.try_extend_from_slice(&packet.header[..shown]) {
        Ok(()) => {}
        Err(_) => unreachable!(),
    }
    StagedFlow {
        head: FlowHead {
            sequence: marks.next,
            source,
            rate,
            pool: marks.pool,
            drops: marks.drops,
            input: packet.input,
            output: packet.output,
        },
        frame_length: packet.frame_length,
        vlan: packet.vlan,
        header,
    }
}

/// How many bytes a flow sample has that shows so many bytes of a packet, at most 128.
pub(crate) fn flow_size(form: Form, shown: usize, vlan: Option<u16>) -> usize
    requires { shown ≤ 128 }
    ensures value { result ≡ flow_bytes form shown vlan }
    ensures most { result ≤ 228 }
{
    let front = match form {
        Form::Compact => 40,
        Form::Expanded => 52,
    };
    let vlan = match vlan {
        None => 0,
        Some(_) => 24,
    };
    front + 24 + shown + (4 - shown % 4) % 4 + vlan
}

/// How many bytes a counters sample has.
pub(crate) fn counters_size(form: Form) -> usize
    ensures value { result ≡ counters_bytes form }
    ensures most { result ≤ 120 }
{
    match form {
        Form::Compact => 116,
        Form::Expanded => 120,
    }
}

impl Staged {
    /// How many bytes it has in this form.
    pub fn size(&self, form: Form) -> usize
        requires { IsWritable form self.now }
        ensures value { result ≡ staged_size form self.now }
        ensures most { result ≤ 228 }
    {
        match self {
            Staged::Flow(flow) => flow_size(form, flow.header.len(), flow.vlan),
            Staged::Counters(_) => counters_size(form),
        }
    }
}

/// How many bytes stand before the samples of a datagram.
pub(crate) fn head_size(agent: &Address) -> usize
    ensures value { result ≡ 20 + length (spell (address_tree (address_of agent.now))) }
    ensures least { 20 ≤ result }
    ensures most { result ≤ 40 }
{
    match agent {
        Address::Unknown => 24,
        Address::V4(bytes) => 24 + size_of_array(bytes),
        Address::V6(bytes) => 24 + size_of_array(bytes),
    }
}

// How many bytes an array has.
fn size_of_array<const N: usize>(bytes: &[u8; N]) -> usize
    ensures size { result ≡ N }
    ensures length { length bytes.now ≡ N }
{
    bytes.len()
}
