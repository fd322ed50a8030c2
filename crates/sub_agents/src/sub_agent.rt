ghost use Rattle.std.specs.Prelude.{◌≡◌, length};
ghost use Rattle.sub_agents.specs.SubAgents.{BootSoFar, StandsFor, so_far};

use crate::sources::FlowSource;
use crate::staged::Staged;
use agent_poller::Poller;
use circular_buffer::HeapCircularBuffer;
use data_format::{Address, Form, SourceId};
use std::marker::Model;

/// A sub-agent: its sources, the samples that wait for a datagram, and the numbers of its datagrams. It is in one of
/// its boots, and all that it keeps follows from what has happened in that boot.
#[derive(Drop)]
pub struct SubAgent {
    pub(crate) agent: Address,
    pub(crate) sub_agent: u32,
    pub(crate) form: Form,
    /// The most bytes of a datagram.
    pub(crate) max_datagram: u32,
    /// The sequence number of the first datagram of a boot.
    pub(crate) first: u32,
    /// What is sampled, and what is polled: sources by their places.
    pub(crate) flow_ids: Vec<SourceId>,
    pub(crate) counter_ids: Vec<SourceId>,
    pub(crate) flows: Vec<FlowSource>,
    pub(crate) pollers: Vec<Poller>,
    pub(crate) stage: HeapCircularBuffer<Staged>,
    /// Where a datagram is written.
    pub(crate) room: Vec<u8>,
    /// The number of the boot, counted from 1.
    pub(crate) boot: u64,
    /// How many datagrams were numbered in this boot.
    pub(crate) numbered: u64,
}

impl Model for SubAgent {
    ghost use Rattle.sub_agents.specs.SubAgents.{SubAgentState};

    ghost Value = { SubAgentState };

    ghost use Rattle.sub_agents.specs.Fields.{sub_agent_state, IsSubAgent};

    ghost view = { sub_agent_state };

    ghost invariant = { IsSubAgent };
}

impl SubAgent {
    /// The number of the boot, counted from 1.
    pub fn boot(&self) -> u64
        ensures boot { result ≡ self.now.boot }
        ensures number { (b : BootSoFar) → StandsFor self.now b → result ≡ b.number }
    {
        self.boot
    }

    /// How many samples wait for a datagram.
    pub fn staged(&self) -> usize
        ensures staged { (b : BootSoFar) → StandsFor self.now b → result ≡ length (so_far b).staged }
    {
        self.stage.len()
    }

    /// How many datagrams were numbered in this boot.
    pub fn numbered(&self) -> u64
        ensures numbered { result ≡ self.now.numbered }
        ensures sent { (b : BootSoFar) → StandsFor self.now b → result ≡ length (so_far b).sent }
    {
        self.numbered
    }
}
