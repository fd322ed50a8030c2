// The tables of a script, and which line may follow its lines.
ghost use Rattle.std.specs.Prelude.{◌≡◌, ◌==◌, ◌&&◌, ◌||◌, not, nat_lt, length, true, false, Bool, ℕ, List, []};
ghost use Rattle.agent_spec.specs.Samples.{Packet};
ghost use Rattle.agent_spec.specs.Sources.{FlowSetup as FlowSaid, CounterSetup as CounterSaid};
ghost use Rattle.script_spec.specs.Lines.{Line, MaxLine, SubLine, FlowLine, CounterLine, PacketLine, PollLine, SendLine, RestartLine, ResetLine, DeliverLine, Delivery, SubAgent as SubSaid, place_of};
ghost use Rattle.script_spec.specs.Rules.{may_follow};
ghost use Rattle.script_laws.specs.Lawful.{AreLawful};
ghost use Rattle.script_tables.specs.Said.{source_said};
ghost use Rattle.script_tables.specs.Tables.{Tells, knows as knows_in, has_row as has_in, is_free_in, rows_of as rows_in, sub_sent as sent_in};

use crate::rows::{SourceRow, SubRow};
use crate::search::{has_row, is_free, knows, rows_of, sub_sent};
use data_format::SourceId;
use std::alloc::Global;
use std::marker::Model;

/// What the lines of a script have set up and sent. It stands for the lines so far, and says of each further line whether
/// it may follow them. Its answers take a time that grows with the sources that were set up.
#[derive(Drop)]
pub struct ScriptTables {
    /// Whether a line was said that sets nothing up.
    pub(crate) running: bool,
    /// Whether the most bytes of a datagram were said.
    pub(crate) has_max: bool,
    pub(crate) subs: Vec<SubRow>,
    pub(crate) sources: Vec<SourceRow>,
}

impl Model for ScriptTables {
    ghost use Rattle.script_tables.specs.Tables.{TablesState};

    ghost Value = { TablesState };

    ghost view = { λ t. record {
      running = t.running;
      has_max = t.has_max;
      subs = t.subs.items;
      sources = t.sources.items;
    } };
}

impl ScriptTables {
    /// Tables of no line. This takes no memory.
    pub fn new(alloc: Global) -> ScriptTables
        ensures { Tells result [] }
    {
        ScriptTables {
            running: false,
            has_max: false,
            subs: Vec::new(alloc),
            sources: Vec::new(alloc),
        }
    }

    /// Whether a line may follow that says how long a datagram is at most.
    pub fn may_set_max(&self) -> bool
        ensures { (lines : List Line) (bytes : ℕ) → Tells self.now lines → result ≡ may_follow lines (MaxLine bytes) }
    {
        self.has_room_for_max()
    }

    /// Whether a line may follow that sets up a sub-agent of this ID.
    pub fn may_add_sub(&self, id: u32) -> bool
        ensures { (lines : List Line) (s : SubSaid) → Tells self.now lines → s.id ≡ id → result ≡ may_follow lines (SubLine s) }
    {
        self.has_room_for_sub(id)
    }

    /// Whether a line may follow that sets up this source of a sub-agent, one of flow samples, or where `flow` is false
    /// one of counters samples.
    pub fn may_add_source(&self, id: u32, flow: bool, source: SourceId) -> bool
        ensures flow { (lines : List Line) (f : FlowSaid) → Tells self.now lines → AreLawful lines → flow ≡ true
            → f.source ≡ source_said flow source → result ≡ may_follow lines (FlowLine id f) }
        ensures counter { (lines : List Line) (c : CounterSaid) → Tells self.now lines → AreLawful lines → flow ≡ false
            → c.source ≡ source_said flow source → result ≡ may_follow lines (CounterLine id c) }
    {
        self.has_room_for_source(id, flow, source)
    }

    /// Whether a line may follow in which this source of flow samples sees a packet.
    pub fn may_observe(&self, source: SourceId) -> bool
        ensures { (lines : List Line) (packet : Packet) → Tells self.now lines
            → result ≡ may_follow lines (PacketLine (place_of (source_said true source)) packet) }
    {
        self.has(true, source)
    }

    /// Whether a line may follow that resets this source, one of flow samples, or where `flow` is false one of counters
    /// samples.
    pub fn may_reset(&self, flow: bool, source: SourceId) -> bool
        ensures { (lines : List Line) → Tells self.now lines
            → result ≡ may_follow lines (ResetLine (source_said flow source)) }
    {
        self.has(flow, source)
    }

    /// Whether a line may follow in which the sub-agent of this ID polls, sends or restarts.
    pub fn may_act(&self, id: u32) -> bool
        ensures poll { (lines : List Line) (now : ℕ) → Tells self.now lines → result ≡ may_follow lines (PollLine id now) }
        ensures send { (lines : List Line) (now : ℕ) → Tells self.now lines → result ≡ may_follow lines (SendLine id now) }
        ensures restart { (lines : List Line) (at : ℕ) → Tells self.now lines → result ≡ may_follow lines (RestartLine id at) }
    {
        self.knows(id)
    }

    /// Whether a line may follow that delivers a datagram: a boot of the sub-agent of this ID, and a datagram of that
    /// boot, each counted from 1.
    pub fn may_deliver(&self, id: u32, boot: u64, number: u64) -> bool
        ensures { (lines : List Line) (d : Delivery) → Tells self.now lines → AreLawful lines → d.id ≡ id → d.boot ≡ boot
            → d.number ≡ number → result ≡ may_follow lines (DeliverLine d) }
    {
        self.has_sent(id, boot, number)
    }

    fn has(&self, flow: bool, source: SourceId) -> bool
        ensures { result ≡ has_in flow source self.now.sources }
    {
        has_row(&self.sources, flow, source)
    }

    fn knows(&self, id: u32) -> bool
        ensures { result ≡ knows_in id self.now.subs }
    {
        knows(&self.subs, id)
    }

    fn has_sent(&self, id: u32, boot: u64, number: u64) -> bool
        ensures { result ≡ sent_in id boot number self.now.subs }
    {
        sub_sent(&self.subs, id, boot, number)
    }

    fn has_room_for_max(&self) -> bool
        ensures { result ≡ (not self.now.running && (not self.now.has_max && (length self.now.subs == 0))) }
    {
        !self.running && !self.has_max && self.subs.is_empty()
    }

    fn has_room_for_sub(&self, id: u32) -> bool
        ensures { result ≡ (not self.now.running && (not (knows_in id self.now.subs) && nat_lt (length self.now.subs) 64)) }
    {
        !self.running && !knows(&self.subs, id) && self.subs.len() < 64
    }

    fn has_room_for_source(&self, id: u32, flow: bool, source: SourceId) -> bool
        ensures { result ≡ (not self.now.running && (knows_in id self.now.subs
            && (is_free_in id flow source self.now.sources && nat_lt (rows_in id flow self.now.sources) 1024))) }
    {
        !self.running
            && knows(&self.subs, id)
            && is_free(&self.sources, id, flow, source)
            && rows_of(&self.sources, id, flow) < 1024
    }
}
