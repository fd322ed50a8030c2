ghost use Rattle.std.specs.Prelude.{◌≡◌, ◌++◌, [], ◌∷◌, ℕ, List, map, IfOk, IsOk, OnOk, OnErr};
ghost use Rattle.agent_spec.specs.Sources.{CounterSetup as CounterSaid, Source as SourceSaid};
ghost use Rattle.agent_spec.specs.Samples.{Packet};
ghost use Rattle.rec_counters.specs.Contents.{interface_content};
ghost use Rattle.script_spec.specs.Lines.{Line, CounterLine, PacketLine, RestartLine};
ghost use Rattle.script_meter.specs.Tallies.{Counts, gives_counters, interface_at, tally_in, with_length, with_packet, with_restart};
ghost use Rattle.script_meter.specs.declared.meter.CountedRow.{CountedRow as Row};

use agent_poller::Meter;
use data_format::{Failed, SourceId};
use rec_counters::IfCounters;
use std::alloc::{AllocError, Global};
use std::marker::Model;

/// How many bytes and packets came in, mod 2^64 and mod 2^32.
#[derive(Clone, Copy, Debug, Drop)]
pub struct Tally {
    pub octets: u64,
    pub packets: u32,
}

/// A source of counters samples, and what came in since the newest boot of its sub-agent began.
#[derive(Clone, Copy, Debug, Drop)]
pub struct CountedRow {
    /// The ID of its sub-agent.
    pub owner: u32,
    pub source: SourceId,
    pub tally: Tally,
}

/// The meter of a script. A source of counters samples counts the packets of its class and index; a read never fails.
#[derive(Drop)]
pub struct ScriptMeter {
    rows: Vec<CountedRow>,
}

impl Model for ScriptMeter {
    ghost use Rattle.std.specs.Prelude.{List};
    ghost use Rattle.script_meter.specs.declared.meter.CountedRow.{CountedRow};

    ghost Value = { List CountedRow };

    ghost view = { λ m. m.rows.items };
}

const NONE: Tally = Tally {
    octets: 0,
    packets: 0,
};

impl CountedRow {
    // A packet of this length came in, if the source is this one.
    fn count(&mut self, source: SourceId, length: u32)
        ensures { self.new ≡ with_packet source length self.old }
    {
        if self.source.class == source.class && self.source.index == source.index {
            self.tally.octets = self.tally.octets.wrapping_add(length as u64);
            self.tally.packets = self.tally.packets.wrapping_add(1);
        }
    }

    // The sub-agent of this ID restarted.
    fn restart(&mut self, owner: u32)
        ensures { self.new ≡ with_restart owner self.old }
    {
        if self.owner == owner {
            self.tally = NONE;
        }
    }
}

fn count_each(rows: &mut [CountedRow], source: SourceId, length: u32)
    ensures { rows.new ≡ map (with_packet source length) rows.old }
{
    for place in 0..rows.len() {
        rows[place].count(source, length);
    }
}

fn restart_each(rows: &mut [CountedRow], owner: u32)
    ensures { rows.new ≡ map (with_restart owner) rows.old }
{
    for place in 0..rows.len() {
        rows[place].restart(owner);
    }
}

fn tally_in(rows: &[CountedRow], source: SourceId) -> Tally
    ensures { result ≡ tally_in source rows.now }
{
    for row in rows {
        if row.source.class == source.class && row.source.index == source.index {
            return row.tally;
        }
    }
    NONE
}

fn counters_at(index: u32, tally: Tally) -> IfCounters<'static>
    ensures content { interface_content result ≡ (interface_at index tally, []) }
    ensures tail { result.tail.now ≡ [] }
{
    IfCounters {
        index,
        if_type: 6,
        speed: 1_000_000_000,
        direction: 1,
        status: 3,
        in_octets: tally.octets,
        in_ucast: tally.packets,
        in_multicast: 0,
        in_broadcast: 0,
        in_discards: 0,
        in_errors: 0,
        in_unknown: 0,
        out_octets: 0,
        out_ucast: 0,
        out_multicast: 0,
        out_broadcast: 0,
        out_discards: 0,
        out_errors: 0,
        promiscuous: 0,
        tail: &[],
    }
}

impl ScriptMeter {
    /// A meter of no source. This takes no memory.
    pub fn new(alloc: Global) -> ScriptMeter
        ensures { Counts result [] }
    {
        ScriptMeter {
            rows: Vec::new(alloc),
        }
    }

    /// A line set up a source of counters samples.
    pub fn add_source(&mut self, owner: u32, source: SourceId) -> Result<(), AllocError>
        ensures { OnOk result (self.new ≡ self.old ++ record { owner = owner; source = source; tally = record { octets = 0; packets = 0 } } ∷ []) }
    {
        self.rows.push(CountedRow {
            owner,
            source,
            tally: NONE,
        })?;
        Ok(())
    }

    /// A line said that a packet came in.
    pub fn count(&mut self, source: SourceId, length: u32)
        ensures { self.new ≡ map (with_packet source length) self.old }
    {
        count_each(&mut self.rows, source, length);
    }

    /// A line said that the sub-agent of this ID restarted.
    pub fn restart(&mut self, owner: u32)
        ensures { self.new ≡ map (with_restart owner) self.old }
    {
        restart_each(&mut self.rows, owner);
    }
}

impl Meter for ScriptMeter {
    ghost gives = { gives_counters };

    ghost faults = { λ m. 0 };

    fn read(&mut self, source: SourceId) -> Result<IfCounters<'static>, Failed>
        ensures gives { IfOk result (λ counters. gives_counters self.old source (interface_content counters) self.new) }
        ensures tail { IfOk result (λ counters. counters.tail.now ≡ []) }
        ensures kept { IsOk result }
        ensures failed { IsOk result }
    {
        Ok(counters_at(source.index, tally_in(&self.rows, source)))
    }
}
