// What a source has counted since its start or its last reset, in 64 bits.
ghost use Rattle.std.specs.Prelude.{◌≡◌, ◌+◌, ◌%◌, ◌^◌};
ghost use Rattle.agent_spec.specs.Polls.{is_due_after};

use crate::samples::IssuedSample;

/// A source of flow samples: what its numbers begin with, and what it has counted in its generation.
#[derive(Clone, Copy, Debug, Drop)]
pub(crate) struct FlowCounts {
    /// The number of the first sample of a generation, and what the pool and the drops begin with.
    pub first: u32,
    pub pool: u32,
    pub drops: u32,
    /// The generation, counted from 1.
    pub generation: u64,
    /// Packets seen, samples issued, and marked packets dropped.
    pub packets: u64,
    pub issued: u64,
    pub dropped: u64,
}

/// A source of counters samples.
#[derive(Clone, Copy, Debug, Drop)]
pub(crate) struct CounterCounts {
    /// The least time from one poll to the next, in ms.
    pub every: u32,
    /// The number of the first sample of a generation.
    pub first: u32,
    /// The generation, counted from 1.
    pub generation: u64,
    /// How many samples were issued.
    pub issued: u64,
    /// The uptime of the last poll, in ms; 0 where there is none.
    pub last: u32,
}

impl FlowCounts {
    /// The sample of the packet that was counted last, where the source stands at this place.
    pub fn sample(&self, place: usize) -> IssuedSample
        ensures { result ≡ record {
          source = place;
          generation = self.now.generation;
          number = self.now.first + self.now.issued;
          pool = self.now.pool + self.now.packets;
          drops = self.now.drops + self.now.dropped;
        } }
    {
        IssuedSample {
            source: place,
            generation: self.generation,
            number: self.first as u128 + self.issued as u128,
            pool: self.pool as u128 + self.packets as u128,
            drops: self.drops as u128 + self.dropped as u128,
        }
    }

    /// Counts a packet.
    pub fn count_packet(&mut self)
        ensures { self.new ≡ record self.old { packets = (self.old.packets + 1) % 2 ^ 64 } }
    {
        self.packets = self.packets.wrapping_add(1);
    }

    /// Counts a sample that is issued.
    pub fn count_issued(&mut self)
        ensures { self.new ≡ record self.old { issued = (self.old.issued + 1) % 2 ^ 64 } }
    {
        self.issued = self.issued.wrapping_add(1);
    }

    /// Counts a packet that is dropped.
    pub fn count_dropped(&mut self)
        ensures { self.new ≡ record self.old { dropped = (self.old.dropped + 1) % 2 ^ 64 } }
    {
        self.dropped = self.dropped.wrapping_add(1);
    }

    /// In a generation of this number nothing was counted.
    pub fn begin(&mut self, generation: u64)
        ensures { self.new ≡ record self.old { generation = generation; packets = 0; issued = 0; dropped = 0 } }
    {
        self.generation = generation;
        self.packets = 0;
        self.issued = 0;
        self.dropped = 0;
    }
}

impl CounterCounts {
    /// The next sample, where the source stands at this place. It has no pool and no drops.
    pub fn sample(&self, place: usize) -> IssuedSample
        ensures { result ≡ record {
          source = place;
          generation = self.now.generation;
          number = self.now.first + self.now.issued;
          pool = 0;
          drops = 0;
        } }
    {
        IssuedSample {
            source: place,
            generation: self.generation,
            number: self.first as u128 + self.issued as u128,
            pool: 0,
            drops: 0,
        }
    }

    /// Whether a poll is due at this uptime, in ms.
    pub fn is_due(&self, uptime: u32) -> bool
        ensures { result ≡ is_due_after self.now.every self.now.last uptime }
    {
        uptime.wrapping_sub(self.last) >= self.every
    }

    /// Counts a poll at this uptime, in ms.
    pub fn count_poll(&mut self, uptime: u32)
        ensures { self.new ≡ record self.old { issued = (self.old.issued + 1) % 2 ^ 64; last = uptime } }
    {
        self.issued = self.issued.wrapping_add(1);
        self.last = uptime;
    }

    /// In a generation of this number nothing was counted.
    pub fn begin(&mut self, generation: u64)
        ensures { self.new ≡ record self.old { generation = generation; issued = 0; last = 0 } }
    {
        self.generation = generation;
        self.issued = 0;
        self.last = 0;
    }
}
