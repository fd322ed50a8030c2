ghost use Rattle.std.specs.Prelude.{◌≡◌, ℕ, ◌+◌, ◌<◌, ◌≤◌};
ghost use Rattle.agent_spec.specs.Marks.{is_marked};
ghost use Rattle.agent_sampler.specs.Sampling.{StandsFor, marks_after, verdict_on, word_behind};

use crate::skips::Skips;
use std::marker::Model;

/// Whether a sample is due of a packet.
#[derive(Clone, Copy, Debug, PartialEq, Eq)]
pub enum Verdict {
    /// It is marked for a sample.
    Marked,
    /// It isn't.
    Passed,
}

/// The words that a flow sample shows of its source. Each goes on from 2^32 - 1 to 0.
#[derive(Clone, Copy, Debug, PartialEq, Eq)]
pub struct Marks {
    /// The sequence number of the next sample that is issued.
    pub next: u32,
    /// The sample pool, in packets.
    pub pool: u32,
    /// The drops, in marked packets.
    pub drops: u32,
}

/// The counts of a source of flow samples since its start or its last reset.
#[derive(Drop)]
pub struct Sampler {
    skips: Skips,
    /// What `marks` begin with.
    begin: Marks,
    marks: Marks,
    /// The place of the skip number that runs.
    place: usize,
    /// How many packets are left of it, the marked one among them.
    left: u32,
}

impl Model for Sampler {
    ghost use Rattle.agent_sampler.specs.Sampling.{SamplerState};

    ghost Value = { SamplerState };

    ghost use Rattle.agent_sampler.specs.Fields.{sampler_state, IsSampler};

    ghost view = { sampler_state };

    ghost invariant = { IsSampler };
}

impl Sampler {
    /// A sampler whose first sample has the sequence number `first`, and whose pool and drops begin here, in
    /// packets.
    pub fn new(skips: Skips, first: u32, pool: u32, drops: u32) -> Sampler
        ensures stands { StandsFor result 0 0 0 }
        ensures skips { result.skips ≡ skips }
        ensures begin { result.begin ≡ record { next = first; pool = pool; drops = drops } }
    {
        let begin = Marks {
            next: first,
            pool,
            drops,
        };
        let left = skips.number(0);
        Sampler {
            skips,
            begin,
            marks: begin,
            place: 0,
            left,
        }
    }

    /// Counts a packet in the pool, and tells whether it is marked: the skip numbers, taken cyclically, are the
    /// numbers of packets from mark to mark.
    pub fn observe(&mut self) -> Verdict
        ensures stands { (packets issued dropped : ℕ) → StandsFor self.old packets issued dropped
            → StandsFor self.new (1 + packets) issued dropped }
        ensures verdict { (packets issued dropped : ℕ) → StandsFor self.old packets issued dropped
            → result ≡ verdict_on (is_marked self.old.skips (1 + packets)) }
        ensures skips { self.new.skips ≡ self.old.skips }
        ensures begin { self.new.begin ≡ self.old.begin }
    {
        self.marks.pool = self.marks.pool.wrapping_add(1);
        self.left -= 1;
        if self.left > 0 {
            return Verdict::Passed;
        }
        self.place = self.skips.behind(self.place);
        self.left = self.skips.number(self.place);
        Verdict::Marked
    }

    /// The sequence number of a sample that is issued now.
    pub fn issue(&mut self) -> u32
        ensures stands { (packets issued dropped : ℕ) → StandsFor self.old packets issued dropped
            → StandsFor self.new packets (1 + issued) dropped }
        ensures number { (packets issued dropped : ℕ) → StandsFor self.old packets issued dropped
            → result ≡ word_behind self.old.begin.next issued }
        ensures skips { self.new.skips ≡ self.old.skips }
        ensures begin { self.new.begin ≡ self.old.begin }
    {
        let number = self.marks.next;
        self.marks.next = number.wrapping_add(1);
        number
    }

    /// Counts a marked packet of which no sample is issued.
    pub fn drop_one(&mut self)
        ensures stands { (packets issued dropped : ℕ) → StandsFor self.old packets issued dropped
            → StandsFor self.new packets issued (1 + dropped) }
        ensures skips { self.new.skips ≡ self.old.skips }
        ensures begin { self.new.begin ≡ self.old.begin }
    {
        self.marks.drops = self.marks.drops.wrapping_add(1);
    }

    /// The words that the next sample shows.
    pub fn marks(&self) -> Marks
        ensures { (packets issued dropped : ℕ) → StandsFor self.now packets issued dropped
            → result ≡ marks_after self.now.begin packets issued dropped }
    {
        self.marks
    }

    /// Begins anew, as `new` left it.
    pub fn restart(&mut self)
        ensures stands { StandsFor self.new 0 0 0 }
        ensures skips { self.new.skips ≡ self.old.skips }
        ensures begin { self.new.begin ≡ self.old.begin }
    {
        self.marks = self.begin;
        self.place = 0;
        self.left = self.skips.number(0);
    }
}
