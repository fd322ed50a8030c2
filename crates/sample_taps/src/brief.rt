ghost use Rattle.std.specs.Prelude.{◌≡◌};
ghost use Rattle.sample_taps.specs.Briefs.{brief_of};

use header_lanes::HeaderFacts;

/// One sampled header of a flow sample (sFlow Version 5, section 5).
#[derive(Debug, Clone, Copy, PartialEq, Eq)]
pub struct Brief {
    /// The number of its stream, counting from 1 in order of first arrival.
    pub stream: u32,
    /// The class of its source.
    pub class: u32,
    /// The index of its source within the class.
    pub index: u32,
    /// The sampling rate: one packet in so many was sampled.
    pub rate: u32,
    /// The length in bytes of the frame before it was cut.
    pub frame_length: u32,
    /// What the header says.
    pub facts: HeaderFacts,
}

/// How a header was sampled: what a brief has besides what the header says.
#[derive(Debug, Clone, Copy, PartialEq, Eq)]
pub struct Sampled {
    /// The number of its stream, counting from 1 in order of first arrival.
    pub stream: u32,
    /// The class of its source.
    pub class: u32,
    /// The index of its source within the class.
    pub index: u32,
    /// The sampling rate: one packet in so many was sampled.
    pub rate: u32,
    /// The length in bytes of the frame before it was cut.
    pub frame_length: u32,
}

impl Sampled {
    /// The brief of a header that was sampled so, and says this.
    pub fn brief(&self, facts: &HeaderFacts) -> Brief
        ensures { result ≡ brief_of self.now facts.now }
    {
        Brief {
            stream: self.stream,
            class: self.class,
            index: self.index,
            rate: self.rate,
            frame_length: self.frame_length,
            facts: *facts,
        }
    }
}
