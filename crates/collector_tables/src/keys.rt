ghost use Rattle.std.specs.Prelude.{◌≡◌};
ghost use Rattle.std.specs.Cmp.Rules.{hashing};
ghost use Rattle.std.proofs.Common.{rules};
ghost use Rattle.collector_tables.specs.Hashes.{stream_words, same_words, source_words};
ghost use Rattle.collector_tables.specs.Kinds.{is_flow_kind};

use data_format::{Address, SourceId};
use std::hash::{Hash, Hasher};

/// A stream: a sub-agent of an agent.
#[derive(Clone, Copy, Debug, PartialEq, Eq)]
pub struct StreamKey {
    /// The address of the agent.
    pub agent: Address,
    /// Which sub-agent of it.
    pub sub_agent: u32,
}

// A hasher takes whole words at once, and shorter pieces byte by byte. Each word is one round more, so there are as few
// as may be: an unknown address has the words of the IPv4 address of zeros.
impl Hash for StreamKey {
    ghost hash_input = { λ k. stream_words k.agent k.sub_agent };

    ghost respects_eq = { same_words };

    #[inline(always)]
    fn hash<H: Hasher>(&self, state: &mut H) {
        let sub_agent = (self.sub_agent as u64) << 32;
        match self.agent {
            Address::Unknown => state.write_u64(sub_agent),
            Address::V4(bytes) => state.write_u64(sub_agent + u32::from_be_bytes(bytes) as u64),
            Address::V6(bytes) => {
                state.write_u64(sub_agent);
                state.write_u128(u128::from_be_bytes(bytes));
            }
        }
    }
}

/// What samples a source has.
#[derive(Clone, Copy, Debug, PartialEq, Eq)]
pub enum SampleKind {
    /// Flow samples.
    Flow,
    /// Counters samples.
    Counters,
}

impl SampleKind {
    /// Whether they are flow samples.
    pub fn is_flow(self) -> bool
        ensures { result ≡ is_flow_kind self }
    {
        match self {
            SampleKind::Flow => true,
            SampleKind::Counters => false,
        }
    }
}

/// A source: what samples are taken of within a stream.
#[derive(Clone, Copy, Debug, PartialEq, Eq)]
pub struct SourceKey {
    /// The place of the stream among those listed, from 0 on in order of first arrival.
    pub stream: u32,
    /// Whether its flow samples or its counters samples.
    pub kind: SampleKind,
    /// What is sampled or counted.
    pub source: SourceId,
}

// One word where the class is small, as those of the standard are, so that a sample costs one round: places of streams
// below 2^20 have words of their own.
impl Hash for SourceKey {
    ghost hash_input = { λ k. source_words k.stream k.kind k.source };

    ghost respects_eq = { Prim.search (hashing, rules) };

    #[inline(always)]
    fn hash<H: Hasher>(&self, state: &mut H) {
        let stream = (self.stream % (1 << 20)) as u64;
        let kind = self.kind.is_flow() as u64;
        let class = (self.source.class % (1 << 11)) as u64;
        state.write_u64(
            ((stream * 2 + kind) * (1 << 11) + class) * (1 << 32) + self.source.index as u64,
        );
        if self.source.class >= 1 << 11 {
            state.write_u64(self.source.class as u64);
        }
    }
}
