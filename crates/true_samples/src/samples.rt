ghost use Rattle.std.specs.Prelude.{◌≡◌};

use std::marker::Model;

/// A sample, by what its agent counted.
#[derive(Clone, Copy, Debug, PartialEq, Eq, Drop)]
pub struct IssuedSample {
    /// The place of its source among those of its sub-agent: the flow sources in order of set-up, and behind them the
    /// counter sources; counted from 0.
    pub source: usize,
    /// The generation of its source in the boot, counted from 1.
    pub generation: u64,
    /// Its number, which never wraps.
    pub number: u128,
    /// Its sample pool in packets, which never wraps. A counters sample has none, and then it is 0.
    pub pool: u128,
    /// Its drops in packets, which never wrap. A counters sample has none, and then it is 0.
    pub drops: u128,
}

/// A datagram that was sent, by what its agent counted.
#[derive(Drop)]
pub struct SentDatagram {
    pub(crate) number: u128,
    pub(crate) uptime: u32,
    pub(crate) samples: Vec<IssuedSample>,
    pub(crate) bytes: Vec<u8>,
}

impl Model for SentDatagram {
    ghost use Rattle.true_samples.specs.States.{SentState};

    ghost Value = { SentState };

    ghost view = { λ d. record {
      number = d.number;
      uptime = d.uptime;
      samples = d.samples.items;
      bytes = d.bytes.items;
    } };
}

impl SentDatagram {
    /// Its number, which never wraps.
    pub fn number(&self) -> u128
        ensures { result ≡ self.now.number }
    {
        self.number
    }

    /// The uptime that it shows, in ms.
    pub fn uptime(&self) -> u32
        ensures { result ≡ self.now.uptime }
    {
        self.uptime
    }

    /// Its samples, in their order.
    pub fn samples(&self) -> &[IssuedSample]
        ensures { result.now ≡ self.now.samples }
    {
        &self.samples
    }

    /// Its bytes.
    pub fn bytes(&self) -> &[u8]
        ensures { result.now ≡ self.now.bytes }
    {
        &self.bytes
    }
}
