ghost use Rattle.std.specs.Prelude.{◌≡◌, ◌≤◌, ◌<◌, ◌⊎◌, [], ℕ, List, length, IsErr, IfOk, OnOk, OnErr};
ghost use Rattle.std.specs.Io.{WritesAtMost};
ghost use Rattle.byte_ends.specs.Seen.{WritesOnce};
ghost use Rattle.byte_ends.specs.Memory.{IsRefused, fitting_count, sink_seen, sink_written, sink_failed, sink_lacked};

use crate::{Failed, Sink};
use std::alloc::Global;
use std::marker::Model;

/// A sink over memory, which shows what it took. Chosen writes fail, so that a fault can be tried in
/// mid-stream.
#[derive(Debug, Drop)]
pub struct MemorySink {
    bytes: Vec<u8>,
    most: u64,
    fails: Vec<u64>,
    calls: u64,
    faults: u64,
    lacked: u64,
}

impl Model for MemorySink {
    ghost use Rattle.std.specs.Prelude.{◌≤◌, vec_len};
    ghost use Rattle.byte_ends.specs.Memory.{SinkState};

    ghost Value = { SinkState };

    ghost view = { λ s. record {
      taken = s.bytes.items;
      most = s.most;
      fails = s.fails.items;
      calls = s.calls;
      faults = s.faults;
      lacked = s.lacked;
    } };

    ghost invariant = { λ s. vec_len s.bytes ≤ s.most };
}

impl MemorySink {
    /// A sink that takes at most `most` bytes in all.
    /// `fails` holds the numbers of the writes that fail, counted from 1; a number stays at 2^64 - 1.
    pub fn new(alloc: Global, most: u64, fails: Vec<u64>) -> MemorySink
        ensures taken { result.taken ≡ [] }
        ensures most { result.most ≡ most }
        ensures fails { result.fails ≡ fails.items }
        ensures calls { result.calls ≡ 0 }
        ensures faults { result.faults ≡ 0 }
        ensures lacked { result.lacked ≡ 0 }
    {
        MemorySink {
            bytes: Vec::new(alloc),
            most,
            fails,
            calls: 0,
            faults: 0,
            lacked: 0,
        }
    }

    /// The bytes that were taken.
    pub fn bytes(&self) -> &[u8]
        ensures { result.now ≡ self.now.taken }
    {
        &self.bytes
    }

    /// How many writes failed for want of memory, up to 2^64 - 1.
    pub fn lacked(&self) -> u64
        ensures { result ≡ self.now.lacked }
    {
        self.lacked
    }
}

impl Sink for MemorySink {
    ghost seen = { sink_seen };

    fn write(&mut self, bytes: &[u8]) -> Result<usize, Failed>
        ensures bound { WritesAtMost result bytes.now }
        ensures some { 0 < length bytes.now → IfOk result (λ n. 0 < n) }
        ensures writes { WritesOnce (sink_seen self.old) (sink_seen self.new) result bytes.now }

        // It takes what fits.
        ensures count { IfOk result (λ n. n ≡ fitting_count self.old bytes.now) }
        ensures after { OnOk result (self.new ≡ sink_written self.old bytes.now) }

        // It fails where it is refused, and else only for want of memory for a piece that isn't empty.
        ensures refused { IsRefused self.old bytes.now → IsErr result × (self.new ≡ sink_failed self.old) }
        ensures failed { OnErr result (IsRefused self.old bytes.now
            ⊎ ((0 < length bytes.now) × (self.new ≡ sink_lacked self.old))) }
    {
        self.calls = self.calls.saturating_add(1);
        let room = self.most - self.bytes.len() as u64;
        let count = room.min(bytes.len() as u64) as usize;
        if self.fails.contains(&self.calls) || (count == 0 && !bytes.is_empty()) {
            self.faults = self.faults.saturating_add(1);
            return Err(Failed);
        }
        if self.bytes.extend_from_slice(&bytes[..count]).is_err() {
            self.faults = self.faults.saturating_add(1);
            self.lacked = self.lacked.saturating_add(1);
            return Err(Failed);
        }
        Ok(count)
    }
}
