ghost use Rattle.std.specs.Prelude.{◌≡◌, ◌<◌, ◌≤◌, ◌^◌, length};
ghost use Rattle.wire_spec.specs.Captures.{capture_header, entry_bytes, entry_head};
ghost use Rattle.byte_ends.specs.Seen.{WritesAll};

use crate::capture_header::HEADER;
use crate::{Failed, Sink, WriteFault, write_all};

/// A writer of a capture, entry by entry. It holds nothing back.
///
/// After a fault the sink holds a prefix of what was to be written, and what a later call writes comes behind
/// that prefix.
#[derive(Drop)]
pub struct CaptureWriter {
    _begun: (),
}

impl CaptureWriter {
    /// Writes the first 8 bytes of a capture: the magic, and the version 1.
    /// `WriteFault` comes only where a write of the sink failed.
    pub fn begin<K: Sink>(sink: &mut K) -> Result<CaptureWriter, WriteFault>
        ensures { WritesAll (K.seen sink.old) (K.seen sink.new) result (capture_header 1) }
    {
        match write_all(sink, HEADER.as_slice()) {
            Ok(()) => Ok(CaptureWriter { _begun: () }),
            Err(Failed) => Err(WriteFault),
        }
    }

    /// Writes one entry: a datagram of at most 65,535 bytes that arrived at `at` ms.
    /// `WriteFault` comes only where a write of the sink failed.
    pub fn entry<K: Sink>(&mut self, sink: &mut K, at: u64, bytes: &[u8]) -> Result<(), WriteFault>
        requires { length bytes.now ≤ 65535 }
        ensures { WritesAll (K.seen sink.old) (K.seen sink.new) result
            (entry_bytes (record { arrival = at; bytes = bytes.now })) }
    {
        match write_entry(sink, at, bytes) {
            Ok(()) => Ok(()),
            Err(Failed) => Err(WriteFault),
        }
    }
}

// The arrival and the length at the start of an entry.
#[tactic(auto, unfolding(wire_spec::specs::Captures::entry_head))]
fn head_of(at: u64, len: u32) -> [u8; 12]
    ensures { result ≡ entry_head at len }
{
    let [a, b, c, d, e, f, g, h] = at.to_be_bytes();
    let [i, j, k, l] = len.to_be_bytes();
    [a, b, c, d, e, f, g, h, i, j, k, l]
}

// An entry, byte by byte.
fn write_entry<K: Sink>(sink: &mut K, at: u64, bytes: &[u8]) -> Result<(), Failed>
    requires { length bytes.now ≤ 65535 }
    ensures { WritesAll (K.seen sink.old) (K.seen sink.new) result
        (entry_bytes (record { arrival = at; bytes = bytes.now })) }
{
    write_all(sink, head_of(at, bytes.len() as u32).as_slice())?;
    write_all(sink, bytes)?;
    let padding = (4 - bytes.len() % 4) % 4;
    write_all(sink, &[0u8; 4][..padding])
}
