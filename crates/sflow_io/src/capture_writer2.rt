ghost use Rattle.std.specs.Prelude.{◌≡◌, ◌+◌, ◌<◌, ◌≤◌, ◌^◌, length, IfOk, OnOk, OnErr};
ghost use Rattle.wire_spec.specs.Captures.{capture_header};
ghost use Rattle.capture_spec.specs.Items.{end_item, sent_bytes};
ghost use Rattle.byte_ends.specs.Seen.{WritesAll};
ghost use Rattle.sflow_io.specs.Senders.{sender_of};

use crate::capture_header::HEADER_OF_ITEMS;
use crate::item_writer::{end_of, write_item};
use crate::{Failed, Sender, Sink, WriteFault, write_all};
use std::marker::Model;

/// A writer of a capture of version 2, entry by entry, each with its sender. It holds nothing back. It is seen as
/// the number of entries that it has written.
///
/// After a fault the sink holds a prefix of what was to be written, and what a later call writes comes behind
/// that prefix.
#[derive(Drop)]
pub struct CaptureWriter2 {
    entries: u64,
}

impl Model for CaptureWriter2 {
    ghost use Rattle.std.specs.Prelude.{ℕ};

    ghost Value = { ℕ };

    ghost view = { λ w. w.entries };
}

impl CaptureWriter2 {
    /// Writes the first 8 bytes of a capture: the magic, and the version 2.
    /// `WriteFault` comes only where a write of the sink failed.
    pub fn begin<K: Sink>(sink: &mut K) -> Result<CaptureWriter2, WriteFault>
        ensures writes { WritesAll (K.seen sink.old) (K.seen sink.new) result (capture_header 2) }
        ensures begun { IfOk result (λ w. w ≡ 0) }
    {
        match write_all(sink, HEADER_OF_ITEMS.as_slice()) {
            Ok(()) => Ok(CaptureWriter2 { entries: 0 }),
            Err(Failed) => Err(WriteFault),
        }
    }

    /// Writes one entry: a datagram of at most 65,535 bytes that this sender sent, and that arrived at `at` ms.
    /// `WriteFault` comes only where a write of the sink failed.
    pub fn entry<K: Sink>(
        &mut self,
        sink: &mut K,
        at: u64,
        from: &Sender,
        bytes: &[u8],
    ) -> Result<(), WriteFault>
        requires short { length bytes.now ≤ 65535 }
        requires few { self.old < 2 ^ 48 }
        ensures writes { WritesAll (K.seen sink.old) (K.seen sink.new) result
            (sent_bytes (sender_of from.now) (record { arrival = at; bytes = bytes.now })) }
        ensures counts { OnOk result (self.new ≡ self.old + 1) }
        ensures kept { OnErr result (self.new ≡ self.old) }
    {
        match write_item(sink, at, from, bytes) {
            Ok(()) => {
                self.entries += 1;
                Ok(())
            }
            Err(Failed) => Err(WriteFault),
        }
    }

    /// How many entries it has written.
    pub fn entries(&self) -> u64
        ensures { result ≡ self.now }
    {
        self.entries
    }

    /// Writes the end item, with the number of entries.
    /// `WriteFault` comes only where a write of the sink failed.
    pub fn end<K: Sink>(self, sink: &mut K) -> Result<(), WriteFault>
        ensures { WritesAll (K.seen sink.old) (K.seen sink.new) result (end_item self) }
    {
        match write_all(sink, end_of(self.entries).as_slice()) {
            Ok(()) => Ok(()),
            Err(Failed) => Err(WriteFault),
        }
    }
}
