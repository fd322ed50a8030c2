// `canon`: a capture anew, each datagram with zero padding.
ghost use Rattle.std.specs.Prelude.{◌≡◌, ◌≤◌, length, take, IfSome, vec_len};
ghost use Rattle.text_lines.specs.Pages.{Prints};
ghost use Rattle.wire_spec.specs.Captures.{entry_bytes, entry_head};
ghost use Rattle.capture_spec.specs.VersionedCaptures.{ending_bytes, received_bytes};
ghost use Rattle.sflow_io.specs.Senders.{sender_in, sender_of};
ghost use Rattle.sflow_tool.specs.Canons.{canon_act, canonical, end_put, entry_put, header_alone, header_before, known_sender as sender_known, version_header, version_with as version_of, written_sender as sender_written, written_version as version_written};
ghost use Rattle.command_runs.specs.Grammars.{captures};
ghost use Rattle.command_runs.specs.Outside.{outside};
ghost use Rattle.command_runs.specs.Runs.{Runs};

use command_runs::{CaptureVersion, Counts, EntryVisitor, Sender, Status, new_room, visit_capture};
use command_words::CanonVersion;
use data_format::Address;
use datagram_core::{Datagram, write_anew};
use pcap_payloads::{put_end_item, put_item, put_padded};
use sflow_io::{Failed, Sink, Source};
use std::alloc::Global;
use text_lines::Page;
use wire_spec::Pad;

// The magic, and the version as a word.
const HEADER_ONE: [u8; 8] = *b"SFLC\0\0\0\x01";

const HEADER_TWO: [u8; 8] = *b"SFLC\0\0\0\x02";

// Each entry with zero padding, in a capture.
#[derive(Drop)]
struct CanonicalEntries {
    to: CanonVersion,
    // Room for a datagram with zero padding.
    room: Vec<u8>,
    ghost whole: { vec_len room ≡ 65535 },
}

impl EntryVisitor for CanonicalEntries {
    ghost use Rattle.sflow_tool.specs.Canons.{canon_task};

    ghost does = { λ self. canon_task self.to };

    ghost visited = { λ _ _. Unit {0} };

    fn visit<K: Sink>(
        &mut self,
        page: &mut Page,
        sink: &mut K,
        number: u64,
        at: u64,
        from: Option<Sender>,
        bytes: &[u8],
    ) -> Result<bool, Failed> {
        let from = written_sender(self.to, from);
        put_whole(page, sink, &mut self.room, number, at, from, bytes)?;
        Ok(false)
    }

    fn finish<K: Sink>(
        &mut self,
        page: &mut Page,
        sink: &mut K,
        counts: &Counts,
    ) -> Result<(), Failed> {
        let version = written_version(self.to, counts.version);
        put_end(page, sink, counts.entries, version)
    }

    fn waits(&self) -> bool {
        false
    }
}

// ---- Versions and senders

// The version that is written of one that was read.
fn written_version(to: CanonVersion, version: CaptureVersion) -> CaptureVersion
    ensures { result ≡ version_written to version }
{
    match to {
        CanonVersion::Same => version,
        CanonVersion::Two => CaptureVersion::Two,
    }
}

// Where version 1 doesn't tell who sent an entry, it is nobody from port 0.
fn known_sender(from: Option<Sender>) -> Sender
    ensures { sender_of result ≡ sender_known (sender_in from) }
{
    match from {
        Some(sender) => sender,
        None => Sender {
            address: Address::Unknown,
            port: 0,
        },
    }
}

// The sender that is written of one that was read.
fn written_sender(to: CanonVersion, from: Option<Sender>) -> Option<Sender>
    ensures { sender_in result ≡ sender_written to (sender_in from) }
{
    match to {
        CanonVersion::Same => from,
        CanonVersion::Two => Some(known_sender(from)),
    }
}

// The version of a capture that has an entry of this sender.
fn version_with(from: Option<Sender>) -> CaptureVersion
    ensures { result ≡ version_of (sender_in from) }
{
    match from {
        None => CaptureVersion::One,
        Some(_) => CaptureVersion::Two,
    }
}

// ---- The entries

// The entry of this number with zero padding, and before the first one the header. The room is for its bytes.
fn put_whole<K: Sink>(
    page: &mut Page,
    sink: &mut K,
    room: &mut [u8],
    number: u64,
    at: u64,
    from: Option<Sender>,
    bytes: &[u8],
) -> Result<(), Failed>
    requires short { length bytes.now ≤ 65535 }
    requires room { 65535 ≤ length room.old }
    ensures { Prints (K.seen sink.old) (K.seen sink.new) page.old page.new result
        (entry_put number (record { arrival = at; sender = sender_in from; bytes = canonical bytes.now })) }
{
    put_header_before(page, sink, number, version_with(from))?;
    put_canonical(page, sink, room, at, from, bytes)
}

pub(crate) fn put_header<K: Sink>(
    page: &mut Page,
    sink: &mut K,
    version: CaptureVersion,
) -> Result<(), Failed>
    ensures { Prints (K.seen sink.old) (K.seen sink.new) page.old page.new result (version_header version) }
{
    match version {
        CaptureVersion::One => page.put(sink, &HEADER_ONE),
        CaptureVersion::Two => page.put(sink, &HEADER_TWO),
    }
}

// The header, before the entry of number 1.
fn put_header_before<K: Sink>(
    page: &mut Page,
    sink: &mut K,
    number: u64,
    version: CaptureVersion,
) -> Result<(), Failed>
    ensures { Prints (K.seen sink.old) (K.seen sink.new) page.old page.new result (header_before number version) }
{
    if number == 1 {
        put_header(page, sink, version)
    } else {
        Ok(())
    }
}

// The entry with zero padding.
fn put_canonical<K: Sink>(
    page: &mut Page,
    sink: &mut K,
    room: &mut [u8],
    at: u64,
    from: Option<Sender>,
    bytes: &[u8],
) -> Result<(), Failed>
    requires short { length bytes.now ≤ 65535 }
    requires room { 65535 ≤ length room.old }
    ensures { Prints (K.seen sink.old) (K.seen sink.new) page.old page.new result
        (received_bytes (version_of (sender_in from))
        (record { arrival = at; sender = sender_in from; bytes = canonical bytes.now })) }
{
    match write_canonical(bytes, room) {
        Some(len) => put_received(page, sink, at, from, &room[..len]),
        None => put_received(page, sink, at, from, bytes),
    }
}

// An entry of either version, byte by byte.
fn put_received<K: Sink>(
    page: &mut Page,
    sink: &mut K,
    at: u64,
    from: Option<Sender>,
    bytes: &[u8],
) -> Result<(), Failed>
    requires { length bytes.now ≤ 65535 }
    ensures { Prints (K.seen sink.old) (K.seen sink.new) page.old page.new result
        (received_bytes (version_of (sender_in from))
        (record { arrival = at; sender = sender_in from; bytes = bytes.now })) }
{
    match from {
        None => put_entry(page, sink, at, bytes),
        Some(sender) => put_item(page, sink, at, &sender, bytes),
    }
}

// The arrival and the length at the start of an entry of version 1.
#[tactic(auto, unfolding(wire_spec::specs::Captures::entry_head))]
fn head_of(at: u64, len: u32) -> [u8; 12]
    ensures { result ≡ entry_head at len }
{
    let [a, b, c, d, e, f, g, h] = at.to_be_bytes();
    let [i, j, k, l] = len.to_be_bytes();
    [a, b, c, d, e, f, g, h, i, j, k, l]
}

// An entry of version 1.
pub(crate) fn put_entry<K: Sink>(
    page: &mut Page,
    sink: &mut K,
    at: u64,
    bytes: &[u8],
) -> Result<(), Failed>
    requires { length bytes.now ≤ 65535 }
    ensures { Prints (K.seen sink.old) (K.seen sink.new) page.old page.new result
        (entry_bytes (record { arrival = at; bytes = bytes.now })) }
{
    page.put(sink, &head_of(at, bytes.len() as u32))?;
    put_padded(page, sink, bytes)
}

// A datagram with zero padding, at the front of the room: how many bytes it has. `None` is where the bytes stay: they
// are no datagram, or their padding is zero.
#[tactic(auto, unfolding(crate::specs::Canons::canonical))]
fn write_canonical(bytes: &[u8], room: &mut [u8]) -> Option<usize>
    requires room { 65535 ≤ length room.old }
    ensures length { IfSome result (λ n. n ≤ 65535) }
    ensures datagram { IfSome result (λ n. take n room.new ≡ canonical bytes.now) }
    ensures other { result ≡ None → canonical bytes.now ≡ bytes.now }
{
    if Datagram::parse(bytes, Pad::Zero).is_ok() {
        return None;
    }
    let Ok(datagram) = Datagram::parse(bytes, Pad::Any) else {
        return None;
    };
    match write_anew(&datagram, room) {
        Ok(len) => Some(len),
        Err(_) => unreachable!(),
    }
}

// ---- The end

// What stands behind so many entries, and the header if there were none.
fn put_end<K: Sink>(
    page: &mut Page,
    sink: &mut K,
    count: u64,
    version: CaptureVersion,
) -> Result<(), Failed>
    ensures { Prints (K.seen sink.old) (K.seen sink.new) page.old page.new result (end_put count version) }
{
    put_header_alone(page, sink, count, version)?;
    put_ending(page, sink, count, version)
}

// The header if there were no entries.
fn put_header_alone<K: Sink>(
    page: &mut Page,
    sink: &mut K,
    count: u64,
    version: CaptureVersion,
) -> Result<(), Failed>
    ensures { Prints (K.seen sink.old) (K.seen sink.new) page.old page.new result (header_alone count version) }
{
    if count == 0 {
        put_header(page, sink, version)
    } else {
        Ok(())
    }
}

// In version 2 the end item.
fn put_ending<K: Sink>(
    page: &mut Page,
    sink: &mut K,
    count: u64,
    version: CaptureVersion,
) -> Result<(), Failed>
    ensures { Prints (K.seen sink.old) (K.seen sink.new) page.old page.new result (ending_bytes version count) }
{
    match version {
        CaptureVersion::One => Ok(()),
        CaptureVersion::Two => put_end_item(page, sink, count),
    }
}

// Writes a capture anew, each datagram with zero padding, in the version that was read or in version 2. All memory is
// taken before the first byte is read.
pub(crate) fn canon<S: Source, K: Sink>(
    alloc: Global,
    to: CanonVersion,
    source: &mut S,
    sink: &mut K,
) -> Status
    ensures { Runs captures (canon_act to) (outside (S.seen source.old) (K.seen sink.old))
        (outside (S.seen source.new) (K.seen sink.new)) result }
{
    let Ok(room) = new_room(alloc) else {
        return Status::Memory;
    };
    visit_capture(alloc, &mut CanonicalEntries { to, room }, source, sink)
}
