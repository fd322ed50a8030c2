// A walk over the packets of a pcap file as they are read.
ghost use Rattle.std.specs.Prelude.{◌≡◌, ◌≢◌, ◌≤◌, ◌<◌, ◌^◌, IfOk, IsOk, Ok, length};
ghost use Rattle.std.specs.declared.result.Result.TheVariants.{Err};
ghost use Rattle.capture_spec.specs.Payloads.{payload_of};
ghost use Rattle.pcap_file.specs.PcapAnswers.{IsFresh};
ghost use Rattle.pcap_file.specs.Taken.{payload_value};
ghost use Rattle.text_lines.specs.Pages.{Prints};
ghost use Rattle.pcap_payloads.specs.Outcomes.{last_text, outcome_text, packet_text, total_of, with_outcome};
ghost use Rattle.pcap_payloads.specs.Walks.{HasCause, ReadsAll, WalkEnds};

use crate::packet_counts::PacketCounts;
use crate::sent_items::{put_end, put_header_behind, put_item};
use capture_spec::PcapOutput;
use pcap_file::{Payload, PcapNext, PcapReader, read_payload};
use sflow_io::{Failed, ReadRefusal, Sink, Source};
use text_lines::Page;

// A reader gives at most so many packets.
const MOST: u64 = 1 << 48;

/// Why a walk ended before the end of the file.
#[derive(Clone, Copy, Debug, PartialEq, Eq)]
pub enum WalkStop {
    /// The reader refused to go on.
    Read(ReadRefusal),
    /// A write failed.
    Write,
}

// A payload, and before the first one the header.
fn put_payload<K: Sink>(
    page: &mut Page,
    sink: &mut K,
    taken: u64,
    at: u64,
    payload: &Payload<'_>,
) -> Result<(), Failed>
    requires { length payload.now.bytes.now ≤ 65527 }
    ensures { Prints (K.seen sink.old) (K.seen sink.new) page.old page.new result
        (outcome_text taken at (Ok (payload_value payload.now))) }
{
    put_header_behind(page, sink, taken)?;
    put_item(page, sink, at, &payload.sender, payload.bytes)
}

// Counts a packet, and puts its payload where a capture is asked for.
fn take_packet<K: Sink>(
    page: &mut Page,
    sink: &mut K,
    output: PcapOutput,
    counts: &mut PacketCounts,
    at: u64,
    frame: &[u8],
) -> Result<(), Failed>
    requires few { total_of counts.old < 2 ^ 48 }
    ensures counted { counts.new ≡ with_outcome (payload_of frame.now) counts.old }
    ensures prints { Prints (K.seen sink.old) (K.seen sink.new) page.old page.new result
        (packet_text output counts.old.taken at (payload_of frame.now)) }
    ensures waits { output ≡ PcapOutput.Counts → IsOk result × (sink.new ≡ sink.old) × (page.new ≡ page.old) }
{
    let payload = match read_payload(frame) {
        Ok(payload) => payload,
        Err(reason) => {
            counts.pass(reason);
            return Ok(());
        }
    };
    let taken = counts.taken;
    counts.take();
    match output {
        PcapOutput::Capture => put_payload(page, sink, taken, at, &payload),
        PcapOutput::Counts => Ok(()),
    }
}

/// Takes all packets of the file, one after the other, each as soon as it is read: each is counted, and its payload is
/// put as an entry item with the arrival of the packet and the sender, before the first one the header. The room has at
/// least 262,144 bytes, and is overwritten. Of counts alone nothing is put.
pub fn take_packets<S: Source, K: Sink>(
    reader: &mut PcapReader,
    source: &mut S,
    room: &mut [u8],
    output: PcapOutput,
    page: &mut Page,
    sink: &mut K,
) -> Result<PacketCounts, WalkStop>
    requires fresh { IsFresh reader.old }
    requires room { 262144 ≤ length room.old }
    ensures walks { WalkEnds output (S.seen source.old) (S.seen source.new)
        (record { sink = K.seen sink.old; sink' = K.seen sink.new; page = page.old; page' = page.new }) result }
    ensures few { IfOk result (λ counts. total_of counts ≤ 2 ^ 48) }
    ensures waits { output ≡ PcapOutput.Counts
        → (result ≢ Err WalkStop.Write) × (sink.new ≡ sink.old) × (page.new ≡ page.old) }
    ensures at_end { ReadsAll result (S.seen source.new) }
    ensures cause { HasCause (S.seen source.old) (S.seen source.new) result }
{
    let mut counts = PacketCounts::none();
    for _ in 0..MOST + 1 {
        match reader.next(source, room) {
            Ok(PcapNext::Packet { at, len }) => {
                let frame = &room[..len];
                let Ok(()) = take_packet(page, sink, output, &mut counts, at, frame) else {
                    return Err(WalkStop::Write);
                };
            }
            Ok(PcapNext::End) => return Ok(counts),
            Err(refusal) => return Err(WalkStop::Read(refusal)),
        }
    }
    unreachable!()
}

/// Puts what comes behind the last packet: the end item, and before it the header where there was no payload; or the line
/// of the counts.
pub fn put_last<K: Sink>(
    output: PcapOutput,
    page: &mut Page,
    sink: &mut K,
    counts: &PacketCounts,
) -> Result<(), Failed>
    requires few { total_of counts.now ≤ 2 ^ 48 }
    ensures { Prints (K.seen sink.old) (K.seen sink.new) page.old page.new result (last_text output counts.now) }
{
    match output {
        PcapOutput::Capture => put_end(page, sink, counts.taken),
        PcapOutput::Counts => counts.put(page, sink),
    }
}
