// `pcap`: the payloads of a pcap file as a capture, or how many of its packets have one.
ghost use Rattle.std.specs.Prelude.{◌≡◌, ◌≤◌, ◌^◌, ◌++◌, [], IfOk, vec_len};
ghost use Rattle.capture_spec.specs.declared.pcap_output.PcapOutput.TheVariants.{Counts};
ghost use Rattle.pcap_payloads.specs.Outcomes.{last_text, total_of};
ghost use Rattle.command_runs.specs.Endings.{Flushed};
ghost use Rattle.command_runs.specs.Grammars.{pcap_files};
ghost use Rattle.command_runs.specs.Outside.{outside};
ghost use Rattle.command_runs.specs.Runs.{Runs};
ghost use Rattle.sflow_tool.specs.Pcaps.{pcap_act};

use command_runs::{Page, Status, flush, status_of};
use pcap_file::PcapReader;
use pcap_payloads::{PacketCounts, PcapOutput, WalkStop, put_last, take_packets};
use sflow_io::{Sink, Source};
use std::alloc::{AllocError, Global};

// The most bytes of a packet.
const ROOM: usize = 262_144;

// Room for the bytes of a packet.
fn new_packet_room(alloc: Global) -> Result<Vec<u8>, AllocError>
    ensures { IfOk result (λ room. vec_len room ≡ 262144) }
{
    vec![in alloc; 0u8; ROOM]
}

// Reads a pcap file and writes what is asked for. All memory is taken before the first byte is read.
pub(crate) fn pcap<S: Source, K: Sink>(
    alloc: Global,
    output: PcapOutput,
    source: &mut S,
    sink: &mut K,
) -> Status
    ensures { Runs pcap_files (pcap_act output) (outside (S.seen source.old) (K.seen sink.old))
        (outside (S.seen source.new) (K.seen sink.new)) result }
{
    let Ok(mut reader) = PcapReader::open(alloc) else {
        return Status::Memory;
    };
    let Ok(mut room) = new_packet_room(alloc) else {
        return Status::Memory;
    };
    let mut page = Page::new();
    match take_packets(&mut reader, source, &mut room, output, &mut page, sink) {
        Ok(counts) => finish(output, &mut page, sink, &counts),
        Err(WalkStop::Read(refusal)) => stop(output, &mut page, sink, status_of(refusal)),
        Err(WalkStop::Write) => Status::WriteFault,
    }
}

// Puts what comes behind all packets, and ends the run.
fn finish<K: Sink>(
    output: PcapOutput,
    page: &mut Page,
    sink: &mut K,
    counts: &PacketCounts,
) -> Status
    requires few { total_of counts.now ≤ 2 ^ 48 }
    ensures { Flushed (K.seen sink.old) (K.seen sink.new) (page.old ++ last_text output counts.now)
        Status.Done result }
{
    match put_last(output, page, sink, counts) {
        Ok(()) => flush(page, sink, Status::Done),
        Err(_) => Status::WriteFault,
    }
}

// Ends the run before the end of the file. Of counts nothing has been put.
fn stop<K: Sink>(output: PcapOutput, page: &mut Page, sink: &mut K, status: Status) -> Status
    requires { output ≡ Counts → page.old ≡ [] }
    ensures flushed { Flushed (K.seen sink.old) (K.seen sink.new) page.old status result }
    ensures waits { output ≡ Counts → (result ≡ status) × (sink.new ≡ sink.old) }
{
    match output {
        PcapOutput::Capture => flush(page, sink, status),
        PcapOutput::Counts => status,
    }
}
