// `send`: the bytes of each entry of a capture, over a link.
ghost use Rattle.std.specs.Prelude.{◌≤◌, ◌++◌, length};
ghost use Rattle.report_lines.specs.HeaderLines.{ShownTaps};
ghost use Rattle.text_lines.specs.Pages.{Prints};
ghost use Rattle.command_runs.specs.Endings.{Flushed};
ghost use Rattle.command_runs.specs.Walks.{IsFresh};
ghost use Rattle.sflow_tool.specs.Sends.{HasSendCause, Sends, SendsEnd, sent_line};
ghost use Rattle.sflow_tool.specs.WalkEnds.{LeavesAtEnd};
ghost use Rattle.sflow_tool.specs.Surroundings.{surroundings};

use command_runs::{Status, flush, new_room, status_of};
use datagram_links::Link;
use sflow_io::{CaptureReader, Failed, Next, ReadRefusal, Sink, Source};
use std::alloc::Global;
use text_lines::{Page, Piece};
use wire_spec::MAX_ENTRIES;

// Why sending ended before the end of the capture.
#[derive(Clone, Copy, Debug, PartialEq, Eq)]
enum SendStop {
    // The reader refused to go on.
    Read(ReadRefusal),
    // A datagram wasn't sent.
    Link,
}

// Aims the link, sends the bytes of each entry of a capture, and writes how many entries there are. All memory is taken
// before the link is used and before the first byte is read.
pub(crate) fn send<S: Source, K: Sink, L: Link>(
    alloc: Global,
    to: &str,
    source: &mut S,
    sink: &mut K,
    link: &mut L,
) -> Status
    ensures { (taps : ShownTaps) → Sends to.now (surroundings (S.seen source.old) (K.seen sink.old) (L.seen link.old) taps)
        (surroundings (S.seen source.new) (K.seen sink.new) (L.seen link.new) taps) result }
{
    let Ok(mut reader) = CaptureReader::open(alloc) else {
        return Status::Memory;
    };
    let Ok(mut room) = new_room(alloc) else {
        return Status::Memory;
    };
    let mut page = Page::new();
    let Ok(()) = link.aim(to) else {
        return Status::LinkFault;
    };
    match send_entries(&mut reader, source, &mut room, link) {
        Ok(count) => finish(&mut page, sink, count),
        Err(SendStop::Read(refusal)) => status_of(refusal),
        Err(SendStop::Link) => Status::LinkFault,
    }
}

// Sends the bytes of all entries of the capture, one after the other, each as soon as it is read, and answers how many
// there are.
fn send_entries<S: Source, L: Link>(
    reader: &mut CaptureReader,
    source: &mut S,
    room: &mut [u8],
    link: &mut L,
) -> Result<u64, SendStop>
    requires fresh { IsFresh reader.old }
    requires room { 65535 ≤ length room.old }
    ensures sends { SendsEnd (S.seen source.old) (S.seen source.new) (L.seen link.old) (L.seen link.new) result }
    ensures at_end { LeavesAtEnd result (S.seen source.new) }
    ensures cause { HasSendCause (S.seen source.old) (S.seen source.new) result }
{
    for count in 0..MAX_ENTRIES + 1 {
        match reader.next(source, room) {
            Ok(
                Next::Entry {
                    at: _,
                    from: _,
                    len,
                },
            ) => {
                let bytes = &room[..len];
                let Ok(()) = link.send(bytes) else {
                    return Err(SendStop::Link);
                };
            }
            Ok(Next::End) => return Ok(count),
            Err(refusal) => return Err(SendStop::Read(refusal)),
        }
    }
    unreachable!()
}

// Writes how many entries were sent, and ends the run.
fn finish<K: Sink>(page: &mut Page, sink: &mut K, count: u64) -> Status
    ensures { Flushed (K.seen sink.old) (K.seen sink.new) (page.old ++ sent_line count) Status.Done result }
{
    match put_sent(page, sink, count) {
        Ok(()) => flush(page, sink, Status::Done),
        Err(_) => Status::WriteFault,
    }
}

#[tactic(auto, unfolding(crate::specs::Sends::sent_line))]
fn put_sent<K: Sink>(page: &mut Page, sink: &mut K, count: u64) -> Result<(), Failed>
    ensures { Prints (K.seen sink.old) (K.seen sink.new) page.old page.new result (sent_line count) }
{
    let pieces = [
        Piece::Text("sent "),
        Piece::Number(count as u128),
        Piece::Text("\n"),
    ];
    page.put_line(sink, &pieces)
}
