// A visit to each entry of a capture as it is read.
ghost use Rattle.std.specs.Prelude.{◌≡◌, ◌≢◌, ◌≤◌, ◌<◌, ◌^◌, ◌++◌, ◌∷◌, [], List, true, IfOk, IsOk, length};
ghost use Rattle.std.specs.declared.result.Result.TheVariants.{Err};
ghost use Rattle.capture_spec.specs.Items.{Received};
ghost use Rattle.sflow_io.specs.Senders.{sender_in};
ghost use Rattle.text_lines.specs.Pages.{Prints};
ghost use Rattle.command_runs.specs.Tasks.{Task};
ghost use Rattle.command_runs.specs.Walks.{AreCounts, HasWalkCause, IsFresh, ReadsToTheEnd, VisitsEnd, version_said};

use capture_spec::CaptureVersion;
use sflow_io::{CaptureReader, Failed, Next, ReadRefusal, Sender, Sink, Source};
use text_lines::Page;
use wire_spec::MAX_ENTRIES;

/// What is done with each entry of a capture, and behind the last one.
pub trait EntryVisitor {
    /// What it does, whatever it has visited.
    ghost does: { Self → Task };

    /// It has visited these entries.
    ghost visited: { Self → List Received → Type 0 };

    /// Visits the entry with this number, which counts from 1, and answers whether it marks it. An entry has at most
    /// 65,535 bytes.
    fn visit<K: Sink>(
        &mut self,
        page: &mut Page,
        sink: &mut K,
        number: u64,
        at: u64,
        from: Option<Sender>,
        bytes: &[u8],
    ) -> Result<bool, Failed>
        requires short { length bytes.now ≤ 65535 }
        ensures prints { Prints (K.seen sink.old) (K.seen sink.new) page.old page.new result
            ((does self.old).line number (record { arrival = at; sender = sender_in from; bytes = bytes.now })) }
        ensures marked { IfOk result (λ m. m ≡ (does self.old).marks (record { arrival = at; sender = sender_in from; bytes = bytes.now })) }
        ensures visited { IfOk result (λ _. (entries : List Received) → length entries < 2 ^ 48 → visited self.old entries
            → visited self.new (entries ++ record { arrival = at; sender = sender_in from; bytes = bytes.now } ∷ [])
            × (does self.new ≡ does self.old)) }
        ensures waits { (does self.old).waits ≡ true
            → IsOk result × (sink.new ≡ sink.old) × (page.new ≡ page.old) };

    /// Puts what comes behind all entries.
    fn finish<K: Sink>(
        &mut self,
        page: &mut Page,
        sink: &mut K,
        counts: &Counts,
    ) -> Result<(), Failed>
        ensures prints { (entries : List Received) → visited self.old entries → AreCounts (does self.old) entries counts.now
            → Prints (K.seen sink.old) (K.seen sink.new) page.old page.new result
            ((does self.old).last (record { version = counts.now.version; entries = entries })) };

    /// Whether it puts nothing before that.
    fn waits(&self) -> bool
        ensures { result ≡ (does self.now).waits };
}

/// The version of a capture, how many entries it has, and how many of them are marked.
#[derive(Clone, Copy, Debug, PartialEq, Eq)]
pub struct Counts {
    pub version: CaptureVersion,
    pub entries: u64,
    pub marked: u64,
}

/// Why the visits ended before the end of the capture.
#[derive(Clone, Copy, Debug, PartialEq, Eq)]
pub enum Stop {
    /// The reader refused to go on.
    Read(ReadRefusal),
    /// A write failed.
    Write,
}

// The version of this number, which is 1 or 2.
fn version_of(number: Option<u32>) -> CaptureVersion
    ensures { result ≡ version_said number }
{
    match number {
        Some(1) | None => CaptureVersion::One,
        Some(_) => CaptureVersion::Two,
    }
}

// Visits all entries of the capture, one after the other, each as soon as it is read.
pub(crate) fn visit_entries<S: Source, K: Sink, V: EntryVisitor>(
    reader: &mut CaptureReader,
    source: &mut S,
    room: &mut [u8],
    visitor: &mut V,
    page: &mut Page,
    sink: &mut K,
) -> Result<Counts, Stop>
    requires fresh { IsFresh reader.old }
    requires room { 65535 ≤ length room.old }
    requires visited { V.visited visitor.old [] }
    ensures visits { VisitsEnd (V.does visitor.old) (V.visited visitor.new) (S.seen source.old) (S.seen source.new)
        (record { sink = K.seen sink.old; sink' = K.seen sink.new; page = page.old; page' = page.new }) result }
    ensures same { result ≢ Err Stop.Write → V.does visitor.new ≡ V.does visitor.old }
    ensures waits { (V.does visitor.old).waits ≡ true
        → (result ≢ Err Stop.Write) × (sink.new ≡ sink.old) × (page.new ≡ page.old) }
    ensures at_end { ReadsToTheEnd result (S.seen source.new) }
    ensures cause { HasWalkCause (S.seen source.old) (S.seen source.new) result }
{
    let mut marked = 0;
    for count in 0..MAX_ENTRIES + 1 {
        match reader.next(source, room) {
            Ok(Next::Entry { at, from, len }) => {
                let bytes = &room[..len];
                let Ok(is_marked) = visitor.visit(page, sink, count + 1, at, from, bytes) else {
                    return Err(Stop::Write);
                };
                if is_marked {
                    marked += 1;
                }
            }
            Ok(Next::End) => {
                return Ok(Counts {
                    version: version_of(reader.version()),
                    entries: count,
                    marked,
                });
            }
            Err(refusal) => return Err(Stop::Read(refusal)),
        }
    }
    unreachable!()
}
