// `agent`: a capture of the datagrams that the sub-agents of a script send.
ghost use Rattle.std.specs.Prelude.{◌≡◌, ◌||◌, ◌++◌, List, IfOk};
ghost use Rattle.std.specs.List.{AllByRecursion};
ghost use Rattle.sflow_io.specs.declared.capture.ReadRefusal.TheVariants.{BadInput};
ghost use Rattle.wire_spec.specs.declared.input_kind.InputKind.TheVariants.{Script};
ghost use Rattle.text_lines.specs.Pages.{Prints};
ghost use Rattle.script_spec.specs.Lines.{Line};
ghost use Rattle.script_lines.specs.Fronts.{IsSaid};
ghost use Rattle.script_lines.specs.Readers.{IsFresh};
ghost use Rattle.script_lines.specs.Shown.{shown};
ghost use Rattle.command_runs.specs.Endings.{Flushed};
ghost use Rattle.command_runs.specs.Grammars.{scripts};
ghost use Rattle.command_runs.specs.Outside.{outside};
ghost use Rattle.command_runs.specs.Runs.{Runs};
ghost use Rattle.sflow_tool.specs.Agents.{agent_act, are_some, entries_put, opening};
ghost use Rattle.sflow_tool.specs.AgentWalks.{HasLineCause, IsShort, IsShortPut, LineEnds, LinesEnd, entries_at, put_text, puts_text};
ghost use Rattle.sflow_tool.specs.WalkEnds.{LeavesAtEnd};
ghost use Rattle.sflow_tool.specs.ScriptRuns.{IsSound, StandsFor};
ghost use Rattle.sflow_tool.specs.Steps.{entries_of};

use crate::canon::{put_entry, put_header};
use crate::script_run::{ScriptRun, Sent, Unfit};
use crate::step::Step;
use agent_outlets::Put;
use command_runs::{CaptureVersion, Status, flush, status_of};
use script_laws::lines_are_written;
use script_lines::{ScriptLine, ScriptReader};
use sflow_io::{Failed, ReadRefusal, Sink, Source};
use std::alloc::Global;
use text_lines::Page;
use wire_spec::InputKind;

/// A script has at most so many lines.
pub(crate) const MAX_LINES: u64 = 4_294_967_295;

// Why a script was left before its end.
#[derive(Clone, Copy, Debug, PartialEq, Eq)]
enum AgentStop {
    // The reader refused to go on, or a line breaks a rule.
    Read(ReadRefusal),
    // A write failed.
    Write,
    // Memory was lacking.
    Memory,
}

// Reads a script and writes a capture of the datagrams that its lines send, each as soon as it is sent. Memory may be
// lacking at any line; what was written by then is a beginning of that capture.
pub(crate) fn agent<S: Source, K: Sink>(alloc: Global, source: &mut S, sink: &mut K) -> Status
    ensures { Runs scripts agent_act (outside (S.seen source.old) (K.seen sink.old))
        (outside (S.seen source.new) (K.seen sink.new)) result }
{
    let Ok(mut reader) = ScriptReader::open(alloc) else {
        return Status::Memory;
    };
    let mut page = Page::new();
    match take_lines(alloc, &mut reader, source, &mut page, sink) {
        Ok(opened) => finish(&mut page, sink, opened),
        Err(AgentStop::Read(refusal)) => flush(&mut page, sink, status_of(refusal)),
        Err(AgentStop::Write) => Status::WriteFault,
        Err(AgentStop::Memory) => Status::Memory,
    }
}

// Puts the header if nothing was sent, and ends the run.
fn finish<K: Sink>(page: &mut Page, sink: &mut K, opened: bool) -> Status
    ensures { Flushed (K.seen sink.old) (K.seen sink.new) (page.old ++ opening opened) Status.Done result }
{
    match put_opening(page, sink, opened) {
        Ok(()) => flush(page, sink, Status::Done),
        Err(_) => Status::WriteFault,
    }
}

// Takes all lines of the script, one after the other, each as soon as it is read, and answers whether the header stands
// before what was put.
fn take_lines<S: Source, K: Sink>(
    alloc: Global,
    reader: &mut ScriptReader,
    source: &mut S,
    page: &mut Page,
    sink: &mut K,
) -> Result<bool, AgentStop>
    requires fresh { IsFresh reader.old }
    ensures ends { LinesEnd (S.seen source.old) (S.seen source.new)
        (record { sink = K.seen sink.old; sink' = K.seen sink.new; page = page.old; page' = page.new }) result }
    ensures at_end { LeavesAtEnd result (S.seen source.new) }
    ensures cause { HasLineCause (S.seen source.old) (S.seen source.new) result }
{
    let mut run = ScriptRun::new(alloc);
    let mut opened = false;
    for _ in 0..MAX_LINES + 1 {
        let line = match reader.next(source) {
            Ok(Some(line)) => line,
            Ok(None) => return Ok(opened),
            Err(refusal) => return Err(AgentStop::Read(refusal)),
        };
        match take_line(alloc, &mut run, line, reader.number(), opened, page, sink) {
            Ok(now) => opened = now,
            Err(stop) => return Err(stop),
        }
    }
    unreachable!()
}

// Takes the line of this number, and puts what it sends. The answer is whether the header stands before what was put.
fn take_line<K: Sink>(
    alloc: Global,
    run: &mut ScriptRun,
    line: ScriptLine,
    number: u64,
    opened: bool,
    page: &mut Page,
    sink: &mut K,
) -> Result<bool, AgentStop>
    requires sound { IsSound run.old }
    requires said { IsSaid (shown line) }
    ensures { (lines : List Line) → StandsFor run.old lines → LineEnds run.new lines (shown line) number opened
        (record { sink = K.seen sink.old; sink' = K.seen sink.new; page = page.old; page' = page.new }) result }
{
    lines_are_written();
    match run.take(alloc, line) {
        Ok(step) => match put_step(page, sink, opened, &step) {
            Ok(now) => Ok(now),
            Err(_) => Err(AgentStop::Write),
        },
        Err(Unfit::Breaks) => Err(AgentStop::Read(broken(number))),
        Err(Unfit::Memory) => Err(AgentStop::Memory),
    }
}

/// The line of this number breaks a rule.
pub(crate) fn broken(number: u64) -> ReadRefusal
    ensures { result ≡ BadInput number Script }
{
    ReadRefusal::BadInput {
        at: number as u128,
        kind: InputKind::Script,
    }
}

// ---- What is sent

// The header, unless it stands there.
fn put_opening<K: Sink>(page: &mut Page, sink: &mut K, opened: bool) -> Result<(), Failed>
    ensures { Prints (K.seen sink.old) (K.seen sink.new) page.old page.new result (opening opened) }
{
    if opened {
        Ok(())
    } else {
        put_header(page, sink, CaptureVersion::One)
    }
}

// What a line made the device send, and before the first datagram the header, unless it stands there. The answer is whether
// it does now.
fn put_step<K: Sink>(
    page: &mut Page,
    sink: &mut K,
    opened: bool,
    step: &Step,
) -> Result<bool, Failed>
    requires short { AllByRecursion IsShort (entries_of step.now) }
    ensures prints { Prints (K.seen sink.old) (K.seen sink.new) page.old page.new result
        (entries_put opened (entries_of step.now)) }
    ensures opened { IfOk result (λ now. now ≡ (opened || are_some (entries_of step.now))) }
{
    match step {
        Step::Sent { sent, .. } => put_sent(page, sink, opened, sent),
        _ => Ok(opened),
    }
}

// The datagrams that were sent, and before the first one the header, unless it stands there. The answer is whether it
// does now.
fn put_sent<K: Sink>(
    page: &mut Page,
    sink: &mut K,
    opened: bool,
    sent: &Sent,
) -> Result<bool, Failed>
    requires short { AllByRecursion IsShort (entries_at sent.now.at sent.now.datagrams.taken) }
    ensures prints { Prints (K.seen sink.old) (K.seen sink.new) page.old page.new result
        (entries_put opened (entries_at sent.now.at sent.now.datagrams.taken)) }
    ensures opened { IfOk result (λ now. now ≡ (opened || are_some (entries_at sent.now.at sent.now.datagrams.taken))) }
{
    let puts = sent.datagrams.puts();
    if puts.is_empty() {
        return Ok(opened);
    }
    put_opening(page, sink, opened)?;
    put_all(page, sink, sent.at, puts)?;
    Ok(true)
}

// Datagrams that arrive at this time.
fn put_all<K: Sink>(page: &mut Page, sink: &mut K, at: u64, puts: &[Put]) -> Result<(), Failed>
    requires { AllByRecursion IsShortPut puts.now }
    ensures { Prints (K.seen sink.old) (K.seen sink.new) page.old page.new result (puts_text at puts.now) }
{
    for put in puts {
        put_datagram(page, sink, at, put)?;
    }
    Ok(())
}

fn put_datagram<K: Sink>(page: &mut Page, sink: &mut K, at: u64, put: &Put) -> Result<(), Failed>
    requires { IsShortPut put.now }
    ensures { Prints (K.seen sink.old) (K.seen sink.new) page.old page.new result (put_text at put.now) }
{
    put_entry(page, sink, at, &put.bytes)
}
