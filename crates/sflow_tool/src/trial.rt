// `trial`: the report of what a script delivers, and what was true of it.
ghost use Rattle.std.specs.Prelude.{◌≡◌, ◌+◌, ◌<◌, ◌≤◌, ◌^◌, ◌++◌, [], List, length, vec_len};
ghost use Rattle.books_spec.specs.Limits.{AreLawful};
ghost use Rattle.books_spec.specs.declared.limits.Limits.{Limits as Bounds};
ghost use Rattle.sample_taps.specs.Classes.{no_classes};
ghost use Rattle.sample_taps.specs.Feeding.{Held};
ghost use Rattle.text_lines.specs.Pages.{Prints};
ghost use Rattle.flow_collector.specs.Collectors.{StandsFor};
ghost use Rattle.report_lines.specs.HeaderLines.{shown_taps};
ghost use Rattle.script_spec.specs.Lines.{Line};
ghost use Rattle.script_lines.specs.Readers.{IsFresh};
ghost use Rattle.command_runs.specs.Endings.{Flushed};
ghost use Rattle.command_runs.specs.Grammars.{scripts};
ghost use Rattle.command_runs.specs.Outside.{outside};
ghost use Rattle.command_runs.specs.Runs.{Runs};
ghost use Rattle.sflow_tool.specs.Replays.{Collects, briefs_in, items_in};
ghost use Rattle.script_laws.specs.Lawful.{AreLawful as Lawful};
ghost use Rattle.script_histories.specs.Histories.{deliveries_of, history_of};
ghost use Rattle.trial_premises.specs.Premises.{StandsFor as Premised};
ghost use Rattle.report_lines.specs.InterfaceLines.{report_with};
ghost use Rattle.books_spec.specs.WholeBooks.{whole_books};
ghost use Rattle.sflow_tool.specs.Trials.{HasTrialCause, HasTriedLines, IsOpen, IsTried, TrialEnds, TrialStands, premises_of as premises_in, received_in, tail_of, trial_act};
ghost use Rattle.sflow_tool.specs.WalkEnds.{LeavesAtEnd};

use crate::agent::{MAX_LINES, broken};
use crate::report::put_report;
use crate::script_run::Unfit;
use crate::trial_run::{TrialRun, Tried};
use command_runs::{Status, flush, status_of};
use delivered_items::laws::scripts_are_accepted;
use flow_collector::{Collector, Limits, Seeds};
use report_lines::{TrialPremises, put_agent_line, put_premises_line};
use sample_taps::{Tap, Taps};
use script_histories::laws::scripts_are_histories;
use script_laws::lines_are_written;
use script_lines::ScriptReader;
use sflow_io::{Failed, ReadRefusal, Sink, Source};
use std::alloc::Global;
use text_lines::Page;
use trial_premises::{Premises, roomy};

// Why a script was left before its end.
#[derive(Clone, Copy, Debug, PartialEq, Eq)]
enum TrialStop {
    // The reader refused to go on, or a line breaks a rule.
    Read(ReadRefusal),
    // Memory was lacking.
    Memory,
}

// Reads a script and runs its device; what its lines deliver goes to a collector and the consumers at once. Then it writes the
// report, what the sub-agents did in all, and which premises hold. Memory may be lacking at any line; nothing is written then.
pub(crate) fn trial<S: Source, K: Sink>(
    alloc: Global,
    limits: Limits,
    interfaces: bool,
    seeds: Seeds,
    source: &mut S,
    sink: &mut K,
    taps: &mut Taps,
) -> Status
    requires lawful { AreLawful limits }
    requires few { taps.old.ended + vec_len taps.old.held < 2 ^ 64 }
    ensures runs { Runs scripts (trial_act limits interfaces
        (shown_taps (λ x. (⟦<dyn Tap as Tap>⟧ x.vtable).text x.value) taps.new.held.items taps.new.ended))
        (outside (S.seen source.old) (K.seen sink.old)) (outside (S.seen source.new) (K.seen sink.new)) result }
    ensures fed { HasTriedLines (λ lines. Held (λ x b y. (v : _) × (y ≡ record x { value = v }) × (⟦<dyn Tap as Tap>⟧ x.vtable).step x.value b v)
        (λ x. (⟦<dyn Tap as Tap>⟧ x.vtable).ended x.value) (briefs_in limits (received_in lines)) taps.old.held.items taps.new.held.items)
        (S.seen source.old) (S.seen source.new) result }
    ensures ended { taps.new.ended + vec_len taps.new.held ≡ taps.old.ended + vec_len taps.old.held }
{
    let Ok(mut collector) = Collector::open_within(alloc, limits, seeds) else {
        return Status::Memory;
    };
    let Ok(mut reader) = ScriptReader::open(alloc) else {
        return Status::Memory;
    };
    let mut run = TrialRun::new(alloc, limits);
    match take_lines(alloc, &mut reader, source, &mut run, &mut collector, taps) {
        Ok(()) => finish(sink, &run, &collector, interfaces, taps),
        Err(TrialStop::Read(refusal)) => status_of(refusal),
        Err(TrialStop::Memory) => Status::Memory,
    }
}

// Takes all lines of the script, one after the other, each as soon as it is read.
fn take_lines<S: Source>(
    alloc: Global,
    reader: &mut ScriptReader,
    source: &mut S,
    run: &mut TrialRun,
    collector: &mut Collector,
    taps: &mut Taps,
) -> Result<(), TrialStop>
    requires fresh { IsFresh reader.old }
    requires new { TrialStands run.old [] }
    requires width { 1 ≤ run.old.limits.datagram_width }
    requires few { taps.old.ended + vec_len taps.old.held < 2 ^ 64 }
    requires stands { StandsFor collector.old.books collector.old.books.limits [] }
    requires classes { collector.old.classes ≡ no_classes }
    ensures ends { TrialEnds (λ lines. IsOpen run.new lines × (length lines < 2 ^ 32))
        (λ lines. Collects (λ x b y. (v : _) × (y ≡ record x { value = v }) × (⟦<dyn Tap as Tap>⟧ x.vtable).step x.value b v)
        (λ x. (⟦<dyn Tap as Tap>⟧ x.vtable).ended x.value) collector.old.books.limits collector.new taps.old.held.items taps.new.held.items
        (taps.old.ended + vec_len taps.old.held) (taps.new.ended + vec_len taps.new.held) (received_in lines))
        (S.seen source.old) (S.seen source.new) result }
    ensures limits { run.new.limits ≡ run.old.limits }
    ensures at_end { LeavesAtEnd result (S.seen source.new) }
    ensures cause { HasTrialCause (S.seen source.old) (S.seen source.new) result }
    ensures ended { taps.new.ended + vec_len taps.new.held ≡ taps.old.ended + vec_len taps.old.held }
{
    lines_are_written();
    for _ in 0..MAX_LINES + 1 {
        let line = match reader.next(source) {
            Ok(Some(line)) => line,
            Ok(None) => match run.open(alloc) {
                Ok(()) => return Ok(()),
                Err(_) => return Err(TrialStop::Memory),
            },
            Err(refusal) => return Err(TrialStop::Read(refusal)),
        };
        match run.take(alloc, line, collector, taps) {
            Ok(()) => {}
            Err(Unfit::Breaks) => return Err(TrialStop::Read(broken(reader.number()))),
            Err(Unfit::Memory) => return Err(TrialStop::Memory),
        }
    }
    unreachable!()
}

// Puts the report and the two lines behind it, and ends the run.
pub(crate) fn finish<K: Sink>(
    sink: &mut K,
    run: &TrialRun,
    collector: &Collector,
    interfaces: bool,
    taps: &Taps,
) -> Status
    ensures { (lines : List Line) → IsOpen run.now lines → length lines < 2 ^ 32
        → StandsFor collector.now.books run.now.limits (items_in (received_in lines))
        → Flushed (K.seen sink.old) (K.seen sink.new)
        (report_with interfaces (whole_books run.now.limits (items_in (received_in lines))) collector.now.classes
        (shown_taps (λ x. (⟦<dyn Tap as Tap>⟧ x.vtable).text x.value) taps.now.held.items taps.now.ended)
        ++ tail_of run.now.limits lines) Status.Done result }
{
    let Some(tried) = &run.tried else {
        return Status::Memory;
    };
    let mut page = Page::new();
    match put_trial(&mut page, sink, tried, collector, interfaces, taps) {
        Ok(()) => flush(&mut page, sink, Status::Done),
        Err(_) => Status::WriteFault,
    }
}

// Puts the report and the two lines behind it.
fn put_trial<K: Sink>(
    page: &mut Page,
    sink: &mut K,
    tried: &Tried,
    collector: &Collector,
    interfaces: bool,
    taps: &Taps,
) -> Result<(), Failed>
    ensures { (l : Bounds) (lines : List Line) → Lawful lines → IsTried l tried.now lines → length lines < 2 ^ 32
        → StandsFor collector.now.books l (items_in (received_in lines))
        → Prints (K.seen sink.old) (K.seen sink.new) page.old page.new result
        (report_with interfaces (whole_books l (items_in (received_in lines))) collector.now.classes
        (shown_taps (λ x. (⟦<dyn Tap as Tap>⟧ x.vtable).text x.value) taps.now.held.items taps.now.ended)
        ++ tail_of l lines) }
{
    put_report(page, sink, collector, interfaces, taps)?;
    put_tail(page, sink, tried, collector)
}

// Puts what the sub-agents did in all, and which premises hold.
fn put_tail<K: Sink>(
    page: &mut Page,
    sink: &mut K,
    tried: &Tried,
    collector: &Collector,
) -> Result<(), Failed>
    ensures { (l : Bounds) (lines : List Line) → Lawful lines → IsTried l tried.now lines → length lines < 2 ^ 32
        → StandsFor collector.now.books l (items_in (received_in lines))
        → Prints (K.seen sink.old) (K.seen sink.new) page.old page.new result (tail_of l lines) }
{
    let totals = tried.trues.totals();
    put_agent_line(page, sink, totals.datagrams, totals.issued, totals.dropped)?;
    put_premises_line(page, sink, &premises_of(&tried.premises, collector))
}

// Which premises hold.
fn premises_of(premises: &Premises, collector: &Collector) -> TrialPremises
    ensures { (l : Bounds) (lines : List Line) → Lawful lines → Premised premises.now (history_of lines) (deliveries_of lines)
        → premises.now.limits ≡ l → StandsFor collector.now.books l (items_in (received_in lines))
        → result ≡ premises_in l lines }
{
    scripts_are_histories();
    scripts_are_accepted();
    let totals = collector.totals();
    TrialPremises {
        visible: premises.visible(),
        close: premises.close(),
        roomy: roomy(totals.unlisted, totals.unlisted_samples),
        apparent: premises.apparent(),
    }
}
