// The interface counters that counters samples carry, and the ledgers that they are entered into.
ghost use Rattle.std.specs.Prelude.{◌≡◌, ℕ, ◌<◌, false, List, ◌∷◌, Some, length, slice_get, slice_set};
ghost use Rattle.data_format.specs.declared.heads.CountersHead.{CountersHead};
ghost use Rattle.data_format.specs.declared.heads.Form.{Form};
ghost use Rattle.data_format.specs.Trees.{frame_tree, frame_trees};
ghost use Rattle.data_format.specs.Views.{FrameView};
ghost use Rattle.datagram_core.specs.declared.records.RecordKind.TheVariants.{Counters};
ghost use Rattle.datagram_core.specs.Kinds.{HasKind};
ghost use Rattle.datagram_core.specs.Records.{record_tree};
ghost use Rattle.datagram_core.specs.SampleHeads.{AreCountersIn};
ghost use Rattle.datagram_core.specs.Tables.{counter_records_read, samples_read};
ghost use Rattle.books_spec.specs.PlacedSamples.{InterfaceSample};
ghost use Rattle.books_spec.specs.WholeBooks.{interface_of};
ghost use Rattle.stream_books.specs.declared.source.SourceRecord.{SourceRecord};
ghost use Rattle.collector_tables.specs.declared.keys.SourceKey.{SourceKey};
ghost use Rattle.collector_tables.specs.Kinds.{is_flow_kind};
ghost use Rattle.if_ledger.specs.Boots.{StandsForBoots, added, TakesAny};
ghost use Rattle.if_ledger.specs.Ledgers.{IfState};
ghost use Rattle.if_ledger.specs.Records.{counters_in};
ghost use Rattle.flow_collector.specs.Interfaces.{run_in, number_booked, number_answered, IsReady, IsReadyFor, AreEnteredFor};
ghost use Rattle.flow_collector.specs.Items.{interface_in, first_interface, sample_in};
ghost use Rattle.flow_collector.specs.Shown.{carried_in, counters_of, is_counters_sample};

use collector_tables::{EnteredAt, SampleKind, SourceTable};
use collector_views::IfView;
use datagram_core::{Record, Records, Sample, Samples};
use if_ledger::{IfLedger, IfTable};
use rec_counters::IfCounters;
use stream_books::{Booked, Entered, SourceRecord};

/// The counters of the first record of interface counters of a counters sample, the first one that is left; `None`
/// where it has none.
pub(crate) fn carried_by<'a>(mut ahead: Samples<'a>) -> Option<IfCounters<'a>>
    ensures { (form : Form) (f : FrameView) (rest : List FrameView) (h : CountersHead) → ahead.entry ≡ f ∷ rest
        → AreCountersIn form f h → counters_of h (carried_in result) ≡ sample_in (frame_tree samples_read f) }
{
    let sample = ahead.next()?;
    if !has_counters(&sample) {
        return None;
    }
    first_carried(sample.records())
}

// Whether it is a counters sample.
fn has_counters(sample: &Sample<'_>) -> bool
    ensures { result ≡ is_counters_sample sample.now }
{
    match sample {
        Sample::Flow(_) => false,
        Sample::Counters(_) => true,
        Sample::FlowX(_) => false,
        Sample::CountersX(_) => true,
        Sample::Other(_) => false,
    }
}

// The first record of interface counters among these of a counters sample.
fn first_carried<'a>(mut records: Records<'a>) -> Option<IfCounters<'a>>
    requires { records.kind ≡ Counters }
    ensures { carried_in result ≡ first_interface (frame_trees counter_records_read records.entry.frames) }
{
    while let Some(item) = records.next() {
        if let Some(found) = interface_counters(item) {
            return Some(found);
        }
    }
    None
}

// The record of a counters sample, where it is one of interface counters.
fn interface_counters<'a>(item: Record<'a>) -> Option<IfCounters<'a>>
    requires { HasKind Counters item }
    ensures { carried_in result ≡ interface_in (record_tree item.entry) }
{
    match item {
        Record::IfCounters(found) => Some(found),
        _ => None,
    }
}

/// Lists the source of a sample that was entered, and enters the counters that the sample carries into its ledger,
/// where the sample is First.
pub(crate) fn enter_carried(
    interfaces: &mut IfTable,
    sources: &SourceTable,
    entered: &Option<EnteredAt>,
    carried: &Option<IfCounters<'_>>,
)
    requires ready { IsReadyFor interfaces.old.ledgers interfaces.old.limit sources.now.entries entered.now }
    ensures entered { AreEnteredFor interfaces.old.ledgers interfaces.new.ledgers sources.now.entries
        (carried_in carried.now) entered.now }
    ensures limit { interfaces.new.limit ≡ interfaces.old.limit }
{
    if let Some(entered) = entered {
        interfaces.list(entered.place);
        if let Some(counters) = carried {
            enter_first(interfaces, sources, entered, counters);
        }
    }
}

// Enters the counters of a sample into the ledger of its source, where the sample is First.
fn enter_first(
    interfaces: &mut IfTable,
    sources: &SourceTable,
    entered: &EnteredAt,
    counters: &IfCounters<'_>,
)
    requires place { entered.now.place < length interfaces.old.ledgers }
    requires ready { (k : SourceKey) × (s : SourceRecord)
        × (slice_get sources.now.entries entered.now.place ≡ Some (k, s))
        × IsReady interfaces.old.ledgers interfaces.old.limit entered.now.place (run_in s) }
    ensures now { (k : SourceKey) (s : SourceRecord) (was : IfState)
        → slice_get sources.now.entries entered.now.place ≡ Some (k, s)
        → slice_get interfaces.old.ledgers entered.now.place ≡ Some was
        → (now : IfState) × (interfaces.new.ledgers ≡ slice_set interfaces.old.ledgers entered.now.place now)
        × TakesAny (run_in s) (added entered.now.booked (Some (counters_in counters.now))) was now }
    ensures limit { interfaces.new.limit ≡ interfaces.old.limit }
{
    if let Some(number) = first_number(entered.booked) {
        let run = run_at(sources, entered.place);
        interfaces.enter(entered.place, run, number, counters);
    }
}

// The number of a sample that was answered so, where it is First.
fn first_number(booked: Booked) -> Option<i128>
    ensures { result ≡ number_booked booked }
{
    match booked {
        Booked::Entered(answer) => number_of(answer),
        Booked::Past => None,
    }
}

fn number_of(answer: Entered) -> Option<i128>
    ensures { result ≡ number_answered answer }
{
    match answer {
        Entered::First { number, .. } => Some(number),
        Entered::Repeat => None,
        Entered::Late => None,
    }
}

// How many generations the source at a place had in all boots.
fn run_at(sources: &SourceTable, place: u32) -> u64
    requires { place < length sources.now.entries }
    ensures { (k : SourceKey) (s : SourceRecord) → slice_get sources.now.entries place ≡ Some (k, s) → result ≡ run_in s }
{
    match sources.get(place as usize) {
        Some((_, source)) => run_of(source),
        None => 0,
    }
}

fn run_of(source: &SourceRecord) -> u64
    ensures { result ≡ run_in source.now }
{
    match source {
        SourceRecord::Flow(ledger) => ledger.generations(),
        SourceRecord::Counters(ledger) => ledger.generations(),
    }
}

/// What is shown of the interface counters of a source of this kind.
pub(crate) fn interface_view(kind: SampleKind, ledger: &IfLedger) -> Option<IfView>
    ensures { (width : ℕ) (boots : List (List InterfaceSample)) → StandsForBoots width ledger.now boots
        → result ≡ interface_of (is_flow_kind kind) width boots }
{
    match kind {
        SampleKind::Flow => None,
        SampleKind::Counters => carried_view(ledger),
    }
}

// What is shown of the interface counters of a source of counters samples; `None` where no sample carried any.
fn carried_view(ledger: &IfLedger) -> Option<IfView>
    ensures { (width : ℕ) (boots : List (List InterfaceSample)) → StandsForBoots width ledger.now boots
        → result ≡ interface_of false width boots }
{
    let samples = ledger.samples();
    if samples == 0 {
        return None;
    }
    let rises = ledger.rises();
    Some(IfView { samples, rises })
}
