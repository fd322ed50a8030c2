// The headers of flow samples, on their way to the consumers.
ghost use Rattle.std.specs.Prelude.{◌≡◌, ◌+◌, ◌<◌, ◌^◌, List, [], ◌∷◌, map, vec_len};
ghost use Rattle.data_format.specs.Trees.{frame_tree, frame_trees};
ghost use Rattle.data_format.specs.Views.{FrameView};
ghost use Rattle.datagram_core.specs.declared.records.RecordKind.TheVariants.{Flow};
ghost use Rattle.datagram_core.specs.Kinds.{HasKind};
ghost use Rattle.datagram_core.specs.Records.{record_tree};
ghost use Rattle.datagram_core.specs.Samples.{HasRecords, sample_tree};
ghost use Rattle.datagram_core.specs.Tables.{flow_records_read, samples_read};
ghost use Rattle.sample_taps.specs.Passing.{Passes};
ghost use Rattle.flow_collector.specs.Headers.{brief_from, header_in, header_shown, headers_among, headers_of, is_flow_sample};

use data_format::FlowHead;
use datagram_core::{Record, Records, Sample, Samples};
use rec_headers::RawHeader;
use sample_taps::{Briefing, Sampled, Tap, Taps};

/// Gives the headers of a sample to the consumers, the first one that is left, by the head of a flow sample and the number
/// of its stream.
#[inline(always)]
pub(crate) fn push_headers(
    briefing: &mut Briefing,
    taps: &mut Taps,
    stream: u32,
    head: &FlowHead,
    mut ahead: Samples<'_>,
)
    requires { taps.old.ended + vec_len taps.old.held < 2 ^ 64 }
    ensures passes { (f : FrameView) (rest : List FrameView) → ahead.entry ≡ f ∷ rest
        → Passes (λ x b y. (v : _) × (y ≡ record x { value = v }) × (⟦<dyn Tap as Tap>⟧ x.vtable).step x.value b v)
        (λ x. (⟦<dyn Tap as Tap>⟧ x.vtable).ended x.value) briefing.old taps.old.held.items
        (map (brief_from stream head.now) (headers_of (frame_tree samples_read f))) briefing.new taps.new.held.items }
    ensures ended { taps.new.ended + vec_len taps.new.held ≡ taps.old.ended + vec_len taps.old.held }
{
    if let Some(sample) = ahead.next() {
        push_sample(briefing, taps, stream, head, &sample);
    }
}

// Gives the headers of a sample to the consumers.
fn push_sample(
    briefing: &mut Briefing,
    taps: &mut Taps,
    stream: u32,
    head: &FlowHead,
    sample: &Sample<'_>,
)
    requires few { taps.old.ended + vec_len taps.old.held < 2 ^ 64 }
    requires records { HasRecords sample.now }
    ensures passes { Passes (λ x b y. (v : _) × (y ≡ record x { value = v }) × (⟦<dyn Tap as Tap>⟧ x.vtable).step x.value b v)
        (λ x. (⟦<dyn Tap as Tap>⟧ x.vtable).ended x.value) briefing.old taps.old.held.items
        (map (brief_from stream head.now) (headers_of (sample_tree sample.now))) briefing.new taps.new.held.items }
    ensures ended { taps.new.ended + vec_len taps.new.held ≡ taps.old.ended + vec_len taps.old.held }
{
    if has_headers(sample) {
        push_records(briefing, taps, stream, head, sample.records());
    }
}

// Whether it is a flow sample.
fn has_headers(sample: &Sample<'_>) -> bool
    ensures { result ≡ is_flow_sample sample.now }
{
    match sample {
        Sample::Flow(_) => true,
        Sample::Counters(_) => false,
        Sample::FlowX(_) => true,
        Sample::CountersX(_) => false,
        Sample::Other(_) => false,
    }
}

// Gives the headers among the records of a flow sample to the consumers.
fn push_records(
    briefing: &mut Briefing,
    taps: &mut Taps,
    stream: u32,
    head: &FlowHead,
    mut records: Records<'_>,
)
    requires few { taps.old.ended + vec_len taps.old.held < 2 ^ 64 }
    requires kind { records.kind ≡ Flow }
    ensures passes { Passes (λ x b y. (v : _) × (y ≡ record x { value = v }) × (⟦<dyn Tap as Tap>⟧ x.vtable).step x.value b v)
        (λ x. (⟦<dyn Tap as Tap>⟧ x.vtable).ended x.value) briefing.old taps.old.held.items
        (map (brief_from stream head.now) (headers_among (frame_trees flow_records_read records.entry.frames)))
        briefing.new taps.new.held.items }
    ensures ended { taps.new.ended + vec_len taps.new.held ≡ taps.old.ended + vec_len taps.old.held }
{
    while let Some(item) = records.next() {
        push_record(briefing, taps, stream, head, item);
    }
}

// Gives the header that a record of a flow sample is to the consumers.
fn push_record(
    briefing: &mut Briefing,
    taps: &mut Taps,
    stream: u32,
    head: &FlowHead,
    item: Record<'_>,
)
    requires few { taps.old.ended + vec_len taps.old.held < 2 ^ 64 }
    requires kind { HasKind Flow item }
    ensures passes { Passes (λ x b y. (v : _) × (y ≡ record x { value = v }) × (⟦<dyn Tap as Tap>⟧ x.vtable).step x.value b v)
        (λ x. (⟦<dyn Tap as Tap>⟧ x.vtable).ended x.value) briefing.old taps.old.held.items
        (map (brief_from stream head.now) (header_in (record_tree item.entry))) briefing.new taps.new.held.items }
    ensures ended { taps.new.ended + vec_len taps.new.held ≡ taps.old.ended + vec_len taps.old.held }
{
    if let Record::RawHeader(raw) = item {
        push_header(briefing, taps, stream, head, &raw);
    }
}

// Gives a header to the consumers.
fn push_header(
    briefing: &mut Briefing,
    taps: &mut Taps,
    stream: u32,
    head: &FlowHead,
    raw: &RawHeader<'_>,
)
    requires few { taps.old.ended + vec_len taps.old.held < 2 ^ 64 }
    ensures passes { Passes (λ x b y. (v : _) × (y ≡ record x { value = v }) × (⟦<dyn Tap as Tap>⟧ x.vtable).step x.value b v)
        (λ x. (⟦<dyn Tap as Tap>⟧ x.vtable).ended x.value) briefing.old taps.old.held.items
        (brief_from stream head.now (header_shown raw.now) ∷ []) briefing.new taps.new.held.items }
    ensures ended { taps.new.ended + vec_len taps.new.held ≡ taps.old.ended + vec_len taps.old.held }
{
    let sampled = Sampled {
        stream,
        class: head.source.class,
        index: head.source.index,
        rate: head.rate,
        frame_length: raw.frame_length,
    };
    briefing.push(taps, &sampled, raw.protocol, raw.header);
}
