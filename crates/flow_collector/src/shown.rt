ghost use Rattle.std.specs.Prelude.{◌≡◌, Option, None};
ghost use Rattle.books_spec.specs.InterfaceRise.{InterfaceCounters};
ghost use Rattle.flow_collector.specs.Headers.{flow_id, flow_reading};
ghost use Rattle.flow_collector.specs.Shown.{id_shown, sample_shown, flow_of, counters_of};

use collector_tables::SampleKind;
use data_format::{CountersHead, FlowHead, SourceId};
use stream_books::SampleReading;

/// What a sample shows: its source within a stream, and its reading.
#[derive(Debug, Clone, Copy)]
pub struct Shown {
    /// Whether a flow sample or a counters sample.
    pub kind: SampleKind,
    /// What was sampled or counted.
    pub source: SourceId,
    pub reading: SampleReading,
}

/// What a flow sample of this head shows.
pub(crate) fn flow_shown(head: &FlowHead) -> Shown
    ensures sample { sample_shown result None ≡ flow_of head.now }
    ensures id { id_shown result ≡ flow_id head.now }
    ensures reading { result.reading ≡ flow_reading head.now }
{
    Shown {
        kind: SampleKind::Flow,
        source: head.source,
        reading: SampleReading {
            sequence: head.sequence,
            pool: head.pool,
            drops: head.drops,
            rate: head.rate,
        },
    }
}

/// What a counters sample of this head shows, whatever counters it carries.
pub(crate) fn counters_shown(head: &CountersHead) -> Shown
    ensures { (carried : Option InterfaceCounters) → sample_shown result carried ≡ counters_of head.now carried }
{
    Shown {
        kind: SampleKind::Counters,
        source: head.source,
        reading: SampleReading {
            sequence: head.sequence,
            pool: 0,
            drops: 0,
            rate: 0,
        },
    }
}
