// The samples of a First datagram: into the books, and the headers of those that are First to the consumers.
ghost use Rattle.std.specs.Prelude.{◌≡◌, ◌+◌, ◌≤◌, ◌<◌, ◌^◌, List, [], ◌∷◌, length, map, vec_len, IfNone, IfSome};
ghost use Rattle.data_format.specs.Trees.{frame_tree, frame_trees};
ghost use Rattle.data_format.specs.Views.{FrameView};
ghost use Rattle.datagram_core.specs.SampleHeads.{IsHeadOf};
ghost use Rattle.datagram_core.specs.Tables.{samples_read};
ghost use Rattle.books_spec.specs.declared.limits.Limits.{Limits};
ghost use Rattle.books_spec.specs.Items.{Datagram as Given, Item, Got};
ghost use Rattle.books_spec.specs.SampledHeaders.{headers_at};
ghost use Rattle.sample_taps.specs.BookBriefs.{brief_in};
ghost use Rattle.sample_taps.specs.Passing.{Passes};
ghost use Rattle.flow_collector.specs.Items.{sample_in, samples_in};
ghost use Rattle.flow_collector.specs.Collectors.{StandsFor};
ghost use Rattle.flow_collector.specs.Headers.{briefs_if, headers_entered, headers_of, stream_fed};
ghost use Rattle.flow_collector.specs.Shown.{flow_of};
ghost use Rattle.flow_collector.specs.Steps.{with_samples, with_sample, Enters, Midway};

use crate::books::Books;
use crate::headers::push_headers;
use collector_tables::TakenAt;
use data_format::FlowHead;
use datagram_core::{SampleHead, Samples};
use sample_taps::{Briefing, Tap, Taps};

/// Enters the samples of a datagram that was taken as though it had none, in their order. The headers of those that are
/// First flow samples go to the consumers.
pub(crate) fn enter_samples(
    books: &mut Books,
    briefing: &mut Briefing,
    taps: &mut Taps,
    found: &TakenAt,
    mut samples: Samples<'_>,
)
    requires room { taps.old.ended + vec_len taps.old.held < 2 ^ 64 }
    requires midway { Midway books.old found.now 0 }
    requires few { length samples ≤ 8191 }
    ensures stands { (l : Limits) (items : List Item) (d : Given) → Enters l items found.now d
        → StandsFor books.old l (Got (with_samples d []) ∷ items)
        → StandsFor books.new l (Got (with_samples d (samples_in (frame_trees samples_read samples.entry))) ∷ items) }
    ensures passes { (l : Limits) (items : List Item) (d : Given) → Enters l items found.now d
        → StandsFor books.old l (Got (with_samples d []) ∷ items)
        → Passes (λ x b y. (v : _) × (y ≡ record x { value = v }) × (⟦<dyn Tap as Tap>⟧ x.vtable).step x.value b v)
        (λ x. (⟦<dyn Tap as Tap>⟧ x.vtable).ended x.value) briefing.old taps.old.held.items
        (map brief_in (headers_entered l items d found.now.receipt.number samples.entry)) briefing.new taps.new.held.items }
    ensures ended { taps.new.ended + vec_len taps.new.held ≡ taps.old.ended + vec_len taps.old.held }
{
    let mut index = 0;
    while let Some((head, ahead)) = next_sample(&mut samples) {
        enter_sample(books, briefing, taps, found, index, &head, ahead);
        index += 1;
    }
}

// Enters the sample of this index of the datagram, by its head and as the first of those ahead.
fn enter_sample(
    books: &mut Books,
    briefing: &mut Briefing,
    taps: &mut Taps,
    found: &TakenAt,
    index: u32,
    head: &SampleHead,
    ahead: Samples<'_>,
)
    requires room { taps.old.ended + vec_len taps.old.held < 2 ^ 64 }
    requires midway { Midway books.old found.now index }
    requires few { index ≤ 8190 }
    ensures stands { (l : Limits) (items : List Item) (d : Given) (f : FrameView) (rest : List FrameView) → Enters l items found.now d
        → length d.samples ≡ index → ahead.entry ≡ f ∷ rest → IsHeadOf f head.now → StandsFor books.old l (Got d ∷ items)
        → StandsFor books.new l (Got (with_sample d (sample_in (frame_tree samples_read f))) ∷ items) }
    ensures passes { (l : Limits) (items : List Item) (d : Given) (f : FrameView) (rest : List FrameView) → Enters l items found.now d
        → length d.samples ≡ index → ahead.entry ≡ f ∷ rest → IsHeadOf f head.now → StandsFor books.old l (Got d ∷ items)
        → Passes (λ x b y. (v : _) × (y ≡ record x { value = v }) × (⟦<dyn Tap as Tap>⟧ x.vtable).step x.value b v)
        (λ x. (⟦<dyn Tap as Tap>⟧ x.vtable).ended x.value) briefing.old taps.old.held.items
        (map brief_in (headers_at l items d (record { datagram = found.now.receipt.number; index = index })
        (sample_in (frame_tree samples_read f)) (headers_of (frame_tree samples_read f)))) briefing.new taps.new.held.items }
    ensures ended { taps.new.ended + vec_len taps.new.held ≡ taps.old.ended + vec_len taps.old.held }
{
    match head {
        SampleHead::Flow(flow) => enter_flow(books, briefing, taps, found, index, flow, ahead),
        SampleHead::Counters(counters) => {
            books.enter_counters(found, index, counters, ahead);
        }
        SampleHead::Other => books.enter_other(found, index),
    }
}

// Enters the flow sample of this head. Where it is First its headers go to the consumers.
fn enter_flow(
    books: &mut Books,
    briefing: &mut Briefing,
    taps: &mut Taps,
    found: &TakenAt,
    index: u32,
    head: &FlowHead,
    ahead: Samples<'_>,
)
    requires room { taps.old.ended + vec_len taps.old.held < 2 ^ 64 }
    requires midway { Midway books.old found.now index }
    requires few { index ≤ 8190 }
    ensures stands { (l : Limits) (items : List Item) (d : Given) → Enters l items found.now d
        → length d.samples ≡ index → StandsFor books.old l (Got d ∷ items)
        → StandsFor books.new l (Got (with_sample d (flow_of head.now)) ∷ items) }
    ensures passes { (l : Limits) (items : List Item) (d : Given) (f : FrameView) (rest : List FrameView) → Enters l items found.now d
        → length d.samples ≡ index → ahead.entry ≡ f ∷ rest → StandsFor books.old l (Got d ∷ items)
        → Passes (λ x b y. (v : _) × (y ≡ record x { value = v }) × (⟦<dyn Tap as Tap>⟧ x.vtable).step x.value b v)
        (λ x. (⟦<dyn Tap as Tap>⟧ x.vtable).ended x.value) briefing.old taps.old.held.items
        (briefs_if (stream_fed l items d (record { datagram = found.now.receipt.number; index = index }) head.now) head.now
        (headers_of (frame_tree samples_read f))) briefing.new taps.new.held.items }
    ensures ended { taps.new.ended + vec_len taps.new.held ≡ taps.old.ended + vec_len taps.old.held }
{
    if let Some(stream) = books.enter_flow(found, index, head) {
        push_headers(briefing, taps, stream, head, ahead);
    }
}

// The head of the first sample that is left, which is then passed, and that sample with those behind it once more; `None`
// exactly where none is left.
#[inline(always)]
fn next_sample<'a>(samples: &mut Samples<'a>) -> Option<(SampleHead, Samples<'a>)>
    ensures none { IfNone result ((samples.old ≡ []) × (samples.new ≡ [])) }
    ensures some { IfSome result (λ p. (f : FrameView) × (samples.old ≡ f ∷ samples.new) × IsHeadOf f p.0 × (p.1 ≡ f ∷ samples.new)) }
{
    let ahead = samples.fork();
    let head = samples.next_head()?;
    Some((head, ahead))
}
