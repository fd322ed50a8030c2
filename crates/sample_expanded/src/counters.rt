use crate::ExpandedForm;
use data_format::{CountersHead, Fault, HeadForm, SampleBody, SourceId};
use xdr_words::{Cursor, Item, Out, OutFull, write_run};

/// A counters sample in the expanded form, format 4 of the standard (sFlow Version 5, section 5): its head, the frames
/// of its records, and the bytes behind them. Contracts see these three.
pub type CountersSampleX<'a> = SampleBody<'a, CountersHead, ExpandedForm>;

impl HeadForm<CountersHead> for ExpandedForm {
    ghost use Rattle.data_format.specs.declared.heads.Form.TheVariants.{Expanded};
    ghost use Rattle.data_format.specs.Samples.{IsCountersHead, counters_members, counters_trees};

    ghost members = { counters_members Expanded };

    ghost trees = { counters_trees Expanded };

    ghost fits = { IsCountersHead Expanded };

    // Sequence number and source.
    #[inline(always)]
    fn take(cursor: &mut Cursor<'_>) -> Result<CountersHead, Fault> {
        let mut next = cursor.fork();
        let head = CountersHead {
            sequence: next.word()?,
            source: SourceId {
                class: next.word()?,
                index: next.word()?,
            },
        };
        *cursor = next;
        Ok(head)
    }

    #[inline(always)]
    fn put(head: &CountersHead, out: &mut Out<'_>) -> Result<(), OutFull> {
        let items = [
            Item::Word(head.sequence),
            Item::Word(head.source.class),
            Item::Word(head.source.index),
        ];
        write_run(out, &items, &[])
    }
}
