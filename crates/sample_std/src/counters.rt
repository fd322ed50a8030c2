use crate::CompactForm;
use data_format::{CountersHead, Fault, HeadForm, SampleBody, SourceId};
use xdr_words::{Cursor, Item, Out, OutFull, write_run};

/// A counters sample in the compact form, format 2 of the standard (sFlow Version 5, section 5): its head, the frames of
/// its records, and the bytes behind them. Contracts see these three.
pub type CountersSample<'a> = SampleBody<'a, CountersHead, CompactForm>;

impl HeadForm<CountersHead> for CompactForm {
    ghost use Rattle.data_format.specs.declared.heads.Form.TheVariants.{Compact};
    ghost use Rattle.data_format.specs.Samples.{IsCountersHead, counters_members, counters_trees};

    ghost members = { counters_members Compact };

    ghost trees = { counters_trees Compact };

    ghost fits = { IsCountersHead Compact };

    // Sequence number and source.
    #[inline(always)]
    fn take(cursor: &mut Cursor<'_>) -> Result<CountersHead, Fault> {
        let mut next = cursor.fork();
        let head = CountersHead {
            sequence: next.word()?,
            source: SourceId::from_compact(next.word()?),
        };
        *cursor = next;
        Ok(head)
    }

    #[inline(always)]
    fn put(head: &CountersHead, out: &mut Out<'_>) -> Result<(), OutFull> {
        let source = head.source.compact().unwrap();
        let items = [Item::Word(head.sequence), Item::Word(source)];
        write_run(out, &items, &[])
    }
}
