use crate::ExpandedForm;
use data_format::{Fault, FlowHead, HeadForm, Port, SampleBody, SourceId};
use xdr_words::{Cursor, Item, Out, OutFull, write_run};

/// A flow sample in the expanded form, format 3 of the standard (sFlow Version 5, section 5): its head, the frames of
/// its records, and the bytes behind them. Contracts see these three.
pub type FlowSampleX<'a> = SampleBody<'a, FlowHead, ExpandedForm>;

impl HeadForm<FlowHead> for ExpandedForm {
    ghost use Rattle.data_format.specs.declared.heads.Form.TheVariants.{Expanded};
    ghost use Rattle.data_format.specs.Samples.{IsFlowHead, flow_members, flow_trees};

    ghost members = { flow_members Expanded };

    ghost trees = { flow_trees Expanded };

    ghost fits = { IsFlowHead Expanded };

    // Sequence number, source, rate, pool, drops, input and output.
    #[inline(always)]
    fn take(cursor: &mut Cursor<'_>) -> Result<FlowHead, Fault> {
        let mut next = cursor.fork();
        let head = FlowHead {
            sequence: next.word()?,
            source: SourceId {
                class: next.word()?,
                index: next.word()?,
            },
            rate: next.word()?,
            pool: next.word()?,
            drops: next.word()?,
            input: Port {
                form: next.word()?,
                value: next.word()?,
            },
            output: Port {
                form: next.word()?,
                value: next.word()?,
            },
        };
        *cursor = next;
        Ok(head)
    }

    #[inline(always)]
    fn put(head: &FlowHead, out: &mut Out<'_>) -> Result<(), OutFull> {
        let items = [
            Item::Word(head.sequence),
            Item::Word(head.source.class),
            Item::Word(head.source.index),
            Item::Word(head.rate),
            Item::Word(head.pool),
            Item::Word(head.drops),
            Item::Word(head.input.form),
            Item::Word(head.input.value),
            Item::Word(head.output.form),
            Item::Word(head.output.value),
        ];
        write_run(out, &items, &[])
    }
}
